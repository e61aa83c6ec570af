//! The arguments of a call as text.

use crate::memory;
use arrayvec::ArrayVec;
use blockdev::BlockDev;
use jsonrows::{int, short};
use machine::{Call, Machine};
use std::alloc::AllocError;
use sv39::Translate;
use tracetext::{Asked, CallText, Quoted, Shown};

/// The most bytes of a path.
const MOST_PATH: usize = 127;

/// The most arguments of a program, with the 0 after them.
const MOST_ARGUMENTS: u64 = 32;

// Writes an argument as a number.
fn write_int(out: &mut String, argument: u64) -> Result<(), AllocError> {
    let number = int(argument);
    write!(out, "{number}")
}

// Writes an argument as an address.
fn write_address(out: &mut String, address: u64) -> Result<(), AllocError> {
    write!(out, "{address:#x}")
}

// Writes an argument as an address, after another argument.
fn write_next_address(out: &mut String, address: u64) -> Result<(), AllocError> {
    out.push_str(", ")?;
    write_address(out, address)
}

// Writes bytes in quotes.
fn write_quoted(out: &mut String, bytes: &[u8], is_cut: bool) -> Result<(), AllocError> {
    let quoted = Quoted { bytes, is_cut };
    write!(out, "{quoted}")
}

// Writes the text at an address, up to a 0 and quoted, or the address where none can be read.
fn write_string<D: BlockDev, T: Translate>(
    out: &mut String,
    machine: &Machine<D, T>,
    pid: u32,
    address: u64,
    most: usize,
) -> Result<(), AllocError> {
    let mut string = ArrayVec::<u8, MOST_PATH>::new();
    for at in 0..128 {
        let Some(byte) = memory::byte(machine, pid, address.wrapping_add(at)) else {
            return write_address(out, address);
        };
        if byte == 0 {
            return write_quoted(out, string.as_slice(), false);
        }
        if string.len() >= most || string.try_push(byte).is_err() {
            break;
        }
    }
    write_quoted(out, string.as_slice(), true)
}

// Writes the arguments of a program: texts up to an address of 0.
fn write_strings<D: BlockDev, T: Translate>(
    out: &mut String,
    machine: &Machine<D, T>,
    pid: u32,
    address: u64,
    most: usize,
) -> Result<(), AllocError> {
    for index in 0..MOST_ARGUMENTS {
        let place = address.wrapping_add(8 * index);
        let pointer = memory::double(machine, pid, place).unwrap_or(0);
        if pointer == 0 {
            break;
        }
        if index > 0 {
            out.push_str(", ")?;
        }
        write_string(out, machine, pid, pointer, most)?;
    }
    Ok(())
}

// Whether a file is opened to be read, to be written, or both.
fn access_name(flags: u64) -> &'static str {
    match flags % 4 {
        0 => "O_RDONLY",
        1 => "O_WRONLY",
        2 => "O_RDWR",
        _ => "O_WRONLY|O_RDWR",
    }
}

// What is to become of a file that is opened.
fn change_names(flags: u64) -> &'static str {
    match (flags & 0x200 != 0, flags & 0x400 != 0) {
        (false, false) => "",
        (false, true) => "|O_TRUNC",
        (true, false) => "|O_CREATE",
        (true, true) => "|O_CREATE|O_TRUNC",
    }
}

// Writes how a file is opened, by the names that xv6 has.
fn write_flags(out: &mut String, flags: u64) -> Result<(), AllocError> {
    out.push_str(access_name(flags))?;
    out.push_str(change_names(flags))?;
    let others = flags & 0xffff_f9fc;
    if others == 0 {
        Ok(())
    } else {
        write!(out, "|{others:#x}")
    }
}

// Takes bytes of a buffer; whether they can be read.
fn take_bytes<D: BlockDev, T: Translate>(
    data: &mut Vec<u8>,
    machine: &Machine<D, T>,
    pid: u32,
    address: u64,
    count: u64,
) -> Result<bool, AllocError> {
    for at in 0..count {
        let Some(byte) = memory::byte(machine, pid, address.wrapping_add(at)) else {
            data.clear();
            return Ok(false);
        };
        data.push(byte)?;
    }
    Ok(true)
}

// Takes the known bytes of a buffer, at most `most`; writes its address where none are known or can be read.
fn write_data<D: BlockDev, T: Translate>(
    text: &mut CallText,
    machine: &Machine<D, T>,
    asked: &Asked,
    known: Option<u64>,
    most: u64,
) -> Result<(), AllocError> {
    let [_, address, ..] = asked.arguments;
    let Some(count) = known else {
        return write_address(&mut text.back, address);
    };
    if !take_bytes(&mut text.data, machine, asked.pid, address, count.min(most))? {
        return write_address(&mut text.back, address);
    }
    text.shown = if count > most {
        Shown::Cut
    } else {
        Shown::Whole
    };
    Ok(())
}

// Writes a buffer, of which `known` bytes are known, and the count that was asked for.
fn write_buffer<D: BlockDev, T: Translate>(
    text: &mut CallText,
    machine: &Machine<D, T>,
    asked: &Asked,
    known: Option<u64>,
    most: usize,
) -> Result<(), AllocError> {
    let [descriptor, _, count, ..] = asked.arguments;
    write_int(&mut text.front, descriptor)?;
    text.front.push_str(", ")?;
    write_data(text, machine, asked, known, most as u64)?;
    text.back.push_str(", ")?;
    write_int(&mut text.back, count)
}

/// The status that a call of wait filled in.
pub(crate) fn status_of<D: BlockDev, T: Translate>(
    machine: &Machine<D, T>,
    asked: &Asked,
    answer: Option<i64>,
) -> Option<u32> {
    let [address, ..] = asked.arguments;
    match answer {
        Some(1..) => memory::word(machine, asked.pid, address),
        _ => None,
    }
}

// The arguments of wait: where a status goes, or the one that came.
fn write_status<D: BlockDev, T: Translate>(
    text: &mut CallText,
    machine: &Machine<D, T>,
    asked: &Asked,
    answer: Option<i64>,
) -> Result<(), AllocError> {
    let [address, ..] = asked.arguments;
    if address == 0 {
        return text.back.push_str("NULL");
    }
    match status_of(machine, asked, answer) {
        Some(status) => {
            let status = status.cast_signed();
            write!(text.back, "[{status}]")
        }
        None => write_address(&mut text.back, address),
    }
}

/// The descriptors that a call of pipe filled in.
pub(crate) fn ends_of<D: BlockDev, T: Translate>(
    machine: &Machine<D, T>,
    asked: &Asked,
    answer: Option<i64>,
) -> Option<u64> {
    let [address, ..] = asked.arguments;
    match answer {
        Some(0) => memory::double(machine, asked.pid, address),
        _ => None,
    }
}

// The arguments of pipe: where its descriptors go, or those that came.
fn write_ends<D: BlockDev, T: Translate>(
    text: &mut CallText,
    machine: &Machine<D, T>,
    asked: &Asked,
    answer: Option<i64>,
) -> Result<(), AllocError> {
    let [address, ..] = asked.arguments;
    match ends_of(machine, asked, answer) {
        Some(ends) => {
            let (read, write) = (int(ends), int(ends / 0x1_0000_0000));
            write!(text.front, "[{read}, {write}]")
        }
        None => write_address(&mut text.front, address),
    }
}

// Writes the arguments of a program that is to run, after its path.
fn write_program<D: BlockDev, T: Translate>(
    out: &mut String,
    machine: &Machine<D, T>,
    asked: &Asked,
    most: usize,
) -> Result<(), AllocError> {
    let [_, arguments, ..] = asked.arguments;
    out.push_str(", [")?;
    write_strings(out, machine, asked.pid, arguments, most)?;
    out.push_str("]")
}

// Writes the second path of a call, after the first one.
fn write_second_path<D: BlockDev, T: Translate>(
    out: &mut String,
    machine: &Machine<D, T>,
    asked: &Asked,
) -> Result<(), AllocError> {
    let [_, path, ..] = asked.arguments;
    out.push_str(", ")?;
    write_string(out, machine, asked.pid, path, MOST_PATH)
}

// Writes how a file is opened, after its path.
fn write_opening(out: &mut String, asked: &Asked) -> Result<(), AllocError> {
    let [_, flags, ..] = asked.arguments;
    out.push_str(", ")?;
    write_flags(out, flags)
}

// Writes the numbers of a device, after its path.
fn write_device(out: &mut String, asked: &Asked) -> Result<(), AllocError> {
    let [_, major, minor, ..] = asked.arguments;
    let (major, minor) = (short(major), short(minor));
    write!(out, ", {major}, {minor}")
}

// The arguments of a call whose first one is a path.
fn write_path_call<D: BlockDev, T: Translate>(
    out: &mut String,
    machine: &Machine<D, T>,
    asked: &Asked,
    call: Call,
    most: usize,
) -> Result<(), AllocError> {
    let [path, ..] = asked.arguments;
    write_string(out, machine, asked.pid, path, MOST_PATH)?;
    match call {
        Call::Exec => write_program(out, machine, asked, most),
        Call::Open => write_opening(out, asked),
        Call::Mknod => write_device(out, asked),
        Call::Link => write_second_path(out, machine, asked),
        _ => Ok(()),
    }
}

// Three arguments of a number that no call has.
fn write_unknown(out: &mut String, asked: &Asked) -> Result<(), AllocError> {
    let [first, second, third, ..] = asked.arguments;
    write_address(out, first)?;
    write_next_address(out, second)?;
    write_next_address(out, third)
}

// Writes the arguments of fstat: a descriptor, and where the file's status goes.
fn write_stat(out: &mut String, asked: &Asked) -> Result<(), AllocError> {
    let [descriptor, address, ..] = asked.arguments;
    write_int(out, descriptor)?;
    write_next_address(out, address)
}

/// How many bytes a call of read filled in, where that is known.
pub(crate) fn count_read(answer: Option<i64>) -> Option<u64> {
    match answer {
        Some(count) if count >= 0 => Some(count.cast_unsigned()),
        _ => None,
    }
}

/// How many bytes a call of write takes; `None` where its count is below 0.
pub(crate) fn count_written(asked: &Asked) -> Option<u64> {
    let [_, _, count, ..] = asked.arguments;
    let count = int(count);
    if count < 0 {
        None
    } else {
        Some(u64::from(count.cast_unsigned()))
    }
}

/// Writes the arguments of a call; what it fills in is written where its answer is known.
pub(crate) fn describe<D: BlockDev, T: Translate>(
    text: &mut CallText,
    machine: &Machine<D, T>,
    asked: &Asked,
    answer: Option<i64>,
    most: usize,
) -> Result<(), AllocError> {
    text.clear();
    let Some(call) = asked.call() else {
        return write_unknown(&mut text.front, asked);
    };
    match call {
        Call::Fork | Call::Getpid | Call::Uptime => Ok(()),
        Call::Exit | Call::Kill | Call::Dup | Call::Sbrk | Call::Sleep | Call::Close => {
            write_int(&mut text.front, asked.arguments[0])
        }
        Call::Wait => write_status(text, machine, asked, answer),
        Call::Pipe => write_ends(text, machine, asked, answer),
        Call::Read => write_buffer(text, machine, asked, count_read(answer), most),
        Call::Write => write_buffer(text, machine, asked, count_written(asked), most),
        Call::Fstat => write_stat(&mut text.front, asked),
        Call::Exec
        | Call::Open
        | Call::Mknod
        | Call::Link
        | Call::Chdir
        | Call::Unlink
        | Call::Mkdir => write_path_call(&mut text.front, machine, asked, call, most),
    }
}
