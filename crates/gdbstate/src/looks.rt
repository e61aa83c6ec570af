//! What a machine shows of the registers and the memory of a process.
ghost use Rattle.std.specs.Prelude.{◌≡◌, ◌+◌, ◌++◌, IfOk, OnOk, min, option_map};
ghost use Rattle.gdbstate.specs.Looks.{byte_from, byte_shown, bytes_shown, memory_answer, register_answer};
ghost use Rattle.gdbstate.specs.Looks.{registers_answer, register_numbered};
ghost use Rattle.machine.specs.Seen.{seen_of};
ghost use Rattle.unixmodel.specs.Shown.{shown_process};

use gdbreplies::{LONGEST_PART, push_error, push_register, push_registers};
use gdbwire::{Part, push_bytes};
use machine::Seen;
use std::alloc::{AllocError, Global};
use timeline::Debuggee;

/// The error number where there is no such process or register: EPERM.
pub const NOT_THERE: u8 = 1;

/// The error number where a process has no page: EFAULT.
const NO_PAGE: u8 = 14;

/// The byte at an address of a process, whatever the marks of its page are.
#[tactic(auto, unfolding(crate::specs::Looks::byte_shown))]
pub fn byte_at(machine: &Debuggee, pid: u32, address: u64) -> Option<u8>
    ensures { result ≡ byte_shown machine.now.state pid address }
{
    let (page, _) = machine.peek(pid, address / 4096)?;
    page.get((address % 4096) as usize).copied()
}

// The byte that is n bytes after an address of a process; `None` where that is no address.
fn byte_after(machine: &Debuggee, pid: u32, address: u64, count: u32) -> Option<u8>
    ensures { result ≡ byte_from machine.now.state pid (address + count) }
{
    let address = address.checked_add(u64::from(count))?;
    byte_at(machine, pid, address)
}

/// The bytes from an address of a process on, at most n and no further than its pages.
pub fn bytes_at(
    alloc: Global,
    machine: &Debuggee,
    pid: u32,
    address: u64,
    count: u32,
) -> Result<Vec<u8>, AllocError>
    ensures { IfOk result (λ bytes. bytes.items ≡ bytes_shown machine.now.state pid address count) }
{
    let mut bytes = Vec::new(alloc);
    for index in 0..count {
        match byte_after(machine, pid, address, index) {
            None => return Ok(bytes),
            Some(byte) => bytes.extend_from_slice(&[byte])?,
        }
    }
    Ok(bytes)
}

/// Puts the registers of a process at the end, or an error where there is none.
pub fn push_registers_of(machine: &Debuggee, pid: u32, out: &mut Vec<u8>) -> Result<(), AllocError>
    ensures { OnOk result
        (out.new.items ≡ out.old.items
        ++ registers_answer (option_map seen_of (shown_process machine.now.state pid))) }
{
    match machine.inspect(pid) {
        Some(seen) => push_registers(&seen.registers, seen.pc, out),
        None => push_error(NOT_THERE, out),
    }
}

// The register of a process with a number, of which the pc is number 32; `None` where there is none.
fn register_numbered(seen: &Seen, number: u64) -> Option<u64>
    ensures { result ≡ register_numbered number seen.now }
{
    if number == 32 {
        return Some(seen.pc);
    }
    seen.registers.get(number as usize).copied()
}

/// Puts a register of a process at the end, of which the pc is number 32, or an error where there is none.
pub fn push_register_of(
    machine: &Debuggee,
    pid: u32,
    number: u64,
    out: &mut Vec<u8>,
) -> Result<(), AllocError>
    ensures { OnOk result
        (out.new.items ≡ out.old.items
        ++ register_answer number (option_map seen_of (shown_process machine.now.state pid))) }
{
    let Some(seen) = machine.inspect(pid) else {
        return push_error(NOT_THERE, out);
    };
    match register_numbered(&seen, number) {
        Some(value) => push_register(value, out),
        None => push_error(NOT_THERE, out),
    }
}

/// Puts bytes of a process at the end, at most 4096 and no further than its pages, or an error where the first is not
/// there.
pub fn push_memory_of(
    alloc: Global,
    machine: &Debuggee,
    pid: u32,
    part: Part,
    out: &mut Vec<u8>,
) -> Result<(), AllocError>
    ensures { OnOk result (out.new.items
        ≡ out.old.items ++ memory_answer (bytes_shown machine.now.state pid part.from (min part.count 4096))) }
{
    let count = part.count.min(LONGEST_PART) as u32;
    let bytes = bytes_at(alloc, machine, pid, part.from, count)?;
    let bytes = bytes.as_slice();
    if bytes.is_empty() {
        return push_error(NO_PAGE, out);
    }
    push_bytes(bytes, out)
}
