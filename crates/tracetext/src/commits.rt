//! The comments of a commit log, for what the kernel did.

use crate::call_names::CallName;
use std::fmt;

/// How many bytes of memory a comment has at most.
pub const ROW: usize = 32;

// An address or a register's value, after what comes before it.
fn write_wide<W: fmt::Write>(f: &mut fmt::Formatter<W>, before: &str, value: u64) -> fmt::Result {
    write!(f, "{before}{value:#018x}")
}

// Bytes, as hexadecimal digits.
fn write_bytes<W: fmt::Write>(f: &mut fmt::Formatter<W>, bytes: &[u8]) -> fmt::Result {
    for byte in bytes {
        write!(f, "{byte:02x}")?;
    }
    Ok(())
}

/// A comment on a process.
#[derive(Clone, Copy)]
pub enum Note<'a> {
    /// The call of this number returned.
    Answered { number: u32, answer: i64 },
    /// Its memory has these bytes now.
    Memory { address: u64, bytes: &'a [u8] },
    /// How many bytes of memory it has.
    Size(u64),
    /// Where it goes on.
    Counter(u64),
    /// A register has this value.
    Register { number: usize, value: u64 },
    /// It ended with this status.
    Ended(i32),
}

/// A comment.
#[derive(Clone, Copy)]
pub struct Comment<'a> {
    pub pid: u32,
    pub note: Note<'a>,
}

// The bytes of memory from an address on.
fn write_memory<W: fmt::Write>(
    f: &mut fmt::Formatter<W>,
    address: u64,
    bytes: &[u8],
) -> fmt::Result {
    write_wide(f, "mem ", address)?;
    f.write_str(" ")?;
    write_bytes(f, bytes)
}

// What a call returned.
fn write_answer<W: fmt::Write>(f: &mut fmt::Formatter<W>, number: u32, answer: i64) -> fmt::Result {
    let name = CallName(number);
    write!(f, "{name} = {answer}")
}

// The value of a register.
fn write_value<W: fmt::Write>(f: &mut fmt::Formatter<W>, number: usize, value: u64) -> fmt::Result {
    write!(f, "x{number} {value:#018x}")
}

impl fmt::Display for Note<'_> {
    fn fmt<W: fmt::Write>(&self, f: &mut fmt::Formatter<W>) -> fmt::Result {
        match *self {
            Note::Answered { number, answer } => write_answer(f, number, answer),
            Note::Memory { address, bytes } => write_memory(f, address, bytes),
            Note::Size(size) => write!(f, "size {size}"),
            Note::Counter(pc) => write_wide(f, "pc ", pc),
            Note::Register { number, value } => write_value(f, number, value),
            Note::Ended(status) => write!(f, "ended with {status}"),
        }
    }
}

impl fmt::Display for Comment<'_> {
    fn fmt<W: fmt::Write>(&self, f: &mut fmt::Formatter<W>) -> fmt::Result {
        let (pid, note) = (self.pid, self.note);
        writeln!(f, "# pid {pid} {note}")
    }
}
