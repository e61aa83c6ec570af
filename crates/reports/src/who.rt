//! The names of programs: the paths that exec was given.

use blockdev::BlockDev;
use jsonrows::Latin;
use machine::Machine;
use std::fmt;
use sv39::Translate;

/// The longest path that exec takes, in bytes.
const LONGEST: usize = 127;

/// The name of a program.
#[derive(Clone, Copy)]
pub struct Name {
    bytes: [u8; LONGEST],
    length: usize,
}

// A byte that a process may read.
fn byte_at<D: BlockDev, T: Translate>(
    machine: &Machine<D, T>,
    pid: u32,
    address: u64,
) -> Option<u8> {
    let (page, marks) = machine.peek(pid, address / 4096)?;
    if !marks.u {
        return None;
    }
    page.get((address % 4096) as usize).copied()
}

impl Name {
    /// The name of these bytes, of which no more than 127 are kept.
    pub(crate) fn new(text: &[u8]) -> Name {
        let mut bytes = [0; LONGEST];
        let length = text.len().min(LONGEST);
        bytes[..length].copy_from_slice(&text[..length]);
        Name { bytes, length }
    }

    /// The string at an address of a process, if it is a path.
    pub(crate) fn at<D: BlockDev, T: Translate>(
        machine: &Machine<D, T>,
        pid: u32,
        address: u64,
    ) -> Option<Name> {
        let mut name = Name::new(&[]);
        for place in 0..=LONGEST {
            let byte = byte_at(machine, pid, address.wrapping_add(place as u64))?;
            if byte == 0 {
                name.length = place;
                return Some(name);
            }
            if place < LONGEST {
                name.bytes[place] = byte;
            }
        }
        None
    }

    /// The name as a text of JSON.
    pub(crate) fn latin(&self) -> Latin<'_> {
        Latin(self.shown())
    }

    /// What is printed of it: the path.
    pub(crate) fn shown(&self) -> &[u8] {
        match self.bytes.get(..self.length) {
            Some(shown) => shown,
            None => &self.bytes,
        }
    }
}

// A byte as it is, if it is printed as a character.
fn write_byte<W: fmt::Write>(f: &mut fmt::Formatter<W>, byte: u8) -> fmt::Result {
    if byte.is_ascii_graphic() {
        f.write_char(char::from(byte))
    } else {
        write!(f, "\\x{byte:02x}")
    }
}

impl fmt::Display for Name {
    fn fmt<W: fmt::Write>(&self, f: &mut fmt::Formatter<W>) -> fmt::Result {
        for byte in self.shown() {
            write_byte(f, *byte)?;
        }
        Ok(())
    }
}

/// A process and its program: `pid 3 (cat)`.
#[derive(Clone, Copy)]
pub struct Who {
    pub pid: u32,
    pub name: Option<Name>,
}

impl Who {
    /// The name of its program as a text of JSON, if it is known.
    pub(crate) fn program(&self) -> Option<Latin<'_>> {
        match &self.name {
            Some(name) => Some(name.latin()),
            None => None,
        }
    }
}

impl fmt::Display for Who {
    fn fmt<W: fmt::Write>(&self, f: &mut fmt::Formatter<W>) -> fmt::Result {
        let pid = self.pid;
        match self.name {
            Some(name) => write!(f, "pid {pid} ({name})"),
            None => write!(f, "pid {pid}"),
        }
    }
}
