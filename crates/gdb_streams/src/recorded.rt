//! A debugger whose packets are recorded.
ghost use Rattle.std.specs.Prelude.{◌≤◌, length};

use crate::debuggee::text_of;
use asm::assemble;
use gdbserver::Peer;
use std::alloc::{AllocError, Global};

/// The most bytes that are heard at once.
const PIECE: usize = 5;

/// The other end of a recorded session: its lines are heard one after the other, in pieces, and each line and what is
/// said after it is written down.
#[derive(Drop)]
pub(crate) struct Recorded<'a> {
    alloc: Global,
    /// The lines that were not heard yet.
    lines: &'a str,
    /// What was not heard yet of a line.
    line: &'a [u8],
    /// What is written down.
    pub(crate) told: String,
}

/// Puts what comes next of some bytes into the front of others, and returns how many that are, at most n, and the rest.
pub(crate) fn hear_next<'a>(next: &'a [u8], most: usize, bytes: &mut [u8]) -> (usize, &'a [u8])
    ensures { result.0 ≤ length bytes.old }
{
    let count = next.len().min(bytes.len()).min(most);
    let (heard, rest) = next.split_at(count);
    let (front, _) = bytes.split_at_mut(count);
    front.copy_from_slice(heard);
    (count, rest)
}

// Writes a byte as it is, or as digits where it is not printed.
fn push_byte(byte: u8, told: &mut String) -> Result<(), AllocError> {
    if byte == b'\\' || !(b' '..=b'~').contains(&byte) {
        return write!(told, "\\x{byte:02x}");
    }
    told.push(char::from(byte))
}

// Writes a line of bytes.
fn push_line(mark: &str, bytes: &[u8], told: &mut String) -> Result<(), AllocError> {
    told.push_str(mark)?;
    for byte in bytes {
        push_byte(*byte, told)?;
    }
    told.push_str("\n")
}

impl<'a> Recorded<'a> {
    /// These lines are heard.
    pub(crate) fn new(alloc: Global, lines: &'a str) -> Recorded<'a> {
        Recorded {
            alloc,
            lines,
            line: b"",
            told: String::new(alloc),
        }
    }

    // Begins the next line; where there is none, it stays at the end.
    fn begin_line(&mut self) {
        let (line, rest) = match self.lines.split_once('\n') {
            Some((line, rest)) => (line, rest),
            None => (self.lines, ""),
        };
        self.lines = rest;
        self.line = line.as_bytes();
        if !line.is_empty() {
            let _ = push_line("> ", line.as_bytes(), &mut self.told);
        }
    }
}

impl Peer for Recorded<'_> {
    fn hear(&mut self, bytes: &mut [u8]) -> usize {
        if self.line.is_empty() {
            self.begin_line();
        }
        let (count, rest) = hear_next(self.line, PIECE, bytes);
        self.line = rest;
        count
    }

    fn say(&mut self, bytes: &[u8]) -> bool {
        push_line("< ", bytes, &mut self.told).is_ok()
    }

    fn program(&mut self, path: &[u8]) -> Option<Vec<u8>> {
        assemble(self.alloc, text_of(path)?).ok()
    }
}
