//! Characters and strings between quotes.
ghost use Rattle.std.specs.Prelude.{◌≤◌, ◌<◌};

use crate::fault::Wrong;
use std::alloc::{AllocError, Global};

/// A character as it is written: its byte, and how many characters write it.
#[derive(Clone, Copy)]
pub struct Written {
    pub byte: u8,
    pub length: usize,
}

// The byte of a backslash and a letter.
fn escaped(c: u8) -> Option<u8> {
    match c {
        b'n' => Some(b'\n'),
        b't' => Some(b'\t'),
        b'r' => Some(b'\r'),
        b'b' => Some(8),
        b'f' => Some(12),
        b'v' => Some(11),
        b'\\' | b'"' | b'\'' => Some(c),
        _ => None,
    }
}

fn octal(c: u8) -> u8
    ensures { result < 8 }
{
    if c >= b'0' && c <= b'7' { c - b'0' } else { 0 }
}

fn is_octal(c: u8) -> bool {
    c >= b'0' && c <= b'7'
}

// How many of the first three characters are octal digits.
fn octal_length(text: &[u8]) -> usize {
    text.iter().take(3).take_while(|c| is_octal(**c)).count()
}

// The lowest byte of the number that octal digits write.
fn octal_byte(digits: &[u8]) -> u8 {
    let mut byte = 0u8;
    for c in digits {
        byte = byte.wrapping_mul(8).wrapping_add(octal(*c));
    }
    byte
}

fn hexadecimal(c: u8) -> Option<u8> {
    match c {
        b'0'..=b'9' => Some(c - b'0'),
        b'A'..=b'F' => Some(c - b'A' + 10),
        b'a'..=b'f' => Some(c - b'a' + 10),
        _ => None,
    }
}

// What hexadecimal digits write, after a backslash and an x.
fn hexadecimal_byte(digits: &[u8]) -> Option<Written> {
    let mut written = Written { byte: 0, length: 2 };
    for c in digits {
        let Some(digit) = hexadecimal(*c) else {
            break;
        };
        written.byte = written.byte.wrapping_mul(16).wrapping_add(digit);
        written.length = written.length.saturating_add(1);
    }
    if written.length > 2 {
        Some(written)
    } else {
        None
    }
}

// What an escape says, without its backslash.
fn after_backslash(text: &[u8]) -> Option<Written> {
    let length = octal_length(text);
    if length > 0 {
        let byte = octal_byte(text.get(..length)?);
        return Some(Written {
            byte,
            length: length.saturating_add(1),
        });
    }
    match text {
        [b'x', digits @ ..] => hexadecimal_byte(digits),
        [c, ..] => Some(Written {
            byte: escaped(*c)?,
            length: 2,
        }),
        [] => None,
    }
}

/// The first character of a text between quotes.
pub(crate) fn character_at(text: &[u8]) -> Option<Written> {
    match text {
        [b'\\', escape @ ..] => after_backslash(escape),
        [byte, ..] => Some(Written {
            byte: *byte,
            length: 1,
        }),
        [] => None,
    }
}

/// The bytes of a text between quotes.
pub(crate) fn bytes_of(alloc: Global, text: &[u8]) -> Result<Result<Vec<u8>, Wrong>, AllocError> {
    let mut bytes = Vec::new(alloc);
    let mut rest = text;
    for _ in 0..text.len() {
        if rest.is_empty() {
            break;
        }
        let Some(written) = character_at(rest) else {
            return Ok(Err(Wrong::Quote));
        };
        bytes.push(written.byte)?;
        let Some(behind) = rest.get(written.length..) else {
            return Ok(Err(Wrong::Quote));
        };
        rest = behind;
    }
    Ok(Ok(bytes))
}
