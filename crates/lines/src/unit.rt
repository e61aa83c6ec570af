//! The header of one unit's line number program (DWARF 5, section 6.2.4; DWARF 4, likewise).

ghost use Rattle.std.specs.Prelude.{◌<◌};

use crate::bytes::{byte, double, front, half, word};

// An initial length of this says that 64 bits follow, and that the unit's offsets have as many.
const ESCAPE: u32 = 0xFFFF_FFFF;

/// How many bytes an offset into another section has.
#[derive(Clone, Copy, Debug, PartialEq, Eq)]
pub(crate) enum Format {
    /// Four (the 32-bit DWARF format).
    Narrow,
    /// Eight (the 64-bit DWARF format).
    Wide,
}

impl Format {
    /// An offset.
    pub(crate) fn offset<'a>(self, bytes: &'a [u8]) -> Option<(u64, &'a [u8])> {
        match self {
            Format::Narrow => {
                let (offset, rest) = word(bytes)?;
                Some((u64::from(offset), rest))
            }
            Format::Wide => double(bytes),
        }
    }
}

/// What the state machine needs of a unit's header.
#[derive(Clone, Copy, Debug, PartialEq, Eq)]
pub(crate) struct Steps<'a> {
    /// `minimum_instruction_length`, in bytes.
    pub minimum: u8,
    /// `line_base`: the least advance of a line by a special opcode.
    pub line_base: i8,
    /// `line_range`: how many advances of a line there are. It is not 0.
    pub line_range: u8,
    /// `opcode_base`: the first special opcode.
    pub opcode_base: u8,
    /// `standard_opcode_lengths`: how many operands each opcode below it has, from 1 on.
    pub lengths: &'a [u8],
    ghost has_range: { 0 < line_range },
}

/// A unit.
#[derive(Clone, Copy, Debug, PartialEq, Eq)]
pub(crate) struct Unit<'a> {
    pub version: u16,
    pub format: Format,
    pub steps: Steps<'a>,
    /// The tables of directories and files.
    pub tables: &'a [u8],
    /// The line number program.
    pub program: &'a [u8],
}

/// The bytes of one unit.
#[derive(Clone, Copy)]
pub(crate) struct Extent<'a> {
    format: Format,
    bytes: &'a [u8],
}

// How long a unit is.
fn initial_length(bytes: &[u8]) -> Option<(Format, u64, &[u8])> {
    let (length, rest) = word(bytes)?;
    if length != ESCAPE {
        return Some((Format::Narrow, u64::from(length), rest));
    }
    let (length, rest) = double(rest)?;
    Some((Format::Wide, length, rest))
}

/// The unit that bytes begin with, and those after it.
pub(crate) fn extent_at(bytes: &[u8]) -> Option<(Extent<'_>, &[u8])> {
    let (format, length, rest) = initial_length(bytes)?;
    let (bytes, rest) = front(rest, length)?;
    Some((Extent { format, bytes }, rest))
}

// What the machine needs, and the bytes after it. From version 4 on the header says how many operations an instruction
// has: on this machine, one.
fn steps_at(version: u16, bytes: &[u8]) -> Option<(Steps<'_>, &[u8])> {
    let (minimum, mut rest) = byte(bytes)?;
    if version >= 4 {
        (_, rest) = byte(rest)?;
    }
    let (_default_is_stmt, rest) = byte(rest)?;
    let (line_base, rest) = byte(rest)?;
    let (line_range, rest) = byte(rest)?;
    let (opcode_base, rest) = byte(rest)?;
    if line_range == 0 {
        return None;
    }
    let (lengths, rest) = front(rest, u64::from(opcode_base.saturating_sub(1)))?;
    let steps = Steps {
        minimum,
        line_base: line_base.cast_signed(),
        line_range,
        opcode_base,
        lengths,
    };
    Some((steps, rest))
}

impl<'a> Extent<'a> {
    /// Its header; `None` for a version other than 2 to 5, and for one that ends too early.
    pub(crate) fn unit(self) -> Option<Unit<'a>> {
        let (version, mut rest) = half(self.bytes)?;
        if version < 2 || version > 5 {
            return None;
        }
        if version == 5 {
            // The sizes of an address and of a segment's selector.
            (_, rest) = half(rest)?;
        }
        let (length, rest) = self.format.offset(rest)?;
        let (header, program) = front(rest, length)?;
        let (steps, tables) = steps_at(version, header)?;
        Some(Unit {
            version,
            format: self.format,
            steps,
            tables,
            program,
        })
    }
}
