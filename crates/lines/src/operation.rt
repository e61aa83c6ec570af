//! The operations of a line number program (DWARF 5, section 6.2.5).

use crate::bytes::{byte, front, half, signed, unsigned};
use crate::unit::Steps;

/// What one operation does, as far as addresses, files and lines go.
#[derive(Clone, Copy, Debug, PartialEq, Eq)]
pub(crate) enum Operation {
    /// A special opcode, less `opcode_base`: advances address and line, and appends a row.
    Special(u8),
    /// `DW_LNS_copy`: appends a row.
    Copy,
    /// `DW_LNS_advance_pc`: advances the address by that many instructions.
    AdvanceAddress(u64),
    /// `DW_LNS_advance_line`.
    AdvanceLine(i64),
    /// `DW_LNS_set_file`.
    SetFile(u64),
    /// `DW_LNS_const_add_pc`: advances the address as special opcode 255 does.
    AddConstant,
    /// `DW_LNS_fixed_advance_pc`: advances the address by that many bytes.
    AdvanceBytes(u16),
    /// `DW_LNE_end_sequence`: appends a row at the first address after a sequence.
    EndSequence,
    /// `DW_LNE_set_address`.
    SetAddress(u64),
    /// Another one, which changes none of these.
    Other,
}

// The number of at most eight bytes, the lowest first.
fn number(bytes: &[u8]) -> u64 {
    let mut all = [0; 8];
    let known = bytes.len().min(8);
    all[..known].copy_from_slice(&bytes[..known]);
    u64::from_le_bytes(all)
}

// An extended opcode's, which begins with its length.
fn extended(bytes: &[u8]) -> Option<(Operation, &[u8])> {
    let (length, rest) = unsigned(bytes)?;
    let (bytes, rest) = front(rest, length)?;
    let operation = match bytes {
        [1, ..] => Operation::EndSequence,
        [2, address @ ..] => Operation::SetAddress(number(address)),
        _ => Operation::Other,
    };
    Some((operation, rest))
}

// An operation that changes nothing here, with as many operands in LEB128 as its opcode has.
fn skipped<'a>(steps: &Steps<'_>, opcode: u8, bytes: &'a [u8]) -> Option<(Operation, &'a [u8])> {
    let count = match steps.lengths.get(usize::from(opcode.saturating_sub(1))) {
        Some(count) => *count,
        None => 0,
    };
    let mut rest = bytes;
    for _ in 0..count {
        (_, rest) = unsigned(rest)?;
    }
    Some((Operation::Other, rest))
}

// A standard opcode's.
fn standard<'a>(steps: &Steps<'_>, opcode: u8, bytes: &'a [u8]) -> Option<(Operation, &'a [u8])> {
    match opcode {
        1 => Some((Operation::Copy, bytes)),
        2 => {
            let (advance, rest) = unsigned(bytes)?;
            Some((Operation::AdvanceAddress(advance), rest))
        }
        3 => {
            let (advance, rest) = signed(bytes)?;
            Some((Operation::AdvanceLine(advance), rest))
        }
        4 => {
            let (file, rest) = unsigned(bytes)?;
            Some((Operation::SetFile(file), rest))
        }
        8 => Some((Operation::AddConstant, bytes)),
        9 => {
            let (advance, rest) = half(bytes)?;
            Some((Operation::AdvanceBytes(advance), rest))
        }
        _ => skipped(steps, opcode, bytes),
    }
}

/// The operation that bytes begin with, and those after it.
pub(crate) fn operation_at<'a>(
    steps: &Steps<'_>,
    bytes: &'a [u8],
) -> Option<(Operation, &'a [u8])> {
    let (opcode, rest) = byte(bytes)?;
    if opcode >= steps.opcode_base {
        return Some((Operation::Special(opcode - steps.opcode_base), rest));
    }
    match opcode {
        0 => extended(rest),
        _ => standard(steps, opcode, rest),
    }
}
