//! The line number program (DWARF 4, section 6.2).

ghost use Rattle.std.specs.Prelude.{◌≡◌, OnOk};
ghost use Rattle.debug_sections.specs.Program.{is_special, line_advance, opcode, with_file, with_files, with_lines};
ghost use Rattle.debug_sections.specs.Program.{with_parts, with_row, with_rows};

use crate::numbers::{put_address_advance, put_half, put_line_advance, put_word, small};
use crate::tables::{Row, Tables};
use std::alloc::{AllocError, Global};

// `minimum_instruction_length`, `maximum_operations_per_instruction`, `default_is_stmt`, `line_base`, `line_range`,
// `opcode_base` and `standard_opcode_lengths`.
const STEPS: [u8; 18] = [1, 1, 1, 251, 14, 13, 0, 1, 1, 1, 1, 0, 0, 0, 1, 0, 0, 1];

// `DW_LNE_set_address` of 0.
const START: [u8; 11] = [0, 9, 2, 0, 0, 0, 0, 0, 0, 0, 0];

// The number of the first file is 1.
const FIRST_ROW: Row = Row {
    address: 0,
    file: 0,
    line: 1,
};

// The special opcode that leads from a row to the next one, where there is one.
fn opcode(old: Row, new: Row) -> u128
    ensures { result ≡ opcode old new }
{
    let address = u128::from(new.address).saturating_sub(u128::from(old.address));
    let line = (new.line as u128 + 5).saturating_sub(old.line as u128);
    address * 14 + line + 13
}

// Whether there is one: `line_base` is -5, `line_range` 14, `opcode_base` 13.
fn is_special(old: Row, new: Row) -> bool
    ensures { result ≡ is_special old new }
{
    let line = new.line as u128 + 5;
    old.line as u128 <= line
        && line - (old.line as u128) < 14
        && old.address <= new.address
        && opcode(old, new) <= 255
}

// `DW_LNS_set_file`, if the file is another one. There are fewer than 2 ^ 14.
fn put_file(out: &mut Vec<u8>, old: usize, new: usize) -> Result<(), AllocError>
    ensures { OnOk result (out.new.items ≡ with_file out.old.items old new) }
{
    if old == new {
        return Ok(());
    }
    let number = new % 0x4000 + 1;
    out.extend_from_slice(&[4, (number % 128) as u8 + 128, (number / 128 % 128) as u8])?;
    Ok(())
}

// How far a line is from another one, modulo 2 ^ 28.
fn line_advance(old: usize, new: usize) -> u64
    ensures { result ≡ line_advance old new }
{
    (new as u64).wrapping_sub(old as u64) % 0x1000_0000
}

// Leads from a row to the next one, and appends that.
#[tactic(auto, unfolding(crate::specs::Program::with_row))]
fn put_row(out: &mut Vec<u8>, old: Row, new: Row) -> Result<(), AllocError>
    ensures { OnOk result (out.new.items ≡ with_row out.old.items old new) }
{
    put_file(out, old.file, new.file)?;
    if is_special(old, new) {
        out.push((opcode(old, new) % 256) as u8)?;
        return Ok(());
    }
    put_line_advance(out, line_advance(old.line, new.line))?;
    put_address_advance(out, new.address.saturating_sub(old.address))?;
    out.push(1)?;
    Ok(())
}

// All rows, up to the end of the program.
#[tactic(auto, unfolding(crate::specs::Program::rows_from, crate::specs::Program::with_rows))]
fn put_rows(out: &mut Vec<u8>, rows: &[Row], size: u64) -> Result<(), AllocError>
    ensures { OnOk result (out.new.items ≡ with_rows out.old.items rows.now size) }
{
    out.extend_from_slice(&START)?;
    let mut old = FIRST_ROW;
    for row in rows {
        put_row(out, old, *row)?;
        old = *row;
    }
    put_address_advance(out, size.saturating_sub(old.address))?;
    out.extend_from_slice(&[0, 1, 1])?;
    Ok(())
}

// What comes before the program: its steps, no directories, and the files, each in no directory, of no time and length.
#[tactic(auto, unfolding(crate::specs::Program::files_from, crate::specs::Program::with_files))]
fn put_files(out: &mut Vec<u8>, files: &[&[u8]]) -> Result<(), AllocError>
    ensures { OnOk result (out.new.items ≡ with_files out.old.items files.now) }
{
    out.extend_from_slice(&STEPS)?;
    out.push(0)?;
    for name in files {
        out.extend_from_slice(name)?;
        out.extend_from_slice(&[0, 0, 0, 0])?;
    }
    out.push(0)?;
    Ok(())
}

// The two parts, with their lengths before them.
#[tactic(auto, unfolding(crate::specs::Program::with_parts))]
fn put_parts(out: &mut Vec<u8>, header: &[u8], program: &[u8]) -> Result<(), AllocError>
    ensures { OnOk result (out.new.items ≡ with_parts out.old.items header.now program.now) }
{
    let length = (header.len() as u64).saturating_add(program.len() as u64);
    put_word(out, small(length.saturating_add(6)))?;
    put_half(out, 4)?;
    put_word(out, small(header.len() as u64))?;
    out.extend_from_slice(header)?;
    out.extend_from_slice(program)?;
    Ok(())
}

/// Adds the section `.debug_line`.
#[tactic(auto, unfolding(crate::specs::Program::with_lines))]
pub(crate) fn put_lines(
    alloc: Global,
    out: &mut Vec<u8>,
    tables: &Tables<'_>,
) -> Result<(), AllocError>
    ensures { OnOk result (out.new.items
        ≡ with_lines out.old.items tables.now.files.now tables.now.rows.now tables.now.size) }
{
    let mut header = Vec::new(alloc);
    put_files(&mut header, tables.files)?;
    let mut program = Vec::new(alloc);
    put_rows(&mut program, tables.rows, tables.size)?;
    put_parts(out, &header, &program)?;
    Ok(())
}
