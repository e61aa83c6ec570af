//! The unit that names the line number program (DWARF 4, section 7.5), without which binutils and gdb read none.

ghost use Rattle.std.specs.Prelude.{◌≡◌, OnOk};
ghost use Rattle.debug_sections.specs.Unit.{first_name, with_unit};

use crate::numbers::{put_double, put_half, put_word, small};
use std::alloc::AllocError;

/// The section `.debug_abbrev`: one entry, a `DW_TAG_compile_unit` without children, of `DW_AT_name` (a text),
/// `DW_AT_language` (two bytes), `DW_AT_stmt_list` (an offset), `DW_AT_low_pc` and `DW_AT_high_pc` (its size).
pub(crate) const ABBREVIATIONS: [u8; 16] = [
    1, 0x11, 0, 0x03, 0x08, 0x13, 0x05, 0x10, 0x17, 0x11, 0x01, 0x12, 0x07, 0, 0, 0,
];

// `DW_LANG_Mips_Assembler`.
const ASSEMBLY: u16 = 0x8001;

// How many bytes the unit has after its length, without its name.
const LENGTH: u64 = 31;

// The name of the first file.
pub(crate) fn first_name<'a>(files: &[&'a [u8]]) -> &'a [u8]
    ensures { result.now ≡ first_name files.now }
{
    match files {
        [name, ..] => *name,
        [] => &[],
    }
}

/// Adds the section `.debug_info`.
#[tactic(auto, unfolding(crate::specs::Unit::with_unit))]
pub(crate) fn put_unit(out: &mut Vec<u8>, name: &[u8], size: u64) -> Result<(), AllocError>
    ensures { OnOk result (out.new.items ≡ with_unit out.old.items name.now size) }
{
    put_word(out, small(LENGTH.saturating_add(name.len() as u64)))?;
    put_half(out, 4)?;
    put_word(out, 0)?;
    out.extend_from_slice(&[8, 1])?;
    out.extend_from_slice(name)?;
    out.push(0)?;
    put_half(out, ASSEMBLY)?;
    put_word(out, 0)?;
    put_double(out, 0)?;
    put_double(out, size)?;
    Ok(())
}
