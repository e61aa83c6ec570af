//! Section headers.

ghost use Rattle.std.specs.Prelude.{◌≡◌, OnOk};
ghost use Rattle.debug_sections.specs.File.{with_headers, with_plain, with_program, with_section, with_symbols};

use crate::labels::ENTRY_SIZE;
use crate::numbers::{put_double, put_word, small};
use std::alloc::AllocError;

/// The names of the sections, one after the other, after an empty one.
pub(crate) const NAMES: &[u8] =
    b"\0.text\0.symtab\0.strtab\0.debug_line\0.debug_info\0.debug_abbrev\0.shstrtab\0";

/// How many sections there are, with the empty one, and the index of the one of their names.
pub(crate) const COUNT: u16 = 8;

pub(crate) const NAMES_INDEX: u16 = 7;

// The index of the section of the labels' names.
const STRINGS_INDEX: u32 = 3;

// Where the program is in the file.
const PROGRAM_AT: u64 = 4096;

/// Where a section is in the file.
#[derive(Clone, Copy)]
pub(crate) struct Extent {
    pub offset: u64,
    pub size: u64,
}

/// Where the sections are.
#[derive(Clone, Copy)]
pub(crate) struct Extents {
    pub labels: Extent,
    pub strings: Extent,
    pub lines: Extent,
    pub unit: Extent,
    pub abbreviations: Extent,
    pub names: Extent,
}

// What a section header says beside the extent.
#[derive(Clone, Copy)]
struct Kind {
    // The offset of its name.
    name: u32,
    // `sh_type`: 1 for bytes of the program or for debuggers, 2 for symbols, 3 for texts.
    kind: u32,
    // `sh_flags`: written to (1), in memory (2), instructions (4).
    flags: u64,
    link: u32,
    info: u32,
    align: u64,
    entry: u64,
}

#[tactic(auto, unfolding(crate::specs::File::with_section))]
fn put_section(out: &mut Vec<u8>, kind: Kind, extent: Extent) -> Result<(), AllocError>
    ensures { OnOk result (out.new.items ≡ with_section out.old.items kind.name kind.kind kind.flags extent
        kind.link kind.info kind.align kind.entry) }
{
    put_word(out, kind.name)?;
    put_word(out, kind.kind)?;
    put_double(out, kind.flags)?;
    put_double(out, 0)?;
    put_double(out, extent.offset)?;
    put_double(out, extent.size)?;
    put_word(out, kind.link)?;
    put_word(out, kind.info)?;
    put_double(out, kind.align)?;
    put_double(out, kind.entry)?;
    Ok(())
}

// A section of texts (3), or of bytes for debuggers (1).
fn put_plain(out: &mut Vec<u8>, name: u32, kind: u32, extent: Extent) -> Result<(), AllocError>
    ensures { OnOk result (out.new.items ≡ with_plain out.old.items name kind extent) }
{
    let kind = Kind {
        name,
        kind,
        flags: 0,
        link: 0,
        info: 0,
        align: 1,
        entry: 0,
    };
    put_section(out, kind, extent)?;
    Ok(())
}

// The section of the program's bytes: written to, in memory, instructions.
fn put_program(out: &mut Vec<u8>, size: u64) -> Result<(), AllocError>
    ensures { OnOk result (out.new.items ≡ with_program out.old.items size) }
{
    let kind = Kind {
        name: 1,
        kind: 1,
        flags: 7,
        link: 0,
        info: 0,
        align: 4,
        entry: 0,
    };
    let extent = Extent {
        offset: PROGRAM_AT,
        size,
    };
    put_section(out, kind, extent)?;
    Ok(())
}

// The section of the labels, all of which are local ones.
fn put_symbols(out: &mut Vec<u8>, extent: Extent) -> Result<(), AllocError>
    ensures { OnOk result (out.new.items ≡ with_symbols out.old.items extent) }
{
    let kind = Kind {
        name: 7,
        kind: 2,
        flags: 0,
        link: STRINGS_INDEX,
        info: small(extent.size / ENTRY_SIZE),
        align: 8,
        entry: ENTRY_SIZE,
    };
    put_section(out, kind, extent)?;
    Ok(())
}

/// Adds the section headers.
#[tactic(auto, unfolding(crate::specs::File::with_headers))]
pub(crate) fn put_headers(out: &mut Vec<u8>, size: u64, extents: &Extents) -> Result<(), AllocError>
    ensures { OnOk result (out.new.items ≡ with_headers out.old.items size extents.now) }
{
    out.extend_from_slice(&[0; 64])?;
    put_program(out, size)?;
    put_symbols(out, extents.labels)?;
    put_plain(out, 15, 3, extents.strings)?;
    put_plain(out, 23, 1, extents.lines)?;
    put_plain(out, 35, 1, extents.unit)?;
    put_plain(out, 47, 1, extents.abbreviations)?;
    put_plain(out, 61, 3, extents.names)?;
    Ok(())
}
