//! One section header.

ghost use Rattle.std.specs.Prelude.{◌≡◌};
ghost use Rattle.sections.specs.Headers.{section_in};

use byteorder::{ByteOrder, LittleEndian};

/// How many bytes a section header has.
pub const SECTION_HEADER_SIZE: usize = 64;

/// A section header (ELF-64 Object File Format, version 1.5, "Sections", `Elf64_Shdr`).
#[derive(Clone, Copy, Debug, PartialEq, Eq)]
pub struct Section {
    /// `sh_name`: the offset of its name in the table of the sections' names.
    pub name: u32,
    /// `sh_type`.
    pub kind: u32,
    /// `sh_flags`.
    pub flags: u64,
    /// `sh_offset`: the offset of its bytes in the file.
    pub offset: u64,
    /// `sh_size`: how many they are.
    pub size: u64,
    /// `sh_link`: the index of the section that it refers to.
    pub link: u32,
}

/// The section that a header declares.
pub(crate) fn section_in(header: &[u8; SECTION_HEADER_SIZE]) -> Section
    ensures { result ≡ section_in header.now }
{
    Section {
        name: LittleEndian::read_u32(header),
        kind: LittleEndian::read_u32(&header[4..]),
        flags: LittleEndian::read_u64(&header[8..]),
        offset: LittleEndian::read_u64(&header[24..]),
        size: LittleEndian::read_u64(&header[32..]),
        link: LittleEndian::read_u32(&header[40..]),
    }
}
