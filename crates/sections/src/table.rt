//! The sections of a file.

ghost use Rattle.std.specs.Prelude.{◌≡◌, IfOk, Some, map};
ghost use Rattle.std.specs.List.{slice_get};
ghost use Rattle.sections.specs.Made.{IsOf};
ghost use Rattle.sections.specs.Headers.{contents_of, has_sections, names_of, pieces, section_in};
ghost use Rattle.sections.specs.Headers.{section_named, section_of_kind, sections_of};

use crate::parts::{from, part, text_at};
use crate::section::{SECTION_HEADER_SIZE, Section, section_in};
use byteorder::{ByteOrder, LittleEndian};
use std::alloc::{AllocError, Global};

/// How many bytes the header of a file has.
const HEADER_SIZE: usize = 64;

// The bytes 7f 45 4c 46, with which a file begins.
const MAGIC: u32 = 0x464C_457F;

// Class 2, 64 bits, and data 1, the lowest byte first.
const CLASS_AND_DATA: u16 = 0x0102;

// `SHT_NOBITS`: a section that has no bytes in the file.
const NO_BITS: u32 = 8;

/// The sections of a file that has 64-bit numbers, their lowest byte first.
#[derive(Drop)]
pub struct Sections<'a> {
    file: &'a [u8],
    list: Vec<Section>,
    names: &'a [u8],
}

// Whether a file has section headers as they are read here.
fn has_sections(file: &[u8]) -> bool
    ensures { result ≡ has_sections file.now }
{
    file.len() >= HEADER_SIZE
        && LittleEndian::read_u32(file) == MAGIC
        && LittleEndian::read_u16(&file[4..]) == CLASS_AND_DATA
        && LittleEndian::read_u16(&file[58..]) as usize == SECTION_HEADER_SIZE
}

// The sections that a table of headers declares, at most `count`.
fn listed(alloc: Global, table: &[u8], count: u16) -> Result<Vec<Section>, AllocError>
    ensures { IfOk result (λ list. list.items ≡ map section_in (pieces 64 count table.now)) }
{
    let mut list = Vec::new(alloc);
    let mut rest = table;
    for _ in 0..count {
        let Some((header, after)) = rest.split_first_chunk::<SECTION_HEADER_SIZE>() else {
            return Ok(list);
        };
        list.push(section_in(header))?;
        rest = after;
    }
    Ok(list)
}

// The sections of a file, in their order.
fn all_sections(alloc: Global, file: &[u8]) -> Result<Vec<Section>, AllocError>
    ensures { IfOk result (λ list. list.items ≡ sections_of file.now) }
{
    if !has_sections(file) {
        return Ok(Vec::new(alloc));
    }
    let table = from(file, LittleEndian::read_u64(&file[40..]));
    listed(alloc, table, LittleEndian::read_u16(&file[60..]))
}

// The bytes that a section has in its file.
fn contents<'a>(file: &'a [u8], section: &Section) -> &'a [u8]
    ensures { result.now ≡ contents_of file.now (Some section.now) }
{
    if section.kind == NO_BITS {
        return &[];
    }
    part(file, section.offset, section.size)
}

// The table of the sections' names.
fn names<'a>(file: &'a [u8], list: &[Section]) -> &'a [u8]
    requires { list.now ≡ sections_of file.now }
    ensures { result.now ≡ names_of file.now }
{
    if file.len() < HEADER_SIZE {
        return &[];
    }
    match list.get(LittleEndian::read_u16(&file[62..]) as usize) {
        Some(section) => contents(file, section),
        None => &[],
    }
}

impl<'a> Sections<'a> {
    /// The sections of a file; none of a file that is no ELF file of 64 bits with its lowest bytes first.
    pub fn of(alloc: Global, file: &'a [u8]) -> Result<Sections<'a>, AllocError>
        ensures { IfOk result (λ s. IsOf file.now s) }
    {
        let list = all_sections(alloc, file)?;
        let names = names(file, &list);
        Ok(Sections { file, list, names })
    }

    /// The sections, in their order.
    pub fn as_slice(&self) -> &[Section]
        ensures { result.now ≡ self.now.list.items }
    {
        &self.list
    }

    /// The bytes of the section of an index; none where there is none.
    pub fn contents(&self, index: usize) -> &'a [u8]
        ensures { result.now ≡ contents_of self.now.file.now (slice_get self.now.list.items index) }
    {
        match self.list.get(index) {
            Some(section) => contents(self.file, section),
            None => &[],
        }
    }

    /// The first section of a type.
    pub fn of_kind(&self, kind: u32) -> Option<Section>
        ensures { result ≡ section_of_kind kind self.now.list.items }
    {
        for section in &self.list {
            if section.kind == kind {
                return Some(*section);
            }
        }
        None
    }

    /// The bytes of a section.
    pub fn bytes(&self, section: &Section) -> &'a [u8]
        ensures { result.now ≡ contents_of self.now.file.now (Some section.now) }
    {
        contents(self.file, section)
    }

    /// The bytes of the first section of a name; none where there is none.
    pub fn named(&self, name: &[u8]) -> &'a [u8]
        ensures { result.now ≡ contents_of self.now.file.now
            (section_named self.now.names.now name.now self.now.list.items) }
    {
        for section in &self.list {
            if text_at(self.names, u64::from(section.name)) == name {
                return contents(self.file, section);
            }
        }
        &[]
    }
}
