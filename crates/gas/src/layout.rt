//! Where the sections lie, and how far each has come.
ghost use Rattle.std.specs.Prelude.{◌<◌};

use crate::value::{Base, Section, Value};
use std::alloc::{AllocError, Global};

/// How far a section of a file has come, the largest of its alignments, where it lies, and how many zeros
/// come before it.
#[derive(Clone, Copy)]
pub struct Part {
    pub offset: u64,
    pub align: u64,
    pub start: u64,
    pub gap: u64,
}

const EMPTY: Part = Part {
    offset: 0,
    align: 1,
    start: 0,
    gap: 0,
};

// The sections of a file.
#[derive(Clone, Copy)]
struct Parts([Part; 6]);

/// The sections of files, and the one that is written to.
#[derive(Drop)]
pub struct Layout {
    pub section: Section,
    unit: usize,
    parts: Vec<Parts>,
}

/// The sections that are part of a program, in their order.
pub const SECTIONS: [Section; 5] = [
    Section::Text,
    Section::ReadOnly,
    Section::Data,
    Section::Zeros,
    Section::Commons,
];

/// The index of a section.
pub fn index_of(section: Section) -> usize
    ensures { result < 6 }
{
    match section {
        Section::Text => 0,
        Section::ReadOnly => 1,
        Section::Data => 2,
        Section::Zeros => 3,
        Section::Commons => 4,
        Section::Dropped => 5,
    }
}

/// How many bytes lead up to a multiple.
pub(crate) fn padding(offset: u64, align: u64) -> u64 {
    if align == 0 {
        return 0;
    }
    let over = offset % align;
    if over == 0 { 0 } else { align - over }
}

impl Layout {
    /// Nothing yet, of that many files.
    pub(crate) fn new(alloc: Global, count: usize) -> Result<Layout, AllocError> {
        let mut parts = Vec::new(alloc);
        for _ in 0..count {
            parts.push(Parts([EMPTY; 6]))?;
        }
        Ok(Layout {
            section: Section::Text,
            unit: 0,
            parts,
        })
    }

    /// Goes to a file, whose instructions lie at multiples of 4.
    pub(crate) fn go_to(&mut self, unit: usize) {
        self.unit = unit;
        self.section = Section::Text;
        self.align(4);
    }

    /// A section of a file.
    pub(crate) fn part_of(&self, section: Section, unit: usize) -> Part {
        match self.parts.get(unit) {
            Some(parts) => parts.0[index_of(section)],
            None => EMPTY,
        }
    }

    /// A section of the file that is written to.
    pub(crate) fn part(&self, section: Section) -> Part {
        self.part_of(section, self.unit)
    }

    fn set_part(&mut self, section: Section, unit: usize, part: Part) {
        if let Some(parts) = self.parts.get_mut(unit) {
            parts.0[index_of(section)] = part;
        }
    }

    /// How far the section has come that is written to.
    pub(crate) fn offset(&self) -> u64 {
        self.part(self.section).offset
    }

    pub(crate) fn set_offset(&mut self, offset: u64) {
        let mut part = self.part(self.section);
        part.offset = offset;
        self.set_part(self.section, self.unit, part);
    }

    /// Goes on by that many bytes.
    pub(crate) fn advance(&mut self, count: u64) {
        self.set_offset(self.offset().saturating_add(count));
    }

    /// The section lies at a multiple of that, at least.
    pub(crate) fn align(&mut self, align: u64) {
        let mut part = self.part(self.section);
        part.align = part.align.max(align);
        self.set_part(self.section, self.unit, part);
    }

    /// Where the section is written to, as a value.
    pub(crate) fn here(&self) -> Value {
        Value {
            base: Base::Section(self.section, self.unit),
            number: self.offset().cast_signed(),
        }
    }

    /// The address of a value, or the number that it is.
    pub(crate) fn address(&self, value: Value) -> i64 {
        match value.base {
            Base::Section(section, unit) => {
                let start = self.part_of(section, unit).start.cast_signed();
                start.wrapping_add(value.number)
            }
            Base::Number | Base::Unknown => value.number,
        }
    }

    // Puts a section of all files after that end, one after the other, and returns where the last ends.
    fn place_section(&mut self, section: Section, end: u64) -> u64 {
        let mut end = end;
        for unit in 0..self.parts.len() {
            let mut part = self.part_of(section, unit);
            let gap = padding(end, part.align);
            part.start = end.saturating_add(gap);
            part.gap = gap;
            end = part.start.saturating_add(part.offset);
            self.set_part(section, unit, part);
        }
        end
    }

    /// Puts the sections one after the other, and returns where the last ends.
    pub(crate) fn place(&mut self) -> u64 {
        let mut end = 0u64;
        for section in &SECTIONS {
            end = self.place_section(*section, end);
        }
        end
    }

    // Begins a section of all files again.
    fn rewind_section(&mut self, section: Section) {
        for unit in 0..self.parts.len() {
            let mut part = self.part_of(section, unit);
            part.offset = 0;
            self.set_part(section, unit, part);
        }
    }

    /// Begins again, with the sections where they lie.
    pub(crate) fn rewind(&mut self) {
        for section in &SECTIONS {
            self.rewind_section(*section);
        }
    }
}
