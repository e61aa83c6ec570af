//! The expanded text of each section.

use crate::layout::index_of;
use crate::registers::Register;
use crate::value::Section;
use itoa::Buffer;
use std::alloc::{AllocError, Global};

/// The text of the sections, written line by line.
#[derive(Drop)]
pub struct Output {
    texts: [Vec<u8>; 6],
    // The row of each line.
    rows: [Vec<Option<usize>>; 6],
    is_on: bool,
    section: Section,
    row: Option<usize>,
}

impl Output {
    /// Nothing yet, and what is put isn't kept until it is switched on.
    pub(crate) fn new(alloc: Global) -> Output {
        Output {
            texts: [
                Vec::new(alloc),
                Vec::new(alloc),
                Vec::new(alloc),
                Vec::new(alloc),
                Vec::new(alloc),
                Vec::new(alloc),
            ],
            rows: [
                Vec::new(alloc),
                Vec::new(alloc),
                Vec::new(alloc),
                Vec::new(alloc),
                Vec::new(alloc),
                Vec::new(alloc),
            ],
            is_on: false,
            section: Section::Text,
            row: None,
        }
    }

    pub(crate) fn switch_on(&mut self) {
        self.is_on = true;
    }

    pub(crate) fn go_to(&mut self, section: Section) {
        self.section = section;
    }

    /// The lines that follow are of a row, or of none.
    pub(crate) fn begin(&mut self, row: Option<usize>) {
        self.row = row;
    }

    /// What was put into a section.
    pub(crate) fn text(&self, section: Section) -> &[u8] {
        &self.texts[index_of(section)]
    }

    /// The rows of its lines.
    pub(crate) fn rows(&self, section: Section) -> &[Option<usize>] {
        &self.rows[index_of(section)]
    }

    /// Adds a text, at most up to a line's end.
    pub(crate) fn put(&mut self, text: &[u8]) -> Result<(), AllocError> {
        if !self.is_on {
            return Ok(());
        }
        let index = index_of(self.section);
        self.texts[index].extend_from_slice(text)?;
        if text.ends_with(b"\n") {
            self.rows[index].push(self.row)?;
        }
        Ok(())
    }

    pub(crate) fn number(&mut self, number: i64) -> Result<(), AllocError> {
        let mut buffer = Buffer::new();
        self.put(buffer.format(number).as_bytes())
    }

    /// Begins a line with a word.
    pub(crate) fn word(&mut self, word: &str) -> Result<(), AllocError> {
        self.put(b"    ")?;
        self.put(word.as_bytes())?;
        self.put(b" ")
    }

    pub(crate) fn comma(&mut self) -> Result<(), AllocError> {
        self.put(b", ")
    }

    pub(crate) fn end(&mut self) -> Result<(), AllocError> {
        self.put(b"\n")
    }

    pub(crate) fn register(&mut self, register: Register) -> Result<(), AllocError> {
        self.put(register.name().as_bytes())
    }

    /// A line of a word and a number.
    pub(crate) fn counted(&mut self, word: &str, number: i64) -> Result<(), AllocError> {
        self.word(word)?;
        self.number(number)?;
        self.end()
    }
}
