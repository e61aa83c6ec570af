//! What is read: files, and the statements that they have once files and macros are in place.
ghost use Rattle.std.specs.Prelude.{◌≡◌, [], option_copied, option_map, slice_get, unwrap_or};
ghost use Rattle.std.specs.String.{string_bytes};

use crate::fault::Wrong;
use std::alloc::{AllocError, Global};

/// Where texts come from.
pub trait Sources {
    /// The text of this name, if there is one that can be read.
    fn text(&mut self, name: &str) -> Result<Option<Vec<u8>>, AllocError>;
}

/// A file, and its text.
#[derive(Clone, Copy)]
pub struct File<'f> {
    pub name: &'f str,
    pub text: &'f [u8],
}

/// A line of a file: the file by its index, the line from 1 on.
#[derive(Clone, Copy)]
pub struct Place {
    pub file: usize,
    pub line: usize,
}

/// Where a statement is.
#[derive(Clone, Copy)]
pub struct Line {
    pub place: Place,
    /// The line that calls the macro which it is of.
    pub caller: Option<Place>,
    /// How many characters of the line come before it.
    pub indent: usize,
    /// The file of the command line that it is part of, by its index.
    pub unit: usize,
}

/// What is to be done with a row.
#[derive(Clone, Copy)]
pub enum Status {
    /// It is a statement.
    Statement,
    /// It is done: it asked for a file or a macro.
    Done,
    /// It is wrong in that column.
    Wrong(Wrong, usize),
}

/// A statement, and where it comes from.
#[derive(Drop)]
pub struct Row {
    /// Its text, without comments.
    pub text: Vec<u8>,
    pub line: Line,
    pub status: Status,
}

/// The statements of files, in their order.
#[derive(Drop)]
pub struct Program {
    /// The names of the files that were read.
    pub names: Vec<String>,
    pub rows: Vec<Row>,
    /// How many files the command line has.
    pub units: usize,
    /// Whether something is missing that a row asks for.
    pub is_cut: bool,
}

impl Program {
    pub(crate) fn new(alloc: Global) -> Program {
        Program {
            names: Vec::new(alloc),
            rows: Vec::new(alloc),
            units: 0,
            is_cut: false,
        }
    }

    /// The name of a file.
    pub fn name(&self, file: usize) -> &str
        ensures { result.now ≡ unwrap_or (option_map string_bytes (slice_get self.now.names.items file)) [] }
    {
        match self.names.get(file) {
            Some(name) => name.as_str(),
            None => "",
        }
    }

    /// A row.
    pub fn row(&self, index: usize) -> Option<&Row>
        ensures { option_copied result ≡ slice_get self.now.rows.items index }
    {
        self.rows.get(index)
    }
}
