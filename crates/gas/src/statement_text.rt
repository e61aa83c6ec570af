//! The statements of a text as they are read.

use crate::blanks::{length_before, without_comments};
use crate::lexer::tokens_of;
use crate::source::{Line, Place, Row, Status};
use crate::tokens::{Kind, after_labels};
use std::alloc::{AllocError, Global};

/// A text that is read, and where its next statement is.
#[derive(Drop)]
pub struct Text {
    bytes: Vec<u8>,
    next: usize,
    line: Line,
    // The first line, and that of the end of a repetition.
    first: usize,
    last: usize,
}

/// A statement, and the character after it.
#[derive(Drop)]
pub struct Statement {
    pub text: Vec<u8>,
    pub line: Line,
    pub end: u8,
}

impl Statement {
    /// The row of the statement.
    pub(crate) fn row(&self, alloc: Global, status: Status) -> Result<Row, AllocError> {
        Ok(Row {
            text: self.text.as_slice().to_vec(alloc)?,
            line: self.line,
            status,
        })
    }
}

impl Text {
    /// A file's text, without its comments.
    pub(crate) fn of_file(alloc: Global, text: &[u8], line: Line) -> Result<Text, AllocError> {
        Ok(Text::of_lines(without_comments(alloc, text)?, line))
    }

    /// A text without comments, from this line on.
    pub(crate) fn of_lines(bytes: Vec<u8>, line: Line) -> Text {
        Text::of_repetition(bytes, line, usize::MAX)
    }

    /// A text without comments that repeats that many lines.
    pub(crate) fn of_repetition(bytes: Vec<u8>, line: Line, lines: usize) -> Text {
        Text {
            bytes,
            next: 0,
            line,
            first: line.place.line,
            last: line.place.line.saturating_add(lines),
        }
    }

    pub(crate) fn len(&self) -> usize {
        self.bytes.len()
    }

    /// Where the next statement is.
    pub(crate) fn place(&self) -> Place {
        self.line.place
    }

    // Goes on after a statement of that length.
    fn step(&mut self, length: usize, end: u8) {
        let length = length.saturating_add(1);
        self.next = self.next.saturating_add(length);
        if end == b';' {
            self.line.indent = self.line.indent.saturating_add(length);
        } else {
            self.line.indent = 0;
            self.line.place.line = self.line.place.line.saturating_add(1);
            if self.line.place.line == self.last {
                self.line.place.line = self.first;
            }
        }
    }

    /// The next statement.
    pub(crate) fn statement(&mut self, alloc: Global) -> Result<Option<Statement>, AllocError> {
        let Some(rest) = self.bytes.get(self.next..) else {
            return Ok(None);
        };
        let length = length_before(rest, b';').min(rest.len());
        let (text, more) = rest.split_at(length);
        let end = match more {
            [end, ..] => *end,
            [] => b'\n',
        };
        let statement = Statement {
            text: text.to_vec(alloc)?,
            line: self.line,
            end,
        };
        self.step(length, end);
        Ok(Some(statement))
    }
}

/// The labels of a statement, its first word, and what follows that.
#[derive(Clone, Copy)]
pub struct Parts<'t> {
    pub labels: &'t [u8],
    pub word: &'t [u8],
    pub operands: &'t [u8],
}

/// The parts of a statement; none where it has no word.
pub(crate) fn parts_of(alloc: Global, text: &[u8]) -> Result<Option<Parts<'_>>, AllocError> {
    let tokens = tokens_of(alloc, text, 0)?;
    let [first, ..] = after_labels(&tokens) else {
        return Ok(None);
    };
    let Kind::Name(name) = first.kind else {
        return Ok(None);
    };
    let start = first.column.saturating_sub(1).min(text.len());
    let (labels, rest) = text.split_at(start);
    let (word, operands) = rest.split_at(name.len().min(rest.len()));
    Ok(Some(Parts {
        labels,
        word,
        operands,
    }))
}
