//! Reports: a line for each fault, and a picture of the row that it is in.

use crate::hints::{word_at, words};
use crate::making::Unmade;
use asm::AsmKind;
use gas::{Fault, Place, Position, Program, Row};
use std::alloc::{AllocError, Global};
use std::io::Write;

/// How many faults are reported.
const MOST: usize = 20;

/// Reports what is wrong with a program.
#[derive(Drop)]
pub struct Reporter<'r, E> {
    alloc: Global,
    program: &'r Program,
    shows: bool,
    stderr: &'r mut E,
}

// What comes before a column: blanks, and tabs where the text has them.
fn margin(alloc: Global, text: &[u8], length: usize) -> Result<String, AllocError> {
    let mut margin = String::new(alloc);
    for c in text.iter().take(length) {
        margin.push_str(if *c == b'\t' { "\t" } else { " " })?;
    }
    Ok(margin)
}

/// What `asm` says of a line that a row is expanded to.
pub(crate) fn words_of_kind(kind: AsmKind) -> &'static str {
    match kind {
        AsmKind::Syntax => "asm can't read what this is expanded to",
        AsmKind::Mnemonic => "asm has no instruction that this is expanded to",
        AsmKind::Operand => "asm takes other operands than this is expanded to",
        AsmKind::Range => {
            "a number or a distance is too large, or the program has more than 270336 bytes"
        }
        AsmKind::Label => "nothing defines a label that this is expanded to",
        AsmKind::Twice => "this label is defined twice",
        AsmKind::Align => "an instruction lies at a multiple of 4",
        AsmKind::NoMemory => "no memory",
    }
}

impl<'r, E: Write> Reporter<'r, E> {
    /// Reports on a program, with pictures of its rows or not.
    pub fn new(alloc: Global, program: &'r Program, shows: bool, stderr: &'r mut E) -> Self {
        Reporter {
            alloc,
            program,
            shows,
            stderr,
        }
    }

    // FILE:LINE:COLUMN: words
    fn line(&mut self, row: &Row, column: usize, words: &str) {
        let (name, line) = (self.program.name(row.line.place.file), row.line.place.line);
        let _ = writeln!(self.stderr, "{name}:{line}:{column}: {words}");
    }

    // The line that calls the macro which a row is of.
    fn caller(&mut self, caller: Option<Place>) {
        if let Some(place) = caller {
            let (name, line) = (self.program.name(place.file), place.line);
            let _ = writeln!(self.stderr, "{name}:{line}: called from here");
        }
    }

    // A row, and below it a caret at a column.
    fn picture(&mut self, row: &Row, column: usize) -> Result<(), AllocError> {
        let Ok(text) = str::from_utf8(row.text.trim_ascii_end()) else {
            return Ok(());
        };
        let before = column.saturating_sub(row.line.indent).saturating_sub(1);
        let margin = margin(self.alloc, text.as_bytes(), before)?;
        let _ = writeln!(self.stderr, "    {text}");
        let _ = writeln!(self.stderr, "    {margin}^");
        Ok(())
    }

    // What is wrong at a position, in words.
    fn fault(&mut self, at: Position, words: &str) -> Result<(), AllocError> {
        let Some(row) = self.program.row(at.row) else {
            let _ = writeln!(self.stderr, "{words}");
            return Ok(());
        };
        self.line(row, at.column, words);
        self.caller(row.line.caller);
        if self.shows {
            self.picture(row, at.column)?;
        }
        Ok(())
    }

    fn faults(&mut self, faults: &[Fault]) -> Result<(), AllocError> {
        for fault in faults.iter().take(MOST) {
            let words = words(self.alloc, self.program, fault)?;
            self.fault(fault.at, words.as_str())?;
        }
        let more = faults.len().saturating_sub(MOST);
        if more > 0 {
            let _ = writeln!(self.stderr, "{more} more faults");
        }
        Ok(())
    }

    /// Reports why no file is made: all that is wrong, up to 20 faults.
    pub fn unmade(&mut self, unmade: &Unmade) -> Result<(), AllocError> {
        match unmade {
            Unmade::Faults(faults) => self.faults(faults),
            Unmade::Refused(kind, row) => {
                let row = row.unwrap_or(self.program.rows.len());
                self.fault(Position { row, column: 1 }, words_of_kind(*kind))
            }
            Unmade::NoMemory => Err(AllocError),
        }
    }

    /// Reports directives that have no effect.
    pub fn passed(&mut self, passed: &[Position]) {
        for at in passed {
            if let Some(row) = self.program.row(at.row) {
                let (name, line) = (self.program.name(row.line.place.file), row.line.place.line);
                let (column, word) = (at.column, word_at(row, at.column));
                let _ = writeln!(
                    self.stderr,
                    "{name}:{line}:{column}: {word} says nothing here"
                );
            }
        }
    }
}
