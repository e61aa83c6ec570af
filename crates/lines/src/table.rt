//! The lines of a file's addresses.

ghost use Rattle.std.specs.Prelude.{◌≡◌, ◌==◌, if◌then◌else◌, slice_get};
ghost use Rattle.lines.specs.Found.{IsLineAt, file_name, files_of, line_seen, name_text};
ghost use Rattle.lines.specs.Found.{row_line, without_directory};

use crate::files::{FileName, files};
use crate::ordered::Ordered;
use crate::rows::{Row, Rows};
use crate::unit::extent_at;
use sections::{Sections, text_at};
use std::alloc::{AllocError, Global};

/// The lines of a file's addresses.
#[derive(Drop)]
pub struct Lines<'a> {
    ordered: Ordered,
    units: Vec<Vec<FileName<'a>>>,
    strings: &'a [u8],
    line_strings: &'a [u8],
}

/// A line of a text.
#[derive(Clone, Copy, Debug, PartialEq, Eq)]
pub struct Line<'a> {
    /// The text's name, without its directory; empty where it is not known.
    pub file: &'a [u8],
    /// Counted from 1.
    pub line: u64,
}

// The first text after '/', the second after any other character.
fn chosen<'a>(c: u8, first: &'a [u8], second: &'a [u8]) -> &'a [u8]
    ensures { result.now ≡ (if c == 47 then first.now else second.now) }
{
    if c == b'/' { first } else { second }
}

// A name without the directory before it.
fn without_directory(name: &[u8]) -> &[u8]
    ensures { result.now ≡ without_directory name.now }
{
    let mut rest = name;
    for (index, c) in name.iter().enumerate() {
        rest = chosen(*c, &name[index + 1..], rest);
    }
    rest
}

impl<'a> Lines<'a> {
    /// The lines of a file; none where it has no `.debug_line`.
    pub fn of(alloc: Global, sections: &Sections<'a>) -> Result<Lines<'a>, AllocError> {
        let program = sections.named(b".debug_line");
        let mut all = Rows::new(alloc);
        let mut units = Vec::new(alloc);
        let mut rest = program;
        for _ in 0..program.len() {
            let Some((extent, after)) = extent_at(rest) else {
                break;
            };
            if let Some(unit) = extent.unit() {
                all.run(&unit, units.len())?;
                units.push(files(alloc, &unit))?;
            }
            rest = after;
        }
        let Rows { rows, sequences } = all;
        Ok(Lines {
            ordered: Ordered::of(alloc, rows, &sequences)?,
            units,
            strings: sections.named(b".debug_str"),
            line_strings: sections.named(b".debug_line_str"),
        })
    }

    // The text of a file's name.
    fn text(&self, name: Option<FileName<'a>>) -> &'a [u8]
        ensures { result.now ≡ name_text self.now name.entry }
    {
        match name {
            Some(FileName::Here(name)) => name,
            Some(FileName::Strings(offset)) => text_at(self.strings, offset),
            Some(FileName::LineStrings(offset)) => text_at(self.line_strings, offset),
            Some(FileName::Unknown) | None => &[],
        }
    }

    // A unit's file, by their numbers.
    fn file(&self, unit: usize, file: u64) -> Option<FileName<'a>>
        ensures { result ≡ slice_get (files_of (slice_get self.now.units.items unit)) file }
    {
        let files = self.units.get(unit)?;
        files.get(usize::try_from(file).ok()?).copied()
    }

    // The name of a unit's file, by their numbers; empty where it is not known.
    fn name(&self, unit: usize, file: u64) -> &'a [u8]
        ensures { result.now ≡ file_name self.now unit file }
    {
        without_directory(self.text(self.file(unit, file)))
    }

    // The line of a unit's row; none for a row of line 0.
    fn line_of(&self, unit: usize, row: Option<Row>) -> Option<Line<'a>>
        ensures { line_seen result ≡ row_line self.now unit row }
    {
        let row = row?;
        if row.line == 0 {
            return None;
        }
        Some(Line {
            file: self.name(unit, row.file),
            line: row.line,
        })
    }

    /// The line that an address is of: that of the row that covers it in the sequence that begins nearest before it;
    /// none for a row of line 0, whose instructions are of no line.
    pub fn at(&self, address: u64) -> Option<Line<'a>>
        ensures { IsLineAt self.now address result }
    {
        let sequence = self.ordered.sequence(address)?;
        self.line_of(sequence.unit, self.ordered.row(sequence, address))
    }
}
