//! What a debugger is given of a program: its labels, and the lines of its texts.

ghost use Rattle.std.specs.Prelude.{◌≤◌, IfOk, length};
ghost use Rattle.assembly_texts.specs.Debugged.{HasSections};

use crate::making::Made;
use crate::sizes::size_of;
use asmtext::{Line, lines};
use debug_sections::{Label, Row, Tables, with_sections};
use gas::{Place, Program};
use std::alloc::{AllocError, Global};

// The labels and lines of a program, up to an address.
#[derive(Drop)]
struct Debugging<'a> {
    labels: Vec<Label<'a>>,
    rows: Vec<Row>,
    address: u64,
}

// No line of a text.
const NOWHERE: Place = Place { file: 0, line: 0 };

// Where the statement of a row is.
fn place_of(program: &Program, row: Option<usize>) -> Place {
    match row {
        Some(index) => match program.row(index) {
            Some(row) => row.line.place,
            None => NOWHERE,
        },
        None => NOWHERE,
    }
}

// The names of the texts.
fn names<'p>(alloc: Global, program: &'p Program) -> Result<Vec<&'p [u8]>, AllocError> {
    let mut names = Vec::new(alloc);
    for name in &program.names {
        names.push(name.as_bytes())?;
    }
    Ok(names)
}

impl<'a> Debugging<'a> {
    // Adds a row, unless its line is that of the last one.
    fn add(&mut self, place: Place) -> Result<(), AllocError> {
        if let Some(last) = self.rows.last() {
            if last.file == place.file && last.line == place.line {
                return Ok(());
            }
        }
        self.rows.push(Row {
            address: self.address,
            file: place.file,
            line: place.line,
        })?;
        Ok(())
    }

    // Goes on by a line of the text that `asm` takes, which comes of a line of a text.
    fn advance(&mut self, line: &Line<'a>, place: Place) -> Result<(), AllocError> {
        let address = self.address;
        if let Some(name) = line.label {
            self.labels.push(Label { name, address })?;
        }
        let size = match &line.says {
            Ok(statement) => size_of(address, statement),
            Err(_) => 0,
        };
        if size > 0 {
            self.add(place)?;
        }
        self.address = address.saturating_add(size);
        Ok(())
    }

    // Those of a program, from the text that `asm` takes, and the row of each of its lines.
    fn of(
        alloc: Global,
        program: &Program,
        text: &'a str,
        rows: &[Option<usize>],
    ) -> Result<Debugging<'a>, AllocError> {
        let mut debugging = Debugging {
            labels: Vec::new(alloc),
            rows: Vec::new(alloc),
            address: 0,
        };
        let lines = lines(alloc, text.as_bytes())?;
        for (line, row) in lines.iter().zip(rows) {
            debugging.advance(line, place_of(program, *row))?;
        }
        Ok(debugging)
    }
}

/// The file of a program with its labels and lines after it.
pub(crate) fn with_lines(
    alloc: Global,
    program: &Program,
    made: &Made,
) -> Result<Vec<u8>, AllocError>
    requires { 64 ≤ length made.now.file.items }
    ensures { IfOk result (λ out. HasSections made.now.file.items out.items) }
{
    let debugging = Debugging::of(alloc, program, made.text.as_str(), &made.rows)?;
    let files = names(alloc, program)?;
    let tables = Tables {
        files: &files,
        rows: &debugging.rows,
        labels: &debugging.labels,
        size: debugging.address,
    };
    let file = with_sections(alloc, &made.file, &tables)?;
    Ok(file)
}
