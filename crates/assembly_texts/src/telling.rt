//! What became of a text, line by line, as an editor shows it.
ghost use Rattle.std.specs.Prelude.{IfOk};
ghost use Rattle.assembly_texts.specs.Told.{IsTold};

use crate::hints::words;
use crate::making::{Made, Unmade, make};
use crate::reporting::words_of_kind;
use crate::sizes::size_of;
use asmtext::lines;
use gas::{File, Line, Position, Program, Sources, read};
use std::alloc::{AllocError, Global};

/// What became of a text.
#[derive(Drop)]
pub enum Told {
    /// The program's file, and a line "LINE ADDRESS TEXT" for each line of the text that `asm` takes: the line of the
    /// text that it comes of, from 1 on, or 0, and its address in the program.
    Made(Vec<u8>, String),
    /// All that is wrong, a line "LINE COLUMN WORDS" each, both from 1 on.
    Faults(String),
}

// A text that includes no other.
#[derive(Drop)]
struct Alone;

impl Sources for Alone {
    fn text(&mut self, _name: &str) -> Result<Option<Vec<u8>>, AllocError> {
        Ok(None)
    }
}

// The line of the text that a statement is of: the one that calls the macro, where it is a macro's.
fn line_of(line: &Line) -> usize {
    match line.caller {
        Some(caller) => caller.line,
        None => line.place.line,
    }
}

// The line that a row is of; 0 where there is none.
fn line_at(program: &Program, row: Option<usize>) -> usize {
    match row {
        Some(index) => match program.row(index) {
            Some(row) => line_of(&row.line),
            None => 0,
        },
        None => 0,
    }
}

// A line for each line of the text that `asm` takes.
fn expansion(alloc: Global, program: &Program, made: &Made) -> Result<String, AllocError> {
    let mut told = String::new(alloc);
    let mut address = 0u64;
    let read = lines(alloc, made.text.as_bytes())?;
    for ((text, row), line) in made.text.as_str().lines().zip(&made.rows).zip(&read) {
        let (at, text) = (line_at(program, *row), text.trim());
        let said = format!(in alloc; "{at} {address} {text}\n")?;
        told.push_str(said.as_str())?;
        if let Ok(statement) = &line.says {
            address = address.saturating_add(size_of(address, statement));
        }
    }
    Ok(told)
}

// A line of what is wrong at a position, in words.
fn fault(
    alloc: Global,
    program: &Program,
    at: Position,
    words: &str,
) -> Result<String, AllocError> {
    let column = at.column;
    let Some(row) = program.row(at.row) else {
        return format!(in alloc; "1 1 {words}\n");
    };
    let line = row.line.place.line;
    match row.line.caller {
        Some(caller) => {
            let from = caller.line;
            format!(in alloc; "{line} {column} {words} (called from line {from})\n")
        }
        None => format!(in alloc; "{line} {column} {words}\n"),
    }
}

// A line for each fault.
fn faults(alloc: Global, program: &Program, unmade: &Unmade) -> Result<String, AllocError> {
    let mut told = String::new(alloc);
    match unmade {
        Unmade::Faults(faults) => {
            for wrong in faults {
                let words = words(alloc, program, wrong)?;
                told.push_str(fault(alloc, program, wrong.at, words.as_str())?.as_str())?;
            }
            Ok(told)
        }
        Unmade::Refused(kind, row) => {
            let row = row.unwrap_or(program.rows.len());
            fault(
                alloc,
                program,
                Position { row, column: 1 },
                words_of_kind(*kind),
            )
        }
        Unmade::NoMemory => Err(AllocError),
    }
}

/// What becomes of a text, which includes no other.
pub fn tell(alloc: Global, text: &[u8]) -> Result<Told, AllocError>
    ensures { IfOk result IsTold }
{
    let file = File { name: "line", text };
    let program = read(alloc, &mut Alone, &[file])?;
    match make(alloc, &program) {
        Ok(made) => {
            let report = expansion(alloc, &program, &made)?;
            Ok(Told::Made(made.file, report))
        }
        Err(unmade) => Ok(Told::Faults(faults(alloc, &program, &unmade)?)),
    }
}
