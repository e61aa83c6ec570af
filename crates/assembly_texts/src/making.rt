//! From texts to a program's file.
ghost use Rattle.std.specs.Prelude.{◌≡◌, IfOk, Ok};
ghost use Rattle.std.specs.String.{string_bytes};
ghost use Rattle.unixmodel.specs.Assembly as the;
ghost use Rattle.assembly_texts.specs.Debugged.{IsDebugged};

use crate::debugging::with_lines;
use asm::{AsmFault, AsmKind, assemble};
use gas::{Expanded, Expansion, Fault, Position, Program, expand};
use std::alloc::{AllocError, Global};

/// A program's file, and the text in the language of `asm` of which it is made.
#[derive(Drop)]
pub struct Made {
    pub text: String,
    pub file: Vec<u8>,
    /// The row of each line of the text, where it is of one.
    pub rows: Vec<Option<usize>>,
    /// Where directives are that say nothing.
    pub passed: Vec<Position>,
}

/// Why no file is made.
#[derive(Drop)]
pub enum Unmade {
    /// All that is wrong with the texts.
    Faults(Vec<Fault>),
    /// What `asm` refuses, and the row that it comes of.
    Refused(AsmKind, Option<usize>),
    /// The host has no memory for it.
    NoMemory,
}

impl From<AllocError> for Unmade {
    fn from(_error: AllocError) -> Unmade {
        Unmade::NoMemory
    }
}

// What is wrong with a line of the expanded text.
fn refused(expanded: &Expanded, fault: AsmFault) -> Unmade {
    if fault.kind == AsmKind::NoMemory {
        return Unmade::NoMemory;
    }
    let row = match expanded.rows.get(fault.line.saturating_sub(1)) {
        Some(row) => *row,
        None => None,
    };
    Unmade::Refused(fault.kind, row)
}

fn assembled(alloc: Global, expanded: Expanded) -> Result<Made, Unmade>
    ensures { IfOk result (λ made. the.assembled (string_bytes made.text) ≡ Ok made.file.items) }
{
    match assemble(alloc, expanded.text.as_str()) {
        Ok(file) => Ok(Made {
            text: expanded.text,
            file,
            rows: expanded.rows,
            passed: expanded.passed,
        }),
        Err(fault) => Err(refused(&expanded, fault)),
    }
}

/// The file of a program: `asm` makes it of the text that the program is expanded to.
pub fn make(alloc: Global, program: &Program) -> Result<Made, Unmade>
    ensures { IfOk result (λ made. the.assembled (string_bytes made.text) ≡ Ok made.file.items) }
{
    match expand(alloc, program)? {
        Expansion::Text(expanded) => assembled(alloc, expanded),
        Expansion::Faults(faults) => Err(Unmade::Faults(faults)),
    }
}

/// The file of a program with what a debugger is given after it: the labels, and the lines of the texts.
pub fn make_with_lines(alloc: Global, program: &Program) -> Result<Made, Unmade>
    ensures { IfOk result (λ made. IsDebugged (string_bytes made.text) made.file.items) }
{
    let made = make(alloc, program)?;
    let file = with_lines(alloc, program, &made)?;
    let Made {
        text,
        file: _plain,
        rows,
        passed,
    } = made;
    Ok(Made {
        text,
        file,
        rows,
        passed,
    })
}
