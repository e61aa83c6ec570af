//! What became of assembly texts, as numbers and bytes.
ghost use Rattle.std.specs.Prelude.{◌≡◌, IfErr, IfOk, Ok};
ghost use Rattle.unixmodel.specs.Assembly as the;
ghost use Rattle.c_images.specs.Texts.{TellsText, assembled_told, expanded_number, expanded_put, file_put, report_put};

use crate::faults::{Fault, NO_MEMORY, of_asm_kind};
use crate::puts::copy;
use asm::{AsmFault, assemble};
use assembly_texts::Told;
use std::alloc::{AllocError, Global};

/// What is wrong with an assembly text.
#[derive(Clone, Copy)]
pub enum TextFault {
    /// It is no UTF-8.
    Text,
    /// A line of it is wrong.
    Line(AsmFault),
}

impl Fault for TextFault {
    ghost use Rattle.c_images.specs.Texts.{text_number};

    ghost numbered = { text_number };

    fn number(&self) -> u32 {
        match self {
            TextFault::Text => 500,
            TextFault::Line(fault) => of_asm_kind(fault.kind),
        }
    }
}

/// What became of an assembly text.
#[repr(C)]
#[derive(Clone, Copy)]
pub struct AssembledTold {
    /// How many bytes the program's file has; 0 where there is none.
    pub bytes: u64,
    /// The line of the fault, from 1 on; 0 where there is none.
    pub line: u64,
}

/// What became of a text as other assemblers take it.
#[repr(C)]
#[derive(Clone, Copy)]
pub struct ExpandedTold {
    /// How many bytes the program's file has; 0 where there is none.
    pub bytes: u64,
    /// How many bytes the report has.
    pub report: u64,
}

/// The file of a text's program.
pub fn file_of(alloc: Global, text: &[u8]) -> Result<Vec<u8>, TextFault>
    ensures made { IfOk result (λ file. the.assembled text.now ≡ Ok file.items) }
    ensures refused { IfErr result (TellsText text.now) }
{
    let Ok(text) = str::from_utf8(text) else {
        return Err(TextFault::Text);
    };
    match assemble(alloc, text) {
        Ok(file) => Ok(file),
        Err(fault) => Err(TextFault::Line(fault)),
    }
}

/// How many bytes there are, or the line of the fault.
pub fn assembled_told(made: &Result<Vec<u8>, TextFault>) -> AssembledTold
    ensures { result ≡ assembled_told made.now }
{
    match made {
        Ok(file) => AssembledTold {
            bytes: file.len() as u64,
            line: 0,
        },
        Err(TextFault::Text) => AssembledTold { bytes: 0, line: 0 },
        Err(TextFault::Line(fault)) => AssembledTold {
            bytes: 0,
            line: fault.line as u64,
        },
    }
}

/// Puts how many bytes there are, unless there was no memory.
pub fn put_expanded(became: &Result<Told, AllocError>, told: &mut ExpandedTold)
    ensures { told.new ≡ expanded_put became.now told.old }
{
    match became {
        Ok(Told::Made(file, report)) => {
            *told = ExpandedTold {
                bytes: file.len() as u64,
                report: report.len() as u64,
            };
        }
        Ok(Told::Faults(report)) => {
            *told = ExpandedTold {
                bytes: 0,
                report: report.len() as u64,
            };
        }
        Err(_) => {}
    }
}

/// Copies as many bytes of the file, if there is one, and of the report as there is room for.
pub fn put_text(became: &Result<Told, AllocError>, out: &mut [u8], lines: &mut [u8])
    ensures file { out.new ≡ file_put became.now out.old }
    ensures report { lines.new ≡ report_put became.now lines.old }
{
    match became {
        Ok(Told::Made(file, report)) => {
            copy(file, out);
            copy(report.as_bytes(), lines);
        }
        Ok(Told::Faults(report)) => copy(report.as_bytes(), lines),
        Err(_) => {}
    }
}

/// 0 for a file, 600 for faults, 4 where there was no memory.
pub fn expanded_number(became: &Result<Told, AllocError>) -> u32
    ensures { result ≡ expanded_number became.now }
{
    match became {
        Ok(Told::Made(_, _)) => 0,
        Ok(Told::Faults(_)) => 600,
        Err(_) => NO_MEMORY,
    }
}
