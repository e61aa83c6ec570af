//! The passes over the statements of all texts, and what they make.

use crate::assembler::Assembler;
use crate::fault::{Fault, Position, Stop, Wrong};
use crate::layout::SECTIONS;
use crate::lexer::{Sentence, sentences_of};
use crate::output::Output;
use crate::source::Program;
use crate::value::{Base, Section};
use std::alloc::{AllocError, Global};

/// A text in the language of `asm`, and what it comes from.
#[derive(Drop)]
pub struct Expanded {
    pub text: String,
    /// The row of each line, where it is of one.
    pub rows: Vec<Option<usize>>,
    /// Where directives are that have no effect here.
    pub passed: Vec<Position>,
}

/// What a program is expanded to: a text, or all that is wrong with it, in the order of the rows.
#[derive(Drop)]
pub enum Expansion {
    Text(Expanded),
    Faults(Vec<Fault>),
}

// The most bytes that a program may have.
const LIMIT: u64 = 270_336;

fn is_misaligned(fault: &Fault) -> bool {
    matches!(fault.wrong, Wrong::Align)
}

// Notes a fault; of misaligned instructions in a row, only the first.
fn note(faults: &mut Vec<Fault>, fault: Fault) -> Result<(), AllocError> {
    let is_same = match faults.last() {
        Some(last) => is_misaligned(last) && is_misaligned(&fault),
        None => false,
    };
    if !is_same {
        faults.push(fault)?;
    }
    Ok(())
}

// Whether a fault comes of what is missing.
fn is_undefined(fault: &Fault) -> bool {
    matches!(fault.wrong, Wrong::Undefined)
}

impl<'a> Assembler<'a> {
    // What is wrong with a statement.
    fn tried(&mut self, sentence: &'a Sentence<'a>) -> Result<Option<Fault>, AllocError> {
        match self.statement(sentence) {
            Ok(()) => Ok(None),
            Err(Stop::Memory) => Err(AllocError),
            Err(Stop::Wrong(wrong, column)) => {
                let at = Position { column, ..self.at };
                Ok(Some(Fault { at, wrong }))
            }
        }
    }

    // The zeros before a section of the file.
    fn put_gap(&mut self, section: Section) -> Result<(), AllocError> {
        let gap = self.layout.part(section).gap;
        self.output.go_to(section);
        if gap > 0 {
            self.output.counted(".zero", gap.cast_signed())?;
        }
        Ok(())
    }

    // Begins a file.
    fn begin(&mut self, unit: usize) -> Result<(), AllocError> {
        self.names.go_to(unit);
        self.layout.go_to(unit);
        self.output.begin(None);
        for section in &SECTIONS {
            self.put_gap(*section)?;
        }
        self.output.go_to(Section::Text);
        Ok(())
    }

    // Goes on from a file to the one of the next statement.
    fn cross(&mut self, from: usize, to: usize) -> Result<(), AllocError> {
        if from != to {
            self.close_text()?;
            self.begin(to)?;
        }
        Ok(())
    }

    // Finds where the statements lie, which is noted.
    fn first_pass(&mut self, sentences: &'a [Sentence<'a>]) -> Result<Vec<u64>, AllocError> {
        let mut starts = Vec::new(self.alloc);
        let mut unit = 0usize;
        self.begin(unit)?;
        for sentence in sentences {
            self.cross(unit, sentence.unit)?;
            unit = sentence.unit;
            starts.push(self.layout.offset())?;
            let _fault = self.tried(sentence)?;
        }
        self.close_text()?;
        Ok(starts)
    }

    // Writes the statements where they lie.
    fn last_pass(
        &mut self,
        sentences: &'a [Sentence<'a>],
        starts: &[u64],
    ) -> Result<Vec<Fault>, AllocError> {
        let mut faults = Vec::new(self.alloc);
        let mut unit = 0usize;
        self.begin(unit)?;
        for (sentence, start) in sentences.iter().zip(starts) {
            self.cross(unit, sentence.unit)?;
            unit = sentence.unit;
            self.layout.set_offset(*start);
            self.output.begin(Some(sentence.row));
            if let Some(fault) = self.tried(sentence)? {
                note(&mut faults, fault)?;
            }
        }
        self.close_text()?;
        Ok(faults)
    }

    // What is wrong with the whole: it begins elsewhere than at _start, or has too many bytes.
    fn whole(&mut self, end: u64) -> Option<Fault> {
        if end > LIMIT {
            return Some(Fault {
                at: self.at,
                wrong: Wrong::Limit,
            });
        }
        self.names.go_to(0);
        let symbol = self.names.symbol(b"_start")?;
        if symbol.value.base == Base::Section(Section::Text, 0) && symbol.value.number == 0 {
            return None;
        }
        Some(Fault {
            at: symbol.at,
            wrong: Wrong::Start,
        })
    }

    fn expand(&mut self, sentences: &'a [Sentence<'a>]) -> Result<Vec<Fault>, AllocError> {
        let starts = self.first_pass(sentences)?;
        self.names.share()?;
        let end = self.layout.place();
        self.layout.rewind();
        self.is_last = true;
        self.output.switch_on();
        let mut faults = self.last_pass(sentences, &starts)?;
        if let Some(fault) = self.whole(end) {
            faults.push(fault)?;
        }
        Ok(faults)
    }
}

fn add(text: &mut String, bytes: &[u8]) -> Result<(), AllocError> {
    for byte in bytes {
        text.push(char::from(*byte))?;
    }
    Ok(())
}

// The texts of the sections, one after the other.
fn joined(alloc: Global, output: &Output, passed: Vec<Position>) -> Result<Expanded, AllocError> {
    let mut text = String::new(alloc);
    let mut rows = Vec::new(alloc);
    for section in &SECTIONS {
        add(&mut text, output.text(*section))?;
        rows.extend_from_slice(output.rows(*section))?;
    }
    Ok(Expanded { text, rows, passed })
}

// The faults but those that come of what is missing.
fn told(alloc: Global, faults: Vec<Fault>, is_cut: bool) -> Result<Vec<Fault>, AllocError> {
    let mut told = Vec::new(alloc);
    for fault in &faults {
        if !is_cut || !is_undefined(fault) {
            told.push(*fault)?;
        }
    }
    Ok(told)
}

fn expand_sentences<'a>(
    alloc: Global,
    sentences: &'a [Sentence<'a>],
    program: &Program,
) -> Result<Expansion, AllocError> {
    let mut assembler: Assembler<'a> = Assembler::new(alloc, program.units)?;
    let faults = assembler.expand(sentences)?;
    if !faults.is_empty() {
        return Ok(Expansion::Faults(told(alloc, faults, program.is_cut)?));
    }
    let Assembler { output, passed, .. } = assembler;
    Ok(Expansion::Text(joined(alloc, &output, passed)?))
}

/// A program in the language of `asm`, or all that is wrong with it.
pub fn expand(alloc: Global, program: &Program) -> Result<Expansion, AllocError> {
    let sentences = sentences_of(alloc, program)?;
    expand_sentences(alloc, &sentences, program)
}
