//! Directives.

use crate::assembler::Assembler;
use crate::data::Width;
use crate::fault::{Position, Stop, Usage, Wrong};
use crate::names::Symbol;
use crate::operands::{Call, Operand};
use crate::tokens::Kind;
use crate::value::{Section, Value};
use crate::words::{add_instructions, add_names};
use std::alloc::{AllocError, Global};

/// What a directive asks for.
#[derive(Clone, Copy)]
pub enum Directive {
    Go(Section),
    /// .section name
    Section,
    Data(Width),
    /// Strings, with a zero after each or not.
    Texts(bool),
    Space,
    /// .fill count, size, value
    Fill,
    /// Up to a power of two, or up to a multiple.
    Align(bool),
    /// .equ name, value
    Equate,
    /// .comm name, count, multiple
    Common,
    /// .globl name
    Export,
    /// What has no effect here.
    Passed,
}

/// A directive as the tables have it.
#[derive(Clone, Copy)]
pub struct Named {
    pub name: &'static str,
    pub directive: Directive,
}

const SECTIONS: [(&str, Directive); 5] = [
    (".text", Directive::Go(Section::Text)),
    (".rodata", Directive::Go(Section::ReadOnly)),
    (".data", Directive::Go(Section::Data)),
    (".bss", Directive::Go(Section::Zeros)),
    (".section", Directive::Section),
];

const DATA: [(&str, Directive); 18] = [
    (".byte", Directive::Data(Width::One)),
    (".half", Directive::Data(Width::Two)),
    (".short", Directive::Data(Width::Two)),
    (".hword", Directive::Data(Width::Two)),
    (".2byte", Directive::Data(Width::Two)),
    (".word", Directive::Data(Width::Four)),
    (".long", Directive::Data(Width::Four)),
    (".int", Directive::Data(Width::Four)),
    (".4byte", Directive::Data(Width::Four)),
    (".dword", Directive::Data(Width::Eight)),
    (".quad", Directive::Data(Width::Eight)),
    (".8byte", Directive::Data(Width::Eight)),
    (".ascii", Directive::Texts(false)),
    (".asciz", Directive::Texts(true)),
    (".string", Directive::Texts(true)),
    (".space", Directive::Space),
    (".skip", Directive::Space),
    (".zero", Directive::Space),
];

const OTHERS: [(&str, Directive); 13] = [
    (".align", Directive::Align(true)),
    (".p2align", Directive::Align(true)),
    (".balign", Directive::Align(false)),
    (".equ", Directive::Equate),
    (".set", Directive::Equate),
    (".eqv", Directive::Equate),
    (".equiv", Directive::Equate),
    (".fill", Directive::Fill),
    (".globl", Directive::Export),
    (".global", Directive::Export),
    (".weak", Directive::Export),
    (".comm", Directive::Common),
    (".lcomm", Directive::Common),
];

const PASSED: [&str; 12] = [
    ".extern",
    ".local",
    ".hidden",
    ".type",
    ".size",
    ".file",
    ".ident",
    ".attribute",
    ".option",
    ".loc",
    ".addrsig",
    ".end",
];

// What is done as texts are read.
const READ: [&str; 5] = [".include", ".macro", ".endm", ".rept", ".endr"];

const EQUATE: Usage = Usage {
    takes: "a name and a value",
    example: "SIZE, 64",
};

const COMMON: Usage = Usage {
    takes: "a name, how many bytes, and maybe a multiple for its address",
    example: "buffer, 64, 8",
};

const NAMES: Usage = Usage {
    takes: "names",
    example: "main",
};

const SECTION: Usage = Usage {
    takes: "a name",
    example: ".rodata",
};

fn among(table: &[(&'static str, Directive)], name: &[u8]) -> Option<Named> {
    for (other, directive) in table {
        if other.as_bytes().eq_ignore_ascii_case(name) {
            return Some(Named {
                name: other,
                directive: *directive,
            });
        }
    }
    None
}

fn passed(name: &[u8]) -> Option<Named> {
    for other in &PASSED {
        if other.as_bytes().eq_ignore_ascii_case(name) {
            return Some(Named {
                name: other,
                directive: Directive::Passed,
            });
        }
    }
    if name.starts_with(b".cfi_") {
        return Some(Named {
            name: ".cfi",
            directive: Directive::Passed,
        });
    }
    None
}

fn add<'w>(
    words: &mut Vec<&'w str>,
    table: &[(&'static str, Directive)],
) -> Result<(), AllocError> {
    for (name, _) in table {
        words.push(*name)?;
    }
    Ok(())
}

fn add_data<'w>(words: &mut Vec<&'w str>) -> Result<(), AllocError> {
    add(words, &DATA)
}

fn add_others<'w>(words: &mut Vec<&'w str>) -> Result<(), AllocError> {
    add(words, &SECTIONS)?;
    add(words, &OTHERS)?;
    add_names(words, &PASSED)?;
    add_names(words, &READ)
}

/// The names of all instructions and directives.
pub fn known_words<'w>(alloc: Global) -> Result<Vec<&'w str>, AllocError> {
    let mut words = Vec::new(alloc);
    add_instructions(&mut words)?;
    add_data(&mut words)?;
    add_others(&mut words)?;
    Ok(words)
}

/// The directive of a name.
pub(crate) fn directive_called(name: &[u8]) -> Option<Named> {
    if let Some(found) = among(&DATA, name) {
        return Some(found);
    }
    if let Some(found) = among(&SECTIONS, name) {
        return Some(found);
    }
    if let Some(found) = among(&OTHERS, name) {
        return Some(found);
    }
    passed(name)
}

// Whether a section's name is that, or that and a dot and more.
fn is_of(name: &[u8], family: &[u8]) -> bool {
    match name.strip_prefix(family) {
        Some([]) | Some([b'.', ..]) => true,
        _ => false,
    }
}

// The families of sections.
const FAMILIES: [(&[u8], Section); 12] = [
    (b".text", Section::Text),
    (b".init", Section::Text),
    (b".rodata", Section::ReadOnly),
    (b".srodata", Section::ReadOnly),
    (b".data", Section::Data),
    (b".sdata", Section::Data),
    (b".bss", Section::Zeros),
    (b".sbss", Section::Zeros),
    (b".note", Section::Dropped),
    (b".comment", Section::Dropped),
    (b".eh_frame", Section::Dropped),
    (b".riscv", Section::Dropped),
];

fn section_called(name: &[u8]) -> Option<Section> {
    for (family, section) in &FAMILIES {
        if is_of(name, family) {
            return Some(*section);
        }
    }
    None
}

// The name of a section: a word, a string, or .note.GNU-stack and the like, which have a sign in them.
fn section_name<'a>(operand: &Operand<'a>) -> Option<&'a [u8]> {
    let [first, rest @ ..] = operand.tokens else {
        return None;
    };
    match first.kind {
        Kind::Name(name) if rest.is_empty() || name.starts_with(b".note") => Some(name),
        Kind::Text(name) if rest.is_empty() => Some(name),
        _ => None,
    }
}

impl<'a> Assembler<'a> {
    fn go_to(&mut self, section: Section) {
        self.layout.section = section;
        self.output.go_to(section);
    }

    // .section name, and flags that have no effect here
    fn section(&mut self, call: &Call<'_, 'a>) -> Result<(), Stop> {
        let [operand, ..] = call.operands else {
            return Err(call.misused(SECTION));
        };
        let Some(name) = section_name(operand) else {
            return Err(call.misused(SECTION));
        };
        match section_called(name) {
            Some(section) => {
                self.go_to(section);
                Ok(())
            }
            None => Err(Stop::Wrong(Wrong::Section, operand.column)),
        }
    }

    /// Notes what a name stands for; it is a fault if an earlier statement says so, and one of them is a label.
    pub(crate) fn define(
        &mut self,
        name: &'a [u8],
        symbol: Symbol,
        column: usize,
    ) -> Result<(), Stop> {
        if let Some(first) = self.names.own(name) {
            let is_label = first.is_label || symbol.is_label;
            if is_label && first.at.row != symbol.at.row {
                return Err(Stop::Wrong(Wrong::Twice(first.at), column));
            }
            self.unshared(name, symbol, column)?;
        }
        self.names.define(name, symbol)?;
        Ok(())
    }

    // It is a fault if another file exports the name, too.
    fn unshared(&self, name: &[u8], symbol: Symbol, column: usize) -> Result<(), Stop> {
        match self.names.exported(name) {
            Some(first) if first.unit != symbol.unit => {
                Err(Stop::Wrong(Wrong::Twice(first.at), column))
            }
            _ => Ok(()),
        }
    }

    /// A symbol of the file, at a column of the statement.
    pub(crate) fn symbol(&self, value: Value, column: usize, is_label: bool) -> Symbol {
        Symbol {
            value,
            at: Position { column, ..self.at },
            unit: self.names.unit(),
            is_label,
        }
    }

    // .comm name, count, multiple
    fn common(&mut self, call: &Call<'_, 'a>) -> Result<(), Stop> {
        let [name, count, align @ ..] = call.operands else {
            return Err(call.misused(COMMON));
        };
        let Some(called) = name.name() else {
            return Err(call.misused(COMMON));
        };
        let section = self.layout.section;
        self.go_to(Section::Commons);
        let put = self.put_common(called, name.column, count, align);
        self.go_to(section);
        put
    }

    // .globl names
    fn export(&mut self, call: &Call<'_, 'a>) -> Result<(), Stop> {
        if call.operands.is_empty() {
            return Err(call.misused(NAMES));
        }
        for operand in call.operands {
            let Some(name) = operand.name() else {
                return Err(call.misused(NAMES));
            };
            if !self.is_last {
                self.names.export(name)?;
            }
        }
        Ok(())
    }

    // A directive that has no effect here.
    fn pass(&mut self, call: &Call<'_, 'a>) -> Result<(), Stop> {
        if self.is_last {
            self.passed.push(Position {
                column: call.column,
                ..self.at
            })?;
        }
        Ok(())
    }

    // .equ name, value
    fn equate(&mut self, call: &Call<'_, 'a>) -> Result<(), Stop> {
        let [name, operand] = call.operands else {
            return Err(call.misused(EQUATE));
        };
        let Some(called) = name.name() else {
            return Err(call.misused(EQUATE));
        };
        let value = self.early_value(operand)?;
        let symbol = self.symbol(value, name.column, false);
        self.define(called, symbol, name.column)
    }

    /// A directive with its operands.
    pub(crate) fn directive(
        &mut self,
        directive: Directive,
        call: &Call<'_, 'a>,
    ) -> Result<(), Stop> {
        match directive {
            Directive::Go(section) => self.go_to(section),
            Directive::Section => self.section(call)?,
            Directive::Data(width) => self.data(width, call)?,
            Directive::Texts(is_ended) => self.texts(is_ended, call)?,
            Directive::Space => self.space(call)?,
            Directive::Fill => self.fill(call)?,
            Directive::Align(is_power) => self.align(is_power, call)?,
            Directive::Equate => self.equate(call)?,
            Directive::Common => self.common(call)?,
            Directive::Export => self.export(call)?,
            Directive::Passed => self.pass(call)?,
        }
        Ok(())
    }
}
