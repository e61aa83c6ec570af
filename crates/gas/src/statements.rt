//! Statements: labels, and then an instruction, a directive or an assignment.

use crate::assembler::Assembler;
use crate::directives::directive_called;
use crate::fault::{Position, Stop, Wrong};
use crate::lexer::Sentence;
use crate::operands::{Call, Operand, operands_of};
use crate::source::Status;
use crate::tokens::{Kind, Mark, Token, after_labels, column_of, label_count};
use crate::words::word_called;
use std::alloc::AllocError;

// What is wrong with the first token that can't be read.
fn unread(tokens: &[Token]) -> Result<(), Stop> {
    for token in tokens {
        if let Kind::Wrong(wrong) = token.kind {
            return Err(Stop::Wrong(wrong, token.column));
        }
    }
    Ok(())
}

impl<'a> Assembler<'a> {
    // A line of the expanded text for a label: a comment where it can't have one.
    fn put_label(&mut self, name: &[u8]) -> Result<(), AllocError> {
        if !self.is_kept(name) {
            self.output.put(b"# ")?;
        }
        self.output.put(name)?;
        self.output.put(b":\n")
    }

    /// A label.
    pub(crate) fn label(&mut self, name: &'a [u8], column: usize) -> Result<(), Stop> {
        let symbol = self.symbol(self.layout.here(), column, true);
        self.define(name, symbol, column)?;
        self.put_label(name)?;
        Ok(())
    }

    fn local_label(&mut self, number: u64) -> Result<(), Stop> {
        if !self.is_last {
            let here = self.layout.here();
            self.names.define_local(number, self.at.row, here)?;
        }
        Ok(())
    }

    // A label and its colon.
    fn labelled(&mut self, pair: &'a [Token<'a>]) -> Result<(), Stop> {
        let Some(first) = pair.first() else {
            return Ok(());
        };
        match first.kind {
            Kind::Name(name) => self.label(name, first.column),
            Kind::Number(number) => self.local_label(number),
            _ => Err(Stop::Wrong(Wrong::Statement, first.column)),
        }
    }

    // The labels that a statement begins with.
    fn labels(&mut self, tokens: &'a [Token<'a>]) -> Result<(), Stop> {
        for pair in tokens.chunks(2).take(label_count(tokens)) {
            self.labelled(pair)?;
        }
        Ok(())
    }

    // name = value
    fn assignment(
        &mut self,
        name: &'a [u8],
        column: usize,
        operand: &Operand<'a>,
    ) -> Result<(), Stop> {
        let value = self.early_value(operand)?;
        let symbol = self.symbol(value, column, false);
        self.define(name, symbol, column)
    }

    fn named_instruction(
        &mut self,
        name: &[u8],
        column: usize,
        operands: &[Operand<'a>],
    ) -> Result<(), Stop> {
        let Some(word) = word_called(name) else {
            return Err(Stop::Wrong(Wrong::Instruction, column));
        };
        let call = Call {
            word: word.name,
            column,
            operands,
        };
        self.instruction(word.form, &call)
    }

    fn named_directive(
        &mut self,
        name: &[u8],
        column: usize,
        operands: &[Operand<'a>],
    ) -> Result<(), Stop> {
        let Some(named) = directive_called(name) else {
            return Err(Stop::Wrong(Wrong::Directive, column));
        };
        let call = Call {
            word: named.name,
            column,
            operands,
        };
        self.directive(named.directive, &call)
    }

    // A word and what follows it.
    fn worded(&mut self, name: &'a [u8], column: usize, rest: &'a [Token<'a>]) -> Result<(), Stop> {
        if let [equals, value @ ..] = rest {
            if equals.is(Mark::Equals) {
                let column = column_of(value, equals.column);
                let operand = Operand {
                    tokens: value,
                    column,
                };
                return self.assignment(name, column, &operand);
            }
        }
        let operands = operands_of(self.alloc, rest, column)?;
        if name.starts_with(b".") {
            return self.named_directive(name, column, &operands);
        }
        self.named_instruction(name, column, &operands)
    }

    /// A statement.
    pub(crate) fn statement(&mut self, sentence: &'a Sentence<'a>) -> Result<(), Stop> {
        self.at = Position {
            row: sentence.row,
            column: column_of(&sentence.tokens, 1),
        };
        if let Status::Wrong(wrong, column) = sentence.status {
            return Err(Stop::Wrong(wrong, column));
        }
        unread(&sentence.tokens)?;
        self.labels(&sentence.tokens)?;
        self.here = self.layout.here();
        match after_labels(&sentence.tokens) {
            [] => Ok(()),
            [first, rest @ ..] => match first.kind {
                Kind::Name(name) => self.worded(name, first.column, rest),
                _ => Err(Stop::Wrong(Wrong::Statement, first.column)),
            },
        }
    }
}
