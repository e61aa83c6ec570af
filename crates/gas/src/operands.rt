//! The operands of a statement: what lies between its commas.

use crate::fault::{Stop, Usage, Wrong};
use crate::registers::{Register, register_called};
use crate::tokens::{Kind, Mark, Token, column_of};
use std::alloc::{AllocError, Global};

/// An operand, and the column where it would begin.
#[derive(Clone, Copy)]
pub struct Operand<'a> {
    pub tokens: &'a [Token<'a>],
    pub column: usize,
}

/// A word with its operands.
#[derive(Clone, Copy)]
pub struct Call<'o, 'a> {
    pub word: &'static str,
    pub column: usize,
    pub operands: &'o [Operand<'a>],
}

impl Call<'_, '_> {
    /// The fault that the operands aren't of this kind.
    pub(crate) fn misused(&self, usage: Usage) -> Stop {
        Stop::Wrong(Wrong::Takes(self.word, usage), self.column)
    }
}

/// An address in memory: an offset, which is a number or a part of an address, from a base register.
#[derive(Clone, Copy)]
pub struct Memory<'a> {
    pub offset: Operand<'a>,
    pub base: Register,
}

fn register_in(token: &Token) -> Option<Register> {
    match token.kind {
        Kind::Name(name) => register_called(name),
        _ => None,
    }
}

impl<'a> Operand<'a> {
    /// The register that the operand is.
    pub(crate) fn maybe_register(&self) -> Option<Register> {
        match self.tokens {
            [only] => register_in(only),
            _ => None,
        }
    }

    /// The register that the operand has to be.
    pub(crate) fn register(&self) -> Result<Register, Stop> {
        match self.maybe_register() {
            Some(register) => Ok(register),
            None => Err(Stop::Wrong(Wrong::Register, self.column)),
        }
    }

    /// A number and a register in parentheses; the number may be left out.
    pub(crate) fn memory(&self) -> Option<Memory<'a>> {
        match self.tokens {
            [offset @ .., open, base, close] => {
                if !open.is(Mark::Open) || !close.is(Mark::Close) {
                    return None;
                }
                let base = register_in(base)?;
                let offset = Operand {
                    tokens: offset,
                    column: self.column,
                };
                Some(Memory { offset, base })
            }
            _ => None,
        }
    }

    /// A part of an address: its name, and the expression in parentheses.
    pub(crate) fn part(&self) -> Option<(&'a [u8], Operand<'a>)> {
        match self.tokens {
            [percent, word, tokens @ ..] => {
                if !percent.is(Mark::Percent) {
                    return None;
                }
                let Kind::Name(name) = word.kind else {
                    return None;
                };
                let column = word.column;
                Some((name, Operand { tokens, column }))
            }
            _ => None,
        }
    }

    /// The two names, or numeric labels, of which the operand is the difference.
    pub(crate) fn difference(&self) -> Option<(Operand<'a>, Operand<'a>)> {
        match self.tokens {
            [one, minus, other] if minus.is(Mark::Minus) => {
                let first = Operand {
                    tokens: self.tokens.get(..1)?,
                    column: one.column,
                };
                let last = Operand {
                    tokens: self.tokens.get(2..)?,
                    column: other.column,
                };
                Some((first, last))
            }
            _ => None,
        }
    }

    /// The name that the operand is.
    pub(crate) fn name(&self) -> Option<&'a [u8]> {
        match self.tokens {
            [only] => match only.kind {
                Kind::Name(name) => Some(name),
                _ => None,
            },
            _ => None,
        }
    }
}

/// What lies between the commas of some tokens; nothing where there are none.
pub(crate) fn operands_of<'a>(
    alloc: Global,
    tokens: &'a [Token<'a>],
    end: usize,
) -> Result<Vec<Operand<'a>>, AllocError> {
    let mut operands = Vec::new(alloc);
    if tokens.is_empty() {
        return Ok(operands);
    }
    let mut column = end;
    for tokens in tokens.split(|token| token.is(Mark::Comma)) {
        column = column_of(tokens, column);
        operands.push(Operand { tokens, column })?;
    }
    Ok(operands)
}
