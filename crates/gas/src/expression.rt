//! Expressions: operators of three levels, as `as` has them.

use crate::fault::{Stop, Wrong};
use crate::layout::Layout;
use crate::names::Names;
use crate::tokens::{Kind, Mark, Token, Way};
use crate::value::{UNKNOWN, Value, binary, number, unary};
use std::alloc::Global;

// What compilers add to the name of a function of a shared library.
const SUFFIX: &[u8] = b"@plt";

fn without_suffix(name: &[u8]) -> &[u8] {
    match name.strip_suffix(SUFFIX) {
        Some(front) => front,
        None => name,
    }
}

/// What names mean at a statement.
#[derive(Clone, Copy)]
pub struct Scope<'s, 'a> {
    pub names: &'s Names<'a>,
    pub layout: &'s Layout,
    /// The statement's row.
    pub row: usize,
    /// Whether names that aren't defined are a fault.
    pub is_last: bool,
    /// Whether names have to be defined above the statement.
    pub is_early: bool,
    /// The statement's address.
    pub here: Value,
}

impl Scope<'_, '_> {
    fn known(&self, found: Option<Value>, row: usize) -> Result<Value, Wrong> {
        match found {
            Some(value) => {
                if self.is_early && row > self.row {
                    return Err(Wrong::Later);
                }
                Ok(value)
            }
            None => {
                if self.is_last || self.is_early {
                    return Err(Wrong::Undefined);
                }
                Ok(UNKNOWN)
            }
        }
    }

    fn named(&self, name: &[u8]) -> Result<Value, Wrong> {
        if matches!(name, [b'.']) {
            return Ok(self.here);
        }
        match self.names.symbol(without_suffix(name)) {
            Some(symbol) => self.known(Some(symbol.value), symbol.at.row),
            None => self.known(None, 0),
        }
    }

    fn local(&self, number: u64, way: Way) -> Result<Value, Wrong> {
        let row = match way {
            Way::Backward => 0,
            Way::Forward => usize::MAX,
        };
        self.known(self.names.local(number, way, self.row), row)
    }

    // The value of a token that is an operand.
    fn operand(&self, kind: Kind) -> Result<Value, Wrong> {
        match kind {
            Kind::Name(name) => self.named(name),
            Kind::Number(value) => Ok(number(value.cast_signed())),
            Kind::Local(number, way) => self.local(number, way),
            Kind::Wrong(wrong) => Err(wrong),
            Kind::Text(_) | Kind::Mark(_) => Err(Wrong::Expression),
        }
    }
}

// What waits for its right operand, and its column.
#[derive(Clone, Copy)]
enum Pending {
    Open,
    Unary(Mark, usize),
    Binary(Mark, usize),
}

// How tightly an operator binds; 0 for a mark that is none.
fn level(mark: Mark) -> u8 {
    match mark {
        Mark::Times | Mark::Over | Mark::Percent | Mark::Left | Mark::Right => 3,
        Mark::And | Mark::Or | Mark::Xor => 2,
        Mark::Plus | Mark::Minus => 1,
        _ => 0,
    }
}

#[derive(Drop)]
struct Stacks {
    values: Vec<Value>,
    pending: Vec<Pending>,
    wants_operand: bool,
}

impl Stacks {
    fn pop_value(&mut self) -> Result<Value, Wrong> {
        match self.values.pop() {
            Some(value) => Ok(value),
            None => Err(Wrong::Expression),
        }
    }

    fn top_level(&self) -> u8 {
        match self.pending.last() {
            Some(Pending::Unary(_, _)) => 4,
            Some(Pending::Binary(mark, _)) => level(*mark),
            Some(Pending::Open) | None => 0,
        }
    }

    // Applies an operator to the values on top.
    fn applied(&mut self, pending: Pending) -> Result<Value, Wrong> {
        let last = self.pop_value()?;
        match pending {
            Pending::Unary(mark, _) => unary(mark, last),
            Pending::Binary(mark, _) => binary(mark, self.pop_value()?, last),
            Pending::Open => Err(Wrong::Expression),
        }
    }

    // Applies the operator on top, if there is one.
    fn reduce(&mut self) -> Result<(), Stop> {
        let Some(pending) = self.pending.pop() else {
            return Ok(());
        };
        let column = match pending {
            Pending::Unary(_, column) | Pending::Binary(_, column) => column,
            Pending::Open => 1,
        };
        match self.applied(pending) {
            Ok(value) => self.values.push(value)?,
            Err(wrong) => return Err(Stop::Wrong(wrong, column)),
        }
        Ok(())
    }

    // Applies the operators on top that bind at least as tightly as `level`.
    fn settle(&mut self, level: u8) -> Result<(), Stop> {
        for _ in 0..self.pending.len() {
            if self.top_level() < level {
                break;
            }
            self.reduce()?;
        }
        Ok(())
    }

    fn close(&mut self, column: usize) -> Result<(), Stop> {
        self.settle(1)?;
        match self.pending.pop() {
            Some(Pending::Open) => Ok(()),
            _ => Err(Stop::Wrong(Wrong::Expression, column)),
        }
    }

    // A mark where an operand is wanted.
    fn prefix(&mut self, mark: Mark, column: usize) -> Result<(), Stop> {
        match mark {
            Mark::Open => self.pending.push(Pending::Open)?,
            Mark::Plus | Mark::Minus | Mark::Not => {
                self.pending.push(Pending::Unary(mark, column))?;
            }
            _ => return Err(Stop::Wrong(Wrong::Expression, column)),
        }
        Ok(())
    }

    // A mark where an operator is wanted.
    fn operator(&mut self, mark: Mark, column: usize) -> Result<(), Stop> {
        if mark == Mark::Close {
            return self.close(column);
        }
        let level = level(mark);
        if level == 0 {
            return Err(Stop::Wrong(Wrong::Expression, column));
        }
        self.settle(level)?;
        self.pending.push(Pending::Binary(mark, column))?;
        self.wants_operand = true;
        Ok(())
    }

    fn operand(&mut self, scope: &Scope, token: &Token) -> Result<(), Stop> {
        if !self.wants_operand {
            return Err(Stop::Wrong(Wrong::Expression, token.column));
        }
        match scope.operand(token.kind) {
            Ok(value) => self.values.push(value)?,
            Err(wrong) => return Err(Stop::Wrong(wrong, token.column)),
        }
        self.wants_operand = false;
        Ok(())
    }

    fn read(&mut self, scope: &Scope, token: &Token) -> Result<(), Stop> {
        match token.kind {
            Kind::Mark(mark) => {
                if self.wants_operand {
                    self.prefix(mark, token.column)
                } else {
                    self.operator(mark, token.column)
                }
            }
            _ => self.operand(scope, token),
        }
    }

    fn finish(&mut self, column: usize) -> Result<Value, Stop> {
        self.settle(1)?;
        match (self.values.pop(), self.pending.len()) {
            (Some(value), 0) => Ok(value),
            _ => Err(Stop::Wrong(Wrong::Expression, column)),
        }
    }
}

/// The value of an expression, or what is wrong with it; what ends too early is wrong in that column.
pub(crate) fn evaluate(
    alloc: Global,
    scope: &Scope,
    tokens: &[Token],
    column: usize,
) -> Result<Value, Stop> {
    let mut stacks = Stacks {
        values: Vec::new(alloc),
        pending: Vec::new(alloc),
        wants_operand: true,
    };
    for token in tokens {
        stacks.read(scope, token)?;
    }
    stacks.finish(column)
}
