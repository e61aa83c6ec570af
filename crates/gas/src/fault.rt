//! What is wrong with a text.

use std::alloc::{AllocError, AllocFailed};

/// Where something is in a program: the row by its index, the column from 1 on.
#[derive(Clone, Copy)]
pub struct Position {
    pub row: usize,
    pub column: usize,
}

/// How a word is used: what it takes, and an example of that.
#[derive(Clone, Copy)]
pub struct Usage {
    pub takes: &'static str,
    pub example: &'static str,
}

/// What is wrong.
#[derive(Clone, Copy)]
pub enum Wrong {
    /// A character that no text has outside strings and comments.
    Character,
    /// A string or a character that isn't closed, or an escape that isn't known.
    Quote,
    /// A number that isn't written so, or that 64 bits don't hold.
    Number,
    /// A line that begins with no label, instruction or directive.
    Statement,
    /// A word that names no instruction.
    Instruction,
    /// A word that names no directive.
    Directive,
    /// A word that names no section.
    Section,
    /// The operands aren't those that the word takes.
    Takes(&'static str, Usage),
    /// A word where a register belongs.
    Register,
    /// An expression that ends too early, or goes on too long.
    Expression,
    /// An address where a number belongs.
    Address,
    /// Addresses that are not added, multiplied or compared.
    Mixed,
    /// A division by 0.
    Divisor,
    /// A name that nothing defines.
    Undefined,
    /// A name that is defined only below the line that needs its value.
    Later,
    /// A name that is defined here first.
    Twice(Position),
    /// A number that doesn't lie within these bounds.
    Range(i64, i64),
    /// A number that is no power of two.
    Power,
    /// A target that is too far away, or odd.
    Far,
    /// A `%` that no part of an address is called.
    Modifier,
    /// A `%pcrel_lo` of a label without a `%pcrel_hi`.
    Pair,
    /// An instruction at an address that is no multiple of 4.
    Align,
    /// More bytes than a program may have.
    Limit,
    /// The program doesn't begin at `_start`.
    Start,
    /// A file that can't be read.
    File,
    /// Files and macros that lie too deep in one another.
    Deep,
    /// More statements than texts may have, once files and macros are in place.
    Long,
    /// A `.macro` or a `.rept` that no line ends.
    Open,
    /// An `.endm` or an `.endr` that ends nothing.
    Closed,
    /// A macro that is defined again.
    Again,
    /// More macros than there may be.
    Macros,
    /// More arguments than the macro has, which is that many.
    Arguments(usize),
}

/// Something that is wrong, and where.
#[derive(Clone, Copy)]
pub struct Fault {
    pub at: Position,
    pub wrong: Wrong,
}

/// Why a statement isn't expanded: no memory, or what is wrong in that column.
#[derive(Clone, Copy)]
pub enum Stop {
    Memory,
    Wrong(Wrong, usize),
}

impl From<AllocError> for Stop {
    fn from(_error: AllocError) -> Stop {
        Stop::Memory
    }
}

impl<T: Drop> From<AllocFailed<T>> for Stop {
    fn from(_failed: AllocFailed<T>) -> Stop {
        Stop::Memory
    }
}
