//! The statements of assembly text.

use crate::mnemonics::Width;
use crate::number::Number;
use crate::operations::Partial;
use unixmodel::assembly::AsmKind;
use unixmodel::instr::{BranchOp, Instr, Reg};

/// An instruction that jumps, without its target.
#[derive(Clone, Copy)]
pub enum Leap {
    /// If the comparison of the registers holds.
    Branch(BranchOp, Reg, Reg),
    /// With the return address in a register.
    Jal(Reg),
}

/// Where a jump goes to, or what is loaded.
#[derive(Drop)]
pub enum Target {
    Number(Number),
    Label(Vec<u8>),
}

/// What a line asks for.
#[derive(Drop)]
pub enum Statement {
    Empty,
    /// An instruction.
    Whole(Instr),
    /// One with a number.
    Numbered(Partial, Number),
    /// One that jumps.
    Jump(Leap, Target),
    /// A number or an address into a register.
    Load(Reg, Target),
    /// A number, as bytes.
    Data(Width, Number),
    /// Bytes.
    Text(Vec<u8>),
    /// That many zeros.
    Zeros(Number),
    /// Zeros up to a multiple.
    Padding(Number),
}

/// A label, and what follows it, or what is wrong with that.
#[derive(Drop)]
pub struct Line<'a> {
    pub label: Option<&'a [u8]>,
    pub says: Result<Statement, AsmKind>,
}
