//! The address of each line.
ghost use Rattle.std.specs.Prelude.{◌≡◌, ◌≤◌, ◌^◌, ◌<◌, IfOk, IfSome, map};
ghost use Rattle.unixmodel.specs.Assembly as the;
ghost use Rattle.unixmodel.specs.Statements as statements;
ghost use Rattle.asmtext.specs.Numbers.{number_of};
ghost use Rattle.asmtext.specs.Statements.{line_seen, said_seen, statement_of};
ghost use Rattle.asm.specs.Placed.{placed_seen, step_of};

use asmtext::{Line, Number, Statement};
use std::alloc::{AllocError, Global};
use unixmodel::assembly::AsmKind;

/// The most bytes of a text.
pub const LIMIT: u128 = 270336;

/// A line with its number, from 1 on, and its address.
#[derive(Drop)]
pub struct Placed<'a> {
    pub number: usize,
    pub address: u128,
    pub line: &'a Line<'a>,
}

// How many bytes fit between an address and the limit.
fn room_at(address: u128) -> u32
    ensures is { result ≡ the.room_at address }
    ensures within { result ≤ 270336 }
{
    if LIMIT < address {
        return 0;
    }
    (LIMIT - address) as u32
}

/// How many zeros a number asks for, where there is room.
#[tactic(auto, using(crate::proofs::LayoutLemmas::zeros_within))]
pub fn zeros(address: u128, number: &Number) -> Option<u32>
    ensures { result ≡ the.filled address (statements.Statement.Zeros (number_of number.now)) }
{
    let count = number.at_most(room_at(address) as u64)?;
    Some(count as u32)
}

// The number, where it is one of those whose multiples a text may go up to.
fn step(number: &Number) -> Option<u64>
    ensures is { result ≡ step_of (number_of number.now) }
    ensures within { IfSome result (λ step. (1 ≤ step) × (step ≤ 4096)) }
{
    match number.at_most(4096) {
        Some(step @ (2 | 4 | 8 | 16 | 4096)) => Some(step),
        _ => None,
    }
}

/// The zeros up to a multiple, where there is room.
#[tactic(auto, using(crate::proofs::LayoutLemmas::padding_within))]
pub fn padding(address: u128, number: &Number) -> Option<u32>
    ensures { result ≡ the.filled address (statements.Statement.Padding (number_of number.now)) }
{
    let step = step(number)? as u128;
    let count = ((step - address % step) % step) as u32;
    if count <= room_at(address) {
        return Some(count);
    }
    None
}

fn statement_size(address: u128, statement: &Statement) -> u128
    ensures is { result ≡ the.size_at address (statement_of statement.now) }
    ensures small { result < 2 ^ 64 }
{
    match statement {
        Statement::Empty => 0,
        Statement::Whole(_) | Statement::Numbered(_, _) | Statement::Jump(_, _) => 4,
        Statement::Load(_, _) => 8,
        Statement::Data(width, _) => width.size() as u128,
        Statement::Text(bytes) => bytes.len() as u128,
        Statement::Zeros(number) => zeros(address, number).unwrap_or(0) as u128,
        Statement::Padding(number) => padding(address, number).unwrap_or(0) as u128,
    }
}

/// How many bytes a line takes; none where its statement can't be read.
pub fn size_of_line(address: u128, says: &Result<Statement, AsmKind>) -> u128
    ensures is { result ≡ the.line_size address (said_seen says.now) }
    ensures small { result < 2 ^ 64 }
{
    match says {
        Ok(statement) => statement_size(address, statement),
        Err(_) => 0,
    }
}

/// The lines with their addresses, the first at 0.
#[tactic(auto, unfolding(unixmodel::specs::Assembly::placed_from))]
pub fn place<'a>(alloc: Global, lines: &'a [Line<'a>]) -> Result<Vec<Placed<'a>>, AllocError>
    ensures { IfOk result (λ placed. map placed_seen placed.items ≡ the.placed_from 1 0 (map line_seen lines.now)) }
{
    let mut placed = Vec::new(alloc);
    let mut address = 0u128;
    for (index, line) in lines.iter().enumerate() {
        placed.push(Placed {
            number: index + 1,
            address,
            line,
        })?;
        address += size_of_line(address, &line.says);
    }
    Ok(placed)
}
