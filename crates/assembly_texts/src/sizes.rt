//! How many bytes the statements of an assembled text take.

use asmtext::{Number, Statement};

/// The most bytes of a program.
const MOST: u64 = 270_336;

// The bytes up to a multiple of a number.
fn padding(address: u64, number: &Number) -> u64 {
    match number.at_most(4096) {
        Some(step @ 1..=4096) => (step - address % step) % step,
        _ => 0,
    }
}

/// How many bytes a statement takes at an address.
pub(crate) fn size_of(address: u64, statement: &Statement) -> u64 {
    match statement {
        Statement::Empty => 0,
        Statement::Whole(_) | Statement::Numbered(_, _) | Statement::Jump(_, _) => 4,
        Statement::Load(_, _) => 8,
        Statement::Data(width, _) => width.size() as u64,
        Statement::Text(bytes) => bytes.len() as u64,
        Statement::Zeros(number) => number.at_most(MOST).unwrap_or(0),
        Statement::Padding(number) => padding(address, number),
    }
}
