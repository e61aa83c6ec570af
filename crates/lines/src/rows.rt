//! The rows that line number programs append.

use crate::operation::{Operation, operation_at};
use crate::registers::{Registers, START};
use crate::unit::{Steps, Unit};
use std::alloc::{AllocError, Global};

/// From an address up to the next row's, a line of a file.
#[derive(Clone, Copy, Debug, PartialEq, Eq)]
pub(crate) struct Row {
    pub address: u64,
    /// The number of the file in its unit.
    pub file: u64,
    pub line: u64,
}

/// Rows of addresses that rise. The last of them is of the first address after the sequence.
#[derive(Clone, Copy, Debug, PartialEq, Eq)]
pub(crate) struct Sequence {
    /// The first row's address.
    pub start: u64,
    /// The index of its first row, and that of the row after its last.
    pub first: usize,
    pub after: usize,
    /// The unit that it is of.
    pub unit: usize,
}

/// The rows and sequences of all units so far.
#[derive(Drop)]
pub(crate) struct Rows {
    pub rows: Vec<Row>,
    pub sequences: Vec<Sequence>,
}

impl Rows {
    pub(crate) fn new(alloc: Global) -> Rows {
        Rows {
            rows: Vec::new(alloc),
            sequences: Vec::new(alloc),
        }
    }

    // Appends a row.
    fn push(&mut self, registers: Registers) -> Result<(), AllocError> {
        self.rows.push(Row {
            address: registers.address,
            file: registers.file,
            line: registers.line,
        })?;
        Ok(())
    }

    // Ends a sequence, unless it has no address.
    fn end(&mut self, first: usize, unit: usize) -> Result<(), AllocError> {
        let Some(rows) = self.rows.get(first..) else {
            return Ok(());
        };
        let (Some(start), Some(end)) = (rows.first(), rows.last()) else {
            return Ok(());
        };
        if start.address < end.address {
            let sequence = Sequence {
                start: start.address,
                first,
                after: self.rows.len(),
                unit,
            };
            self.sequences.push(sequence)?;
        }
        Ok(())
    }

    // Appends what an operation appends, of registers before and after it.
    fn append(
        &mut self,
        operation: Operation,
        old: Registers,
        new: Registers,
    ) -> Result<(), AllocError> {
        match operation {
            Operation::Special(_) | Operation::Copy => self.push(new),
            Operation::EndSequence => self.push(old),
            _ => Ok(()),
        }
    }

    /// Runs a unit's program. A sequence that does not end has no rows.
    pub(crate) fn run(&mut self, unit: &Unit<'_>, index: usize) -> Result<(), AllocError> {
        let mut registers = START;
        let mut first = self.rows.len();
        let mut rest = unit.program;
        for _ in 0..unit.program.len() {
            let Some((operation, after)) = operation_at(&unit.steps, rest) else {
                return Ok(());
            };
            let next = registers.after(&unit.steps, operation);
            self.append(operation, registers, next)?;
            if operation == Operation::EndSequence {
                self.end(first, index)?;
                first = self.rows.len();
            }
            registers = next;
            rest = after;
        }
        Ok(())
    }
}
