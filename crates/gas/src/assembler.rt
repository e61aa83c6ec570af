//! The state of a pass over the statements, and the lines that it writes.

use crate::expression::{Scope, evaluate};
use crate::fault::{Position, Stop, Wrong};
use crate::layout::Layout;
use crate::names::Names;
use crate::operands::Operand;
use crate::output::Output;
use crate::registers::Register;
use crate::value::{Base, UNKNOWN, Value};
use std::alloc::{AllocError, Global};
use std::collections::HashMap;

/// A pass: the first finds where everything lies, the last writes it.
#[derive(Drop)]
pub struct Assembler<'a> {
    pub alloc: Global,
    pub names: Names<'a>,
    pub layout: Layout,
    pub output: Output,
    /// The ways from each `%pcrel_hi`, by its address.
    pub relatives: HashMap<i64, i64>,
    /// Where directives are that have no effect here.
    pub passed: Vec<Position>,
    pub is_last: bool,
    /// The statement's position in the texts, and its address.
    pub at: Position,
    pub here: Value,
    /// The address of the instruction that is written.
    pub address: i64,
}

impl<'a> Assembler<'a> {
    /// Nothing yet, of that many files.
    pub(crate) fn new(alloc: Global, units: usize) -> Result<Assembler<'a>, AllocError> {
        Ok(Assembler {
            alloc,
            names: Names::new(alloc, units)?,
            layout: Layout::new(alloc, units)?,
            output: Output::new(alloc),
            relatives: HashMap::new(alloc),
            passed: Vec::new(alloc),
            is_last: false,
            at: Position { row: 0, column: 1 },
            here: UNKNOWN,
            address: 0,
        })
    }

    // The value of an operand.
    fn value_where(&self, operand: &Operand, is_early: bool) -> Result<Value, Stop> {
        let scope = Scope {
            names: &self.names,
            layout: &self.layout,
            row: self.at.row,
            is_last: self.is_last,
            is_early,
            here: self.here,
        };
        evaluate(self.alloc, &scope, operand.tokens, operand.column)
    }

    /// The value of an operand.
    pub(crate) fn value(&self, operand: &Operand) -> Result<Value, Stop> {
        self.value_where(operand, false)
    }

    /// The number that an operand is, of names that are defined above.
    pub(crate) fn early_number(&self, operand: &Operand) -> Result<i64, Stop> {
        let value = self.value_where(operand, true)?;
        match value.base {
            Base::Number => Ok(value.number),
            Base::Section(_, _) | Base::Unknown => Err(Stop::Wrong(Wrong::Address, operand.column)),
        }
    }

    /// The value of an operand, of names that are defined above.
    pub(crate) fn early_value(&self, operand: &Operand) -> Result<Value, Stop> {
        self.value_where(operand, true)
    }

    /// The number that an operand is, from `low` to `high`.
    pub(crate) fn number(&self, operand: &Operand, low: i64, high: i64) -> Result<i64, Stop> {
        let value = self.value(operand)?;
        if let Base::Section(_, _) = value.base {
            return Err(Stop::Wrong(Wrong::Address, operand.column));
        }
        self.within(value.number, low, high, operand.column)
    }

    /// A number, if it lies from the one to the other.
    pub(crate) fn within(
        &self,
        number: i64,
        low: i64,
        high: i64,
        column: usize,
    ) -> Result<i64, Stop> {
        if self.is_last && (number < low || number > high) {
            return Err(Stop::Wrong(Wrong::Range(low, high), column));
        }
        Ok(number)
    }

    /// The address or the number that an operand is.
    pub(crate) fn address_of(&self, operand: &Operand) -> Result<i64, Stop> {
        let value = self.value(operand)?;
        Ok(self.layout.address(value))
    }

    /// Goes on by an instruction, whose address is noted.
    pub(crate) fn step(&mut self) -> Result<(), Stop> {
        let here = self.layout.here();
        self.address = self.layout.address(here);
        self.layout.advance(4);
        if self.is_last && self.address.cast_unsigned() % 4 != 0 {
            return Err(Stop::Wrong(Wrong::Align, self.at.column));
        }
        Ok(())
    }

    /// op rd, rs1, rs2
    pub(crate) fn write_registers(
        &mut self,
        op: &str,
        rd: Register,
        rs1: Register,
        rs2: Register,
    ) -> Result<(), Stop> {
        self.step()?;
        self.output.word(op)?;
        self.output.register(rd)?;
        self.output.comma()?;
        self.output.register(rs1)?;
        self.output.comma()?;
        self.output.register(rs2)?;
        self.output.end()?;
        Ok(())
    }

    /// op rd, rs1, n
    pub(crate) fn write_number(
        &mut self,
        op: &str,
        rd: Register,
        rs1: Register,
        number: i64,
    ) -> Result<(), Stop> {
        self.step()?;
        self.put_number(op, rd, rs1, number)
    }

    /// op rd, rs1, n, where the step is done.
    pub(crate) fn put_number(
        &mut self,
        op: &str,
        rd: Register,
        rs1: Register,
        number: i64,
    ) -> Result<(), Stop> {
        self.output.word(op)?;
        self.output.register(rd)?;
        self.output.comma()?;
        self.output.register(rs1)?;
        self.output.comma()?;
        self.output.number(number)?;
        self.output.end()?;
        Ok(())
    }

    /// op r, n(base), where the step is done.
    pub(crate) fn put_memory(
        &mut self,
        op: &str,
        register: Register,
        number: i64,
        base: Register,
    ) -> Result<(), Stop> {
        self.output.word(op)?;
        self.output.register(register)?;
        self.output.comma()?;
        self.output.number(number)?;
        self.output.put(b"(")?;
        self.output.register(base)?;
        self.output.put(b")\n")?;
        Ok(())
    }

    /// op rd, n, where the step is done.
    pub(crate) fn put_upper(&mut self, op: &str, rd: Register, number: i64) -> Result<(), Stop> {
        self.output.word(op)?;
        self.output.register(rd)?;
        self.output.comma()?;
        self.output.number(number)?;
        self.output.end()?;
        Ok(())
    }
}
