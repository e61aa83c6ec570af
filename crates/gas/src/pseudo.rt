//! Instructions on registers and numbers, and words that stand for them.

use crate::assembler::Assembler;
use crate::fault::{Stop, Usage};
use crate::operands::{Call, Operand};
use crate::registers::{Register, ZERO};
use crate::words::{Form, with_number};

const REGISTERS: Usage = Usage {
    takes: "three registers",
    example: "a0, a1, a2",
};

const NUMBER: Usage = Usage {
    takes: "two registers and a number",
    example: "a0, a1, 5",
};

const PAIR: Usage = Usage {
    takes: "two registers",
    example: "a0, a1",
};

const UPPER: Usage = Usage {
    takes: "a register and a number",
    example: "a0, 16",
};

const LOAD: Usage = Usage {
    takes: "a register and a place in memory",
    example: "a0, 8(sp)",
};

const STORE: Usage = Usage {
    takes: "a register and a place in memory, or a register, a label and a register for its address",
    example: "a0, 8(sp)",
};

const LITERAL: Usage = Usage {
    takes: "a register and a number",
    example: "a0, 42",
};

const ADDRESS: Usage = Usage {
    takes: "a register and a label",
    example: "a0, message",
};

impl<'a> Assembler<'a> {
    // op rd, rs1, n with n up to most, from 0 on.
    fn write_shift(
        &mut self,
        op: &str,
        registers: (Register, Register),
        number: &Operand<'a>,
        most: i64,
    ) -> Result<(), Stop> {
        self.step()?;
        let number = self.number(number, 0, most)?;
        self.put_number(op, registers.0, registers.1, number)
    }

    // op rd, rs1, n
    fn write_low(
        &mut self,
        op: &str,
        registers: (Register, Register),
        number: &Operand<'a>,
    ) -> Result<(), Stop> {
        self.step()?;
        let number = self.low_field(number)?;
        self.put_number(op, registers.0, registers.1, number)
    }

    // op rd, rs1, n for an operation on registers that is written with a number.
    fn with_number(
        &mut self,
        call: &Call<'_, 'a>,
        registers: (Register, Register),
        number: &Operand<'a>,
    ) -> Result<(), Stop> {
        let Some(word) = with_number(call.word) else {
            return Err(call.misused(REGISTERS));
        };
        match word.form {
            Form::Shift(most) => self.write_shift(word.name, registers, number, most),
            _ => self.write_low(word.name, registers, number),
        }
    }

    /// op rd, rs1, rs2, and op rd, rs1, n
    pub(crate) fn registers(&mut self, call: &Call<'_, 'a>) -> Result<(), Stop> {
        let [rd, rs1, last] = call.operands else {
            return Err(call.misused(REGISTERS));
        };
        let rd = rd.register()?;
        let rs1 = rs1.register()?;
        match last.maybe_register() {
            Some(rs2) => self.write_registers(call.word, rd, rs1, rs2),
            None => self.with_number(call, (rd, rs1), last),
        }
    }

    /// op rd, rs2, rs1
    pub(crate) fn reversed(&mut self, op: &str, call: &Call<'_, 'a>) -> Result<(), Stop> {
        let [rd, rs2, rs1] = call.operands else {
            return Err(call.misused(REGISTERS));
        };
        self.write_registers(op, rd.register()?, rs1.register()?, rs2.register()?)
    }

    /// op rd, rs1, n
    pub(crate) fn numbered(&mut self, call: &Call<'_, 'a>) -> Result<(), Stop> {
        let [rd, rs1, number] = call.operands else {
            return Err(call.misused(NUMBER));
        };
        let registers = (rd.register()?, rs1.register()?);
        self.write_low(call.word, registers, number)
    }

    /// op rd, rs1, n with n up to most
    pub(crate) fn shift(&mut self, most: i64, call: &Call<'_, 'a>) -> Result<(), Stop> {
        let [rd, rs1, number] = call.operands else {
            return Err(call.misused(NUMBER));
        };
        let registers = (rd.register()?, rs1.register()?);
        self.write_shift(call.word, registers, number, most)
    }

    /// op rd, n
    pub(crate) fn upper(&mut self, call: &Call<'_, 'a>) -> Result<(), Stop> {
        let [rd, number] = call.operands else {
            return Err(call.misused(UPPER));
        };
        let rd = rd.register()?;
        self.step()?;
        let number = self.high_field(number)?;
        self.put_upper(call.word, rd, number)
    }

    // op r, operand: at an offset from a base register, or at a label, whose address is made in register `by`.
    fn transfer(
        &mut self,
        op: &str,
        register: Register,
        place: &Operand<'a>,
        by: Register,
    ) -> Result<(), Stop> {
        if let Some(memory) = place.memory() {
            self.step()?;
            let number = self.low_field(&memory.offset)?;
            return self.put_memory(op, register, number, memory.base);
        }
        let low = self.towards(by, place)?;
        self.step()?;
        self.put_memory(op, register, low, by)
    }

    /// op rd, n(base), and op rd, label
    pub(crate) fn load(&mut self, call: &Call<'_, 'a>) -> Result<(), Stop> {
        let [rd, place] = call.operands else {
            return Err(call.misused(LOAD));
        };
        let rd = rd.register()?;
        self.transfer(call.word, rd, place, rd)
    }

    /// op rs2, n(base), and op rs2, label, rt
    pub(crate) fn store(&mut self, call: &Call<'_, 'a>) -> Result<(), Stop> {
        match call.operands {
            [rs2, place] => {
                if place.memory().is_none() {
                    return Err(call.misused(STORE));
                }
                self.transfer(call.word, rs2.register()?, place, ZERO)
            }
            [rs2, label, rt] => self.transfer(call.word, rs2.register()?, label, rt.register()?),
            _ => Err(call.misused(STORE)),
        }
    }

    // The registers of op rd, rs.
    fn pair(&self, call: &Call<'_, 'a>) -> Result<(Register, Register), Stop> {
        let [rd, rs] = call.operands else {
            return Err(call.misused(PAIR));
        };
        Ok((rd.register()?, rs.register()?))
    }

    /// op rd, rs with a number
    pub(crate) fn pair_with_number(
        &mut self,
        op: &str,
        number: i64,
        call: &Call<'_, 'a>,
    ) -> Result<(), Stop> {
        let (rd, rs) = self.pair(call)?;
        self.write_number(op, rd, rs, number)
    }

    /// op rd, rs, zero
    pub(crate) fn pair_with_zero(&mut self, op: &str, call: &Call<'_, 'a>) -> Result<(), Stop> {
        let (rd, rs) = self.pair(call)?;
        self.write_registers(op, rd, rs, ZERO)
    }

    /// op rd, zero, rs
    pub(crate) fn pair_from_zero(&mut self, op: &str, call: &Call<'_, 'a>) -> Result<(), Stop> {
        let (rd, rs) = self.pair(call)?;
        self.write_registers(op, rd, ZERO, rs)
    }

    /// slli rd, rs, n and op rd, rd, n
    pub(crate) fn extend(&mut self, op: &str, count: i64, call: &Call<'_, 'a>) -> Result<(), Stop> {
        let (rd, rs) = self.pair(call)?;
        self.write_number("slli", rd, rs, count)?;
        self.write_number(op, rd, rd, count)
    }

    /// li rd, n
    pub(crate) fn literal(&mut self, call: &Call<'_, 'a>) -> Result<(), Stop> {
        let [rd, number] = call.operands else {
            return Err(call.misused(LITERAL));
        };
        let rd = rd.register()?;
        let number = self.early_number(number)?;
        self.load_number(rd, number)
    }

    /// la rd, label, and la rd, n as li
    pub(crate) fn load_address(&mut self, call: &Call<'_, 'a>) -> Result<(), Stop> {
        let [rd, label] = call.operands else {
            return Err(call.misused(ADDRESS));
        };
        let rd = rd.register()?;
        if let Ok(number) = self.early_number(label) {
            return self.load_number(rd, number);
        }
        let low = self.towards(rd, label)?;
        self.write_number("addi", rd, rd, low)
    }
}
