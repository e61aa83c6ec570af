//! The numbers of instructions: 12 bits, 20 bits, and the parts of addresses that fit them.
ghost use Rattle.std.specs.Prelude.{◌≤◌, ◌<◌};

use crate::assembler::Assembler;
use crate::fault::{Stop, Wrong};
use crate::operands::Operand;
use crate::registers::Register;

/// The lowest 12 bits of a number, as a signed number.
pub(crate) fn low_part(number: i64) -> i64 {
    let bits = number.cast_unsigned() % 4096;
    if bits < 2048 {
        bits.cast_signed()
    } else {
        bits.cast_signed().wrapping_sub(4096)
    }
}

/// The 20 bits above, rounded: with the low part they make the number, up to 32 bits.
pub(crate) fn high_part(number: i64) -> i64 {
    (number.cast_unsigned().wrapping_add(2048) / 4096 % 0x10_0000).cast_signed()
}

impl Assembler<'_> {
    // The way that the %pcrel_hi at a label goes.
    fn relative_at(&self, operand: &Operand) -> Result<i64, Stop> {
        let address = self.address_of(operand)?;
        if let Some(way) = self.relatives.get(&address) {
            return Ok(*way);
        }
        if self.is_last {
            return Err(Stop::Wrong(Wrong::Pair, operand.column));
        }
        Ok(0)
    }

    // The way from the instruction to an operand, which is noted.
    fn way_to(&mut self, operand: &Operand) -> Result<i64, Stop> {
        let way = self.address_of(operand)?.wrapping_sub(self.address);
        if self.is_last {
            self.relatives.insert(self.address, way)?;
        }
        Ok(way)
    }

    /// A number of 12 bits, or the low part of an address.
    pub(crate) fn low_field(&mut self, operand: &Operand) -> Result<i64, Stop> {
        if operand.tokens.is_empty() {
            return Ok(0);
        }
        let Some((part, target)) = operand.part() else {
            return self.number(operand, -2048, 2047);
        };
        match part {
            b"lo" => Ok(low_part(self.address_of(&target)?)),
            b"pcrel_lo" => Ok(low_part(self.relative_at(&target)?)),
            _ => Err(Stop::Wrong(Wrong::Modifier, operand.column)),
        }
    }

    /// A number of 20 bits, or the high part of an address.
    pub(crate) fn high_field(&mut self, operand: &Operand) -> Result<i64, Stop> {
        let Some((part, target)) = operand.part() else {
            return self.number(operand, 0, 0xf_ffff);
        };
        match part {
            b"hi" => Ok(high_part(self.address_of(&target)?)),
            b"pcrel_hi" => Ok(high_part(self.way_to(&target)?)),
            _ => Err(Stop::Wrong(Wrong::Modifier, operand.column)),
        }
    }

    /// Writes an auipc towards an operand, and returns the low part of the way.
    pub(crate) fn towards(&mut self, rd: Register, operand: &Operand) -> Result<i64, Stop> {
        self.step()?;
        let way = self.address_of(operand)?.wrapping_sub(self.address);
        self.put_upper("auipc", rd, high_part(way))?;
        Ok(low_part(way))
    }
}
