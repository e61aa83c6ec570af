//! Loads of numbers, with the instructions that `as` takes for them.

use crate::assembler::Assembler;
use crate::fault::Stop;
use crate::fields::{high_part, low_part};
use crate::registers::{Register, ZERO};
use std::alloc::{AllocError, Global};

// A shift to the left, and what is added after it.
#[derive(Clone, Copy)]
struct Shift {
    count: i64,
    added: i64,
}

fn is_short(number: i64) -> bool {
    number >= -2048 && number < 2048
}

fn is_of_word(number: i64) -> bool {
    number >= -0x8000_0000 && number < 0x8000_0000
}

// The shifts that lead from a number of 32 bits, which is what is left, to a number; the last is first.
fn shifts(alloc: Global, number: i64) -> Result<(i64, Vec<Shift>), AllocError> {
    let mut shifts = Vec::new(alloc);
    let mut rest = number;
    for _ in 0..6 {
        if is_of_word(rest) {
            break;
        }
        let added = low_part(rest);
        let upper = rest.wrapping_sub(added);
        let count = upper.trailing_zeros();
        shifts.push(Shift {
            count: i64::from(count),
            added,
        })?;
        rest = upper.wrapping_shr(count);
    }
    Ok((rest, shifts))
}

impl Assembler<'_> {
    // A number of 32 bits.
    fn load_word(&mut self, rd: Register, number: i64) -> Result<(), Stop> {
        let added = low_part(number);
        let upper = number.wrapping_sub(added);
        if upper == 0 {
            return self.write_number("addiw", rd, ZERO, added);
        }
        self.step()?;
        self.put_upper("lui", rd, high_part(number))?;
        if added == 0 {
            return Ok(());
        }
        self.write_number("addiw", rd, rd, added)
    }

    /// Any number into a register.
    pub(crate) fn load_number(&mut self, rd: Register, number: i64) -> Result<(), Stop> {
        if is_short(number) {
            return self.write_number("addi", rd, ZERO, number);
        }
        let (word, shifts) = shifts(self.alloc, number)?;
        self.load_word(rd, word)?;
        for shift in shifts.iter().rev() {
            self.write_number("slli", rd, rd, shift.count)?;
            if shift.added != 0 {
                self.write_number("addi", rd, rd, shift.added)?;
            }
        }
        Ok(())
    }
}
