//! Instructions, each by its form.

use crate::assembler::Assembler;
use crate::fault::{Stop, Usage};
use crate::operands::Call;
use crate::registers::ZERO;
use crate::words::{Form, Other};

const NOTHING: Usage = Usage {
    takes: "nothing",
    example: "",
};

impl<'a> Assembler<'a> {
    // An instruction without operands.
    fn bare(&mut self, call: &Call<'_, 'a>) -> Result<(), Stop> {
        if !call.operands.is_empty() {
            return Err(call.misused(NOTHING));
        }
        self.step()?;
        self.output.word(call.word)?;
        self.output.end()?;
        Ok(())
    }

    // addi zero, zero, 0
    fn nop(&mut self, call: &Call<'_, 'a>) -> Result<(), Stop> {
        if !call.operands.is_empty() {
            return Err(call.misused(NOTHING));
        }
        self.write_number("addi", ZERO, ZERO, 0)
    }

    fn other(&mut self, other: Other, call: &Call<'_, 'a>) -> Result<(), Stop> {
        match other {
            Other::Nop => self.nop(call),
            Other::Bare | Other::Fence => self.bare(call),
            Other::LoadNumber => self.literal(call),
            Other::LoadAddress => self.load_address(call),
            Other::Jump => self.jump(call),
            Other::JumpAndLink => self.jump_and_link(call),
            Other::JumpRegister => self.jump_register(call),
            Other::JumpAndLinkRegister => self.jump_and_link_register(call),
            Other::Call => self.call(call),
            Other::Tail => self.tail(call),
        }
    }

    /// An instruction of that form.
    pub(crate) fn instruction(&mut self, form: Form, call: &Call<'_, 'a>) -> Result<(), Stop> {
        match form {
            Form::Registers => self.registers(call),
            Form::Reversed(op) => self.reversed(op, call),
            Form::Number => self.numbered(call),
            Form::Shift(most) => self.shift(most, call),
            Form::Load => self.load(call),
            Form::Store => self.store(call),
            Form::Branch => self.branch(call),
            Form::Swapped(op) => self.swapped_branch(op, call),
            Form::FirstZero(op) => self.zero_branch(op, true, call),
            Form::SecondZero(op) => self.zero_branch(op, false, call),
            Form::Upper => self.upper(call),
            Form::WithNumber(op, number) => self.pair_with_number(op, number, call),
            Form::WithZero(op) => self.pair_with_zero(op, call),
            Form::FromZero(op) => self.pair_from_zero(op, call),
            Form::Extend(op, count) => self.extend(op, count, call),
            Form::Other(other) => self.other(other, call),
        }
    }
}
