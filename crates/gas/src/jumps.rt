//! Branches, jumps and calls.
ghost use Rattle.std.specs.Prelude.{◌≤◌, ◌<◌};

use crate::assembler::Assembler;
use crate::fault::{Stop, Usage, Wrong};
use crate::operands::{Call, Operand};
use crate::registers::{RA, Register, T1, ZERO};
use crate::value::Base;

// Where a jump goes: to a label that the expanded text has, or that far.
#[derive(Clone, Copy)]
enum Goal<'a> {
    Label(&'a [u8]),
    Way(i64),
}

const BRANCH: Usage = Usage {
    takes: "two registers and a label",
    example: "a0, a1, done",
};

const ZERO_BRANCH: Usage = Usage {
    takes: "a register and a label",
    example: "a0, done",
};

const JUMP: Usage = Usage {
    takes: "a label",
    example: "done",
};

const LINK: Usage = Usage {
    takes: "a label, or a register and a label",
    example: "ra, sum",
};

const ONE_REGISTER: Usage = Usage {
    takes: "a register",
    example: "a0",
};

const LINK_REGISTER: Usage = Usage {
    takes: "a register, or two registers and a number",
    example: "ra, a0, 0",
};

fn may_begin(c: u8) -> bool {
    c.is_ascii_alphabetic() || c == b'_'
}

// Whether the expanded text can have a label of this name.
fn is_plain(name: &[u8]) -> bool {
    match name {
        [] => false,
        [first, rest @ ..] => {
            may_begin(*first) && rest.iter().all(|c| may_begin(*c) || c.is_ascii_digit())
        }
    }
}

impl<'a> Assembler<'a> {
    // The way from the instruction to an operand, which lies from -reach to below reach.
    fn way(&self, operand: &Operand<'a>, reach: i64) -> Result<i64, Stop> {
        let way = self.address_of(operand)?.wrapping_sub(self.address);
        let is_far = way < reach.wrapping_neg() || way >= reach;
        if self.is_last && (is_far || way.cast_unsigned() % 2 == 1) {
            return Err(Stop::Wrong(Wrong::Far, operand.column));
        }
        Ok(way)
    }

    // Whether a name is that of a label.
    fn is_label(&self, name: &[u8]) -> bool {
        match self.names.symbol(name) {
            Some(symbol) => matches!(symbol.value.base, Base::Section(_, _)) && symbol.is_label,
            None => false,
        }
    }

    /// Whether the expanded text has a label of this name, which is one file's alone.
    pub(crate) fn is_kept(&self, name: &[u8]) -> bool {
        is_plain(name) && self.names.is_alone(name)
    }

    fn goal(&self, operand: &Operand<'a>, reach: i64) -> Result<Goal<'a>, Stop> {
        let way = self.way(operand, reach)?;
        match operand.name() {
            Some(name) => {
                if self.is_kept(name) && self.is_label(name) {
                    return Ok(Goal::Label(name));
                }
                Ok(Goal::Way(way))
            }
            None => Ok(Goal::Way(way)),
        }
    }

    fn put_goal(&mut self, goal: Goal) -> Result<(), Stop> {
        match goal {
            Goal::Label(name) => self.output.put(name)?,
            Goal::Way(way) => self.output.number(way)?,
        }
        self.output.end()?;
        Ok(())
    }

    /// op rs1, rs2, target
    pub(crate) fn write_branch(
        &mut self,
        op: &str,
        rs1: Register,
        rs2: Register,
        target: &Operand<'a>,
    ) -> Result<(), Stop> {
        self.step()?;
        let goal = self.goal(target, 4096)?;
        self.output.word(op)?;
        self.output.register(rs1)?;
        self.output.comma()?;
        self.output.register(rs2)?;
        self.output.comma()?;
        self.put_goal(goal)
    }

    // jal rd, target
    fn write_jump(&mut self, rd: Register, target: &Operand<'a>) -> Result<(), Stop> {
        self.step()?;
        let goal = self.goal(target, 0x10_0000)?;
        self.output.word("jal")?;
        self.output.register(rd)?;
        self.output.comma()?;
        self.put_goal(goal)
    }

    /// op rs1, rs2, label
    pub(crate) fn branch(&mut self, call: &Call<'_, 'a>) -> Result<(), Stop> {
        let [rs1, rs2, target] = call.operands else {
            return Err(call.misused(BRANCH));
        };
        self.write_branch(call.word, rs1.register()?, rs2.register()?, target)
    }

    /// The same with the registers in the other order.
    pub(crate) fn swapped_branch(&mut self, op: &str, call: &Call<'_, 'a>) -> Result<(), Stop> {
        let [rs1, rs2, target] = call.operands else {
            return Err(call.misused(BRANCH));
        };
        self.write_branch(op, rs2.register()?, rs1.register()?, target)
    }

    /// op rs, label with zero first, or last.
    pub(crate) fn zero_branch(
        &mut self,
        op: &str,
        is_first: bool,
        call: &Call<'_, 'a>,
    ) -> Result<(), Stop> {
        let [rs, target] = call.operands else {
            return Err(call.misused(ZERO_BRANCH));
        };
        let rs = rs.register()?;
        if is_first {
            return self.write_branch(op, ZERO, rs, target);
        }
        self.write_branch(op, rs, ZERO, target)
    }

    /// j label
    pub(crate) fn jump(&mut self, call: &Call<'_, 'a>) -> Result<(), Stop> {
        let [target] = call.operands else {
            return Err(call.misused(JUMP));
        };
        self.write_jump(ZERO, target)
    }

    /// jal label, and jal rd, label
    pub(crate) fn jump_and_link(&mut self, call: &Call<'_, 'a>) -> Result<(), Stop> {
        match call.operands {
            [target] => self.write_jump(RA, target),
            [rd, target] => self.write_jump(rd.register()?, target),
            _ => Err(call.misused(LINK)),
        }
    }

    // jalr rd, n(rs)
    fn write_jump_register(
        &mut self,
        rd: Register,
        rs: Register,
        offset: &Operand<'a>,
    ) -> Result<(), Stop> {
        self.step()?;
        let number = self.low_field(offset)?;
        self.put_memory("jalr", rd, number, rs)
    }

    // jalr rd, rs and jalr rd, n(rs)
    fn write_jump_to(&mut self, rd: Register, place: &Operand<'a>) -> Result<(), Stop> {
        if let Some(memory) = place.memory() {
            return self.write_jump_register(rd, memory.base, &memory.offset);
        }
        let rs = place.register()?;
        self.step()?;
        self.put_memory("jalr", rd, 0, rs)
    }

    /// jr rs, and jr n(rs)
    pub(crate) fn jump_register(&mut self, call: &Call<'_, 'a>) -> Result<(), Stop> {
        let [place] = call.operands else {
            return Err(call.misused(ONE_REGISTER));
        };
        self.write_jump_to(ZERO, place)
    }

    /// jalr rs, jalr rd, rs, jalr rd, n(rs), and jalr rd, rs, n
    pub(crate) fn jump_and_link_register(&mut self, call: &Call<'_, 'a>) -> Result<(), Stop> {
        match call.operands {
            [place] => self.write_jump_to(RA, place),
            [rd, place] => self.write_jump_to(rd.register()?, place),
            [rd, rs, offset] => self.write_jump_register(rd.register()?, rs.register()?, offset),
            _ => Err(call.misused(LINK_REGISTER)),
        }
    }

    // auipc rt, and jalr rd, n(rt)
    fn write_far_jump(
        &mut self,
        rd: Register,
        rt: Register,
        target: &Operand<'a>,
    ) -> Result<(), Stop> {
        let low = self.towards(rt, target)?;
        self.step()?;
        self.put_memory("jalr", rd, low, rt)
    }

    /// call label, and call rd, label
    pub(crate) fn call(&mut self, call: &Call<'_, 'a>) -> Result<(), Stop> {
        match call.operands {
            [target] => self.write_far_jump(RA, RA, target),
            [rd, target] => self.write_far_jump(rd.register()?, T1, target),
            _ => Err(call.misused(LINK)),
        }
    }

    /// tail label, and jump label, rt
    pub(crate) fn tail(&mut self, call: &Call<'_, 'a>) -> Result<(), Stop> {
        match call.operands {
            [target] => self.write_far_jump(ZERO, T1, target),
            [target, rt] => self.write_far_jump(ZERO, rt.register()?, target),
            _ => Err(call.misused(JUMP)),
        }
    }
}
