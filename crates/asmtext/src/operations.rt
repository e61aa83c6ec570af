//! Operations, by the form in which their instructions are written.
ghost use Rattle.std.specs.Prelude.{◌≡◌, option_map};
ghost use Rattle.asmtext.specs.Operations.{bare_instr, based_instr, number_within, numbered_instr, partial_instr};
ghost use Rattle.asmtext.specs.Operations.{partial_within, register_instr, upper_instr};
ghost use Rattle.asmtext.specs.Numbers.{field_within, number_of};

use crate::number::Number;
use unixmodel::instr::{
    Amount, AmountW, Imm12, Imm20, ImmOp, Instr, LoadOp, Reg, RegOp, RegOpW, ShiftOp, StoreOp,
};

/// An operation on two registers.
#[derive(Clone, Copy)]
pub enum RegisterOp {
    Reg(RegOp),
    RegW(RegOpW),
}

/// An operation on a register and a number.
#[derive(Clone, Copy)]
pub enum NumberOp {
    Imm(ImmOp),
    Addiw,
    Shift(ShiftOp),
    ShiftW(ShiftOp),
}

/// An operation at an offset from a base register.
#[derive(Clone, Copy)]
pub enum BaseOp {
    Load(LoadOp),
    Store(StoreOp),
    Jalr,
}

/// An operation on the upper part of a number.
#[derive(Clone, Copy)]
pub enum UpperOp {
    Lui,
    Auipc,
}

/// An operation on nothing.
#[derive(Clone, Copy)]
pub enum BareOp {
    /// The fence of all accesses before it and after it.
    Fence,
    Ecall,
    Ebreak,
    /// A jump to where ra says.
    Return,
}

impl BareOp {
    /// The whole instruction.
    pub fn instr(self) -> Instr
        ensures { result ≡ bare_instr self }
    {
        match self {
            BareOp::Fence => Instr::Fence {
                rd: Reg::new(0),
                rs1: Reg::new(0),
                imm: Imm12::new(0x0ff),
            },
            BareOp::Ecall => Instr::Ecall,
            BareOp::Ebreak => Instr::Ebreak,
            BareOp::Return => Instr::Jalr {
                rd: Reg::new(0),
                rs1: Reg::new(1),
                imm: Imm12::new(0),
            },
        }
    }
}

impl RegisterOp {
    /// The instruction on these registers.
    pub fn instr(self, rd: Reg, rs1: Reg, rs2: Reg) -> Instr
        ensures { result ≡ register_instr self rd rs1 rs2 }
    {
        match self {
            RegisterOp::Reg(op) => Instr::Reg { op, rd, rs1, rs2 },
            RegisterOp::RegW(op) => Instr::RegW { op, rd, rs1, rs2 },
        }
    }
}

/// An instruction without its number.
#[derive(Clone, Copy)]
pub enum Partial {
    /// On a register and a number, into a register.
    Numbered(NumberOp, Reg, Reg),
    /// A register, and the base from which the number counts.
    Based(BaseOp, Reg, Reg),
    /// On a number, into a register.
    Upper(UpperOp, Reg),
}

// The immediates of a number, where it fits them.
#[tactic(auto, using(crate::proofs::NumberLemmas::field_fits))]
fn imm12(number: &Number) -> Option<Imm12>
    ensures { result ≡ field_within 2048 2047 12 (number_of number.now) }
{
    let bits = number.field_in(2048, 2047, 12)?;
    Some(Imm12::new(bits as u16))
}

#[tactic(auto, using(crate::proofs::NumberLemmas::field_fits))]
fn imm20(number: &Number) -> Option<Imm20>
    ensures { result ≡ field_within 0 0xfffff 20 (number_of number.now) }
{
    let bits = number.field_in(0, 0xfffff, 20)?;
    Some(Imm20::new(bits as u32))
}

#[tactic(auto, using(crate::proofs::NumberLemmas::field_fits))]
fn amount(number: &Number) -> Option<Amount>
    ensures { result ≡ field_within 0 63 6 (number_of number.now) }
{
    let bits = number.field_in(0, 63, 6)?;
    Some(Amount::new(bits as u8))
}

#[tactic(auto, using(crate::proofs::NumberLemmas::field_fits))]
fn amount_w(number: &Number) -> Option<AmountW>
    ensures { result ≡ field_within 0 31 5 (number_of number.now) }
{
    let bits = number.field_in(0, 31, 5)?;
    Some(AmountW::new(bits as u8))
}

impl NumberOp {
    fn instr(self, rd: Reg, rs1: Reg, number: &Number) -> Option<Instr>
        ensures { result ≡ option_map (numbered_instr self rd rs1) (number_within self (number_of number.now)) }
    {
        match self {
            NumberOp::Imm(op) => {
                let imm = imm12(number)?;
                Some(Instr::Imm { op, rd, rs1, imm })
            }
            NumberOp::Addiw => {
                let imm = imm12(number)?;
                Some(Instr::Addiw { rd, rs1, imm })
            }
            NumberOp::Shift(op) => {
                let amount = amount(number)?;
                Some(Instr::Shift {
                    op,
                    rd,
                    rs1,
                    amount,
                })
            }
            NumberOp::ShiftW(op) => {
                let amount = amount_w(number)?;
                Some(Instr::ShiftW {
                    op,
                    rd,
                    rs1,
                    amount,
                })
            }
        }
    }
}

impl BaseOp {
    // The first register is what a store stores, or where the others put something.
    fn instr(self, register: Reg, rs1: Reg, imm: Imm12) -> Instr
        ensures { result ≡ based_instr self register rs1 imm }
    {
        match self {
            BaseOp::Load(op) => Instr::Load {
                op,
                rd: register,
                rs1,
                imm,
            },
            BaseOp::Store(op) => Instr::Store {
                op,
                rs1,
                rs2: register,
                imm,
            },
            BaseOp::Jalr => Instr::Jalr {
                rd: register,
                rs1,
                imm,
            },
        }
    }
}

impl UpperOp {
    fn instr(self, rd: Reg, imm: Imm20) -> Instr
        ensures { result ≡ upper_instr self rd imm }
    {
        match self {
            UpperOp::Lui => Instr::Lui { rd, imm },
            UpperOp::Auipc => Instr::Auipc { rd, imm },
        }
    }
}

impl Partial {
    /// The instruction with this number, where it fits.
    pub fn instr(self, number: &Number) -> Option<Instr>
        ensures { result ≡ option_map (partial_instr self) (partial_within self (number_of number.now)) }
    {
        match self {
            Partial::Numbered(op, rd, rs1) => op.instr(rd, rs1, number),
            Partial::Based(op, register, rs1) => Some(op.instr(register, rs1, imm12(number)?)),
            Partial::Upper(op, rd) => Some(op.instr(rd, imm20(number)?)),
        }
    }
}
