//! From a word to the instruction that it spells.
ghost use Rattle.std.specs.Prelude.{◌≡◌, ◌↔◌, ◌+◌, ◌*◌, ◌/◌, ◌%◌, ◌^◌, IfSome, Some};
ghost use Rattle.unixmodel.specs.Spell.{spell, Fits};
ghost use Rattle.unixmodel.specs.Words.{branch_offset as the_branch_offset, instruction_of};
ghost use Rattle.unixmodel.specs.Words.{jump_offset as the_jump_offset};
ghost use Rattle.unixmodel.specs.declared.instr.Instr.{Instr as TheInstr};

use crate::{opcodes, operations};
use unixmodel::instr::{Amount, AmountW, BranchOffset, Imm12, Imm20, Instr, JumpOffset, Reg};

/// The instruction that a word is: the one of RV64IM that the RISC-V unprivileged manual spells by it, and `None`
/// where it spells none.
#[inline(always)]
pub fn decode(word: u32) -> Option<Instr>
    ensures is { result ≡ instruction_of word }

    // A word is an instruction, whose fields fit, exactly when the instruction is spelled by it.
    ensures law { (instr : TheInstr) → Fits instr → (instruction_of word ≡ Some instr) ↔ (spell instr ≡ word) }
{
    spelled_by(word)
}

/// The same, by the word's opcode.
#[inline(always)]
fn spelled_by(word: u32) -> Option<Instr>
    ensures found { IfSome result (λ instr. Fits instr × (spell instr ≡ word)) }
    ensures only { (instr : TheInstr) → Fits instr → spell instr ≡ word → result ≡ Some instr }
{
    let funct3 = (word >> 12) % 8;
    let funct7 = word >> 25;
    match word % 128 {
        opcodes::LUI => Some(Instr::Lui {
            rd: rd(word),
            imm: Imm20::new(word >> 12),
        }),
        opcodes::AUIPC => Some(Instr::Auipc {
            rd: rd(word),
            imm: Imm20::new(word >> 12),
        }),
        opcodes::JAL => Some(Instr::Jal {
            rd: rd(word),
            offset: jump_offset(word),
        }),
        opcodes::JALR => match funct3 {
            0 => Some(Instr::Jalr {
                rd: rd(word),
                rs1: rs1(word),
                imm: imm(word),
            }),
            _ => None,
        },
        opcodes::BRANCH => {
            let op = operations::branch_op(funct3)?;
            Some(Instr::Branch {
                op,
                rs1: rs1(word),
                rs2: rs2(word),
                offset: branch_offset(word),
            })
        }
        opcodes::LOAD => {
            let op = operations::load_op(funct3)?;
            Some(Instr::Load {
                op,
                rd: rd(word),
                rs1: rs1(word),
                imm: imm(word),
            })
        }
        opcodes::STORE => {
            let op = operations::store_op(funct3)?;
            Some(Instr::Store {
                op,
                rs1: rs1(word),
                rs2: rs2(word),
                imm: Imm12::new((funct7 * 0x20 + (word >> 7) % 32) as u16),
            })
        }
        opcodes::OP_IMM => match funct3 {
            0b001 | 0b101 => {
                // The amount has bits 25 to 20, so the lowest bit of funct7 is its highest.
                let op = operations::shift_op(funct7 / 2 * 2, funct3)?;
                Some(Instr::Shift {
                    op,
                    rd: rd(word),
                    rs1: rs1(word),
                    amount: Amount::new(((word >> 20) % 64) as u8),
                })
            }
            _ => {
                let op = operations::imm_op(funct3)?;
                Some(Instr::Imm {
                    op,
                    rd: rd(word),
                    rs1: rs1(word),
                    imm: imm(word),
                })
            }
        },
        opcodes::OP => {
            let op = operations::reg_op(funct7, funct3)?;
            Some(Instr::Reg {
                op,
                rd: rd(word),
                rs1: rs1(word),
                rs2: rs2(word),
            })
        }
        opcodes::OP_IMM_32 => match funct3 {
            0b000 => Some(Instr::Addiw {
                rd: rd(word),
                rs1: rs1(word),
                imm: imm(word),
            }),
            _ => {
                let op = operations::shift_op(funct7, funct3)?;
                Some(Instr::ShiftW {
                    op,
                    rd: rd(word),
                    rs1: rs1(word),
                    amount: AmountW::new(((word >> 20) % 32) as u8),
                })
            }
        },
        opcodes::OP_32 => {
            let op = operations::reg_w_op(funct7, funct3)?;
            Some(Instr::RegW {
                op,
                rd: rd(word),
                rs1: rs1(word),
                rs2: rs2(word),
            })
        }
        opcodes::MISC_MEM => match funct3 {
            0b000 => Some(Instr::Fence {
                rd: rd(word),
                rs1: rs1(word),
                imm: imm(word),
            }),
            _ => None,
        },
        _ => match word {
            opcodes::ECALL => Some(Instr::Ecall),
            opcodes::EBREAK => Some(Instr::Ebreak),
            _ => None,
        },
    }
}

// The fields of a word.

#[inline(always)]
fn rd(word: u32) -> Reg
    ensures { result ≡ word / 2 ^ 7 % 32 }
{
    Reg::new(((word >> 7) % 32) as u8)
}

#[inline(always)]
fn rs1(word: u32) -> Reg
    ensures { result ≡ word / 2 ^ 15 % 32 }
{
    Reg::new(((word >> 15) % 32) as u8)
}

#[inline(always)]
fn rs2(word: u32) -> Reg
    ensures { result ≡ word / 2 ^ 20 % 32 }
{
    Reg::new(((word >> 20) % 32) as u8)
}

#[inline(always)]
fn imm(word: u32) -> Imm12
    ensures { result ≡ word / 2 ^ 20 }
{
    Imm12::new((word >> 20) as u16)
}

#[inline(always)]
fn branch_offset(word: u32) -> BranchOffset
    ensures { result ≡ the_branch_offset word }
{
    BranchOffset::new(
        ((word >> 31) * 0x1000
            + (word >> 7) % 2 * 0x800
            + (word >> 25) % 0x40 * 0x20
            + (word >> 8) % 0x10 * 2) as u16,
    )
}

#[inline(always)]
fn jump_offset(word: u32) -> JumpOffset
    ensures { result ≡ the_jump_offset word }
{
    JumpOffset::new(
        (word >> 31) * 0x10_0000
            + (word >> 12) % 0x100 * 0x1000
            + (word >> 20) % 2 * 0x800
            + (word >> 21) % 0x400 * 2,
    )
}
