//! From an instruction to its word: the fields are put together by the format of its opcode.
ghost use Rattle.std.specs.Prelude.{◌≡◌, ◌+◌, ◌<◌, ◌^◌};
ghost use Rattle.unixmodel.specs.Spell.{spell, r_word, i_word, s_word, b_word, u_word, j_word};

use crate::{opcodes, operations};
use unixmodel::instr::{BranchOffset, Imm12, Imm20, Instr, JumpOffset, Reg};

/// The word that spells an instruction, in the formats of the RISC-V unprivileged manual's RV64IM.
pub fn encode(instr: Instr) -> u32
    ensures { result ≡ spell instr }
{
    match instr {
        Instr::Lui { rd, imm } => u_format(imm, rd) + opcodes::LUI,
        Instr::Auipc { rd, imm } => u_format(imm, rd) + opcodes::AUIPC,
        Instr::Jal { rd, offset } => j_format(offset, rd) + opcodes::JAL,
        Instr::Jalr { rd, rs1, imm } => i_format(imm.bits(), rs1, 0, rd) + opcodes::JALR,
        Instr::Branch {
            op,
            rs1,
            rs2,
            offset,
        } => { b_format(offset, rs2, rs1, operations::funct3_of_branch(op)) + opcodes::BRANCH }
        Instr::Load { op, rd, rs1, imm } => {
            i_format(imm.bits(), rs1, operations::funct3_of_load(op), rd) + opcodes::LOAD
        }
        Instr::Store { op, rs1, rs2, imm } => {
            s_format(imm, rs2, rs1, operations::funct3_of_store(op)) + opcodes::STORE
        }
        Instr::Imm { op, rd, rs1, imm } => {
            i_format(imm.bits(), rs1, operations::funct3_of_imm(op), rd) + opcodes::OP_IMM
        }
        Instr::Shift {
            op,
            rd,
            rs1,
            amount,
        } => {
            let (funct7, funct3) = operations::functs_of_shift(op);
            let imm = funct7 as u16 * 32 + amount.bits() as u16;
            i_format(imm, rs1, funct3, rd) + opcodes::OP_IMM
        }
        Instr::Reg { op, rd, rs1, rs2 } => {
            let (funct7, funct3) = operations::functs_of_reg(op);
            r_format(funct7, rs2.bits(), rs1, funct3, rd) + opcodes::OP
        }
        Instr::Addiw { rd, rs1, imm } => i_format(imm.bits(), rs1, 0, rd) + opcodes::OP_IMM_32,
        Instr::ShiftW {
            op,
            rd,
            rs1,
            amount,
        } => {
            let (funct7, funct3) = operations::functs_of_shift(op);
            r_format(funct7, amount.bits(), rs1, funct3, rd) + opcodes::OP_IMM_32
        }
        Instr::RegW { op, rd, rs1, rs2 } => {
            let (funct7, funct3) = operations::functs_of_reg_w(op);
            r_format(funct7, rs2.bits(), rs1, funct3, rd) + opcodes::OP_32
        }
        Instr::Fence { rd, rs1, imm } => i_format(imm.bits(), rs1, 0, rd) + opcodes::MISC_MEM,
        Instr::Ecall => opcodes::ECALL,
        Instr::Ebreak => opcodes::EBREAK,
    }
}

// The six formats, each with the opcode's bits at zero.

fn r_format(funct7: u32, rs2: u8, rs1: Reg, funct3: u32, rd: Reg) -> u32
    requires funct7_fits { funct7 < 2 ^ 7 }
    requires rs2_fits { rs2 < 32 }
    requires funct3_fits { funct3 < 2 ^ 3 }
    ensures is { result ≡ r_word funct7 rs2 rs1 funct3 rd 0 }
    ensures room { result + 0x7f < 2 ^ 32 }
{
    funct7 * 0x200_0000
        + rs2 as u32 * 0x10_0000
        + rs1.bits() as u32 * 0x8000
        + funct3 * 0x1000
        + rd.bits() as u32 * 0x80
}

fn i_format(imm: u16, rs1: Reg, funct3: u32, rd: Reg) -> u32
    requires imm_fits { imm < 2 ^ 12 }
    requires funct3_fits { funct3 < 2 ^ 3 }
    ensures is { result ≡ i_word imm rs1 funct3 rd 0 }
    ensures room { result + 0x7f < 2 ^ 32 }
{
    imm as u32 * 0x10_0000 + rs1.bits() as u32 * 0x8000 + funct3 * 0x1000 + rd.bits() as u32 * 0x80
}

fn s_format(imm: Imm12, rs2: Reg, rs1: Reg, funct3: u32) -> u32
    requires funct3_fits { funct3 < 2 ^ 3 }
    ensures is { result ≡ s_word imm rs2 rs1 funct3 0 }
    ensures room { result + 0x7f < 2 ^ 32 }
{
    let imm = imm.bits() as u32;
    imm / 0x20 * 0x200_0000
        + rs2.bits() as u32 * 0x10_0000
        + rs1.bits() as u32 * 0x8000
        + funct3 * 0x1000
        + imm % 0x20 * 0x80
}

fn b_format(offset: BranchOffset, rs2: Reg, rs1: Reg, funct3: u32) -> u32
    requires funct3_fits { funct3 < 2 ^ 3 }
    ensures is { result ≡ b_word offset rs2 rs1 funct3 0 }
    ensures room { result + 0x7f < 2 ^ 32 }
{
    let imm = offset.bits() as u32;
    imm / 0x1000 * 0x8000_0000
        + imm / 0x20 % 0x40 * 0x200_0000
        + rs2.bits() as u32 * 0x10_0000
        + rs1.bits() as u32 * 0x8000
        + funct3 * 0x1000
        + imm / 2 % 0x10 * 0x100
        + imm / 0x800 % 2 * 0x80
}

fn u_format(imm: Imm20, rd: Reg) -> u32
    ensures is { result ≡ u_word imm rd 0 }
    ensures room { result + 0x7f < 2 ^ 32 }
{
    imm.bits() * 0x1000 + rd.bits() as u32 * 0x80
}

fn j_format(offset: JumpOffset, rd: Reg) -> u32
    ensures is { result ≡ j_word offset rd 0 }
    ensures room { result + 0x7f < 2 ^ 32 }
{
    let imm = offset.bits();
    imm / 0x10_0000 * 0x8000_0000
        + imm / 2 % 0x400 * 0x20_0000
        + imm / 0x800 % 2 * 0x10_0000
        + imm / 0x1000 % 0x100 * 0x1000
        + rd.bits() as u32 * 0x80
}
