//! From an instruction to its operation.
ghost use Rattle.std.specs.Prelude.{◌≡◌, ◌+◌, ◌*◌, ◌/◌, ◌%◌, ◌^◌, ◌<◌, slice_index};
ghost use Rattle.unixmodel.specs.Meaning.{jump, set_register, shifted, shifted_word, word};
ghost use Rattle.unixmodel.specs.Numbers.{extend, low, plus};
ghost use Rattle.hart.specs.Answered.{act_by, load_by, store_by};
ghost use Rattle.hart.specs.Operations.{IsOp, Means, by_branch, by_immediate, by_registers, by_words};

use crate::alu::low;
use crate::bits;
use crate::operation::{Op, Target};
use isa::decode;
use unixmodel::instr::{
    Amount, AmountW, BranchOffset, BranchOp, Imm12, Imm20, ImmOp, Instr, JumpOffset, LoadOp, Reg,
    RegOp, RegOpW, ShiftOp, StoreOp,
};

fn immediate(imm: Imm12) -> u32
    ensures { extend 32 result ≡ extend 12 imm }
{
    low(bits::immediate(imm))
}

fn branch_offset(offset: BranchOffset) -> u32
    ensures { extend 32 result ≡ extend 13 offset }
{
    low(bits::branch_offset(offset))
}

fn jump_offset(offset: JumpOffset) -> u32
    ensures { extend 32 result ≡ extend 21 offset }
{
    low(bits::jump_offset(offset))
}

#[tactic(auto, unfolding(crate::specs::Operations::op_by))]
fn register_op(op: RegOp, rd: Reg, rs1: Reg, rs2: Reg) -> Op
    ensures { Means result (λ regs pc see. by_registers op rd rs1 rs2 regs pc) }
{
    let Some(rd) = Target::new(rd) else {
        return Op::Nop;
    };
    match op {
        RegOp::Add => Op::Add { rd, rs1, rs2 },
        RegOp::Sub => Op::Sub { rd, rs1, rs2 },
        RegOp::Sll => Op::Sll { rd, rs1, rs2 },
        RegOp::Slt => Op::Slt { rd, rs1, rs2 },
        RegOp::Sltu => Op::Sltu { rd, rs1, rs2 },
        RegOp::Xor => Op::Xor { rd, rs1, rs2 },
        RegOp::Srl => Op::Srl { rd, rs1, rs2 },
        RegOp::Sra => Op::Sra { rd, rs1, rs2 },
        RegOp::Or => Op::Or { rd, rs1, rs2 },
        RegOp::And => Op::And { rd, rs1, rs2 },
        RegOp::Mul => Op::Mul { rd, rs1, rs2 },
        RegOp::Mulh => Op::Mulh { rd, rs1, rs2 },
        RegOp::Mulhsu => Op::Mulhsu { rd, rs1, rs2 },
        RegOp::Mulhu => Op::Mulhu { rd, rs1, rs2 },
        RegOp::Div => Op::Div { rd, rs1, rs2 },
        RegOp::Divu => Op::Divu { rd, rs1, rs2 },
        RegOp::Rem => Op::Rem { rd, rs1, rs2 },
        RegOp::Remu => Op::Remu { rd, rs1, rs2 },
    }
}

#[tactic(auto, unfolding(crate::specs::Operations::op_by))]
fn word_op(op: RegOpW, rd: Reg, rs1: Reg, rs2: Reg) -> Op
    ensures { Means result (λ regs pc see. by_words op rd rs1 rs2 regs pc) }
{
    let Some(rd) = Target::new(rd) else {
        return Op::Nop;
    };
    match op {
        RegOpW::Addw => Op::Addw { rd, rs1, rs2 },
        RegOpW::Subw => Op::Subw { rd, rs1, rs2 },
        RegOpW::Sllw => Op::Sllw { rd, rs1, rs2 },
        RegOpW::Srlw => Op::Srlw { rd, rs1, rs2 },
        RegOpW::Sraw => Op::Sraw { rd, rs1, rs2 },
        RegOpW::Mulw => Op::Mulw { rd, rs1, rs2 },
        RegOpW::Divw => Op::Divw { rd, rs1, rs2 },
        RegOpW::Divuw => Op::Divuw { rd, rs1, rs2 },
        RegOpW::Remw => Op::Remw { rd, rs1, rs2 },
        RegOpW::Remuw => Op::Remuw { rd, rs1, rs2 },
    }
}

#[tactic(auto, unfolding(crate::specs::Operations::op_by))]
fn immediate_op(op: ImmOp, rd: Reg, rs1: Reg, imm: Imm12) -> Op
    ensures { Means result (λ regs pc see. by_immediate op rd rs1 (extend 12 imm) regs pc) }
{
    let Some(rd) = Target::new(rd) else {
        return Op::Nop;
    };
    let imm = immediate(imm);
    match op {
        ImmOp::Addi => Op::Addi { rd, rs1, imm },
        ImmOp::Slti => Op::Slti { rd, rs1, imm },
        ImmOp::Sltiu => Op::Sltiu { rd, rs1, imm },
        ImmOp::Xori => Op::Xori { rd, rs1, imm },
        ImmOp::Ori => Op::Ori { rd, rs1, imm },
        ImmOp::Andi => Op::Andi { rd, rs1, imm },
    }
}

#[tactic(auto, unfolding(crate::specs::Operations::op_by))]
fn shift(op: ShiftOp, rd: Reg, rs1: Reg, amount: Amount) -> Op
    ensures { Means result (λ regs pc see. set_register regs pc rd (shifted op (slice_index regs rs1) amount)) }
{
    let Some(rd) = Target::new(rd) else {
        return Op::Nop;
    };
    match op {
        ShiftOp::Sll => Op::Slli { rd, rs1, amount },
        ShiftOp::Srl => Op::Srli { rd, rs1, amount },
        ShiftOp::Sra => Op::Srai { rd, rs1, amount },
    }
}

#[tactic(auto, unfolding(crate::specs::Operations::op_by))]
fn shift_word(op: ShiftOp, rd: Reg, rs1: Reg, amount: AmountW) -> Op
    ensures { Means result (λ regs pc see. set_register regs pc rd
        (shifted_word op (low (slice_index regs rs1)) amount)) }
{
    let Some(rd) = Target::new(rd) else {
        return Op::Nop;
    };
    match op {
        ShiftOp::Sll => Op::Slliw { rd, rs1, amount },
        ShiftOp::Srl => Op::Srliw { rd, rs1, amount },
        ShiftOp::Sra => Op::Sraiw { rd, rs1, amount },
    }
}

#[tactic(auto, unfolding(crate::specs::Operations::op_by))]
fn load(op: LoadOp, rd: Reg, rs1: Reg, imm: Imm12) -> Op
    ensures { Means result (λ regs pc see. load_by regs pc op rd (plus (slice_index regs rs1) (extend 12 imm)) see) }
{
    let imm = immediate(imm);
    let Some(rd) = Target::new(rd) else {
        return Op::Probe { op, rs1, imm };
    };
    match op {
        LoadOp::Lb => Op::Lb { rd, rs1, imm },
        LoadOp::Lh => Op::Lh { rd, rs1, imm },
        LoadOp::Lw => Op::Lw { rd, rs1, imm },
        LoadOp::Ld => Op::Ld { rd, rs1, imm },
        LoadOp::Lbu => Op::Lbu { rd, rs1, imm },
        LoadOp::Lhu => Op::Lhu { rd, rs1, imm },
        LoadOp::Lwu => Op::Lwu { rd, rs1, imm },
    }
}

#[tactic(auto, unfolding(crate::specs::Operations::op_by))]
fn store(op: StoreOp, rs1: Reg, rs2: Reg, imm: Imm12) -> Op
    ensures { Means result (λ regs pc see. store_by regs pc op (plus (slice_index regs rs1) (extend 12 imm))
        (slice_index regs rs2) see) }
{
    let imm = immediate(imm);
    match op {
        StoreOp::Sb => Op::Sb { rs1, rs2, imm },
        StoreOp::Sh => Op::Sh { rs1, rs2, imm },
        StoreOp::Sw => Op::Sw { rs1, rs2, imm },
        StoreOp::Sd => Op::Sd { rs1, rs2, imm },
    }
}

#[tactic(auto, unfolding(crate::specs::Operations::op_by))]
fn branch(op: BranchOp, rs1: Reg, rs2: Reg, offset: BranchOffset) -> Op
    ensures { Means result (λ regs pc see. by_branch op rs1 rs2 (extend 13 offset) regs pc) }
{
    let imm = branch_offset(offset);
    match op {
        BranchOp::Beq => Op::Beq { rs1, rs2, imm },
        BranchOp::Bne => Op::Bne { rs1, rs2, imm },
        BranchOp::Blt => Op::Blt { rs1, rs2, imm },
        BranchOp::Bge => Op::Bge { rs1, rs2, imm },
        BranchOp::Bltu => Op::Bltu { rs1, rs2, imm },
        BranchOp::Bgeu => Op::Bgeu { rs1, rs2, imm },
    }
}

#[tactic(auto, unfolding(crate::specs::Operations::op_by))]
fn jal(rd: Reg, offset: JumpOffset) -> Op
    ensures { Means result (λ regs pc see. jump regs pc rd (plus pc (extend 21 offset))) }
{
    let imm = jump_offset(offset);
    match Target::new(rd) {
        Some(rd) => Op::Jal { rd, imm },
        None => Op::J { imm },
    }
}

#[tactic(auto, unfolding(crate::specs::Operations::op_by))]
fn jalr(rd: Reg, rs1: Reg, imm: Imm12) -> Op
    ensures { Means result (λ regs pc see. jump regs pc rd (plus (slice_index regs rs1) (extend 12 imm) / 2 * 2)) }
{
    let imm = immediate(imm);
    match Target::new(rd) {
        Some(rd) => Op::Jalr { rd, rs1, imm },
        None => Op::Jr { rs1, imm },
    }
}

#[tactic(auto, unfolding(crate::specs::Operations::op_by))]
fn lui(rd: Reg, imm: Imm20) -> Op
    ensures { Means result (λ regs pc see. set_register regs pc rd (extend 32 (imm * 2 ^ 12))) }
{
    match Target::new(rd) {
        Some(rd) => Op::Lui {
            rd,
            imm: imm.bits() * 0x1000,
        },
        None => Op::Nop,
    }
}

#[tactic(auto, unfolding(crate::specs::Operations::op_by))]
fn auipc(rd: Reg, imm: Imm20) -> Op
    ensures { Means result (λ regs pc see. set_register regs pc rd (plus pc (extend 32 (imm * 2 ^ 12)))) }
{
    match Target::new(rd) {
        Some(rd) => Op::Auipc {
            rd,
            imm: imm.bits() * 0x1000,
        },
        None => Op::Nop,
    }
}

#[tactic(auto, unfolding(crate::specs::Operations::op_by))]
fn addiw(rd: Reg, rs1: Reg, imm: Imm12) -> Op
    ensures { Means result (λ regs pc see. set_register regs pc rd
        (word (plus (slice_index regs rs1) (extend 12 imm)))) }
{
    match Target::new(rd) {
        Some(rd) => Op::Addiw {
            rd,
            rs1,
            imm: immediate(imm),
        },
        None => Op::Nop,
    }
}

// The operation of an instruction.
#[tactic(auto, unfolding(crate::specs::Operations::op_by, crate::specs::Answered::act_by, unixmodel::specs::Meaning::act))]
fn operation(i: Instr) -> Op
    ensures { Means result (act_by i) }
{
    match i {
        Instr::Lui { rd, imm } => lui(rd, imm),
        Instr::Auipc { rd, imm } => auipc(rd, imm),
        Instr::Jal { rd, offset } => jal(rd, offset),
        Instr::Jalr { rd, rs1, imm } => jalr(rd, rs1, imm),
        Instr::Branch {
            op,
            rs1,
            rs2,
            offset,
        } => branch(op, rs1, rs2, offset),
        Instr::Load { op, rd, rs1, imm } => load(op, rd, rs1, imm),
        Instr::Store { op, rs1, rs2, imm } => store(op, rs1, rs2, imm),
        Instr::Imm { op, rd, rs1, imm } => immediate_op(op, rd, rs1, imm),
        Instr::Shift {
            op,
            rd,
            rs1,
            amount,
        } => shift(op, rd, rs1, amount),
        Instr::Reg { op, rd, rs1, rs2 } => register_op(op, rd, rs1, rs2),
        Instr::Addiw { rd, rs1, imm } => addiw(rd, rs1, imm),
        Instr::ShiftW {
            op,
            rd,
            rs1,
            amount,
        } => shift_word(op, rd, rs1, amount),
        Instr::RegW { op, rd, rs1, rs2 } => word_op(op, rd, rs1, rs2),
        // one hart does its accesses in order
        Instr::Fence { .. } => Op::Nop,
        Instr::Ecall => Op::Ecall,
        Instr::Ebreak => Op::Ebreak,
    }
}

/// The operation of a word.
#[inline(never)]
#[tactic(auto, unfolding(crate::specs::Operations::op_by))]
pub fn flatten(word: u32) -> Op
    ensures { IsOp result word }
{
    match decode(word) {
        Some(i) => operation(i),
        None => Op::Illegal,
    }
}
