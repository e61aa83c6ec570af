//! The names of registers and operations, by the RISC-V manual's handbook for assembly programmers.
ghost use Rattle.std.specs.Prelude.{◌≡◌};
ghost use Rattle.unixmodel.specs.Disassembly.{register_text};
ghost use Rattle.unixmodel.specs.Names as the;

use unixmodel::instr::{BranchOp, ImmOp, LoadOp, Reg, RegOp, RegOpW, ShiftOp, StoreOp};

/// The name of a register, as `zero`, `a0` or `t6`.
#[tactic(auto, unfolding(unixmodel::specs::Names::register_names))]
pub fn register_name(register: Reg) -> &'static str
    ensures { result.now ≡ register_text register }
{
    match register.bits() {
        0 => "zero",
        1 => "ra",
        2 => "sp",
        3 => "gp",
        4 => "tp",
        5 => "t0",
        6 => "t1",
        7 => "t2",
        8 => "s0",
        9 => "s1",
        10 => "a0",
        11 => "a1",
        12 => "a2",
        13 => "a3",
        14 => "a4",
        15 => "a5",
        16 => "a6",
        17 => "a7",
        18 => "s2",
        19 => "s3",
        20 => "s4",
        21 => "s5",
        22 => "s6",
        23 => "s7",
        24 => "s8",
        25 => "s9",
        26 => "s10",
        27 => "s11",
        28 => "t3",
        29 => "t4",
        30 => "t5",
        _ => "t6",
    }
}

pub fn branch_name(op: BranchOp) -> &'static str
    ensures { result.now ≡ the.branch_name op }
{
    match op {
        BranchOp::Beq => "beq",
        BranchOp::Bne => "bne",
        BranchOp::Blt => "blt",
        BranchOp::Bge => "bge",
        BranchOp::Bltu => "bltu",
        BranchOp::Bgeu => "bgeu",
    }
}

pub fn load_name(op: LoadOp) -> &'static str
    ensures { result.now ≡ the.load_name op }
{
    match op {
        LoadOp::Lb => "lb",
        LoadOp::Lh => "lh",
        LoadOp::Lw => "lw",
        LoadOp::Ld => "ld",
        LoadOp::Lbu => "lbu",
        LoadOp::Lhu => "lhu",
        LoadOp::Lwu => "lwu",
    }
}

pub fn store_name(op: StoreOp) -> &'static str
    ensures { result.now ≡ the.store_name op }
{
    match op {
        StoreOp::Sb => "sb",
        StoreOp::Sh => "sh",
        StoreOp::Sw => "sw",
        StoreOp::Sd => "sd",
    }
}

pub fn imm_name(op: ImmOp) -> &'static str
    ensures { result.now ≡ the.imm_name op }
{
    match op {
        ImmOp::Addi => "addi",
        ImmOp::Slti => "slti",
        ImmOp::Sltiu => "sltiu",
        ImmOp::Xori => "xori",
        ImmOp::Ori => "ori",
        ImmOp::Andi => "andi",
    }
}

/// The name of a shift by an amount.
pub fn shift_name(op: ShiftOp) -> &'static str
    ensures { result.now ≡ the.shift_name op }
{
    match op {
        ShiftOp::Sll => "slli",
        ShiftOp::Srl => "srli",
        ShiftOp::Sra => "srai",
    }
}

/// The name of a shift of a low word by an amount.
pub fn shift_w_name(op: ShiftOp) -> &'static str
    ensures { result.now ≡ the.shift_w_name op }
{
    match op {
        ShiftOp::Sll => "slliw",
        ShiftOp::Srl => "srliw",
        ShiftOp::Sra => "sraiw",
    }
}

pub fn reg_name(op: RegOp) -> &'static str
    ensures { result.now ≡ the.reg_name op }
{
    match op {
        RegOp::Add => "add",
        RegOp::Sub => "sub",
        RegOp::Sll => "sll",
        RegOp::Slt => "slt",
        RegOp::Sltu => "sltu",
        RegOp::Xor => "xor",
        RegOp::Srl => "srl",
        RegOp::Sra => "sra",
        RegOp::Or => "or",
        RegOp::And => "and",
        RegOp::Mul => "mul",
        RegOp::Mulh => "mulh",
        RegOp::Mulhsu => "mulhsu",
        RegOp::Mulhu => "mulhu",
        RegOp::Div => "div",
        RegOp::Divu => "divu",
        RegOp::Rem => "rem",
        RegOp::Remu => "remu",
    }
}

pub fn reg_w_name(op: RegOpW) -> &'static str
    ensures { result.now ≡ the.reg_w_name op }
{
    match op {
        RegOpW::Addw => "addw",
        RegOpW::Subw => "subw",
        RegOpW::Sllw => "sllw",
        RegOpW::Srlw => "srlw",
        RegOpW::Sraw => "sraw",
        RegOpW::Mulw => "mulw",
        RegOpW::Divw => "divw",
        RegOpW::Divuw => "divuw",
        RegOpW::Remw => "remw",
        RegOpW::Remuw => "remuw",
    }
}
