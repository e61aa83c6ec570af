//! The operations of each opcode and their numbers funct3 and funct7, as the RISC-V unprivileged manual lists
//! them.
ghost use Rattle.std.specs.Prelude.{◌≡◌, ◌<◌, ◌^◌, IfSome, Some};
ghost use Rattle.unixmodel.specs.Spell.{branch_funct3, load_funct3, store_funct3, imm_funct3, shift_funct3};
ghost use Rattle.unixmodel.specs.Spell.{shift_funct7, reg_funct3, reg_funct7, reg_w_funct3, reg_w_funct7};
ghost use Rattle.unixmodel.specs.declared.instr.BranchOp.{BranchOp};
ghost use Rattle.unixmodel.specs.declared.instr.LoadOp.{LoadOp};
ghost use Rattle.unixmodel.specs.declared.instr.StoreOp.{StoreOp};
ghost use Rattle.unixmodel.specs.declared.instr.ImmOp.{ImmOp};
ghost use Rattle.unixmodel.specs.declared.instr.ShiftOp.{ShiftOp};
ghost use Rattle.unixmodel.specs.declared.instr.RegOp.{RegOp};
ghost use Rattle.unixmodel.specs.declared.instr.RegOpW.{RegOpW};

use unixmodel::instr::{BranchOp, ImmOp, LoadOp, RegOp, RegOpW, ShiftOp, StoreOp};

/// The branch with this funct3, if there is one.
#[inline(always)]
pub fn branch_op(funct3: u32) -> Option<BranchOp>
    ensures found { IfSome result (λ op. branch_funct3 op ≡ funct3) }
    ensures only { (op : BranchOp) → branch_funct3 op ≡ funct3 → result ≡ Some op }
{
    match funct3 {
        0b000 => Some(BranchOp::Beq),
        0b001 => Some(BranchOp::Bne),
        0b100 => Some(BranchOp::Blt),
        0b101 => Some(BranchOp::Bge),
        0b110 => Some(BranchOp::Bltu),
        0b111 => Some(BranchOp::Bgeu),
        _ => None,
    }
}

/// The funct3 of a branch.
pub fn funct3_of_branch(op: BranchOp) -> u32
    ensures is { result ≡ branch_funct3 op }
    ensures fits { result < 2 ^ 3 }
{
    match op {
        BranchOp::Beq => 0b000,
        BranchOp::Bne => 0b001,
        BranchOp::Blt => 0b100,
        BranchOp::Bge => 0b101,
        BranchOp::Bltu => 0b110,
        BranchOp::Bgeu => 0b111,
    }
}

/// The load with this funct3, if there is one.
#[inline(always)]
pub fn load_op(funct3: u32) -> Option<LoadOp>
    ensures found { IfSome result (λ op. load_funct3 op ≡ funct3) }
    ensures only { (op : LoadOp) → load_funct3 op ≡ funct3 → result ≡ Some op }
{
    match funct3 {
        0b000 => Some(LoadOp::Lb),
        0b001 => Some(LoadOp::Lh),
        0b010 => Some(LoadOp::Lw),
        0b011 => Some(LoadOp::Ld),
        0b100 => Some(LoadOp::Lbu),
        0b101 => Some(LoadOp::Lhu),
        0b110 => Some(LoadOp::Lwu),
        _ => None,
    }
}

/// The funct3 of a load.
pub fn funct3_of_load(op: LoadOp) -> u32
    ensures is { result ≡ load_funct3 op }
    ensures fits { result < 2 ^ 3 }
{
    match op {
        LoadOp::Lb => 0b000,
        LoadOp::Lh => 0b001,
        LoadOp::Lw => 0b010,
        LoadOp::Ld => 0b011,
        LoadOp::Lbu => 0b100,
        LoadOp::Lhu => 0b101,
        LoadOp::Lwu => 0b110,
    }
}

/// The store with this funct3, if there is one.
#[inline(always)]
pub fn store_op(funct3: u32) -> Option<StoreOp>
    ensures found { IfSome result (λ op. store_funct3 op ≡ funct3) }
    ensures only { (op : StoreOp) → store_funct3 op ≡ funct3 → result ≡ Some op }
{
    match funct3 {
        0b000 => Some(StoreOp::Sb),
        0b001 => Some(StoreOp::Sh),
        0b010 => Some(StoreOp::Sw),
        0b011 => Some(StoreOp::Sd),
        _ => None,
    }
}

/// The funct3 of a store.
pub fn funct3_of_store(op: StoreOp) -> u32
    ensures is { result ≡ store_funct3 op }
    ensures fits { result < 2 ^ 3 }
{
    match op {
        StoreOp::Sb => 0b000,
        StoreOp::Sh => 0b001,
        StoreOp::Sw => 0b010,
        StoreOp::Sd => 0b011,
    }
}

/// The operation on an immediate with this funct3, if there is one; the shifts are apart.
#[inline(always)]
pub fn imm_op(funct3: u32) -> Option<ImmOp>
    ensures found { IfSome result (λ op. imm_funct3 op ≡ funct3) }
    ensures only { (op : ImmOp) → imm_funct3 op ≡ funct3 → result ≡ Some op }
{
    match funct3 {
        0b000 => Some(ImmOp::Addi),
        0b010 => Some(ImmOp::Slti),
        0b011 => Some(ImmOp::Sltiu),
        0b100 => Some(ImmOp::Xori),
        0b110 => Some(ImmOp::Ori),
        0b111 => Some(ImmOp::Andi),
        _ => None,
    }
}

/// The funct3 of an operation on an immediate.
pub fn funct3_of_imm(op: ImmOp) -> u32
    ensures is { result ≡ imm_funct3 op }
    ensures fits { result < 2 ^ 3 }
{
    match op {
        ImmOp::Addi => 0b000,
        ImmOp::Slti => 0b010,
        ImmOp::Sltiu => 0b011,
        ImmOp::Xori => 0b100,
        ImmOp::Ori => 0b110,
        ImmOp::Andi => 0b111,
    }
}

/// The shift by an amount with these funct7 and funct3, if there is one.
#[inline(always)]
pub fn shift_op(funct7: u32, funct3: u32) -> Option<ShiftOp>
    ensures found { IfSome result (λ op. (shift_funct7 op ≡ funct7) × (shift_funct3 op ≡ funct3)) }
    ensures only { (op : ShiftOp) → shift_funct7 op ≡ funct7 → shift_funct3 op ≡ funct3 → result ≡ Some op }
{
    match (funct7, funct3) {
        (0b0000000, 0b001) => Some(ShiftOp::Sll),
        (0b0000000, 0b101) => Some(ShiftOp::Srl),
        (0b0100000, 0b101) => Some(ShiftOp::Sra),
        _ => None,
    }
}

/// The funct7 and the funct3 of a shift by an amount; the funct7 is even.
pub fn functs_of_shift(op: ShiftOp) -> (u32, u32)
    ensures is { result ≡ (shift_funct7 op, shift_funct3 op) }
    ensures fits { (result.0 < 2 ^ 6) × (result.1 < 2 ^ 3) }
{
    match op {
        ShiftOp::Sll => (0b0000000, 0b001),
        ShiftOp::Srl => (0b0000000, 0b101),
        ShiftOp::Sra => (0b0100000, 0b101),
    }
}

/// The operation on two registers with these funct7 and funct3, if there is one.
#[inline(always)]
pub fn reg_op(funct7: u32, funct3: u32) -> Option<RegOp>
    ensures found { IfSome result (λ op. (reg_funct7 op ≡ funct7) × (reg_funct3 op ≡ funct3)) }
    ensures only { (op : RegOp) → reg_funct7 op ≡ funct7 → reg_funct3 op ≡ funct3 → result ≡ Some op }
{
    match (funct7, funct3) {
        (0b0000000, 0b000) => Some(RegOp::Add),
        (0b0100000, 0b000) => Some(RegOp::Sub),
        (0b0000000, 0b001) => Some(RegOp::Sll),
        (0b0000000, 0b010) => Some(RegOp::Slt),
        (0b0000000, 0b011) => Some(RegOp::Sltu),
        (0b0000000, 0b100) => Some(RegOp::Xor),
        (0b0000000, 0b101) => Some(RegOp::Srl),
        (0b0100000, 0b101) => Some(RegOp::Sra),
        (0b0000000, 0b110) => Some(RegOp::Or),
        (0b0000000, 0b111) => Some(RegOp::And),
        (0b0000001, 0b000) => Some(RegOp::Mul),
        (0b0000001, 0b001) => Some(RegOp::Mulh),
        (0b0000001, 0b010) => Some(RegOp::Mulhsu),
        (0b0000001, 0b011) => Some(RegOp::Mulhu),
        (0b0000001, 0b100) => Some(RegOp::Div),
        (0b0000001, 0b101) => Some(RegOp::Divu),
        (0b0000001, 0b110) => Some(RegOp::Rem),
        (0b0000001, 0b111) => Some(RegOp::Remu),
        _ => None,
    }
}

/// The funct7 and the funct3 of an operation on two registers.
pub fn functs_of_reg(op: RegOp) -> (u32, u32)
    ensures is { result ≡ (reg_funct7 op, reg_funct3 op) }
    ensures fits { (result.0 < 2 ^ 7) × (result.1 < 2 ^ 3) }
{
    match op {
        RegOp::Add => (0b0000000, 0b000),
        RegOp::Sub => (0b0100000, 0b000),
        RegOp::Sll => (0b0000000, 0b001),
        RegOp::Slt => (0b0000000, 0b010),
        RegOp::Sltu => (0b0000000, 0b011),
        RegOp::Xor => (0b0000000, 0b100),
        RegOp::Srl => (0b0000000, 0b101),
        RegOp::Sra => (0b0100000, 0b101),
        RegOp::Or => (0b0000000, 0b110),
        RegOp::And => (0b0000000, 0b111),
        RegOp::Mul => (0b0000001, 0b000),
        RegOp::Mulh => (0b0000001, 0b001),
        RegOp::Mulhsu => (0b0000001, 0b010),
        RegOp::Mulhu => (0b0000001, 0b011),
        RegOp::Div => (0b0000001, 0b100),
        RegOp::Divu => (0b0000001, 0b101),
        RegOp::Rem => (0b0000001, 0b110),
        RegOp::Remu => (0b0000001, 0b111),
    }
}

/// The operation on the low words of two registers with these funct7 and funct3, if there is one.
#[inline(always)]
pub fn reg_w_op(funct7: u32, funct3: u32) -> Option<RegOpW>
    ensures found { IfSome result (λ op. (reg_w_funct7 op ≡ funct7) × (reg_w_funct3 op ≡ funct3)) }
    ensures only { (op : RegOpW) → reg_w_funct7 op ≡ funct7 → reg_w_funct3 op ≡ funct3 → result ≡ Some op }
{
    match (funct7, funct3) {
        (0b0000000, 0b000) => Some(RegOpW::Addw),
        (0b0100000, 0b000) => Some(RegOpW::Subw),
        (0b0000000, 0b001) => Some(RegOpW::Sllw),
        (0b0000000, 0b101) => Some(RegOpW::Srlw),
        (0b0100000, 0b101) => Some(RegOpW::Sraw),
        (0b0000001, 0b000) => Some(RegOpW::Mulw),
        (0b0000001, 0b100) => Some(RegOpW::Divw),
        (0b0000001, 0b101) => Some(RegOpW::Divuw),
        (0b0000001, 0b110) => Some(RegOpW::Remw),
        (0b0000001, 0b111) => Some(RegOpW::Remuw),
        _ => None,
    }
}

/// The funct7 and the funct3 of an operation on the low words of two registers.
pub fn functs_of_reg_w(op: RegOpW) -> (u32, u32)
    ensures is { result ≡ (reg_w_funct7 op, reg_w_funct3 op) }
    ensures fits { (result.0 < 2 ^ 7) × (result.1 < 2 ^ 3) }
{
    match op {
        RegOpW::Addw => (0b0000000, 0b000),
        RegOpW::Subw => (0b0100000, 0b000),
        RegOpW::Sllw => (0b0000000, 0b001),
        RegOpW::Srlw => (0b0000000, 0b101),
        RegOpW::Sraw => (0b0100000, 0b101),
        RegOpW::Mulw => (0b0000001, 0b000),
        RegOpW::Divw => (0b0000001, 0b100),
        RegOpW::Divuw => (0b0000001, 0b101),
        RegOpW::Remw => (0b0000001, 0b110),
        RegOpW::Remuw => (0b0000001, 0b111),
    }
}
