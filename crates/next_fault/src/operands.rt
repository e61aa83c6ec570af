//! What instructions take: sizes, offsets and conditions, as the RISC-V unprivileged manual has them.
ghost use Rattle.std.specs.Prelude.{◌≡◌};
ghost use Rattle.unixmodel.specs.Meaning.{is_taken, load_size, store_size};
ghost use Rattle.unixmodel.specs.Numbers.{extend};

use unixmodel::instr::{BranchOffset, BranchOp, Imm12, JumpOffset, LoadOp, StoreOp};

/// How many bytes a load reads.
pub fn load_size(op: LoadOp) -> u64
    ensures { result ≡ load_size op }
{
    match op {
        LoadOp::Lb | LoadOp::Lbu => 1,
        LoadOp::Lh | LoadOp::Lhu => 2,
        LoadOp::Lw | LoadOp::Lwu => 4,
        LoadOp::Ld => 8,
    }
}

/// How many bytes a store writes.
pub fn store_size(op: StoreOp) -> u64
    ensures { result ≡ store_size op }
{
    match op {
        StoreOp::Sb => 1,
        StoreOp::Sh => 2,
        StoreOp::Sw => 4,
        StoreOp::Sd => 8,
    }
}

/// Whether a branch on these values is taken.
pub fn is_taken(op: BranchOp, a: u64, b: u64) -> bool
    ensures { result ≡ is_taken op a b }
{
    match op {
        BranchOp::Beq => a == b,
        BranchOp::Bne => a != b,
        BranchOp::Blt => a.cast_signed() < b.cast_signed(),
        BranchOp::Bge => !(a.cast_signed() < b.cast_signed()),
        BranchOp::Bltu => a < b,
        BranchOp::Bgeu => a >= b,
    }
}

/// An immediate of 12 bits, in 64 bits.
pub fn immediate(imm: Imm12) -> u64
    ensures { result ≡ extend 12 imm }
{
    u64::from(imm.bits() ^ 0x800).wrapping_sub(0x800)
}

/// The offset of a branch, in bytes.
pub fn branch_offset(offset: BranchOffset) -> u64
    ensures { result ≡ extend 13 offset }
{
    u64::from(offset.bits() ^ 0x1000).wrapping_sub(0x1000)
}

/// The offset of a jump, in bytes.
pub fn jump_offset(offset: JumpOffset) -> u64
    ensures { result ≡ extend 21 offset }
{
    u64::from(offset.bits() ^ 0x10_0000).wrapping_sub(0x10_0000)
}
