//! Operations: instructions in the form that the loop over them takes, of 8 bytes, one variant a mnemonic.
ghost use Rattle.std.specs.Prelude.{◌≡◌, ◌<◌};
ghost use Rattle.hart.specs.Operations.{target_of};

use std::marker::Model;
use unixmodel::instr::{Amount, AmountW, LoadOp, Reg};

/// The number of a register that can be written: 1 to 31.
#[derive(Clone, Copy)]
pub struct Target {
    number: u8,
}

impl Model for Target {
    ghost use Rattle.std.specs.Prelude.{ℕ, ◌<◌};

    ghost Value = { ℕ };

    ghost view = { λ t. t.number };

    ghost invariant = { λ t. (0 < t.number) × (t.number < 32) };

    ghost inverse = { λ n. record { number = n } };
}

impl Target {
    /// The register with this number, unless it is x0.
    #[inline]
    pub fn new(register: Reg) -> Option<Target>
        ensures { result ≡ target_of register }
    {
        let number = register.bits();
        if number == 0 {
            return None;
        }
        Some(Target { number })
    }

    /// Its number.
    #[inline]
    pub fn number(self) -> u8
        ensures is { result ≡ self }
        ensures in_range { (0 < result) × (result < 32) }
    {
        self.number
    }
}

/// What an instruction does, with its fields taken from its word. An immediate has 32 bits and is sign-extended.
/// What would only compute for x0 is `Nop`; a load for x0 is `Probe`, and a jump that leaves no address `J` or `Jr`.
#[derive(Clone, Copy)]
pub enum Op {
    Lui {
        rd: Target,
        imm: u32,
    },
    Auipc {
        rd: Target,
        imm: u32,
    },
    Jal {
        rd: Target,
        imm: u32,
    },
    J {
        imm: u32,
    },
    Jalr {
        rd: Target,
        rs1: Reg,
        imm: u32,
    },
    Jr {
        rs1: Reg,
        imm: u32,
    },
    Beq {
        rs1: Reg,
        rs2: Reg,
        imm: u32,
    },
    Bne {
        rs1: Reg,
        rs2: Reg,
        imm: u32,
    },
    Blt {
        rs1: Reg,
        rs2: Reg,
        imm: u32,
    },
    Bge {
        rs1: Reg,
        rs2: Reg,
        imm: u32,
    },
    Bltu {
        rs1: Reg,
        rs2: Reg,
        imm: u32,
    },
    Bgeu {
        rs1: Reg,
        rs2: Reg,
        imm: u32,
    },
    Lb {
        rd: Target,
        rs1: Reg,
        imm: u32,
    },
    Lh {
        rd: Target,
        rs1: Reg,
        imm: u32,
    },
    Lw {
        rd: Target,
        rs1: Reg,
        imm: u32,
    },
    Ld {
        rd: Target,
        rs1: Reg,
        imm: u32,
    },
    Lbu {
        rd: Target,
        rs1: Reg,
        imm: u32,
    },
    Lhu {
        rd: Target,
        rs1: Reg,
        imm: u32,
    },
    Lwu {
        rd: Target,
        rs1: Reg,
        imm: u32,
    },
    Probe {
        op: LoadOp,
        rs1: Reg,
        imm: u32,
    },
    Sb {
        rs1: Reg,
        rs2: Reg,
        imm: u32,
    },
    Sh {
        rs1: Reg,
        rs2: Reg,
        imm: u32,
    },
    Sw {
        rs1: Reg,
        rs2: Reg,
        imm: u32,
    },
    Sd {
        rs1: Reg,
        rs2: Reg,
        imm: u32,
    },
    Addi {
        rd: Target,
        rs1: Reg,
        imm: u32,
    },
    Slti {
        rd: Target,
        rs1: Reg,
        imm: u32,
    },
    Sltiu {
        rd: Target,
        rs1: Reg,
        imm: u32,
    },
    Xori {
        rd: Target,
        rs1: Reg,
        imm: u32,
    },
    Ori {
        rd: Target,
        rs1: Reg,
        imm: u32,
    },
    Andi {
        rd: Target,
        rs1: Reg,
        imm: u32,
    },
    Slli {
        rd: Target,
        rs1: Reg,
        amount: Amount,
    },
    Srli {
        rd: Target,
        rs1: Reg,
        amount: Amount,
    },
    Srai {
        rd: Target,
        rs1: Reg,
        amount: Amount,
    },
    Add {
        rd: Target,
        rs1: Reg,
        rs2: Reg,
    },
    Sub {
        rd: Target,
        rs1: Reg,
        rs2: Reg,
    },
    Sll {
        rd: Target,
        rs1: Reg,
        rs2: Reg,
    },
    Slt {
        rd: Target,
        rs1: Reg,
        rs2: Reg,
    },
    Sltu {
        rd: Target,
        rs1: Reg,
        rs2: Reg,
    },
    Xor {
        rd: Target,
        rs1: Reg,
        rs2: Reg,
    },
    Srl {
        rd: Target,
        rs1: Reg,
        rs2: Reg,
    },
    Sra {
        rd: Target,
        rs1: Reg,
        rs2: Reg,
    },
    Or {
        rd: Target,
        rs1: Reg,
        rs2: Reg,
    },
    And {
        rd: Target,
        rs1: Reg,
        rs2: Reg,
    },
    Mul {
        rd: Target,
        rs1: Reg,
        rs2: Reg,
    },
    Mulh {
        rd: Target,
        rs1: Reg,
        rs2: Reg,
    },
    Mulhsu {
        rd: Target,
        rs1: Reg,
        rs2: Reg,
    },
    Mulhu {
        rd: Target,
        rs1: Reg,
        rs2: Reg,
    },
    Div {
        rd: Target,
        rs1: Reg,
        rs2: Reg,
    },
    Divu {
        rd: Target,
        rs1: Reg,
        rs2: Reg,
    },
    Rem {
        rd: Target,
        rs1: Reg,
        rs2: Reg,
    },
    Remu {
        rd: Target,
        rs1: Reg,
        rs2: Reg,
    },
    Addiw {
        rd: Target,
        rs1: Reg,
        imm: u32,
    },
    Slliw {
        rd: Target,
        rs1: Reg,
        amount: AmountW,
    },
    Srliw {
        rd: Target,
        rs1: Reg,
        amount: AmountW,
    },
    Sraiw {
        rd: Target,
        rs1: Reg,
        amount: AmountW,
    },
    Addw {
        rd: Target,
        rs1: Reg,
        rs2: Reg,
    },
    Subw {
        rd: Target,
        rs1: Reg,
        rs2: Reg,
    },
    Sllw {
        rd: Target,
        rs1: Reg,
        rs2: Reg,
    },
    Srlw {
        rd: Target,
        rs1: Reg,
        rs2: Reg,
    },
    Sraw {
        rd: Target,
        rs1: Reg,
        rs2: Reg,
    },
    Mulw {
        rd: Target,
        rs1: Reg,
        rs2: Reg,
    },
    Divw {
        rd: Target,
        rs1: Reg,
        rs2: Reg,
    },
    Divuw {
        rd: Target,
        rs1: Reg,
        rs2: Reg,
    },
    Remw {
        rd: Target,
        rs1: Reg,
        rs2: Reg,
    },
    Remuw {
        rd: Target,
        rs1: Reg,
        rs2: Reg,
    },
    Nop,
    Ecall,
    Ebreak,
    Illegal,
}
