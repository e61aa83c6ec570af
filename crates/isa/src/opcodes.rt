//! The opcodes, the lowest seven bits of a word, by the RISC-V unprivileged manual's names.

pub const LOAD: u32 = 0b0000011;

pub const MISC_MEM: u32 = 0b0001111;

pub const OP_IMM: u32 = 0b0010011;

pub const AUIPC: u32 = 0b0010111;

pub const OP_IMM_32: u32 = 0b0011011;

pub const STORE: u32 = 0b0100011;

pub const OP: u32 = 0b0110011;

pub const LUI: u32 = 0b0110111;

pub const OP_32: u32 = 0b0111011;

pub const BRANCH: u32 = 0b1100011;

pub const JALR: u32 = 0b1100111;

pub const JAL: u32 = 0b1101111;

/// The two words of the opcode SYSTEM that are instructions here.
pub const ECALL: u32 = 0x0000_0073;

pub const EBREAK: u32 = 0x0010_0073;
