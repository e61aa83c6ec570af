//! The instructions of RV64IM and their words: [`decode`] reads a word, [`encode`] spells one, and [`disassemble`]
//! writes an instruction as text.
//!
//! The formats (R, I, S, B, U and J), the opcodes and the numbers funct3 and funct7 are those of the RISC-V
//! unprivileged manual, in its chapters on RV32I, RV64I and the extension M. Control and status registers, compressed
//! instructions and all other extensions are left out: their words spell nothing here.
#![tactic(auto)]

mod decoder;
mod disassembler;
mod encoder;
mod names;
mod opcodes;
mod operations;

pub use decoder::decode;
pub use disassembler::{Word, disassemble};
pub use encoder::encode;
pub use names::register_name;
pub use unixmodel::instr::Instr;
