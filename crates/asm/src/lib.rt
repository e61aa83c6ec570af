//! The assembler: from assembly text to an ELF file.
//!
//! A text is read line by line (`asmtext`), each line gets its address, and then it is put out there.
#![tactic(auto)]

mod assembler;
mod distance;
mod emit;
mod fault;
mod file;
mod labels;
mod layout;

pub use assembler::assemble;
pub use fault::AsmFault;
pub use file::{NoMemory, file_is_flat, write_elf};
pub use unixmodel::assembly::AsmKind;
