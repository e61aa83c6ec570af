//! Names for addresses, of the symbol table of an ELF file of 64 bits whose numbers have their lowest byte first.
//!
//! The names of fields and types are those of the ELF-64 Object File Format, version 1.5.
#![tactic(auto)]

mod entry;
mod nearest;
mod table;

pub use entry::{ENTRY_SIZE, Symbol};
pub use table::{Place, Symbols};
