//! The lines of texts that addresses are of, by the line number programs of a file's section `.debug_line`.
//!
//! Versions 2 to 5 of the DWARF Debugging Information Format are read. Any bytes are: what says nothing has no lines.
#![tactic(auto)]

mod bytes;
mod files;
mod operation;
mod ordered;
mod registers;
mod rows;
mod table;
mod unit;

pub use table::{Line, Lines};
