//! Sections for debuggers, put after a program's file: its labels as a symbol table, and the lines of its texts as a
//! line number program.
//!
//! The names are those of the ELF-64 Object File Format, version 1.5, and of the DWARF Debugging Information Format,
//! version 4.
#![tactic(auto)]

mod file;
mod headers;
mod labels;
mod numbers;
mod program;
mod tables;
mod unit;

pub use file::with_sections;
pub use tables::{Label, Row, Tables};

#[cfg(test)]
mod tests;
