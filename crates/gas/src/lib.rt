//! Assembly texts as they are written elsewhere, expanded into the language that the crate `asm` takes.
#![tactic(auto)]

mod assembler;
mod blanks;
mod collector;
mod data;
mod directives;
mod expression;
mod fault;
mod fields;
mod instructions;
mod jumps;
mod layout;
mod lexer;
mod literals;
mod macros;
mod messages;
mod names;
mod numbers;
mod operands;
mod output;
mod passes;
mod pseudo;
mod quoted;
mod reader;
mod registers;
mod source;
mod statement_text;
mod statements;
mod tokens;
mod value;
mod words;

pub use directives::known_words;
pub use fault::{Fault, Position, Usage, Wrong};
pub use messages::message;
pub use passes::{Expanded, Expansion, expand};
pub use reader::{MOST_BYTES, read};
pub use source::{File, Line, Place, Program, Row, Sources, Status};
