//! What the lines of an assembly text say: labels, and statements or what is wrong with them.
#![tactic(auto)]

mod forms;
mod line;
mod mnemonics;
mod names;
mod number;
mod operands;
mod operations;
mod parts;
mod statement;
mod tokens;
mod words;

pub use line::lines;
pub use mnemonics::Width;
pub use number::Number;
pub use operations::Partial;
pub use statement::{Leap, Line, Statement, Target};
