//! What exec makes of a program file and its arguments, and how the program is loaded into memory.
#![tactic(auto)]

mod arguments;
mod executing;
mod headers;
mod loading;

pub use arguments::{Arguments, one_argument, read_arguments};
pub use executing::{Started, execute};
pub use headers::{Program, read_program};
pub use loading::{add_stack, clear, load};
