//! Conditions of breakpoints: agent expressions, which gdb sends as the code of a small stack machine.
//!
//! From gdb's manual, its appendix on agent expressions: numbers of 64 bits on a stack, no floating point, no tracing.
#![tactic(auto)]

mod decoding;
mod evaluation;
mod operation;

pub use decoding::{Decoded, decode};
pub use evaluation::{MOST_STEPS, Sight, holds};
pub use operation::{Binary, Operation, Unary, Width, apply_binary, apply_unary};

#[cfg(test)]
mod tests;
