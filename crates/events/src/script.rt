//! Scripts: what happens to a machine, one command a line.

mod fields;
mod lines;

pub use fields::{bytes_of, count, pair_value};
pub use lines::Command;
