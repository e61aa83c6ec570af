//! Bytes between the nodes of a disk and the memory of a process.
//!
//! A read takes the bytes through a buffer, of one block where they are many, and a write passes on the pages of the
//! memory themselves. Who may read or write, and at which offset of its node an open file is, is the caller's affair.
#![tactic(auto)]

mod reading;
mod writing;

pub use reading::read_node;
pub use writing::write_node;
