//! The table of open files: 100 slots, each free or with an open file and a count of the descriptors that name it.
//!
//! It has no memory and no frames: the bytes of pipes and of nodes are the caller's affair. Contracts are in terms
//! of the abstract Unix's state; `proofs/Whole` has what the table is there.
#![tactic(auto)]

mod file;
mod table;

pub use file::{End, OpenFile, Target};
pub use table::{FileFault, Files};
