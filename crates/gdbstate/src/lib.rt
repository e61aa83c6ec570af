//! What gdb is sent of a machine's state, and in which states its motions end.
#![tactic(auto)]

mod accesses;
mod looks;
mod reasons;
mod watches;

pub use accesses::{AccessWatch, is_accessed};
pub use looks::{
    NOT_THERE, byte_at, bytes_at, push_memory_of, push_register_of, push_registers_of,
};
pub use reasons::{Break, Reasons, Someone, Stepping, is_ecall, is_stepped};
pub use watches::{Watched, Width, number_at};
