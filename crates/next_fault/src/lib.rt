//! Why the next instruction of a process isn't done: the trap that it would raise, found from what a machine shows; and
//! what it loads or stores.
#![tactic(auto)]

mod access;
mod accesses;
mod fault;
mod operands;
mod traps;

pub use access::word;
pub use accesses::{DataAccess, data_access};
pub use fault::{Fault, Named, Why, fault_of};
pub use traps::cause;
