//! The kernel's value: the processes of a machine with their spaces and open files, what it keeps, and its own steps.
#![tactic(auto)]

mod channels;
pub mod descriptors;
mod kernel;
pub mod numbers;
mod ready;

pub use channels::{Channel, wakeup};
pub use kernel::{Kernel, ShownProcess};
pub use ready::has_slept;
