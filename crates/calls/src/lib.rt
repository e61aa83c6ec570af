//! The rows of the table of calls, and the events of a machine that make them.
#![tactic(auto)]

mod calls;
mod descriptor_calls;
mod events;
mod exec_call;
mod file_calls;
mod halt;
mod many_steps;
mod name_calls;
mod open_calls;
mod outcome;
mod process_calls;
mod transfer_calls;

pub use events::{key, step, tick};
pub use halt::Halt;
pub use kernel::Kernel;
pub use many_steps::{advance, compute, steps};
