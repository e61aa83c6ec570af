//! A machine with its console, as it is driven from outside: exact steps, ticks and keys in, and bytes and plain
//! numbers out.
#![tactic(auto)]

mod held;
mod looks;
mod nodes;
mod play;
mod session;
mod told;

pub use held::{FaultTold, OpenedTold, WaitTold};
pub use play::Ran;
pub use session::Session;
pub use told::ProcessTold;
