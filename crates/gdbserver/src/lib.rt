//! A server of gdb's remote protocol, over a machine's line of times. Nothing is ever written into the machine.
#![tactic(auto)]

mod breaks;
mod dispatch;
mod looks;
mod monitor;
mod peer;
mod program_files;
mod resuming;
mod serving;
mod session;

pub use peer::Peer;
pub use serving::debug;
