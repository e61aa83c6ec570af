//! Runs that a debugger debugs: a machine that boots from a disk, at the events of a script.
#![tactic(auto)]

mod runs;
mod script_events;

pub use runs::{Limits, RunFault, debug_disk};
