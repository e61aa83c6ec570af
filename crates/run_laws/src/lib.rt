//! Laws of runs: how long a process waits for its turn, and what stays of it until it is picked.
#![tactic(auto)]

mod laws;

pub use laws::{last_is_a_place, rest_is_private, waiting_is_bounded};
