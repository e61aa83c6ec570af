//! Where the motions of a machine under gdb end, and what came of them.
#![tactic(auto)]

mod deeds;
mod paths;
mod points;
mod reasons;
mod sight;
mod stops;
mod tracer;

pub use paths::{FIRST_PROGRAM, Names};
pub use points::{Conditional, MOST_POINTS, Points, Watch};
pub use stops::signal_of;
pub use tracer::{Motion, Outcome, Tracer, go_to_start};
