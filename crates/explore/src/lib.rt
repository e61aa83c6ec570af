//! All schedules of a program over a machine: each order in which timer interrupts and typed bytes can come.
//!
//! A machine goes along lists of events, each time from a copy of the first one. Two more machines serve for that, so
//! the memory is bounded, whatever the order.
#![tactic(auto)]

mod along;
mod exploring;
mod further;
mod saved;

pub use along::Along;
pub use exploring::explore;
pub use orders::{
    Bounds, Found, Interrupt, Missed, Outcome, Path, Piece, Progress, Standing, Task, Trouble,
    Unwatched, Walker, tables_stay_tidy,
};
