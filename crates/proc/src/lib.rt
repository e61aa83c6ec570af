//! The slots of processes, and the turn.
#![tactic(auto)]

mod mask;
mod process;
mod table;
mod waits;

pub use mask::Mask;
pub use process::{Place, Process};
pub use table::{ProcFault, Reaped, Seat, Table, zombie_child};
pub use waits::WaitKind;
