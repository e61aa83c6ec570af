//! A machine that moves along the times of its events, forward and back.
//! At time n it is what the first n events make of its start.
#![tactic(auto)]

mod copies;
mod giving;
mod moving;
mod outputs;
mod printed;
mod timeline;
mod wanted;

pub use machine::NoMemory;
pub use moving::Moved;
pub use stretches::{Events, NoRoom};
pub use timeline::Timeline;
pub use wanted::{Debuggee, Wanted};
