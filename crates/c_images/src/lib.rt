//! Images and assembly texts as C has them: structs of numbers, numbers of faults, and bytes in buffers.
#![tactic(auto)]

mod faults;
mod images;
mod locations;
mod puts;
mod summaries;
mod texts;

pub use imagebytes::EntryTold;
pub use images::{assemble, check, expand, get, list, locate, migrate, mkfs, put};
pub use summaries::SummaryTold;
pub use texts::{AssembledTold, ExpandedTold};
