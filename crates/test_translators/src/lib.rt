//! Translators that a machine has to bear, for tests and stored runs.
//! One notes translations, and returns the oldest that it may hold; one counts what it is asked for.
//! Any of these and of those of `sv39` is one type here.
//! Whatever a translator holds, all that a machine shows is the same.
#![tactic(auto)]

mod chosen;
mod counting;
mod noting;

pub use crate::chosen::{Chosen, Counts, Kind};
pub use crate::counting::Counting;
pub use crate::noting::{MOST_PAGES, Noting};
