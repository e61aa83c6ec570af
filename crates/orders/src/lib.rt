//! All orders in which events can come to a machine: timer interrupts at any time, typed bytes where nobody is ready.
//! A search goes along them, looks at each state once, and gives the different outcomes.
//!
//! A node of the search is a list of events, and no machine: whoever walks along makes the machine anew. A digest finds
//! a state that was looked at before, and a comparison decides, so no hash is trusted. Where the search says that these
//! are all outcomes, that is proved.
#![tactic(auto)]

mod bounds;
mod laws;
mod paths;
mod progress;
mod search;
mod seen;
mod told;
mod walker;

pub use bounds::{Bounds, Missed, Task, Trouble};
pub use laws::{nobody_sleeps_at_a_start, tables_stay_tidy};
pub use paths::{Interrupt, Path, Piece};
pub use progress::{Progress, Standing, Unwatched};
pub use search::{Found, find_outcomes};
pub use told::Outcome;
pub use walker::Walker;
