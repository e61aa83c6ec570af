//! What the lines mean by which the program says that a job is not done, and what to do then.
#![tactic(auto)]

mod guesses;
mod manifests;
mod meanings;
mod noting;
mod oddities;
pub mod words;

pub use guesses::nearest;
pub use manifests::{Misfit, misfit_of};
pub use meanings::{Topic, meaning};
pub use noting::Noting;
pub use oddities::{Oddity, oddity_of};
