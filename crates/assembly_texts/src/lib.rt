//! Program files of assembly texts as they are written elsewhere, and reports of what is wrong with the texts.
#![tactic(auto)]

mod debugging;
mod hints;
mod making;
mod reporting;
mod sizes;
mod telling;

pub use gas::{File, MOST_BYTES, Program, Sources, read};
pub use making::{Made, Unmade, make, make_with_lines};
pub use reporting::Reporter;
pub use telling::{Told, tell};
