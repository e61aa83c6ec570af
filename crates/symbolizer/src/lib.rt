//! Names for addresses of an image's programs, by their paths: function, offset, text and line.
#![tactic(auto)]

mod naming;
mod searching;

pub use naming::Symbolizer;
pub use searching::{Program, ProgramsFault, programs};
