//! Names for addresses of a program: function, offset, text and line.
#![tactic(auto)]

mod name;
mod names;

pub use lines::Line;
pub use name::Name;
pub use names::Names;
pub use symbols::Place;

#[cfg(test)]
mod samples;
#[cfg(test)]
mod tests;
