//! A line that is edited at a terminal before it is given away: cursor keys, Home, End, ^W and a history.
//!
//! Keys go in; what comes out are the keys of finished lines, and what the terminal has to show.
#![tactic(auto)]

mod drawing;
mod editor;
mod history;
mod keys;
mod line;
#[cfg(test)]
mod tests;

pub use drawing::Drawing;
pub use editor::{Editor, Keys, MOST_KEYS};
