//! The command `explore`: a machine's events in every order, and the different outcomes.
#![tactic(auto)]

mod differences;
mod drawn;
mod drawn_runs;
mod exploring;
mod keys;
mod nodes;
mod printing;
mod script_text;
mod search;
mod shown;
mod verdict;
mod watched;
mod watcher;

pub use exploring::perform;
