//! The events that a machine is given: texts of scripts and plays, what their lines stand for, and a transcript of
//! events as a script. The lines of manifests are read as those of scripts.
#![tactic(auto)]

mod clock;
mod fault;
mod grammar;
mod laws;
mod lines;
mod manifest;
mod place;
mod reading;
mod record;
mod row;
mod script;
mod transcript;
mod words;

pub use clock::Clock;
pub use fault::{PlayFault, Why};
pub use grammar::{Act, Deed, Goal, MOST_DEPTH, MOST_SHOWN, Play};
pub use laws::transcripts_are_read;
pub use lines::{FromLine, TextFault, parse};
pub use manifest::Line;
pub use place::Place;
pub use reading::parse_play;
pub use record::{Record, Unrecorded};
pub use row::Row;
pub use script::{Command, bytes_of, count, pair_value};
pub use transcript::Transcript;
