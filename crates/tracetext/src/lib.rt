//! How a machine's work is written: text in strace's manner, spans in Chrome's JSON, and commits in Spike's form.
//!
//! What is written is given as plain values, so nothing here knows a machine.
#![tactic(auto)]

mod asked;
mod call_names;
pub mod commit_lines;
pub mod commits;
mod digits;
pub mod lines;
mod pen;
mod quoting;
mod rows;
pub mod spans;
mod wishes;

pub use asked::{Asked, CallText, Shown};
pub use call_names::{CallName, CallSet};
pub use pen::{Form, Pen, SinkFault, Sinks, Trouble};
pub use quoting::Quoted;
pub use rows::Row;
pub use wishes::Wanted;
