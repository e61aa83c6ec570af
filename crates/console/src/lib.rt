//! The console: what is typed at it, and where its bytes go.
#![tactic(auto)]

mod input;
mod output;

pub use input::{Console, ROOM, Taken};
pub use output::{Out, OutFault, Writer};
