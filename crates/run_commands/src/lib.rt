//! The commands that run a machine, done over a host's files: scripts, plays and sessions.
#![tactic(auto)]

mod finish;
mod naming;
mod performing;
pub mod plays;
mod progress;
mod runs;
mod scribe;
mod script_file;
pub mod scripted;
mod seat;
pub mod sessions;
mod telling;

pub use finish::{Finish, InVain};
pub use naming::{programs_named, programs_of, symbolizer_of};
pub use performing::{Performed, Piece, Show, perform_watched};
pub use progress::{Cleared, Gauge, Meter, Setting};
pub use runs::{keep, read_run, script_of};
pub use scribe::Scribe;
pub use script_file::ScriptFile;
pub use telling::{Both, Ended, Teller, looks_on, pid_of};
