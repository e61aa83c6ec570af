//! The command `gdb`: a run that gdb debugs, forward and back, over standard input and output.
#![tactic(auto)]

mod debugging;
mod init_lines;
mod link;
mod loaded;
mod recording;

pub use debugging::perform;
pub use init_lines::print_init_lines;
