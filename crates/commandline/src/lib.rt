//! The command line of the program: the job that its words name.
#![tactic(auto)]

mod command_line;
mod declarations;
mod jobs;
mod names;

pub use command_line::{explains, job};
pub use jobs::{
    As, Asm, Check, Dump, Explore, Files, Flat, Gdb, Get, Job, Lines, Live, Ls, Migrate, Mkfs,
    Part, Play, Put, Reach, Run, Telling, Trace,
};
pub use names::{Names, names_of};
