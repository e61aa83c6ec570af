//! The commands of the program, done over a host's files.
#![tactic(auto)]

pub mod perform;

pub use commandline::{
    As, Asm, Check, Dump, Explore, Files, Flat, Gdb, Get, Job, Lines, Live, Ls, Migrate, Mkfs,
    Part, Play, Put, Reach, Run, Telling, Trace, explains, job,
};
pub use host::{Front, Host, HostFault, InUse, NoScreen, Screen, Why, refuse};
pub use image_commands::{explain, explain_words};
