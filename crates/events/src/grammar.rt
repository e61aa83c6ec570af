//! What a play says.

use crate::clock::Clock;
use crate::script::Command;
use arrayvec::ArrayVec;

/// How deep repeats may be nested.
pub const MOST_DEPTH: usize = 8;

/// The most bytes of a text that a play waits for.
pub const MOST_SHOWN: usize = 64;

/// What a play waits for.
#[derive(Drop)]
pub enum Goal {
    /// The console's bytes end with these.
    Shown(ArrayVec<u8, MOST_SHOWN>),
    /// No process runs and none is ready.
    Idle,
    /// The shell waits for a typed line, and no process is alive but it and process 1.
    Prompt,
    /// No process runs and none is ready, and none sleeps.
    Quiet,
    /// The machine halts.
    Halt,
}

/// What a line of a play says.
#[derive(Drop)]
pub enum Deed<'a> {
    /// A command of a script. After each of its steps the clock may strike.
    Give(Command<'a>),
    /// Steps until the goal is reached, at most this many.
    Until(Goal, u32),
    /// From here on this clock gives ticks.
    Set(Clock),
    /// Repeats the deeds up to the end `times` times. The deed of number `end` is the first after it.
    Repeat { times: u32, end: usize },
    /// The end of what is repeated.
    End,
}

/// A line of a play.
#[derive(Drop)]
pub struct Act<'a> {
    /// The number of the line, from 1 on.
    pub line: usize,
    /// What it says.
    pub deed: Deed<'a>,
}

/// A play: what its lines say, in order. Each repeat has its end.
#[derive(Drop)]
pub struct Play<'a> {
    pub acts: Vec<Act<'a>>,
}
