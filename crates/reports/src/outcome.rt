//! How a run ended, once all of it is written.

use crate::who::Who;
use machine::Halt;
use std::fmt;

/// What became of a play.
#[derive(Clone, Copy, PartialEq, Eq)]
pub enum PlayEnd {
    /// Each line was carried out.
    Done,
    /// The machine halted first.
    Halted,
    /// A line waited in vain for this number of steps.
    Unreached { line: usize, steps: u32 },
}

/// How a run ended: the halt that it came to, in its events, in the save or where the console's bytes are written; and
/// what became of the play, if it had one.
#[derive(Clone, Copy)]
pub struct Outcome {
    pub halt: Option<Halt>,
    pub play: Option<PlayEnd>,
}

/// Why a run stopped.
#[derive(Clone, Copy)]
pub(crate) enum Stop {
    /// Process 1 ended with this status.
    Ended(i32),
    /// An access of the disk failed.
    Device,
    /// The console's bytes weren't all taken.
    Console,
    /// The machine takes no events.
    Halted,
    /// No process runs, and none is ready.
    Idle,
    /// The events are used up while this process runs.
    Runs(Who),
    /// The events are used up while a process is ready.
    Ready,
}

impl Stop {
    /// Why a run stopped that came to this halt.
    pub(crate) fn at(halt: Halt) -> Stop {
        match halt {
            Halt::InitEnded(status) => Stop::Ended(status),
            Halt::Device => Stop::Device,
            Halt::Console => Stop::Console,
            Halt::Halted => Stop::Halted,
        }
    }

    /// The same, where the run came to this halt after its events.
    pub(crate) fn or(self, halt: Option<Halt>) -> Stop {
        match halt {
            Some(halt) => Stop::at(halt),
            None => self,
        }
    }
}

impl fmt::Display for Stop {
    fn fmt<W: fmt::Write>(&self, f: &mut fmt::Formatter<W>) -> fmt::Result {
        match self {
            Stop::Ended(status) => write!(f, "process 1 ended with status {status}"),
            Stop::Device => f.write_str("an access of the disk failed"),
            Stop::Console => f.write_str("the console's bytes were not all taken"),
            Stop::Halted => f.write_str("the machine takes no events"),
            Stop::Idle => f.write_str("nobody is ready"),
            Stop::Runs(who) => write!(f, "the events are used up while {who} runs"),
            Stop::Ready => f.write_str("the events are used up while a process is ready"),
        }
    }
}
