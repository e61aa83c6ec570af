//! What is kept of each process.

use arrayvec::ArrayVec;
use jsonrows::Descriptors;
use machine::ProcessState;
use tracetext::Asked;

/// The most bytes of a program's name: the longest path.
pub const MOST_NAME: usize = 127;

/// What a process did at the last event.
#[derive(Clone, Copy)]
pub enum Doing {
    /// It has the hart.
    Runs,
    /// It is in user state, and has not the hart.
    Rests,
    /// It waits in a call, which has read or written this many bytes so far.
    Waits(u64),
    /// It has ended.
    Ended,
}

/// Where a process ended: the time at which an arrow leaves, and the lane.
#[derive(Clone, Copy)]
pub struct Exit {
    pub at: u64,
    pub lane: u8,
}

/// A process, as it was at the last event.
#[derive(Drop)]
pub struct Lane {
    pub pid: u32,
    /// The path of its program, as it was given.
    pub name: ArrayVec<u8, MOST_NAME>,
    pub doing: Doing,
    /// The time from which on it has the hart, if it has it.
    pub since: u64,
    /// The call that it waits in.
    pub pending: Option<Asked>,
    /// Who killed it first.
    pub killer: Option<u32>,
    /// Where an arrow to the one that waits for it leaves, if there is to be one.
    pub exit: Option<Exit>,
    /// What its descriptors named before the event at which it ended.
    pub descriptors: Descriptors,
}

/// What a state says of a process that waits in no call that is known.
pub(crate) fn doing_in(state: ProcessState, done: u64) -> Doing {
    match state {
        ProcessState::Running => Doing::Runs,
        ProcessState::Ready => Doing::Rests,
        ProcessState::Waiting(_) => Doing::Waits(done),
        ProcessState::Zombie(_) => Doing::Ended,
    }
}

impl Lane {
    /// A process that nothing is known of but its pid.
    pub(crate) fn new(pid: u32, doing: Doing) -> Lane {
        Lane {
            pid,
            name: ArrayVec::new(),
            doing,
            since: 0,
            pending: None,
            killer: None,
            exit: None,
            descriptors: [None; 16],
        }
    }

    /// Whether the process has ended.
    pub(crate) fn has_ended(&self) -> bool {
        matches!(self.doing, Doing::Ended)
    }

    /// Calls it by this name, or by its first bytes.
    pub(crate) fn rename(&mut self, name: &[u8]) {
        self.name.clear();
        for byte in name {
            if self.name.try_push(*byte).is_err() {
                break;
            }
        }
    }
}

/// The index of a process among others; `None` where it isn't there.
pub(crate) fn place_of(lanes: &[Lane], pid: u32) -> Option<usize> {
    lanes.iter().position(|lane| lane.pid == pid)
}
