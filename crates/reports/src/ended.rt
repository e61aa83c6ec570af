//! The processes that ended, and who was killed by whom.

use crate::who::Who;
use arrayvec::ArrayVec;
use blockdev::BlockDev;
use jsonrows::How;
use machine::{Machine, ProcessState};
use sv39::Translate;
use unixmodel::limits::PROCESSES;

/// An end that a process came to.
#[derive(Clone, Copy)]
pub(crate) struct End {
    pub how: How,
    pub status: i32,
    pub killer: Option<u32>,
}

impl End {
    /// It faulted.
    pub(crate) const FAULT: End = End {
        how: How::Fault,
        status: -1,
        killer: None,
    };

    /// It called exit.
    pub(crate) fn exit(status: i32) -> End {
        End {
            how: How::Exit,
            status,
            killer: None,
        }
    }

    /// This process killed it.
    pub(crate) fn killed_by(killer: u32) -> End {
        End {
            how: How::Killed,
            status: -1,
            killer: Some(killer),
        }
    }
}

/// A process that ended, at the event of this number.
#[derive(Clone, Copy)]
pub(crate) struct Ended {
    pub at: u64,
    pub who: Who,
    pub parent: u32,
    pub end: End,
}

/// A process that is marked to be killed, and who marked it first.
#[derive(Clone, Copy, Default)]
pub(crate) struct Kill {
    pub pid: u32,
    pub killer: u32,
}

/// The processes that are marked to be killed, and have not ended.
#[derive(Drop)]
pub(crate) struct Kills {
    marked: ArrayVec<Kill, PROCESSES>,
}

/// Whether the process with a pid has ended and was not waited for.
pub(crate) fn has_ended<D: BlockDev, T: Translate>(machine: &Machine<D, T>, pid: u32) -> bool {
    match machine.inspect(pid) {
        Some(seen) => matches!(seen.state, ProcessState::Zombie(_)),
        None => false,
    }
}

impl Kills {
    /// Nobody is marked.
    pub(crate) fn new() -> Kills {
        Kills {
            marked: ArrayVec::new(),
        }
    }

    /// A process is marked, if it was not before.
    pub(crate) fn mark(&mut self, kill: Kill) {
        let is_marked = self.marked.iter().any(|known| known.pid == kill.pid);
        if !is_marked {
            let _ = self.marked.try_push(kill);
        }
    }

    /// Takes one that has ended.
    pub(crate) fn take_ended<D: BlockDev, T: Translate>(
        &mut self,
        machine: &Machine<D, T>,
    ) -> Option<Kill> {
        let place = self
            .marked
            .iter()
            .position(|kill| has_ended(machine, kill.pid))?;
        if place < self.marked.len() {
            Some(self.marked.remove(place))
        } else {
            None
        }
    }
}
