//! What a tracer knows of a machine at first.

use super::Tracer;
use crate::lanes::{Doing, Lane, doing_in};
use blockdev::BlockDev;
use machine::{Machine, Pending, ProcessState, Seen};
use sv39::Translate;
use tracetext::{Asked, Sinks};
use unixmodel::limits::PROCESSES;

/// The program of process 1.
const FIRST: &[u8] = b"/init";

// The call that a process waits in, which began before the trace.
fn asked_before(seen: &Seen, number: u32, pending: &Pending) -> Asked {
    let [first, second, third] = pending.args;
    Asked {
        pid: seen.pid,
        number,
        arguments: [first, second, third, 0, 0, 0],
        at: 0,
    }
}

// How many bytes a process that waits has read or written, and the call.
fn pending_of<D: BlockDev, T: Translate>(machine: &Machine<D, T>, pid: u32) -> Option<Pending> {
    machine.holdings(pid)?.pending
}

/// How many bytes the call that a process waits in has read or written so far.
pub(crate) fn done_of<D: BlockDev, T: Translate>(machine: &Machine<D, T>, pid: u32) -> u64 {
    match pending_of(machine, pid) {
        Some(pending) => pending.done,
        None => 0,
    }
}

// A process as it is at first.
fn lane_of<D: BlockDev, T: Translate>(machine: &Machine<D, T>, seen: &Seen) -> Lane {
    let mut lane = Lane::new(seen.pid, doing_in(seen.state, 0));
    if let ProcessState::Waiting(number) = seen.state
        && let Some(pending) = pending_of(machine, seen.pid)
    {
        lane.doing = Doing::Waits(pending.done);
        lane.pending = Some(asked_before(seen, number, &pending));
    }
    if seen.pid == 1 {
        lane.rename(FIRST);
    }
    lane
}

impl<S: Sinks + Drop> Tracer<S> {
    // Knows one process more.
    pub(super) fn add_lane(&mut self, lane: Lane) {
        if self.lanes.push(lane).is_err() {
            self.pen.starve();
        }
    }

    // Looks at all processes that there are before the first event.
    pub(super) fn begin<D: BlockDev, T: Translate>(&mut self, machine: &Machine<D, T>) {
        self.is_begun = true;
        self.draw_head();
        self.note_head();
        let mut pid = 0;
        for _found in 0..PROCESSES {
            let Some(next) = machine.next_pid(pid) else {
                break;
            };
            if let Some(seen) = machine.inspect(next) {
                if seen.state == ProcessState::Running {
                    self.running = Some(next);
                }
                self.add_lane(lane_of(machine, &seen));
            }
            pid = next;
        }
    }
}
