//! Motions that gdb asks for, and how their ends are reported.
ghost use Rattle.std.specs.Prelude.{◌≡◌};

use crate::session::{Flow, Session, pid_of};
use gdbanswers::current;
use gdbmotions::{Motion, Outcome, go_to_start};
use gdbreplies::{Stop, push_console, push_end, push_exec, push_stop};
use gdbstate::Stepping;
use gdbwire::{Action, Going, action_in, cut};
use std::alloc::AllocError;
use timeline::{Debuggee, Timeline};

/// How many events a motion has at most: then it ends by itself, since nobody could end it.
const PATIENCE: u64 = 1_000_000_000;

/// The most bytes of the console in a frame.
const MOST_PRINTED: usize = 4096;

impl Session {
    // The step that an action is, where it is one.
    fn step_of(&self, machine: &Debuggee, action: Action) -> Option<Stepping> {
        let (from, end) = match action.going {
            Going::Continue => return None,
            Going::Step => (0, 0),
            Going::Range(from, end) => (from, end),
        };
        let pid = match action.thread {
            Some(thread) => pid_of(thread)?,
            None => 0,
        };
        let pid = self.chosen(machine, pid);
        Some(Stepping { pid, from, end })
    }

    // The first step among actions.
    fn stepping_in(&self, machine: &Debuggee, text: &[u8]) -> Option<Stepping> {
        let mut rest = text;
        for _action in 0..text.len() {
            let (first, more) = match cut(b';', rest) {
                Some((first, more)) => (first, more),
                None => (rest, b"".as_slice()),
            };
            if let Some(action) = action_in(first)
                && let Some(stepping) = self.step_of(machine, action)
            {
                return Some(stepping);
            }
            rest = more;
        }
        None
    }

    // Prints bytes of the console on gdb's terminal.
    fn print(&mut self, bytes: &[u8]) -> Result<(), AllocError> {
        for part in bytes.chunks(MOST_PRINTED) {
            push_console(part, &mut self.body)?;
            self.send()?;
        }
        Ok(())
    }

    // A process stopped. Gdb takes it for the one that is looked at from now on.
    fn put_stop(&mut self, pid: u32, stop: Stop) -> Result<Flow, AllocError> {
        self.looks = pid;
        push_stop(pid, stop, &mut self.body)?;
        Ok(Flow::Reply)
    }

    // A process is about to end.
    fn put_ending(&mut self, pid: u32, status: u8) -> Result<Flow, AllocError> {
        let line = format!(in self.alloc; "Process {pid} is about to end with status {status}.\n")?;
        self.print(line.as_bytes())?;
        self.put_stop(pid, Stop::Stepped)
    }

    // A process became another program.
    fn put_exec(&mut self, timeline: &Timeline, pid: u32) -> Result<Flow, AllocError> {
        self.looks = pid;
        let path = self.tracer.names.path(pid, timeline.at());
        push_exec(pid, path, &mut self.body)?;
        Ok(Flow::Reply)
    }

    // A process ended.
    fn put_end(&mut self, pid: u32, status: u8) -> Result<Flow, AllocError> {
        self.looks = 0;
        push_end(pid, status, &mut self.body)?;
        Ok(Flow::Reply)
    }

    // Why the machine is where a motion was to end in any case.
    fn reached(&self, timeline: &Timeline) -> Stop {
        if self.target == Some(timeline.at()) || self.prints.contains(&timeline.at()) {
            Stop::Stepped
        } else {
            Stop::Interrupted
        }
    }

    /// Why a motion ended.
    pub(crate) fn put_outcome(
        &mut self,
        timeline: &Timeline,
        outcome: Outcome,
    ) -> Result<Flow, AllocError> {
        let any = current(timeline.machine(), &self.tracer.points);
        match outcome {
            Outcome::Stopped(pid, stop) => self.put_stop(pid, stop),
            Outcome::Replaced(pid) => self.put_exec(timeline, pid),
            Outcome::Ending(pid, status) => self.put_ending(pid, status),
            Outcome::Ended(pid, status) => self.put_end(pid, status),
            Outcome::Reached => self.put_stop(any, self.reached(timeline)),
            Outcome::Begins => self.put_stop(any, Stop::Begins),
            Outcome::Ends => self.put_stop(any, Stop::Ends),
        }
    }

    // The time at which a motion forward ends in any case.
    fn latest(&self, at: u64) -> u64 {
        let mut latest = at.saturating_add(PATIENCE);
        if let Some(target) = self.target
            && target > at
        {
            latest = latest.min(target);
        }
        for time in &self.prints {
            if *time > at {
                latest = latest.min(*time);
            }
        }
        latest
    }

    // The time at which a motion back ends in any case.
    fn earliest(&self, at: u64) -> u64 {
        let mut earliest = match self.target {
            Some(target) if target < at => target,
            _ => 0,
        };
        for time in &self.prints {
            if *time < at {
                earliest = earliest.max(*time);
            }
        }
        earliest
    }

    // Goes forward, and reports why that ended.
    fn go_on(
        &mut self,
        timeline: &mut Timeline,
        stepping: Option<Stepping>,
    ) -> Result<Flow, AllocError>
        ensures { timeline.new ≡ record timeline.old { at = timeline.new.at } }
    {
        let until = self.latest(timeline.at());
        let outcome = self.tracer.go_on(timeline, Motion { stepping, until })?;
        let printed = timeline.take_printed();
        self.print(printed.as_slice())?;
        self.put_outcome(timeline, outcome)
    }

    // Goes back, and reports why that ended.
    fn go_back(
        &mut self,
        timeline: &mut Timeline,
        stepping: Option<Stepping>,
    ) -> Result<Flow, AllocError>
        ensures { timeline.new ≡ record timeline.old { at = timeline.new.at } }
    {
        let until = self.earliest(timeline.at());
        let outcome = self.tracer.go_back(timeline, Motion { stepping, until })?;
        self.put_outcome(timeline, outcome)
    }

    /// `vCont;`
    pub(crate) fn resume(
        &mut self,
        timeline: &mut Timeline,
        text: &[u8],
    ) -> Result<Flow, AllocError>
        ensures { timeline.new ≡ record timeline.old { at = timeline.new.at } }
    {
        let stepping = self.stepping_in(timeline.machine(), text);
        self.go_on(timeline, stepping)
    }

    /// `bs`
    pub(crate) fn step_back(&mut self, timeline: &mut Timeline) -> Result<Flow, AllocError>
        ensures { timeline.new ≡ record timeline.old { at = timeline.new.at } }
    {
        let pid = self.chosen(timeline.machine(), self.steps);
        let stepping = Stepping {
            pid,
            from: 0,
            end: 0,
        };
        self.go_back(timeline, Some(stepping))
    }

    /// `bc`
    pub(crate) fn continue_back(&mut self, timeline: &mut Timeline) -> Result<Flow, AllocError>
        ensures { timeline.new ≡ record timeline.old { at = timeline.new.at } }
    {
        self.go_back(timeline, None)
    }

    /// `vRun;`: the program begins again, where the machine began.
    pub(crate) fn begin_again(&mut self, timeline: &mut Timeline) -> Result<Flow, AllocError>
        ensures { timeline.new ≡ record timeline.old { at = timeline.new.at } }
    {
        go_to_start(timeline)?;
        self.tracer.points.released.clear();
        self.looks = 0;
        self.steps = 0;
        self.last_stop(timeline)
    }

    /// `?`
    pub(crate) fn last_stop(&mut self, timeline: &Timeline) -> Result<Flow, AllocError> {
        let pid = current(timeline.machine(), &self.tracer.points);
        self.put_stop(pid, Stop::Stepped)
    }
}
