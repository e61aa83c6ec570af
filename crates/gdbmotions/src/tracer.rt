//! Motions of a machine under gdb.
ghost use Rattle.std.specs.Prelude.{[], ◌≡◌, OnOk};

use crate::deeds::{Deed, Doing, deed_at, is_done};
use crate::paths::Names;
use crate::points::Points;
use crate::reasons::{reasons_back, reasons_on};
use crate::stops::stop_here;
use gdbreplies::Stop;
use gdbstate::{Reasons, Someone, Stepping};
use std::alloc::{AllocError, Global};
use timeline::{Moved, Timeline};

/// How often a motion passes a break whose conditions don't hold, or a call, at most: then it ends by itself.
const MOST_PASSES: u32 = 1_000_000_000;

/// A motion.
#[derive(Clone, Copy)]
pub struct Motion {
    /// The step that it is, where it is one.
    pub stepping: Option<Stepping>,
    /// The time at which it ends in any case.
    pub until: u64,
}

/// Why a motion ended.
#[derive(Clone, Copy, PartialEq, Eq, Debug)]
pub enum Outcome {
    /// A process stopped.
    Stopped(u32, Stop),
    /// A process became another program.
    Replaced(u32),
    /// A process is about to end with this status.
    Ending(u32, u8),
    /// A process has ended with this status.
    Ended(u32, u8),
    /// At the time up to which it was to go.
    Reached,
    /// At the start.
    Begins,
    /// At the end.
    Ends,
}

/// Who moves a machine: where it is to stop, and which programs its processes run.
#[derive(Drop)]
pub struct Tracer {
    pub alloc: Global,
    pub points: Points,
    pub names: Names,
}

/// Back to the start, and on to where the first process runs.
pub fn go_to_start(timeline: &mut Timeline) -> Result<(), AllocError>
    ensures { timeline.new ≡ record timeline.old { at = timeline.new.at } }
{
    if !timeline.restart() {
        return Err(AllocError);
    }
    let _moved = timeline.forward(&Someone, u64::MAX);
    Ok(())
}

impl Tracer {
    /// One that stops a machine nowhere.
    pub fn new(alloc: Global) -> Tracer
        ensures breaks { result.points.breaks.items ≡ [] }
        ensures watches { result.points.watches.items ≡ [] }
        ensures accesses { result.points.accesses.items ≡ [] }
        ensures released { result.points.released.items ≡ [] }
        ensures calls { result.points.calls.items ≡ [] }
        ensures names { result.names.entries.items ≡ [] }
    {
        Tracer {
            alloc,
            points: Points::new(alloc),
            names: Names::new(alloc),
        }
    }

    // What is reported of a fork that was made by the time.
    fn forked(&mut self, time: u64, pid: u32, child: u32) -> Result<Option<Outcome>, AllocError> {
        self.names.inherit(child, time, pid)?;
        if !self.points.holds(pid) {
            self.points.release(child)?;
            return Ok(None);
        }
        self.points.hold(child);
        if !self.points.at_forks {
            return Ok(None);
        }
        Ok(Some(Outcome::Stopped(pid, Stop::Forked(child))))
    }

    // What is reported of a process that became the program with a path by the time.
    fn replaced(
        &mut self,
        time: u64,
        pid: u32,
        path: &[u8],
    ) -> Result<Option<Outcome>, AllocError> {
        self.names.set(pid, time, path)?;
        if !self.points.holds(pid) || !self.points.at_execs {
            return Ok(None);
        }
        Ok(Some(Outcome::Replaced(pid)))
    }

    // What is reported of a process that ended.
    fn ended(&self, pid: u32, status: u8) -> Option<Outcome> {
        if self.points.holds(pid) {
            Some(Outcome::Ended(pid, status))
        } else {
            None
        }
    }

    // What is reported of what a process did by the last event.
    fn did(&mut self, timeline: &Timeline, doing: &Doing) -> Result<Option<Outcome>, AllocError> {
        if !is_done(timeline.machine(), doing) {
            return Ok(None);
        }
        let time = timeline.at();
        match &doing.deed {
            Deed::Fork(child) => self.forked(time, doing.pid, *child),
            Deed::Exec(path) => self.replaced(time, doing.pid, path.as_slice()),
            Deed::End(status) | Deed::Fault(status) => Ok(self.ended(doing.pid, *status)),
        }
    }

    // Whether a process that is about to end stops before.
    fn ending(&self, doing: Option<&Doing>) -> Option<Outcome> {
        let doing = doing?;
        match doing.deed {
            Deed::End(status) if self.points.at_exits && self.points.holds(doing.pid) => {
                Some(Outcome::Ending(doing.pid, status))
            }
            _ => None,
        }
    }

    // Why the machine stops where it is.
    fn stopped(
        &self,
        timeline: &Timeline,
        reasons: &Reasons,
    ) -> Result<Option<Outcome>, AllocError> {
        if let Some((pid, stop)) = stop_here(timeline.machine(), reasons, &self.points) {
            return Ok(Some(Outcome::Stopped(pid, stop)));
        }
        let doing = deed_at(self.alloc, timeline)?;
        Ok(self.ending(doing.as_ref()))
    }

    // The event by which a process does something, after which the machine is looked at.
    fn pass(
        &mut self,
        timeline: &mut Timeline,
        reasons: &Reasons,
        doing: &Doing,
    ) -> Result<Option<Outcome>, AllocError>
        ensures { timeline.new ≡ record timeline.old { at = timeline.new.at } }
    {
        let next = timeline.at().saturating_add(1);
        let moved = timeline.forward(reasons, next);
        if moved == Moved::Ended {
            return Ok(Some(Outcome::Ends));
        }
        if let Some(outcome) = self.did(timeline, doing)? {
            return Ok(Some(outcome));
        }
        if moved == Moved::Met {
            return self.stopped(timeline, reasons);
        }
        Ok(None)
    }

    // On to the first time with a reason to stop.
    fn stretch(
        &mut self,
        timeline: &mut Timeline,
        reasons: &Reasons,
        until: u64,
    ) -> Result<Option<Outcome>, AllocError>
        ensures { timeline.new ≡ record timeline.old { at = timeline.new.at } }
    {
        match timeline.forward(reasons, until) {
            Moved::Met => self.stopped(timeline, reasons),
            Moved::Until => Ok(Some(Outcome::Reached)),
            Moved::Ended => Ok(Some(Outcome::Ends)),
        }
    }

    // One event by which a process does something, or all up to a reason to stop.
    fn leg(
        &mut self,
        timeline: &mut Timeline,
        reasons: &Reasons,
        until: u64,
    ) -> Result<Option<Outcome>, AllocError>
        ensures { timeline.new ≡ record timeline.old { at = timeline.new.at } }
    {
        if timeline.at() >= until {
            return Ok(Some(Outcome::Reached));
        }
        match deed_at(self.alloc, timeline)? {
            Some(doing) => self.pass(timeline, reasons, &doing),
            None => self.stretch(timeline, reasons, until),
        }
    }

    /// Forward, to the first time at which a process that gdb holds stops, forks, becomes another program or ends.
    /// An error says that the host has no memory: then the machine is at another time of the same events.
    pub fn go_on(&mut self, timeline: &mut Timeline, motion: Motion) -> Result<Outcome, AllocError>
        ensures { timeline.new ≡ record timeline.old { at = timeline.new.at } }
    {
        let reasons = reasons_on(
            self.alloc,
            timeline.machine(),
            &self.points,
            motion.stepping,
        )?;
        for _pass in 0..MOST_PASSES {
            if let Some(outcome) = self.leg(timeline, &reasons, motion.until)? {
                return Ok(outcome);
            }
        }
        Ok(Outcome::Reached)
    }

    // Back to the last time with a reason to stop; `None` where nothing stops there.
    fn leg_back(
        &self,
        timeline: &mut Timeline,
        reasons: &Reasons,
    ) -> Result<Option<Outcome>, AllocError>
        ensures { timeline.new ≡ record timeline.old { at = timeline.new.at } }
    {
        let Ok(moved) = timeline.back(reasons) else {
            return Err(AllocError);
        };
        if moved != Moved::Met {
            return Ok(Some(Outcome::Begins));
        }
        match stop_here(timeline.machine(), reasons, &self.points) {
            Some((pid, stop)) => Ok(Some(Outcome::Stopped(pid, stop))),
            None => Ok(None),
        }
    }

    // Back to the last time at which a process that gdb holds stops, or to the start.
    fn find_back(
        &self,
        timeline: &mut Timeline,
        stepping: Option<Stepping>,
    ) -> Result<Outcome, AllocError>
        ensures { timeline.new ≡ record timeline.old { at = timeline.new.at } }
    {
        let reasons = reasons_back(self.alloc, timeline.machine(), &self.points, stepping)?;
        for _pass in 0..MOST_PASSES {
            if let Some(outcome) = self.leg_back(timeline, &reasons)? {
                return Ok(outcome);
            }
        }
        Ok(Outcome::Begins)
    }

    /// Back, to the last time at which a process that gdb holds stops, and no further than to a time.
    /// An error says that the host has no memory: then the machine is at another time of the same events.
    pub fn go_back(&self, timeline: &mut Timeline, motion: Motion) -> Result<Outcome, AllocError>
        ensures { timeline.new ≡ record timeline.old { at = timeline.new.at } }
    {
        let least = motion.until.min(timeline.at());
        let outcome = self.find_back(timeline, motion.stepping)?;
        if outcome != Outcome::Begins && timeline.at() >= least {
            return Ok(outcome);
        }
        if least == 0 {
            go_to_start(timeline)?;
            return Ok(Outcome::Begins);
        }
        if timeline.seek(least.min(timeline.count())) {
            Ok(Outcome::Reached)
        } else {
            Err(AllocError)
        }
    }
}
