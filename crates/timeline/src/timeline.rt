//! A machine at one of its times.
ghost use Rattle.std.specs.Prelude.{◌≡◌, ◌≤◌, ◌++◌};
ghost use Rattle.std.specs.Prelude.{IfNone, IfOk, IfSome, None, OnErr, OnOk, false, length, replicate, true};
ghost use Rattle.stretches.specs.Stretches.{IsAhead};
ghost use Rattle.timeline.specs.Line.{state_at};

use crate::copies::{Copied, become_copy, copy, last_before};
use crate::giving::give_some;
use crate::printed::Printed;
use crate::wanted::Debuggee;
use machine::NoMemory;
use std::alloc::Global;
use std::marker::Model;
use stretches::{Events, NoRoom};
use unixmodel::event::Event;

/// How many events there are between two copies, at first. A copy takes as long as a million events.
const EVERY: u64 = 1 << 23;

/// A machine, its events, and the time that it is at.
#[derive(Drop)]
pub struct Timeline {
    pub(crate) alloc: Global,
    pub(crate) machine: Debuggee,
    pub(crate) events: Events,
    pub(crate) at: u64,
    pub(crate) begin: Debuggee,
    pub(crate) near: Copied,
    pub(crate) copies: Vec<Copied>,
    pub(crate) most_copies: usize,
    pub(crate) every: u64,
    pub(crate) shown: u64,
    pub(crate) printed: Printed,
}

impl Model for Timeline {
    ghost use Rattle.timeline.specs.Inside.{IsTimeline, line_of};
    ghost use Rattle.timeline.specs.Line.{Line};

    ghost Value = { Line };

    ghost view = { line_of };

    ghost invariant = { IsTimeline };
}

impl Timeline {
    ghost use Rattle.timeline.specs.Inside.{IsAt};

    /// A machine at the start of some events, and at most n copies of it for motions back. `NoMemory` where the host
    /// has none for the first of them.
    pub fn new(
        alloc: Global,
        machine: Debuggee,
        events: Events,
        most_copies: usize,
    ) -> Result<Timeline, NoMemory>
        requires sound { machine.failed ≡ false }
        requires goes { machine.state.halted ≡ None }
        ensures { IfOk result (λ t. t ≡ record { start = machine.state; events = events; at = 0 }) }
    {
        let begin = copy(alloc, &machine)?;
        let second = copy(alloc, &machine)?;
        Ok(Timeline {
            alloc,
            machine,
            events,
            at: 0,
            begin,
            near: Copied {
                at: 0,
                machine: second,
            },
            copies: Vec::new(alloc),
            most_copies,
            every: EVERY,
            shown: 0,
            printed: Printed::new(alloc),
        })
    }

    /// The time.
    pub fn at(&self) -> u64
        ensures { result ≡ self.now.at }
    {
        self.at
    }

    // No time is after the last event.
    pub(crate) fn is_within(&self)
        ensures { self.now.at ≤ length self.now.events }
    {
        let _ = &self.at;
    }

    /// How many events there are.
    pub fn count(&self) -> u64
        ensures { result ≡ length self.now.events }
    {
        self.events.count()
    }

    /// The machine.
    pub fn machine(&self) -> &Debuggee
        ensures state { result.now.state ≡ state_at self.now.start self.now.events self.now.at }
        ensures sound { result.now.failed ≡ false }
    {
        &self.machine
    }

    /// The event after n others, and how often it comes from there on.
    pub fn ahead(&self, at: u64) -> Option<(Event, u32)>
        ensures some { IfSome result (IsAhead self.now.events at) }
        ensures none { IfNone result (length self.now.events ≤ at) }
    {
        self.events.ahead(at)
    }

    /// Puts an event after the last, n times. An error changes nothing.
    pub fn push(&mut self, event: Event, times: u32) -> Result<(), NoRoom>
        ensures ok { OnOk result (self.new ≡ record self.old { events = self.old.events ++ replicate times event }) }
        ensures err { OnErr result (self.new ≡ self.old) }
    {
        self.events.push(event, times)
    }

    /// Takes what was printed by the events that were the first to come to their times.
    pub fn take_printed(&mut self) -> Vec<u8>
        ensures { self.new ≡ self.old }
    {
        self.printed.take()
    }

    // Goes on to a time, and looks at none before.
    fn replay(&mut self, to: u64)
        requires within { to ≤ length self.old.events }
        requires later { self.old.at ≤ to }
        ensures { self.new ≡ record self.old { at = to } }
    {
        self.printed.set_open(false);
        while self.at < to {
            let Some((event, times)) = self.events.ahead(self.at) else {
                return;
            };
            let most = u64::from(times).min(to - self.at) as u32;
            self.at += u64::from(give_some(&mut self.machine, event, most, &mut self.printed));
        }
    }

    // Goes to a time from which on the events up to another can be done. False where the host has no memory: then
    // nothing changed.
    fn rewind(&mut self, to: u64) -> bool
        ensures early { result ≡ true → self.new.at ≤ to }
        ensures ok { result ≡ true → self.new ≡ record self.old { at = self.new.at } }
        ensures err { result ≡ false → self.new ≡ self.old }
    {
        let (at, machine) = last_before(&self.begin, &self.copies, &self.near, to);
        if !become_copy(self.alloc, &mut self.machine, machine) {
            return false;
        }
        self.at = at;
        true
    }

    /// Goes to a time. False where the host has no memory: then nothing changed.
    pub fn seek(&mut self, to: u64) -> bool
        requires { to ≤ length self.old.events }
        ensures ok { result ≡ true → self.new ≡ record self.old { at = to } }
        ensures err { result ≡ false → self.new ≡ self.old }
    {
        if to < self.at && !self.rewind(to) {
            return false;
        }
        self.replay(to);
        true
    }

    // Gives up each second copy.
    fn thin(&mut self)
        ensures { self.new ≡ self.old }
    {
        self.every = self.every.saturating_mul(2);
        let mut index = 0;
        while index < self.copies.len() {
            let _copy = self.copies.remove(index);
            index += 1;
        }
    }

    // When the next copy is due.
    pub(crate) fn due(&self) -> u64 {
        match self.copies.last() {
            Some(copy) => copy.at.saturating_add(self.every),
            None => self.every,
        }
    }

    /// Keeps that the machine came to this time, and a copy where one is due, if the host has memory for it.
    pub(crate) fn keep(&mut self)
        ensures { self.new ≡ self.old }
    {
        self.shown = self.shown.max(self.at);
        if self.at < self.due() || self.most_copies == 0 {
            return;
        }
        if self.copies.len() >= self.most_copies {
            self.thin();
        }
        self.keep_copy();
    }

    /// Keeps a copy of the machine for motions back that begin a little later, in place of the last one.
    pub(crate) fn keep_near(&mut self)
        ensures { self.new ≡ self.old }
    {
        if become_copy(self.alloc, &mut self.near.machine, &self.machine) {
            self.near.at = self.at;
        }
    }

    // Keeps a copy of the machine, if the host has memory for one.
    fn keep_copy(&mut self)
        ensures { self.new ≡ self.old }
    {
        let Ok(machine) = copy(self.alloc, &self.machine) else {
            return;
        };
        let copied = Copied {
            at: self.at,
            machine,
        };
        let _ = self.copies.push(copied);
    }
}
