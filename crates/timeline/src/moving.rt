//! Motions of a machine to where there is a reason to stop.
ghost use Rattle.std.specs.Prelude.{◌≡◌, ◌+◌, ◌<◌, ◌≤◌, IfNone, IfOk, IfSome, false, is_some, length, true};
ghost use Rattle.calls.specs.Computing.{computes};
ghost use Rattle.timeline.specs.Line.{HitIn, IsEnd, IsFirst, IsLast, IsStride, Passes, StopsOnlyAt, state_at};
ghost use Rattle.stretches.specs.Stretches.{IsAhead};
ghost use Rattle.unixmodel.specs.declared.event.Event.TheVariants.{Step};

use crate::copies::last_before;
use crate::giving::give;
use crate::timeline::Timeline;
use crate::wanted::Wanted;
use machine::NoMemory;
use unixmodel::event::Event;

/// How many events before the present are looked at first, on the way back.
const NEAR: u64 = 4096;

/// Why a motion ended.
#[derive(Clone, Copy, PartialEq, Eq, Debug)]
pub enum Moved {
    /// There is a reason to stop.
    Met,
    /// At the time up to which it was to go.
    Until,
    /// At the end of the line: the start, the last event, or the one before which the machine halts.
    Ended,
}

impl Timeline {
    // One event. Whether the machine has halted.
    fn go_by_one(&mut self, event: Event) -> bool
        requires { IsAhead self.old.events self.old.at (event, 1) }
        ensures same { self.new ≡ record self.old { at = self.old.at + 1 } }
        ensures over { result ≡ true → is_some (state_at self.new.start self.new.events self.new.at).halted ≡ true }
    {
        let _total = self.events.count();
        self.at += 1;
        !give(&mut self.machine, event, &mut self.printed)
    }

    // Whether there is a reason to stop here.
    fn meets<W: Wanted>(&self, wanted: &W) -> bool
        ensures { result ≡ W.stops wanted.now (state_at self.now.start self.now.events self.now.at) }
    {
        wanted.is_met(self.machine())
    }

    // The next instruction of the process that runs, if it is done.
    fn compute_one(&mut self) -> bool
        requires { IsAhead self.old.events self.old.at (Step, 1) }
        ensures done { result ≡ true → self.new ≡ record self.old { at = self.old.at + 1 } }
        ensures computes { result ≡ true → computes (state_at self.old.start self.old.events self.old.at) ≡ true }
        ensures same { result ≡ false → self.new ≡ self.old }
    {
        let _total = self.events.count();
        if self.machine.compute(1, &[]) == 0 {
            return false;
        }
        self.at += 1;
        true
    }

    // Whether there surely is no reason to stop here, if the next instruction is done.
    fn passes<W: Wanted>(&self, wanted: &W) -> bool
        ensures { result ≡ true → computes (state_at self.now.start self.now.events self.now.at) ≡ true →
            Passes (W.stops wanted.now) (state_at self.now.start self.now.events self.now.at) }
    {
        wanted.passes(self.machine())
    }

    // Does instructions of an event that comes n times from here on, one by one, up to where there may be a reason to
    // stop.
    fn creep<W: Wanted>(&mut self, times: u32, wanted: &W)
        requires { IsAhead self.old.events self.old.at (Step, times) }
        ensures { IsStride (W.stops wanted.now) self.old self.new times }
    {
        for _instruction in 0..times {
            if !self.compute_one() {
                return;
            }
            if !self.passes(wanted) {
                return;
            }
        }
    }

    // Does instructions of an event that comes n times from here on, up to where the process that runs is at one of
    // some addresses.
    fn run_to<W: Wanted>(&mut self, times: u32, wanted: &W, addresses: &[u64])
        requires ahead { IsAhead self.old.events self.old.at (Step, times) }
        requires only { StopsOnlyAt (W.stops wanted.now) (state_at self.old.start self.old.events self.old.at)
            addresses.now }
        ensures { IsStride (W.stops wanted.now) self.old self.new times }
    {
        let _total = self.events.count();
        self.at += u64::from(self.machine.compute(times, addresses));
    }

    // Does instructions of an event that comes n times from here on, up to where there may be a reason to stop.
    fn compute<W: Wanted>(&mut self, times: u32, wanted: &W)
        requires { IsAhead self.old.events self.old.at (Step, times) }
        ensures { IsStride (W.stops wanted.now) self.old self.new times }
    {
        match wanted.addresses(self.machine()) {
            Some(addresses) => self.run_to(times, wanted, addresses),
            None => self.creep(times, wanted),
        }
    }

    // Some of an event that comes n times from here on: only the last of them may come to a reason to stop.
    // Whether the machine has halted.
    fn stride<W: Wanted>(&mut self, event: Event, times: u32, wanted: &W) -> bool
        requires { IsAhead self.old.events self.old.at (event, times) }
        ensures goes { IsStride (W.stops wanted.now) self.old self.new times }
        ensures some { self.old.at < self.new.at }
        ensures over { result ≡ true → is_some (state_at self.new.start self.new.events self.new.at).halted ≡ true }
    {
        let before = self.at();
        if let Event::Step = event {
            self.compute(times, wanted);
        }
        if self.at() > before {
            return false;
        }
        self.go_by_one(event)
    }

    // How many events there are at most up to where the next copy may be due.
    fn room(&self) -> u64
        ensures { 0 < result }
    {
        let due = self.due();
        if self.at < due {
            due - self.at
        } else {
            self.every.max(1)
        }
    }

    // How many of an event that comes n times are gone by at once: no further than to a time, to where the next copy
    // may be due, and to where nobody has seen what is printed.
    fn stretch(&mut self, times: u32, until: u64) -> u32
        requires some { 0 < times }
        requires before { self.old.at < until }
        ensures some { 0 < result }
        ensures within { result ≤ times }
        ensures until { self.old.at + result ≤ until }
        ensures same { self.new ≡ self.old }
    {
        let is_seen = self.at < self.shown;
        self.printed.set_open(!is_seen);
        let most = u64::from(times).min(until - self.at).min(self.room());
        let most = if is_seen {
            most.min(self.shown - self.at)
        } else {
            most
        };
        most as u32
    }

    // The event that is gone by at once from here on, no further than to a time, and how often it comes.
    // `None` where there are no more.
    fn next(&mut self, until: u64) -> Option<(Event, u32)>
        requires { self.old.at < until }
        ensures some { IfSome result (IsAhead self.old.events self.old.at) }
        ensures until { IfSome result (λ r. self.old.at + r.1 ≤ until) }
        ensures none { IfNone result (self.old.at ≡ length self.old.events) }
        ensures same { self.new ≡ self.old }
    {
        self.is_within();
        let Some((event, times)) = self.ahead(self.at()) else {
            return None;
        };
        Some((event, self.stretch(times, until)))
    }

    // Goes back before the event by which the machine halted, if the host has memory for that.
    fn step_back(&mut self)
        requires over { is_some (state_at self.old.start self.old.events self.old.at).halted ≡ true }
        requires some { 0 < self.old.at }
        ensures same { self.new ≡ record self.old { at = self.new.at } }
        ensures end { IsEnd self.new.start self.new.events self.new.at }
        ensures one { self.old.at ≤ self.new.at + 1 }
        ensures earlier { self.new.at ≤ self.old.at }
    {
        self.is_within();
        let before = self.at() - 1;
        let _is_done = self.seek(before);
    }

    /// Forward, to the first time with a reason to stop, and no further than to a time. It stays before an event by
    /// which the machine would halt.
    pub fn forward<W: Wanted>(&mut self, wanted: &W, until: u64) -> Moved
        ensures same { self.new ≡ record self.old { at = self.new.at } }
        ensures first { IsFirst (W.stops wanted.now) self.old until self.new.at result }
    {
        while self.at() < until {
            let Some((event, times)) = self.next(until) else {
                return Moved::Ended;
            };
            if self.stride(event, times, wanted) {
                self.step_back();
                return Moved::Ended;
            }
            self.keep();
            if self.meets(wanted) {
                return Moved::Met;
            }
        }
        Moved::Until
    }

    // From here on to before a time, the last time with a reason to stop.
    fn last_hit<W: Wanted>(&mut self, wanted: &W, end: u64) -> Result<Option<u64>, NoMemory>
        requires { self.old.at < end }
        ensures same { self.new ≡ record self.old { at = self.new.at } }
        ensures hit { IfOk result (HitIn (W.stops wanted.now) self.old end) }
    {
        let mut hit = None;
        if self.meets(wanted) {
            hit = Some(self.at());
        }
        let last = end - 1;
        while self.at() < last {
            match self.forward(wanted, last) {
                Moved::Met => hit = Some(self.at()),
                Moved::Until => {}
                Moved::Ended => return Err(NoMemory),
            }
        }
        Ok(hit)
    }

    // A time before another, from which on the events up to it are looked at.
    fn window(&self, end: u64, width: u64) -> u64
        requires { 0 < end }
        ensures { result < end }
    {
        let least = end.saturating_sub(width.max(1));
        let (at, _) = last_before(&self.begin, &self.copies, &self.near, end - 1);
        least.max(at)
    }

    /// Back, to the last time before with a reason to stop, or to the start. `NoMemory` where the host has none for a
    /// copy of the machine: then it is at another time of the same events.
    pub fn back<W: Wanted>(&mut self, wanted: &W) -> Result<Moved, NoMemory>
        ensures same { self.new ≡ record self.old { at = self.new.at } }
        ensures last { IfOk result (IsLast (W.stops wanted.now) self.old self.new.at) }
    {
        self.is_within();
        let mut end = self.at();
        let mut width = NEAR;
        while end > 0 {
            let from = self.window(end, width);
            if !self.seek(from) {
                return Err(NoMemory);
            }
            self.keep_near();
            if let Some(hit) = self.last_hit(wanted, end)? {
                return if self.seek(hit) {
                    Ok(Moved::Met)
                } else {
                    Err(NoMemory)
                };
            }
            end = from;
            width = u64::MAX;
        }
        if self.seek(0) {
            Ok(Moved::Ended)
        } else {
            Err(NoMemory)
        }
    }

    /// Back to the start. False where the host has no memory: then nothing changed.
    pub fn restart(&mut self) -> bool
        ensures ok { result ≡ true → self.new ≡ record self.old { at = 0 } }
        ensures err { result ≡ false → self.new ≡ self.old }
    {
        self.seek(0)
    }
}
