//! A list of events, kept as stretches of equal ones: a billion steps take as much memory as one.
#![tactic(auto)]

ghost use Rattle.std.specs.Prelude.{◌≡◌, ◌++◌, ◌<◌, ◌≤◌, ℕ, [], IfNone, IfSome, OnErr, OnOk, length, replicate};
ghost use Rattle.stretches.specs.Stretches.{IsAhead, IsCounted, IsIn, spelled};

use std::alloc::Global;
use std::marker::Model;
use thiserror::Error;
use unixmodel::event::Event;

/// An event that comes n times, and how many events there are up to the last of them.
#[derive(Clone, Copy)]
struct Stretch {
    event: Event,
    times: u32,
    end: u64,
}

/// There is no room for more events: the host has no memory, or they would be 2^64.
#[derive(Clone, Copy, Debug, PartialEq, Eq, Error)]
#[error("no room for more events")]
pub struct NoRoom;

// The stretch that the event after n others is in.
fn find(stretches: &[Stretch], at: u64) -> usize
    requires more { at < length (spelled stretches.now) }
    requires counted { (i : ℕ) → i < length stretches.now → IsCounted stretches.now i }
    ensures { IsIn stretches.now at result }
{
    let mut low = 0;
    let mut high = stretches.len();
    while low < high {
        let middle = low + (high - low) / 2;
        if stretches[middle].end <= at {
            low = middle + 1;
        } else {
            high = middle;
        }
    }
    low
}

/// A list of events.
#[derive(Drop)]
pub struct Events {
    stretches: Vec<Stretch>,
    count: u64,
}

impl Model for Events {
    ghost use Rattle.std.specs.Prelude.{List};
    ghost use Rattle.unixmodel.specs.declared.event.Event.{Event};
    ghost use Rattle.stretches.specs.Stretches.{AreCounted, spelled};

    ghost Value = { List Event };

    ghost view = { λ e. spelled e.stretches.items };

    ghost invariant = { λ e. AreCounted e.stretches.items e.count };
}

impl Events {
    /// No events.
    pub fn new(alloc: Global) -> Events
        ensures { result ≡ [] }
    {
        Events {
            stretches: Vec::new(alloc),
            count: 0,
        }
    }

    /// How many there are.
    pub fn count(&self) -> u64
        ensures { result ≡ length self.now }
    {
        self.count
    }

    /// Puts an event at the end, n times. An error changes nothing.
    pub fn push(&mut self, event: Event, times: u32) -> Result<(), NoRoom>
        ensures ok { OnOk result (self.new ≡ self.old ++ replicate times event) }
        ensures err { OnErr result (self.new ≡ self.old) }
    {
        let Some(end) = self.count.checked_add(u64::from(times)) else {
            return Err(NoRoom);
        };
        let stretch = Stretch { event, times, end };
        if self.stretches.push(stretch).is_err() {
            return Err(NoRoom);
        }
        self.count = end;
        Ok(())
    }

    /// The event after n others, and how often it comes from there on; `None` where there are no more.
    pub fn ahead(&self, at: u64) -> Option<(Event, u32)>
        ensures some { IfSome result (IsAhead self.now at) }
        ensures none { IfNone result (length self.now ≤ at) }
    {
        if at >= self.count {
            return None;
        }
        let stretch = self.stretches[find(&self.stretches, at)];
        Some((stretch.event, (stretch.end - at) as u32))
    }
}
