//! Copies of a machine, from which motions back begin.
ghost use Rattle.std.specs.Prelude.{◌≡◌, ◌<◌, ◌≤◌, All, HoldsAt, IfOk, IfSome, List, length};
ghost use Rattle.std.specs.Bool.{OnFalse, OnTrue};
ghost use Rattle.timeline.specs.Inside.{IsAt, IsCopy};
ghost use Rattle.unixmodel.specs.State.{State};
ghost use Rattle.unixmodel.specs.declared.event.Event.{Event};

use crate::wanted::Debuggee;
use machine::NoMemory;
use std::alloc::Global;
use sv39::{Plain, Recent};

/// A machine at a time.
#[derive(Drop)]
pub(crate) struct Copied {
    pub(crate) at: u64,
    pub(crate) machine: Debuggee,
}

/// A copy of a machine.
pub(crate) fn copy(alloc: Global, machine: &Debuggee) -> Result<Debuggee, NoMemory>
    ensures { IfOk result (λ copy. copy ≡ machine.now) }
{
    machine.copy(alloc, Recent::new(Plain::new()))
}

/// Makes a machine a copy of another, in the memory that it has where that is as large. False where the host has no
/// memory: then nothing changed.
pub(crate) fn become_copy(alloc: Global, machine: &mut Debuggee, source: &Debuggee) -> bool
    ensures copied { OnTrue result (machine.new ≡ source.now) }
    ensures same { OnFalse result (machine.new ≡ machine.old) }
{
    if machine.copy_from(source) {
        return true;
    }
    let Ok(copied) = copy(alloc, source) else {
        return false;
    };
    *machine = copied;
    true
}

/// The last of the copies that is not after a time.
pub(crate) fn last_copy(copies: &[Copied], to: u64) -> Option<usize>
    ensures within { IfSome result (λ i. i < length copies.now) }
    ensures early { IfSome result (HoldsAt (λ c. c.at ≤ to) copies.now) }
{
    let mut found = None;
    for (index, copy) in copies.iter().enumerate() {
        if copy.at <= to {
            found = Some(index);
        }
    }
    found
}

// The last machine among one at the start and copies that is not after a time, and its own time.
fn last_of<'a>(begin: &'a Debuggee, copies: &'a [Copied], to: u64) -> (u64, &'a Debuggee)
    ensures early { result.0 ≤ to }
    ensures at { (start : State) → (events : List Event) → IsAt start events 0 begin.now
        → All (IsCopy start events) copies.now → IsAt start events result.0 result.1.now }
{
    match last_copy(copies, to) {
        Some(index) => (copies[index].at, &copies[index].machine),
        None => (0, begin),
    }
}

/// The last machine among one at the start, copies, and one more, that is not after a time, and its own time.
pub(crate) fn last_before<'a>(
    begin: &'a Debuggee,
    copies: &'a [Copied],
    near: &'a Copied,
    to: u64,
) -> (u64, &'a Debuggee)
    ensures early { result.0 ≤ to }
    ensures at { (start : State) → (events : List Event) → IsAt start events 0 begin.now
        → All (IsCopy start events) copies.now → IsCopy start events near.now
        → IsAt start events result.0 result.1.now }
{
    let (at, machine) = last_of(begin, copies, to);
    if at <= near.at && near.at <= to {
        return (near.at, &near.machine);
    }
    (at, machine)
}
