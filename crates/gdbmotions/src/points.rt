//! Where gdb wants processes to stop.
ghost use Rattle.std.specs.Prelude.{◌≡◌, ◌++◌, ◌∷◌, [], OnOk, if◌then◌else◌};
ghost use Rattle.gdbmotions.specs.Points.{holds, is_same_access, is_same_break, is_same_watch, without, without_access};
ghost use Rattle.gdbmotions.specs.Points.{without_break, without_watch};

use gdbstate::{AccessWatch, Break};
use std::alloc::{AllocError, Global};

/// The most breaks and watches of each kind, and the most bytes that are watched by one.
pub const MOST_POINTS: usize = 1024;

/// A break, with the codes of its conditions. It stops the process where one of them holds, or where there are none.
#[derive(Drop)]
pub struct Conditional {
    pub place: Break,
    pub conditions: Vec<Vec<u8>>,
}

/// Bytes of a process that are watched for changes.
#[derive(Clone, Copy)]
pub struct Watch {
    pub pid: u32,
    pub address: u64,
    pub count: u64,
}

/// Where gdb wants processes to stop.
#[derive(Drop)]
pub struct Points {
    pub breaks: Vec<Conditional>,
    pub watches: Vec<Watch>,
    /// Bytes before whose loads, and stores, a process stops.
    pub accesses: Vec<AccessWatch>,
    /// The processes that gdb has let go: they run on, and stop no more.
    pub released: Vec<u32>,
    /// The numbers of calls before which a process stops.
    pub calls: Vec<u64>,
    /// Whether a process stops before it ends.
    pub at_exits: bool,
    /// Whether a process stops after it forked.
    pub at_forks: bool,
    /// Whether a process stops after it became another program.
    pub at_execs: bool,
}

// Whether two breaks are of one process, at one address.
fn is_same_break(one: Break, other: Break) -> bool
    ensures { result ≡ is_same_break one other }
{
    one.pid == other.pid && one.address == other.address
}

// Whether two watches are of the same bytes.
fn is_same_watch(one: Watch, other: Watch) -> bool
    ensures { result ≡ is_same_watch one other }
{
    one.pid == other.pid && one.address == other.address && one.count == other.count
}

// Whether two watches are of the same loads or stores.
fn is_same_access(one: AccessWatch, other: AccessWatch) -> bool
    ensures { result ≡ is_same_access one other }
{
    one.pid == other.pid
        && one.address == other.address
        && one.count == other.count
        && one.stores == other.stores
}

// Takes the breaks of a process at an address away.
fn drop_break(breaks: &mut Vec<Conditional>, place: Break)
    ensures { breaks.new.items ≡ without_break place breaks.old.items }
{
    breaks.retain(|one| !is_same_break(one.place, place));
}

// Takes the watches of some bytes away.
fn drop_watch(watches: &mut Vec<Watch>, watch: Watch)
    ensures { watches.new.items ≡ without_watch watch watches.old.items }
{
    watches.retain(|one| !is_same_watch(*one, watch));
}

// Takes the watches of some loads or stores away.
fn drop_access(accesses: &mut Vec<AccessWatch>, watch: AccessWatch)
    ensures { accesses.new.items ≡ without_access watch accesses.old.items }
{
    accesses.retain(|one| !is_same_access(*one, watch));
}

// Takes a pid away.
fn drop_pid(pids: &mut Vec<u32>, pid: u32)
    ensures { pids.new.items ≡ without pid pids.old.items }
{
    pids.retain(|one| *one != pid);
}

impl Points {
    /// No breaks and no watches, and no process is let go; a process stops before it ends.
    pub fn new(alloc: Global) -> Points
        ensures breaks { result.breaks.items ≡ [] }
        ensures watches { result.watches.items ≡ [] }
        ensures accesses { result.accesses.items ≡ [] }
        ensures released { result.released.items ≡ [] }
        ensures calls { result.calls.items ≡ [] }
    {
        Points {
            breaks: Vec::new(alloc),
            watches: Vec::new(alloc),
            accesses: Vec::new(alloc),
            released: Vec::new(alloc),
            calls: Vec::new(alloc),
            at_exits: true,
            at_forks: false,
            at_execs: false,
        }
    }

    /// Takes a break away.
    pub fn clear_break(&mut self, place: Break)
        ensures { self.new.breaks.items ≡ without_break place self.old.breaks.items }
    {
        drop_break(&mut self.breaks, place);
    }

    /// Sets a break, in place of the one that is there. An error sets none.
    pub fn set_break(&mut self, one: Conditional) -> Result<(), AllocError>
        ensures { OnOk result
            (self.new.breaks.items ≡ without_break one.place self.old.breaks.items ++ one ∷ []) }
    {
        drop_break(&mut self.breaks, one.place);
        if self.breaks.len() >= MOST_POINTS {
            return Err(AllocError);
        }
        self.breaks.push(one)?;
        Ok(())
    }

    /// Takes a watch away.
    pub fn clear_watch(&mut self, watch: Watch)
        ensures { self.new.watches.items ≡ without_watch watch self.old.watches.items }
    {
        drop_watch(&mut self.watches, watch);
    }

    /// Sets a watch. An error sets none.
    pub fn set_watch(&mut self, watch: Watch) -> Result<(), AllocError>
        ensures { OnOk result
            (self.new.watches.items ≡ without_watch watch self.old.watches.items ++ watch ∷ []) }
    {
        drop_watch(&mut self.watches, watch);
        if self.watches.len() >= MOST_POINTS {
            return Err(AllocError);
        }
        self.watches.push(watch)?;
        Ok(())
    }

    /// Takes a watch of loads or stores away.
    pub fn clear_access(&mut self, watch: AccessWatch)
        ensures { self.new.accesses.items ≡ without_access watch self.old.accesses.items }
    {
        drop_access(&mut self.accesses, watch);
    }

    /// Sets a watch of loads or stores. An error sets none.
    pub fn set_access(&mut self, watch: AccessWatch) -> Result<(), AllocError>
        ensures { OnOk result
            (self.new.accesses.items ≡ without_access watch self.old.accesses.items ++ watch ∷ []) }
    {
        drop_access(&mut self.accesses, watch);
        if self.accesses.len() >= MOST_POINTS {
            return Err(AllocError);
        }
        self.accesses.push(watch)?;
        Ok(())
    }

    /// Whether gdb holds a process.
    pub fn holds(&self, pid: u32) -> bool
        ensures { result ≡ holds self.now.released.items pid }
    {
        !self.released.contains(&pid)
    }

    /// Lets a process go.
    pub fn release(&mut self, pid: u32) -> Result<(), AllocError>
        ensures { OnOk result (self.new.released.items ≡ (if holds self.old.released.items pid
            then self.old.released.items ++ pid ∷ [] else self.old.released.items)) }
    {
        if self.holds(pid) {
            self.released.push(pid)?;
        }
        Ok(())
    }

    /// Holds a process.
    pub fn hold(&mut self, pid: u32)
        ensures { self.new.released.items ≡ without pid self.old.released.items }
    {
        drop_pid(&mut self.released, pid);
    }

    /// The conditions of the break of a process at an address; `None` where there is no break.
    pub(crate) fn conditions_of(&self, place: Break) -> Option<&[Vec<u8>]> {
        let one = self
            .breaks
            .iter()
            .find(|one| is_same_break(one.place, place))?;
        Some(one.conditions.as_slice())
    }
}
