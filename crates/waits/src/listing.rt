//! Who waits for what, in words.
ghost use Rattle.std.specs.Prelude.{◌++◌, ◌<◌, ◌≡◌, false, length, take, true};
ghost use Rattle.waits.specs.Pids.{listed};
ghost use Rattle.waits.specs.Waits.{waiter_of, waiters};

use crate::awaited::{Wait, wait_of};
use arrayvec::ArrayVec;
use blockdev::BlockDev;
use machine::Machine;
use std::fmt;
use sv39::Translate;
use unixmodel::limits::PROCESSES;

/// A process that waits, and for what.
#[derive(Clone, Copy, Default)]
pub struct Waiter {
    pub pid: u32,
    pub wait: Wait,
}

impl fmt::Display for Waiter {
    fn fmt<W: fmt::Write>(&self, f: &mut fmt::Formatter<W>) -> fmt::Result {
        let pid = self.pid;
        match self.wait {
            Wait::Child => write!(f, "pid {pid} waits for a child"),
            Wait::Console => write!(f, "pid {pid} reads the console"),
            Wait::Bytes(pipe) => write!(f, "pid {pid} reads pipe {pipe}"),
            Wait::Room(pipe) => write!(f, "pid {pid} writes to pipe {pipe}, which is full"),
            Wait::Tick(tick) => write!(f, "pid {pid} sleeps until tick {tick}"),
        }
    }
}

/// Processes that wait, in the order of their pids.
#[derive(Drop)]
pub struct Waiters {
    pub list: ArrayVec<Waiter, PROCESSES>,
}

impl fmt::Display for Waiters {
    fn fmt<W: fmt::Write>(&self, f: &mut fmt::Formatter<W>) -> fmt::Result {
        for (index, waiter) in self.list.as_slice().iter().enumerate() {
            if index > 0 {
                f.write_str("; ")?;
            }
            waiter.fmt(f)?;
        }
        Ok(())
    }
}

// The process with a pid, and what it waits for; `None` where it doesn't.
fn waiter_of<D: BlockDev, T: Translate>(machine: &Machine<D, T>, pid: u32) -> Option<Waiter>
    ensures { result ≡ waiter_of machine.now.state pid }
{
    let wait = wait_of(machine, pid)?;
    Some(Waiter { pid, wait })
}

// Puts one at the end, if there is one, and returns whether there was room for it.
fn put(list: &mut ArrayVec<Waiter, PROCESSES>, found: Option<Waiter>) -> bool
    ensures put { result ≡ true → list.new.items ≡ list.old.items ++ listed found }
    ensures kept { result ≡ false → list.new.items ≡ list.old.items }
    ensures full { result ≡ false → length list.old.items ≡ 64 }
{
    match found {
        Some(waiter) => list.try_push(waiter).is_ok(),
        None => true,
    }
}

/// The processes of a machine that wait, in the order of their pids, 64 at most.
pub fn who_waits<D: BlockDev, T: Translate>(machine: &Machine<D, T>) -> Waiters
    ensures first { result.list.items ≡ take (length result.list.items) (waiters machine.now.state) }
    ensures all { length result.list.items < 64 → result.list.items ≡ waiters machine.now.state }
{
    let mut list = ArrayVec::new();
    let mut last = 0;
    while let Some(pid) = machine.next_pid(last) {
        if !put(&mut list, waiter_of(machine, pid)) {
            return Waiters { list };
        }
        last = pid;
    }
    Waiters { list }
}
