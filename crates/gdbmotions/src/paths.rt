//! Which programs processes run, at each time: the machine keeps no names.
ghost use Rattle.std.specs.Prelude.{[], ◌≡◌, cond};
ghost use Rattle.gdbmotions.specs.Paths.{is_known, path_known};

use std::alloc::{AllocError, Global};

/// The program that process 1 runs first.
pub const FIRST_PROGRAM: &[u8] = b"/init";

/// From a time on, a process runs the program with a path.
#[derive(Drop)]
struct Named {
    time: u64,
    pid: u32,
    path: Vec<u8>,
}

/// The programs of processes.
#[derive(Drop)]
pub struct Names {
    alloc: Global,
    entries: Vec<Named>,
}

// Whether an entry is of a process, and not after a time.
fn is_known(entry: &Named, pid: u32, time: u64) -> bool
    ensures { result ≡ is_known entry.now pid time }
{
    entry.pid == pid && entry.time <= time
}

// The path of an entry that is of a process and not after a time; else the other path.
fn known<'a>(entry: &'a Named, pid: u32, time: u64, path: &'a [u8]) -> &'a [u8]
    ensures { result.now ≡ cond (is_known entry.now pid time) entry.now.path.items path.now }
{
    if is_known(entry, pid, time) {
        entry.path.as_slice()
    } else {
        path
    }
}

impl Names {
    /// No program but the first.
    pub fn new(alloc: Global) -> Names
        ensures { result.entries.items ≡ [] }
    {
        Names {
            alloc,
            entries: Vec::new(alloc),
        }
    }

    /// The path of the program that a process runs at a time.
    #[tactic(auto, using(crate::proofs::Naming::known_more))]
    pub fn path(&self, pid: u32, time: u64) -> &[u8]
        ensures { result.now ≡ path_known self.now.entries.items pid time FIRST_PROGRAM.now }
    {
        let mut path = FIRST_PROGRAM;
        for entry in &self.entries {
            path = known(entry, pid, time, path);
        }
        path
    }

    // Whether it is known that a process began a program at a time.
    fn has(&self, pid: u32, time: u64) -> bool {
        self.entries
            .iter()
            .any(|entry| entry.pid == pid && entry.time == time)
    }

    /// From a time on, a process runs the program with a path.
    pub(crate) fn set(&mut self, pid: u32, time: u64, path: &[u8]) -> Result<(), AllocError> {
        if self.has(pid, time) {
            return Ok(());
        }
        let mut copy = Vec::new(self.alloc);
        copy.extend_from_slice(path)?;
        let named = Named {
            time,
            pid,
            path: copy,
        };
        self.entries.push(named)?;
        Ok(())
    }

    /// From a time on, a process runs the program that another runs then.
    pub(crate) fn inherit(&mut self, pid: u32, time: u64, parent: u32) -> Result<(), AllocError> {
        let mut copy = Vec::new(self.alloc);
        copy.extend_from_slice(self.path(parent, time))?;
        self.set(pid, time, copy.as_slice())
    }
}
