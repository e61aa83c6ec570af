//! What is kept of processes, by their pids.

use blockdev::BlockDev;
use machine::Machine;
use sv39::Translate;
use unixmodel::limits::PROCESSES;

/// A value for each process of which one is known.
#[derive(Drop)]
pub(crate) struct ByPid<V> {
    known: [Option<(u32, V)>; PROCESSES],
}

impl<V: Copy> ByPid<V> {
    /// Nothing is known.
    pub(crate) fn new() -> ByPid<V> {
        ByPid {
            known: [None; PROCESSES],
        }
    }

    /// The value of process 1 is known.
    pub(crate) fn of_first(value: V) -> ByPid<V> {
        let mut known = [None; PROCESSES];
        known[0] = Some((1, value));
        ByPid { known }
    }

    /// The value of a process, if it is known.
    pub(crate) fn get(&self, pid: u32) -> Option<V> {
        for entry in &self.known {
            if let Some((known, value)) = entry
                && *known == pid
            {
                return Some(*value);
            }
        }
        None
    }

    // The index of a pid's entry, else of one that is free or whose process is gone: there are as many entries as there
    // can be processes.
    fn place<D: BlockDev, T: Translate>(&self, machine: &Machine<D, T>, pid: u32) -> Option<usize> {
        let mut free = None;
        for (place, entry) in self.known.iter().enumerate() {
            match entry {
                Some((known, _)) if *known == pid => return Some(place),
                Some((known, _)) if machine.inspect(*known).is_some() => {}
                _ => free = Some(place),
            }
        }
        free
    }

    /// The value of a process from now on.
    pub(crate) fn set<D: BlockDev, T: Translate>(
        &mut self,
        machine: &Machine<D, T>,
        pid: u32,
        value: V,
    ) {
        if let Some(place) = self.place(machine, pid)
            && let Some(entry) = self.known.get_mut(place)
        {
            *entry = Some((pid, value));
        }
    }
}
