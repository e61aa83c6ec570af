//! What the next event makes of processes: one forks, ends, or becomes another program.
use crate::reasons::{EXEC, EXIT, FORK};
use crate::stops::{call_of, who_runs};
use gdbstate::bytes_at;
use machine::{ProcessState, Seen};
use next_fault::cause;
use std::alloc::{AllocError, Global};
use timeline::{Debuggee, Timeline};
use unixmodel::event::Event;

/// The longest path that exec takes, in bytes.
const LONGEST_PATH: u32 = 127;

/// The status of a process that ends by a fault, as its parent sees it in eight bits.
const FAULTED: u8 = 0xff;

/// What a process is about to do.
#[derive(Drop)]
pub(crate) enum Deed {
    /// It forks; the child would have this pid.
    Fork(u32),
    /// It becomes the program with this path.
    Exec(Vec<u8>),
    /// It ends with this status.
    End(u8),
    /// It ends with this status, by a fault.
    Fault(u8),
}

/// A process, and what it is about to do.
#[derive(Drop)]
pub(crate) struct Doing {
    pub(crate) pid: u32,
    pub(crate) deed: Deed,
}

// The path at an address of a process, from the root: the machine doesn't say where a relative one begins.
fn path_at(
    alloc: Global,
    machine: &Debuggee,
    pid: u32,
    address: u64,
) -> Result<Vec<u8>, AllocError> {
    let bytes = bytes_at(alloc, machine, pid, address, LONGEST_PATH)?;
    let mut path = Vec::new(alloc);
    if bytes.first() != Some(&b'/') {
        path.extend_from_slice(b"/")?;
    }
    for byte in &bytes {
        if *byte == 0 {
            break;
        }
        path.extend_from_slice(&[*byte])?;
    }
    Ok(path)
}

// What a process does by the call that is its next instruction.
fn deed_of(alloc: Global, machine: &Debuggee, seen: &Seen) -> Result<Option<Deed>, AllocError> {
    match call_of(machine, seen) {
        Some(FORK) => Ok(Some(Deed::Fork(machine.coming_pid()))),
        Some(EXIT) => Ok(Some(Deed::End((seen.registers[10] % 256) as u8))),
        Some(EXEC) => {
            let path = path_at(alloc, machine, seen.pid, seen.registers[10])?;
            Ok(Some(Deed::Exec(path)))
        }
        Some(_) => Ok(None),
        None if cause(machine, seen.pid).is_some() => Ok(Some(Deed::Fault(FAULTED))),
        None => Ok(None),
    }
}

/// What the process that runs does by the next event; `None` where that is none of these.
pub(crate) fn deed_at(alloc: Global, timeline: &Timeline) -> Result<Option<Doing>, AllocError> {
    let Some((Event::Step, _)) = timeline.ahead(timeline.at()) else {
        return Ok(None);
    };
    let Some(seen) = who_runs(timeline.machine()) else {
        return Ok(None);
    };
    match deed_of(alloc, timeline.machine(), &seen)? {
        Some(deed) => Ok(Some(Doing {
            pid: seen.pid,
            deed,
        })),
        None => Ok(None),
    }
}

/// Whether a process has ended, or is gone.
pub(crate) fn has_ended(machine: &Debuggee, pid: u32) -> bool {
    match machine.inspect(pid) {
        Some(seen) => matches!(seen.state, ProcessState::Zombie(_)),
        None => true,
    }
}

/// Whether a process did what it was about to do.
pub(crate) fn is_done(machine: &Debuggee, doing: &Doing) -> bool {
    match &doing.deed {
        Deed::Fork(child) => machine.coming_pid() != *child,
        Deed::Exec(_) => match machine.inspect(doing.pid) {
            Some(seen) => seen.registers[10] != u64::MAX,
            None => false,
        },
        Deed::End(_) | Deed::Fault(_) => has_ended(machine, doing.pid),
    }
}
