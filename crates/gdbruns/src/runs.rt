//! A run that a debugger debugs.
ghost use Rattle.std.specs.Prelude.{IfOk};
ghost use Rattle.gdbruns.specs.Debugged.{IsDebugged};
ghost use Rattle.events.specs.Scripts.{script_events};

use crate::script_events::events_in;
use blockdev::MemDisk;
use events::Command;
use gdbserver::{Peer, debug};
use machine::{BootFault, boot};
use std::alloc::Global;
use sv39::{Plain, Recent};
use timeline::{Events, Timeline};

/// How many bytes of the host a copy of a machine takes for each frame, and how many beside its frames and its disk.
const FRAME_BYTES: u64 = 4098;

const OTHER_BYTES: u64 = 1_590_000;

/// How large a run may be.
#[derive(Clone, Copy)]
pub struct Limits {
    /// How many frames the memory has.
    pub frames: u32,
    /// How many megabytes the copies of the machine take at most.
    pub megabytes: u32,
}

/// Why there is no run.
#[derive(Clone, Copy)]
pub enum RunFault {
    /// The machine does not boot.
    Boot(BootFault),
    /// The host has no memory.
    NoMemory,
}

// How many copies of a machine are kept: as many as fit into the memory that all may take, beside the one of the start
// and the one from which small motions back begin.
fn most_copies(limits: Limits, disk_bytes: usize) -> usize {
    let most = u64::from(limits.megabytes) * (1 << 20);
    let frames = u64::from(limits.frames) * FRAME_BYTES;
    let each = (disk_bytes as u64).saturating_add(frames + OTHER_BYTES);
    (most / each).saturating_sub(2) as usize
}

// The machine that boots from a disk, at the start of some events.
fn timeline_of(
    alloc: Global,
    disk: MemDisk,
    limits: Limits,
    events: Events,
) -> Result<Timeline, RunFault>
    ensures { IfOk result (IsDebugged disk.bytes limits.frames events) }
{
    let most_copies = most_copies(limits, disk.bytes().len());
    let machine = match boot(alloc, disk, Recent::new(Plain::new()), limits.frames) {
        Ok(machine) => machine,
        Err(fault) => return Err(RunFault::Boot(fault)),
    };
    match Timeline::new(alloc, machine, events, most_copies) {
        Ok(timeline) => Ok(timeline),
        Err(_) => Err(RunFault::NoMemory),
    }
}

/// Boots a machine from a disk and serves a debugger of it at the events of a script: what that leaves.
pub fn debug_disk<P: Peer>(
    alloc: Global,
    disk: MemDisk,
    limits: Limits,
    script: &[Command<'_>],
    peer: &mut P,
) -> Result<Timeline, RunFault>
    ensures { IfOk result (IsDebugged disk.bytes limits.frames (script_events script.now)) }
{
    let Ok(events) = events_in(alloc, script) else {
        return Err(RunFault::NoMemory);
    };
    let mut timeline = timeline_of(alloc, disk, limits, events)?;
    match debug(alloc, &mut timeline, peer) {
        Ok(()) => Ok(timeline),
        Err(_) => Err(RunFault::NoMemory),
    }
}
