//! Why a process stops where a machine is.
ghost use Rattle.std.specs.Prelude.{◌≡◌};
ghost use Rattle.gdbmotions.specs.Signals.{signal_of};

use crate::points::Points;
use crate::sight::is_so;
use gdbreplies::{Signal, Stop};
use gdbstate::{Break, Reasons, Watched, is_accessed, is_ecall, is_stepped, number_at};
use machine::Seen;
use next_fault::{cause, word};
use timeline::Debuggee;
use unixmodel::trap::Cause;

/// What a fault is shown as.
pub fn signal_of(cause: Cause) -> Signal
    ensures { result ≡ signal_of cause }
{
    match cause {
        Cause::IllegalInstruction => Signal::Illegal,
        Cause::Breakpoint => Signal::Trap,
        Cause::InstructionMisaligned | Cause::LoadMisaligned | Cause::StoreMisaligned => {
            Signal::Bus
        }
        _ => Signal::Segmentation,
    }
}

/// The process that runs.
pub(crate) fn who_runs(machine: &Debuggee) -> Option<Seen> {
    let pid = machine.running()?;
    machine.inspect(pid)
}

/// The number of the call that is the next instruction of a process; `None` where that is no call.
pub(crate) fn call_of(machine: &Debuggee, seen: &Seen) -> Option<u64> {
    if is_ecall(word(machine, seen.pid, seen.pc)) {
        Some(seen.registers[17])
    } else {
        None
    }
}

// The number of watched bytes, as it is now.
fn number_of(machine: &Debuggee, one: &Watched) -> Option<u64> {
    number_at(machine, one.pid, one.address, one.width)
}

// The address of the first watched byte that is another than it was.
fn changed_at(one: &Watched, now: Option<u64>) -> u64 {
    match (one.value, now) {
        (Some(old), Some(new)) => {
            let byte = (old ^ new).trailing_zeros() / 8;
            one.address.wrapping_add(u64::from(byte))
        }
        _ => one.address,
    }
}

// Why a process stops whose watched bytes are others than they were.
fn changed(machine: &Debuggee, reasons: &Reasons) -> Option<(u32, Stop)> {
    let one = reasons
        .watched
        .iter()
        .find(|one| number_of(machine, one) != one.value)?;
    let address = changed_at(one, number_of(machine, one));
    Some((one.pid, Stop::Wrote(address)))
}

// Whether a process is at a break, one of whose conditions holds.
fn is_at_break(machine: &Debuggee, points: &Points, seen: &Seen) -> bool {
    let place = Break {
        pid: seen.pid,
        address: seen.pc,
    };
    match points.conditions_of(place) {
        Some(conditions) => is_so(machine, seen, conditions),
        None => false,
    }
}

// Whether the next instruction of a process is a call at which gdb wants it to stop.
fn is_at_call(machine: &Debuggee, points: &Points, seen: &Seen) -> bool {
    match call_of(machine, seen) {
        Some(number) => points.calls.contains(&number),
        None => false,
    }
}

// The fault that the next instruction of a process would raise, where a motion stops at it.
fn fault_at(machine: &Debuggee, reasons: &Reasons, pid: u32) -> Option<Stop> {
    if !reasons.at_faults {
        return None;
    }
    let trap = cause(machine, pid)?;
    Some(Stop::Faults(signal_of(trap.cause)))
}

// The watched bytes that the next instruction of a process loads or stores.
fn access_at(machine: &Debuggee, reasons: &Reasons, pid: u32) -> Option<Stop> {
    let one = reasons
        .accesses
        .iter()
        .find(|one| is_accessed(machine, pid, one))?;
    Some(if one.stores {
        Stop::Accessed(one.address)
    } else {
        Stop::Read(one.address)
    })
}

// Why the process that runs stops.
fn stop_of(machine: &Debuggee, reasons: &Reasons, points: &Points, seen: &Seen) -> Option<Stop> {
    if let Some(stop) = fault_at(machine, reasons, seen.pid) {
        return Some(stop);
    }
    if is_at_break(machine, points, seen) {
        return Some(Stop::Broke);
    }
    if let Some(stop) = access_at(machine, reasons, seen.pid) {
        return Some(stop);
    }
    if is_stepped(reasons.stepping, seen.pid, seen.pc) || is_at_call(machine, points, seen) {
        return Some(Stop::Stepped);
    }
    None
}

/// Why a process stops where a machine is, and which; `None` where none does.
pub(crate) fn stop_here(
    machine: &Debuggee,
    reasons: &Reasons,
    points: &Points,
) -> Option<(u32, Stop)> {
    if let Some(change) = changed(machine, reasons) {
        return Some(change);
    }
    let seen = who_runs(machine)?;
    if !points.holds(seen.pid) {
        return None;
    }
    let stop = stop_of(machine, reasons, points, &seen)?;
    Some((seen.pid, stop))
}
