//! The reasons to stop of one motion.
use crate::points::{Points, Watch};
use gdbstate::{AccessWatch, Break, Reasons, Stepping, Watched, Width, number_at};
use std::alloc::{AllocError, Global};
use timeline::Debuggee;

/// The numbers of fork, exit and exec: what they make of processes is reported.
pub(crate) const FORK: u64 = 1;

pub(crate) const EXIT: u64 = 2;

pub(crate) const EXEC: u64 = 7;

// The bytes of a watch, as they are now, in as few numbers as they make.
fn push_watched(
    machine: &Debuggee,
    watch: Watch,
    watched: &mut Vec<Watched>,
) -> Result<(), AllocError> {
    let Watch { pid, count, .. } = watch;
    let mut done = 0;
    while done < count {
        let address = watch.address.wrapping_add(done);
        let width = Width::at(address, count - done);
        let value = number_at(machine, pid, address, width);
        watched.push(Watched {
            pid,
            address,
            width,
            value,
        })?;
        done += width.bytes();
    }
    Ok(())
}

// The bytes of all watches, as they are now.
fn watched_of(
    alloc: Global,
    machine: &Debuggee,
    watches: &[Watch],
) -> Result<Vec<Watched>, AllocError> {
    let mut watched = Vec::new(alloc);
    for watch in watches {
        push_watched(machine, *watch, &mut watched)?;
    }
    Ok(watched)
}

// The addresses of breaks.
fn addresses_of(alloc: Global, points: &Points) -> Result<Vec<u64>, AllocError> {
    let mut addresses = Vec::new(alloc);
    for one in &points.breaks {
        addresses.push(one.place.address)?;
    }
    Ok(addresses)
}

// The breaks without their conditions.
fn breaks_of(alloc: Global, points: &Points) -> Result<Vec<Break>, AllocError> {
    let mut breaks = Vec::new(alloc);
    for one in &points.breaks {
        breaks.push(one.place)?;
    }
    Ok(breaks)
}

// The watches of loads and stores.
fn accesses_of(alloc: Global, points: &Points) -> Result<Vec<AccessWatch>, AllocError> {
    let mut accesses = Vec::new(alloc);
    accesses.extend_from_slice(points.accesses.as_slice())?;
    Ok(accesses)
}

// The calls before which a motion stops: those that gdb asks for, and others.
fn calls_of(alloc: Global, points: &Points, others: &[u64]) -> Result<Vec<u64>, AllocError> {
    let mut calls = Vec::new(alloc);
    calls.extend_from_slice(points.calls.as_slice())?;
    calls.extend_from_slice(others)?;
    Ok(calls)
}

/// The reasons to stop of a motion forward.
pub(crate) fn reasons_on(
    alloc: Global,
    machine: &Debuggee,
    points: &Points,
    stepping: Option<Stepping>,
) -> Result<Reasons, AllocError> {
    Ok(Reasons {
        addresses: addresses_of(alloc, points)?,
        breaks: breaks_of(alloc, points)?,
        watched: watched_of(alloc, machine, points.watches.as_slice())?,
        accesses: accesses_of(alloc, points)?,
        stepping,
        calls: calls_of(alloc, points, &[FORK, EXIT, EXEC])?,
        at_faults: true,
    })
}

/// The reasons to stop of a motion back.
pub(crate) fn reasons_back(
    alloc: Global,
    machine: &Debuggee,
    points: &Points,
    stepping: Option<Stepping>,
) -> Result<Reasons, AllocError> {
    Ok(Reasons {
        addresses: addresses_of(alloc, points)?,
        breaks: breaks_of(alloc, points)?,
        watched: watched_of(alloc, machine, points.watches.as_slice())?,
        accesses: accesses_of(alloc, points)?,
        stepping,
        calls: calls_of(alloc, points, &[])?,
        at_faults: false,
    })
}
