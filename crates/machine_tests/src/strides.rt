//! Steps that are done in one go.
ghost use Rattle.std.specs.Prelude.{◌<◌};

use crate::copying::console;
use crate::hello::BYTES;
use crate::play::{Program, READ, ROOM, holds_at, narrow_console};
use machine::{Halt, boot_flat_with};
use std::alloc::Global;
use sv39::{Plain, Recent};
use unixmodel::event::Event;

// More strides than the program takes.
const STRIDES: u32 = 1000;

// How many steps a program that says `hi` takes at a console that takes `room` bytes, and how it ends.
// Each stride does as many steps as go at once, at most `most`.
fn by_strides(alloc: Global, room: usize, most: u32) -> Option<(u32, Halt)>
    requires { 0 < most }
{
    let mut machine = boot_flat_with(alloc, &BYTES, Plain::new(), 64).ok()?;
    let mut out = narrow_console(alloc, room);
    let mut steps = 0_u32;
    for _stride in 0..STRIDES {
        let (done, ended) = machine.advance(most, &mut out);
        steps = steps.saturating_add(done);
        if let Err(halt) = ended {
            return Some((steps, halt));
        }
    }
    None
}

// The same, each step by itself.
fn by_steps(alloc: Global, room: usize) -> Option<(u32, Halt)> {
    let mut machine = boot_flat_with(alloc, &BYTES, Plain::new(), 64).ok()?;
    let mut out = narrow_console(alloc, room);
    for made in 0..STRIDES {
        if let Err(halt) = machine.step(Event::Step, &mut out) {
            return Some((made + 1, halt));
        }
    }
    None
}

#[test]
fn strides_are_as_many_steps(rt: HostRuntime) {
    for (row, room) in [ROOM, 1].iter().enumerate() {
        let steps = by_steps(rt.alloc(), *room);
        let ends = steps.is_some()
            && by_strides(rt.alloc(), *room, 1) == steps
            && by_strides(rt.alloc(), *room, 2) == steps
            && by_strides(rt.alloc(), *room, 1000) == steps;
        holds_at(&rt, row, ends);
    }
}

// What a machine returns whose process waits for a key, and then one that has stopped.
fn still(alloc: Global) -> Option<bool> {
    const CALLS: [[u64; 4]; 1] = [[0, 0x2000, 10, READ]];
    let bytes = Program::Calls(&CALLS).bytes(alloc).ok()?;
    let mut machine = boot_flat_with(alloc, bytes.as_slice(), Recent::new(Plain::new()), 64).ok()?;
    let mut out = console(alloc);
    machine.steps(u32::MAX, &mut out).ok()?;
    let waits = machine.advance(u32::MAX, &mut out);
    machine.step(Event::Key(b'\n'), &mut out).ok()?;
    let ended = machine.steps(u32::MAX, &mut out);
    let stopped = machine.advance(1, &mut out);
    Some(waits == (0, Ok(())) && ended.is_err() && stopped == (0, Err(Halt::Halted)))
}

#[test]
fn no_step_is_done_where_none_changes_anything(rt: HostRuntime) {
    holds_at(&rt, 0, still(rt.alloc()) == Some(true));
}
