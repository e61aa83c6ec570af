//! Copies of machines: each goes on as its source does, and neither sees what the other does.
use crate::hello::{BYTES, stale};
use crate::play::{
    EXIT, FORK, MKDIR, PIPE, Program, READ, ROOM, Row, SLEEP, WAIT, WRITE, holds_at, narrow_console,
};
use blockdev::MemDisk;
use console::Writer;
use machine::{Halt, Machine, boot_flat_with};
use ram::Ram;
use std::alloc::Global;
use sv39::{Plain, Tlb, Translate};
use unixmodel::event::Event;

const STACK: u64 = 0x2000;

const BUFFER: u64 = 0x2800;

// After the rows of the family.
const NAME: u64 = 64 + 40 * 11;

// A child reads the console, hands what it read to its parent through a pipe, sleeps and makes a directory; the parent
// prints what it gets, and waits for its child.
const ROWS: [Row; 12] = [
    Row([STACK, 0, 0, PIPE], 1),
    Row([0, 0, 0, FORK], 6),
    Row([3, BUFFER, 4, READ], 0),
    Row([1, BUFFER, 4, WRITE], 0),
    Row([0, 0, 0, WAIT], 0),
    Row([0, 0, 0, EXIT], 0),
    Row([0, BUFFER, 4, READ], 0),
    Row([4, BUFFER, 4, WRITE], 0),
    Row([2, 0, 0, SLEEP], 9),
    Row([NAME, 0, 0, MKDIR], 10),
    Row([7, 0, 0, EXIT], 0),
    // d
    Row([0x64, 0, 0, 0], 0),
];

const EVENTS: usize = 320;

/// What all of them print.
pub(crate) const PRINTED: &[u8] = b"abc\nabc\n";

// As the events go: while nothing is shared yet; a line is typed in part; it is there; a pipe holds bytes; a process
// sleeps; the directory is made; process 1 has ended.
pub(crate) const PLACES: [usize; 9] = [0, 30, 62, 65, 90, 120, 161, 200, EVENTS];

// An event by its number.
fn event(number: usize) -> Event {
    match number {
        60 => Event::Key(b'a'),
        61 => Event::Key(b'b'),
        63 => Event::Key(b'c'),
        64 => Event::Key(b'\n'),
        160 | 162 | 163 => Event::Tick,
        _ => Event::Step,
    }
}

/// A console that keeps what is printed.
pub(crate) fn console(alloc: Global) -> Writer<Vec<u8>> {
    Writer::new(Vec::new(alloc))
}

/// The machine of the family.
pub(crate) fn boot(alloc: Global) -> Option<Machine<MemDisk, Plain>> {
    let bytes = Program::Family(&ROWS).bytes(alloc).ok()?;
    boot_flat_with(alloc, bytes.as_slice(), Plain::new(), 64).ok()
}

// A copy over a translator that holds what another memory had under the root of the first process.
fn copy_of(alloc: Global, machine: &Machine<MemDisk, Plain>) -> Option<Machine<MemDisk, Tlb<64>>> {
    let (_, root) = machine.tables(1)?;
    let mut other = Ram::new(alloc, 64).ok()?;
    machine.copy(alloc, stale(&mut other, root)).ok()
}

/// Whether two machines show the same processes, holdings and free frames.
pub(crate) fn is_even<T: Translate, U: Translate>(
    one: &Machine<MemDisk, T>,
    other: &Machine<MemDisk, U>,
) -> bool {
    for pid in 1..4u32 {
        if one.inspect(pid) != other.inspect(pid) || one.holdings(pid) != other.holdings(pid) {
            return false;
        }
    }
    one.free_frames() == other.free_frames() && one.is_idle() == other.is_idle()
}

pub(crate) fn go<T: Translate>(
    machine: &mut Machine<MemDisk, T>,
    from: usize,
    to: usize,
    out: &mut Writer<Vec<u8>>,
) {
    for number in from..to {
        let _ = machine.step(event(number), out);
    }
}

// Whether two machines go alike through the events that are left.
fn go_alike<T: Translate, U: Translate>(
    (one, out): (&mut Machine<MemDisk, T>, &mut Writer<Vec<u8>>),
    (other, written): (&mut Machine<MemDisk, U>, &mut Writer<Vec<u8>>),
    from: usize,
) -> bool {
    for number in from..EVENTS {
        let event = event(number);
        if one.step(event, out) != other.step(event, written) || !is_even(one, other) {
            return false;
        }
    }
    true
}

// Whether the output before a copy and the output after it are all that a run prints.
fn is_printed(before: &[u8], after: &[u8]) -> bool {
    PRINTED.starts_with(before) && PRINTED.get(before.len()..) == Some(after)
}

// Whether a machine that was run so far and its copy go alike to the end.
fn goes_alike(
    alloc: Global,
    machine: &mut Machine<MemDisk, Plain>,
    place: usize,
    before: &[u8],
) -> Option<bool> {
    let mut copy = copy_of(alloc, machine)?;
    let (mut out, mut written) = (console(alloc), console(alloc));
    let alike = go_alike((machine, &mut out), (&mut copy, &mut written), place);
    let (out, written) = (out.into_inner(), written.into_inner());
    Some(alike && is_printed(before, out.as_slice()) && out.as_slice() == written.as_slice())
}

// Whether a machine that was run so far goes on as if its copy hadn't gone to the end before it.
fn goes_apart(
    alloc: Global,
    machine: &mut Machine<MemDisk, Plain>,
    place: usize,
    before: &[u8],
) -> Option<bool> {
    let still = machine.copy(alloc, Plain::new()).ok()?;
    let mut copy = copy_of(alloc, machine)?;
    go(&mut copy, place, EVENTS, &mut console(alloc));
    let even = is_even(machine, &still);
    let mut out = console(alloc);
    go(machine, place, EVENTS, &mut out);
    Some(even && is_even(machine, &copy) && is_printed(before, out.into_inner().as_slice()))
}

// Runs a machine so far, and then tries both.
fn holds_from(alloc: Global, place: usize, apart: bool) -> Option<bool> {
    let mut machine = boot(alloc)?;
    let mut out = console(alloc);
    go(&mut machine, 0, place, &mut out);
    let before = out.into_inner();
    if apart {
        goes_apart(alloc, &mut machine, place, before.as_slice())
    } else {
        goes_alike(alloc, &mut machine, place, before.as_slice())
    }
}

#[test]
fn a_copy_goes_on_as_its_source(rt: HostRuntime) {
    for (row, place) in PLACES.iter().enumerate() {
        holds_at(
            &rt,
            row,
            holds_from(rt.alloc(), *place, false) == Some(true),
        );
    }
}

#[test]
fn a_machine_goes_on_as_if_it_had_no_copy(rt: HostRuntime) {
    for (row, place) in PLACES.iter().enumerate() {
        holds_at(&rt, row, holds_from(rt.alloc(), *place, true) == Some(true));
    }
}

// The copy of a machine that has stopped takes no event, and has a disk or not as its source would.
fn stays_stopped(alloc: Global, machine: &Machine<MemDisk, Plain>, saves: bool) -> Option<bool> {
    let mut copy = copy_of(alloc, machine)?;
    let still = is_even(machine, &copy)
        && copy.step(Event::Step, &mut console(alloc)) == Err(Halt::Halted);
    Some(still && copy.save().is_ok() == saves)
}

// The same for a program that says `hi` at a console that takes `room` bytes, and why it stops.
fn is_copied_stopped(alloc: Global, room: usize, why: Halt, saves: bool) -> Option<bool> {
    let mut machine = boot_flat_with(alloc, &BYTES, Plain::new(), 64).ok()?;
    let done = machine.run(&[Event::Step; 9], &mut narrow_console(alloc, room));
    Some(done == Err(why) && stays_stopped(alloc, &machine, saves)?)
}

#[test]
fn a_machine_that_has_stopped_is_copied_so(rt: HostRuntime) {
    const CASES: [(usize, Halt, bool); 2] = [
        (ROOM, Halt::InitEnded(0), true),
        (1, Halt::Console, false),
    ];
    for (row, (room, why, saves)) in CASES.iter().enumerate() {
        let holds = is_copied_stopped(rt.alloc(), *room, *why, *saves);
        holds_at(&rt, row, holds == Some(true));
    }
}
