//! Machines whose states are alike.
use crate::copying::{PLACES, boot, console, go, is_even};
use crate::play::{DUP, FORK, FSTAT, OPEN, PIPE, Program, READ, Row, WAIT, WRITE, holds_at};
use blockdev::MemDisk;
use machine::{Machine, boot_flat_with};
use std::alloc::Global;
use sv39::Plain;
use unixmodel::event::Event;
use unixmodel::event::Event::{Key, Step, Tick};

// Whether a machine that was run so far matches its copies, and no longer one that took a key.
fn matches_copies(alloc: Global, place: usize) -> Option<bool> {
    let mut machine = boot(alloc)?;
    go(&mut machine, 0, place, &mut console(alloc));
    let mut copy = machine.copy(alloc, Plain::new()).ok()?;
    let mut over = boot(alloc)?;
    let is_copied = over.copy_from(&machine) && is_even(&machine, &over);
    let alike = machine.matches(&mut copy) == Ok(true) && over.matches(&mut copy) == Ok(true);
    let is_typed = copy.step(Event::Key(b'z'), &mut console(alloc)).is_ok();
    Some(is_copied && alike && machine.matches(&mut copy) == Ok(!is_typed))
}

#[test]
fn a_machine_matches_its_copies(rt: HostRuntime) {
    for (row, place) in PLACES.iter().enumerate() {
        holds_at(&rt, row, matches_copies(rt.alloc(), *place) == Some(true));
    }
}

// Whether a machine matches its copy after a tick that changes nothing but the clock.
fn matches_after_a_tick(alloc: Global) -> Option<bool> {
    let mut machine = boot(alloc)?;
    go(&mut machine, 0, 62, &mut console(alloc));
    let is_quiet = machine.is_idle() && !machine.is_anyone_asleep();
    let mut copy = machine.copy(alloc, Plain::new()).ok()?;
    copy.step(Event::Tick, &mut console(alloc)).ok()?;
    let alike = machine.matches(&mut copy) == Ok(true)
        && machine.digest_but_ticks() == copy.digest_but_ticks();
    Some(is_quiet && alike && machine.digest() != copy.digest())
}

#[test]
fn a_tick_where_nobody_runs_or_sleeps_leads_to_a_like_state(rt: HostRuntime) {
    holds_at(&rt, 0, matches_after_a_tick(rt.alloc()) == Some(true));
}

const STACK: u64 = 0x2000;

const STAT: u64 = 0x2400;

const BUFFER: u64 = 0x2800;

// For reading and writing, and made if it isn't there.
const NEW: u64 = 0x202;

// Events, each that many times.
type Way<'a> = &'a [(Event, usize)];

// A parent and its child make a pipe each; then the parent waits for the child, which reads the console.
const PIPES: [Row; 5] = [
    Row([0, 0, 0, FORK], 3),
    Row([STACK, 0, 0, PIPE], 2),
    Row([0, 0, 0, WAIT], 0),
    Row([STACK, 0, 0, PIPE], 4),
    Row([0, BUFFER, 4, READ], 0),
];

// The parent's pipe is the first, or the child's.
const PARENT_FIRST: [(Event, usize); 1] = [(Step, 40)];

const CHILD_FIRST: [(Event, usize); 5] = [(Step, 7), (Tick, 1), (Step, 9), (Tick, 1), (Step, 26)];

// The first byte that is typed goes into a pipe, and is then written over where it was read to.
const BYTE: [Row; 5] = [
    Row([STACK, 0, 0, PIPE], 1),
    Row([0, BUFFER, 2, READ], 0),
    Row([4, BUFFER, 1, WRITE], 0),
    Row([0, BUFFER, 0, FSTAT], 4),
    Row([0, BUFFER, 4, READ], 0),
];

const TYPED_A: [(Event, usize); 3] = [(Key(b'a'), 1), (Key(b'\n'), 1), (Step, 39)];

const TYPED_B: [(Event, usize); 3] = [(Key(b'b'), 1), (Key(b'\n'), 1), (Step, 39)];

// Reads the zero bytes of a file one by one.
const ZEROS: [Row; 6] = [
    Row([64 + 40 * 5, NEW, 0, OPEN], 0),
    Row([3, BUFFER, 2, WRITE], 0),
    Row([64 + 40 * 5, 0, 0, OPEN], 0),
    Row([4, BUFFER, 1, READ], 0),
    Row([0, STAT, 0, FSTAT], 3),
    // x
    Row([0x78, 0, 0, 0], 0),
];

const ONE_READ: [(Event, usize); 1] = [(Step, 39)];

const TWO_READ: [(Event, usize); 1] = [(Step, 55)];

// Opens a file twice; the third descriptor names the first open file after a line, and the second one after the end of
// the input.
const SHARED: [Row; 9] = [
    Row([64 + 40 * 8, NEW, 0, OPEN], 0),
    Row([64 + 40 * 8, NEW, 0, OPEN], 0),
    Row([0, BUFFER, 1, READ], 5),
    Row([3, 0, 0, DUP], 0),
    Row([0, BUFFER, 0, FSTAT], 7),
    Row([4, 0, 0, DUP], 0),
    Row([0, BUFFER, 0, FSTAT], 7),
    Row([0, BUFFER, 4, READ], 0),
    // x
    Row([0x78, 0, 0, 0], 0),
];

const LINE: [(Event, usize); 2] = [(Key(b'\n'), 1), (Step, 47)];

const END: [(Event, usize); 2] = [(Key(0x04), 1), (Step, 47)];

// The machine of some rows after events.
fn after(alloc: Global, rows: &[Row], way: Way<'_>) -> Option<Machine<MemDisk, Plain>> {
    let bytes = Program::Family(rows).bytes(alloc).ok()?;
    let mut machine = boot_flat_with(alloc, bytes.as_slice(), Plain::new(), 64).ok()?;
    for (event, count) in way {
        for _ in 0..*count {
            machine.step(*event, &mut console(alloc)).ok()?;
        }
    }
    Some(machine)
}

// Whether the machines of two ways have other holdings, whether they match, and whether they have the same digest
// without ticks and numbers.
fn compared(
    alloc: Global,
    rows: &[Row],
    one: Way<'_>,
    other: Way<'_>,
) -> Option<(bool, bool, bool)> {
    let mut one = after(alloc, rows, one)?;
    let mut other = after(alloc, rows, other)?;
    let differs = one.holdings(1) != other.holdings(1);
    let matches = one.matches(&mut other) == Ok(true);
    Some((
        differs,
        matches,
        one.digest_but_ticks() == other.digest_but_ticks(),
    ))
}

#[test]
fn a_machine_matches_one_with_other_numbers_of_open_files_and_pipes(rt: HostRuntime) {
    let found = compared(rt.alloc(), &PIPES, &PARENT_FIRST, &CHILD_FIRST);
    holds_at(&rt, 0, found == Some((true, true, true)));
}

#[test]
fn machines_that_differ_in_a_byte_an_offset_or_a_shared_open_file_do_not_match(rt: HostRuntime) {
    const CASES: [(&[Row], Way<'static>, Way<'static>, bool); 3] = [
        (&BYTE, &TYPED_A, &TYPED_B, false),
        (&ZEROS, &ONE_READ, &TWO_READ, false),
        (&SHARED, &LINE, &END, true),
    ];
    for (row, (rows, one, other, same_digest)) in CASES.iter().enumerate() {
        let found = compared(rt.alloc(), rows, one, other);
        let differs = *same_digest;
        holds_at(&rt, row, found == Some((differs, false, *same_digest)));
    }
}
