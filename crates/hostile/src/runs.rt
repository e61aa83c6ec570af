//! Runs of a program of bytes, which show the same over each translator.
use blockdev::MemDisk;
use console::Writer;
use machine::{Halt, Machine, Seen, boot_flat_with};
use std::alloc::Global;
use sv39::Plain;
use test_translators::{Chosen, Counts, Kind, MOST_PAGES};
use unixmodel::event::Event;

const FRAMES: u32 = 256;

// The most steps of a run. A tick comes after each hundred.
const STEPS: u32 = 10_000;

/// The translators that a run goes over.
pub static KINDS: [Kind; 7] = [
    Kind::Plain,
    Kind::Tlb,
    Kind::Recent,
    Kind::RecentTlb,
    Kind::Noting(0),
    Kind::Noting(MOST_PAGES),
    Kind::Counting,
];

/// A machine over one of them.
pub type AnyMachine<'a> = Machine<MemDisk, Chosen<'a>>;

/// A translator that walks each time.
pub fn plain() -> Chosen<'static> {
    Chosen::Plain(Plain::new())
}

/// Drops a machine. A function that does this takes long to prove, so this one does it for all.
pub fn let_go(_machine: AnyMachine<'_>) {}

/// A program, and the keys that are typed first.
#[derive(Clone, Copy)]
pub struct Input<'a> {
    pub program: &'a [u8],
    pub keys: &'a [u8],
}

/// What a run shows.
#[derive(Drop)]
pub struct Shown {
    pub printed: Vec<u8>,
    /// How many steps it took, and why it stopped at the next one, if it did.
    pub end: (u32, Option<Halt>),
    /// What process 1 is at its end.
    pub seen: Option<Seen>,
}

// The keys, and all steps and ticks after them.
fn go(machine: &mut AnyMachine<'_>, keys: &[u8], out: &mut Writer<Vec<u8>>) -> (u32, Option<Halt>) {
    for key in keys {
        let _ = machine.step(Event::Key(*key), out);
    }
    for number in 0..STEPS {
        if let Err(halt) = machine.step(Event::Step, out) {
            return (number, Some(halt));
        }
        if number % 100 == 99 {
            let _ = machine.step(Event::Tick, out);
        }
    }
    (STEPS, None)
}

// What a machine shows with these keys typed first.
fn play(alloc: Global, machine: &mut AnyMachine<'_>, keys: &[u8]) -> Shown {
    let mut out = Writer::new(Vec::new(alloc));
    let end = go(machine, keys, &mut out);
    Shown {
        printed: out.into_inner(),
        end,
        seen: machine.inspect(1),
    }
}

// Whether all pages of a process are the same in both.
fn has_same_pages(first: &AnyMachine<'_>, other: &AnyMachine<'_>, pid: u32) -> bool {
    for page in 0..u64::from(FRAMES) {
        let shown = first.peek(pid, page);
        if shown != other.peek(pid, page) {
            return false;
        }
        if shown.is_none() {
            return true;
        }
    }
    false
}

// Whether both have the same processes with the same pages. A pid takes a step, so there are no more pids than steps
// and one.
fn has_same_processes(first: &AnyMachine<'_>, other: &AnyMachine<'_>, steps: u32) -> bool {
    for pid in 0..steps.wrapping_add(2) {
        if first.inspect(pid) != other.inspect(pid) || !has_same_pages(first, other, pid) {
            return false;
        }
    }
    first.free_frames() == other.free_frames()
}

// A machine that has the program in its memory, over a translator of a kind.
fn booted<'a>(
    alloc: Global,
    program: &[u8],
    kind: Kind,
    counts: &'a Counts,
) -> Option<AnyMachine<'a>> {
    let translator = Chosen::new(alloc, kind, counts);
    boot_flat_with(alloc, program, translator, FRAMES).ok()
}

// Whether a machine shows what the first one showed, and ends as that one did.
fn is_like(
    alloc: Global,
    machine: &mut AnyMachine<'_>,
    keys: &[u8],
    first: &AnyMachine<'_>,
    shown: &Shown,
) -> bool {
    let other = play(alloc, machine, keys);
    other.end == shown.end
        && other.printed.as_slice() == shown.printed.as_slice()
        && has_same_processes(first, machine, shown.end.0)
}

// Whether a machine over a translator of a kind shows the same.
fn goes_like(
    alloc: Global,
    input: Input<'_>,
    kind: Kind,
    first: &AnyMachine<'_>,
    shown: &Shown,
) -> bool {
    let counts = Counts::new();
    match booted(alloc, input.program, kind, &counts) {
        Some(mut machine) => {
            let alike = is_like(alloc, &mut machine, input.keys, first, shown);
            let_go(machine);
            alike
        }
        None => false,
    }
}

// Whether a machine over each translator shows the same.
fn goes_like_over_each(
    alloc: Global,
    input: Input<'_>,
    first: &AnyMachine<'_>,
    shown: &Shown,
) -> bool {
    for kind in &KINDS {
        if !goes_like(alloc, input, *kind, first, shown) {
            return false;
        }
    }
    true
}

// What a machine shows, if one over each translator shows the same.
fn shown_by_each(alloc: Global, input: Input<'_>, first: &mut AnyMachine<'_>) -> Option<Shown> {
    let shown = play(alloc, first, input.keys);
    if goes_like_over_each(alloc, input, first, &shown) {
        Some(shown)
    } else {
        None
    }
}

/// What a program does. `None`: it doesn't do the same over each translator.
pub fn run_over_each(alloc: Global, input: Input<'_>) -> Option<Shown> {
    let counts = Counts::new();
    match booted(alloc, input.program, Kind::Plain, &counts) {
        Some(mut first) => {
            let shown = shown_by_each(alloc, input, &mut first);
            let_go(first);
            shown
        }
        None => None,
    }
}
