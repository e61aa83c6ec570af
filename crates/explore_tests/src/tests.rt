//! Two small programs with races, searched with the digests that there are, and with one for all states.
ghost use Rattle.std.specs.Prelude.{◌≡◌, IfSome};
ghost use Rattle.orders.specs.Tidy.{IsTidy};

use crate::constant::Constant;
use asm::assemble;
use blockdev::MemDisk;
use explore::{Along, Bounds, Found, Outcome, Task, Unwatched, explore, tables_stay_tidy};
use image::{Entry, Manifest, Thing, make};
use machine::{Machine, boot};
use orders::find_outcomes;
use std::alloc::Global;
use sv39::{Plain, Recent};

type Explored = Machine<MemDisk, Recent<Plain>>;

// Makes two children, and ends with the status of the one that `wait` returns first.
const CHILDREN: &str = "\
    li a7, 1\n ecall\n beq a0, zero, one\n li a7, 1\n ecall\n beq a0, zero, two\n\
    la a0, status\n li a7, 3\n ecall\n la a1, status\n lw a0, 0(a1)\n li a7, 2\n ecall\n\
    one: li a0, 1\n li a7, 2\n ecall\n two: li a0, 2\n li a7, 2\n ecall\nstatus: .zero 8\n";

// Writes an `a` to a pipe, and its child a `b`; it ends with the first letter that it reads.
const WRITERS: &str = "\
    la a0, ends\n li a7, 4\n ecall\n la a1, a\n li a7, 1\n ecall\n bne a0, zero, put\n la a1, b\n\
    put: mv s0, a0\n la t0, ends\n lw a0, 4(t0)\n li a2, 1\n li a7, 16\n ecall\n beq s0, zero, end\n\
    la t0, ends\n lw a0, 0(t0)\n la a1, got\n li a2, 1\n li a7, 5\n ecall\n\
    end: la a1, got\n lb a0, 0(a1)\n li a7, 2\n ecall\nends: .zero 8\na: .ascii \"a\"\nb: .ascii \"b\"\ngot: .zero 2\n";

// How far the searches go.
const BOUNDS: Bounds = Bounds {
    ticks: None,
    states: 2000,
    spin: 1000,
};

const TASK: Task<'static> = Task {
    keys: b"",
    bounds: BOUNDS,
};

// The image whose `/init` is the program of a text.
fn image_of(alloc: Global, text: &str) -> Option<Vec<u8>> {
    let path = Vec::from_slice(alloc, b"/init").ok()?;
    let thing = Thing::File(assemble(alloc, text).ok()?);
    let mut entries = Vec::new(alloc);
    entries.push(Entry { path, thing }).ok()?;
    make(alloc, &Manifest { entries }, 64, 16).ok()
}

// The machine that boots from it.
fn booted(alloc: Global, text: &str) -> Option<Explored>
    ensures { IfSome result (λ machine. IsTidy machine.state) }
{
    tables_stay_tidy();
    let disk = MemDisk::new(image_of(alloc, text)?).ok()?;
    match boot(alloc, disk, Recent::new(Plain::new()), 64) {
        Ok(machine) => Some(machine),
        Err(_) => None,
    }
}

fn copy_of(alloc: Global, first: &Explored) -> Option<Explored> {
    first.copy(alloc, Recent::new(Plain::new())).ok()
}

// What a search with the digests that there are finds.
fn found_by_digest(alloc: Global, first: &Explored) -> Option<Found>
    requires { IsTidy first.now.state }
{
    let mut walker = Along::new(alloc, first, copy_of(alloc, first)?);
    let mut other = Along::new(alloc, first, copy_of(alloc, first)?);
    explore(alloc, &mut walker, &mut other, TASK, &mut Unwatched).ok()
}

// What a search with one digest for all states finds.
fn found_without(alloc: Global, first: &Explored) -> Option<Found>
    requires { IsTidy first.now.state }
{
    let mut walker = Constant::new(alloc, first, copy_of(alloc, first)?);
    let mut other = Constant::new(alloc, first, copy_of(alloc, first)?);
    find_outcomes(alloc, &mut walker, &mut other, TASK, &mut Unwatched).ok()
}

// Whether two outcomes have the same status, runs and script.
fn is_same_outcome(one: &Outcome, other: &Outcome) -> bool {
    one.status == other.status
        && one.runs == other.runs
        && one.path.steps == other.path.steps
        && one.path.pieces.as_slice() == other.path.pieces.as_slice()
}

fn are_same_outcomes(one: &[Outcome], other: &[Outcome]) -> bool {
    for (one, other) in one.iter().zip(other) {
        if !is_same_outcome(one, other) {
            return false;
        }
    }
    one.len() == other.len()
}

// Whether both searches of a program look at as many states and find the same, all of several outcomes.
fn finds_the_same(alloc: Global, text: &str) -> Option<bool> {
    let first = booted(alloc, text)?;
    let one = found_by_digest(alloc, &first)?;
    let other = found_without(alloc, &first)?;
    let are_same = are_same_outcomes(one.outcomes.as_slice(), other.outcomes.as_slice());
    let is_whole = one.missed.is_nothing() && other.missed.is_nothing();
    Some(are_same && is_whole && one.states == other.states && one.outcomes.len() == 2)
}

#[test]
fn one_digest_for_all_states_finds_the_same(rt: HostRuntime) {
    assert!(rt; finds_the_same(rt.alloc(), CHILDREN) == Some(true));
    assert!(rt; finds_the_same(rt.alloc(), WRITERS) == Some(true));
}
