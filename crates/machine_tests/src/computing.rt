//! Instructions up to a call, a fault or a stop, and who runs.
use crate::copying::console;
use crate::play::{EXIT, GETPID, Program, holds_at};
use machine::boot_flat_with;
use std::alloc::Global;
use sv39::{Plain, Recent};
use unixmodel::event::Event;

// Single steps first; then at most n instructions, up to one of these stops; how many they are, and the pc after them.
type Piece<'a> = (u32, u32, &'a [u64], u32, u64);

// Two calls: the first instruction is done once, and from 4 on there is a loop with the call at 20 and the jump at 28.
const CALLS: [[u64; 4]; 3] = [[0, 0, 0, GETPID], [0, 0, 0, GETPID], [0, 0, 0, EXIT]];

const BETWEEN_CALLS: [Piece; 8] = [
    (1, 3, &[], 3, 12),
    (0, 1000, &[], 2, 20),
    (0, 1000, &[20], 0, 20),
    (1, 1000, &[4, 8], 2, 4),
    (0, 1000, &[4], 4, 20),
    // 10 is in the middle of an instruction, and 0x100c in another page
    (1, 1000, &[10, 16, 12, 0x100c], 4, 12),
    (0, 0, &[12], 0, 12),
    (0, 1000, &[20], 2, 20),
];

// A parent stores to a page that it shares with its child, and goes on in a loop.
const FORKER: [u32; 6] = [
    0x0010_0893, // addi a7, zero, 1
    0x0000_0073, // ecall
    0x0000_22b7, // lui  t0, 2
    0x00a2_b023, // sd   a0, 0(t0)
    0x00a2_b423, // sd   a0, 8(t0)
    0xffdf_f06f, // jal  zero, -4
];

const BEHIND_A_FORK: [Piece; 5] = [
    (1, 1000, &[], 1, 4),
    (1, 1000, &[16], 2, 16),
    (0, 1000, &[16], 2, 16),
    (0, 1000, &[12, 20], 1, 20),
    (0, 101, &[], 101, 16),
];

// A load from where there is no page.
const FAULTER: [u32; 2] = [
    0x0010_02b7, // lui  t0, 0x100
    0x0002_b503, // ld   a0, 0(t0)
];

const UP_TO_A_FAULT: [Piece; 2] = [(1, 1000, &[], 1, 4), (0, 1000, &[4], 0, 4)];

const ROWS: [(Program, &[Piece]); 3] = [
    (Program::Calls(&CALLS), &BETWEEN_CALLS),
    (Program::Words(&FORKER, &[]), &BEHIND_A_FORK),
    (Program::Words(&FAULTER, &[]), &UP_TO_A_FAULT),
];

// Whether each piece does that many instructions, and leads to where as many steps lead.
fn goes(alloc: Global, program: Program<'_>, pieces: &[Piece<'_>]) -> Option<bool> {
    let bytes = program.bytes(alloc).ok()?;
    let mut machine = boot_flat_with(alloc, bytes.as_slice(), Recent::new(Plain::new()), 64).ok()?;
    let mut other = boot_flat_with(alloc, bytes.as_slice(), Plain::new(), 64).ok()?;
    let mut out = console(alloc);
    let mut holds = machine.running().is_none() && machine.compute(9, &[]) == 0;
    for (steps, most, stops, count, pc) in pieces {
        machine.steps(*steps, &mut out).ok()?;
        other.steps(*steps, &mut out).ok()?;
        let done = machine.compute(*most, *stops);
        other.steps(done, &mut out).ok()?;
        holds = holds
            && done == *count
            && machine.running() == Some(1)
            && machine.inspect(1)?.pc == *pc
            && machine.digest() == other.digest();
    }
    Some(holds)
}

#[test]
fn instructions_go_up_to_a_call_a_fault_or_a_stop(rt: HostRuntime) {
    for (row, (program, pieces)) in ROWS.iter().enumerate() {
        holds_at(&rt, row, goes(rt.alloc(), *program, pieces) == Some(true));
    }
}

// Whether none are done where no process runs, and none of a machine that has stopped.
fn none_are_done(alloc: Global) -> Option<bool> {
    let bytes = Program::Words(&FAULTER, &[]).bytes(alloc).ok()?;
    let mut machine = boot_flat_with(alloc, bytes.as_slice(), Plain::new(), 64).ok()?;
    let mut out = console(alloc);
    machine.steps(1, &mut out).ok()?;
    machine.step(Event::Tick, &mut out).ok()?;
    let idle = machine.running().is_none() && machine.compute(9, &[]) == 0;
    let ended = machine.steps(9, &mut out).is_err();
    Some(idle && ended && machine.running().is_none() && machine.compute(9, &[0]) == 0)
}

#[test]
fn no_instruction_is_done_where_nobody_runs(rt: HostRuntime) {
    holds_at(&rt, 0, none_are_done(rt.alloc()) == Some(true));
}
