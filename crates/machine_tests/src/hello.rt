//! A program that says `hi`: its console, its process, its pages and its tables.
use crate::play::Act::{
    Answer, Faults, Gone, Halts, Is, Killed, NoPage, NoTables, Page, Parent, Pc, Printed, Reaches,
    Registers, Runs, Size, Steps,
};
use crate::play::{
    Act, Case, NEXT_CALL, Program, READY, ROOM, RUNNING, SBRK, USUAL, holds_at, run_each,
};
use console::Writer;
use machine::{Halt, Perm, ProcessState, boot_flat, boot_flat_with};
use ram::{FrameNo, Ram};
use std::alloc::Global;
use std::cell::Cell;
use sv39::{Plain, Recent, Tlb, Translate};
use test_translators::Counting;
use unixmodel::event::Event;
use unixmodel::event::Event::{Step, Tick};
use unixmodel::trap::Access;

// Writes `hi` and a line feed, which follow the instructions, and exits with status 0.
const HELLO: [u32; 8] = [
    0x0010_0513, // addi a0, zero, 1
    0x0200_0593, // addi a1, zero, 32
    0x0030_0613, // addi a2, zero, 3
    0x0100_0893, // addi a7, zero, 16
    0x0000_0073, // ecall
    0x0000_0513, // addi a0, zero, 0
    0x0020_0893, // addi a7, zero, 2
    0x0000_0073, // ecall
];

/// That program.
pub(crate) const HI: Program<'static> = Program::Words(&HELLO, b"hi\n");

/// The bytes of that program.
pub(crate) const BYTES: [u8; 35] = [
    0x13, 0x05, 0x10, 0x00, 0x93, 0x05, 0x00, 0x02, 0x13, 0x06, 0x30, 0x00, 0x93, 0x08, 0x00, 0x01,
    0x73, 0x00, 0x00, 0x00, 0x13, 0x05, 0x00, 0x00, 0x93, 0x08, 0x20, 0x00, 0x73, 0x00, 0x00, 0x00,
    0x68, 0x69, 0x0a,
];

const AT_FIRST: [u64; 32] = [
    0, 0, 12272, 0, 0, 0, 0, 0, 0, 0, 0, 12272, 0, 0, 0, 0, 0, 0, 0, 0, 0, 0, 0, 0, 0, 0, 0, 0, 0,
    0, 0, 0,
];

const AFTER_TWO_STEPS: [u64; 32] = [
    0, 0, 12272, 0, 0, 0, 0, 0, 0, 0, 1, 12272, 0, 0, 0, 0, 0, 0, 0, 0, 0, 0, 0, 0, 0, 0, 0, 0, 0,
    0, 0, 0,
];

// The marks of the pages: of the program's, of the one below the stack, and of the stack's.
const PROGRAM: Perm = Perm {
    w: true,
    x: true,
    u: true,
};

const GUARD: Perm = Perm {
    w: true,
    x: false,
    u: false,
};

const STACK: Perm = Perm {
    w: true,
    x: false,
    u: true,
};

/// What it does at a console that takes one byte, and fails at the next.
pub(crate) const FAILED: [Act; 6] = [
    Steps(5),
    Halts(Halt::Console),
    Halts(Halt::Halted),
    Runs(&[], Some(Halt::Halted)),
    Parent(1, 0),
    Printed(b"h"),
];

// A key.
const A: Event = Event::Key(b'a');

static RUNS: [Case; 11] = [
    Case {
        name: "it says hi",
        size: (256, ROOM),
        program: HI,
        acts: &[
            Steps(8),
            Halts(Halt::InitEnded(0)),
            Halts(Halt::Halted),
            Runs(&[Tick], Some(Halt::Halted)),
            Is(1, ProcessState::Zombie(0)),
            Printed(b"hi\n"),
        ],
    },
    // A tick costs a turn.
    Case {
        name: "a tick comes, and its program has not printed",
        size: (256, ROOM),
        program: HI,
        acts: &[
            Runs(&[Step, Step, Step, Tick, Step, Step, Step], None),
            Printed(b""),
        ],
    },
    Case {
        name: "a tick comes, and its program has printed",
        size: (256, ROOM),
        program: HI,
        acts: &[
            Runs(&[Step, Step, Step, Tick, Step, Step, Step, Step], None),
            Printed(b"hi\n"),
        ],
    },
    Case {
        name: "a tick and a key come, and its program goes on",
        size: (256, ROOM),
        program: HI,
        acts: &[
            Runs(
                &[
                    Step, Step, Step, Tick, Step, Step, Step, Step, A, Step, Step,
                ],
                None,
            ),
            Printed(b"hi\na"),
        ],
    },
    Case {
        name: "a tick and a key come, and its program ends",
        size: (256, ROOM),
        program: HI,
        acts: &[
            Runs(
                &[
                    Step, Step, Step, Tick, Step, Step, Step, Step, A, Step, Step, Step,
                ],
                Some(Halt::InitEnded(0)),
            ),
            Printed(b"hi\na"),
        ],
    },
    Case {
        name: "a tick and a key come, and its program has ended",
        size: (256, ROOM),
        program: HI,
        acts: &[
            Runs(
                &[
                    Step, Step, Step, Tick, Step, Step, Step, Step, A, Step, Step, Step, Step,
                ],
                Some(Halt::InitEnded(0)),
            ),
            Printed(b"hi\na"),
        ],
    },
    Case {
        name: "its process is shown",
        size: USUAL,
        program: HI,
        acts: &[
            Parent(1, 0),
            Pc(1, 0),
            Size(1, 12288),
            Registers(1, &AT_FIRST),
            Killed(1, false),
            Is(1, READY),
            Gone(0),
            Gone(2),
            Steps(2),
            Registers(1, &AFTER_TWO_STEPS),
            Pc(1, 4),
            Is(1, RUNNING),
        ],
    },
    Case {
        name: "its pages are shown",
        size: USUAL,
        program: HI,
        acts: &[
            Page(1, 0, PROGRAM, &BYTES),
            Page(1, 1, GUARD, &[]),
            Page(1, 2, STACK, &[]),
            NoPage(1, 3),
            NoPage(1, 0x3ff_fffe),
            NoPage(2, 0),
        ],
    },
    Case {
        name: "its tables show its pages",
        size: USUAL,
        program: HI,
        acts: &[
            Reaches(32, Access::Fetch, b'h'),
            Reaches(33, Access::Load, b'i'),
            Reaches(33, Access::Store, b'i'),
            Faults(0x1000, Access::Load),
            Reaches(0x2000, Access::Load, 0),
            Faults(0x2000, Access::Fetch),
            Faults(0x3000, Access::Load),
            Faults(0x3f_ffff_e000, Access::Load),
            Faults(0x40_0000_0000, Access::Load),
            NoTables(2),
        ],
    },
    // Pages that nobody shared: the program's, its stack, and one that came later.
    Case {
        name: "pages that come let stores through",
        size: USUAL,
        program: Program::Calls(&[[4096, 0, 0, SBRK]]),
        acts: &[
            Steps(NEXT_CALL),
            Answer(1, 12288),
            Reaches(4095, Access::Store, 0),
            Reaches(0x2000, Access::Store, 0),
            Reaches(0x3000, Access::Store, 0),
        ],
    },
    // It takes one byte, and fails at the next.
    Case {
        name: "it halts where the console fails",
        size: (64, 1),
        program: HI,
        acts: &FAILED,
    },
];

#[test]
fn runs(rt: HostRuntime) {
    run_each(&rt, &RUNS);
}

// The first of nine steps is a turn, and each of the others is an instruction: boot and the turn may fence, and the end
// of the process, but no instruction between them.
#[test]
fn each_fetch_is_translated_and_no_step_fences(rt: HostRuntime) {
    let (fetches, fences) = (Cell::new(0), Cell::new(0));
    let counting = Counting::new(&fetches, &fences);
    let mut machine = boot_flat_with(rt.alloc(), &BYTES, counting, 64).expect(&rt, "a machine");
    let mut out = Writer::new(Vec::new(rt.alloc()));
    let begun = machine.run(&[Step; 1], &mut out);
    let before = fences.get();
    let on = machine.run(&[Step; 7], &mut out);
    holds_at(&rt, 0, begun.is_ok() && on.is_ok());
    holds_at(&rt, 1, before > 0 && fences.get() == before);
    let done = machine.run(&[Step; 1], &mut out);
    holds_at(&rt, 2, done == Err(Halt::InitEnded(0)));
    holds_at(&rt, 3, fetches.get() == 8);
}

// These eight fetches are of one page: over a translator that remembers its answers they are one.
#[test]
fn fetches_of_one_page_are_asked_for_once(rt: HostRuntime) {
    let (fetches, fences) = (Cell::new(0), Cell::new(0));
    let recent = Recent::new(Counting::new(&fetches, &fences));
    let mut machine = boot_flat_with(rt.alloc(), &BYTES, recent, 64).expect(&rt, "a machine");
    let mut out = Writer::new(Vec::new(rt.alloc()));
    let done = machine.run(&[Step; 9], &mut out);
    holds_at(&rt, 0, done == Err(Halt::InitEnded(0)));
    holds_at(&rt, 1, fetches.get() == 1 && fences.get() > 0);
}

// A leaf for all pages from page 0 on, in frame 0 and those after it: it may be read, written and executed.
const WIDE_LEAF: u64 = 0x2000_00df;

/// A cache that has translated a fetch of page 0 under a root that has this leaf in the given memory.
pub(crate) fn stale(ram: &mut Ram, root: FrameNo) -> Tlb<64> {
    let mut cache = Tlb::<64>::new();
    if root.0 < ram.frame_count() {
        ram.store_u64(root, 0, WIDE_LEAF);
        let _ = cache.translate(ram, root, 0, Access::Fetch);
    }
    cache
}

// What a machine prints whose translator comes from another memory, and whether it ended well.
fn greets(alloc: Global, translator: Tlb<64>) -> Option<bool> {
    let mut machine = boot_flat_with(alloc, &BYTES, translator, 256).ok()?;
    let mut out = Writer::new(Vec::new(alloc));
    let done = machine.run(&[Step; 9], &mut out);
    Some(done == Err(Halt::InitEnded(0)) && out.into_inner().as_slice() == b"hi\n".as_slice())
}

#[test]
fn boot_forgets_what_the_translator_held(rt: HostRuntime) {
    let alloc = rt.alloc();
    let mut other = Ram::new(alloc, 256).expect(&rt, "a memory");
    for root in 0..256u32 {
        let cache = stale(&mut other, FrameNo(root));
        holds_at(&rt, root as usize, cache.reads() == 1);
        holds_at(&rt, root as usize, greets(alloc, cache) == Some(true));
    }
}

// How many entries a cache has read after each of four accesses to the pages of a table.
fn reads_after(ram: &Ram, root: FrameNo) -> [u64; 4] {
    const ACCESSES: [(u64, Access); 4] = [
        (0, Access::Fetch),
        (0, Access::Fetch),
        (0x2000, Access::Load),
        (0, Access::Fetch),
    ];
    let mut cache = Tlb::<64>::new();
    let mut reads = [0; 4];
    for (place, (va, access)) in ACCESSES.iter().enumerate() {
        let _ = cache.translate(ram, root, *va, *access);
        reads[place] = cache.reads();
    }
    reads
}

#[test]
fn what_is_held_is_not_read_again(rt: HostRuntime) {
    let machine = boot_flat(rt.alloc(), &BYTES, 64).expect(&rt, "a machine");
    let (ram, root) = machine.tables(1).expect(&rt, "tables");
    holds_at(&rt, 0, reads_after(ram, root) == [3, 3, 6, 6]);
}
