//! One process: booting, its size, what calls return, and how it ends.
use crate::play::Act::{Answer, Answered, Free, Halts, Printed, Runs, Steps};
use crate::play::{
    Case, EXIT, GETPID, MINUS_ONE, NEXT_CALL, Program, ROOM, SBRK, UPTIME, USUAL, WRITE, holds_at,
    run_each,
};
use machine::{BootFault, Halt, boot_flat};
use std::alloc::Global;
use unixmodel::event::Event::{Step, Tick};

// How many frames are free in a machine that booted these bytes.
fn booted(alloc: Global, bytes: &[u8], frames: u32) -> Result<u32, BootFault> {
    let machine = boot_flat(alloc, bytes, frames)?;
    Ok(machine.free_frames())
}

#[test]
fn boots_what_fits(rt: HostRuntime) {
    const CASES: [(u32, usize, Result<u32, BootFault>); 6] = [
        (63, 0, Err(BootFault::FrameCount)),
        (64, 0, Ok(56)),
        (64, 229376, Ok(0)),
        (64, 229377, Err(BootFault::NoInit)),
        (32768, 1, Ok(32759)),
        (32769, 0, Err(BootFault::FrameCount)),
    ];
    for (row, (frames, length, free)) in CASES.iter().enumerate() {
        let bytes = vec![in rt.alloc(); 0u8; *length].expect(&rt, "memory");
        let found = booted(rt.alloc(), bytes.as_slice(), *frames);
        holds_at(&rt, row, found == *free);
    }
}

// Up to the last page of a table, and then one more.
const GROWS: [[u64; 4]; 2] = [[2084864, 0, 0, SBRK], [4096, 0, 0, SBRK]];

const REFUSED: (u64, u32) = (MINUS_ONE, 55);

static RUNS: [Case; 12] = [
    Case {
        name: "a process grows and shrinks by the count",
        size: USUAL,
        program: Program::Calls(&[
            [1, 0, 0, SBRK],
            [4095, 0, 0, SBRK],
            [u64::MAX - 4096, 0, 0, SBRK],
            [1, 0, 0, SBRK],
            [u64::MAX - 12288, 0, 0, SBRK],
        ]),
        acts: &[Answered(&[(12288, 54), (12289, 54), (16384, 55), (12287, 55), REFUSED])],
    },
    Case {
        name: "a process grows by all free frames",
        size: USUAL,
        program: Program::Calls(&[[225280, 0, 0, SBRK]]),
        acts: &[Answered(&[(12288, 0)])],
    },
    Case {
        name: "a process asks for a frame too many",
        size: USUAL,
        program: Program::Calls(&[[229376, 0, 0, SBRK]]),
        acts: &[Answered(&[REFUSED])],
    },
    Case {
        name: "a frame is free, and a table is wanted too",
        size: (519, ROOM),
        program: Program::Calls(&GROWS),
        acts: &[Answered(&[(12288, 1), (MINUS_ONE, 1)])],
    },
    Case {
        name: "two frames are free, for a page and a table",
        size: (520, ROOM),
        program: Program::Calls(&GROWS),
        acts: &[Answered(&[(12288, 2), (2097152, 0)])],
    },
    Case {
        name: "a process without pages ends",
        size: USUAL,
        program: Program::Calls(&[[u64::MAX - 12287, 0, 0, SBRK]]),
        acts: &[
            Steps(NEXT_CALL),
            Answer(1, 12288),
            Free(60),
            Halts(Halt::InitEnded(-1)),
        ],
    },
    Case {
        name: "calls are chosen by the low words",
        size: USUAL,
        program: Program::Calls(&[
            [0, 0, 0, 0x1_0000_0000 + GETPID],
            [0, 0, 0, 0],
            [0, 0, 0, 22],
            [0, 0, 0, 0xffff_ffff],
            [0, 0, 0, UPTIME],
        ]),
        acts: &[Answered(&[(1, 55), REFUSED, REFUSED, REFUSED, (0, 55)])],
    },
    Case {
        name: "ticks are counted",
        size: USUAL,
        program: Program::Calls(&[[0, 0, 0, UPTIME]]),
        acts: &[
            Runs(&[Tick, Step, Tick], None),
            Steps(NEXT_CALL),
            Answer(1, 2),
        ],
    },
    Case {
        name: "process 1 exits with 7",
        size: USUAL,
        program: Program::Calls(&[[7, 0, 0, EXIT]]),
        acts: &[Steps(NEXT_CALL - 1), Halts(Halt::InitEnded(7))],
    },
    Case {
        name: "process 1 exits with 7 in the low word",
        size: USUAL,
        program: Program::Calls(&[[0x1_0000_0007, 0, 0, EXIT]]),
        acts: &[Steps(NEXT_CALL - 1), Halts(Halt::InitEnded(7))],
    },
    Case {
        name: "process 1 exits with -1",
        size: USUAL,
        program: Program::Calls(&[[MINUS_ONE, 0, 0, EXIT]]),
        acts: &[Steps(NEXT_CALL - 1), Halts(Halt::InitEnded(-1))],
    },
    Case {
        name: "process 1 exits with the least status",
        size: USUAL,
        program: Program::Calls(&[[0x8000_0000, 0, 0, EXIT]]),
        acts: &[Steps(NEXT_CALL - 1), Halts(Halt::InitEnded(i32::MIN))],
    },
];

#[test]
fn runs(rt: HostRuntime) {
    run_each(&rt, &RUNS);
}

// A name, a call, its answer, and what is printed. The program's own first bytes are 93 02 00 02.
static WRITES: [(&str, [u64; 4], u64, &[u8]); 16] = [
    ("standard input", [0, 0, 2, WRITE], 2, &[0x93, 0x02]),
    ("standard error", [2, 1, 1, WRITE], 1, &[0x02]),
    (
        "low words",
        [0x1_0000_0001, 0, 0x1_0000_0001, WRITE],
        1,
        &[0x93],
    ),
    ("no bytes", [1, 0x1000, 0, WRITE], 0, &[]),
    ("no bytes at -1", [1, MINUS_ONE, 0, WRITE], 0, &[]),
    ("a free descriptor", [3, 0, 2, WRITE], MINUS_ONE, &[]),
    ("descriptor 16", [16, 0, 2, WRITE], MINUS_ONE, &[]),
    ("descriptor -1", [MINUS_ONE, 0, 2, WRITE], MINUS_ONE, &[]),
    ("-1 bytes", [1, 0, 0xffff_ffff, WRITE], MINUS_ONE, &[]),
    ("least count", [1, 0, 0x8000_0000, WRITE], MINUS_ONE, &[]),
    ("a page's end", [1, 4095, 1, WRITE], 1, &[0]),
    ("across that end", [1, 4095, 2, WRITE], MINUS_ONE, &[]),
    ("below the stack", [1, 4096, 1, WRITE], MINUS_ONE, &[]),
    ("the stack's end", [1, 12287, 1, WRITE], 1, &[0]),
    ("across its end", [1, 12287, 2, WRITE], MINUS_ONE, &[]),
    ("address -1", [1, MINUS_ONE, 1, WRITE], MINUS_ONE, &[]),
];

#[test]
fn writes(rt: HostRuntime) {
    for (name, call, a0, text) in &WRITES {
        let case = Case {
            name,
            size: USUAL,
            program: Program::Calls(&[*call]),
            acts: &[Steps(NEXT_CALL), Answer(1, *a0), Printed(text)],
        };
        run_each(&rt, &[case]);
    }
}
