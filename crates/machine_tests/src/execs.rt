//! exec: a program replaces the running one, from a file that the running one has written.
use crate::play::Act::{
    Answer, Answered, Bytes, Free, Halts, NoPage, Page, Pc, Size, Steps, Stores,
};
use crate::play::{
    Case, EXEC, FORK, MINUS_ONE, NEXT_CALL, OPEN, Program, SBRK, USUAL, WRITE, run_each,
};
use machine::{Halt, Perm};

// A new file, open for writing alone.
const NEW: u64 = 0x201;

// After nine calls: a name, another name, argv with the name twice, and the bytes of an ELF file.
const NAME: u64 = 32 + 32 * 9;

const NOWHERE: u64 = NAME + 8;

const ARGV: u64 = NAME + 16;

const FILE: u64 = NAME + 64;

// Nine calls, of which the last one executes a program of one page. Beside the one that runs it takes eight frames.
const CALLS: [[u64; 4]; 15] = [
    [NAME, NEW, 0, OPEN],
    [3, FILE, 128, WRITE],
    [NOWHERE, ARGV, 0, EXEC],
    [NAME, 0x1000, 0, EXEC],
    [0x1000, ARGV, 0, EXEC],
    [196608, 0, 0, SBRK],
    [NAME, ARGV, 0, EXEC],
    [u64::MAX - 4095, 0, 0, SBRK],
    [NAME, ARGV, 0, EXEC],
    // p, q, argv
    [0x70, 0x71, NAME, NAME],
    [0, 0, 0, 0],
    // the header: entry 0, program headers at 64
    [0x10102464c457f, 0, 0x100f30002, 0],
    // one of them: load, R and X
    [64, 0, 0x38004000000000, 1],
    // 8 bytes from offset 120 on go to address 0
    [0x500000001, 120, 0, 0],
    // addi a7, zero, 11; ecall
    [8, 8, 0x1000, 0x7300b00893],
];

const CODE: Perm = Perm {
    w: false,
    x: true,
    u: true,
};

// A file whose program stores to its stack, which it may, and to its own page, which it may not.
const STORING: [[u64; 4]; 9] = [
    [NAME_OF_3, NEW, 0, OPEN],
    [3, NAME_OF_3 + 16, 128, WRITE],
    [NAME_OF_3, NAME_OF_3 + 8, 0, EXEC],
    // p, no arguments, and the file's header
    [0x70, 0, 0x10102464c457f, 0],
    [0x100f30002, 0, 64, 0],
    // load, R and X
    [0x38004000000000, 1, 0x500000001, 120],
    // sb zero, 0(sp); sb zero, 0(zero)
    [0, 0, 8, 8],
    [0x1000, 0x0000_0023_0001_0023, 0, 0],
    [0, 0, 0, 0],
];

const NAME_OF_3: u64 = 32 + 32 * 3;

static RUNS: [Case; 4] = [
    Case {
        name: "a page without W is not written",
        size: USUAL,
        program: Program::Calls(&STORING),
        acts: &[
            Steps(3 * NEXT_CALL),
            Answer(1, 0),
            Steps(1),
            Pc(1, 4),
            Halts(Halt::InitEnded(-1)),
            Pc(1, 4),
            Page(1, 0, CODE, &[0x23, 0, 1, 0, 0x23, 0, 0, 0]),
        ],
    },
    // Each page lets a store through where the program may write it, except those that a fork had.
    Case {
        name: "only pages that a fork had refuse a store",
        size: USUAL,
        program: Program::Calls(&FORKING),
        acts: &[
            Steps(1),
            Stores(1, 0, true),
            Stores(1, 0x1000, false),
            Stores(1, 0x2000, true),
            Steps(NEXT_CALL - 1),
            Answer(1, 2),
            Stores(1, 0, false),
            Stores(1, 0x2000, false),
            Stores(2, 0, false),
            Stores(2, 0x2000, false),
            Steps(3 * NEXT_CALL),
            Answer(1, 0),
            Stores(1, 0, false),
            Stores(1, 0x2000, true),
            Stores(2, 0, false),
            Stores(2, 0x2000, false),
        ],
    },
    // The strings of the two arguments are below the end of the stack's page, and their pointers below them.
    Case {
        name: "a file is executed",
        size: USUAL,
        program: Program::Calls(&CALLS),
        acts: &[
            Steps(9 * NEXT_CALL),
            Answer(1, 2),
            Pc(1, 0),
            Size(1, 0x3000),
            Free(55),
            Page(1, 0, CODE, &[0x93, 0x08, 0xb0, 0, 0x73, 0, 0, 0]),
            NoPage(1, 3),
            Bytes(1, 0x2ff0, &[0x70, 0]),
            Bytes(1, 0x2fe0, &[0x70, 0]),
            Bytes(1, 0x2fc0, &[0xf0, 0x2f, 0, 0, 0, 0, 0, 0]),
            Bytes(1, 0x2fc8, &[0xe0, 0x2f, 0, 0, 0, 0, 0, 0]),
            Steps(2),
            Answer(1, 1),
            Halts(Halt::InitEnded(-1)),
        ],
    },
    Case {
        name: "what does not fit beside is refused",
        size: USUAL,
        program: Program::Calls(&CALLS),
        acts: &[Answered(&[
            (3, 55),
            (128, 55),
            (MINUS_ONE, 55),
            (MINUS_ONE, 55),
            (MINUS_ONE, 55),
            (12288, 7),
            (MINUS_ONE, 7),
            (208896, 8),
            (2, 55),
        ])],
    },
];

#[test]
fn runs(rt: HostRuntime) {
    run_each(&rt, &RUNS);
}

// The same after a fork.
const FORKING: [[u64; 4]; 10] = [
    [0, 0, 0, FORK],
    [NAME_OF_4, NEW, 0, OPEN],
    [3, NAME_OF_4 + 16, 128, WRITE],
    [NAME_OF_4, NAME_OF_4 + 8, 0, EXEC],
    [0x70, 0, 0x10102464c457f, 0],
    [0x100f30002, 0, 64, 0],
    [0x38004000000000, 1, 0x500000001, 120],
    [0, 0, 8, 8],
    [0x1000, 0x0000_0023_0001_0023, 0, 0],
    [0, 0, 0, 0],
];

const NAME_OF_4: u64 = 32 + 32 * 4;
