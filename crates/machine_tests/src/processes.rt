//! Processes that fork, wait, kill, sleep and take turns.
use crate::play::Act::{
    Answer, Bytes, Free, Gone, Halts, Is, Killed, NoPage, NoTables, Parent, Pc, Printed, Round,
    Size, Steps, Stores, Turn,
};
use crate::play::{
    Act, Case, EXIT, FIRST_ANSWER, FORK, GETPID, KILL, MINUS_ONE, NEXT_ANSWER, Program, READY,
    ROOM, RUNNING, Row, SLEEP, SLEEPING, USUAL, WAIT, WAITING, run_each,
};
use machine::{Halt, ProcessState};

const FORKS: Row = Row([0, 0, 0, FORK], 0);

// A child goes on with the fourth word; its parent waits with address 0x2000.
const ZEROS: [u32; 7] = [
    0x0010_0893, // addi a7, zero, 1
    0x0000_0073, // ecall
    0x0005_1463, // bne  a0, zero, 8
    0x0000_0000,
    0x0000_2537, // lui  a0, 2
    0x0030_0893, // addi a7, zero, 3
    0x0000_0073, // ecall
];

const ONES: [u32; 7] = [
    0x0010_0893, // addi a7, zero, 1
    0x0000_0073, // ecall
    0x0005_1463, // bne  a0, zero, 8
    0xffff_ffff,
    0x0000_2537, // lui  a0, 2
    0x0030_0893, // addi a7, zero, 3
    0x0000_0073, // ecall
];

// What a child does that meets a word which is no instruction.
const STUMBLES: [Act; 10] = [
    // the fork, the parent's wait, the child's turn and its branch
    Steps(3 + 4 + 1 + 1),
    Is(2, RUNNING),
    Steps(1),
    Is(2, ProcessState::Zombie(-1)),
    Pc(2, 12),
    Bytes(1, 0x2000, &[0; 5]),
    Steps(1),
    Bytes(1, 0x2000, &[0xff, 0xff, 0xff, 0xff, 0]),
    Answer(1, 2),
    Free(55),
];

// Stores 1 at 0x2000 and forks; the child stores 5 there, and its parent 7.
const STORES: [u32; 8] = [
    0x0000_22b7, // lui  t0, 2
    0x0010_0313, // addi t1, zero, 1
    0x0062_8023, // sb   t1, 0(t0)
    0x0010_0893, // addi a7, zero, 1
    0x0000_0073, // ecall
    0x0055_0313, // addi t1, a0, 5
    0x0062_8023, // sb   t1, 0(t0)
    0x0000_006f, // jal  zero, 0
];

// Six forks, a pipe and a seventh fork; each child stores its pid at 0x700 and at 0x2100, and then turns round.
const SIX: [u32; 18] = [
    0x0060_0293, // addi t0, zero, 6
    0x0010_0893, // addi a7, zero, 1
    0x0000_0073, // ecall
    0x0205_0263, // beq  a0, zero, 36
    0xfff2_8293, // addi t0, t0, -1
    0xfe02_9ae3, // bne  t0, zero, -12
    0x0000_2537, // lui  a0, 2
    0x0040_0893, // addi a7, zero, 4
    0x0000_0073, // ecall
    0x0010_0893, // addi a7, zero, 1
    0x0000_0073, // ecall
    0x0000_006f, // jal  zero, 0
    0x00b0_0893, // addi a7, zero, 11
    0x0000_0073, // ecall
    0x0000_22b7, // lui  t0, 2
    0x70a0_0023, // sb   a0, 0x700(zero)
    0x10a2_8023, // sb   a0, 0x100(t0)
    0x0000_006f, // jal  zero, 0
];

// 64 forks, of which the last finds no free slot, and then 64 processes that count for ever.
const CROWD: [u32; 8] = [
    0x0400_0293, // addi t0, zero, 64
    0x0010_0893, // addi a7, zero, 1
    0x0000_0073, // ecall
    0x0005_0663, // beq  a0, zero, 12
    0xfff2_8293, // addi t0, t0, -1
    0xfe02_98e3, // bne  t0, zero, -16
    0x0013_0313, // addi t1, t1, 1
    0xfe00_0ee3, // beq  zero, zero, -4
];

static RUNS: [Case; 13] = [
    Case {
        name: "a process forks until no frames are left",
        size: USUAL,
        program: Program::Family(&[FORKS, FORKS, FORKS, FORKS, FORKS, FORKS, FORKS]),
        acts: &[
            Steps(FIRST_ANSWER),
            Answer(1, 2),
            Free(46),
            Steps(NEXT_ANSWER),
            Answer(1, 3),
            Free(37),
            Steps(NEXT_ANSWER),
            Answer(1, 4),
            Free(28),
            Steps(NEXT_ANSWER),
            Answer(1, 5),
            Free(19),
            Steps(NEXT_ANSWER),
            Answer(1, 6),
            Free(10),
            Steps(NEXT_ANSWER),
            Answer(1, 7),
            Free(1),
            Steps(NEXT_ANSWER),
            Answer(1, MINUS_ONE),
            Free(1),
            Parent(7, 1),
            Pc(7, 24),
            Size(7, 12288),
            Answer(7, 0),
            Is(7, READY),
            Gone(8),
        ],
    },
    Case {
        name: "frames come back as a child is waited for",
        size: USUAL,
        program: Program::Family(&[
            Row([0, 0, 0, FORK], 2),
            Row([0, 0, 0, WAIT], 0),
            Row([5, 0, 0, EXIT], 0),
        ]),
        acts: &[
            Steps(FIRST_ANSWER),
            Answer(1, 2),
            Free(46),
            Steps(NEXT_ANSWER),
            Is(1, WAITING),
            Steps(1),
            Is(2, RUNNING),
            Steps(NEXT_ANSWER),
            Is(2, ProcessState::Zombie(5)),
            Free(46),
            Steps(1),
            Is(1, RUNNING),
            Gone(2),
            NoPage(2, 0),
            NoTables(2),
            Answer(1, 2),
            Free(55),
        ],
    },
    Case {
        name: "a word of zeros ends a child",
        size: USUAL,
        program: Program::Words(&ZEROS, &[]),
        acts: &STUMBLES,
    },
    Case {
        name: "a word of ones ends a child",
        size: USUAL,
        program: Program::Words(&ONES, &[]),
        acts: &STUMBLES,
    },
    Case {
        name: "parent and child store to pages of their own",
        size: USUAL,
        program: Program::Words(&STORES, &[]),
        acts: &[
            Steps(1 + 5),
            Bytes(1, 0x2000, &[1]),
            Bytes(2, 0x2000, &[1]),
            Stores(1, 0x2000, false),
            // a store is done in its step, also where the page was shared
            Steps(2),
            Bytes(1, 0x2000, &[7]),
            Bytes(2, 0x2000, &[1]),
            Stores(1, 0x2000, true),
            Stores(2, 0x2000, false),
            Free(46),
            Turn,
            Steps(2),
            Bytes(1, 0x2000, &[7]),
            Bytes(2, 0x2000, &[5]),
            Pc(2, 28),
            Free(46),
        ],
    },
    // With no frame left each store finds one, and its byte is in that process alone.
    Case {
        name: "six children store to pages of their own",
        size: USUAL,
        program: Program::Words(&SIX, &[]),
        acts: &[
            Steps(1 + 2 + 6 * 4 + 5),
            Answer(1, MINUS_ONE),
            Free(0),
            Turn,
            Steps(6),
            Is(2, RUNNING),
            Turn,
            Steps(6),
            Is(3, RUNNING),
            Turn,
            Steps(6),
            Is(4, RUNNING),
            Turn,
            Steps(6),
            Is(5, RUNNING),
            Turn,
            Steps(6),
            Is(6, RUNNING),
            Turn,
            Steps(6),
            Is(7, RUNNING),
            Free(0),
            Bytes(1, 0x700, &[0]),
            Bytes(1, 0x2100, &[0]),
            Bytes(2, 0x700, &[2, 0]),
            Bytes(2, 0x2100, &[2, 0]),
            Bytes(3, 0x700, &[3, 0]),
            Bytes(3, 0x2100, &[3, 0]),
            Bytes(4, 0x700, &[4, 0]),
            Bytes(4, 0x2100, &[4, 0]),
            Bytes(5, 0x700, &[5, 0]),
            Bytes(5, 0x2100, &[5, 0]),
            Bytes(6, 0x700, &[6, 0]),
            Bytes(6, 0x2100, &[6, 0]),
            Bytes(7, 0x700, &[7, 0]),
            Bytes(7, 0x2100, &[7, 0]),
        ],
    },
    Case {
        name: "a wait that cannot write leaves the child",
        size: USUAL,
        program: Program::Family(&[
            Row([0, 0, 0, FORK], 3),
            Row([0x1000, 0, 0, WAIT], 0),
            Row([0, 0, 0, WAIT], 0),
            Row([0, 0, 0, EXIT], 0),
        ]),
        acts: &[
            Steps(FIRST_ANSWER),
            Turn,
            Steps(NEXT_ANSWER),
            Is(2, ProcessState::Zombie(0)),
            Steps(1 + NEXT_ANSWER),
            Answer(1, MINUS_ONE),
            Free(46),
            Steps(NEXT_ANSWER),
            Answer(1, 2),
            Free(55),
        ],
    },
    // 1 forks 2, 2 forks 3, 2 exits, and then 3.
    Case {
        name: "orphans go to process 1",
        size: USUAL,
        program: Program::Family(&[
            Row([0, 0, 0, FORK], 3),
            Row([0, 0, 0, WAIT], 0),
            Row([0, 0, 0, WAIT], 0),
            Row([0, 0, 0, FORK], 5),
            Row([7, 0, 0, EXIT], 0),
            Row([8, 0, 0, EXIT], 0),
        ]),
        acts: &[
            Steps(FIRST_ANSWER),
            // the wait, the turn of 2, and its fork
            Steps(NEXT_ANSWER + 1 + NEXT_ANSWER),
            Answer(2, 3),
            Free(37),
            Parent(3, 2),
            Steps(NEXT_ANSWER),
            Is(2, ProcessState::Zombie(7)),
            Parent(3, 1),
            Steps(1 + NEXT_ANSWER),
            Is(3, ProcessState::Zombie(8)),
            Steps(1),
            Answer(1, 2),
            Free(46),
            Steps(NEXT_ANSWER),
            Answer(1, 3),
            Free(55),
        ],
    },
    Case {
        name: "a process is killed by its pid",
        size: USUAL,
        program: Program::Family(&[
            Row([0, 0, 0, KILL], 0),
            Row([MINUS_ONE, 0, 0, KILL], 0),
            Row([0, 0, 0, FORK], 5),
            Row([2, 0, 0, KILL], 4),
            Row([1, 0, 0, KILL], 4),
            Row([3, 0, 0, EXIT], 0),
        ]),
        acts: &[
            Steps(FIRST_ANSWER),
            Answer(1, MINUS_ONE),
            Free(55),
            Steps(NEXT_ANSWER),
            Answer(1, MINUS_ONE),
            Free(55),
            Steps(NEXT_ANSWER),
            Turn,
            Steps(NEXT_ANSWER),
            Is(2, ProcessState::Zombie(3)),
            Steps(1 + NEXT_ANSWER),
            Answer(1, 0),
            Free(46),
            Killed(2, true),
            Is(2, ProcessState::Zombie(3)),
            Steps(NEXT_ANSWER - 1),
            Halts(Halt::InitEnded(-1)),
            Killed(1, true),
            Is(1, ProcessState::Zombie(-1)),
            Answer(1, 0),
            Pc(1, 24),
        ],
    },
    Case {
        name: "a killed sleeper ends at its turn",
        size: USUAL,
        program: Program::Family(&[
            Row([0, 0, 0, FORK], 3),
            Row([2, 0, 0, KILL], 2),
            Row([0, 0, 0, WAIT], 0),
            Row([1000, 0, 0, SLEEP], 0),
        ]),
        acts: &[
            Steps(FIRST_ANSWER),
            Turn,
            Steps(NEXT_ANSWER),
            Is(2, SLEEPING),
            Steps(1 + NEXT_ANSWER),
            Answer(1, 0),
            Free(46),
            Killed(2, true),
            Is(2, SLEEPING),
            // the wait, and the turns of both
            Steps(NEXT_ANSWER + 1),
            Is(2, ProcessState::Zombie(-1)),
            Steps(1),
            Answer(1, 2),
            Free(55),
        ],
    },
    Case {
        name: "turns go round",
        size: USUAL,
        program: Program::Family(&[
            Row([0, 0, 0, FORK], 2),
            Row([0, 0, 0, FORK], 2),
            Row([0, 0, 0, GETPID], 0),
        ]),
        acts: &[
            Steps(FIRST_ANSWER + NEXT_ANSWER),
            Answer(1, 3),
            Free(37),
            Turn,
            Is(1, READY),
            Is(2, RUNNING),
            Is(3, READY),
            Turn,
            Is(1, READY),
            Is(2, READY),
            Is(3, RUNNING),
            Turn,
            Is(1, RUNNING),
            Is(2, READY),
            Is(3, READY),
            Turn,
            Is(1, READY),
            Is(2, RUNNING),
            Is(3, READY),
        ],
    },
    Case {
        name: "a process sleeps by ticks",
        size: USUAL,
        program: Program::Family(&[Row([2, 0, 0, SLEEP], 1), Row([MINUS_ONE, 0, 0, SLEEP], 2)]),
        acts: &[
            Steps(FIRST_ANSWER),
            Is(1, SLEEPING),
            Turn,
            Is(1, SLEEPING),
            Answer(1, 2),
            Turn,
            Is(1, RUNNING),
            Answer(1, 0),
            Steps(NEXT_ANSWER - 1),
            Answer(1, MINUS_ONE),
            Steps(1),
            Is(1, RUNNING),
            Answer(1, 0),
        ],
    },
    Case {
        name: "each of 64 processes has its turn",
        size: (1024, ROOM),
        program: Program::Words(&CROWD, &[]),
        acts: &[
            // the turn, and each fork with the four instructions round it, up to the last answer
            Steps(2 + 63 * 5 + 2),
            Answer(1, MINUS_ONE),
            Is(64, READY),
            Gone(65),
            Round(64),
            Printed(b""),
        ],
    },
];

#[test]
fn runs(rt: HostRuntime) {
    run_each(&rt, &RUNS);
}
