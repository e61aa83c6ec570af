//! What a machine reports of the files of its disk.
use crate::play::Act::{Halts, Mute, Node, Printed, Reads, Steps};
use crate::play::{Case, EXIT, MKDIR, MKNOD, NEXT_CALL, Program, USUAL, WRITE, run_each};
use machine::{Halt, Stat};

const IDLE: Program<'static> = Program::Calls(&[]);

// A root with ".", ".." and the console.
const ROOT: Stat = Stat {
    kind: 1,
    links: 1,
    size: 48,
};

const CONSOLE: Stat = Stat {
    kind: 3,
    links: 1,
    size: 0,
};

const DEVICE: Stat = CONSOLE;

// A directory with "." and "..".
const EMPTY: Stat = Stat {
    kind: 1,
    links: 1,
    size: 32,
};

// The entries of the root, each of 16 bytes: a number, and a name.
const PLACES: [u8; 48] = [
    1, 0, 0x2e, 0, 0, 0, 0, 0, 0, 0, 0, 0, 0, 0, 0, 0, 1, 0, 0x2e, 0x2e, 0, 0, 0, 0, 0, 0, 0, 0, 0,
    0, 0, 0, 2, 0, 0x63, 0x6f, 0x6e, 0x73, 0x6f, 0x6c, 0x65, 0, 0, 0, 0, 0, 0, 0,
];

// Two names follow three calls.
const NAMES: u64 = 32 + 32 * 3;

const ROOT_OF_4: Stat = Stat { size: 64, ..ROOT };

const ROOT_OF_5: Stat = Stat {
    kind: 1,
    links: 2,
    size: 80,
};

static RUNS: [Case; 5] = [
    // Number 0 is never in use, and no inode has number 16.
    Case {
        name: "each number is shown",
        size: USUAL,
        program: IDLE,
        acts: &[
            Node(0, None),
            Node(1, Some(ROOT)),
            Node(2, Some(CONSOLE)),
            Node(3, None),
            Node(15, None),
            Node(16, None),
            Node(17, None),
            Node(1000, None),
            Node(usize::MAX, None),
        ],
    },
    Case {
        name: "the root is read",
        size: USUAL,
        program: IDLE,
        acts: &[
            Reads(1, 0, 64, &PLACES),
            Reads(1, 0, 48, &PLACES),
            Reads(1, 0, 6, &[1, 0, 0x2e, 0, 0, 0]),
            Reads(1, 16, 4, &[1, 0, 0x2e, 0x2e]),
            Reads(1, 31, 4, &[0, 2, 0, 0x63]),
            Reads(1, 34, 7, b"console"),
            Reads(1, 46, 10, &[0, 0]),
            Reads(1, 47, 10, &[0]),
            Reads(1, 48, 10, &[]),
            Reads(1, 1000, 10, &[]),
            Reads(1, usize::MAX, 10, &[]),
            Reads(1, 0, 0, &[]),
        ],
    },
    // The console has no bytes, and neither has a number that is free or that no inode has.
    Case {
        name: "nothing is read where there are no bytes",
        size: USUAL,
        program: IDLE,
        acts: &[
            Reads(2, 0, 10, &[]),
            Reads(0, 0, 10, &[]),
            Reads(3, 0, 10, &[]),
            Reads(15, 10, 10, &[]),
            Reads(16, 0, 10, &[]),
            Reads(usize::MAX, usize::MAX, 10, &[]),
        ],
    },
    // Between two steps, and after process 1 has ended: a device comes, and then a directory, which gives the root a
    // link.
    Case {
        name: "what calls make is shown",
        size: USUAL,
        program: Program::Calls(&[
            [NAMES, 2, 0, MKNOD],
            [NAMES + 8, 0, 0, MKDIR],
            [7, 0, 0, EXIT],
            // n and d
            [0x6e, 0x64, 0, 0],
        ]),
        acts: &[
            Node(3, None),
            Steps(NEXT_CALL),
            Node(1, Some(ROOT_OF_4)),
            Node(3, Some(DEVICE)),
            Node(4, None),
            Reads(1, 48, 4, &[3, 0, 0x6e, 0]),
            Steps(NEXT_CALL),
            Node(1, Some(ROOT_OF_5)),
            Node(4, Some(EMPTY)),
            Reads(4, 16, 4, &[1, 0, 0x2e, 0x2e]),
            Steps(NEXT_CALL - 1),
            Halts(Halt::InitEnded(7)),
            Node(4, Some(EMPTY)),
            Reads(4, 0, 4, &[4, 0, 0x2e, 0]),
        ],
    },
    Case {
        name: "nothing is shown once the console has failed",
        size: (64, 1),
        program: Program::Calls(&[[1, 0, 1, WRITE], [1, 0, 1, WRITE]]),
        acts: &[
            Steps(NEXT_CALL),
            Node(1, Some(ROOT)),
            Steps(NEXT_CALL - 1),
            Halts(Halt::Console),
            Mute,
            Printed(&[0x93]),
        ],
    },
];

#[test]
fn runs(rt: HostRuntime) {
    run_each(&rt, &RUNS);
}
