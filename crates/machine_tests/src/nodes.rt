//! Files of many blocks, and nodes that live on without a name.
use crate::play::Act::{Answers, Bytes, Node};
use crate::play::{
    CHDIR, CLOSE, Case, FSTAT, MINUS_ONE, MKDIR, MKNOD, OPEN, Program, READ, SBRK, UNLINK, USUAL,
    WRITE, run_each,
};
use machine::Stat;

// A new file, open for writing alone.
const NEW: u64 = 0x201;

// Where the stack's page begins, into which the reads go.
const STACK: u64 = 0x2000;

// Where the pages begin that sbrk gives, from which the writes come.
const HEAP: u64 = 0x3000;

const FILE: Stat = Stat {
    kind: 2,
    links: 1,
    size: 0,
};

// A directory with "." and "..".
const FOLDER: Stat = Stat {
    kind: 1,
    links: 1,
    size: 32,
};

static RUNS: [Case; 4] = [
    // 26 blocks are free: those of 25600 bytes, and the block of their numbers.
    // `f`, `n`, `m` and `q` follow the calls.
    Case {
        name: "a write ends with the blocks",
        size: USUAL,
        program: Program::Calls(&[
            [28672, 0, 0, SBRK],
            [352, NEW, 0, OPEN],
            [3, HEAP, 25601, WRITE],
            [3, STACK, 0, FSTAT],
            [360, 2, 0, MKNOD],
            [368, 0, 0, MKDIR],
            [360, 0, 0, OPEN],
            [4, STACK, 1, READ],
            [376, 10, 0, MKNOD],
            [376, 0, 0, OPEN],
            [0x66, 0x6e, 0x6d, 0x71],
        ]),
        acts: &[
            Answers(&[0x3000, 3, MINUS_ONE, 0]),
            Bytes(
                1,
                STACK,
                &[
                    1, 0, 0, 0, 3, 0, 0, 0, 2, 0, 1, 0, 0, 0, 0, 0, 0, 0x64, 0, 0, 0, 0, 0, 0,
                ],
            ),
            Answers(&[0, MINUS_ONE, 4, MINUS_ONE, 0, MINUS_ONE]),
            Node(
                3,
                Some(Stat {
                    size: 25600,
                    ..FILE
                }),
            ),
        ],
    },
    // The twelfth block of a file comes with the block of its numbers, or not at all.
    // Files of eleven and of twelve blocks leave two free, of which directories take one or both.
    // `f`, `g`, `d` and `e` follow the calls.
    Case {
        name: "one free block stays free",
        size: USUAL,
        program: Program::Calls(&[
            [0x3000, 0, 0, SBRK],
            [480, NEW, 0, OPEN],
            [3, HEAP, 11264, WRITE],
            [488, NEW, 0, OPEN],
            [4, HEAP, 12288, WRITE],
            [496, 0, 0, MKDIR],
            [3, HEAP, 1, WRITE],
            [504, 0, 0, MKDIR],
            [3, HEAP, 1, WRITE],
            [504, 0, 0, UNLINK],
            [496, 0, 0, UNLINK],
            [3, HEAP, 1, WRITE],
            [496, 0, 0, MKDIR],
            [3, HEAP, 1, WRITE],
            [0x66, 0x67, 0x64, 0x65],
        ]),
        acts: &[
            Answers(&[0x3000, 3, 11264, 4, 12288, 0, MINUS_ONE]),
            Node(
                3,
                Some(Stat {
                    size: 11264,
                    ..FILE
                }),
            ),
            Answers(&[0, MINUS_ONE, 0, 0, 1, MINUS_ONE, 1]),
            Node(
                3,
                Some(Stat {
                    size: 11266,
                    ..FILE
                }),
            ),
        ],
    },
    // A file that takes all blocks loses its name while it is open.
    // `f` and `d` follow the calls.
    Case {
        name: "an open file keeps its blocks",
        size: USUAL,
        program: Program::Calls(&[
            [28672, 0, 0, SBRK],
            [480, NEW, 0, OPEN],
            [3, 0, 8, WRITE],
            [3, HEAP, 25592, WRITE],
            [480, 0, 0, OPEN],
            [3, 0, 0, CLOSE],
            [480, 0, 0, UNLINK],
            [480, 0, 0, OPEN],
            [488, 0, 0, MKDIR],
            [4, STACK, 8, READ],
            [4, 0, 0, CLOSE],
            [488, 0, 0, MKDIR],
            [480, NEW, 0, OPEN],
            [3, HEAP, 24577, WRITE],
            [0x66, 0x64, 0, 0],
        ]),
        acts: &[
            Answers(&[0x3000, 3, 8, 25592, 4, 0, 0, MINUS_ONE, MINUS_ONE, 8]),
            // the program's own first bytes
            Bytes(1, STACK, &[0x93, 0x02, 0, 0x02, 0x03, 0xb5, 0x02, 0, 0]),
            Node(
                3,
                Some(Stat {
                    kind: 2,
                    links: 0,
                    size: 25600,
                }),
            ),
            Answers(&[0]),
            Node(3, None),
            Answers(&[0, 3, MINUS_ONE]),
            Node(3, Some(FOLDER)),
            Node(
                4,
                Some(Stat {
                    size: 24576,
                    ..FILE
                }),
            ),
        ],
    },
    // `d`, `/d`, `.`, `..`, `x`, `/` and an empty path follow the calls.
    Case {
        name: "nothing is found in a removed directory",
        size: USUAL,
        program: Program::Calls(&[
            [352, 0, 0, MKDIR],
            [352, 0, 0, CHDIR],
            [360, 0, 0, UNLINK],
            [368, 0, 0, OPEN],
            [376, 0, 0, OPEN],
            [384, 0, 0, MKDIR],
            [400, 0, 0, OPEN],
            [392, 0, 0, CHDIR],
            [3, 0, 0, CLOSE],
            [352, 0, 0, CHDIR],
            [0x64, 0x642f, 0x2e, 0x2e2e],
            [0x78, 0x2f, 0, 0],
        ]),
        acts: &[
            Answers(&[0, 0, 0, MINUS_ONE, MINUS_ONE, MINUS_ONE, 3]),
            Node(3, Some(Stat { links: 0, ..FOLDER })),
            Answers(&[0]),
            Node(3, Some(Stat { links: 0, ..FOLDER })),
            Answers(&[0, MINUS_ONE]),
            Node(3, None),
        ],
    },
];

#[test]
fn runs(rt: HostRuntime) {
    run_each(&rt, &RUNS);
}
