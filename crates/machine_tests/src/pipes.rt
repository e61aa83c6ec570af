//! Descriptors, and pipes between processes.
use crate::play::Act::{Answer, Answered, Bytes, Free, Is, Steps, Turn};
use crate::play::{
    CLOSE, Case, DUP, FIRST_ANSWER, FORK, MINUS_ONE, NEXT_ANSWER, PIPE, Program, READ, READING,
    RUNNING, Row, SLEEP, USUAL, WRITE, WRITING, run_each,
};

// Where the stack's page begins, and an address above it, to which the reads go.
const STACK: u64 = 0x2000;

const BUFFER: u64 = 0x2800;

// A sleep that no test waits for.
const LONG: Row = Row([1000, 0, 0, SLEEP], 0);

const ONE_MORE: [u64; 4] = [1, 0, 0, DUP];

// A pipe, whose descriptors go to the stack's page.
const TO_STACK: [u64; 4] = [STACK, 0, 0, PIPE];

const REFUSED: (u64, u32) = (MINUS_ONE, 55);

const DUPLICATE: Row = Row(ONE_MORE, 0);

const CHILD: [u64; 4] = [0, 0, 0, FORK];

static RUNS: [Case; 10] = [
    Case {
        name: "a duplicate takes the lowest free descriptor",
        size: USUAL,
        program: Program::Calls(&[
            ONE_MORE,
            ONE_MORE,
            ONE_MORE,
            ONE_MORE,
            ONE_MORE,
            ONE_MORE,
            ONE_MORE,
            ONE_MORE,
            ONE_MORE,
            ONE_MORE,
            ONE_MORE,
            ONE_MORE,
            ONE_MORE,
            ONE_MORE,
            [0, 0, 0, CLOSE],
            ONE_MORE,
            [16, 0, 0, DUP],
            [16, 0, 0, CLOSE],
            [MINUS_ONE, 0, 0, CLOSE],
        ]),
        acts: &[Answered(&[
            (3, 55),
            (4, 55),
            (5, 55),
            (6, 55),
            (7, 55),
            (8, 55),
            (9, 55),
            (10, 55),
            (11, 55),
            (12, 55),
            (13, 55),
            (14, 55),
            (15, 55),
            REFUSED,
            (0, 55),
            (0, 55),
            REFUSED,
            REFUSED,
            REFUSED,
        ])],
    },
    // With descriptors 0 to 13 in use a pipe takes the last two.
    Case {
        name: "a pipe takes two descriptors",
        size: USUAL,
        program: Program::Family(&[
            DUPLICATE,
            DUPLICATE,
            DUPLICATE,
            DUPLICATE,
            DUPLICATE,
            DUPLICATE,
            DUPLICATE,
            DUPLICATE,
            DUPLICATE,
            DUPLICATE,
            DUPLICATE,
            Row(TO_STACK, 0),
        ]),
        acts: &[
            Steps(FIRST_ANSWER + 11 * NEXT_ANSWER),
            Answer(1, 0),
            Free(54),
            Bytes(1, STACK, &[14, 0, 0, 0, 15, 0, 0, 0, 0]),
        ],
    },
    Case {
        name: "a pipe that finds one descriptor is refused",
        size: USUAL,
        program: Program::Calls(&[
            ONE_MORE, ONE_MORE, ONE_MORE, ONE_MORE, ONE_MORE, ONE_MORE, ONE_MORE, ONE_MORE,
            ONE_MORE, ONE_MORE, ONE_MORE, ONE_MORE, TO_STACK,
        ]),
        acts: &[Answered(&[
            (3, 55),
            (4, 55),
            (5, 55),
            (6, 55),
            (7, 55),
            (8, 55),
            (9, 55),
            (10, 55),
            (11, 55),
            (12, 55),
            (13, 55),
            (14, 55),
            REFUSED,
        ])],
    },
    Case {
        name: "a pipe takes a frame until both ends close",
        size: USUAL,
        program: Program::Calls(&[
            [0x1000, 0, 0, PIPE],
            TO_STACK,
            [3, 0, 0, CLOSE],
            [3, 0, 0, CLOSE],
            [4, 0, 0, CLOSE],
        ]),
        acts: &[Answered(&[REFUSED, (0, 54), (0, 54), (MINUS_ONE, 54), (0, 55)])],
    },
    Case {
        name: "six children leave room for one pipe",
        size: USUAL,
        program: Program::Calls(&[CHILD, CHILD, CHILD, CHILD, CHILD, CHILD, TO_STACK, TO_STACK]),
        acts: &[Answered(&[
            (2, 46),
            (3, 37),
            (4, 28),
            (5, 19),
            (6, 10),
            (7, 1),
            (0, 0),
            (MINUS_ONE, 0),
        ])],
    },
    // Descriptor 3 reads and 4 writes, and a count of 0 moves nothing.
    Case {
        name: "the ends of a pipe have a direction",
        size: USUAL,
        program: Program::Calls(&[
            TO_STACK,
            [3, STACK, 1, WRITE],
            [4, STACK, 1, READ],
            [3, STACK, 0, READ],
            [4, STACK, 0, WRITE],
            [4, 0x1000, 1, WRITE],
            [3, 0x1000, 1, READ],
            [4, STACK, MINUS_ONE, WRITE],
            [4, STACK, 5, WRITE],
            [3, BUFFER, 3, READ],
            [3, BUFFER, 9, READ],
        ]),
        acts: &[Answered(&[
            (0, 54),
            (MINUS_ONE, 54),
            (MINUS_ONE, 54),
            (0, 54),
            (0, 54),
            (MINUS_ONE, 54),
            (MINUS_ONE, 54),
            (MINUS_ONE, 54),
            (5, 54),
            (3, 54),
            (2, 54),
        ])],
    },
    // The parent writes 513 bytes, of which 512 fit, and the child reads 10 and then the rest.
    Case {
        name: "a writer waits for room",
        size: USUAL,
        program: Program::Family(&[
            Row(TO_STACK, 1),
            Row([0, 0, 0, FORK], 4),
            Row([4, STACK, 513, WRITE], 3),
            LONG,
            Row([3, BUFFER, 10, READ], 5),
            Row([3, BUFFER, 600, READ], 6),
            LONG,
        ]),
        acts: &[
            Steps(FIRST_ANSWER + 2 * NEXT_ANSWER),
            Is(1, WRITING),
            Steps(1 + NEXT_ANSWER),
            Answer(2, 10),
            Free(45),
            Is(1, WRITING),
            Bytes(2, BUFFER, &[3, 0, 0, 0, 4, 0, 0, 0, 0, 0]),
            Turn,
            Is(1, RUNNING),
            Answer(1, 513),
            Free(45),
            Turn,
            Steps(NEXT_ANSWER),
            Answer(2, 503),
            Free(45),
        ],
    },
    // The parent closed its read end, and the child closes the last one.
    Case {
        name: "a writer hears that nobody reads",
        size: USUAL,
        program: Program::Family(&[
            Row(TO_STACK, 1),
            Row([0, 0, 0, FORK], 5),
            Row([3, 0, 0, CLOSE], 3),
            Row([4, STACK, 513, WRITE], 4),
            LONG,
            Row([3, 0, 0, CLOSE], 6),
            LONG,
        ]),
        acts: &[
            Steps(FIRST_ANSWER + 3 * NEXT_ANSWER),
            Is(1, WRITING),
            Steps(1 + NEXT_ANSWER),
            Answer(2, 0),
            Free(45),
            Is(1, WRITING),
            Turn,
            Is(1, RUNNING),
            Answer(1, MINUS_ONE),
            Free(45),
        ],
    },
    // The parent closed its write end, and the child closes the last one.
    Case {
        name: "a reader hears that nobody writes",
        size: USUAL,
        program: Program::Family(&[
            Row(TO_STACK, 1),
            Row([0, 0, 0, FORK], 5),
            Row([4, 0, 0, CLOSE], 3),
            Row([3, BUFFER, 1, READ], 4),
            LONG,
            Row([4, 0, 0, CLOSE], 6),
            LONG,
        ]),
        acts: &[
            Steps(FIRST_ANSWER + 3 * NEXT_ANSWER),
            Is(1, READING),
            Steps(1 + NEXT_ANSWER),
            Is(1, READING),
            Turn,
            Is(1, RUNNING),
            Answer(1, 0),
            Free(45),
        ],
    },
    // Processes 2 and 3 wait for a byte, and process 1 writes one.
    Case {
        name: "one byte is for one reader",
        size: USUAL,
        program: Program::Family(&[
            Row(TO_STACK, 1),
            Row([0, 0, 0, FORK], 5),
            Row([0, 0, 0, FORK], 5),
            Row([4, STACK, 1, WRITE], 4),
            LONG,
            Row([3, BUFFER, 1, READ], 6),
            LONG,
        ]),
        acts: &[
            Steps(FIRST_ANSWER + 2 * NEXT_ANSWER),
            Turn,
            Steps(NEXT_ANSWER),
            Is(2, READING),
            Steps(1 + NEXT_ANSWER),
            Is(3, READING),
            Steps(1 + NEXT_ANSWER),
            Answer(1, 1),
            Free(36),
            Turn,
            Is(2, RUNNING),
            Answer(2, 1),
            Free(36),
            Turn,
            Is(1, RUNNING),
            Is(3, READING),
        ],
    },
];

#[test]
fn runs(rt: HostRuntime) {
    run_each(&rt, &RUNS);
}
