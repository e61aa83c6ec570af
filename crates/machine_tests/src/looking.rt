//! What a machine reports of its processes' holdings, of open files and pipes, and whether it has anything to do.
use crate::play::Act::{Answers, Closed, Holds, Idle, Is, Next, Opens, Pipe, Steps};
use crate::play::{
    CLOSE, Case, DUP, EXIT, FIRST_ANSWER, FORK, NEXT_ANSWER, PIPE, Program, READ, READING, Row,
    SLEEP, SLEEPING, USUAL, WRITE, run_each,
};
use machine::{Call, OpenOn, Pending, ProcessState};

// Where the stack's page begins, and an address above it, to which the reads go.
const STACK: u64 = 0x2000;

const BUFFER: u64 = 0x2800;

// A pipe, whose descriptors go to the stack's page.
const TO_STACK: [u64; 4] = [STACK, 0, 0, PIPE];

const CONSOLE: Option<u8> = Some(0);

const READ_END: Option<u8> = Some(1);

const WRITE_END: Option<u8> = Some(2);

const ON_CONSOLE: OpenOn = OpenOn::Console { number: 2 };

const FROM_PIPE: OpenOn = OpenOn::ReadEnd { pipe: 0 };

const TO_PIPE: OpenOn = OpenOn::WriteEnd { pipe: 0 };

const BOTH: (bool, bool) = (true, true);

const READABLE: (bool, bool) = (true, false);

const WRITABLE: (bool, bool) = (false, true);

static RUNS: [Case; 3] = [
    // Descriptor 0 is closed and becomes a pipe's read end, the fifth its write end. The program's first bytes go
    // through the pipe, the last ones around the end of its room.
    Case {
        name: "descriptors are shown as they come and go",
        size: USUAL,
        program: Program::Calls(&[
            [1, 0, 0, DUP],
            [0, 0, 0, CLOSE],
            TO_STACK,
            [4, 0, 5, WRITE],
            [0, BUFFER, 2, READ],
            [0, BUFFER, 9, READ],
            [4, 0, 506, WRITE],
            [0, BUFFER, 506, READ],
            [4, 0, 5, WRITE],
            [4, 0, 0, CLOSE],
        ]),
        acts: &[
            Next(0, Some(1)),
            Next(1, None),
            Holds(1, &[CONSOLE, CONSOLE, CONSOLE], 1, None),
            Opens(0, ON_CONSOLE, BOTH, 3),
            Closed(1),
            Pipe(0, None),
            Answers(&[3]),
            Opens(0, ON_CONSOLE, BOTH, 4),
            Answers(&[0]),
            Holds(1, &[None, CONSOLE, CONSOLE, CONSOLE], 1, None),
            Opens(0, ON_CONSOLE, BOTH, 3),
            Answers(&[0]),
            Holds(
                1,
                &[READ_END, CONSOLE, CONSOLE, CONSOLE, WRITE_END],
                1,
                None,
            ),
            Opens(1, FROM_PIPE, READABLE, 1),
            Opens(2, TO_PIPE, WRITABLE, 1),
            Pipe(0, Some(&[])),
            Answers(&[5]),
            Pipe(0, Some(&[0x93, 2, 0, 2, 3])),
            Answers(&[2]),
            Pipe(0, Some(&[0, 2, 3])),
            Answers(&[3, 506, 506, 5]),
            Pipe(0, Some(&[0x93, 2, 0, 2, 3])),
            Pipe(1, None),
            Answers(&[0]),
            Closed(2),
            Pipe(0, Some(&[0x93, 2, 0, 2, 3])),
        ],
    },
    // A process reads a pipe whose write end its parent holds; one has ended; the parent sleeps.
    Case {
        name: "an idle machine shows who waits for what",
        size: USUAL,
        program: Program::Family(&[
            Row(TO_STACK, 1),
            Row([0, 0, 0, FORK], 4),
            Row([0, 0, 0, FORK], 5),
            Row([1000, 0, 0, SLEEP], 0),
            Row([3, BUFFER, 4, READ], 0),
            Row([7, 0, 0, EXIT], 0),
        ]),
        acts: &[
            Steps(FIRST_ANSWER + NEXT_ANSWER),
            Idle(false, false),
            Steps(100),
            Is(1, SLEEPING),
            Is(2, READING),
            Is(3, ProcessState::Zombie(7)),
            Idle(true, true),
            Next(1, Some(2)),
            Next(2, Some(3)),
            Next(3, None),
            Holds(
                1,
                &[CONSOLE, CONSOLE, CONSOLE, READ_END, WRITE_END],
                1,
                Some(Pending {
                    number: Call::Sleep,
                    args: [1000, 0, 0],
                    done: 0,
                    since: 0,
                }),
            ),
            Holds(
                2,
                &[CONSOLE, CONSOLE, CONSOLE, READ_END, WRITE_END],
                1,
                Some(Pending {
                    number: Call::Read,
                    args: [3, BUFFER, 4],
                    done: 0,
                    since: 0,
                }),
            ),
            Holds(3, &[], 0, None),
            Opens(0, ON_CONSOLE, BOTH, 6),
            Opens(1, FROM_PIPE, READABLE, 2),
            Opens(2, TO_PIPE, WRITABLE, 2),
        ],
    },
    // A process that reads its own pipe waits for ever, and nobody sleeps.
    Case {
        name: "a machine that waits for itself is idle",
        size: USUAL,
        program: Program::Family(&[Row(TO_STACK, 1), Row([3, BUFFER, 4, READ], 0)]),
        acts: &[
            Idle(false, false),
            Steps(40),
            Is(1, READING),
            Idle(true, false),
        ],
    },
];

#[test]
fn runs(rt: HostRuntime) {
    run_each(&rt, &RUNS);
}
