//! Typed keys, and reads from the console.
use crate::play::Act::{Answer, Answered, Bytes, Is, Keys, Printed, Steps};
use crate::play::{Case, MINUS_ONE, NEXT_CALL, Program, READ, READING, RUNNING, USUAL, run_each};

// Where the stack's page begins, into which the reads go.
const BUFFER: u64 = 0x2000;

// 128 times a, b and a line feed.
const MANY: &[u8] = b"\
    aaaaaaaaaaaaaaaaaaaaaaaaaaaaaaaaaaaaaaaaaaaaaaaaaaaaaaaaaaaaaaaa\
    aaaaaaaaaaaaaaaaaaaaaaaaaaaaaaaaaaaaaaaaaaaaaaaaaaaaaaaaaaaaaaaa\
    b\n";

const REFUSED: (u64, u32) = (MINUS_ONE, 55);

static RUNS: [Case; 4] = [
    Case {
        name: "an edited line is read at its turn",
        size: USUAL,
        program: Program::Calls(&[[0, BUFFER, 10, READ]]),
        acts: &[
            Steps(NEXT_CALL),
            Is(1, READING),
            Keys(b"ab\x7fc"),
            Steps(1),
            Is(1, READING),
            Keys(b"\r"),
            Is(1, READING),
            Bytes(1, BUFFER, &[0, 0, 0]),
            Steps(1),
            Is(1, RUNNING),
            Answer(1, 3),
            Bytes(1, BUFFER, b"ac\n\0"),
            Printed(b"ab\x08 \x08c\n"),
        ],
    },
    // 129 keys: the last doesn't fit, and a read of 200 takes the others and waits.
    Case {
        name: "a read takes more than the console holds",
        size: USUAL,
        program: Program::Calls(&[[1, BUFFER, 200, READ]]),
        acts: &[
            Keys(&[b'a'; 129]),
            Steps(NEXT_CALL),
            Is(1, READING),
            Bytes(1, BUFFER, &[b'a'; 128]),
            Steps(2),
            Is(1, READING),
            Keys(b"b\n"),
            Steps(1),
            Answer(1, 130),
            Bytes(1, BUFFER + 126, b"aab\n\0"),
            Printed(MANY),
        ],
    },
    Case {
        name: "the input ends",
        size: USUAL,
        program: Program::Calls(&[[2, BUFFER, 10, READ], [0, BUFFER, 10, READ]]),
        acts: &[
            Keys(b"x\x04"),
            Steps(NEXT_CALL),
            Answer(1, 1),
            Steps(NEXT_CALL),
            Answer(1, 0),
            Bytes(1, BUFFER, b"x\0"),
        ],
    },
    Case {
        name: "some reads are refused",
        size: USUAL,
        program: Program::Calls(&[
            [3, BUFFER, 1, READ],
            [0, BUFFER, MINUS_ONE, READ],
            [0, 0x1000, 1, READ],
            [0, BUFFER, 0x1001, READ],
            [0, 0x1000, 0, READ],
        ]),
        acts: &[Answered(&[REFUSED, REFUSED, REFUSED, REFUSED, (0, 55)])],
    },
];

#[test]
fn runs(rt: HostRuntime) {
    run_each(&rt, &RUNS);
}
