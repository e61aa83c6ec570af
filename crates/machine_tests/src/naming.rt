//! Calls on names, and on what descriptors are open on.
use crate::play::Act::{Answered, Answers, Bytes};
use crate::play::{Case, FSTAT, MINUS_ONE, MKDIR, MKNOD, OPEN, PIPE, Program, USUAL, run_each};

const DONE: (u64, u32) = (0, 55);

const REFUSED: (u64, u32) = (MINUS_ONE, 55);

// The paths of what is made, or isn't, follow ten calls.
const BEHIND_10: u64 = 32 + 32 * 10;

const DEVICE: u64 = BEHIND_10;

const DIRECTORY: u64 = BEHIND_10 + 8;

const BELOW: u64 = BEHIND_10 + 16;

const NOWHERE: u64 = BEHIND_10 + 24;

const ITSELF: u64 = BEHIND_10 + 32;

const ABOVE: u64 = BEHIND_10 + 40;

const THROUGH: u64 = BEHIND_10 + 48;

// As many names follow fourteen calls.
const BEHIND_14: u64 = 32 + 32 * 14;

// Where the stack's page begins, to which fstat writes.
const BUFFER: u64 = 0x2000;

static RUNS: [Case; 4] = [
    Case {
        name: "devices and directories are made",
        size: USUAL,
        program: Program::Calls(&[
            [DEVICE, 2, 0, MKNOD],
            [DEVICE, 2, 0, MKNOD],
            [DIRECTORY, 0, 0, MKDIR],
            [DIRECTORY, 0, 0, MKDIR],
            [BELOW, 0, 0, MKDIR],
            [NOWHERE, 0, 0, MKDIR],
            [ITSELF, 0, 0, MKDIR],
            [ABOVE, 1, 1, MKNOD],
            [THROUGH, 1, 1, MKNOD],
            [0x1000, 1, 1, MKNOD],
            // n, d, d/e and x/e
            [0x6e, 0x64, 0x65_2f64, 0x65_2f78],
            // ., d/.. and n/e
            [0x2e, 0x2e2e_2f64, 0x65_2f6e, 0],
        ]),
        acts: &[Answered(&[
            DONE, REFUSED, DONE, REFUSED, DONE, REFUSED, REFUSED, REFUSED, REFUSED, REFUSED,
        ])],
    },
    // Fourteen numbers are free of the sixteen: 0 is none, 1 the root's and 2 the console's.
    Case {
        name: "thirteen devices are made",
        size: USUAL,
        program: Program::Calls(&[
            [BEHIND_14, 1, 1, MKNOD],
            [BEHIND_14 + 8, 1, 1, MKNOD],
            [BEHIND_14 + 16, 1, 1, MKNOD],
            [BEHIND_14 + 24, 1, 1, MKNOD],
            [BEHIND_14 + 32, 1, 1, MKNOD],
            [BEHIND_14 + 40, 1, 1, MKNOD],
            [BEHIND_14 + 48, 1, 1, MKNOD],
            [BEHIND_14 + 56, 1, 1, MKNOD],
            [BEHIND_14 + 64, 1, 1, MKNOD],
            [BEHIND_14 + 72, 1, 1, MKNOD],
            [BEHIND_14 + 80, 1, 1, MKNOD],
            [BEHIND_14 + 88, 1, 1, MKNOD],
            [BEHIND_14 + 96, 1, 1, MKNOD],
            [BEHIND_14 + 104, 1, 1, MKNOD],
            [0x61, 0x62, 0x63, 0x64],
            [0x65, 0x66, 0x67, 0x68],
            [0x69, 0x6a, 0x6b, 0x6c],
            [0x6d, 0x6e, 0, 0],
        ]),
        acts: &[Answered(&[
            DONE, DONE, DONE, DONE, DONE, DONE, DONE, DONE, DONE, DONE, DONE, DONE, DONE, REFUSED,
        ])],
    },
    // The console is device 1's node 2, of type 3 and with one link; the root its node 1, of type 1, with 48 bytes.
    // A slash follows the calls.
    Case {
        name: "fstat says what a descriptor is open on",
        size: USUAL,
        program: Program::Calls(&[
            [0, BUFFER, 0, FSTAT],
            [128, 0, 0, OPEN],
            [3, BUFFER + 24, 0, FSTAT],
            [0x2f, 0, 0, 0],
        ]),
        acts: &[
            Answers(&[0, 3, 0]),
            Bytes(
                1,
                BUFFER,
                &[
                    1, 0, 0, 0, 2, 0, 0, 0, 3, 0, 1, 0, 0, 0, 0, 0, 0, 0, 0, 0, 0, 0, 0, 0, 1, 0,
                    0, 0, 1, 0, 0, 0, 1, 0, 1, 0, 0, 0, 0, 0, 0x30, 0, 0, 0, 0, 0, 0, 0,
                ],
            ),
        ],
    },
    Case {
        name: "fstat says nothing of pipes",
        size: USUAL,
        program: Program::Calls(&[
            [BUFFER, 0, 0, PIPE],
            [3, BUFFER, 0, FSTAT],
            [5, BUFFER, 0, FSTAT],
            [0, 0x2fe8, 0, FSTAT],
            [0, 0x2fe9, 0, FSTAT],
            [0, 0x1000, 0, FSTAT],
        ]),
        acts: &[Answered(&[
            (0, 54),
            (MINUS_ONE, 54),
            (MINUS_ONE, 54),
            (0, 54),
            (MINUS_ONE, 54),
            (MINUS_ONE, 54),
        ])],
    },
];

#[test]
fn runs(rt: HostRuntime) {
    run_each(&rt, &RUNS);
}
