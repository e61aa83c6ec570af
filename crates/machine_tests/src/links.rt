//! Names that come and go: link and unlink, of what mknod and mkdir make.
use crate::play::Act::{Answer, Answered, Steps};
use crate::play::{
    Case, EXIT, FIRST_ANSWER, LINK, MINUS_ONE, MKDIR, MKNOD, NEXT_ANSWER, Program, Row, UNLINK,
    USUAL, run_each,
};

const DONE: (u64, u32) = (0, 55);

const REFUSED: (u64, u32) = (MINUS_ONE, 55);

// "n" and "m" after thirteen calls
const FIRST: u64 = 416;

const SECOND: u64 = 424;

// "d", "x", "." and ".." after twenty calls, and then "d/.", "d/n", "n" and "/"
const D: u64 = 608;

const X: u64 = 616;

const DOT: u64 = 624;

const DOT_DOT: u64 = 632;

const BELOW: u64 = 640;

const INSIDE: u64 = 648;

const N: u64 = 656;

const ROOT: u64 = 664;

// "n" after four rows
const ONLY: u64 = 184;

static RUNS: [Case; 3] = [
    Case {
        name: "a device has two names",
        size: USUAL,
        program: Program::Calls(&[
            [FIRST, 2, 0, MKNOD],
            [FIRST, SECOND, 0, LINK],
            [FIRST, SECOND, 0, LINK],
            [SECOND, FIRST, 0, LINK],
            [FIRST, 0, 0, UNLINK],
            [FIRST, 0, 0, UNLINK],
            [FIRST, SECOND, 0, LINK],
            [SECOND, FIRST, 0, LINK],
            [SECOND, 0, 0, UNLINK],
            [FIRST, 0, 0, UNLINK],
            [FIRST, 0, 0, UNLINK],
            [SECOND, 0, 0, UNLINK],
            [0x6e, 0x6d, 0, 0],
        ]),
        acts: &[Answered(&[
            DONE, DONE, REFUSED, REFUSED, DONE, REFUSED, REFUSED, DONE, DONE, DONE, REFUSED,
            REFUSED,
        ])],
    },
    Case {
        name: "no directory with names is removed",
        size: USUAL,
        program: Program::Calls(&[
            [D, 0, 0, MKDIR],
            [D, X, 0, LINK],
            [DOT, 0, 0, UNLINK],
            [DOT_DOT, 0, 0, UNLINK],
            [BELOW, 0, 0, UNLINK],
            [ROOT, 0, 0, UNLINK],
            [INSIDE, 2, 0, MKNOD],
            [D, 0, 0, UNLINK],
            [INSIDE, N, 0, LINK],
            [INSIDE, 0, 0, UNLINK],
            [D, 0, 0, UNLINK],
            [D, 0, 0, UNLINK],
            [N, INSIDE, 0, LINK],
            [N, MINUS_ONE, 0, LINK],
            [MINUS_ONE, X, 0, LINK],
            [MINUS_ONE, 0, 0, UNLINK],
            [N, X, 0, LINK],
            [N, 0, 0, UNLINK],
            [0x64, 0x78, 0x2e, 0x2e2e],
            [0x2e_2f64, 0x6e_2f64, 0x6e, 0x2f],
        ]),
        acts: &[Answered(&[
            DONE, REFUSED, REFUSED, REFUSED, REFUSED, REFUSED, DONE, REFUSED, DONE, DONE, DONE,
            REFUSED, REFUSED, REFUSED, REFUSED, REFUSED, DONE, DONE,
        ])],
    },
    // The disk has thirteen free numbers.
    Case {
        name: "the number of what goes is free",
        size: USUAL,
        program: Program::Family(&[
            Row([ONLY, 2, 0, MKNOD], 1),
            Row([ONLY, 0, 0, UNLINK], 0),
            Row([0, 0, 0, EXIT], 0),
            Row([0x6e, 0, 0, 0], 0),
        ]),
        acts: &[
            Steps(FIRST_ANSWER),
            Answer(1, 0),
            Steps(39 * NEXT_ANSWER),
            Answer(1, 0),
        ],
    },
];

#[test]
fn runs(rt: HostRuntime) {
    run_each(&rt, &RUNS);
}
