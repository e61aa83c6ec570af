//! Paths: what open and chdir find, make and refuse.
use crate::play::Act::{Answered, Answers, Node, Steps};
use crate::play::{
    CHDIR, CLOSE, Case, MINUS_ONE, MKDIR, MKNOD, NEXT_CALL, OPEN, Program, READ, UNLINK, USUAL,
    WRITE, run_each,
};
use machine::Stat;

const CREATE: u64 = 0x200;

// A new file, open for writing alone.
const NEW: u64 = 0x201;

const TRUNCATE: u64 = 0x400;

const REFUSED: (u64, u32) = (MINUS_ONE, 55);

const DONE: (u64, u32) = (0, 55);

// The third descriptor: the first three are the console's.
const THIRD: (u64, u32) = (3, 55);

const CLOSE_THIRD: [u64; 4] = [3, 0, 0, CLOSE];

// Thirteen inodes of the disk are free, 3 to 15: one for each file, and no more.
// Then the third file goes, which has number 5, and the last file gets this number.
// The names follow the calls: one letter each.
const FOURTEEN: [[u64; 4]; 33] = [
    [960, NEW, 0, OPEN],
    CLOSE_THIRD,
    [968, NEW, 0, OPEN],
    CLOSE_THIRD,
    [976, NEW, 0, OPEN],
    CLOSE_THIRD,
    [984, NEW, 0, OPEN],
    CLOSE_THIRD,
    [992, NEW, 0, OPEN],
    CLOSE_THIRD,
    [1000, NEW, 0, OPEN],
    CLOSE_THIRD,
    [1008, NEW, 0, OPEN],
    CLOSE_THIRD,
    [1016, NEW, 0, OPEN],
    CLOSE_THIRD,
    [1024, NEW, 0, OPEN],
    CLOSE_THIRD,
    [1032, NEW, 0, OPEN],
    CLOSE_THIRD,
    [1040, NEW, 0, OPEN],
    CLOSE_THIRD,
    [1048, NEW, 0, OPEN],
    CLOSE_THIRD,
    [1056, NEW, 0, OPEN],
    CLOSE_THIRD,
    [1064, NEW, 0, OPEN],
    [976, 0, 0, UNLINK],
    [1064, NEW, 0, OPEN],
    [0x61, 0x62, 0x63, 0x64],
    [0x65, 0x66, 0x67, 0x68],
    [0x69, 0x6a, 0x6b, 0x6c],
    [0x6d, 0x6e, 0, 0],
];

// A file without bytes.
const EMPTY_FILE: Stat = Stat {
    kind: 2,
    links: 1,
    size: 0,
};

// The address of the paths that are opened, and eight slashes.
const SLASHES: u64 = 0x2f2f_2f2f_2f2f_2f2f;

const LONG: u64 = 480;

const CUT: u64 = 496;

const DEVICE: u64 = 512;

const NOTHING: u64 = 520;

const EMPTY: u64 = 528;

const ROOT: u64 = 545;

// The address of the name of a file that is opened with each flag, and that of its bytes.
const NAME: u64 = 480;

const BUFFER: u64 = 0x2800;

// The addresses of the paths that are looked up in two directories.
const FOLDER: u64 = 448;

const FILE: u64 = 456;

const ABOVE: u64 = 464;

const WITHIN: u64 = 472;

static RUNS: [Case; 5] = [
    Case {
        name: "open makes a file for each free number",
        size: USUAL,
        program: Program::Calls(&FOURTEEN),
        acts: &[Answered(&[
            THIRD, DONE, THIRD, DONE, THIRD, DONE, THIRD, DONE, THIRD, DONE, THIRD, DONE, THIRD,
            DONE, THIRD, DONE, THIRD, DONE, THIRD, DONE, THIRD, DONE, THIRD, DONE, THIRD, DONE,
            REFUSED, DONE, THIRD,
        ])],
    },
    Case {
        name: "a new file has the lowest free number",
        size: USUAL,
        program: Program::Calls(&FOURTEEN),
        acts: &[
            Steps(24 * NEXT_CALL),
            Node(3, Some(EMPTY_FILE)),
            Node(14, Some(EMPTY_FILE)),
            Node(15, None),
            Steps(3 * NEXT_CALL),
            Node(15, Some(EMPTY_FILE)),
            Answers(&[0]),
            Node(5, None),
            Answers(&[3]),
            Node(5, Some(EMPTY_FILE)),
        ],
    },
    // A name is cut to 14 bytes, and a path has 127 at most.
    // `abcdefghijklmno`, `abcdefghijklmn`, `q`, `z`, and 128 slashes follow the calls.
    Case {
        name: "open opens what a path names",
        size: USUAL,
        program: Program::Calls(&[
            [LONG, NEW, 0, OPEN],
            [CUT, 0, 0, OPEN],
            [LONG, 0, 0, OPEN],
            [544, 0, 0, OPEN],
            [ROOT, 0, 0, OPEN],
            [ROOT, 1, 0, OPEN],
            [ROOT, CREATE, 0, OPEN],
            [EMPTY, 0, 0, OPEN],
            [NOTHING, 0, 0, OPEN],
            [DEVICE, 10, 0, MKNOD],
            [DEVICE, 0, 0, OPEN],
            [2, 0, 0, CLOSE],
            [CUT, 0x1_0000_0000 + CREATE, 0, OPEN],
            [0x3000, 0, 0, OPEN],
            [
                0x6867_6665_6463_6261,
                0x006f_6e6d_6c6b_6a69,
                0x6867_6665_6463_6261,
                0x6e6d_6c6b_6a69,
            ],
            [0x71, 0x7a, 0, 0],
            [SLASHES, SLASHES, SLASHES, SLASHES],
            [SLASHES, SLASHES, SLASHES, SLASHES],
            [SLASHES, SLASHES, SLASHES, SLASHES],
            [SLASHES, SLASHES, SLASHES, SLASHES],
            [0, 0, 0, 0],
        ]),
        acts: &[Answered(&[
            THIRD,
            (4, 55),
            (5, 55),
            REFUSED,
            (6, 55),
            REFUSED,
            REFUSED,
            (7, 55),
            REFUSED,
            DONE,
            REFUSED,
            DONE,
            (2, 55),
            REFUSED,
        ])],
    },
    // What is open for reading can't be written, and the other way round; 0x400 empties a file.
    // `f` follows the calls.
    Case {
        name: "open opens as its flags ask",
        size: USUAL,
        program: Program::Calls(&[
            [NAME, NEW, 0, OPEN],
            [3, 0, 2, WRITE],
            [3, BUFFER, 2, READ],
            [NAME, 0, 0, OPEN],
            [4, BUFFER, 4, READ],
            [4, 0, 2, WRITE],
            [NAME, 2, 0, OPEN],
            [5, BUFFER, 1, READ],
            [5, 0, 2, WRITE],
            [4, BUFFER, 4, READ],
            [NAME, TRUNCATE, 0, OPEN],
            [6, BUFFER, 4, READ],
            [NAME, 3, 0, OPEN],
            [7, BUFFER, 4, READ],
            [0x66, 0, 0, 0],
        ]),
        acts: &[Answered(&[
            THIRD,
            (2, 55),
            REFUSED,
            (4, 55),
            (2, 55),
            REFUSED,
            (5, 55),
            (1, 55),
            (2, 55),
            (1, 55),
            (6, 55),
            DONE,
            (7, 55),
            REFUSED,
        ])],
    },
    // A path that begins with no slash is looked up in the process's current directory.
    // `d`, `f`, `..` and `d/f` follow the calls.
    Case {
        name: "a process works in another directory",
        size: USUAL,
        program: Program::Calls(&[
            [FOLDER, 0, 0, CHDIR],
            [FOLDER, 0, 0, MKDIR],
            [FOLDER, 0, 0, CHDIR],
            [FOLDER, 0, 0, CHDIR],
            [FILE, NEW, 0, OPEN],
            [FILE, 0, 0, CHDIR],
            [FILE, 0, 0, OPEN],
            [ABOVE, 0, 0, CHDIR],
            [FILE, 0, 0, OPEN],
            [WITHIN, 0, 0, OPEN],
            [ABOVE, 0, 0, CHDIR],
            [FOLDER, 0, 0, OPEN],
            [0x3000, 0, 0, CHDIR],
            [0x64, 0x66, 0x2e2e, 0x66_2f64],
        ]),
        acts: &[Answered(&[
            REFUSED,
            DONE,
            DONE,
            REFUSED,
            THIRD,
            REFUSED,
            (4, 55),
            DONE,
            REFUSED,
            (5, 55),
            DONE,
            (6, 55),
            REFUSED,
        ])],
    },
];

#[test]
fn runs(rt: HostRuntime) {
    run_each(&rt, &RUNS);
}
