//! The bytes of files on small disks.

use crate::volume::{SMALL, Step, first_wrong};
use inode::InodeFault;
use layout::Geometry;
use std::process::Abort;

// Each step gives what its row says, on a disk of `size` blocks and 16 inodes.
fn expect(rt: &(impl Abort + AllocGlobal), name: &str, size: usize, steps: &[Step]) {
    match first_wrong(rt.alloc(), Geometry { size, inodes: 16 }, u64::MAX, steps) {
        Ok(None) => {}
        Ok(Some(row)) => panic!(rt; "{name}, {size} blocks: step {row}"),
        Err(_) => panic!(rt; "{name}, {size} blocks: a step failed"),
    }
}

// Steps on a small disk.
struct Case {
    name: &'static str,
    steps: &'static [Step],
}

static CASES: [Case; 8] = [
    // bytes are written across the end of a block, and a file without bytes keeps its names
    Case {
        name: "what was written is read",
        steps: &[
            Step::Create(Some(1)),
            Step::Fill(1, 0, 11 * 1024, 7, Ok(())),
            Step::Write(1, 11 * 1024 - 1, *b"hello"),
            Step::Read(1, 11 * 1024 - 3, 7, *b"\x07\x07hello\x01\x01"),
            Step::Link(1, 2, (1, 11 * 1024 + 4)),
            Step::Empty(1),
            Step::Link(1, 3, (2, 0)),
        ],
    },
    Case {
        name: "nothing is written",
        steps: &[Step::Create(Some(1)), Step::Fill(1, 0, 0, 5, Ok(()))],
    },
    Case {
        name: "a file takes all blocks",
        steps: &[
            Step::Create(Some(1)),
            Step::Fill(1, 0, 26 * 1024, 5, Ok(())),
        ],
    },
    Case {
        name: "a file is written as far as there are blocks",
        steps: &[
            Step::Create(Some(1)),
            Step::Fill(
                1,
                0,
                27 * 1024,
                5,
                Err(InodeFault::Blocks { written: 26 * 1024 }),
            ),
        ],
    },
    Case {
        name: "a file has no holes",
        steps: &[
            Step::Create(Some(1)),
            Step::Fill(1, 1, 0, 5, Err(InodeFault::PastEnd)),
        ],
    },
    Case {
        name: "no file can be so long",
        steps: &[
            Step::Create(Some(1)),
            Step::Fill(1, 0, 67_382_273, 5, Err(InodeFault::TooLong)),
        ],
    },
    Case {
        name: "the longest file does not fit",
        steps: &[
            Step::Create(Some(1)),
            Step::Fill(
                1,
                0,
                67_382_272,
                5,
                Err(InodeFault::Blocks { written: 26 * 1024 }),
            ),
        ],
    },
    Case {
        name: "the lowest inode is taken",
        steps: &[
            Step::Create(Some(1)),
            Step::Create(Some(2)),
            Step::Create(Some(3)),
            Step::Create(Some(4)),
            Step::Create(Some(5)),
            Step::Create(Some(6)),
            Step::Create(Some(7)),
            Step::Create(Some(8)),
            Step::Create(Some(9)),
            Step::Create(Some(10)),
            Step::Create(Some(11)),
            Step::Create(Some(12)),
            Step::Create(Some(13)),
            Step::Create(Some(14)),
            Step::Create(Some(15)),
            Step::Create(None),
        ],
    },
];

#[test]
fn files_are_written_and_read(rt: HostRuntime) {
    for case in &CASES {
        expect(&rt, case.name, SMALL.size, case.steps);
    }
}

// A disk's blocks, the bytes of a file on it, how many blocks are free, and how many another file has.
// One fewer is free than one more byte of the file needs. The other file has the rest; its last block isn't counted.
type Filled = (usize, usize, u8, u8);

// The twelfth block of a file needs the single index block too, the 268th the double one and its first leaf, and each
// 256th from there on a leaf.
const FILLED: [Filled; 5] = [
    (32, 11264, 1, 13),
    (32, 12288, 0, 12),
    (284, 273_408, 2, 8),
    (284, 274_432, 0, 7),
    (541, 535_552, 1, 8),
];

// The byte is refused and takes no block, and takes all that it needs once they are free.
const fn steps_of(filled: Filled) -> [Step; 11] {
    let (_, bytes, free, others) = filled;
    let free = 1024 * free as usize;
    let fewer = 1024 * others as usize;
    let others = fewer + 1024;
    [
        Step::Create(Some(1)),
        Step::Create(Some(2)),
        Step::Fill(1, 0, bytes, 1, Ok(())),
        Step::Fill(2, 0, others, 2, Ok(())),
        Step::Fill(1, bytes, 1, b'x', NONE),
        // the free blocks stayed free
        Step::Fill(2, others, free, 2, Ok(())),
        Step::Fill(2, others + free, 1, b'x', NONE),
        // with one more free it goes, and none is left
        Step::Empty(2),
        Step::Fill(2, 0, fewer, 2, Ok(())),
        Step::Fill(1, bytes, 1, b'x', Ok(())),
        Step::Fill(2, fewer, 1, b'x', NONE),
    ]
}

// No block is left for a byte more.
const NONE: Result<(), InodeFault> = Err(InodeFault::Blocks { written: 0 });

#[test]
fn takes_all_blocks_or_none(rt: HostRuntime) {
    for filled in FILLED {
        expect(&rt, "all blocks or none", filled.0, &steps_of(filled));
    }
}

// The longest file, read where its leaves meet and at its end.
static LONGEST: [Step; 7] = [
    Step::Create(Some(1)),
    Step::Fill(1, 0, 67_382_271, 7, Ok(())),
    Step::Fill(1, 67_382_271, 1, b'x', Ok(())),
    Step::Fill(1, 67_382_272, 1, b'x', Err(InodeFault::TooLong)),
    Step::Read(1, 535_548, 9, [7; 9]),
    Step::Read(1, 67_382_265, 7, *b"\x07\x07\x07\x07\x07\x07x\x01\x01"),
    Step::Link(1, 1, (1, 67_382_272)),
];

#[test]
fn has_at_most_67382272_bytes(rt: HostRuntime) {
    expect(&rt, "the longest file", 131_072, &LONGEST);
}

// One step of each kind.
const EACH: [Step; 5] = [
    Step::Create(Some(1)),
    Step::Fill(1, 0, 14 * 1024, 7, Ok(())),
    Step::Link(1, 2, (1, 14 * 1024)),
    Step::Read(1, 13 * 1024, 9, [7; 9]),
    Step::Empty(1),
];

#[test]
fn tells_each_failure(rt: HostRuntime) {
    // the file takes 15 blocks, one of which is its index block, beside five of the file system: each is written whole
    // before it is read, so that it takes one access
    for good in 0..30 {
        let want = if good < 20 {
            Err(InodeFault::Device)
        } else {
            Ok(None)
        };
        assert!(rt;
            first_wrong(rt.alloc(), SMALL, good, &EACH) == want,
            "after {good}"
        );
    }
}
