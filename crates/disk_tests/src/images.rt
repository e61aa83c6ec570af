//! A small image, and each fault put into it.

use crate::devices::{fail_after, zeros};
use blockdev::MemDisk;
use image::{ImageFault, Summary, check, check1};
use linked_list_allocator::LocalHeap;
use std::process::Abort;

/// A byte of an image and what it is set to.
pub type Change = (usize, u8);

/// The first byte of the root's inode.
pub const ROOT: usize = 2048 + 64;

// An image of 32 blocks and 16 inodes, in which the first two entries of the root are in block 5.
// These are the super block's numbers, the root's inode, its entries, and the bitmap; the other bytes are 0.
// The first byte of the magic number says which format it has.
const SMALL: [Change; 19] = [
    (1025, 0x30),
    (1026, 0x20),
    (1027, 0x10),
    (1028, 32),
    (1032, 27),
    (1036, 16),
    (1044, 2),
    (1048, 2),
    (1052, 4),
    (ROOT, 1),
    (ROOT + 6, 1),
    (ROOT + 8, 32),
    (ROOT + 12, 5),
    (4096, 0x3f),
    (5120, 1),
    (5122, b'.'),
    (5136, 1),
    (5138, b'.'),
    (5139, b'.'),
];

/// A file without bytes, inode 2, that the root names.
pub const FILE: [Change; 5] = [
    (ROOT + 8, 48),
    (5152, 2),
    (5154, b'a'),
    (ROOT + 64, 2),
    (ROOT + 70, 1),
];

// That file with two blocks of bytes.
const TWO_BLOCKS: [Change; 5] = [
    (ROOT + 72, 1),
    (ROOT + 73, 4),
    (ROOT + 76, 6),
    (ROOT + 80, 7),
    (4096, 0xff),
];

/// That file with 11 blocks of bytes, 6 to 16, as many as an inode of the large format names directly.
pub const ELEVEN_BLOCKS: [Change; 15] = [
    (ROOT + 73, 0x2c),
    (ROOT + 76, 6),
    (ROOT + 80, 7),
    (ROOT + 84, 8),
    (ROOT + 88, 9),
    (ROOT + 92, 10),
    (ROOT + 96, 11),
    (ROOT + 100, 12),
    (ROOT + 104, 13),
    (ROOT + 108, 14),
    (ROOT + 112, 15),
    (ROOT + 116, 16),
    (4096, 0xff),
    (4097, 0xff),
    (4098, 0x01),
];

// And one byte more, in block 18, whose number is in the index block 17.
const TWELFTH: [Change; 4] = [
    (ROOT + 72, 1),
    (ROOT + 120, 17),
    (17 * 1024, 18),
    (4098, 0x07),
];

/// Or a twelfth block, 17, which an inode of the small format names directly too.
pub const OLD_TWELFTH: [Change; 3] = [(ROOT + 73, 0x30), (ROOT + 120, 17), (4098, 0x03)];

// And one byte more, in block 19, whose number is in the index block 18.
const OLD_THIRTEENTH: [Change; 5] = [
    (ROOT + 72, 1),
    (ROOT + 73, 0x30),
    (ROOT + 124, 18),
    (18 * 1024, 19),
    (4098, 0x0f),
];

// A directory, inode 2, that the root names, with its first two entries in block 6.
const DIRECTORY: [Change; 14] = [
    (ROOT + 6, 2),
    (ROOT + 8, 48),
    (5152, 2),
    (5154, b'a'),
    (ROOT + 64, 1),
    (ROOT + 70, 1),
    (ROOT + 72, 32),
    (ROOT + 76, 6),
    (4096, 0x7f),
    (6144, 2),
    (6146, b'.'),
    (6160, 1),
    (6162, b'.'),
    (6163, b'.'),
];

// Two directories, inodes 2 and 3, that name each other and that nothing else names.
const ROUND: [Change; 23] = [
    (ROOT + 64, 1),
    (ROOT + 70, 2),
    (ROOT + 72, 48),
    (ROOT + 76, 6),
    (6144, 2),
    (6146, b'.'),
    (6160, 3),
    (6162, b'.'),
    (6163, b'.'),
    (6176, 3),
    (6178, b'a'),
    (ROOT + 128, 1),
    (ROOT + 134, 2),
    (ROOT + 136, 48),
    (ROOT + 140, 7),
    (7168, 3),
    (7170, b'.'),
    (7184, 2),
    (7186, b'.'),
    (7187, b'.'),
    (7200, 2),
    (7202, b'a'),
    (4096, 0xff),
];

fn put(bytes: &mut [u8], changes: &[Change]) {
    for (at, byte) in changes {
        if let Some(place) = bytes.get_mut(*at) {
            *place = *byte;
        }
    }
}

/// The bytes of the small image with this first byte of its magic number, and these changes, one list after the other.
pub fn bytes_of(rt: &(impl Abort + AllocGlobal), magic: u8, lists: &[&[Change]]) -> Vec<u8> {
    let mut bytes = vec![in rt.alloc(); 0; 32 * 1024].expect(rt, "memory");
    put(bytes.as_mut_slice(), &SMALL);
    put(bytes.as_mut_slice(), &[(1024, magic)]);
    for changes in lists {
        put(bytes.as_mut_slice(), changes);
    }
    bytes
}

// A disk with these bytes.
fn disk_of(rt: &(impl Abort + AllocGlobal), magic: u8, lists: &[&[Change]]) -> MemDisk {
    MemDisk::new(bytes_of(rt, magic, lists)).expect(rt, "whole blocks")
}

// What a check of it returns.
fn told_of(rt: &(impl Abort + AllocGlobal), lists: &[&[Change]]) -> Result<Summary, ImageFault> {
    check(rt.alloc(), &mut disk_of(rt, 0x41, lists))
}

// What a check of the same image in the small format returns.
fn told_small(rt: &(impl Abort + AllocGlobal), lists: &[&[Change]]) -> Result<Summary, ImageFault> {
    check1(rt.alloc(), &mut disk_of(rt, 0x40, lists))
}

// What a check returns where memory is refused after `size` bytes: of the disk's own bytes, or of a copy.
fn told_within(
    rt: &(impl Abort + AllocGlobal),
    lists: &[&[Change]],
    is_copied: bool,
    size: usize,
) -> Result<Summary, ImageFault> {
    let heap = LocalHeap::new(rt.alloc(), size).expect(rt, "memory");
    let mut disk = disk_of(rt, 0x41, lists);
    if is_copied {
        return check(&heap, &mut fail_after(disk, u64::MAX));
    }
    check(&heap, &mut disk)
}

// Changes that are made one list after the other, and what a check of the image returns then.
// That is how many inodes and blocks are in use, or what is wrong.
struct Case {
    name: &'static str,
    /// Whether this is expected in the large format, and in the small one.
    large: bool,
    small: bool,
    lists: &'static [&'static [Change]],
    told: Result<(usize, usize), ImageFault>,
}

static IN_USE_OR_WRONG: [Case; 19] = [
    Case {
        name: "the root alone is in use",
        large: true,
        small: true,
        lists: &[],
        told: Ok((1, 1)),
    },
    Case {
        name: "a file of two blocks is in use",
        large: true,
        small: true,
        lists: &[&FILE, &TWO_BLOCKS],
        told: Ok((2, 3)),
    },
    Case {
        name: "a directory is in use",
        large: true,
        small: true,
        lists: &[&DIRECTORY],
        told: Ok((2, 2)),
    },
    Case {
        name: "there are fewer blocks than the super block says",
        large: true,
        small: true,
        lists: &[&[(1028, 33)]],
        told: Err(ImageFault::Length),
    },
    Case {
        name: "the magic number is another",
        large: true,
        small: true,
        lists: &[&[(1025, 0x31)]],
        told: Err(ImageFault::Magic),
    },
    Case {
        name: "the log begins at another block",
        large: true,
        small: true,
        lists: &[&[(1044, 3)]],
        told: Err(ImageFault::Numbers),
    },
    Case {
        name: "there is no such type",
        large: true,
        small: true,
        lists: &[&[(ROOT + 64, 4)]],
        told: Err(ImageFault::NodeType),
    },
    Case {
        name: "the root is a file",
        large: true,
        small: true,
        lists: &[&[(ROOT, 2)]],
        told: Err(ImageFault::NodeType),
    },
    Case {
        name: "a directory has a part of an entry",
        large: true,
        small: true,
        lists: &[&[(ROOT + 8, 33)]],
        told: Err(ImageFault::Size),
    },
    Case {
        name: "a directory has one entry",
        large: true,
        small: true,
        lists: &[&[(ROOT + 8, 16)]],
        told: Err(ImageFault::Size),
    },
    Case {
        name: "an address is before the data",
        large: true,
        small: true,
        lists: &[&[(ROOT + 12, 4)]],
        told: Err(ImageFault::Address),
    },
    Case {
        name: "an address is past the disk",
        large: true,
        small: true,
        lists: &[&[(ROOT + 12, 32)]],
        told: Err(ImageFault::Address),
    },
    Case {
        name: "an address is past the file's end",
        large: true,
        small: true,
        lists: &[&[(ROOT + 16, 6)]],
        told: Err(ImageFault::Address),
    },
    Case {
        name: "the last but one address is past the file's end",
        large: true,
        small: true,
        lists: &[&[(ROOT + 56, 6)]],
        told: Err(ImageFault::Address),
    },
    Case {
        name: "the last address is past the file's end",
        large: true,
        small: true,
        lists: &[&[(ROOT + 60, 6)]],
        told: Err(ImageFault::Address),
    },
    Case {
        name: "a block in use is not marked",
        large: true,
        small: true,
        lists: &[&[(4096, 0x1f)]],
        told: Err(ImageFault::Bitmap),
    },
    Case {
        name: "a block that is not in use is marked",
        large: true,
        small: true,
        lists: &[&[(4099, 0x80)]],
        told: Err(ImageFault::Bitmap),
    },
    Case {
        name: "the large format is not the small one",
        large: true,
        small: false,
        lists: &[&[(1024, 0x40)]],
        told: Err(ImageFault::Magic),
    },
    Case {
        name: "the small format is not the large one",
        large: false,
        small: true,
        lists: &[&[(1024, 0x41)]],
        told: Err(ImageFault::Magic),
    },
];

static LARGE_FILES: [Case; 8] = [
    Case {
        name: "eleven blocks need no index block in the large format",
        large: true,
        small: false,
        lists: &[&FILE, &ELEVEN_BLOCKS],
        told: Ok((2, 12)),
    },
    Case {
        name: "the twelfth block has an index block in the large format",
        large: true,
        small: false,
        lists: &[&FILE, &ELEVEN_BLOCKS, &TWELFTH],
        told: Ok((2, 14)),
    },
    Case {
        name: "the index block has no number",
        large: true,
        small: false,
        lists: &[&FILE, &ELEVEN_BLOCKS, &OLD_TWELFTH],
        told: Err(ImageFault::Address),
    },
    Case {
        name: "there is a double index block that is not wanted",
        large: true,
        small: false,
        lists: &[&FILE, &ELEVEN_BLOCKS, &TWELFTH, &[(ROOT + 124, 20)]],
        told: Err(ImageFault::Address),
    },
    Case {
        name: "there is a number after the last one of the index block",
        large: true,
        small: false,
        lists: &[&FILE, &ELEVEN_BLOCKS, &TWELFTH, &[(17 * 1024 + 4, 20)]],
        told: Err(ImageFault::Address),
    },
    Case {
        name: "the index block has a number before the data",
        large: true,
        small: false,
        lists: &[&FILE, &ELEVEN_BLOCKS, &TWELFTH, &[(17 * 1024, 4)]],
        told: Err(ImageFault::Address),
    },
    Case {
        name: "the index block names a block that is named already",
        large: true,
        small: false,
        lists: &[&FILE, &ELEVEN_BLOCKS, &TWELFTH, &[(17 * 1024, 17)]],
        told: Err(ImageFault::SharedBlock),
    },
    Case {
        name: "a block of the index block is not marked",
        large: true,
        small: false,
        lists: &[&FILE, &ELEVEN_BLOCKS, &TWELFTH, &[(4098, 0x05)]],
        told: Err(ImageFault::Bitmap),
    },
];

static SMALL_FILES: [Case; 8] = [
    Case {
        name: "eleven blocks need no index block in the small format",
        large: false,
        small: true,
        lists: &[&FILE, &ELEVEN_BLOCKS],
        told: Ok((2, 12)),
    },
    Case {
        name: "twelve blocks need no index block in the small format",
        large: false,
        small: true,
        lists: &[&FILE, &ELEVEN_BLOCKS, &OLD_TWELFTH],
        told: Ok((2, 13)),
    },
    Case {
        name: "the thirteenth block has an index block in the small format",
        large: false,
        small: true,
        lists: &[&FILE, &ELEVEN_BLOCKS, &OLD_TWELFTH, &OLD_THIRTEENTH],
        told: Ok((2, 15)),
    },
    Case {
        name: "nothing names a block that is marked in the small format",
        large: false,
        small: true,
        lists: &[&FILE, &ELEVEN_BLOCKS, &TWELFTH],
        told: Err(ImageFault::Bitmap),
    },
    Case {
        name: "there is a number after the last one in the small format",
        large: false,
        small: true,
        lists: &[
            &FILE,
            &ELEVEN_BLOCKS,
            &OLD_TWELFTH,
            &OLD_THIRTEENTH,
            &[(18 * 1024 + 4, 20)],
        ],
        told: Err(ImageFault::Address),
    },
    Case {
        name: "the index block has a number before the data in the small format",
        large: false,
        small: true,
        lists: &[
            &FILE,
            &ELEVEN_BLOCKS,
            &OLD_TWELFTH,
            &OLD_THIRTEENTH,
            &[(18 * 1024, 4)],
        ],
        told: Err(ImageFault::Address),
    },
    Case {
        name: "the index block names itself in the small format",
        large: false,
        small: true,
        lists: &[
            &FILE,
            &ELEVEN_BLOCKS,
            &OLD_TWELFTH,
            &OLD_THIRTEENTH,
            &[(18 * 1024, 18)],
        ],
        told: Err(ImageFault::SharedBlock),
    },
    Case {
        name: "a block of the index block is not marked in the small format",
        large: false,
        small: true,
        lists: &[
            &FILE,
            &ELEVEN_BLOCKS,
            &OLD_TWELFTH,
            &OLD_THIRTEENTH,
            &[(4098, 0x0b)],
        ],
        told: Err(ImageFault::Bitmap),
    },
];

static NAMED: [Case; 12] = [
    Case {
        name: "a file has a block of the root",
        large: true,
        small: true,
        lists: &[&[(ROOT + 64, 2), (ROOT + 72, 1), (ROOT + 76, 5)]],
        told: Err(ImageFault::SharedBlock),
    },
    Case {
        name: "the root's \".\" is another",
        large: true,
        small: true,
        lists: &[&DIRECTORY, &[(5120, 2)]],
        told: Err(ImageFault::Entry),
    },
    Case {
        name: "the root's \"..\" is another",
        large: true,
        small: true,
        lists: &[&DIRECTORY, &[(5136, 2)]],
        told: Err(ImageFault::Entry),
    },
    Case {
        name: "a directory's \".\" is the root",
        large: true,
        small: true,
        lists: &[&DIRECTORY, &[(6144, 1)]],
        told: Err(ImageFault::Entry),
    },
    Case {
        name: "a directory's \"..\" is itself",
        large: true,
        small: true,
        lists: &[&DIRECTORY, &[(6160, 2)]],
        told: Err(ImageFault::Entry),
    },
    Case {
        name: "the root has a name",
        large: true,
        small: true,
        lists: &[&DIRECTORY, &[(5152, 1)]],
        told: Err(ImageFault::Entry),
    },
    Case {
        name: "a directory has two names",
        large: true,
        small: true,
        lists: &[&DIRECTORY, &[(ROOT + 8, 64), (5168, 2), (5170, b'b')]],
        told: Err(ImageFault::Entry),
    },
    Case {
        name: "a file has one name and a count of two",
        large: true,
        small: true,
        lists: &[&FILE, &[(ROOT + 70, 2)]],
        told: Err(ImageFault::Links),
    },
    Case {
        name: "a file has no name",
        large: true,
        small: true,
        lists: &[&FILE, &[(ROOT + 8, 32), (ROOT + 70, 0)]],
        told: Err(ImageFault::Links),
    },
    Case {
        name: "the root counts too few names",
        large: true,
        small: true,
        lists: &[&DIRECTORY, &[(ROOT + 6, 1)]],
        told: Err(ImageFault::Links),
    },
    Case {
        name: "a directory counts too many names",
        large: true,
        small: true,
        lists: &[&DIRECTORY, &[(ROOT + 70, 2)]],
        told: Err(ImageFault::Links),
    },
    Case {
        name: "two directories name each other alone",
        large: true,
        small: true,
        lists: &[&ROUND],
        told: Err(ImageFault::Unreached),
    },
];

// The inodes and the blocks in use.
fn in_use(told: Result<Summary, ImageFault>) -> Result<(usize, usize), ImageFault> {
    let summary = told?;
    Ok((summary.inodes, summary.blocks))
}

// Whether a check returns this in each format of the case.
fn is_told(rt: &(impl Abort + AllocGlobal), case: &Case) -> bool {
    (!case.large || in_use(told_of(rt, case.lists)) == case.told)
        && (!case.small || in_use(told_small(rt, case.lists)) == case.told)
}

fn expect(rt: &(impl Abort + AllocGlobal), cases: &[Case]) {
    for case in cases {
        assert!(rt; is_told(rt, case), "{}", case.name);
    }
}

#[test]
fn tells_what_is_in_use_or_wrong(rt: HostRuntime) {
    expect(&rt, &IN_USE_OR_WRONG);
}

#[test]
fn tells_of_index_blocks_in_the_large_format(rt: HostRuntime) {
    expect(&rt, &LARGE_FILES);
}

#[test]
fn tells_of_index_blocks_in_the_small_format(rt: HostRuntime) {
    expect(&rt, &SMALL_FILES);
}

#[test]
fn tells_wrong_names_and_shared_blocks(rt: HostRuntime) {
    expect(&rt, &NAMED);
}

#[test]
fn reads_what_is_not_lent(rt: HostRuntime) {
    let short = check(rt.alloc(), &mut zeros(&rt, 1024));
    let mut flaky = fail_after(zeros(&rt, 2048), 0);
    let failed = check(rt.alloc(), &mut flaky);
    assert!(rt; short == Err(ImageFault::Length) && failed == Err(ImageFault::Device));
    let mut disk = disk_of(&rt, 0x41, &[]);
    let lent = check(rt.alloc(), &mut disk);
    assert!(rt; flaky.has_failed() && lent.is_ok() && disk.reads() == 0);
    // the super block, and then each of 32 blocks
    for (good, is_told) in [(32, false), (33, true)] {
        let mut flaky = fail_after(disk_of(&rt, 0x41, &[]), good);
        assert!(rt;
            check(rt.alloc(), &mut flaky).is_ok() == is_told,
            "after {good}"
        );
    }
}

// However much memory there is, a check returns that it doesn't suffice, or the same as with enough of it.
// Each request is refused at some of the sizes.
fn expect_refusals(rt: &(impl Abort + AllocGlobal), lists: &[&[Change]], is_copied: bool) {
    let told = told_of(rt, lists);
    let least = if is_copied { TOO_LITTLE } else { 0 };
    let mut refused = false;
    let mut last = told;
    for units in 0..ENOUGH {
        last = told_within(rt, lists, is_copied, least + 16 * units);
        refused = refused || last != told;
        assert!(rt;
            last == told || last == Err(ImageFault::NoMemory),
            "with {units} units"
        );
    }
    assert!(rt;
        refused && last == told,
        "it needs some memory, and there is enough"
    );
}

// A check of a device that lends no bytes keeps the whole image. This is too little for it.
const TOO_LITTLE: usize = 32 * 1024 - 256;

// More units of 16 bytes than a check of the small image takes.
const ENOUGH: usize = 160;

#[test]
fn tells_that_memory_is_refused(rt: HostRuntime) {
    let lists: [&[&[Change]]; 5] = [
        &[],
        &[&FILE, &TWO_BLOCKS],
        &[&DIRECTORY],
        &[&ROUND],
        &[&FILE, &[(ROOT + 70, 2)]],
    ];
    for changes in lists {
        expect_refusals(&rt, changes, false);
        expect_refusals(&rt, changes, true);
    }
}
