//! The records of an image and their bytes.

use layout::{CURRENT, DiskInode, Entry, Format, LayoutFault, SuperBlock};

// The numbers of an image of 32 blocks and 16 inodes.
const SMALLEST: [u8; 32] = [
    0x41, 0x30, 0x20, 0x10, 0x20, 0, 0, 0, 0x1b, 0, 0, 0, 0x10, 0, 0, 0, 0, 0, 0, 0, 2, 0, 0, 0, 2,
    0, 0, 0, 4, 0, 0, 0,
];

// What these bytes spell.
const NUMBERS: SuperBlock = SuperBlock {
    magic: 0x1020_3041,
    size: 32,
    blocks: 27,
    inodes: 16,
    log: 0,
    log_start: 2,
    inode_start: 2,
    bitmap_start: 4,
};

#[test]
fn refuses_wrong_super_blocks(rt: HostRuntime) {
    let short = SuperBlock::from_bytes(&SMALLEST[1..]);
    assert!(rt; short == Err(LayoutFault::Short));
    for (at, byte, told) in [
        (0, 0x41, Ok(NUMBERS)),
        (0, 0x40, Err(LayoutFault::Magic)),
        (8, 0x1c, Err(LayoutFault::Numbers)),
    ] {
        let mut bytes = SMALLEST;
        bytes[at] = byte;
        assert!(rt; SuperBlock::from_bytes(&bytes) == told, "{byte:#x} at {at}");
    }
}

// The magic numbers of the formats.
const SMALL: (u32, Format) = (0x1020_3040, Format::Small);

const LARGE: (u32, Format) = (0x1020_3041, CURRENT);

// A size, a count of inodes, where the bitmap starts, the data blocks, and whether they fit a format.
type Numbers = ((u32, Format), u32, u32, u32, u32, Result<(), LayoutFault>);

const FITS: [Numbers; 9] = [
    (LARGE, 2000, 200, 15, 1984, Ok(())),
    (SMALL, 2000, 200, 15, 1984, Ok(())),
    (LARGE, 32, 447, 30, 1, Ok(())),
    (LARGE, 32, 448, 31, 0, Err(LayoutFault::Numbers)),
    (LARGE, 131_072, 16, 4, 131_051, Ok(())),
    (LARGE, 131_073, 16, 4, 131_052, Err(LayoutFault::Numbers)),
    (SMALL, 16384, 16, 4, 16377, Ok(())),
    (SMALL, 16385, 16, 4, 16378, Err(LayoutFault::Numbers)),
    (
        (0x1020_3041, Format::Small),
        2000,
        200,
        15,
        1984,
        Err(LayoutFault::Magic),
    ),
];

#[test]
fn wants_numbers_that_fit(rt: HostRuntime) {
    for ((magic, format), size, inodes, bitmap_start, blocks, want) in FITS {
        let numbers = SuperBlock {
            magic,
            size,
            blocks,
            inodes,
            bitmap_start,
            ..NUMBERS
        };
        assert!(rt;
            numbers.test(format) == want,
            "{size} blocks, {inodes} inodes"
        );
    }
}

// A file of five bytes, with one name and a block.
const INODE: [u8; 64] = [
    2, 0, 0, 0, 0, 0, 1, 0, 5, 0, 0, 0, 9, 0, 0, 0, 0, 0, 0, 0, 0, 0, 0, 0, 0, 0, 0, 0, 0, 0, 0, 0,
    0, 0, 0, 0, 0, 0, 0, 0, 0, 0, 0, 0, 0, 0, 0, 0, 0, 0, 0, 0, 0, 0, 0, 0, 0, 0, 0, 0, 0, 0, 0, 0,
];

#[test]
fn spells_records(rt: HostRuntime) {
    let bytes = Entry::new(b"init", 0x102).to_bytes();
    let entry = Entry::from_bytes(&bytes).expect(&rt, "16 bytes");
    assert!(rt; bytes.starts_with(b"\x02\x01init\0") && entry.name() == b"init".as_slice());
    let inode = DiskInode::from_bytes(&INODE).expect(&rt, "64 bytes");
    assert!(rt; (inode.kind, inode.links, inode.size, inode.addresses[0]) == (2, 1, 5, 9));
    assert!(rt; inode.to_bytes() == INODE && NUMBERS.to_bytes() == SMALLEST);
}
