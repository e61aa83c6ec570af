//! Images of the small format, and what they become in the large one.

use crate::images::{Change, ELEVEN_BLOCKS, FILE, OLD_TWELFTH, ROOT, bytes_of};
use blockdev::MemDisk;
use image::{ImageFault, MigrateFault, Summary, check, migrate};
use std::process::Abort;

// Another file of 12 blocks, inode 3, after the one that has the blocks 6 to 17.
const SECOND: [Change; 20] = [
    (ROOT + 8, 64),
    (5168, 3),
    (5170, b'b'),
    (ROOT + 128, 2),
    (ROOT + 134, 1),
    (ROOT + 137, 0x30),
    (ROOT + 140, 18),
    (ROOT + 144, 19),
    (ROOT + 148, 20),
    (ROOT + 152, 21),
    (ROOT + 156, 22),
    (ROOT + 160, 23),
    (ROOT + 164, 24),
    (ROOT + 168, 25),
    (ROOT + 172, 26),
    (ROOT + 176, 27),
    (ROOT + 180, 28),
    (ROOT + 184, 29),
    (4098, 0xff),
    (4099, 0x3f),
];

// And one of two blocks, inode 4: no block is free then.
const THIRD: [Change; 9] = [
    (ROOT + 8, 80),
    (5184, 4),
    (5186, b'c'),
    (ROOT + 192, 2),
    (ROOT + 198, 1),
    (ROOT + 201, 8),
    (ROOT + 204, 30),
    (ROOT + 208, 31),
    (4099, 0xff),
];

// Changes of the small image, one list after the other, and what a check of the migrated image returns.
type Told = (&'static [&'static [Change]], Result<Summary, MigrateFault>);

// Each file of 12 blocks has an index block then.
const ROWS: [Told; 6] = [
    (
        &[],
        Ok(Summary {
            inodes: 1,
            blocks: 1,
        }),
    ),
    (
        &[&FILE, &ELEVEN_BLOCKS, &OLD_TWELFTH],
        Ok(Summary {
            inodes: 2,
            blocks: 14,
        }),
    ),
    (
        &[&FILE, &ELEVEN_BLOCKS, &OLD_TWELFTH, &SECOND],
        Ok(Summary {
            inodes: 3,
            blocks: 27,
        }),
    ),
    (
        &[&FILE, &ELEVEN_BLOCKS, &OLD_TWELFTH, &SECOND, &THIRD],
        Err(MigrateFault::Blocks),
    ),
    (
        &[&[(1024, 0x41)]],
        Err(MigrateFault::Image(ImageFault::Magic)),
    ),
    (
        &[&FILE, &[(ROOT + 70, 2)]],
        Err(MigrateFault::Image(ImageFault::Links)),
    ),
];

// What a check returns of the small image with these changes once it is migrated.
fn migrated(rt: &(impl Abort + AllocGlobal), lists: &[&[Change]]) -> Result<Summary, MigrateFault> {
    let old = bytes_of(rt, 0x40, lists);
    let new = migrate(rt.alloc(), &old)?;
    assert!(rt; new.len() == old.len());
    let told = check(
        rt.alloc(),
        &mut MemDisk::new(new).expect(rt, "whole blocks"),
    );
    Ok(told.expect(rt, "a sound image"))
}

#[test]
fn tells_what_old_images_become(rt: HostRuntime) {
    for (row, (lists, wanted)) in ROWS.iter().enumerate() {
        assert!(rt; migrated(&rt, lists) == *wanted, "row {row}");
    }
}
