//! Images that are checked, read plainly by the rules, and booted: all three must agree.
//! And images whose parts name themselves.
use crate::rules::{LARGE, Rules, SMALL, judge};
use crate::runs::{let_go, plain};
use blockdev::MemDisk;
use image::{ImageFault, Summary, check, check1};
use machine::{BootFault, boot};
use mount::flat_image;
use std::alloc::Global;

/// A format of images.
#[derive(Clone, Copy, PartialEq)]
pub enum Format {
    Small,
    Large,
}

/// Both.
pub const FORMATS: [Format; 2] = [Format::Small, Format::Large];

/// What a check of an image returns.
pub type Told = Result<Summary, ImageFault>;

/// Bytes of an image, and the offset of the first one.
pub type Change = (usize, &'static [u8]);

impl Format {
    // The first byte of its super block.
    fn magic(self) -> &'static [u8] {
        match self {
            Format::Small => &[0x40],
            Format::Large => &[0x41],
        }
    }

    fn rules(self) -> &'static Rules {
        match self {
            Format::Small => &SMALL,
            Format::Large => &LARGE,
        }
    }
}

/// The disk of an image, if it has whole blocks.
pub fn disk_of(alloc: Global, image: &[u8]) -> Option<MemDisk> {
    let bytes = Vec::from_slice(alloc, image).ok()?;
    MemDisk::new(bytes).ok()
}

// What the check of an image returns.
fn told(alloc: Global, image: &[u8], format: Format) -> Option<Told> {
    let mut disk = disk_of(alloc, image)?;
    Some(match format {
        Format::Small => check1(alloc, &mut disk),
        Format::Large => check(alloc, &mut disk),
    })
}

// Why a machine doesn't boot from an image.
fn refusal(alloc: Global, image: &[u8]) -> Option<BootFault> {
    let disk = disk_of(alloc, image)?;
    match boot(alloc, disk, plain(), 64) {
        Ok(machine) => {
            let_go(machine);
            None
        }
        Err(fault) => Some(fault),
    }
}

// Whether a boot from an image without `/init` fails for the reason that the check returns.
fn boots_not(alloc: Global, image: &[u8], told: Told) -> bool {
    let fault = match told {
        Ok(_) => BootFault::NoInit,
        Err(fault) => BootFault::Image(fault),
    };
    refusal(alloc, image) == Some(fault)
}

/// What the check of an image without `/init` returns.
/// `None`: the rules give something else, or a boot fails for another reason.
pub fn judged(alloc: Global, image: &[u8], format: Format) -> Option<Told> {
    let told = told(alloc, image, format)?;
    if told != judge(alloc, image, format.rules()) {
        return None;
    }
    if format == Format::Large && !boots_not(alloc, image, told) {
        return None;
    }
    Some(told)
}

// Puts bytes into an image.
fn put(image: &mut [u8], change: &Change) {
    let (at, bytes) = change;
    for (place, byte) in bytes.iter().enumerate() {
        if let Some(old) = image.get_mut(at.wrapping_add(place)) {
            *old = *byte;
        }
    }
}

/// The image of a machine without a disk in a format, with these changes. It has 32 blocks, of which block 5 is the
/// root's, and two inodes: the root, and the console that it names.
pub fn changed(alloc: Global, format: Format, changes: &[Change]) -> Option<Vec<u8>> {
    let Ok(mut image) = flat_image(alloc) else {
        return None;
    };
    put(image.as_mut_slice(), &(1024, format.magic()));
    for change in changes {
        put(image.as_mut_slice(), change);
    }
    Some(image)
}

// The inodes of the root and of inode 3.
const ROOT: usize = 2048 + 64;

const THREE: usize = 2048 + 3 * 64;

/// The root names a directory, inode 3, with its first two entries in block 6.
pub const DIRECTORY: [Change; 8] = [
    (ROOT + 6, &[2, 0, 64]),
    (5168, b"\x03\0d"),
    (THREE, &[1, 0, 0, 0, 0, 0, 1, 0, 32]),
    (THREE + 12, &[6]),
    (4096, &[0x7f]),
    (6144, b"\x03\0."),
    (6160, b"\x01\0.."),
    (6176, b"\0\0\0"),
];

/// The root names a file, inode 3, of 13 blocks, 6 to 17 and 19, with the block 18 of its single index: in the small
/// format.
pub const SMALL_FILE: [Change; 7] = [
    (ROOT + 8, &[64]),
    (5168, b"\x03\0f"),
    (THREE, &[2, 0, 0, 0, 0, 0, 1, 0, 0, 0x34]),
    (THREE + 12, &NUMBERS),
    (THREE + 56, &[17, 0, 0, 0, 18]),
    (4096, &[0xff, 0xff, 0x0f]),
    (INDEX, &[19]),
];

/// The same in the large format.
pub const LARGE_FILE: [Change; 7] = [
    (ROOT + 8, &[64]),
    (5168, b"\x03\0f"),
    (THREE, &[2, 0, 0, 0, 0, 0, 1, 0, 0, 0x34]),
    (THREE + 12, &NUMBERS),
    (THREE + 56, &[18]),
    (4096, &[0xff, 0xff, 0x0f]),
    (INDEX, &[17, 0, 0, 0, 19]),
];

// The numbers 6 to 16.
const NUMBERS: [u8; 41] = [
    6, 0, 0, 0, 7, 0, 0, 0, 8, 0, 0, 0, 9, 0, 0, 0, 10, 0, 0, 0, 11, 0, 0, 0, 12, 0, 0, 0, 13, 0,
    0, 0, 14, 0, 0, 0, 15, 0, 0, 0, 16,
];

const INDEX: usize = 18 * 1024;

// What an image is changed to, and what the check returns then.
struct Row {
    formats: &'static [Format],
    first: &'static [Change],
    second: &'static [Change],
    told: Told,
}

const ROWS: [Row; 9] = [
    Row {
        formats: &FORMATS,
        first: &DIRECTORY,
        second: &[],
        told: Ok(Summary {
            inodes: 3,
            blocks: 2,
        }),
    },
    // the directory names itself and is named by the root
    Row {
        formats: &FORMATS,
        first: &DIRECTORY,
        second: &[(THREE + 8, &[48]), (6176, b"\x03\0a")],
        told: Err(ImageFault::Entry),
    },
    // it alone names itself, with one link too few, and with as many as it has names
    Row {
        formats: &FORMATS,
        first: &DIRECTORY,
        second: &[
            (ROOT + 6, &[1, 0, 48]),
            (THREE + 8, &[48]),
            (6160, &[3]),
            (6176, b"\x03\0a"),
        ],
        told: Err(ImageFault::Links),
    },
    Row {
        formats: &FORMATS,
        first: &DIRECTORY,
        second: &[
            (ROOT + 6, &[1, 0, 48]),
            (THREE + 6, &[2, 0, 48]),
            (6160, &[3]),
            (6176, b"\x03\0a"),
        ],
        told: Err(ImageFault::Unreached),
    },
    // the root names itself
    Row {
        formats: &FORMATS,
        first: &[],
        second: &[(ROOT + 8, &[64]), (5168, b"\x01\0r")],
        told: Err(ImageFault::Entry),
    },
    Row {
        formats: &[Format::Small],
        first: &SMALL_FILE,
        second: &[],
        told: Ok(Summary {
            inodes: 3,
            blocks: 15,
        }),
    },
    Row {
        formats: &[Format::Large],
        first: &LARGE_FILE,
        second: &[],
        told: Ok(Summary {
            inodes: 3,
            blocks: 15,
        }),
    },
    // the index block names itself instead of block 19, which is free then
    Row {
        formats: &[Format::Small],
        first: &SMALL_FILE,
        second: &[(INDEX, &[18]), (4098, &[0x07])],
        told: Err(ImageFault::SharedBlock),
    },
    Row {
        formats: &[Format::Large],
        first: &LARGE_FILE,
        second: &[(INDEX + 4, &[18]), (4098, &[0x07])],
        told: Err(ImageFault::SharedBlock),
    },
];

// What the check of a row's image returns in a format.
fn told_of(alloc: Global, row: &Row, format: Format) -> Option<Told> {
    let mut image = changed(alloc, format, row.first)?;
    for change in row.second {
        put(image.as_mut_slice(), change);
    }
    judged(alloc, image.as_slice(), format)
}

// Whether the check returns what the row says in each format.
fn is_right(alloc: Global, row: &Row) -> bool {
    for format in row.formats {
        if told_of(alloc, row, *format) != Some(row.told) {
            return false;
        }
    }
    true
}

/// The first row for whose image the check returns something else than the row says.
pub fn wrong(alloc: Global) -> Option<u64> {
    for (place, row) in ROWS.iter().enumerate() {
        if !is_right(alloc, row) {
            return Some(place as u64);
        }
    }
    None
}
