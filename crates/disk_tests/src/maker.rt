//! Small images, and each fault of a manifest.

use image::{Entry, MakeFault, Manifest, Thing, make};
use std::process::Abort;

/// An image of 32 blocks and 16 inodes: the root, a directory, a file in it and a device.
pub fn small(rt: &(impl Abort + AllocGlobal)) -> Vec<u8> {
    let mut entries = Vec::new(rt.alloc());
    add(rt, &mut entries, b"/bin", Thing::Directory);
    let bytes = Vec::from_slice(rt.alloc(), b"hello").expect(rt, "memory");
    add(rt, &mut entries, b"/bin/sh", Thing::File(bytes));
    let device = Thing::Device { major: 1, minor: 2 };
    add(rt, &mut entries, b"/console", device);
    make(rt.alloc(), &Manifest { entries }, 32, 16).expect(rt, "an image")
}

/// An image of `blocks` blocks and 16 inodes with a file, inode 2, of `size` zeros.
pub fn with_file(rt: &(impl Abort + AllocGlobal), blocks: u32, size: usize) -> Vec<u8> {
    let zeros = vec![in rt.alloc(); 0; size].expect(rt, "memory");
    let mut entries = Vec::new(rt.alloc());
    add(rt, &mut entries, b"/f", Thing::File(zeros));
    make(rt.alloc(), &Manifest { entries }, blocks, 16).expect(rt, "an image")
}

// One more entry of a manifest.
fn add(rt: &(impl Abort + AllocGlobal), entries: &mut Vec<Entry>, path: &[u8], thing: Thing) {
    let path = Vec::from_slice(rt.alloc(), path).expect(rt, "memory");
    entries.push(Entry { path, thing }).expect(rt, "memory");
}

// Whether an image has these bytes from an offset on.
fn has_bytes(image: &[u8], at: usize, bytes: &[u8]) -> bool {
    match image.get(at..) {
        Some(rest) => rest.starts_with(bytes),
        None => false,
    }
}

// Bytes of the small image, each with its offset.
const PARTS: [(usize, &[u8]); 5] = [
    // the root has two links and four entries, in the first data block
    (2112, b"\x01\0\0\0\0\0\x02\0\x40\0\0\0\x05\0"),
    (5152, b"\x02\0bin\0"),
    (5168, b"\x04\0console\0"),
    // number 3 is the file, and number 4 the device
    (2240, b"\x02\0\0\0\0\0\x01\0\x05\0"),
    (2304, b"\x03\0\x01\0\x02\0\x01\0\0\0"),
];

#[test]
fn makes_a_small_image(rt: HostRuntime) {
    let image = small(&rt);
    assert!(rt; image.len() == 32 * 1024);
    for (at, bytes) in PARTS {
        assert!(rt; has_bytes(&image, at, bytes), "at {at}");
    }
}

// What is wrong with a manifest of an empty file and one of `size` zeros.
fn fault_of_files(
    rt: &(impl Abort + AllocGlobal),
    first: &[u8],
    second: &[u8],
    size: usize,
) -> Option<MakeFault> {
    let mut entries = Vec::new(rt.alloc());
    add(rt, &mut entries, first, Thing::File(Vec::new(rt.alloc())));
    let zeros = vec![in rt.alloc(); 0; size].expect(rt, "memory");
    add(rt, &mut entries, second, Thing::File(zeros));
    make(rt.alloc(), &Manifest { entries }, 32, 16).err()
}

// Two files, the bytes of the second, and what is wrong with them.
struct Files {
    name: &'static str,
    first: &'static [u8],
    second: &'static [u8],
    size: usize,
    fault: MakeFault,
}

static FAULTS: [Files; 9] = [
    Files {
        name: "a path begins with no slash",
        first: b"bin",
        second: b"/a",
        size: 0,
        fault: MakeFault::Name,
    },
    Files {
        name: "a path has no name",
        first: b"/",
        second: b"/a",
        size: 0,
        fault: MakeFault::Name,
    },
    Files {
        name: "a name is that of the parent",
        first: b"/..",
        second: b"/a",
        size: 0,
        fault: MakeFault::Name,
    },
    Files {
        name: "a name has no bytes",
        first: b"/a//b",
        second: b"/a",
        size: 0,
        fault: MakeFault::Name,
    },
    Files {
        name: "a path is there twice",
        first: b"/a",
        second: b"/a",
        size: 0,
        fault: MakeFault::Twice,
    },
    Files {
        name: "a parent is a file",
        first: b"/a",
        second: b"/a/b",
        size: 0,
        fault: MakeFault::Parent,
    },
    Files {
        name: "a parent comes later",
        first: b"/a/b",
        second: b"/a",
        size: 0,
        fault: MakeFault::Parent,
    },
    Files {
        name: "there are too few blocks",
        first: b"/a",
        second: b"/b",
        size: 26 * 1024,
        fault: MakeFault::Blocks,
    },
    Files {
        name: "no file can be so long",
        first: b"/a",
        second: b"/b",
        size: 67_382_273,
        fault: MakeFault::Blocks,
    },
];

#[test]
fn tells_each_fault(rt: HostRuntime) {
    for files in &FAULTS {
        let fault = fault_of_files(&rt, files.first, files.second, files.size);
        assert!(rt; fault == Some(files.fault), "{}", files.name);
    }
}

// What is wrong with a manifest of directories of these names, in `blocks` blocks.
fn fault_of_directories(
    rt: &(impl Abort + AllocGlobal),
    names: &[u8],
    blocks: u32,
) -> Option<MakeFault> {
    let mut entries = Vec::new(rt.alloc());
    for name in names {
        add(rt, &mut entries, &[b'/', *name], Thing::Directory);
    }
    make(rt.alloc(), &Manifest { entries }, blocks, 16).err()
}

#[test]
fn wants_blocks_and_inodes(rt: HostRuntime) {
    for (names, blocks, fault) in [
        ("", 31, Some(MakeFault::Numbers)),
        ("abcdefghijklmn", 32, None),
        ("abcdefghijklmno", 32, Some(MakeFault::Inodes)),
    ] {
        let told = fault_of_directories(&rt, names.as_bytes(), blocks);
        assert!(rt; told == fault, "{blocks} blocks, {names}");
    }
}
