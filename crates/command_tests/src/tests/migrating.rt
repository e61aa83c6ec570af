//! Stored runs of the command that makes an image of the large format of one of the small format.
use crate::tests::images::{expect_outcome, mkfs};
use crate::tests::{DONE, Files, Wanted, change, expect, files_of};
use commands::{Job, Migrate};
use std::process::Abort;

pub fn migrate<'a>(old: &'a str, new: &'a str) -> Job<'a> {
    Job::Migrate(Migrate { old, new })
}

// Files of which `host` is the image of 32 blocks and 16 inodes that a manifest makes with a file of `length` bytes,
// some of the image's bytes changed: where no file has more than 11 blocks the formats differ in the magic number
// alone.
fn with_old(
    rt: &(impl Abort + AllocGlobal),
    manifest: &str,
    length: usize,
    changes: &[(usize, u8)],
) -> Files {
    let bytes = vec![in rt.alloc(); 0u8; length].expect(rt, "memory");
    let mut files = files_of(rt.alloc(), bytes, manifest.as_bytes()).expect(rt, "memory");
    let name = ("an old image", manifest);
    expect(rt, name, &mut files, &mkfs(32, 16), DONE);
    change(&mut files.image, changes);
    std::mem::swap(&mut files.bytes, &mut files.image);
    files.image.clear();
    files
}

// A manifest, the length of the host's file, the changes, and what `migrate` and `check` print or why no image is made.
type Old = (
    &'static str,
    usize,
    &'static [(usize, u8)],
    Result<&'static str, &'static str>,
);

static OLD: [Old; 7] = [
    (
        "dir /a\ndev /b 1 2",
        0,
        &[(1024, 0x40)],
        Ok("ok 3 inodes 2 blocks\n"),
    ),
    // A file gets a twelfth block, whose number is where the large format has that of the index block.
    (
        "file /a host",
        11264,
        &[(1024, 0x40), (2185, 0x30), (2232, 17), (4098, 0x03)],
        Ok("ok 2 inodes 14 blocks\n"),
    ),
    (
        "file /a host\nfile /b host",
        11264,
        &[
            (1024, 0x40),
            (2185, 0x30),
            (2232, 28),
            (2249, 0x30),
            (2296, 29),
            (4099, 0x3f),
        ],
        Ok("ok 3 inodes 27 blocks\n"),
    ),
    ("dir /a", 0, &[], Err("fault 2 Magic\n")),
    (
        "dir /a",
        0,
        &[(1024, 0x40), (2118, 9)],
        Err("fault 10 Links\n"),
    ),
    (
        "file /a host",
        11264,
        &[(1024, 0x40), (2185, 0x30)],
        Err("fault 5 Address\n"),
    ),
    (
        "file /a host\nfile /b host\ndir /c",
        11264,
        &[
            (1024, 0x40),
            (2185, 0x30),
            (2232, 29),
            (2249, 0x30),
            (2296, 30),
            (4099, 0x7f),
        ],
        Err("fault 2 Blocks\n"),
    ),
];

fn told_of(outcome: Result<&'static str, &'static str>) -> Wanted<'static> {
    match outcome {
        Ok(line) => (line, "", 0),
        Err(line) => ("", line, 1),
    }
}

fn expect_migrated(rt: &(impl Abort + AllocGlobal), row: &Old) {
    let (manifest, length, changes, outcome) = *row;
    let name = ("a new image", manifest);
    let mut files = with_old(rt, manifest, length, changes);
    let job = migrate("host", "image");
    expect(rt, name, &mut files, &job, told_of(outcome));
    expect_outcome(rt, name, &mut files, outcome);
}

fn expect_unusable(rt: &(impl Abort + AllocGlobal), files: &mut Files, row: &Unusable) {
    let (old, new, line) = *row;
    expect(rt, (old, new), files, &migrate(old, new), ("", line, 1));
}

// Files that can't be read or written, or are no image: the old one, the new one, and standard error.
type Unusable = (&'static str, &'static str, &'static str);

static UNUSABLE: [Unusable; 3] = [
    ("none", "image", "cannot read none\n"),
    ("host", "none", "cannot write none\n"),
    ("manifest", "image", "fault 1 Length\n"),
];

fn expect_all_migrated(rt: &(impl Abort + AllocGlobal)) {
    for row in &OLD {
        expect_migrated(rt, row);
    }
}

fn expect_all_unusable(rt: &(impl Abort + AllocGlobal)) {
    let mut files = with_old(rt, "dir /a", 0, &[(1024, 0x40)]);
    for row in &UNUSABLE {
        expect_unusable(rt, &mut files, row);
    }
}

fn expect_migrations(rt: &(impl Abort + AllocGlobal)) {
    expect_all_migrated(rt);
    expect_all_unusable(rt);
}

#[test]
fn migrates_images(rt: HostRuntime) {
    expect_migrations(&rt);
}
