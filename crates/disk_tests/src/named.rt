//! Names of files in use: a list of steps is walked, and what each gives is compared with what its row says.

ghost use Rattle.std.specs.Prelude.{◌≡◌, ◌≢◌, All, OnOk, false};
ghost use Rattle.std.specs.Bool.{OnTrue};
ghost use Rattle.name_rules.specs.Rules.{KeepsTree};
ghost use Rattle.tree.specs.Tree.{has_failed};

use crate::devices::fail_after;
use crate::maker::small;
use blockdev::{FailAt, MemDisk};
use mount::mount;
use std::process::Abort;
use tree::{Leaf, Tree, TreeFault};

// A path of 127 slashes.
const SLASHES: [u8; 127] = [b'/'; 127];

// A step, and its expected result.
#[derive(Clone, Copy)]
enum Step<'a> {
    // The path reaches this number.
    Find(&'a [u8], Option<usize>),
    // A new file gets this number.
    File(&'a [u8], Result<usize, TreeFault>),
    // A new directory.
    Directory(&'a [u8], Result<(), TreeFault>),
    // Another name for what the first path reaches.
    Link(&'a [u8], &'a [u8], Result<(), TreeFault>),
    // A name goes.
    Unlink(&'a [u8], Result<(), TreeFault>),
}

// Files in use, whose disk may fail: they are of no more use then.
type Used = Tree<FailAt<MemDisk>>;

// Whether no byte is 0.
fn is_plain(path: &[u8]) -> bool
    ensures { OnTrue result (All (λ b. b ≢ 0) path.now) }
{
    path.iter().all(|b| *b != 0)
}

// Whether an access failed.
fn is_lost<T>(told: &Result<T, TreeFault>) -> bool
    ensures { result ≡ has_failed told.now }
{
    match told {
        Ok(_) => false,
        Err(fault) => *fault == TreeFault::Device,
    }
}

// The files of the small image, on a disk of which one access fails, after `good` good ones.
fn used(rt: &(impl Abort + AllocGlobal), good: u64) -> Used
    ensures up { result.failed ≡ false }
    ensures rules { KeepsTree result.files }
{
    let disk = MemDisk::new(small(rt)).expect(rt, "whole blocks");
    mount(rt.alloc(), fail_after(disk, good)).expect(rt, "files")
}

// Takes a step, and returns whether it gives what its row says.
fn walk(files: &mut Used, step: Step) -> Result<bool, TreeFault>
    requires up { files.old.failed ≡ false }
    requires rules { KeepsTree files.old.files }
    ensures { OnOk result ((files.new.failed ≡ false) × KeepsTree files.new.files) }
{
    match step {
        Step::Find(path, number) => find(files, path, number),
        Step::File(path, want) => file(files, path, want),
        Step::Directory(path, want) => directory(files, path, want),
        Step::Link(old, new, want) => link(files, old, new, want),
        Step::Unlink(path, want) => unlink(files, path, want),
    }
}

fn find(files: &mut Used, path: &[u8], want: Option<usize>) -> Result<bool, TreeFault>
    requires up { files.old.failed ≡ false }
    requires rules { KeepsTree files.old.files }
    ensures { OnOk result ((files.new.failed ≡ false) × KeepsTree files.new.files) }
{
    Ok(files.resolve(1, path)? == want)
}

fn file(files: &mut Used, path: &[u8], want: Result<usize, TreeFault>) -> Result<bool, TreeFault>
    requires up { files.old.failed ≡ false }
    requires rules { KeepsTree files.old.files }
    ensures { OnOk result ((files.new.failed ≡ false) × KeepsTree files.new.files) }
{
    if !is_plain(path) {
        return Ok(false);
    }
    let told = files.create(1, path, Leaf::File);
    if is_lost(&told) {
        return Err(TreeFault::Device);
    }
    Ok(told == want)
}

fn directory(files: &mut Used, path: &[u8], want: Result<(), TreeFault>) -> Result<bool, TreeFault>
    requires up { files.old.failed ≡ false }
    requires rules { KeepsTree files.old.files }
    ensures { OnOk result ((files.new.failed ≡ false) × KeepsTree files.new.files) }
{
    if !is_plain(path) {
        return Ok(false);
    }
    let told = files.create_directory(1, path);
    if is_lost(&told) {
        return Err(TreeFault::Device);
    }
    Ok(told == want)
}

fn link(
    files: &mut Used,
    old: &[u8],
    new: &[u8],
    want: Result<(), TreeFault>,
) -> Result<bool, TreeFault>
    requires up { files.old.failed ≡ false }
    requires rules { KeepsTree files.old.files }
    ensures { OnOk result ((files.new.failed ≡ false) × KeepsTree files.new.files) }
{
    if !is_plain(new) {
        return Ok(false);
    }
    let told = files.link(1, old, new);
    if is_lost(&told) {
        return Err(TreeFault::Device);
    }
    Ok(told == want)
}

fn unlink(files: &mut Used, path: &[u8], want: Result<(), TreeFault>) -> Result<bool, TreeFault>
    requires up { files.old.failed ≡ false }
    requires rules { KeepsTree files.old.files }
    ensures { OnOk result ((files.new.failed ≡ false) × KeepsTree files.new.files) }
{
    let told = files.unlink(1, path);
    if is_lost(&told) {
        return Err(TreeFault::Device);
    }
    Ok(told == want)
}

// The first step that gives anything else than its row says, on the small image.
// One access fails, after `good` good ones.
fn first_wrong(
    rt: &(impl Abort + AllocGlobal),
    good: u64,
    steps: &[Step],
) -> Result<Option<usize>, TreeFault> {
    let mut files = used(rt, good);
    for (row, step) in steps.iter().enumerate() {
        if !walk(&mut files, *step)? {
            return Ok(Some(row));
        }
    }
    Ok(None)
}

// The small image has /bin, 2, with the file sh, 3, and the device /console, 4.
const PATHS: [Step<'static>; 12] = [
    Step::Find(b"/bin/sh", Some(3)),
    Step::Find(b"//bin/.//../bin/sh/", Some(3)),
    Step::Find(b"/console/sh", None),
    Step::Find(b"", Some(1)),
    Step::Find(&SLASHES, Some(1)),
    Step::File(&SLASHES, Err(TreeFault::NotFound)),
    Step::File(b"/none/a", Err(TreeFault::NotFound)),
    Step::File(b"/console/a", Err(TreeFault::NotDir)),
    Step::File(b"/bin", Err(TreeFault::Exists)),
    // names are cut to 14 bytes
    Step::File(b"/abcdefghijklmnop", Ok(5)),
    Step::Find(b"/abcdefghijklmn", Some(5)),
    Step::File(b"/abcdefghijklmnz", Err(TreeFault::Exists)),
];

const MOVES: [Step<'static>; 18] = [
    Step::Directory(b"/d", Ok(())),
    Step::Find(b"/d/..", Some(1)),
    Step::Find(b"d/.", Some(5)),
    Step::Directory(b"/d", Err(TreeFault::Exists)),
    Step::File(b"/d/f", Ok(6)),
    Step::Unlink(b"/d", Err(TreeFault::NotEmpty)),
    Step::Unlink(b"/d/..", Err(TreeFault::DotName)),
    Step::Unlink(b"/d/g", Err(TreeFault::NotFound)),
    Step::Unlink(b"/d/f/g", Err(TreeFault::NotDir)),
    Step::Link(b"/d/f", b"/g", Ok(())),
    Step::Link(b"/d", b"/h", Err(TreeFault::IsDir)),
    Step::Link(b"/none", b"/h", Err(TreeFault::NotFound)),
    Step::Unlink(b"/d/f", Ok(())),
    Step::Find(b"/g", Some(6)),
    Step::Unlink(b"/d", Ok(())),
    // the lowest free number
    Step::File(b"/h", Ok(5)),
    Step::Unlink(b"/g", Ok(())),
    Step::File(b"/i", Ok(6)),
];

#[test]
fn names_come_and_go(rt: HostRuntime) {
    for (name, steps) in [
        ("paths are walked", PATHS.as_slice()),
        ("names come and go", MOVES.as_slice()),
    ] {
        let wrong = first_wrong(&rt, 100_000, steps);
        assert!(rt; wrong == Ok(None), "{name}");
    }
}

// A name of each kind comes and goes.
const FEW: [Step<'static>; 4] = [
    Step::Directory(b"/d", Ok(())),
    Step::File(b"/d/f", Ok(6)),
    Step::Link(b"/d/f", b"/g", Ok(())),
    Step::Unlink(b"/g", Ok(())),
];

#[test]
fn each_access_fails_in_turn(rt: HostRuntime) {
    // the mount takes 34 accesses, and the steps read four blocks, which the cache keeps then
    for good in 34..40 {
        let want = if good < 38 {
            Err(TreeFault::Device)
        } else {
            Ok(None)
        };
        assert!(rt; first_wrong(&rt, good, &FEW) == want, "after {good}");
    }
}
