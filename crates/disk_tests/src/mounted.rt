//! The files of an image in use.

ghost use Rattle.mount.specs.Mounted.{IsFlat};

use crate::devices::fail_after;
use crate::maker::small;
use blockdev::MemDisk;
use image::ImageFault;
use inode::InodeStat;
use mount::{mount, mount_flat};
use std::process::Abort;
use tree::{Tree, TreeFault};

// What is wrong with the small image where an access fails after `good` good ones.
fn fault_after(rt: &(impl Abort + AllocGlobal), good: u64) -> Option<ImageFault> {
    let disk = MemDisk::new(small(rt)).expect(rt, "whole blocks");
    mount(rt.alloc(), fail_after(disk, good)).err()
}

#[test]
fn mounts_a_small_image(rt: HostRuntime) {
    // the super block, 32 blocks, and the super block again
    let (early, late) = (fault_after(&rt, 33), fault_after(&rt, 34));
    assert!(rt; (early, late) == (Some(ImageFault::Device), None));
}

// The stat of a directory with ".", ".." and "console".
const ROOT: InodeStat = InodeStat {
    kind: 1,
    major: 0,
    links: 1,
    size: 48,
};

// The stat of the console.
const CONSOLE: InodeStat = InodeStat {
    kind: 3,
    major: 1,
    links: 1,
    size: 0,
};

#[test]
fn mounts_the_console(rt: HostRuntime) {
    let mut tree = mount_flat(rt.alloc()).expect(&rt, "memory");
    assert!(rt; tree.stat(2) == Ok(CONSOLE));
}

// What is asked of the files of the flat image, and the expected result.
#[derive(Clone, Copy)]
enum Asked {
    /// Any number.
    Look(usize, Option<InodeStat>),
    /// These bytes are read from an offset of any node on, where seven are asked for.
    Read(usize, usize, &'static [u8]),
    /// A name is taken away.
    Unlink(&'static [u8], Result<(), TreeFault>),
}

static ASKED: [(&str, Asked); 19] = [
    ("no inode is 0", Asked::Look(0, None)),
    ("the root is 1", Asked::Look(1, Some(ROOT))),
    ("the console is 2", Asked::Look(2, Some(CONSOLE))),
    ("3 is free", Asked::Look(3, None)),
    ("the last one is free", Asked::Look(15, None)),
    ("one more is none", Asked::Look(16, None)),
    ("the greatest number is none", Asked::Look(usize::MAX, None)),
    ("a name of the root", Asked::Read(1, 34, b"console")),
    ("its last byte", Asked::Read(1, 47, b"\0")),
    ("nothing from its end on", Asked::Read(1, 48, b"")),
    ("nothing of a device", Asked::Read(2, 0, b"")),
    ("nothing of what is free", Asked::Read(3, 0, b"")),
    (
        "nothing of what is none",
        Asked::Read(usize::MAX, usize::MAX, b""),
    ),
    ("a name goes", Asked::Unlink(b"/console", Ok(()))),
    ("slashes and dots", Asked::Unlink(b".//console/", Ok(()))),
    ("a dot name", Asked::Unlink(b"/..", Err(TreeFault::DotName))),
    (
        "no such name",
        Asked::Unlink(b"/none", Err(TreeFault::NotFound)),
    ),
    (
        "a name below a device",
        Asked::Unlink(b"/console/none", Err(TreeFault::NotDir)),
    ),
    (
        "no name at all",
        Asked::Unlink(b"//", Err(TreeFault::NotFound)),
    ),
];

// Whether the files give the expected result.
fn is_answer(tree: &mut Tree<MemDisk>, asked: Asked) -> bool
    requires { IsFlat tree.old }
{
    match asked {
        Asked::Look(number, told) => tree.look(number) == Ok(told),
        Asked::Read(number, at, bytes) => {
            let mut out = [0; 7];
            match tree.read_any(number, at, &mut out) {
                Ok(count) => out.get(..count) == Some(bytes),
                Err(_) => false,
            }
        }
        Asked::Unlink(path, told) => tree.unlink(1, path) == told,
    }
}

#[test]
fn answers_what_is_asked_of_any_number_and_name(rt: HostRuntime) {
    for (name, asked) in &ASKED {
        let mut tree = mount_flat(rt.alloc()).expect(&rt, "memory");
        assert!(rt; is_answer(&mut tree, *asked), "{name}");
    }
}
