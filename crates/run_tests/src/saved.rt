//! What is shown of files that a machine holds or fills, and what is saved of them.
use crate::disks::{Room, Run, Whole, disk_of, expect_row, image_of, run_of};
use crate::sources::{FILLER, HOLDER};
use blockdev::MemDisk;
use image::{Summary, check};
use machine::{ProcessState, Seen, Stat};
use std::alloc::Global;
use sv39::Plain;

// Enough steps for these programs.
const STEPS: usize = 60;

// The number that the held file gets: 1 is the root's, 2 and 3 are those of `/init` and `/big`.
const HELD: usize = 4;

// Whether the file with this number has this status.
fn has_file(run: &mut Whole, number: usize, stat: Stat) -> bool {
    match run.machine.stat_inode(number) {
        Ok(Some(found)) => found == stat,
        _ => false,
    }
}

const UNNAMED: Stat = Stat {
    kind: 2,
    links: 0,
    size: 1,
};

// A machine that holds a file of one byte without a name, and is given up. `None`: it is otherwise.
fn held(alloc: Global, disk: MemDisk) -> Option<MemDisk> {
    let mut run = Run::boot(alloc, disk, Plain::new(), 64)?;
    let is_held = run.steps(STEPS) && has_file(&mut run, HELD, UNNAMED);
    match run.left() {
        Some((disk, _)) if is_held => Some(disk),
        _ => None,
    }
}

const USED: Summary = Summary {
    inodes: 3,
    blocks: 7,
};

// Whether a disk has in use what it had before.
fn is_as_before(alloc: Global, disk: &mut MemDisk) -> bool {
    match check(alloc, disk) {
        Ok(used) => used == USED,
        Err(_) => false,
    }
}

// Whether it is so before a machine holds a file, three times, and after that.
fn stays(alloc: Global, mut disk: MemDisk) -> Option<bool> {
    for _ in 0..3 {
        let is_as_before = is_as_before(alloc, &mut disk);
        disk = held(alloc, disk)?;
        if !is_as_before {
            return Some(false);
        }
    }
    Some(is_as_before(alloc, &mut disk))
}

// The disk is that of the image, of which `check` says what is in use: the held file's inode and block aren't.
#[test]
fn what_is_held_without_a_name_is_not_saved(rt: HostRuntime) {
    let alloc = rt.alloc();
    let image = image_of(alloc, HOLDER, 1, 32).expect(&rt, "an image");
    let disk = disk_of(alloc, image.as_slice()).expect(&rt, "a disk");
    expect_row(&rt, "a file of one byte", stays(alloc, disk));
}

// Whether it read the file, wrote one byte more, and was refused another.
fn has_filled(seen: &Seen) -> bool {
    seen.state == ProcessState::Running
        && seen.registers[18] == 67_382_271
        && seen.registers[19] == 1
        && seen.registers[20] == u64::MAX
}

const FULL: Stat = Stat {
    kind: 2,
    links: 1,
    size: 67_382_272,
};

// Whether a run fills its file.
fn fills(run: &mut Whole) -> Option<bool> {
    let goes = run.steps(STEPS);
    let seen = run.machine.inspect(1)?;
    Some(goes && has_filled(&seen) && has_file(run, 3, FULL))
}

#[test]
fn a_file_has_at_most_67382272_bytes(rt: HostRuntime) {
    let room = Room {
        frames: 16500,
        blocks: 131_072,
    };
    let mut run = run_of(rt.alloc(), FILLER, 67_382_271, room).expect(&rt, "a machine");
    let holds = fills(&mut run);
    run.end();
    expect_row(&rt, "a file", holds);
}
