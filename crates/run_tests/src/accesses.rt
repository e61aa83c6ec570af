//! How often a machine asks for its disk.
use crate::disks::{Room, Run, holds_at, run_of};
use crate::sources::READER;
use std::alloc::Global;
use sv39::Plain;
use unixmodel::event::Event;

// More steps than the program takes to read the file once more.
const STEPS: usize = 200;

// Takes steps until the file was read `rounds` times. Returns how often the disk was read until then; `None` if the
// disk was written, or the file not read that often.
fn reads_until(run: &mut Run<Plain>, rounds: u64) -> Option<u64> {
    for _ in 0..STEPS {
        run.event(Event::Step).ok()?;
        if run.machine.inspect(1)?.registers[20] == rounds {
            let disk = run.machine.device();
            return if disk.writes() == 0 {
                Some(disk.reads())
            } else {
                None
            };
        }
    }
    None
}

// How often the disk is read as the file is read for the second time, and for the third.
fn rereads(run: &mut Run<Plain>) -> Option<(u64, u64)> {
    let first = reads_until(run, 1)?;
    let second = reads_until(run, 2)?;
    let third = reads_until(run, 3)?;
    Some((second.wrapping_sub(first), third.wrapping_sub(second)))
}

// The same for a file of `bytes` bytes.
fn reads_again(alloc: Global, bytes: usize) -> Option<(u64, u64)> {
    let room = Room {
        frames: 64,
        blocks: 64,
    };
    let mut run = run_of(alloc, READER, bytes, room)?;
    let told = rereads(&mut run);
    run.end();
    told
}

// Whether a file that doesn't fit is read whole each time.
fn is_read_again(told: Option<(u64, u64)>) -> bool {
    match told {
        Some((second, third)) => second == third && second >= 32,
        None => false,
    }
}

// Thirty blocks are held: those of a file of 20 blocks, of its numbers, its inode and its directory are, and those of a
// file of 32 blocks aren't.
#[test]
fn what_is_held_is_not_read_again(rt: HostRuntime) {
    let alloc = rt.alloc();
    holds_at(&rt, 0, reads_again(alloc, 20 * 1024) == Some((0, 0)));
    holds_at(&rt, 1, is_read_again(reads_again(alloc, 32 * 1024)));
}
