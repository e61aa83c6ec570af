//! How often the device is read and written, and what it has then.

use blockdev::{BlockDev, FailAt, MemDisk};
use cache::Cache;
use std::alloc::Allocator;
use std::num::NonZeroU64;
use std::process::Abort;

/// An empty disk of `blocks` blocks.
pub fn disk_of(rt: &(impl Abort + AllocGlobal), blocks: usize) -> MemDisk {
    let bytes = vec![in rt.alloc(); 0; blocks.saturating_mul(1024)].expect(rt, "memory");
    MemDisk::new(bytes).expect(rt, "whole blocks")
}

/// Byte `at` of a block that there is.
pub fn byte<D: BlockDev, A: Allocator + Clone>(
    cache: &mut Cache<D, A>,
    n: usize,
    at: usize,
) -> Option<u8> {
    if n >= cache.blocks() || at >= 1024 {
        return None;
    }
    let Ok(block) = cache.read(n) else {
        return None;
    };
    Some(block[at])
}

/// Writes one byte into a block that there is, and returns whether that went well.
pub fn put<D: BlockDev, A: Allocator + Clone>(
    cache: &mut Cache<D, A>,
    n: usize,
    at: usize,
    byte: u8,
) -> bool {
    n < cache.blocks() && at < 1024 && cache.write(n, at, &[byte]).is_ok()
}

// What is done to a cache.
#[derive(Clone, Copy)]
enum Act {
    /// Writes the first byte of a block, and goes well or not.
    Put(usize, u8, bool),
    /// Writes this byte into that many bytes of a block, from the first on.
    Fill(usize, usize, u8),
    /// Writes this byte into all bytes of a block at once.
    Whole(usize, u8),
    /// Reads a block, which has this first byte.
    Read(usize, Option<u8>),
    /// Reads the blocks from one to before another in turn.
    ReadAll(usize, usize),
    /// Writes what the device lacks, and goes well or not.
    Flush(bool),
    /// Does so again and again, and each time it goes well.
    Flushes(usize),
    /// An access of the device has failed, or none has.
    HasFailed(bool),
}

// All accesses are good.
const NEVER: u64 = u64::MAX;

fn fills(cache: &mut Cache<FailAt<MemDisk>>, n: usize, count: usize, value: u8) -> bool {
    for at in 0..count {
        if !put(cache, n, at, value) {
            return false;
        }
    }
    true
}

fn writes_whole(cache: &mut Cache<FailAt<MemDisk>>, n: usize, value: u8) -> bool {
    n < cache.blocks() && cache.write(n, 0, &[value; 1024]).is_ok()
}

fn reads_all(cache: &mut Cache<FailAt<MemDisk>>, from: usize, to: usize) -> bool {
    for n in from..to {
        if byte(cache, n, 0).is_none() {
            return false;
        }
    }
    true
}

fn flushes(cache: &mut Cache<FailAt<MemDisk>>, count: usize) -> bool {
    for _ in 0..count {
        if cache.flush().is_err() {
            return false;
        }
    }
    true
}

// Does it, and returns whether that gives what is expected.
fn does(cache: &mut Cache<FailAt<MemDisk>>, act: Act) -> bool {
    match act {
        Act::Put(n, value, is_good) => put(cache, n, 0, value) == is_good,
        Act::Fill(n, count, value) => fills(cache, n, count, value),
        Act::Whole(n, value) => writes_whole(cache, n, value),
        Act::Read(n, first) => byte(cache, n, 0) == first,
        Act::ReadAll(from, to) => reads_all(cache, from, to),
        Act::Flushes(count) => flushes(cache, count),
        Act::Flush(is_good) => cache.flush().is_ok() == is_good,
        Act::HasFailed(has_failed) => cache.device().has_failed() == has_failed,
    }
}

/// Whether a disk was read and written this often.
pub fn took(disk: &MemDisk, reads: u64, writes: u64) -> bool {
    disk.reads() == reads && disk.writes() == writes
}

// Whether a disk has these bytes at these offsets.
fn has(disk: &MemDisk, rows: &[(usize, u8)]) -> bool {
    let bytes = disk.bytes();
    for (at, byte) in rows {
        if bytes.get(*at) != Some(byte) {
            return false;
        }
    }
    true
}

// What is done to a cache over an empty disk, of which one access fails, and the disk then.
struct Case {
    name: &'static str,
    blocks: usize,
    /// That many accesses are good before the one that fails.
    good: u64,
    acts: &'static [Act],
    reads: u64,
    writes: u64,
    /// Offsets on the disk and the bytes there.
    bytes: &'static [(usize, u8)],
}

// What is on a disk whose block 1 got 100 bytes.
const FILLED: &[(usize, u8)] = &[(1023, 0), (1024, 7), (1123, 7), (1124, 0)];

static CASES: [Case; 12] = [
    Case {
        name: "thirty blocks are held",
        blocks: 30,
        good: NEVER,
        acts: &[Act::ReadAll(0, 30), Act::ReadAll(0, 30)],
        reads: 30,
        writes: 0,
        bytes: &[],
    },
    Case {
        name: "no more than thirty blocks are held",
        blocks: 31,
        good: NEVER,
        acts: &[Act::ReadAll(0, 31), Act::ReadAll(0, 31)],
        reads: 62,
        writes: 0,
        bytes: &[],
    },
    Case {
        name: "a changed block is written at a flush",
        blocks: 2,
        good: NEVER,
        acts: &[Act::Fill(1, 100, 7), Act::Flushes(1)],
        reads: 1,
        writes: 1,
        bytes: FILLED,
    },
    Case {
        name: "a changed block is not written again at a second flush",
        blocks: 2,
        good: NEVER,
        acts: &[Act::Fill(1, 100, 7), Act::Flushes(2)],
        reads: 1,
        writes: 1,
        bytes: FILLED,
    },
    Case {
        name: "a changed block is not written again at a third flush",
        blocks: 2,
        good: NEVER,
        acts: &[Act::Fill(1, 100, 7), Act::Flushes(3)],
        reads: 1,
        writes: 1,
        bytes: FILLED,
    },
    Case {
        name: "a block that is written whole is not read",
        blocks: 2,
        good: NEVER,
        acts: &[
            Act::Whole(1, 7),
            Act::Put(1, 8, true),
            Act::Read(1, Some(8)),
            Act::Flushes(1),
        ],
        reads: 0,
        writes: 1,
        bytes: &[(1023, 0), (1024, 8), (1025, 7), (2047, 7)],
    },
    Case {
        name: "the block used longest ago leaves",
        blocks: 32,
        good: NEVER,
        // block 0 is used again, so block 1 leaves for block 30, and block 2, which is clean, for block 31
        acts: &[
            Act::Put(0, 1, true),
            Act::Put(1, 2, true),
            Act::ReadAll(2, 30),
            Act::Read(0, Some(1)),
            Act::Read(30, Some(0)),
            Act::Read(31, Some(0)),
            Act::Read(0, Some(1)),
        ],
        reads: 32,
        writes: 1,
        bytes: &[(0, 0), (1024, 2)],
    },
    Case {
        name: "a failed write is reported",
        blocks: 31,
        good: 0,
        acts: &[
            Act::Put(0, b'x', false),
            Act::HasFailed(true),
            Act::Read(0, Some(0)),
            Act::Flush(true),
        ],
        reads: 1,
        writes: 0,
        bytes: &[(0, 0)],
    },
    Case {
        name: "a failed flush is reported",
        blocks: 31,
        good: 1,
        acts: &[
            Act::Put(0, b'x', true),
            Act::Read(0, Some(b'x')),
            Act::Flush(false),
            Act::HasFailed(true),
        ],
        reads: 1,
        writes: 0,
        bytes: &[],
    },
    Case {
        name: "no failure is reported where there is none",
        blocks: 31,
        good: 2,
        acts: &[
            Act::Put(0, b'x', true),
            Act::Read(0, Some(b'x')),
            Act::Flush(true),
            Act::HasFailed(false),
        ],
        reads: 1,
        writes: 1,
        bytes: &[(0, b'x')],
    },
    Case {
        name: "a failed flush can be tried again",
        blocks: 31,
        good: 2,
        acts: &[
            Act::Put(0, b'x', true),
            Act::Put(1, b'y', true),
            Act::Flush(false),
            Act::Flush(true),
        ],
        reads: 2,
        writes: 2,
        bytes: &[(0, b'x'), (1024, b'y')],
    },
    Case {
        name: "a read fails where no block can leave",
        blocks: 31,
        good: 31,
        // 31 reads are good, and the write of the block that must leave is the access that fails
        acts: &[
            Act::Put(0, b'x', true),
            Act::ReadAll(1, 30),
            Act::HasFailed(false),
            Act::Read(30, None),
            Act::HasFailed(true),
            Act::Read(30, Some(0)),
        ],
        reads: 32,
        writes: 1,
        bytes: &[(0, b'x')],
    },
];

// Does them in turn, and returns how many gave what is expected before one didn't.
fn done(cache: &mut Cache<FailAt<MemDisk>>, acts: &[Act]) -> usize {
    for (at, act) in acts.iter().enumerate() {
        if !does(cache, *act) {
            return at;
        }
    }
    acts.len()
}

// Whether the disk is as expected.
fn is_left(disk: &MemDisk, case: &Case) -> bool {
    took(disk, case.reads, case.writes)
        && has(disk, case.bytes)
        && disk.bytes().len() == case.blocks.saturating_mul(1024)
}

// What is expected comes of it.
fn expect(rt: &(impl Abort + AllocGlobal), case: &Case) {
    let device = FailAt::new(
        disk_of(rt, case.blocks),
        NonZeroU64::MIN.saturating_add(case.good),
    );
    let mut cache = Cache::new(rt.alloc(), device).expect(rt, "memory");
    let done = done(&mut cache, case.acts);
    let disk = cache.into_device().into_inner();
    assert!(rt;
        done == case.acts.len() && is_left(&disk, case),
        "{}: after {done} acts",
        case.name
    );
}

#[test]
fn reads_and_writes_no_more_than_it_must(rt: HostRuntime) {
    for case in &CASES {
        expect(&rt, case);
    }
}
