//! The cache where host memory is refused.

ghost use Rattle.std.specs.Prelude.{◌≤◌};

use crate::cache_rows::{byte, disk_of, put, took};
use blockdev::MemDisk;
use cache::Cache;
use linked_list_allocator::LocalHeap;
use std::alloc::Allocator;
use std::process::Abort;

// Writes into a block, reads it, and writes again.
fn changes<A: Allocator + Clone>(cache: &mut Cache<MemDisk, A>, n: usize) -> bool
    requires { n ≤ 1023 }
{
    if !put(cache, n, n, 1) {
        return false;
    }
    match byte(cache, n, n) {
        Some(byte) => put(cache, n, 1023 - n, byte),
        None => false,
    }
}

// Does so with each of 33 blocks.
fn changes_all<A: Allocator + Clone>(cache: &mut Cache<MemDisk, A>) -> bool {
    for n in 0..33 {
        if !changes(cache, n) {
            return false;
        }
    }
    cache.flush().is_ok()
}

// The disk after some writes and reads, where the cache has a heap of this size; none where there is no cache.
fn run(rt: &(impl Abort + AllocGlobal), size: usize) -> Option<MemDisk> {
    let heap = LocalHeap::new(rt.alloc(), size).expect(rt, "memory");
    let Ok(mut cache) = Cache::new(&heap, disk_of(rt, 33)) else {
        return None;
    };
    assert!(rt; changes_all(&mut cache));
    Some(cache.into_device())
}

// How many reads it takes with a heap of this size to make the same disk; none where there is no cache.
fn reads_of(rt: &(impl Abort + AllocGlobal), size: usize, same: &MemDisk) -> Option<u64> {
    let Some(disk) = run(rt, size) else {
        return None;
    };
    let reads = disk.reads();
    assert!(rt; disk.bytes() == same.bytes() && disk.writes() <= reads);
    Some(reads)
}

#[test]
fn does_the_same_without_memory(rt: HostRuntime) {
    let all = run(&rt, 100_000).expect(&rt, "memory");
    assert!(rt; took(&all, 33, 33));
    let mut refused = false;
    let mut fewest = u64::MAX;
    let mut most = 0;
    for step in 0..40 {
        match reads_of(&rt, 1000 * step, &all) {
            None => refused = true,
            Some(reads) => {
                fewest = reads.min(fewest);
                most = reads.max(most);
            }
        }
    }
    // With no memory each read and each write reads the block.
    assert!(rt; refused && fewest == 33 && most == 99);
}
