//! A disk below a cache that gets no memory for any block.
ghost use Rattle.std.specs.Prelude.{[]};
ghost use Rattle.blockdev.specs.Blocks.{blocks_of};
ghost use Rattle.blockdev.specs.Sizes.{AreBlocks-blocks_of};

use crate::session::disk_of;
use anyhow::ensure;
use blockdev::{Block, BlockDev, DeviceFault, MemDisk};
use cache::Cache;
use linked_list_allocator::LocalHeap;
use std::alloc::Global;

/// As much memory as a cache without blocks takes, and too little for one block.
pub const TOO_LITTLE: usize = 4096;

/// A disk, and beside it a cache of another that began with the same bytes. What is read or written on the one is read
/// or written through the other too, and has to be the same.
#[derive(Drop)]
pub struct Starved<'a> {
    disk: MemDisk,
    cache: Cache<MemDisk, &'a LocalHeap>,
    agrees: bool,
}

impl<'a> Starved<'a> {
    /// The disk of these bytes, and a cache that takes its memory from the heap.
    pub fn new(alloc: Global, heap: &'a LocalHeap, bytes: &[u8]) -> anyhow::Result<Starved<'a>> {
        let disk = disk_of(alloc, bytes)?;
        let cache = Cache::new(heap, disk_of(alloc, bytes)?)?;
        Ok(Starved {
            disk,
            cache,
            agrees: true,
        })
    }

    /// The bytes of the disk, where the cache agreed all along, held nothing, and leaves the same bytes.
    pub fn into_bytes(self) -> anyhow::Result<Vec<u8>> {
        let Starved {
            disk,
            mut cache,
            agrees,
        } = self;
        let flushed = cache.flush().is_ok();
        let behind = cache.into_device();
        compare(&disk, &behind, agrees && flushed)?;
        Ok(disk.into_bytes())
    }
}

// Compares a disk with the one below the cache, which agreed or not.
fn compare(disk: &MemDisk, behind: &MemDisk, agreed: bool) -> anyhow::Result<()> {
    ensure!(agreed, "another block without memory");
    ensure!(
        behind.reads() == disk.reads() && behind.writes() == disk.writes(),
        "a block was held without memory"
    );
    ensure!(behind.bytes() == disk.bytes(), "other bytes without memory");
    Ok(())
}

// Whether the cache has this block.
fn caches(cache: &mut Cache<MemDisk, &LocalHeap>, n: usize, block: &Block) -> bool {
    if n >= cache.blocks() {
        return false;
    }
    match cache.read(n) {
        Ok(found) => found == *block,
        Err(_) => false,
    }
}

// Whether the cache takes this block.
fn takes(cache: &mut Cache<MemDisk, &LocalHeap>, n: usize, block: &Block) -> bool {
    n < cache.blocks() && cache.write(n, 0, block).is_ok()
}

impl BlockDev for Starved<'_> {
    ghost content = { λ d. blocks_of d.disk.bytes };

    ghost failures = { λ _. 0 };

    ghost identity = { λ _. [] };

    ghost sizes = { λ d. AreBlocks-blocks_of d.disk.bytes };

    fn blocks(&self) -> usize {
        self.disk.blocks()
    }

    fn read(&mut self, n: usize) -> Result<Block, DeviceFault> {
        let block = self.disk.read(n)?;
        self.agrees = caches(&mut self.cache, n, &block) && self.agrees;
        Ok(block)
    }

    fn write(&mut self, n: usize, block: &Block) -> Result<(), DeviceFault> {
        self.disk.write(n, block)?;
        self.agrees = takes(&mut self.cache, n, block) && self.agrees;
        Ok(())
    }
}
