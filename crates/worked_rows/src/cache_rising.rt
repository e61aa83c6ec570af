//! The order in which changed blocks are written.

ghost use Rattle.std.specs.Prelude.{[]};
ghost use Rattle.blockdev.specs.Blocks.{blocks_of};
ghost use Rattle.blockdev.specs.Sizes.{AreBlocks-blocks_of};

use crate::cache_rows::{disk_of, put};
use blockdev::{Block, BlockDev, DeviceFault, MemDisk};
use cache::Cache;
use std::process::Abort;

// A disk that notes whether each block that is written has a higher number than the one before.
#[derive(Drop)]
struct Noted {
    disk: MemDisk,
    last: Option<usize>,
    is_rising: bool,
}

impl BlockDev for Noted {
    ghost content = { λ d. blocks_of d.disk.bytes };

    ghost failures = { λ _. 0 };

    ghost identity = { λ _. [] };

    ghost sizes = { λ d. AreBlocks-blocks_of d.disk.bytes };

    fn blocks(&self) -> usize {
        self.disk.blocks()
    }

    fn read(&mut self, n: usize) -> Result<Block, DeviceFault> {
        self.disk.read(n)
    }

    fn write(&mut self, n: usize, block: &Block) -> Result<(), DeviceFault> {
        if let Some(last) = self.last {
            self.is_rising = self.is_rising && last < n;
        }
        self.last = Some(n);
        self.disk.write(n, block)
    }
}

// An empty disk of 30 blocks, each of which was changed before they were written.
fn flushed(rt: &(impl Abort + AllocGlobal)) -> Noted {
    let disk = Noted {
        disk: disk_of(rt, 30),
        last: None,
        is_rising: true,
    };
    let mut cache = Cache::new(rt.alloc(), disk).expect(rt, "memory");
    for n in 0..30 {
        assert!(rt; put(&mut cache, 7 * n % 30, 0, 1));
    }
    assert!(rt; cache.flush().is_ok());
    cache.into_device()
}

#[test]
fn flushes_in_rising_order(rt: HostRuntime) {
    let noted = flushed(&rt);
    assert!(rt; noted.is_rising && noted.last == Some(29) && noted.disk.writes() == 30);
}
