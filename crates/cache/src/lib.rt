//! The blocks of a device as one list, for the layers above.
//!
//! At most 30 blocks are held, those that were used last.
//! A read of a part of one of the first four leaves the four in their order.
//! A write changes the held block alone; the device has it once the block had to leave, or after `flush`.
//! Where there is no memory for a block it isn't held: a read returns the one block that was read, and a write goes to
//! the device at once.
#![tactic(auto)]

ghost use Rattle.std.specs.Prelude.{◌≡◌, ℕ, ◌+◌, ◌<◌, ◌≤◌, ◌↔◌, List, length, IfOk, IfSome, IsTrue, slice_set};
ghost use Rattle.std.specs.Bool.{OnTrue, OnFalse};
ghost use Rattle.blockdev.specs.Blocks.{AreBlocks, block_at};
ghost use Rattle.blockdev.specs.Splice.{part, splice};
ghost use Rattle.cache.specs.Steps.{AsBefore, IsCopy, Reads, Steps};

mod held;

use blockdev::{BLOCK_SIZE, Block, BlockDev, DeviceFault, Duplicate};
use held::{
    Slot, Slots, change, duplicates, hold, next_to_write, recent, set_held, write_now, write_out,
    write_whole,
};
use lru::LruCache;
use std::alloc::{AllocError, Allocator, Global};
use std::marker::Model;
use std::num::NonZeroUsize;

/// How many blocks are held at most.
const HELD: usize = 30;

/// The blocks of a device. After a fault it is open what they hold, but not how many they are.
#[derive(Drop)]
pub struct Cache<D: BlockDev, A: Allocator + Clone = Global> {
    device: D,
    held: Slots<A>,
    // Whether a write failed since the last good flush: then no held block is known to be the device's.
    in_doubt: bool,
}

impl<D: BlockDev, A: Allocator + Clone> Model for Cache<D, A> {
    ghost use Rattle.cache.specs.Disk.{Disk};

    ghost Value = { Disk D };

    ghost use Rattle.cache.specs.Overlay.{overlay, AreKept};

    ghost view = { λ c. record {
      blocks = overlay c.held.entries (D.content c.device);
      device = c.device;
      failures = D.failures c.device;
    } };

    ghost invariant = { λ c. AreKept c.held.entries (D.content c.device) c.in_doubt };
}

impl<D: BlockDev, A: Allocator + Clone> Cache<D, A> {
    /// The blocks of the device. It is the only call that can ask for host memory and be refused.
    pub fn new(alloc: A, device: D) -> Result<Cache<D, A>, AllocError>
        ensures made { IfOk result
            (λ cache. cache ≡ record { blocks = D.content device; device = device; failures = D.failures device }) }
        ensures sizes { AreBlocks (D.content device) }
    {
        let held = LruCache::new(alloc, NonZeroUsize::new(HELD).unwrap())?;
        Ok(Cache {
            device,
            held,
            in_doubt: false,
        })
    }

    /// Gives up the cache for the device, which has what was flushed.
    pub fn into_device(self) -> D
        ensures device { result ≡ self.device }
        ensures failures { D.failures result ≡ self.failures }
    {
        let Cache {
            device,
            held,
            in_doubt: _,
        } = self;
        drop(held);
        device
    }

    /// The device below, which has what was flushed.
    pub fn device(&self) -> &D
        ensures device { result.now ≡ self.now.device }
        ensures failures { D.failures result.now ≡ self.now.failures }
    {
        &self.device
    }

    /// How many blocks there are.
    pub fn blocks(&self) -> usize
        ensures count { result ≡ length self.now.blocks }
        ensures stored { result ≡ length (D.content self.now.device) }
        ensures sizes { AreBlocks self.now.blocks }
    {
        self.device.blocks()
    }

    /// The bytes of block `n`.
    pub fn read(&mut self, n: usize) -> Result<Block, DeviceFault>
        requires { n < length self.old.blocks }
        ensures { Reads D.identity self.old self.new result (λ block. block ≡ block_at self.old.blocks n) }
    {
        if let Some(slot) = self.held.get(&n) {
            return Ok(slot.bytes);
        }
        let bytes = self.device.read(n)?;
        let slot = Slot {
            bytes,
            changed: false,
        };
        hold(
            &mut self.device,
            &mut self.held,
            &mut self.in_doubt,
            n,
            &slot,
        )?;
        Ok(bytes)
    }

    /// The bytes of block `n`, where it is held and was used of late: nothing is copied then.
    #[inline]
    pub fn recent(&self, n: usize) -> Option<&Block>
        requires { n < length self.now.blocks }
        ensures { IfSome result (λ block. block.now ≡ block_at self.now.blocks n) }
    {
        match recent(&self.held, n) {
            Some(slot) => Some(&slot.bytes),
            None => None,
        }
    }

    /// Reads bytes of block `n` from offset `at` on, as many as `out` has. Of a held block nothing else is copied.
    #[inline]
    pub fn read_part(&mut self, n: usize, at: usize, out: &mut [u8]) -> Result<(), DeviceFault>
        requires block { n < length self.old.blocks }
        requires fits { at + length out.old ≤ 1024 }
        ensures { Reads D.identity self.old self.new result
            (λ _. out.new ≡ part at (length out.old) (block_at self.old.blocks n)) }
    {
        if let Some(slot) = recent(&self.held, n) {
            out.copy_from_slice(&slot.bytes[at..at + out.len()]);
            return Ok(());
        }
        self.read_older(n, at, out)
    }

    // The same for a block after which others were used. It is out of line, so that the way to those used last is
    // short.
    #[inline(never)]
    fn read_older(&mut self, n: usize, at: usize, out: &mut [u8]) -> Result<(), DeviceFault>
        requires block { n < length self.old.blocks }
        requires fits { at + length out.old ≤ 1024 }
        ensures { Reads D.identity self.old self.new result
            (λ _. out.new ≡ part at (length out.old) (block_at self.old.blocks n)) }
    {
        let count = out.len();
        if let Some(held) = self.held.get(&n) {
            out.copy_from_slice(&held.bytes[at..at + count]);
            return Ok(());
        }
        self.read_unheld(n, at, out)
    }

    // The same for a block that isn't held, by way of a copy. It is out of line: a held block needs no room for the
    // copy.
    #[inline(never)]
    fn read_unheld(&mut self, n: usize, at: usize, out: &mut [u8]) -> Result<(), DeviceFault>
        requires block { n < length self.old.blocks }
        requires fits { at + length out.old ≤ 1024 }
        ensures { Reads D.identity self.old self.new result
            (λ _. out.new ≡ part at (length out.old) (block_at self.old.blocks n)) }
    {
        let block = self.read(n)?;
        out.copy_from_slice(&block[at..at + out.len()]);
        Ok(())
    }

    /// Writes bytes into block `n` from offset `at` on. What a block had that is written whole is not read.
    pub fn write(&mut self, n: usize, at: usize, bytes: &[u8]) -> Result<(), DeviceFault>
        requires block { n < length self.old.blocks }
        requires fits { at + length bytes.now ≤ 1024 }
        ensures { Steps D.identity self.old self.new result (λ _. self.new.blocks ≡
            slice_set self.old.blocks n (splice at bytes.now (block_at self.old.blocks n))) }
    {
        if let Some(slot) = self.held.get_mut(&n) {
            change(slot, at, bytes);
            return Ok(());
        }
        if bytes.len() == BLOCK_SIZE {
            return write_whole(
                &mut self.device,
                &mut self.held,
                &mut self.in_doubt,
                n,
                bytes,
            );
        }
        self.write_unheld(n, at, bytes)
    }

    // The same for a part of a block that isn't held: the block is read first. Out of line, as `read_unheld` is.
    #[inline(never)]
    fn write_unheld(&mut self, n: usize, at: usize, bytes: &[u8]) -> Result<(), DeviceFault>
        requires block { n < length self.old.blocks }
        requires fits { at + length bytes.now ≤ 1024 }
        ensures { Steps D.identity self.old self.new result (λ _. self.new.blocks ≡
            slice_set self.old.blocks n (splice at bytes.now (block_at self.old.blocks n))) }
    {
        let mut block = self.read(n)?;
        if let Some(slot) = self.held.get_mut(&n) {
            change(slot, at, bytes);
            return Ok(());
        }
        // Without memory for it the block isn't held.
        block[at..at + bytes.len()].copy_from_slice(bytes);
        write_now(&mut self.device, n, &block, &mut self.in_doubt)
    }

    /// Writes to the device what it lacks.
    pub fn flush(&mut self) -> Result<(), DeviceFault>
        ensures { Reads D.identity self.old self.new result (λ _. D.content self.new.device ≡ self.old.blocks) }
    {
        // Their count has 64 bits, so the number after a block's has, too.
        let _ = self.device.blocks();
        let mut from = 0;
        'block: while let Some(n) = next_to_write(&self.held, from, self.in_doubt) {
            write_out(&mut self.device, &mut self.held, n, &mut self.in_doubt)?;
            from = n + 1;
        }
        self.in_doubt = false;
        Ok(())
    }
}

impl<D: Duplicate> Cache<D> {
    /// The same blocks over a duplicate of the device. It asks for host memory for the device, and for the blocks that
    /// are held.
    pub fn duplicate(&self, alloc: Global) -> Result<Cache<D>, AllocError>
        ensures { IfOk result (λ cache. cache ≡ self.now) }
    {
        Ok(Cache {
            device: self.device.duplicate(alloc)?,
            held: duplicates(&self.held, alloc)?,
            in_doubt: self.in_doubt,
        })
    }

    /// Becomes the same blocks over a copy of the device, in the memory that it has: it asks the host for none. The
    /// device then has what the other cache holds, and none is held. False, and nothing changed, exactly where the two
    /// devices can't have the same state.
    pub fn copy_from(&mut self, source: &Cache<D>) -> bool
        ensures fits { IsTrue result ↔ (D.identity self.old.device ≡ D.identity source.now.device) }
        ensures copied { OnTrue result (IsCopy D.identity source.now self.new) }
        ensures same { OnFalse result (self.new ≡ self.old) }
    {
        if !self.device.copy_from(&source.device) {
            return false;
        }
        self.held.clear();
        self.in_doubt = false;
        set_held(&mut self.device, &source.held);
        true
    }
}
