//! A device of which one access fails, to see how its callers take a failure.

ghost use Rattle.std.specs.Prelude.{◌≡◌, ℕ, ◌-◌, ◌<◌, ◌↔◌, IfOk, IfSome, IsErr, IsTrue, None, OnOk, length};
ghost use Rattle.std.specs.Prelude.{slice_set};
ghost use Rattle.std.specs.Bool.{OnTrue, OnFalse};
ghost use Rattle.std.specs.Int.NonZero.{non_zero_u64_get};
ghost use Rattle.unixmodel.specs.Failures.{HasCause};

use crate::{Block, BlockDev, DeviceFault, Duplicate};
use std::alloc::{AllocError, Global};
use std::marker::Model;
use std::num::NonZeroU64;

/// A device of which one access fails, once. That access leaves the device as it was, and all others are the device's
/// own: they fail where it fails.
#[derive(Drop)]
pub struct FailAt<D: BlockDev> {
    device: D,
    // How many accesses there are up to the one that fails, and with it.
    left: u64,
}

impl<D: BlockDev> Model for FailAt<D> {
    ghost use Rattle.blockdev.specs.Disk.{Failing};

    ghost Value = { Failing D };

    ghost view = { λ d. record { device = d.device; left = d.left } };
}

impl<D: BlockDev> FailAt<D> {
    /// The device, of which the `n`-th access from now on fails: reads and writes count, each as one.
    pub fn new(device: D, n: NonZeroU64) -> FailAt<D>
        ensures device { result.device ≡ device }
        ensures left { result.left ≡ non_zero_u64_get n }
    {
        FailAt {
            device,
            left: n.get(),
        }
    }

    /// Whether the access that fails has been made.
    pub fn has_failed(&self) -> bool
        ensures { IsTrue result ↔ (self.now.left ≡ 0) }
    {
        self.left == 0
    }

    /// Gives up the device for the one below.
    pub fn into_inner(self) -> D
        ensures { result ≡ self.device }
    {
        self.device
    }
}

impl<D: BlockDev> BlockDev for FailAt<D> {
    ghost use Rattle.blockdev.specs.Blocks.{block_at};
    ghost use Rattle.blockdev.specs.Disk.{CountsDown, Failing, counted};

    ghost content = { λ d. D.content d.device };

    ghost failures = { λ d. counted D.failures d };

    ghost identity = { λ d. D.identity d.device };

    ghost sizes = { λ d. D.sizes d.device };

    fn blocks(&self) -> usize {
        self.device.blocks()
    }

    fn read(&mut self, n: usize) -> Result<Block, DeviceFault>
        requires { n < length (D.content self.old.device) }
        ensures bytes { IfOk result (λ block. block ≡ block_at (D.content self.old.device) n) }
        ensures same { D.content self.new.device ≡ D.content self.old.device }
        ensures identity { D.identity self.new.device ≡ D.identity self.old.device }
        ensures cause { HasCause (counted D.failures self.old) (counted D.failures self.new) result }
        ensures counts { CountsDown D.failures self.old self.new result }
    {
        spend(&mut self.left)?;
        self.device.read(n)
    }

    fn write(&mut self, n: usize, block: &Block) -> Result<(), DeviceFault>
        requires { n < length (D.content self.old.device) }
        ensures written { OnOk result (D.content self.new.device ≡ slice_set (D.content self.old.device) n block.now) }
        ensures count { length (D.content self.new.device) ≡ length (D.content self.old.device) }
        ensures identity { D.identity self.new.device ≡ D.identity self.old.device }
        ensures cause { HasCause (counted D.failures self.old) (counted D.failures self.new) result }
        ensures counts { CountsDown D.failures self.old self.new result }
    {
        spend(&mut self.left)?;
        self.device.write(n, block)
    }

    /// None, whatever the device below has: only an access can fail.
    fn as_bytes(&self) -> Option<&[u8]>
        ensures { result ≡ None }
    {
        None
    }
}

impl<D: Duplicate> Duplicate for FailAt<D> {
    fn duplicate(&self, alloc: Global) -> Result<FailAt<D>, AllocError> {
        Ok(FailAt {
            device: self.device.duplicate(alloc)?,
            left: self.left,
        })
    }

    fn copy_from(&mut self, source: &FailAt<D>) -> bool {
        if !self.device.copy_from(&source.device) {
            return false;
        }
        self.left = source.left;
        true
    }

    fn set(&mut self, n: usize, block: &Block) {
        self.device.set(n, block);
    }
}

// Counts an access: of those that are left the last one fails, and all later ones are good.
fn spend(left: &mut u64) -> Result<(), DeviceFault>
    ensures fails { IsErr result ↔ (left.old ≡ 1) }
    ensures left { left.new ≡ left.old - 1 }
{
    let is_last = *left == 1;
    *left = left.saturating_sub(1);
    if is_last { Err(DeviceFault) } else { Ok(()) }
}
