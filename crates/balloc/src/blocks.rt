//! The bitmap of blocks. A call looks for a free block from the first data block on.

ghost use Rattle.std.specs.Prelude.{◌≡◌, ◌≢◌, ℕ, ◌+◌, ◌-◌, ◌*◌, ◌/◌, ◌%◌, ◌<◌, ◌≤◌, List, length, nat_le};
ghost use Rattle.std.specs.Int.{bit_at};
ghost use Rattle.cache.specs.Steps.{AsBefore, Reads, Steps};
ghost use Rattle.layout.specs.Super.{bitmap_start_of, data_start_of};
ghost use Rattle.layout.specs.Image.{bit_of, free_blocks};
ghost use Rattle.layout.specs.Sound.{HasParts};
ghost use Rattle.balloc.specs.Bitmap.{Finds, Gives, SetsBit, Takes};

use crate::bitmap::first_clear;
use blockdev::{BlockDev, DeviceFault};
use cache::Cache;
use layout::Geometry;

/// Takes the lowest free block. `None` comes exactly where none is free, and nothing is changed then.
pub fn take_block<D: BlockDev>(
    disk: &mut Cache<D>,
    geometry: Geometry,
) -> Result<Option<usize>, DeviceFault>
    requires { HasParts geometry disk.old.blocks }
    ensures { Steps D.identity disk.old disk.new result (Takes geometry disk.old.blocks disk.new.blocks) }
{
    let Some(b) = find_free(disk, geometry, geometry.data_start())? else {
        return Ok(None);
    };
    mark(disk, geometry, b)?;
    Ok(Some(b))
}

/// Gives back a data block that is taken.
pub fn give_block<D: BlockDev>(
    disk: &mut Cache<D>,
    geometry: Geometry,
    b: usize,
) -> Result<(), DeviceFault>
    requires parts { HasParts geometry disk.old.blocks }
    requires low { data_start_of geometry.size geometry.inodes ≤ b }
    requires high { b < geometry.size }
    requires taken { bit_of disk.old.blocks (bitmap_start_of geometry.inodes) b ≡ 1 }
    ensures { Steps D.identity disk.old disk.new result (λ _. Gives geometry disk.old.blocks disk.new.blocks b) }
{
    let at = geometry.bitmap_start() + b / 8192;
    let place = b % 8192 / 8;
    let mut bits = [0];
    disk.read_part(at, place, &mut bits)?;
    let byte = without_bit(bits[0], b % 8);
    disk.write(at, place, &[byte])
}

/// Sets the bit of a block.
pub fn mark<D: BlockDev>(
    disk: &mut Cache<D>,
    geometry: Geometry,
    b: usize,
) -> Result<(), DeviceFault>
    requires parts { HasParts geometry disk.old.blocks }
    requires high { b < geometry.size }
    ensures { Steps D.identity disk.old disk.new result (λ _. SetsBit geometry disk.old.blocks disk.new.blocks b 1) }
{
    let at = geometry.bitmap_start() + b / 8192;
    let place = b % 8192 / 8;
    let mut bits = [0];
    disk.read_part(at, place, &mut bits)?;
    let byte = with_bit(bits[0], b % 8);
    disk.write(at, place, &[byte])
}

/// Whether at least this many data blocks are free.
pub fn has_blocks<D: BlockDev>(
    disk: &mut Cache<D>,
    geometry: Geometry,
    wanted: usize,
) -> Result<bool, DeviceFault>
    requires { HasParts geometry disk.old.blocks }
    ensures { Reads D.identity disk.old disk.new result
        (λ enough. enough ≡ nat_le wanted (free_blocks geometry disk.old.blocks)) }
{
    let mut from = geometry.data_start();
    let mut found = 0;
    'search: while found < wanted {
        let Some(b) = find_free(disk, geometry, from)? else {
            return Ok(false);
        };
        from = b + 1;
        found += 1;
    }
    Ok(true)
}

// The lowest free block from a data block on.
fn find_free<D: BlockDev>(
    disk: &mut Cache<D>,
    geometry: Geometry,
    from: usize,
) -> Result<Option<usize>, DeviceFault>
    requires parts { HasParts geometry disk.old.blocks }
    requires from { data_start_of geometry.size geometry.inodes ≤ from }
    ensures { Reads D.identity disk.old disk.new result (Finds geometry disk.old.blocks from) }
{
    let start = geometry.bitmap_start();
    let mut b = from;
    'scan: while b < geometry.size {
        let block = disk.read(start + b / 8192)?;
        let first = b / 8192 * 8192;
        let end = geometry.size.min(first + 8192);
        if let Some(i) = first_clear(&block, b % 8192, end - first) {
            return Ok(Some(first + i));
        }
        b = end;
    }
    Ok(None)
}

// A byte with a bit set.
#[tactic(auto, using(crate::proofs::BitRules::one_bit))]
fn with_bit(byte: u8, k: usize) -> u8
    requires { k < 8 }
    ensures here { bit_at result k ≡ 1 }
    ensures others { (j : ℕ) → j < 8 → j ≢ k → bit_at result j ≡ bit_at byte j }
{
    byte | 1 << k
}

// A byte with a bit clear.
#[tactic(auto, using(crate::proofs::BitRules::one_bit))]
fn without_bit(byte: u8, k: usize) -> u8
    requires { k < 8 }
    ensures here { bit_at result k ≡ 0 }
    ensures others { (j : ℕ) → j < 8 → j ≢ k → bit_at result j ≡ bit_at byte j }
{
    byte & !(1 << k)
}
