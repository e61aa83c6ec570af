//! Whether the disks of two kernels have the same files.
ghost use Rattle.std.specs.Prelude.{◌≡◌, ◌*◌, Some, drop, false, length, take};
ghost use Rattle.std.specs.Bool.{OnTrue};
ghost use Rattle.likeness.specs.Likeness.{Compares};
ghost use Rattle.tree.specs.Telling.{minor_of};
ghost use Rattle.unixmodel.specs.Files.{Node, slot};
ghost use Rattle.unixmodel.specs.Shown.{bytes_or_none};

use blockdev::{BLOCK_SIZE, BlockDev};
use inode::InodeStat;
use kernel::Kernel;
use sv39::Translate;

/// One of two kernels that are compared.
#[derive(Clone, Copy, PartialEq, Eq, Debug)]
pub enum Side {
    One,
    Other,
}

// Whether two slices have the same bytes.
fn are_same(one: &[u8], other: &[u8]) -> bool
    ensures { OnTrue result (one.now ≡ other.now) }
{
    one == other
}

// Whether block `k` of a node has the same bytes.
fn has_same_block<D: BlockDev, T: Translate, E: BlockDev, U: Translate>(
    one: &mut Kernel<D, T>,
    other: &mut Kernel<E, U>,
    number: usize,
    k: u32,
) -> Result<bool, Side>
    requires one { one.old.tree.failed ≡ false }
    requires other { other.old.tree.failed ≡ false }
    ensures { Compares one.old one.new other.old other.new (λ same. OnTrue same
        (take 1024 (drop (1024 * k) (bytes_or_none (slot one.old.tree.files number)))
        ≡ take 1024 (drop (1024 * k) (bytes_or_none (slot other.old.tree.files number))))) result }
{
    let mut block = [0; BLOCK_SIZE];
    let mut their_block = [0; BLOCK_SIZE];
    let Ok(count) = one.read_any(number, BLOCK_SIZE * k as usize, &mut block) else {
        return Err(Side::One);
    };
    let Ok(their_count) = other.read_any(number, BLOCK_SIZE * k as usize, &mut their_block) else {
        return Err(Side::Other);
    };
    Ok(are_same(&block[..count], &their_block[..their_count]))
}

// Whether the first `blocks` blocks of a node have the same bytes.
fn has_same_blocks<D: BlockDev, T: Translate, E: BlockDev, U: Translate>(
    one: &mut Kernel<D, T>,
    other: &mut Kernel<E, U>,
    number: usize,
    blocks: u32,
) -> Result<bool, Side>
    requires one { one.old.tree.failed ≡ false }
    requires other { other.old.tree.failed ≡ false }
    ensures { Compares one.old one.new other.old other.new (λ same. OnTrue same
        (take (1024 * blocks) (bytes_or_none (slot one.old.tree.files number))
        ≡ take (1024 * blocks) (bytes_or_none (slot other.old.tree.files number)))) result }
{
    for k in 0..blocks {
        if !has_same_block(one, other, number, k)? {
            return Ok(false);
        }
    }
    Ok(true)
}

// Whether a node has the same minor number.
fn has_same_minor<D: BlockDev, T: Translate, E: BlockDev, U: Translate>(
    one: &mut Kernel<D, T>,
    other: &mut Kernel<E, U>,
    number: usize,
) -> Result<bool, Side>
    requires one { one.old.tree.failed ≡ false }
    requires other { other.old.tree.failed ≡ false }
    requires node { (node : Node) × (slot one.old.tree.files number ≡ Some node) }
    requires their_node { (node : Node) × (slot other.old.tree.files number ≡ Some node) }
    ensures { Compares one.old one.new other.old other.new (λ same. OnTrue same
        ((a b : Node) → slot one.old.tree.files number ≡ Some a → slot other.old.tree.files number ≡ Some b →
        minor_of a ≡ minor_of b)) result }
{
    let Ok(minor) = one.minor(number) else {
        return Err(Side::One);
    };
    let Ok(their_minor) = other.minor(number) else {
        return Err(Side::Other);
    };
    Ok(minor == their_minor)
}

// Whether two inodes say the same.
fn is_same_stat(one: InodeStat, other: InodeStat) -> bool
    ensures { OnTrue result (one ≡ other) }
{
    one == other
}

// Whether two kernels have the same node with a number.
fn has_same_node<D: BlockDev, T: Translate, E: BlockDev, U: Translate>(
    one: &mut Kernel<D, T>,
    other: &mut Kernel<E, U>,
    number: usize,
) -> Result<bool, Side>
    requires one { one.old.tree.failed ≡ false }
    requires other { other.old.tree.failed ≡ false }
    ensures { Compares one.old one.new other.old other.new (λ same. OnTrue same
        (slot one.old.tree.files number ≡ slot other.old.tree.files number)) result }
{
    one.files_are_whole();
    other.files_are_whole();
    let Ok(told) = one.look(number) else {
        return Err(Side::One);
    };
    let Ok(their_told) = other.look(number) else {
        return Err(Side::Other);
    };
    let Some(stat) = told else {
        return Ok(their_told.is_none());
    };
    let Some(their_stat) = their_told else {
        return Ok(false);
    };
    if !is_same_stat(stat, their_stat) || !has_same_minor(one, other, number)? {
        return Ok(false);
    }
    has_same_blocks(one, other, number, stat.size.div_ceil(BLOCK_SIZE as u32))
}

/// Whether the disks of two kernels have the same files.
pub fn has_same_files<D: BlockDev, T: Translate, E: BlockDev, U: Translate>(
    one: &mut Kernel<D, T>,
    other: &mut Kernel<E, U>,
) -> Result<bool, Side>
    requires one { one.old.tree.failed ≡ false }
    requires other { other.old.tree.failed ≡ false }
    ensures { Compares one.old one.new other.old other.new
        (λ same. OnTrue same (one.old.tree.files ≡ other.old.tree.files)) result }
{
    let numbers = one.numbers();
    if other.numbers() != numbers {
        return Ok(false);
    }
    for number in 0..numbers {
        if !has_same_node(one, other, number)? {
            return Ok(false);
        }
    }
    Ok(true)
}
