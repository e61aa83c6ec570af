//! From a node to the memory of a process.

ghost use Rattle.std.specs.Prelude.{◌≡◌, OnErr, OnOk, length};
ghost use Rattle.file_transfers.specs.Moved.{IsRead, MayRead, Reads, with_read};
ghost use Rattle.tree.specs.Tree.{Serves};

use blockdev::{BLOCK_SIZE, BlockDev, DeviceFault};
use spaces::Spaces;
use sv39::Translate;
use tree::Tree;

// A read of at most that many bytes takes a buffer of that size: a buffer of a block costs more than the read.
const SHORT: usize = 64;

// Reads as many bytes as fit in a buffer, writes them into the memory of a slot, and returns how many.
#[inline(always)]
fn read_piece<D: BlockDev, T: Translate>(
    tree: &mut Tree<D>,
    spaces: &mut Spaces<T>,
    at: usize,
    number: usize,
    offset: usize,
    address: u64,
    buffer: &mut [u8],
) -> Result<usize, DeviceFault>
    requires { MayRead tree.old spaces.old at number address (length buffer.old) }
    ensures serves { Serves tree.old tree.new result (IsRead tree.old tree.new number offset (length buffer.old)) }
    ensures written { OnOk result
        (spaces.new ≡ with_read spaces.old at address tree.old.files number offset (length buffer.old)) }
    ensures failed { OnErr result (spaces.new ≡ spaces.old) }
{
    spaces.pages_are_whole(at);
    let count = tree.read(number, offset, buffer)?;
    spaces.fill(at, address, &buffer[..count]);
    Ok(count)
}

/// Reads at most `count` bytes of a node from `offset` on into the memory of a slot from `address` on, and returns how
/// many. Where the device fails the first of them may have been written.
pub fn read_node<D: BlockDev, T: Translate>(
    tree: &mut Tree<D>,
    spaces: &mut Spaces<T>,
    at: usize,
    number: usize,
    offset: u32,
    address: u64,
    count: u64,
) -> Result<u64, DeviceFault>
    requires { MayRead tree.old spaces.old at number address count }
    ensures { Reads tree.old tree.new spaces.old spaces.new at number offset address count result }
{
    if count > SHORT as u64 {
        return read_blocks(tree, spaces, at, number, offset, address, count);
    }
    let mut buffer = [0; SHORT];
    let piece = &mut buffer[..count as usize];
    let got = read_piece(tree, spaces, at, number, offset as usize, address, piece)?;
    Ok(got as u64)
}

// The same by way of a buffer of one block. It is out of line: a short read needs no room for the block.
#[inline(never)]
fn read_blocks<D: BlockDev, T: Translate>(
    tree: &mut Tree<D>,
    spaces: &mut Spaces<T>,
    at: usize,
    number: usize,
    offset: u32,
    address: u64,
    count: u64,
) -> Result<u64, DeviceFault>
    requires { MayRead tree.old spaces.old at number address count }
    ensures { Reads tree.old tree.new spaces.old spaces.new at number offset address count result }
{
    spaces.pages_are_whole(at);
    let mut buffer = [0; BLOCK_SIZE];
    let mut done = 0;
    while done < count {
        let size = (count - done).min(BLOCK_SIZE as u64) as usize;
        let from = offset as usize + done as usize;
        let piece = &mut buffer[..size];
        let got = read_piece(tree, spaces, at, number, from, address + done, piece)?;
        done += got as u64;
        if got < size {
            return Ok(done);
        }
    }
    Ok(done)
}
