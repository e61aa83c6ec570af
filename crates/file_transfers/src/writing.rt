//! From the memory of a process to a file.

ghost use Rattle.std.specs.Prelude.{◌≡◌, false, is_some, take, true};
ghost use Rattle.spaces.specs.Spaces.{has_space, view_at};
ghost use Rattle.file_transfers.specs.Moved.{written_from};
ghost use Rattle.tree.specs.Calls.{Writes, WritesAt};
ghost use Rattle.tree.specs.Tree.{Serves};
ghost use Rattle.tree.specs.Written.{IsFile};
ghost use Rattle.unixmodel.specs.declared.trap.Access.TheVariants.{Load};
ghost use Rattle.unixmodel.specs.Memory.{read_bytes};
ghost use Rattle.vm.specs.Reach.{piece_at};

use blockdev::{BlockDev, DeviceFault};
use layout::LONGEST;
use spaces::Spaces;
use sv39::Translate;
use tree::Tree;

// The bytes of a slot from an address on, up to the end of its page, at most `most`.
fn piece<T: Translate>(spaces: &Spaces<T>, at: usize, address: u64, most: u64) -> &[u8]
    requires { has_space spaces.now at ≡ true }
    ensures { result.now ≡ take most (piece_at Load (view_at spaces.now at).memory address) }
{
    let piece = spaces.readable(at, address);
    if piece.len() as u64 > most {
        &piece[..most as usize]
    } else {
        piece
    }
}

// Writes bytes into a file from an offset on, as many as there are blocks for, and returns how many. `None`: nothing is
// written.
fn write_piece<D: BlockDev>(
    tree: &mut Tree<D>,
    number: usize,
    offset: u32,
    bytes: &[u8],
) -> Result<Option<u64>, DeviceFault>
    requires up { tree.old.failed ≡ false }
    requires file { IsFile tree.old.files number }
    ensures { Serves tree.old tree.new result (WritesAt tree.old tree.new number offset bytes.now) }
{
    match tree.write(number, offset as usize, bytes)? {
        Some(went) => Ok(Some(went as u64)),
        None => Ok(None),
    }
}

/// Writes `count` bytes of the memory of a slot from `address` on into a file from `offset` on, as many as
/// there are blocks for, and returns how many. `None`: `offset` lies past the file's end, or the file would be
/// longer than any file of the disk's format; nothing is written then.
pub fn write_node<D: BlockDev, T: Translate>(
    tree: &mut Tree<D>,
    spaces: &Spaces<T>,
    at: usize,
    number: usize,
    offset: u32,
    address: u64,
    count: u64,
) -> Result<Option<u64>, DeviceFault>
    requires up { tree.old.failed ≡ false }
    requires file { IsFile tree.old.files number }
    requires space { has_space spaces.now at ≡ true }
    requires readable { is_some (read_bytes (view_at spaces.now at).memory address count) ≡ true }
    ensures { Serves tree.old tree.new result
        (Writes tree.old tree.new (written_from spaces.now at address count tree.old number offset)) }
{
    spaces.pages_are_whole(at);
    let first = piece(spaces, at, address, count);
    if first.len() as u64 == count {
        return write_piece(tree, number, offset, first);
    }
    write_pages(tree, spaces, at, number, offset, address, count)
}

// The same where the bytes lie in several pages.
fn write_pages<D: BlockDev, T: Translate>(
    tree: &mut Tree<D>,
    spaces: &Spaces<T>,
    at: usize,
    number: usize,
    offset: u32,
    address: u64,
    count: u64,
) -> Result<Option<u64>, DeviceFault>
    requires up { tree.old.failed ≡ false }
    requires file { IsFile tree.old.files number }
    requires space { has_space spaces.now at ≡ true }
    requires readable { is_some (read_bytes (view_at spaces.now at).memory address count) ≡ true }
    ensures { Serves tree.old tree.new result
        (Writes tree.old tree.new (written_from spaces.now at address count tree.old number offset)) }
{
    spaces.pages_are_whole(at);
    let size = tree.stat(number)?.size;
    if offset > size || u64::from(offset) + count > LONGEST as u64 {
        return Ok(None);
    }
    let mut done = 0;
    while done < count {
        let piece = piece(spaces, at, address + done, count - done);
        let from = offset as usize + done as usize;
        let went = tree.write(number, from, piece)?.unwrap();
        done += went as u64;
        if went < piece.len() {
            return Ok(Some(done));
        }
    }
    Ok(Some(done))
}
