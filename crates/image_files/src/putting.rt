//! Puts files into images.
ghost use Rattle.std.specs.Prelude.{◌≡◌, ◌==◌, IfOk, OnOk, not};
ghost use Rattle.std.specs.List.{list_all};
ghost use Rattle.imagerules.specs.Content.{image_of};
ghost use Rattle.image_files.specs.Listed.{IsAtRest};
ghost use Rattle.image_files.specs.Opened.{HasPut, IsBegun, IsPut, IsPutIn};
ghost use Rattle.tree.specs.Written.{IsFile};

use crate::directory::ROOT;
use crate::found::file_at;
use crate::opening_fault::OpeningFault;
use blockdev::BlockDev;
use mount::{mount, unmount};
use std::alloc::Global;
use tree::{Leaf, Tree, TreeFault};

// Whether a path has no zeros.
fn is_plain(path: &[u8]) -> bool
    ensures { result ≡ list_all (λ b. not (b == 0)) path.now }
{
    path.iter().all(|byte| *byte != 0)
}

// Makes an empty file where a path reaches nothing.
fn make_missing<D: BlockDev>(tree: &mut Tree<D>, path: &[u8]) -> Result<(), TreeFault>
    requires { IsAtRest tree.old }
    ensures begun { OnOk result (IsBegun tree.old.files path.now tree.new.files) }
    ensures rests { OnOk result (IsAtRest tree.new) }
    ensures device { tree.new.identity ≡ tree.old.identity }
{
    if file_at(tree, path, TreeFault::Exists)?.is_some() {
        return Ok(());
    }
    if !is_plain(path) {
        return Err(TreeFault::NotFound);
    }
    let _number = tree.create(ROOT, path, Leaf::File)?;
    Ok(())
}

// A file gets these bytes instead of those that it has.
// `Blocks` is returned where they are too many for the disk or for a file.
fn replace<D: BlockDev>(tree: &mut Tree<D>, number: usize, bytes: &[u8]) -> Result<(), TreeFault>
    requires rests { IsAtRest tree.old }
    requires file { IsFile tree.old.files number }
    ensures put { OnOk result (HasPut tree.old.files number bytes.now tree.new.files) }
    ensures rests { OnOk result (IsAtRest tree.new) }
    ensures device { tree.new.identity ≡ tree.old.identity }
{
    tree.truncate(number)?;
    match tree.write(number, 0, bytes)? {
        Some(count) if count == bytes.len() => Ok(()),
        _ => Err(TreeFault::Blocks),
    }
}

// The file of a path, which is made where there is none, gets these bytes.
fn put<D: BlockDev>(tree: &mut Tree<D>, path: &[u8], bytes: &[u8]) -> Result<(), TreeFault>
    requires { IsAtRest tree.old }
    ensures put { OnOk result (IsPutIn tree.old.files path.now bytes.now tree.new.files) }
    ensures rests { OnOk result (IsAtRest tree.new) }
    ensures device { tree.new.identity ≡ tree.old.identity }
{
    make_missing(tree, path)?;
    match file_at(tree, path, TreeFault::Exists)? {
        Some(number) => replace(tree, number, bytes),
        None => Err(TreeFault::NotFound),
    }
}

/// The disk on which the file that a path reaches from the root has these bytes, whose image is checked first. A file
/// is made where there is none. A directory is refused as `IsDir`, a device as `Exists`, and bytes for which the disk
/// has no room, or that no file can have, as `Blocks`.
pub fn write_file<D: BlockDev + Drop>(
    alloc: Global,
    disk: D,
    path: &[u8],
    bytes: &[u8],
) -> Result<D, OpeningFault>
    ensures put { IfOk result
        (λ left. IsPut (image_of (D.content disk)) path.now bytes.now (image_of (D.content left))) }
    ensures device { IfOk result (λ left. D.identity left ≡ D.identity disk) }
{
    let mut tree = mount(alloc, disk)?;
    put(&mut tree, path, bytes)?;
    let (left, written) = unmount(tree);
    written?;
    Ok(left)
}
