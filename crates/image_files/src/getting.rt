//! Takes files out of images.
ghost use Rattle.std.specs.Prelude.{◌≡◌, IfOk, false};
ghost use Rattle.imagerules.specs.Content.{image_of};
ghost use Rattle.image_files.specs.Opened.{HasBytes, IsFileOf};
ghost use Rattle.tree.specs.Written.{IsFile};

use crate::found::file_at;
use crate::opening_fault::OpeningFault;
use blockdev::BlockDev;
use mount::mount;
use std::alloc::Global;
use tree::{Tree, TreeFault};

// The bytes of a file.
fn bytes_of<D: BlockDev>(
    alloc: Global,
    tree: &mut Tree<D>,
    number: usize,
) -> Result<Vec<u8>, OpeningFault>
    requires up { tree.old.failed ≡ false }
    requires file { IsFile tree.old.files number }
    ensures { IfOk result (λ bytes. HasBytes tree.old.files number bytes.items) }
{
    let size = tree.stat(number)?.size as usize;
    let mut bytes = vec![in alloc; 0u8; size]?;
    let _count = tree.read(number, 0, bytes.as_mut_slice())?;
    Ok(bytes)
}

/// The bytes of the file that a path reaches from the root of a disk, whose image is checked first.
/// A directory is refused as `IsDir`; where there is nothing, or a device, the file is `NotFound`.
pub fn read_file<D: BlockDev + Drop>(
    alloc: Global,
    disk: D,
    path: &[u8],
) -> Result<Vec<u8>, OpeningFault>
    ensures { IfOk result (λ bytes. IsFileOf (image_of (D.content disk)) path.now bytes.items) }
{
    let mut tree = mount(alloc, disk)?;
    let Some(number) = file_at(&mut tree, path, TreeFault::NotFound)? else {
        return Err(OpeningFault::Tree(TreeFault::NotFound));
    };
    bytes_of(alloc, &mut tree, number)
}
