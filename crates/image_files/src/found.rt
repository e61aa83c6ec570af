//! The file that a path reaches.
ghost use Rattle.std.specs.Prelude.{◌≡◌, IfOk, IfSome, OnOk};
ghost use Rattle.image_files.specs.Listed.{IsAtRest};
ghost use Rattle.tree.specs.Written.{IsFile};
ghost use Rattle.unixmodel.specs.Files.{find};

use crate::directory::ROOT;
use blockdev::BlockDev;
use tree::{DIRECTORY, FILE, Tree, TreeFault};

/// The number of the file that a path reaches from the root, none where it reaches nothing. A directory is refused as
/// `IsDir`, and a device as `device`.
pub fn file_at<D: BlockDev>(
    tree: &mut Tree<D>,
    path: &[u8],
    device: TreeFault,
) -> Result<Option<usize>, TreeFault>
    requires { IsAtRest tree.old }
    ensures found { IfOk result (λ found. found ≡ find tree.old.files 1 path.now) }
    ensures file { IfOk result (λ found. IfSome found (IsFile tree.old.files)) }
    ensures same { OnOk result (tree.new.files ≡ tree.old.files) }
    ensures rests { OnOk result (IsAtRest tree.new) }
    ensures device { tree.new.identity ≡ tree.old.identity }
{
    let Some(number) = tree.resolve(ROOT, path)? else {
        return Ok(None);
    };
    let node = tree.stat(number)?;
    if node.kind == DIRECTORY {
        return Err(TreeFault::IsDir);
    }
    if node.kind != FILE {
        return Err(device);
    }
    Ok(Some(number))
}
