//! The image of a device.

ghost use Rattle.std.specs.Prelude.{◌≡◌, ◌≤◌, IfErr, IfOk, OnOk, false, length};
ghost use Rattle.imagerules.specs.Content.{image_of};
ghost use Rattle.mount.specs.Mounted.{AreLinked, IsMounted, IsUnmounted, TellsNumbers};
ghost use Rattle.name_rules.specs.Rules.{KeepsTree};
ghost use Rattle.unixmodel.specs.Failures.{HasCause};
ghost use Rattle.unixmodel.specs.Image.{Denotes};

use blockdev::{BlockDev, DeviceFault};
use cache::Cache;
use image::{ImageFault, check};
use inode::Volume;
use layout::{Geometry, SuperBlock};
use std::alloc::Global;
use tree::Tree;

// The numbers of the super block.
fn read_geometry<D: BlockDev>(device: &mut D) -> Result<Geometry, DeviceFault>
    requires { 2 ≤ length (D.content device.old) }
    ensures numbers { IfOk result (TellsNumbers (image_of (D.content device.old))) }
    ensures same { D.content device.new ≡ D.content device.old }
    ensures identity { D.identity device.new ≡ D.identity device.old }
    ensures cause { HasCause (D.failures device.old) (D.failures device.new) result }
{
    let block = device.read(1)?;
    let numbers = SuperBlock::from_front(&block);
    Ok(Geometry {
        size: numbers.size as usize,
        inodes: numbers.inodes as usize,
    })
}

/// The files of a device's image, which is checked first: there is a tree exactly where the check accepts the image and
/// neither the device nor the host's memory fails, and a fault is the check's.
pub fn mount<D: BlockDev>(alloc: Global, mut device: D) -> Result<Tree<D>, ImageFault>
    ensures mounted { IfOk result (IsMounted (image_of (D.content device)) (D.identity device) (D.failures device)) }
    ensures unmounted { IfErr result (IsUnmounted D.identity D.failures device (image_of (D.content device))) }
{
    let _summary = check(alloc, &mut device)?;
    let geometry = read_geometry(&mut device)?;
    let disk = Cache::new(alloc, device)?;
    let volume = Volume::new(disk, geometry);
    Ok(Tree::new(alloc, volume)?)
}

/// Gives up files in use for their device, whose image denotes them then.
/// Where an access fails, what the device holds is open.
pub fn unmount<D: BlockDev>(tree: Tree<D>) -> (D, Result<(), DeviceFault>)
    requires up { tree.failed ≡ false }
    requires rules { KeepsTree tree.files }
    requires linked { AreLinked tree.files }
    ensures denotes { OnOk result.1 (Denotes (image_of (D.content result.0)) tree.files) }
    ensures identity { D.identity result.0 ≡ tree.identity }
    ensures cause { HasCause tree.failures (D.failures result.0) result.1 }
{
    tree.into_device()
}
