//! The calls on names: mknod, mkdir, link, unlink.
ghost use Rattle.std.specs.Prelude.{◌≡◌, ◌≢◌, ◌≤◌, ◌<◌, All, IfSome, Some, take};
ghost use Rattle.kernel.specs.Kernel.{HasCurrent, current};
ghost use Rattle.calls.specs.Acts.{ActsOnDisk, Runs};
ghost use Rattle.calls.specs.Named.{IsNamed, IsRefused};
ghost use Rattle.kernel.specs.Sound.{IsKernel};
ghost use Rattle.unixmodel.specs.declared.call.Call.TheVariants as Call;
ghost use Rattle.unixmodel.specs.Files.{slot};
ghost use Rattle.calls.specs.Reads.{path_argument};
ghost use Rattle.vm.specs.Reach.{string_in};

use crate::outcome::Came;
use blockdev::{BlockDev, DeviceFault};
use kernel::Kernel;
use sv39::Translate;
use tree::{Leaf, TreeFault};
use unixmodel::call::Call;

// Copies the path in an argument of the call into a buffer, and returns its length.
pub(crate) fn copy_path<D: BlockDev, T: Translate>(
    kernel: &Kernel<D, T>,
    place: usize,
    buffer: &mut [u8; 127],
) -> Option<usize>
    requires active { HasCurrent kernel.now }
    requires place { place < 8 }
    ensures path { string_in buffer.new result ≡ path_argument kernel.now (current kernel.now) place }
    ensures within { IfSome result (λ n. n ≤ 127) }
    ensures bytes { IfSome result (λ n. All (λ b. b ≢ 0) (take n buffer.new)) }
{
    kernel.copy_path(kernel.argument(place), buffer)
}

// The result of a call that made nothing.
pub(crate) fn refuse(fault: TreeFault) -> Result<Came, DeviceFault>
    ensures { IsRefused fault result }
{
    if fault == TreeFault::Device {
        Err(DeviceFault)
    } else {
        Ok(Came::Refuses)
    }
}

// The result of a call on names.
fn named<D: BlockDev, T: Translate, X>(
    kernel: &Kernel<D, T>,
    made: &Result<X, TreeFault>,
) -> Result<Came, DeviceFault>
    ensures comes { IsNamed made.now result }
    ensures sound { IsKernel kernel.now }
{
    kernel.is_sound();
    match made {
        Ok(_) => Ok(Came::Answers(0)),
        Err(fault) => refuse(*fault),
    }
}

/// mknod(path, major, minor): a device with the lowest free number, and a name for it; major and minor are cut to 16
/// bits.
pub(crate) fn mknod<D: BlockDev, T: Translate>(
    kernel: &mut Kernel<D, T>,
) -> Result<Came, DeviceFault>
    requires { Runs kernel.old }
    ensures { ActsOnDisk kernel.old kernel.new (current kernel.old) (Some Call.Mknod) result }
{
    let mut buffer = [0; 127];
    let Some(count) = copy_path(kernel, 0, &mut buffer) else {
        return Ok(Came::Refuses);
    };
    let leaf = Leaf::Device {
        major: (kernel.argument(1) % 0x1_0000) as u16,
        minor: (kernel.argument(2) % 0x1_0000) as u16,
    };
    let made = kernel.create(&buffer[..count], leaf);
    named(kernel, &made)
}

/// mkdir(path): a directory with the lowest free number, and a name for it.
pub(crate) fn mkdir<D: BlockDev, T: Translate>(
    kernel: &mut Kernel<D, T>,
) -> Result<Came, DeviceFault>
    requires { Runs kernel.old }
    ensures { ActsOnDisk kernel.old kernel.new (current kernel.old) (Some Call.Mkdir) result }
{
    let mut buffer = [0; 127];
    let Some(count) = copy_path(kernel, 0, &mut buffer) else {
        return Ok(Came::Refuses);
    };
    let made = kernel.create_directory(&buffer[..count]);
    named(kernel, &made)
}

/// link(old, new): another name for a file or a device.
pub(crate) fn link<D: BlockDev, T: Translate>(
    kernel: &mut Kernel<D, T>,
) -> Result<Came, DeviceFault>
    requires { Runs kernel.old }
    ensures { ActsOnDisk kernel.old kernel.new (current kernel.old) (Some Call.Link) result }
{
    let mut old = [0; 127];
    let Some(old_count) = copy_path(kernel, 0, &mut old) else {
        return Ok(Came::Refuses);
    };
    let mut new = [0; 127];
    let Some(new_count) = copy_path(kernel, 1, &mut new) else {
        return Ok(Came::Refuses);
    };
    let made = kernel.link(&old[..old_count], &new[..new_count]);
    named(kernel, &made)
}

/// unlink(path): a name is removed, and its node too where that has no links any more and nobody holds it.
pub(crate) fn unlink<D: BlockDev, T: Translate>(
    kernel: &mut Kernel<D, T>,
) -> Result<Came, DeviceFault>
    requires { Runs kernel.old }
    ensures { ActsOnDisk kernel.old kernel.new (current kernel.old) (Some Call.Unlink) result }
{
    let mut buffer = [0; 127];
    let Some(count) = copy_path(kernel, 0, &mut buffer) else {
        return Ok(Came::Refuses);
    };
    let made = kernel.unlink(&buffer[..count]);
    named(kernel, &made)
}
