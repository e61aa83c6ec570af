//! The digest of a machine's state.
ghost use Rattle.std.specs.Prelude.{◌≡◌, false};
ghost use Rattle.digests.specs.Digest.{digest_but_numbers, digest_of};
ghost use Rattle.kernel.specs.Disk.{ReadsDisk};
ghost use Rattle.kernel.specs.Kernel.{state_of};
ghost use Rattle.schedules.specs.Alike.{timeless};

use blockdev::{BlockDev, DeviceFault};
use calls::Kernel;
use digests::{digest_but_files, mix_files, timeless_but_files};
use sv39::Translate;

/// The digest of the state with its clock set back to 0 and without the numbers of open files and pipes, whose files
/// are read from the device.
pub fn digest_timeless<D: BlockDev, T: Translate>(
    kernel: &mut Kernel<D, T>,
) -> Result<u64, DeviceFault>
    requires { kernel.old.tree.failed ≡ false }
    ensures { ReadsDisk kernel.old kernel.new
        (λ digest. digest ≡ digest_but_numbers (timeless (state_of kernel.old))) result }
{
    let front = timeless_but_files(kernel);
    mix_files(front, kernel)
}

/// The digest of the state, whose files are read from the device.
pub fn digest_kernel<D: BlockDev, T: Translate>(
    kernel: &mut Kernel<D, T>,
) -> Result<u64, DeviceFault>
    requires { kernel.old.tree.failed ≡ false }
    ensures { ReadsDisk kernel.old kernel.new (λ digest. digest ≡ digest_of (state_of kernel.old)) result }
{
    let but_files = digest_but_files(kernel);
    mix_files(but_files, kernel)
}
