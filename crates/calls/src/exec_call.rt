//! exec: another program replaces the one that runs.
ghost use Rattle.std.specs.Prelude.{◌≡◌, Some};
ghost use Rattle.kernel.specs.Kernel.{current};
ghost use Rattle.calls.specs.Acts.{ActsOnDisk, Runs};
ghost use Rattle.calls.specs.Replaced.{Reaches};
ghost use Rattle.unixmodel.specs.declared.call.Call.TheVariants as Call;

use crate::name_calls::copy_path;
use crate::outcome::Came;
use blockdev::{BlockDev, DeviceFault};
use kernel::Kernel;
use sv39::Translate;
use unixmodel::call::Call;

// exec of the file that its path reaches.
fn exec_found<D: BlockDev, T: Translate>(
    kernel: &mut Kernel<D, T>,
    number: usize,
) -> Result<Came, DeviceFault>
    requires runs { Runs kernel.old }
    requires reaches { Reaches kernel.old (current kernel.old) number }
    ensures { ActsOnDisk kernel.old kernel.new (current kernel.old) (Some Call.Exec) result }
{
    let argv = kernel.argument(1);
    let replaced = kernel.replace(number, argv)?;
    match replaced {
        Some(started) => {
            kernel.is_sound();
            Ok(Came::Answers(started.count))
        }
        None => Ok(Came::Refuses),
    }
}

/// exec(path, argv): the program of the file that the path reaches replaces the one that runs, with the
/// arguments that argv points at.
pub(crate) fn exec<D: BlockDev, T: Translate>(
    kernel: &mut Kernel<D, T>,
) -> Result<Came, DeviceFault>
    requires { Runs kernel.old }
    ensures { ActsOnDisk kernel.old kernel.new (current kernel.old) (Some Call.Exec) result }
{
    let mut buffer = [0; 127];
    let Some(count) = copy_path(kernel, 0, &mut buffer) else {
        return Ok(Came::Refuses);
    };
    let Some(number) = kernel.resolve(&buffer[..count])? else {
        return Ok(Came::Refuses);
    };
    exec_found(kernel, number)
}
