//! How a call ended, and how that is settled.
ghost use Rattle.std.specs.Prelude.{false, ◌≡◌, OnErr, OnOk};
ghost use Rattle.calls.specs.Acts.{CanCome, IsEnd, pending_for, settled_by};
ghost use Rattle.kernel.specs.Disk.{LeavesDisk};
ghost use Rattle.kernel.specs.Kernel.{HasCurrent, current, state_of};

use blockdev::{BlockDev, DeviceFault};
use kernel::Kernel;
use sv39::Translate;
use unixmodel::call::Call;
use unixmodel::process::Pending;

/// a0 of a call that is refused.
pub const REFUSED: u64 = u64::MAX;

/// The status of a process that kill or a fault ended.
pub const KILLED: i32 = -1;

/// How a call ended: what is left to do.
#[derive(Clone, Copy)]
pub enum Came {
    /// It returns this in a0.
    Answers(u64),
    /// It is refused, with -1 in a0.
    Refuses,
    /// The process waits in this call.
    Blocks(Pending),
    /// The process ends with this status.
    Exits(i32),
    /// The process has killed itself: the call returns 0, and the process ends.
    KillsItself,
}

/// The call that the running process makes, as it begins to wait.
pub(crate) fn pending<D: BlockDev, T: Translate>(kernel: &Kernel<D, T>, number: Call) -> Pending
    ensures { result ≡ pending_for kernel.now number }
{
    Pending {
        number,
        args: [kernel.argument(0), kernel.argument(1), kernel.argument(2)],
        done: 0,
        since: kernel.ticks(),
    }
}

/// Settles a call of the running process. It fails only where a process ended, if an access of the device fails.
#[inline(always)]
pub(crate) fn settle<D: BlockDev, T: Translate>(
    kernel: &mut Kernel<D, T>,
    came: Came,
) -> Result<(), DeviceFault>
    requires running { HasCurrent kernel.old }
    requires up { kernel.old.tree.failed ≡ false }
    requires can { CanCome kernel.old (current kernel.old) came }
    ensures gives { OnOk result (state_of kernel.new ≡ settled_by (state_of kernel.old) (current kernel.old) came) }
    ensures fails { OnErr result (IsEnd came) }
    ensures tree { LeavesDisk kernel.old.tree kernel.new.tree result }
{
    kernel.is_sound();
    match came {
        Came::Answers(value) => {
            kernel.answer(value);
            Ok(())
        }
        Came::Refuses => {
            kernel.answer(REFUSED);
            Ok(())
        }
        Came::Blocks(pending) => {
            kernel.block(pending);
            Ok(())
        }
        Came::Exits(status) => {
            let at = kernel.current();
            kernel.finish(at, status)
        }
        Came::KillsItself => {
            let at = kernel.current();
            kernel.answer(0);
            kernel.finish(at, KILLED)?;
            kernel.mark(at);
            Ok(())
        }
    }
}
