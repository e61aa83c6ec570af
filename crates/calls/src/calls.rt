//! The calls: each row of the table of calls is a function.
ghost use Rattle.std.specs.Prelude.{false, ◌≡◌, ◌≤◌, Some};
ghost use Rattle.calls.specs.Acts.{CallTries, IsBegun, Runs, called};
ghost use Rattle.calls.specs.Gives.{DispatchesTo, LeavesTree};
ghost use Rattle.kernel.specs.Kernel.{HasCurrent, current, state_of};
ghost use Rattle.unixmodel.specs.Calls.{call_of};

use crate::descriptor_calls::{close, dup, pipe};
use crate::exec_call::exec;
use crate::file_calls::fstat;
use crate::halt::Halt;
use crate::name_calls::{link, mkdir, mknod, unlink};
use crate::open_calls::{chdir, open};
use crate::outcome::{Came, settle};
use crate::process_calls::{exit, fork, getpid, kill, sbrk, sleep, uptime, wait};
use crate::transfer_calls::{read, write};
use blockdev::BlockDev;
use console::Out;
use kernel::Kernel;
use kernel::numbers::low;
use sv39::Translate;
use unixmodel::call::Call;

// The call that has a number.
fn call_of(number: u32) -> Option<Call>
    ensures { result ≡ call_of number }
{
    match number {
        1 => Some(Call::Fork),
        2 => Some(Call::Exit),
        3 => Some(Call::Wait),
        4 => Some(Call::Pipe),
        5 => Some(Call::Read),
        6 => Some(Call::Kill),
        7 => Some(Call::Exec),
        8 => Some(Call::Fstat),
        9 => Some(Call::Chdir),
        10 => Some(Call::Dup),
        11 => Some(Call::Getpid),
        12 => Some(Call::Sbrk),
        13 => Some(Call::Sleep),
        14 => Some(Call::Uptime),
        15 => Some(Call::Open),
        16 => Some(Call::Write),
        17 => Some(Call::Mknod),
        18 => Some(Call::Unlink),
        19 => Some(Call::Link),
        20 => Some(Call::Mkdir),
        21 => Some(Call::Close),
        _ => None,
    }
}

/// The running process begins its call: the pc advances by 4.
pub(crate) fn begin<D: BlockDev, T: Translate>(kernel: &mut Kernel<D, T>)
    requires running { HasCurrent kernel.old }
    requires up { kernel.old.tree.failed ≡ false }
    ensures { IsBegun kernel.old kernel.new (current kernel.old) }
{
    kernel.is_sound();
    kernel.enter();
}

// The table of calls: does a call that has begun, except for settling it; a number of no call is refused. `Device`,
// `Console`: the device failed, the console did.
fn act<D: BlockDev, T: Translate, W: Out>(
    kernel: &mut Kernel<D, T>,
    call: Option<Call>,
    console: &mut W,
) -> Result<Came, Halt>
    requires { Runs kernel.old }
    ensures tries { CallTries W.contents W.failures kernel.old kernel.new console.old console.new call result }
    ensures later { W.failures console.old ≤ W.failures console.new }
{
    let Some(call) = call else {
        return Ok(Came::Refuses);
    };
    let came = match call {
        Call::Fork => Ok(fork(kernel)),
        Call::Exit => Ok(exit(kernel)),
        Call::Wait => Ok(wait(kernel)),
        Call::Pipe => Ok(pipe(kernel)),
        Call::Read => read(kernel),
        Call::Kill => Ok(kill(kernel)),
        Call::Exec => exec(kernel),
        Call::Fstat => fstat(kernel),
        Call::Chdir => chdir(kernel),
        Call::Dup => Ok(dup(kernel)),
        Call::Getpid => Ok(getpid(kernel)),
        Call::Sbrk => Ok(sbrk(kernel)),
        Call::Sleep => Ok(sleep(kernel)),
        Call::Uptime => Ok(uptime(kernel)),
        Call::Open => open(kernel),
        Call::Write => return write(kernel, console),
        Call::Mknod => mknod(kernel),
        Call::Unlink => unlink(kernel),
        Call::Link => link(kernel),
        Call::Mkdir => mkdir(kernel),
        Call::Close => close(kernel),
    };
    Ok(came?)
}

/// Does the call of the running process.
#[inline(never)]
pub fn call<D: BlockDev, T: Translate, W: Out>(
    kernel: &mut Kernel<D, T>,
    console: &mut W,
) -> Result<(), Halt>
    requires running { HasCurrent kernel.old }
    requires up { kernel.old.tree.failed ≡ false }
    ensures gives { DispatchesTo W.contents W.failures kernel.new console.old console.new
        (called (state_of kernel.old) (current kernel.old)) result }
    ensures tree { LeavesTree kernel.old.tree kernel.new.tree result }
    ensures later { W.failures console.old ≤ W.failures console.new }
{
    let call = call_of(low(kernel.argument(7)));
    begin(kernel);
    let came = act(kernel, call, console)?;
    Ok(settle(kernel, came)?)
}
