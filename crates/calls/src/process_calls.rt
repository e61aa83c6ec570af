//! The calls on processes: fork, exit, wait, kill, getpid, sbrk, sleep, uptime.
ghost use Rattle.std.specs.Prelude.{◌≡◌, ◌+◌, ◌-◌, ◌≤◌, Some, true};
ghost use Rattle.calls.specs.Acts.{Acts, GoesOn, Runs};
ghost use Rattle.kernel.specs.Kernel.{HasCurrent, argument, current, current_space};
ghost use Rattle.calls.specs.Processes.{asked, place_called, with_status};
ghost use Rattle.kernel.specs.Sound.{can_answer};
ghost use Rattle.unixmodel.specs.declared.call.Call.TheVariants as Call;
ghost use Rattle.unixmodel.specs.Numbers.{int_of, natural};
ghost use Rattle.unixmodel.specs.Outcome.{pending_arg};

use crate::outcome::{Came, pending};
use blockdev::BlockDev;
use kernel::numbers::{int, natural};
use kernel::{Kernel, has_slept};
use sv39::Translate;
use unixmodel::call::Call;
use unixmodel::process::Pending;

// Whether a status can be written at an address of the running process; at address 0 none is.
fn can_answer<D: BlockDev, T: Translate>(kernel: &Kernel<D, T>, address: u64) -> bool
    requires { HasCurrent kernel.now }
    ensures { result ≡ can_answer (current_space kernel.now).memory address }
{
    address == 0 || kernel.can_write(address, 4)
}

// Writes the status of a child at an address of the running process, unless that is 0.
fn write_status<D: BlockDev, T: Translate>(kernel: &mut Kernel<D, T>, address: u64, status: i32)
    requires running { HasCurrent kernel.old }
    requires can { can_answer (current_space kernel.old).memory address ≡ true }
    ensures { kernel.new ≡ with_status kernel.old (current kernel.old) address status }
{
    if address != 0 {
        kernel.write(address, &status.to_le_bytes());
    }
}

/// fork(): makes a child that is ready, with the same pages, descriptors and directory, in which the call returns 0.
pub(crate) fn fork<D: BlockDev, T: Translate>(kernel: &mut Kernel<D, T>) -> Came
    requires { Runs kernel.old }
    ensures { Acts kernel.old kernel.new (current kernel.old) (Some Call.Fork) result }
{
    let Some(pid) = kernel.fork() else {
        return Came::Refuses;
    };
    kernel.is_sound();
    Came::Answers(u64::from(pid))
}

/// exit(status): the process ends.
pub(crate) fn exit<D: BlockDev, T: Translate>(kernel: &Kernel<D, T>) -> Came
    requires { Runs kernel.now }
    ensures { Acts kernel.now kernel.now (current kernel.now) (Some Call.Exit) result }
{
    Came::Exits(int(kernel.argument(0)))
}

/// wait(address): collects a zombie child, whose status is written at the address, unless that is 0, and whose pid is
/// the result.
pub(crate) fn wait<D: BlockDev, T: Translate>(kernel: &mut Kernel<D, T>) -> Came
    requires { Runs kernel.old }
    ensures { Acts kernel.old kernel.new (current kernel.old) (Some Call.Wait) result }
{
    let parent = kernel.pid();
    if !kernel.has_child(parent) || !can_answer(kernel, kernel.argument(0)) {
        return Came::Refuses;
    }
    let pending = pending(kernel, Call::Wait);
    wait_on(kernel, pending)
}

/// A wait goes on: it takes the first zombie child, or waits still.
pub(crate) fn wait_on<D: BlockDev, T: Translate>(
    kernel: &mut Kernel<D, T>,
    pending: Pending,
) -> Came
    requires runs { Runs kernel.old }
    requires number { pending.number ≡ Call.Wait }
    requires can { can_answer (current_space kernel.old).memory (pending_arg pending 0) ≡ true }
    ensures { GoesOn kernel.old kernel.new (current kernel.old) pending result }
{
    let parent = kernel.pid();
    let Some(reaped) = kernel.collect(parent) else {
        return Came::Blocks(pending);
    };
    write_status(kernel, pending.args[0], reaped.status);
    kernel.is_sound();
    Came::Answers(u64::from(reaped.pid))
}

// The slot of the process that an argument names by its pid.
fn place_called<D: BlockDev, T: Translate>(kernel: &Kernel<D, T>, argument: u64) -> Option<usize>
    ensures { result ≡ place_called kernel.now.table.places (natural (int_of argument)) }
{
    let pid = natural(argument)?;
    if pid == 0 { None } else { kernel.find(pid) }
}

/// kill(pid): the process is marked, and ends when its turn comes; a process that kills itself ends at once.
pub(crate) fn kill<D: BlockDev, T: Translate>(kernel: &mut Kernel<D, T>) -> Came
    requires { Runs kernel.old }
    ensures { Acts kernel.old kernel.new (current kernel.old) (Some Call.Kill) result }
{
    let Some(place) = place_called(kernel, kernel.argument(0)) else {
        return Came::Refuses;
    };
    if place == kernel.current() {
        return Came::KillsItself;
    }
    kernel.mark(place);
    kernel.is_sound();
    Came::Answers(0)
}

/// getpid()
pub(crate) fn getpid<D: BlockDev, T: Translate>(kernel: &Kernel<D, T>) -> Came
    requires { Runs kernel.now }
    ensures { Acts kernel.now kernel.now (current kernel.now) (Some Call.Getpid) result }
{
    Came::Answers(u64::from(kernel.pid()))
}

// sbrk of more: pages of zeros that the process reads and writes.
fn grow<D: BlockDev, T: Translate>(kernel: &mut Kernel<D, T>, bytes: u64) -> Came
    requires runs { Runs kernel.old }
    requires asked { asked kernel.old (current kernel.old) (int_of (argument kernel.old 0))
        ≡ Some ((current_space kernel.old).size + bytes) }
    ensures { Acts kernel.old kernel.new (current kernel.old) (Some Call.Sbrk) result }
{
    let old = kernel.size();
    if !kernel.grow(bytes) {
        return Came::Refuses;
    }
    kernel.is_sound();
    Came::Answers(old)
}

// sbrk of less: pages go.
fn shrink<D: BlockDev, T: Translate>(kernel: &mut Kernel<D, T>, bytes: u64) -> Came
    requires runs { Runs kernel.old }
    requires less { bytes ≤ (current_space kernel.old).size }
    requires asked { asked kernel.old (current kernel.old) (int_of (argument kernel.old 0))
        ≡ Some ((current_space kernel.old).size - bytes) }
    ensures { Acts kernel.old kernel.new (current kernel.old) (Some Call.Sbrk) result }
{
    let old = kernel.size();
    kernel.shrink(bytes);
    kernel.is_sound();
    Came::Answers(old)
}

/// sbrk(bytes): the size changes by `bytes` bytes, unless that leaves one below 0 or the frames don't suffice, and the
/// old one is the result.
pub(crate) fn sbrk<D: BlockDev, T: Translate>(kernel: &mut Kernel<D, T>) -> Came
    requires { Runs kernel.old }
    ensures { Acts kernel.old kernel.new (current kernel.old) (Some Call.Sbrk) result }
{
    let delta = int(kernel.argument(0));
    let bytes = u64::from(delta.unsigned_abs());
    if delta >= 0 {
        return grow(kernel, bytes);
    }
    if bytes > kernel.size() {
        return Came::Refuses;
    }
    shrink(kernel, bytes)
}

/// sleep(ticks): waits until that many ticks have passed.
pub(crate) fn sleep<D: BlockDev, T: Translate>(kernel: &Kernel<D, T>) -> Came
    requires { Runs kernel.now }
    ensures { Acts kernel.now kernel.now (current kernel.now) (Some Call.Sleep) result }
{
    sleep_on(kernel, pending(kernel, Call::Sleep))
}

/// A sleep goes on, or waits still.
pub(crate) fn sleep_on<D: BlockDev, T: Translate>(kernel: &Kernel<D, T>, pending: Pending) -> Came
    requires runs { Runs kernel.now }
    requires number { pending.number ≡ Call.Sleep }
    ensures { GoesOn kernel.now kernel.now (current kernel.now) pending result }
{
    if has_slept(kernel.ticks(), &pending) {
        Came::Answers(0)
    } else {
        Came::Blocks(pending)
    }
}

/// uptime(): the ticks so far.
pub(crate) fn uptime<D: BlockDev, T: Translate>(kernel: &Kernel<D, T>) -> Came
    requires { Runs kernel.now }
    ensures { Acts kernel.now kernel.now (current kernel.now) (Some Call.Uptime) result }
{
    Came::Answers(u64::from(kernel.ticks()))
}
