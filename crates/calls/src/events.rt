//! The events of a machine, as the kernel handles them.
//!
//! What seldom happens is kept out of line (`inline(never)`), so that the code of a step that only does an
//! instruction stays small.
ghost use Rattle.std.specs.Prelude.{false, ◌≡◌, ◌≤◌, Err, Some, None, IfErr, OnErr, OnOk};
ghost use Rattle.calls.specs.Acts.{CanWait, GoesOn, Runs, gone_on};
ghost use Rattle.calls.specs.declared.halt.Halt.TheVariants.{Console};
ghost use Rattle.calls.specs.Gives.{DispatchesTo, EventGivesTo, LeavesTree, executed, halt_of};
ghost use Rattle.kernel.specs.Disk.{LeavesDisk};
ghost use Rattle.kernel.specs.Kernel.{HasCurrent, current, current_space, state_of};
ghost use Rattle.kernel.specs.Sound.{IsAlive};
ghost use Rattle.calls.specs.Resuming.{taken};
ghost use Rattle.unixmodel.specs.Calls.{quiet};
ghost use Rattle.unixmodel.specs.Cycle.{cycle};
ghost use Rattle.unixmodel.specs.declared.call.Call.TheVariants as Call;
ghost use Rattle.unixmodel.specs.declared.event.Event.TheVariants.{Key, Step, Tick};
ghost use Rattle.unixmodel.specs.Files.{slot};
ghost use Rattle.unixmodel.specs.Next.{is_ecall, next, take_turn};
ghost use Rattle.unixmodel.specs.Turn.{turn};

use crate::calls;
use crate::halt::Halt;
use crate::outcome::{Came, KILLED, settle};
use crate::process_calls::{sleep_on, wait_on};
use crate::transfer_calls::{read_on, write_on};
use blockdev::{BlockDev, DeviceFault};
use console::{Out, OutFault};
use kernel::Kernel;
use sv39::Translate;
use unixmodel::call::Call;
use unixmodel::process::{Mode, Pending};
use unixmodel::trap::{Cause, Trap};

// Whether a trap is a call.
fn is_call(cause: Cause) -> bool
    ensures { result ≡ is_ecall cause }
{
    match cause {
        Cause::EnvironmentCall => true,
        Cause::InstructionMisaligned
        | Cause::IllegalInstruction
        | Cause::Breakpoint
        | Cause::LoadMisaligned
        | Cause::StoreMisaligned
        | Cause::InstructionPageFault
        | Cause::LoadPageFault
        | Cause::StorePageFault => false,
    }
}

/// A timer interrupt.
#[inline(never)]
pub fn tick<D: BlockDev, T: Translate>(kernel: &mut Kernel<D, T>)
    ensures gives { next (state_of kernel.old) Tick ≡ quiet (state_of kernel.new) }
    ensures tree { kernel.new.tree ≡ kernel.old.tree }
{
    kernel.is_sound();
    kernel.interrupt();
}

/// A key was typed: it changes the line that is edited, and what shows that is printed. `Console`: the console failed,
/// and the key is lost.
#[inline(never)]
pub fn key<D: BlockDev, T: Translate, W: Out>(
    kernel: &mut Kernel<D, T>,
    byte: u8,
    console: &mut W,
) -> Result<(), Halt>
    ensures gives { DispatchesTo W.contents W.failures kernel.new console.old console.new
        (next (state_of kernel.old) (Key byte)) result }
    ensures lost { OnErr result (kernel.new ≡ kernel.old) }
    ensures fault { IfErr result (λ halt. halt ≡ Console) }
    ensures tree { kernel.new.tree ≡ kernel.old.tree }
    ensures later { W.failures console.old ≤ W.failures console.new }
{
    match kernel.type_key(byte, console) {
        Ok(()) => Ok(()),
        Err(OutFault::Writer) => Err(Halt::Console),
    }
}

/// One step: the running process does an instruction, and the call or the end that it traps into; where none runs
/// there is a turn.
pub fn step<D: BlockDev, T: Translate, W: Out>(
    kernel: &mut Kernel<D, T>,
    console: &mut W,
) -> Result<(), Halt>
    requires goes { kernel.old.halted ≡ None }
    requires up { kernel.old.tree.failed ≡ false }
    ensures does { EventGivesTo W.contents W.failures kernel.new console.old console.new
        (next (state_of kernel.old) Step) result }
    ensures tree { LeavesTree kernel.old.tree kernel.new.tree result }
    ensures later { W.failures console.old ≤ W.failures console.new }
{
    kernel.is_sound();
    match kernel.active() {
        Some(_) => instruct(kernel, console)?,
        None => take_turn(kernel)?,
    }
    goes(kernel)
}

// Whether the machine goes on.
pub(crate) fn goes<D: BlockDev, T: Translate>(kernel: &Kernel<D, T>) -> Result<(), Halt>
    ensures { result ≡ halt_of kernel.now.halted }
{
    match kernel.halted() {
        None => Ok(()),
        Some(status) => Err(Halt::InitEnded(status)),
    }
}

// The running process does an instruction, and the call or the end that it traps into.
fn instruct<D: BlockDev, T: Translate, W: Out>(
    kernel: &mut Kernel<D, T>,
    console: &mut W,
) -> Result<(), Halt>
    requires { Runs kernel.old }
    ensures gives { DispatchesTo W.contents W.failures kernel.new console.old console.new (executed kernel.old)
        result }
    ensures tree { LeavesTree kernel.old.tree kernel.new.tree result }
    ensures later { W.failures console.old ≤ W.failures console.new }
{
    match kernel.execute() {
        None => Ok(()),
        Some(trap) => take_trap(kernel, trap, console),
    }
}

// The call or the end that the running process traps into.
pub(crate) fn take_trap<D: BlockDev, T: Translate, W: Out>(
    kernel: &mut Kernel<D, T>,
    trap: Trap,
    console: &mut W,
) -> Result<(), Halt>
    requires running { HasCurrent kernel.old }
    requires up { kernel.old.tree.failed ≡ false }
    requires traps { cycle kernel.old.spaces.registers kernel.old.spaces.pc (current_space kernel.old).memory
        ≡ Err trap }
    ensures gives { DispatchesTo W.contents W.failures kernel.new console.old console.new (executed kernel.old)
        result }
    ensures tree { LeavesTree kernel.old.tree kernel.new.tree result }
    ensures later { W.failures console.old ≤ W.failures console.new }
{
    kernel.is_sound();
    if is_call(trap.cause) {
        return calls::call(kernel, console);
    }
    let at = kernel.current();
    Ok(kernel.finish(at, KILLED)?)
}

// A turn, where none runs.
#[inline(never)]
fn take_turn<D: BlockDev, T: Translate>(kernel: &mut Kernel<D, T>) -> Result<(), DeviceFault>
    requires idle { kernel.old.spaces.active ≡ None }
    requires up { kernel.old.tree.failed ≡ false }
    ensures gives { OnOk result
        (take_turn (state_of kernel.old) (turn (state_of kernel.old)) ≡ quiet (state_of kernel.new)) }
    ensures tree { LeavesDisk kernel.old.tree kernel.new.tree result }
{
    kernel.is_sound();
    match kernel.turn() {
        Some(at) => take(kernel, at),
        None => Ok(()),
    }
}

// The process in a slot, which was picked, ends if it is killed; else it runs, or goes on with its call.
pub(crate) fn take<D: BlockDev, T: Translate>(
    kernel: &mut Kernel<D, T>,
    at: usize,
) -> Result<(), DeviceFault>
    requires idle { kernel.old.spaces.active ≡ None }
    requires up { kernel.old.tree.failed ≡ false }
    requires alive { IsAlive (slot kernel.old.table.places at) }
    ensures gives { OnOk result (taken (state_of kernel.old) at ≡ quiet (state_of kernel.new)) }
    ensures tree { LeavesDisk kernel.old.tree kernel.new.tree result }
{
    kernel.is_sound();
    let Some(process) = kernel.process(at) else {
        return Ok(());
    };
    if process.killed {
        return kernel.finish(at, KILLED);
    }
    match process.mode {
        Mode::Ready => {
            kernel.start(at);
            Ok(())
        }
        Mode::Waiting(pending) => {
            kernel.start(at);
            go_on(kernel, pending)
        }
        Mode::Running | Mode::Zombie(_) => Ok(()),
    }
}

// The running process goes on with its pending call.
fn go_on<D: BlockDev, T: Translate>(
    kernel: &mut Kernel<D, T>,
    pending: Pending,
) -> Result<(), DeviceFault>
    requires runs { Runs kernel.old }
    requires can { CanWait kernel.old (current kernel.old) pending }
    ensures gives { OnOk result (gone_on kernel.old pending ≡ quiet (state_of kernel.new)) }
    ensures tree { LeavesDisk kernel.old.tree kernel.new.tree result }
{
    let came = act_on(kernel, pending);
    settle(kernel, came)
}

// Goes on with a pending call of the running process.
fn act_on<D: BlockDev, T: Translate>(kernel: &mut Kernel<D, T>, pending: Pending) -> Came
    requires runs { Runs kernel.old }
    requires can { CanWait kernel.old (current kernel.old) pending }
    ensures { GoesOn kernel.old kernel.new (current kernel.old) pending result }
{
    match pending.number {
        Call::Wait => wait_on(kernel, pending),
        Call::Read => read_on(kernel, pending),
        Call::Write => write_on(kernel, pending),
        Call::Sleep => sleep_on(kernel, pending),
        _ => unreachable!(),
    }
}
