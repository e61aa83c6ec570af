//! Many steps of a kernel.
//!
//! They are done in pieces: instructions of the running process up to a call or a fault, or a turn.
ghost use Rattle.std.specs.Prelude.{ℕ, List, Option, ◌≡◌, ◌<◌, ◌≤◌, Err, None, Some, false};
ghost use Rattle.calls.specs.Computing.{Computes};
ghost use Rattle.calls.specs.Gives.{EventGivesTo, LeavesTree, executed, halt_after};
ghost use Rattle.calls.specs.Steps.{LeavesFiles, PieceGives, PieceGivesTo, StepsGiveTo};
ghost use Rattle.kernel.specs.Kernel.{HasCurrent, current_space, state_of};
ghost use Rattle.unixmodel.specs.Cycle.{cycle};

use crate::events::{goes, take, take_trap};
use crate::halt::Halt;
use blockdev::{BlockDev, DeviceFault};
use console::Out;
use hart::{Breakpoints, NoStops};
use kernel::Kernel;
use sv39::Translate;
use unixmodel::trap::Trap;

/// Does `count` steps, up to the first at which the machine halts.
pub fn steps<D: BlockDev, T: Translate, W: Out>(
    kernel: &mut Kernel<D, T>,
    count: u32,
    console: &mut W,
) -> Result<(), Halt>
    requires goes { kernel.old.halted ≡ None }
    requires up { kernel.old.tree.failed ≡ false }
    ensures does { StepsGiveTo W.contents W.failures kernel.old kernel.new console.old console.new count result }
    ensures tree { LeavesFiles kernel.old.tree kernel.new.tree result }
    ensures later { W.failures console.old ≤ W.failures console.new }
{
    let mut done = 0;
    while done < count {
        let (more, ended) = advance(kernel, count - done, console);
        ended?;
        if more == 0 {
            // No step changes anything.
            return Ok(());
        }
        done += more;
    }
    Ok(())
}

/// Does the first of `most` steps, as many as are done at once, and returns how many, with the one at which the machine
/// halts. They are none where no process runs and none is ready.
pub fn advance<D: BlockDev, T: Translate, W: Out>(
    kernel: &mut Kernel<D, T>,
    most: u32,
    console: &mut W,
) -> (u32, Result<(), Halt>)
    requires goes { kernel.old.halted ≡ None }
    requires up { kernel.old.tree.failed ≡ false }
    requires some { 0 < most }
    ensures does { PieceGivesTo W.contents W.failures kernel.old kernel.new console.old console.new most result.0
        result.1 }
    ensures later { W.failures console.old ≤ W.failures console.new }
{
    match kernel.active() {
        Some(_) => instruct_many(kernel, most, console),
        None => turn_once(kernel),
    }
}

/// Does at most `most` instructions of the running process, up to a call or a fault and not over it, and no further
/// than to the first of some addresses that the pc comes to. Returns how many: none where no process runs.
pub fn compute<D: BlockDev, T: Translate>(
    kernel: &mut Kernel<D, T>,
    most: u32,
    addresses: &[u64],
) -> u32
    requires { kernel.old.halted ≡ None }
    ensures computes { Computes (state_of kernel.old) (state_of kernel.new) addresses.now most result }
    ensures tree { kernel.new.tree ≡ kernel.old.tree }
{
    kernel.is_sound();
    match kernel.active() {
        None => 0,
        Some(_) => kernel.execute_many(most, &Breakpoints { addresses }).0,
    }
}

// Instructions of the running process up to the first that traps, with the call or the end that it traps into.
fn instruct_many<D: BlockDev, T: Translate, W: Out>(
    kernel: &mut Kernel<D, T>,
    most: u32,
    console: &mut W,
) -> (u32, Result<(), Halt>)
    requires running { HasCurrent kernel.old }
    requires goes { kernel.old.halted ≡ None }
    requires up { kernel.old.tree.failed ≡ false }
    requires some { 0 < most }
    ensures does { PieceGivesTo W.contents W.failures kernel.old kernel.new console.old console.new most result.0
        result.1 }
    ensures later { W.failures console.old ≤ W.failures console.new }
{
    kernel.is_sound();
    match kernel.execute_many(most, &NoStops) {
        (done, None) => (done, Ok(())),
        (done, Some(trap)) => (done + 1, trap_once(kernel, trap, console)),
    }
}

// The step at which the running process traps.
fn trap_once<D: BlockDev, T: Translate, W: Out>(
    kernel: &mut Kernel<D, T>,
    trap: Trap,
    console: &mut W,
) -> Result<(), Halt>
    requires running { HasCurrent kernel.old }
    requires up { kernel.old.tree.failed ≡ false }
    requires traps { cycle kernel.old.spaces.registers kernel.old.spaces.pc (current_space kernel.old).memory
        ≡ Err trap }
    ensures does { EventGivesTo W.contents W.failures kernel.new console.old console.new (executed kernel.old)
        result }
    ensures tree { LeavesTree kernel.old.tree kernel.new.tree result }
    ensures later { W.failures console.old ≤ W.failures console.new }
{
    take_trap(kernel, trap, console)?;
    goes(kernel)
}

// A turn; none where nobody is ready.
#[inline(never)]
fn turn_once<D: BlockDev, T: Translate>(kernel: &mut Kernel<D, T>) -> (u32, Result<(), Halt>)
    requires idle { kernel.old.spaces.active ≡ None }
    requires goes { kernel.old.halted ≡ None }
    requires up { kernel.old.tree.failed ≡ false }
    ensures does { (at : Option (List ℕ)) → (most : ℕ) → 0 < most
        → PieceGives kernel.old kernel.new most at at ⊥ result.0 result.1 }
{
    kernel.is_sound();
    match kernel.turn() {
        None => (0, Ok(())),
        Some(at) => {
            let taken = take(kernel, at);
            (1, halt_after(kernel, taken))
        }
    }
}

// The result of the step of a turn, by how the process that was picked was taken.
fn halt_after<D: BlockDev, T: Translate>(
    kernel: &Kernel<D, T>,
    taken: Result<(), DeviceFault>,
) -> Result<(), Halt>
    ensures { result ≡ halt_after taken kernel.now.halted }
{
    taken?;
    goes(kernel)
}
