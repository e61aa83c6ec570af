//! The search over a machine.
ghost use Rattle.std.specs.Prelude.{◌≡◌, IfOk, OnOk, true};
ghost use Rattle.orders.specs.Missed.{is_late_alone, is_nothing, is_ticks_alone};
ghost use Rattle.orders.specs.Told.{Each, IsComplete, IsCompleteAsTried, IsCompleteIfShort, IsSound};

use crate::along::Along;
use blockdev::Duplicate;
use orders::{Found, Progress, Task, Trouble, find_outcomes};
use std::alloc::Global;
use sv39::Translate;

/// Explores all schedules of the machine from which two others go along, with bytes typed where nobody is ready.
/// `Machine` where it had stopped.
///
/// Each outcome is what its events lead to. Where nothing was left out these are all: whatever timer interrupts come,
/// and wherever, a run at whose end process 1 has ended or all wait shows what one of the outcomes shows. Where only
/// timer interrupts were left out, that holds of the runs without those. Where only late ones were, and no process
/// sleeps at the beginning, it holds of all runs with fewer than 2^32 timer interrupts.
pub fn explore<'a, D: Duplicate, T: Translate, P: Progress>(
    alloc: Global,
    walker: &mut Along<'a, D, T>,
    other: &mut Along<'a, D, T>,
    task: Task,
    progress: &mut P,
) -> Result<Found, Trouble>
    requires { other.old.first.now ≡ walker.old.first.now }
    ensures sound { IfOk result
        (λ found. Each (IsSound task.entry.keys.now walker.old.first.now.state) found.outcomes.items) }
    ensures complete { IfOk result (λ found. is_nothing found.missed ≡ true
        → IsComplete task.entry.keys.now walker.old.first.now.state found.outcomes.items) }
    ensures tried { IfOk result (λ found. is_ticks_alone found.missed ≡ true → IsCompleteAsTried task.entry.bounds
        found.missed task.entry.keys.now walker.old.first.now.state found.outcomes.items) }
    ensures short { IfOk result (λ found. is_late_alone found.missed ≡ true
        → IsCompleteIfShort task.entry.keys.now walker.old.first.now.state found.outcomes.items) }
    ensures first { OnOk result (walker.new.first.now.state ≡ walker.old.first.now.state) }
    ensures other_first { OnOk result (other.new.first.now.state ≡ other.old.first.now.state) }
{
    find_outcomes(alloc, walker, other, task, progress)
}
