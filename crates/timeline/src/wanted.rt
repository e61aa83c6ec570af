//! What a motion looks for.
ghost use Rattle.std.specs.Prelude.{◌≡◌, Bool, IfSome, true};
ghost use Rattle.calls.specs.Computing.{computes};
ghost use Rattle.timeline.specs.Line.{Passes, StopsOnlyAt};
ghost use Rattle.unixmodel.specs.State.{State};

use blockdev::MemDisk;
use machine::Machine;
use sv39::{Plain, Recent};

/// The machine that is debugged.
pub type Debuggee = Machine<MemDisk, Recent<Plain>>;

/// Reasons to stop.
pub trait Wanted {
    /// Whether a machine stops in a state.
    ghost stops: { Self → State → Bool };

    /// Whether a machine stops where it is.
    fn is_met(&self, machine: &Debuggee) -> bool
        ensures { result ≡ stops self.now machine.now.state };

    /// The only addresses at which the process that runs may stop, as long as it goes on by instructions from where the
    /// machine is. `None` where each state has to be looked at.
    fn addresses(&self, machine: &Debuggee) -> Option<&[u64]>
        ensures { IfSome result (λ addresses. StopsOnlyAt (stops self.now) machine.now.state addresses.now) };

    /// Whether a machine surely does not stop where it is, if the next instruction is done.
    fn passes(&self, machine: &Debuggee) -> bool
        ensures { result ≡ true → computes machine.now.state ≡ true → Passes (stops self.now) machine.now.state };
}
