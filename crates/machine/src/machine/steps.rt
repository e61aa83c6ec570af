//! Many steps of a machine.
ghost use Rattle.std.specs.Prelude.{◌<◌, ◌≡◌, ◌≤◌, replicate};
ghost use Rattle.calls.specs.Computing.{Computes};
ghost use Rattle.machine.specs.Gives.{RunGivesTo};
ghost use Rattle.machine.specs.Pieces.{HaltsLast, IsPiece};
ghost use Rattle.machine.specs.View.{IsUp};
ghost use Rattle.unixmodel.specs.declared.event.Event.TheVariants.{Step};

use super::{Machine, is_failure};
use blockdev::BlockDev;
use calls::Halt;
use console::Out;
use sv39::Translate;

impl<D: BlockDev, T: Translate> Machine<D, T> {
    /// Does `count` steps, up to the first at which the machine stops: what `run` does with `count` times
    /// `Event::Step`, in less time.
    pub fn steps<W: Out>(&mut self, count: u32, console: &mut W) -> Result<(), Halt>
        ensures gives { RunGivesTo W.contents W.failures self.old self.new console.old console.new
            (replicate count Step) result }
        ensures later { W.failures console.old ≤ W.failures console.new }
    {
        if self.is_stopped() {
            return Err(Halt::Halted);
        }
        let done = calls::steps(&mut self.kernel, count, console);
        self.failed = is_failure(&done);
        done
    }

    /// Does the first of `most` steps, as many as are done at once: instructions up to a call or a fault, or a turn.
    /// Returns how many they were, with the one at which the machine stops. They are none where no process runs and
    /// none is ready, and where the machine had stopped.
    pub fn advance<W: Out>(&mut self, most: u32, console: &mut W) -> (u32, Result<(), Halt>)
        requires { 0 < most }
        ensures gives { RunGivesTo W.contents W.failures self.old self.new console.old console.new
            (replicate result.0 Step) result.1 }
        ensures piece { IsPiece self.old self.new most result.0 result.1 }
        ensures last { HaltsLast self.old self.new (W.contents console.old) (W.contents console.new) result.0 result.1 }
        ensures later { W.failures console.old ≤ W.failures console.new }
    {
        if self.is_stopped() {
            return (0, Err(Halt::Halted));
        }
        let (count, done) = calls::advance(&mut self.kernel, most, console);
        self.failed = is_failure(&done);
        (count, done)
    }

    /// Does at most `most` instructions of the process that runs: up to a call or a fault, which isn't done, and no
    /// further than to the first of some addresses that the pc comes to after the first of them. Returns how many they
    /// were: none where no process runs, and where the machine has stopped. An address costs nothing per instruction.
    pub fn compute(&mut self, most: u32, stops: &[u64]) -> u32
        ensures computes { IsUp self.old → Computes self.old.state self.new.state stops.now most result }
        ensures stopped { ¬ IsUp self.old → (result ≡ 0) × (self.new ≡ self.old) }
        ensures same { self.new ≡ record self.old { state = self.new.state } }
    {
        if self.is_stopped() {
            return 0;
        }
        calls::compute(&mut self.kernel, most, stops)
    }
}
