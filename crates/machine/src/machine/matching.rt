//! Whether the states of two machines are alike.
ghost use Rattle.std.specs.Prelude.{◌≡◌, true};
ghost use Rattle.machine.specs.Matching.{MatchGives};
ghost use Rattle.renumbering.specs.Alike.{AlikeUpToNumbers};

use super::Machine;
use blockdev::BlockDev;
use calls::Halt;
use likeness::{Side, are_alike};
use sv39::Translate;

impl<D: BlockDev, T: Translate> Machine<D, T> {
    /// Whether the state of another machine is alike: equal, except that the clocks and the numbers of open files and
    /// pipes may differ, and each sleeping process has slept as long. A yes is right; of states that are alike a no is
    /// rare. Both machines stay as they are.
    ///
    /// `Device`: an access of one of the two devices failed, as at a step; `Halted` where one had failed earlier.
    pub fn matches<E: BlockDev, U: Translate>(
        &mut self,
        other: &mut Machine<E, U>,
    ) -> Result<bool, Halt>
        ensures { MatchGives self.old self.new other.old other.new
            (λ yes. yes ≡ true → AlikeUpToNumbers self.old.state other.old.state) result }
    {
        if self.failed || other.failed {
            return Err(Halt::Halted);
        }
        match are_alike(&mut self.kernel, &mut other.kernel) {
            Ok(yes) => Ok(yes),
            Err(Side::One) => {
                self.failed = true;
                Err(Halt::Device)
            }
            Err(Side::Other) => {
                other.failed = true;
                Err(Halt::Device)
            }
        }
    }
}
