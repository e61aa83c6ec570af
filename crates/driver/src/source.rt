//! Who says what a machine is given.

use crate::wanted::{Walked, Wanted};
use blockdev::BlockDev;
use events::Goal;
use machine::Machine;
use sv39::Translate;

/// Says what a machine is to be given, piece by piece.
pub trait Source {
    ghost use Rattle.std.specs.Prelude.{List, Option, Result, option_map, ℕ, ◌<◌, ◌≡◌, ◌≢◌};
    ghost use Rattle.calls.specs.declared.halt.Halt.{Halt};
    ghost use Rattle.driver.specs.Spots.{Spot};
    ghost use Rattle.driver.specs.Wanted.{Asks};
    ghost use Rattle.driver.specs.declared.wanted.Walked.{Walked};
    ghost use Rattle.driver.specs.declared.wanted.Wanted.TheVariants.{End};
    ghost use Rattle.events.specs.declared.grammar.Goal.{Goal};
    ghost use Rattle.unixmodel.specs.declared.event.Event.{Event};

    /// How often it may be asked before its end.
    ghost left: { Self → ℕ };

    /// What its steps wait for, if for anything.
    ghost goal: { Self → Option Goal };

    /// Its keys.
    ghost typed: { Self → List ℕ };

    /// Which events it wants from a spot on, in all, after this came of the steps that it wanted last; or which are a
    /// beginning of them, where the machine halts. Then it is as the second value.
    ghost wants: { Self → Walked → Spot → Self → Result (Unit {0}) Halt → List Event → Type 0 };

    /// What it wants next, of a machine as it is now. `walked` is what came of the steps that it wanted last.
    fn next<D: BlockDev, T: Translate>(&mut self, machine: &Machine<D, T>, walked: Walked) -> Wanted
        ensures asks { (s : Spot) → s.state ≡ machine.now.state
            → Asks wants (goal self.new) (typed self.new) self.old self.new walked s result }
        ensures fewer { result ≢ End → left self.new < left self.old };

    /// What its steps wait for, if for anything.
    fn aim(&self) -> Option<&Goal>
        ensures { option_map (λ g. g.now) result ≡ goal self.now };

    /// Its keys.
    fn keys(&self) -> &[u8]
        ensures { result.now ≡ typed self.now };
}
