//! What goes along lists of events.
ghost use Rattle.std.specs.Prelude.{◌≡◌, IfOk, OnOk, false, is_some, true};
ghost use Rattle.orders.specs.Ends.{ShowSame, is_anyone_asleep};
ghost use Rattle.orders.specs.Free.{is_idle};
ghost use Rattle.orders.specs.Looked.{ComputesUpTo, IsLike, IsTurnBack, stepped_on};
ghost use Rattle.orders.specs.Paths.{events_of};
ghost use Rattle.orders.specs.Tried.{is_time_awaited};
ghost use Rattle.renumbering.specs.Renumbered.{NamesAreThere};
ghost use Rattle.schedules.specs.Alike.{HasClock, asks_time};
ghost use Rattle.unixmodel.specs.declared.event.Event.TheVariants.{Step};
ghost use Rattle.unixmodel.specs.Calls.{After};
ghost use Rattle.unixmodel.specs.Run.{run};
ghost use Rattle.unixmodel.specs.State.{State, running};

use crate::bounds::Trouble;
use crate::paths::Path;

/// A machine that goes along lists of events from where it began, and what it printed.
pub trait Walker {
    /// The state in which it began.
    ghost start: { Self → State };

    /// The state that it came to, and what was printed.
    ghost reached: { Self → After };

    /// Goes along a list of events, from the beginning on. Returns the status of process 1, if it has ended.
    fn go(&mut self, path: &Path) -> Result<Option<i32>, Trouble>
        ensures reached { OnOk result (reached self.new ≡ run (start self.old) (events_of path.now)) }
        ensures status { IfOk result (λ status. (reached self.new).state.halted ≡ status) }
        ensures start { start self.new ≡ start self.old };

    /// Whether a process runs.
    fn is_running(&self) -> bool
        ensures { result ≡ is_some (running (reached self.now).state) };

    /// Whether no process runs and none is ready.
    fn is_idle(&self) -> bool
        ensures { result ≡ is_idle (reached self.now).state };

    /// Whether a process waits in `sleep`.
    fn is_anyone_asleep(&self) -> bool
        ensures { result ≡ is_anyone_asleep (reached self.now).state };

    /// Whether some process waits in `sleep` for a time that isn't over. A no is right.
    fn is_time_awaited(&self) -> bool
        ensures { result ≡ false → is_time_awaited (reached self.now).state ≡ false };

    /// Whether the process that runs would be picked again after a timer interrupt, and none sleeps: then interrupt and
    /// turn change the clock alone. A yes is right.
    fn gives_turn_back(&self) -> bool
        ensures { result ≡ true → IsTurnBack (reached self.now).state };

    /// Does steps that compute, up to a call or a fault, which isn't done, and at most so many. Returns how many.
    fn compute(&mut self, most: u32) -> Result<u32, Trouble>
        ensures computes { IfOk result (λ count. ComputesUpTo most (reached self.old).state count) }
        ensures reached { IfOk result (λ count. reached self.new ≡ stepped_on count (reached self.old)) }
        ensures start { start self.new ≡ start self.old };

    /// Whether a step may be one in which a process asks for the count of ticks.
    fn may_ask_time(&self) -> bool
        ensures { result ≡ false → asks_time (reached self.now).state Step ≡ false };

    /// The count of ticks is a number of 32 bits.
    fn has_clock(&self)
        ensures { HasClock (reached self.now).state };

    /// Where it began each descriptor names an open file that is there, and each open file on a pipe one that is there.
    fn names_are_there(&self)
        ensures { NamesAreThere (start self.now) };

    /// A number of the state without its clock, to find those that may be like it.
    fn digest(&mut self) -> Result<u64, Trouble>
        ensures reached { OnOk result (reached self.new ≡ reached self.old) }
        ensures start { start self.new ≡ start self.old };

    /// Whether another one printed the same and came to a state that is alike, except that the clocks, and the numbers
    /// of open files and pipes, may differ: a yes is right.
    fn is_like(&mut self, other: &mut Self) -> Result<bool, Trouble>
        ensures like { IfOk result (λ yes. yes ≡ true → IsLike (reached self.old) (reached other.old)) }
        ensures reached { OnOk result (reached self.new ≡ reached self.old) }
        ensures start { start self.new ≡ start self.old }
        ensures other_start { start other.new ≡ start other.old };

    /// Whether another one, of which process 1 ended with the same status or not either, shows the same: a yes is
    /// right.
    fn shows_same(&mut self, other: &mut Self) -> Result<bool, Trouble>
        requires { (reached self.old).state.halted ≡ (reached other.old).state.halted }
        ensures same { IfOk result (λ yes. yes ≡ true → ShowSame (reached self.old) (reached other.old)) }
        ensures reached { OnOk result (reached self.new ≡ reached self.old) }
        ensures start { start self.new ≡ start self.old }
        ensures other_start { start other.new ≡ start other.old };
}
