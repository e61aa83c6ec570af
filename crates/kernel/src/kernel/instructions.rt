//! Many instructions of the running process.
ghost use Rattle.std.specs.Prelude.{◌≡◌, ◌<◌, ◌≤◌, Err, IfNone, IfSome};
ghost use Rattle.hart.specs.Stops.{EndsAt};
ghost use Rattle.kernel.specs.Kernel.{HasCurrent, current};
ghost use Rattle.spaces.specs.Instructions.{Advances};
ghost use Rattle.spaces.specs.Spaces.{cycle_at};

use crate::kernel::Kernel;
use blockdev::BlockDev;
use hart::Stops;
use sv39::Translate;
use unixmodel::trap::Trap;

impl<D: BlockDev, T: Translate> Kernel<D, T> {
    /// Does at most `count` instructions of the running process, up to the first that isn't done or to a stop after the
    /// first of them. Returns how many were done, and why the next one isn't.
    pub fn execute_many<S: Stops>(&mut self, count: u32, stops: &S) -> (u32, Option<Trap>)
        requires { HasCurrent self.old }
        ensures done { Advances (S.addresses stops.now) result.0 self.old.spaces (current self.old) self.new.spaces
            × (self.new ≡ record self.old { spaces = self.new.spaces }) }
        ensures within { result.0 ≤ count }
        ensures ends { IfNone result.1 (EndsAt (S.addresses stops.now) count result.0 self.new.spaces.pc) }
        ensures trap { IfSome result.1
            (λ t. (result.0 < count) × (cycle_at self.new.spaces (current self.old) ≡ Err t)) }
    {
        self.spaces.execute_many(count, stops)
    }
}
