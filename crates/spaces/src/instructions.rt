//! Many instructions of the process of the active slot.
ghost use Rattle.std.specs.Prelude.{◌≡◌, ◌<◌, ◌≤◌, Err, IfNone, IfSome, is_some, true};
ghost use Rattle.std.specs.Bool.{OnFalse};
ghost use Rattle.hart.specs.Stops.{EndsAt, is_stop};
ghost use Rattle.spaces.specs.Instructions.{Advances, RunsActive};
ghost use Rattle.spaces.specs.Spaces.{Executes, Traps, view_at};
ghost use Rattle.unixmodel.specs.declared.trap.Cause.TheVariants.{StorePageFault};
ghost use Rattle.unixmodel.specs.Cycle.{cycle};

use crate::Spaces;
use hart::Stops;
use sv39::Translate;
use unixmodel::trap::{Cause, Trap};

// Whether a store faulted.
fn is_store_fault(cause: Cause) -> bool
    ensures { OnFalse result (cause ≡ StorePageFault → ⊥) }
{
    match cause {
        Cause::StorePageFault => true,
        _ => false,
    }
}

impl<T: Translate> Spaces<T> {
    // Whether the pc is at a stop.
    #[inline(always)]
    fn is_at<S: Stops>(&self, stops: &S) -> bool
        ensures { result ≡ is_stop (S.addresses stops.now) self.now.pc }
    {
        stops.has(self.hart.pc)
    }

    // Does at most `count` instructions in the memory of the active slot, up to the first that its pages don't let
    // through or to a stop. Returns how many were done, and the trap of the next one. A store that faulted may be one
    // to a closed page, which `execute` does.
    #[inline(always)]
    fn run<S: Stops>(&mut self, count: u32, stops: &S) -> (u32, Option<Trap>)
        requires { is_some self.old.active ≡ true }
        ensures { RunsActive (S.addresses stops.now) self.old self.new count result.0 result.1 }
    {
        self.memory.ram.frames_are_whole();
        self.hart.run(
            &mut self.memory.ram,
            &mut self.translator,
            &mut self.decoded,
            count,
            stops,
        )
    }

    // What `execute` does, out of line: few instructions need it, and the path of the others is short.
    #[inline(never)]
    fn execute_one(&mut self) -> Option<Trap>
        requires { is_some self.old.active ≡ true }
        ensures done { IfNone result (IfSome self.old.active (Executes self.old self.new)) }
        ensures trap { IfSome result (λ t. IfSome self.old.active (λ at. Traps self.old self.new at t)) }
    {
        self.execute()
    }

    /// Does at most `count` instructions in the memory of the active slot, up to the first that isn't done or to a stop
    /// after the first of them. Returns how many were done, and why the next one isn't. Each is done as
    /// `execute` does it.
    #[inline(always)]
    pub fn execute_many<S: Stops>(&mut self, count: u32, stops: &S) -> (u32, Option<Trap>)
        requires { is_some self.old.active ≡ true }
        ensures done { IfSome self.old.active (λ at. Advances (S.addresses stops.now) result.0 self.old at self.new) }
        ensures within { result.0 ≤ count }
        ensures ends { IfNone result.1 (EndsAt (S.addresses stops.now) count result.0 self.new.pc) }
        ensures trap { IfSome result.1 (λ t. (result.0 < count) ×
            IfSome self.old.active (λ at. cycle self.new.registers self.new.pc (view_at self.new at).memory ≡ Err t)) }
    {
        let (done, stopped) = self.run(count, stops);
        let Some(Trap { cause, address }) = stopped else {
            return (done, None);
        };
        if is_store_fault(cause) {
            let (more, stopped) = self.execute_behind(count - done, stops);
            return (done + more, stopped);
        }
        (done, Some(Trap { cause, address }))
    }

    // The same, where the first may be a store to a closed page. It is out of line: few instructions need it, and
    // the path from a call to the next is short.
    #[inline(never)]
    fn execute_behind<S: Stops>(&mut self, count: u32, stops: &S) -> (u32, Option<Trap>)
        requires { is_some self.old.active ≡ true }
        ensures done { IfSome self.old.active (λ at. Advances (S.addresses stops.now) result.0 self.old at self.new) }
        ensures within { result.0 ≤ count }
        ensures ends { IfNone result.1 (EndsAt (S.addresses stops.now) count result.0 self.new.pc) }
        ensures trap { IfSome result.1 (λ t. (result.0 < count) ×
            IfSome self.old.active (λ at. cycle self.new.registers self.new.pc (view_at self.new at).memory ≡ Err t)) }
    {
        let mut left = count;
        while left > 0 {
            if let Some(trap) = self.execute_one() {
                return (count - left, Some(trap));
            }
            left -= 1;
            if self.is_at(stops) {
                return (count - left, None);
            }
            let (done, stopped) = self.run(left, stops);
            left -= done;
            let Some(trap) = stopped else {
                return (count - left, None);
            };
            if !is_store_fault(trap.cause) {
                return (count - left, Some(trap));
            }
        }
        (count, None)
    }
}
