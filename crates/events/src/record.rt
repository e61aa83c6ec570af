//! What keeps a record of the events that a machine is given.
ghost use Rattle.std.specs.Prelude.{None};

/// A record of events.
pub trait Record {
    ghost use Rattle.std.specs.Prelude.{Option, ◌≡◌, ◌≤◌, map, replicate};
    ghost use Rattle.events.specs.Records.{Kept, Records};
    ghost use Rattle.events.specs.Fields.{MOST};
    ghost use Rattle.unixmodel.specs.declared.event.Event.TheVariants.{Key, Step, Tick};

    /// The events that are recorded, and whether it may lose some; `None` where they are not known, as after one that
    /// was lost.
    ghost kept: { Self → Option Kept };

    /// What it has besides, and what that is: no event changes it.
    ghost Rest: { Type 0 };

    ghost rest: { Self → Rest };

    /// Records `count` steps after the others.
    fn steps(&mut self, count: u32)
        requires { count ≤ MOST }
        ensures records { Records (kept self.old) (kept self.new) (replicate count Step) }
        ensures rest { rest self.new ≡ rest self.old };

    /// Records `count` ticks after the others.
    fn ticks(&mut self, count: u32)
        requires { count ≤ MOST }
        ensures records { Records (kept self.old) (kept self.new) (replicate count Tick) }
        ensures rest { rest self.new ≡ rest self.old };

    /// Records keys after the others.
    fn keys(&mut self, keys: &[u8])
        ensures records { Records (kept self.old) (kept self.new) (map Key keys.now) }
        ensures rest { rest self.new ≡ rest self.old };
}

/// No record.
#[derive(Clone, Copy)]
pub struct Unrecorded;

impl Record for Unrecorded {
    ghost kept = { λ r. None };

    ghost Rest = { Unit {0} };

    ghost rest = { λ r. tt };

    fn steps(&mut self, _count: u32) {}

    fn ticks(&mut self, _count: u32) {}

    fn keys(&mut self, _keys: &[u8]) {}
}
