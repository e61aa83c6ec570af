//! What a session is held with: a keyboard, and a record of what the machine is given.

use arrayvec::ArrayVec;
use blockdev::BlockDev;
use events::Record;
use machine::Machine;
use sv39::Translate;
use unixmodel::limits::MOST_KEYS;

/// What a keyboard gives when it is asked.
#[derive(Drop)]
pub enum Given {
    /// Keys, in the order in which they were typed.
    Keys(ArrayVec<u8, MOST_KEYS>),
    /// No key, and time has passed.
    Nothing,
    /// No key, but the wish to see the processes.
    Show,
    /// No key, and none will come.
    End,
}

/// What the machine does while its keyboard is asked.
#[derive(Clone, Copy, PartialEq, Eq, Debug)]
pub enum Mood {
    /// A process runs or is ready.
    Busy,
    /// None is, and one waits in `sleep`.
    Asleep,
    /// None is, and time alone changes nothing.
    Idle,
}

/// A keyboard, and a record of what the machine is given.
pub trait Terminal: Record {
    ghost use Rattle.std.specs.Prelude.{List, Option, [], option_map, ◌∷◌, ◌≡◌};
    ghost use Rattle.events.specs.Records.{Records};
    ghost use Rattle.driver.specs.declared.terminal.Given.{Given};

    /// What the keyboard will give, where that is known.
    ghost gives: { Self → Option (List Given) };

    /// What was typed since the keyboard was last asked. It may wait for that, but only a short time while the machine
    /// is busy. No event is recorded meanwhile; a record that may lose some may be written out, and be lost.
    fn ask(&mut self, mood: Mood) -> Given
        ensures gives { gives self.old ≡ option_map (λ rest. result ∷ rest) (gives self.new) }
        ensures kept { Records (Self.kept self.old) (Self.kept self.new) [] };

    /// Shows the processes of the machine, as the keyboard asked for.
    fn show<D: BlockDev, T: Translate>(&mut self, machine: &Machine<D, T>)
        ensures kept { Self.kept self.new ≡ Self.kept self.old }
        ensures gives { gives self.new ≡ gives self.old };

    // It is not part of the record.
    ghost is_beside: { (a b : Self) → Self.rest a ≡ Self.rest b → gives a ≡ gives b };
}
