//! The folder in which a file is replaced.
ghost use Rattle.std.specs.Prelude.{◌≢◌, IfErr, None, OnErr, OnOk, Option, Some};
ghost use Rattle.safe_files.specs.Steps.{Begins, Held, IsSame, IsSynced, Known, Moves, RefusesName, Sets, Spoils};
ghost use Rattle.safe_files.specs.Steps.{SweepsAt, Syncs, Writes};

use crate::fault::StepFault;

/// What became of a file that a program may have left as it was killed.
#[derive(Clone, Copy, Debug, PartialEq, Eq)]
pub enum Swept {
    /// There is none of the name.
    Absent,
    /// Nobody held it, and it is removed.
    Removed,
    /// It stays: a program holds it, or it can't be removed.
    Kept,
}

/// A folder: files by their names, of which the one that was begun last can be written.
/// A step that is refused changes nothing, except a write, which may have written a part.
pub trait Folder {
    /// What the names hold, where that is known.
    ghost held: { Self → Option Held } = { λ _. None };

    /// Begins a file of this name, which nothing may have yet: `Taken` where something has it.
    fn create_new(&mut self, name: &str) -> Result<(), StepFault>
        ensures ok { OnOk result (Known (Begins name.now) (held self.old) (held self.new)) }
        ensures err { IfErr result (λ fault. Known (RefusesName name.now fault) (held self.old) (held self.new)) };

    /// Writes these bytes, all of them, at the end of the file that was begun last.
    fn write(&mut self, bytes: &[u8]) -> Result<(), StepFault>
        ensures ok { OnOk result (Known (Writes bytes.now) (held self.old) (held self.new)) }
        ensures err { OnErr result (Known Spoils (held self.old) (held self.new)) };

    /// Waits until what was written to the file that was begun last is on the disk.
    fn sync_all(&mut self) -> Result<(), StepFault>
        ensures ok { OnOk result (Known Syncs (held self.old) (held self.new)) }
        ensures err { OnErr result (Known IsSame (held self.old) (held self.new)) };

    /// Gives the file that was begun last, and is on the disk, another name; a file that has the name is replaced.
    /// At no moment has neither the name.
    fn rename(&mut self, one: &str, other: &str) -> Result<(), StepFault>
        requires apart { one.now ≢ other.now }
        requires synced { IsSynced (held self.old) }
        ensures ok { OnOk result (Known (Moves one.now other.now) (held self.old) (held self.new)) }
        ensures err { OnErr result (Known IsSame (held self.old) (held self.new)) };

    /// Removes the file of this name.
    fn remove_file(&mut self, name: &str) -> Result<(), StepFault>
        ensures ok { OnOk result (Known (Sets name.now None) (held self.old) (held self.new)) }
        ensures err { OnErr result (Known IsSame (held self.old) (held self.new)) };

    /// Removes the file of this name if no program holds it: the one that began it was killed.
    fn sweep(&mut self, name: &str) -> Swept
        ensures { Known (SweepsAt name.now result) (held self.old) (held self.new) };
}
