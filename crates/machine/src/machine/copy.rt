//! Copies of a machine, which go on by themselves.
ghost use Rattle.std.specs.Prelude.{◌≡◌, IfOk, IsTrue};
ghost use Rattle.machine.specs.Copies.{IsAsLarge};
ghost use Rattle.std.specs.Bool.{OnTrue, OnFalse};

use super::Machine;
use blockdev::Duplicate;
use ram::NoMemory;
use std::alloc::Global;
use sv39::Translate;

impl<D: Duplicate, T: Translate> Machine<D, T> {
    /// A machine of its own in the same state, on which the same events have the same effects. Neither sees what the
    /// other does afterwards: memory, disk and typed bytes are its own. A machine that has halted or failed
    /// is copied too, and stays so.
    ///
    /// The copy's translator is the caller's, and may be of another kind. It is fenced, so it may hold anything.
    ///
    /// It takes of the host what the machine has: 4098 bytes a frame, 1.5 MiB for decoded words, and the disk with the
    /// blocks that are held of it. Besides boot it is the only call that asks for memory of the host. `NoMemory` where
    /// there isn't that much: this machine is as it was, and the translator is gone.
    pub fn copy<U: Translate>(
        &self,
        alloc: Global,
        translator: U,
    ) -> Result<Machine<D, U>, NoMemory>
        ensures { IfOk result (λ copy. copy ≡ self.now) }
    {
        Ok(Machine {
            kernel: self.kernel.duplicate(alloc, translator)?,
            failed: self.failed,
        })
    }

    /// Becomes a copy of another machine, in the memory that it has: it asks the host for none, and what the other
    /// holds of its disk is written to this disk. Its own translator stays, and is fenced. A machine that has halted or
    /// failed is copied too, and any machine can become a copy.
    ///
    /// False, and nothing changed, exactly where the two have another number of frames or of inodes, or where their
    /// devices can't have the same state, as disks of other sizes. After a failure of a device the numbers of inodes
    /// are those of its image.
    pub fn copy_from<U: Translate>(&mut self, source: &Machine<D, U>) -> bool
        ensures copied { OnTrue result (self.new ≡ source.now) }
        ensures same { OnFalse result (self.new ≡ self.old) }
        ensures large { IsAsLarge source.now self.old → IsTrue result }
        ensures frames { OnTrue result (self.old.state.frame_limit ≡ source.now.state.frame_limit) }
        ensures disks { OnTrue result (self.old.identity ≡ source.now.identity) }
    {
        if !self.kernel.copy_from(&source.kernel) {
            return false;
        }
        self.failed = source.failed;
        true
    }
}
