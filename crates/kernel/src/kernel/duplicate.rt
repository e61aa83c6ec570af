//! Copies of a kernel, which go on by themselves.
ghost use Rattle.std.specs.Prelude.{◌≡◌, ◌↔◌, IfOk, IsTrue};
ghost use Rattle.std.specs.Bool.{OnTrue, OnFalse};
ghost use Rattle.kernel.specs.Kernel.{HasRoomFor, IsAsLarge};

use crate::kernel::Kernel;
use blockdev::Duplicate;
use ram::NoMemory;
use std::alloc::Global;
use sv39::Translate;

impl<D: Duplicate, T: Translate> Kernel<D, T> {
    /// The same kernel over a duplicate of the memory and of the disk, with a translator of its own, which is fenced:
    /// it may hold anything.
    ///
    /// `NoMemory` where the host has none for them.
    pub fn duplicate<U: Translate>(
        &self,
        alloc: Global,
        translator: U,
    ) -> Result<Kernel<D, U>, NoMemory>
        ensures { IfOk result (λ kernel. kernel ≡ self.now) }
    {
        let Ok(table) = self.table.duplicate(alloc) else {
            return Err(NoMemory);
        };
        let spaces = self.spaces.duplicate(alloc, translator)?;
        match self.tree.duplicate(alloc) {
            Ok(tree) => Ok(Kernel {
                tree,
                table,
                spaces,
                files: self.files.duplicate(),
                console: self.console.duplicate(),
                ticks: self.ticks,
                halted: self.halted,
            }),
            Err(_) => Err(NoMemory),
        }
    }

    /// Becomes the same kernel over a copy of the memory and of the disk, in the memory of the host that it has; its
    /// own translator is fenced. False exactly where the two have another number of frames or of numbers of nodes, or
    /// where the devices can't have the same state; nothing changed then.
    pub fn copy_from<U: Translate>(&mut self, source: &Kernel<D, U>) -> bool
        ensures fits { IsTrue result ↔ HasRoomFor source.now self.old }
        ensures large { IsAsLarge source.now self.old → IsTrue result }
        ensures copied { OnTrue result (self.new ≡ source.now) }
        ensures same { OnFalse result (self.new ≡ self.old) }
    {
        if self.spaces.frame_count() != source.spaces.frame_count() {
            return false;
        }
        if !self.tree.copy_from(&source.tree) {
            return false;
        }
        self.spaces.copy_from(&source.spaces);
        self.table.copy_from(&source.table);
        self.files = source.files.duplicate();
        self.console = source.console.duplicate();
        self.ticks = source.ticks;
        self.halted = source.halted;
        true
    }
}
