//! A memory and who holds its frames, as one value.
#![tactic(auto)]

ghost use Rattle.std.specs.Prelude.{◌≡◌, [], IfOk, length};
ghost use Rattle.std.specs.List.{range_with_len};
ghost use Rattle.frames.specs.Owned.{free_of, IsDuplicate, IsFreeList, IsShared};

use crate::Frames;
use ram::{NoMemory, Ram};
use std::alloc::Global;

/// A memory and who holds its frames.
#[derive(Drop)]
pub struct Memory {
    /// The bytes.
    pub ram: Ram,
    /// The free frames and the counts of holders.
    pub frames: Frames,
}

impl Memory {
    /// A memory of which all frames are free; the lowest is taken first.
    ///
    /// The counts take 2 bytes a frame of the host: `NoMemory` where it has none for them.
    pub fn new(alloc: Global, ram: Ram) -> Result<Memory, NoMemory>
        ensures all { IfOk result (λ m. free_of m ≡ range_with_len 0 (length ram)) }
        ensures valid { IfOk result IsFreeList }
        // nobody holds a frame
        ensures shared { IfOk result (λ m. IsShared m []) }
        ensures count { IfOk result (λ m. length m.ram ≡ length ram) }
    {
        let mut ram = ram;
        let frames = Frames::new(alloc, &mut ram)?;
        Ok(Memory { ram, frames })
    }

    /// A memory of its own with the same bytes and the same holders. It takes 4098 bytes a frame of the host.
    pub fn duplicate(&self, alloc: Global) -> Result<Memory, NoMemory>
        ensures { IfOk result (IsDuplicate self.now) }
    {
        let ram = self.ram.duplicate(alloc)?;
        let frames = self.frames.duplicate(alloc)?;
        Ok(Memory { ram, frames })
    }

    /// Becomes a copy of a memory of as many frames.
    pub fn copy_from(&mut self, source: &Memory)
        requires ram { length self.old.ram ≡ length source.now.ram }
        requires counts { length self.old.frames.holders.items ≡ length source.now.frames.holders.items }
        ensures { IsDuplicate source.now self.new }
    {
        self.ram.copy_from(&source.ram);
        self.frames.copy_from(&source.frames);
    }
}
