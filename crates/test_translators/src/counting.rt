//! A translator that counts what it is asked for.

use ram::{FrameNo, Ram};
use std::cell::Cell;
use sv39::{Access, Fault, Pa, Translate, walk};

/// Walks, and counts the fetches and the fences.
#[derive(Drop)]
pub struct Counting<'a> {
    fetches: &'a Cell<u32>,
    fences: &'a Cell<u32>,
}

impl<'a> Counting<'a> {
    /// A translator that counts in these two cells.
    pub fn new(fetches: &'a Cell<u32>, fences: &'a Cell<u32>) -> Counting<'a> {
        Counting { fetches, fences }
    }
}

impl Translate for Counting<'_> {
    ghost held = { λ _ _. ⊥ };

    fn translate(
        &mut self,
        ram: &Ram,
        root: FrameNo,
        va: u64,
        access: Access,
    ) -> Result<Pa, Fault> {
        if access == Access::Fetch {
            self.fetches.set(self.fetches.get().wrapping_add(1));
        }
        walk(ram, root, va, access)
    }

    fn fence(&mut self) {
        self.fences.set(self.fences.get().wrapping_add(1));
    }
}
