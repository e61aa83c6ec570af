//! A translator that remembers what another one returned.
ghost use Rattle.std.specs.Prelude.{◌≡◌, ◌+◌, ◌-◌, ◌*◌, ◌/◌, ◌<◌, ◌⊎◌, List, length, IfSome};
ghost use Rattle.unixmodel.specs.Translation.{Translation, IsKept, HoldsNothing, HoldsInside};
ghost use Rattle.sv39.specs.Lookaside.{IsFound, Knows, Remembers};
ghost use Rattle.sv39.specs.Translating.{Asks, RecallsOrAsks, placed};
ghost use Rattle.sv39.specs.Walk.{numbered};

use crate::places::Places;
use crate::{Access, BASE, Fault, Pa, Translate, address};
use ram::{FrameNo, Ram};

// The frame of an address by a translator.
#[inline(always)]
fn frame_by<T: Translate>(
    translator: &mut T,
    ram: &Ram,
    root: FrameNo,
    va: u64,
    access: Access,
) -> Option<FrameNo>
    requires { HoldsInside (T.held translator.old) ram.now }
    ensures found { IsFound (T.held translator.old) ram.now root.0 va access (numbered result) }
    ensures inside { IfSome result (λ f. f.0 < length ram.now) }
    ensures kept { IsKept (T.held translator.old) (T.held translator.new) ram.now root.0 }
{
    ram.frames_are_whole();
    match translator.translate(ram, root, va, access) {
        Ok(physical) => Some(FrameNo((physical / 4096 - BASE) as u32)),
        Err(Fault) => None,
    }
}

/// Asks the translator below, and remembers its results until it is fenced: for each kind of access one in each of 256
/// slots. A page's slot is its number modulo 256, and what is remembered is used only for its root, page and access.
#[derive(Drop)]
pub struct Recent<T: Translate> {
    below: T,
    places: Places<256>,
}

impl<T: Translate> Recent<T> {
    /// A translator over this one that remembers nothing.
    pub fn new(below: T) -> Recent<T>
        ensures below { result.below ≡ below }
        ensures nothing { (t : Translation) → ¬ Remembers result.places t }
    {
        Recent {
            below,
            places: Places::new(),
        }
    }

    /// The translator below.
    pub fn below(&self) -> &T
        ensures { result.now ≡ self.now.below }
    {
        &self.below
    }

    // Asks below, and remembers the result.
    #[cold]
    #[inline(never)]
    fn ask(&mut self, ram: &Ram, root: FrameNo, va: u64, access: Access) -> Option<FrameNo>
        requires { HoldsInside (T.held self.old.below) ram.now }
        ensures { Asks T.held self.old self.new ram.now root.0 va access (numbered result) }
    {
        let frame = frame_by(&mut self.below, ram, root, va, access)?;
        self.places.keep(root, va / 4096, access, frame);
        Some(frame)
    }

    // The frame of an address: what is remembered, or else what the translator below returns. Both paths join here, at
    // a frame, so that the hart's path from the physical address back to it is left out.
    #[inline(always)]
    fn frame(&mut self, ram: &Ram, root: FrameNo, va: u64, access: Access) -> Option<FrameNo>
        requires { HoldsInside (Knows T.held self.old.below self.old.places) ram.now }
        ensures { RecallsOrAsks T.held self.old self.new ram.now root.0 va access (placed va (numbered result)) }
    {
        if let Some(frame) = self.places.kept(root, va, access) {
            return Some(frame);
        }
        self.ask(ram, root, va, access)
    }
}

impl<T: Translate> Translate for Recent<T> {
    ghost held = { λ n. Knows T.held n.below n.places };

    #[inline(always)]
    fn translate(&mut self, ram: &Ram, root: FrameNo, va: u64, access: Access) -> Result<Pa, Fault>
        requires { HoldsInside (Knows T.held self.old.below self.old.places) ram.now }
        ensures { RecallsOrAsks T.held self.old self.new ram.now root.0 va access result }
    {
        match self.frame(ram, root, va, access) {
            Some(frame) => Ok(address(frame, va)),
            None => Err(Fault),
        }
    }

    fn fence(&mut self)
        ensures nothing { HoldsNothing (Knows T.held self.new.below self.new.places) }
    {
        self.below.fence();
        self.places.clear();
    }
}
