//! A translator that remembers what it found, so that most accesses need no walk.
ghost use Rattle.std.specs.Prelude.{◌≡◌, ◌+◌, ◌-◌, ◌*◌, ◌/◌, ◌%◌, ◌^◌, ◌<◌, ◌⊎◌};
ghost use Rattle.unixmodel.specs.Translation.{Translation, HoldsNothing};
ghost use Rattle.sv39.specs.Lookaside.{Keeps};
ghost use Rattle.sv39.specs.Translating.{RecallsOrWalks, Walks, placed};
ghost use Rattle.sv39.specs.Walk.{numbered};

use crate::places::Places;
use crate::{Access, Fault, Pa, Translate, address, walked};
use ram::{FrameNo, Ram};
use std::marker::Model;

/// Remembers translations, for each kind of access one in each of `N` slots. A page's slot is its number
/// modulo `N`, and what is remembered is used only for its root, page and access.
#[derive(Drop)]
pub struct Tlb<const N: usize> {
    places: Places<N>,
    reads: u64,
}

impl<const N: usize> Model for Tlb<N> {
    ghost use Rattle.sv39.specs.Lookaside.{Cache};

    ghost Value = { Cache };

    ghost view = { λ tlb. record { kept = tlb.places; reads = tlb.reads } };
}

impl<const N: usize> Tlb<N> {
    /// A translator that remembers nothing.
    pub fn new() -> Tlb<N>
        requires { 0 < N }
        ensures reads { result.reads ≡ 0 }
        ensures nothing { (t : Translation) → ¬ Keeps N result.kept t }
    {
        Tlb {
            places: Places::new(),
            reads: 0,
        }
    }

    /// How many entries of tables it has read, modulo 2^64.
    pub fn reads(&self) -> u64
        ensures { result ≡ self.now.reads }
    {
        self.reads
    }

    // Walks, and remembers what it finds.
    #[inline(never)]
    fn look_up(&mut self, ram: &Ram, root: FrameNo, page: u64, access: Access) -> Option<FrameNo>
        requires { page < 2 ^ 52 }
        ensures { Walks N self.old self.new ram.now root.0 page access (numbered result) }
    {
        let walked = walked(ram, root, page, access);
        self.reads = self.reads.wrapping_add(u64::from(walked.count));
        if let Some(frame) = walked.frame {
            self.places.keep(root, page, access, frame);
        }
        walked.frame
    }

    // The frame of an address: what is kept, or else what a walk finds. Both paths join here, at a frame, so that the
    // hart's path from the physical address back to it is left out.
    #[inline(always)]
    fn frame(&mut self, ram: &Ram, root: FrameNo, va: u64, access: Access) -> Option<FrameNo>
        ensures { RecallsOrWalks N self.old self.new ram.now root.0 va access (placed va (numbered result)) }
    {
        if let Some(frame) = self.places.kept(root, va, access) {
            return Some(frame);
        }
        self.look_up(ram, root, va / 4096, access)
    }
}

impl<const N: usize> Translate for Tlb<N> {
    ghost held = { λ tlb. Keeps N tlb.kept };

    #[inline(always)]
    fn translate(&mut self, ram: &Ram, root: FrameNo, va: u64, access: Access) -> Result<Pa, Fault>
        ensures { RecallsOrWalks N self.old self.new ram.now root.0 va access result }
    {
        match self.frame(ram, root, va, access) {
            Some(frame) => Ok(address(frame, va)),
            None => Err(Fault),
        }
    }

    fn fence(&mut self)
        ensures nothing { HoldsNothing (Keeps N self.new.kept) }
        ensures reads { self.new.reads ≡ self.old.reads }
    {
        self.places.clear();
    }
}
