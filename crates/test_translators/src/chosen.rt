//! Any of the translators that a machine has to bear, as one type: what runs over all of them is one piece of code.
ghost use Rattle.test_translators.specs.Chosen.{held_by};

use crate::counting::Counting;
use crate::noting::Noting;
use ram::{FrameNo, Ram};
use std::alloc::Global;
use std::cell::Cell;
use sv39::{Access, Fault, Pa, Plain, Recent, Tlb, Translate};

/// A kind of translator.
#[derive(Clone, Copy)]
pub enum Kind {
    /// Walks each time.
    Plain,
    /// Remembers what its walks found.
    Tlb,
    /// Remembers what another one returned, which walks each time.
    Recent,
    /// Remembers what another one returned, which remembers what its walks found.
    RecentTlb,
    /// Returns the oldest translation that it may hold, and notes that many pages ahead.
    Noting(u64),
    /// Walks each time, and counts what it is asked for.
    Counting,
}

/// What translators that count have counted.
#[derive(Drop)]
pub struct Counts {
    /// How many fetches they were asked for.
    pub fetches: Cell<u32>,
    /// How often they were fenced.
    pub fences: Cell<u32>,
}

impl Counts {
    /// Nothing was counted yet.
    pub fn new() -> Counts {
        Counts {
            fetches: Cell::new(0),
            fences: Cell::new(0),
        }
    }
}

/// A translator of some kind.
#[derive(Drop)]
pub enum Chosen<'a> {
    Plain(Plain),
    Tlb(Tlb<64>),
    Recent(Recent<Plain>),
    RecentTlb(Recent<Tlb<64>>),
    Noting(Noting),
    Counting(Counting<'a>),
}

impl<'a> Chosen<'a> {
    /// A translator of a kind that holds nothing. If it counts, it does so here.
    pub fn new(alloc: Global, kind: Kind, counts: &'a Counts) -> Chosen<'a> {
        match kind {
            Kind::Plain => Chosen::Plain(Plain::new()),
            Kind::Tlb => Chosen::Tlb(Tlb::new()),
            Kind::Recent => Chosen::Recent(Recent::new(Plain::new())),
            Kind::RecentTlb => Chosen::RecentTlb(Recent::new(Tlb::new())),
            Kind::Noting(ahead) => Chosen::Noting(Noting::new(alloc, ahead)),
            Kind::Counting => Chosen::Counting(Counting::new(&counts.fetches, &counts.fences)),
        }
    }
}

impl Translate for Chosen<'_> {
    ghost held = { held_by };

    fn translate(
        &mut self,
        ram: &Ram,
        root: FrameNo,
        va: u64,
        access: Access,
    ) -> Result<Pa, Fault> {
        match self {
            Chosen::Plain(plain) => plain.translate(ram, root, va, access),
            Chosen::Tlb(tlb) => tlb.translate(ram, root, va, access),
            Chosen::Recent(recent) => recent.translate(ram, root, va, access),
            Chosen::RecentTlb(recent) => recent.translate(ram, root, va, access),
            Chosen::Noting(noting) => noting.translate(ram, root, va, access),
            Chosen::Counting(counting) => counting.translate(ram, root, va, access),
        }
    }

    fn fence(&mut self) {
        match self {
            Chosen::Plain(plain) => plain.fence(),
            Chosen::Tlb(tlb) => tlb.fence(),
            Chosen::Recent(recent) => recent.fence(),
            Chosen::RecentTlb(recent) => recent.fence(),
            Chosen::Noting(noting) => noting.fence(),
            Chosen::Counting(counting) => counting.fence(),
        }
    }
}
