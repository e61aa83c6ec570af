//! Slots that keep translations, which translators share that remember some.
ghost use Rattle.std.specs.Prelude.{◌≡◌, ℕ, ◌+◌, ◌-◌, ◌*◌, ◌/◌, ◌%◌, ◌^◌, ◌<◌, ◌≤◌, ◌≢◌, ◌⊎◌, IfSome, IfNone};
ghost use Rattle.unixmodel.specs.Translation.{Translation};
ghost use Rattle.sv39.specs.Lookaside.{HasSlot, Keeps, KeepsOthers, Misses, IsPlaced, IsWithin, asked, filled};
ghost use Rattle.sv39.specs.Lookaside.{for_access, of_page, set_for};

use crate::Access;
use ram::FrameNo;
use std::marker::Model;

// No address is on this page, which has no number of 52 bits.
const NONE: u64 = u64::MAX;

// Slots that each keep the frame of a page under a root. Pages, roots and frames are in arrays of their own, of numbers
// whose size the processor multiplies an index with.
#[derive(Drop)]
struct Slots<const N: usize> {
    pages: [u64; N],
    roots: [FrameNo; N],
    frames: [FrameNo; N],
}

impl<const N: usize> Model for Slots<N> {
    ghost use Rattle.sv39.specs.Lookaside.{Table};

    ghost Value = { Table };

    ghost view = { λ s. record { pages = s.pages; roots = s.roots; frames = s.frames } };
}

impl<const N: usize> Slots<N> {
    // They keep nothing.
    fn empty() -> Slots<N>
        ensures { (root page frame : ℕ) → ¬ IsPlaced N result root page frame }
    {
        Slots {
            pages: [NONE; N],
            roots: [FrameNo(0); N],
            frames: [FrameNo(0); N],
        }
    }

    // The frame that is kept for a page under a root.
    #[inline(always)]
    fn find(&self, root: FrameNo, page: u64) -> Option<FrameNo>
        requires some { 0 < N }
        requires page { page < 2 ^ 52 }
        ensures found { IfSome result (λ f. IsPlaced N self.now root.0 page f.0) }
        ensures none { IfNone result ((f : ℕ) → ¬ IsPlaced N self.now root.0 page f) }
    {
        let at = (page % N as u64) as usize;
        if (self.pages[at] == page) & (self.roots[at].0 == root.0) {
            Some(self.frames[at])
        } else {
            None
        }
    }

    // Fills the slot of a page.
    fn fill(&mut self, root: FrameNo, page: u64, frame: FrameNo)
        requires { 0 < N }
        ensures is { self.new ≡ filled self.old (page % N) root.0 page frame.0 }
        ensures within { HasSlot self.old (page % N) }
    {
        let at = (page % N as u64) as usize;
        self.pages[at] = page;
        self.roots[at] = root;
        self.frames[at] = frame;
    }

    // Empties a slot.
    fn forget(&mut self, at: usize)
        requires { at < N }
        ensures { (root page frame : ℕ) → IsPlaced N self.new root page frame →
            IsPlaced N self.old root page frame × (page % N ≢ at) }
    {
        self.pages[at] = NONE;
    }
}

// An end after a slot too.
fn end_past(end: usize, at: usize) -> usize
    requires { at + 1 < 2 ^ 64 }
    ensures old { end ≤ result }
    ensures new { at < result }
    ensures bounded { (n : ℕ) → end ≤ n → at < n → result ≤ n }
{
    if at < end { end } else { at + 1 }
}

/// Slots for translations, `N` for each kind of access. A page's slot is its number modulo `N`. From `end` on all
/// are empty, so that clearing them costs what was kept and not what could be.
#[derive(Drop)]
pub struct Places<const N: usize> {
    fetches: Slots<N>,
    loads: Slots<N>,
    stores: Slots<N>,
    end: usize,
}

impl<const N: usize> Model for Places<N> {
    ghost use Rattle.sv39.specs.Lookaside.{Kept, IsWithin};

    ghost Value = { Kept };

    ghost view = { λ p. record { fetches = p.fetches; loads = p.loads; stores = p.stores } };

    ghost invariant = { λ p. IsWithin N (record { fetches = p.fetches; loads = p.loads; stores = p.stores }) p.end };
}

impl<const N: usize> Places<N> {
    /// Slots that keep nothing.
    pub fn new() -> Places<N>
        requires { 0 < N }
        ensures { (t : Translation) → ¬ Keeps N result t }
    {
        Places {
            fetches: Slots::empty(),
            loads: Slots::empty(),
            stores: Slots::empty(),
            end: 0,
        }
    }

    #[inline(always)]
    fn of(&self, access: Access) -> &Slots<N>
        ensures places { result.now ≡ for_access self.now access }
        ensures some { 0 < N }
    {
        match access {
            Access::Fetch => &self.fetches,
            Access::Load => &self.loads,
            Access::Store => &self.stores,
        }
    }

    /// The frame that is kept for the page of an address, under a root and for an access.
    #[inline(always)]
    pub fn kept(&self, root: FrameNo, va: u64, access: Access) -> Option<FrameNo>
        ensures found { IfSome result (λ f. Keeps N self.now (asked root.0 va access f.0)) }
        ensures none { IfNone result (Misses (Keeps N self.now) root.0 va access) }
    {
        self.of(access).find(root, va / 4096)
    }

    // Fills the slot of a page.
    fn put(&mut self, root: FrameNo, page: u64, access: Access, frame: FrameNo)
        requires { page < 2 ^ 52 }
        ensures is { self.new ≡ set_for self.old access (page % N) root.0 page frame.0 }
        ensures within { HasSlot (for_access self.old access) (page % N) }
    {
        let end = self.end;
        let at = (page % N as u64) as usize;
        self.end = end_past(end, at);
        match access {
            Access::Fetch => self.fetches.fill(root, page, frame),
            Access::Load => self.loads.fill(root, page, frame),
            Access::Store => self.stores.fill(root, page, frame),
        }
    }

    /// Keeps the frame of a page in the page's slot.
    pub fn keep(&mut self, root: FrameNo, page: u64, access: Access, frame: FrameNo)
        requires { page < 2 ^ 52 }
        ensures joins { Keeps N self.new (of_page root.0 page access frame.0) }
        ensures stays { KeepsOthers N page (Keeps N self.old) (Keeps N self.new) }
        ensures only { (t : Translation) → Keeps N self.new t →
            Keeps N self.old t ⊎ (t ≡ of_page root.0 page access frame.0) }
    {
        self.put(root, page, access, frame);
    }

    /// Empties all slots.
    pub fn clear(&mut self)
        ensures { (t : Translation) → ¬ Keeps N self.new t }
    {
        let mut end = self.end;
        while end > 0 {
            end -= 1;
            self.fetches.forget(end);
            self.loads.forget(end);
            self.stores.forget(end);
        }
        self.end = 0;
    }
}
