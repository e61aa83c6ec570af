//! Addresses at which a run of many instructions stops.
ghost use Rattle.std.specs.Prelude.{ℕ, IfSome, IsTrue, List, [], is_some, not, ◌≡◌, ◌%◌, ◌<◌, ◌≤◌, ◌↔◌};
ghost use Rattle.hart.specs.Stops.{AreFree, IsClear, IsFree, is_stop, pc_at};

/// Words of a page, from one up to another, which is not one of them.
#[derive(Clone, Copy)]
pub struct Stretch {
    /// The index of the first.
    pub from: usize,
    /// The index after the last.
    pub to: usize,
}

impl Stretch {
    // Whether a word is one of them.
    #[inline(always)]
    fn has_word(self, index: usize) -> bool
        ensures { IsTrue result ↔ ((self.from ≤ index) × (index < self.to)) }
    {
        self.from <= index && index < self.to
    }
}

/// Two stretches of a page without stops. A loop that jumps from one to the other and back asks for neither again.
#[derive(Clone, Copy)]
pub struct Known {
    /// The one that the pc is in.
    pub here: Stretch,
    /// The one that it was in before.
    pub before: Stretch,
}

impl Known {
    // With another one that the pc is in.
    #[inline(always)]
    fn with(self, here: Stretch) -> Known
        ensures { result ≡ record { here = here; before = self.here } }
    {
        Known {
            here,
            before: self.here,
        }
    }
}

/// Addresses at which a run stops. In contracts they are a list.
pub trait Stops {
    ghost addresses: { Self → List ℕ };

    /// Whether there is none.
    fn is_empty(&self) -> bool
        ensures { IsTrue result ↔ addresses self.now ≡ [] };

    /// Whether an address is one of them.
    fn has(&self, address: u64) -> bool
        ensures { result ≡ is_stop (addresses self.now) address };

    /// An index after `k`, up to which no word of the page at `base` after word `k` is at one of them. A page has 1024
    /// words.
    fn clear_to(&self, base: u64, k: usize) -> usize
        requires place { k < 1024 }
        requires page { base % 4096 ≡ 0 }
        ensures within { (k < result) × (result ≤ 1024) }
        ensures clear { IsClear (addresses self.now) base k result };

    /// An index up to which the first of some stretches reaches, or `end` if that comes first.
    fn free_to(&self, known: Known, end: usize) -> usize
        ensures within { result ≤ end }
        ensures after { (k : ℕ) → k < known.here.to → k < end → k < result }
        ensures free { (base : ℕ) → AreFree (addresses self.now) base known →
            IsFree (addresses self.now) base known.here.from result };

    /// Stretches of the page at `base` without any of them, word `index` in the first; none if this word is at one of
    /// them. What is known of such words spares a search.
    fn free_at(&self, base: u64, index: usize, known: Known) -> Option<Known>
        requires place { index < 1024 }
        requires page { base % 4096 ≡ 0 }
        requires known { AreFree (addresses self.now) base known }
        ensures some { is_some result ≡ not (is_stop (addresses self.now) (pc_at base index)) }
        ensures free { IfSome result (AreFree (addresses self.now) base) }
        ensures inside { IfSome result (λ k. (k.here.from ≤ index) × (index < k.here.to)) };
}

/// None.
#[derive(Clone, Copy)]
pub struct NoStops;

impl Stops for NoStops {
    ghost addresses = { λ _. [] };

    #[inline(always)]
    fn is_empty(&self) -> bool {
        true
    }

    #[inline(always)]
    fn has(&self, _address: u64) -> bool {
        false
    }

    #[inline(always)]
    fn clear_to(&self, _base: u64, _k: usize) -> usize {
        1024
    }

    #[inline(always)]
    fn free_to(&self, _known: Known, end: usize) -> usize {
        end
    }

    #[inline(always)]
    fn free_at(&self, _base: u64, _index: usize, known: Known) -> Option<Known> {
        Some(known.with(Stretch { from: 0, to: 1024 }))
    }
}

/// Those of a list.
#[derive(Clone, Copy)]
pub struct Breakpoints<'a> {
    /// The addresses, in any order.
    pub addresses: &'a [u64],
}

// The index of the word at `address`, if it lies after word `k` and before `end` of the page at `base`; else `end`.
#[inline]
fn clear_of(address: u64, base: u64, k: usize, end: usize) -> usize
    requires page { base % 4096 ≡ 0 }
    requires place { (k < end) × (end ≤ 1024) }
    ensures within { (k < result) × (result ≤ end) }
    ensures clear { (j : ℕ) → k < j → j < result → address ≡ pc_at base j → ⊥ }
{
    if address / 4096 * 4096 != base {
        return end;
    }
    let place = (address % 4096 / 4) as usize;
    if place <= k || place >= end {
        return end;
    }
    place
}

impl Stops for Breakpoints<'_> {
    ghost addresses = { λ b. b.addresses.now };

    #[inline(always)]
    fn is_empty(&self) -> bool {
        self.addresses.is_empty()
    }

    fn has(&self, address: u64) -> bool {
        self.addresses.contains(&address)
    }

    fn clear_to(&self, base: u64, k: usize) -> usize {
        let mut end = 1024;
        for address in self.addresses {
            end = clear_of(*address, base, k, end);
        }
        end
    }

    #[inline(always)]
    fn free_to(&self, known: Known, end: usize) -> usize {
        end.min(known.here.to)
    }

    #[inline]
    fn free_at(&self, base: u64, index: usize, known: Known) -> Option<Known> {
        if known.here.has_word(index) {
            return Some(known);
        }
        if known.before.has_word(index) {
            return Some(known.with(known.before));
        }
        if self.has(base.wrapping_add(4 * index as u64)) {
            return None;
        }
        Some(known.with(Stretch {
            from: index,
            to: self.clear_to(base, index),
        }))
    }
}
