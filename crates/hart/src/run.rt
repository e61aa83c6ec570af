//! Many instructions, one after the other.
//!
//! The loop over the operations of a page has the registers, the memory, the translator and the decoded words in
//! references of their own, and the index in the page as a local. A jump in the page leads to another index, and a
//! hart's pc is written where the page is left.
ghost use Rattle.std.specs.Prelude.{◌≡◌, ◌%◌, ◌/◌, ◌<◌, ◌≤◌, ◌+◌, ◌-◌, ◌*◌, ◌^◌, ◌⊎◌, ℕ, length};
ghost use Rattle.std.specs.Prelude.{IfSome, None, Some, slice_index_or, vec_len};
ghost use Rattle.unixmodel.specs.Translation.{HoldsInside};
ghost use Rattle.hart.specs.Acts.{Acts, KeepsLive, goes_to, trap_of};
ghost use Rattle.hart.specs.Known.{AreKnown};
ghost use Rattle.hart.specs.Operations.{op_by};
ghost use Rattle.hart.specs.Recalled.{Knows};
ghost use Rattle.hart.specs.Stops.{AreFree, IsClear, IsLeast, IsOnward, pc_at};
ghost use Rattle.hart.specs.Visits.{GoesAlong, MayGo, MayVisit, RunsOn, Visits};

use crate::access::locate;
use crate::act::{Aligned, Next};
use crate::decoded::{Decoded, Pages};
use crate::in_page::{InPage, PART, Part, Pc};
use crate::live::Live;
use crate::operation::Op;
use crate::page::Page;
use crate::state::Hart;
use crate::stops::{Known, Stops, Stretch};
use ram::{FrameNo, Ram};
use sv39::Translate;
use unixmodel::trap::{Access, Cause, Trap};

// The first of two indices after `k`.
#[inline(always)]
fn first_of(k: usize, limit: usize, end: usize) -> usize
    requires { (k < limit) × (k < end) }
    ensures after { k < result }
    ensures limit { result ≤ limit }
    ensures end { result ≤ end }
{
    if limit < end { limit } else { end }
}

// The index of a word in the page at `base`, if it is there.
#[inline(always)]
fn index_in(base: u64, to: Aligned) -> Option<usize>
    requires { base % 4096 ≡ 0 }
    ensures { IfSome result (λ k. (k < 1024) × (pc_at base k ≡ to)) }
{
    let offset = to.address().wrapping_sub(base);
    if offset >= 4096 {
        return None;
    }
    Some((offset / 4) as usize)
}

// The index of a word in the page at `base`, and stretches without a stop, if it is in the page and at no stop: it is
// in the first of them.
#[inline(always)]
fn goes_to_word<S: Stops>(stops: &S, base: u64, to: Aligned, known: Known) -> Option<(usize, Known)>
    requires page { base % 4096 ≡ 0 }
    requires known { AreFree (S.addresses stops.now) base known }
    ensures { IfSome result (IsOnward (S.addresses stops.now) base to) }
{
    let index = index_in(base, to)?;
    let free = stops.free_at(base, index, known)?;
    Some((index, free))
}

// The same of a word of a page, if it is that page.
#[inline(always)]
fn goes_to_index<S: Stops>(stops: &S, base: u64, to: InPage, known: Known) -> Option<(usize, Known)>
    requires page { base % 4096 ≡ 0 }
    requires known { AreFree (S.addresses stops.now) base known }
    ensures { IfSome result (IsOnward (S.addresses stops.now) base (pc_at to.base to.index)) }
{
    if to.base != base {
        return None;
    }
    let free = stops.free_at(base, to.index, known)?;
    Some((to.index, free))
}

// The index of the word of the page at `base` at which a run goes on, and stretches without a stop, if it is in the
// page and at no stop: it is in the first of them. If nothing jumped this is word `k`.
#[inline(always)]
fn onward<S: Stops>(
    stops: &S,
    base: u64,
    k: usize,
    next: &Next,
    known: Known,
) -> Option<(usize, Known)>
    requires page { base % 4096 ≡ 0 }
    requires known { AreFree (S.addresses stops.now) base known }
    requires from { trap_of next.now ≡ None → known.here.from ≤ k }
    ensures done { IfSome result (λ r. trap_of next.now ≡ None) }
    ensures on { IfSome result (IsOnward (S.addresses stops.now) base (goes_to (pc_at base k) next.now)) }
{
    match *next {
        Next::Behind => within(k, known),
        Next::Stored(_, _) => within(k, known),
        Next::Within(to) => goes_to_index(stops, base, to, known),
        Next::At(to) => goes_to_word(stops, base, to, known),
        Next::Stop(_) => None,
    }
}

// A word, if it is before the end of the first stretch.
#[inline(always)]
fn within(k: usize, known: Known) -> Option<(usize, Known)>
    ensures { IfSome result (λ r. (r.0 ≡ k) × (r.1 ≡ known) × (k < known.here.to)) }
{
    if k < known.here.to {
        Some((k, known))
    } else {
        None
    }
}

// The index up to which operations of the part of word `k` are done at once: the end of the part, or an earlier one
// where no more operations are left or a stretch without a stop ends.
#[inline(always)]
fn end_of<S: Stops, const LEAST: usize>(
    stops: &S,
    free: Known,
    part: Part,
    k: usize,
    left: usize,
) -> usize
    requires least { IsLeast LEAST (S.addresses stops.now) }
    requires part { part ≡ k / 64 }
    requires some { (LEAST ≤ left) × (left < 2 ^ 32) }
    requires free { (free.here.from ≤ k + 1) × (k < free.here.to) }
    ensures after { k < result }
    ensures left { result ≤ k + left }
    ensures end { (result ≤ 64 * part + 64) × (result ≤ 1024) }
    ensures whole { (LEAST ≡ 1) ⊎ (result ≡ 64 * part + 64) }
    ensures clear { (base : ℕ) → AreFree (S.addresses stops.now) base free →
        IsClear (S.addresses stops.now) base k result }
{
    if LEAST == PART {
        return part.end();
    }
    first_of(k, k + left, stops.free_to(free, part.end()))
}

impl Hart {
    // Does the operation of index `k` of the page at address `base`. Of stores only those to known pages are reported.
    #[inline(always)]
    fn obey<T: Translate, Caller>(
        &mut self,
        ops: &[Op],
        live: &Live,
        base: u64,
        k: usize,
        ram: &mut Ram,
        trans: &mut T,
    ) -> Next
        requires inside { HoldsInside (T.held trans.old) ram.old }
        requires place { (k < length ops.now) × (k ≤ 1024) }
        requires page { base % 4096 ≡ 0 }
        ensures acts { (d : Op) → Acts (T.held trans.old) (T.held trans.new)
            (op_by (slice_index_or ops.now k d) self.old.registers (pc_at base k)) result (pc_at base k)
            self.old self.new ram.old ram.new }
        ensures words { KeepsLive result live.now.frames ram.old ram.new }
    {
        let next = self.act::<T, Caller>(&ops[k], Pc { base, index: k }, ram, trans);
        next.seen_live(live)
    }

    // Does operations of a part of the page at `base`, which has frame `f`, from one index to another or to the first
    // that jumps or stores to a known page. Returns how many were done, and where it goes on. Each word is tested for
    // the end where that may lie within the part; after the part's words is an operation that traps.
    #[inline(always)]
    fn straight<T: Translate, Caller, const LEAST: usize>(
        &mut self,
        page: &Page,
        part: Part,
        f: FrameNo,
        live: &Live,
        base: u64,
        from: usize,
        end: usize,
        ram: &mut Ram,
        trans: &mut T,
    ) -> (usize, Next)
        requires can { MayGo (T.held trans.old) ram.old f.0 live.now.frames page.now part from end }
        requires least { (LEAST ≡ 1) ⊎ (end ≡ 64 * part + 64) }
        requires page { base % 4096 ≡ 0 }
        ensures { GoesAlong (T.held trans.old) (T.held trans.new) f.0 live.now.frames base from end self.old self.new
            ram.old ram.new result.0 result.1 }
    {
        let ops = page.ops_of(part);
        let mut k = from;
        'word: loop {
            ram.frames_are_whole();
            match self.obey::<T, Caller>(ops, live, base, k, ram, trans) {
                Next::Behind => {}
                Next::Stored(g, stored) => return (k - from + 1, Next::Stored(g, stored)),
                Next::Within(to) => return (k - from + 1, Next::Within(to)),
                Next::At(to) => return (k - from + 1, Next::At(to)),
                Next::Stop(trap) => {
                    if k == end {
                        return (end - from, Next::Behind);
                    }
                    return (k - from, Next::Stop(trap));
                }
            }
            k += 1;
            if LEAST == 1 && k == end {
                return (end - from, Next::Behind);
            }
        }
    }

    // Does at most `count` operations of the page of the pc, which has frame `f`, until a jump leaves the page, up to a
    // stop, or until fewer than `LEAST` are left. Returns how many are left, and a trap. What is known of pages still
    // holds. Where `LEAST` is 64, as many as a part has, each part that is entered is done to its end.
    #[inline(never)]
    fn run_page<T: Translate, S: Stops, const LEAST: usize>(
        &mut self,
        page: &mut Page,
        f: FrameNo,
        live: &mut Live,
        ram: &mut Ram,
        trans: &mut T,
        count: u32,
        stops: &S,
    ) -> (u32, Option<Trap>)
        requires can { MayVisit (T.held trans.old) ram.old f.0 live.old.frames page.old }
        requires least { IsLeast LEAST (S.addresses stops.now) }
        requires some { LEAST ≤ count }
        ensures { Visits (T.held trans.old) (T.held trans.new) (S.addresses stops.now) page.new f.0 live.old.frames
            live.new.frames self.old self.new ram.old ram.new count result.0 result.1 }
    {
        // worked out here, where the compiler then knows that its low bits are 0
        let base = self.pc / 4096 * 4096;
        let mut k = (self.pc % 4096 / 4) as usize;
        let mut free = Known {
            here: Stretch {
                from: k + 1,
                to: stops.clear_to(base, k),
            },
            before: Stretch { from: 0, to: 0 },
        };
        let mut left = count as usize;
        'jump: while left >= LEAST {
            let part = page.reach(ram, f, k);
            let end = end_of::<S, LEAST>(stops, free, part, k, left);
            let (done, next) = self.straight::<T, [S; LEAST], LEAST>(
                page, part, f, live, base, k, end, ram, trans,
            );
            page.heed(ram, f, &next, live);
            left -= done;
            let at = k + done;
            let Some((index, stretches)) = onward(stops, base, at, &next, free) else {
                self.pc = next.address(base.wrapping_add(4 * at as u64));
                return (left as u32, next.trap());
            };
            free = stretches;
            k = index;
        }
        self.pc = base.wrapping_add(4 * k as u64);
        (left as u32, None)
    }

    // The same where any number is left.
    #[inline(always)]
    fn visit<T: Translate, S: Stops>(
        &mut self,
        page: &mut Page,
        f: FrameNo,
        live: &mut Live,
        ram: &mut Ram,
        trans: &mut T,
        count: u32,
        stops: &S,
    ) -> (u32, Option<Trap>)
        requires can { MayVisit (T.held trans.old) ram.old f.0 live.old.frames page.old }
        requires some { 0 < count }
        ensures { Visits (T.held trans.old) (T.held trans.new) (S.addresses stops.now) page.new f.0 live.old.frames
            live.new.frames self.old self.new ram.old ram.new count result.0 result.1 }
    {
        if stops.is_empty() && count as usize >= PART {
            return self.run_page::<T, S, PART>(page, f, live, ram, trans, count, stops);
        }
        self.run_page::<T, S, 1>(page, f, live, ram, trans, count, stops)
    }

    /// Does at most `count` instructions, up to the first that isn't done or to a stop after the first of them. Returns
    /// how many were done, and the trap of the one that isn't.
    #[inline(always)]
    pub fn run<T: Translate, S: Stops>(
        &mut self,
        ram: &mut Ram,
        trans: &mut T,
        decoded: &mut Decoded,
        count: u32,
        stops: &S,
    ) -> (u32, Option<Trap>)
        requires inside { HoldsInside (T.held trans.old) ram.old }
        requires known { Knows decoded.old ram.old }
        ensures known { Knows decoded.new ram.new }
        ensures runs { RunsOn (T.held trans.old) (T.held trans.new) (S.addresses stops.now) self.old self.new ram.old
            ram.new count result.0 result.1 }
    {
        decoded.recall();
        let Decoded { pages, live, .. } = decoded;
        self.run_pages(ram, trans, pages, live, count, stops)
    }

    // The same, on the pages, of which those of some frames are known.
    #[inline(always)]
    fn run_pages<T: Translate, S: Stops>(
        &mut self,
        ram: &mut Ram,
        trans: &mut T,
        pages: &mut Pages,
        live: &mut Live,
        count: u32,
        stops: &S,
    ) -> (u32, Option<Trap>)
        requires inside { HoldsInside (T.held trans.old) ram.old }
        requires many { vec_len pages.old.all ≡ 128 }
        requires known { AreKnown live.old.frames pages.old.sets pages.old.all.items ram.old }
        ensures many { vec_len pages.new.all ≡ 128 }
        ensures known { AreKnown live.new.frames pages.new.sets pages.new.all.items ram.new }
        ensures runs { RunsOn (T.held trans.old) (T.held trans.new) (S.addresses stops.now) self.old self.new ram.old
            ram.new count result.0 result.1 }
    {
        let mut left = count;
        while left > 0 {
            let Some(f) = locate(trans, ram, self.root, self.pc, Access::Fetch) else {
                let trap = Trap {
                    cause: Cause::InstructionPageFault,
                    address: self.pc,
                };
                return (count - left, Some(trap));
            };
            ram.frames_are_whole();
            let at = pages.place(f.0, live);
            let page = &mut pages.all[at];
            let (rest, stopped) = self.visit(page, f, live, ram, trans, left, stops);
            left = rest;
            if let Some(trap) = stopped {
                return (count - left, Some(trap));
            }
            if stops.has(self.pc) {
                return (count - left, None);
            }
        }
        (count, None)
    }
}
