//! The decoded words of a page.
ghost use Rattle.std.specs.Prelude.{◌≡◌, ◌≢◌, ◌<◌, ◌≤◌, ◌+◌, ◌*◌, ◌/◌, ◌%◌, ◌⊎◌, ℕ, List, length, slice_index, true};
ghost use Rattle.ram.specs.Memory.{word_of};
ghost use Rattle.hart.specs.Acts.{IsLive, KeepsLive};
ghost use Rattle.hart.specs.Checked.{AreChecked, AreNow, StayLive};
ghost use Rattle.hart.specs.Operations.{AreDecoded, AreOps};

use crate::act::Next;
use crate::decoding::flatten;
use crate::in_page::{PART, Part};
use crate::live::Live;
use crate::operation::Op;
use ram::{FrameNo, Ram};

/// How many words a page has.
pub const WORDS: usize = 1024;

/// How many operations a page has: those of its words, and one after those of each part.
pub const OPS: usize = WORDS + WORDS / PART;

/// The words of a page and their operations.
#[derive(Drop)]
pub struct Page {
    pub words: [u32; WORDS],
    /// The operations of each part's words, and after them one that is no instruction: what goes on there stops.
    pub ops: [Op; OPS],
    /// Which parts are known to have the words of the page's frame.
    pub parts: [bool; WORDS / PART],
    ghost decoded: { AreDecoded words ops },
}

impl Page {
    #[inline(always)]
    fn decode(&mut self, k: usize, word: u32)
        requires { k < 1024 }
        ensures is { slice_index self.new.words k ≡ word }
        ensures others { (j : ℕ) → (j ≡ k → ⊥) → slice_index self.new.words j ≡ slice_index self.old.words j }
        ensures parts { self.new.parts ≡ self.old.parts }
    {
        self.ops[k + k / PART] = flatten(word);
        self.words[k] = word;
    }

    // Decodes word `k` anew if it is another one now.
    #[inline(always)]
    fn renew(&mut self, k: usize, word: u32)
        requires { k < 1024 }
        ensures is { slice_index self.new.words k ≡ word }
        ensures others { (j : ℕ) → (j ≡ k → ⊥) → slice_index self.new.words j ≡ slice_index self.old.words j }
        ensures parts { self.new.parts ≡ self.old.parts }
    {
        if self.words[k] != word {
            self.decode(k, word);
        }
    }

    // Whether the words from one on are those of a frame, as many as a part has.
    #[inline(always)]
    fn has(&self, ram: &Ram, f: FrameNo, from: usize) -> bool
        requires frame { f.0 < length ram.now }
        requires place { from + 64 ≤ 1024 }
        ensures { result ≡ true → AreNow self.now.words ram.now f.0 from (from + 64) }
    {
        let mut same = true;
        for k in from..from + PART {
            same &= self.words[k] == ram.load_u32(f, 4 * k);
        }
        same
    }

    // Decodes those of some words anew that are others in a frame.
    #[cold]
    #[inline(never)]
    fn renew_all(&mut self, ram: &Ram, f: FrameNo, from: usize, to: usize)
        requires frame { f.0 < length ram.now }
        requires place { (from ≤ to) × (to ≤ 1024) }
        ensures now { AreNow self.new.words ram.now f.0 from to }
        ensures others { (k : ℕ) → (k < from) ⊎ (to ≤ k) →
            slice_index self.new.words k ≡ slice_index self.old.words k }
        ensures parts { self.new.parts ≡ self.old.parts }
    {
        for k in from..to {
            self.renew(k, ram.load_u32(f, 4 * k));
        }
    }

    // The same of as many words as a part has.
    fn refresh(&mut self, ram: &Ram, f: FrameNo, from: usize)
        requires frame { f.0 < length ram.now }
        requires place { from + 64 ≤ 1024 }
        ensures now { AreNow self.new.words ram.now f.0 from (from + 64) }
        ensures others { (k : ℕ) → (k < from) ⊎ (from + 64 ≤ k) →
            slice_index self.new.words k ≡ slice_index self.old.words k }
        ensures parts { self.new.parts ≡ self.old.parts }
    {
        if self.has(ram, f, from) {
            return;
        }
        self.renew_all(ram, f, from, from + PART);
    }

    /// The part of word `k`. Its decoded words are those of the frame: they are checked if that is not known.
    #[inline(always)]
    pub fn reach(&mut self, ram: &Ram, f: FrameNo, k: usize) -> Part
        requires frame { f.0 < length ram.now }
        requires place { k < 1024 }
        requires checked { AreChecked self.old.words ram.now f.0 self.old.parts }
        ensures checked { AreChecked self.new.words ram.now f.0 self.new.parts }
        ensures part { result ≡ k / 64 }
        ensures now { AreNow self.new.words ram.now f.0 (64 * result) (64 * result + 64) }
    {
        let part = Part::of_word(k);
        if !self.parts[part.number()] {
            self.check(ram, f, part.number());
        }
        part
    }

    #[cold]
    #[inline(never)]
    fn check(&mut self, ram: &Ram, f: FrameNo, part: usize)
        requires frame { f.0 < length ram.now }
        requires part { part < 16 }
        requires checked { AreChecked self.old.words ram.now f.0 self.old.parts }
        ensures checked { AreChecked self.new.words ram.now f.0 self.new.parts }
        ensures now { AreNow self.new.words ram.now f.0 (64 * part) (64 * part + 64) }
    {
        self.refresh(ram, f, PART * part);
        self.parts[part] = true;
    }

    // Decodes word `k` and the next one anew after a store to them, if the words of their part are known.
    #[inline(always)]
    fn renew_stored(&mut self, ram: &Ram, f: FrameNo, k: usize)
        requires frame { f.0 < length ram.now }
        requires place { (k % 2 ≡ 0) × (k + 2 ≤ 1024) }
        ensures checked { (before : List (List ℕ)) →
            ((j : ℕ) → j / 2 ≢ k / 2 → word_of ram.now f.0 (4 * j) 4 ≡ word_of before f.0 (4 * j) 4) →
            AreChecked self.old.words before f.0 self.old.parts →
            AreChecked self.new.words ram.now f.0 self.new.parts }
    {
        if self.parts[k / PART] {
            self.renew_all(ram, f, k, k + 2);
        }
    }

    /// After a store, if there was one: words of the page, which has frame `f`, are decoded anew where it stored to
    /// them. A store to another page that is known has all forgotten but this.
    #[inline(always)]
    pub fn heed(&mut self, ram: &Ram, f: FrameNo, next: &Next, live: &mut Live)
        requires frame { f.0 < length ram.now }
        requires live { IsLive live.old.frames f.0 }
        ensures live { IsLive live.new.frames f.0 }
        ensures checked { (before : List (List ℕ)) → KeepsLive next.now live.old.frames before ram.now →
            AreChecked self.old.words before f.0 self.old.parts →
            AreChecked self.new.words ram.now f.0 self.new.parts }
        ensures others { (before : List (List ℕ)) → KeepsLive next.now live.old.frames before ram.now →
            StayLive f.0 live.old.frames live.new.frames before ram.now }
    {
        if let Some((g, k)) = next.stored() {
            if g.0 == f.0 {
                self.renew_stored(ram, f, k);
            } else {
                live.keep_only(f.0);
            }
        }
    }

    /// Forgets all parts, so it is a page of any frame.
    #[inline(always)]
    pub fn forget(&mut self)
        ensures { (ram : List (List ℕ)) (f : ℕ) → AreChecked self.new.words ram f self.new.parts }
    {
        self.parts = [false; WORDS / PART];
    }

    /// The operations of a part, as they were decoded, by the indices of its words in the page, and the one after them.
    #[inline(always)]
    pub fn ops_of(&self, part: Part) -> &[Op]
        ensures { AreOps self.now.words part result.now }
    {
        let ops = &self.ops[..];
        &ops[part.number()..]
    }
}
