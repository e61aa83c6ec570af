//! Decoded words of frames.
ghost use Rattle.std.specs.Prelude.{◌≡◌, ◌<◌, ℕ, List, vec_len};
ghost use Rattle.hart.specs.Acts.{IsLive};
ghost use Rattle.hart.specs.Known.{AreKnown, IsPage};

use crate::live::{Live, SETS, Set, WAYS};
use crate::page::Page;

/// Decoded words of as many frames as fit: each frame has one of the four pages of its number modulo 32, where a word
/// is decoded anew if there is another one.
///
/// Which pages have the words of their frames is known from run to run, as long as nobody else writes the memory: who
/// does has it forgotten.
#[derive(Drop)]
pub struct Decoded {
    pub(crate) pages: Pages,
    // The frames whose pages are known.
    pub(crate) live: Live,
    // Whether they still are.
    pub(crate) is_current: bool,
    ghost many: { vec_len pages.all ≡ 128 },
}

/// Pages of as many frames as fit.
#[derive(Drop)]
pub struct Pages {
    pub sets: [Set; SETS],
    pub all: Vec<Page>,
}

impl Pages {
    /// Where a frame's page is, which is known afterwards.
    #[inline(always)]
    pub fn place(&mut self, frame: u32, live: &mut Live) -> usize
        requires many { vec_len self.old.all ≡ 128 }
        requires frame { frame < 4294967295 }
        ensures many { vec_len self.new.all ≡ 128 }
        ensures within { result < 128 }
        ensures page { IsPage self.new.sets frame result }
        ensures live { IsLive live.new.frames frame }
        ensures known { (ram : List (List ℕ)) → AreKnown live.old.frames self.old.sets self.old.all.items ram →
            AreKnown live.new.frames self.new.sets self.new.all.items ram }
    {
        let set = (frame % 32) as usize;
        if live.has(frame) {
            return WAYS * set + self.sets[set].last;
        }
        live.note(frame);
        self.sets[set].choose(frame);
        let at = WAYS * set + self.sets[set].last;
        self.all[at].forget();
        at
    }
}
