//! What is known of decoded words from run to run.
ghost use Rattle.std.specs.Prelude.{ℕ, IfOk, List, slice_set};
ghost use Rattle.hart.specs.Known.{AreKnown};
ghost use Rattle.hart.specs.Recalled.{Knows};

use crate::decoded::{Decoded, Pages};
use crate::in_page::PART;
use crate::live::{Live, SETS, Set, WAYS};
use crate::operation::Op;
use crate::page::{OPS, Page, WORDS};
use ram::FrameNo;
use std::alloc::{AllocError, Global};

impl Decoded {
    /// With nothing decoded. It takes 1.5 MiB of the host, and asks for no more later.
    pub fn new(alloc: Global) -> Result<Decoded, AllocError>
        ensures { IfOk result (λ decoded. (ram : List (List ℕ)) → Knows decoded ram) }
    {
        let mut all = Vec::with_capacity(alloc, WAYS * SETS)?;
        for _ in 0..WAYS * SETS {
            // the word 0 is no instruction
            all.push(Page {
                words: [0; WORDS],
                ops: [Op::Illegal; OPS],
                parts: [false; WORDS / PART],
            })?;
        }
        let none = Set {
            frames: [0; WAYS],
            last: 0,
        };
        Ok(Decoded {
            pages: Pages {
                sets: [none; SETS],
                all,
            },
            live: Live::new(),
            is_current: false,
        })
    }

    /// Forgets what is known of pages, which holds of no other memory. Their words stay decoded.
    #[inline(always)]
    pub fn forget(&mut self)
        ensures { (ram : List (List ℕ)) → Knows self.new ram }
    {
        self.is_current = false;
    }

    /// Forgets what is known of pages where that of a frame is known, whose bytes are others now.
    #[inline(always)]
    pub fn forget_frame(&mut self, frame: FrameNo)
        ensures { (ram : List (List ℕ)) (bytes : List ℕ) → Knows self.old ram →
            Knows self.new (slice_set ram frame.0 bytes) }
    {
        if self.live.has(frame.0) {
            self.forget();
        }
    }

    /// What is known of pages still holds afterwards: what was forgotten is no longer there.
    #[inline(always)]
    pub(crate) fn recall(&mut self)
        ensures { (ram : List (List ℕ)) → Knows self.old ram →
            AreKnown self.new.live.frames self.new.pages.sets self.new.pages.all.items ram }
    {
        if !self.is_current {
            self.live = Live::new();
            self.is_current = true;
        }
    }
}
