//! Where a play is.
ghost use Rattle.std.specs.Prelude.{◌≡◌, IfNone, IfSome, option_map, slice_get};
ghost use Rattle.events.specs.Places.{after_deed, begun, closed, first_place, noted, opened};

use crate::grammar::{Act, Deed, MOST_DEPTH};
use arrayvec::ArrayVec;

// A repeat that is open: where it begins, how many rounds are left after this one, and whether this one gave an event.
#[derive(Clone, Copy, Default)]
struct Round {
    start: usize,
    left: u32,
    gave: bool,
}

/// The act that comes next, and the repeats that are open there.
#[derive(Drop)]
pub struct Place {
    at: usize,
    rounds: ArrayVec<Round, MOST_DEPTH>,
}

impl Place {
    /// The first act.
    pub fn new() -> Place
        ensures { result ≡ first_place }
    {
        Place {
            at: 0,
            rounds: ArrayVec::new(),
        }
    }

    // Begins a round.
    fn begin(&mut self, start: usize, left: u32)
        ensures { self.new ≡ begun self.old start left }
    {
        let gave = false;
        let _ = self.rounds.try_push(Round { start, left, gave });
    }

    // A repeat begins.
    fn open(&mut self, times: u32, end: usize)
        ensures { self.new ≡ opened self.old times end }
    {
        match times.checked_sub(1) {
            None => self.at = end,
            Some(left) => self.begin(self.at, left),
        }
    }

    // A round of the innermost repeat ends. One without an event left all as it was, so that no later one would give
    // any: it is the last.
    fn close(&mut self)
        ensures { self.new ≡ closed self.old }
    {
        let Some(Round { start, left, gave }) = self.rounds.pop() else {
            return;
        };
        if !gave {
            return;
        }
        self.note_event();
        if let Some(left) = left.checked_sub(1) {
            self.at = start;
            self.begin(start, left);
        }
    }

    /// The act that came last gave an event.
    pub fn note_event(&mut self)
        ensures { self.new ≡ noted self.old }
    {
        if let Some(Round { start, left, .. }) = self.rounds.pop() {
            let gave = true;
            let _ = self.rounds.try_push(Round { start, left, gave });
        }
    }

    /// The act that comes next; none after the last.
    pub fn next_act<'b, 'a>(&mut self, acts: &'b [Act<'a>]) -> Option<&'b Act<'a>>
        ensures act { option_map (λ act. act.now) result ≡ slice_get acts.now self.old.at }
        ensures goes { IfSome result (λ act. self.new ≡ after_deed self.old act.now.deed) }
        ensures ends { IfNone result (self.new ≡ self.old) }
    {
        let act = acts.get(self.at)?;
        self.at += 1;
        match act.deed {
            Deed::Repeat { times, end } => self.open(times, end),
            Deed::End => self.close(),
            _ => {}
        }
        Some(act)
    }
}
