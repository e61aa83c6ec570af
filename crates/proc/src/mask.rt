//! A set of the 64 slots.
ghost use Rattle.std.specs.Prelude.{◌≡◌, ◌+◌, ◌<◌, ◌≤◌, length, slice_set, true, false};
ghost use Rattle.proc.specs.Mask.{Finds, FindsFrom, all_in, is_in};

use std::marker::Model;

/// Some of the 64 slots: a bit of a number for each.
#[derive(Drop)]
pub struct Mask {
    bits: u64,
}

impl Model for Mask {
    ghost use Rattle.std.specs.Prelude.{List, Bool};
    ghost use Rattle.proc.specs.Mask.{bits_of};

    ghost Value = { List Bool };

    ghost view = { λ m. bits_of 64 m.bits };
}

impl Mask {
    /// All slots.
    pub fn all() -> Mask
        ensures { result ≡ all_in 64 }
    {
        Mask { bits: u64::MAX }
    }

    /// The same slots.
    pub fn duplicate(&self) -> Mask
        ensures { result ≡ self.now }
    {
        Mask { bits: self.bits }
    }

    /// Whether a slot is in.
    pub fn has(&self, at: usize) -> bool
        requires { at < 64 }
        ensures { result ≡ is_in self.now at }
    {
        self.bits >> at & 1 == 1
    }

    /// Puts a slot in. Nothing changes past the last slot.
    pub fn set(&mut self, at: usize)
        ensures { self.new ≡ slice_set self.old at true }
    {
        if at < 64 {
            self.bits |= 1 << at;
        }
    }

    /// Takes a slot out.
    pub fn clear(&mut self, at: usize)
        requires { at < 64 }
        ensures { self.new ≡ slice_set self.old at false }
    {
        self.bits &= !(1 << at);
    }

    /// The first turn from `turn` on whose slot is in, in the round that begins after slot `last` and ends at it.
    pub fn next(&self, last: usize, turn: usize) -> Option<usize>
        requires last { last < 64 }
        requires turn { (1 ≤ turn) × (turn ≤ 65) }
        ensures finds { Finds self.now last turn result }
        ensures all { length self.now ≡ 64 }
    {
        let ahead = self.bits.rotate_right(((last + turn) % 64) as u32);
        let next = turn + ahead.trailing_zeros() as usize;
        if next <= 64 { Some(next) } else { None }
    }

    /// The first slot from `from` on that is in.
    pub fn first_from(&self, from: usize) -> Option<usize>
        requires { from ≤ 64 }
        ensures finds { FindsFrom self.now from result }
        ensures all { length self.now ≡ 64 }
    {
        match self.next(63, from + 1) {
            Some(turn) => Some(turn - 1),
            None => None,
        }
    }
}
