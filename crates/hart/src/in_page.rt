//! Addresses by their page and their index in it.
ghost use Rattle.std.specs.Prelude.{◌≡◌, ◌%◌, ◌*◌, ◌+◌, ◌/◌, ◌<◌, ◌≤◌, IfSome};
ghost use Rattle.unixmodel.specs.Numbers.{extend, plus};
ghost use Rattle.hart.specs.Stops.{pc_at};

use crate::bits;
use std::marker::Model;

/// How many words a part of a page has.
pub const PART: usize = 64;

/// A part of a page, by its number.
#[derive(Clone, Copy)]
pub struct Part {
    number: usize,
}

impl Model for Part {
    ghost use Rattle.std.specs.Prelude.{ℕ, ◌<◌};

    ghost Value = { ℕ };

    ghost view = { λ p. p.number };

    ghost invariant = { λ p. p.number < 16 };

    ghost inverse = { λ n. record { number = n } };
}

impl Part {
    /// That of word `k`.
    #[inline(always)]
    pub fn of_word(k: usize) -> Part
        requires { k < 1024 }
        ensures { result ≡ k / 64 }
    {
        Part { number: k / PART }
    }

    /// Its number.
    #[inline(always)]
    pub fn number(self) -> usize
        ensures is { result ≡ self }
        ensures within { result < 16 }
    {
        self.number
    }

    /// The index after its last word.
    #[inline(always)]
    pub fn end(self) -> usize
        ensures is { result ≡ 64 * self + 64 }
        ensures within { result ≤ 1024 }
    {
        PART * self.number + PART
    }
}

/// Two words of a page at a multiple of 8 bytes, by their number: an aligned access lies in one of them.
#[derive(Clone, Copy)]
pub struct Doubleword {
    number: usize,
}

impl Model for Doubleword {
    ghost use Rattle.std.specs.Prelude.{ℕ, ◌<◌};

    ghost Value = { ℕ };

    ghost view = { λ d. d.number };

    ghost invariant = { λ d. d.number < 512 };

    ghost inverse = { λ n. record { number = n } };
}

impl Doubleword {
    /// That of an address.
    #[inline(always)]
    pub fn of(address: u64) -> Doubleword
        ensures { result ≡ address % 4096 / 8 }
    {
        Doubleword {
            number: (address % 4096 / 8) as usize,
        }
    }

    /// The index of its first word.
    #[inline(always)]
    pub fn word(self) -> usize
        ensures is { result ≡ 2 * self }
        ensures within { result + 2 ≤ 1024 }
    {
        2 * self.number
    }
}

/// The address of a word of a page.
#[derive(Clone, Copy)]
pub struct InPage {
    /// The address of the page.
    pub base: u64,
    /// The index of the word there.
    pub index: usize,
    ghost inside: { index < 1024 },
    ghost start: { base % 4096 ≡ 0 },
}

impl InPage {
    /// The number.
    #[inline(always)]
    pub fn address(self) -> u64
        ensures is { result ≡ pc_at self.base self.index }
        ensures aligned { result % 4 ≡ 0 }
    {
        self.base.wrapping_add(4 * self.index as u64)
    }
}

/// A pc as a page and an index in it, which may be the one after the page's last word. The address is added up only
/// where it is asked for, which few operations do.
#[derive(Clone, Copy)]
pub struct Pc {
    /// The address of the page.
    pub base: u64,
    /// The index of the word there.
    pub index: usize,
    ghost inside: { index ≤ 1024 },
    ghost start: { base % 4096 ≡ 0 },
}

impl Pc {
    /// That of an address.
    #[inline(always)]
    pub fn of(pc: u64) -> Pc
        requires { pc % 4 ≡ 0 }
        ensures { pc_at result.base result.index ≡ pc }
    {
        Pc {
            base: pc / 4096 * 4096,
            index: (pc % 4096 / 4) as usize,
        }
    }

    /// The number.
    #[inline(always)]
    pub fn address(self) -> u64
        ensures is { result ≡ pc_at self.base self.index }
        ensures aligned { result % 4 ≡ 0 }
    {
        self.base.wrapping_add(4 * self.index as u64)
    }

    /// The word that lies at an offset from this one, if it is in the same page.
    #[inline(always)]
    pub fn word_by(self, imm: u32) -> Option<InPage>
        ensures { IfSome result (λ to. pc_at to.base to.index ≡ plus (pc_at self.base self.index) (extend 32 imm)) }
    {
        let place = (4 * self.index as u64).wrapping_add(bits::extend_u32(imm));
        if place % 4 != 0 || place >= 4096 {
            return None;
        }
        Some(InPage {
            base: self.base,
            index: (place / 4) as usize,
        })
    }
}
