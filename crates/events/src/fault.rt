//! Why a play can't be read.

use std::alloc::{AllocError, AllocFailed};
use std::fmt;

/// Why a line can't be read.
#[derive(Clone, Copy)]
pub enum Why {
    /// The first word names no command.
    Command,
    /// More has to follow.
    Short,
    /// Nothing may follow here.
    More,
    /// It is no number of events.
    Number,
    /// It is no pairs of hexadecimal digits.
    Keys,
    /// It is nothing to wait for.
    Goal,
    /// The quoted text has no end.
    Open,
    /// The quoted text has no bytes, or too many.
    Length,
    /// A backslash is followed by something other than `n`, `t`, `\`, `"` or `x` and two digits.
    Escape,
    /// Another word has to be here.
    Wanted(&'static str),
    /// Too many repeats are nested.
    Depth,
    /// The repeat has no end.
    Unended,
    /// No repeat ends here.
    NoRepeat,
    /// Memory ran out.
    NoMemory,
}

impl Why {
    // What is printed of it; of a wanted word, what is printed after the word.
    fn text(self) -> &'static str {
        match self {
            Why::Command => "no such command",
            Why::Short => "more has to follow",
            Why::More => "nothing may follow here",
            Why::Number => "no number up to 1000000000",
            Why::Keys => "no pairs of hexadecimal digits",
            Why::Goal => "no \"text\", prompt, quiet, idle or halt",
            Why::Open => "no quote ends it",
            Why::Length => "no text of 1 to 64 bytes",
            Why::Escape => "an unknown escape",
            Why::Wanted(_) => " is wanted here",
            Why::Depth => "more than 8 in one another",
            Why::Unended => "no } ends it",
            Why::NoRepeat => "no repeat is open",
            Why::NoMemory => "no memory",
        }
    }
}

impl fmt::Display for Why {
    fn fmt<W: fmt::Write>(&self, f: &mut fmt::Formatter<W>) -> fmt::Result {
        let text = self.text();
        match *self {
            Why::Wanted(word) => write!(f, "{word}{text}"),
            _ => write!(f, "{text}"),
        }
    }
}

/// The first word of a line at which it can't be read, and why.
#[derive(Clone, Copy)]
pub struct Fault<'a> {
    pub word: &'a [u8],
    pub why: Why,
}

impl<'a> Fault<'a> {
    /// The word is at fault.
    pub(crate) fn at(word: &'a [u8], why: Why) -> Fault<'a> {
        Fault { word, why }
    }
}

impl From<AllocError> for Fault<'_> {
    fn from(_failed: AllocError) -> Self {
        Fault::at(b"", Why::NoMemory)
    }
}

impl<T: Drop> From<AllocFailed<T>> for Fault<'_> {
    fn from(_failed: AllocFailed<T>) -> Self {
        Fault::at(b"", Why::NoMemory)
    }
}

/// The first line that can't be read.
#[derive(Clone, Copy)]
pub struct PlayFault<'a> {
    /// Its number, from 1 on.
    pub line: usize,
    /// Its word that is at fault.
    pub word: &'a [u8],
    /// Why it is.
    pub why: Why,
}

impl fmt::Display for PlayFault<'_> {
    fn fmt<W: fmt::Write>(&self, f: &mut fmt::Formatter<W>) -> fmt::Result {
        let line = self.line;
        let word = str::from_utf8(self.word).unwrap_or("?");
        let why = self.why;
        write!(f, "{line}: {word}: {why}")
    }
}
