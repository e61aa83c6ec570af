//! The words of a line.
ghost use Rattle.std.specs.Prelude.{◌≡◌, ◌≤◌, ◌<◌, ◌++◌, ◌∷◌, ℕ, IfOk, IfSome, List, MatchOption, OnOk, drop};
ghost use Rattle.std.specs.Prelude.{length, take};
ghost use Rattle.std.specs.List.{position_or_len};
ghost use Rattle.events.specs.Fields.{IsCount, hex_pair};
ghost use Rattle.events.specs.Words.{HasNone, HasWord, IsEscape, IsInked, IsQuoted, IsSilent, IsSpelled};
ghost use Rattle.events.specs.Words.{IsUnblanked, IsWord};
ghost use Rattle.events.specs.Words.{is_blank};

use crate::fault::{Fault, Why};
use crate::grammar::MOST_SHOWN;
use crate::script::{count, pair_value};
use arrayvec::ArrayVec;

/// The words of a line that are not read yet. Blanks separate words, and a word that begins with `#` begins a comment.
#[derive(Clone, Copy)]
pub struct Words<'a> {
    rest: &'a [u8],
}

// Whether a byte separates words.
fn is_blank(byte: u8) -> bool
    ensures { result ≡ is_blank byte }
{
    byte == b' ' || byte == b'\t'
}

// The bytes after the first `count`.
fn behind(bytes: &[u8], count: usize) -> &[u8]
    ensures { result.now ≡ drop count bytes.now }
{
    bytes.get(count..).unwrap_or(&[])
}

// The bytes without the blanks before them.
fn without_blanks(bytes: &[u8]) -> &[u8]
    ensures { IsUnblanked bytes.now result.now }
{
    match bytes.iter().position(|byte| !is_blank(*byte)) {
        Some(at) => behind(bytes, at),
        None => &[],
    }
}

// How many bytes there are up to the quote that ends a quoted text, with it.
fn quoted_length(bytes: &[u8]) -> Option<usize>
    ensures { IfSome result (λ count. (0 < count) × (count ≤ length bytes.now)) }
{
    let mut is_escaped = false;
    for index in 1..bytes.len() {
        match (is_escaped, bytes[index]) {
            (false, b'"') => return Some(index + 1),
            (false, b'\\') => is_escaped = true,
            _ => is_escaped = false,
        }
    }
    None
}

// How many bytes there are up to the first blank.
fn plain_length(bytes: &[u8]) -> usize
    ensures { result ≡ position_or_len is_blank bytes.now }
{
    match bytes.iter().position(|byte| is_blank(*byte)) {
        Some(at) => at,
        None => bytes.len(),
    }
}

// How long the word is with which the bytes begin, if they begin with one. One that begins with a quote goes to the
// quote that ends it.
fn word_length(bytes: &[u8]) -> Option<usize>
    requires { IsInked bytes.now }
    ensures { MatchOption result (IsSilent bytes.now)
        (λ count. (count ≤ length bytes.now) × IsWord (take count bytes.now) (drop count bytes.now)) }
{
    let (first, _) = bytes.split_first()?;
    match *first {
        b'#' => None,
        b'"' => Some(quoted_length(bytes).unwrap_or(bytes.len())),
        _ => Some(plain_length(bytes)),
    }
}

impl<'a> Words<'a> {
    /// The words of a line.
    pub(crate) fn new(line: &'a [u8]) -> Words<'a>
        ensures { result.rest.now ≡ line.now }
    {
        Words { rest: line }
    }

    /// The next word, if there is one.
    pub(crate) fn next_word(&mut self) -> Option<&'a [u8]>
        ensures { MatchOption result (HasNone self.old.rest.now)
            (λ word. HasWord self.old.rest.now word.now self.new.rest.now) }
    {
        let bytes = without_blanks(self.rest);
        let length = word_length(bytes)?;
        self.rest = behind(bytes, length);
        Some(&bytes[..length])
    }

    /// The next word, which has to follow `after`.
    pub(crate) fn want(&mut self, after: &'a [u8]) -> Result<&'a [u8], Fault<'a>>
        ensures { IfOk result (λ word. HasWord self.old.rest.now word.now self.new.rest.now) }
    {
        match self.next_word() {
            Some(word) => Ok(word),
            None => Err(Fault::at(after, Why::Short)),
        }
    }

    /// The number that has to follow `after`.
    pub(crate) fn number(&mut self, after: &'a [u8]) -> Result<u32, Fault<'a>>
        ensures { IfOk result (λ n. (digits : List ℕ) × HasWord self.old.rest.now digits self.new.rest.now
            × IsCount digits n) }
    {
        let word = self.want(after)?;
        match count(word) {
            Some(number) => Ok(number),
            None => Err(Fault::at(word, Why::Number)),
        }
    }

    /// The word `wanted`, which has to follow `after`.
    pub(crate) fn exactly(&mut self, after: &'a [u8], wanted: &'static str) -> Result<(), Fault<'a>>
        ensures { OnOk result (HasWord self.old.rest.now wanted.now self.new.rest.now) }
    {
        let word = self.want(after)?;
        if word == wanted.as_bytes() {
            Ok(())
        } else {
            Err(Fault::at(word, Why::Wanted(wanted)))
        }
    }

    /// No word is left.
    pub(crate) fn end(mut self) -> Result<(), Fault<'a>>
        ensures { OnOk result (HasNone self.entry.rest.now) }
    {
        match self.next_word() {
            None => Ok(()),
            Some(word) => Err(Fault::at(word, Why::More)),
        }
    }

    /// The bytes that are left after one blank, whatever they are.
    pub(crate) fn text(self) -> &'a [u8]
        ensures { result.now ≡ drop 1 self.entry.rest.now }
    {
        match self.rest.split_first() {
            Some((_blank, text)) => text,
            None => &[],
        }
    }
}

// The byte that two hexadecimal digits write, with which a text begins, and the rest.
fn hex_byte(bytes: &[u8]) -> Option<(u8, &[u8])>
    ensures { IfSome result (λ two. (high : ℕ) × (low : ℕ) × (bytes.now ≡ high ∷ low ∷ two.1.now)
        × (hex_pair high low ≡ Some two.0)) }
{
    match bytes {
        [high, low, rest @ ..] => Some((pair_value(*high, *low)?, rest)),
        _ => None,
    }
}

// The byte that an escape stands for, of which the backslash is left out, and the rest.
fn escaped(bytes: &[u8]) -> Option<(u8, &[u8])>
    ensures { IfSome result (λ two. (code : List ℕ) × (bytes.now ≡ code ++ two.1.now) × IsEscape code two.0) }
{
    let (code, rest) = bytes.split_first()?;
    match *code {
        b'n' => Some((b'\n', rest)),
        b't' => Some((b'\t', rest)),
        b'\\' | b'"' => Some((*code, rest)),
        b'x' => hex_byte(rest),
        _ => None,
    }
}

// The byte that a quoted text begins with, and the rest; `None` at the quote that ends it, and where an escape is
// unknown.
fn first_byte(bytes: &[u8]) -> Option<(u8, &[u8])>
    ensures { IfSome result (λ two. (text : List ℕ) × (bytes.now ≡ text ++ two.1.now) × IsSpelled text two.0) }
{
    let (first, rest) = bytes.split_first()?;
    match *first {
        b'"' => None,
        b'\\' => escaped(rest),
        _ => Some((*first, rest)),
    }
}

// The bytes that a quoted word stands for, up to the quote that ends it.
fn spelled(word: &[u8]) -> Result<ArrayVec<u8, MOST_SHOWN>, Fault<'_>>
    requires { (rest : List ℕ) × (word.now ≡ 0x22 ∷ rest) }
    ensures { IfOk result (λ bytes. IsQuoted word.now bytes.items) }
{
    let mut shown = ArrayVec::new();
    let mut rest = behind(word, 1);
    for _byte in 0..word.len() {
        if rest == b"\"".as_slice() {
            return Ok(shown);
        }
        let Some((byte, after)) = first_byte(rest) else {
            return Err(Fault::at(word, Why::Escape));
        };
        let Ok(()) = shown.try_push(byte) else {
            return Err(Fault::at(word, Why::Length));
        };
        rest = after;
    }
    Err(Fault::at(word, Why::Open))
}

/// The bytes that a quoted word stands for.
pub(crate) fn shown(word: &[u8]) -> Result<ArrayVec<u8, MOST_SHOWN>, Fault<'_>>
    requires { (rest : List ℕ) × (word.now ≡ 0x22 ∷ rest) }
    ensures { IfOk result (λ bytes. IsQuoted word.now bytes.items) }
{
    if quoted_length(word) != Some(word.len()) {
        return Err(Fault::at(word, Why::Open));
    }
    let shown = spelled(word)?;
    if shown.is_empty() {
        return Err(Fault::at(word, Why::Length));
    }
    Ok(shown)
}
