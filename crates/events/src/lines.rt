//! The lines of a text, and what they say, one after the other.
ghost use Rattle.std.specs.Prelude.{◌≡◌, ◌++◌, List, ℕ, IfErr, IfOk, MatchOption, map};
ghost use Rattle.events.specs.Lines.{AreSaid, IsFaultOf, lines_of};

use std::alloc::{AllocError, AllocFailed, Global};

/// Why a text can't be read.
#[derive(Clone, Copy)]
pub enum TextFault {
    /// The line of this number, from 1 on, can't be read.
    Line(usize),
    /// Memory ran out.
    NoMemory,
}

impl<T: Drop> From<AllocFailed<T>> for TextFault {
    ghost use Rattle.events.specs.declared.lines.TextFault.TheVariants as fault;

    ghost from_gives = { λ _ e. e ≡ fault.NoMemory };

    fn from(_failed: AllocFailed<T>) -> Self {
        TextFault::NoMemory
    }
}

impl From<AllocError> for TextFault {
    ghost use Rattle.events.specs.declared.lines.TextFault.TheVariants as fault;

    ghost from_gives = { λ _ e. e ≡ fault.NoMemory };

    fn from(_failed: AllocError) -> Self {
        TextFault::NoMemory
    }
}

/// What a line can say.
pub trait FromLine<'a>: Sized + Drop {
    /// It is what the line says.
    ghost says: { List ℕ → Self → Type 0 };

    /// What the line says, if it says anything.
    fn from_line(alloc: Global, line: &'a [u8]) -> Result<Option<Self>, AllocError>
        ensures { IfOk result (λ found. MatchOption found ((said : Self) → ¬ (says line.now said)) (says line.now)) };
}

/// The lines of a text, each ended by LF except the last.
pub(crate) fn split_lines<'a>(alloc: Global, text: &'a [u8]) -> Result<Vec<&'a [u8]>, AllocError>
    ensures { IfOk result (λ lines. map (λ line. line.now) lines.items ≡ lines_of text.now) }
{
    text.split(|byte| *byte == b'\n').collect(alloc)
}

/// What follows a word that the line begins with.
pub fn after<'a>(line: &'a [u8], word: &[u8]) -> Option<&'a [u8]>
    ensures { MatchOption result ((rest : List ℕ) → ¬ (line.now ≡ word.now ++ rest))
        (λ rest. line.now ≡ word.now ++ rest.now) }
{
    line.strip_prefix(word)
}

// What lines say, in order; empty ones are passed over.
fn from_lines<'a, L: FromLine<'a>>(alloc: Global, lines: &[&'a [u8]]) -> Result<Vec<L>, TextFault>
    ensures ok { IfOk result (λ said. AreSaid L.says (map (λ line. line.now) lines.now) said.items) }
    ensures err { IfErr result (IsFaultOf L.says (map (λ line. line.now) lines.now)) }
{
    let mut said = Vec::new(alloc);
    for (index, line) in lines.iter().enumerate() {
        if line.is_empty() {
            continue;
        }
        let Some(one) = L::from_line(alloc, line)? else {
            return Err(TextFault::Line(index + 1));
        };
        said.push(one)?;
    }
    Ok(said)
}

/// What the lines of a text say, in order. Lines end at LF alone, and empty ones are passed over.
pub fn parse<'a, L: FromLine<'a>>(alloc: Global, text: &'a [u8]) -> Result<Vec<L>, TextFault>
    ensures ok { IfOk result (λ said. AreSaid L.says (lines_of text.now) said.items) }
    ensures err { IfErr result (IsFaultOf L.says (lines_of text.now)) }
{
    let lines = split_lines(alloc, text)?;
    from_lines(alloc, lines.as_slice())
}
