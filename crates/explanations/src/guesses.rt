//! The name that was meant.
ghost use Rattle.std.specs.Prelude.{◌≡◌, IfOk};
ghost use Rattle.explanations.specs.Names.{edits, is_among, nearest_of};

use std::alloc::{AllocError, Global};
use strsim::levenshtein;

/// How many edits may lead to the name that was meant.
const MOST_EDITS: usize = 2;

// Whether a word is one of the names.
fn is_among(names: &[&str], word: &str) -> bool
    ensures { result ≡ is_among word.now names.now }
{
    for name in names {
        if *name == word {
            return true;
        }
    }
    false
}

// How many edits lead from a word to a name, where large and small letters are the same.
fn edits(alloc: Global, word: &str, name: &str) -> Result<usize, AllocError>
    ensures { IfOk result (λ count. count ≡ edits word.now name.now) }
{
    let (word, name) = (
        word.to_ascii_lowercase(alloc)?,
        name.to_ascii_lowercase(alloc)?,
    );
    levenshtein(alloc, word.as_str(), name.as_str())
}

/// The name among some that is nearest to a word that is none of them: it takes at most two edits, and fewer than the
/// word has letters, where large and small letters are the same.
pub fn nearest<'a>(
    alloc: Global,
    word: &str,
    names: &[&'a str],
) -> Result<Option<&'a str>, AllocError>
    ensures { IfOk result (λ found. found ≡ nearest_of word.now names.now) }
{
    if is_among(names, word) {
        return Ok(None);
    }
    let mut found = None;
    let mut fewest = (MOST_EDITS + 1).min(word.len());
    for name in names {
        let edits = edits(alloc, word, name)?;
        if edits < fewest {
            fewest = edits;
            found = Some(*name);
        }
    }
    Ok(found)
}
