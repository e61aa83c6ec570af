//! The word at a fault, and the word that was meant.

use explanations::nearest;
use gas::{Fault, Program, Row, Wrong, known_words, message};
use std::alloc::{AllocError, Global};

/// The longest word that another is looked for.
const LONGEST: usize = 32;

fn is_of_word(c: u8) -> bool {
    c.is_ascii_alphanumeric() || matches!(c, b'_' | b'.' | b'$')
}

/// The word that a row has in a column.
pub(crate) fn word_at(row: &Row, column: usize) -> &str {
    let start = column.saturating_sub(row.line.indent).saturating_sub(1);
    let Some(rest) = row.text.get(start..) else {
        return "";
    };
    let length = rest.iter().take_while(|c| is_of_word(**c)).count();
    match rest.get(..length) {
        Some(word) => str::from_utf8(word).unwrap_or(""),
        None => "",
    }
}

// The word that was meant where no instruction or directive is called so.
fn meant<'w>(
    alloc: Global,
    program: &Program,
    fault: &Fault,
) -> Result<Option<&'w str>, AllocError> {
    if !matches!(fault.wrong, Wrong::Instruction | Wrong::Directive) {
        return Ok(None);
    }
    let word = match program.row(fault.at.row) {
        Some(row) => word_at(row, fault.at.column),
        None => "",
    };
    if word.len() > LONGEST {
        return Ok(None);
    }
    nearest(alloc, word, &known_words(alloc)?)
}

/// What is wrong, in words, and the word that was meant.
pub(crate) fn words(alloc: Global, program: &Program, fault: &Fault) -> Result<String, AllocError> {
    let mut words = message(alloc, program, fault.wrong)?;
    if let Some(meant) = meant(alloc, program, fault)? {
        words.push_str(": did you mean ")?;
        words.push_str(meant)?;
        words.push_str("?")?;
    }
    Ok(words)
}
