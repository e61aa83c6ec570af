//! The character that keeps a line of a script or of a manifest from saying anything.

use std::fmt;

/// A character of a line, and its column, counted from 1.
#[derive(Clone, Copy, Debug, PartialEq, Eq)]
pub struct Oddity {
    pub character: char,
    pub column: usize,
}

impl fmt::Display for Oddity {
    fn fmt<W: fmt::Write>(&self, f: &mut fmt::Formatter<W>) -> fmt::Result {
        let Oddity { character, column } = *self;
        match character {
            ' ' => write!(f, "a blank at column {column}"),
            '\t' => write!(f, "a tab at column {column}"),
            '\r' => write!(f, "a carriage return at column {column}"),
            _ => write!(f, "`{character}` at column {column}"),
        }
    }
}

// What follows the first word of a line.
#[derive(Clone, Copy)]
enum Operand {
    // A number in digits.
    Number,
    // Bytes in hexadecimal digits.
    Codes,
    // Whatever it is.
    Text,
}

// What follows this word.
fn operand_of(word: &str) -> Operand {
    match word {
        "step" | "tick" => Operand::Number,
        "keys" => Operand::Codes,
        _ => Operand::Text,
    }
}

// Whether an operand may have this character.
fn fits(operand: Operand, character: char) -> bool {
    match operand {
        Operand::Number => character.is_ascii_digit(),
        Operand::Codes => character.is_ascii_digit() || ('a'..='f').contains(&character),
        Operand::Text => true,
    }
}

// Whether a line may not begin or end with this character.
fn is_blank(character: char) -> bool {
    matches!(character, ' ' | '\t' | '\r')
}

// The first character of an operand that does not fit, after that many bytes of its line.
fn oddity_in(operand: Operand, text: &str, before: usize) -> Option<Oddity> {
    for (index, character) in text.chars().enumerate() {
        if !fits(operand, character) {
            let column = before.saturating_add(index).saturating_add(1);
            return Some(Oddity { character, column });
        }
    }
    None
}

// The first or the last character of a line, if it is a blank or a line of a script or of a manifest never begins so.
fn oddity_at_edge(line: &str) -> Option<Oddity> {
    let character = line.chars().next()?;
    if !character.is_ascii_lowercase() {
        return Some(Oddity {
            character,
            column: 1,
        });
    }
    let last = line.chars().last()?;
    is_blank(last).then_some(Oddity {
        character: last,
        column: line.chars().count(),
    })
}

/// The character that keeps a line of a script or of a manifest from saying anything, if one does: the first that is
/// none of a number, or one before or after all words.
pub fn oddity_of(line: &str) -> Option<Oddity> {
    if let Some((word, operand)) = line.split_once(' ')
        && let Some(oddity) = oddity_in(operand_of(word), operand, word.len().saturating_add(1))
    {
        return Some(oddity);
    }
    oddity_at_edge(line)
}
