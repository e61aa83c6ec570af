//! The tokens of a text without comments.

use crate::fault::Wrong;
use crate::numbers::number_called;
use crate::quoted::character_at;
use crate::source::{Program, Status};
use crate::tokens::{Kind, Mark, Token, Way};
use std::alloc::{AllocError, Global};

/// A token and how many characters it has.
#[derive(Clone, Copy)]
struct Lexed<'a> {
    kind: Kind<'a>,
    length: usize,
}

fn may_begin(c: u8) -> bool {
    c.is_ascii_alphabetic() || matches!(c, b'_' | b'.' | b'$' | b'@')
}

fn may_follow(c: u8) -> bool {
    may_begin(c) || c.is_ascii_digit()
}

fn is_blank(c: u8) -> bool {
    c == b' ' || c == b'\t' || c == b'\r'
}

// How many characters a name at the front has.
fn name_length(text: &[u8]) -> usize {
    text.iter().take_while(|c| may_follow(**c)).count()
}

fn front(text: &[u8], length: usize) -> &[u8] {
    match text.get(..length) {
        Some(front) => front,
        None => text,
    }
}

fn local(digits: &[u8], way: Way) -> Option<Kind<'static>> {
    if !digits.iter().all(|c| c.is_ascii_digit()) {
        return None;
    }
    match number_called(digits) {
        Ok(number) => Some(Kind::Local(number, way)),
        Err(_) => None,
    }
}

// The reference to a numeric label that a word is: not a number as 0b1.
fn local_called(word: &[u8]) -> Option<Kind<'static>> {
    match word {
        [digits @ .., b'f'] => local(digits, Way::Forward),
        [digits @ .., b'b'] => local(digits, Way::Backward),
        _ => None,
    }
}

fn number_kind(word: &[u8]) -> Kind<'static> {
    if let Some(kind) = local_called(word) {
        return kind;
    }
    match number_called(word) {
        Ok(number) => Kind::Number(number),
        Err(wrong) => Kind::Wrong(wrong),
    }
}

fn lexed_number(text: &[u8]) -> Lexed<'static> {
    let length = name_length(text);
    Lexed {
        kind: number_kind(front(text, length)),
        length,
    }
}

fn lexed_name(text: &[u8]) -> Lexed<'_> {
    let length = name_length(text);
    Lexed {
        kind: Kind::Name(front(text, length)),
        length,
    }
}

// How many characters a string has up to the quote that closes it.
fn text_length(text: &[u8]) -> Option<usize> {
    let mut escaped = false;
    for (length, c) in text.iter().enumerate() {
        if *c == b'"' && !escaped {
            return Some(length);
        }
        escaped = *c == b'\\' && !escaped;
    }
    None
}

fn unread(wrong: Wrong, length: usize) -> Lexed<'static> {
    Lexed {
        kind: Kind::Wrong(wrong),
        length,
    }
}

// A string, without the quote that opens it.
fn lexed_text(text: &[u8]) -> Lexed<'_> {
    let Some(length) = text_length(text) else {
        return unread(Wrong::Quote, text.len());
    };
    Lexed {
        kind: Kind::Text(front(text, length)),
        length: length.saturating_add(2),
    }
}

// A character, without the apostrophe that opens it; one may close it.
fn lexed_character(text: &[u8]) -> Lexed<'static> {
    let Some(written) = character_at(text) else {
        return unread(Wrong::Quote, 1);
    };
    let closing = match text.get(written.length) {
        Some(b'\'') => 2,
        _ => 1,
    };
    Lexed {
        kind: Kind::Number(u64::from(written.byte)),
        length: written.length.saturating_add(closing),
    }
}

fn operator_of(c: u8) -> Option<Mark> {
    match c {
        b'+' => Some(Mark::Plus),
        b'-' => Some(Mark::Minus),
        b'*' => Some(Mark::Times),
        b'/' => Some(Mark::Over),
        b'%' => Some(Mark::Percent),
        b'&' => Some(Mark::And),
        b'|' => Some(Mark::Or),
        b'^' => Some(Mark::Xor),
        b'~' => Some(Mark::Not),
        _ => None,
    }
}

fn mark_of(c: u8) -> Option<Mark> {
    match c {
        b'(' => Some(Mark::Open),
        b')' => Some(Mark::Close),
        b',' => Some(Mark::Comma),
        b':' => Some(Mark::Colon),
        b'=' => Some(Mark::Equals),
        _ => operator_of(c),
    }
}

fn lexed_mark(c: u8) -> Lexed<'static> {
    let kind = match mark_of(c) {
        Some(mark) => Kind::Mark(mark),
        None => Kind::Wrong(Wrong::Character),
    };
    Lexed { kind, length: 1 }
}

fn lexed_shift(mark: Mark) -> Lexed<'static> {
    Lexed {
        kind: Kind::Mark(mark),
        length: 2,
    }
}

// The shift that a text begins with.
fn shift_at(text: &[u8]) -> Option<Mark> {
    if text.starts_with(b"<<") {
        return Some(Mark::Left);
    }
    if text.starts_with(b">>") {
        return Some(Mark::Right);
    }
    None
}

// The token that begins with a character.
fn lexed_from<'a>(c: u8, text: &'a [u8], rest: &'a [u8]) -> Lexed<'a> {
    if c.is_ascii_digit() {
        return lexed_number(text);
    }
    if may_begin(c) {
        return lexed_name(text);
    }
    if let Some(mark) = shift_at(text) {
        return lexed_shift(mark);
    }
    match c {
        b'"' => lexed_text(rest),
        b'\'' => lexed_character(rest),
        _ => lexed_mark(c),
    }
}

// The token that a text begins with, if it begins with no blank.
fn token_at<'a>(text: &'a [u8]) -> Option<Lexed<'a>> {
    let (c, rest) = text.split_first()?;
    if is_blank(*c) {
        return None;
    }
    Some(lexed_from(*c, text, rest))
}

/// The tokens of a line after an indent, which has at most as many as characters.
pub(crate) fn tokens_of<'a>(
    alloc: Global,
    line: &'a [u8],
    indent: usize,
) -> Result<Vec<Token<'a>>, AllocError> {
    let mut tokens = Vec::new(alloc);
    let mut at = 0usize;
    for _ in 0..line.len() {
        let Some(text) = line.get(at..) else {
            break;
        };
        let Some(lexed) = token_at(text) else {
            at = at.saturating_add(1);
            continue;
        };
        tokens.push(Token {
            kind: lexed.kind,
            column: indent.saturating_add(at).saturating_add(1),
        })?;
        at = at.saturating_add(lexed.length.max(1));
    }
    Ok(tokens)
}

/// The tokens of a statement, and its row.
#[derive(Drop)]
pub struct Sentence<'a> {
    pub row: usize,
    pub unit: usize,
    pub status: Status,
    pub tokens: Vec<Token<'a>>,
}

/// The statements of a program that are not done yet.
pub(crate) fn sentences_of<'a>(
    alloc: Global,
    program: &'a Program,
) -> Result<Vec<Sentence<'a>>, AllocError> {
    let mut sentences = Vec::new(alloc);
    for (index, row) in program.rows.iter().enumerate() {
        if !matches!(row.status, Status::Done) {
            let tokens = tokens_of(alloc, &row.text, row.line.indent)?;
            sentences.push(Sentence {
                row: index,
                unit: row.line.unit,
                status: row.status,
                tokens,
            })?;
        }
    }
    Ok(sentences)
}
