//! The tokens of a line.

use crate::fault::Wrong;

/// A sign that stands for itself.
#[derive(Clone, Copy, PartialEq, Eq)]
pub enum Mark {
    Plus,
    Minus,
    Times,
    Over,
    Percent,
    Left,
    Right,
    And,
    Or,
    Xor,
    Not,
    Open,
    Close,
    Comma,
    Colon,
    Equals,
}

/// Where a numeric label is looked for.
#[derive(Clone, Copy)]
pub enum Way {
    Forward,
    Backward,
}

/// What a token is.
#[derive(Clone, Copy)]
pub enum Kind<'a> {
    /// A name, a word or a directive.
    Name(&'a [u8]),
    Number(u64),
    /// A reference to a numeric label.
    Local(u64, Way),
    /// What a string has between its quotes, as it is written.
    Text(&'a [u8]),
    Mark(Mark),
    /// What can't be read.
    Wrong(Wrong),
}

/// A token and its column, from 1 on.
#[derive(Clone, Copy)]
pub struct Token<'a> {
    pub kind: Kind<'a>,
    pub column: usize,
}

impl Token<'_> {
    /// Whether the token is that mark.
    pub(crate) fn is(&self, mark: Mark) -> bool {
        match self.kind {
            Kind::Mark(other) => other == mark,
            _ => false,
        }
    }
}

/// The column of the first of some tokens, or the one that is given.
pub(crate) fn column_of(tokens: &[Token], other: usize) -> usize {
    match tokens {
        [first, ..] => first.column,
        [] => other,
    }
}

fn is_label(pair: &[Token]) -> bool {
    match pair {
        [_, colon] => colon.is(Mark::Colon),
        _ => false,
    }
}

/// How many labels some tokens begin with.
pub(crate) fn label_count(tokens: &[Token]) -> usize {
    tokens.chunks(2).take_while(|pair| is_label(*pair)).count()
}

/// The tokens after the labels.
pub(crate) fn after_labels<'t, 'a>(tokens: &'t [Token<'a>]) -> &'t [Token<'a>] {
    let count = label_count(tokens).saturating_mul(2).min(tokens.len());
    tokens.split_at(count).1
}
