//! The text of a macro or of a repetition, up to the line that ends it.

use crate::macros::Parameter;
use crate::source::Place;
use std::alloc::{AllocError, Global};

/// What a text is collected for.
#[derive(Drop)]
pub enum Goal {
    /// A macro of this name.
    Macro(Vec<u8>, Vec<Parameter>),
    /// That many repetitions.
    Repeat(usize),
}

/// What a directive does to the text that is collected.
#[derive(Clone, Copy, PartialEq, Eq)]
pub enum Bracket {
    OpensMacro,
    ClosesMacro,
    OpensRepeat,
    ClosesRepeat,
}

const BRACKETS: [(&str, Bracket); 5] = [
    (".macro", Bracket::OpensMacro),
    (".endm", Bracket::ClosesMacro),
    (".rept", Bracket::OpensRepeat),
    (".endr", Bracket::ClosesRepeat),
    (".rep", Bracket::OpensRepeat),
];

/// The bracket that a word is.
pub(crate) fn bracket_called(word: &[u8]) -> Option<Bracket> {
    for (name, bracket) in &BRACKETS {
        if name.as_bytes().eq_ignore_ascii_case(word) {
            return Some(*bracket);
        }
    }
    None
}

/// What is collected so far.
#[derive(Drop)]
pub struct Collector {
    goal: Goal,
    body: Vec<u8>,
    row: usize,
    place: Place,
    nesting: usize,
}

impl Collector {
    pub(crate) fn new(alloc: Global, goal: Goal, row: usize, place: Place) -> Collector {
        Collector {
            goal,
            body: Vec::new(alloc),
            row,
            place,
            nesting: 0,
        }
    }

    // Whether brackets are of its kind: those that open, or those that close.
    fn is_its(&self, bracket: Bracket, closes: bool) -> bool {
        let its = match (&self.goal, closes) {
            (Goal::Macro(_, _), false) => Bracket::OpensMacro,
            (Goal::Macro(_, _), true) => Bracket::ClosesMacro,
            (Goal::Repeat(_), false) => Bracket::OpensRepeat,
            (Goal::Repeat(_), true) => Bracket::ClosesRepeat,
        };
        its == bracket
    }

    /// Whether a bracket ends the text. Those within are counted.
    pub(crate) fn is_ended_by(&mut self, bracket: Bracket) -> bool {
        if self.is_its(bracket, true) {
            if self.nesting == 0 {
                return true;
            }
            self.nesting = self.nesting.saturating_sub(1);
        }
        if self.is_its(bracket, false) {
            self.nesting = self.nesting.saturating_add(1);
        }
        false
    }

    /// The row that asks for it.
    pub(crate) fn row(&self) -> usize {
        self.row
    }

    /// What it is collected for, the text, the row that asks for it, and the line after that.
    pub(crate) fn parts(self) -> (Goal, Vec<u8>, usize, Place) {
        let Collector {
            goal,
            body,
            row,
            place,
            ..
        } = self;
        (goal, body, row, place)
    }

    /// How many lines end in the text.
    pub(crate) fn lines(&self) -> usize {
        self.body.iter().filter(|c| **c == b'\n').count()
    }

    /// Adds a statement, and the character after it.
    pub(crate) fn add(&mut self, text: &[u8], end: u8) -> Result<(), AllocError> {
        self.body.extend_from_slice(text)?;
        self.body.push(end)?;
        Ok(())
    }
}
