//! Equal calls in a row, which are one line.
ghost use Rattle.std.specs.Prelude.{◌≡◌, ◌≢◌, ◌-◌, ◌<◌, ◌++◌, IsTrue, OnOk, length, pos, string_bytes, take};
ghost use Rattle.tracetext.specs.Rows.{Counts, Holds, IsAlike};
ghost use Rattle.tracetext.specs.Texts.{IsEmpty};

use crate::asked::{Asked, CallText, Shown};
use std::alloc::{AllocError, Global};

/// A call that returned at once, and how often it came in a row.
#[derive(Drop)]
pub struct Row {
    /// How often it came; 0 where no call is held.
    pub times: u64,
    pub pid: u32,
    pub number: u32,
    /// The number of the event of the first.
    pub at: u64,
    pub text: CallText,
    pub answer: i64,
}

impl Row {
    /// Holds no call.
    pub fn new(alloc: Global) -> Row
        ensures times { result.times ≡ 0 }
        ensures text { IsEmpty result.text }
    {
        Row {
            times: 0,
            pid: 0,
            number: 0,
            at: 0,
            text: CallText::new(alloc),
            answer: 0,
        }
    }

    // Whether the buffers let two calls be one line: they are equal, or single bytes.
    fn fits(&self, text: &CallText) -> bool
        ensures { IsTrue result → self.now.answer ≢ pos 1 → self.now.text.«data».items ≡ text.now.«data».items }
    {
        let is_single = self.answer == 1
            && self.text.shown != Shown::Nothing
            && text.shown == Shown::Whole;
        is_single
            || (self.text.shown == text.shown && self.text.data.as_slice() == text.data.as_slice())
    }

    /// Whether a call goes on with the row.
    pub fn takes(&self, asked: &Asked, text: &CallText, answer: i64) -> bool
        ensures held { IsTrue result → 0 < self.now.times }
        ensures alike { IsTrue result → IsAlike self.now asked.now text.now answer }
        ensures bytes { IsTrue result → answer ≢ pos 1 → self.now.text.«data».items ≡ text.now.«data».items }
    {
        self.times > 0
            && self.pid == asked.pid
            && self.number == asked.number
            && self.answer == answer
            && self.text.front.as_str() == text.front.as_str()
            && self.text.back.as_str() == text.back.as_str()
            && self.fits(text)
    }

    /// Holds this call instead of the one before.
    pub fn begin(&mut self, asked: &Asked, text: &CallText, answer: i64) -> Result<(), AllocError>
        ensures { OnOk result (Holds self.new asked.now text.now answer) }
    {
        self.text.copy_from(text)?;
        self.times = 1;
        self.pid = asked.pid;
        self.number = asked.number;
        self.at = asked.at;
        self.answer = answer;
        Ok(())
    }

    /// Counts one call more, and shows its byte, if it is one of a single byte.
    pub fn go_on(&mut self, text: &CallText, most: usize) -> Result<(), AllocError>
        ensures counts { Counts self.old self.new }
        ensures shows { self.old.answer ≡ pos 1
            → OnOk result (self.new.text.«data».items ≡ self.old.text.«data».items
            ++ take (most - length self.old.text.«data».items) text.now.«data».items) }
        ensures same { self.old.answer ≢ pos 1 → self.new.text ≡ self.old.text }
        ensures front { string_bytes self.new.text.front ≡ string_bytes self.old.text.front }
        ensures back { string_bytes self.new.text.back ≡ string_bytes self.old.text.back }
    {
        self.times = self.times.saturating_add(1);
        if self.answer == 1 {
            self.text.add_data(text.data.as_slice(), most)?;
        }
        Ok(())
    }
}
