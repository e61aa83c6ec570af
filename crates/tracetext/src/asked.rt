//! A call that a process made, and its arguments as text.
ghost use Rattle.std.specs.Prelude.{◌≡◌, ◌-◌, ◌++◌, IsTrue, OnOk, Some, length, string_bytes, take, ◌↔◌};
ghost use Rattle.tracetext.specs.Lines.{arguments_text, rest_text};
ghost use Rattle.tracetext.specs.Texts.{IsEmpty, IsSameText, shown_after};
ghost use Rattle.unixmodel.specs.Calls.{call_of};

use crate::call_names::call_of;
use crate::quoting::Quoted;
use std::alloc::{AllocError, Global};
use std::fmt;
use std::fmt::Display;
use unixmodel::call::Call;

/// A call that a process made.
#[derive(Clone, Copy)]
pub struct Asked {
    pub pid: u32,
    /// The number of the call, or of none.
    pub number: u32,
    /// The registers a0 to a5 as it began.
    pub arguments: [u64; 6],
    /// The number of the event in which it began.
    pub at: u64,
}

impl Asked {
    /// The call, if the number is one of one.
    pub fn call(&self) -> Option<Call>
        ensures { result ≡ call_of self.now.number }
    {
        call_of(self.number)
    }

    /// Whether it is this call.
    pub fn is(&self, call: Call) -> bool
        ensures { IsTrue result ↔ call_of self.now.number ≡ Some call }
    {
        self.call() == Some(call)
    }
}

/// How much of a buffer is shown.
#[derive(Clone, Copy, PartialEq, Eq)]
pub enum Shown {
    /// There is none to show.
    Nothing,
    /// All of it.
    Whole,
    /// Its first bytes.
    Cut,
}

/// The arguments of a call: what comes before the bytes of a buffer, these bytes, and what comes after them.
#[derive(Drop)]
pub struct CallText {
    pub front: String,
    pub data: Vec<u8>,
    pub shown: Shown,
    pub back: String,
}

impl CallText {
    /// No arguments.
    pub fn new(alloc: Global) -> CallText
        ensures { IsEmpty result }
    {
        CallText {
            front: String::new(alloc),
            data: Vec::new(alloc),
            shown: Shown::Nothing,
            back: String::new(alloc),
        }
    }

    /// Takes all arguments away.
    pub fn clear(&mut self)
        ensures { IsEmpty self.new }
    {
        self.front.clear();
        self.data.clear();
        self.shown = Shown::Nothing;
        self.back.clear();
    }

    /// Replaces its arguments by these.
    pub fn copy_from(&mut self, other: &CallText) -> Result<(), AllocError>
        ensures { OnOk result (IsSameText self.new other.now) }
    {
        self.clear();
        self.front.push_str(other.front.as_str())?;
        self.data.extend_from_slice(other.data.as_slice())?;
        self.shown = other.shown;
        self.back.push_str(other.back.as_str())
    }

    /// Appends bytes to those of the buffer, so that at most `most` are shown.
    pub fn add_data(&mut self, bytes: &[u8], most: usize) -> Result<(), AllocError>
        ensures added { OnOk result
            (self.new.«data».items ≡ self.old.«data».items
            ++ take (most - length self.old.«data».items) bytes.now) }
        ensures shown { OnOk result
            (self.new.shown ≡ shown_after (most - length self.old.«data».items) (length bytes.now) self.old.shown) }
        ensures front { string_bytes self.new.front ≡ string_bytes self.old.front }
        ensures back { string_bytes self.new.back ≡ string_bytes self.old.back }
    {
        let room = most.saturating_sub(self.data.len());
        let count = bytes.len().min(room);
        self.data.extend_from_slice(&bytes[..count])?;
        if room < bytes.len() {
            self.shown = Shown::Cut;
        }
        Ok(())
    }

    /// What a call fills in: the bytes of the buffer and what follows them.
    pub fn rest(&self) -> Rest<'_>
        ensures { result.0.now ≡ self.now }
    {
        Rest(self)
    }
}

/// The end of the arguments, from the buffer on.
#[derive(Clone, Copy)]
pub struct Rest<'a>(&'a CallText);

impl fmt::Display for Rest<'_> {
    ghost output = { λ rest. Some (rest_text rest.0.now) };

    #[tactic(auto, unfolding(crate::specs::Lines::rest_text))]
    fn fmt<W: fmt::Write>(&self, f: &mut fmt::Formatter<W>) -> fmt::Result {
        let text = self.0;
        if text.shown != Shown::Nothing {
            let bytes = text.data.as_slice();
            let is_cut = text.shown == Shown::Cut;
            Quoted { bytes, is_cut }.fmt(f)?;
        }
        f.write_str(text.back.as_str())
    }
}

impl fmt::Display for CallText {
    ghost output = { λ text. Some (arguments_text text) };

    #[tactic(auto, unfolding(crate::specs::Lines::arguments_text))]
    fn fmt<W: fmt::Write>(&self, f: &mut fmt::Formatter<W>) -> fmt::Result {
        f.write_str(self.front.as_str())?;
        self.rest().fmt(f)
    }
}
