//! Writes lines to where each form goes.
ghost use Rattle.std.specs.Prelude.{◌≡◌, ◌≢◌, IfSome, None, OnOk, Some, false, true};
ghost use Rattle.tracetext.specs.Pens.{Appends, Given, KeepsOthers, first_trouble, has, lost, set};

use std::alloc::Global;
use std::fmt;

/// A form of a trace.
#[derive(Clone, Copy, PartialEq, Eq)]
pub enum Form {
    /// Text in strace's manner.
    Text,
    /// Spans in Chrome's JSON.
    Spans,
    /// Commits in Spike's form.
    Commits,
    /// Lines of JSON, one for each event of a process.
    Events,
}

/// A sink took not all that was written to it.
#[derive(Clone, Copy)]
pub struct SinkFault;

/// Where the forms of a trace go.
pub trait Sinks {
    /// What each form was given so far, where that is known.
    ghost given: { Self → Given } = { λ _ _. None };

    /// Appends bytes to those that this form has.
    fn put(&mut self, form: Form, bytes: &[u8]) -> Result<(), SinkFault>
        ensures more { OnOk result (Appends form bytes.now (given self.old) (given self.new)) }
        ensures others { KeepsOthers form (given self.old) (given self.new) };
}

/// Why a trace isn't whole.
#[derive(Clone, Copy, PartialEq, Eq)]
pub enum Trouble {
    /// Memory was refused.
    NoMemory,
    /// The sink of this form failed.
    Lost(Form),
}

/// Writes lines to sinks, and remembers what failed.
#[derive(Drop)]
pub struct Pen<S> {
    sinks: S,
    line: String,
    has_text: bool,
    has_spans: bool,
    has_commits: bool,
    has_events: bool,
    trouble: Option<Trouble>,
}

impl<S: Sinks + Drop> Pen<S> {
    /// A pen that writes no form so far.
    pub fn new(alloc: Global, sinks: S) -> Self
        ensures sinks { result.sinks ≡ sinks }
        ensures none { (form : Form) → has result form ≡ false }
        ensures trouble { result.trouble ≡ None }
    {
        Pen {
            sinks,
            line: String::new(alloc),
            has_text: false,
            has_spans: false,
            has_commits: false,
            has_events: false,
            trouble: None,
        }
    }

    /// Whether lines of a form are written: it is wanted, and all went well so far.
    pub fn has(&self, form: Form) -> bool
        ensures { result ≡ has self.now form }
    {
        match form {
            Form::Text => self.has_text,
            Form::Spans => self.has_spans,
            Form::Commits => self.has_commits,
            Form::Events => self.has_events,
        }
    }

    /// Sets whether lines of a form are written.
    pub fn set(&mut self, form: Form, is_wanted: bool)
        ensures { self.new ≡ set self.old form is_wanted }
    {
        match form {
            Form::Text => self.has_text = is_wanted,
            Form::Spans => self.has_spans = is_wanted,
            Form::Commits => self.has_commits = is_wanted,
            Form::Events => self.has_events = is_wanted,
        }
    }

    /// Gives up a form, and remembers why, if nothing was given up before.
    pub fn lose(&mut self, form: Form, trouble: Trouble)
        ensures { self.new ≡ lost self.old form trouble }
    {
        self.set(form, false);
        if self.trouble.is_none() {
            self.trouble = Some(trouble);
        }
    }

    /// Gives up all forms, since memory was refused.
    pub fn starve(&mut self)
        ensures none { (form : Form) → has self.new form ≡ false }
        ensures trouble { self.new.trouble ≡ first_trouble self.old.trouble Trouble.NoMemory }
        ensures sinks { self.new.sinks ≡ self.old.sinks }
    {
        self.lose(Form::Text, Trouble::NoMemory);
        self.lose(Form::Spans, Trouble::NoMemory);
        self.lose(Form::Commits, Trouble::NoMemory);
        self.lose(Form::Events, Trouble::NoMemory);
    }

    /// Why the trace isn't whole, if it isn't.
    pub fn trouble(&self) -> Option<Trouble>
        ensures { result ≡ self.now.trouble }
    {
        self.trouble
    }

    /// Writes a line, if its form is written.
    pub fn put<L: fmt::Display>(&mut self, form: Form, line: &L)
        ensures unwanted { has self.old form ≡ false → self.new ≡ self.old }
        ensures others { (other : Form) → other ≢ form → has self.new other ≡ has self.old other }
        ensures given_up { has self.old form ≢ has self.new form → self.new.trouble ≢ None }
        ensures written { has self.new form ≡ true → IfSome (L.output line.now)
            (λ text. Appends form text (S.given self.old.sinks) (S.given self.new.sinks)) }
        ensures elsewhere { KeepsOthers form (S.given self.old.sinks) (S.given self.new.sinks) }
    {
        if !self.has(form) {
            return;
        }
        self.line.clear();
        if write!(self.line, "{line}").is_err() {
            self.lose(form, Trouble::NoMemory);
        } else if self.sinks.put(form, self.line.as_bytes()).is_err() {
            self.lose(form, Trouble::Lost(form));
        }
    }

    /// Writes the bytes of a line, if its form is written.
    pub fn put_bytes(&mut self, form: Form, bytes: &[u8])
        ensures unwanted { has self.old form ≡ false → self.new ≡ self.old }
        ensures others { (other : Form) → other ≢ form → has self.new other ≡ has self.old other }
        ensures given_up { has self.old form ≢ has self.new form → self.new.trouble ≢ None }
        ensures written { has self.new form ≡ true →
            Appends form bytes.now (S.given self.old.sinks) (S.given self.new.sinks) }
        ensures elsewhere { KeepsOthers form (S.given self.old.sinks) (S.given self.new.sinks) }
    {
        if self.has(form) && self.sinks.put(form, bytes).is_err() {
            self.lose(form, Trouble::Lost(form));
        }
    }

    /// The sinks.
    pub fn into_sinks(self) -> S
        ensures { result ≡ self.sinks }
    {
        self.sinks
    }
}
