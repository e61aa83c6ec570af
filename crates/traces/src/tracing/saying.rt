//! The text in strace's manner.
ghost use Rattle.std.specs.Prelude.{◌≡◌, ◌≢◌, OnOk, true};
ghost use Rattle.tracetext.specs.Pens.{Appends, has};
ghost use Rattle.tracetext.specs.declared.pen.Form.TheVariants as form;
ghost use Rattle.traces.specs.Saying.{EndsWith, IsHeld, ShowsCall, call_line, row_line, stamp};

use super::Tracer;
use addresses::Name;
use std::alloc::AllocError;
use tracetext::lines::{FaultText, Line, Outcome, Says, Told};
use tracetext::{Asked, Form, Sinks};

impl<S: Sinks + Drop> Tracer<S> {
    // The number of the event at a time, where it is shown.
    fn stamp(&self, at: u64) -> Option<u64>
        ensures { result ≡ stamp self.now.wanted.times at }
    {
        if self.wanted.times {
            Some(at.saturating_add(1))
        } else {
            None
        }
    }

    // Writes the calls in a row that were held back.
    #[tactic(auto, unfolding(tracetext::specs::Lines::says_text))]
    pub(super) fn say_row(&mut self)
        ensures none { self.new.row.times ≡ 0 }
        ensures line { self.old.row.times ≢ 0 → has self.new.pen form.Text ≡ true → Appends form.Text
            (row_line self.old) (S.given self.old.pen.sinks) (S.given self.new.pen.sinks) }
        ensures at { self.new.at ≡ self.old.at }
        ensures wanted { self.new.wanted ≡ self.old.wanted }
        ensures text { self.new.text ≡ self.old.text }
    {
        let times = self.row.times;
        if times == 0 {
            return;
        }
        let at = self.stamp(self.row.at);
        let (pid, number, answer) = (self.row.pid, self.row.number, self.row.answer);
        let text = &self.row.text;
        let says = Says::Call {
            call: Told { number, text },
            outcome: Outcome::Answered { answer, times },
        };
        self.pen.put(Form::Text, &Line { at, pid, says });
        self.row.times = 0;
    }

    // Writes a line on a process, if it is shown.
    pub(super) fn say(&mut self, pid: u32, says: Says<'_>) {
        if !self.shows(pid) {
            return;
        }
        self.say_row();
        let at = self.stamp(self.at);
        self.pen.put(Form::Text, &Line { at, pid, says });
    }

    // The name of an address of a process's program, if it is known.
    pub(super) fn name(&self, pid: u32, pc: u64) -> Result<Option<Name<'_>>, AllocError> {
        match self.lane(pid) {
            Some(lane) => self.symbolizer.at(lane.name.as_slice(), pc),
            None => Ok(None),
        }
    }

    // The same as a text.
    fn name_text(&self, pid: u32, pc: u64) -> Result<Option<String>, AllocError> {
        match self.name(pid, pc)? {
            Some(name) => Ok(Some(format!(in self.alloc; "{name}")?)),
            None => Ok(None),
        }
    }

    // Writes a fault of a process, if it is shown.
    pub(super) fn say_fault(&mut self, pid: u32, fault: FaultText, pc: u64) {
        let name = match self.name_text(pid, pc) {
            Ok(name) => name,
            Err(_) => return self.pen.starve(),
        };
        let says = Says::Fault {
            fault,
            pc,
            name: name.as_deref(),
        };
        self.say(pid, says);
    }

    // Holds back a call: with those that are held back, if it goes on with them.
    fn hold(&mut self, asked: &Asked, answer: i64) -> Result<(), AllocError>
        ensures { OnOk result (IsHeld self.new.row asked.now self.new.text answer) }
    {
        let most = self.wanted.most();
        if self.wanted.joins && self.row.takes(asked, &self.text, answer) {
            return self.row.go_on(&self.text, most);
        }
        self.say_row();
        self.row.begin(asked, &self.text, answer)
    }

    // Holds back a call that returned at once, since equal ones may follow.
    pub(super) fn say_answered(&mut self, asked: &Asked, answer: i64)
        ensures { ShowsCall self.new asked.now → has self.new.pen form.Text ≡ true
            → IsHeld self.new.row asked.now self.new.text answer }
    {
        if !self.shows_call(asked) || !self.pen.has(Form::Text) {
            return;
        }
        if self.hold(asked, answer).is_err() {
            self.pen.starve();
        }
    }

    // Writes what becomes of a call.
    #[tactic(auto, using(crate::proofs::SayingLemmas::ends), unfolding(tracetext::specs::Lines::says_text))]
    pub(super) fn say_call(&mut self, asked: &Asked, outcome: Outcome)
        ensures { ShowsCall self.new asked.now → has self.new.pen form.Text ≡ true
            → EndsWith (call_line self.new asked.now outcome) (S.given self.new.pen.sinks form.Text) }
    {
        if !self.shows_call(asked) {
            return;
        }
        self.say_row();
        let at = self.stamp(self.at);
        let (pid, number) = (asked.pid, asked.number);
        let text = &self.text;
        let call = Told { number, text };
        let says = Says::Call { call, outcome };
        self.pen.put(Form::Text, &Line { at, pid, says });
    }
}
