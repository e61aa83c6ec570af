//! The lines of a trace in strace's manner.
ghost use Rattle.std.specs.Prelude.{◌≡◌, IsTrue, Some, ◌↔◌};
ghost use Rattle.std.specs.Fmt.{DisplaysOnOk};
ghost use Rattle.tracetext.specs.Lines.{answer_text, answered_text, cause_text, detail_text, fault_text, filled_in};
ghost use Rattle.tracetext.specs.Lines.{line_text, outcome_text, resumed_text, says_text, told_text, unfinished_text};
ghost use Rattle.tracetext.specs.Lines.{killed_text, unread_text};
ghost use Rattle.unixmodel.specs.Calls.{call_of};

use crate::asked::CallText;
use crate::call_names::{CallName, call_of};
use std::fmt;
use std::fmt::Display;
use unixmodel::call::Call;

/// A call, with its arguments as text.
#[derive(Clone, Copy)]
pub struct Told<'a> {
    pub number: u32,
    pub text: &'a CallText,
}

/// What becomes of a call.
#[derive(Clone, Copy)]
pub enum Outcome {
    /// It returned at once, and so did equal ones after it, `times` in all.
    Answered { answer: i64, times: u64 },
    /// It waits.
    Unfinished,
    /// It returned in a turn.
    Resumed(i64),
    /// It doesn't return.
    Left,
}

/// What a line says of a process.
#[derive(Clone, Copy)]
pub enum Says<'a> {
    /// What becomes of a call.
    Call {
        call: Told<'a>,
        outcome: Outcome,
    },
    /// The process ended with this status.
    Ended(i32),
    /// The process faulted, at this pc, whose name is known or not.
    Fault {
        fault: FaultText,
        pc: u64,
        name: Option<&'a str>,
    },
    /// The process was killed by the one with this pid, if that is known.
    Killed(Option<u32>),
    /// The process got the hart.
    Turn,
    /// The timer took the hart from it.
    Tick,
}

/// A line: the number of its event, where that is shown, a process, and what is said of it.
#[derive(Clone, Copy)]
pub struct Line<'a> {
    pub at: Option<u64>,
    pub pid: u32,
    pub says: Says<'a>,
}

/// What is wrong with an access.
#[derive(Clone, Copy)]
pub enum Detail {
    /// A reason in words, with a space before it where there is one.
    Reason(&'static str),
    /// The word that can't be executed.
    Word(u32),
}

impl fmt::Display for Detail {
    ghost output = { λ detail. Some (detail_text detail) };

    #[tactic(auto, unfolding(crate::specs::Lines::detail_text))]
    fn fmt<W: fmt::Write>(&self, f: &mut fmt::Formatter<W>) -> fmt::Result {
        match *self {
            Detail::Reason(reason) => f.write_str(reason),
            Detail::Word(word) => write!(f, " 0x{word:08x}"),
        }
    }
}

/// A fault in words: its cause and its address, where they are known.
#[derive(Clone, Copy)]
pub enum FaultText {
    /// Nothing is known of it.
    Unknown,
    /// An access, what is wrong with it, and its address.
    Known {
        access: &'static str,
        detail: Detail,
        address: u64,
    },
}

impl fmt::Display for FaultText {
    ghost output = { λ fault. Some (cause_text fault) };

    #[tactic(auto, unfolding(crate::specs::Lines::cause_text, crate::specs::Lines::hexadecimal))]
    fn fmt<W: fmt::Write>(&self, f: &mut fmt::Formatter<W>) -> fmt::Result {
        match *self {
            FaultText::Unknown => f.write_str("fault"),
            FaultText::Known {
                access,
                detail,
                address,
            } => write!(f, "fault {access}{detail} at 0x{address:x}"),
        }
    }
}

impl Told<'_> {
    fn is(self, call: Call) -> bool
        ensures { IsTrue result ↔ call_of self.entry.number ≡ Some call }
    {
        call_of(self.number) == Some(call)
    }
}

// The name of a call and its arguments, up to the bracket after them.
impl fmt::Display for Told<'_> {
    ghost output = { λ call. Some (told_text call.number call.text.now) };

    #[tactic(auto, unfolding(crate::specs::Lines::told_text))]
    fn fmt<W: fmt::Write>(&self, f: &mut fmt::Formatter<W>) -> fmt::Result {
        let (name, text) = (CallName(self.number), self.text);
        write!(f, "{name}({text}")
    }
}

// The bracket after the arguments, and what the call returned.
#[tactic(auto, unfolding(crate::specs::Lines::answer_text))]
fn write_answer<W: fmt::Write>(f: &mut fmt::Formatter<W>, answer: i64) -> fmt::Result
    ensures { DisplaysOnOk W.write_str_gives f.old result (Some (answer_text answer)) f.new }
{
    write!(f, ") = {answer}")
}

// Calls in a row that returned at once.
fn write_answered<W: fmt::Write>(
    f: &mut fmt::Formatter<W>,
    call: Told<'_>,
    answer: i64,
    times: u64,
) -> fmt::Result
    ensures { DisplaysOnOk W.write_str_gives f.old result
        (Some (answered_text call.entry.number call.entry.text.now answer times)) f.new }
{
    call.fmt(f)?;
    write_answer(f, answer)?;
    if times > 1 {
        write!(f, " ({times} times)")
    } else {
        Ok(())
    }
}

// A read that waits: what it asks for is in the line that it resumes by.
fn write_unread<W: fmt::Write>(f: &mut fmt::Formatter<W>, call: Told<'_>) -> fmt::Result
    ensures { DisplaysOnOk W.write_str_gives f.old result
        (Some (unread_text call.entry.number call.entry.text.now)) f.new }
{
    let (name, front) = (CallName(call.number), &call.text.front);
    write!(f, "{name}({front}<unfinished ...>")
}

// A call that waits.
#[tactic(auto, using(crate::proofs::TextLemmas::no_read))]
fn write_unfinished<W: fmt::Write>(f: &mut fmt::Formatter<W>, call: Told<'_>) -> fmt::Result
    ensures { DisplaysOnOk W.write_str_gives f.old result
        (Some (unfinished_text (call_of call.entry.number) call.entry.number call.entry.text.now)) f.new }
{
    if call.is(Call::Read) {
        write_unread(f, call)
    } else {
        write!(f, "{call} <unfinished ...>")
    }
}

// What read and wait filled in.
#[tactic(auto, using(crate::proofs::TextLemmas::no_filler))]
fn write_filled_in<W: fmt::Write>(f: &mut fmt::Formatter<W>, call: Told<'_>) -> fmt::Result
    ensures { DisplaysOnOk W.write_str_gives f.old result
        (Some (filled_in (call_of call.entry.number) call.entry.text.now)) f.new }
{
    if call.is(Call::Read) || call.is(Call::Wait) {
        let rest = call.text.rest();
        write!(f, " {rest}")
    } else {
        Ok(())
    }
}

// A call that returned in a turn, with what it filled in.
fn write_resumed<W: fmt::Write>(
    f: &mut fmt::Formatter<W>,
    call: Told<'_>,
    answer: i64,
) -> fmt::Result
    ensures { DisplaysOnOk W.write_str_gives f.old result
        (Some (resumed_text call.entry.number call.entry.text.now answer)) f.new }
{
    let name = CallName(call.number);
    write!(f, "<... {name} resumed>")?;
    write_filled_in(f, call)?;
    write_answer(f, answer)
}

// What becomes of a call.
#[tactic(auto, unfolding(crate::specs::Lines::outcome_text))]
fn write_outcome<W: fmt::Write>(
    f: &mut fmt::Formatter<W>,
    call: Told<'_>,
    outcome: Outcome,
) -> fmt::Result
    ensures { DisplaysOnOk W.write_str_gives f.old result
        (Some (outcome_text call.entry.number call.entry.text.now outcome)) f.new }
{
    match outcome {
        Outcome::Answered { answer, times } => write_answered(f, call, answer, times),
        Outcome::Unfinished => write_unfinished(f, call),
        Outcome::Resumed(answer) => write_resumed(f, call, answer),
        Outcome::Left => write!(f, "{call}) = ?"),
    }
}

// A fault, the pc of its instruction, and the pc's name, if it is known.
#[tactic(auto, unfolding(crate::specs::Lines::hexadecimal))]
fn write_fault<W: fmt::Write>(
    f: &mut fmt::Formatter<W>,
    fault: FaultText,
    pc: u64,
    name: Option<&str>,
) -> fmt::Result
    ensures { DisplaysOnOk W.write_str_gives f.old result (Some (fault_text fault pc name.entry)) f.new }
{
    match name {
        Some(name) => write!(f, "--- {fault}, pc 0x{pc:x} in {name} ---"),
        None => write!(f, "--- {fault}, pc 0x{pc:x} ---"),
    }
}

// Who killed a process, if that is known.
fn write_killed<W: fmt::Write>(f: &mut fmt::Formatter<W>, killer: Option<u32>) -> fmt::Result
    ensures { DisplaysOnOk W.write_str_gives f.old result (Some (killed_text killer)) f.new }
{
    match killer {
        Some(killer) => write!(f, "+++ killed by pid {killer} +++"),
        None => f.write_str("+++ killed +++"),
    }
}

impl fmt::Display for Says<'_> {
    ghost output = { λ says. Some (says_text says) };

    #[tactic(auto, unfolding(crate::specs::Lines::says_text))]
    fn fmt<W: fmt::Write>(&self, f: &mut fmt::Formatter<W>) -> fmt::Result {
        match *self {
            Says::Call { call, outcome } => write_outcome(f, call, outcome),
            Says::Ended(status) => write!(f, "+++ ended with {status} +++"),
            Says::Fault { fault, pc, name } => write_fault(f, fault, pc, name),
            Says::Killed(killer) => write_killed(f, killer),
            Says::Turn => f.write_str("--- turn ---"),
            Says::Tick => f.write_str("--- tick ---"),
        }
    }
}

impl fmt::Display for Line<'_> {
    ghost output = { λ line. Some (line_text line) };

    #[tactic(auto, unfolding(crate::specs::Lines::line_saying))]
    fn fmt<W: fmt::Write>(&self, f: &mut fmt::Formatter<W>) -> fmt::Result {
        let (pid, says) = (self.pid, self.says);
        if let Some(at) = self.at {
            write!(f, "{at} ")?;
        }
        writeln!(f, "[pid {pid}] {says}")
    }
}
