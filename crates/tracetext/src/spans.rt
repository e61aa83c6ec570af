//! The events of Chrome's trace format. One event of the machine is a microsecond.
ghost use Rattle.std.specs.Prelude.{◌≡◌, ◌-◌, None, Some, codes};
ghost use Rattle.tracetext.specs.Spans.{IsCall, IsNamed, IsPlain, Stands};

use crate::call_names::CallName;
use crate::lines::FaultText;
use crate::quoting::{Escaped, Spelled};
use std::fmt;
use std::fmt::Display;

/// The lane of a process that has what it does on the hart.
pub const HART: u8 = 1;

/// The lane of a process that has its calls.
pub const CALLS: u8 = 2;

/// What the file begins with, up to the first event.
pub const HEAD: &str =
    "{\"displayTimeUnit\":\"ns\",\"otherData\":{\"unit\":\"one microsecond is one event\"},\"traceEvents\":[\n{\"ph\":\"M\",\"name\":\"process_name\",\"pid\":0,\"args\":{\"name\":\"machine\"}}";

/// What the file ends with.
pub const TAIL: &str = "\n]}\n";

/// What an event of each kind begins with, up to its name.
const SETTING: &str = "\"ph\":\"M\"";

const SLICE_OF_HART: &str = "\"ph\":\"X\",\"cat\":\"hart\"";

const SLICE_OF_CALL: &str = "\"ph\":\"X\",\"cat\":\"call\"";

const SLICE_OF_LIFE: &str = "\"ph\":\"X\",\"cat\":\"life\"";

const BEGINNING_OF_CALL: &str = "\"ph\":\"B\",\"cat\":\"call\"";

const LEVEL: &str = "\"ph\":\"C\"";

const MOMENT_OF_ALL: &str = "\"ph\":\"i\",\"s\":\"g\"";

const MOMENT_OF_LANE: &str = "\"ph\":\"i\",\"s\":\"t\"";

/// What an arrow stands for.
#[derive(Clone, Copy)]
pub enum Arrow {
    /// Bytes that go through a pipe.
    Bytes,
    /// A fork, to the child.
    Fork,
    /// The end of a process, to the one that waits for it.
    End,
}

impl Arrow {
    fn name(self) -> &'static str {
        match self {
            Arrow::Bytes => "bytes",
            Arrow::Fork => "fork",
            Arrow::End => "end",
        }
    }

    // What its first end begins with, up to the name.
    fn from(self) -> &'static str {
        match self {
            Arrow::Bytes => "\"ph\":\"s\",\"cat\":\"pipe\"",
            Arrow::Fork => "\"ph\":\"s\",\"cat\":\"fork\"",
            Arrow::End => "\"ph\":\"s\",\"cat\":\"end\"",
        }
    }

    // What its second end begins with, up to the name.
    fn to(self) -> &'static str {
        match self {
            Arrow::Bytes => "\"ph\":\"f\",\"bp\":\"e\",\"cat\":\"pipe\"",
            Arrow::Fork => "\"ph\":\"f\",\"bp\":\"e\",\"cat\":\"fork\"",
            Arrow::End => "\"ph\":\"f\",\"bp\":\"e\",\"cat\":\"end\"",
        }
    }
}

/// A point of a lane.
#[derive(Clone, Copy)]
pub struct Point {
    pub at: u64,
    pub pid: u32,
    pub lane: u8,
}

/// What passed between two moments.
#[derive(Clone, Copy)]
pub struct Period {
    pub since: u64,
    pub until: u64,
}

impl Period {
    // How long it lasted.
    fn length(self) -> u64
        ensures { result ≡ self.until - self.since }
    {
        self.until.saturating_sub(self.since)
    }
}

/// A call that returned, or ended with its process.
#[derive(Clone, Copy)]
pub struct Done<'a> {
    pub number: u32,
    pub period: Period,
    pub text: &'a str,
    pub answer: Option<i64>,
}

// What an event is called.
#[derive(Clone, Copy)]
enum Title {
    Plain(&'static str),
    Call(CallName),
    Pipe(usize),
    Key(u8),
    Fault(FaultText),
}

// A typed byte, in quotes.
fn write_key<W: fmt::Write>(f: &mut fmt::Formatter<W>, key: u8) -> fmt::Result {
    let bytes = [key];
    let typed = Spelled(&bytes);
    write!(f, "key \\\"{typed}\\\"")
}

impl fmt::Display for Title {
    fn fmt<W: fmt::Write>(&self, f: &mut fmt::Formatter<W>) -> fmt::Result {
        match *self {
            Title::Plain(name) => f.write_str(name),
            Title::Call(name) => name.fmt(f),
            Title::Pipe(number) => write!(f, "pipe {number}"),
            Title::Key(key) => write_key(f, key),
            Title::Fault(fault) => fault.fmt(f),
        }
    }
}

// What an event has after its numbers.
#[derive(Clone, Copy)]
enum Details<'a> {
    None,
    // The name of a process or a lane.
    Name(&'a [u8]),
    // The index of a process among the others.
    Place(u32),
    // A call with its arguments, and what it returned.
    Call {
        name: CallName,
        text: &'a str,
        answer: Option<i64>,
    },
    // How many bytes a pipe has.
    Bytes(usize),
}

// A call with its arguments, and what it returned.
fn write_call<W: fmt::Write>(
    f: &mut fmt::Formatter<W>,
    name: CallName,
    text: &str,
    answer: Option<i64>,
) -> fmt::Result {
    let text = Escaped(text);
    write!(f, "\"call\":\"{name}({text})\",\"answer\":\"")?;
    match answer {
        Some(answer) => write!(f, "{answer}\""),
        None => f.write_str("?\""),
    }
}

impl Details<'_> {
    fn write_members<W: fmt::Write>(self, f: &mut fmt::Formatter<W>) -> fmt::Result {
        match self {
            Details::None => Ok(()),
            Details::Name(name) => {
                let name = Spelled(name);
                write!(f, "\"name\":\"{name}\"")
            }
            Details::Place(place) => write!(f, "\"sort_index\":{place}"),
            Details::Call { name, text, answer } => write_call(f, name, text, answer),
            Details::Bytes(count) => write!(f, "\"bytes\":{count}"),
        }
    }
}

impl fmt::Display for Details<'_> {
    fn fmt<W: fmt::Write>(&self, f: &mut fmt::Formatter<W>) -> fmt::Result {
        if let Details::None = self {
            return Ok(());
        }
        f.write_str(",\"args\":{")?;
        self.write_members(f)?;
        f.write_str("}")
    }
}

// A member that is a number, where there is one, after others.
fn write_number<W: fmt::Write>(
    f: &mut fmt::Formatter<W>,
    key: &str,
    number: Option<u64>,
) -> fmt::Result {
    match number {
        Some(number) => write!(f, ",\"{key}\":{number}"),
        None => Ok(()),
    }
}

/// An event of the trace.
#[derive(Clone, Copy)]
pub struct Span<'a> {
    // What it begins with, up to its name.
    kind: &'static str,
    title: Title,
    // The number of its arrow.
    id: Option<u64>,
    at: Option<u64>,
    lasts: Option<u64>,
    pid: u32,
    lane: Option<u64>,
    details: Details<'a>,
}

impl<'a> Span<'a> {
    // An event of a process, or of the machine, which is process 0, that has nothing besides.
    fn new(kind: &'static str, title: Title, pid: u32) -> Self
        ensures stands { Stands result None None pid None None }
        ensures kind { result.kind.now ≡ kind.now }
        ensures title { result.title ≡ title }
    {
        Span {
            kind,
            title,
            id: None,
            at: None,
            lasts: None,
            pid,
            lane: None,
            details: Details::None,
        }
    }

    // An event of a lane.
    fn on(kind: &'static str, title: Title, point: Point) -> Self
        ensures stands { Stands result (Some point.at) None point.pid (Some point.lane) None }
        ensures kind { result.kind.now ≡ kind.now }
        ensures title { result.title ≡ title }
    {
        Span {
            at: Some(point.at),
            lane: Some(u64::from(point.lane)),
            ..Span::new(kind, title, point.pid)
        }
    }

    // A slice of a lane.
    fn slice(kind: &'static str, title: Title, pid: u32, lane: u8, period: Period) -> Self
        ensures stands { Stands result (Some period.since) (Some (period.until - period.since)) pid (Some lane) None }
        ensures kind { result.kind.now ≡ kind.now }
        ensures title { result.title ≡ title }
    {
        let at = period.since;
        Span {
            lasts: Some(period.length()),
            ..Span::on(kind, title, Point { at, pid, lane })
        }
    }

    /// A process has this name.
    pub fn name(pid: u32, name: &'a [u8]) -> Self
        ensures stands { Stands result None None pid None None }
        ensures name { IsNamed result.details name.now }
        ensures title { IsPlain result.title (codes "process_name") }
    {
        Span {
            details: Details::Name(name),
            ..Span::new(SETTING, Title::Plain("process_name"), pid)
        }
    }

    // A process is sorted by its pid.
    fn place(pid: u32) -> Self {
        Span {
            details: Details::Place(pid),
            ..Span::new(SETTING, Title::Plain("process_sort_index"), pid)
        }
    }

    // A lane of a process has this name.
    fn lane(pid: u32, lane: u8, name: &'a [u8]) -> Self {
        Span {
            lane: Some(u64::from(lane)),
            details: Details::Name(name),
            ..Span::new(SETTING, Title::Plain("thread_name"), pid)
        }
    }

    /// A process had the hart.
    pub fn runs(pid: u32, period: Period) -> Self
        ensures stands { Stands result (Some period.since) (Some (period.until - period.since)) pid (Some HART) None }
        ensures title { IsPlain result.title (codes "runs") }
    {
        Span::slice(SLICE_OF_HART, Title::Plain("runs"), pid, HART, period)
    }

    /// A call of a process.
    pub fn call(pid: u32, done: Done<'a>) -> Self
        ensures stands { Stands result (Some done.entry.period.since)
            (Some (done.entry.period.until - done.entry.period.since)) pid (Some CALLS) None }
        ensures call { IsCall result.details done.entry.number done.entry.text.now done.entry.answer }
    {
        let name = CallName(done.number);
        let (text, answer) = (done.text, done.answer);
        Span {
            details: Details::Call { name, text, answer },
            ..Span::slice(SLICE_OF_CALL, Title::Call(name), pid, CALLS, done.period)
        }
    }

    /// A call that didn't return, which began at this point.
    pub fn open(number: u32, since: Point) -> Self
        ensures stands { Stands result (Some since.at) None since.pid (Some since.lane) None }
        ensures title { result.title ≡ Title.Call (record { 0 = number }) }
    {
        Span::on(BEGINNING_OF_CALL, Title::Call(CallName(number)), since)
    }

    /// A moment in the lane of calls.
    pub fn moment(pid: u32, name: &'static str, at: u64) -> Self
        ensures stands { Stands result (Some at) (Some 1) pid (Some CALLS) None }
        ensures title { IsPlain result.title name.now }
    {
        let lane = CALLS;
        Span {
            lasts: Some(1),
            ..Span::on(SLICE_OF_LIFE, Title::Plain(name), Point { at, pid, lane })
        }
    }

    /// The arrow of this number begins at a point.
    pub fn from(arrow: Arrow, id: u64, point: Point) -> Self
        ensures { Stands result (Some point.at) None point.pid (Some point.lane) (Some id) }
    {
        Span {
            id: Some(id),
            ..Span::on(arrow.from(), Title::Plain(arrow.name()), point)
        }
    }

    /// The arrow of this number ends at a point.
    pub fn to(arrow: Arrow, id: u64, point: Point) -> Self
        ensures { Stands result (Some point.at) None point.pid (Some point.lane) (Some id) }
    {
        Span {
            id: Some(id),
            ..Span::on(arrow.to(), Title::Plain(arrow.name()), point)
        }
    }

    /// How many bytes a pipe has.
    pub fn level(pipe: usize, at: u64, bytes: usize) -> Self
        ensures stands { Stands result (Some at) None 0 None None }
        ensures title { result.title ≡ Title.Pipe pipe }
        ensures bytes { result.details ≡ Details.Bytes bytes }
    {
        Span {
            at: Some(at),
            details: Details::Bytes(bytes),
            ..Span::new(LEVEL, Title::Pipe(pipe), 0)
        }
    }

    // A moment of the whole machine.
    fn moment_of_all(title: Title, at: u64) -> Self
        ensures stands { Stands result (Some at) None 0 (Some 0) None }
        ensures title { result.title ≡ title }
    {
        let (pid, lane) = (0, 0);
        Span::on(MOMENT_OF_ALL, title, Point { at, pid, lane })
    }

    /// A timer interrupt.
    pub fn tick(at: u64) -> Self
        ensures stands { Stands result (Some at) None 0 (Some 0) None }
        ensures title { IsPlain result.title (codes "tick") }
    {
        Span::moment_of_all(Title::Plain("tick"), at)
    }

    /// A typed byte.
    pub fn key(at: u64, key: u8) -> Self
        ensures stands { Stands result (Some at) None 0 (Some 0) None }
        ensures title { result.title ≡ Title.Key key }
    {
        Span::moment_of_all(Title::Key(key), at)
    }

    /// A process faulted.
    pub fn fault(pid: u32, at: u64, fault: FaultText) -> Self
        ensures stands { Stands result (Some at) None pid (Some HART) None }
        ensures title { result.title ≡ Title.Fault fault }
    {
        let lane = HART;
        Span::on(MOMENT_OF_LANE, Title::Fault(fault), Point { at, pid, lane })
    }
}

impl Span<'_> {
    // Its members that are numbers.
    fn write_numbers<W: fmt::Write>(&self, f: &mut fmt::Formatter<W>) -> fmt::Result {
        write_number(f, "id", self.id)?;
        write_number(f, "ts", self.at)?;
        write_number(f, "dur", self.lasts)?;
        write_number(f, "pid", Some(u64::from(self.pid)))?;
        write_number(f, "tid", self.lane)
    }
}

impl fmt::Display for Span<'_> {
    fn fmt<W: fmt::Write>(&self, f: &mut fmt::Formatter<W>) -> fmt::Result {
        let (kind, title, details) = (self.kind, self.title, self.details);
        write!(f, "{{{kind},\"name\":\"{title}\"")?;
        self.write_numbers(f)?;
        write!(f, "{details}}}")
    }
}

/// An event after others: a comma comes before it.
#[derive(Clone, Copy)]
pub struct Next<'a>(pub Span<'a>);

impl fmt::Display for Next<'_> {
    fn fmt<W: fmt::Write>(&self, f: &mut fmt::Formatter<W>) -> fmt::Result {
        let span = self.0;
        write!(f, ",\n{span}")
    }
}

/// A process has its index, and its lanes have their names: three events that follow others.
#[derive(Clone, Copy)]
pub struct Lanes(pub u32);

impl fmt::Display for Lanes {
    fn fmt<W: fmt::Write>(&self, f: &mut fmt::Formatter<W>) -> fmt::Result {
        let pid = self.0;
        Next(Span::place(pid)).fmt(f)?;
        Next(Span::lane(pid, HART, b"hart")).fmt(f)?;
        Next(Span::lane(pid, CALLS, b"calls")).fmt(f)
    }
}
