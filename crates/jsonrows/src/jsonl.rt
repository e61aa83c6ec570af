//! Lines of events.
ghost use Rattle.std.specs.Prelude.{IfOk, string_bytes};
ghost use Rattle.jsonrows.specs.Lines.{IsLine};

use crate::texts::Latin;
use serde::Serialize;
use std::alloc::{AllocError, Global};

/// The version of the forms, which goes up where a member goes or its meaning changes.
pub const VERSION: u32 = 1;

/// The kind of a line.
#[derive(Clone, Copy, Serialize)]
#[serde(rename_all = "snake_case")]
pub enum Kind {
    /// The first line.
    Begin,
    /// A call returned.
    Call,
    /// A call waits.
    Wait,
    /// An instruction trapped.
    Fault,
    /// A process ended.
    Exit,
    /// A process got the hart.
    Turn,
    /// The timer took the hart from a process.
    Tick,
    /// The last line.
    End,
}

/// What the first line says: the version of the form.
#[derive(Clone, Copy, Serialize)]
pub struct BeginRow {
    pub version: u32,
}

/// A process that got the hart at an event, or lost it.
#[derive(Clone, Copy, Serialize)]
pub struct TurnRow<'a> {
    pub at: u64,
    pub pid: u32,
    pub program: Option<Latin<'a>>,
}

/// What the last line says: how many events there were.
#[derive(Clone, Copy, Serialize)]
pub struct EndRow {
    pub at: u64,
}

// A line: its kind, and the members of its row.
#[derive(Drop, Serialize)]
struct Tagged<R> {
    event: Kind,
    #[serde(flatten)]
    row: R,
}

/// A row as a line of JSON.
pub fn line<R: Serialize + Drop>(alloc: Global, event: Kind, row: R) -> Result<String, AllocError>
    ensures { IfOk result (λ line. IsLine (string_bytes line)) }
{
    let Ok(mut line) = serde_json::to_string(alloc, &Tagged { event, row }) else {
        return Err(AllocError);
    };
    line.push('\n')?;
    Ok(line)
}
