//! The file that gets the script of what a machine is given.
ghost use Rattle.std.specs.Prelude.{IfSome, IsErr, IsSome, None, OnOk, [], is_none, is_some, map, replicate};
ghost use Rattle.std.specs.Prelude.{true, ◌&&◌, ◌∷◌, ◌≡◌, ◌≤◌};
ghost use Rattle.events.specs.Fields.{MOST};
ghost use Rattle.events.specs.Rows.{IsRow, row_events};
ghost use Rattle.run_commands.specs.ScriptFiles.{HoldsScript, IsAllWritten, IsEmptyIn, IsSound, Puts, Takes};
ghost use Rattle.run_commands.specs.ScriptFiles.{kept_in, new_in};
ghost use Rattle.unixmodel.specs.declared.event.Event.TheVariants.{Key, Step, Tick};

use arrayvec::ArrayVec;
use events::Row;
use host::{Failure, Host, append, write};
use std::alloc::Global;
use std::mem;

/// The most events of a line.
const MOST_EVENTS: u32 = 1_000_000_000;

/// The most bytes of the script that wait to be written.
const MOST_WAITING: usize = 4096;

/// The file that gets the script of what a machine is given, and what waits to be written to it.
#[derive(Drop)]
pub struct ScriptFile<'a> {
    // The name of the file, where a script is recorded, and whether it is made.
    name: Option<&'a str>,
    is_made: bool,
    // The lines that are not written yet, and the row to which events still come.
    lines: String,
    row: Row,
    // Why the script could not be written.
    failure: Option<Failure<'a>>,
}

impl<'a> ScriptFile<'a> {
    /// A script of no events. Its file is made with the first lines.
    pub fn new(alloc: Global, name: Option<&'a str>) -> Self
        ensures sound { (held : _) → IsSound held result }
        ensures empty { (held : _) → kept_in held result ≡ new_in held name.entry }
        ensures name { result.name ≡ name.entry }
    {
        ScriptFile {
            name,
            is_made: false,
            lines: String::new(alloc),
            row: Row::Steps(0),
            failure: None,
        }
    }

    /// The same, whose file is there, and is empty.
    pub fn begun(alloc: Global, name: Option<&'a str>) -> Self
        ensures sound { (held : _) → IsEmptyIn name.entry held → IsSound held result }
        ensures empty { (held : _) → IsEmptyIn name.entry held → kept_in held result ≡ new_in held name.entry }
        ensures name { result.name ≡ name.entry }
    {
        ScriptFile {
            name,
            is_made: true,
            lines: String::new(alloc),
            row: Row::Steps(0),
            failure: None,
        }
    }

    // Whether events are recorded.
    fn is_kept(&self) -> bool
        ensures { result ≡ (is_some self.now.name && is_none self.now.failure) }
    {
        self.name.is_some() && self.failure.is_none()
    }

    // Ends the row, and begins another.
    fn end_row(&mut self, row: Row)
        requires { IsRow row }
        ensures takes { (held : _) → Takes held held self.old self.new (row_events row) }
        ensures row { self.new.row ≡ row }
    {
        let full = mem::replace(&mut self.row, row);
        if full.put_unless_empty(&mut self.lines).is_err() {
            self.failure = Some(Failure::NoMemory);
        }
    }

    // Puts the lines that wait into the file of this name.
    fn put<H: Host>(&self, host: &mut H, name: &'a str) -> Result<(), Failure<'a>>
        ensures { OnOk result (Puts self.now.is_made name.now self.now.lines.bytes.items (H.files host.old)
            (H.files host.new)) }
    {
        let lines = self.lines.as_bytes();
        if self.is_made {
            append(host, name, lines)
        } else {
            write(host, name, lines)
        }
    }

    /// Writes the lines that wait.
    pub fn write_out<H: Host>(&mut self, host: &mut H)
        ensures takes { Takes (H.files host.old) (H.files host.new) self.old self.new [] }
        ensures row { self.new.row ≡ self.old.row }
        ensures all { IsSome self.new.name → self.new.failure ≡ None
            → (self.new.is_made ≡ true) × (self.new.lines.bytes.items ≡ []) }
    {
        let Some(name) = self.name else {
            return;
        };
        if self.failure.is_some() || (self.is_made && self.lines.is_empty()) {
            return;
        }
        match self.put(host, name) {
            Ok(()) => {
                self.is_made = true;
                self.lines.clear();
            }
            Err(failure) => self.failure = Some(failure),
        }
    }

    // Ends the row, and begins another; the lines that wait are written where they are many.
    fn begin<H: Host>(&mut self, host: &mut H, row: Row)
        requires { IsRow row }
        ensures { Takes (H.files host.old) (H.files host.new) self.old self.new (row_events row) }
    {
        self.end_row(row);
        if self.lines.len() > MOST_WAITING {
            self.write_out(host);
        }
    }

    /// Ends the line to which events still come.
    pub fn end_line<H: Host>(&mut self, host: &mut H)
        ensures { Takes (H.files host.old) (H.files host.new) self.old self.new [] }
    {
        if self.is_kept() {
            self.begin(host, Row::Steps(0));
        }
    }

    /// Records steps.
    pub fn steps<H: Host>(&mut self, host: &mut H, count: u32)
        requires { count ≤ MOST }
        ensures { Takes (H.files host.old) (H.files host.new) self.old self.new (replicate count Step) }
    {
        if !self.is_kept() {
            return;
        }
        match self.row {
            Row::Steps(steps) if count <= MOST_EVENTS.saturating_sub(steps) => {
                self.row = Row::Steps(steps + count);
            }
            _ => self.begin(host, Row::Steps(count)),
        }
    }

    /// Records ticks.
    pub fn ticks<H: Host>(&mut self, host: &mut H, count: u32)
        requires { count ≤ MOST }
        ensures { Takes (H.files host.old) (H.files host.new) self.old self.new (replicate count Tick) }
    {
        if !self.is_kept() {
            return;
        }
        match self.row {
            Row::Ticks(ticks) if count <= MOST_EVENTS.saturating_sub(ticks) => {
                self.row = Row::Ticks(ticks + count);
            }
            _ => self.begin(host, Row::Ticks(count)),
        }
    }

    // Records a key.
    fn key<H: Host>(&mut self, host: &mut H, key: u8)
        ensures { Takes (H.files host.old) (H.files host.new) self.old self.new (Key key ∷ []) }
    {
        let mut keys = ArrayVec::new();
        if let Row::Keys(typed) = &mut self.row
            && typed.try_push(key).is_ok()
        {
            return;
        }
        keys.push(key);
        self.begin(host, Row::Keys(keys));
    }

    /// Records keys.
    pub fn keys<H: Host>(&mut self, host: &mut H, keys: &[u8])
        ensures { Takes (H.files host.old) (H.files host.new) self.old self.new (map Key keys.now) }
    {
        if !self.is_kept() {
            return;
        }
        for key in keys {
            self.key(host, *key);
        }
    }

    // Ends the row, and writes all lines.
    fn write_all<H: Host>(&mut self, host: &mut H)
        ensures takes { Takes (H.files host.old) (H.files host.new) self.old self.new [] }
        ensures all { IsSome self.new.name → self.new.failure ≡ None → IsAllWritten self.new }
    {
        if !self.is_kept() {
            return;
        }
        self.end_row(Row::Steps(0));
        self.write_out(host);
    }

    /// Writes the script to its end. An error says why it could not all be written.
    pub fn finish<H: Host>(mut self, host: &mut H) -> Result<(), Failure<'a>>
        ensures failed { IsSome self.entry.failure → IsErr result }
        ensures script { OnOk result (IsSound (H.files host.old) self.entry
            → IfSome (kept_in (H.files host.old) self.entry)
            (λ kept. HoldsScript self.entry.name (H.files host.new) kept.events)) }
    {
        self.write_all(host);
        match self.failure {
            None => Ok(()),
            Some(failure) => Err(failure),
        }
    }
}
