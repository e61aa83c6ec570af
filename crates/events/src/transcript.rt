//! A record of events in memory, as the lines of a script.
ghost use Rattle.std.specs.Prelude.{◌≡◌, ◌∷◌, [], Some, IfOk, IfSome, is_some, true};
ghost use Rattle.events.specs.Records.{Records, noted};
ghost use Rattle.events.specs.Rows.{IsRow, row_events};
ghost use Rattle.events.specs.Scripts.{IsScriptOf};
ghost use Rattle.unixmodel.specs.declared.event.Event.TheVariants.{Key};

use crate::record::Record;
use crate::row::{Row, put_rows};
use arrayvec::ArrayVec;
use std::alloc::{AllocError, Global};
use std::marker::Model;
use std::mem;

/// The most events of a row.
const MOST_EVENTS: u32 = 1_000_000_000;

/// A record of events in memory, as the lines of a script.
///
/// In contracts it is what is known of it: its events, or `None` once some were lost because memory ran out.
#[derive(Drop)]
pub struct Transcript {
    rows: Vec<Row>,
    // The row that is still added to.
    last: Row,
    is_lost: bool,
}

impl Model for Transcript {
    ghost use Rattle.std.specs.Prelude.{Option};
    ghost use Rattle.std.specs.List.{All};
    ghost use Rattle.events.specs.Records.{Kept};
    ghost use Rattle.events.specs.Rows.{IsRow};
    ghost use Rattle.events.specs.Transcripts.{events_in};

    ghost Value = { Option Kept };

    ghost view = { λ t. events_in t.is_lost t.rows.items t.last };

    ghost invariant = { λ t. All IsRow t.rows.items × IsRow t.last };
}

impl Transcript {
    /// A record of no events.
    pub fn new(alloc: Global) -> Transcript
        ensures { result ≡ Some (noted []) }
    {
        Transcript {
            rows: Vec::new(alloc),
            last: Row::Steps(0),
            is_lost: false,
        }
    }

    // Puts a row after the others.
    fn begin(&mut self, row: Row)
        requires { IsRow row }
        ensures { Records self.old self.new (row_events row) }
    {
        let full = mem::replace(&mut self.last, row);
        if !full.is_empty() && self.rows.push(full).is_err() {
            self.is_lost = true;
        }
    }

    // Records a key after the others.
    fn key(&mut self, key: u8)
        ensures { Records self.old self.new (Key key ∷ []) }
    {
        let mut keys = ArrayVec::new();
        if let Row::Keys(typed) = &mut self.last
            && typed.try_push(key).is_ok()
        {
            return;
        }
        keys.push(key);
        self.begin(Row::Keys(keys));
    }

    /// The text of the script that has these events. An error says that memory ran out, now or before.
    pub fn text(&self, alloc: Global) -> Result<String, AllocError>
        ensures events { IfOk result (λ text. IfSome self.now (λ kept. IsScriptOf text.bytes.items kept.events)) }
        ensures known { IfOk result (λ _. is_some self.now ≡ true) }
    {
        if self.is_lost {
            return Err(AllocError);
        }
        let mut text = String::new(alloc);
        put_rows(self.rows.as_slice(), &mut text)?;
        self.last.put_unless_empty(&mut text)?;
        Ok(text)
    }
}

impl Record for Transcript {
    ghost kept = { λ t. t };

    ghost Rest = { Unit {0} };

    ghost rest = { λ t. tt };

    fn steps(&mut self, count: u32) {
        match self.last {
            Row::Steps(steps) if count <= MOST_EVENTS - steps => {
                self.last = Row::Steps(steps + count);
            }
            _ => self.begin(Row::Steps(count)),
        }
    }

    fn ticks(&mut self, count: u32) {
        match self.last {
            Row::Ticks(ticks) if count <= MOST_EVENTS - ticks => {
                self.last = Row::Ticks(ticks + count);
            }
            _ => self.begin(Row::Ticks(count)),
        }
    }

    fn keys(&mut self, keys: &[u8]) {
        for key in keys {
            self.key(*key);
        }
    }
}
