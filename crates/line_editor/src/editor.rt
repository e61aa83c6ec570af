//! The line that is edited, and what is given away of it.
ghost use Rattle.std.specs.Prelude.{◌≡◌, ◌≤◌, ◌-◌, ◌++◌, ◌∷◌, [], Some, length, option_map};
ghost use Rattle.line_editor.specs.Editors.{at_end, keys_of, line_after, next_place, text_at};
ghost use Rattle.line_editor.specs.Keys.{told};

use crate::drawing::Drawing;
use crate::history::History;
use crate::keys::{Command, Mode, told};
use crate::line::{Edit, Line, MOST_TEXT};
use arrayvec::ArrayVec;
use std::alloc::Global;
use std::mem;

/// The most keys that are given away at once: a line and its end.
pub const MOST_KEYS: usize = MOST_TEXT + 1;

/// Keys that are given away.
pub type Keys = ArrayVec<u8, MOST_KEYS>;

/// The key of the end of the input, and the one that ends a line.
const END: u8 = 0x04;

const LINE_END: u8 = b'\n';

/// Edits lines.
#[derive(Drop)]
pub struct Editor {
    line: Line,
    mode: Mode,
    history: History,
}

// These keys, and one more.
fn keys_with(text: &[u8], key: u8) -> Keys
    requires { length text.now ≤ 127 }
    ensures { result.items ≡ text.now ++ key ∷ [] }
{
    let mut keys = Keys::new();
    let _ = keys.try_extend_from_slice(text);
    let _ = keys.try_push(key);
    keys
}

impl Editor {
    /// An empty line, and no history.
    pub fn new(alloc: Global) -> Editor
        ensures line { result.line ≡ ([], 0) }
        ensures lines { result.history.lines.items ≡ [] }
    {
        Editor {
            line: Line::new(),
            mode: Mode::Plain,
            history: History::new(alloc),
        }
    }

    /// How many columns the cursor is after the beginning of the line.
    pub fn column(&self) -> usize
        ensures { result ≡ self.now.line.1 }
    {
        self.line.cursor()
    }

    /// What a terminal has to show for the line, whose cursor is `back` columns after the beginning of the line.
    pub fn drawing(&self, back: usize) -> Drawing<'_>
        ensures back { result.back ≡ back }
        ensures text { result.text.now ≡ self.now.line.0 }
        ensures rest { result.rest ≡ length self.now.line.0 - self.now.line.1 }
    {
        let text = self.line.text();
        Drawing {
            back,
            text,
            rest: text.len() - self.line.cursor(),
        }
    }

    // Shows the line of the history that is to be shown.
    fn show(&mut self)
        ensures line { self.new.line ≡ at_end (text_at self.old.history.lines.items self.old.history.place) }
        ensures history { self.new.history ≡ self.old.history }
        ensures mode { self.new.mode ≡ self.old.mode }
    {
        self.line = Line::of(self.history.shown());
    }

    // Ends the line, which comes into the history if it isn't empty.
    fn finish(&mut self) -> Keys
        ensures keys { result.items ≡ self.old.line.0 ++ 10 ∷ [] }
        ensures line { self.new.line ≡ ([], 0) }
        ensures place { self.new.history.place ≡ length self.new.history.lines.items }
        ensures mode { self.new.mode ≡ self.old.mode }
    {
        let keys = keys_with(self.line.text(), LINE_END);
        let text = mem::replace(&mut self.line, Line::new()).into_text();
        if text.is_empty() {
            self.history.go_to_end();
        } else {
            let _ = self.history.keep(text);
        }
        keys
    }

    // Does what a key asks for.
    fn obey(&mut self, command: Command) -> Option<Keys>
        ensures keys { option_map (λ k. k.items) result ≡ keys_of (Some command) self.old.line }
        ensures line { self.new.line ≡ line_after (Some command)
            (text_at self.old.history.lines.items (self.old.history.place - 1))
            (text_at self.old.history.lines.items
            (next_place self.old.history.place (length self.old.history.lines.items)))
            self.old.line }
        ensures mode { self.new.mode ≡ self.old.mode }
    {
        match command {
            Command::Change(edit) => self.line.edit(edit),
            Command::Older => {
                self.history.go_back();
                self.show();
            }
            Command::Newer => {
                self.history.go_on();
                self.show();
            }
            Command::Finish => return Some(self.finish()),
            Command::End if self.line.text().is_empty() => return Some(keys_with(&[], END)),
            Command::End => self.line.edit(Edit::Delete),
        }
        None
    }

    /// Takes a key. Where it finishes a line, these are the keys of the line; the line is empty then.
    pub fn take(&mut self, key: u8) -> Option<Keys>
        ensures keys { option_map (λ k. k.items) result ≡ keys_of (told self.old.mode key).1 self.old.line }
        ensures line { self.new.line ≡ line_after (told self.old.mode key).1
            (text_at self.old.history.lines.items (self.old.history.place - 1))
            (text_at self.old.history.lines.items
            (next_place self.old.history.place (length self.old.history.lines.items)))
            self.old.line }
        ensures mode { self.new.mode ≡ (told self.old.mode key).0 }
    {
        let (mode, command) = told(self.mode, key);
        self.mode = mode;
        self.obey(command?)
    }
}
