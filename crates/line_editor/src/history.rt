//! The lines that were finished.
ghost use Rattle.std.specs.Prelude.{◌≡◌, ◌∷◌, ◌++◌, ◌-◌, [], OnErr, OnOk, length};
ghost use Rattle.line_editor.specs.Editors.{next_place, text_at};

use crate::line::Text;
use std::alloc::{AllocError, Global};

/// The lines that were finished, and which of them is shown: the index after the last one is that of a new line.
#[derive(Drop)]
pub struct History {
    lines: Vec<Text>,
    place: usize,
}

impl History {
    /// No lines.
    pub(crate) fn new(alloc: Global) -> History
        ensures lines { result.lines.items ≡ [] }
        ensures place { result.place ≡ 0 }
    {
        History {
            lines: Vec::new(alloc),
            place: 0,
        }
    }

    /// Goes to the line before, if there is one.
    pub(crate) fn go_back(&mut self)
        ensures lines { self.new.lines ≡ self.old.lines }
        ensures place { self.new.place ≡ self.old.place - 1 }
    {
        self.place = self.place.saturating_sub(1);
    }

    /// Goes to the line after, if there is one, or to the new line.
    pub(crate) fn go_on(&mut self)
        ensures lines { self.new.lines ≡ self.old.lines }
        ensures place { self.new.place ≡ next_place self.old.place (length self.old.lines.items) }
    {
        if self.place < self.lines.len() {
            self.place += 1;
        }
    }

    /// The line that is shown; a new one is empty.
    pub(crate) fn shown(&self) -> Text
        ensures { result.items ≡ text_at self.now.lines.items self.now.place }
    {
        let mut text = Text::new();
        if let Some(line) = self.lines.get(self.place) {
            let _ = text.try_extend_from_slice(line.as_slice());
        }
        text
    }

    /// Keeps a line, and goes to a new one. Without memory the line is forgotten.
    pub(crate) fn keep(&mut self, text: Text) -> Result<(), AllocError>
        ensures kept { OnOk result (self.new.lines.items ≡ self.old.lines.items ++ text ∷ []) }
        ensures forgotten { OnErr result (self.new.lines.items ≡ self.old.lines.items) }
        ensures place { self.new.place ≡ length self.new.lines.items }
    {
        let pushed = self.lines.push(text);
        self.place = self.lines.len();
        match pushed {
            Ok(()) => Ok(()),
            Err(_) => Err(AllocError),
        }
    }

    /// Goes to a new line.
    pub(crate) fn go_to_end(&mut self)
        ensures lines { self.new.lines ≡ self.old.lines }
        ensures place { self.new.place ≡ length self.old.lines.items }
    {
        self.place = self.lines.len();
    }
}
