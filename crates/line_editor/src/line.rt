//! The text of a line, and the cursor.
ghost use Rattle.std.specs.Prelude.{◌≡◌, ◌≤◌, ◌==◌, [], false, get_or, length};
ghost use Rattle.line_editor.specs.Lines.{cut, edited, inserted, word_start};

use arrayvec::ArrayVec;
use std::marker::Model;

/// The most bytes of a line: with its end they fill the console's buffer.
pub(crate) const MOST_TEXT: usize = 127;

/// The bytes of a line.
pub(crate) type Text = ArrayVec<u8, MOST_TEXT>;

/// A change of a line or of the cursor.
#[derive(Clone, Copy)]
pub enum Edit {
    /// This byte comes before the cursor.
    Insert(u8),
    Left,
    Right,
    Home,
    End,
    /// The byte before the cursor goes.
    Backspace,
    /// The byte at the cursor goes.
    Delete,
    /// The word before the cursor goes, with the blanks after it.
    Word,
    /// All before the cursor goes.
    Front,
    /// All from the cursor on goes.
    Rest,
}

/// A line: its text, and how many of its bytes are before the cursor.
///
/// In contracts it is this pair.
#[derive(Drop)]
pub struct Line {
    text: Text,
    cursor: usize,
}

impl Model for Line {
    ghost use Rattle.std.specs.Prelude.{List, ℕ, ◌≤◌, length};

    ghost Value = { List ℕ × ℕ };

    ghost view = { λ l. (l.text.items, l.cursor) };

    ghost invariant = { λ l. l.cursor ≤ length l.text.items };
}

// Whether there is a blank at an index, or no byte.
fn is_blank(text: &[u8], place: usize) -> bool
    ensures { result ≡ (get_or text.now place 32 == 32) }
{
    match text.get(place) {
        Some(byte) => *byte == b' ',
        None => true,
    }
}

// Where the word before an index begins; `seen` says whether a byte of it was seen.
fn word_start(text: &[u8], place: usize, seen: bool) -> usize
    ensures start { result ≡ word_start text.now place seen }
    ensures before { result ≤ place }
{
    if place == 0 {
        return 0;
    }
    if !is_blank(text, place - 1) {
        return word_start(text, place - 1, true);
    }
    if seen {
        return place;
    }
    word_start(text, place - 1, false)
}

impl Line {
    /// An empty line.
    pub(crate) fn new() -> Line
        ensures { result ≡ ([], 0) }
    {
        Line {
            text: ArrayVec::new(),
            cursor: 0,
        }
    }

    /// The line of a text, with the cursor at its end.
    pub(crate) fn of(text: Text) -> Line
        ensures { result ≡ (text.items, length text.items) }
    {
        let cursor = text.len();
        Line { text, cursor }
    }

    /// Its text.
    pub(crate) fn text(&self) -> &[u8]
        ensures text { result.now ≡ self.now.0 }
        ensures fits { length result.now ≤ 127 }
    {
        self.text.as_slice()
    }

    /// How many bytes are before the cursor.
    pub(crate) fn cursor(&self) -> usize
        ensures cursor { result ≡ self.now.1 }
        ensures within { result ≤ length self.now.0 }
    {
        self.cursor
    }

    /// Its text alone.
    pub(crate) fn into_text(self) -> Text
        ensures { result.items ≡ self.0 }
    {
        self.text
    }

    // Puts a byte before the cursor, if there is room.
    fn insert(&mut self, key: u8)
        ensures { self.new ≡ inserted key self.old }
    {
        if self.text.try_insert(self.cursor, key).is_ok() {
            self.cursor += 1;
        }
    }

    // Takes the bytes from an index up to another one away.
    fn cut(&mut self, from: usize, to: usize)
        requires order { from ≤ to }
        requires within { to ≤ length self.old.0 }
        ensures { self.new ≡ cut from to self.old }
    {
        let mut kept = Text::new();
        let text = self.text.as_slice();
        let _ = kept.try_extend_from_slice(&text[..from]);
        let _ = kept.try_extend_from_slice(&text[to..]);
        self.text = kept;
        self.cursor = from;
    }

    // Takes the word before the cursor away.
    fn cut_word(&mut self)
        ensures { self.new ≡ cut (word_start self.old.0 self.old.1 false) self.old.1 self.old }
    {
        let start = word_start(self.text.as_slice(), self.cursor, false);
        self.cut(start, self.cursor);
    }

    /// Changes the line or the cursor.
    pub(crate) fn edit(&mut self, edit: Edit)
        ensures { self.new ≡ edited edit self.old }
    {
        let (cursor, length) = (self.cursor, self.text.len());
        match edit {
            Edit::Insert(key) => self.insert(key),
            Edit::Left => self.cursor = cursor.saturating_sub(1),
            Edit::Right if cursor < length => self.cursor = cursor + 1,
            Edit::Right => {}
            Edit::Home => self.cursor = 0,
            Edit::End => self.cursor = length,
            Edit::Backspace => self.cut(cursor.saturating_sub(1), cursor),
            Edit::Delete if cursor < length => self.cut(cursor, cursor + 1),
            Edit::Delete => {}
            Edit::Word => self.cut_word(),
            Edit::Front => self.cut(0, cursor),
            Edit::Rest => self.cut(cursor, length),
        }
    }
}
