//! Standard error, of which the last line is kept.
ghost use Rattle.std.specs.Prelude.{◌≡◌, []};
ghost use Rattle.std.specs.Str.{IsUtf8};
ghost use Rattle.explanations.specs.Notes.{kept};

use std::io;
use std::io::Write;

/// The longest line that is kept, in bytes.
const LONGEST: usize = 256;

/// Writes to another writer, and keeps the last line.
#[derive(Drop)]
pub struct Noting<'a, E> {
    inner: &'a mut E,
    line: [u8; LONGEST],
    length: usize,
    is_ended: bool,
}

impl<'a, E: Write> Noting<'a, E> {
    /// A writer to which nothing was written yet.
    pub fn new(inner: &'a mut E) -> Noting<'a, E>
        ensures { kept result.length result.line ≡ [] }
    {
        Noting {
            inner,
            line: [0; LONGEST],
            length: 0,
            is_ended: false,
        }
    }

    /// The last line without its end, as far as it is text of no more than 256 bytes.
    pub fn line(&self) -> &str
        ensures text { IsUtf8 (kept self.now.length self.now.line) → result.now ≡ kept self.now.length self.now.line }
        ensures other { ¬ (IsUtf8 (kept self.now.length self.now.line)) → result.now ≡ [] }
    {
        let (line, _) = self.line.split_at(self.length.min(LONGEST));
        match str::from_utf8(line) {
            Ok(line) => line,
            Err(_) => "",
        }
    }

    // A byte more. The line that has ended goes as the next begins.
    fn note(&mut self, byte: u8) {
        if self.is_ended {
            self.length = 0;
            self.is_ended = false;
        }
        if byte == b'\n' {
            self.is_ended = true;
            return;
        }
        if let Some(place) = self.line.get_mut(self.length) {
            *place = byte;
            self.length = self.length.saturating_add(1);
        }
    }
}

impl<E: Write> Write for Noting<'_, E> {
    fn write(&mut self, buf: &[u8]) -> io::Result<usize> {
        let taken = self.inner.write(buf)?;
        for byte in buf.iter().take(taken) {
            self.note(*byte);
        }
        Ok(taken)
    }

    fn flush(&mut self) -> io::Result<()> {
        self.inner.flush()
    }
}
