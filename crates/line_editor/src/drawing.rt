//! What a terminal has to show.

use std::fmt;

/// A line that is shown instead of the one that is there: back to its beginning, the text, nothing after it, and back
/// to the cursor.
#[derive(Clone, Copy)]
pub struct Drawing<'a> {
    pub(crate) back: usize,
    pub(crate) text: &'a [u8],
    pub(crate) rest: usize,
}

// Moves the cursor back.
fn go_back<W: fmt::Write>(f: &mut fmt::Formatter<W>, columns: usize) -> fmt::Result {
    for _ in 0..columns {
        f.write_char('\x08')?;
    }
    Ok(())
}

impl fmt::Display for Drawing<'_> {
    fn fmt<W: fmt::Write>(&self, f: &mut fmt::Formatter<W>) -> fmt::Result {
        go_back(f, self.back)?;
        for byte in self.text {
            f.write_char(char::from(*byte))?;
        }
        f.write_str("\x1b[K")?;
        go_back(f, self.rest)
    }
}
