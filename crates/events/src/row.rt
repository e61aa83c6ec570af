//! Rows of a transcript: events of one kind, one after the other, in a line of a script.
ghost use Rattle.std.specs.Prelude.{◌≡◌, ◌++◌, ◌⊎◌, [], OnOk, true};
ghost use Rattle.events.specs.Rows.{byte_text, bytes_text, row_events, row_text, rows_text};

use arrayvec::ArrayVec;
use std::alloc::AllocError;
use unixmodel::limits::MOST_KEYS;

/// Events of one kind, one after the other.
#[derive(Drop)]
pub enum Row {
    /// This many steps.
    Steps(u32),
    /// This many timer interrupts.
    Ticks(u32),
    /// Typed keys.
    Keys(ArrayVec<u8, MOST_KEYS>),
}

// Puts a byte at the end, as two hexadecimal digits.
fn put_byte(text: &mut String, byte: u8) -> Result<(), AllocError>
    ensures { OnOk result (text.new.bytes.items ≡ text.old.bytes.items ++ byte_text byte) }
{
    write!(text, "{byte:02x}")
}

// Puts bytes at the end, as two hexadecimal digits each.
fn put_bytes(text: &mut String, bytes: &[u8]) -> Result<(), AllocError>
    ensures { OnOk result (text.new.bytes.items ≡ text.old.bytes.items ++ bytes_text bytes.now) }
{
    for byte in bytes {
        put_byte(text, *byte)?;
    }
    Ok(())
}

impl Row {
    /// Whether it has no events.
    pub fn is_empty(&self) -> bool
        ensures { result ≡ true → row_events self.now ≡ [] }
    {
        match self {
            Row::Steps(count) | Row::Ticks(count) => *count == 0,
            Row::Keys(keys) => keys.is_empty(),
        }
    }

    /// Puts the line of the row at the end of a text. An error leaves a beginning of it.
    pub fn put(&self, text: &mut String) -> Result<(), AllocError>
        ensures { OnOk result (text.new.bytes.items ≡ text.old.bytes.items ++ row_text self.now) }
    {
        match self {
            Row::Steps(count) => write!(text, "step {count}\n"),
            Row::Ticks(count) => write!(text, "tick {count}\n"),
            Row::Keys(keys) => {
                text.push_str("keys ")?;
                put_bytes(text, keys.as_slice())?;
                text.push_str("\n")
            }
        }
    }
    /// The same, but where it has no events.
    pub fn put_unless_empty(&self, text: &mut String) -> Result<(), AllocError>
        ensures { OnOk result ((text.new.bytes.items ≡ text.old.bytes.items ++ row_text self.now)
            ⊎ ((row_events self.now ≡ []) × (text.new.bytes.items ≡ text.old.bytes.items))) }
    {
        if self.is_empty() {
            return Ok(());
        }
        self.put(text)
    }
}

/// Puts the lines of rows at the end of a text. An error leaves a beginning of them.
pub fn put_rows(rows: &[Row], text: &mut String) -> Result<(), AllocError>
    ensures { OnOk result (text.new.bytes.items ≡ text.old.bytes.items ++ rows_text rows.now) }
{
    for row in rows {
        row.put(text)?;
    }
    Ok(())
}
