//! What keys mean.
ghost use Rattle.std.specs.Prelude.{◌≡◌};
ghost use Rattle.line_editor.specs.Keys.{command_of, letter_command, number_command, told};

use crate::line::Edit;

/// The escape, which begins the sequence of a key as a cursor key.
const ESCAPE: u8 = 0x1b;

/// What a key does.
#[derive(Clone, Copy)]
pub enum Command {
    /// It changes the line.
    Change(Edit),
    /// The line of the history before, and the one after.
    Older,
    Newer,
    /// The line is finished.
    Finish,
    /// The end of the input where the line is empty; else the byte at the cursor goes.
    End,
}

/// What was typed of a sequence.
#[derive(Clone, Copy)]
pub enum Mode {
    /// Nothing.
    Plain,
    /// An escape.
    Escaped,
    /// What begins the sequence of a key.
    Sequence,
    /// The same, and this digit.
    Numbered(u8),
}

// A key that is no part of a sequence.
fn command_of(key: u8) -> Option<Command>
    ensures { result ≡ command_of key }
{
    match key {
        0x02 => Some(Command::Change(Edit::Left)),
        0x04 => Some(Command::End),
        0x05 => Some(Command::Change(Edit::End)),
        0x06 => Some(Command::Change(Edit::Right)),
        0x08 | 0x7f => Some(Command::Change(Edit::Backspace)),
        b'\n' | b'\r' => Some(Command::Finish),
        0x0b => Some(Command::Change(Edit::Rest)),
        0x0e => Some(Command::Newer),
        0x15 => Some(Command::Change(Edit::Front)),
        0x17 => Some(Command::Change(Edit::Word)),
        0x20..=0x7e => Some(Command::Change(Edit::Insert(key))),
        _ => None,
    }
}

// The letter that ends a sequence.
fn letter_command(key: u8) -> Option<Command>
    ensures { result ≡ letter_command key }
{
    match key {
        b'A' => Some(Command::Older),
        b'B' => Some(Command::Newer),
        b'C' => Some(Command::Change(Edit::Right)),
        b'D' => Some(Command::Change(Edit::Left)),
        b'F' => Some(Command::Change(Edit::End)),
        b'H' => Some(Command::Change(Edit::Home)),
        _ => None,
    }
}

// The digit of a sequence that ends with a tilde.
fn number_command(digit: u8) -> Option<Command>
    ensures { result ≡ number_command digit }
{
    match digit {
        b'1' | b'7' => Some(Command::Change(Edit::Home)),
        b'3' => Some(Command::Change(Edit::Delete)),
        b'4' | b'8' => Some(Command::Change(Edit::End)),
        _ => None,
    }
}

/// What a key does in a mode, and the mode after it.
pub(crate) fn told(mode: Mode, key: u8) -> (Mode, Option<Command>)
    ensures { result ≡ told mode key }
{
    match (mode, key) {
        (Mode::Plain, ESCAPE) => (Mode::Escaped, None),
        (Mode::Plain, _) => (Mode::Plain, command_of(key)),
        (Mode::Escaped, b'[' | b'O') => (Mode::Sequence, None),
        (Mode::Escaped, _) => (Mode::Plain, None),
        (Mode::Sequence, b'0'..=b'9') => (Mode::Numbered(key), None),
        (Mode::Sequence, _) => (Mode::Plain, letter_command(key)),
        (Mode::Numbered(digit), b'~') => (Mode::Plain, number_command(digit)),
        (Mode::Numbered(_), _) => (Mode::Plain, None),
    }
}
