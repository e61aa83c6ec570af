//! Bytes as text in quotes.
ghost use Rattle.std.specs.Prelude.{◌≡◌, Some};
ghost use Rattle.std.specs.Fmt.{DisplaysOnOk};
ghost use Rattle.std.specs.List.{slice_get};
ghost use Rattle.tracetext.specs.Quotes.{closing, is_octal_digit, octal, quoted, quoted_byte, quoted_bytes};

use std::fmt;

// Whether what follows begins with a digit of base 8.
fn is_octal_digit(next: Option<u8>) -> bool
    ensures { result ≡ is_octal_digit next }
{
    matches!(next, Some(b'0'..=b'7'))
}

// A byte in octal digits: three of them before another digit.
fn write_octal<W: fmt::Write>(f: &mut fmt::Formatter<W>, byte: u8, next: Option<u8>) -> fmt::Result
    ensures { DisplaysOnOk W.write_str_gives f.old result (Some (octal byte next)) f.new }
{
    if is_octal_digit(next) {
        write!(f, "\\{byte:03o}")
    } else {
        write!(f, "\\{byte:o}")
    }
}

// A byte as strace quotes it, before another one or the end.
#[tactic(auto, unfolding(crate::specs::Quotes::quoted_byte))]
fn write_byte<W: fmt::Write>(f: &mut fmt::Formatter<W>, byte: u8, next: Option<u8>) -> fmt::Result
    ensures { DisplaysOnOk W.write_str_gives f.old result (Some (quoted_byte byte next)) f.new }
{
    match byte {
        b'\n' => f.write_str("\\n"),
        b'\t' => f.write_str("\\t"),
        b'"' => f.write_str("\\\""),
        b'\\' => f.write_str("\\\\"),
        b' '..=b'~' => f.write_char(char::from(byte)),
        _ => write_octal(f, byte, next),
    }
}

// The byte of a number.
fn byte_at(bytes: &[u8], index: usize) -> Option<u8>
    ensures { result ≡ slice_get bytes.now index }
{
    bytes.get(index).copied()
}

// Bytes as strace has them between quotes.
fn write_bytes<W: fmt::Write>(f: &mut fmt::Formatter<W>, bytes: &[u8]) -> fmt::Result
    ensures { DisplaysOnOk W.write_str_gives f.old result (Some (quoted_bytes bytes.now)) f.new }
{
    for (index, byte) in bytes.iter().enumerate() {
        write_byte(f, *byte, byte_at(bytes, index + 1))?;
    }
    Ok(())
}

// The quotes after bytes, and dots where more bytes follow.
fn closing(is_cut: bool) -> &'static str
    ensures { result.now ≡ closing is_cut }
{
    if is_cut { "\"..." } else { "\"" }
}

/// Bytes in quotes, as strace writes them: `\n`, `\t`, `\"`, `\\`, and other bytes that are no text in octal.
/// Three dots follow the quotes where more bytes follow that are not shown.
#[derive(Clone, Copy)]
pub struct Quoted<'a> {
    pub bytes: &'a [u8],
    pub is_cut: bool,
}

impl fmt::Display for Quoted<'_> {
    ghost output = { λ shown. Some (quoted shown.bytes.now shown.is_cut) };

    #[tactic(auto, unfolding(crate::specs::Quotes::quoted))]
    fn fmt<W: fmt::Write>(&self, f: &mut fmt::Formatter<W>) -> fmt::Result {
        f.write_str("\"")?;
        write_bytes(f, self.bytes)?;
        f.write_str(closing(self.is_cut))
    }
}

// A character of ASCII text as JSON has it between quotes.
fn write_escaped<W: fmt::Write>(f: &mut fmt::Formatter<W>, character: char) -> fmt::Result {
    match character {
        '"' => f.write_str("\\\""),
        '\\' => f.write_str("\\\\"),
        _ => f.write_char(character),
    }
}

/// ASCII text as JSON has it between quotes.
#[derive(Clone, Copy)]
pub struct Escaped<'a>(pub &'a str);

impl fmt::Display for Escaped<'_> {
    fn fmt<W: fmt::Write>(&self, f: &mut fmt::Formatter<W>) -> fmt::Result {
        for character in self.0.chars() {
            write_escaped(f, character)?;
        }
        Ok(())
    }
}

// A byte as JSON has it between quotes: one that is no text as its octal text.
fn write_spelled<W: fmt::Write>(f: &mut fmt::Formatter<W>, byte: u8) -> fmt::Result {
    match byte {
        b'\n' => f.write_str("\\\\n"),
        b'\t' => f.write_str("\\\\t"),
        b' '..=b'~' => write_escaped(f, char::from(byte)),
        _ => write!(f, "\\\\{byte:o}"),
    }
}

/// Bytes as JSON has them between quotes: those that are no text are written as their octal text, so all is ASCII.
#[derive(Clone, Copy)]
pub struct Spelled<'a>(pub &'a [u8]);

impl fmt::Display for Spelled<'_> {
    fn fmt<W: fmt::Write>(&self, f: &mut fmt::Formatter<W>) -> fmt::Result {
        for byte in self.0 {
            write_spelled(f, *byte)?;
        }
        Ok(())
    }
}
