//! A name of an address, and how it is written.

use lines::Line;
use std::fmt;
use symbols::Place;

/// What is known of an address: the function or label that has it, the line that it is of, or both.
#[derive(Clone, Copy, Debug, PartialEq, Eq)]
pub struct Name<'a> {
    pub place: Option<Place<'a>>,
    pub line: Option<Line<'a>>,
}

// The bytes of a name, with a question mark for each that is no graphic character of ASCII.
#[derive(Clone, Copy)]
struct Graphic<'a>(&'a [u8]);

impl fmt::Display for Graphic<'_> {
    fn fmt<W: fmt::Write>(&self, f: &mut fmt::Formatter<W>) -> fmt::Result {
        for byte in self.0 {
            let byte = if byte.is_ascii_graphic() { *byte } else { b'?' };
            f.write_char(char::from(byte))?;
        }
        Ok(())
    }
}

// A function or label, and the offset in it where there is one: `sum+0x10`.
fn write_place<W: fmt::Write>(place: &Place<'_>, f: &mut fmt::Formatter<W>) -> fmt::Result {
    let name = Graphic(place.name);
    if place.offset == 0 {
        return write!(f, "{name}");
    }
    let offset = place.offset;
    write!(f, "{name}+{offset:#x}")
}

// A line: `(oops.c:4)`.
fn write_line<W: fmt::Write>(line: &Line<'_>, f: &mut fmt::Formatter<W>) -> fmt::Result {
    let (file, number) = (Graphic(line.file), line.line);
    if line.file.is_empty() {
        return write!(f, "(line {number})");
    }
    write!(f, "({file}:{number})")
}

/// As `sum+0x10 (oops.c:4)`.
impl fmt::Display for Name<'_> {
    fn fmt<W: fmt::Write>(&self, f: &mut fmt::Formatter<W>) -> fmt::Result {
        if let Some(place) = &self.place {
            write_place(place, f)?;
        }
        if self.place.is_some() && self.line.is_some() {
            f.write_str(" ")?;
        }
        match &self.line {
            Some(line) => write_line(line, f),
            None => Ok(()),
        }
    }
}
