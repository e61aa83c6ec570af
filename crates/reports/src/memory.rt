//! The pages of a process.

use crate::who::Who;
use blockdev::BlockDev;
use machine::{Machine, Perm};
use std::fmt;
use std::fmt::Display;
use sv39::Translate;

/// The pages of a process with their marks, those that follow one another with the same marks in one line.
#[derive(Drop)]
pub struct MemoryReport<'a, D: BlockDev, T: Translate> {
    who: Who,
    machine: &'a Machine<D, T>,
}

/// Pages that follow one another with the same marks.
#[derive(Clone, Copy)]
struct Pages {
    first: u64,
    last: u64,
    marks: Perm,
}

fn letter(is: bool, letter: char) -> char {
    if is { letter } else { '-' }
}

/// The marks of a page, as a program may use it.
#[derive(Clone, Copy)]
struct Letters(Perm);

impl fmt::Display for Letters {
    fn fmt<W: fmt::Write>(&self, f: &mut fmt::Formatter<W>) -> fmt::Result {
        let marks = self.0;
        f.write_char(letter(marks.u, 'r'))?;
        f.write_char(letter(marks.u && marks.w, 'w'))?;
        f.write_char(letter(marks.u && marks.x, 'x'))
    }
}

impl fmt::Display for Pages {
    fn fmt<W: fmt::Write>(&self, f: &mut fmt::Formatter<W>) -> fmt::Result {
        let begin = self.first.wrapping_mul(4096);
        let end = self.last.wrapping_mul(4096).wrapping_add(4095);
        let letters = Letters(self.marks);
        writeln!(f, "  {begin:#010x} to {end:#010x} {letters}")
    }
}

// Writes pages, if there are any.
fn write_open<W: fmt::Write>(f: &mut fmt::Formatter<W>, open: Option<Pages>) -> fmt::Result {
    match open {
        Some(pages) => pages.fmt(f),
        None => Ok(()),
    }
}

// Goes on with a page: with those before it, if it has their marks; else those are written.
fn go_on<W: fmt::Write>(
    f: &mut fmt::Formatter<W>,
    open: Option<Pages>,
    page: u64,
    marks: Perm,
) -> Result<Pages, fmt::Error> {
    if let Some(pages) = open
        && pages.marks == marks
    {
        return Ok(Pages {
            last: page,
            ..pages
        });
    }
    write_open(f, open)?;
    Ok(Pages {
        first: page,
        last: page,
        marks,
    })
}

impl<'a, D: BlockDev, T: Translate> MemoryReport<'a, D, T> {
    pub(crate) fn new(who: Who, machine: &'a Machine<D, T>) -> MemoryReport<'a, D, T> {
        MemoryReport { who, machine }
    }

    // Writes the first `count` pages.
    fn write_pages<W: fmt::Write>(&self, f: &mut fmt::Formatter<W>, count: u64) -> fmt::Result {
        let mut open = None;
        for page in 0..count {
            if let Some((_, marks)) = self.machine.peek(self.who.pid, page) {
                open = Some(go_on(f, open, page, marks)?);
            }
        }
        write_open(f, open)
    }
}

impl<D: BlockDev, T: Translate> fmt::Display for MemoryReport<'_, D, T> {
    fn fmt<W: fmt::Write>(&self, f: &mut fmt::Formatter<W>) -> fmt::Result {
        let who = self.who;
        let Some(seen) = self.machine.inspect(who.pid) else {
            return writeln!(f, "{who}: no process");
        };
        let (size, count) = (seen.size, seen.size.div_ceil(4096));
        writeln!(f, "{who}: {size} bytes, {count} pages")?;
        self.write_pages(f, count)
    }
}
