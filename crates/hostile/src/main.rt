//! What an enemy hands a machine: programs of random words, odd arguments of calls, odd program files, and odd images.
//!
//! Each line of standard input names cases, all of which have to go well:
//!
//! | line | cases |
//! |---|---|
//! | `programs FROM TO` | the programs of random words of these seeds |
//! | `arguments` | programs that give odd arguments, or change themselves |
//! | `code` | programs that write their own code, by many steps at once and by one at a time |
//! | `files` | program files with odd headers, for exec and as `/init` |
//! | `images` | images whose parts name themselves |
//! | `pieces` | each beginning of an image |
//! | `bits N` | the image with one bit turned, of one bit in N of its first blocks |
//!
//! The line is printed again with `: well` after it; the first case that goes wrong ends the program.
#![tactic(auto)]

mod arguments;
mod code;
mod images;
mod program_files;
mod random;
mod rules;
mod runs;
mod turned;

use anyhow::{Context, bail};
use std::alloc::Global;
use std::io;
use std::io::{BufWriter, Write};

/// Cases that are named by a line.
#[derive(Clone, Copy)]
enum Cases {
    Programs { from: u64, to: u64 },
    Arguments,
    Code,
    Files,
    Images,
    Pieces,
    Bits { stride: usize },
}

impl Cases {
    // The cases that a line names, if it names some.
    fn read(line: &str) -> Option<Cases> {
        match line {
            "arguments" => return Some(Cases::Arguments),
            "code" => return Some(Cases::Code),
            "files" => return Some(Cases::Files),
            "images" => return Some(Cases::Images),
            "pieces" => return Some(Cases::Pieces),
            _ => {}
        }
        if let Some(stride) = line.strip_prefix("bits ") {
            let stride = stride.parse().ok()?;
            return Some(Cases::Bits { stride });
        }
        let (from, to) = line.strip_prefix("programs ")?.split_once(' ')?;
        Some(Cases::Programs {
            from: from.parse().ok()?,
            to: to.parse().ok()?,
        })
    }

    // The first case that goes wrong.
    fn wrong(&self, alloc: Global) -> Option<u64> {
        match self {
            Cases::Programs { from, to } => random::wrong(alloc, *from, *to),
            Cases::Arguments => arguments::wrong(alloc),
            Cases::Code => code::wrong(alloc),
            Cases::Files => program_files::wrong(alloc),
            Cases::Images => images::wrong(alloc),
            Cases::Pieces => turned::wrong_piece(alloc),
            Cases::Bits { stride } => turned::wrong_bit(alloc, *stride),
        }
    }
}

// Goes through the cases of a line.
fn try_line<W: Write>(alloc: Global, line: &str, out: &mut W) -> anyhow::Result<()> {
    let cases = Cases::read(line).context("a line names cases")?;
    if let Some(number) = cases.wrong(alloc) {
        bail!("{line}: case {number} goes wrong");
    }
    writeln!(out, "{line}: well")?;
    Ok(())
}

// Goes through the cases of each line.
fn try_all<W: Write>(alloc: Global, text: &str, out: &mut W) -> anyhow::Result<()> {
    for line in text.lines() {
        try_line(alloc, line, out)?;
    }
    out.flush()?;
    Ok(())
}

fn main(rt: HostRuntime) -> anyhow::Result<()> {
    let alloc = rt.alloc();
    let text = io::read_to_string(alloc, rt.reader())?;
    let mut out = BufWriter::new(alloc, io::writer(&rt))?;
    try_all(alloc, text.as_str(), &mut out)
}
