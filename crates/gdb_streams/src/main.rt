//! Recorded sessions of debuggers with a machine: what they send, and what they are sent.
//!
//! Standard input has sessions, with an empty line between two.
//! The first line of one is its title, and each other line has bytes that the debugger sends, as they are.
//! Each session is with the same machine at its start.
//! What the debugger sends is printed again after `> `, and what it is sent after `< `, with `\x` and two digits for a
//! byte that is not printed; at the end of a session the time, and how many events there are.
//! A session `random FROM TO` has the streams of these seeds, which send anything.
#![tactic(auto)]

mod debuggee;
mod random;
mod recorded;

use anyhow::Context;
use debuggee::start;
use gdbserver::debug;
use recorded::Recorded;
use std::alloc::Global;
use std::io;
use std::io::{BufWriter, Write};

// Plays a session, and prints it.
fn play<W: Write>(alloc: Global, session: &str, out: &mut W) -> anyhow::Result<()> {
    let (title, lines) = session.split_once('\n').context("a session has lines")?;
    let mut timeline = start(alloc)?;
    let mut debugger = Recorded::new(alloc, lines);
    debug(alloc, &mut timeline, &mut debugger)?;
    writeln!(out, "{title}")?;
    out.write_all(debugger.told.as_bytes())?;
    let (at, count) = (timeline.at(), timeline.count());
    writeln!(out, "[after {at} of {count} events]\n")?;
    Ok(())
}

// The seeds that a line names.
fn seeds_in(line: &str) -> Option<(u64, u64)> {
    let (from, to) = line.strip_prefix("random ")?.split_once(' ')?;
    Some((from.parse().ok()?, to.parse().ok()?))
}

// Does what a paragraph of standard input asks for.
fn show<W: Write>(alloc: Global, paragraph: &str, out: &mut W) -> anyhow::Result<()> {
    let Some((from, to)) = seeds_in(paragraph) else {
        return play(alloc, paragraph, out);
    };
    random::play_each(alloc, from, to)?;
    writeln!(out, "{paragraph}: well")?;
    Ok(())
}

// Does what standard input asks for.
fn show_all<W: Write>(alloc: Global, text: &str, out: &mut W) -> anyhow::Result<()> {
    for paragraph in text.trim_end().split("\n\n") {
        show(alloc, paragraph, out)?;
        out.flush()?;
    }
    Ok(())
}

fn main(rt: HostRuntime) -> anyhow::Result<()> {
    let alloc = rt.alloc();
    let text = io::read_to_string(alloc, rt.reader())?;
    let mut out = BufWriter::new(alloc, io::writer(&rt))?;
    show_all(alloc, text.as_str(), &mut out)
}
