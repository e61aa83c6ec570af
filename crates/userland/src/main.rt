//! Sessions at a shell: the programs of `data/` are assembled and put on images, machines boot from these, and what is
//! typed at their consoles shows what each program does.
//!
//! Standard input has sessions, with an empty line between two.
//! The first line of one is its title, the second `boot IMAGE FRAMES`, and the others a script as `xv6 flat` takes it.
//! Images are `xv6.img` and `small.img`; `tests.img`, which has the compiled program `selftest`; `migrated.img`, made
//! of an image of the small format with the files of `xv6.img`; and `left.img`, which the session before left.
//! Of each session it prints the title, the console's bytes and a line end, and a line that says how it ended, how many
//! frames were free then, and what the image that it leaves uses.
//!
//! Each is played on six machines, all of which have to show and to leave the same.
//! Five are over a translator each, and one is on a disk beside a cache without memory.
//!
//! Where `fail` stands for `boot`, the session is played again and again, each time with another access of its disk
//! that fails.
#![tactic(auto)]

mod desk;
mod outages;
mod session;
mod starved;

use anyhow::{Context, ensure};
use blockdev::BLOCK_SIZE;
use desk::Desk;
use image::{Summary, check};
use linked_list_allocator::LocalHeap;
use outages::fail_each;
use session::{Session, Shown, disk_of, play_on};
use starved::{Starved, TOO_LITTLE};
use std::alloc::Global;
use std::cell::Cell;
use std::io;
use std::io::{BufWriter, Write};
use std::rt::Files;
use sv39::{Plain, Tlb, Translate};
use test_translators::{Counting, Noting};

/// The programs: each is assembled from the text of this name with `.s` after it.
const PROGRAMS: [&str; 11] = [
    "init", "sh", "cat", "echo", "ls", "ln", "rm", "mkdir", "kill", "forktest", "fill",
];

/// How many pages a program has at most, with its stack and what it asks for.
const PAGES: u64 = 8;

/// What the last session left.
const LEFT: &str = "left.img";

/// An image of the small format with the files of another, and what is made of it.
const OLD: &str = "old.img";

const MIGRATED: &str = "migrated.img";

// Assembles a program.
fn assemble<R: Files + AllocGlobal>(
    alloc: Global,
    desk: &mut Desk<'_, R>,
    name: &str,
) -> anyhow::Result<()> {
    let text = format!(in alloc; "{name}.s")?;
    desk.assemble(text.as_str(), name)
}

// Assembles the programs, and makes the images: one as `make image` does, one with little room, and one for the
// compiled program.
fn prepare<R: Files + AllocGlobal>(alloc: Global, desk: &mut Desk<'_, R>) -> anyhow::Result<()> {
    for name in &PROGRAMS {
        assemble(alloc, desk, name)?;
    }
    desk.make("manifest", (2000, 200), "xv6.img")?;
    desk.make("small", (64, 16), "small.img")?;
    desk.make("tests", (1000, 100), "tests.img")?;
    migrate(desk, "xv6.img")
}

// Makes an image of the small format of one in which no file has more than 11 blocks, as the formats differ in the
// magic number alone there; and of this one an image of the large format again.
fn migrate<R: Files + AllocGlobal>(desk: &mut Desk<'_, R>, image: &str) -> anyhow::Result<()> {
    let mut old = desk.file(image)?;
    if let Some(magic) = old.get_mut(BLOCK_SIZE) {
        *magic = 0x40;
    }
    desk.keep(OLD, old)?;
    desk.migrate(OLD, MIGRATED)
}

// Plays a session on a disk in memory: what is shown, and the image that is left.
fn play_plainly<T: Translate>(
    alloc: Global,
    session: &Session<'_>,
    image: &[u8],
    translator: T,
) -> anyhow::Result<(Shown, Vec<u8>)> {
    let disk = disk_of(alloc, image)?;
    let (shown, disk) = play_on(alloc, session, disk, translator)?;
    Ok((shown, disk.into_bytes()))
}

// Plays it on a disk below a cache that takes its memory from this heap.
fn play_behind(
    alloc: Global,
    session: &Session<'_>,
    heap: &LocalHeap,
    image: &[u8],
) -> anyhow::Result<(Shown, Vec<u8>)> {
    let disk = Starved::new(alloc, heap, image)?;
    let (shown, disk) = play_on(alloc, session, disk, Plain::new())?;
    Ok((shown, disk.into_bytes()?))
}

// Plays it on a disk below a cache without memory.
fn play_starved(
    alloc: Global,
    session: &Session<'_>,
    image: &[u8],
) -> anyhow::Result<(Shown, Vec<u8>)> {
    let heap = LocalHeap::new(alloc, TOO_LITTLE)?;
    play_behind(alloc, session, &heap, image)
}

// Plays a session over another translator: it has to show the same, and to leave the same image.
fn play_over<T: Translate>(
    alloc: Global,
    session: &Session<'_>,
    image: &[u8],
    translator: T,
    played: &(Shown, Vec<u8>),
) -> anyhow::Result<()> {
    let other = play_plainly(alloc, session, image, translator)?;
    ensure!(other == *played, "it shows or leaves something else");
    Ok(())
}

// The same over translators that remember.
fn play_remembering(
    alloc: Global,
    session: &Session<'_>,
    image: &[u8],
    played: &(Shown, Vec<u8>),
) -> anyhow::Result<()> {
    play_over(alloc, session, image, Tlb::<64>::new(), played).context(
        "where translations are remembered",
    )?;
    play_over(alloc, session, image, Noting::new(alloc, 0), played).context(
        "where the oldest translation is found",
    )?;
    play_over(alloc, session, image, Noting::new(alloc, PAGES), played).context(
        "where all pages are noted ahead",
    )
}

// The same over one that counts.
fn play_counting(
    alloc: Global,
    session: &Session<'_>,
    image: &[u8],
    played: &(Shown, Vec<u8>),
) -> anyhow::Result<()> {
    let (fetches, fences) = (Cell::new(0), Cell::new(0));
    let counting = Counting::new(&fetches, &fences);
    play_over(alloc, session, image, counting, played).context("where accesses are counted")?;
    ensure!(fetches.get() > 0 && fences.get() > 0, "nothing was counted");
    Ok(())
}

// Plays a session on each other kind of machine: all have to show the same, and to leave the same image.
fn play_again(
    alloc: Global,
    session: &Session<'_>,
    image: &[u8],
    played: &(Shown, Vec<u8>),
) -> anyhow::Result<()> {
    play_remembering(alloc, session, image, played)?;
    play_counting(alloc, session, image, played)?;
    let starved = play_starved(alloc, session, image)?;
    ensure!(
        starved == *played,
        "it differs where the block cache has no memory"
    );
    Ok(())
}

// Plays a session on each kind of machine.
fn play(alloc: Global, session: &Session<'_>, image: &[u8]) -> anyhow::Result<(Shown, Vec<u8>)> {
    let played = play_plainly(alloc, session, image, Plain::new())?;
    play_again(alloc, session, image, &played)?;
    Ok(played)
}

// What is in use of an image.
fn used(alloc: Global, image: &[u8]) -> anyhow::Result<Summary> {
    let mut disk = disk_of(alloc, image)?;
    Ok(check(alloc, &mut disk)?)
}

// Prints how a session ended.
fn print_end<W: Write>(ended: Option<i32>, out: &mut W) -> io::Result<()> {
    match ended {
        None => write!(out, "\n[running, "),
        Some(status) => write!(out, "\n[process 1 ended with {status}, "),
    }
}

// Prints what a session shows, and what the image that it leaves uses.
fn print<W: Write>(
    session: &Session<'_>,
    shown: &Shown,
    used: Summary,
    out: &mut W,
) -> io::Result<()> {
    writeln!(out, "{}", session.title)?;
    out.write_all(shown.console.as_slice())?;
    print_end(shown.ended, out)?;
    let (free, inodes, blocks) = (shown.free, used.inodes, used.blocks);
    writeln!(
        out,
        "{free} frames free, {inodes} inodes and {blocks} blocks in use]\n"
    )
}

// Plays a session and prints it: the image that it leaves.
fn play_out<W: Write>(
    alloc: Global,
    session: &Session<'_>,
    image: &[u8],
    out: &mut W,
) -> anyhow::Result<Vec<u8>> {
    let (shown, left) = play(alloc, session, image).context(session.title)?;
    let used = used(alloc, left.as_slice())?;
    print(session, &shown, used, out)?;
    Ok(left)
}

// Does what a paragraph of standard input asks for.
fn show<R: Files + AllocGlobal, W: Write>(
    alloc: Global,
    desk: &mut Desk<'_, R>,
    paragraph: &str,
    out: &mut W,
) -> anyhow::Result<()> {
    if let Some(session) = Session::read(paragraph, "fail") {
        let image = desk.file(session.image)?;
        return fail_each(alloc, &session, image.as_slice(), out).context(session.title);
    }
    let session = Session::read(paragraph, "boot").context(
        "a session has a title, an image and a script",
    )?;
    let image = desk.file(session.image)?;
    let left = play_out(alloc, &session, image.as_slice(), out)?;
    desk.keep(LEFT, left)
}

// Does what standard input asks for.
fn show_all<R: Files + AllocGlobal, W: Write>(
    alloc: Global,
    desk: &mut Desk<'_, R>,
    text: &str,
    out: &mut W,
) -> anyhow::Result<()> {
    for paragraph in text.split("\n\n") {
        show(alloc, desk, paragraph, out)?;
    }
    out.flush()?;
    Ok(())
}

fn main(rt: HostRuntime) -> anyhow::Result<()> {
    let alloc = rt.alloc();
    let mut desk = Desk::new(&rt);
    prepare(alloc, &mut desk)?;
    let text = io::read_to_string(alloc, rt.reader())?;
    let mut out = BufWriter::new(alloc, io::writer(&rt))?;
    show_all(alloc, &mut desk, text.as_str(), &mut out)
}
