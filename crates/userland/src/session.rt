//! A session, and what a machine shows in it.
ghost use Rattle.machine.specs.View.{IsUp};

use anyhow::{Context, bail};
use blockdev::{BlockDev, MemDisk};
use driver::{Driver, Nobody};
use events::{Command, TextFault, Unrecorded, parse};
use machine::{Halt, Machine, boot};
use std::alloc::{AllocError, Global};
use sv39::Translate;
use unixmodel::event::Event;

/// A session that is to be played.
#[derive(Clone, Copy)]
pub struct Session<'a> {
    /// What it is about.
    pub title: &'a str,
    /// The image that its machine boots from.
    pub image: &'a str,
    /// How many frames the machine has.
    pub frames: u32,
    // What happens to it.
    script: &'a str,
}

impl<'a> Session<'a> {
    /// The session that a paragraph asks for: its title, a line `WORD IMAGE FRAMES`, and its script. `None`: the word
    /// is another.
    pub fn read(paragraph: &'a str, word: &str) -> Option<Session<'a>> {
        let (title, rest) = paragraph.split_once('\n')?;
        let (place, script) = rest.split_once('\n')?;
        let (first, place) = place.split_once(' ')?;
        if first != word {
            return None;
        }
        let (image, frames) = place.split_once(' ')?;
        Some(Session {
            title,
            image,
            frames: frames.parse().ok()?,
            script,
        })
    }
}

/// What a machine shows in a session.
#[derive(PartialEq, Drop)]
pub struct Shown {
    /// The bytes of its console.
    pub console: Vec<u8>,
    /// The status of process 1, if it has ended.
    pub ended: Option<i32>,
    /// How many frames are free at the end.
    pub free: u32,
}

// The commands of a script.
fn commands_of<'a>(alloc: Global, script: &'a str) -> anyhow::Result<Vec<Command<'a>>> {
    match parse(alloc, script.as_bytes()) {
        Ok(commands) => Ok(commands),
        Err(TextFault::Line(line)) => bail!("script line {line}"),
        Err(TextFault::NoMemory) => bail!("no memory"),
    }
}

// An event, `times` times.
fn repeat(events: &mut Vec<Event>, event: Event, times: u32) -> Result<(), AllocError> {
    for _ in 0..times {
        events.push(event)?;
    }
    Ok(())
}

// Typed keys.
fn press(events: &mut Vec<Event>, keys: &[u8]) -> Result<(), AllocError> {
    for key in keys {
        events.push(Event::Key(*key))?;
    }
    Ok(())
}

// The events of a command.
fn obey(events: &mut Vec<Event>, command: &Command<'_>) -> Result<(), AllocError> {
    match command {
        Command::Step(times) => repeat(events, Event::Step, *times),
        Command::Tick(times) => repeat(events, Event::Tick, *times),
        Command::Keys(keys) => press(events, keys.as_slice()),
        Command::Type(text) => {
            press(events, text)?;
            press(events, b"\n")
        }
    }
}

/// The events of a session, one by one.
pub fn events_of(alloc: Global, session: &Session<'_>) -> anyhow::Result<Vec<Event>> {
    let mut events = Vec::new(alloc);
    for command in &commands_of(alloc, session.script)? {
        obey(&mut events, command)?;
    }
    Ok(events)
}

/// A disk of these bytes.
pub fn disk_of(alloc: Global, bytes: &[u8]) -> anyhow::Result<MemDisk> {
    Ok(MemDisk::new(Vec::from_slice(alloc, bytes)?)?)
}

// Does what the commands say, and returns how that ended, the machine, and what its console shows.
fn run<D: BlockDev, T: Translate>(
    alloc: Global,
    machine: Machine<D, T>,
    commands: &[Command<'_>],
) -> (Result<(), Halt>, Machine<D, T>, Vec<u8>)
    requires { IsUp machine }
{
    let mut driver = Driver::new(machine, Unrecorded, Nobody, Vec::new(alloc));
    let ended = driver.run(commands);
    let (machine, _, _, out) = driver.into_parts();
    let (console, _) = out.into_parts();
    (ended, machine, console)
}

// Does what the commands say, and saves the machine.
fn play_booted<D: BlockDev, T: Translate>(
    alloc: Global,
    machine: Machine<D, T>,
    commands: &[Command<'_>],
) -> anyhow::Result<(Shown, D)>
    requires { IsUp machine }
{
    let (halted, machine, console) = run(alloc, machine, commands);
    let ended = match halted {
        Ok(()) => None,
        Err(Halt::InitEnded(status)) => Some(status),
        Err(_) => bail!("the machine failed"),
    };
    let shown = Shown {
        console,
        ended,
        free: machine.free_frames(),
    };
    let disk = machine.save().ok().context("no disk is left")?;
    Ok((shown, disk))
}

/// Boots a machine from a disk, does what the script says, and saves the machine: what it shows, and the disk that it
/// leaves.
pub fn play_on<D: BlockDev, T: Translate>(
    alloc: Global,
    session: &Session<'_>,
    disk: D,
    translator: T,
) -> anyhow::Result<(Shown, D)> {
    let commands = commands_of(alloc, session.script)?;
    let machine = boot(alloc, disk, translator, session.frames)?;
    play_booted(alloc, machine, commands.as_slice())
}
