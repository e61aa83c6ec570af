//! A disk of which one access fails, each in its turn, while files are made, written, linked, unlinked and read.
use crate::disks::{disk_of, holds_at, image_of};
use crate::sources::WORKER;
use blockdev::{FailAt, MemDisk};
use console::Writer;
use machine::{Halt, Machine, boot};
use std::alloc::{AllocError, Global};
use std::num::NonZeroU64;
use sv39::Plain;
use unixmodel::event::Event;

// More events than the program takes, and more accesses than it makes.
const EVENTS: usize = 300;

const ACCESSES: u64 = 300;

// What it prints.
const TEXT: &[u8; 6] = b"abcdef";

type Failing = Machine<FailAt<MemDisk>, Plain>;

// How a machine goes whose disk fails once: the later the access, the further it comes.
#[derive(Clone, Copy)]
enum Course {
    // It doesn't boot.
    Stays,
    // It stops, has printed a beginning of the text, and nothing at the event that stopped it.
    Stops,
    // It goes to its end, and can't be saved.
    Keeps,
    // It goes to its end, and is saved.
    Ends,
    // Anything else.
    Strays = 9,
}

// A machine whose disk fails after `good` good accesses. `None`: it fails as the machine boots.
fn booted(alloc: Global, image: &[u8], good: u64) -> Option<Failing> {
    let disk = disk_of(alloc, image)?;
    boot(
        alloc,
        FailAt::new(disk, NonZeroU64::MIN.saturating_add(good)),
        Plain::new(),
        64,
    )
    .ok()
}

// One step: how it went, and what it printed.
fn step(alloc: Global, machine: &mut Failing) -> (Result<(), Halt>, Vec<u8>) {
    let mut out = Writer::new(Vec::new(alloc));
    let done = machine.step(Event::Step, &mut out);
    (done, out.into_inner())
}

// Takes steps up to the one at which it stops, and returns why. What they print is appended to the text; the last one
// prints nothing.
fn go(
    alloc: Global,
    machine: &mut Failing,
    text: &mut Vec<u8>,
) -> Result<Option<Halt>, AllocError> {
    for _ in 0..EVENTS {
        match step(alloc, machine) {
            (Ok(()), printed) => text.extend_from_slice(printed.as_slice())?,
            (Err(halt), printed) if printed.is_empty() => return Ok(Some(halt)),
            _ => return Ok(None),
        }
    }
    Ok(None)
}

// Whether events are refused since the machine has halted.
fn is_still(alloc: Global, machine: &mut Failing) -> bool {
    let mut out = Writer::new(Vec::new(alloc));
    machine.step(Event::Step, &mut out) == Err(Halt::Halted)
        && machine.run(&[Event::Tick], &mut out) == Err(Halt::Halted)
}

// Whether it returns nothing of its disk, and its process can still be looked at.
fn is_mute(machine: &mut Failing) -> bool {
    machine.stat_inode(1) == Err(Halt::Halted)
        && machine.read_inode(1, 0, &mut [0; 16]) == Err(Halt::Halted)
        && machine.inspect(1).is_some()
        && machine.peek(1, 0).is_some()
}

// Whether events and files are refused since the machine has halted.
fn is_shut(alloc: Global, machine: &mut Failing) -> bool {
    is_still(alloc, machine) && is_mute(machine)
}

// How far it goes, and whether its text is right.
fn gone(alloc: Global, machine: &mut Failing) -> Course {
    let mut text = Vec::new(alloc);
    match go(alloc, machine, &mut text) {
        Ok(Some(Halt::InitEnded(0))) if text.as_slice() == TEXT.as_slice() => Course::Ends,
        Ok(Some(Halt::Device)) if TEXT.starts_with(&text) && is_shut(alloc, machine) => {
            Course::Stops
        }
        _ => Course::Strays,
    }
}

fn course_of(alloc: Global, mut machine: Failing) -> Course {
    let gone = gone(alloc, &mut machine);
    match (gone, machine.save().err()) {
        (Course::Ends, None) => Course::Ends,
        (Course::Ends, Some(Halt::Device)) => Course::Keeps,
        (Course::Stops, Some(Halt::Halted)) => Course::Stops,
        _ => Course::Strays,
    }
}

fn follow(alloc: Global, image: &[u8], good: u64) -> Course {
    match booted(alloc, image, good) {
        Some(machine) => course_of(alloc, machine),
        None => Course::Stays,
    }
}

// With more and more good accesses a machine doesn't boot, boots and stops, ends and can't be saved, and is saved.
#[test]
fn each_access_fails_in_its_turn(rt: HostRuntime) {
    let alloc = rt.alloc();
    let image = image_of(alloc, WORKER, 20_480, 48).expect(&rt, "an image");
    let mut reached = Course::Stays as u8;
    for good in 0..ACCESSES {
        let course = follow(alloc, image.as_slice(), good) as u8;
        holds_at(
            &rt,
            good as usize,
            course == reached || course == reached.wrapping_add(1),
        );
        reached = course;
        if reached == Course::Ends as u8 {
            return;
        }
    }
    holds_at(&rt, ACCESSES as usize, false);
}
