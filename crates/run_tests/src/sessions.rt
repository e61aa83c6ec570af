//! Sessions of a program that says `hi`, and ends with status 7 once a line is typed.
use crate::disks::{Given, expect_row, image_with};
use crate::sessions::Act::{Idle, Is, Runs, Steps, Takes, Ticks, Types};
use machine::{BootFault, Halt};
use session::Session;
use std::alloc::Global;

const FRAMES: u32 = 64;

const PROGRAM: &str = "
        la a0, name
        li a1, 2
        li a7, 15
        ecall
        la a1, hi
        li a0, 0
        li a2, 3
        li a7, 16
        ecall
        addi a1, sp, -16
        li a0, 0
        li a2, 1
        li a7, 5
        ecall
        li a0, 7
        li a7, 2
        ecall
name:   .ascii \"console\\0\"
hi:     .ascii \"hi\\n\"
";

// The image of the program as `/init`, and of the console.
fn image(alloc: Global) -> Option<Vec<u8>> {
    let files = [
        ("/init", Given::Program(PROGRAM)),
        ("/console", Given::Console),
    ];
    image_with(alloc, &files, 32)
}

fn booted(alloc: Global) -> Option<Session> {
    let image = image(alloc)?;
    Session::boot(alloc, image.as_slice(), FRAMES).ok()
}

/// More steps than the program takes.
const MANY: u32 = 1000;

/// The steps until it waits for a key: a turn, two for each `la` and `li`, and one for each other instruction.
const FIRST: u32 = 25;

// States of process 1, and the calls that it is in.
const READS: (u32, u32) = (3, 5);

const ENDED: (u32, u32) = (4, 0);

// What is done with a session, and what it gives.
#[derive(Clone, Copy)]
enum Act {
    // As many steps as there are, up to `MANY`: how many, and why it stops.
    Runs(u32, Option<Halt>),
    // This many steps: why it stops.
    Steps(u32, Option<Halt>),
    // Whether nobody runs or is ready.
    Idle(bool),
    // Process 1 is in a state, in a call.
    Is((u32, u32)),
    // What is taken, with room for this many bytes.
    Takes(usize, &'static [u8]),
    // A byte is typed.
    Types(u8),
    // A timer interrupt.
    Ticks,
}

// Whether these bytes are what is taken, with room for `room` bytes.
fn takes(session: &mut Session, room: usize, bytes: &[u8]) -> bool {
    let mut out = [0; 4];
    let count = session.take_console(&mut out[..room.min(4)]);
    count == bytes.len() && out.starts_with(bytes)
}

// Whether process 1 is in that state, in that call.
fn is_in(session: &Session, (state, call): (u32, u32)) -> bool {
    match session.process(1) {
        Some(told) => told.state == state && told.call == call && told.parent == 0,
        None => false,
    }
}

// Whether it stops for that reason, or for none.
fn stops(answer: Result<(), Halt>, halt: Option<Halt>) -> bool {
    match (answer, halt) {
        (Ok(()), None) => true,
        (Err(found), Some(halt)) => found == halt,
        _ => false,
    }
}

// Whether it takes `steps` steps, and stops for that reason.
fn runs(session: &mut Session, steps: u32, halt: Option<Halt>) -> bool {
    let ran = session.run(MANY);
    ran.steps == steps && stops(ran.answer, halt)
}

fn does(session: &mut Session, act: &Act) -> bool {
    match act {
        Runs(steps, halt) => runs(session, *steps, *halt),
        Steps(times, halt) => stops(session.steps(*times), *halt),
        Idle(is_idle) => session.machine().is_idle() == *is_idle,
        Is(place) => is_in(session, *place),
        Takes(room, bytes) => takes(session, *room, bytes),
        Types(byte) => session.key(*byte).is_ok(),
        Ticks => session.tick().is_ok(),
    }
}

fn does_each(session: &mut Session, acts: &[Act]) -> bool {
    for act in acts {
        if !does(session, act) {
            return false;
        }
    }
    true
}

// Which of two does something.
#[derive(Clone, Copy)]
enum By {
    Source,
    Copy,
}

// What a session does; and what it and a copy of it do after that, in turn.
struct Row {
    name: &'static str,
    acts: &'static [Act],
    then: &'static [(By, &'static [Act])],
}

// Nothing but the echo of the line that ends the program is left to be taken.
const LINE: [Act; 5] = [
    Types(b'x'),
    Types(b'\n'),
    Runs(6, Some(Halt::InitEnded(7))),
    Takes(4, b"x\n"),
    Is(ENDED),
];

// That the host has no memory for a copy is tried by no test: a session is over the heap itself, which no test can
// empty.
static ROWS: [Row; 3] = [
    Row {
        name: "a line ends the program",
        acts: &[
            Runs(FIRST, None),
            Idle(true),
            Is(READS),
            Runs(0, None),
            Takes(2, b"hi"),
            Takes(4, b"\n"),
            Takes(4, b""),
            Types(b'x'),
            Types(b'\n'),
            Ticks,
            Takes(4, b"x\n"),
            // A turn in which the read returns, two instructions for each `li`, and the call.
            Runs(6, Some(Halt::InitEnded(7))),
            Steps(0, Some(Halt::Halted)),
            Runs(0, Some(Halt::Halted)),
            Is(ENDED),
        ],
        then: &[],
    },
    Row {
        name: "a copy goes on like its source",
        acts: &[Runs(FIRST, None)],
        then: &[
            (By::Source, &[Takes(4, b"hi\n")]),
            (By::Copy, &[Takes(4, b"hi\n")]),
            (By::Copy, &LINE),
            (By::Source, &[Is(READS), Takes(4, b"")]),
            (By::Source, &LINE),
        ],
    },
    Row {
        name: "as many steps do the same",
        acts: &[
            Steps(FIRST - 1, None),
            Idle(false),
            Steps(1, None),
            Idle(true),
            Takes(4, b"hi\n"),
            Is(READS),
        ],
        then: &[],
    },
];

// What a session and its copy do in turn.
fn go_on(source: &mut Session, copy: &mut Session, turns: &[(By, &[Act])]) -> bool {
    for (by, acts) in turns {
        let done = match by {
            By::Source => does_each(source, acts),
            By::Copy => does_each(copy, acts),
        };
        if !done {
            return false;
        }
    }
    true
}

// Lets a session go: for all functions, since one that does that is long to prove.
fn end(_session: Session) {}

fn does_row(session: &mut Session, row: &Row) -> Option<bool> {
    let begun = does_each(session, row.acts);
    let mut copy = session.copy().ok()?;
    let holds = begun && go_on(session, &mut copy, row.then);
    end(copy);
    Some(holds)
}

fn plays(alloc: Global, row: &Row) -> Option<bool> {
    let mut session = booted(alloc)?;
    let holds = does_row(&mut session, row);
    end(session);
    holds
}

#[test]
fn sessions_are_played(rt: HostRuntime) {
    for row in &ROWS {
        expect_row(&rt, row.name, plays(rt.alloc(), row));
    }
}

// Whether the pages of process 1 are shown, and no others.
fn tells_pages(session: &Session) -> Option<bool> {
    let mut out = [9; 8];
    let marks = session.page(1, 0, &mut out[..4])?;
    // lui a0, 0, which `la` begins with.
    let begins = marks.u && marks.x && out == [0x37, 0x05, 0, 0, 9, 9, 9, 9];
    Some(begins && session.page(2, 0, &mut out).is_none() && session.process(2).is_none())
}

// Whether `/init` is shown, and no node of another number.
fn tells_files(session: &mut Session) -> Option<bool> {
    let mut out = [9; 8];
    let stat = session.stat(2).ok()??;
    let is_none = session.stat(9).ok()?.is_none();
    let count = session.read(2, 0, &mut out).ok()?;
    let begins = count == 8 && out == [0x7f, 0x45, 0x4c, 0x46, 2, 1, 1, 0];
    Some(stat.kind == 2 && is_none && begins)
}

// The fault for which an image doesn't boot; `None` where it boots.
fn fault(alloc: Global, image: &[u8], frames: u32) -> Option<BootFault> {
    match Session::boot(alloc, image, frames) {
        Ok(session) => {
            end(session);
            None
        }
        Err(fault) => Some(fault),
    }
}

// Whether what it saves boots.
fn is_saved(alloc: Global, session: Session) -> Option<bool> {
    let image = session.save().ok()?;
    Some(fault(alloc, image.as_slice(), FRAMES).is_none())
}

#[test]
fn pages_and_files_are_told(rt: HostRuntime) {
    let mut session = booted(rt.alloc()).expect(&rt, "a session");
    expect_row(&rt, "pages", tells_pages(&session));
    expect_row(&rt, "files", tells_files(&mut session));
    expect_row(&rt, "what is saved", is_saved(rt.alloc(), session));
}

// Whether too few frames, and zeros instead of an image, are refused.
fn refuses(alloc: Global) -> Option<bool> {
    let image = image(alloc)?;
    let frames = fault(alloc, image.as_slice(), 63);
    let zeros = fault(alloc, &[0; 1000], 64);
    Some(matches!(
        (frames, zeros),
        (Some(BootFault::FrameCount), Some(BootFault::Image(_)))
    ))
}

#[test]
fn what_does_not_boot_is_told(rt: HostRuntime) {
    expect_row(&rt, "frames and zeros", refuses(rt.alloc()));
}
