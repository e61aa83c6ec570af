//! A disk whose accesses fail, each in its turn.
ghost use Rattle.std.specs.Prelude.{IfSome};
ghost use Rattle.mount.specs.Mounted.{IsFlat};

use crate::play::{
    EXIT, FSTAT, MKDIR, MKNOD, MOST_READ, Program, UNTOLD, WRITE, holds_at, is_front,
};
use blockdev::{FailAt, MemDisk};
use console::Writer;
use machine::{Halt, Machine, boot_flat_on};
use mount::{flat_image, mount};
use std::alloc::Global;
use std::num::NonZeroU64;
use std::process::Abort;
use sv39::Plain;
use tree::Tree;
use unixmodel::event::Event;

// More accesses than a machine makes here, and more events than it takes.
const ACCESSES: u64 = 200;

const EVENTS: usize = 200;

// How often the disk is asked for as its image is mounted: its super block, 32 blocks, and the super block again.
const MOUNTING: u64 = 34;

// Between calls that ask for the disk it prints a letter each.
const CALLS: [[u64; 4]; 12] = [
    [1, LETTERS, 1, WRITE],
    [NAMES, 0, 0, MKDIR],
    [1, LETTERS + 1, 1, WRITE],
    [NAMES + 8, 2, 0, MKNOD],
    [0, 0x2000, 0, FSTAT],
    [1, LETTERS + 2, 1, WRITE],
    [NAMES + 16, 0, 0, MKDIR],
    [NAMES + 16, 0, 0, MKDIR],
    [1, LETTERS + 3, 1, WRITE],
    [0, 0, 0, EXIT],
    // d, n, d/e, and the letters
    [0x64, 0x6e, 0x65_2f64, 0x6463_6261],
    [0, 0, 0, 0],
];

const NAMES: u64 = 32 + 32 * 10;

const LETTERS: u64 = NAMES + 24;

// A root and the console, on a disk of which one access fails, after `good` good ones.
fn flat_tree(alloc: Global, good: u64) -> Option<Tree<FailAt<MemDisk>>>
    ensures { IfSome result IsFlat }
{
    let Ok(image) = flat_image(alloc) else {
        return None;
    };
    let Ok(disk) = MemDisk::new(image) else {
        return None;
    };
    match mount(
        alloc,
        FailAt::new(disk, NonZeroU64::MIN.saturating_add(good)),
    ) {
        Ok(tree) => Some(tree),
        Err(_) => None,
    }
}

// What a machine is asked for after each event.
#[derive(Clone, Copy)]
enum Asked {
    Nothing,
    Stats,
    Bytes,
}

// A machine on a disk of which one access fails, what it prints, and how many events are done.
#[derive(Drop)]
struct Run {
    machine: Machine<FailAt<MemDisk>, Plain>,
    out: Writer<Vec<u8>>,
    done: usize,
}

impl Run {
    // `None`: an access fails as the image is mounted.
    fn boot(alloc: Global, good: u64) -> Option<Run> {
        let bytes = Program::Calls(&CALLS).bytes(alloc).ok()?;
        let tree = flat_tree(alloc, good)?;
        let machine = boot_flat_on(alloc, bytes.as_slice(), tree, Plain::new(), 64).ok()?;
        Some(Run {
            machine,
            out: Writer::new(Vec::new(alloc)),
            done: 0,
        })
    }

    fn ask(&mut self, asked: Asked) -> Result<(), Halt> {
        let number = self.done % 17;
        match asked {
            Asked::Nothing => {}
            Asked::Stats => {
                let _stat = self.machine.stat_inode(number)?;
            }
            Asked::Bytes => {
                let _count = self.machine.read_inode(number, 16, &mut [0; MOST_READ])?;
            }
        }
        Ok(())
    }

    fn advance(&mut self, asked: Asked) -> Result<(), Halt> {
        self.machine.step(Event::Step, &mut self.out)?;
        self.done = self.done.wrapping_add(1);
        self.ask(asked)
    }

    // Does up to `events` events, and returns the halt at which it stops, if it does.
    fn play(&mut self, events: usize, asked: Asked) -> Option<Halt> {
        for _ in 0..events {
            if let Err(halt) = self.advance(asked) {
                return Some(halt);
            }
        }
        None
    }

    // Whether every further event returns `Halted`.
    fn is_still(&mut self) -> bool {
        self.machine.step(Event::Step, &mut self.out) == Err(Halt::Halted)
            && self.machine.step(Event::Key(0x61), &mut self.out) == Err(Halt::Halted)
            && self.machine.run(&[Event::Tick], &mut self.out) == Err(Halt::Halted)
    }

    // Whether its disk can't be read any more, and its process still can.
    fn is_mute(&mut self) -> bool {
        let mut bytes = [UNTOLD; MOST_READ];
        self.machine.stat_inode(1) == Err(Halt::Halted)
            && self.machine.read_inode(1, 0, &mut bytes) == Err(Halt::Halted)
            && is_front(&bytes, &[])
            && self.machine.inspect(1).is_some()
            && self.machine.peek(1, 0).is_some()
    }

    // How it goes, whatever it prints.
    fn go(&mut self, asked: Asked) -> Course {
        match self.play(EVENTS, asked) {
            Some(Halt::Device) if self.is_still() && self.is_mute() => Course::Stops,
            Some(Halt::InitEnded(0)) => Course::Ends,
            _ => Course::Strays,
        }
    }

    fn printed(self) -> Vec<u8> {
        let Run { out, .. } = self;
        out.into_inner()
    }
}

// What the first `events` events print where no access fails.
fn printed_by(alloc: Global, events: usize) -> Option<Vec<u8>> {
    let mut run = Run::boot(alloc, ACCESSES)?;
    let _halt = run.play(events, Asked::Nothing);
    Some(run.printed())
}

// How a machine goes whose disk fails after a number of good accesses.
#[derive(Clone, Copy, PartialEq)]
enum Course {
    // It doesn't boot.
    Stays,
    // It stops, and has printed what the events print that are done.
    Stops,
    // It goes to its end.
    Ends,
    // Anything else.
    Strays,
}

// Whether the first `events` events print this where no access fails.
fn is_printed_by(alloc: Global, events: usize, printed: &[u8]) -> bool {
    match printed_by(alloc, events) {
        Some(wanted) => wanted.as_slice() == printed,
        None => false,
    }
}

// How a machine goes that booted.
fn course_of(alloc: Global, mut run: Run, asked: Asked) -> Course {
    let course = run.go(asked);
    let done = run.done;
    let printed = run.printed();
    match course {
        Course::Stops if is_printed_by(alloc, done, printed.as_slice()) => Course::Stops,
        Course::Ends if printed.as_slice() == b"abcd".as_slice() => Course::Ends,
        _ => Course::Strays,
    }
}

fn follow(alloc: Global, good: u64, asked: Asked) -> Course {
    match Run::boot(alloc, good) {
        Some(run) => course_of(alloc, run, asked),
        None => Course::Stays,
    }
}

// With each number of good accesses a machine doesn't boot, from some number on it boots and stops, and then it ends.
fn fails_in_turn(rt: &(impl Abort + AllocGlobal), asked: Asked) {
    let mut stops = 0u64;
    for good in 0..ACCESSES {
        let course = follow(rt.alloc(), good, asked);
        let row = good as usize;
        if good < MOUNTING {
            holds_at(rt, row, course == Course::Stays);
        } else if course == Course::Stops {
            stops = stops.wrapping_add(1);
        } else {
            holds_at(rt, row, course == Course::Ends && stops > 0);
            return;
        }
    }
    holds_at(rt, ACCESSES as usize, false);
}

#[test]
fn stops_where_a_call_meets_a_failure(rt: HostRuntime) {
    fails_in_turn(&rt, Asked::Nothing);
}

#[test]
fn stops_where_a_look_meets_a_failure(rt: HostRuntime) {
    fails_in_turn(&rt, Asked::Stats);
}

#[test]
fn stops_where_a_read_meets_a_failure(rt: HostRuntime) {
    fails_in_turn(&rt, Asked::Bytes);
}
