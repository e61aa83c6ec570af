//! Generated lists of events, in one piece and in pieces.
use crate::disks::{Parted, Run, Whole, disk_of, holds_at, image_of};
use crate::sources::SERVANT;
use blockdev::MemDisk;
use machine::Halt;
use std::alloc::{AllocError, Global};
use sv39::{Plain, Tlb, Translate};
use unixmodel::event::Event;

// How many lists there are, and how many draws each has.
const LISTS: u64 = 8;

const EVENTS: usize = 400;

// More pids, pages and inodes than a list meets.
const PIDS: u32 = 40;

const PAGES: u64 = 4;

const NODES: usize = 17;

/// Numbers that look random, and are always the same.
#[derive(Clone, Copy)]
pub(crate) struct Dice(pub(crate) u64);

impl Dice {
    /// The next number.
    pub(crate) fn roll(&mut self) -> usize {
        self.0 = self
            .0
            .wrapping_mul(6_364_136_223_846_793_005)
            .wrapping_add(1_442_695_040_888_963_407);
        (self.0 >> 33) as usize
    }
}

// What is typed: something to do, keys that edit, and now and then the end.
const KEYS: [u8; 16] = *b"abcdefgh\n\nach\x7f\x04\x15";

// What happens next: a tick, a key, or some steps.
fn put_next(events: &mut Vec<Event>, dice: &mut Dice) -> Result<(), AllocError> {
    let roll = dice.roll();
    match roll % 16 {
        0 => events.push(Event::Tick)?,
        1..=3 => events.push(Event::Key(KEYS[roll / 16 % 16]))?,
        4 if roll / 16 % 64 == 0 => events.push(Event::Key(b'x'))?,
        _ => {
            for _ in 0..roll / 16 % 32 {
                events.push(Event::Step)?;
            }
        }
    }
    Ok(())
}

fn generated(alloc: Global, dice: &mut Dice) -> Result<Vec<Event>, AllocError> {
    let mut events = Vec::new(alloc);
    for _ in 0..EVENTS {
        put_next(&mut events, dice)?;
    }
    Ok(events)
}

// The events in pieces, of which none is longer than the mask, up to the one at which the machine stops.
fn run_pieces(
    run: &mut Parted,
    events: &[Event],
    dice: &mut Dice,
    mask: usize,
) -> Result<(), Halt> {
    let mut rest = events;
    for _ in 0..events.len() {
        let (front, behind) = rest.split_at(rest.len().min(dice.roll() & mask));
        run.run(front)?;
        rest = behind;
    }
    run.run(rest)
}

// Whether a page of a process is the same in both.
fn is_same_page(whole: &Whole, parted: &Parted, pid: u32, page: u64) -> bool {
    match (
        whole.machine.peek(pid, page),
        parted.machine.peek(pid, page),
    ) {
        (Some((bytes, marks)), Some((others, same))) => bytes == others && marks == same,
        (None, None) => true,
        _ => false,
    }
}

// Whether processes, their pages and the count of free frames are the same in both.
fn is_like(whole: &Whole, parted: &Parted) -> bool {
    for pid in 0..PIDS {
        if whole.machine.inspect(pid) != parted.machine.inspect(pid) {
            return false;
        }
        for page in 0..PAGES {
            if !is_same_page(whole, parted, pid, page) {
                return false;
            }
        }
    }
    whole.machine.free_frames() == parted.machine.free_frames()
}

// Whether a node has the same type, links, size and first bytes in both.
fn is_same_node(whole: &mut Whole, parted: &mut Parted, number: usize) -> bool {
    let (mut bytes, mut others) = ([0; 4096], [0; 4096]);
    whole.machine.stat_inode(number) == parted.machine.stat_inode(number)
        && whole.machine.read_inode(number, 0, &mut bytes)
            == parted.machine.read_inode(number, 0, &mut others)
        && bytes == others
}

/// Whether all files are the same in both.
pub(crate) fn has_same_files(whole: &mut Whole, parted: &mut Parted) -> bool {
    for number in 0..NODES {
        if !is_same_node(whole, parted, number) {
            return false;
        }
    }
    true
}

// The disk that a machine left, and what it printed.
type Left = Option<(MemDisk, Vec<u8>)>;

// Whether both left a disk, and these and their texts are the same.
fn is_same_left(left: &Left, other: &Left) -> bool {
    match (left, other) {
        (Some((disk, text)), Some((beside, printed))) => {
            disk.bytes() == beside.bytes() && text.as_slice() == printed.as_slice()
        }
        _ => false,
    }
}

// Whether two runs that ended so are alike in all that can be seen, and in what they leave.
fn is_even(mut whole: Whole, mut parted: Parted) -> bool {
    let alike = is_like(&whole, &parted) && has_same_files(&mut whole, &mut parted);
    let (left, other) = (whole.left(), parted.left());
    alike && is_same_left(&left, &other)
}

// A machine that boots from an image.
fn booted<T: Translate>(alloc: Global, image: &[u8], translator: T) -> Option<Run<T>> {
    let disk = disk_of(alloc, image)?;
    Run::boot(alloc, disk, translator, 64)
}

// Whether a generated list of events ends so in one piece and in pieces that are no longer than a mask; and whether it
// stopped the machine.
fn run_both(
    alloc: Global,
    whole: &mut Whole,
    parted: &mut Parted,
    (seed, mask): (u64, usize),
) -> (bool, bool) {
    let mut dice = Dice(seed);
    let Ok(events) = generated(alloc, &mut dice) else {
        return (false, false);
    };
    let end = whole.run(&events);
    let same = run_pieces(parted, &events, &mut dice, mask);
    (end == same, end.is_err())
}

// Whether the list gives the same in both ways; and whether it stopped the machine.
fn in_pieces(alloc: Global, image: &[u8], rolls: (u64, usize)) -> Option<(bool, bool)> {
    let mut whole = booted(alloc, image, Plain::new())?;
    let Some(mut parted) = booted(alloc, image, Tlb::<64>::new()) else {
        whole.end();
        return None;
    };
    let (same, halts) = run_both(alloc, &mut whole, &mut parted, rolls);
    let even = is_even(whole, parted);
    Some((same && even, halts))
}

// In pieces of up to 63 events, and of one.
#[test]
fn pieces_give_what_the_whole_gives(rt: HostRuntime) {
    let alloc = rt.alloc();
    let image = image_of(alloc, SERVANT, 17_000, 32).expect(&rt, "an image");
    let mut stops = 0u64;
    for seed in 0..LISTS {
        let mask = if seed % 2 == 0 { 63 } else { 1 };
        let (same, halts) = in_pieces(alloc, image.as_slice(), (seed, mask)).expect(&rt, "runs");
        holds_at(&rt, seed as usize, same);
        if halts {
            stops = stops.wrapping_add(1);
        }
    }
    // some lists end the program, and others don't
    holds_at(&rt, LISTS as usize, 0 < stops && stops < LISTS);
}
