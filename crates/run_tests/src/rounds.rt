//! Rounds of events, between which a machine goes on, or is saved and booted again.
use crate::disks::{Parted, Run, Whole, disk_of, holds_at, image_of};
use crate::pieces::{Dice, has_same_files};
use crate::sources::SERVANT;
use blockdev::MemDisk;
use image::check;
use machine::ProcessState;
use std::alloc::{AllocError, Global};
use sv39::{Plain, Tlb, Translate};
use unixmodel::event::Event;

// How many lists there are, how many rounds each has, and how many keys a round.
const LISTS: u64 = 6;

const ROUNDS: usize = 3;

const TYPED: usize = 5;

// More steps than the program takes for a line of keys.
const STEPS: usize = 2000;

const KEYS: [u8; 16] = *b"abcdefghabche\x7f\x04h";

// Keys and a line's end, among steps and ticks.
fn round(alloc: Global, dice: &mut Dice) -> Result<Vec<Event>, AllocError> {
    let mut events = Vec::new(alloc);
    for _ in 0..TYPED {
        let roll = dice.roll();
        events.push(Event::Key(KEYS[roll % 16]))?;
        for _ in 0..roll / 16 % 64 {
            events.push(Event::Step)?;
        }
        if roll / 1024 % 4 == 0 {
            events.push(Event::Tick)?;
        }
    }
    events.push(Event::Key(b'\n'))?;
    Ok(events)
}

// Whether process 1 waits for a key, and is alone.
fn is_waiting<T: Translate>(run: &Run<T>) -> bool {
    match run.machine.inspect(1) {
        Some(seen) => seen.state == ProcessState::Waiting(5) && run.machine.free_frames() == 55,
        None => false,
    }
}

// Takes steps until process 1 waits and goes on waiting, and returns how many.
fn settle<T: Translate>(run: &mut Run<T>) -> Option<usize> {
    let mut rests = 0u32;
    for count in 0..STEPS {
        run.event(Event::Step).ok()?;
        rests = if is_waiting(run) {
            rests.wrapping_add(1)
        } else {
            0
        };
        if rests == 3 {
            return Some(count);
        }
    }
    None
}

// A machine that boots from a disk and waits for a key.
fn waiting<T: Translate>(alloc: Global, disk: MemDisk, translator: T) -> Option<Run<T>> {
    let mut run = Run::boot(alloc, disk, translator, 64)?;
    if settle(&mut run).is_none() {
        run.end();
        return None;
    }
    Some(run)
}

// Saves a machine, none of whose processes matters. Returns the disk that it leaves, which the check accepts. Its text
// is appended to what was printed before.
fn put_away(alloc: Global, run: Parted, text: &mut Vec<u8>) -> Option<MemDisk> {
    let (mut disk, printed) = run.left()?;
    text.extend_from_slice(printed.as_slice()).ok()?;
    check(alloc, &mut disk).ok()?;
    Some(disk)
}

// Saves a machine and boots what it leaves.
fn again(alloc: Global, run: Parted, text: &mut Vec<u8>) -> Option<Parted> {
    let disk = put_away(alloc, run, text)?;
    waiting(alloc, disk, Tlb::<64>::new())
}

// Whether both go through these events, and take as many steps until they wait.
fn go_alike(whole: &mut Whole, parted: &mut Parted, events: &[Event]) -> bool {
    if whole.run(events).is_err() || parted.run(events).is_err() {
        return false;
    }
    match (settle(whole), settle(parted)) {
        (Some(steps), Some(others)) => steps == others,
        _ => false,
    }
}

// The same with the events of a round.
fn go_round(alloc: Global, whole: &mut Whole, parted: &mut Parted, dice: &mut Dice) -> bool {
    match round(alloc, dice) {
        Ok(events) => go_alike(whole, parted, &events),
        Err(_) => false,
    }
}

// All rounds, with a save and a boot after each. Returns the machine that was booted last; `None` where the two differ.
// What is printed is appended to the text.
fn go_on(
    alloc: Global,
    whole: &mut Whole,
    mut parted: Parted,
    text: &mut Vec<u8>,
    dice: &mut Dice,
) -> Option<Parted> {
    for _ in 0..ROUNDS {
        if !go_round(alloc, whole, &mut parted, dice) {
            parted.end();
            return None;
        }
        parted = again(alloc, parted, text)?;
    }
    Some(parted)
}

// Whether the machine that is saved and booted again ends with the files of the other. What it prints goes into the
// text.
fn ends_alike(
    alloc: Global,
    whole: &mut Whole,
    parted: Parted,
    seed: u64,
    text: &mut Vec<u8>,
) -> bool {
    let Some(mut parted) = go_on(alloc, whole, parted, text, &mut Dice(seed)) else {
        return false;
    };
    let same = has_same_files(whole, &mut parted);
    parted.end();
    same
}

// Whether rounds give the same files and the same text with and without saves between them.
fn is_same(alloc: Global, mut whole: Whole, parted: Parted, seed: u64) -> bool {
    let mut text = Vec::new(alloc);
    let same = ends_alike(alloc, &mut whole, parted, seed, &mut text);
    let is_printed = whole.printed() == text.as_slice();
    whole.end();
    same && is_printed
}

// A machine that boots from an image and waits for a key.
fn begun<T: Translate>(alloc: Global, image: &[u8], translator: T) -> Option<Run<T>> {
    let disk = disk_of(alloc, image)?;
    waiting(alloc, disk, translator)
}

// The same of machines that boot from an image.
fn is_kept(alloc: Global, image: &[u8], seed: u64) -> Option<bool> {
    let whole = begun(alloc, image, Plain::new())?;
    let Some(parted) = begun(alloc, image, Tlb::<64>::new()) else {
        whole.end();
        return None;
    };
    Some(is_same(alloc, whole, parted, seed))
}

#[test]
fn a_save_and_a_boot_change_no_files(rt: HostRuntime) {
    let alloc = rt.alloc();
    let image = image_of(alloc, SERVANT, 17_000, 32).expect(&rt, "an image");
    for seed in 0..LISTS {
        let same = is_kept(alloc, image.as_slice(), seed);
        holds_at(&rt, seed as usize, same == Some(true));
    }
}
