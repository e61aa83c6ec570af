//! The programs of the machine that is debugged, and the image that has them.
use anyhow::{Context, bail};
use asm::assemble;
use blockdev::MemDisk;
use image::{Entry, Manifest, Thing, make};
use machine::boot;
use std::alloc::Global;
use sv39::{Plain, Recent};
use timeline::{Events, Timeline};
use unixmodel::event::Event;

/// Counts to 3, prints `hi`, starts `/child`, starts a child that faults, and prints a line that is typed.
const INIT: &str = "
        j start
        .word 0
counter: .dword 0               # 0x8
key:    .dword 0                # 0x10
start:  la s0, counter
        li s1, 3
count:  ld t0, 0(s0)
        addi t0, t0, 1
        sd t0, 0(s0)
        addi s1, s1, -1
        bne s1, zero, count
        la a0, console
        li a1, 2
        li a7, 15
        ecall                   # open
        li a0, 0
        li a7, 10
        ecall                   # dup
        li a0, 1
        la a1, hi
        li a2, 3
        li a7, 16
        ecall                   # write
        li a7, 1
        ecall                   # fork
        bne a0, zero, wait
        la a0, child
        la a1, words
        li a7, 7
        ecall                   # exec
wait:   li a0, 0
        li a7, 3
        ecall                   # wait
        li a7, 1
        ecall                   # fork
        bne a0, zero, reap
        lui t0, 0x7000
        ld t1, 8(t0)            # nothing is there
reap:   li a0, 0
        li a7, 3
        ecall                   # wait
        li a0, 0
        la a1, key
        li a2, 8
        li a7, 5
        ecall                   # read
        mv a2, a0
        li a0, 1
        la a1, key
        li a7, 16
        ecall                   # write
        li a0, 7
        li a7, 2
        ecall                   # exit
words:  .dword 0
console: .ascii \"/console\\0\"
hi:     .ascii \"hi\\n\"
child:  .ascii \"/child\\0\"
";

/// Prints `ok`, byte by byte.
const CHILD: &str = "
        li a0, 1
        la a1, text
        li a2, 1
        li a7, 16
        ecall                   # write
        li a0, 1
        addi a1, a1, 1
        ecall                   # write
        li a0, 1
        addi a1, a1, 1
        ecall                   # write
        li a0, 5
        li a7, 2
        ecall                   # exit
text:   .ascii \"ok\\n\"
";

/// How many frames the machine has.
const FRAMES: u32 = 64;

/// How many blocks and inodes the image has.
const BLOCKS: u32 = 64;

const INODES: u32 = 16;

/// How many steps the machine makes: after them it waits for a key.
const STEPS: u32 = 400;

/// As many copies of the machine are kept for motions back.
const COPIES: usize = 4;

/// The assembly text of a program of the image.
pub(crate) fn text_of(path: &[u8]) -> Option<&'static str> {
    if path == b"/init".as_slice() {
        return Some(INIT);
    }
    if path == b"/child".as_slice() {
        return Some(CHILD);
    }
    None
}

// What the image has at a path.
fn entry(alloc: Global, path: &[u8]) -> anyhow::Result<Entry> {
    let thing = match text_of(path) {
        Some(text) => Thing::File(assemble(alloc, text)?),
        None => Thing::Device { major: 1, minor: 0 },
    };
    Ok(Entry {
        path: Vec::from_slice(alloc, path)?,
        thing,
    })
}

// The disk with the programs and the console.
fn disk(alloc: Global) -> anyhow::Result<MemDisk> {
    let mut entries = Vec::new(alloc);
    for path in [b"/init".as_slice(), b"/child", b"/console"] {
        entries.push(entry(alloc, path)?)?;
    }
    let image = make(alloc, &Manifest { entries }, BLOCKS, INODES)?;
    Ok(MemDisk::new(image)?)
}

// The events of the machine.
fn events(alloc: Global) -> anyhow::Result<Events> {
    let mut events = Events::new(alloc);
    if events.push(Event::Step, STEPS).is_err() {
        bail!("no room for events");
    }
    Ok(events)
}

/// The machine at the start of its events.
pub(crate) fn start(alloc: Global) -> anyhow::Result<Timeline> {
    let machine = boot(alloc, disk(alloc)?, Recent::new(Plain::new()), FRAMES)?;
    let timeline = Timeline::new(alloc, machine, events(alloc)?, COPIES);
    timeline.ok().context("no memory")
}
