//! Images, and machines that boot from them.
use asm::assemble;
use blockdev::MemDisk;
use console::Writer;
use image::{Entry, Manifest, Thing, make};
use machine::{Halt, Machine, boot, boot_flat};
use std::alloc::Global;
use std::process::Abort;
use sv39::{Plain, Tlb, Translate};
use unixmodel::event::Event;

/// It holds what a row of a table says.
pub(crate) fn holds_at(rt: &impl Abort, row: usize, holds: bool) {
    assert!(rt; holds, "row {row}");
}

/// The row of this name holds.
pub(crate) fn expect_row(rt: &impl Abort, name: &str, holds: Option<bool>) {
    assert!(rt; matches!(holds, Some(true)), "{name}");
}

/// What an image has at a path.
#[derive(Clone, Copy)]
pub(crate) enum Given<'a> {
    /// The program of a text.
    Program(&'a str),
    /// The program of a text, whose pages may only be read and executed.
    ReadOnly(&'a str),
    /// A file of this many zeros.
    Zeros(usize),
    /// The console.
    Console,
}

/// The offset of the flags of the one segment in a program's file, and the flags by which it may only be read and
/// executed.
const FLAGS: usize = 68;

const READ_EXECUTE: u8 = 5;

// The file of a program that may not be written.
fn read_only(alloc: Global, text: &str) -> Option<Vec<u8>> {
    let mut bytes = assemble(alloc, text).ok()?;
    if let Some(flags) = bytes.get_mut(FLAGS) {
        *flags = READ_EXECUTE;
    }
    Some(bytes)
}

// A file's bytes. `None`: it is no file.
fn bytes_of(alloc: Global, given: Given<'_>) -> Option<Vec<u8>> {
    match given {
        Given::Program(text) => assemble(alloc, text).ok(),
        Given::ReadOnly(text) => read_only(alloc, text),
        Given::Zeros(size) => vec![in alloc; 0u8; size].ok(),
        Given::Console => None,
    }
}

// What an image has at a path.
fn thing_of(alloc: Global, given: Given<'_>) -> Option<Thing> {
    if let Given::Console = given {
        return Some(Thing::Device { major: 1, minor: 0 });
    }
    Some(Thing::File(bytes_of(alloc, given)?))
}

// A path, and what is there.
fn entry(alloc: Global, path: &str, given: Given<'_>) -> Option<Entry> {
    let thing = thing_of(alloc, given)?;
    let path = Vec::from_slice(alloc, path.as_bytes()).ok()?;
    Some(Entry { path, thing })
}

/// The image of `blocks` blocks and 16 inodes that has these at their paths, as inodes 2 and up.
pub(crate) fn image_with(
    alloc: Global,
    files: &[(&str, Given<'_>)],
    blocks: u32,
) -> Option<Vec<u8>> {
    let mut entries = Vec::new(alloc);
    for (path, given) in files {
        entries.push(entry(alloc, path, *given)?).ok()?;
    }
    make(alloc, &Manifest { entries }, blocks, 16).ok()
}

/// The image of `blocks` blocks and 16 inodes whose `/init`, inode 2, is the program of this text, and whose `/big`,
/// inode 3, has `big` bytes.
pub(crate) fn image_of(alloc: Global, text: &str, big: usize, blocks: u32) -> Option<Vec<u8>> {
    let files = [("/init", Given::Program(text)), ("/big", Given::Zeros(big))];
    image_with(alloc, &files, blocks)
}

/// The disk of an image.
pub(crate) fn disk_of(alloc: Global, image: &[u8]) -> Option<MemDisk> {
    let bytes = Vec::from_slice(alloc, image).ok()?;
    MemDisk::new(bytes).ok()
}

/// A machine on a disk in memory, and what it prints.
#[derive(Drop)]
pub(crate) struct Run<T: Translate> {
    pub(crate) machine: Machine<MemDisk, T>,
    pub(crate) out: Writer<Vec<u8>>,
}

/// A machine that goes through its events in one piece.
pub(crate) type Whole = Run<Plain>;

/// A machine that goes through them in pieces.
pub(crate) type Parted = Run<Tlb<64>>;

/// How many frames a machine has, and how many blocks the image from which it boots.
#[derive(Clone, Copy)]
pub(crate) struct Room {
    pub(crate) frames: u32,
    pub(crate) blocks: u32,
}

/// The machine that boots from an image as `image_of` makes it.
pub(crate) fn run_of(alloc: Global, text: &str, big: usize, room: Room) -> Option<Whole> {
    let image = image_of(alloc, text, big, room.blocks)?;
    run_on(alloc, image, Plain::new(), room.frames)
}

/// The machine of 64 frames whose process 1 is a flat program.
pub(crate) fn flat(alloc: Global, program: &[u8]) -> Option<Whole> {
    let machine = boot_flat(alloc, program, 64).ok()?;
    let out = Writer::new(Vec::new(alloc));
    Some(Run { machine, out })
}

/// The machine of `frames` frames that boots from an image.
pub(crate) fn run_on<T: Translate>(
    alloc: Global,
    image: Vec<u8>,
    translator: T,
    frames: u32,
) -> Option<Run<T>> {
    let disk = MemDisk::new(image).ok()?;
    Run::boot(alloc, disk, translator, frames)
}

impl<T: Translate> Run<T> {
    /// A machine of `frames` frames that boots from a disk. `None`: it doesn't boot.
    pub(crate) fn boot(alloc: Global, disk: MemDisk, translator: T, frames: u32) -> Option<Run<T>> {
        let machine = boot(alloc, disk, translator, frames).ok()?;
        let out = Writer::new(Vec::new(alloc));
        Some(Run { machine, out })
    }

    /// The disk that it leaves, and what it printed.
    pub(crate) fn left(self) -> Option<(MemDisk, Vec<u8>)> {
        let Run { machine, out } = self;
        let disk = machine.save().ok()?;
        Some((disk, out.into_inner()))
    }

    /// What it printed so far.
    pub(crate) fn printed(&self) -> &[u8] {
        self.out.get_ref().as_slice()
    }

    /// Lets it go. Each function that lets a machine go is long to prove, so this one does it for all.
    pub(crate) fn end(self) {}

    /// One event.
    pub(crate) fn event(&mut self, event: Event) -> Result<(), Halt> {
        self.machine.step(event, &mut self.out)
    }

    /// A list of events.
    pub(crate) fn run(&mut self, events: &[Event]) -> Result<(), Halt> {
        self.machine.run(events, &mut self.out)
    }

    /// Takes `count` steps, up to the first that stops the machine; whether none does.
    pub(crate) fn steps(&mut self, count: usize) -> bool {
        for _ in 0..count {
            if self.event(Event::Step).is_err() {
                return false;
            }
        }
        true
    }
}
