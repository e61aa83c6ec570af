//! Machines that boot from a disk.
use crate::hello::{BYTES, stale};
use crate::play::holds_at;
use asm::write_elf;
use blockdev::{FailAt, MemDisk};
use console::Writer;
use image::{Entry, ImageFault, Manifest, Summary, Thing, check, make};
use machine::{BootFault, Halt, Machine, Seen, boot};
use ram::{FRAME_SIZE, FrameNo, Ram};
use std::alloc::Global;
use std::num::NonZeroU64;
use sv39::{Plain, Tlb, Translate};
use test_translators::{MOST_PAGES, Noting};
use unixmodel::event::Event;

const INIT: &[u8; 5] = b"/init";

// How often the disk is asked for as its image is mounted: its super block, 32 blocks, and the super block again.
const MOUNTING: u64 = 34;

// The image of a root with one name.
fn image_with(alloc: Global, path: &[u8], thing: Thing) -> Option<Vec<u8>> {
    let path = Vec::from_slice(alloc, path).ok()?;
    let mut entries = Vec::new(alloc);
    entries.push(Entry { path, thing }).ok()?;
    make(alloc, &Manifest { entries }, 32, 16).ok()
}

// The image of a root with the file of the program that says `hi`.
fn image_of(alloc: Global, path: &[u8]) -> Option<Vec<u8>> {
    let file = write_elf(alloc, &BYTES).ok()?;
    image_with(alloc, path, Thing::File(file))
}

fn disk_of(alloc: Global, image: &[u8]) -> Option<MemDisk> {
    let bytes = Vec::from_slice(alloc, image).ok()?;
    MemDisk::new(bytes).ok()
}

// A machine with `frames` frames over this translator.
fn booted<T: Translate>(
    alloc: Global,
    image: &[u8],
    translator: T,
    frames: u32,
) -> Option<Machine<MemDisk, T>> {
    let disk = disk_of(alloc, image)?;
    boot(alloc, disk, translator, frames).ok()
}

// Whether it begins at 0, with one argument.
fn is_begun(seen: &Seen) -> bool {
    seen.pc == 0
        && seen.size == 12288
        && seen.registers[2] == 12256
        && seen.registers[10] == 1
        && seen.registers[11] == 12256
}

// Whether the argument and its pointer are at the end of the stack's page.
fn has_path(page: &[u8; FRAME_SIZE]) -> bool {
    page[4064..].starts_with(&[0xf0, 0x2f, 0, 0, 0, 0, 0, 0])
        && page[4080..].starts_with(b"/init\0")
}

#[test]
fn its_path_is_its_argument(rt: HostRuntime) {
    let alloc = rt.alloc();
    let image = image_of(alloc, INIT).expect(&rt, "an image");
    let machine = booted(alloc, image.as_slice(), Plain::new(), 256).expect(&rt, "a machine");
    let seen = machine.inspect(1).expect(&rt, "process 1");
    holds_at(&rt, 0, is_begun(&seen));
    let (page, _) = machine.peek(1, 2).expect(&rt, "its stack");
    holds_at(&rt, 1, has_path(page));
    holds_at(&rt, 2, machine.free_frames() == 247);
}

// Whether it prints nothing, since it has no descriptors, and ends at the ninth step.
fn is_silent<T: Translate>(alloc: Global, machine: &mut Machine<MemDisk, T>) -> bool {
    let mut out = Writer::new(Vec::new(alloc));
    let begun = machine.run(&[Event::Step; 8], &mut out);
    let done = machine.run(&[Event::Step; 1], &mut out);
    let ended = begun.is_ok() && done == Err(Halt::InitEnded(0));
    out.into_inner().as_slice().is_empty() && ended
}

// The same of one that boots from an image.
fn ends<T: Translate>(alloc: Global, image: &[u8], translator: T) -> Option<bool> {
    let mut machine = booted(alloc, image, translator, 64)?;
    Some(is_silent(alloc, &mut machine))
}

// What is in use of an image.
fn used(alloc: Global, image: &[u8]) -> Option<Summary> {
    let mut disk = disk_of(alloc, image)?;
    check(alloc, &mut disk).ok()
}

#[test]
fn init_has_no_descriptors(rt: HostRuntime) {
    const USED: Summary = Summary {
        inodes: 2,
        blocks: 6,
    };
    let alloc = rt.alloc();
    let image = image_of(alloc, INIT).expect(&rt, "an image");
    let image = image.as_slice();
    holds_at(&rt, 3, used(alloc, image) == Some(USED));
    holds_at(&rt, 0, ends(alloc, image, Plain::new()) == Some(true));
    holds_at(&rt, 1, ends(alloc, image, Tlb::<64>::new()) == Some(true));
    holds_at(
        &rt,
        2,
        ends(alloc, image, Noting::new(alloc, MOST_PAGES)) == Some(true),
    );
}

#[test]
fn what_the_translator_held_is_forgotten(rt: HostRuntime) {
    let alloc = rt.alloc();
    let image = image_of(alloc, INIT).expect(&rt, "an image");
    let mut other = Ram::new(alloc, 64).expect(&rt, "a memory");
    for root in 0..64u32 {
        let cache = stale(&mut other, FrameNo(root));
        holds_at(
            &rt,
            root as usize,
            ends(alloc, image.as_slice(), cache) == Some(true),
        );
    }
}

// Why a machine with `frames` frames doesn't boot from an image.
fn fault_of(alloc: Global, image: &[u8], frames: u32) -> Option<BootFault> {
    let disk = disk_of(alloc, image)?;
    boot(alloc, disk, Plain::new(), frames).err()
}

// What an image has: `/init`, which is a program, without its last block, or with another name, a directory or an empty
// file.
#[derive(Clone, Copy)]
enum Has {
    Init,
    Cut,
    Other,
    Folder,
    Empty,
}

impl Has {
    fn image(self, alloc: Global) -> Option<Vec<u8>> {
        match self {
            Has::Init => image_of(alloc, INIT),
            Has::Cut => {
                let mut image = image_of(alloc, INIT)?;
                image.truncate(31 * 1024);
                Some(image)
            }
            Has::Other => image_of(alloc, b"/other"),
            Has::Folder => image_with(alloc, INIT, Thing::Directory),
            Has::Empty => image_with(alloc, INIT, Thing::File(Vec::new(alloc))),
        }
    }
}

#[test]
fn tells_why_it_does_not_boot(rt: HostRuntime) {
    const ROWS: [(Has, u32, Option<BootFault>); 8] = [
        (Has::Init, 64, None),
        (Has::Init, 63, Some(BootFault::FrameCount)),
        (Has::Init, 32769, Some(BootFault::FrameCount)),
        (Has::Cut, 63, Some(BootFault::FrameCount)),
        (Has::Cut, 64, Some(BootFault::Image(ImageFault::Length))),
        (Has::Other, 64, Some(BootFault::NoInit)),
        (Has::Folder, 64, Some(BootFault::NoInit)),
        (Has::Empty, 64, Some(BootFault::NoInit)),
    ];
    for (row, (has, frames, fault)) in ROWS.iter().enumerate() {
        let image = has.image(rt.alloc()).expect(&rt, "an image");
        let found = fault_of(rt.alloc(), image.as_slice(), *frames);
        holds_at(&rt, row, found == *fault);
    }
}

// Why it doesn't boot from a disk whose accesses fail after `good` good ones.
fn failing(alloc: Global, image: &[u8], good: u64) -> Option<BootFault> {
    let disk = FailAt::new(disk_of(alloc, image)?, NonZeroU64::MIN.saturating_add(good));
    boot(alloc, disk, Plain::new(), 64).err()
}

#[test]
fn an_access_that_fails_is_told(rt: HostRuntime) {
    let alloc = rt.alloc();
    let image = image_of(alloc, INIT).expect(&rt, "an image");
    let image = image.as_slice();
    for good in 0..MOUNTING + 4 {
        holds_at(
            &rt,
            good as usize,
            failing(alloc, image, good) == Some(BootFault::Device),
        );
    }
    holds_at(&rt, 100, failing(alloc, image, 1000).is_none());
}
