//! The disk that a machine leaves.
use crate::hello::{FAILED, HI};
use crate::play::Act::{Answers, Halts, Steps};
use crate::play::{
    Case, EXIT, GETPID, MKDIR, MKNOD, NEXT_CALL, OPEN, Program, USUAL, WRITE, saved,
};
use image::{Entry, Manifest, Summary, Thing, check, make};
use machine::Halt;
use std::alloc::{AllocError, Global};
use std::process::Abort;
use sv39::{Plain, Tlb, Translate};
use test_translators::{MOST_PAGES, Noting};

// What a path names.
#[derive(Clone, Copy)]
enum Named {
    Folder,
    // A file without bytes.
    Empty,
    // A device, by its major and minor.
    Device(u16, u16),
}

// A path, and what it names.
type Name<'a> = (&'a [u8], Named);

const CONSOLE: Name<'static> = (b"/console", Named::Device(1, 0));

// What an image of the root and the console uses.
const FLAT: Summary = Summary {
    inodes: 2,
    blocks: 1,
};

fn manifest(alloc: Global, names: &[Name<'_>]) -> Result<Manifest, AllocError> {
    let mut entries = Vec::new(alloc);
    for (path, named) in names {
        let path = Vec::from_slice(alloc, path)?;
        let thing = match *named {
            Named::Folder => Thing::Directory,
            Named::Empty => Thing::File(Vec::new(alloc)),
            Named::Device(major, minor) => Thing::Device { major, minor },
        };
        entries.push(Entry { path, thing })?;
    }
    Ok(Manifest { entries })
}

fn image_of(alloc: Global, names: &[Name<'_>]) -> Option<Vec<u8>> {
    let manifest = manifest(alloc, names).ok()?;
    make(alloc, &manifest, 32, 16).ok()
}

// A run, and the image that it leaves: the names of which it is made, and what is in use of it.
struct Left {
    run: Case<'static>,
    names: &'static [Name<'static>],
    used: Summary,
}

const ASKS: Program<'static> = Program::Calls(&[[0, 0, 0, GETPID]]);

static LEFT: [Left; 4] = [
    Left {
        run: Case {
            name: "nothing was done",
            size: USUAL,
            program: ASKS,
            acts: &[],
        },
        names: &[CONSOLE],
        used: FLAT,
    },
    Left {
        run: Case {
            name: "what nobody changed is as it was",
            size: USUAL,
            program: ASKS,
            acts: &[Steps(NEXT_CALL)],
        },
        names: &[CONSOLE],
        used: FLAT,
    },
    Left {
        run: Case {
            name: "process 1 has ended",
            size: USUAL,
            program: Program::Calls(&[[7, 0, 0, EXIT]]),
            acts: &[Steps(NEXT_CALL - 1), Halts(Halt::InitEnded(7))],
        },
        names: &[CONSOLE],
        used: FLAT,
    },
    // The names follow the calls.
    // Each byte is as the maker of images has it, also the numbers of a file that is no device.
    Left {
        run: Case {
            name: "the disk has what was made",
            size: USUAL,
            program: Program::Calls(&[
                [128, 2, 3, MKNOD],
                [136, 0, 0, MKDIR],
                [144, 0x201, 0, OPEN],
                [b'n' as u64, b'm' as u64, b'f' as u64, 0],
            ]),
            acts: &[Answers(&[0, 0, 3])],
        },
        names: &[
            CONSOLE,
            (b"/n", Named::Device(2, 3)),
            (b"/m", Named::Folder),
            (b"/f", Named::Empty),
        ],
        used: Summary {
            inodes: 5,
            blocks: 2,
        },
    },
];

// After a run over this translator its machine leaves this image, with that many inodes and blocks in use.
fn leaves_over<T: Translate>(
    rt: &(impl Abort + AllocGlobal),
    left: &Left,
    image: &[u8],
    translator: T,
) {
    let name = left.run.name;
    let mut disk = saved(rt, left.run, translator).expect(rt, "a disk");
    assert!(rt; disk.bytes() == image, "{name}: the bytes");
    assert!(rt;
        check(rt.alloc(), &mut disk) == Ok(left.used),
        "{name}: what is in use"
    );
}

fn leaves(rt: &(impl Abort + AllocGlobal), left: &Left) {
    let image = image_of(rt.alloc(), left.names).expect(rt, "an image");
    leaves_over(rt, left, image.as_slice(), Plain::new());
    leaves_over(rt, left, image.as_slice(), Tlb::<64>::new());
    let noting = Noting::new(rt.alloc(), MOST_PAGES);
    leaves_over(rt, left, image.as_slice(), noting);
}

#[test]
fn has_what_was_made(rt: HostRuntime) {
    for left in &LEFT {
        leaves(&rt, left);
    }
}

// The console takes one byte, and fails at the next.
static FAILED_RUNS: [Case; 2] = [
    Case {
        name: "a call fails",
        size: (64, 1),
        program: Program::Calls(&[[1, 32, 3, WRITE]]),
        acts: &[Steps(NEXT_CALL - 1), Halts(Halt::Console)],
    },
    Case {
        name: "a program that says hi fails",
        size: (64, 1),
        program: HI,
        acts: &FAILED,
    },
];

#[test]
fn a_machine_that_failed_leaves_nothing(rt: HostRuntime) {
    for case in &FAILED_RUNS {
        let left = saved(&rt, *case, Plain::new());
        let name = case.name;
        assert!(rt; left.err() == Some(Halt::Halted), "{name}: a disk is left");
    }
}
