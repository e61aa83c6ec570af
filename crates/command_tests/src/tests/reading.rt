//! How much of the host's files is read, and which of them are held.
use crate::tests::{UNTOLD, expect, expect_that};
use commands::{
    Asm, Check, Dump, Flat, Front, Get, Host, HostFault, InUse, Job, Ls, Migrate, Mkfs, NoScreen,
    Put,
};
use std::alloc::Global;
use std::process::Abort;

// A file is read to its end.
const ALL: usize = usize::MAX;

// A byte more than the longest image has, in either format, and than the longest file on an image.
const IMAGE: usize = 134_217_729;

const SMALL_IMAGE: usize = 16_777_217;

const FILE: usize = 67_382_273;

// Files without bytes, except the manifest, and how much of each was asked for, in their order. The image may be held.
#[derive(Drop)]
struct Ruler {
    alloc: Global,
    asked: Vec<usize>,
    held: usize,
    is_free: bool,
}

impl Ruler {
    fn ask(&mut self, most: usize) -> Result<(), HostFault> {
        self.asked.push(most).map_err(|_| HostFault)
    }
}

impl Host for Ruler {
    type Screen = NoScreen;

    fn read(&mut self, name: &str) -> Result<Vec<u8>, HostFault> {
        self.ask(ALL)?;
        if name == "manifest" {
            return b"file /a f\n".to_vec(self.alloc).map_err(|_| HostFault);
        }
        Ok(Vec::new(self.alloc))
    }

    fn read_front(&mut self, _name: &str, most: usize) -> Result<Front, HostFault> {
        self.ask(most)?;
        Ok(Front {
            bytes: Vec::new(self.alloc),
            length: Some(0),
        })
    }

    fn read_marked(&mut self, _name: &str, mark: &[u8]) -> Result<Vec<u8>, HostFault> {
        self.ask(mark.len())?;
        Ok(Vec::new(self.alloc))
    }

    fn hold(&mut self, name: &str) -> Result<(), InUse> {
        if !self.is_free || name != "image" {
            return Err(InUse);
        }
        self.held = self.asked.len().saturating_add(1);
        Ok(())
    }

    fn write(&mut self, _name: &str, _bytes: &[u8]) -> Result<(), HostFault> {
        Ok(())
    }
}

fn ruler_of(alloc: Global, is_free: bool) -> Ruler {
    Ruler {
        alloc,
        asked: Vec::new(alloc),
        held: 0,
        is_free,
    }
}

const PUT: Job<'static> = Job::Put(Put {
    image: "image",
    path: "/a",
    file: "f",
});

// A job asks for this much of each file, and isn't done, for this reason, if there is one.
fn expect_asked(rt: &(impl Abort + AllocGlobal), job: &Job<'_>, asked: &[usize], line: &str) {
    let name = ("how much is read", line);
    let mut ruler = ruler_of(rt.alloc(), true);
    let status = if line.is_empty() { 0 } else { 1 };
    expect(rt, name, &mut ruler, job, ("", line, status));
    expect_that(rt, name, "all", ruler.asked.as_slice() == asked);
}

fn mkfs(size: u32, inodes: u32) -> Job<'static> {
    Job::Mkfs(Mkfs {
        size,
        inodes,
        manifest: "manifest",
        image: "image",
    })
}

fn expect_images(rt: &(impl Abort + AllocGlobal)) {
    let line = "fault 1 Length\n";
    let check = Job::Check(Check { image: "image" });
    expect_asked(rt, &check, &[IMAGE], line);
    let list = Job::Ls(Ls {
        recursive: true,
        image: "image",
        path: "/",
    });
    expect_asked(rt, &list, &[IMAGE], line);
    let get = Job::Get(Get {
        image: "image",
        path: "/",
        out: None,
    });
    expect_asked(rt, &get, &[IMAGE], line);
    expect_asked(rt, &PUT, &[IMAGE, FILE], line);
    let migrate = Job::Migrate(Migrate {
        old: "image",
        new: "f",
    });
    expect_asked(rt, &migrate, &[SMALL_IMAGE], line);
}

fn expect_programs(rt: &(impl Abort + AllocGlobal)) {
    expect_asked(rt, &mkfs(32, 16), &[ALL, 32_769], "");
    expect_asked(rt, &mkfs(131_072, 15), &[ALL, FILE], "fault 6 Numbers\n");
    let dump = Job::Dump(Dump {
        names: false,
        elf: "f",
    });
    expect_asked(rt, &dump, &[4], "fault 1 Magic\n");
    let flat = Job::Flat(Flat {
        frames: 1,
        tlb: false,
        telling: UNTOLD,
        file: "f",
        script: "s",
    });
    expect_asked(rt, &flat, &[IMAGE, ALL], "fault 2 FrameCount\n");
}

// The image is held before it is read, and only by `put`.
fn expect_held(rt: &(impl Abort + AllocGlobal)) {
    let name = ("an image", "that is held");
    let mut ruler = ruler_of(rt.alloc(), true);
    expect(rt, name, &mut ruler, &PUT, ("", "fault 1 Length\n", 1));
    expect_that(rt, name, "at first", ruler.held == 1);
    let mut ruler = ruler_of(rt.alloc(), false);
    expect(rt, name, &mut ruler, &PUT, ("", "image is in use\n", 1));
    expect_that(rt, name, "unread", ruler.asked.is_empty());
    let text = Job::Asm(Asm {
        text: "f",
        elf: "image",
    });
    expect(rt, name, &mut ruler, &text, ("", "", 0));
}

fn expect_reads(rt: &(impl Abort + AllocGlobal)) {
    expect_images(rt);
    expect_programs(rt);
    expect_held(rt);
}

#[test]
fn reads_no_more_than_it_needs(rt: HostRuntime) {
    expect_reads(&rt);
}
