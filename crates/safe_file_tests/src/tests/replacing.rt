//! A folder in memory, in which each step fails in turn.
use crate::tests::{Name, expect_that};
use safe_files::{Folder, PutFault, StepFault, Swept, replace, sweep};
use std::alloc::{AllocError, Global};
use std::process::Abort;

// The steps, in the order in which a file is replaced.
#[derive(Clone, Copy, PartialEq)]
enum Step {
    Begin,
    Write,
    Sync,
    Rename,
    Remove,
}

#[derive(Drop)]
struct Entry {
    name: String,
    bytes: Vec<u8>,
}

// Files by their names; the one that was begun is the last. These steps fail, a write after `room` bytes.
#[derive(Drop)]
struct Shelf<'a> {
    alloc: Global,
    entries: Vec<Entry>,
    fails: &'a [Step],
    fault: StepFault,
    room: usize,
}

impl Shelf<'_> {
    // Whether the step is done.
    fn does(&self, step: Step) -> Result<(), StepFault> {
        if self.fails.contains(&step) {
            return Err(self.fault);
        }
        Ok(())
    }

    // What a name holds.
    fn bytes(&self, name: &str) -> Option<&[u8]> {
        let entry = self
            .entries
            .iter()
            .find(|entry| entry.name.as_str() == name)?;
        Some(entry.bytes.as_slice())
    }

    // Puts a file at the end.
    fn add(&mut self, name: &str, bytes: &[u8]) -> Result<(), AllocError> {
        let name = String::from_str(self.alloc, name)?;
        let bytes = bytes.to_vec(self.alloc)?;
        self.entries.push(Entry { name, bytes })?;
        Ok(())
    }
}

impl Folder for Shelf<'_> {
    fn create_new(&mut self, name: &str) -> Result<(), StepFault> {
        if self.bytes(name).is_some() {
            return Err(StepFault::Taken);
        }
        self.does(Step::Begin)?;
        self.add(name, b"").map_err(|_| StepFault::Failed)
    }

    fn write(&mut self, bytes: &[u8]) -> Result<(), StepFault> {
        let done = self.does(Step::Write);
        let taken = match done {
            Ok(()) => bytes.len(),
            Err(_) => self.room.min(bytes.len()),
        };
        let Some(last) = self.entries.last_mut() else {
            return Err(StepFault::Failed);
        };
        match last.bytes.extend_from_slice(&bytes[..taken]) {
            Ok(()) => done,
            Err(_) => Err(StepFault::Failed),
        }
    }

    fn sync_all(&mut self) -> Result<(), StepFault> {
        self.does(Step::Sync)
    }

    fn rename(&mut self, one: &str, other: &str) -> Result<(), StepFault> {
        self.does(Step::Rename)?;
        let name = String::from_str(self.alloc, other).map_err(|_| StepFault::Failed)?;
        self.entries.retain(|entry| entry.name.as_str() != other);
        for entry in self.entries.iter_mut() {
            if entry.name.as_str() == one {
                entry.name = name;
                return Ok(());
            }
        }
        Err(StepFault::Failed)
    }

    fn remove_file(&mut self, name: &str) -> Result<(), StepFault> {
        self.does(Step::Remove)?;
        let count = self.entries.len();
        self.entries.retain(|entry| entry.name.as_str() != name);
        if self.entries.len() == count {
            return Err(StepFault::Failed);
        }
        Ok(())
    }

    // A file of three bytes was left.
    fn sweep(&mut self, name: &str) -> Swept {
        match self.bytes(name) {
            None => Swept::Absent,
            Some(bytes) if bytes.len() != 3 => Swept::Kept,
            Some(_) => match self.remove_file(name) {
                Ok(()) => Swept::Removed,
                Err(_) => Swept::Kept,
            },
        }
    }
}

// A shelf with a file `a/image` of these bytes, and one that a program left that was killed.
fn shelf_of<'a>(
    alloc: Global,
    fails: &'a [Step],
    fault: StepFault,
    room: usize,
) -> Result<Shelf<'a>, AllocError> {
    let mut shelf = Shelf {
        alloc,
        entries: Vec::new(alloc),
        fails,
        fault,
        room,
    };
    shelf.add("a/.xv6-new-0", b"new")?;
    shelf.add("a/image", b"old")?;
    Ok(shelf)
}

// A name, the steps that fail, the fault that they return, what comes of it, the bytes under the file's name, and how
// many files there are.
type Row = (
    &'static str,
    &'static [Step],
    StepFault,
    Result<(), PutFault>,
    &'static [u8],
    usize,
);

// How many bytes a write that fails takes, as rows print it.
static ROOMS: [&str; 5] = ["room 0", "room 1", "room 2", "room 3", "room 4"];

static ROWS: [Row; 11] = [
    ("nothing fails", &[], StepFault::Failed, Ok(()), b"newer", 2),
    (
        "no file can be begun",
        &[Step::Begin],
        StepFault::Failed,
        Err(PutFault::Failed),
        b"old",
        2,
    ),
    (
        "no file may be begun",
        &[Step::Begin],
        StepFault::Denied,
        Err(PutFault::Denied),
        b"old",
        2,
    ),
    (
        "a write fails",
        &[Step::Write],
        StepFault::Failed,
        Err(PutFault::Failed),
        b"old",
        2,
    ),
    (
        "a sync fails",
        &[Step::Sync],
        StepFault::Failed,
        Err(PutFault::Failed),
        b"old",
        2,
    ),
    (
        "a rename fails",
        &[Step::Rename],
        StepFault::Failed,
        Err(PutFault::Failed),
        b"old",
        2,
    ),
    (
        "no file may be renamed",
        &[Step::Rename],
        StepFault::Denied,
        Err(PutFault::Denied),
        b"old",
        2,
    ),
    (
        "nothing can be removed",
        &[Step::Remove],
        StepFault::Failed,
        Ok(()),
        b"newer",
        2,
    ),
    (
        "a write and a removal fail",
        &[Step::Write, Step::Remove],
        StepFault::Failed,
        Err(PutFault::Left),
        b"old",
        3,
    ),
    (
        "a sync and a removal fail",
        &[Step::Sync, Step::Remove],
        StepFault::Failed,
        Err(PutFault::Left),
        b"old",
        3,
    ),
    (
        "a rename and a removal fail",
        &[Step::Rename, Step::Remove],
        StepFault::Denied,
        Err(PutFault::Left),
        b"old",
        3,
    ),
];

// Replaces a file with another of five bytes, of which this comes.
fn expect_replaced(
    rt: &(impl Abort + AllocGlobal),
    name: Name<'_>,
    shelf: &mut Shelf<'_>,
    path: &str,
    told: Result<(), PutFault>,
) {
    let same = replace(rt.alloc(), shelf, path, b"newer") == told;
    expect_that(rt, name, "what comes of it", same);
}

// A write that fails takes `room` bytes.
fn expect_row(rt: &(impl Abort + AllocGlobal), row: &Row, room: usize) {
    let (subject, fails, fault, told, bytes, count) = *row;
    let name = (subject, ROOMS.get(room).copied().unwrap_or(""));
    let mut shelf = shelf_of(rt.alloc(), fails, fault, room).expect(rt, "memory");
    expect_replaced(rt, name, &mut shelf, "a/image", told);
    let same = shelf.bytes("a/image") == Some(bytes);
    expect_that(rt, name, "the files", shelf.entries.len() == count);
    expect_that(rt, name, "the file", same);
}

// A path, and the name of the file that is begun for it.
static BEGUN: [(&str, &str); 4] = [
    ("a/image", "a/.xv6-new-1"),
    ("a/b/image", "a/b/.xv6-new-0"),
    ("image", ".xv6-new-0"),
    ("a/.xv6-new-1", "a/.xv6-new-2"),
];

// A file that can't be removed is left under its name.
fn expect_begun(rt: &(impl Abort + AllocGlobal), path: &str, begun: &str) {
    let fails = [Step::Write, Step::Remove];
    let shelf = shelf_of(rt.alloc(), &fails, StepFault::Failed, 0);
    let mut shelf = shelf.expect(rt, "memory");
    let name = ("a file is begun", path);
    expect_replaced(rt, name, &mut shelf, path, Err(PutFault::Left));
    let same = shelf.bytes(begun) == Some(b"".as_slice());
    expect_that(rt, name, "the file", same);
}

fn expect_rooms(rt: &(impl Abort + AllocGlobal), row: &Row) {
    for room in 0..ROOMS.len() {
        expect_row(rt, row, room);
    }
}

fn expect_rows(rt: &(impl Abort + AllocGlobal)) {
    for row in &ROWS {
        expect_rooms(rt, row);
    }
}

fn expect_all_begun(rt: &(impl Abort + AllocGlobal)) {
    for (path, begun) in &BEGUN {
        expect_begun(rt, path, begun);
    }
}

// A path, the files beside `a/image`, what the folder does, and how many files stay.
type Sweep = (
    &'static str,
    &'static [&'static str],
    &'static [Step],
    usize,
);

static SWEEPS: [Sweep; 7] = [
    ("a/image", &[], &[], 1),
    ("a/image", &["a/.xv6-new-1", "a/.xv6-new-2"], &[], 1),
    ("a/image", &["a/.xv6-new-31"], &[], 1),
    ("a/image", &["a/.xv6-new-32"], &[], 1),
    ("a/image", &["a/.xv6-new-33"], &[], 2),
    ("a/image", &["a/.xv6-new-1"], &[Step::Remove], 3),
    ("a/.xv6-new-0", &["a/.xv6-new-1"], &[], 2),
];

// The files that were left are gone: those of the first 32 names, and those that follow without a gap.
fn expect_swept(rt: &(impl Abort + AllocGlobal), row: &Sweep) {
    let (path, others, fails, count) = *row;
    let shelf = shelf_of(rt.alloc(), fails, StepFault::Failed, 0);
    let mut shelf = shelf.expect(rt, "memory");
    for other in others {
        shelf.add(other, b"old").expect(rt, "memory");
    }
    sweep(rt.alloc(), &mut shelf, path);
    let name = ("files that were left", path);
    expect_that(rt, name, "how many stay", shelf.entries.len() == count);
    expect_that(rt, name, "the file", shelf.bytes(path).is_some());
}

fn expect_sweeps(rt: &(impl Abort + AllocGlobal)) {
    for row in &SWEEPS {
        expect_swept(rt, row);
    }
}

fn expect_files(rt: &(impl Abort + AllocGlobal)) {
    expect_rows(rt);
    expect_all_begun(rt);
    expect_sweeps(rt);
}

#[test]
fn keeps_the_old_file_or_has_the_new_one(rt: HostRuntime) {
    expect_files(&rt);
}
