//! Open files that come, are shared, and go.
use crate::expected::expect_row;
use files::{End, FileFault, Files, OpenFile, Target};
use std::process::Abort;
use unixmodel::limits::OPEN_FILES;

// What files are open on: a file and the same one once it was moved, another file, the console, a device that there
// isn't, and the ends of a pipe.
const FILE: Target = Target::File {
    number: 7,
    offset: 0,
};

const MOVED: Target = Target::File {
    number: 7,
    offset: 25601,
};

const OTHER: Target = Target::File {
    number: 4,
    offset: 0,
};

const CONSOLE: Target = Target::Console { number: 2 };

const DEVICE: Target = Target::Device { number: 5 };

const READ_END: Target = Target::Pipe {
    pipe: 3,
    end: End::Read,
};

const WRITE_END: Target = Target::Pipe {
    pipe: 3,
    end: End::Write,
};

// What is open on this: an end of a pipe for what it is there for, and all else for reading and writing.
fn open_on(target: Target) -> OpenFile {
    let (readable, writable) = match target {
        Target::Pipe { end, .. } => (end == End::Read, end == End::Write),
        _ => (true, true),
    };
    OpenFile {
        target,
        readable,
        writable,
    }
}

// What is asked of a table, and the expected result.
#[derive(Clone, Copy)]
enum Row {
    Open(Target, Result<usize, FileFault>),
    /// Opens it in each slot, from the first to the last.
    Fill(Target),
    Dup(usize),
    Close(usize, Option<Target>),
    IsOpen(usize, Target),
    IsFree(usize),
    Read(usize, Result<Target, FileFault>),
    Write(usize, Result<Target, FileFault>),
    Stat(usize, Result<u32, FileFault>),
    Move(usize, u32),
    HasEnd(usize, End, bool),
    HasPipe(usize, bool),
    FreePlaces(usize),
}

fn fill(files: &mut Files, target: Target) -> bool {
    for place in 0..OPEN_FILES {
        if files.open(open_on(target)) != Ok(place) {
            return false;
        }
    }
    true
}

fn dup(files: &mut Files, id: usize) -> bool {
    if files.references(id) == u32::MAX {
        return false;
    }
    files.dup(id);
    true
}

fn holds(files: &mut Files, row: Row) -> bool {
    match row {
        Row::Open(target, answer) => files.open(open_on(target)) == answer,
        Row::Fill(target) => fill(files, target),
        Row::Dup(id) => dup(files, id),
        Row::Close(id, answer) => files.close(id) == answer,
        Row::IsOpen(id, target) => files.file(id) == Some(open_on(target)),
        Row::IsFree(id) => files.file(id).is_none(),
        Row::Read(id, answer) => files.read(id) == answer,
        Row::Write(id, answer) => files.write(id) == answer,
        Row::Stat(id, answer) => files.stat(id) == answer,
        Row::Move(id, offset) => {
            files.set_offset(id, offset);
            true
        }
        Row::HasEnd(pipe, end, answer) => files.has_end(pipe, end) == answer,
        Row::HasPipe(pipe, answer) => files.has_pipe(pipe) == answer,
        Row::FreePlaces(answer) => files.free_places() == answer,
    }
}

// What is asked of a new table in turn.
struct Case {
    name: &'static str,
    rows: &'static [Row],
}

static CASES: [Case; 7] = [
    Case {
        name: "a file takes the lowest slot",
        rows: &[
            Row::Open(FILE, Ok(0)),
            Row::Open(FILE, Ok(1)),
            Row::Open(FILE, Ok(2)),
            Row::Close(1, Some(FILE)),
            Row::IsFree(1),
            Row::Open(OTHER, Ok(1)),
            Row::IsOpen(1, OTHER),
            Row::Open(FILE, Ok(3)),
        ],
    },
    Case {
        name: "there are a hundred slots",
        rows: &[
            Row::Fill(FILE),
            Row::FreePlaces(0),
            Row::Open(OTHER, Err(FileFault::Slots)),
            Row::Close(42, Some(FILE)),
            Row::FreePlaces(1),
            Row::Open(OTHER, Ok(42)),
        ],
    },
    Case {
        name: "an open file lives while a descriptor names it",
        rows: &[
            Row::Open(WRITE_END, Ok(0)),
            Row::Dup(0),
            Row::Dup(0),
            Row::Close(0, None),
            Row::Close(0, None),
            Row::IsOpen(0, WRITE_END),
            Row::Close(0, Some(WRITE_END)),
            Row::IsFree(0),
            Row::Close(0, None),
        ],
    },
    Case {
        name: "an open file is read and written as it was opened",
        rows: &[
            Row::Open(READ_END, Ok(0)),
            Row::Open(WRITE_END, Ok(1)),
            Row::Read(0, Ok(READ_END)),
            Row::Write(0, Err(FileFault::NotWritable)),
            Row::Read(1, Err(FileFault::NotReadable)),
            Row::Write(1, Ok(WRITE_END)),
            Row::Read(2, Err(FileFault::NotReadable)),
            Row::Write(100, Err(FileFault::NotWritable)),
        ],
    },
    Case {
        name: "an open file is served as what its node is",
        rows: &[
            Row::Open(FILE, Ok(0)),
            Row::Open(CONSOLE, Ok(1)),
            Row::Open(DEVICE, Ok(2)),
            Row::Open(READ_END, Ok(3)),
            Row::Stat(0, Ok(7)),
            Row::Stat(1, Ok(2)),
            Row::Stat(2, Ok(5)),
            Row::Stat(3, Err(FileFault::NoFile)),
            Row::Stat(4, Err(FileFault::NoFile)),
            Row::Write(1, Ok(CONSOLE)),
            Row::Read(2, Err(FileFault::BadDevice)),
            Row::Write(2, Err(FileFault::BadDevice)),
        ],
    },
    Case {
        name: "a file goes on from an offset, and nothing else has one",
        rows: &[
            Row::Open(FILE, Ok(0)),
            Row::Open(CONSOLE, Ok(1)),
            Row::Open(READ_END, Ok(2)),
            Row::Move(0, 25601),
            Row::Move(1, 7),
            Row::Move(2, 7),
            Row::Move(3, 7),
            Row::Read(0, Ok(MOVED)),
            Row::IsOpen(1, CONSOLE),
            Row::IsOpen(2, READ_END),
            Row::IsFree(3),
            Row::Close(0, Some(MOVED)),
        ],
    },
    Case {
        name: "it is known which ends of a pipe are open",
        rows: &[
            Row::Open(READ_END, Ok(0)),
            Row::Open(WRITE_END, Ok(1)),
            Row::Open(OTHER, Ok(2)),
            Row::HasEnd(3, End::Write, true),
            Row::Close(1, Some(WRITE_END)),
            Row::HasEnd(3, End::Write, false),
            Row::HasEnd(3, End::Read, true),
            Row::HasPipe(3, true),
            Row::HasPipe(4, false),
            Row::Close(0, Some(READ_END)),
            Row::HasPipe(3, false),
        ],
    },
];

// What is expected holds in a new table.
fn expect(rt: &impl Abort, case: &Case) {
    let mut files = Files::new();
    for (at, row) in case.rows.iter().enumerate() {
        expect_row(rt, holds(&mut files, *row), case.name, at);
    }
}

#[test]
fn answers_what_is_asked_of_open_files(rt: HostRuntime) {
    for case in &CASES {
        expect(&rt, case);
    }
}
