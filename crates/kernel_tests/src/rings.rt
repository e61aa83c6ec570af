//! Pipes that are filled, emptied and closed.
use crate::expected::{expect_case, expect_row, memory};
use pipe::{End, Pipe};
use ram::{FrameNo, Ram};
use std::process::Abort;

// A pipe in a memory, what went into it, and what came out.
#[derive(Drop)]
struct Watched {
    ram: Ram,
    pipe: Pipe,
    sent: Vec<u8>,
    received: Vec<u8>,
}

// What is done with a pipe, or asked, and the expected result.
#[derive(Clone, Copy)]
enum Act {
    /// Writes that many bytes.
    Write(usize, Option<usize>),
    /// Reads that many bytes.
    Read(usize, Option<usize>),
    Close(End, bool),
    IsOpen(End, bool),
    CanRead(bool),
    CanWrite(bool),
}

// 513 bytes that differ from their neighbours.
fn bytes() -> [u8; 513] {
    let mut bytes = [0; 513];
    for (i, byte) in bytes.iter_mut().enumerate() {
        *byte = (i % 251) as u8;
    }
    bytes
}

impl Watched {
    fn new(rt: &(impl Abort + AllocGlobal)) -> Watched {
        Watched {
            ram: memory(rt, 3),
            pipe: Pipe::new(FrameNo(1)),
            sent: Vec::new(rt.alloc()),
            received: Vec::new(rt.alloc()),
        }
    }

    // Writes bytes, and notes those that fit.
    fn write(&mut self, rt: &impl Abort, bytes: &[u8]) -> Option<usize> {
        let frames = self.ram.frame_count();
        assert!(rt; self.pipe.frame().0 < frames);
        let Some(count) = self.pipe.write_some(&mut self.ram, bytes) else {
            return None;
        };
        self.sent
            .extend_from_slice(&bytes[..count])
            .expect(rt, "memory");
        Some(count)
    }

    // Reads up to `len` bytes, and notes those that there are.
    fn read(&mut self, rt: &impl Abort, len: usize) -> Option<usize> {
        let mut buffer = [0; 600];
        let frames = self.ram.frame_count();
        assert!(rt; len <= 600 && self.pipe.frame().0 < frames);
        let Some(count) = self.pipe.read_some(&self.ram, &mut buffer[..len]) else {
            return None;
        };
        self.received
            .extend_from_slice(&buffer[..count])
            .expect(rt, "memory");
        Some(count)
    }

    // Does it, and returns whether that gives what is expected.
    fn does(&mut self, rt: &impl Abort, act: Act) -> bool {
        match act {
            Act::Write(offered, count) => {
                self.write(rt, bytes().get(..offered).unwrap_or(&[])) == count
            }
            Act::Read(asked, count) => self.read(rt, asked) == count,
            Act::Close(end, was_last) => self.pipe.close_end(end) == was_last,
            Act::IsOpen(end, is_open) => self.pipe.is_open(end) == is_open,
            Act::CanRead(can) => self.pipe.can_read() == can,
            Act::CanWrite(can) => self.pipe.can_write() == can,
        }
    }
}

// What is done with a new pipe.
struct Case {
    name: &'static str,
    acts: &'static [Act],
}

static CASES: [Case; 3] = [
    Case {
        name: "what fits is written, and read in order",
        acts: &[
            Act::Write(513, Some(512)),
            Act::Read(0, Some(0)),
            Act::Write(1, Some(0)),
            Act::Read(10, Some(10)),
            Act::Write(513, Some(10)),
            Act::Read(600, Some(512)),
            Act::Write(500, Some(500)),
            Act::Read(600, Some(500)),
        ],
    },
    Case {
        name: "a write end that is closed ends the reads",
        acts: &[
            Act::CanRead(false),
            Act::Read(10, None),
            Act::Write(2, Some(2)),
            Act::Close(End::Write, false),
            Act::Read(10, Some(2)),
            Act::Read(10, Some(0)),
            Act::CanRead(true),
            Act::CanWrite(true),
            Act::IsOpen(End::Read, true),
            Act::Close(End::Read, true),
        ],
    },
    Case {
        name: "a read end that is closed ends the writes",
        acts: &[
            Act::Read(10, None),
            Act::Close(End::Read, false),
            Act::Write(2, None),
            Act::Read(10, None),
            Act::Read(10, None),
            Act::CanRead(false),
            Act::CanWrite(true),
        ],
    },
];

// Does it, and all that was sent is read at the end.
fn expect(rt: &(impl Abort + AllocGlobal), case: &Case) {
    let mut watched = Watched::new(rt);
    for (at, act) in case.acts.iter().enumerate() {
        expect_row(rt, watched.does(rt, *act), case.name, at);
    }
    expect_case(
        rt,
        watched.received.as_slice() == watched.sent.as_slice(),
        case.name,
    );
}

#[test]
fn pipes_are_filled_emptied_and_closed(rt: HostRuntime) {
    for case in &CASES {
        expect(&rt, case);
    }
}
