//! An output over writers that take bytes piece by piece, and fail; and what is typed and read.
use crate::expected::expect_row;
use console::{Console, Out, OutFault, ROOM, Writer};
use std::alloc::Global;
use std::io;
use std::io::Write;

// Takes one byte at a time, `room` bytes in all, and then none.
#[derive(Drop)]
struct Narrow {
    taken: Vec<u8>,
    room: usize,
}

impl Write for Narrow {
    fn write(&mut self, buf: &[u8]) -> io::Result<usize> {
        match buf.first() {
            Some(byte) if self.taken.len() < self.room => {
                self.taken.push(*byte)?;
                Ok(1)
            }
            _ => Ok(0),
        }
    }

    fn flush(&mut self) -> io::Result<()> {
        Ok(())
    }
}

// An output over a writer that takes `room` bytes.
fn over_narrow(alloc: Global, room: usize) -> Writer<Narrow> {
    Writer::new(Narrow {
        taken: Vec::new(alloc),
        room,
    })
}

#[test]
fn puts_all_or_fails(rt: HostRuntime) {
    for (room, taken, result, failures) in [
        (3, "hi\n", Ok(()), 0),
        (2, "hi", Err(OutFault::Writer), 1),
    ] {
        let mut out = over_narrow(rt.alloc(), room);
        let told = (out.put(b"hi\n"), out.failures());
        assert!(rt; told == (result, failures), "{room}");
        assert!(rt;
            out.into_inner().taken.as_slice() == taken.as_bytes(),
            "{room}"
        );
    }
}

// What is done with a console.
#[derive(Clone, Copy)]
enum Act {
    /// These keys print this.
    Type(&'static [u8], &'static [u8]),
    CanTake(bool),
    /// A read of that many bytes takes these, and is over or not.
    Read(usize, &'static [u8], bool),
}

fn types(alloc: Global, console: &mut Console, keys: &[u8], echoed: &[u8]) -> bool {
    let mut out = Writer::new(Vec::new(alloc));
    for key in keys {
        if console.key(*key, &mut out).is_err() {
            return false;
        }
    }
    out.into_inner().as_slice() == echoed
}

fn reads(console: &mut Console, n: usize, bytes: &[u8], is_over: bool) -> bool {
    let mut buffer = [0; ROOM];
    let taken = console.take(n, false, &mut buffer);
    taken.over == is_over && &buffer[..taken.count] == bytes
}

// Whether that gives what is expected.
fn does(alloc: Global, console: &mut Console, act: Act) -> bool {
    match act {
        Act::Type(keys, echoed) => types(alloc, console, keys, echoed),
        Act::CanTake(can) => console.can_take() == can,
        Act::Read(n, bytes, is_over) => reads(console, n, bytes, is_over),
    }
}

// What is done with a new console.
struct Case {
    name: &'static str,
    acts: &'static [Act],
}

static CASES: [Case; 6] = [
    Case {
        name: "a key is taken back",
        acts: &[
            Act::Type(b"ab\x7fc\r", b"ab\x08 \x08c\n"),
            Act::CanTake(true),
            Act::Read(10, b"ac\n", true),
        ],
    },
    Case {
        name: "a line is taken back",
        acts: &[
            Act::Type(b"ab\x15\x08c\n", b"ab\x08 \x08\x08 \x08c\n"),
            Act::CanTake(true),
            Act::Read(10, b"c\n", true),
        ],
    },
    Case {
        name: "a read takes no more than it asks for",
        acts: &[
            Act::Type(b"\0\x10abcdefghijkl\n", b"abcdefghijkl\n"),
            Act::CanTake(true),
            Act::Read(10, b"abcdefghij", true),
        ],
    },
    Case {
        name: "a line that isn't ended is not read",
        acts: &[
            Act::Type(b"a", b"a"),
            Act::CanTake(false),
            Act::Read(10, b"", false),
        ],
    },
    Case {
        name: "the end of the input is taken alone",
        acts: &[
            Act::Type(b"x\x04", b"x\x04"),
            Act::Read(10, b"x", true),
            Act::Read(10, b"", true),
            Act::CanTake(false),
        ],
    },
    Case {
        name: "a full ring is committed again and again",
        acts: &[
            Act::Type(&[b'a'; 129], &[b'a'; 128]),
            Act::Read(100, &[b'a'; 100], true),
            Act::Read(100, &[b'a'; 28], false),
            Act::Type(b"abc\n", b"abc\n"),
            Act::Read(10, b"abc\n", true),
            Act::Type(&[b'a'; 129], &[b'a'; 128]),
            Act::Read(200, &[b'a'; 128], false),
            Act::Read(100, b"", false),
            Act::Type(b"abc\n", b"abc\n"),
            Act::Read(10, b"abc\n", true),
            Act::Type(&[b'a'; 129], &[b'a'; 128]),
            Act::Read(300, &[b'a'; 128], false),
            Act::Read(100, b"", false),
            Act::Type(b"abc\n", b"abc\n"),
            Act::Read(10, b"abc\n", true),
        ],
    },
];

#[test]
fn keys_are_echoed_and_read(rt: HostRuntime) {
    for case in &CASES {
        let mut console = Console::new();
        for (at, act) in case.acts.iter().enumerate() {
            expect_row(&rt, does(rt.alloc(), &mut console, *act), case.name, at);
        }
    }
}

#[test]
fn a_key_is_lost_where_the_writer_fails(rt: HostRuntime) {
    let mut console = Console::new();
    let mut out = over_narrow(rt.alloc(), 3);
    for (key, result) in [
        (b'a', Ok(())),
        (b'b', Ok(())),
        (0x15, Err(OutFault::Writer)),
        (b'\n', Err(OutFault::Writer)),
    ] {
        assert!(rt; console.key(key, &mut out) == result, "{key}");
    }
    let failures = out.failures();
    let narrow = out.into_inner();
    assert!(rt; failures == 2 && narrow.taken.as_slice() == b"ab\x08".as_slice());
    assert!(rt;
        types(rt.alloc(), &mut console, b"\n", b"\n") && reads(&mut console, 10, b"ab\n", true)
    );
}
