use gdbwire::{
    Action, Going, Heard, Id, Numbered, Packet, Part, Parted, Point, Reader, Texted, Thread,
    Threaded, Word, action_in, number, parse, push_bytes, push_decoded, push_frame, push_number,
};
use std::alloc::{AllocError, Global};

// What is heard last of these bytes, and the body that the reader has.
fn last_heard(alloc: Global, bytes: &[u8]) -> Result<(Option<Heard>, Reader), AllocError> {
    let mut reader = Reader::new(alloc)?;
    let mut last = None;
    for byte in bytes {
        last = reader.hear(*byte);
    }
    Ok((last, reader))
}

// Bytes as they come, what is heard with the last of them, and the body. The sums are of gdb's manual, or added up by
// hand.
const ROWS: [(&[u8], Option<Heard>, &[u8]); 9] = [
    (b"$OK#9a", Some(Heard::Packet), b"OK"),
    (b"+$qC#b4", Some(Heard::Packet), b"qC"),
    (b"noise$m0,4#fd", Some(Heard::Packet), b"m0,4"),
    (b"$half$OK#9A", Some(Heard::Packet), b"OK"),
    (b"$}\x03#80", Some(Heard::Packet), b"#"),
    (b"$OK#9b", Some(Heard::Damaged), b"OK"),
    (b"$OK#g1", Some(Heard::Damaged), b"OK"),
    (b"$OK#9a\x03", Some(Heard::Interrupt), b"OK"),
    (b"$OK#9", None, b"OK"),
];

#[test]
fn frames_are_read_as_the_protocol_has_them(rt: HostRuntime) {
    for (bytes, heard, body) in &ROWS {
        let (last, reader) = last_heard(rt.alloc(), bytes).expect(&rt, "memory");
        assert!(rt; last == *heard && reader.body() == *body);
    }
}

#[test]
fn frames_and_numbers_are_written_as_the_protocol_has_them(rt: HostRuntime) {
    let mut out = Vec::new(rt.alloc());
    push_frame(b"OK", &mut out).expect(&rt, "memory");
    push_frame(b"#*", &mut out).expect(&rt, "memory");
    push_bytes(b"\x00\xff", &mut out).expect(&rt, "memory");
    assert!(rt; out.as_slice() == b"$OK#9a$}\x03}\x0a#0700ff".as_slice());
    assert!(rt;
        number(b"7fffFFFF") == Some(0x7fff_ffff)
            && number(b"") == None
            && number(b"10000000000000000") == None
    );
}

// A thread of a process.
const SECOND: Thread = Thread {
    process: Id::One(2),
    thread: Id::One(2),
};

const FIRST_PAGE: Part = Part {
    from: 0,
    count: 0x1000,
};

const BREAK: Part = Part {
    from: 0x28,
    count: 4,
};

// Bodies as gdb sends them, and the packets that they are.
const PACKETS: [(&[u8], Option<Packet>); 24] = [
    (b"?", Some(Packet::Word(Word::LastStop))),
    (b"qC", Some(Packet::Word(Word::CurrentThread))),
    (b"qCRC:0,4", None),
    (b"qAttached", Some(Packet::Word(Word::IsAttached))),
    (
        b"qAttached:1",
        Some(Packet::Numbered(Numbered::IsAttachedTo, 1)),
    ),
    (b"p20", Some(Packet::Numbered(Numbered::Register, 32))),
    (b"p", None),
    (b"D;2", Some(Packet::Numbered(Numbered::Detach, 2))),
    (b"Hgp2.2", Some(Packet::Threaded(Threaded::Looks, SECOND))),
    (
        b"Hcp-1.-1",
        Some(Packet::Threaded(
            Threaded::Steps,
            Thread {
                process: Id::All,
                thread: Id::All,
            },
        )),
    ),
    (
        b"Hg1",
        Some(Packet::Threaded(
            Threaded::Looks,
            Thread {
                process: Id::One(0),
                thread: Id::One(1),
            },
        )),
    ),
    (
        b"Tp2",
        Some(Packet::Threaded(
            Threaded::IsAlive,
            Thread {
                process: Id::One(2),
                thread: Id::All,
            },
        )),
    ),
    (b"T", None),
    (b"m0,1000", Some(Packet::Parted(Parted::Memory, FIRST_PAGE))),
    (b"m0", None),
    (b"m0,10000000000000000", None),
    (
        b"qSupported:swbreak+",
        Some(Packet::Texted(Texted::Supported, 8)),
    ),
    (b"vCont;s:p2.2;c", Some(Packet::Texted(Texted::Resume, 8))),
    (
        b"qXfer:exec-file:read:2:0,1000",
        Some(Packet::ProgramPath(2, FIRST_PAGE)),
    ),
    (
        b"vFile:pread:1,1000,0",
        Some(Packet::ReadFile(1, FIRST_PAGE)),
    ),
    (b"Z0,28,4", Some(Packet::Set(Point::Break, BREAK, 0))),
    (b"Z0,28,4;X1,27", Some(Packet::Set(Point::Break, BREAK, 5))),
    (b"z2,28,4", Some(Packet::Clear(Point::Write, BREAK, 0))),
    (b"vMustReplyEmpty", None),
];

#[test]
fn packets_are_read_as_gdb_sends_them(rt: HostRuntime) {
    for (body, packet) in &PACKETS {
        assert!(rt; parse(*body) == *packet);
    }
}

// Actions as gdb sends them.
const ACTIONS: [(&[u8], Option<Action>); 7] = [
    (
        b"c",
        Some(Action {
            going: Going::Continue,
            thread: None,
        }),
    ),
    (
        b"S05:p2.2",
        Some(Action {
            going: Going::Step,
            thread: Some(SECOND),
        }),
    ),
    (
        b"r0,28:p2.2",
        Some(Action {
            going: Going::Range(0, 0x28),
            thread: Some(SECOND),
        }),
    ),
    (b"ss", None),
    (b"r0", None),
    (b"t", None),
    (b"", None),
];

#[test]
fn actions_are_read_as_gdb_sends_them(rt: HostRuntime) {
    for (text, action) in &ACTIONS {
        assert!(rt; action_in(*text) == *action);
    }
}

#[test]
fn numbers_and_bytes_are_written_and_read(rt: HostRuntime) {
    let mut out = Vec::new(rt.alloc());
    for number in &[0, 16, 0x7fff_ffff, u64::MAX] {
        push_number(*number, &mut out).expect(&rt, "memory");
        push_decoded(b"20", &mut out).expect(&rt, "memory");
    }
    assert!(rt; out.as_slice() == b"0 10 7fffffff ffffffffffffffff ".as_slice());
    assert!(rt; push_decoded(b"2f6", &mut out) == Ok(false));
    assert!(rt; push_decoded(b"2g", &mut out) == Ok(false));
}
