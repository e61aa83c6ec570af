//! Stored sessions at a keyboard.
ghost use Rattle.std.specs.Prelude.{◌≤◌, IfOk, IfSome, length};

use crate::tests::narrow_outputs::{expect_narrow, output_of};
use crate::tests::runs::{WITH_CONSOLE, with_image};
use crate::tests::telling::expect_parts;
use crate::tests::{Name, UNTOLD, Wanted, expect_that};
use commands::perform::perform;
use commands::{Gdb, Host, HostFault, Job, Live, NoScreen, Run};
use std::alloc::{AllocError, Global};
use std::num::NonZeroU64;
use std::process::Abort;

// Says once more each line that is typed, two ticks later, until none comes: then it ends with 7.
pub const LISTENS: &str = "\
    la a0, console\n li a1, 2\n li a7, 15\n ecall\n\
    again: li a0, 0\n la a1, line\n li a2, 100\n li a7, 5\n ecall\n beq a0, zero, ends\n mv s0, a0\n\
    li a0, 2\n li a7, 13\n ecall\n mv a2, s0\n li a0, 0\n la a1, line\n li a7, 16\n ecall\n j again\n\
    ends: li a0, 7\n li a7, 2\n ecall\n\
    console: .ascii \"console\\0\"\nline: .zero 100\n";

// The files `image`, `script`, `record` and `saved`, and what is typed.
#[derive(Drop)]
pub struct Desk {
    pub image: Vec<u8>,
    pub script: Vec<u8>,
    pub record: Vec<u8>,
    saved: Vec<u8>,
    typed: Vec<u8>,
    // How long the record may get.
    room: usize,
}

impl Host for Desk {
    type Screen = NoScreen;

    fn read(&mut self, name: &str) -> Result<Vec<u8>, HostFault> {
        let found = if name == "image" {
            &self.image
        } else if name == "script" {
            &self.script
        } else if name == "record" {
            &self.record
        } else {
            return Err(HostFault);
        };
        found.clone().map_err(|_| HostFault)
    }

    fn write(&mut self, name: &str, bytes: &[u8]) -> Result<(), HostFault> {
        let file = if name == "record" && bytes.len() <= self.room {
            &mut self.record
        } else if name == "saved" {
            &mut self.saved
        } else {
            return Err(HostFault);
        };
        file.clear();
        file.extend_from_slice(bytes).map_err(|_| HostFault)
    }

    fn append(&mut self, name: &str, bytes: &[u8]) -> Result<(), HostFault> {
        if name != "record" || self.record.len().saturating_add(bytes.len()) > self.room {
            return Err(HostFault);
        }
        self.record.extend_from_slice(bytes).map_err(|_| HostFault)
    }

    // Gives two keys at most.
    fn type_in(&mut self, bytes: &mut [u8], is_terminal: bool) -> Result<Option<usize>, HostFault>
        ensures { IfOk result (λ typed. IfSome typed (λ count. count ≤ length bytes.old)) }
    {
        let count = self.typed.len().min(bytes.len()).min(2);
        for place in bytes.iter_mut().take(count) {
            if !self.typed.is_empty() {
                *place = self.typed.remove(0);
            }
        }
        Ok((count > 0 || !is_terminal).then_some(count))
    }
}

pub fn desk_of(alloc: Global, image: &[u8], typed: &[u8], room: usize) -> Result<Desk, AllocError> {
    Ok(Desk {
        image: image.to_vec(alloc)?,
        script: Vec::new(alloc),
        record: Vec::new(alloc),
        saved: Vec::new(alloc),
        typed: typed.to_vec(alloc)?,
        room,
    })
}

// Does a job at a desk, with a standard output that takes `room` bytes.
fn expect_at(
    rt: &(impl Abort + AllocGlobal),
    name: Name<'_>,
    desk: &mut Desk,
    job: &Job<'_>,
    room: usize,
    wanted: Wanted<'_>,
) {
    let out = output_of(rt.alloc(), room, true);
    expect_narrow(rt, name, desk, job, out, wanted);
}

const SITTING: Live<'static> = Live {
    frames: 256,
    quantum: None,
    script: Some("record"),
    save: Some("saved"),
    terminal: false,
    edit: false,
    symbols: None,
    image: "image",
};

const REPLAY: Job<'static> = Job::Run(Run {
    frames: 256,
    tlb: false,
    fail: None,
    save: Some("saved"),
    telling: UNTOLD,
    image: "image",
    script: "record",
});

// Whether it is at a terminal, what is typed, standard output, standard error, and its end.
type Session = (
    bool,
    &'static [u8],
    &'static str,
    &'static str,
    &'static str,
);

const REPLAYED: &str = "xv6 run --frames 256 image record\nrunning\n";

const ENDED: &str = "xv6 run --frames 256 image record\nhalt 1 InitEnded 7\n";

static SESSIONS: [Session; 8] = [
    (false, b"", "", REPLAYED, "running\n"),
    (false, b"ab", "ab", REPLAYED, "running\n"),
    (
        false,
        b"ab\ncd\n",
        "ab\nab\ncd\ncd\n",
        REPLAYED,
        "running\n",
    ),
    (
        false,
        b"ab\n\x04ef\n",
        "ab\nab\n\x04",
        ENDED,
        "halt 1 InitEnded 7\n",
    ),
    (false, b"\x01x\n", "\x01x\n\x01x\n", REPLAYED, "running\n"),
    (true, b"a\n\x01xb\n", "a\n", REPLAYED, "running\n"),
    (true, b"\x01\x01\n\x01x", "\x01\n", REPLAYED, "running\n"),
    (true, b"ab\x01xcd", "ab", REPLAYED, "running\n"),
];

// A session, and the run over its record: it prints the same, ends the same and leaves the same.
fn expect_session(
    rt: &(impl Abort + AllocGlobal),
    image: &[u8],
    session: &Session,
    quantum: Option<NonZeroU64>,
) {
    let (terminal, typed, stdout, stderr, line) = *session;
    let mut desk = desk_of(rt.alloc(), image, typed, 100_000).expect(rt, "memory");
    let live = Job::Live(Live {
        terminal,
        quantum,
        ..SITTING
    });
    let name = ("a session", stdout);
    expect_at(rt, name, &mut desk, &live, 1000, (stdout, stderr, 0));
    let left = desk.saved.clone().expect(rt, "memory");
    let name = ("its record", stdout);
    expect_at(rt, name, &mut desk, &REPLAY, 1000, (stdout, line, 0));
    let same = desk.saved == left && !left.is_empty();
    expect_that(rt, name, "what is saved", same);
}

// The shown processes are none of the console's bytes. With many steps between two ticks process 1 waits by then.
static SHOWN: Session = (
    true,
    b"a\x10b\x01x",
    "ab",
    "\n1 sleep 12288\nxv6 run --frames 256 image record\nrunning\n",
    "running\n",
);

// The same of a process that runs.
static BUSY: Session = (
    true,
    b"\x10\x01x",
    "",
    "\n1 run 12288\nxv6 run --frames 256 image record\nrunning\n",
    "running\n",
);

// The words of a session that fails, how long its record may get, how many bytes standard output takes, and what is
// printed.
struct Refused {
    image: &'static str,
    frames: u32,
    script: Option<&'static str>,
    save: Option<&'static str>,
    record: usize,
    room: usize,
    wanted: Wanted<'static>,
}

const FAILS: Refused = Refused {
    image: "image",
    frames: 256,
    script: Some("record"),
    save: Some("saved"),
    record: 1000,
    room: 1000,
    wanted: ("", "", 1),
};

static REFUSED: [Refused; 9] = [
    Refused {
        script: Some("image"),
        wanted: ("", "image is named twice\n", 1),
        ..FAILS
    },
    Refused {
        save: Some("record"),
        wanted: ("", "record is named twice\n", 1),
        ..FAILS
    },
    Refused {
        image: "none",
        wanted: ("", "cannot read none\n", 1),
        ..FAILS
    },
    Refused {
        image: "record",
        script: None,
        wanted: ("", "fault 1 Length\n", 1),
        ..FAILS
    },
    Refused {
        frames: 63,
        wanted: ("", "fault 2 FrameCount\n", 1),
        ..FAILS
    },
    Refused {
        script: Some("none"),
        wanted: ("", "cannot write none\n", 1),
        ..FAILS
    },
    Refused {
        save: Some("none"),
        wanted: ("a\na\n", "running\ncannot write none\n", 1),
        ..FAILS
    },
    Refused {
        record: 10,
        wanted: ("a\na\n", "running\ncannot write record\n", 1),
        ..FAILS
    },
    Refused {
        room: 3,
        wanted: ("a\na", "halt 3 Console\n", 1),
        ..FAILS
    },
];

fn expect_refused(rt: &(impl Abort + AllocGlobal), image: &[u8], row: &Refused) {
    let mut desk = desk_of(rt.alloc(), image, b"a\n", row.record).expect(rt, "memory");
    let name = ("a session that fails", row.wanted.1);
    let job = Job::Live(Live {
        image: row.image,
        frames: row.frames,
        script: row.script,
        save: row.save,
        ..SITTING
    });
    expect_at(rt, name, &mut desk, &job, row.room, row.wanted);
}

fn expect_sessions(rt: &(impl Abort + AllocGlobal), image: &[u8]) {
    for session in &SESSIONS {
        expect_session(rt, image, session, None);
        expect_session(rt, image, session, NonZeroU64::new(5));
    }
}

fn expect_all_refused(rt: &(impl Abort + AllocGlobal), image: &[u8]) {
    for row in &REFUSED {
        expect_refused(rt, image, row);
    }
}

pub const LIVE: Job<'static> = Job::Live(SITTING);

fn gdb(script: Option<&'static str>, recorded: Option<&'static str>) -> Gdb<'static> {
    Gdb {
        frames: 256,
        memory: 1,
        recorded,
        symbols: None,
        image: "image",
        script,
    }
}

pub const GDB: Job<'static> = Job::Gdb(Gdb {
    frames: 256,
    memory: 1,
    recorded: None,
    symbols: None,
    image: "image",
    script: Some("script"),
});

// The words of a debugger's machine, what the debugger sends, how many bytes standard output takes, what it gets,
// standard error and status, and the record.
type Debugged = (
    Option<&'static str>,
    &'static [u8],
    usize,
    &'static str,
    &'static str,
    u8,
    &'static str,
);

// Whether the debugger is attached, a program that is opened by both of its names, and none.
static DEBUGGED: [Debugged; 4] = [
    (None, b"", 100, "", GDB_TOLD, 0, "step 1000000\n"),
    (
        Some("script"),
        b"$qAttached#8f",
        100,
        "+$1#31",
        GDB_TOLD,
        0,
        "step 9\n",
    ),
    (
        Some("script"),
        b"$vFile:open:2e2f696e6974,0,0#e7$vFile:open:2f696e6974,0,0#50$vFile:open:696e6963,0,0#b6",
        100,
        "+$F1#77+$F2#78+$F-1,2#02",
        GDB_TOLD,
        0,
        "step 9\n",
    ),
    (
        Some("script"),
        b"$qAttached#8f",
        3,
        "+$1",
        "cannot write standard output\n",
        1,
        "step 9\n",
    ),
];

const GDB_TOLD: &str = "xv6 run --frames 256 image record\n";

fn expect_debugged(rt: &(impl Abort + AllocGlobal), image: &[u8], row: &Debugged) {
    let (script, typed, room, stdout, stderr, status, record) = *row;
    let mut desk = desk_of(rt.alloc(), image, typed, 1000).expect(rt, "memory");
    desk.script = b"step 9\n".to_vec(rt.alloc()).expect(rt, "memory");
    let name = ("a debugger", stdout);
    let job = Job::Gdb(gdb(script, Some("record")));
    expect_at(rt, name, &mut desk, &job, room, (stdout, stderr, status));
    let same = desk.record.as_slice() == record.as_bytes();
    expect_that(rt, name, "its record", same);
}

// What gdb reads before it connects.
fn expect_init_lines(rt: &(impl Abort + AllocGlobal)) {
    let mut out = Vec::new(rt.alloc());
    let mut err = Vec::new(rt.alloc());
    let mut desk = desk_of(rt.alloc(), b"", b"", 0).expect(rt, "memory");
    let status = perform(rt.alloc(), &Job::GdbInit, &mut desk, &mut out, &mut err);
    let name = ("gdb", "--init");
    expect_that(rt, name, "the status", status == 0);
    let lines = &[
        "set remotetimeout 60\n",
        "set sysroot target:\n",
        "set detach-on-fork off\n",
        "set schedule-multiple on\n",
        "set remote exec-file /init\n",
        "set confirm off\ndefine last\n  watch -l $arg0\n  reverse-continue\nend\n",
    ];
    expect_parts(rt, name, out.as_slice(), lines);
}

fn expect_debuggers(rt: &(impl Abort + AllocGlobal)) {
    let files = with_image(rt, "start: j start\n", WITH_CONSOLE, 32);
    expect_session(rt, files.image.as_slice(), &BUSY, None);
    for row in &DEBUGGED {
        expect_debugged(rt, files.image.as_slice(), row);
    }
    expect_init_lines(rt);
}

fn expect_desks(rt: &(impl Abort + AllocGlobal)) {
    let files = with_image(rt, LISTENS, WITH_CONSOLE, 32);
    expect_sessions(rt, files.image.as_slice());
    expect_session(rt, files.image.as_slice(), &SHOWN, None);
    expect_all_refused(rt, files.image.as_slice());
    expect_debuggers(rt);
}

#[test]
fn replays_what_was_typed(rt: HostRuntime) {
    expect_desks(&rt);
}
