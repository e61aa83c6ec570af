//! What long runs show on a terminal.
ghost use Rattle.std.specs.Prelude.{◌≤◌, IfOk, IfSome, length};

use crate::tests::runs::{INIT, WITH_CONSOLE, with_image};
use crate::tests::tracing::ALL;
use crate::tests::{UNTOLD, expect, expect_that};
use commands::perform::perform;
use commands::{Host, HostFault, Job, Live, Play, Run, Screen, Telling, Trace};
use std::alloc::Global;
use std::cell::Cell;
use std::fmt;
use std::num::NonZeroU64;
use std::process::Abort;

// A terminal at which 600 milliseconds pass between two looks at the clock.
#[derive(Clone, Copy)]
struct Wall<'a> {
    alloc: Global,
    now: &'a Cell<u64>,
    shown: &'a Cell<String>,
}

impl Screen for Wall<'_> {
    fn has_console(&self) -> bool {
        true
    }

    fn milliseconds(&self) -> u64 {
        self.now.set(self.now.get().saturating_add(600));
        self.now.get()
    }

    fn show<T: fmt::Display>(&self, text: &T) {
        let mut shown = self.shown.replace(String::new(self.alloc));
        let _ = write!(shown, "{text}");
        self.shown.set(shown);
    }
}

// The files `image` and `script` before a wall, and a keyboard that is read four times.
#[derive(Drop)]
struct Room<'a> {
    wall: Wall<'a>,
    image: &'a [u8],
    script: &'a [u8],
    reads: u8,
}

impl<'a> Host for Room<'a> {
    type Screen = Wall<'a>;

    fn screen(&self) -> Option<Wall<'a>> {
        Some(self.wall)
    }

    fn read(&mut self, name: &str) -> Result<Vec<u8>, HostFault> {
        let found = if name == "image" {
            self.image
        } else {
            self.script
        };
        found.to_vec(self.wall.alloc).map_err(|_| HostFault)
    }

    fn write(&mut self, _name: &str, _bytes: &[u8]) -> Result<(), HostFault> {
        Err(HostFault)
    }

    fn type_in(&mut self, bytes: &mut [u8], _is_terminal: bool) -> Result<Option<usize>, HostFault>
        ensures { IfOk result (λ typed. IfSome typed (λ count. count ≤ length bytes.old)) }
    {
        let _ = bytes.len();
        self.reads = self.reads.saturating_add(1);
        if self.reads < 4 {
            Ok(None)
        } else {
            Err(HostFault)
        }
    }
}

fn wall_of<'a>(alloc: Global, now: &'a Cell<u64>, shown: &'a Cell<String>) -> Wall<'a> {
    Wall { alloc, now, shown }
}

fn room_of<'a>(wall: Wall<'a>, image: &'a [u8], script: &'a [u8]) -> Room<'a> {
    Room {
        wall,
        image,
        script,
        reads: 0,
    }
}

// What is done for long.
#[derive(Clone, Copy)]
enum Doing {
    Run,
    RunTold,
    RunWatched,
    TraceTold,
    Play,
    Live,
}

fn run(progress: bool) -> Run<'static> {
    Run {
        frames: 64,
        tlb: false,
        fail: None,
        save: None,
        telling: Telling { progress, ..UNTOLD },
        image: "image",
        script: "script",
    }
}

// The same, which is watched for faults.
fn watched() -> Job<'static> {
    let mut run = run(true);
    run.telling.faults = true;
    Job::Run(run)
}

fn play() -> Job<'static> {
    Job::Play(Play {
        run: run(false),
        script: None,
    })
}

fn live() -> Job<'static> {
    Job::Live(Live {
        frames: 64,
        quantum: Some(NonZeroU64::MIN),
        script: None,
        save: None,
        terminal: true,
        edit: false,
        symbols: None,
        image: "image",
    })
}

fn job_of(doing: Doing) -> Job<'static> {
    match doing {
        Doing::Run => Job::Run(run(false)),
        Doing::RunTold => Job::Run(run(true)),
        Doing::RunWatched => watched(),
        Doing::TraceTold => Job::Trace(Trace {
            run: run(true),
            ..ALL
        }),
        Doing::Play => play(),
        Doing::Live => live(),
    }
}

// What is done, its script, and the lines that are shown.
type Row = (Doing, &'static [u8], &'static [&'static str]);

static ROWS: [Row; 6] = [
    (Doing::Run, b"step 65537", &[]),
    (
        Doing::RunTold,
        b"step 196609",
        &[
            "        131072 steps,      109226 a second ",
            "        196608 steps,      109226 a second ",
            BLANKS,
        ],
    ),
    (
        Doing::RunWatched,
        b"step 9\ntick 1\nstep 131073",
        &[
            "         65545 steps,       54620 a second ",
            "        131081 steps,      109226 a second ",
            BLANKS,
        ],
    ),
    // Its text is on standard error.
    (Doing::TraceTold, b"step 131073", &[]),
    (
        Doing::Play,
        b"step 65537",
        &["         65536 steps,       54613 a second ", BLANKS],
    ),
    (
        Doing::Live,
        b"",
        &[
            "             2 steps,           1 a second ",
            "             3 steps,           1 a second ",
            "             4 steps,           1 a second ",
            BLANKS,
        ],
    ),
];

// A line is at last blanks.
const BLANKS: &str = "                                           ";

// The lines, each of 43 columns, after which the cursor goes back.
fn lines_of(rt: &(impl Abort + AllocGlobal), rows: &[&str]) -> String {
    let mut lines = String::new(rt.alloc());
    for line in rows {
        lines.push_str(line).expect(rt, "memory");
        for _ in 0..43 {
            lines.push('\x08').expect(rt, "memory");
        }
    }
    lines
}

fn expect_shown(rt: &(impl Abort + AllocGlobal), image: &[u8], row: &Row) {
    let (doing, script, rows) = *row;
    let now = Cell::new(0);
    let shown = Cell::new(String::new(rt.alloc()));
    let wall = wall_of(rt.alloc(), &now, &shown);
    let mut room = room_of(wall, image, script);
    let name = ("a long run", rows.first().copied().unwrap_or("nothing"));
    expect(rt, name, &mut room, &job_of(doing), ("", "running\n", 0));
    let same = shown.into_inner() == lines_of(rt, rows);
    expect_that(rt, name, "what is shown", same);
}

fn expect_all_shown(rt: &(impl Abort + AllocGlobal)) {
    let files = with_image(rt, "start: j start\n", INIT, 32);
    for row in &ROWS {
        expect_shown(rt, files.image.as_slice(), row);
    }
}

// Write 37 bytes and 38 on the console, in a line that doesn't end, and run on for ever.
const WIDE: &str = "\
    la a0, console\n li a1, 2\n li a7, 15\n ecall\n la a1, wide\n li a2, 37\n li a7, 16\n ecall\nagain: j again\n\
    console: .ascii \"console\\0\"\nwide: .zero 40\n";

const WIDER: &str = "\
    la a0, console\n li a1, 2\n li a7, 15\n ecall\n la a1, wide\n li a2, 38\n li a7, 16\n ecall\nagain: j again\n\
    console: .ascii \"console\\0\"\nwide: .zero 40\n";

// Whether a line is shown where the console's last one has as many columns.
fn expect_beside(rt: &(impl Abort + AllocGlobal), text: &str, is_shown: bool) {
    let files = with_image(rt, text, WITH_CONSOLE, 32);
    let now = Cell::new(0);
    let shown = Cell::new(String::new(rt.alloc()));
    let wall = wall_of(rt.alloc(), &now, &shown);
    let mut room = room_of(wall, files.image.as_slice(), b"step 196609");
    let mut out = Vec::new(rt.alloc());
    let mut err = Vec::new(rt.alloc());
    let job = Job::Run(run(true));
    let status = perform(rt.alloc(), &job, &mut room, &mut out, &mut err);
    let name = ("a long run", text);
    expect_that(rt, name, "the status", status == 0);
    let same = shown.into_inner().is_empty() != is_shown;
    expect_that(rt, name, "whether a line is shown", same);
}

#[test]
fn long_runs_tell_that_they_go_on(rt: HostRuntime) {
    expect_all_shown(&rt);
    expect_beside(&rt, WIDE, true);
    expect_beside(&rt, WIDER, false);
}
