//! Stored explorations of small programs.
use crate::tests::runs::{INIT, REPEATS, WITH_CONSOLE, put_text, with_image};
use crate::tests::telling::expect_parts;
use crate::tests::{expect_text, expect_that};
use commands::perform::perform;
use commands::{Explore, Job, Reach};
use std::num::NonZeroU64;
use std::process::Abort;

// Ends by a call.
const ENDS: &str = "    li a0, 3\n li a7, 2\n ecall\n";

// Runs on for ever.
const SPINS: &str = "start: j start\n";

// Ends with the count of ticks.
const ASKS: &str = "    li a7, 14\n ecall\n li a7, 2\n ecall\n";

// Sleeps for two ticks, and ends.
const SLEEPS: &str = "    li a0, 2\n li a7, 13\n ecall\n li a0, 3\n li a7, 2\n ecall\n";

// Reads an empty pipe, whose other end it holds itself.
const WAITS: &str = "\
    la a0, ends\n li a7, 4\n ecall\n la a1, ends\n lw a0, 0(a1)\n li a2, 1\n li a7, 5\n ecall\nends: .zero 8\n";

// Makes two children, and ends with the status of the one that `wait` returns first.
const RACES: &str = "\
    li a7, 1\n ecall\n beq a0, zero, one\n li a7, 1\n ecall\n beq a0, zero, two\n\
    la a0, status\n li a7, 3\n ecall\n la a1, status\n lw a0, 0(a1)\n li a7, 2\n ecall\n\
    one: li a0, 1\n li a7, 2\n ecall\n two: li a0, 2\n li a7, 2\n ecall\nstatus: .zero 8\n";

// Ends, and its child runs on for ever.
const LEAVES: &str = "\
    li a7, 1\n ecall\n beq a0, zero, spins\n li a0, 3\n li a7, 2\n ecall\nspins: j spins\n";

// Makes two children that each write their letter into one file, and ends after both.
const SIGNS: &str = "\
    li a7, 1\n ecall\n la s0, one\n beq a0, zero, signs\n li a7, 1\n ecall\n la s0, two\n beq a0, zero, signs\n\
    li a0, 0\n li a7, 3\n ecall\n li a0, 0\n ecall\n li a0, 0\n li a7, 2\n ecall\n\
    signs: la a0, name\n li a1, 0x201\n li a7, 15\n ecall\n mv a1, s0\n li a2, 1\n li a7, 16\n ecall\n\
    li a0, 0\n li a7, 2\n ecall\n\
    one: .ascii \"a\"\ntwo: .ascii \"b\"\nname: .ascii \"f\\0\"\n";

// A program, how far its exploration goes, which status is wanted, what is printed among other things, and the status
// to exit with.
struct Row {
    text: &'static str,
    ticks: Option<u32>,
    states: u32,
    wanted: Option<i32>,
    parts: &'static [&'static str],
    status: u8,
}

static ROWS: [Row; 11] = [
    Row {
        text: ENDS,
        ticks: None,
        states: 1000,
        wanted: None,
        parts: &[
            "1 outcome under all schedules: ",
            "  0 ticks   halt 1 InitEnded 3   ",
        ],
        status: 0,
    },
    Row {
        text: ENDS,
        ticks: None,
        states: 1000,
        wanted: Some(4),
        parts: &["not the wanted outcome: 1, by the script\nstep 6\n"],
        status: 1,
    },
    Row {
        text: RACES,
        ticks: None,
        states: 1000,
        wanted: None,
        parts: &[
            "2 outcomes under all schedules: ",
            "   halt 1 InitEnded 1   ",
            "   halt 1 InitEnded 2   ",
            "\ndiffer in: status\n",
        ],
        status: 1,
    },
    Row {
        text: RACES,
        ticks: None,
        states: 3,
        wanted: None,
        parts: &[
            " under the schedules that were tried: ",
            "\nnot tried: what follows more than 3 states (--states)\n",
        ],
        status: 3,
    },
    Row {
        text: RACES,
        ticks: Some(0),
        states: 1000,
        wanted: None,
        parts: &[
            "1 outcome under the schedules that were tried: ",
            "\nnot tried: more than 0 ticks while a process runs (--ticks)\n",
        ],
        status: 3,
    },
    Row {
        text: SPINS,
        ticks: None,
        states: 1000,
        wanted: None,
        parts: &[
            "0 outcomes under the schedules that were tried: ",
            "\npid 1 may run on for ever at pc 0x0: such a run has no outcome\n",
        ],
        status: 3,
    },
    Row {
        text: ASKS,
        ticks: None,
        states: 20,
        wanted: None,
        parts: &[
            " under the schedules that were tried: ",
            "\nnot tried: every time at which a process may call uptime\n",
        ],
        status: 3,
    },
    Row {
        text: SLEEPS,
        ticks: None,
        states: 1000,
        wanted: Some(3),
        parts: &[
            "1 outcome under all schedules of fewer than 2^32 ticks: ",
            "   halt 1 InitEnded 3   ",
        ],
        status: 0,
    },
    Row {
        text: LEAVES,
        ticks: None,
        states: 1000,
        wanted: None,
        parts: &[
            "1 outcome under the schedules that were tried: ",
            "   halt 1 InitEnded 3   ",
            "\npid 2 may run on for ever at pc ",
        ],
        status: 3,
    },
    Row {
        text: SIGNS,
        ticks: None,
        states: 1000,
        wanted: None,
        parts: &["differ in: /f has \"", "\", or \""],
        status: 1,
    },
    Row {
        text: WAITS,
        ticks: None,
        states: 1000,
        wanted: None,
        parts: &[
            "1 outcome under all schedules: ",
            "  0 ticks   deadlock   ",
            "\n    pid 1 (/init) reads a pipe whose write end it itself holds\n",
        ],
        status: 0,
    },
];

const REACH: Reach = Reach {
    ticks: None,
    states: 1000,
    seconds: None,
    fine: false,
    random: None,
    seed: 1,
};

const PLAIN: Explore<'static> = Explore {
    frames: 64,
    reach: REACH,
    scripts: None,
    want: None,
    status: None,
    image: "image",
    script: None,
};

pub const EXPLORE: Job<'static> = Job::Explore(PLAIN);

// The job of a row.
fn job_of(row: &Row) -> Job<'static> {
    Job::Explore(Explore {
        reach: Reach {
            ticks: row.ticks,
            states: row.states,
            ..REACH
        },
        status: row.wanted,
        ..PLAIN
    })
}

// Explores a row's program.
fn expect_explored(rt: &(impl Abort + AllocGlobal), row: &Row) {
    let mut files = with_image(rt, row.text, INIT, 64);
    let mut out = Vec::new(rt.alloc());
    let mut err = Vec::new(rt.alloc());
    let job = job_of(row);
    let ended = perform(rt.alloc(), &job, &mut files, &mut out, &mut err);
    let name = ("an exploration", row.text);
    expect_that(rt, name, "the status", ended == row.status);
    expect_parts(rt, name, out.as_slice(), row.parts);
}

// A program, what is asked of its exploration, what is printed among other things, standard error, the status to exit
// with, and the scripts that are written.
struct Asked {
    text: &'static str,
    scripts: Option<&'static str>,
    want: Option<&'static str>,
    // How many runs are drawn, if any are, and how many states are looked at before.
    random: u64,
    states: u32,
    parts: &'static [&'static str],
    stderr: &'static str,
    status: u8,
    written: &'static str,
}

static ASKED: [Asked; 5] = [
    Asked {
        text: RACES,
        scripts: Some("d"),
        want: None,
        random: 0,
        states: 1000,
        parts: &["   d/1.script\n", "   d/2.script\n"],
        stderr: "",
        status: 1,
        written: "d/1.script d/2.script ",
    },
    Asked {
        text: ENDS,
        scripts: Some("none"),
        want: None,
        random: 0,
        states: 1000,
        parts: &[],
        stderr: "cannot write none\n",
        status: 1,
        written: "",
    },
    // Other bytes, as many.
    Asked {
        text: REPEATS,
        scripts: None,
        want: Some("script"),
        random: 0,
        states: 1000,
        parts: &["not the wanted outcome: 1, by the script\n"],
        stderr: "",
        status: 1,
        written: "",
    },
    Asked {
        text: RACES,
        scripts: None,
        want: None,
        random: 9,
        states: 3,
        parts: &["\ndrawn: 9 runs, of which 9 ended; 2 new outcomes\n"],
        stderr: "",
        status: 1,
        written: "",
    },
    Asked {
        text: PRINTS,
        scripts: None,
        want: None,
        random: 0,
        states: 1000,
        parts: &["   console \"aaaaaaaaaaaaaaaaaaaaaaaaaaaaaaaaaaaaaaaa\"   files "],
        stderr: "",
        status: 0,
        written: "",
    },
];

// Prints 40 letters, and ends.
const PRINTS: &str = "\
    la a0, console\n li a1, 2\n li a7, 15\n ecall\n la a1, letters\n li a2, 40\n li a7, 16\n ecall\n\
    li a0, 0\n li a7, 2\n ecall\n\
    console: .ascii \"console\\0\"\nletters: .ascii \"aaaaaaaaaaaaaaaaaaaaaaaaaaaaaaaaaaaaaaaa\"\n";

fn expect_asked(rt: &(impl Abort + AllocGlobal), asked: &Asked) {
    let mut files = with_image(rt, asked.text, WITH_CONSOLE, 64);
    put_text(rt, &mut files, b"ha\n");
    let mut out = Vec::new(rt.alloc());
    let mut err = Vec::new(rt.alloc());
    let job = Job::Explore(Explore {
        reach: Reach {
            states: asked.states,
            random: NonZeroU64::new(asked.random),
            ..REACH
        },
        scripts: asked.scripts,
        want: asked.want,
        ..PLAIN
    });
    let ended = perform(rt.alloc(), &job, &mut files, &mut out, &mut err);
    let name = ("an exploration", asked.text);
    expect_that(rt, name, "the status", ended == asked.status);
    expect_parts(rt, name, out.as_slice(), asked.parts);
    expect_text(rt, name, err.as_slice(), asked.stderr);
    expect_text(rt, name, files.names.as_bytes(), asked.written);
}

fn expect_all_explored(rt: &(impl Abort + AllocGlobal)) {
    for row in &ROWS {
        expect_explored(rt, row);
    }
    for asked in &ASKED {
        expect_asked(rt, asked);
    }
}

#[test]
fn programs_are_explored(rt: HostRuntime) {
    expect_all_explored(&rt);
}
