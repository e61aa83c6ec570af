//! Stored words, and the jobs that they name.
use crate::tests::narrow_outputs::output_of;
use crate::tests::telling::expect_parts;
use crate::tests::{UNTOLD, expect_that};
use clap::Error;
use clap::error::ErrorKind;
use commands::{
    As, Asm, Check, Dump, Explore, Files, Flat, Gdb, Get, Job, Lines, Live, Ls, Migrate, Mkfs,
    Part, Play, Put, Reach, Run, Telling, Trace, explains, job, refuse,
};
use std::num::NonZeroU64;
use std::process::Abort;

// What `run a b` asks for.
const PLAIN: Run<'static> = Run {
    frames: 256,
    tlb: false,
    fail: None,
    save: None,
    telling: UNTOLD,
    image: "a",
    script: "b",
};

// The words of a line, with one space between two of them.
fn words_of<'a>(rt: &(impl Abort + AllocGlobal), line: &'a str) -> Vec<&'a str> {
    line.split(' ').collect(rt.alloc()).expect(rt, "the words")
}

fn expect_job(rt: &(impl Abort + AllocGlobal), line: &str, wanted: &Job<'_>) {
    let words = words_of(rt, line);
    let found = job(rt.alloc(), words.as_slice()).expect(rt, "a job");
    expect_that(rt, ("a job", line), "the job", found == *wanted);
}

// Each number from 1 on has its own option.
static COUNTS: &str =
    "xv6 trace --save=c a --fail=4294967295 --registers 1 --memory=2 --pid=3 --from=4 --to=5 b";

fn counts() -> Job<'static> {
    let telling = Telling {
        registers: NonZeroU64::new(1),
        memory: NonZeroU64::new(2),
        ..UNTOLD
    };
    Job::Trace(Trace {
        run: Run {
            fail: NonZeroU64::new(4294967295),
            save: Some("c"),
            telling,
            ..PLAIN
        },
        part: Part {
            pid: NonZeroU64::new(3),
            calls: None,
            from: NonZeroU64::new(4),
            to: NonZeroU64::new(5),
        },
        lines: Lines {
            bytes: 32,
            each: false,
            time: false,
            turns: false,
            core_is_pid: false,
        },
        text: None,
        perfetto: None,
        commits: None,
        jsonl: None,
        play: false,
    })
}

// The error of a line that is no job.
fn error_of(rt: &(impl Abort + AllocGlobal), line: &str) -> Error {
    let words = words_of(rt, line);
    job(rt.alloc(), words.as_slice())
        .err()
        .expect(rt, "an error")
}

static REFUSALS: [(&str, ErrorKind); 29] = [
    ("xv6 --help  ", ErrorKind::DisplayHelp),
    ("xv6 flat a --help", ErrorKind::DisplayHelp),
    ("xv6 sharp a b", ErrorKind::InvalidSubcommand),
    ("xv6 flat --frames=1 a", ErrorKind::MissingRequiredArgument),
    ("xv6 run --save a b", ErrorKind::MissingRequiredArgument),
    ("xv6 run --frames= a b", ErrorKind::ValueValidation),
    ("xv6 ls a", ErrorKind::MissingRequiredArgument),
    ("xv6 migrate a", ErrorKind::MissingRequiredArgument),
    ("xv6 asm a", ErrorKind::MissingRequiredArgument),
    ("xv6 as -v", ErrorKind::MissingRequiredArgument),
    ("xv6 as a b c d e f g h i", ErrorKind::TooManyValues),
    ("xv6 dump", ErrorKind::MissingRequiredArgument),
    ("xv6 flat --frames=x a", ErrorKind::ValueValidation),
    ("xv6 flat --frames=4294967296 a", ErrorKind::ValueValidation),
    ("xv6 flat --frames +64 a b", ErrorKind::ValueValidation),
    ("xv6 mkfs --inodes=+16 a b", ErrorKind::ValueValidation),
    ("xv6 run --fail 0 a b", ErrorKind::ValueValidation),
    ("xv6 run --fail=4294967296 a b", ErrorKind::ValueValidation),
    ("xv6 run --fail +1 a b", ErrorKind::ValueValidation),
    ("xv6 run --fail=-1 a b", ErrorKind::ValueValidation),
    ("xv6 run --fail= a b", ErrorKind::ValueValidation),
    ("xv6 flat --fail 1 a b", ErrorKind::UnknownArgument),
    ("xv6 live", ErrorKind::MissingRequiredArgument),
    ("xv6 live --quantum=0 a", ErrorKind::ValueValidation),
    ("xv6 live --quantum=1 a", ErrorKind::ValueValidation),
    ("xv6 live a b", ErrorKind::UnknownArgument),
    ("xv6 gdb", ErrorKind::MissingRequiredArgument),
    ("xv6 gdb --memory=+1 a", ErrorKind::ValueValidation),
    ("xv6 gdb a b c", ErrorKind::UnknownArgument),
];

// What is printed of a line that is no job: the line, how many bytes standard output takes, how standard error begins,
// and the status.
type Told = (&'static str, usize, &'static str, u8);

static TOLD: [Told; 5] = [
    ("xv6 --help", 100_000, "", 0),
    ("xv6 --help", 99, "cannot write standard output\n", 1),
    ("xv6 sharp", 100_000, "error: ", 2),
    ("xv6 flat --frames +64 a b", 100_000, "error: ", 2),
    ("xv6 run --fail 0 a b", 100_000, "error: ", 2),
];

fn expect_told(rt: &(impl Abort + AllocGlobal), row: &Told) {
    let (line, room, begin, status) = *row;
    let mut out = output_of(rt.alloc(), room, true);
    let mut err = Vec::new(rt.alloc());
    let ended = refuse(&error_of(rt, line), &mut out, &mut err);
    let told = ended == status && err.starts_with(begin.as_bytes());
    expect_that(rt, ("words", line), "what is told", told);
}

// The help of words, and what it has to name. Its ranges are those whose ends are taken and beyond which all is
// refused:
// `BOOTS`, and `needs_frames` in `runs.rt`; `IMAGE_NUMBERS` and `NUMBER_FAULTS` in `images.rt`.
static HELP: [(&str, &[&str]); 5] = [
    (
        "xv6 --help",
        &[
            "flat",
            "run",
            "live",
            "play",
            "trace",
            "gdb",
            "explore",
            "mkfs",
            "check",
            "ls",
            "get",
            "put",
            "migrate",
            "asm",
            "as",
            "dump",
            "--save",
            "--fail",
            "--report",
            "--explain",
            "--version",
        ],
    ),
    (
        "xv6 run --help",
        &[
            "IMAGE",
            "SCRIPT",
            "--frames",
            "Frames of 4096 bytes, 64 to 32768",
            "256",
            "--tlb",
            "--fail",
            "4294967295",
            "--save",
            "OUT",
            "/init",
            "keys HEX",
        ],
    ),
    ("xv6 flat --help", &["Frames of 4096 bytes, 64 to 32768"]),
    (
        "xv6 mkfs --help",
        &["Blocks of 1024 bytes, 32 to 131072", "Inodes, 16 to 8192"],
    ),
    (
        "xv6 live --help",
        &[
            "IMAGE",
            "Frames of 4096 bytes, 64 to 32768",
            "--quantum",
            "10000",
            "--record",
            "SCRIPT",
            "--save",
            "--terminal",
            "^A x",
            "--edit",
        ],
    ),
];

fn expect_help(rt: &(impl Abort + AllocGlobal), line: &str, named: &[&str]) {
    let mut out = output_of(rt.alloc(), 100_000, true);
    let mut err = Vec::new(rt.alloc());
    let ended = refuse(&error_of(rt, line), &mut out, &mut err);
    expect_that(rt, ("a help", line), "status 0", ended == 0);
    expect_parts(rt, ("a help", line), out.taken.as_slice(), named);
}

// Words, and whether they ask for more on what is wrong.
static EXPLAINS: [(&str, bool); 4] = [
    ("xv6 check --explain a", true),
    ("xv6 check a", false),
    ("--explain check a", false),
    ("xv6 check -- --explain", false),
];

fn expect_flat_jobs(rt: &(impl Abort + AllocGlobal)) {
    expect_job(
        rt,
        "xv6 flat a b",
        &Job::Flat(Flat {
            frames: 256,
            tlb: false,
            telling: UNTOLD,
            file: "a",
            script: "b",
        }),
    );
    expect_job(
        rt,
        "xv6 flat --frames 4294967295 -- a -b",
        &Job::Flat(Flat {
            frames: 4294967295,
            tlb: false,
            telling: UNTOLD,
            file: "a",
            script: "-b",
        }),
    );
    expect_job(
        rt,
        "xv6 flat --tlb --frames=64 a b",
        &Job::Flat(Flat {
            frames: 64,
            tlb: true,
            telling: UNTOLD,
            file: "a",
            script: "b",
        }),
    );
}

fn expect_run_jobs(rt: &(impl Abort + AllocGlobal)) {
    expect_job(rt, "xv6 run a b", &Job::Run(PLAIN));
    expect_job(
        rt,
        "xv6 run --save c --tlb a --frames=64 b",
        &Job::Run(Run {
            frames: 64,
            tlb: true,
            save: Some("c"),
            ..PLAIN
        }),
    );
    expect_job(
        rt,
        "xv6 run --fail 1 a b",
        &Job::Run(Run {
            fail: Some(NonZeroU64::MIN),
            ..PLAIN
        }),
    );
    expect_job(
        rt,
        "xv6 run --report --json c --status --progress --faults --symbols d --explain a b",
        &Job::Run(Run {
            telling: Telling {
                report: true,
                json: Some("c"),
                registers: None,
                memory: None,
                status: true,
                progress: true,
                faults: true,
                symbols: Some("d"),
            },
            ..PLAIN
        }),
    );
}

fn expect_image_jobs(rt: &(impl Abort + AllocGlobal)) {
    expect_job(
        rt,
        "xv6 mkfs a b",
        &Job::Mkfs(Mkfs {
            size: 2000,
            inodes: 200,
            manifest: "a",
            image: "b",
        }),
    );
    expect_job(
        rt,
        "xv6 mkfs --inodes 16 --size=32 a b",
        &Job::Mkfs(Mkfs {
            size: 32,
            inodes: 16,
            manifest: "a",
            image: "b",
        }),
    );
    expect_job(rt, "xv6 check b", &Job::Check(Check { image: "b" }));
    expect_job(
        rt,
        "xv6 migrate a b",
        &Job::Migrate(Migrate { old: "a", new: "b" }),
    );
}

fn expect_path_jobs(rt: &(impl Abort + AllocGlobal)) {
    expect_job(
        rt,
        "xv6 ls a ",
        &Job::Ls(Ls {
            recursive: false,
            image: "a",
            path: "",
        }),
    );
    expect_job(
        rt,
        "xv6 ls -R a /",
        &Job::Ls(Ls {
            recursive: true,
            image: "a",
            path: "/",
        }),
    );
    expect_job(
        rt,
        "xv6 get a /b",
        &Job::Get(Get {
            image: "a",
            path: "/b",
            out: None,
        }),
    );
    expect_job(
        rt,
        "xv6 put a /b c",
        &Job::Put(Put {
            image: "a",
            path: "/b",
            file: "c",
        }),
    );
}

fn expect_program_jobs(rt: &(impl Abort + AllocGlobal)) {
    expect_job(
        rt,
        "xv6 as a.s b.s -o c --expand",
        &Job::As(As {
            texts: Files {
                first: "a.s",
                second: Some("b.s"),
                third: None,
                fourth: None,
                fifth: None,
                sixth: None,
                seventh: None,
                eighth: None,
            },
            out: Some("c"),
            expand: true,
            debug: false,
            verbose: false,
        }),
    );
    expect_job(
        rt,
        "xv6 asm a b",
        &Job::Asm(Asm {
            text: "a",
            elf: "b",
        }),
    );
    let named = Dump {
        names: true,
        elf: "b",
    };
    expect_job(rt, "xv6 dump --names b", &Job::Dump(named));
    let unnamed = Dump {
        names: false,
        elf: "b",
    };
    expect_job(rt, "xv6 dump b", &Job::Dump(unnamed));
}

fn expect_live_jobs(rt: &(impl Abort + AllocGlobal)) {
    expect_job(
        rt,
        "xv6 live b",
        &Job::Live(Live {
            frames: 256,
            quantum: None,
            script: None,
            save: None,
            terminal: false,
            edit: false,
            symbols: None,
            image: "b",
        }),
    );
    expect_job(
        rt,
        "xv6 live --record=c --terminal --edit --frames=64 --quantum 2 --symbols e b --save=d",
        &Job::Live(Live {
            frames: 64,
            quantum: NonZeroU64::new(2),
            script: Some("c"),
            save: Some("d"),
            terminal: true,
            edit: true,
            symbols: Some("e"),
            image: "b",
        }),
    );
}

fn expect_gdb_jobs(rt: &(impl Abort + AllocGlobal)) {
    expect_job(
        rt,
        "xv6 gdb b",
        &Job::Gdb(Gdb {
            frames: 256,
            memory: 1024,
            recorded: None,
            symbols: None,
            image: "b",
            script: None,
        }),
    );
    expect_job(
        rt,
        "xv6 gdb --record=c --frames=64 --memory 2 --symbols e b d",
        &Job::Gdb(Gdb {
            frames: 64,
            memory: 2,
            recorded: Some("c"),
            symbols: Some("e"),
            image: "b",
            script: Some("d"),
        }),
    );
    expect_job(rt, "xv6 gdb --init", &Job::GdbInit);
}

fn expect_explore_jobs(rt: &(impl Abort + AllocGlobal)) {
    let reach = Reach {
        ticks: None,
        states: 1_000_000,
        seconds: None,
        fine: false,
        random: None,
        seed: 1,
    };
    expect_job(
        rt,
        "xv6 explore b",
        &Job::Explore(Explore {
            frames: 256,
            reach,
            scripts: None,
            want: None,
            status: None,
            image: "b",
            script: None,
        }),
    );
    expect_job(
        rt,
        "xv6 explore --ticks 0 --states 9 --seconds 3 --fine --random 7 --seed 0 --scripts c --want d --status=-1 b e",
        &Job::Explore(Explore {
            frames: 256,
            reach: Reach {
                ticks: Some(0),
                states: 9,
                seconds: NonZeroU64::new(3),
                fine: true,
                random: NonZeroU64::new(7),
                seed: 0,
            },
            scripts: Some("c"),
            want: Some("d"),
            status: Some(-1),
            image: "b",
            script: Some("e"),
        }),
    );
}

fn expect_play_and_trace_jobs(rt: &(impl Abort + AllocGlobal)) {
    expect_job(
        rt,
        "xv6 play --script c a b",
        &Job::Play(Play {
            run: PLAIN,
            script: Some("c"),
        }),
    );
    expect_job(
        rt,
        "xv6 trace --calls read,write --bytes 0 --each --time --turns --core-is-pid --text c --perfetto d --commits e --jsonl f --play a b",
        &Job::Trace(Trace {
            run: PLAIN,
            part: Part {
                pid: None,
                calls: Some("read,write"),
                from: None,
                to: None,
            },
            lines: Lines {
                bytes: 0,
                each: true,
                time: true,
                turns: true,
                core_is_pid: true,
            },
            text: Some("c"),
            perfetto: Some("d"),
            commits: Some("e"),
            jsonl: Some("f"),
            play: true,
        }),
    );
}

fn expect_jobs(rt: &(impl Abort + AllocGlobal)) {
    expect_flat_jobs(rt);
    expect_run_jobs(rt);
    expect_image_jobs(rt);
    expect_path_jobs(rt);
    expect_program_jobs(rt);
    expect_live_jobs(rt);
    expect_gdb_jobs(rt);
    expect_explore_jobs(rt);
    expect_play_and_trace_jobs(rt);
}

fn expect_counts(rt: &(impl Abort + AllocGlobal)) {
    expect_job(rt, COUNTS, &counts());
}

fn expect_helps(rt: &(impl Abort + AllocGlobal)) {
    for (line, named) in &HELP {
        expect_help(rt, line, named);
    }
}

fn expect_explains(rt: &(impl Abort + AllocGlobal)) {
    for (line, wanted) in &EXPLAINS {
        let same = explains(words_of(rt, line).as_slice()) == *wanted;
        expect_that(rt, ("words", line), "whether it is asked for", same);
    }
}

fn expect_refusals(rt: &(impl Abort + AllocGlobal)) {
    for (line, kind) in &REFUSALS {
        let same = error_of(rt, line).kind() == *kind;
        expect_that(rt, ("words", line), "the kind of the error", same);
    }
}

fn expect_all_told(rt: &(impl Abort + AllocGlobal)) {
    for row in &TOLD {
        expect_told(rt, row);
    }
}

fn expect_words(rt: &(impl Abort + AllocGlobal)) {
    expect_jobs(rt);
    expect_counts(rt);
    expect_helps(rt);
    expect_explains(rt);
}

fn expect_other_words(rt: &(impl Abort + AllocGlobal)) {
    expect_refusals(rt);
    expect_all_told(rt);
}

#[test]
fn knows_its_words(rt: HostRuntime) {
    expect_words(&rt);
}

#[test]
fn refuses_other_words(rt: HostRuntime) {
    expect_other_words(&rt);
}
