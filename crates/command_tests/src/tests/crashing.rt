//! Programs that crash: what is printed of a fault as it comes, and of it in reports.
ghost use Rattle.std.specs.Prelude.{◌≤◌, IfOk, IfSome, length};

use crate::tests::runs::{INIT, WITH_CONSOLE, with_image};
use crate::tests::telling::expect_parts;
use crate::tests::{DEAD, Name, UNTOLD, change, expect, expect_text, flat_told, program_of};
use commands::{Gdb, Host, HostFault, Job, Live, Play, Run, Screen, Telling};
use std::alloc::Global;
use std::cell::Cell;
use std::fmt;
use std::process::Abort;

// Loads from where there is no page.
const CRASH: &str = "lui a0, 0x7000\n ld a1, 8(a0)\n";

const CRASH_WORDS: &[u32] = &[0x0700_0537, 0x0085_3583];

// Where the bytes of a program file differ from zeros that has nothing but the symbol `main`, a function at address 0.
const SYMBOLS: &[(usize, u8)] = &[
    // The header: class, data, version, type, machine; one table of two sections, at 64.
    (0, 0x7f),
    (1, b'E'),
    (2, b'L'),
    (3, b'F'),
    (4, 2),
    (5, 1),
    (6, 1),
    (16, 2),
    (18, 243),
    (20, 1),
    (40, 64),
    (52, 64),
    (58, 64),
    (60, 2),
    // The symbol table: type, offset, size, the section of its strings, alignment, size of an entry.
    (68, 2),
    (88, 192),
    (96, 24),
    (104, 1),
    (112, 8),
    (120, 24),
    // Its strings: type, offset, size, alignment.
    (132, 3),
    (152, 216),
    (160, 6),
    (176, 1),
    // The symbol: name, kind, section, size.
    (192, 1),
    (196, 0x12),
    (198, 1),
    (208, 64),
    (217, b'm'),
    (218, b'a'),
    (219, b'i'),
    (220, b'n'),
];

// A terminal that keeps what it shows.
#[derive(Clone, Copy)]
struct Paper<'a> {
    alloc: Global,
    shown: &'a Cell<String>,
}

impl Screen for Paper<'_> {
    fn has_console(&self) -> bool {
        true
    }

    fn milliseconds(&self) -> u64 {
        0
    }

    fn show<T: fmt::Display>(&self, text: &T) {
        let mut shown = self.shown.replace(String::new(self.alloc));
        let _ = write!(shown, "{text}");
        self.shown.set(shown);
    }
}

// The files `image`, `program`, `script` and `names/init.elf`, the file `report` that alone can be written, a keyboard
// on which nothing is typed, and a terminal, if there is one.
#[derive(Drop)]
struct Bench<'a> {
    alloc: Global,
    image: &'a [u8],
    program: &'a [u8],
    symbols: &'a [u8],
    report: Vec<u8>,
    paper: Option<Paper<'a>>,
}

impl<'a> Host for Bench<'a> {
    type Screen = Paper<'a>;

    fn screen(&self) -> Option<Paper<'a>> {
        self.paper
    }

    fn read(&mut self, name: &str) -> Result<Vec<u8>, HostFault> {
        let found = if name == "image" {
            self.image
        } else if name == "program" {
            self.program
        } else if name == "script" {
            b"step 9"
        } else if name == "names/init.elf" {
            self.symbols
        } else {
            return Err(HostFault);
        };
        found.to_vec(self.alloc).map_err(|_| HostFault)
    }

    fn write(&mut self, name: &str, bytes: &[u8]) -> Result<(), HostFault> {
        if name != "report" {
            return Err(HostFault);
        }
        self.report.clear();
        self.report.extend_from_slice(bytes).map_err(|_| HostFault)
    }

    fn type_in(&mut self, bytes: &mut [u8], _is_terminal: bool) -> Result<Option<usize>, HostFault>
        ensures { IfOk result (λ typed. IfSome typed (λ count. count ≤ length bytes.old)) }
    {
        let _ = bytes.len();
        Ok(Some(0))
    }
}

// How the program is run.
#[derive(Clone, Copy)]
enum Doing {
    Run,
    Play,
    Flat,
    Live,
}

// What is printed of a crash: how the program is run, whether at a terminal, where its symbols are, what is wanted, and
// what is printed on standard error and shown on the terminal, and parts of the report as JSON.
struct Row {
    name: &'static str,
    doing: Doing,
    on_terminal: bool,
    symbols: Option<&'static str>,
    report: bool,
    stderr: &'static str,
    shown: &'static str,
    parts: &'static [&'static str],
}

const PLAIN: &str = "pid 1 (/init): load from 0x7000008 at pc 0x4: the process has no page there\n\
    halt 1 InitEnded -1\n";

const NAMED: &str =
    "pid 1 (/init): load from 0x7000008 at pc 0x4 in main+0x4: the process has no page there\n\
    halt 1 InitEnded -1\n";

static ROWS: [Row; 6] = [
    Row {
        name: "a run, with names",
        doing: Doing::Run,
        on_terminal: false,
        symbols: Some("names"),
        report: false,
        stderr: NAMED,
        shown: "",
        parts: &[],
    },
    Row {
        name: "a play",
        doing: Doing::Play,
        on_terminal: false,
        symbols: None,
        report: false,
        stderr: PLAIN,
        shown: "",
        parts: &[],
    },
    Row {
        name: "a flat program",
        doing: Doing::Flat,
        on_terminal: false,
        symbols: None,
        report: false,
        stderr: "pid 1 (program): load from 0x7000008 at pc 0x4: the process has no page there\n\
            halt 1 InitEnded -1\n",
        shown: "",
        parts: &[],
    },
    Row {
        name: "a session at a terminal, with names",
        doing: Doing::Live,
        on_terminal: true,
        symbols: Some("names"),
        report: false,
        stderr: DEAD,
        shown: "pid 1 (/init): load from 0x7000008 at pc 0x4 in main+0x4: the process has no page there\n",
        parts: &[],
    },
    Row {
        name: "a session at no terminal",
        doing: Doing::Live,
        on_terminal: false,
        symbols: Some("names"),
        report: false,
        stderr: DEAD,
        shown: "",
        parts: &[],
    },
    Row {
        name: "a report, with names",
        doing: Doing::Run,
        on_terminal: false,
        symbols: Some("names"),
        report: true,
        stderr: "report: 3 steps, 0 ticks, 0 keys\n\
            stopped: process 1 ended with status -1\n\
            pid 1 (/init) ended with status -1; parent 0, pc 0x4 in main+0x4, 12288 bytes, 9 frames\n\
            free frames: 55\n\
            fault: pid 1 (/init): load from 0x7000008 at pc 0x4 in main+0x4: the process has no page there\n  \
            ra   0x0000000000000000  sp   0x0000000000002fe0  gp   0x0000000000000000\n  \
            tp   0x0000000000000000  t0   0x0000000000000000  t1   0x0000000000000000\n  \
            t2   0x0000000000000000  s0   0x0000000000000000  s1   0x0000000000000000\n  \
            a0   0x0000000007000000  a1   0x0000000000002fe0  a2   0x0000000000000000\n  \
            a3   0x0000000000000000  a4   0x0000000000000000  a5   0x0000000000000000\n  \
            a6   0x0000000000000000  a7   0x0000000000000000  s2   0x0000000000000000\n  \
            s3   0x0000000000000000  s4   0x0000000000000000  s5   0x0000000000000000\n  \
            s6   0x0000000000000000  s7   0x0000000000000000  s8   0x0000000000000000\n  \
            s9   0x0000000000000000  s10  0x0000000000000000  s11  0x0000000000000000\n  \
            t3   0x0000000000000000  t4   0x0000000000000000  t5   0x0000000000000000\n  \
            t6   0x0000000000000000\n\
            halt 1 InitEnded -1\n",
        shown: "",
        parts: &[
            "\"cause\": \"load_page_fault\"",
            "\"reason\": \"no_page\"",
            "\"calls\": []",
            "      \"location\": {\n        \"function\": \"main\",\n        \"offset\": 4,\n        \"file\": null,\n",
        ],
    },
];

fn telling_of(row: &Row) -> Telling<'static> {
    Telling {
        report: row.report,
        json: row.report.then_some("report"),
        faults: !row.report,
        symbols: row.symbols,
        ..UNTOLD
    }
}

const RUN: Run<'static> = Run {
    frames: 64,
    tlb: false,
    fail: None,
    save: None,
    telling: UNTOLD,
    image: "image",
    script: "script",
};

fn run_of(row: &Row) -> Run<'static> {
    Run {
        telling: telling_of(row),
        ..RUN
    }
}

const LIVE: Live<'static> = Live {
    frames: 64,
    quantum: None,
    script: None,
    save: None,
    terminal: false,
    edit: false,
    symbols: None,
    image: "image",
};

fn live_of(row: &Row) -> Live<'static> {
    Live {
        symbols: row.symbols,
        ..LIVE
    }
}

fn job_of(row: &Row) -> Job<'static> {
    match row.doing {
        Doing::Run => Job::Run(run_of(row)),
        Doing::Play => Job::Play(Play {
            run: run_of(row),
            script: None,
        }),
        Doing::Flat => flat_told(64, telling_of(row)),
        Doing::Live => Job::Live(live_of(row)),
    }
}

// The files that are read: the image, the flat program, the file with symbols.
type Given<'a> = (&'a [u8], &'a [u8], &'a [u8]);

fn bench_of<'a>(alloc: Global, given: Given<'a>, paper: Option<Paper<'a>>) -> Bench<'a> {
    let (image, program, symbols) = given;
    Bench {
        alloc,
        image,
        program,
        symbols,
        report: Vec::new(alloc),
        paper,
    }
}

fn expect_row<'a>(
    rt: &(impl Abort + AllocGlobal),
    given: Given<'a>,
    shown: &'a Cell<String>,
    row: &Row,
) {
    let name: Name<'_> = ("a crash", row.name);
    let paper = Paper {
        alloc: rt.alloc(),
        shown,
    };
    let mut bench = bench_of(rt.alloc(), given, row.on_terminal.then_some(paper));
    expect(rt, name, &mut bench, &job_of(row), ("", row.stderr, 0));
    expect_parts(rt, name, bench.report.as_slice(), row.parts);
    let text = shown.replace(String::new(rt.alloc()));
    expect_text(rt, name, text.as_str().as_bytes(), row.shown);
}

fn expect_rows(rt: &(impl Abort + AllocGlobal)) {
    let files = with_image(rt, CRASH, INIT, 32);
    let program = program_of(rt.alloc(), CRASH_WORDS).expect(rt, "memory");
    let mut symbols = vec![in rt.alloc(); 0u8; 222].expect(rt, "memory");
    change(&mut symbols, SYMBOLS);
    let shown = Cell::new(String::new(rt.alloc()));
    let given = (
        files.image.as_slice(),
        program.as_slice(),
        symbols.as_slice(),
    );
    for row in &ROWS {
        expect_row(rt, given, &shown, row);
    }
}

// Says `hi` in a line that doesn't end, and crashes.
const SAYS: &str = "\
    la a0, console\n li a1, 2\n li a7, 15\n ecall\n la a1, greeting\n li a2, 2\n li a7, 16\n ecall\n\
    lui a0, 0x7000\n ld a1, 8(a0)\n\
    console: .ascii \"console\\0\"\ngreeting: .ascii \"hi\"\n";

const SAID: &str =
    "\npid 1 (/init): load from 0x7000008 at pc 0x3c: the process has no page there\n";

// On a terminal a fault is printed on a line of its own.
fn expect_own_line(rt: &(impl Abort + AllocGlobal)) {
    let files = with_image(rt, SAYS, WITH_CONSOLE, 32);
    let shown = Cell::new(String::new(rt.alloc()));
    let paper = Paper {
        alloc: rt.alloc(),
        shown: &shown,
    };
    let mut bench = bench_of(rt.alloc(), (files.image.as_slice(), &[], &[]), Some(paper));
    let job = Job::Live(Live {
        symbols: None,
        ..LIVE
    });
    let name = ("a crash", "after a line that doesn't end");
    expect(rt, name, &mut bench, &job, ("hi", DEAD, 0));
    let text = shown.replace(String::new(rt.alloc()));
    expect_text(rt, name, text.as_str().as_bytes(), SAID);
}

// A directory without a file of symbols can't be read, and files of other programs are reported.
fn expect_symbols(rt: &(impl Abort + AllocGlobal)) {
    let files = with_image(rt, CRASH, INIT, 32);
    let mut bench = bench_of(
        rt.alloc(),
        (files.image.as_slice(), &[], b"no program"),
        None,
    );
    let job = Job::Run(Run {
        telling: Telling {
            report: true,
            symbols: Some("nowhere"),
            ..UNTOLD
        },
        ..RUN
    });
    let name = ("symbols", "of no file");
    expect(rt, name, &mut bench, &job, ("", "cannot read nowhere\n", 1));
    let job = Job::Gdb(Gdb {
        frames: 64,
        memory: 1,
        recorded: None,
        symbols: Some("names"),
        image: "image",
        script: None,
    });
    let name = ("symbols", "of another program");
    expect(rt, name, &mut bench, &job, ("", OTHER, 0));
}

const OTHER: &str = "/init: the file with symbols is of another program\n";

#[test]
fn crashes_are_printed_as_they_come(rt: HostRuntime) {
    expect_rows(&rt);
    expect_own_line(&rt);
    expect_symbols(&rt);
}
