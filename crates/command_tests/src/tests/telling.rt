//! What is printed of a run besides how it ended, and what is said of a line that reports a fault.
use crate::tests::exploring::EXPLORE;
use crate::tests::images::mkfs;
use crate::tests::living::{GDB, LIVE};
use crate::tests::migrating::migrate;
use crate::tests::openings::{get, with_letters};
use crate::tests::plays::play_of;
use crate::tests::runs::{HELLO, put_text, run, with_image};
use crate::tests::tracing::ALL;
use crate::tests::{
    Name, Program, UNTOLD, Wanted, bytes_of, expect, expect_text, expect_that, files_of, flat,
    flat_told, text_of,
};
use commands::{Host, HostFault, Job, NoScreen, Telling, Why, explain, explain_words};
use std::io;
use std::num::NonZeroU64;
use std::process::Abort;

// A program that runs for ever.
const LOOP: &[u32] = &[0x0000_006f];

// A run of a program of which something is printed besides its end: the registers and the memory of the process with a
// number, if that isn't 0; and parts of the file `image`.
struct Row {
    name: &'static str,
    program: Program,
    script: &'static str,
    report: bool,
    json: Option<&'static str>,
    registers: u64,
    memory: u64,
    status: bool,
    faults: bool,
    wanted: Wanted<'static>,
    parts: &'static [&'static str],
}

// lui a0, 0x1; sb zero, 0(a0): the page below the stack.
const GUARD: &[u32] = &[0x0000_1537, 0x0005_0023];

static ROWS: [Row; 4] = [
    Row {
        name: "a program that ended is reported",
        program: Program::Hello,
        script: "step 9",
        report: true,
        json: None,
        registers: 0,
        memory: 0,
        status: false,
        faults: false,
        wanted: (
            "hi\n",
            "report: 9 steps, 0 ticks, 0 keys\n\
            stopped: process 1 ended with status 0\n\
            pid 1 (program) ended with status 0; parent 0, pc 0x20, 12288 bytes, 9 frames\n\
            free frames: 247\n\
            halt 1 InitEnded 0\n",
            0,
        ),
        parts: &[],
    },
    Row {
        name: "an endless loop is reported",
        program: Program::Words(LOOP),
        script: "step 5",
        report: true,
        json: Some("image"),
        registers: 0,
        memory: 0,
        status: true,
        faults: false,
        wanted: (
            "",
            "report: 5 steps, 0 ticks, 0 keys\n\
            stopped: the events are used up while pid 1 (program) runs\n\
            pid 1 (program) runs; parent 0, pc 0x0, 12288 bytes, 9 frames\n  \
            0: console\n  1: console\n  2: console\n\
            free frames: 247\n\
            running\n",
            1,
        ),
        parts: &[
            "{\n  \"version\": 1,\n  \"steps\": 5,\n",
            "\"play\": null,",
            "\"why\": \"running\"",
            "\"free_frames\": 247,",
        ],
    },
    Row {
        name: "pages and registers",
        program: Program::Hello,
        script: "step 5",
        report: false,
        json: None,
        registers: 7,
        memory: 1,
        status: false,
        faults: false,
        wanted: (
            "",
            "pid 7: no process\n\
            pid 1 (program): 12288 bytes, 3 pages\n  \
            0x00000000 to 0x00000fff rwx\n  \
            0x00001000 to 0x00001fff ---\n  \
            0x00002000 to 0x00002fff rw-\n\
            running\n",
            0,
        ),
        parts: &[],
    },
    Row {
        name: "a fault is printed as it comes",
        program: Program::Words(GUARD),
        script: "step 3",
        report: false,
        json: None,
        registers: 0,
        memory: 0,
        status: false,
        faults: true,
        wanted: (
            "",
            "pid 1 (program): store to 0x1000 at pc 0x4: the page below the stack may not be used (stack overflow?)\n\
            halt 1 InitEnded -1\n",
            0,
        ),
        parts: &[],
    },
];

fn job_of(row: &Row) -> Job<'static> {
    flat_told(
        256,
        Telling {
            report: row.report,
            json: row.json,
            registers: NonZeroU64::new(row.registers),
            memory: NonZeroU64::new(row.memory),
            faults: row.faults,
            status: row.status,
            ..UNTOLD
        },
    )
}

fn expect_row(rt: &(impl Abort + AllocGlobal), row: &Row) {
    let bytes = bytes_of(rt.alloc(), row.program).expect(rt, "memory");
    let mut files = files_of(rt.alloc(), bytes, row.script.as_bytes()).expect(rt, "memory");
    let name = (row.name, row.script);
    expect(rt, name, &mut files, &job_of(row), row.wanted);
    expect_parts(rt, name, files.image.as_slice(), row.parts);
}

// A text has these parts.
pub fn expect_parts(rt: &impl Abort, name: Name<'_>, text: &[u8], parts: &[&str]) {
    let text = text_of(text);
    for part in parts {
        expect_that(rt, name, part, text.contains(*part));
    }
}

// What is said of the last line that a job printed.
pub fn expect_explained<H: Host>(
    rt: &(impl Abort + AllocGlobal),
    host: &mut H,
    job: &Job<'_>,
    line: &str,
    wanted: &str,
) {
    let mut err = Vec::new(rt.alloc());
    explain(rt.alloc(), job, line, host, &mut err).expect(rt, "memory");
    expect_text(rt, ("explained", line), err.as_slice(), wanted);
}

// The text of a manifest or a script, a line that was printed, and what is said of it.
type Said = (&'static str, &'static str, &'static str);

const MANIFESTS: &[Said] = &[
    (
        "dir /a\ndir /a\n",
        "fault 2 Twice",
        "explain: manifest:2: /a is listed twice\n",
    ),
    (
        "dri /a\n",
        "manifest line 1",
        "explain: manifest:1: dri /a: did you mean dir?\n",
    ),
    (
        "dir /a/b\n",
        "fault 5 Parent",
        "explain: manifest:1: /a/b is in a directory that no earlier line lists\n",
    ),
    ("dir /a\n", "a line of no fault", ""),
];

const SCRIPTS: &[Said] = &[
    (
        "step 1\nstepp 1\n",
        "script line 2",
        "explain: script:2: stepp 1: did you mean step?\n",
    ),
    (
        "step 1000000001\n",
        "script line 1",
        "explain: script:1: step 1000000001: the line is none of `step N`, `tick N`, `keys HEX` and `type TEXT`; N is up to 1000000000\n",
    ),
    (
        "step x\n",
        "script line 1",
        "explain: script:1: step x: `x` at column 6\n",
    ),
    (
        "tick 1\nstep 10\r\n",
        "script line 2",
        "explain: script:2: step 10: a carriage return at column 8\n",
    ),
    (
        "step 1\nuntil idle 100\n",
        "script line 2",
        "explain: script:2: until idle 100: xv6 play takes such lines\n",
    ),
    (
        "step 10 \n",
        "script line 1",
        "explain: script:1: step 10: a blank at column 8\n",
    ),
];

const CALLS: &[Said] = &[("", "no call wrote", "explain: wrote: did you mean write?\n")];

fn expect_all_said(rt: &(impl Abort + AllocGlobal), job: &Job<'_>, rows: &[Said]) {
    let nothing = Vec::new(rt.alloc());
    let mut files = files_of(rt.alloc(), nothing, b"").expect(rt, "memory");
    for (text, line, wanted) in rows {
        put_text(rt, &mut files, text.as_bytes());
        expect_explained(rt, &mut files, job, line, wanted);
    }
}

// A path that leads to no file, and the one that was meant.
static MEANT: [(&str, &str); 6] = [
    ("/F", "explain: /F: did you mean /f?\n"),
    ("/d//E/x", "explain: /d//E/x: did you mean /d/e/x?\n"),
    ("D//e/x", "explain: D//e/x: did you mean /d//e/x?\n"),
    ("/d/E/x", "explain: /d/E/x: did you mean /d/e/x?\n"),
    ("/d/f", NOTHING),
    ("/c", "explain: /c is a device, which has no bytes\n"),
];

const NOTHING: &str =
    "explain: there is nothing of this name on the image: xv6 ls IMAGE / shows what there is\n";

fn expect_meant(rt: &(impl Abort + AllocGlobal)) {
    let mut files = with_letters(rt, 1);
    for (path, more) in &MEANT {
        expect_explained(rt, &mut files, &get(path), "fault 1 NotFound", more);
    }
}

fn expect_word_meant(rt: &(impl Abort + AllocGlobal)) {
    let mut err = Vec::new(rt.alloc());
    explain_words(rt.alloc(), &["xv6", "rnu", "a"], &mut err).expect(rt, "memory");
    let wanted = "explain: rnu: did you mean run?\n";
    expect_text(rt, ("explained", "rnu"), err.as_slice(), wanted);
}

// The jobs that boot from an image without a program.
fn expect_no_init(rt: &(impl Abort + AllocGlobal)) {
    let mut files = with_image(rt, HELLO, "", 32);
    for job in &[LIVE, EXPLORE, GDB, Job::Trace(ALL), play_of(false, None)] {
        let more = "explain: no /init on the image\n";
        expect_explained(rt, &mut files, job, "fault 5 NoInit", more);
    }
}

// A host that says why it did not write.
#[derive(Drop)]
struct Locked;

impl Host for Locked {
    type Screen = NoScreen;

    fn read(&mut self, _name: &str) -> Result<Vec<u8>, HostFault> {
        Err(HostFault)
    }

    fn write(&mut self, _name: &str, _bytes: &[u8]) -> Result<(), HostFault> {
        Err(HostFault)
    }

    fn why(&self) -> Why {
        Why::System(io::Error::from(io::ErrorKind::PermissionDenied))
    }
}

// What the system says of a file, and what is said of an image of which there are too many blocks.
fn expect_reasons(rt: &(impl Abort + AllocGlobal)) {
    let job = migrate("a", "b");
    let written = "explain: b: permission denied\n";
    expect_explained(rt, &mut Locked, &job, "cannot write b", written);
    let read = "explain: a: permission denied\n";
    expect_explained(rt, &mut Locked, &job, "cannot read a", read);
    let output = "explain: standard output took not all: is the disk full, or the reader gone?\n";
    expect_explained(
        rt,
        &mut Locked,
        &job,
        "cannot write standard output",
        output,
    );
    let blocks =
        "explain: the files take more blocks in the large format than the image has: put fewer on it\n";
    expect_explained(rt, &mut Locked, &job, "fault 2 Blocks", blocks);
}

fn expect_rows(rt: &(impl Abort + AllocGlobal)) {
    for row in &ROWS {
        expect_row(rt, row);
    }
}

fn expect_texts(rt: &(impl Abort + AllocGlobal)) {
    expect_all_said(rt, &mkfs(64, 16), MANIFESTS);
    expect_all_said(rt, &flat(256, false), SCRIPTS);
    expect_all_said(rt, &run(256, false, None), SCRIPTS);
    expect_all_said(rt, &GDB, SCRIPTS);
    expect_all_said(rt, &Job::Trace(ALL), CALLS);
}

fn expect_lines(rt: &(impl Abort + AllocGlobal)) {
    expect_rows(rt);
    expect_texts(rt);
    expect_meant(rt);
    expect_word_meant(rt);
    expect_no_init(rt);
    expect_reasons(rt);
}

#[test]
fn tells_more_of_runs_and_lines(rt: HostRuntime) {
    expect_lines(&rt);
}
