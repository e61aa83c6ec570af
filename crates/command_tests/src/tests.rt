//! Stored runs: jobs done with files in memory, and what they have to write.
mod crashing;
mod exploring;
mod images;
mod listing;
mod living;
mod migrating;
mod narrow_outputs;
mod openings;
mod plays;
mod program_files;
mod progress;
mod reading;
mod refusals;
mod runs;
mod telling;
mod tracing;
mod words;

use commands::perform::perform;
use commands::{Flat, Host, HostFault, Job, NoScreen, Telling};
use std::alloc::{AllocError, Global};
use std::process::Abort;

// Says `hi`: the words of the program, after which come the three bytes that it writes.
const HELLO: &[u32] = &[
    0x0010_0513, // addi a0, zero, 1
    0x0200_0593, // addi a1, zero, 32
    0x0030_0613, // addi a2, zero, 3
    0x0100_0893, // addi a7, zero, 16
    0x0000_0073, // ecall                # write
    0x0000_0513, // addi a0, zero, 0
    0x0020_0893, // addi a7, zero, 2
    0x0000_0073, // ecall                # exit
];

// Nothing is printed of a run besides the console's bytes and how it ended.
const UNTOLD: Telling<'static> = Telling {
    report: false,
    json: None,
    registers: None,
    memory: None,
    status: false,
    progress: false,
    faults: false,
    symbols: None,
};

// How a process ends at a fault.
const DEAD: &str = "halt 1 InitEnded -1\n";

// The files in memory: `program` or `host`, `script` or `manifest`, and `image`, which alone can be written. In a
// directory `d`, which may be made, all have the text, and of those that are written the names are kept, each with a
// blank.
#[derive(Drop)]
struct Files {
    bytes: Vec<u8>,
    text: Vec<u8>,
    image: Vec<u8>,
    names: String,
}

impl Host for Files {
    type Screen = NoScreen;

    fn read(&mut self, name: &str) -> Result<Vec<u8>, HostFault> {
        let found = if name == "program" || name == "host" {
            &self.bytes
        } else if name == "script" || name == "manifest" || name.starts_with("d/") {
            &self.text
        } else if name == "image" {
            &self.image
        } else {
            return Err(HostFault);
        };
        found.clone().map_err(|_| HostFault)
    }

    fn write(&mut self, name: &str, bytes: &[u8]) -> Result<(), HostFault> {
        if name.starts_with("d/") {
            return write!(self.names, "{name} ").map_err(|_| HostFault);
        }
        if name != "image" {
            return Err(HostFault);
        }
        self.image.clear();
        self.image.extend_from_slice(bytes).map_err(|_| HostFault)
    }

    fn make_folder(&mut self, name: &str) -> Result<(), HostFault> {
        if name == "d" { Ok(()) } else { Err(HostFault) }
    }
}

// Files of these bytes and this text, with an empty image.
fn files_of(alloc: Global, bytes: Vec<u8>, text: &[u8]) -> Result<Files, AllocError> {
    Ok(Files {
        bytes,
        text: text.to_vec(alloc)?,
        image: Vec::new(alloc),
        names: String::new(alloc),
    })
}

// Gives an image or a program's file these bytes at these offsets.
fn change(bytes: &mut Vec<u8>, changes: &[(usize, u8)]) {
    for (at, byte) in changes {
        if let Some(old) = bytes.get_mut(*at) {
            *old = *byte;
        }
    }
}

// What is written, and the status: standard output, standard error, and the status.
type Told<'a> = (&'a [u8], &'a [u8], u8);

// The same of what has to be written.
type Wanted<'a> = (&'a str, &'a str, u8);

// Nothing, of a job that is done.
const DONE: Wanted<'static> = ("", "", 0);

// The subject and the row that are tried.
type Name<'a> = (&'a str, &'a str);

// This has to hold in the row that is tried.
fn expect_that(rt: &impl Abort, name: Name<'_>, what: &str, holds: bool) {
    let (subject, row) = name;
    assert!(rt; holds, "{subject}: {row}: {what}");
}

fn text_of(bytes: &[u8]) -> &str {
    str::from_utf8(bytes).unwrap_or("bytes that are no text")
}

// A text has to be the one that is wanted.
fn expect_text(rt: &impl Abort, name: Name<'_>, text: &[u8], wanted: &str) {
    expect_that(rt, name, text_of(text), text == wanted.as_bytes());
}

// What was printed has to be what is wanted.
fn expect_told(rt: &impl Abort, name: Name<'_>, told: Told<'_>, wanted: Wanted<'_>) {
    let (out, err, ended) = told;
    let (stdout, stderr, status) = wanted;
    expect_text(rt, name, out, stdout);
    expect_text(rt, name, err, stderr);
    expect_that(rt, name, "the status", ended == status);
}

// Does a job with a host.
fn expect<H: Host>(
    rt: &(impl Abort + AllocGlobal),
    name: Name<'_>,
    host: &mut H,
    job: &Job<'_>,
    wanted: Wanted<'_>,
) {
    let mut out = Vec::new(rt.alloc());
    let mut err = Vec::new(rt.alloc());
    let ended = perform(rt.alloc(), job, host, &mut out, &mut err);
    expect_told(rt, name, (out.as_slice(), err.as_slice(), ended), wanted);
}

fn flat(frames: u32, tlb: bool) -> Job<'static> {
    Job::Flat(Flat {
        frames,
        tlb,
        telling: UNTOLD,
        file: "program",
        script: "script",
    })
}

// The same, of which something is printed.
fn flat_told(frames: u32, telling: Telling<'static>) -> Job<'static> {
    Job::Flat(Flat {
        frames,
        tlb: false,
        telling,
        file: "program",
        script: "script",
    })
}

// The bytes of a program's words.
fn program_of(alloc: Global, words: &[u32]) -> Result<Vec<u8>, AllocError> {
    let mut bytes = Vec::new(alloc);
    for word in words {
        bytes.extend_from_slice(&word.to_le_bytes())?;
    }
    Ok(bytes)
}

// The program that says `hi`, of 35 bytes.
fn hello(alloc: Global) -> Result<Vec<u8>, AllocError> {
    let mut bytes = program_of(alloc, HELLO)?;
    bytes.extend_from_slice(b"hi\n")?;
    Ok(bytes)
}

// What is run: the program that says `hi`, this many zeros, or these words.
#[derive(Clone, Copy)]
enum Program {
    Hello,
    Zeros(usize),
    Words(&'static [u32]),
}

fn bytes_of(alloc: Global, program: Program) -> Result<Vec<u8>, AllocError> {
    match program {
        Program::Hello => hello(alloc),
        Program::Zeros(length) => vec![in alloc; 0u8; length],
        Program::Words(words) => program_of(alloc, words),
    }
}

// A program's run: its frames, the program, the script, standard output, standard error and status.
type Run = (u32, Program, &'static str, &'static str, &'static str, u8);

// Runs a flat program with each translator: either has to write these texts, and to exit with this status.
fn expect_run(rt: &(impl Abort + AllocGlobal), subject: &str, run: &Run) {
    let (frames, program, script, stdout, stderr, status) = *run;
    let bytes = bytes_of(rt.alloc(), program).expect(rt, "memory");
    let mut files = files_of(rt.alloc(), bytes, script.as_bytes()).expect(rt, "memory");
    let name = (subject, script);
    let wanted = (stdout, stderr, status);
    expect(rt, name, &mut files, &flat(frames, false), wanted);
    expect(rt, name, &mut files, &flat(frames, true), wanted);
}

const GREETINGS: &[Run] = &[
    (
        256,
        Program::Hello,
        "step 9\n",
        "hi\n",
        "halt 1 InitEnded 0\n",
        0,
    ),
    (256, Program::Hello, "", "", "running\n", 0),
    (256, Program::Hello, "step 5", "", "running\n", 0),
    (256, Program::Hello, "step 6", "hi\n", "running\n", 0),
    (256, Program::Hello, "step 8", "hi\n", "running\n", 0),
    (
        256,
        Program::Hello,
        "step 1000000000",
        "hi\n",
        "halt 1 InitEnded 0\n",
        0,
    ),
    (
        256,
        Program::Hello,
        "step 3\ntick 1\nstep 3\n",
        "",
        "running\n",
        0,
    ),
    (
        256,
        Program::Hello,
        "step 3\ntick 1\nstep 4\n",
        "hi\n",
        "running\n",
        0,
    ),
    (
        256,
        Program::Hello,
        "step 3\ntick 1\nstep 6\n",
        "hi\n",
        "running\n",
        0,
    ),
    (
        256,
        Program::Hello,
        "step 3\ntick 1\nstep 7\n",
        "hi\n",
        "halt 1 InitEnded 0\n",
        0,
    ),
    (
        256,
        Program::Hello,
        "step 003\n\ntick 1\n\nstep 0\nstep 7",
        "hi\n",
        "halt 1 InitEnded 0\n",
        0,
    ),
];

const BOOTS: &[Run] = &[
    (64, Program::Zeros(0), "step 1", "", "running\n", 0),
    (32768, Program::Zeros(0), "step 1", "", "running\n", 0),
    (256, Program::Zeros(0), "step 1", "", "running\n", 0),
    (256, Program::Zeros(0), "step 2", "", DEAD, 0),
    (63, Program::Zeros(0), "", "", "fault 2 FrameCount\n", 1),
    (32769, Program::Zeros(0), "", "", "fault 2 FrameCount\n", 1),
    (64, Program::Zeros(229376), "", "", "running\n", 0),
    (64, Program::Zeros(229377), "", "", "fault 5 NoInit\n", 1),
];

const GUARD: &[u32] = &[0x0000_1537, 0x0005_0023]; // lui a0, 0x1; sb zero, 0(a0)

const PAST_END: &[u32] = &[
    0x0010_0513, // addi a0, zero, 1
    0x0265_1513, // slli a0, a0, 38
    0x0005_0583, // lb   a1, 0(a0)       # 0x4000000000
];

const TRAP_FRAME: &[u32] = &[
    0x0010_0513, // addi a0, zero, 1
    0x0265_1513, // slli a0, a0, 38
    0xffff_e5b7, // lui  a1, 0xffffe
    0x00b5_0533, // add  a0, a0, a1
    0x0005_0023, // sb   zero, 0(a0)     # 0x3fffffe000
];

const ENDS: &[Run] = &[
    (64, Program::Words(GUARD), "step 2", "", "running\n", 0),
    (64, Program::Words(GUARD), "step 3", "", DEAD, 0),
    (64, Program::Words(&[0x0000_0000]), "step 2", "", DEAD, 0),
    (64, Program::Words(&[0xffff_ffff]), "step 2", "", DEAD, 0),
    (64, Program::Words(PAST_END), "step 4", "", DEAD, 0),
    (64, Program::Words(TRAP_FRAME), "step 6", "", DEAD, 0),
];

// addi a7, zero, 14, 11 and 99; ecall; addi a7, zero, 2; ecall
const UPTIME: &[u32] = &[0x00e0_0893, 0x0000_0073, 0x0020_0893, 0x0000_0073];

const GETPID: &[u32] = &[0x00b0_0893, 0x0000_0073, 0x0020_0893, 0x0000_0073];

const UNKNOWN: &[u32] = &[0x0630_0893, 0x0000_0073, 0x0020_0893, 0x0000_0073];

const SMALL_CALLS: &[Run] = &[
    (
        64,
        Program::Words(UPTIME),
        "tick 3\nstep 5",
        "",
        "halt 1 InitEnded 3\n",
        0,
    ),
    (
        64,
        Program::Words(GETPID),
        "step 5",
        "",
        "halt 1 InitEnded 1\n",
        0,
    ),
    (64, Program::Words(UNKNOWN), "step 5", "", DEAD, 0),
];

const WRITES_TO_3: &[u32] = &[
    0x0030_0513, // addi a0, zero, 3
    0x0010_0613, // addi a2, zero, 1
    0x0100_0893, // addi a7, zero, 16
    0x0000_0073, // ecall                # write(3, 0, 1)
    0x0020_0893, // addi a7, zero, 2
    0x0000_0073, // ecall
];

const WRITES_THE_GUARD: &[u32] = &[
    0x0010_0513, // addi a0, zero, 1
    0x0000_15b7, // lui  a1, 0x1
    0xfff5_8593, // addi a1, a1, -1
    0x0020_0613, // addi a2, zero, 2
    0x0100_0893, // addi a7, zero, 16
    0x0000_0073, // ecall                # write(1, 0xfff, 2)
    0x0020_0893, // addi a7, zero, 2
    0x0000_0073, // ecall
];

const WRITES_NOTHING: &[u32] = &[
    0x0010_0513, // addi a0, zero, 1
    0x0000_15b7, // lui  a1, 0x1
    0x0100_0893, // addi a7, zero, 16
    0x0000_0073, // ecall                # write(1, 0x1000, 0)
    0x0020_0893, // addi a7, zero, 2
    0x0000_0073, // ecall
];

const REFUSED_WRITES: &[Run] = &[
    (64, Program::Words(WRITES_TO_3), "step 7", "", DEAD, 0),
    (64, Program::Words(WRITES_THE_GUARD), "step 9", "", DEAD, 0),
    (
        64,
        Program::Words(WRITES_NOTHING),
        "step 7",
        "",
        "halt 1 InitEnded 0\n",
        0,
    ),
];

// lui a0, ..; addi a7, zero, 12; ecall: sbrk(225280), sbrk(229376), and sbrk(-12288), which takes
// the code away; addi a7, zero, 2; ecall
const GROWS: &[u32] = &[
    0x0003_7537,
    0x00c0_0893,
    0x0000_0073,
    0x0020_0893,
    0x0000_0073,
];

const GROWS_TOO_FAR: &[u32] = &[
    0x0003_8537,
    0x00c0_0893,
    0x0000_0073,
    0x0020_0893,
    0x0000_0073,
];

const SHRINKS: &[u32] = &[
    0xffff_d537,
    0x00c0_0893,
    0x0000_0073,
    0x0020_0893,
    0x0000_0073,
];

const SHRINKS_BELOW_0: &[u32] = &[
    0xffff_d537, // lui  a0, 0xffffd
    0xfff5_0513, // addi a0, a0, -1
    0x00c0_0893, // addi a7, zero, 12
    0x0000_0073, // ecall                # sbrk(-12289)
    0x0020_0893, // addi a7, zero, 2
    0x0000_0073, // ecall
];

const GROWS_TWICE: &[u32] = &[
    0x001f_d537, // lui  a0, 0x1fd
    0x00c0_0893, // addi a7, zero, 12
    0x0000_0073, // ecall                # sbrk(2084864): 512 pages
    0x0000_1537, // lui  a0, 0x1
    0x0000_0073, // ecall                # sbrk(4096)
    0x0020_0893, // addi a7, zero, 2
    0x0000_0073, // ecall
];

const GROWTH: &[Run] = &[
    (
        64,
        Program::Words(GROWS),
        "step 6",
        "",
        "halt 1 InitEnded 12288\n",
        0,
    ),
    (64, Program::Words(GROWS_TOO_FAR), "step 6", "", DEAD, 0),
    (64, Program::Words(SHRINKS), "step 4", "", "running\n", 0),
    (64, Program::Words(SHRINKS), "step 5", "", DEAD, 0),
    (64, Program::Words(SHRINKS_BELOW_0), "step 7", "", DEAD, 0),
    (519, Program::Words(GROWS_TWICE), "step 8", "", DEAD, 0),
    (
        520,
        Program::Words(GROWS_TWICE),
        "step 8",
        "",
        "halt 1 InitEnded 2097152\n",
        0,
    ),
];

const GIVES_A_PAGE_BACK: &[u32] = &[
    0x0000_1537, // lui  a0, 0x1
    0x00c0_0893, // addi a7, zero, 12
    0x0000_0073, // ecall                # sbrk(4096)
    0x0005_0593, // addi a1, a0, 0
    0x0550_0613, // addi a2, zero, 85
    0x00c5_8023, // sb   a2, 0(a1)
    0xffff_f537, // lui  a0, 0xfffff
    0x0000_0073, // ecall                # sbrk(-4096)
    0x0000_1537, // lui  a0, 0x1
    0x0000_0073, // ecall                # sbrk(4096)
    0x0005_c503, // lbu  a0, 0(a1)
    0x0020_0893, // addi a7, zero, 2
    0x0000_0073, // ecall
];

const KEEPS_A_PAGE: &[u32] = &[
    0x0000_1537, // lui  a0, 0x1
    0x00c0_0893, // addi a7, zero, 12
    0x0000_0073, // ecall                # sbrk(4096)
    0x0005_0593, // addi a1, a0, 0
    0x0550_0613, // addi a2, zero, 85
    0x00c5_8023, // sb   a2, 0(a1)
    0x0000_0537, // lui  a0, 0
    0x0000_0073, // ecall                # sbrk(0)
    0x0000_1537, // lui  a0, 0x1
    0x0000_0073, // ecall                # sbrk(4096)
    0x0005_c503, // lbu  a0, 0(a1)
    0x0020_0893, // addi a7, zero, 2
    0x0000_0073, // ecall
];

const ZEROED_PAGES: &[Run] = &[
    (
        64,
        Program::Words(GIVES_A_PAGE_BACK),
        "step 14",
        "",
        "halt 1 InitEnded 0\n",
        0,
    ),
    (
        64,
        Program::Words(KEEPS_A_PAGE),
        "step 14",
        "",
        "halt 1 InitEnded 85\n",
        0,
    ),
];

// The last byte of the stack, over sizes 12288, 12289, 16384, 12287 and 12288.
const KEEPS_A_BYTE: &[u32] = &[
    0x0000_35b7, // lui  a1, 0x3
    0xfff5_8593, // addi a1, a1, -1
    0x0550_0613, // addi a2, zero, 85
    0x00c5_8023, // sb   a2, 0(a1)       # at 12287
    0x00c0_0893, // addi a7, zero, 12
    0x0010_0513, // addi a0, zero, 1
    0x0000_0073, // ecall                # sbrk(1)
    0x0000_1537, // lui  a0, 0x1
    0xfff5_0513, // addi a0, a0, -1
    0x0000_0073, // ecall                # sbrk(4095)
    0xffff_f537, // lui  a0, 0xfffff
    0xfff5_0513, // addi a0, a0, -1
    0x0000_0073, // ecall                # sbrk(-4097)
    0x0010_0513, // addi a0, zero, 1
    0x0000_0073, // ecall                # sbrk(1) returns 12287
    0x0005_c603, // lbu  a2, 0(a1)
    0x00c5_0533, // add  a0, a0, a2
    0x0020_0893, // addi a7, zero, 2
    0x0000_0073, // ecall                # 12287 + 85
];

const KEPT: &[Run] = &[(
    64,
    Program::Words(KEEPS_A_BYTE),
    "step 20",
    "",
    "halt 1 InitEnded 12372\n",
    0,
)];

// Scripts with a line that can't be read.
const BAD_SCRIPTS: &[Run] = &[
    (256, Program::Hello, "step", "", "script line 1\n", 1),
    (256, Program::Hello, "step ", "", "script line 1\n", 1),
    (256, Program::Hello, "step 1 ", "", "script line 1\n", 1),
    (256, Program::Hello, "step  1", "", "script line 1\n", 1),
    (256, Program::Hello, "step +1", "", "script line 1\n", 1),
    (256, Program::Hello, "step -1", "", "script line 1\n", 1),
    (256, Program::Hello, "step 1\r\n", "", "script line 1\n", 1),
    (
        256,
        Program::Hello,
        "step 1000000001",
        "",
        "script line 1\n",
        1,
    ),
    (
        256,
        Program::Hello,
        "step 9\n\ntick x\nnonsense",
        "",
        "script line 3\n",
        1,
    ),
    (256, Program::Hello, "keys", "", "script line 1\n", 1),
    (256, Program::Hello, "keys 0", "", "script line 1\n", 1),
    (256, Program::Hello, "keys 0A", "", "script line 1\n", 1),
    (256, Program::Hello, "keys 0d 7f", "", "script line 1\n", 1),
    (256, Program::Hello, "\ntype", "", "script line 2\n", 1),
    (256, Program::Hello, " ", "", "script line 1\n", 1),
    (256, Program::Hello, "Step 1", "", "script line 1\n", 1),
];

fn expect_runs(rt: &(impl Abort + AllocGlobal), subject: &str, runs: &[Run]) {
    for run in runs {
        expect_run(rt, subject, run);
    }
}

fn expect_starts(rt: &(impl Abort + AllocGlobal)) {
    expect_runs(rt, "says hi and ends", GREETINGS);
    expect_runs(rt, "boots what fits", BOOTS);
    expect_runs(rt, "reports bad scripts", BAD_SCRIPTS);
}

fn expect_calls(rt: &(impl Abort + AllocGlobal)) {
    expect_runs(rt, "ends at faults", ENDS);
    expect_runs(rt, "does small calls", SMALL_CALLS);
    expect_runs(rt, "reports refused writes", REFUSED_WRITES);
}

fn expect_sizes(rt: &(impl Abort + AllocGlobal)) {
    expect_runs(rt, "grows and shrinks", GROWTH);
    expect_runs(rt, "hands out zeroed pages", ZEROED_PAGES);
    expect_runs(rt, "keeps what stays", KEPT);
}

fn expect_flat_programs(rt: &(impl Abort + AllocGlobal)) {
    expect_starts(rt);
    expect_calls(rt);
    expect_sizes(rt);
}

#[test]
fn flat_programs_run(rt: HostRuntime) {
    expect_flat_programs(&rt);
}
