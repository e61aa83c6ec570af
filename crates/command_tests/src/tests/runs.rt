//! Stored runs of machines that boot from an image.
use crate::tests::images::{CHECK, mkfs};
use crate::tests::program_files::ASM;
use crate::tests::telling::expect_explained;
use crate::tests::{DEAD, DONE, Files, Name, UNTOLD, change, expect, expect_that, files_of};
use commands::perform::perform;
use commands::{Job, Play, Run, Telling};
use std::mem::swap;
use std::num::NonZeroU64;
use std::process::Abort;

// Says `hi` on descriptor 1: 35 bytes.
pub const HELLO: &str = "\
    addi a0, zero, 1\n addi a1, zero, 32\n addi a2, zero, 3\n addi a7, zero, 16\n ecall\n\
    addi a0, zero, 0\n addi a7, zero, 2\n ecall\n.ascii \"hi\\n\"\n";

pub const INIT: &str = "file /init host";

const NO_INIT: &str = "fault 5 NoInit\n";

// Puts this text where texts lie.
pub fn put_text(rt: &(impl Abort + AllocGlobal), files: &mut Files, text: &[u8]) {
    files.text = text.to_vec(rt.alloc()).expect(rt, "memory");
}

// Files with an image of a manifest, of `size` blocks, whose host's file is the program of an assembly text, or its
// first `length` bytes.
fn with_part(
    rt: &(impl Abort + AllocGlobal),
    text: &str,
    length: usize,
    manifest: &str,
    size: u32,
) -> Files {
    let nothing = Vec::new(rt.alloc());
    let mut files = files_of(rt.alloc(), nothing, text.as_bytes()).expect(rt, "memory");
    expect(rt, ("a program", text), &mut files, &ASM, DONE);
    swap(&mut files.bytes, &mut files.image);
    files.bytes.truncate(length);
    put_text(rt, &mut files, manifest.as_bytes());
    let name = ("an image", manifest);
    expect(rt, name, &mut files, &mkfs(size, 16), DONE);
    files
}

// The same of the whole program.
pub fn with_image(rt: &(impl Abort + AllocGlobal), text: &str, manifest: &str, size: u32) -> Files {
    with_part(rt, text, usize::MAX, manifest, size)
}

pub fn run(frames: u32, tlb: bool, save: Option<&'static str>) -> Job<'static> {
    Job::Run(Run {
        frames,
        tlb,
        fail: None,
        save,
        telling: UNTOLD,
        image: "image",
        script: "script",
    })
}

// The access of this number fails.
fn failing(fail: u64, frames: u32, tlb: bool, save: Option<&'static str>) -> Run<'static> {
    Run {
        frames,
        tlb,
        fail: NonZeroU64::new(fail),
        save,
        telling: UNTOLD,
        image: "image",
        script: "script",
    }
}

fn run_failing(fail: u64, frames: u32, tlb: bool, save: Option<&'static str>) -> Job<'static> {
    Job::Run(failing(fail, frames, tlb, save))
}

// The same, as a play; of number 0 none fails.
fn play_failing(fail: u64, tlb: bool, save: Option<&'static str>) -> Job<'static> {
    Job::Play(Play {
        run: failing(fail, 256, tlb, save),
        script: None,
    })
}

// A script, standard output, standard error and status.
type Row = (&'static str, &'static str, &'static str, u8);

// Process 1 has no descriptors, so nothing is on the console.
const WITHOUT_DESCRIPTORS: &[Row] = &[
    ("", "", "running\n", 0),
    ("step 8", "", "running\n", 0),
    ("step 9", "", "halt 1 InitEnded 0\n", 0),
    ("step 8\ntick 1\nstep 1", "", "running\n", 0),
    ("step 8\ntick 1\nstep 2", "", "halt 1 InitEnded 0\n", 0),
    ("step 1000000000", "", "halt 1 InitEnded 0\n", 0),
];

// Opens the console, says `hi`, and says once more what is typed, until a line ends it all: its length is the status.
pub const REPEATS: &str = "\
    la a0, console\n li a1, 2\n li a7, 15\n ecall\n la a1, greeting\n li a2, 3\n li a7, 16\n ecall\n\
    li a0, 0\n la a1, line\n li a2, 100\n li a7, 5\n ecall\n mv s0, a0\n\
    mv a2, a0\n li a0, 0\n la a1, line\n li a7, 16\n ecall\n mv a0, s0\n li a7, 2\n ecall\n\
    console: .ascii \"console\\0\"\ngreeting: .ascii \"hi\\n\"\nline: .zero 100\n";

pub const WITH_CONSOLE: &str = "dev /console 1 0\nfile /init host";

const AT_THE_CONSOLE: &[Row] = &[
    ("step 100", "hi\n", "running\n", 0),
    (
        "type ab\nstep 100",
        "ab\nhi\nab\n",
        "halt 1 InitEnded 3\n",
        0,
    ),
    ("step 100\ntype ab", "hi\nab\n", "running\n", 0),
    (
        "step 100\ntype ab\nstep 100",
        "hi\nab\nab\n",
        "halt 1 InitEnded 3\n",
        0,
    ),
    (
        "step 100\nkeys 61627f630d\nstep 100",
        "hi\nab\u{8} \u{8}c\nac\n",
        "halt 1 InitEnded 3\n",
        0,
    ),
];

const DIES: &[Row] = &[("step 2", "", DEAD, 0)];

// Scripts on one image.
struct Runs {
    name: &'static str,
    text: &'static str,
    manifest: &'static str,
    size: u32,
    frames: u32,
    // The length of the program's file, and what is in use on the image.
    length: usize,
    used: &'static str,
    rows: &'static [Row],
}

static RUNS: [Runs; 4] = [
    Runs {
        name: "a program without descriptors",
        text: HELLO,
        manifest: INIT,
        size: 32,
        frames: 256,
        length: 4131,
        used: "ok 2 inodes 6 blocks\n",
        rows: WITHOUT_DESCRIPTORS,
    },
    Runs {
        name: "typing at the console",
        text: REPEATS,
        manifest: WITH_CONSOLE,
        size: 32,
        frames: 256,
        length: 4351,
        used: "ok 3 inodes 6 blocks\n",
        rows: AT_THE_CONSOLE,
    },
    Runs {
        name: "the longest program for 64 frames",
        text: ".zero 229376",
        manifest: INIT,
        size: 400,
        frames: 64,
        length: 233472,
        used: "ok 2 inodes 230 blocks\n",
        rows: DIES,
    },
    Runs {
        name: "a program for 65 frames",
        text: ".zero 229377",
        manifest: INIT,
        size: 400,
        frames: 65,
        length: 233473,
        used: "ok 2 inodes 231 blocks\n",
        rows: DIES,
    },
];

// Runs a script with each translator, and saves nothing.
fn expect_row(rt: &(impl Abort + AllocGlobal), files: &mut Files, runs: &Runs, row: &Row) {
    let (script, stdout, stderr, status) = *row;
    let name = (runs.name, script);
    put_text(rt, files, script.as_bytes());
    let wanted = (stdout, stderr, status);
    expect(rt, name, files, &run(runs.frames, false, None), wanted);
    expect(rt, name, files, &run(runs.frames, true, None), wanted);
}

// The image stays as it is.
fn expect_runs(rt: &(impl Abort + AllocGlobal), runs: &Runs) {
    let name = (runs.name, runs.manifest);
    let used = (runs.used, "", 0);
    let mut files = with_image(rt, runs.text, runs.manifest, runs.size);
    expect_that(rt, name, "the length", files.bytes.len() == runs.length);
    expect(rt, name, &mut files, &CHECK, used);
    for row in runs.rows {
        expect_row(rt, &mut files, runs, row);
    }
    expect(rt, name, &mut files, &CHECK, used);
}

// Makes the file `f` with 8 bytes, takes its name away, and goes on for ever.
const MAKES: &str = "\
    la a0, name\n li a1, 0x201\n li a7, 15\n ecall\n la a1, name\n li a2, 8\n li a7, 16\n ecall\n\
    la a0, name\n li a7, 18\n ecall\nagain: j again\n\
    name: .ascii \"f\\0\"\n .zero 8\n";

// Ends with the byte that the file `f` has; where there is none it makes one of a byte 42, and ends with 0.
const REMEMBERS: &str = "\
    la a0, name\n li a1, 0\n li a7, 15\n ecall\n blt a0, zero, makes\n\
    la a1, place\n li a2, 1\n li a7, 5\n ecall\n la a1, place\n lbu a0, 0(a1)\n li a7, 2\n ecall\n\
    makes: la a0, name\n li a1, 0x201\n li a7, 15\n ecall\n\
    la a1, byte\n li a2, 1\n li a7, 16\n ecall\n li a0, 0\n li a7, 2\n ecall\n\
    name: .ascii \"f\\0\"\nbyte: .ascii \"*\"\nplace: .zero 1\n";

// The file in which a run saves the image, if it does, its frames, and how it ended.
type Saving = (Option<&'static str>, u32, &'static str);

// Runs on one image after another of the same script, and what is in use at the end.
struct Saved {
    name: &'static str,
    text: &'static str,
    script: &'static str,
    runs: &'static [Saving],
    used: &'static str,
}

const GOES_ON: &[Saving] = &[(Some("image"), 256, "running\n"), (None, 64, "running\n")];

static SAVED: [Saved; 5] = [
    Saved {
        name: "nothing was done",
        text: MAKES,
        script: "",
        runs: GOES_ON,
        used: "ok 2 inodes 6 blocks\n",
    },
    Saved {
        name: "a file was made",
        text: MAKES,
        script: "step 8",
        runs: GOES_ON,
        used: "ok 3 inodes 6 blocks\n",
    },
    Saved {
        name: "a file was written",
        text: MAKES,
        script: "step 15",
        runs: GOES_ON,
        used: "ok 3 inodes 7 blocks\n",
    },
    Saved {
        name: "a file's name was taken away",
        text: MAKES,
        script: "step 1000",
        runs: GOES_ON,
        used: "ok 2 inodes 6 blocks\n",
    },
    // What each run that saves its image finds of the one before, and what a run that saves nothing leaves.
    Saved {
        name: "a file is remembered",
        text: REMEMBERS,
        script: "step 100",
        runs: &[
            (None, 64, "halt 1 InitEnded 0\n"),
            (Some("image"), 64, "halt 1 InitEnded 0\n"),
            (None, 64, "halt 1 InitEnded 42\n"),
            (Some("image"), 64, "halt 1 InitEnded 42\n"),
        ],
        used: "ok 3 inodes 7 blocks\n",
    },
];

fn expect_saving(
    rt: &(impl Abort + AllocGlobal),
    name: Name<'_>,
    files: &mut Files,
    tlb: bool,
    saving: Saving,
) {
    let (save, frames, line) = saving;
    expect(rt, name, files, &run(frames, tlb, save), ("", line, 0));
}

fn expect_saved(rt: &(impl Abort + AllocGlobal), saved: &Saved, tlb: bool) {
    let name = (saved.name, saved.script);
    let mut files = with_image(rt, saved.text, INIT, 32);
    put_text(rt, &mut files, saved.script.as_bytes());
    for saving in saved.runs {
        expect_saving(rt, name, &mut files, tlb, *saving);
    }
    expect(rt, name, &mut files, &CHECK, (saved.used, "", 0));
}

// A run or a play of a script, of which the access with a number fails, if that isn't 0, and the registers of process 7
// may be printed.
#[derive(Clone, Copy)]
struct Doing {
    plays: bool,
    script: &'static str,
    fail: u64,
    frames: u32,
    watches: bool,
    save: Option<&'static str>,
}

const DOING: Doing = Doing {
    plays: false,
    script: "step 9",
    fail: 0,
    frames: 64,
    watches: false,
    save: None,
};

fn job_of(doing: Doing) -> Job<'static> {
    let run = failing(doing.fail, doing.frames, false, doing.save);
    if doing.plays {
        return Job::Play(Play { run, script: None });
    }
    let registers = if doing.watches {
        NonZeroU64::new(7)
    } else {
        None
    };
    let telling = Telling {
        registers,
        ..UNTOLD
    };
    Job::Run(Run { telling, ..run })
}

const UNSAVED: &str = "halt 1 InitEnded 0\ncannot write none\n";

// A name, how long the image is at most, what is done, standard error and status.
type Done = (&'static str, usize, Doing, &'static str, u8);

static ENDINGS: [Done; 10] = [
    (
        "a run that goes on can't be saved",
        usize::MAX,
        Doing {
            script: "step 8",
            save: Some("none"),
            ..DOING
        },
        "running\ncannot write none\n",
        1,
    ),
    (
        "a run that ends can't be saved",
        usize::MAX,
        Doing {
            save: Some("none"),
            ..DOING
        },
        UNSAVED,
        1,
    ),
    (
        "a play that ends can't be saved",
        usize::MAX,
        Doing {
            plays: true,
            frames: 256,
            save: Some("none"),
            ..DOING
        },
        UNSAVED,
        1,
    ),
    // So nothing is printed of an image that can't be written.
    (
        "a play that waited in vain isn't saved",
        usize::MAX,
        Doing {
            plays: true,
            script: "until idle 3",
            frames: 256,
            save: Some("none"),
            ..DOING
        },
        "script:1: not reached in 3 steps\n",
        1,
    ),
    // A run that is watched fails and is saved as any other.
    (
        "a run that is watched fails",
        usize::MAX,
        Doing {
            fail: 1,
            watches: true,
            ..DOING
        },
        "fault 3 Device\n",
        1,
    ),
    (
        "a run that is watched can't be saved",
        usize::MAX,
        Doing {
            watches: true,
            save: Some("none"),
            ..DOING
        },
        "pid 7: no process\nhalt 1 InitEnded 0\ncannot write none\n",
        1,
    ),
    // Frames are counted first, and an image that is refused may be reported before an access fails.
    (
        "the frames are reported before the disk fails",
        usize::MAX,
        Doing {
            fail: 1,
            frames: 63,
            save: Some("image"),
            ..DOING
        },
        "fault 2 FrameCount\n",
        1,
    ),
    (
        "the access that fails isn't reached",
        usize::MAX,
        Doing {
            fail: 4294967295,
            ..DOING
        },
        "halt 1 InitEnded 0\n",
        0,
    ),
    (
        "the disk of a short image fails",
        31744,
        Doing {
            fail: 1,
            save: Some("image"),
            ..DOING
        },
        "fault 3 Device\n",
        1,
    ),
    (
        "a short image is reported before the disk fails",
        31744,
        Doing {
            fail: 30,
            save: Some("image"),
            ..DOING
        },
        "fault 1 Length\n",
        1,
    ),
];

fn expect_ending(rt: &(impl Abort + AllocGlobal), row: &Done) {
    let (name, length, doing, stderr, status) = *row;
    let name = (name, doing.script);
    let mut files = with_image(rt, HELLO, INIT, 32);
    files.image.truncate(length);
    put_text(rt, &mut files, doing.script.as_bytes());
    expect(rt, name, &mut files, &job_of(doing), ("", stderr, status));
}

// What a run prints when one access of its disk fails, and its status: the later the access, the further it comes.
static FAILURES: [(&str, u8); 3] = [
    ("fault 3 Device\n", 1),
    ("halt 2 Device\n", 1),
    ("running\n", 0),
];

// Which of these was printed.
fn failure_in(told: &[u8], ended: u8) -> Option<usize> {
    FAILURES.iter().position(|(line, status)| line.as_bytes() == told && *status == ended)
}

// More accesses than a run makes.
const ACCESSES: u64 = 200;

// Which of the failures a job prints.
fn failure_told(rt: &(impl Abort + AllocGlobal), files: &mut Files, job: &Job<'_>) -> usize {
    let mut out = Vec::new(rt.alloc());
    let mut err = Vec::new(rt.alloc());
    let status = perform(rt.alloc(), job, files, &mut out, &mut err);
    failure_in(err.as_slice(), status).expect(rt, "a line of a failure")
}

// The same. Where an access failed, the image stays as it is.
fn failure_of(rt: &(impl Abort + AllocGlobal), files: &mut Files, job: &Job<'_>) -> usize {
    let before = files.image.clone().expect(rt, "memory");
    let failure = failure_told(rt, files, job);
    let kept = is_kept(failure, before.as_slice(), files.image.as_slice());
    expect_that(rt, ("a disk that fails", "an access"), "the image", kept);
    failure
}

fn is_kept(failure: usize, before: &[u8], image: &[u8]) -> bool {
    failure == 2 || before == image
}

// The failure at an access; a play of the script does the same.
fn failure_at(
    rt: &(impl Abort + AllocGlobal),
    files: &mut Files,
    n: u64,
    tlb: bool,
    save: Option<&'static str>,
) -> usize {
    let failure = failure_of(rt, files, &run_failing(n, 256, tlb, save));
    if failure < 2 {
        let played = failure_of(rt, files, &play_failing(n, tlb, save));
        let name = ("a disk that fails", "step 15");
        expect_that(rt, name, "a play does the same", played == failure);
    }
    failure
}

// How many accesses fail the boot, and how many the run or the save.
fn failures_of(
    rt: &(impl Abort + AllocGlobal),
    files: &mut Files,
    tlb: bool,
    save: Option<&'static str>,
) -> [u64; 2] {
    let name = ("a disk that fails", "step 15");
    let mut counts = [0; 2];
    let mut reached = 0;
    for n in 1..ACCESSES {
        let failure = failure_at(rt, files, n, tlb, save);
        expect_that(rt, name, "it comes further", reached <= failure);
        reached = failure;
        match counts.get_mut(failure) {
            Some(count) => *count = n,
            None => return counts,
        }
    }
    expect_that(rt, name, "it ends well at last", false);
    counts
}

fn failures_on_an_image(
    rt: &(impl Abort + AllocGlobal),
    tlb: bool,
    save: Option<&'static str>,
) -> [u64; 2] {
    let mut files = with_image(rt, MAKES, INIT, 32);
    put_text(rt, &mut files, b"step 15");
    failures_of(rt, &mut files, tlb, save)
}

// The boot reads the super block, each of the 32 blocks, and then what it needs of /init.
fn expect_failures(rt: &(impl Abort + AllocGlobal), tlb: bool) {
    let name = ("a disk that fails", "step 15");
    let [boots, halts] = failures_on_an_image(rt, tlb, None);
    expect_that(rt, name, "the boot reads", 34 < boots && boots < halts);
    let [same, more] = failures_on_an_image(rt, tlb, Some("image"));
    let asks = same == boots && halts < more;
    expect_that(rt, name, "the save asks for the disk too", asks);
}

// An image from which no machine boots: the program's text and how long its file is at most, the manifest and the size
// of the image, bytes of it that are changed and how long it is at most, and the frames.
struct Boot {
    text: &'static str,
    part: usize,
    manifest: &'static str,
    size: u32,
    changes: &'static [(usize, u8)],
    length: usize,
    frames: u32,
}

const BOOT: Boot = Boot {
    text: HELLO,
    part: usize::MAX,
    manifest: INIT,
    size: 32,
    changes: &[],
    length: usize::MAX,
    frames: 64,
};

const CUT_OFF: &str =
    "explain: /init is no program: fault 5 Short: the file ends before its headers or segments do: is it cut off?\n";

// A name, the boot, what is printed of it, and what is said of a line that says that there is no program.
type Unbooted = (&'static str, Boot, &'static str, &'static str);

static UNBOOTED: [Unbooted; 17] = [
    (
        "no frames",
        Boot { frames: 0, ..BOOT },
        "fault 2 FrameCount\n",
        "",
    ),
    (
        "63 frames",
        Boot { frames: 63, ..BOOT },
        "fault 2 FrameCount\n",
        "",
    ),
    (
        "32769 frames",
        Boot {
            frames: 32769,
            ..BOOT
        },
        "fault 2 FrameCount\n",
        "",
    ),
    (
        "4294967295 frames",
        Boot {
            frames: 4294967295,
            ..BOOT
        },
        "fault 2 FrameCount\n",
        "",
    ),
    (
        "a program for 65 frames",
        Boot {
            text: ".zero 229377",
            size: 400,
            ..BOOT
        },
        NO_INIT,
        "explain: 64 frames don't suffice for /init\n",
    ),
    (
        "another magic number",
        Boot {
            changes: &[(1024, 0x40)],
            ..BOOT
        },
        "fault 2 Magic\n",
        "",
    ),
    (
        "numbers that do not fit",
        Boot {
            changes: &[(1032, 0x1c)],
            ..BOOT
        },
        "fault 3 Numbers\n",
        "",
    ),
    (
        "a node of no type",
        Boot {
            changes: &[(2176, 9)],
            ..BOOT
        },
        "fault 4 NodeType\n",
        "",
    ),
    (
        "a link too many",
        Boot {
            changes: &[(2182, 2)],
            ..BOOT
        },
        "fault 10 Links\n",
        "",
    ),
    (
        "a short image",
        Boot {
            length: 31744,
            ..BOOT
        },
        "fault 1 Length\n",
        "",
    ),
    (
        "a short image and 63 frames",
        Boot {
            length: 31744,
            frames: 63,
            ..BOOT
        },
        "fault 2 FrameCount\n",
        "",
    ),
    (
        "an image of no whole blocks and 63 frames",
        Boot {
            length: 31743,
            frames: 63,
            ..BOOT
        },
        "fault 1 Length\n",
        "",
    ),
    (
        "an empty root",
        Boot {
            manifest: "",
            ..BOOT
        },
        NO_INIT,
        "explain: no /init on the image\n",
    ),
    (
        "another program",
        Boot {
            manifest: "file /other host",
            ..BOOT
        },
        NO_INIT,
        "explain: no /init on the image\n",
    ),
    (
        "a directory",
        Boot {
            manifest: "dir /init",
            ..BOOT
        },
        NO_INIT,
        "explain: /init is a directory\n",
    ),
    (
        "a device",
        Boot {
            manifest: "dev /init 1 0",
            ..BOOT
        },
        NO_INIT,
        "explain: no /init on the image\n",
    ),
    (
        "a program that is cut off",
        Boot { part: 119, ..BOOT },
        NO_INIT,
        CUT_OFF,
    ),
];

fn with_boot(rt: &(impl Abort + AllocGlobal), boot: &Boot) -> Files {
    let mut files = with_part(rt, boot.text, boot.part, boot.manifest, boot.size);
    change(&mut files.image, boot.changes);
    files.image.truncate(boot.length);
    put_text(rt, &mut files, b"step 9");
    files
}

// Nothing is saved.
fn expect_no_boot(rt: &(impl Abort + AllocGlobal), files: &mut Files, row: &Unbooted, tlb: bool) {
    let (name, boot, line, _) = row;
    let job = run(boot.frames, tlb, Some("image"));
    expect(rt, ("no boot", name), files, &job, ("", line, 1));
}

fn expect_more(rt: &(impl Abort + AllocGlobal), files: &mut Files, row: &Unbooted) {
    let (_, boot, line, more) = row;
    if *line == NO_INIT {
        let job = run(boot.frames, false, None);
        expect_explained(rt, files, &job, "fault 5 NoInit", more);
    }
}

// No machine boots, whatever the translator is.
fn expect_unbooted(rt: &(impl Abort + AllocGlobal), row: &Unbooted) {
    let mut files = with_boot(rt, &row.1);
    expect_no_boot(rt, &mut files, row, false);
    expect_no_boot(rt, &mut files, row, true);
    expect_more(rt, &mut files, row);
}

fn expect_all_runs(rt: &(impl Abort + AllocGlobal)) {
    for runs in &RUNS {
        expect_runs(rt, runs);
    }
}

fn expect_all_saved(rt: &(impl Abort + AllocGlobal)) {
    for saved in &SAVED {
        expect_saved(rt, saved, false);
        expect_saved(rt, saved, true);
    }
}

fn expect_scripts(rt: &(impl Abort + AllocGlobal)) {
    expect_all_runs(rt);
    expect_all_saved(rt);
}

fn expect_endings(rt: &(impl Abort + AllocGlobal)) {
    for row in &ENDINGS {
        expect_ending(rt, row);
    }
}

fn expect_all_unbooted(rt: &(impl Abort + AllocGlobal)) {
    for row in &UNBOOTED {
        expect_unbooted(rt, row);
    }
}

fn expect_ends(rt: &(impl Abort + AllocGlobal)) {
    expect_endings(rt);
    expect_all_unbooted(rt);
    expect_failures(rt, false);
    expect_failures(rt, true);
}

#[test]
fn runs_scripts_on_images(rt: HostRuntime) {
    expect_scripts(&rt);
}

#[test]
fn tells_how_runs_end(rt: HostRuntime) {
    expect_ends(&rt);
}
