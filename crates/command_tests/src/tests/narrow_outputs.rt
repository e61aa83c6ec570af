//! Standard outputs that take only some bytes, or can't be flushed.
use crate::tests::images::{CHECK, mkfs, with_files};
use crate::tests::listing::ls;
use crate::tests::openings::{get, put, with_letters};
use crate::tests::program_files::{AS, DUMP, with_program};
use crate::tests::runs::{REPEATS, WITH_CONSOLE, put_text, run, with_image};
use crate::tests::{
    DONE, Files, Name, UNTOLD, Wanted, expect, expect_that, expect_told, files_of, flat, flat_told,
    hello, program_of,
};
use commands::perform::perform;
use commands::{As, Host, Job, Telling};
use std::alloc::Global;
use std::io;
use std::io::Write;
use std::process::Abort;

// Takes `room` bytes, one at a time, and then fails; a flush may fail too. It notes how many bytes it has at each that
// doesn't.
#[derive(Drop)]
pub struct Narrow {
    pub taken: Vec<u8>,
    room: usize,
    flushes: bool,
    flushed: Vec<usize>,
}

impl Write for Narrow {
    fn write(&mut self, buf: &[u8]) -> io::Result<usize> {
        match buf.first() {
            Some(byte) if self.taken.len() < self.room => {
                self.taken.push(*byte)?;
                Ok(1)
            }
            _ => Ok(0),
        }
    }

    fn flush(&mut self) -> io::Result<()> {
        if !self.flushes {
            return Err(io::Error::from(io::ErrorKind::StorageFull));
        }
        self.flushed.push(self.taken.len())?;
        Ok(())
    }
}

// An output that takes `room` bytes.
pub fn output_of(alloc: Global, room: usize, flushes: bool) -> Narrow {
    Narrow {
        taken: Vec::new(alloc),
        room,
        flushes,
        flushed: Vec::new(alloc),
    }
}

// Does a job with a host, and with this standard output.
pub fn expect_narrow<H: Host>(
    rt: &(impl Abort + AllocGlobal),
    name: Name<'_>,
    host: &mut H,
    job: &Job<'_>,
    mut out: Narrow,
    wanted: Wanted<'_>,
) {
    let mut err = Vec::new(rt.alloc());
    let ended = perform(rt.alloc(), job, host, &mut out, &mut err);
    let told = (out.taken.as_slice(), err.as_slice(), ended);
    expect_told(rt, name, told, wanted);
}

// How many bytes standard output takes, whether it can be flushed, which bytes it took, standard error and status.
type Output = (usize, bool, &'static str, &'static str, u8);

static FLAT_CONSOLES: [Output; 4] = [
    (3, true, "hi\n", "halt 1 InitEnded 0\n", 0),
    (3, false, "hi\n", "halt 3 Console\n", 1),
    (2, true, "hi", "halt 3 Console\n", 1),
    (0, true, "", "halt 3 Console\n", 1),
];

// Where the console fails the image isn't even tried to be written.
static CONSOLES: [Output; 4] = [
    (3, true, "hi\n", "running\ncannot write none\n", 1),
    (3, false, "hi\n", "halt 3 Console\n", 1),
    (2, true, "hi", "halt 3 Console\n", 1),
    (0, true, "", "halt 3 Console\n", 1),
];

const UNWRITTEN: &str = "cannot write standard output\n";

static CHECKS: [Output; 3] = [
    (0, true, "", UNWRITTEN, 1),
    (20, false, "ok 1 inodes 1 blocks", UNWRITTEN, 1),
    (21, false, "ok 1 inodes 1 blocks\n", UNWRITTEN, 1),
];

const ROOT: &str =
    ".              1     1     48\n..             1     1     48\nconsole        3     2      0\n";

static LISTS: [Output; 2] = [
    (14, true, ".             ", UNWRITTEN, 1),
    (1000, false, ROOT, UNWRITTEN, 1),
];

static GETS: [Output; 3] = [
    (2, true, "ab", UNWRITTEN, 1),
    (300, false, "abc", UNWRITTEN, 1),
    (300, true, "abc", "", 0),
];

static DUMPS: [Output; 3] = [
    (100, true, "00000000: 00008067 jalr zero, 0(ra)\n", "", 0),
    (9, true, "00000000:", UNWRITTEN, 1),
    (
        100,
        false,
        "00000000: 00008067 jalr zero, 0(ra)\n",
        UNWRITTEN,
        1,
    ),
];

const EXPANDED: &str = "    addi zero, zero, 0\n";

static EXPANDS: [Output; 3] = [
    (100, true, EXPANDED, "", 0),
    (9, true, "    addi ", UNWRITTEN, 1),
    (100, false, EXPANDED, UNWRITTEN, 1),
];

fn expect_output(
    rt: &(impl Abort + AllocGlobal),
    subject: &str,
    files: &mut Files,
    job: &Job<'_>,
    output: Output,
) {
    let (room, flushes, stdout, stderr, status) = output;
    let out = output_of(rt.alloc(), room, flushes);
    let wanted = (stdout, stderr, status);
    expect_narrow(rt, (subject, stdout), files, job, out, wanted);
}

// Does a job on each of these outputs.
fn expect_outputs(
    rt: &(impl Abort + AllocGlobal),
    subject: &str,
    mut files: Files,
    job: &Job<'_>,
    outputs: &[Output],
) {
    for output in outputs {
        expect_output(rt, subject, &mut files, job, *output);
    }
}

fn with_hello(rt: &(impl Abort + AllocGlobal)) -> Files {
    let program = hello(rt.alloc()).expect(rt, "memory");
    files_of(rt.alloc(), program, b"step 9").expect(rt, "memory")
}

fn with_greeting(rt: &(impl Abort + AllocGlobal)) -> Files {
    let mut files = with_image(rt, REPEATS, WITH_CONSOLE, 32);
    put_text(rt, &mut files, b"step 100");
    files
}

// Files with an image of 32 blocks and 16 inodes of a manifest.
fn with_manifest(rt: &(impl Abort + AllocGlobal), manifest: &str) -> Files {
    let mut files = with_files(rt, manifest, 0);
    expect(rt, ("an image", manifest), &mut files, &mkfs(32, 16), DONE);
    files
}

// Writes one byte after the other, for ever: of its steps, the first of which is its turn, every other one writes a
// byte from the sixth on.
const WRITES: &[u32] = &[
    0x0010_0513, // addi a0, zero, 1
    0x0000_0593, // addi a1, zero, 0
    0x0010_0613, // addi a2, zero, 1
    0x0100_0893, // addi a7, zero, 16
    0x0000_0073, // ecall                # write returns 1
    0xffdf_f06f, // jal  zero, -4
];

// A script, and how many bytes there are each time that the output is written out: before more of a command's events,
// where there would be more than 65536 since the last time, and at the end.
static BATCHES: [(&str, &[usize]); 8] = [
    ("", &[0]),
    ("step 65536", &[32766]),
    ("step 65538", &[32766, 32767]),
    ("step 131074", &[32766, 65534, 65535]),
    ("tick 65536\nstep 1", &[0, 0]),
    ("step 6\nstep 65536", &[1, 32769]),
    ("step 65000\nstep 536\ntick 1", &[32766, 32766]),
    (
        "step 30000\nstep 30000\nstep 30000\nstep 30000\nstep 30000",
        &[29998, 59998, 74998],
    ),
];

// A job writes its output out each time that it has this many bytes.
fn expect_flushed(
    rt: &(impl Abort + AllocGlobal),
    name: Name<'_>,
    files: &mut Files,
    job: &Job<'_>,
    flushed: &[usize],
) {
    let mut out = output_of(rt.alloc(), usize::MAX, true);
    let mut err = Vec::new(rt.alloc());
    let status = perform(rt.alloc(), job, files, &mut out, &mut err);
    expect_that(rt, name, "status 0", status == 0);
    expect_that(rt, name, "the batches", out.flushed.as_slice() == flushed);
}

fn expect_batches(rt: &(impl Abort + AllocGlobal), script: &str, flushed: &[usize]) {
    let program = program_of(rt.alloc(), WRITES).expect(rt, "memory");
    let mut files = files_of(rt.alloc(), program, script.as_bytes()).expect(rt, "memory");
    let job = flat(256, false);
    expect_flushed(rt, ("written out", script), &mut files, &job, flushed);
}

// Where faults are printed as they come, each byte is written out at once.
fn expect_each_byte(rt: &(impl Abort + AllocGlobal)) {
    let telling = Telling {
        faults: true,
        ..UNTOLD
    };
    let job = flat_told(256, telling);
    let name = ("written out", "with faults");
    let mut files = with_hello(rt);
    expect_flushed(rt, name, &mut files, &job, &[1, 2, 3, 3]);
}

fn expect_all_batches(rt: &(impl Abort + AllocGlobal)) {
    for (script, flushed) in &BATCHES {
        expect_batches(rt, script, flushed);
    }
}

fn expect_narrow_consoles(rt: &(impl Abort + AllocGlobal)) {
    let job = flat(256, false);
    expect_outputs(rt, "a flat run", with_hello(rt), &job, &FLAT_CONSOLES);
    let job = run(256, false, Some("none"));
    expect_outputs(rt, "a run", with_greeting(rt), &job, &CONSOLES);
}

fn expect_narrow_texts(rt: &(impl Abort + AllocGlobal)) {
    let list = ls("/", false);
    expect_outputs(rt, "a check", with_manifest(rt, ""), &CHECK, &CHECKS);
    expect_outputs(
        rt,
        "a list",
        with_manifest(rt, "dev /console 1 0"),
        &list,
        &LISTS,
    );
    let mut files = with_letters(rt, 3);
    expect(rt, ("put", "/f"), &mut files, &put("/f"), DONE);
    expect_outputs(rt, "a file", files, &get("/f"), &GETS);
    expect_outputs(rt, "a dump", with_program(rt, "ret", &[]), &DUMP, &DUMPS);
    let nothing = Vec::new(rt.alloc());
    let text = files_of(rt.alloc(), nothing, b"nop").expect(rt, "memory");
    let job = Job::As(As { expand: true, ..AS });
    expect_outputs(rt, "a text", text, &job, &EXPANDS);
}

fn expect_all_outputs(rt: &(impl Abort + AllocGlobal)) {
    expect_narrow_consoles(rt);
    expect_narrow_texts(rt);
    expect_all_batches(rt);
    expect_each_byte(rt);
}

#[test]
fn outputs_take_so_many_bytes(rt: HostRuntime) {
    expect_all_outputs(&rt);
}
