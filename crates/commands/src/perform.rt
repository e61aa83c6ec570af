//! Does a job.

mod tracing;

use commandline::{Job, Mkfs};
use host::{Failure, Host, Screen, print, read, tell};
use image::Summary;
use image_commands::{assembling, images, openings, program_files};
use jobfiles::named_twice;
use run_commands::{Cleared, Meter, Setting, plays, scripted, sessions};
use std::alloc::Global;
use std::fmt;
use std::io::Write;

// What is printed of an image that is accepted.
#[derive(Clone, Copy)]
struct Accepted(Summary);

impl fmt::Display for Accepted {
    fn fmt<W: fmt::Write>(&self, f: &mut fmt::Formatter<W>) -> fmt::Result {
        let (inodes, blocks) = (self.0.inodes, self.0.blocks);
        writeln!(f, "ok {inodes} inodes {blocks} blocks")
    }
}

// Makes an image; nothing is printed of one that is made.
fn perform_mkfs<H: Host, E: Write>(
    alloc: Global,
    words: Mkfs<'_>,
    host: &mut H,
    stderr: &mut E,
) -> u8 {
    match read(host, words.manifest) {
        Ok(text) => perform_quietly(images::mkfs(alloc, words, text.as_slice(), host), stderr),
        Err(failure) => tell(&failure, stderr),
    }
}

// Prints what an image uses, or what was wrong.
fn perform_telling<W: Write, E: Write>(
    found: Result<Summary, Failure<'_>>,
    stdout: &mut W,
    stderr: &mut E,
) -> u8 {
    match found {
        Ok(summary) => print(&Accepted(summary), stdout, stderr),
        Err(failure) => tell(&failure, stderr),
    }
}

// Prints what was wrong, if anything was.
fn perform_quietly<E: Write>(done: Result<(), Failure<'_>>, stderr: &mut E) -> u8 {
    match done {
        Ok(()) => 0,
        Err(failure) => tell(&failure, stderr),
    }
}

// The status of a job that reports by itself why it isn't done, or what was wrong.
fn perform_reporting<E: Write>(done: Result<bool, Failure<'_>>, stderr: &mut E) -> u8 {
    match done {
        Ok(true) => 0,
        Ok(false) => 1,
        Err(failure) => tell(&failure, stderr),
    }
}

// The terminal on which a job shows how far it is, where it does: of a trace, where its text isn't on standard error.
fn screen_of<H: Host>(job: &Job<'_>, host: &H) -> Option<H::Screen> {
    let is_told = match *job {
        Job::Flat(words) => words.telling.progress,
        Job::Run(words) => words.telling.progress,
        Job::Trace(words) => words.run.telling.progress && words.text.is_some(),
        Job::Live(_) | Job::Play(_) => true,
        _ => false,
    };
    if is_told { host.screen() } else { None }
}

// Whether faults are printed among the console's bytes as they come, so that those are written out at once.
fn tells_faults<H: Host>(job: &Job<'_>, host: &H) -> bool {
    match *job {
        Job::Flat(words) => words.telling.faults,
        Job::Run(words) => words.telling.faults,
        Job::Play(words) => words.run.telling.faults,
        Job::Live(_) => host.screen().is_some(),
        _ => false,
    }
}

// Does the job, whose console's bytes and what is found or listed go to an output that clears the meter's line.
fn perform_on<H: Host, S: Screen, W: Write, E: Write>(
    setting: Setting<'_, S>,
    job: &Job<'_>,
    host: &mut H,
    stdout: &mut W,
    stderr: &mut E,
) -> u8 {
    let alloc = setting.alloc;
    match *job {
        Job::Flat(words) => scripted::flat(setting, words, host, stdout, stderr),
        Job::Run(words) => scripted::run(setting, words, host, stdout, stderr),
        Job::Mkfs(words) => perform_mkfs(alloc, words, host, stderr),
        Job::Check(words) => perform_telling(images::check(alloc, words, host), stdout, stderr),
        Job::Ls(words) => perform_quietly(images::ls(alloc, words, host, stdout), stderr),
        Job::Migrate(words) => perform_telling(images::migrate(alloc, words, host), stdout, stderr),
        Job::Asm(words) => perform_quietly(program_files::asm(alloc, words, host), stderr),
        Job::As(words) => {
            perform_reporting(
                assembling::assemble(alloc, words, host, stdout, stderr),
                stderr,
            )
        }
        Job::Dump(words) => perform_quietly(
            program_files::dump(alloc, words, host, stdout),
            stderr,
        ),
        Job::Live(words) => sessions::perform(setting, words, host, stdout, stderr),
        Job::Play(words) => plays::perform(setting, words, host, stdout, stderr),
        Job::Trace(words) => tracing::perform(setting, words, host, stdout, stderr),
        Job::Gdb(words) => gdb_command::perform(alloc, words, host, stdout, stderr),
        Job::GdbInit => gdb_command::print_init_lines(stdout, stderr),
        Job::Explore(words) => explore_command::perform(alloc, words, host, stdout, stderr),
        Job::Get(words) => perform_quietly(openings::get(alloc, words, host, stdout), stderr),
        Job::Put(words) => perform_quietly(openings::put(alloc, words, host), stderr),
    }
}

/// Does the job, with the host's files, and returns the status to exit with: 0 where it was done. Nothing is read or
/// written if an output is another file that the words name.
/// The console's bytes and what is found or listed go to `stdout`, and all else that is printed to `stderr`.
pub fn perform<H: Host, W: Write, E: Write>(
    alloc: Global,
    job: &Job<'_>,
    host: &mut H,
    stdout: &mut W,
    stderr: &mut E,
) -> u8 {
    if let Some(name) = named_twice(job, host) {
        return tell(&Failure::Twice(name), stderr);
    }
    let meter = Meter::new(screen_of(job, host));
    let mut stdout = Cleared::new(stdout, &meter, tells_faults(job, host));
    let setting = Setting {
        alloc,
        meter: &meter,
    };
    perform_on(setting, job, host, &mut stdout, stderr)
}
