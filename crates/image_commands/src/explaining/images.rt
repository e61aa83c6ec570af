//! What is said of an image: what `/init` is on it, and which name on it was meant.

use blockdev::MemDisk;
use commandline::Job;
use explanations::{Topic, meaning, nearest};
use host::{Failure, Host, disk_of, read_image};
use image_files::{Missing, OpeningFault, ProgramFault, first_missing, read_file, segments};
use std::alloc::{AllocError, Global};
use tree::TreeFault;

/// The program of process 1.
const INIT: &str = "/init";

// The disk of an image, if it is read.
fn disk_at<H: Host>(host: &mut H, image: &str) -> Option<MemDisk> {
    disk_of(read_image(host, image).ok()?).ok()
}

// That `frames` frames don't suffice for a program.
fn too_few(alloc: Global, frames: u32, program: &str) -> Result<Option<String>, AllocError> {
    Ok(Some(format!(in alloc; "{frames} frames don't suffice for {program}")?))
}

// What is wrong with the file of process 1's program.
fn no_program(alloc: Global, fault: Failure<'_>) -> Result<Option<String>, AllocError> {
    let line = format!(in alloc; "{fault}")?;
    let means = meaning(Topic::Program, line.as_str()).unwrap_or("");
    Ok(Some(format!(in alloc; "{INIT} is no program: {line}: {means}")?))
}

// Why a program isn't executed: what is wrong with its file, or else that `frames` frames don't suffice.
fn of_program(alloc: Global, file: &[u8], frames: u32) -> Result<Option<String>, AllocError> {
    match segments(alloc, file) {
        Ok(_) => too_few(alloc, frames, INIT),
        Err(ProgramFault::Refused(fault)) => no_program(alloc, Failure::Program(fault)),
        Err(ProgramFault::NoMemory) => Ok(None),
    }
}

// Why a machine doesn't boot from an image.
fn of_boot<H: Host>(
    alloc: Global,
    image: &str,
    frames: u32,
    host: &mut H,
) -> Result<Option<String>, AllocError> {
    let Some(disk) = disk_at(host, image) else {
        return Ok(None);
    };
    let told = match read_file(alloc, disk, INIT.as_bytes()) {
        Ok(file) => return of_program(alloc, file.as_slice(), frames),
        Err(OpeningFault::Tree(TreeFault::NotFound)) => "no /init on the image",
        Err(OpeningFault::Tree(TreeFault::IsDir)) => "/init is a directory",
        Err(_) => return Ok(None),
    };
    Ok(Some(String::from_str(alloc, told)?))
}

// The image from which a job boots a machine, and how many frames that has.
fn boot_of<'a>(job: &Job<'a>) -> Option<(&'a str, u32)> {
    match *job {
        Job::Run(words) => Some((words.image, words.frames)),
        Job::Play(words) => Some((words.run.image, words.run.frames)),
        Job::Trace(words) => Some((words.run.image, words.run.frames)),
        Job::Live(words) => Some((words.image, words.frames)),
        Job::Gdb(words) => Some((words.image, words.frames)),
        Job::Explore(words) => Some((words.image, words.frames)),
        _ => None,
    }
}

/// Why process 1 can't begin.
pub(crate) fn of_init<H: Host>(
    alloc: Global,
    job: &Job<'_>,
    host: &mut H,
) -> Result<Option<String>, AllocError> {
    if let Job::Flat(words) = *job {
        return too_few(alloc, words.frames, words.file);
    }
    match boot_of(job) {
        Some((image, frames)) => of_boot(alloc, image, frames, host),
        None => Ok(None),
    }
}

// The image and the path on it that a job names.
fn path_of<'a>(job: &Job<'a>) -> Option<(&'a str, &'a str)> {
    match *job {
        Job::Ls(words) => Some((words.image, words.path)),
        Job::Get(words) => Some((words.image, words.path)),
        Job::Put(words) => Some((words.image, words.path)),
        _ => None,
    }
}

// The path with the name in place of the missing one that is nearest to it.
fn meant(alloc: Global, missing: &Missing<'_>) -> Result<Option<String>, AllocError> {
    let names: Vec<&str> = missing
        .names
        .iter()
        .map(|name| name.as_str())
        .collect(alloc)?;
    let (front, rest) = (missing.front, missing.rest);
    match nearest(alloc, missing.name, names.as_slice())? {
        Some(name) => Ok(Some(format!(in alloc; "{front}/{name}{rest}")?)),
        None => Ok(None),
    }
}

// Whether a name is among these.
fn has_name(names: &[String], name: &str) -> bool {
    for known in names {
        if known.as_str() == name {
            return true;
        }
    }
    false
}

// That a path, each of whose names is there, leads to a device, where that is why a file is not taken out of an image.
fn of_device(alloc: Global, job: &Job<'_>, path: &str) -> Result<Option<String>, AllocError> {
    match job {
        Job::Get(_) => Ok(Some(format!(in alloc; "{path} is a device, which has no bytes")?)),
        _ => Ok(None),
    }
}

/// Which name was meant by a path that leads to nothing, or that it leads to a device.
pub(crate) fn of_path<H: Host>(
    alloc: Global,
    job: &Job<'_>,
    host: &mut H,
) -> Result<Option<String>, AllocError> {
    let Some((image, path)) = path_of(job) else {
        return Ok(None);
    };
    let Some(disk) = disk_at(host, image) else {
        return Ok(None);
    };
    let Ok(Some(missing)) = first_missing(alloc, disk, path) else {
        return Ok(None);
    };
    if has_name(missing.names.as_slice(), missing.name) {
        return of_device(alloc, job, path);
    }
    match meant(alloc, &missing)? {
        Some(meant) => Ok(Some(format!(in alloc; "{path}: did you mean {meant}?")?)),
        None => Ok(None),
    }
}
