//! A run that a debugger debugs.
ghost use Rattle.std.specs.Prelude.{IfOk};
ghost use Rattle.gdbruns.specs.Debugged.{IsDebugged};
ghost use Rattle.events.specs.Scripts.{script_events};

use crate::link::{Link, LinkFault};
use crate::loaded::loads_the_same;
use crate::recording::write_script;
use blockdev::MemDisk;
use commandline::Gdb;
use events::Command;
use gdbruns::{Limits, RunFault, debug_disk};
use gdbserver::Peer;
use host::{Failure, Front, Host, disk_of, read, read_image, tell};
use run_commands::{programs_named, programs_of, script_of};
use std::alloc::Global;
use std::io::Write;
use symbolizer::Program;
use timeline::Timeline;

/// What happens where there is no script.
const NO_SCRIPT: &[u8] = b"step 1000000\n";

// Serves a debugger of the machine that boots from a disk, at the events of a script: what that leaves.
fn debug_run<'a, P: Peer>(
    alloc: Global,
    words: &Gdb<'a>,
    disk: MemDisk,
    script: &[Command<'_>],
    peer: &mut P,
) -> Result<Timeline, Failure<'a>>
    ensures { IfOk result (IsDebugged disk.bytes words.now.frames (script_events script.now)) }
{
    let limits = Limits {
        frames: words.frames,
        megabytes: words.memory,
    };
    match debug_disk(alloc, disk, limits, script, peer) {
        Ok(timeline) => Ok(timeline),
        Err(RunFault::Boot(fault)) => Err(Failure::Boot(fault)),
        Err(RunFault::NoMemory) => Err(Failure::NoMemory),
    }
}

// Prints which files with symbols are of other programs than those of the image.
fn tell_others<'a, E: Write>(
    alloc: Global,
    own: &[Program],
    named: &[Program],
    stderr: &mut E,
) -> Result<(), Failure<'a>> {
    for (one, other) in own.iter().zip(named.iter()) {
        let Ok(is_same) = loads_the_same(alloc, one.file.as_slice(), other.file.as_slice()) else {
            return Err(Failure::NoMemory);
        };
        if !is_same && let Ok(path) = str::from_utf8(one.path.as_slice()) {
            let _ = writeln!(
                stderr,
                "{path}: the file with symbols is of another program"
            );
        }
    }
    Ok(())
}

// The programs whose files a debugger reads. A line says which of those with symbols are of other programs.
fn programs_told<'a, H: Host, E: Write>(
    alloc: Global,
    words: &Gdb<'a>,
    image: &Front,
    host: &mut H,
    stderr: &mut E,
) -> Result<Vec<Program>, Failure<'a>> {
    let named = programs_named(alloc, image, words.symbols, host)?;
    if words.symbols.is_some() {
        let own = programs_of(alloc, image)?;
        tell_others(alloc, own.as_slice(), named.as_slice(), stderr)?;
    }
    Ok(named)
}

// The bytes of the script.
fn read_script<'a, H: Host>(
    alloc: Global,
    name: Option<&'a str>,
    host: &mut H,
) -> Result<Vec<u8>, Failure<'a>> {
    match name {
        Some(name) => read(host, name),
        None => match NO_SCRIPT.to_vec(alloc) {
            Ok(bytes) => Ok(bytes),
            Err(_) => Err(Failure::NoMemory),
        },
    }
}

// Serves a debugger at standard input and output: what that leaves, and what of these has failed.
fn debug_link<'a, H: Host, W: Write>(
    alloc: Global,
    words: &Gdb<'a>,
    disk: MemDisk,
    script: &[Command<'_>],
    mut link: Link<'_, '_, H, W>,
) -> Result<(Timeline, Option<LinkFault>), Failure<'a>> {
    match debug_run(alloc, words, disk, script, &mut link) {
        Ok(timeline) => Ok((timeline, link.fault())),
        Err(failure) => Err(failure),
    }
}

// Serves a debugger, and writes the script of what that leaves.
fn serve<'a, H: Host, W: Write, E: Write>(
    alloc: Global,
    words: &Gdb<'a>,
    host: &mut H,
    stdout: &mut W,
    stderr: &mut E,
) -> Result<(), Failure<'a>> {
    let image = read_image(host, words.image)?;
    let bytes = read_script(alloc, words.script, host)?;
    let script = script_of(alloc, words.script.unwrap_or(""), bytes.as_slice())?;
    let programs = programs_told(alloc, words, &image, host, stderr)?;
    let disk = disk_of(image)?;
    let link = Link::new(host, stdout, programs);
    let (timeline, fault) = match debug_link(alloc, words, disk, script.as_slice(), link) {
        Ok(debugged) => debugged,
        Err(failure) => return Err(failure),
    };
    write_script(alloc, words.recorded, &timeline, host)?;
    match fault {
        Some(fault) => Err(fault.failure()),
        None => Ok(()),
    }
}

// Prints the command that gives a machine the same events, where their script was written.
fn tell_script<E: Write>(words: &Gdb<'_>, stderr: &mut E) {
    if let Some(script) = words.recorded {
        let (frames, image) = (words.frames, words.image);
        let _ = writeln!(stderr, "xv6 run --frames {frames} {image} {script}");
    }
}

/// Boots a machine from an image, serves a debugger at standard input and output, and returns the status to exit with.
/// The script of what that leaves is written at the end.
pub fn perform<H: Host, W: Write, E: Write>(
    alloc: Global,
    words: Gdb<'_>,
    host: &mut H,
    stdout: &mut W,
    stderr: &mut E,
) -> u8 {
    match serve(alloc, &words, host, stdout, stderr) {
        Ok(()) => {
            tell_script(&words, stderr);
            0
        }
        Err(failure) => tell(&failure, stderr),
    }
}
