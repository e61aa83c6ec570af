//! Processes and times, in words.
ghost use Rattle.std.specs.Prelude.{◌≡◌, ◌++◌, IfOk, OnOk, codes, length};
ghost use Rattle.std.specs.Fmt.{decimal};
ghost use Rattle.gdbreplies.specs.Replies.{description, part_sent};
ghost use Rattle.gdbwire.specs.Hex.{hex_bytes};

use gdbmotions::Names;
use gdbreplies::{push_description, push_part};
use gdbwire::{Part, push_bytes};
use machine::{ProcessState, Seen};
use std::alloc::{AllocError, Global};
use timeline::{Debuggee, Timeline};
use unixmodel::limits::PROCESSES;
use waits::{Waiter, wait_of};

// What a process does.
fn put_state(machine: &Debuggee, seen: &Seen, text: &mut String) -> Result<(), AllocError> {
    let pid = seen.pid;
    match seen.state {
        ProcessState::Running => write!(text, "pid {pid} runs"),
        ProcessState::Ready => write!(text, "pid {pid} is ready"),
        ProcessState::Zombie(status) => write!(text, "pid {pid} ended with {status}"),
        ProcessState::Waiting(_) => match wait_of(machine, pid) {
            Some(wait) => {
                let waiter = Waiter { pid, wait };
                write!(text, "{waiter}")
            }
            None => write!(text, "pid {pid} waits"),
        },
    }
}

// Puts a program's path at the end of a text, where it is text.
fn put_path(path: &[u8], text: &mut String) -> Result<(), AllocError> {
    match str::from_utf8(path) {
        Ok(path) => text.push_str(path),
        Err(_) => text.push_str("?"),
    }
}

/// What a process does, and which program it runs with this path. Of a process that is not there, nothing.
pub fn thread_words(
    alloc: Global,
    machine: &Debuggee,
    pid: u32,
    path: &[u8],
) -> Result<String, AllocError> {
    let mut text = String::new(alloc);
    if let Some(seen) = machine.inspect(pid) {
        put_path(path, &mut text)?;
        text.push_str(": ")?;
        put_state(machine, &seen, &mut text)?;
    }
    Ok(text)
}

// Puts the line of a process at the end of a text.
fn put_line(
    machine: &Debuggee,
    seen: &Seen,
    path: &[u8],
    text: &mut String,
) -> Result<(), AllocError> {
    put_path(path, text)?;
    text.push_str(": ")?;
    put_state(machine, seen, text)?;
    let Seen {
        parent,
        pc,
        size,
        ..
    } = *seen;
    writeln!(text, ", parent {parent}, pc {pc:#x}, {size} bytes")
}

/// A line for each process.
pub fn who_is_there(
    alloc: Global,
    timeline: &Timeline,
    names: &Names,
) -> Result<String, AllocError> {
    let machine = timeline.machine();
    let mut text = String::new(alloc);
    let mut last = 0;
    for _process in 0..PROCESSES {
        let Some(pid) = machine.next_pid(last) else {
            break;
        };
        if let Some(seen) = machine.inspect(pid) {
            put_line(machine, &seen, names.path(pid, timeline.at()), &mut text)?;
        }
        last = pid;
    }
    Ok(text)
}

/// The time.
pub fn time_words(alloc: Global, timeline: &Timeline) -> Result<String, AllocError>
    ensures { IfOk result (λ text. text.bytes.items ≡ codes "after " ++ decimal timeline.now.at ++ codes " of "
        ++ decimal (length timeline.now.events) ++ codes " events\n") }
{
    let (at, count) = (timeline.at(), timeline.count());
    let mut text = String::new(alloc);
    write!(text, "after {at} of {count} events\n")?;
    Ok(text)
}

/// Puts a text at the end, two digits a byte.
pub fn push_text(text: &str, out: &mut Vec<u8>) -> Result<(), AllocError>
    ensures { OnOk result (out.new.items ≡ out.old.items ++ hex_bytes text.now) }
{
    push_bytes(text.as_bytes(), out)
}

/// Puts a part of the description of the registers at the end.
pub fn push_description_part(alloc: Global, part: Part, out: &mut Vec<u8>) -> Result<(), AllocError>
    ensures { OnOk result (out.new.items ≡ out.old.items ++ part_sent description part) }
{
    let mut document = Vec::new(alloc);
    push_description(&mut document)?;
    push_part(document.as_slice(), part, out)
}
