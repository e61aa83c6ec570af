//! What a process waits for, and who can end that.
ghost use Rattle.std.specs.Prelude.{◌++◌, ◌≡◌, IfOk, OnOk, option_map};
ghost use Rattle.jsonrows.specs.Enders.{IsRow, any_ends, call_word, can_end, descriptor_ends, ender, enders};
ghost use Rattle.jsonrows.specs.Enders.{has_other_end, is_child, is_other_end, is_read_end, is_write_end, kind_word};
ghost use Rattle.jsonrows.specs.Enders.{pipe_of, tick_of};
ghost use Rattle.machine.specs.Holdings.{holdings_of, target_told};
ghost use Rattle.machine.specs.Seen.{seen_of};
ghost use Rattle.unixmodel.specs.Shown.{shown_process};
ghost use Rattle.waits.specs.Pids.{listed};
ghost use Rattle.waits.specs.Waits.{wait_of};

use crate::descriptors::opened_at;
use blockdev::BlockDev;
use machine::{Machine, OpenOn};
use serde::Serialize;
use std::alloc::{AllocError, Global};
use sv39::Translate;
use waits::{Wait, wait_of};

/// The calls that wait.
#[derive(Clone, Copy, Serialize)]
#[serde(rename_all = "snake_case")]
enum WaitingCall {
    Wait,
    Read,
    Write,
    Sleep,
}

/// What is waited for.
#[derive(Clone, Copy, Serialize)]
#[serde(rename_all = "snake_case")]
enum WaitKind {
    Child,
    Console,
    Bytes,
    Room,
    Tick,
}

/// What a process waits for: in which call, the processes that can end it, and the pipe or the tick.
#[derive(Drop, Serialize)]
pub struct WaitsRow {
    call: WaitingCall,
    kind: WaitKind,
    pids: Vec<u32>,
    pipe: Option<u64>,
    tick: Option<u32>,
}

// Whether an open file is the write end of a pipe.
fn is_write_end(on: OpenOn, pipe: usize) -> bool
    ensures { result ≡ is_write_end pipe (target_told on) }
{
    match on {
        OpenOn::WriteEnd { pipe: number } => number == pipe,
        OpenOn::File { .. }
        | OpenOn::Console { .. }
        | OpenOn::Device { .. }
        | OpenOn::ReadEnd { .. } => false,
    }
}

// Whether an open file is the read end of a pipe.
fn is_read_end(on: OpenOn, pipe: usize) -> bool
    ensures { result ≡ is_read_end pipe (target_told on) }
{
    match on {
        OpenOn::ReadEnd { pipe: number } => number == pipe,
        OpenOn::File { .. }
        | OpenOn::Console { .. }
        | OpenOn::Device { .. }
        | OpenOn::WriteEnd { .. } => false,
    }
}

// Whether an open file is the other end of the pipe that is waited for.
fn is_other_end(on: OpenOn, wait: Wait) -> bool
    ensures { result ≡ is_other_end wait (target_told on) }
{
    match wait {
        Wait::Bytes(pipe) => is_write_end(on, pipe),
        Wait::Room(pipe) => is_read_end(on, pipe),
        Wait::Child | Wait::Console | Wait::Tick(_) => false,
    }
}

// Whether the open file with a number, where there is one, is the other end of the pipe that is waited for.
fn descriptor_ends<D: BlockDev, T: Translate>(
    machine: &Machine<D, T>,
    file: Option<u8>,
    wait: Wait,
) -> bool
    ensures { result ≡ descriptor_ends machine.now.state wait file }
{
    match opened_at(machine, file) {
        Some(opened) => is_other_end(opened.on, wait),
        None => false,
    }
}

// Whether one of these descriptors is on the other end of the pipe that is waited for.
fn any_ends<D: BlockDev, T: Translate>(
    machine: &Machine<D, T>,
    descriptors: &[Option<u8>],
    wait: Wait,
) -> bool
    ensures { result ≡ any_ends machine.now.state wait descriptors.now }
{
    for file in descriptors {
        if descriptor_ends(machine, *file, wait) {
            return true;
        }
    }
    false
}

// Whether a process has a descriptor on the other end of the pipe that is waited for.
fn has_other_end<D: BlockDev, T: Translate>(machine: &Machine<D, T>, pid: u32, wait: Wait) -> bool
    ensures { result
        ≡ has_other_end machine.now.state wait (option_map holdings_of (shown_process machine.now.state pid)) }
{
    match machine.holdings(pid) {
        Some(holdings) => any_ends(machine, &holdings.descriptors, wait),
        None => false,
    }
}

// Whether the process with a pid is a child of another.
fn is_child<D: BlockDev, T: Translate>(machine: &Machine<D, T>, pid: u32, parent: u32) -> bool
    ensures { result ≡ is_child parent (option_map seen_of (shown_process machine.now.state pid)) }
{
    match machine.inspect(pid) {
        Some(seen) => seen.parent == parent,
        None => false,
    }
}

/// Whether the process with a pid can end what another waits for: it is a child, or has the other end of the pipe.
pub fn can_end<D: BlockDev, T: Translate>(
    machine: &Machine<D, T>,
    pid: u32,
    waiter: u32,
    wait: Wait,
) -> bool
    ensures { result ≡ can_end machine.now.state pid waiter wait }
{
    match wait {
        Wait::Child => is_child(machine, pid, waiter),
        Wait::Bytes(_) | Wait::Room(_) => has_other_end(machine, pid, wait),
        Wait::Console | Wait::Tick(_) => false,
    }
}

// The pid, if the process with it can end the wait.
fn ender<D: BlockDev, T: Translate>(
    machine: &Machine<D, T>,
    pid: u32,
    waiter: u32,
    wait: Wait,
) -> Option<u32>
    ensures { result ≡ ender machine.now.state waiter wait pid }
{
    if can_end(machine, pid, waiter, wait) {
        Some(pid)
    } else {
        None
    }
}

// Puts a pid at the end, if there is one.
fn push(found: Option<u32>, pids: &mut Vec<u32>) -> Result<(), AllocError>
    ensures { OnOk result (pids.new.items ≡ pids.old.items ++ listed found) }
{
    if let Some(pid) = found {
        pids.push(pid)?;
    }
    Ok(())
}

// The processes that can end what one waits for, by their pids.
fn enders<D: BlockDev, T: Translate>(
    alloc: Global,
    machine: &Machine<D, T>,
    waiter: u32,
    wait: Wait,
) -> Result<Vec<u32>, AllocError>
    ensures { IfOk result (λ pids. pids.items ≡ enders machine.now.state waiter wait) }
{
    let mut pids = Vec::new(alloc);
    let mut last = 0;
    while let Some(pid) = machine.next_pid(last) {
        push(ender(machine, pid, waiter, wait), &mut pids)?;
        last = pid;
    }
    Ok(pids)
}

// The call that waits so, and the kind of that.
fn words_of(wait: Wait) -> (WaitingCall, WaitKind)
    ensures { result ≡ (call_word wait, kind_word wait) }
{
    match wait {
        Wait::Child => (WaitingCall::Wait, WaitKind::Child),
        Wait::Console => (WaitingCall::Read, WaitKind::Console),
        Wait::Bytes(_) => (WaitingCall::Read, WaitKind::Bytes),
        Wait::Room(_) => (WaitingCall::Write, WaitKind::Room),
        Wait::Tick(_) => (WaitingCall::Sleep, WaitKind::Tick),
    }
}

// The pipe and the tick that are waited for, where there is one.
fn numbers_of(wait: Wait) -> (Option<u64>, Option<u32>)
    ensures { result ≡ (pipe_of wait, tick_of wait) }
{
    match wait {
        Wait::Bytes(pipe) | Wait::Room(pipe) => (Some(pipe as u64), None),
        Wait::Tick(tick) => (None, Some(tick)),
        Wait::Child | Wait::Console => (None, None),
    }
}

/// The row of what the process with a pid waits for; `None` where it doesn't.
pub fn waits_row<D: BlockDev, T: Translate>(
    alloc: Global,
    machine: &Machine<D, T>,
    pid: u32,
) -> Result<Option<WaitsRow>, AllocError>
    ensures { IfOk result (IsRow machine.now.state pid (wait_of machine.now.state pid)) }
{
    let Some(wait) = wait_of(machine, pid) else {
        return Ok(None);
    };
    let (call, kind) = words_of(wait);
    let (pipe, tick) = numbers_of(wait);
    let pids = enders(alloc, machine, pid, wait)?;
    Ok(Some(WaitsRow {
        call,
        kind,
        pids,
        pipe,
        tick,
    }))
}
