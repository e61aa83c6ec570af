//! The processes that gdb sees.
ghost use Rattle.std.specs.Prelude.{◌++◌, ◌≡◌, IfOk, IfSome, OnOk, option_map, true};
ghost use Rattle.gdbanswers.specs.Alive.{all_held, held, is_alive};
ghost use Rattle.gdbmotions.specs.Points.{holds};
ghost use Rattle.kernel.specs.Idle.{running_pid};
ghost use Rattle.machine.specs.Seen.{seen_of};
ghost use Rattle.unixmodel.specs.Shown.{shown_process};
ghost use Rattle.waits.specs.Pids.{listed};

use gdbmotions::Points;
use machine::ProcessState;
use std::alloc::{AllocError, Global};
use timeline::Debuggee;
use unixmodel::limits::PROCESSES;

/// Whether there is a process with a pid that has not ended.
pub fn is_alive(machine: &Debuggee, pid: u32) -> bool
    ensures { result ≡ is_alive (option_map seen_of (shown_process machine.now.state pid)) }
{
    match machine.inspect(pid) {
        Some(seen) => !matches!(seen.state, ProcessState::Zombie(_)),
        None => false,
    }
}

// A process that has not ended and that gdb holds, by its pid.
fn held(machine: &Debuggee, points: &Points, pid: u32) -> Option<u32>
    ensures { result ≡ held machine.now.state points.now.released.items pid }
{
    if is_alive(machine, pid) && points.holds(pid) {
        Some(pid)
    } else {
        None
    }
}

// Puts a pid at the end, if there is one.
fn push(found: Option<u32>, pids: &mut Vec<u32>) -> Result<(), AllocError>
    ensures { OnOk result (pids.new.items ≡ pids.old.items ++ listed found) }
{
    if let Some(pid) = found {
        pids.push(pid)?;
    }
    Ok(())
}

/// The pids of the processes that have not ended and that gdb holds, in their order.
pub fn pids_of(alloc: Global, machine: &Debuggee, points: &Points) -> Result<Vec<u32>, AllocError>
    ensures { IfOk result (λ pids. pids.items ≡ all_held machine.now.state points.now.released.items) }
{
    let mut pids = Vec::new(alloc);
    let mut last = 0;
    while let Some(pid) = machine.next_pid(last) {
        push(held(machine, points, pid), &mut pids)?;
        last = pid;
    }
    Ok(pids)
}

// The first process that gdb holds; process 1 where it holds none.
fn first(machine: &Debuggee, points: &Points) -> u32 {
    let mut last = 0;
    for _process in 0..PROCESSES {
        let Some(pid) = machine.next_pid(last) else {
            break;
        };
        if is_alive(machine, pid) && points.holds(pid) {
            return pid;
        }
        last = pid;
    }
    1
}

/// The process that is meant where any is: the one that runs, if gdb holds it, and else the first that it holds.
pub fn current(machine: &Debuggee, points: &Points) -> u32
    ensures { IfSome (running_pid machine.now.state) (λ pid. holds points.now.released.items pid ≡ true
        → result ≡ pid) }
{
    let Some(pid) = machine.running() else {
        return first(machine, points);
    };
    if points.holds(pid) {
        pid
    } else {
        first(machine, points)
    }
}
