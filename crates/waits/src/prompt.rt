//! Whether a machine waits for a typed line, and whether time alone changes nothing.
ghost use Rattle.std.specs.Prelude.{◌≡◌, true, false};
ghost use Rattle.proc.specs.Next.{IsNextOf};
ghost use Rattle.waits.specs.Prompts.{IsAtPrompt, is_alive, is_quiet, reads_console};

use crate::awaited::{Wait, wait_of};
use blockdev::BlockDev;
use machine::{Machine, ProcessState};
use sv39::Translate;

/// The pid of the first process.
const FIRST: u32 = 1;

// Whether the process with a pid is there and has not ended.
fn is_alive<D: BlockDev, T: Translate>(machine: &Machine<D, T>, pid: u32) -> bool
    ensures { result ≡ is_alive machine.now.state pid }
{
    match machine.inspect(pid) {
        Some(seen) => !matches!(seen.state, ProcessState::Zombie(_)),
        None => false,
    }
}

// The least pid above another of a process that has not ended.
fn next_alive<D: BlockDev, T: Translate>(machine: &Machine<D, T>, after: u32) -> Option<u32>
    ensures { IsNextOf (is_alive machine.now.state) after result }
{
    let mut last = after;
    while let Some(pid) = machine.next_pid(last) {
        if is_alive(machine, pid) {
            return Some(pid);
        }
        last = pid;
    }
    None
}

// Whether the process with a pid waits in `read` of the console.
fn reads_console<D: BlockDev, T: Translate>(machine: &Machine<D, T>, pid: u32) -> bool
    ensures { result ≡ reads_console machine.now.state pid }
{
    matches!(wait_of(machine, pid), Some(Wait::Console))
}

/// Whether the shell waits for a typed line: nobody runs or is ready, a process waits in `read` of the console, and no
/// other is
/// alive but process 1.
pub fn is_at_prompt<D: BlockDev, T: Translate>(machine: &Machine<D, T>) -> bool
    ensures there { result ≡ true → IsAtPrompt machine.now.state }
    ensures elsewhere { result ≡ false → ¬ IsAtPrompt machine.now.state }
{
    if !machine.is_idle() {
        return false;
    }
    match next_alive(machine, FIRST) {
        None => reads_console(machine, FIRST),
        Some(shell) => reads_console(machine, shell) && next_alive(machine, shell).is_none(),
    }
}

/// Whether nobody runs or is ready, and nobody sleeps: steps and ticks alone change nothing then but the count of
/// ticks.
pub fn is_quiet<D: BlockDev, T: Translate>(machine: &Machine<D, T>) -> bool
    ensures { result ≡ is_quiet machine.now.state }
{
    machine.is_idle() && !machine.is_anyone_asleep()
}
