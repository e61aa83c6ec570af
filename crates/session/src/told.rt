//! What is shown of a process, as plain numbers.
ghost use Rattle.std.specs.Prelude.{◌≡◌};
ghost use Rattle.session.specs.Told.{call_told, flag, process_told, state_told, status_told};

use machine::{ProcessState, Seen};

/// A process, as it is between two events.
#[repr(C)]
#[derive(Clone, Copy)]
pub struct ProcessTold {
    /// x0 to x31.
    pub registers: [u64; 32],
    pub pc: u64,
    /// In bytes.
    pub size: u64,
    pub pid: u32,
    /// The pid of its parent; 0 for process 1.
    pub parent: u32,
    /// 1 running, 2 ready, 3 waiting, 4 ended.
    pub state: u32,
    /// The number of the call that it waits in; else 0.
    pub call: u32,
    /// The status that it ended with; else 0.
    pub status: i32,
    /// 1 where it was killed, else 0.
    pub killed: u32,
}

/// 1 for yes, 0 for no.
pub fn number(yes: bool) -> u32
    ensures { result ≡ flag yes }
{
    if yes { 1 } else { 0 }
}

// The number of what a process is doing.
fn state(state: ProcessState) -> u32
    ensures { result ≡ state_told state }
{
    match state {
        ProcessState::Running => 1,
        ProcessState::Ready => 2,
        ProcessState::Waiting(_) => 3,
        ProcessState::Zombie(_) => 4,
    }
}

// The number of the call that a process waits in.
fn call(state: ProcessState) -> u32
    ensures { result ≡ call_told state }
{
    match state {
        ProcessState::Waiting(call) => call,
        _ => 0,
    }
}

// The status that a process ended with.
fn status(state: ProcessState) -> i32
    ensures { result ≡ status_told state }
{
    match state {
        ProcessState::Zombie(status) => status,
        _ => 0,
    }
}

/// A process, as plain numbers.
pub fn told(seen: &Seen) -> ProcessTold
    ensures { result ≡ process_told seen.now }
{
    ProcessTold {
        registers: seen.registers,
        pc: seen.pc,
        size: seen.size,
        pid: seen.pid,
        parent: seen.parent,
        state: state(seen.state),
        call: call(seen.state),
        status: status(seen.state),
        killed: number(seen.killed),
    }
}
