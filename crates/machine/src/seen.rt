//! What a machine reports of its processes.

ghost use Rattle.std.specs.Prelude.{◌≡◌, Some};
ghost use Rattle.machine.specs.Seen.{number_of, state_seen, told_as};
ghost use Rattle.unixmodel.specs.Calls.{call_of};

use proc::Process;
use unixmodel::call::Call;
use unixmodel::process::Mode;

/// A process between two events.
#[derive(Clone, Copy, PartialEq, Eq, Debug)]
pub struct Seen {
    pub pid: u32,
    /// The pid of its parent; 0 for process 1.
    pub parent: u32,
    /// x0 to x31.
    pub registers: [u64; 32],
    pub pc: u64,
    /// In bytes.
    pub size: u64,
    /// Whether it was killed. The mark stays once it has ended, and a zombie that is killed gets it too.
    pub killed: bool,
    pub state: ProcessState,
}

/// What a process is doing.
#[derive(Clone, Copy, PartialEq, Eq, Debug)]
pub enum ProcessState {
    Running,
    /// In user state, and not running.
    Ready,
    /// In the call with this number.
    Waiting(u32),
    /// Ended with this status, and not collected.
    Zombie(i32),
}

// The number of a call.
fn number(call: Call) -> u32
    ensures number { result ≡ number_of call }
    ensures call { call_of result ≡ Some call }
{
    match call {
        Call::Fork => 1,
        Call::Exit => 2,
        Call::Wait => 3,
        Call::Pipe => 4,
        Call::Read => 5,
        Call::Kill => 6,
        Call::Exec => 7,
        Call::Fstat => 8,
        Call::Chdir => 9,
        Call::Dup => 10,
        Call::Getpid => 11,
        Call::Sbrk => 12,
        Call::Sleep => 13,
        Call::Uptime => 14,
        Call::Open => 15,
        Call::Write => 16,
        Call::Mknod => 17,
        Call::Unlink => 18,
        Call::Link => 19,
        Call::Mkdir => 20,
        Call::Close => 21,
    }
}

// What is reported of a mode.
fn state(mode: Mode) -> ProcessState
    ensures { result ≡ state_seen mode }
{
    match mode {
        Mode::Running => ProcessState::Running,
        Mode::Ready => ProcessState::Ready,
        Mode::Waiting(pending) => ProcessState::Waiting(number(pending.number)),
        Mode::Zombie(status) => ProcessState::Zombie(status),
    }
}

/// What is reported of a process with a size of `size` bytes.
pub fn told(process: &Process, size: u64) -> Seen
    ensures { result ≡ told_as process.now size }
{
    Seen {
        pid: process.pid,
        parent: process.parent,
        registers: process.registers,
        pc: process.pc,
        size,
        killed: process.killed,
        state: state(process.mode),
    }
}
