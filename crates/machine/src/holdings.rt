//! What a machine reports of what its processes hold, and of its open files.

ghost use Rattle.std.specs.Prelude.{◌≡◌};
ghost use Rattle.machine.specs.Holdings.{held_as, opened_as, pending_in};

use files::{End, OpenFile, Target};
use proc::Process;
use unixmodel::process::{Mode, Pending};

/// What a process holds between two events.
#[derive(Clone, Copy, PartialEq, Eq, Debug)]
pub struct Holdings {
    /// Each free, or the number of an open file.
    pub descriptors: [Option<u8>; 16],
    /// The number of the working directory; 0 once the process has ended.
    pub directory: u32,
    /// The call that it waits in.
    pub pending: Option<Pending>,
}

/// What an open file is open on.
#[derive(Clone, Copy, PartialEq, Eq, Debug)]
pub enum OpenOn {
    /// The file or the directory with this number, from an offset on, in bytes.
    File { number: u32, offset: u32 },
    /// The console, which is the device of major 1.
    Console { number: u32 },
    /// Any other device.
    Device { number: u32 },
    /// The read end of a pipe.
    ReadEnd { pipe: usize },
    /// The write end of a pipe.
    WriteEnd { pipe: usize },
}

/// An open file, which all descriptors that name it share.
#[derive(Clone, Copy, PartialEq, Eq, Debug)]
pub struct Opened {
    pub on: OpenOn,
    pub readable: bool,
    pub writable: bool,
    /// How many descriptors of all processes name it.
    pub descriptors: u32,
}

// The call that a process waits in.
fn pending(mode: Mode) -> Option<Pending>
    ensures { result ≡ pending_in mode }
{
    match mode {
        Mode::Waiting(pending) => Some(pending),
        _ => None,
    }
}

/// What is reported of what a process holds.
pub fn held(process: &Process) -> Holdings
    ensures { result ≡ held_as process.now }
{
    Holdings {
        descriptors: process.descriptors,
        directory: process.directory,
        pending: pending(process.mode),
    }
}

/// What is reported of an open file that `descriptors` descriptors name.
pub fn described(file: OpenFile, descriptors: u32) -> Opened
    ensures { result ≡ opened_as file descriptors }
{
    let on = match file.target {
        Target::File { number, offset } => OpenOn::File { number, offset },
        Target::Console { number } => OpenOn::Console { number },
        Target::Device { number } => OpenOn::Device { number },
        Target::Pipe {
            pipe,
            end: End::Read,
        } => OpenOn::ReadEnd { pipe },
        Target::Pipe {
            pipe,
            end: End::Write,
        } => OpenOn::WriteEnd { pipe },
    };
    Opened {
        on,
        readable: file.readable,
        writable: file.writable,
        descriptors,
    }
}
