//! Why a program stopped, and what it printed.
ghost use Rattle.std.specs.Prelude.{◌≡◌, ◌++◌, OnOk};
ghost use Rattle.gdbreplies.specs.Replies.{console_sent, end_sent, error_sent, exec_sent, number_of_signal, signal_of};
ghost use Rattle.gdbreplies.specs.Replies.{place_sent, stop_sent, tail_sent, why_sent};

use crate::threads::push_thread;
use gdbwire::{push_byte, push_bytes, push_number};
use std::alloc::AllocError;

/// What a fault is shown as.
#[derive(Clone, Copy, PartialEq, Eq, Debug)]
pub enum Signal {
    /// SIGILL: the word is no instruction.
    Illegal,
    /// SIGTRAP: the instruction is `ebreak`.
    Trap,
    /// SIGBUS: the address is no multiple of the size.
    Bus,
    /// SIGSEGV: the page does not permit that.
    Segmentation,
}

/// Why a program stopped.
#[derive(Clone, Copy, PartialEq, Eq, Debug)]
pub enum Stop {
    /// A step is done.
    Stepped,
    /// It is at a break.
    Broke,
    /// The bytes from this address on have changed.
    Wrote(u64),
    /// It is about to read the bytes from this address on.
    Read(u64),
    /// It is about to read or write the bytes from this address on.
    Accessed(u64),
    /// It has made the process with this pid.
    Forked(u32),
    /// Nothing is before this time.
    Begins,
    /// Nothing is after this time.
    Ends,
    /// Its next instruction faults.
    Faults(Signal),
    /// As long as it may run it ran.
    Interrupted,
}

// The number of a signal.
fn signal_number(signal: Signal) -> u8
    ensures { result ≡ number_of_signal signal }
{
    match signal {
        Signal::Illegal => 4,
        Signal::Trap => 5,
        Signal::Bus => 7,
        Signal::Segmentation => 11,
    }
}

// The number of the signal that a stop is shown as.
fn stop_number(stop: Stop) -> u8
    ensures { result ≡ signal_of stop }
{
    match stop {
        Stop::Faults(signal) => signal_number(signal),
        Stop::Interrupted => 2,
        _ => 5,
    }
}

// Puts a word and an address at the end.
fn push_place(word: &[u8], address: u64, out: &mut Vec<u8>) -> Result<(), AllocError>
    ensures { OnOk result (out.new.items ≡ out.old.items ++ place_sent word.now address) }
{
    out.extend_from_slice(word)?;
    push_number(address, out)?;
    out.extend_from_slice(b";")
}

// Puts the child of a fork at the end.
fn push_child(pid: u32, out: &mut Vec<u8>) -> Result<(), AllocError>
    ensures { OnOk result (out.new.items ≡ out.old.items ++ why_sent (Stop.Forked pid)) }
{
    out.extend_from_slice(b"fork:")?;
    push_thread(pid, out)?;
    out.extend_from_slice(b";")
}

// Puts what is special about a stop at the end.
fn push_why(stop: Stop, out: &mut Vec<u8>) -> Result<(), AllocError>
    ensures { OnOk result (out.new.items ≡ out.old.items ++ why_sent stop) }
{
    match stop {
        Stop::Stepped | Stop::Faults(_) | Stop::Interrupted => Ok(()),
        Stop::Broke => out.extend_from_slice(b"swbreak:;"),
        Stop::Wrote(address) => push_place(b"watch:", address, out),
        Stop::Read(address) => push_place(b"rwatch:", address, out),
        Stop::Accessed(address) => push_place(b"awatch:", address, out),
        Stop::Forked(pid) => push_child(pid, out),
        Stop::Begins => out.extend_from_slice(b"replaylog:begin;"),
        Stop::Ends => out.extend_from_slice(b"replaylog:end;"),
    }
}

// Puts the thread that stopped at the end.
fn push_tail(pid: u32, out: &mut Vec<u8>) -> Result<(), AllocError>
    ensures { OnOk result (out.new.items ≡ out.old.items ++ tail_sent pid) }
{
    out.extend_from_slice(b"thread:")?;
    push_thread(pid, out)?;
    out.extend_from_slice(b";")
}

/// Puts a stop of a process at the end. An error leaves a beginning of it.
pub fn push_stop(pid: u32, stop: Stop, out: &mut Vec<u8>) -> Result<(), AllocError>
    ensures { OnOk result (out.new.items ≡ out.old.items ++ stop_sent pid stop) }
{
    out.extend_from_slice(b"T")?;
    push_byte(stop_number(stop), out)?;
    push_why(stop, out)?;
    push_tail(pid, out)
}

/// Puts at the end that a process runs the program with a path from now on. An error leaves a beginning of it.
pub fn push_exec(pid: u32, path: &[u8], out: &mut Vec<u8>) -> Result<(), AllocError>
    ensures { OnOk result (out.new.items ≡ out.old.items ++ exec_sent pid path.now) }
{
    out.extend_from_slice(b"T05exec:")?;
    push_bytes(path, out)?;
    out.extend_from_slice(b";")?;
    push_tail(pid, out)
}

/// Puts at the end that a process has ended with a status. An error leaves a beginning of it.
pub fn push_end(pid: u32, status: u8, out: &mut Vec<u8>) -> Result<(), AllocError>
    ensures { OnOk result (out.new.items ≡ out.old.items ++ end_sent pid status) }
{
    out.extend_from_slice(b"W")?;
    push_byte(status, out)?;
    out.extend_from_slice(b";process:")?;
    push_number(u64::from(pid), out)
}

/// Puts an error at the end. An error of memory leaves a beginning of it.
pub fn push_error(number: u8, out: &mut Vec<u8>) -> Result<(), AllocError>
    ensures { OnOk result (out.new.items ≡ out.old.items ++ error_sent number) }
{
    out.extend_from_slice(b"E")?;
    push_byte(number, out)
}

/// Puts bytes of the console at the end. An error leaves a beginning of them.
pub fn push_console(bytes: &[u8], out: &mut Vec<u8>) -> Result<(), AllocError>
    ensures { OnOk result (out.new.items ≡ out.old.items ++ console_sent bytes.now) }
{
    out.extend_from_slice(b"O")?;
    push_bytes(bytes, out)
}
