//! What processes hold and wait for, and why their next instructions fault, as plain numbers.
ghost use Rattle.std.specs.Prelude.{◌≡◌};
ghost use Rattle.session.specs.Held.{cause_number, kind_number, number_on, offset_on, opened_told, wait_told};
ghost use Rattle.session.specs.Told.{flag};
ghost use Rattle.unixmodel.specs.Files.{slot};

use crate::told::number;
use machine::{Holdings, OpenOn, Opened, Pending};
use unixmodel::trap::Cause;

/// The open file that a descriptor names.
#[repr(C)]
#[derive(Clone, Copy)]
pub struct OpenedTold {
    /// The number of its node, or of its pipe.
    pub number: u64,
    /// Its own number: descriptors that name the same open file share its offset.
    pub file: u32,
    /// 1 file or directory, 2 console, 3 another device, 4 read end of a pipe, 5 write end.
    pub kind: u32,
    /// In bytes; 0 except in a file or a directory.
    pub offset: u32,
    /// 1 or 0.
    pub readable: u32,
    /// 1 or 0.
    pub writable: u32,
    /// How many descriptors of all processes name it.
    pub descriptors: u32,
}

/// The call that a process waits in; `ProcessTold` has its number.
#[repr(C)]
#[derive(Clone, Copy)]
pub struct WaitTold {
    /// The registers a0 to a2 as the call began.
    pub arguments: [u64; 3],
    /// How many bytes are read or written so far.
    pub done: u64,
    /// The count of ticks as the call began.
    pub since: u32,
}

/// The trap that the next instruction of a process would raise.
#[repr(C)]
#[derive(Clone, Copy)]
pub struct FaultTold {
    /// The target of a jump, the address of a load or a store, else the pc.
    pub address: u64,
    pub pc: u64,
    /// The number of the RISC-V manual.
    pub cause: u32,
}

/// The number of the open file that a descriptor names.
pub fn file_of(holdings: &Holdings, descriptor: usize) -> Option<u8>
    ensures { result ≡ slot holdings.now.descriptors descriptor }
{
    *holdings.descriptors.get(descriptor)?
}

// The number of a kind.
fn kind(on: OpenOn) -> u32
    ensures { result ≡ kind_number on }
{
    match on {
        OpenOn::File { .. } => 1,
        OpenOn::Console { .. } => 2,
        OpenOn::Device { .. } => 3,
        OpenOn::ReadEnd { .. } => 4,
        OpenOn::WriteEnd { .. } => 5,
    }
}

// The number of a node or a pipe.
fn number_of(on: OpenOn) -> u64
    ensures { result ≡ number_on on }
{
    match on {
        OpenOn::File { number, .. } | OpenOn::Console { number } | OpenOn::Device { number } => {
            u64::from(number)
        }
        OpenOn::ReadEnd { pipe } | OpenOn::WriteEnd { pipe } => pipe as u64,
    }
}

// The offset in a file or a directory.
fn offset(on: OpenOn) -> u32
    ensures { result ≡ offset_on on }
{
    match on {
        OpenOn::File { offset, .. } => offset,
        _ => 0,
    }
}

/// An open file with its number.
pub fn open_numbers(file: u8, opened: Opened) -> OpenedTold
    ensures { result ≡ opened_told file opened }
{
    OpenedTold {
        number: number_of(opened.on),
        file: u32::from(file),
        kind: kind(opened.on),
        offset: offset(opened.on),
        readable: number(opened.readable),
        writable: number(opened.writable),
        descriptors: opened.descriptors,
    }
}

/// A call that waits.
pub fn wait(pending: Pending) -> WaitTold
    ensures { result ≡ wait_told pending }
{
    let arguments = pending.args;
    WaitTold {
        arguments,
        done: pending.done,
        since: pending.since,
    }
}

/// The number of a cause.
pub fn cause(cause: Cause) -> u32
    ensures { result ≡ cause_number cause }
{
    match cause {
        Cause::InstructionMisaligned => 0,
        Cause::IllegalInstruction => 2,
        Cause::Breakpoint => 3,
        Cause::LoadMisaligned => 4,
        Cause::StoreMisaligned => 6,
        Cause::EnvironmentCall => 8,
        Cause::InstructionPageFault => 12,
        Cause::LoadPageFault => 13,
        Cause::StorePageFault => 15,
    }
}
