//! What the next instruction of a process loads or stores.
ghost use Rattle.std.specs.Prelude.{◌≡◌, option_and_then};
ghost use Rattle.next_fault.specs.Causes.{memory_shown};
ghost use Rattle.next_fault.specs.DataAccesses.{access_by, access_read, access_shown};
ghost use Rattle.unixmodel.specs.Shown.{shown_process};

use crate::access::word;
use crate::operands::{load_size, store_size};
use crate::traps::sum;
use blockdev::BlockDev;
use isa::{Instr, decode};
use machine::{Machine, Seen};
use sv39::Translate;

/// Bytes that an instruction loads or stores.
#[derive(Clone, Copy, PartialEq, Eq, Debug)]
pub struct DataAccess {
    /// Whether it stores them.
    pub is_store: bool,
    pub address: u64,
    pub size: u64,
}

// What an instruction of this process loads or stores.
fn access(seen: &Seen, instr: Instr) -> Option<DataAccess>
    ensures { result ≡ access_by seen.now.registers instr }
{
    match instr {
        Instr::Load { op, rs1, imm, .. } => Some(DataAccess {
            is_store: false,
            address: sum(seen, rs1, imm),
            size: load_size(op),
        }),
        Instr::Store { op, rs1, imm, .. } => Some(DataAccess {
            is_store: true,
            address: sum(seen, rs1, imm),
            size: store_size(op),
        }),
        _ => None,
    }
}

// What the instruction at the pc of this process loads or stores.
fn access_at<D: BlockDev, T: Translate>(
    machine: &Machine<D, T>,
    pid: u32,
    seen: &Seen,
) -> Option<DataAccess>
    ensures { result ≡ access_read seen.now.registers seen.now.pc (memory_shown machine.now.state pid) }
{
    let word = word(machine, pid, seen.pc)?;
    let instr = decode(word)?;
    access(seen, instr)
}

/// The bytes that the next instruction of the process with a pid would load or store now, if its pages permit that.
/// `None` where it is no load and no store, and where there is no process of this pid.
pub fn data_access<D: BlockDev, T: Translate>(
    machine: &Machine<D, T>,
    pid: u32,
) -> Option<DataAccess>
    ensures { result ≡ option_and_then access_shown (shown_process machine.now.state pid) }
{
    let seen = machine.inspect(pid)?;
    access_at(machine, pid, &seen)
}
