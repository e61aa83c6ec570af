//! The trap that the next instruction of a process would raise.
//!
//! From the RISC-V unprivileged manual.
//! The address that is returned is the target of a jump, the accessed address of a load or store, and else the pc.
//! An address that is no multiple of the size comes before a page fault.
ghost use Rattle.std.specs.Prelude.{◌≡◌, ◌+◌, Some, option_and_then, slice_index, ℕ, List};
ghost use Rattle.next_fault.specs.Causes.{StoreTraps, memory_shown, trap_of, trap_shown};
ghost use Rattle.unixmodel.specs.Cycle.{act_word};
ghost use Rattle.unixmodel.specs.Meaning.{act, branch, jump, load};
ghost use Rattle.unixmodel.specs.Numbers.{extend, plus};
ghost use Rattle.unixmodel.specs.Shown.{shown_process};

use crate::access::{allows, word};
use crate::operands::{branch_offset, immediate, is_taken, jump_offset, load_size, store_size};
use blockdev::BlockDev;
use isa::{Instr, decode};
use machine::{Machine, Seen};
use sv39::Translate;
use unixmodel::instr::{Imm12, LoadOp, Reg, StoreOp};
use unixmodel::trap::{Access, Cause, Trap};

fn trap(cause: Cause, address: u64) -> Option<Trap>
    ensures { result ≡ Some (record { cause = cause; address = address }) }
{
    Some(Trap { cause, address })
}

// A jump to this address.
fn jump(target: u64) -> Option<Trap>
    ensures { (regs : List ℕ) (pc rd : ℕ) → result ≡ trap_of (jump regs pc rd target) }
{
    if target % 4 == 0 {
        return None;
    }
    trap(Cause::InstructionMisaligned, target)
}

// A branch to this address: only one that is taken can have a wrong target.
fn branch(taken: bool, target: u64) -> Option<Trap>
    ensures { (regs : List ℕ) (pc : ℕ) → result ≡ trap_of (branch regs pc taken target) }
{
    if !taken || target % 4 == 0 {
        return None;
    }
    trap(Cause::InstructionMisaligned, target)
}

// A load from this address.
fn load<D: BlockDev, T: Translate>(
    machine: &Machine<D, T>,
    pid: u32,
    op: LoadOp,
    address: u64,
) -> Option<Trap>
    ensures { (regs : List ℕ) (pc rd : ℕ)
        → result ≡ trap_of (load regs pc (memory_shown machine.now.state pid) op rd address) }
{
    if address % load_size(op) != 0 {
        return trap(Cause::LoadMisaligned, address);
    }
    if allows(machine, pid, address, Access::Load) {
        return None;
    }
    trap(Cause::LoadPageFault, address)
}

// A store to this address.
fn store<D: BlockDev, T: Translate>(
    machine: &Machine<D, T>,
    pid: u32,
    op: StoreOp,
    address: u64,
) -> Option<Trap>
    ensures { StoreTraps (memory_shown machine.now.state pid) op address result }
{
    if address % store_size(op) != 0 {
        return trap(Cause::StoreMisaligned, address);
    }
    if allows(machine, pid, address, Access::Store) {
        return None;
    }
    trap(Cause::StorePageFault, address)
}

fn get(seen: &Seen, r: Reg) -> u64
    ensures { result ≡ slice_index seen.now.registers r }
{
    seen.registers[r.bits() as usize]
}

/// The sum of a register and an immediate.
pub(crate) fn sum(seen: &Seen, rs1: Reg, imm: Imm12) -> u64
    ensures { result ≡ plus (slice_index seen.now.registers rs1) (extend 12 imm) }
{
    get(seen, rs1).wrapping_add(immediate(imm))
}

// An instruction of this process, at its pc.
#[tactic(auto, unfolding(unixmodel::specs::Meaning::act))]
fn act<D: BlockDev, T: Translate>(
    machine: &Machine<D, T>,
    pid: u32,
    seen: &Seen,
    instr: Instr,
) -> Option<Trap>
    ensures { result ≡ trap_of (act instr seen.now.registers seen.now.pc (memory_shown machine.now.state pid)) }
{
    match instr {
        Instr::Jal { offset, .. } => jump(seen.pc.wrapping_add(jump_offset(offset))),
        Instr::Jalr { rs1, imm, .. } => jump(sum(seen, rs1, imm) / 2 * 2),
        Instr::Branch {
            op,
            rs1,
            rs2,
            offset,
        } => {
            let taken = is_taken(op, get(seen, rs1), get(seen, rs2));
            branch(taken, seen.pc.wrapping_add(branch_offset(offset)))
        }
        Instr::Load { op, rs1, imm, .. } => load(machine, pid, op, sum(seen, rs1, imm)),
        Instr::Store { op, rs1, imm, .. } => store(machine, pid, op, sum(seen, rs1, imm)),
        Instr::Ebreak => trap(Cause::Breakpoint, seen.pc),
        _ => None,
    }
}

// What a word spells, at the pc of this process.
fn act_word<D: BlockDev, T: Translate>(
    machine: &Machine<D, T>,
    pid: u32,
    seen: &Seen,
    spelled: Option<Instr>,
) -> Option<Trap>
    ensures { result ≡ trap_of (act_word spelled seen.now.registers seen.now.pc (memory_shown machine.now.state pid)) }
{
    match spelled {
        None => trap(Cause::IllegalInstruction, seen.pc),
        Some(instr) => act(machine, pid, seen, instr),
    }
}

/// The trap that the next instruction of the process with a pid would raise now.
/// It is the one in which the process's cycle ends, if that is no call.
/// `None` where it would not fault, and where there is no process of this pid.
pub fn cause<D: BlockDev, T: Translate>(machine: &Machine<D, T>, pid: u32) -> Option<Trap>
    ensures { result ≡ option_and_then trap_shown (shown_process machine.now.state pid) }
{
    let seen = machine.inspect(pid)?;
    match word(machine, pid, seen.pc) {
        None => trap(Cause::InstructionPageFault, seen.pc),
        Some(word) => act_word(machine, pid, &seen, decode(word)),
    }
}
