//! How a machine begins.
ghost use Rattle.std.specs.Prelude.{◌≡◌, ◌<◌, ◌≤◌, ◌⊎◌, ◌↔◌, Some, None, IfOk, IsErrOf, OnErr};
ghost use Rattle.machine.specs.Flat.{LoadsFlat, RefusesFlat, first, first_files, first_table};
ghost use Rattle.machine.specs.View.{IsUp};
ghost use Rattle.mount.specs.Mounted.{IsFlat};
ghost use Rattle.spaces.specs.Spaces.{no_spaces};
ghost use Rattle.unixmodel.specs.Start.{start_flat};

use crate::fault::BootFault;
use crate::machine::Machine;
use crate::memory::empty;
use blockdev::{BlockDev, MemDisk};
use calls::Kernel;
use files::{Files, OpenFile, Target};
use mount::mount_flat;
use proc::{Process, Table};
use ram::FRAME_SIZE;
use spaces::Spaces;
use std::alloc::{AllocError, Global};
use sv39::{Plain, Translate};
use tree::Tree;
use unixmodel::limits::{DESCRIPTORS, FEWEST_FRAMES, MOST_FRAMES};
use unixmodel::process::Mode;
use vm::{Perm, pages_in};

/// The slot of process 1.
const FIRST: usize = 0;

/// The number of the open file that the descriptors of process 1 name.
const CONSOLE: usize = 0;

/// The number of the root, in which process 1 works.
const ROOT: usize = 1;

/// The number of the console among the files of a machine without a disk.
const CONSOLE_NODE: usize = 2;

/// The marks of the pages of a flat program.
const SEGMENT: Perm = Perm {
    w: true,
    x: true,
    u: true,
};

/// The marks of the guard page below a stack: no program may use it.
const GUARD: Perm = Perm {
    w: true,
    x: false,
    u: false,
};

/// The marks of a stack's page.
const STACK: Perm = Perm {
    w: true,
    x: false,
    u: true,
};

// Puts a flat program into the first of the address spaces of a machine that has none: its bytes from address 0 on, a
// guard page, and a page for the stack. Returns whether the frames suffice.
fn load<T: Translate>(spaces: &mut Spaces<T>, bytes: &[u8]) -> bool
    requires { spaces.old ≡ no_spaces spaces.old.frames }
    ensures { LoadsFlat bytes.now spaces.old spaces.new result }
{
    let page = FRAME_SIZE as u64;
    let pages = pages_in(bytes.len() as u64);
    if !spaces.create(FIRST) {
        return false;
    }
    if !spaces.grow(FIRST, pages * page, SEGMENT) {
        return false;
    }
    spaces.fill(FIRST, 0, bytes);
    if !spaces.grow(FIRST, page, GUARD) {
        return false;
    }
    spaces.grow(FIRST, page, STACK)
}

// Process 1 with a size of `size` bytes, about to execute its first instruction with no arguments: sp and a1 hold the
// address of the 0 word on its stack.
#[tactic(auto, unfolding(unixmodel::specs::Memory::zeros, unixmodel::specs::Start::flat_descriptors, unixmodel::specs::Files::free_slots))]
fn first(size: u64) -> Process
    requires { 16 ≤ size }
    ensures { result ≡ first size }
{
    let sp = size - 16;
    let mut registers = [0; 32];
    registers[2] = sp;
    registers[11] = sp;
    let mut descriptors = [None; DESCRIPTORS];
    descriptors[0] = Some(0);
    descriptors[1] = Some(0);
    descriptors[2] = Some(0);
    Process {
        pid: 1,
        parent: 0,
        registers,
        pc: 0,
        descriptors,
        directory: 1,
        killed: false,
        mode: Mode::Ready,
    }
}

// The table with process 1 alone.
fn first_table(alloc: Global, size: u64) -> Result<Table, AllocError>
    requires { 16 ≤ size }
    ensures { IfOk result (λ table. table ≡ first_table size) }
{
    let mut table = Table::starting_at(alloc, 1)?;
    let _seat = table.alloc(first(size));
    Ok(table)
}

// The console is open, and the descriptors 0, 1 and 2 of process 1 name it.
fn first_files() -> Files
    ensures { result ≡ first_files }
{
    let mut files = Files::new();
    let _console = files.open(OpenFile {
        target: Target::Console { number: 2 },
        readable: true,
        writable: true,
    });
    files.dup(CONSOLE);
    files.dup(CONSOLE);
    files
}

/// A machine without a disk whose process 1 executes a flat program: these bytes, loaded at address 0, of which the
/// first is the first instruction. Its descriptors 0, 1 and 2 are the console.
///
/// `FrameCount` where `frames` is below 64 or above 32768, `NoInit` where the frames don't suffice for the program, and
/// `NoMemory` where the host has no memory for the frames or for the words that it decodes.
pub fn boot_flat(
    alloc: Global,
    bytes: &[u8],
    frames: u32,
) -> Result<Machine<MemDisk, Plain>, BootFault>
    ensures booted { IfOk result (λ m. start_flat bytes.now frames ≡ Some m.state) }
    ensures up { IfOk result IsUp }
    ensures count { IsErrOf result BootFault.FrameCount ↔ ((frames < 64) ⊎ (32768 < frames)) }
    ensures no_init { IsErrOf result BootFault.NoInit → start_flat bytes.now frames ≡ None }
    ensures only { RefusesFlat result }
{
    boot_flat_with(alloc, bytes, Plain::new(), frames)
}

/// `boot_flat` with a translator, which is fenced first: it may hold anything.
pub fn boot_flat_with<T: Translate>(
    alloc: Global,
    bytes: &[u8],
    translator: T,
    frames: u32,
) -> Result<Machine<MemDisk, T>, BootFault>
    ensures booted { IfOk result (λ m. start_flat bytes.now frames ≡ Some m.state) }
    ensures up { IfOk result IsUp }
    ensures count { IsErrOf result BootFault.FrameCount ↔ ((frames < 64) ⊎ (32768 < frames)) }
    ensures no_init { IsErrOf result BootFault.NoInit → start_flat bytes.now frames ≡ None }
    ensures only { RefusesFlat result }
{
    if frames < FEWEST_FRAMES || frames > MOST_FRAMES {
        return Err(BootFault::FrameCount);
    }
    let Ok(tree) = mount_flat(alloc) else {
        return Err(BootFault::NoMemory);
    };
    boot_flat_on(alloc, bytes, tree, translator, frames)
}

/// `boot_flat_with` over files in use that are a root and the console, on any device.
pub fn boot_flat_on<D: BlockDev, T: Translate>(
    alloc: Global,
    bytes: &[u8],
    mut tree: Tree<D>,
    translator: T,
    frames: u32,
) -> Result<Machine<D, T>, BootFault>
    requires flat { IsFlat tree }
    requires count { (64 ≤ frames) × (frames ≤ 32768) }
    ensures booted { IfOk result (λ m. start_flat bytes.now frames ≡ Some m.state) }
    ensures up { IfOk result IsUp }
    ensures identity { IfOk result (λ m. m.identity ≡ tree.identity) }
    ensures no_init { IsErrOf result BootFault.NoInit → start_flat bytes.now frames ≡ None }
    ensures only { OnErr result (IsErrOf result BootFault.NoInit ⊎ IsErrOf result BootFault.NoMemory) }
{
    let Ok(mut spaces) = empty(alloc, translator, frames) else {
        return Err(BootFault::NoMemory);
    };
    if !load(&mut spaces, bytes) {
        return Err(BootFault::NoInit);
    }
    let Ok(table) = first_table(alloc, spaces.size(FIRST)) else {
        return Err(BootFault::NoMemory);
    };
    tree.hold(ROOT);
    tree.hold(CONSOLE_NODE);
    let kernel = Kernel::new(tree, table, spaces, first_files());
    let machine = Machine::new(kernel);
    Ok(machine)
}
