//! How a machine begins with the program `/init` of its disk.

ghost use Rattle.std.specs.Prelude.{◌≡◌, ◌<◌, ◌≤◌, ◌^◌, ◌⊎◌, ◌↔◌, IfErr, IfOk, IsErrOf, false};
ghost use Rattle.imagerules.specs.Content.{image_of};
ghost use Rattle.machine.specs.Booted.{FindsInit, IsBegun, IsBooted, IsNotBegun, IsUnbooted, IsUnheld, PutsInit};
ghost use Rattle.machine.specs.Booted.{bare_of, boot_fault, first_of, first_places};
ghost use Rattle.name_rules.specs.Rules.{KeepsTree};
ghost use Rattle.programs.specs.Placed.{Leaves};
ghost use Rattle.spaces.specs.Spaces.{no_spaces};
ghost use Rattle.tree.specs.Tree.{Serves};

use crate::fault::BootFault;
use crate::machine::Machine;
use crate::memory::empty;
use blockdev::{BlockDev, DeviceFault};
use calls::Kernel;
use files::Files;
use image::ImageFault;
use mount::mount;
use proc::{Process, Table};
use programs::{Arguments, Program, load, one_argument, read_program};
use spaces::Spaces;
use std::alloc::{AllocError, Global};
use sv39::Translate;
use tree::Tree;
use unixmodel::limits::{DESCRIPTORS, FEWEST_FRAMES, MOST_FRAMES};
use unixmodel::process::Mode;

/// The slot of process 1.
const FIRST: usize = 0;

/// The number of the root, in which process 1 works.
const ROOT: usize = 1;

/// What process 1 executes.
#[derive(Clone, Copy)]
pub(crate) struct Init {
    /// The number of its file.
    pub(crate) number: usize,
    /// What the headers of the file say.
    pub(crate) program: Program,
    /// Its arguments: its path alone.
    pub(crate) arguments: Arguments,
}

// What process 1 executes of `/init`. `None`: it can't be executed, or `frames` frames don't suffice.
fn read_init<D: BlockDev>(tree: &mut Tree<D>, frames: u32) -> Result<Option<Init>, DeviceFault>
    requires up { tree.old.failed ≡ false }
    requires rules { KeepsTree tree.old.files }
    ensures { Serves tree.old tree.new result
        (λ told. Leaves tree.old tree.new told × FindsInit tree.old.files frames told) }
{
    let Some(number) = tree.resolve(ROOT, b"/init")? else {
        return Ok(None);
    };
    let Some(program) = read_program(tree, number)? else {
        return Ok(None);
    };
    // Process 1 takes one frame more than a program that replaces another: that of its registers.
    if program.frames() >= u64::from(frames) {
        return Ok(None);
    }
    let Some(arguments) = one_argument(b"/init\0", program.pages) else {
        return Ok(None);
    };
    Ok(Some(Init {
        number,
        program,
        arguments,
    }))
}

// Puts `/init` in the first slot, where there is no process yet. `None`: it can't be executed, or the frames don't
// suffice.
fn put_init<D: BlockDev, T: Translate>(
    tree: &mut Tree<D>,
    spaces: &mut Spaces<T>,
) -> Result<Option<Init>, DeviceFault>
    requires up { tree.old.failed ≡ false }
    requires rules { KeepsTree tree.old.files }
    requires none { spaces.old ≡ no_spaces spaces.old.frames }
    requires few { spaces.old.frames ≤ 32768 }
    ensures serves { Serves tree.old tree.new result (Leaves tree.old tree.new) }
    ensures put { IfOk result (PutsInit tree.old.files spaces.old.frames spaces.new) }
{
    let Some(init) = read_init(tree, spaces.free())? else {
        return Ok(None);
    };
    if !spaces.create(FIRST) {
        return Ok(None);
    }
    load(
        tree,
        spaces,
        FIRST,
        init.number,
        &init.program,
        &init.arguments,
    )?;
    Ok(Some(init))
}

// Process 1, about to execute its first instruction with its arguments.
#[tactic(auto, unfolding(unixmodel::specs::Memory::zeros, unixmodel::specs::Outcome::no_descriptors, unixmodel::specs::Files::free_slots))]
fn first(init: &Init) -> Process
    ensures { result ≡ first_of (bare_of init.now) }
{
    let mut registers = [0; 32];
    registers[2] = init.arguments.sp;
    registers[10] = init.arguments.count;
    registers[11] = init.arguments.sp;
    Process {
        pid: 1,
        parent: 0,
        registers,
        pc: init.program.header.entry,
        descriptors: [None; DESCRIPTORS],
        directory: 1,
        killed: false,
        mode: Mode::Ready,
    }
}

// The table with process 1 alone.
fn first_table(alloc: Global, init: &Init) -> Result<Table, AllocError>
    ensures { IfOk result (λ table. table ≡ first_places (bare_of init.now)) }
{
    let mut table = Table::starting_at(alloc, 1)?;
    let _seat = table.alloc(first(init));
    Ok(table)
}

// A machine over files in use that nobody holds, whose process 1 executes `/init`.
fn boot_on<D: BlockDev, T: Translate>(
    alloc: Global,
    mut tree: Tree<D>,
    translator: T,
    frames: u32,
) -> Result<Machine<D, T>, BootFault>
    requires unheld { IsUnheld tree }
    requires few { frames ≤ 32768 }
    ensures begun { IfOk result (IsBegun tree frames) }
    ensures refused { IfErr result (IsNotBegun D.identity D.failures tree frames) }
{
    let Ok(mut spaces) = empty(alloc, translator, frames) else {
        return Err(BootFault::NoMemory);
    };
    match put_init(&mut tree, &mut spaces) {
        Ok(Some(init)) => {
            let Ok(table) = first_table(alloc, &init) else {
                return Err(BootFault::NoMemory);
            };
            tree.is_whole();
            tree.hold(ROOT);
            let files = Files::new();
            let kernel = Kernel::new(tree, table, spaces, files);
            let machine = Machine::new(kernel);
            Ok(machine)
        }
        Ok(None) => Err(BootFault::NoInit),
        Err(_) => {
            // The device's count reports the failure.
            let _device = tree.device();
            Err(BootFault::Device)
        }
    }
}

// Why a machine doesn't boot where its disk has no files.
fn unmounted(fault: ImageFault) -> BootFault
    ensures { result ≡ boot_fault fault }
{
    match fault {
        ImageFault::Device => BootFault::Device,
        ImageFault::NoMemory => BootFault::NoMemory,
        _ => BootFault::Image(fault),
    }
}

/// A machine over a disk whose image denotes files, and a translator, which is fenced first: it may hold anything.
/// Process 1 executes the file `/init` with the one argument `/init`; it has no descriptors, and works in the root.
///
/// `FrameCount` where `frames` is below 64 or above 32768, `Image` where the check refuses the image, `Device` where an
/// access of the device failed, `NoMemory` where the host has no memory, and else `NoInit` where `/init` can't be
/// executed: there is no such file, it is no program, or the frames don't suffice.
pub fn boot<D: BlockDev, T: Translate>(
    alloc: Global,
    disk: D,
    translator: T,
    frames: u32,
) -> Result<Machine<D, T>, BootFault>
    ensures booted { IfOk result (IsBooted (image_of (D.content disk)) (D.identity disk) (D.failures disk) frames) }
    ensures refused { IfErr result (IsUnbooted D.identity D.failures disk (image_of (D.content disk)) frames) }
    ensures count { IsErrOf result BootFault.FrameCount ↔ ((frames < 64) ⊎ (32768 < frames)) }
{
    if frames < FEWEST_FRAMES || frames > MOST_FRAMES {
        return Err(BootFault::FrameCount);
    }
    match mount(alloc, disk) {
        Ok(tree) => boot_on(alloc, tree, translator, frames),
        Err(fault) => Err(unmounted(fault)),
    }
}
