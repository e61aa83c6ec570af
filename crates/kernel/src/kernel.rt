//! The kernel's own steps: each touches the table, the spaces and the ticks, and keeps them together.
ghost use Rattle.std.specs.Prelude.{false, ◌≡◌, ◌≢◌, ◌+◌, ◌++◌, ◌∷◌, ◌<◌, ◌≤◌, ◌%◌, ◌^◌, length, Some, None, true};
ghost use Rattle.std.specs.Prelude.{is_some, IfSome, IfNone, slice_index, unwrap_or, [], if◌then◌else◌, ◌==◌};
ghost use Rattle.std.specs.Prelude.{option_map, OnOk, OnErr, Ok, Err};
ghost use Rattle.std.specs.Io.KnownBytes.{Appends};
ghost use Rattle.std.specs.Option.{option_copied};
ghost use Rattle.kernel.specs.Kernel.{Executes, HasCurrent, HasEnded, answered, argument, begun, blocked, current};
ghost use Rattle.kernel.specs.Kernel.{current_descriptors, current_space, entered, idle, left_as, loaded, marked};
ghost use Rattle.kernel.specs.Kernel.{on_hart, picked, started, state_of, ticked, typed, waking};
ghost use Rattle.kernel.specs.Sound.{CanRun, IsAwaiting, IsKernel, IsPending, can_answer};
ghost use Rattle.kernel.specs.Sound.{CanEnd};
ghost use Rattle.kernel.specs.Ready.{awaited, seen};
ghost use Rattle.kernel.specs.Descriptors.{all_closed, standing};
ghost use Rattle.kernel.specs.Holding.{gone_nodes};
ghost use Rattle.kernel.specs.Watch.{Watches, ended_in};
ghost use Rattle.files.specs.Pipes.{IsPiped};
ghost use Rattle.console.specs.Output.{AppendsBeginning};
ghost use Rattle.files.specs.Meant.{end_of, target_of};
ghost use Rattle.files.specs.Places.{has_end, opens_of};
ghost use Rattle.proc.specs.Places.{has_pid, place_where};
ghost use Rattle.spaces.specs.Spaces.{cycle_at};
ghost use Rattle.tree.specs.Tree.{Serves};
ghost use Rattle.unixmodel.specs.Console.{key};
ghost use Rattle.unixmodel.specs.Failures.{Rises};
ghost use Rattle.unixmodel.specs.Files.{slot};
ghost use Rattle.unixmodel.specs.Memory.{can_write, reach, read_bytes};
ghost use Rattle.unixmodel.specs.declared.trap.Access.TheVariants.{Load};
ghost use Rattle.vm.specs.Reach.{piece_at};
ghost use Rattle.unixmodel.specs.Turn.{ready, turn};

mod asking;
mod disk;
mod duplicate;
mod idle;
mod instructions;
mod memory;
mod open_files;
mod processes;
mod replacing;
mod show;

use crate::channels::{Channel, wakeup};
use crate::descriptors::{close_all, let_go, named};
use crate::ready::Awaited;
use arrayvec::ArrayVec;
use blockdev::{BlockDev, DeviceFault};
use console::{Console, Out, OutFault};
use files::{End, Files, Target};
use proc::{Process, Table};
pub use show::ShownProcess;
use spaces::Spaces;
use std::marker::Model;
use sv39::Translate;
use tree::Tree;
use unixmodel::call::Call;
use unixmodel::limits::PROCESSES;
use unixmodel::process::{Mode, Pending};
use unixmodel::trap::Trap;

/// The processes of a machine, their spaces, the hart that runs one of them, their open files, and what is typed at the
/// console.
#[derive(Drop)]
pub struct Kernel<D: BlockDev, T: Translate> {
    // The files of the disk.
    tree: Tree<D>,
    // The processes.
    table: Table,
    // Their spaces, and the hart.
    spaces: Spaces<T>,
    // What their descriptors name.
    files: Files,
    // What is typed.
    console: Console,
    // Modulo 2^32.
    ticks: u32,
    // The status of process 1, once it has ended.
    halted: Option<i32>,
}

impl<D: BlockDev, T: Translate> Model for Kernel<D, T> {
    ghost use Rattle.kernel.specs.Kernel.{Kernel};

    ghost Value = { Kernel };

    ghost use Rattle.kernel.specs.View.{IsInside, kernel_of};

    ghost view = { kernel_of };

    ghost invariant = { IsInside };
}

// Whether the machine halts, once the process with this pid has ended.
fn halted_after(pid: u32, status: i32, halted: Option<i32>) -> Option<i32>
    ensures { result ≡ (if pid == 1 then Some status else halted) }
{
    if pid == 1 { Some(status) } else { halted }
}

// The pid of a process; 0 where there is none.
fn pid_of(process: Option<&Process>) -> u32
    ensures { IfSome (option_copied process.entry) (λ p. result ≡ p.pid) }
{
    match process {
        Some(process) => process.pid,
        None => 0,
    }
}

// The process in slot `at` ends: its descriptors are closed, whoever may wait for that is woken, and none runs. Returns
// the nodes that it held.
fn end<T: Translate>(
    table: &mut Table,
    files: &mut Files,
    spaces: &mut Spaces<T>,
    at: usize,
    process: Process,
    status: i32,
) -> ArrayVec<u32, 17>
    requires within { at < 64 }
    requires piped { IsPiped spaces.old.pipes (opens_of files.old) }
    ensures nodes { result.items ≡ gone_nodes files.old process.descriptors ++ process.directory ∷ [] }
    ensures table { table.new ≡ ended_in table.old at process status }
    ensures files { files.new ≡ all_closed files.old process.descriptors }
    ensures spaces { spaces.new ≡ record (idle spaces.old) { pipes = standing spaces.old.pipes (opens_of files.new) } }
{
    let mut nodes = close_all(files, spaces, &process.descriptors);
    nodes.push(process.directory);
    table.put(at, process);
    table.exit(at, status);
    wakeup(table, Channel::Children);
    wakeup(table, Channel::Bytes);
    spaces.deactivate();
    nodes
}

impl<D: BlockDev, T: Translate> Kernel<D, T> {
    /// A kernel over processes, their spaces and their open files.
    pub fn new(tree: Tree<D>, table: Table, spaces: Spaces<T>, files: Files) -> Kernel<D, T>
        requires sound { IsKernel (begun tree table spaces files) }
        requires watched { Watches (begun tree table spaces files) }
        ensures { result ≡ begun tree table spaces files }
    {
        Kernel {
            tree,
            table,
            spaces,
            files,
            console: Console::new(),
            ticks: 0,
            halted: None,
        }
    }

    /// The device of the disk, which counts its failures.
    pub fn device(&self) -> &D
        ensures failures { D.failures result.now ≡ self.now.tree.failures }
        ensures identity { D.identity result.now ≡ self.now.tree.identity }
    {
        self.tree.device()
    }

    /// The slot of the running process.
    pub fn active(&self) -> Option<usize>
        ensures { result ≡ self.now.spaces.active }
    {
        self.spaces.active()
    }

    /// The current slot: that of the running process. 64, which is no slot's number, where none runs.
    #[inline]
    pub fn current(&self) -> usize
        ensures { result ≡ current self.now }
    {
        match self.spaces.active() {
            Some(at) => at,
            None => PROCESSES,
        }
    }

    /// A law: what every kernel keeps. It runs no code.
    #[inline]
    pub fn is_sound(&self)
        ensures sound { IsKernel self.now }
        ensures watched { Watches self.now }
        ensures zero { slice_index self.now.spaces.registers 0 ≡ 0 }
        ensures aligned { self.now.spaces.pc % 4 ≡ 0 }
    {
        let _registers = self.spaces.registers();
        let _pc = self.spaces.pc();
    }

    /// Gives up all processes for the files of the disk.
    pub fn into_tree(self) -> Tree<D>
        ensures { result ≡ self.tree }
    {
        let Kernel { tree, .. } = self;
        tree
    }

    /// The status of process 1, once it has ended.
    pub fn halted(&self) -> Option<i32>
        ensures { result ≡ self.now.halted }
    {
        self.halted
    }

    /// The ticks so far, modulo 2^32.
    pub fn ticks(&self) -> u32
        ensures { result ≡ self.now.ticks }
    {
        self.ticks
    }

    /// The process in a slot. Of the running one the hart holds the registers and the pc.
    pub fn process(&self, at: usize) -> Option<&Process>
        ensures { option_copied result ≡ slot self.now.table.places at }
    {
        self.table.process(at)
    }

    /// A register of a0 to a7: an argument of a call, or its number.
    pub fn argument(&self, n: usize) -> u64
        requires { n < 8 }
        ensures { result ≡ argument self.now n }
    {
        self.spaces.registers()[10 + n]
    }

    /// The pid of the running process.
    pub fn pid(&self) -> u32
        ensures { IfSome (slot self.now.table.places (current self.now)) (λ p. result ≡ p.pid) }
    {
        pid_of(self.table.process(self.current()))
    }

    /// The open file that a descriptor of the running process names.
    pub fn open_id(&self, descriptor: u32) -> Option<u8>
        ensures named { result ≡ slot (current_descriptors self.now) descriptor }
        ensures within { IfSome result (λ _. descriptor < 16) }
    {
        match self.table.process(self.current()) {
            Some(process) => named(&process.descriptors, descriptor),
            None => None,
        }
    }

    /// Begins a call: the pc advances by 4.
    pub fn enter(&mut self)
        ensures { self.new ≡ entered self.old }
    {
        let pc = self.spaces.pc();
        self.spaces.set_pc(pc.wrapping_add(4));
    }

    /// Puts the result of a call into a0.
    pub fn answer(&mut self, value: u64)
        ensures { self.new ≡ answered self.old value }
    {
        self.spaces.set_register(10, value);
    }

    /// Does the instruction at the pc of the running process, or says why it isn't done.
    pub fn execute(&mut self) -> Option<Trap>
        requires { HasCurrent self.old }
        ensures done { IfNone result (Executes self.old self.new (current self.old)) }
        ensures trap { IfSome result
            (λ t. (cycle_at self.old.spaces (current self.old) ≡ Err t) × (self.new ≡ self.old)) }
    {
        let trap = self.spaces.execute();
        self.spaces.frames_suffice();
        trap
    }

    /// The running process, with what the hart holds.
    pub fn on_hart(&self) -> Option<Process>
        ensures process { result
            ≡ option_map (on_hart self.now.spaces) (slot self.now.table.places (current self.now)) }
        ensures within { IfSome result (λ _. current self.now < 64) }
    {
        let registers = *self.spaces.registers();
        let pc = self.spaces.pc();
        match self.table.process(self.current()) {
            Some(process) => Some(Process {
                registers,
                pc,
                ..*process
            }),
            None => None,
        }
    }

    // The running process runs no more.
    fn leave(&mut self, mode: Mode)
        requires sound { IsKernel (left_as self.old (current self.old) mode) }
        requires watched { Watches (left_as self.old (current self.old) mode) }
        ensures { self.new ≡ left_as self.old (current self.old) mode }
    {
        let at = self.current();
        self.table
            .leave(at, self.spaces.registers(), self.spaces.pc(), mode);
        self.spaces.deactivate();
    }

    /// The running process waits.
    pub fn block(&mut self, pending: Pending)
        requires running { HasCurrent self.old }
        requires pending { IsPending (current_descriptors self.old)
            (current_space self.old).memory pending pending.number }
        requires awaits { IsAwaiting self.old.files (current_descriptors self.old) pending }
        ensures { self.new ≡ blocked self.old (current self.old) pending }
    {
        self.is_sound();
        self.leave(Mode::Waiting(pending));
    }

    /// The process in a slot, without its memory; of the running one with what the hart holds.
    pub fn whole(&self, at: usize) -> Option<Process>
        ensures process { result ≡ slot (loaded self.now).places at }
        ensures within { IfSome result (λ _. at < 64) }
    {
        if self.spaces.active() == Some(at) {
            self.on_hart()
        } else {
            self.table.process(at).copied()
        }
    }

    /// Ends the running process with this status, or, where none runs, the process in slot `at`; also where an access
    /// of the device fails.
    #[inline(never)]
    pub fn finish(&mut self, at: usize, status: i32) -> Result<(), DeviceFault>
        requires { CanEnd self.old at }
        ensures { Serves self.old.tree self.new.tree result (λ done. HasEnded self.old self.new at status) }
    {
        self.is_sound();
        let process = self.whole(at).unwrap();
        let halted = halted_after(process.pid, status, self.halted);
        let nodes = end(
            &mut self.table,
            &mut self.files,
            &mut self.spaces,
            at,
            process,
            status,
        );
        self.halted = halted;
        let_go(&mut self.tree, nodes.as_slice())
    }

    /// Picks the process whose turn it is; `None`: none is ready.
    pub fn turn(&mut self) -> Option<usize>
        requires { self.old.spaces.active ≡ None }
        ensures turn { result ≡ turn (state_of self.old) }
        ensures picked { IfSome result (λ i. self.new ≡ waking (picked self.old i) self.new.table.awake) }
        ensures none { IfNone result (self.new ≡ waking self.old self.new.table.awake) }
    {
        self.is_sound();
        let now = Awaited {
            ticks: self.ticks,
            console: &self.console,
            files: &self.files,
            spaces: &self.spaces,
        };
        self.table.pick(
            |places, at|
                requires { IsPiped now.spaces.now.pipes (opens_of now.files.now) }
                ensures { result ≡ ready (seen (awaited now.entry) places.now) at }
            { now.is_ready(places, at) },
        )
    }

    /// Starts a process, where none ran.
    pub fn start(&mut self, at: usize)
        requires idle { self.old.spaces.active ≡ None }
        requires can { CanRun (slot self.old.table.places at) }
        ensures { self.new ≡ waking (started self.old at) self.new.table.awake }
    {
        if let Some(process) = self.table.process(at) {
            self.spaces.activate(at, &process.registers, process.pc);
            self.table.run(at);
            self.table.wake(at);
        }
    }

    /// The slot of the process with a pid.
    pub fn find(&self, pid: u32) -> Option<usize>
        ensures place { result ≡ place_where self.now.table.places (has_pid pid) }
        ensures within { IfSome result (λ i. i < 64) }
    {
        self.table.find(pid)
    }

    /// Whether the running process may write `count` bytes from `address` on.
    pub fn can_write(&self, address: u64, count: u64) -> bool
        requires { HasCurrent self.now }
        ensures { result ≡ can_write (current_space self.now).memory address count }
    {
        self.spaces.can_write(self.current(), address, count)
    }

    /// The size of the running process in bytes.
    pub fn size(&self) -> u64
        requires { HasCurrent self.now }
        ensures { result ≡ (current_space self.now).size }
    {
        self.spaces.size(self.current())
    }

    /// Marks the process in a slot as killed; it doesn't run.
    pub fn mark(&mut self, at: usize)
        requires { self.old.spaces.active ≢ Some at }
        ensures { self.new ≡ waking (marked self.old at) self.new.table.awake }
    {
        self.table.mark(at);
        self.table.wake(at); // it may end at its turn
    }

    /// A key was typed. Where `out` fails nothing changes, and a beginning of what shows the key was written.
    pub fn type_key<W: Out>(&mut self, byte: u8, out: &mut W) -> Result<(), OutFault>
        ensures ok { OnOk result
            (self.new ≡ waking (typed self.old (key self.old.console byte).console) self.new.table.awake) }
        ensures echo { OnOk result
            (Appends (W.contents out.old) (W.contents out.new) (key self.old.console byte).echo) }
        ensures err { OnErr result (self.new ≡ self.old) }
        ensures beginning { OnErr result
            (AppendsBeginning (W.contents out.old) (W.contents out.new) (key self.old.console byte).echo) }
        ensures later { W.failures out.old ≤ W.failures out.new }
        ensures cause { OnErr result (Rises (W.failures out.old) (W.failures out.new)) }
    {
        match self.console.key(byte, out) {
            Ok(()) => {
                if self.console.can_take() {
                    wakeup(&mut self.table, Channel::Bytes); // who reads the console
                }
                Ok(())
            }
            Err(fault) => Err(fault),
        }
    }

    /// A timer interrupt: the running process becomes ready.
    pub fn interrupt(&mut self)
        ensures { self.new ≡ waking (ticked self.old) self.new.table.awake }
    {
        self.is_sound();
        if self.active().is_some() {
            self.leave(Mode::Ready);
        }
        self.ticks = self.ticks.wrapping_add(1);
        wakeup(&mut self.table, Channel::Ticks(self.ticks));
    }
}
