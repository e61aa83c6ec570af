//! The machine: events in, the console's bytes and the state of the processes out.
ghost use Rattle.std.specs.Prelude.{◌≡◌, ◌≤◌, ◌+◌, ℕ, None, Some, false, OnOk, OnErr, IfSome, IfOk, IsErrOf, is_some};
ghost use Rattle.std.specs.Prelude.{option_map, slice_index, true};
ghost use Rattle.unixmodel.specs.Next.{next};
ghost use Rattle.kernel.specs.Kernel.{state_of};
ghost use Rattle.machine.specs.Gives.{fails};
ghost use Rattle.calls.specs.declared.halt.Halt.TheVariants.{Halted};
ghost use Rattle.machine.specs.Looks.{LookGives, ReadsAt, stat_seen};
ghost use Rattle.machine.specs.Seen.{seen_of};
ghost use Rattle.machine.specs.View.{sound_view};
ghost use Rattle.unixmodel.specs.Counts.{frames_of};
ghost use Rattle.unixmodel.specs.Shown.{ShowsMemory, shown_page, shown_process, shown_stat};
ghost use Rattle.vm.specs.Leaf.{page_from};

mod copy;
mod idle;
mod looks;
mod matching;
mod save;
mod steps;

use crate::inodes;
use crate::inodes::Stat;
use crate::seen::{Seen, told};
use blockdev::BlockDev;
use calls::{Halt, Kernel};
use console::Out;
use ram::{FRAME_SIZE, FrameNo, Ram};
use std::marker::Model;
use sv39::Translate;
use unixmodel::event::Event;
use vm::Perm;

/// A machine over the device of its disk and a translator.
#[derive(Drop)]
pub struct Machine<D: BlockDev, T: Translate> {
    kernel: Kernel<D, T>,
    failed: bool,
}

impl<D: BlockDev, T: Translate> Model for Machine<D, T> {
    ghost use Rattle.machine.specs.View.{View};

    ghost Value = { View };

    ghost use Rattle.machine.specs.Show.{IsSound, told_of};

    ghost view = { told_of };

    ghost invariant = { IsSound };
}

// Whether the device or the console failed.
fn is_failure(done: &Result<(), Halt>) -> bool
    ensures { result ≡ fails done.now }
{
    matches!(done, Err(Halt::Device | Halt::Console))
}

impl<D: BlockDev, T: Translate> Machine<D, T> {
    ghost use Rattle.machine.specs.View.{IsUp, View};
    ghost use Rattle.machine.specs.Gives.{ConsoleFails, halt_of, RunGivesTo, StepGivesTo};

    /// The machine of a kernel whose device has not failed.
    pub(crate) fn new(kernel: Kernel<D, T>) -> Machine<D, T>
        requires { kernel.tree.failed ≡ false }
        ensures { result ≡ sound_view (state_of kernel) kernel.tree.failures kernel.tree.identity }
    {
        Machine {
            kernel,
            failed: false,
        }
    }

    // Whether it takes no events.
    fn is_stopped(&self) -> bool
        ensures up { result ≡ false → IsUp self.now }
        ensures stopped { IsUp self.now → result ≡ false }
    {
        self.failed || self.kernel.halted().is_some()
    }

    /// Whether it takes events: process 1 runs still, and neither the device nor the console has failed.
    pub fn is_up(&self) -> bool
        ensures up { result ≡ true → IsUp self.now }
        ensures stopped { result ≡ false → ¬ IsUp self.now }
    {
        !self.is_stopped()
    }

    /// Handles one event. An error says why the machine stops; after `Device` and `Console` it is of no more use, and
    /// every later call returns `Halted`.
    pub fn step<W: Out>(&mut self, event: Event, console: &mut W) -> Result<(), Halt>
        ensures gives { StepGivesTo W.contents W.failures self.old self.new console.old console.new
            (next self.old.state event) result }
        ensures later { W.failures console.old ≤ W.failures console.new }
    {
        if self.is_stopped() {
            return Err(Halt::Halted);
        }
        match event {
            Event::Step => {
                let done = calls::step(&mut self.kernel, console);
                self.failed = is_failure(&done);
                done
            }
            Event::Tick => {
                calls::tick(&mut self.kernel);
                Ok(())
            }
            Event::Key(byte) => {
                let done = calls::key(&mut self.kernel, byte, console);
                self.failed = is_failure(&done);
                done
            }
        }
    }

    /// Handles the events of a list up to the first at which the machine stops.
    pub fn run<W: Out>(&mut self, events: &[Event], console: &mut W) -> Result<(), Halt>
        ensures gives { RunGivesTo W.contents W.failures self.old self.new console.old console.new events.now result }
        ensures later { W.failures console.old ≤ W.failures console.new }
    {
        if self.is_stopped() {
            return Err(Halt::Halted);
        }
        for event in events {
            self.step(*event, console)?;
        }
        Ok(())
    }

    /// What is reported of the node of the disk with this number; `None` where there is none. `Device`: an access of
    /// the device failed, as at a step.
    pub fn stat_inode(&mut self, number: usize) -> Result<Option<Stat>, Halt>
        ensures { LookGives self.old self.new (λ stat. stat ≡ option_map stat_seen (shown_stat self.old.state number))
            result }
    {
        if self.failed {
            return Err(Halt::Halted);
        }
        let told = inodes::look(&mut self.kernel, number);
        self.failed = told.is_err();
        Ok(told?)
    }

    /// Reads bytes of the node of the disk with this number into `out`, from offset `at` on and as many as there
    /// are, and returns how many: none past its end, none of a device, and none where there is no such node. `Device`:
    /// an access of the device failed, as at a step; nothing is said of `out` then.
    pub fn read_inode(&mut self, number: usize, at: usize, out: &mut [u8]) -> Result<usize, Halt>
        ensures gives { LookGives self.old self.new (ReadsAt self.old.state number at out.old out.new) result }
        ensures kept { IsErrOf result Halted → out.new ≡ out.old }
    {
        if self.failed {
            return Err(Halt::Halted);
        }
        let count = inodes::read(&mut self.kernel, number, at, out);
        self.failed = count.is_err();
        Ok(count?)
    }

    /// The device of the disk, which counts its failures: where it can't fail, no call returns `Device`.
    pub fn device(&self) -> &D
        ensures failures { D.failures result.now ≡ self.now.failures }
        ensures identity { D.identity result.now ≡ self.now.identity }
    {
        self.kernel.device()
    }

    /// What is reported of the process with a pid; `None` where there is none.
    pub fn inspect(&self, pid: u32) -> Option<Seen>
        ensures { result ≡ option_map seen_of (shown_process self.now.state pid) }
    {
        let shown = self.kernel.shown(pid)?;
        Some(told(&shown.process, shown.size))
    }

    /// The bytes and the marks of a page of a process; `None` past its last page, and where there is no such process.
    pub fn peek(&self, pid: u32, page: u64) -> Option<(&[u8; FRAME_SIZE], Perm)>
        ensures { option_map page_from result ≡ shown_page self.now.state pid page }
    {
        self.kernel.page(pid, page)
    }

    /// How many frames are free.
    pub fn free_frames(&self) -> u32
        ensures { result + frames_of self.now.state ≡ self.now.state.frame_limit }
    {
        self.kernel.free_frames()
    }

    /// The memory, and the frame of the root of a process's page table; `None` where there is no such process. A walk
    /// from that root reaches the bytes that `peek` returns of a page where its marks allow the access, and faults
    /// elsewhere. At a page that a fork had since it was made a store may fault, too.
    pub fn tables(&self, pid: u32) -> Option<(&Ram, FrameNo)>
        ensures some { is_some result ≡ is_some (shown_process self.now.state pid) }
        ensures shows { IfSome result
            (λ r. IfSome (shown_process self.now.state pid) (λ p. ShowsMemory r.0.now r.1.0 p.memory)) }
    {
        self.kernel.tables(pid)
    }
}
