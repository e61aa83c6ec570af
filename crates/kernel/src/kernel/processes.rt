//! The kernel's steps on the running process, and on others.
ghost use Rattle.std.specs.Prelude.{◌≡◌};
ghost use Rattle.kernel.specs.Kernel.{current};
ghost use Rattle.kernel.specs.Processes.{Forks, MayFork, MayWorkIn, WorksIn, child_of, collected, home_at};
ghost use Rattle.proc.specs.Places.{reaped_at, zombie_place};
ghost use Rattle.tree.specs.Tree.{Serves};

use crate::descriptors::{let_one_go, share_all};
use crate::kernel::Kernel;
use blockdev::{BlockDev, DeviceFault};
use proc::{Process, Reaped};
use sv39::Translate;
use unixmodel::process::Mode;

// A process becomes a child of itself, without a pid of its own yet: it is ready, and a0 is 0.
fn make_child(process: &mut Process)
    ensures { process.new ≡ child_of process.old }
{
    process.parent = process.pid;
    process.registers[10] = 0;
    process.killed = false;
    process.mode = Mode::Ready;
}

impl<D: BlockDev, T: Translate> Kernel<D, T> {
    // The directory that the running process works in.
    fn directory(&self) -> Option<u32>
        ensures { result ≡ home_at self.now (current self.now) }
    {
        Some(self.table.process(self.current())?.directory)
    }

    /// The running process has a child, whose pid is the result: it is ready, with the same pages, descriptors and
    /// directory, and a0 is 0. `None`: no slot, pid or frames are left for it; then nothing changes.
    #[inline]
    pub fn fork(&mut self) -> Option<u32>
        requires { MayFork self.old (current self.old) }
        ensures { Forks self.old self.new (current self.old) result }
    {
        self.is_sound();
        let Ok(seat) = self.table.next_seat() else {
            return None;
        };
        let mut process = self.on_hart().unwrap();
        let at = self.current();
        if !self.spaces.copy(at, seat.place) {
            return None;
        }
        share_all(&mut self.files, &process.descriptors);
        self.tree.hold(process.directory as usize);
        make_child(&mut process);
        self.table.take_seat(process, seat);
        self.table.wake(seat.place);
        Some(seat.pid)
    }

    /// Waits for the first zombie child of a process: its slot and its space are free then. `None`: there is no zombie
    /// child.
    #[inline]
    pub fn collect(&mut self, parent: u32) -> Option<Reaped>
        ensures reaped { result ≡ reaped_at self.old.table (zombie_place self.old.table parent) }
        ensures collected { self.new ≡ collected self.old (zombie_place self.old.table parent) }
    {
        let Some(reaped) = self.table.reap(parent) else {
            return None;
        };
        self.spaces.destroy(reaped.place);
        Some(reaped)
    }

    /// The running process works in a directory. The one that it leaves goes where it has no links and nobody holds it
    /// any more.
    #[inline]
    pub fn work_in(&mut self, number: usize) -> Result<(), DeviceFault>
        requires { MayWorkIn self.old (current self.old) number }
        ensures { Serves self.old.tree self.new.tree result
            (λ done. WorksIn self.old self.new (current self.old) number) }
    {
        let at = self.current();
        let left = self.directory();
        self.tree.is_whole();
        self.tree.hold(number);
        self.table.set_directory(at, number as u32);
        let_one_go(&mut self.tree, left)
    }
}
