//! Who runs, and whether a machine has anything to do.
ghost use Rattle.std.specs.Prelude.{◌≡◌, option_map};
ghost use Rattle.kernel.specs.Idle.{is_anyone_asleep, is_idle, is_time_awaited, on_hart_of, picked_pid, running_pid};
ghost use Rattle.kernel.specs.Idle.{running_process};
ghost use Rattle.unixmodel.specs.Next.{next};
ghost use Rattle.unixmodel.specs.declared.event.Event.TheVariants.{Tick};

use crate::machine::Machine;
use blockdev::BlockDev;
use sv39::Translate;

impl<D: BlockDev, T: Translate> Machine<D, T> {
    /// The pid of the process that runs; `None` where none does.
    pub fn running(&self) -> Option<u32>
        ensures { result ≡ running_pid self.now.state }
    {
        self.kernel.running()
    }

    /// The registers and the pc of the process that runs; `None` where none does.
    pub fn hart_state(&self) -> Option<(&[u64; 32], u64)>
        ensures { option_map (λ r. (r.0.now, r.1)) result ≡ option_map on_hart_of (running_process self.now.state) }
    {
        self.kernel.hart_state()
    }

    /// The pid of the process that a turn would pick if a timer interrupt came now; `None` where none would be ready.
    pub fn pending_turn(&self) -> Option<u32>
        ensures { result ≡ picked_pid (next self.now.state Tick).state }
    {
        self.kernel.is_sound();
        self.kernel.pending_turn()
    }

    /// Whether no process runs and none is ready, so that a step changes nothing.
    pub fn is_idle(&self) -> bool
        ensures { result ≡ is_idle self.now.state }
    {
        self.kernel.is_idle()
    }

    /// Whether a process waits in `sleep`, so that a tick can make it ready.
    pub fn is_anyone_asleep(&self) -> bool
        ensures { result ≡ is_anyone_asleep self.now.state }
    {
        self.kernel.is_anyone_asleep()
    }

    /// Whether a process waits in a `sleep` that isn't over, so that a tick changes how long it still waits.
    pub fn is_time_awaited(&self) -> bool
        ensures { result ≡ is_time_awaited self.now.state }
    {
        self.kernel.is_time_awaited()
    }
}
