//! Whether a kernel has anything to do.
ghost use Rattle.std.specs.Prelude.{◌≡◌, None, option_map};
ghost use Rattle.std.specs.List.{list_any};
ghost use Rattle.files.specs.Pipes.{IsPiped};
ghost use Rattle.files.specs.Places.{opens_of};
ghost use Rattle.kernel.specs.Idle.{is_anyone_asleep, is_idle, is_sleep, is_sleeping_mode, is_time_awaited};
ghost use Rattle.kernel.specs.Idle.{on_hart_of, picked_pid, running_pid, running_process, sleeps_on_at};
ghost use Rattle.kernel.specs.Kernel.{state_of, ticked};
ghost use Rattle.kernel.specs.Ready.{awaited, seen};
ghost use Rattle.proc.specs.declared.process.Process.{Process};
ghost use Rattle.unixmodel.specs.State.{holds};
ghost use Rattle.unixmodel.specs.Turn.{ready, turn};

use crate::kernel::{Kernel, pid_of};
use crate::ready::{Awaited, has_slept};
use blockdev::BlockDev;
use proc::Place;
use sv39::Translate;
use unixmodel::call::Call;
use unixmodel::limits::PROCESSES;
use unixmodel::process::Mode;

// Whether a process is in `sleep`.
fn is_sleeping(mode: Mode) -> bool
    ensures { result ≡ is_sleeping_mode mode }
{
    match mode {
        Mode::Waiting(pending) => matches!(pending.number, Call::Sleep),
        _ => false,
    }
}

// Whether a process in one of these slots is in `sleep`.
fn any_sleeping(places: &[Place]) -> bool
    ensures { result ≡ list_any (holds (λ (p : Process). is_sleeping_mode p.mode)) places.now }
{
    places.iter().any(|place| match place {
        Some(process) => is_sleeping(process.mode),
        None => false,
    })
}

// Whether a process is in a `sleep` that isn't over at a count of ticks.
fn sleeps_on(mode: Mode, ticks: u32) -> bool
    ensures { result ≡ sleeps_on_at ticks mode }
{
    match mode {
        Mode::Waiting(pending) => matches!(pending.number, Call::Sleep)
            && !has_slept(ticks, &pending),
        _ => false,
    }
}

// Whether a process in one of these slots is in a `sleep` that isn't over at a count of ticks.
fn any_sleeping_on(places: &[Place], ticks: u32) -> bool
    ensures { result ≡ list_any (holds (λ (p : Process). sleeps_on_at ticks p.mode)) places.now }
{
    places.iter().any(|place| match place {
        Some(process) => sleeps_on(process.mode, ticks),
        None => false,
    })
}

impl<D: BlockDev, T: Translate> Kernel<D, T> {
    /// The slot of the process whose turn it is; `None`: none is ready.
    pub fn next_turn(&self) -> Option<usize>
        requires { self.now.spaces.active ≡ None }
        ensures { result ≡ turn (state_of self.now) }
    {
        self.is_sound();
        let now = Awaited {
            ticks: self.ticks,
            console: &self.console,
            files: &self.files,
            spaces: &self.spaces,
        };
        self.table.next_ready(
            |places, at|
                requires { IsPiped now.spaces.now.pipes (opens_of now.files.now) }
                ensures { result ≡ ready (seen (awaited now.entry) places.now) at }
            { now.is_ready(places, at) },
        )
    }

    // Whether the process in a slot is ready once a timer interrupt has come.
    fn is_ready_next(&self, at: usize) -> bool
        ensures { result ≡ ready (state_of (ticked self.now)) at }
    {
        self.is_sound();
        if self.active() == Some(at) {
            return true;
        }
        let next = Awaited {
            ticks: self.ticks.wrapping_add(1),
            console: &self.console,
            files: &self.files,
            spaces: &self.spaces,
        };
        next.is_ready(self.table.places(), at)
    }

    // The slot of the process whose turn it is once a timer interrupt has come. Who sleeps may be ready then, so it
    // looks at all slots.
    fn turn_next(&self) -> Option<usize>
        ensures { result ≡ turn (state_of (ticked self.now)) }
    {
        let _places = self.table.places();
        let last = self.table.last();
        for round in 1..PROCESSES + 1 {
            let at = (last + round) % PROCESSES;
            if self.is_ready_next(at) {
                return Some(at);
            }
        }
        None
    }

    /// The pid of the process that a turn would pick if a timer interrupt came now; `None`: none would be ready.
    pub fn pending_turn(&self) -> Option<u32>
        ensures { result ≡ picked_pid (state_of (ticked self.now)) }
    {
        self.is_sound();
        match self.turn_next() {
            None => None,
            Some(next) => Some(pid_of(self.table.process(next))),
        }
    }

    /// The pid of the process that runs.
    pub fn running(&self) -> Option<u32>
        ensures { result ≡ running_pid (state_of self.now) }
    {
        self.is_sound();
        match self.active() {
            None => None,
            Some(_) => Some(self.pid()),
        }
    }

    /// The registers and the pc of the process that runs.
    pub fn hart_state(&self) -> Option<(&[u64; 32], u64)>
        ensures { option_map (λ r. (r.0.now, r.1)) result
            ≡ option_map on_hart_of (running_process (state_of self.now)) }
    {
        self.is_sound();
        match self.active() {
            None => None,
            Some(_) => Some((self.spaces.registers(), self.spaces.pc())),
        }
    }

    /// Whether no process runs and none is ready, so that a step changes nothing.
    pub fn is_idle(&self) -> bool
        ensures { result ≡ is_idle (state_of self.now) }
    {
        self.is_sound();
        match self.active() {
            Some(_) => false,
            None => self.next_turn().is_none(),
        }
    }

    /// Whether a process waits in `sleep`, so that time alone can make it ready.
    pub fn is_anyone_asleep(&self) -> bool
        ensures { result ≡ is_anyone_asleep (state_of self.now) }
    {
        any_sleeping(self.table.places())
    }

    /// Whether a process waits in a `sleep` that isn't over, so that one more tick changes how long it waits.
    pub fn is_time_awaited(&self) -> bool
        ensures { result ≡ is_time_awaited (state_of self.now) }
    {
        any_sleeping_on(self.table.places(), self.ticks)
    }
}
