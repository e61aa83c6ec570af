//! Who is ready.
ghost use Rattle.std.specs.Prelude.{◌≡◌, ◌≤◌, ◌+◌, ◌-◌, ◌%◌, ◌^◌, IfSome, Some, None, option_map, true, nat_le};
ghost use Rattle.kernel.specs.Ready.{Stands, awaited, has_slept, pending_target, seen};
ghost use Rattle.files.specs.Meant.{target_of};
ghost use Rattle.files.specs.Pipes.{IsPiped};
ghost use Rattle.files.specs.Places.{opens_of};
ghost use Rattle.kernel.specs.Whole.{with_space};
ghost use Rattle.spaces.specs.Spaces.{no_pages};
ghost use Rattle.unixmodel.specs.Turn.{can_go_on, can_read_from, can_write_to, is_ready, ready};

use crate::descriptors::named;
use crate::numbers::{low, natural};
use console::Console;
use files::{End, Files, Target};
use proc::{Place, Process, zombie_child};
use spaces::Spaces;
use sv39::Translate;
use unixmodel::call::Call;
use unixmodel::process::{Mode, Pending};

/// Whether the time that a process sleeps is over.
pub fn has_slept(ticks: u32, pending: &Pending) -> bool
    ensures { result ≡ has_slept ticks pending.now }
{
    let time = natural(pending.args[0]).unwrap_or(0);
    time <= ticks.wrapping_sub(pending.since)
}

/// What processes wait for, beside one another: the ticks, the console, and the open files with their pipes.
#[derive(Drop)]
pub(crate) struct Awaited<'a, T: Translate> {
    pub ticks: u32,
    pub console: &'a Console,
    pub files: &'a Files,
    pub spaces: &'a Spaces<T>,
}

impl<T: Translate> Awaited<'_, T> {
    // What the open file of a pending read or write is open on.
    fn pending_target(&self, process: &Process, pending: &Pending) -> Option<Target>
        requires { IsPiped self.now.spaces.now.pipes (opens_of self.now.files.now) }
        ensures target { option_map target_of result ≡ pending_target (awaited self.now) process.now pending.now }
        ensures stands { IfSome result (λ t. Stands self.now.spaces.now (target_of t)) }
    {
        let Some(id) = named(&process.descriptors, low(pending.args[0])) else {
            return None;
        };
        match self.files.file(usize::from(id)) {
            Some(file) => Some(file.target),
            None => None,
        }
    }

    // Whether a read can go on: a byte is there, or none can come.
    fn can_read_from(&self, target: Target) -> bool
        requires { Stands self.now.spaces.now (target_of target) }
        ensures { result ≡ can_read_from (awaited self.now) (target_of target) }
    {
        match target {
            Target::File { .. } | Target::Console { .. } | Target::Device { .. } => {
                self.console.can_take()
            }
            Target::Pipe { pipe, .. } => {
                self.spaces.has_bytes(pipe) || !self.files.has_end(pipe, End::Write)
            }
        }
    }

    // Whether a write can go on: there is room, or nobody can read.
    fn can_write_to(&self, target: Target) -> bool
        requires { Stands self.now.spaces.now (target_of target) }
        ensures { result ≡ can_write_to (awaited self.now) (target_of target) }
    {
        match target {
            Target::File { .. } | Target::Console { .. } | Target::Device { .. } => true,
            Target::Pipe { pipe, .. } => {
                self.spaces.has_room(pipe) || !self.files.has_end(pipe, End::Read)
            }
        }
    }

    // Whether the condition of a waiting call holds.
    fn can_go_on(&self, places: &[Place], process: &Process, pending: &Pending) -> bool
        requires { IsPiped self.now.spaces.now.pipes (opens_of self.now.files.now) }
        ensures { result ≡ can_go_on (seen (awaited self.now) places.now) (with_space no_pages process.now) pending.now
            pending.now.number }
    {
        match pending.number {
            Call::Wait => zombie_child(places, process.pid).is_some(),
            Call::Sleep => has_slept(self.ticks, pending),
            Call::Read => match self.pending_target(process, pending) {
                Some(target) => self.can_read_from(target),
                None => false,
            },
            Call::Write => match self.pending_target(process, pending) {
                Some(target) => self.can_write_to(target),
                None => false,
            },
            _ => false,
        }
    }

    // Whether a process is ready.
    #[tactic(auto, unfolding(unixmodel::specs::Turn::is_ready))]
    fn is_process_ready(&self, places: &[Place], process: &Process) -> bool
        requires { IsPiped self.now.spaces.now.pipes (opens_of self.now.files.now) }
        ensures { result ≡ is_ready (seen (awaited self.now) places.now) (with_space no_pages process.now) }
    {
        match process.mode {
            Mode::Running => process.killed,
            Mode::Ready => true,
            Mode::Waiting(pending) => self.can_go_on(places, process, &pending) || process.killed,
            Mode::Zombie(_) => false,
        }
    }

    /// Whether the process in a slot is ready.
    pub fn is_ready(&self, places: &[Place], at: usize) -> bool
        requires { IsPiped self.now.spaces.now.pipes (opens_of self.now.files.now) }
        ensures { result ≡ ready (seen (awaited self.now) places.now) at }
    {
        match places.get(at) {
            Some(Some(process)) => self.is_process_ready(places, process),
            _ => false,
        }
    }
}
