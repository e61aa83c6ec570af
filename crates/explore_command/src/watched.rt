//! A machine that goes along lists of events, and is watched for a process that runs on for ever.
ghost use Rattle.std.specs.Prelude.{◌≡◌};
ghost use Rattle.orders.specs.Tidy.{IsTidy};

use blockdev::Duplicate;
use explore::{Along, Path, Piece, Trouble, Walker};
use machine::Machine;
use std::alloc::Global;
use sv39::Translate;

/// A process that runs on for ever: its steps alone lead back to where it was.
#[derive(Clone, Copy, PartialEq, Eq, Debug)]
pub(crate) struct Endless {
    pub(crate) pid: u32,
    pub(crate) pc: u64,
}

/// A machine that goes along lists of events, the list along which it went last, and the first process that was seen to
/// run on for ever.
#[derive(Drop)]
pub(crate) struct Watched<'a, D: Duplicate, T: Translate> {
    along: Along<'a, D, T>,
    pieces: Vec<Piece>,
    steps: u32,
    endless: Option<Endless>,
}

impl<'a, D: Duplicate, T: Translate> Watched<'a, D, T> {
    /// At the beginning, with a machine of the same size, whatever its state is.
    pub(crate) fn new(alloc: Global, first: &'a Machine<D, T>, machine: Machine<D, T>) -> Self
        requires { IsTidy first.now.state }
        ensures { result.along.first.now ≡ first.now }
    {
        Watched {
            along: Along::new(alloc, first, machine),
            pieces: Vec::new(alloc),
            steps: 0,
            endless: None,
        }
    }

    /// The first process that was seen to run on for ever.
    pub(crate) fn endless(&self) -> Option<Endless>
        ensures { result ≡ self.now.endless }
    {
        self.endless
    }

    // Whether it went along the same events as another one, and more steps.
    fn is_further(&self, other: &Self) -> bool {
        self.steps > other.steps && self.pieces.as_slice() == other.pieces.as_slice()
    }

    // Notes the process that runs: it came to a state again.
    fn note_endless(&mut self)
        ensures { self.new.along ≡ self.old.along }
    {
        let machine = self.along.machine();
        if let Some(pid) = machine.running()
            && let Some(seen) = machine.inspect(pid)
        {
            self.endless = Some(Endless { pid, pc: seen.pc });
        }
    }
}

impl<'a, D: Duplicate, T: Translate> Walker for Watched<'a, D, T> {
    ghost start = { λ w. w.along.first.now.state };

    ghost reached = { λ w. record { state = w.along.machine.state; bytes = w.along.printed.inner.items } };

    fn go(&mut self, path: &Path) -> Result<Option<i32>, Trouble> {
        self.pieces.clear();
        self.pieces.extend_from_slice(path.pieces.as_slice())?;
        self.steps = path.steps;
        self.along.go(path)
    }

    fn is_running(&self) -> bool {
        self.along.is_running()
    }

    fn is_idle(&self) -> bool {
        self.along.is_idle()
    }

    fn is_anyone_asleep(&self) -> bool {
        self.along.is_anyone_asleep()
    }

    fn is_time_awaited(&self) -> bool {
        self.along.is_time_awaited()
    }

    fn gives_turn_back(&self) -> bool {
        self.along.gives_turn_back()
    }

    fn compute(&mut self, most: u32) -> Result<u32, Trouble> {
        let count = self.along.compute(most)?;
        self.steps = self.steps.saturating_add(count);
        Ok(count)
    }

    fn may_ask_time(&self) -> bool {
        self.along.may_ask_time()
    }

    fn has_clock(&self) {
        self.along.has_clock();
    }

    fn names_are_there(&self) {
        self.along.names_are_there();
    }

    fn digest(&mut self) -> Result<u64, Trouble> {
        self.along.digest()
    }

    fn is_like(&mut self, other: &mut Self) -> Result<bool, Trouble> {
        let is_like = self.along.is_like(&mut other.along)?;
        if is_like && self.endless.is_none() && self.is_further(other) {
            self.note_endless();
        }
        Ok(is_like)
    }

    fn shows_same(&mut self, other: &mut Self) -> Result<bool, Trouble> {
        self.along.shows_same(&mut other.along)
    }
}
