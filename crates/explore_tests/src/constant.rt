//! A machine that goes along lists of events, and gives each state the same digest.
ghost use Rattle.std.specs.Prelude.{◌≡◌};
ghost use Rattle.orders.specs.Tidy.{IsTidy};

use blockdev::Duplicate;
use explore::{Along, Path, Trouble, Walker};
use machine::Machine;
use std::alloc::Global;
use sv39::Translate;

/// Goes as `Along` does; every state's digest is 0.
#[derive(Drop)]
pub(crate) struct Constant<'a, D: Duplicate, T: Translate> {
    along: Along<'a, D, T>,
}

impl<'a, D: Duplicate, T: Translate> Constant<'a, D, T> {
    /// At the beginning, with a machine of the same size, whatever its state is.
    pub(crate) fn new(alloc: Global, first: &'a Machine<D, T>, machine: Machine<D, T>) -> Self
        requires { IsTidy first.now.state }
        ensures { result.along.first.now ≡ first.now }
    {
        Constant {
            along: Along::new(alloc, first, machine),
        }
    }
}

impl<'a, D: Duplicate, T: Translate> Walker for Constant<'a, D, T> {
    ghost start = { λ w. w.along.first.now.state };

    ghost reached = { λ w. record { state = w.along.machine.state; bytes = w.along.printed.inner.items } };

    fn go(&mut self, path: &Path) -> Result<Option<i32>, Trouble> {
        self.along.go(path)
    }

    fn is_running(&self) -> bool {
        self.along.is_running()
    }

    fn is_idle(&self) -> bool {
        self.along.is_idle()
    }

    fn is_anyone_asleep(&self) -> bool {
        self.along.is_anyone_asleep()
    }

    fn is_time_awaited(&self) -> bool {
        self.along.is_time_awaited()
    }

    fn gives_turn_back(&self) -> bool {
        self.along.gives_turn_back()
    }

    fn compute(&mut self, most: u32) -> Result<u32, Trouble> {
        self.along.compute(most)
    }

    fn may_ask_time(&self) -> bool {
        self.along.may_ask_time()
    }

    fn has_clock(&self) {
        self.along.has_clock();
    }

    fn names_are_there(&self) {
        self.along.names_are_there();
    }

    fn digest(&mut self) -> Result<u64, Trouble> {
        Ok(0)
    }

    fn is_like(&mut self, other: &mut Self) -> Result<bool, Trouble> {
        self.along.is_like(&mut other.along)
    }

    fn shows_same(&mut self, other: &mut Self) -> Result<bool, Trouble> {
        self.along.shows_same(&mut other.along)
    }
}
