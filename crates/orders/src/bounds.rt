//! What bounds a search, what it didn't look at, and why it gave up.
ghost use Rattle.std.specs.Prelude.{false, true, ◌≡◌};
ghost use Rattle.orders.specs.Missed.{is_nothing};

use std::alloc::{AllocError, AllocFailed};
use thiserror::Error;

/// What bounds a search.
#[derive(Clone, Copy, PartialEq, Eq, Debug)]
pub struct Bounds {
    /// How many timer interrupts may come while a process runs; `None`: any number.
    pub ticks: Option<u32>,
    /// How many states are looked at, at most.
    pub states: usize,
    /// In how many steps a process is to come to a call or a fault, so that no timer interrupt is tried before that; 0:
    /// one is tried before every instruction.
    pub spin: u32,
}

/// What is typed, and the bounds.
#[derive(Clone, Copy)]
pub struct Task<'a> {
    /// The bytes that are typed where nobody is ready.
    pub keys: &'a [u8],
    pub bounds: Bounds,
}

/// What a search left out.
#[derive(Clone, Copy, PartialEq, Eq, Debug)]
pub struct Missed {
    /// Timer interrupts that are more than the bound, where a process runs.
    pub ticks: bool,
    /// States that are more than the bound.
    pub states: bool,
    /// What comes of the count of ticks, for which a program asked.
    pub uptime: bool,
    /// Timer interrupts where no process runs, some sleep, and all of these sleeps are over.
    pub late: bool,
    /// What was open when the search was stopped.
    pub stopped: bool,
}

impl Missed {
    /// Nothing.
    pub fn nothing() -> Missed
        ensures { is_nothing result ≡ true }
    {
        Missed {
            ticks: false,
            states: false,
            uptime: false,
            late: false,
            stopped: false,
        }
    }

    /// Whether nothing was left out.
    pub fn is_nothing(&self) -> bool
        ensures { result ≡ is_nothing self.now }
    {
        !(self.ticks || self.states || self.uptime || self.late || self.stopped)
    }
}

/// Why a search gave up.
#[derive(Clone, Copy, PartialEq, Eq, Debug, Error)]
pub enum Trouble {
    #[error("no memory")]
    NoMemory,
    #[error("there are too many events, states, or runs")]
    TooLong,
    #[error("the machine failed")]
    Machine,
}

impl From<AllocError> for Trouble {
    ghost use Rattle.std.specs.Prelude.{◌≡◌};
    ghost use Rattle.orders.specs.declared.bounds.Trouble.TheVariants.{NoMemory};

    ghost from_gives = { λ _ trouble. trouble ≡ NoMemory };

    fn from(_fault: AllocError) -> Trouble {
        Trouble::NoMemory
    }
}

impl<T: Drop> From<AllocFailed<T>> for Trouble {
    ghost use Rattle.std.specs.Prelude.{◌≡◌};
    ghost use Rattle.orders.specs.declared.bounds.Trouble.TheVariants.{NoMemory};

    ghost from_gives = { λ _ trouble. trouble ≡ NoMemory };

    fn from(_failed: AllocFailed<T>) -> Trouble {
        Trouble::NoMemory
    }
}
