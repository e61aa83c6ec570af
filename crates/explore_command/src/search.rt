//! The search, over machines that boot from an image.
ghost use Rattle.std.specs.Prelude.{◌≡◌, IfOk, true};
ghost use Rattle.explore_command.specs.Explored.{IsSearched};
ghost use Rattle.orders.specs.Missed.{is_late_alone};
ghost use Rattle.orders.specs.Tidy.{IsTidy};

use crate::watched::{Endless, Watched};
use blockdev::MemDisk;
use explore::{Found, Missed, Outcome, Progress, Task, Trouble};
use machine::Machine;
use orders::find_outcomes;
use std::alloc::Global;
use sv39::{Plain, Recent};

/// The translator of the machines.
pub(crate) type Translator = Recent<Plain>;

/// The machines that are explored.
pub(crate) type Explored = Machine<MemDisk, Translator>;

/// What a search found, and the first process that was seen to run on for ever.
#[derive(Drop)]
pub(crate) struct Searched {
    pub(crate) outcomes: Vec<Outcome>,
    pub(crate) states: usize,
    pub(crate) missed: Missed,
    pub(crate) endless: Option<Endless>,
}

/// A copy of a machine.
pub(crate) fn copy_of(alloc: Global, first: &Explored) -> Result<Explored, Trouble> {
    match first.copy(alloc, Recent::new(Plain::new())) {
        Ok(copy) => Ok(copy),
        Err(_) => Err(Trouble::NoMemory),
    }
}

/// Explores all schedules of a machine, with bytes typed where nobody is ready.
pub(crate) fn search<P: Progress>(
    alloc: Global,
    first: &Explored,
    task: Task,
    progress: &mut P,
) -> Result<Searched, Trouble>
    requires { IsTidy first.now.state }
    ensures { IfOk result (IsSearched task.entry.keys.now task.entry.bounds first.now.state) }
{
    let mut walker = Watched::new(alloc, first, copy_of(alloc, first)?);
    let mut other = Watched::new(alloc, first, copy_of(alloc, first)?);
    let Found {
        outcomes,
        states,
        missed,
    } = find_outcomes(alloc, &mut walker, &mut other, task, progress)?;
    Ok(Searched {
        outcomes,
        states,
        missed,
        endless: walker.endless(),
    })
}

impl Searched {
    /// Whether nothing was left out but late timer interrupts, and no process was seen to run on for ever.
    pub(crate) fn is_whole(&self) -> bool
        ensures { result ≡ true → is_late_alone self.now.missed ≡ true }
    {
        let missed = self.missed;
        let is_short = !(missed.ticks || missed.states || missed.uptime || missed.stopped);
        is_short && self.endless.is_none()
    }
}
