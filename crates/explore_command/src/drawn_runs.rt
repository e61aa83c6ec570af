//! Runs whose timer interrupts are drawn, where a bound was met.

use crate::drawn::{Draws, draw_run};
use crate::printing::Count;
use crate::search::{Explored, copy_of};
use crate::watcher::Watcher;
use explore::Trouble;
use host::{Failure, Host};
use std::alloc::Global;
use std::fmt;

/// How many runs were drawn, how many of them ended, and how many outcomes are new.
#[derive(Clone, Copy, PartialEq, Eq)]
pub(crate) struct Drawn {
    runs: u64,
    ended: u64,
    new: u64,
}

impl fmt::Display for Drawn {
    fn fmt<W: fmt::Write>(&self, f: &mut fmt::Formatter<W>) -> fmt::Result {
        let (runs, new) = (Count(self.runs, "run"), Count(self.new, "new outcome"));
        let ended = self.ended;
        writeln!(f, "drawn: {runs}, of which {ended} ended; {new}")
    }
}

/// Where runs begin, the machine that does them, and what is typed.
#[derive(Drop)]
pub(crate) struct Runner<'a> {
    pub(crate) first: &'a Explored,
    pub(crate) machine: Explored,
    pub(crate) keys: &'a [u8],
}

impl<'a> Runner<'a> {
    /// A runner over a copy of the first machine.
    pub(crate) fn new(
        alloc: Global,
        first: &'a Explored,
        keys: &'a [u8],
    ) -> Result<Runner<'a>, Trouble> {
        Ok(Runner {
            first,
            machine: copy_of(alloc, first)?,
            keys,
        })
    }
}

/// Draws n runs, and keeps outcomes that are new.
pub(crate) fn draw_runs<'a, H: Host>(
    alloc: Global,
    runner: &mut Runner<'_>,
    watcher: &mut Watcher<'a, '_, H>,
) -> Result<Option<Drawn>, Failure<'a>> {
    let reach = watcher.reach();
    let Some(count) = reach.random else {
        return Ok(None);
    };
    let mut draws = Draws::new(reach.seed);
    let mut drawn = Drawn {
        runs: 0,
        ended: 0,
        new: 0,
    };
    for _ in 0..count.get() {
        if watcher.is_over() {
            break;
        }
        drawn.runs = drawn.runs.saturating_add(1);
        if !runner.machine.copy_from(runner.first) {
            return Err(Failure::Machine);
        }
        let Ok(path) = draw_run(alloc, &mut runner.machine, runner.keys, &mut draws) else {
            return Err(Failure::NoMemory);
        };
        if let Some(path) = path {
            drawn.ended = drawn.ended.saturating_add(1);
            drawn.new = drawn
                .new
                .saturating_add(u64::from(watcher.take_new(&path)?));
        }
    }
    Ok(Some(drawn))
}
