//! How runs end.
ghost use Rattle.std.specs.Prelude.{IfOk, option_map, ◌≡◌, ◌≢◌};
ghost use Rattle.calls.specs.declared.halt.Halt.TheVariants.{Console};
ghost use Rattle.driver.specs.Driven.{halts};
ghost use Rattle.host.specs.Reports.{end_of};
ghost use Rattle.host.specs.declared.report.End.TheVariants.{Halted};

use blockdev::BlockDev;
use driver::Unreached;
use host::End;
use machine::{Halt, Machine};
use reports::PlayEnd;
use std::fmt;
use sv39::Translate;
use waits::{Waiters, who_waits};

/// What a play waited for in vain, and who waits for what, if nobody is ready.
#[derive(Drop)]
pub struct InVain {
    pub unreached: Unreached,
    pub waiters: Option<Waiters>,
}

impl fmt::Display for InVain {
    fn fmt<W: fmt::Write>(&self, f: &mut fmt::Formatter<W>) -> fmt::Result {
        let Unreached { line, steps } = self.unreached;
        write!(f, "{line}: not reached in {steps} steps")?;
        match &self.waiters {
            Some(waiters) => write!(f, "; nobody is ready: {waiters}"),
            None => Ok(()),
        }
    }
}

/// How a run ended: how the machine did, and what a play waited for in vain, if it did.
#[derive(Drop)]
pub struct Finish {
    pub end: End,
    pub in_vain: Option<InVain>,
}

impl Finish {
    /// What became of the play.
    pub(crate) fn play_end(&self) -> PlayEnd {
        match (self.end, &self.in_vain) {
            (End::Running, Some(InVain { unreached, .. })) => PlayEnd::Unreached {
                line: unreached.line,
                steps: unreached.steps,
            },
            (End::Running, None) => PlayEnd::Done,
            (End::Halted(_), _) => PlayEnd::Halted,
        }
    }
}

/// What a play waited for in vain on a machine, if it did.
pub(crate) fn waited_in_vain<D: BlockDev, T: Translate>(
    machine: &Machine<D, T>,
    unreached: Option<Unreached>,
) -> Option<InVain>
    ensures { option_map (λ v. v.unreached) result ≡ unreached }
{
    let unreached = unreached?;
    let waiters = if machine.is_idle() {
        Some(who_waits(machine))
    } else {
        None
    };
    Some(InVain { unreached, waiters })
}

/// How a play ended for the machine, and what it waited for in vain, if it did.
pub(crate) fn parts(ended: Result<Option<Unreached>, Halt>) -> (Result<(), Halt>, Option<Unreached>)
    ensures ended { result.0 ≡ halts ended }
    ensures unreached { IfOk ended (λ unreached. result.1 ≡ unreached) }
{
    match ended {
        Ok(unreached) => (Ok(()), unreached),
        Err(halt) => (Err(halt), None),
    }
}

/// How a run ended. Bytes that the writer had kept back and cannot write are lost: then the console failed.
pub fn end_of(ended: Result<(), Halt>, is_written: bool) -> End
    ensures { result ≡ end_of ended is_written }
{
    if !is_written {
        return End::Halted(Halt::Console);
    }
    match ended {
        Ok(()) => End::Running,
        Err(halt) => End::Halted(halt),
    }
}

/// How a run ended: where an output has failed it was the console.
pub fn end_with(ended: Result<(), Halt>, failures: u64, is_written: bool) -> End
    ensures sound { failures ≡ 0 → result ≡ end_of ended is_written }
    ensures fault { failures ≢ 0 → result ≡ Halted Console }
{
    end_of(ended, is_written && failures == 0)
}
