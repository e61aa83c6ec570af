//! The different outcomes of runs.
ghost use Rattle.std.specs.Prelude.{◌≡◌, ◌+◌, ◌<◌, OnOk, length};
ghost use Rattle.orders.specs.Told.{runs_more};

use crate::bounds::Trouble;
use crate::paths::Path;

/// An outcome: events at whose end process 1 has ended, or all wait.
#[derive(Drop)]
pub struct Outcome {
    pub path: Path,
    /// The status of process 1, if it has ended; `None`: all wait.
    pub status: Option<i32>,
    /// How many runs that were looked at ended so.
    pub runs: u64,
}

/// One more run ended with the outcome of this number.
pub fn count_run(told: &mut Vec<Outcome>, number: usize) -> Result<(), Trouble>
    requires { number < length told.old.items }
    ensures { OnOk result (told.new.items ≡ runs_more told.old.items number) }
{
    let outcome = &mut told[number];
    let Some(runs) = outcome.runs.checked_add(1) else {
        return Err(Trouble::TooLong);
    };
    outcome.runs = runs;
    Ok(())
}
