//! The status to exit with.
ghost use Rattle.std.specs.Prelude.{◌≡◌};
ghost use Rattle.explore_command.specs.Verdicts.{status_of};

/// What came of an exploration.
#[derive(Clone, Copy, PartialEq, Eq)]
pub(crate) struct Verdict {
    /// How many outcomes there are.
    pub(crate) outcomes: usize,
    /// Whether nothing was left out but late timer interrupts.
    pub(crate) is_whole: bool,
    /// Whether each outcome is the one that is wanted, if one is.
    pub(crate) is_wanted: bool,
}

impl Verdict {
    /// 0 for one outcome under all schedules, 1 for several, or one that isn't wanted, and 3 where something was left
    /// out, or no run ends.
    pub(crate) fn status(&self) -> u8
        ensures { result ≡ status_of self.now }
    {
        if !self.is_wanted || self.outcomes > 1 {
            1
        } else if !self.is_whole || self.outcomes == 0 {
            3
        } else {
            0
        }
    }
}
