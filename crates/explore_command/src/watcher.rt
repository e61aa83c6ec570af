//! What is done while a search goes on: outcomes are kept as they come, and their scripts written.

use crate::search::Explored;
use crate::shown::{Shown, ShownFault, show};
use commandline::{Explore, Reach};
use explore::{Outcome, Path, Progress, Standing};
use host::{Failure, Host, Screen, write};
use std::alloc::{AllocError, Global};
use std::fmt;

/// How many milliseconds there are between two lines.
const REST: u64 = 1000;

/// Clears the line of a terminal, with the cursor at its beginning.
const CLEAR: &str = "\r\x1b[K";

// How far a search is.
#[derive(Clone, Copy)]
struct Line {
    ticks: u32,
    states: usize,
    outcomes: usize,
    ends: u64,
    waiting: usize,
    rate: u64,
}

impl fmt::Display for Line {
    fn fmt<W: fmt::Write>(&self, f: &mut fmt::Formatter<W>) -> fmt::Result {
        let (ticks, states, outcomes) = (self.ticks, self.states, self.outcomes);
        let (ends, waiting, rate) = (self.ends, self.waiting, self.rate);
        write!(
            f,
            "{CLEAR}{ticks} ticks: {states} states, {rate} a second, {waiting} wait; {outcomes} outcomes, {ends} ends"
        )
    }
}

/// What is wanted of each outcome.
#[derive(Clone, Copy)]
pub(crate) struct Want<'a> {
    pub(crate) console: Option<&'a [u8]>,
    pub(crate) status: Option<i32>,
}

impl Want<'_> {
    /// Whether an outcome is the wanted one.
    fn is_met(&self, shown: &Shown) -> bool {
        let is_printed = match self.console {
            Some(bytes) => shown.console.as_slice() == bytes,
            None => true,
        };
        is_printed && (self.status.is_none() || self.status == shown.status)
    }
}

/// Why a search was stopped.
#[derive(Clone, Copy, PartialEq, Eq)]
pub(crate) enum Cause {
    /// The outcome of this number isn't the wanted one.
    Unwanted(usize),
    /// Its time is over.
    Late,
    /// It can't be shown, or its script can't be written.
    Failed,
}

/// Watches a search.
#[derive(Drop)]
pub(crate) struct Watcher<'a, 'b, H: Host> {
    alloc: Global,
    words: &'b Explore<'a>,
    first: &'b Explored,
    // The machine that shows outcomes, except while one is shown.
    slot: Option<Explored>,
    want: &'b Want<'b>,
    host: &'b mut H,
    // The outcomes so far.
    shown: Vec<Shown>,
    // Why it was stopped, if it was.
    cause: Option<Cause>,
    failure: Option<Failure<'a>>,
    begun: u64,
    due: u64,
    // How many states there were when the last line was shown.
    told: usize,
    is_line: bool,
}

/// The name of the file with the script of an outcome.
pub(crate) fn script_name(
    alloc: Global,
    folder: &str,
    number: usize,
) -> Result<String, AllocError> {
    format!(in alloc; "{folder}/{number}.script")
}

impl<'a, 'b, H: Host> Watcher<'a, 'b, H> {
    /// Watches a search that begins, with a machine of the same size.
    pub(crate) fn new(
        alloc: Global,
        words: &'b Explore<'a>,
        machines: (&'b Explored, Explored),
        want: &'b Want<'b>,
        host: &'b mut H,
    ) -> Self {
        let begun = host.milliseconds().unwrap_or(0);
        let (first, machine) = machines;
        Watcher {
            alloc,
            words,
            first,
            slot: Some(machine),
            want,
            host,
            shown: Vec::new(alloc),
            cause: None,
            failure: None,
            begun,
            due: begun.saturating_add(REST),
            told: 0,
            is_line: false,
        }
    }

    /// How many milliseconds have passed, where there is a clock.
    pub(crate) fn lasted(&self) -> Option<u64> {
        let now = self.host.milliseconds()?;
        Some(now.saturating_sub(self.begun))
    }

    // Writes the script of the last outcome, if scripts are written.
    fn write_script(&mut self, text: &str) -> Result<(), Failure<'a>> {
        let Some(folder) = self.words.scripts else {
            return Ok(());
        };
        let Ok(name) = script_name(self.alloc, folder, self.shown.len().saturating_add(1)) else {
            return Err(Failure::NoMemory);
        };
        match write(self.host, name.as_str(), text.as_bytes()) {
            Ok(()) => Ok(()),
            Err(_) => Err(Failure::Write(folder)),
        }
    }

    // The outcome to which a path leads.
    fn shown_by(&mut self, path: &Path) -> Result<Shown, Failure<'a>> {
        match show(self.alloc, self.first, &mut self.slot, path) {
            Ok(shown) => Ok(shown),
            Err(ShownFault::NoMemory) => Err(Failure::NoMemory),
            Err(ShownFault::Machine) => Err(Failure::Machine),
        }
    }

    // Keeps one more outcome, and writes its script.
    fn keep(&mut self, shown: Shown) -> Result<(), Failure<'a>> {
        self.write_script(shown.script.as_str())?;
        if self.cause.is_none() && !self.want.is_met(&shown) {
            self.cause = Some(Cause::Unwanted(self.shown.len()));
        }
        match self.shown.push(shown) {
            Ok(()) => Ok(()),
            Err(_) => Err(Failure::NoMemory),
        }
    }

    /// Keeps the outcome to which a path leads, if it is new, and returns whether it is.
    pub(crate) fn take_new(&mut self, path: &Path) -> Result<bool, Failure<'a>> {
        let shown = self.shown_by(path)?;
        if self.shown.iter().any(|earlier| earlier.is_same(&shown)) {
            return Ok(false);
        }
        self.keep(shown)?;
        Ok(true)
    }

    /// Whether it was stopped, or its time is over.
    pub(crate) fn is_over(&mut self) -> bool {
        if let Some(now) = self.host.milliseconds()
            && self.is_late(now)
        {
            self.cause = self.cause.or(Some(Cause::Late));
        }
        self.cause.is_some()
    }

    // Keeps one more outcome, to which a path leads.
    fn take(&mut self, path: &Path) -> Result<(), Failure<'a>> {
        let shown = self.shown_by(path)?;
        self.keep(shown)
    }

    /// Keeps the outcomes that are new.
    pub(crate) fn take_all(&mut self, outcomes: &[Outcome]) {
        for outcome in outcomes.iter().skip(self.shown.len()) {
            if let Err(failure) = self.take(&outcome.path) {
                self.failure = Some(failure);
                self.cause = Some(Cause::Failed);
                return;
            }
        }
    }

    /// How far the words let it go.
    pub(crate) fn reach(&self) -> Reach {
        self.words.reach
    }

    /// The outcomes, and why it was stopped, if it was; an error is what failed.
    pub(crate) fn finish(self) -> Result<(Vec<Shown>, Option<Cause>), Failure<'a>> {
        match self.failure {
            Some(failure) => Err(failure),
            None => Ok((self.shown, self.cause)),
        }
    }

    // Whether the time is over.
    fn is_late(&self, now: u64) -> bool {
        match self.words.reach.seconds {
            Some(seconds) => {
                now.saturating_sub(self.begun) >= seconds.get().saturating_mul(1000)
            }
            None => false,
        }
    }

    // Shows how far the search is, where that is due.
    fn tell(&mut self, standing: &Standing, now: u64) {
        if now < self.due {
            return;
        }
        let Some(screen) = self.host.screen() else {
            return;
        };
        let mut ends: u64 = 0;
        for outcome in standing.outcomes {
            ends = ends.saturating_add(outcome.runs);
        }
        let lasted = now.saturating_sub(self.due.saturating_sub(REST)).max(1);
        let more = standing.states.saturating_sub(self.told) as u64;
        screen.show(&Line {
            ticks: standing.ticks,
            states: standing.states,
            outcomes: standing.outcomes.len(),
            ends,
            waiting: standing.waiting,
            rate: more.saturating_mul(1000) / lasted,
        });
        self.told = standing.states;
        self.due = now.saturating_add(REST);
        self.is_line = true;
    }

    /// Takes the line away, if one is shown.
    pub(crate) fn clear(&mut self) {
        if let Some(screen) = self.host.screen()
            && self.is_line
        {
            screen.show(&CLEAR);
            self.is_line = false;
        }
    }
}

impl<H: Host> Progress for Watcher<'_, '_, H> {
    fn goes_on(&mut self, standing: &Standing) -> bool {
        self.take_all(standing.outcomes);
        if self.cause.is_some() {
            return false;
        }
        let Some(now) = self.host.milliseconds() else {
            return true;
        };
        if self.is_late(now) {
            self.cause = Some(Cause::Late);
            return false;
        }
        self.tell(standing, now);
        true
    }
}
