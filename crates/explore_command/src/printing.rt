//! What is printed of an exploration.

use crate::differences::Differences;
use crate::drawn_runs::Drawn;
use crate::nodes::summed;
use crate::search::Searched;
use crate::shown::Shown;
use crate::watcher::Cause;
use commandline::Explore;
use std::fmt;
use std::fmt::Display;
use tracetext::Quoted;

/// How many bytes of the console are shown.
const MOST_BYTES: usize = 40;

/// The first sum of the files.
const SUM: u64 = 0xcbf2_9ce4_8422_2325;

/// What is printed: the words, what was found, the outcomes, why the search was stopped, and how long it took.
#[derive(Clone, Copy)]
pub(crate) struct Telling<'a> {
    pub(crate) words: &'a Explore<'a>,
    pub(crate) searched: &'a Searched,
    pub(crate) shown: &'a [Shown],
    pub(crate) cause: Option<Cause>,
    pub(crate) lasted: Option<u64>,
    pub(crate) drawn: Option<Drawn>,
}

/// A number with a word in the singular or the plural.
#[derive(Clone, Copy)]
pub(crate) struct Count<'a>(pub(crate) u64, pub(crate) &'a str);

impl fmt::Display for Count<'_> {
    fn fmt<W: fmt::Write>(&self, f: &mut fmt::Formatter<W>) -> fmt::Result {
        let (count, word) = (self.0, self.1);
        let ending = if count == 1 { "" } else { "s" };
        write!(f, "{count} {word}{ending}")
    }
}

// How a run ends.
#[derive(Clone, Copy)]
struct End<'a>(&'a Shown);

impl fmt::Display for End<'_> {
    fn fmt<W: fmt::Write>(&self, f: &mut fmt::Formatter<W>) -> fmt::Result {
        match self.0.status {
            Some(status) => write!(f, "halt 1 InitEnded {status}"),
            None if self.0.is_deadlock() => f.write_str("deadlock"),
            None => f.write_str("nobody is ready"),
        }
    }
}

// A sum of the files.
fn files_sum(shown: &Shown) -> u64 {
    let mut sum = SUM;
    for node in &shown.nodes {
        sum = summed(summed(sum, node.path.as_slice()), &node.sum.to_le_bytes());
        sum = summed(sum, &node.stat.kind.to_le_bytes());
    }
    (sum ^ (sum >> 32)) % 0x1_0000_0000
}

// An outcome in a line, and who waits for what in further ones.
#[derive(Clone, Copy)]
struct Line<'a> {
    shown: &'a Shown,
    number: usize,
    // How many runs ended so, if that was counted.
    ends: Option<u64>,
    folder: Option<&'a str>,
}

impl fmt::Display for Line<'_> {
    fn fmt<W: fmt::Write>(&self, f: &mut fmt::Formatter<W>) -> fmt::Result {
        let shown = self.shown;
        let (ticks, end) = (Count(shown.ticks as u64, "tick"), End(shown));
        write!(f, "  {ticks}   {end}   ")?;
        match self.ends {
            Some(ends) => Count(ends, "end").fmt(f)?,
            None => f.write_str("drawn")?,
        }
        let bytes = shown.console.as_slice();
        let console = Quoted {
            bytes: &bytes[..bytes.len().min(MOST_BYTES)],
            is_cut: bytes.len() > MOST_BYTES,
        };
        let sum = files_sum(shown);
        write!(f, "   console {console}   files {sum:08x}")?;
        if let Some(folder) = self.folder {
            let number = self.number;
            write!(f, "   {folder}/{number}.script")?;
        }
        f.write_str("\n")?;
        if shown.status.is_none() {
            write_indented(f, shown.waits.as_str())?;
        }
        Ok(())
    }
}

// Writes lines further to the right.
fn write_indented<W: fmt::Write>(f: &mut fmt::Formatter<W>, text: &str) -> fmt::Result {
    for line in text.split_terminator('\n') {
        writeln!(f, "    {line}")?;
    }
    Ok(())
}

impl<'a> Telling<'a> {
    // How many runs ended.
    fn ends(&self) -> u64 {
        let mut ends: u64 = 0;
        for outcome in &self.searched.outcomes {
            ends = ends.saturating_add(outcome.runs);
        }
        ends
    }

    // The schedules under which there are these outcomes.
    fn schedules(&self) -> &'static str {
        if !self.searched.is_whole() || self.shown.is_empty() {
            "the schedules that were tried"
        } else if self.searched.missed.late {
            "all schedules of fewer than 2^32 ticks"
        } else {
            "all schedules"
        }
    }

    // Writes how many outcomes there are, and under which schedules.
    fn write_head<W: fmt::Write>(&self, f: &mut fmt::Formatter<W>) -> fmt::Result {
        let outcomes = Count(self.shown.len() as u64, "outcome");
        let schedules = self.schedules();
        let states = Count(self.searched.states as u64, "state");
        let ends = Count(self.ends(), "end");
        write!(f, "{outcomes} under {schedules}: {states}, {ends}")?;
        if let Some(lasted) = self.lasted {
            let (seconds, tenths) = (lasted / 1000, lasted / 100 % 10);
            write!(f, ", {seconds}.{tenths} s")?;
        }
        f.write_str("\n")
    }

    // The line of an outcome.
    fn line(&self, number: usize) -> Option<Line<'a>> {
        let ends = match self.searched.outcomes.as_slice().get(number) {
            Some(outcome) => Some(outcome.runs),
            None => None,
        };
        Some(Line {
            shown: self.shown.get(number)?,
            number: number.saturating_add(1),
            ends,
            folder: self.words.scripts,
        })
    }

    // Writes the outcomes, and in what they differ.
    fn write_outcomes<W: fmt::Write>(&self, f: &mut fmt::Formatter<W>) -> fmt::Result {
        for number in 0..self.shown.len() {
            if let Some(line) = self.line(number) {
                line.fmt(f)?;
            }
        }
        if self.shown.len() > 1 {
            Differences(self.shown).fmt(f)?;
        }
        Ok(())
    }

    // Writes which schedules weren't tried, by the bounds.
    fn write_bounds<W: fmt::Write>(&self, f: &mut fmt::Formatter<W>) -> fmt::Result {
        let (missed, reach) = (self.searched.missed, self.words.reach);
        if missed.ticks
            && let Some(ticks) = reach.ticks
        {
            let ticks = Count(u64::from(ticks), "tick");
            writeln!(
                f,
                "not tried: more than {ticks} while a process runs (--ticks)"
            )?;
        }
        if missed.states {
            let states = Count(u64::from(reach.states), "state");
            writeln!(f, "not tried: what follows more than {states} (--states)")?;
        }
        if self.cause == Some(Cause::Late) {
            f.write_str("not tried: what was open when the time was over (--seconds)\n")?;
        }
        Ok(())
    }

    // Writes what else wasn't tried.
    fn write_missed<W: fmt::Write>(&self, f: &mut fmt::Formatter<W>) -> fmt::Result {
        let missed = self.searched.missed;
        if missed.uptime {
            f.write_str("not tried: every time at which a process may call uptime\n")?;
        }
        if missed.late && !self.searched.is_whole() {
            f.write_str("not tried: ticks where nobody runs and all sleeps are over\n")?;
        }
        if let Some(endless) = self.searched.endless {
            let (pid, pc) = (endless.pid, endless.pc);
            writeln!(
                f,
                "pid {pid} may run on for ever at pc {pc:#x}: such a run has no outcome"
            )?;
        }
        Ok(())
    }

    // Writes the script of an outcome that isn't wanted.
    fn write_unwanted<W: fmt::Write>(&self, f: &mut fmt::Formatter<W>) -> fmt::Result {
        let Some(Cause::Unwanted(number)) = self.cause else {
            return Ok(());
        };
        if let Some(shown) = self.shown.get(number) {
            let (number, script) = (number.saturating_add(1), shown.script.as_str());
            write!(
                f,
                "not the wanted outcome: {number}, by the script\n{script}"
            )?;
        }
        Ok(())
    }
}

impl fmt::Display for Telling<'_> {
    fn fmt<W: fmt::Write>(&self, f: &mut fmt::Formatter<W>) -> fmt::Result {
        self.write_head(f)?;
        self.write_outcomes(f)?;
        self.write_bounds(f)?;
        self.write_missed(f)?;
        if let Some(drawn) = self.drawn {
            drawn.fmt(f)?;
        }
        self.write_unwanted(f)
    }
}
