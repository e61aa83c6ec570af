//! What is reported of a run besides the console's bytes and how it ended.
ghost use Rattle.std.specs.Prelude.{None, option_map, ◌≡◌};
ghost use Rattle.run_commands.specs.Tellings.{exit_status, is_told, named_pid, wanted_by};

use crate::finish::Finish;
use crate::progress::{Aside, Meter};
use blockdev::BlockDev;
use commandline::Telling;
use driver::{Detail, Watch};
use host::{End, Failure, Host, Screen, write};
use machine::{Halt, Machine};
use reports::{Fallen, FaultLine, Looked, Outcome, PlayEnd, Reporter, Told, Wanted};
use std::alloc::{AllocError, Global};
use std::io::Write;
use std::num::NonZeroU64;
use sv39::Translate;
use symbolizer::Symbolizer;
use unixmodel::event::Event;

/// Watches a run, and keeps what is to be reported of it.
#[derive(Drop)]
pub struct Teller {
    alloc: Global,
    reporter: Reporter,
    looked: Option<Result<Looked, AllocError>>,
}

/// The process that a number of the command line names; there is no process with a longer one.
pub fn pid_of(number: Option<NonZeroU64>) -> Option<u32>
    ensures { result ≡ option_map named_pid number }
{
    match number {
        Some(number) => Some(u32::try_from(number.get()).unwrap_or(u32::MAX)),
        None => None,
    }
}

impl Teller {
    /// Watches a run whose first program has this name. Addresses have the names of a symbolizer.
    pub fn new(alloc: Global, first: &str, telling: &Telling<'_>, symbolizer: Symbolizer) -> Teller
        ensures wanted { result.reporter.wanted ≡ wanted_by telling.now }
        ensures names { result.reporter.symbolizer ≡ symbolizer }
        ensures looked { result.looked ≡ None }
    {
        let wanted = Wanted {
            report: telling.report,
            json: telling.json.is_some(),
            registers: pid_of(telling.registers),
            memory: pid_of(telling.memory),
            faults: telling.faults,
        };
        Teller::of(alloc, first, wanted, symbolizer)
    }

    // Watches for what is wanted.
    fn of(alloc: Global, first: &str, wanted: Wanted, symbolizer: Symbolizer) -> Teller
        ensures wanted { result.reporter.wanted ≡ wanted }
        ensures names { result.reporter.symbolizer ≡ symbolizer }
        ensures looked { result.looked ≡ None }
    {
        Teller {
            alloc,
            reporter: Reporter::new(alloc, first.as_bytes(), wanted, symbolizer),
            looked: None,
        }
    }

    // Watches for faults alone, if they are wanted.
    fn of_faults(alloc: Global, first: &str, faults: bool, symbolizer: Symbolizer) -> Teller {
        let wanted = Wanted {
            report: false,
            json: false,
            registers: None,
            memory: None,
            faults,
        };
        Teller::of(alloc, first, wanted, symbolizer)
    }

    // Takes the fault of the last event, if it is to be printed now.
    fn take_news(&mut self) -> Option<Fallen> {
        self.reporter.take_news()
    }

    // The line of a fault.
    fn line(&self, fallen: &Fallen) -> Result<FaultLine<'_>, AllocError> {
        self.reporter.line(fallen)
    }

    // What it says of a run that ended so, if it looked at the end.
    fn told(&self, outcome: Outcome) -> Result<Option<Told>, AllocError> {
        match &self.looked {
            Some(Ok(looked)) => Ok(Some(self.reporter.tell(self.alloc, looked, outcome)?)),
            Some(Err(_)) => Err(AllocError),
            None => Ok(None),
        }
    }
}

impl Watch for Teller {
    fn detail(&self) -> Detail {
        if self.reporter.sees_calls() {
            Detail::Calls
        } else {
            Detail::Nothing
        }
    }

    #[inline]
    fn before<D: BlockDev, T: Translate>(&mut self, machine: &Machine<D, T>, event: Event) {
        if self.reporter.sees_calls() {
            self.reporter.before(machine, event);
        }
    }

    #[inline]
    fn after<D: BlockDev, T: Translate>(
        &mut self,
        machine: &Machine<D, T>,
        _event: Event,
        ended: Result<(), Halt>,
    ) {
        if self.reporter.sees_calls() {
            self.reporter.after(machine, ended);
        }
    }

    fn passed<D: BlockDev, T: Translate>(&mut self, _machine: &Machine<D, T>, steps: u32) {
        self.reporter.passed(steps);
    }

    fn end<D: BlockDev, T: Translate>(&mut self, machine: &Machine<D, T>) {
        self.looked = Some(self.reporter.look(self.alloc, machine));
    }
}

/// A teller that prints faults as they come, if they are wanted, each on a line of its own.
#[derive(Drop)]
pub(crate) struct Crier<'a, S, W> {
    teller: Teller,
    meter: &'a Meter<S>,
    out: W,
}

impl<'a, S: Screen, W: Write + Drop> Crier<'a, S, W> {
    /// A teller whose faults go to this output, before whose bytes the meter's line is taken away.
    pub(crate) fn new(teller: Teller, meter: &'a Meter<S>, out: W) -> Self
        ensures teller { result.teller ≡ teller }
        ensures out { result.out ≡ out }
    {
        Crier { teller, meter, out }
    }

    /// The teller.
    pub(crate) fn into_teller(self) -> Teller
        ensures { result ≡ self.entry.teller }
    {
        self.teller
    }
}

impl<'a, S: Screen> Crier<'a, S, Aside<'a, S>> {
    /// Prints faults alone, on the terminal, if there is one.
    pub(crate) fn on_screen(alloc: Global, meter: &'a Meter<S>, symbolizer: Symbolizer) -> Self {
        let teller = Teller::of_faults(alloc, "/init", meter.has_screen(), symbolizer);
        Crier::new(teller, meter, Aside { meter })
    }
}

impl<S: Screen, W: Write> Watch for Crier<'_, S, W> {
    fn detail(&self) -> Detail {
        self.teller.detail()
    }

    fn before<D: BlockDev, T: Translate>(&mut self, machine: &Machine<D, T>, event: Event) {
        self.teller.before(machine, event);
    }

    fn after<D: BlockDev, T: Translate>(
        &mut self,
        machine: &Machine<D, T>,
        event: Event,
        ended: Result<(), Halt>,
    ) {
        self.teller.after(machine, event, ended);
        let Some(fallen) = self.teller.take_news() else {
            return;
        };
        self.meter.begin_line();
        let _ = match self.teller.line(&fallen) {
            Ok(line) => writeln!(self.out, "{line}"),
            Err(_) => writeln!(self.out, "{}", Failure::NoMemory),
        };
    }

    fn passed<D: BlockDev, T: Translate>(&mut self, machine: &Machine<D, T>, steps: u32) {
        self.teller.passed(machine, steps);
    }

    fn end<D: BlockDev, T: Translate>(&mut self, machine: &Machine<D, T>) {
        self.teller.end(machine);
    }
}

/// Two watchers, the first one first.
#[derive(Drop)]
pub struct Both<A, B> {
    pub first: A,
    pub second: B,
}

impl<A: Watch, B: Watch> Watch for Both<A, B> {
    fn detail(&self) -> Detail {
        self.first.detail().max(self.second.detail())
    }

    fn before<D: BlockDev, T: Translate>(&mut self, machine: &Machine<D, T>, event: Event) {
        self.first.before(machine, event);
        self.second.before(machine, event);
    }

    fn after<D: BlockDev, T: Translate>(
        &mut self,
        machine: &Machine<D, T>,
        event: Event,
        ended: Result<(), Halt>,
    ) {
        self.first.after(machine, event, ended);
        self.second.after(machine, event, ended);
    }

    fn passed<D: BlockDev, T: Translate>(&mut self, machine: &Machine<D, T>, steps: u32) {
        self.first.passed(machine, steps);
        self.second.passed(machine, steps);
    }

    fn written_out(&mut self, event: Event, made: u32) {
        self.first.written_out(event, made);
        self.second.written_out(event, made);
    }

    fn repeated(&mut self, event: Event, times: u32) {
        self.first.repeated(event, times);
        self.second.repeated(event, times);
    }

    fn end<D: BlockDev, T: Translate>(&mut self, machine: &Machine<D, T>) {
        self.first.end(machine);
        self.second.end(machine);
    }
}

/// A watcher that is lent to a run.
#[derive(Drop)]
pub(crate) struct Lent<'a, V> {
    pub watch: &'a mut V,
}

impl<V: Watch> Watch for Lent<'_, V> {
    #[inline]
    fn detail(&self) -> Detail {
        self.watch.detail()
    }

    #[inline]
    fn before<D: BlockDev, T: Translate>(&mut self, machine: &Machine<D, T>, event: Event) {
        self.watch.before(machine, event);
    }

    #[inline]
    fn after<D: BlockDev, T: Translate>(
        &mut self,
        machine: &Machine<D, T>,
        event: Event,
        ended: Result<(), Halt>,
    ) {
        self.watch.after(machine, event, ended);
    }

    #[inline]
    fn passed<D: BlockDev, T: Translate>(&mut self, machine: &Machine<D, T>, steps: u32) {
        self.watch.passed(machine, steps);
    }

    fn written_out(&mut self, event: Event, made: u32) {
        self.watch.written_out(event, made);
    }

    fn repeated(&mut self, event: Event, times: u32) {
        self.watch.repeated(event, times);
    }

    fn end<D: BlockDev, T: Translate>(&mut self, machine: &Machine<D, T>) {
        self.watch.end(machine);
    }
}

/// A run that ended: how, whether all files were written, and what is to be said of it besides.
#[derive(Drop)]
pub struct Ended<'a> {
    pub finish: Finish,
    pub written: Result<(), Failure<'a>>,
    pub teller: Option<Teller>,
}

/// Whether anything is to be reported for which a run has to be watched.
pub fn looks_on(telling: &Telling<'_>) -> bool
    ensures { result ≡ is_told telling.now }
{
    telling.report
        || telling.json.is_some()
        || telling.registers.is_some()
        || telling.memory.is_some()
        || telling.faults
}

/// How a run ended, as a report has it.
pub(crate) fn outcome_of(end: End, play: Option<PlayEnd>) -> Outcome {
    let halt = match end {
        End::Running => None,
        End::Halted(halt) => Some(halt),
    };
    Outcome { halt, play }
}

/// Writes what the teller has kept of a run that ended so, if there is one: on standard error, and as JSON in the file
/// that is named.
pub(crate) fn tell_kept<'a, H: Host, E: Write>(
    teller: Option<Teller>,
    outcome: Outcome,
    json: Option<&'a str>,
    host: &mut H,
    stderr: &mut E,
) -> Result<(), Failure<'a>> {
    let Some(teller) = teller else {
        return Ok(());
    };
    let told = match teller.told(outcome) {
        Ok(Some(told)) => told,
        Ok(None) => return Ok(()),
        Err(_) => return Err(Failure::NoMemory),
    };
    let _ = stderr.write_all(told.text.as_bytes());
    match (json, told.json) {
        (Some(name), Some(json)) => write(host, name, json.as_bytes()),
        _ => Ok(()),
    }
}

/// The status to exit with. Where process 1's is wanted it is its low 8 bits, and 1 where it has not ended.
pub(crate) fn status_of(telling: &Telling<'_>, end: End) -> u8
    ensures { result ≡ exit_status telling.now end }
{
    match end {
        _ if !telling.status => end.status(),
        End::Halted(Halt::InitEnded(status)) => (status.cast_unsigned() % 0x100) as u8,
        _ => 1,
    }
}
