//! What is noted while a machine runs.
ghost use Rattle.std.specs.Prelude.{[], ◌+◌, ◌-◌, ◌^◌, ◌≡◌, Err, IfOk, None, Ok, min};
ghost use Rattle.reports.specs.Watching.{counted, sees_calls};

use crate::by_pid::ByPid;
use crate::ended::{End, Ended, Kill, Kills, has_ended};
use crate::last_calls::LastCalls;
use crate::memory::MemoryReport;
use crate::registers::{Found, RegisterReport};
use crate::report::{FaultLine, Report};
use crate::teller::Wanted;
use crate::who::{Name, Who};
use addresses::Name as PlaceName;
use arrayvec::ArrayVec;
use blockdev::BlockDev;
use jsonrows::int;
use machine::{Halt, Machine, Seen};
use next_fault::{Fault, Named, fault_of, word};
use std::alloc::{AllocError, Global};
use std::fmt;
use sv39::Translate;
use symbolizer::Symbolizer;
use tracetext::Asked;
use unixmodel::event::Event;
use unixmodel::limits::PROCESSES;

/// How many faults are kept; those that come later are counted.
const MOST_FAULTS: usize = 64;

/// How many processes that ended are kept; those that end later are counted.
const MOST_ENDED: usize = 1024;

/// The word of ecall, and the numbers of fork, exit, kill and exec.
const ECALL: u32 = 0x73;

const FORK: u64 = 1;

const EXIT: u64 = 2;

const KILL: u64 = 6;

const EXEC: u64 = 7;

/// The registers of a call's number and of its first argument, which has the answer then.
const A7: usize = 17;

const A0: usize = 10;

/// What the next step does that is noted.
#[derive(Clone, Copy)]
enum Next {
    Other,
    Turn,
    Faults(Fault, [u64; 32]),
    Calls(Asked, Effect),
}

/// What a call does that is noted.
#[derive(Clone, Copy)]
enum Effect {
    Other,
    Forks,
    Exits(i32),
    Kills(u32),
    Execs(Name),
}

/// A process that a fault ended, at the event of this number, its registers then, and the calls that it made last.
#[derive(Clone, Copy)]
pub struct Fallen {
    pub(crate) at: u64,
    pub(crate) who: Who,
    pub(crate) fault: Fault,
    pub(crate) registers: [u64; 32],
    pub(crate) calls: LastCalls,
}

/// How many events of each kind there were.
#[derive(Clone, Copy)]
pub(crate) struct Counts {
    pub steps: u64,
    pub ticks: u64,
    pub keys: u64,
}

impl fmt::Display for Counts {
    fn fmt<W: fmt::Write>(&self, f: &mut fmt::Formatter<W>) -> fmt::Result {
        let (steps, ticks, keys) = (self.steps, self.ticks, self.keys);
        writeln!(f, "report: {steps} steps, {ticks} ticks, {keys} keys")
    }
}

/// Watches a machine that is given events: it counts them, and notes the faults that come, the processes that end, the
/// names of programs, and for a report the last calls of each process.
#[derive(Drop)]
pub struct Reporter {
    wanted: Wanted,
    counts: Counts,
    // What the last event returned.
    ended: Result<(), Halt>,
    // The process that ran last.
    running: u32,
    next: Next,
    programs: ByPid<Name>,
    calls: ByPid<LastCalls>,
    symbolizer: Symbolizer,
    faults: Vec<Fallen>,
    // How many faults came that aren't kept.
    more_faults: u64,
    // The fault of the process whose registers are wanted.
    crash: Option<Fallen>,
    // The last fault, if it is to be printed as it comes and was not taken.
    news: Option<Fallen>,
    kills: Kills,
    ended_ones: Vec<Ended>,
    // How many processes ended that aren't kept.
    more_ended: u64,
}

// What a process does that makes a call.
fn asked_of(seen: &Seen, at: u64) -> Asked {
    let registers = &seen.registers;
    Asked {
        pid: seen.pid,
        number: (registers[A7] % 0x1_0000_0000) as u32,
        arguments: [
            registers[A0],
            registers[11],
            registers[12],
            registers[13],
            registers[14],
            registers[15],
        ],
        at,
    }
}

// What a process does next that is noted, in the event of this number.
fn next_of<D: BlockDev, T: Translate>(machine: &Machine<D, T>, pid: u32, at: u64) -> Next {
    let Some(seen) = machine.inspect(pid) else {
        return Next::Other;
    };
    if let Some(fault) = fault_of(machine, pid) {
        return Next::Faults(fault, seen.registers);
    }
    match word(machine, pid, seen.pc) {
        Some(ECALL) => Next::Calls(asked_of(&seen, at), effect_of(machine, &seen)),
        _ => Next::Other,
    }
}

// What the call does that a process makes.
fn effect_of<D: BlockDev, T: Translate>(machine: &Machine<D, T>, seen: &Seen) -> Effect {
    match seen.registers[A7] % 0x1_0000_0000 {
        FORK => Effect::Forks,
        EXIT => Effect::Exits(int(seen.registers[A0])),
        KILL => Effect::Kills(int(seen.registers[A0]).cast_unsigned()),
        EXEC => match Name::at(machine, seen.pid, seen.registers[A0]) {
            Some(name) => Effect::Execs(name),
            None => Effect::Other,
        },
        _ => Effect::Other,
    }
}

// The parent of the process with a pid, 0 where there is none.
fn parent_of<D: BlockDev, T: Translate>(machine: &Machine<D, T>, pid: u32) -> u32 {
    match machine.inspect(pid) {
        Some(seen) => seen.parent,
        None => 0,
    }
}

/// The pids of all processes.
pub(crate) fn pids<D: BlockDev, T: Translate>(machine: &Machine<D, T>) -> ArrayVec<u32, PROCESSES> {
    let mut pids = ArrayVec::new();
    let mut last = 0;
    for _place in 0..PROCESSES {
        let Some(pid) = machine.next_pid(last) else {
            return pids;
        };
        if pids.try_push(pid).is_err() {
            return pids;
        }
        last = pid;
    }
    pids
}

// The answer of a call that wasn't refused.
fn answer<D: BlockDev, T: Translate>(machine: &Machine<D, T>, pid: u32) -> Option<u64> {
    let answer = machine.inspect(pid)?.registers[A0];
    if answer == u64::MAX {
        return None;
    }
    Some(answer)
}

impl Reporter {
    /// Watches from the boot of a machine, whose first program has this name, for what is wanted. Addresses have the
    /// names of a symbolizer.
    pub fn new(alloc: Global, first: &[u8], wanted: Wanted, symbolizer: Symbolizer) -> Reporter
        ensures wanted { result.wanted ≡ wanted }
        ensures names { result.symbolizer ≡ symbolizer }
        ensures counts { result.counts ≡ record { steps = 0; ticks = 0; keys = 0 } }
        ensures faults { result.faults.items ≡ [] }
        ensures more_faults { result.more_faults ≡ 0 }
        ensures ended { result.ended_ones.items ≡ [] }
        ensures more_ended { result.more_ended ≡ 0 }
        ensures news { result.news ≡ None }
        ensures crash { result.crash ≡ None }
    {
        Reporter {
            wanted,
            counts: Counts {
                steps: 0,
                ticks: 0,
                keys: 0,
            },
            ended: Ok(()),
            running: 1,
            next: Next::Other,
            programs: ByPid::of_first(Name::new(first)),
            calls: ByPid::new(),
            symbolizer,
            faults: Vec::new(alloc),
            more_faults: 0,
            crash: None,
            news: None,
            kills: Kills::new(),
            ended_ones: Vec::new(alloc),
            more_ended: 0,
        }
    }

    /// Whether it watches calls, faults and turns. For the pages of a process alone, it looks after the last event.
    pub fn sees_calls(&self) -> bool
        ensures { result ≡ sees_calls self.now.wanted }
    {
        let wanted = self.wanted;
        wanted.report || wanted.json || wanted.registers.is_some() || wanted.faults
    }

    // Whether it keeps the last calls of processes.
    fn keeps_calls(&self) -> bool {
        self.wanted.report || self.wanted.json
    }

    /// What is wanted of the run.
    pub(crate) fn wanted(&self) -> Wanted {
        self.wanted
    }

    /// The report of the machine after its last event.
    pub(crate) fn report<'a, D: BlockDev, T: Translate>(
        &'a self,
        machine: &'a Machine<D, T>,
    ) -> Report<'a, D, T> {
        Report::new(self, machine, self.ended)
    }

    /// The registers of a process of the machine.
    pub(crate) fn registers<D: BlockDev, T: Translate>(
        &self,
        machine: &Machine<D, T>,
        pid: u32,
    ) -> Result<RegisterReport<'_>, AllocError> {
        let crash = match self.crash {
            Some(fallen) if fallen.who.pid == pid => Some(fallen),
            _ => None,
        };
        let found = Found::of(machine.inspect(pid), crash);
        let who = match found {
            Found::AtFault(fallen) => fallen.who,
            Found::There(_) | Found::Nowhere => self.who(pid),
        };
        let name = match found.pc() {
            Some(pc) => self.name(&who, pc)?,
            None => None,
        };
        Ok(RegisterReport { who, found, name })
    }

    /// The name of an address of a process's program, if it is known.
    pub(crate) fn name(&self, who: &Who, pc: u64) -> Result<Option<PlaceName<'_>>, AllocError> {
        match &who.name {
            Some(name) => self.symbolizer.at(name.shown(), pc),
            None => Ok(None),
        }
    }

    /// A fault, with the name of its pc, if that is known.
    pub(crate) fn named(&self, fallen: &Fallen) -> Result<Named<PlaceName<'_>>, AllocError>
        ensures { IfOk result (λ named. named.fault ≡ fallen.now.fault) }
    {
        Ok(Named {
            fault: fallen.fault,
            name: self.name(&fallen.who, fallen.fault.pc)?,
        })
    }

    /// The line of a fault.
    pub fn line(&self, fallen: &Fallen) -> Result<FaultLine<'_>, AllocError>
        ensures who { IfOk result (λ line. line.who ≡ fallen.now.who) }
        ensures fault { IfOk result (λ line. line.fault.fault ≡ fallen.now.fault) }
    {
        Ok(FaultLine {
            who: fallen.who,
            fault: self.named(fallen)?,
        })
    }

    /// The pages of a process of the machine.
    pub(crate) fn memory<'a, D: BlockDev, T: Translate>(
        &self,
        machine: &'a Machine<D, T>,
        pid: u32,
    ) -> MemoryReport<'a, D, T> {
        MemoryReport::new(self.who(pid), machine)
    }

    /// Takes the fault of the last event, if it had one and faults are wanted as they come.
    pub fn take_news(&mut self) -> Option<Fallen>
        ensures taken { result ≡ self.old.news }
        ensures left { self.new.news ≡ None }
    {
        self.news.take()
    }

    pub(crate) fn counts(&self) -> Counts {
        self.counts
    }

    /// The faults that are kept.
    pub(crate) fn faults(&self) -> &[Fallen] {
        self.faults.as_slice()
    }

    /// How many faults came later.
    pub(crate) fn more_faults(&self) -> u64 {
        self.more_faults
    }

    /// The processes that ended, as far as they are kept.
    pub(crate) fn ended_ones(&self) -> &[Ended] {
        self.ended_ones.as_slice()
    }

    /// How many ended later.
    pub(crate) fn more_ended(&self) -> u64 {
        self.more_ended
    }

    // The number of the last event.
    fn at(&self) -> u64 {
        let counts = self.counts;
        counts
            .steps
            .saturating_add(counts.ticks)
            .saturating_add(counts.keys)
    }

    pub(crate) fn who(&self, pid: u32) -> Who {
        let name = if self.sees_calls() {
            self.programs.get(pid)
        } else {
            None
        };
        Who { pid, name }
    }

    // What the next step does that is noted.
    fn look_ahead<D: BlockDev, T: Translate>(&mut self, machine: &Machine<D, T>) -> Next
        ensures { self.new ≡ record self.old { running = self.new.running } }
    {
        let Some(pid) = machine.running() else {
            return Next::Turn;
        };
        self.running = pid;
        next_of(machine, pid, self.at())
    }

    // The last calls of a process.
    fn last_calls(&self, pid: u32) -> LastCalls {
        match self.calls.get(pid) {
            Some(calls) => calls,
            None => LastCalls::new(),
        }
    }

    // Notes the call that the next step makes.
    fn note_call<D: BlockDev, T: Translate>(&mut self, machine: &Machine<D, T>)
        ensures { self.new ≡ record self.old { calls = self.new.calls } }
    {
        if let Next::Calls(asked, _) = self.next
            && self.keeps_calls()
        {
            let mut calls = self.last_calls(asked.pid);
            calls.begin(asked);
            self.calls.set(machine, asked.pid, calls);
        }
    }

    // Notes the answer of the last call of the process that has the hart: its a0 as it goes on.
    fn note_answer<D: BlockDev, T: Translate>(&mut self, machine: &Machine<D, T>) {
        if !self.keeps_calls() {
            return;
        }
        if let Some(pid) = machine.running()
            && let Some(seen) = machine.inspect(pid)
            && let Some(mut calls) = self.calls.get(pid)
        {
            calls.answer(seen.registers[A0].cast_signed());
            self.calls.set(machine, pid, calls);
        }
    }

    // Keeps a process that ended, or counts it.
    fn keep_ended(&mut self, ended: Ended) {
        if self.ended_ones.len() >= MOST_ENDED || self.ended_ones.push(ended).is_err() {
            self.more_ended = self.more_ended.saturating_add(1);
        }
    }

    // The process with a pid ended.
    fn note_end<D: BlockDev, T: Translate>(&mut self, machine: &Machine<D, T>, pid: u32, end: End) {
        let ended = Ended {
            at: self.at(),
            who: self.who(pid),
            parent: parent_of(machine, pid),
            end,
        };
        self.keep_ended(ended);
    }

    // Keeps a fault, or counts it.
    fn keep_fault(&mut self, fallen: Fallen) {
        if self.wanted.registers == Some(fallen.who.pid) {
            self.crash = Some(fallen);
        }
        if self.wanted.faults {
            self.news = Some(fallen);
        }
        if self.faults.len() >= MOST_FAULTS || self.faults.push(fallen).is_err() {
            self.more_faults = self.more_faults.saturating_add(1);
        }
    }

    // The running process faulted, and ended of it.
    fn note_fault<D: BlockDev, T: Translate>(
        &mut self,
        machine: &Machine<D, T>,
        fault: Fault,
        registers: [u64; 32],
    ) {
        let pid = self.running;
        let fallen = Fallen {
            at: self.at(),
            who: self.who(pid),
            fault,
            registers,
            calls: self.last_calls(pid),
        };
        self.keep_fault(fallen);
        self.note_end(machine, pid, End::FAULT);
    }

    // The running process marked another to be killed, if its call wasn't refused.
    fn note_kill<D: BlockDev, T: Translate>(&mut self, machine: &Machine<D, T>, pid: u32) {
        let killer = self.running;
        if answer(machine, killer).is_some() && !has_ended(machine, pid) {
            self.kills.mark(Kill { pid, killer });
        } else if pid == killer && has_ended(machine, pid) {
            self.note_end(machine, pid, End::killed_by(killer));
        }
    }

    // A process that was marked to be killed may have ended.
    fn note_killed<D: BlockDev, T: Translate>(&mut self, machine: &Machine<D, T>) {
        if let Some(Kill { pid, killer }) = self.kills.take_ended(machine) {
            self.note_end(machine, pid, End::killed_by(killer));
        }
    }

    // A child runs its parent's program.
    fn note_child<D: BlockDev, T: Translate>(&mut self, machine: &Machine<D, T>) {
        let Some(child) = answer(machine, self.running) else {
            return;
        };
        let Some(name) = self.programs.get(self.running) else {
            return;
        };
        if let Ok(child) = u32::try_from(child) {
            self.programs.set(machine, child, name);
        }
    }

    // The running process runs another program, if its call wasn't refused.
    fn note_exec<D: BlockDev, T: Translate>(&mut self, machine: &Machine<D, T>, name: Name) {
        if answer(machine, self.running).is_some() {
            self.programs.set(machine, self.running, name);
        }
    }

    fn count(&mut self, event: Event)
        ensures { self.new ≡ record self.old { counts = counted event self.old.counts } }
    {
        let counts = &mut self.counts;
        match event {
            Event::Step => counts.steps = counts.steps.saturating_add(1),
            Event::Tick => counts.ticks = counts.ticks.saturating_add(1),
            Event::Key(_) => counts.keys = counts.keys.saturating_add(1),
        }
    }

    /// Counts steps at which no process called or faulted and none got the hart.
    pub fn passed(&mut self, steps: u32)
        ensures { self.new ≡ record self.old {
          counts = record self.old.counts { steps = min (self.old.counts.steps + steps) (2 ^ 64 - 1) };
          ended = Ok tt;
        } }
    {
        self.counts.steps = self.counts.steps.saturating_add(u64::from(steps));
        self.ended = Ok(());
    }

    /// Looks at the machine before an event. Steps that were counted may be left out.
    #[inline(never)]
    pub fn before<D: BlockDev, T: Translate>(&mut self, machine: &Machine<D, T>, event: Event)
        ensures { self.new ≡ record self.old {
          counts = counted event self.old.counts;
          running = self.new.running;
          next = self.new.next;
          calls = self.new.calls;
        } }
    {
        self.count(event);
        self.next = match event {
            Event::Step => self.look_ahead(machine),
            Event::Tick | Event::Key(_) => Next::Other,
        };
        self.note_call(machine);
    }

    /// Looks at the machine after the event, which returned `ended`.
    #[inline(never)]
    pub fn after<D: BlockDev, T: Translate>(
        &mut self,
        machine: &Machine<D, T>,
        ended: Result<(), Halt>,
    )
        ensures ended { self.new.ended ≡ ended }
        ensures device { ended ≡ Err Halt.Device → self.new ≡ record self.old { ended = ended } }
        ensures console { ended ≡ Err Halt.Console → self.new ≡ record self.old { ended = ended } }
        ensures halted { ended ≡ Err Halt.Halted → self.new ≡ record self.old { ended = ended } }
    {
        if !matches!(ended, Err(Halt::Device | Halt::Console | Halt::Halted)) {
            self.follow(machine);
        }
        self.ended = ended;
    }

    // Notes what the event did.
    fn follow<D: BlockDev, T: Translate>(&mut self, machine: &Machine<D, T>) {
        match self.next {
            Next::Other => {}
            Next::Turn => {
                self.note_killed(machine);
                self.note_answer(machine);
            }
            Next::Faults(fault, registers) => self.note_fault(machine, fault, registers),
            Next::Calls(_, effect) => {
                self.note_effect(machine, effect);
                self.note_answer(machine);
            }
        }
    }

    // Notes what the call of the running process did.
    fn note_effect<D: BlockDev, T: Translate>(&mut self, machine: &Machine<D, T>, effect: Effect) {
        let pid = self.running;
        match effect {
            Effect::Other => {}
            Effect::Forks => self.note_child(machine),
            Effect::Exits(status) => self.note_end(machine, pid, End::exit(status)),
            Effect::Kills(victim) => self.note_kill(machine, victim),
            Effect::Execs(name) => self.note_exec(machine, name),
        }
    }
}
