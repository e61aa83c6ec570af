//! Why a motion ends.
ghost use Rattle.std.specs.Prelude.{◌≡◌, [], IfSome, false, is_some, true};
ghost use Rattle.std.specs.List.{list_any};
ghost use Rattle.gdbstate.specs.Passing.{IsBare, PassesWhoRuns, has_near, stops_within, stops_within_pid};
ghost use Rattle.gdbstate.specs.Stops.{at_call, break_at, changed, has_access, has_break, is_ecall};
ghost use Rattle.gdbstate.specs.Stops.{is_stepped, stops, stops_at, stops_who_runs};
ghost use Rattle.hart.specs.Stops.{is_stop};
ghost use Rattle.kernel.specs.Idle.{running_pid};

use crate::accesses::{AccessWatch, is_accessed};
use crate::watches::{Watched, has_changed, is_near};
use isa::{Instr, decode};
use machine::Seen;
use next_fault::{cause, word};
use timeline::{Debuggee, Wanted};

/// A break of a process.
#[derive(Clone, Copy)]
pub struct Break {
    pub pid: u32,
    pub address: u64,
}

/// A step of a process: up to where it is at an instruction that is not within these addresses.
#[derive(Clone, Copy)]
pub struct Stepping {
    pub pid: u32,
    pub from: u64,
    pub end: u64,
}

/// Why a motion ends.
#[derive(Drop)]
pub struct Reasons {
    /// Where processes have breaks.
    pub addresses: Vec<u64>,
    /// Of which processes these are.
    pub breaks: Vec<Break>,
    /// Bytes that may change.
    pub watched: Vec<Watched>,
    /// Bytes that may be loaded or stored.
    pub accesses: Vec<AccessWatch>,
    /// A step that may be done.
    pub stepping: Option<Stepping>,
    /// The numbers of calls before which it ends.
    pub calls: Vec<u64>,
    /// Whether it ends before a fault.
    pub at_faults: bool,
}

// Whether a number is one of some.
fn is_one_of(numbers: &[u64], number: u64) -> bool
    ensures { result ≡ is_stop numbers.now number }
{
    numbers.contains(&number)
}

/// Whether a step is done where a process is at an address.
pub fn is_stepped(stepping: Option<Stepping>, pid: u32, pc: u64) -> bool
    ensures { result ≡ is_stepped stepping pid pc }
{
    match stepping {
        Some(step) => step.pid == pid && (pc < step.from || step.end <= pc),
        None => false,
    }
}

// Whether a break is of a process and at an address.
fn is_break(one: &Break, pid: u32, address: u64) -> bool
    ensures { result ≡ break_at pid address one.now }
{
    one.pid == pid && one.address == address
}

/// Whether a word is that of the instruction that calls.
pub fn is_ecall(word: Option<u32>) -> bool
    ensures { result ≡ is_ecall word }
{
    match word {
        Some(word) => matches!(decode(word), Some(Instr::Ecall)),
        None => false,
    }
}

// Whether the next instruction of a process is one of some calls.
fn is_at_call(machine: &Debuggee, calls: &[u64], seen: &Seen) -> bool
    ensures { result ≡ at_call calls.now machine.now.state seen.now }
{
    is_one_of(calls, seen.registers[17]) && is_ecall(word(machine, seen.pid, seen.pc))
}

impl Reasons {
    // Whether one of the breaks is of a process and at an address.
    fn has_one(&self, pid: u32, address: u64) -> bool
        ensures { result ≡ list_any (break_at pid address) self.now.breaks.items }
    {
        self.breaks.iter().any(|one| is_break(one, pid, address))
    }

    /// Whether a process has a break at an address.
    pub fn has_break(&self, pid: u32, address: u64) -> bool
        ensures { result ≡ has_break self.now pid address }
    {
        is_one_of(&self.addresses, address) && self.has_one(pid, address)
    }

    // Whether watched bytes are others than they were.
    fn has_changed(&self, machine: &Debuggee) -> bool
        ensures { result ≡ changed self.now machine.now.state }
    {
        self.watched.iter().any(|one| has_changed(machine, one))
    }

    // Whether watched bytes are of the process that runs, or others than they were.
    fn has_near(&self, machine: &Debuggee) -> bool
        ensures { result ≡ has_near self.now machine.now.state }
    {
        let running = machine.running();
        self.watched
            .iter()
            .any(|one| is_near(machine, running, one))
    }

    // Whether the next instruction of a process loads or stores bytes that are watched.
    fn has_access(&self, machine: &Debuggee, pid: u32) -> bool
        ensures { result ≡ has_access self.now machine.now.state pid }
    {
        self.accesses
            .iter()
            .any(|one| is_accessed(machine, pid, one))
    }

    // The addresses of breaks, where no bytes are watched for loads and stores.
    fn places(&self) -> Option<&[u64]>
        ensures { IfSome result
            (λ places. (places.now ≡ self.now.addresses.items) × (self.now.accesses.items ≡ [])) }
    {
        match self.accesses.as_slice() {
            [] => Some(&self.addresses),
            _ => None,
        }
    }

    // Whether a motion ends where this process runs, if its next instruction is done.
    fn stops_within(&self, machine: &Debuggee, seen: &Seen) -> bool
        ensures { result ≡ stops_within self.now machine.now.state seen.now }
    {
        self.has_break(seen.pid, seen.pc)
            || is_stepped(self.stepping, seen.pid, seen.pc)
            || self.has_access(machine, seen.pid)
    }

    // Whether no address, no step and no load or store ends a motion.
    fn is_bare(&self) -> bool
        ensures { result ≡ true → IsBare self.now }
    {
        self.addresses.is_empty() && self.stepping.is_none() && self.accesses.is_empty()
    }

    // Whether breaks, steps, loads and stores surely end no motion where the process that runs is, if its next
    // instruction is done. It is out of line: few motions need it, and what is seen of a process is large.
    #[inline(never)]
    fn passes_within(&self, machine: &Debuggee) -> bool
        ensures { result ≡ true →
            stops_within_pid self.now machine.now.state (running_pid machine.now.state) ≡ false }
    {
        let Some(pid) = machine.running() else {
            return false;
        };
        match machine.inspect(pid) {
            Some(seen) => !self.stops_within(machine, &seen),
            None => false,
        }
    }

    // Whether a motion surely goes by where the process that runs is, if its next instruction is done.
    fn passes_who_runs(&self, machine: &Debuggee) -> bool
        ensures { result ≡ true → PassesWhoRuns self.now machine.now.state }
    {
        self.is_bare() || self.passes_within(machine)
    }

    // Whether a motion ends where this process runs.
    fn stops_at(&self, machine: &Debuggee, seen: &Seen) -> bool
        ensures { result ≡ stops_at self.now machine.now.state seen.now }
    {
        self.has_break(seen.pid, seen.pc)
            || is_stepped(self.stepping, seen.pid, seen.pc)
            || is_at_call(machine, &self.calls, seen)
            || self.at_faults && cause(machine, seen.pid).is_some()
            || self.has_access(machine, seen.pid)
    }

    // Whether a motion ends because of the process that runs.
    fn stops_who_runs(&self, machine: &Debuggee) -> bool
        ensures { result ≡ stops_who_runs self.now machine.now.state }
    {
        let Some(pid) = machine.running() else {
            return false;
        };
        match machine.inspect(pid) {
            Some(seen) => self.stops_at(machine, &seen),
            None => false,
        }
    }
}

impl Wanted for Reasons {
    ghost stops = { stops };

    #[tactic(auto, unfolding(crate::specs::Stops::stops))]
    fn is_met(&self, machine: &Debuggee) -> bool {
        self.has_changed(machine) || self.stops_who_runs(machine)
    }

    fn addresses(&self, machine: &Debuggee) -> Option<&[u64]> {
        if self.stepping.is_some() {
            return None;
        }
        if self.has_near(machine) {
            return None;
        }
        self.places()
    }

    fn passes(&self, machine: &Debuggee) -> bool {
        !self.has_changed(machine) && self.passes_who_runs(machine)
    }
}

/// That some process runs.
#[derive(Clone, Copy)]
pub struct Someone;

impl Wanted for Someone {
    ghost stops = { λ _ s. is_some (running_pid s) };

    fn is_met(&self, machine: &Debuggee) -> bool {
        machine.running().is_some()
    }

    fn addresses(&self, _machine: &Debuggee) -> Option<&[u64]> {
        None
    }

    fn passes(&self, _machine: &Debuggee) -> bool {
        false
    }
}
