//! The texts that are wanted of a run.

use crate::json::Left;
use crate::outcome::{Outcome, Stop};
use crate::reporter::{Reporter, pids};
use blockdev::BlockDev;
use machine::Machine;
use std::alloc::{AllocError, Global};
use sv39::Translate;

/// What is wanted of a run at its end.
#[derive(Clone, Copy)]
pub struct Wanted {
    /// Whether the report is.
    pub report: bool,
    /// Whether the report is as JSON.
    pub json: bool,
    /// The process whose registers are, where one is.
    pub registers: Option<u32>,
    /// The process whose pages are, where one is.
    pub memory: Option<u32>,
    /// Whether each fault is as it comes.
    pub faults: bool,
}

/// What a machine shows when no more events come.
#[derive(Drop)]
pub struct Looked {
    stop: Stop,
    // The report after why the run stopped, if it is wanted.
    report: Option<String>,
    // The registers and the pages, as far as they are wanted.
    looks: String,
    // What the report as JSON has of the machine, if it is wanted.
    left: Option<Left>,
}

/// What is printed and written of a run.
#[derive(Drop)]
pub struct Told {
    /// The report, the registers and the pages, as far as they are wanted.
    pub text: String,
    /// The report as JSON, where it is wanted.
    pub json: Option<String>,
}

impl Reporter {
    // The report after why the run stopped, if it is wanted.
    fn report_text<D: BlockDev, T: Translate>(
        &self,
        alloc: Global,
        machine: &Machine<D, T>,
    ) -> Result<Option<String>, AllocError> {
        if !self.wanted().report {
            return Ok(None);
        }
        let report = self.report(machine);
        Ok(Some(format!(in alloc; "{report}")?))
    }

    /// Who waits for what, a line each.
    pub fn waits<D: BlockDev, T: Translate>(
        &self,
        alloc: Global,
        machine: &Machine<D, T>,
    ) -> Result<String, AllocError> {
        let report = self.report(machine);
        let mut text = String::new(alloc);
        for pid in pids(machine).as_slice() {
            if let Some(waiting) = report.waiting(*pid) {
                let who = self.who(*pid);
                writeln!(text, "{who} {waiting}")?;
            }
        }
        Ok(text)
    }

    // The registers and the pages that are wanted.
    fn looks<D: BlockDev, T: Translate>(
        &self,
        alloc: Global,
        machine: &Machine<D, T>,
    ) -> Result<String, AllocError> {
        let mut text = String::new(alloc);
        if let Some(pid) = self.wanted().registers {
            let registers = self.registers(machine, pid)?;
            write!(text, "{registers}")?;
        }
        if let Some(pid) = self.wanted().memory {
            let memory = self.memory(machine, pid);
            write!(text, "{memory}")?;
        }
        Ok(text)
    }

    // What the report as JSON has of the machine, if it is wanted.
    fn left<D: BlockDev, T: Translate>(
        &self,
        alloc: Global,
        machine: &Machine<D, T>,
    ) -> Result<Option<Left>, AllocError> {
        if !self.wanted().json {
            return Ok(None);
        }
        Ok(Some(self.report(machine).left(alloc)?))
    }

    /// What is wanted of the machine after its last event.
    pub fn look<D: BlockDev, T: Translate>(
        &self,
        alloc: Global,
        machine: &Machine<D, T>,
    ) -> Result<Looked, AllocError> {
        let report = self.report_text(alloc, machine)?;
        let looks = self.looks(alloc, machine)?;
        let left = self.left(alloc, machine)?;
        Ok(Looked {
            stop: self.report(machine).stop(),
            report,
            looks,
            left,
        })
    }

    // The text that is wanted of a run that stopped so.
    fn text(&self, alloc: Global, seen: &Looked, stop: Stop) -> Result<String, AllocError> {
        let mut text = String::new(alloc);
        if let Some(report) = &seen.report {
            let counts = self.counts();
            write!(text, "{counts}stopped: {stop}\n{report}")?;
        }
        text.push_str(seen.looks.as_str())?;
        Ok(text)
    }

    // The JSON text that is wanted of a run that stopped so.
    fn json(
        &self,
        alloc: Global,
        seen: &Looked,
        stop: Stop,
        outcome: Outcome,
    ) -> Result<Option<String>, AllocError> {
        let Some(left) = &seen.left else {
            return Ok(None);
        };
        match self.to_json(alloc, left, stop, outcome) {
            Ok(json) => Ok(Some(json)),
            Err(_) => Err(AllocError),
        }
    }

    /// What is printed and written of a run that ended so.
    pub fn tell(&self, alloc: Global, seen: &Looked, outcome: Outcome) -> Result<Told, AllocError> {
        let stop = seen.stop.or(outcome.halt);
        let text = self.text(alloc, seen, stop)?;
        let json = self.json(alloc, seen, stop, outcome)?;
        Ok(Told { text, json })
    }
}
