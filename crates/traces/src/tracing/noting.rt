//! The lines of events.

use super::Tracer;
use crate::handed::{arguments_asked, handed_of};
use crate::lanes::Lane;
use blockdev::BlockDev;
use jsonrows::{
    BeginRow, CallRow, EndRow, EndedRow, ExitRow, FaultRow, Handed, How, Kind, Latin, Printed,
    TurnRow, VERSION, WaitRow, WaitsRow, descriptor_rows, descriptors_of, line, waits_row,
};
use machine::{Machine, Seen};
use next_fault::{Fault, Named};
use serde::Serialize;
use std::alloc::AllocError;
use std::mem;
use sv39::Translate;
use tracetext::{Asked, CallName, Form, Pen, Sinks};

// The name of a process's program, if it is known.
fn program_of(lane: Option<&Lane>) -> Option<Latin<'_>> {
    match lane {
        Some(lane) if !lane.name.is_empty() => Some(Latin(lane.name.as_slice())),
        _ => None,
    }
}

// Writes a line, if there was memory for it.
fn put_line<S: Sinks + Drop>(pen: &mut Pen<S>, line: Result<String, AllocError>) {
    match line {
        Ok(line) => pen.put(Form::Events, &line),
        Err(_) => pen.starve(),
    }
}

impl<S: Sinks + Drop> Tracer<S> {
    // Whether lines of events are written on a process now.
    fn notes(&self, pid: u32) -> bool {
        self.pen.has(Form::Events) && self.shows(pid)
    }

    // Whether lines of events are written on a call now.
    fn notes_call(&self, asked: &Asked) -> bool {
        self.pen.has(Form::Events) && self.shows_call(asked)
    }

    // Writes a line that is of no process.
    fn note<R: Serialize + Drop>(&mut self, kind: Kind, row: R) {
        if self.pen.has(Form::Events) {
            put_line(&mut self.pen, line(self.alloc, kind, row));
        }
    }

    // Writes what the file begins with.
    pub(super) fn note_head(&mut self) {
        self.note(Kind::Begin, BeginRow { version: VERSION });
    }

    // Writes what the file ends with.
    pub(super) fn note_tail(&mut self) {
        if !self.is_begun {
            self.note_head();
        }
        self.note(Kind::End, EndRow { at: self.at });
    }

    // Takes what a call was handed, or filled in where its answer is known.
    pub(super) fn take_handed<D: BlockDev, T: Translate>(
        &mut self,
        machine: &Machine<D, T>,
        asked: &Asked,
        answer: Option<i64>,
    ) {
        if !self.pen.has(Form::Events) {
            return;
        }
        let most = self.wanted.most();
        match handed_of(self.alloc, machine, asked, answer, most) {
            Ok(handed) => self.handed = handed,
            Err(_) => self.pen.starve(),
        }
    }

    // Takes what the descriptors of a process name, which is about to end.
    pub(super) fn take_descriptors<D: BlockDev, T: Translate>(
        &mut self,
        machine: &Machine<D, T>,
        pid: u32,
    ) {
        if self.pen.has(Form::Events)
            && let Some(lane) = self.lane_mut(pid)
        {
            lane.descriptors = descriptors_of(machine, pid);
        }
    }

    // Takes what the descriptors of all processes name that are marked to be killed.
    pub(super) fn take_marked<D: BlockDev, T: Translate>(&mut self, machine: &Machine<D, T>) {
        if !self.pen.has(Form::Events) {
            return;
        }
        for lane in self.lanes.as_mut_slice() {
            if lane.killer.is_some() && !lane.has_ended() {
                lane.descriptors = descriptors_of(machine, lane.pid);
            }
        }
    }

    // Writes that a call returned.
    pub(super) fn note_call(&mut self, asked: &Asked, answer: i64) {
        if !self.notes_call(asked) {
            return;
        }
        let handed = mem::replace(&mut self.handed, Handed::nothing());
        let arguments = arguments_asked(asked);
        let at = self.number();
        let program = program_of(self.lane(asked.pid));
        let row = CallRow {
            at,
            pid: asked.pid,
            program,
            call: Printed(CallName(asked.number)),
            since: asked.at.saturating_add(1),
            arguments: arguments.as_slice(),
            result: answer,
            handed,
        };
        let line = line(self.alloc, Kind::Call, row);
        put_line(&mut self.pen, line);
    }

    // Writes that a call waits, and for what.
    pub(super) fn note_wait<D: BlockDev, T: Translate>(
        &mut self,
        machine: &Machine<D, T>,
        asked: &Asked,
    ) {
        if !self.notes_call(asked) {
            return;
        }
        match waits_row(self.alloc, machine, asked.pid) {
            Ok(waits) => self.note_waits(asked, waits),
            Err(_) => self.pen.starve(),
        }
    }

    // Writes that a call waits for this.
    fn note_waits(&mut self, asked: &Asked, waits: Option<WaitsRow>) {
        let handed = mem::replace(&mut self.handed, Handed::nothing());
        let arguments = arguments_asked(asked);
        let row = WaitRow {
            at: self.number(),
            pid: asked.pid,
            program: program_of(self.lane(asked.pid)),
            call: Printed(CallName(asked.number)),
            arguments: arguments.as_slice(),
            waits,
            handed,
        };
        let line = line(self.alloc, Kind::Wait, row);
        put_line(&mut self.pen, line);
    }

    // The line of a fault.
    fn fault_line(&self, before: &Seen, fault: Fault) -> Result<String, AllocError> {
        let program = program_of(self.lane(before.pid));
        let name = self.name(before.pid, before.pc)?;
        let named = Named { fault, name };
        let row = FaultRow::new(self.number(), before.pid, program, named, &before.registers);
        line(self.alloc, Kind::Fault, row)
    }

    // Writes a fault of a process.
    pub(super) fn note_fault(&mut self, before: &Seen, fault: Option<Fault>) {
        if !self.notes(before.pid) {
            return;
        }
        let Some(fault) = fault else {
            return;
        };
        let line = self.fault_line(before, fault);
        put_line(&mut self.pen, line);
    }

    // Writes that a process ended.
    pub(super) fn note_exit<D: BlockDev, T: Translate>(
        &mut self,
        machine: &Machine<D, T>,
        pid: u32,
        how: How,
        status: i32,
    ) {
        if !self.notes(pid) {
            return;
        }
        let Some(lane) = self.lane(pid) else {
            return;
        };
        let parent = match machine.inspect(pid) {
            Some(seen) => seen.parent,
            None => 0,
        };
        let ended = EndedRow {
            at: self.number(),
            pid,
            program: program_of(Some(lane)),
            parent,
            how,
            status,
            killer: if how == How::Killed {
                lane.killer
            } else {
                None
            },
        };
        let line = match descriptor_rows(self.alloc, &lane.descriptors) {
            Ok(descriptors) => line(self.alloc, Kind::Exit, ExitRow { ended, descriptors }),
            Err(error) => Err(error),
        };
        put_line(&mut self.pen, line);
    }

    // Writes that a process got the hart, or lost it to the timer.
    pub(super) fn note_turn(&mut self, kind: Kind, pid: u32) {
        if !self.notes(pid) {
            return;
        }
        let row = TurnRow {
            at: self.number(),
            pid,
            program: program_of(self.lane(pid)),
        };
        let line = line(self.alloc, kind, row);
        put_line(&mut self.pen, line);
    }
}
