//! The commit log.

use super::{Coming, Tracer};
use crate::memory::{PAGE_SIZE, read};
use blockdev::BlockDev;
use machine::{Call, Machine, ProcessState, Seen};
use sv39::Translate;
use tracetext::commit_lines::{Commit, CommitLine, target};
use tracetext::commits::{Comment, Note, ROW};
use tracetext::{Asked, Form, Sinks};
use unixmodel::limits::PROCESSES;

/// The bytes that fstat writes.
const STAT_SIZE: u64 = 24;

/// The bytes of an instruction.
const WORD_SIZE: u64 = 4;

// Bytes in the memory of a process.
#[derive(Clone, Copy)]
struct Area {
    pid: u32,
    address: u64,
    size: u64,
}

impl Area {
    // The row of this number, of which the last one may be shorter.
    fn row(self, number: u64) -> Area {
        let done = number.saturating_mul(ROW as u64);
        Area {
            pid: self.pid,
            address: self.address.wrapping_add(done),
            size: self.size.saturating_sub(done).min(ROW as u64),
        }
    }
}

// What a call that returned wrote.
fn written(asked: &Asked, answer: i64) -> Option<Area> {
    let [first, second, ..] = asked.arguments;
    let (address, size) = match asked.call()? {
        Call::Read if answer >= 0 => (second, answer.cast_unsigned()),
        Call::Wait if answer > 0 && first != 0 => (first, 4),
        Call::Pipe if answer == 0 => (first, 8),
        Call::Fstat if answer == 0 => (second, STAT_SIZE),
        _ => return None,
    };
    Some(Area {
        pid: asked.pid,
        address,
        size,
    })
}

// Where a process goes on by the log: one that waits in a call has not come past its ecall.
fn counter_of(seen: &Seen) -> u64 {
    match seen.state {
        ProcessState::Waiting(_) => seen.pc.wrapping_sub(WORD_SIZE),
        _ => seen.pc,
    }
}

// Whether all bytes are zeros.
fn is_blank(bytes: &[u8]) -> bool {
    for byte in bytes {
        if *byte != 0 {
            return false;
        }
    }
    true
}

impl<S: Sinks + Drop> Tracer<S> {
    // Writes a comment on a process, if it is shown.
    pub(super) fn log(&mut self, pid: u32, note: Note<'_>) {
        if self.shows(pid) {
            self.pen.put(Form::Commits, &Comment { pid, note });
        }
    }

    // The core on which a process's instructions ran, as the log has it.
    fn core_of(&self, pid: u32) -> u32 {
        if self.wanted.core_is_pid { pid } else { 0 }
    }

    // Writes an instruction that is done, which left these registers.
    pub(super) fn log_commit(&mut self, done: &Coming, registers: &[u64; 32]) {
        let Coming { pid, pc, word, act } = *done;
        let Some(word) = word else {
            return;
        };
        if !self.pen.has(Form::Commits) || !self.shows(pid) {
            return;
        }
        let (core, value) = (self.core_of(pid), target(word, registers));
        let commit = Commit {
            core,
            pc,
            word,
            act,
            value,
        };
        let mut line = CommitLine::new();
        commit.put(&mut line);
        self.pen.put_bytes(Form::Commits, line.as_slice());
    }

    // Writes what a call returned and wrote.
    pub(super) fn log_answer<D: BlockDev, T: Translate>(
        &mut self,
        machine: &Machine<D, T>,
        asked: &Asked,
        answer: i64,
    ) {
        if !self.pen.has(Form::Commits) || !self.shows(asked.pid) {
            return;
        }
        self.log(
            asked.pid,
            Note::Answered {
                number: asked.number,
                answer,
            },
        );
        self.log_written(machine, asked, answer);
        if asked.is(Call::Sbrk) && answer >= 0 {
            self.log_size(machine, asked.pid);
        }
        if asked.is(Call::Exec) && answer >= 0 {
            self.log_process(machine, asked.pid);
        }
    }

    // Writes how many bytes of memory a process has.
    fn log_size<D: BlockDev, T: Translate>(&mut self, machine: &Machine<D, T>, pid: u32) {
        if let Some(seen) = machine.inspect(pid) {
            self.log(pid, Note::Size(seen.size));
        }
    }

    // Writes the bytes that a call wrote.
    fn log_written<D: BlockDev, T: Translate>(
        &mut self,
        machine: &Machine<D, T>,
        asked: &Asked,
        answer: i64,
    ) {
        if let Some(area) = written(asked, answer) {
            self.log_memory(machine, area, true);
        }
    }

    // Writes bytes in rows, also those of zeros where all are wanted.
    fn log_memory<D: BlockDev, T: Translate>(
        &mut self,
        machine: &Machine<D, T>,
        area: Area,
        is_whole: bool,
    ) {
        for number in 0..area.size.div_ceil(ROW as u64) {
            self.log_row(machine, area.row(number), is_whole);
        }
    }

    // Writes a row of bytes, if not all of them are zeros or such rows are wanted.
    fn log_row<D: BlockDev, T: Translate>(
        &mut self,
        machine: &Machine<D, T>,
        area: Area,
        is_whole: bool,
    ) {
        let Area { pid, address, size } = area;
        let mut row = [0; ROW];
        let Some(bytes) = row.get_mut(..size as usize) else {
            return;
        };
        if read(machine, pid, address, bytes).is_some() && (is_whole || !is_blank(bytes)) {
            self.log(pid, Note::Memory { address, bytes });
        }
    }

    // Writes the registers of a process that aren't 0.
    fn log_registers(&mut self, pid: u32, registers: &[u64; 32]) {
        for number in 0..32 {
            let value = registers[number];
            if value != 0 {
                self.log(pid, Note::Register { number, value });
            }
        }
    }

    // Writes a process whole, as a reader who follows it from here on needs it.
    pub(super) fn log_process<D: BlockDev, T: Translate>(
        &mut self,
        machine: &Machine<D, T>,
        pid: u32,
    ) {
        if !self.pen.has(Form::Commits) || !self.shows(pid) {
            return;
        }
        let Some(seen) = machine.inspect(pid) else {
            return;
        };
        self.log(pid, Note::Size(seen.size));
        self.log(pid, Note::Counter(counter_of(&seen)));
        self.log_registers(pid, &seen.registers);
        for page in 0..seen.size.div_ceil(PAGE_SIZE) {
            let area = Area {
                pid,
                address: page.saturating_mul(PAGE_SIZE),
                size: PAGE_SIZE,
            };
            self.log_memory(machine, area, false);
        }
    }

    // The pid of the process at an index, if it has not ended.
    fn living(&self, place: usize) -> Option<u32> {
        match self.lanes.get(place) {
            Some(lane) if !lane.has_ended() => Some(lane.pid),
            _ => None,
        }
    }

    // Writes all processes whole.
    pub(super) fn log_all<D: BlockDev, T: Translate>(&mut self, machine: &Machine<D, T>) {
        if !self.pen.has(Form::Commits) {
            return;
        }
        for place in 0..PROCESSES {
            if let Some(pid) = self.living(place) {
                self.log_process(machine, pid);
            }
        }
    }
}
