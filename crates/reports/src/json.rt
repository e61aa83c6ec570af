//! The report of a run, for programs: JSON, with the members in the order of these fields.

use crate::ended::Ended;
use crate::last_calls::{LastCalls, Made};
use crate::outcome::{Outcome, PlayEnd, Stop};
use crate::report::{Report, frames_of};
use crate::reporter::{Fallen, Reporter, pids};
use crate::who::Who;
use blockdev::BlockDev;
use jsonrows::{
    Argument, DescriptorRow, EndedRow, FaultRow, Latin, LocationRow, Printed, VERSION, WaitsRow,
    descriptor_rows, descriptors_of, waits_row,
};
use machine::{ProcessState, Seen};
use serde::Serialize;
use serde_json::Error;
use std::alloc::{AllocError, Global};
use sv39::Translate;
use tracetext::CallName;

/// Why a run stopped.
#[derive(Clone, Copy, Serialize)]
#[serde(rename_all = "snake_case")]
enum StopWord {
    Ended,
    Device,
    Console,
    Halted,
    Idle,
    Running,
    Ready,
}

#[derive(Clone, Copy, Serialize)]
struct StopRow {
    why: StopWord,
    /// The status of process 1, where it has ended.
    status: Option<i32>,
    /// The process that runs, where one does.
    pid: Option<u32>,
}

/// What became of a play.
#[derive(Clone, Copy, Serialize)]
#[serde(rename_all = "snake_case")]
enum PlayWord {
    Done,
    Halted,
    Unreached,
}

#[derive(Clone, Copy, Serialize)]
struct PlayRow {
    end: PlayWord,
    /// The line that waited in vain, and for how many steps.
    line: Option<u64>,
    steps: Option<u32>,
}

/// What a process does.
#[derive(Clone, Copy, Serialize)]
#[serde(rename_all = "snake_case")]
enum StateWord {
    Running,
    Ready,
    Waiting,
    Ended,
}

// A process that is there at the end of a run.
#[derive(Drop)]
struct Process {
    who: Who,
    seen: Seen,
    waits: Option<WaitsRow>,
    descriptors: Vec<DescriptorRow>,
}

#[derive(Clone, Copy, Serialize)]
struct ProcessRow<'a> {
    pid: u32,
    parent: u32,
    program: Option<Latin<'a>>,
    state: StateWord,
    status: Option<i32>,
    waits: &'a Option<WaitsRow>,
    killed: bool,
    pc: u64,
    size: u64,
    frames: u64,
    descriptors: &'a Vec<DescriptorRow>,
    /// What is known of the pc. It is left out where that is nothing.
    #[serde(skip_serializing_if = "Option::is_none")]
    location: Option<LocationRow<'a>>,
}

/// The processes and the free frames of a machine at the end of a run.
#[derive(Drop)]
pub(crate) struct Left {
    processes: Vec<Process>,
    free_frames: u32,
}

#[derive(Drop, Serialize)]
struct ReportRow<'a> {
    version: u32,
    steps: u64,
    ticks: u64,
    keys: u64,
    stopped: StopRow,
    play: Option<PlayRow>,
    processes: Vec<ProcessRow<'a>>,
    ended: Vec<EndedRow<'a>>,
    more_ended: u64,
    free_frames: u32,
    faults: Vec<FallenRow<'a>>,
    more_faults: u64,
}

/// A call that a process made before its fault.
#[derive(Drop, Serialize)]
struct MadeRow {
    since: u64,
    call: Printed<CallName>,
    arguments: Vec<Argument>,
    result: Option<i64>,
}

/// A fault, and the last calls before it.
#[derive(Drop, Serialize)]
struct FallenRow<'a> {
    #[serde(flatten)]
    fault: FaultRow<'a>,
    calls: Vec<MadeRow>,
}

fn stop_row(stop: Stop) -> StopRow {
    let (why, status, pid) = match stop {
        Stop::Ended(status) => (StopWord::Ended, Some(status), None),
        Stop::Device => (StopWord::Device, None, None),
        Stop::Console => (StopWord::Console, None, None),
        Stop::Halted => (StopWord::Halted, None, None),
        Stop::Idle => (StopWord::Idle, None, None),
        Stop::Runs(who) => (StopWord::Running, None, Some(who.pid)),
        Stop::Ready => (StopWord::Ready, None, None),
    };
    StopRow { why, status, pid }
}

fn play_row(play: PlayEnd) -> PlayRow {
    let (end, line, steps) = match play {
        PlayEnd::Done => (PlayWord::Done, None, None),
        PlayEnd::Halted => (PlayWord::Halted, None, None),
        PlayEnd::Unreached { line, steps } => (PlayWord::Unreached, Some(line as u64), Some(steps)),
    };
    PlayRow { end, line, steps }
}

// The word of a state, and the status of a process that has ended.
fn state_of(state: ProcessState) -> (StateWord, Option<i32>) {
    match state {
        ProcessState::Running => (StateWord::Running, None),
        ProcessState::Ready => (StateWord::Ready, None),
        ProcessState::Waiting(_) => (StateWord::Waiting, None),
        ProcessState::Zombie(status) => (StateWord::Ended, Some(status)),
    }
}

fn ended_row(ended: &Ended) -> EndedRow<'_> {
    EndedRow {
        at: ended.at,
        pid: ended.who.pid,
        program: ended.who.program(),
        parent: ended.parent,
        how: ended.end.how,
        status: ended.end.status,
        killer: ended.end.killer,
    }
}

fn ended_rows(alloc: Global, ones: &[Ended]) -> Result<Vec<EndedRow<'_>>, AllocError> {
    let mut rows = Vec::new(alloc);
    for ended in ones {
        rows.push(ended_row(ended))?;
    }
    Ok(rows)
}

impl<D: BlockDev, T: Translate> Report<'_, D, T> {
    fn process(&self, alloc: Global, seen: &Seen) -> Result<Process, AllocError> {
        let waits = waits_row(alloc, self.machine, seen.pid)?;
        let opened = descriptors_of(self.machine, seen.pid);
        let descriptors = descriptor_rows(alloc, &opened)?;
        Ok(Process {
            who: self.reporter.who(seen.pid),
            seen: *seen,
            waits,
            descriptors,
        })
    }

    /// What is left at the end of the run.
    pub(crate) fn left(&self, alloc: Global) -> Result<Left, AllocError> {
        let mut processes = Vec::new(alloc);
        for pid in pids(self.machine).as_slice() {
            if let Some(seen) = self.machine.inspect(*pid) {
                processes.push(self.process(alloc, &seen)?)?;
            }
        }
        Ok(Left {
            processes,
            free_frames: self.machine.free_frames(),
        })
    }
}

fn made_row(alloc: Global, made: &Made) -> Result<MadeRow, AllocError> {
    Ok(MadeRow {
        since: made.asked.at,
        call: Printed(CallName(made.asked.number)),
        arguments: Vec::from_slice(alloc, made.arguments().as_slice())?,
        result: made.answer,
    })
}

fn made_rows(alloc: Global, calls: &LastCalls) -> Result<Vec<MadeRow>, AllocError> {
    let mut rows = Vec::new(alloc);
    for made in &calls.all() {
        if let Some(made) = made {
            rows.push(made_row(alloc, made)?)?;
        }
    }
    Ok(rows)
}

impl Reporter {
    fn fault_row<'a>(&'a self, fallen: &'a Fallen) -> Result<FaultRow<'a>, AllocError> {
        let who = &fallen.who;
        Ok(FaultRow::new(
            fallen.at,
            who.pid,
            who.program(),
            self.named(fallen)?,
            &fallen.registers,
        ))
    }

    fn fault_rows(&self, alloc: Global) -> Result<Vec<FallenRow<'_>>, AllocError> {
        let mut rows = Vec::new(alloc);
        for fallen in self.faults() {
            let fault = self.fault_row(fallen)?;
            let calls = made_rows(alloc, &fallen.calls)?;
            rows.push(FallenRow { fault, calls })?;
        }
        Ok(rows)
    }

    fn process_row<'a>(&'a self, process: &'a Process) -> Result<ProcessRow<'a>, AllocError> {
        let seen = &process.seen;
        let (state, status) = state_of(seen.state);
        let name = self.name(&process.who, seen.pc)?;
        Ok(ProcessRow {
            pid: seen.pid,
            parent: seen.parent,
            program: process.who.program(),
            state,
            status,
            waits: &process.waits,
            killed: seen.killed,
            pc: seen.pc,
            size: seen.size,
            frames: frames_of(seen.size),
            descriptors: &process.descriptors,
            location: LocationRow::of(name),
        })
    }

    fn process_rows<'a>(
        &'a self,
        alloc: Global,
        processes: &'a [Process],
    ) -> Result<Vec<ProcessRow<'a>>, AllocError> {
        let mut rows = Vec::new(alloc);
        for process in processes {
            rows.push(self.process_row(process)?)?;
        }
        Ok(rows)
    }

    fn row<'a>(
        &'a self,
        alloc: Global,
        left: &'a Left,
        stop: Stop,
        outcome: Outcome,
    ) -> Result<ReportRow<'a>, AllocError> {
        let counts = self.counts();
        let play = match outcome.play {
            Some(play) => Some(play_row(play)),
            None => None,
        };
        let processes = self.process_rows(alloc, left.processes.as_slice())?;
        let ended = ended_rows(alloc, self.ended_ones())?;
        let faults = self.fault_rows(alloc)?;
        Ok(ReportRow {
            version: VERSION,
            steps: counts.steps,
            ticks: counts.ticks,
            keys: counts.keys,
            stopped: stop_row(stop),
            play,
            processes,
            ended,
            more_ended: self.more_ended(),
            free_frames: left.free_frames,
            faults,
            more_faults: self.more_faults(),
        })
    }

    /// The report as a JSON text. An error is of memory.
    pub(crate) fn to_json(
        &self,
        alloc: Global,
        left: &Left,
        stop: Stop,
        outcome: Outcome,
    ) -> Result<String, Error> {
        let row = self.row(alloc, left, stop, outcome)?;
        serde_json::to_string_pretty(alloc, &row)
    }
}
