//! The tracer: looks at a machine before and after its events, and writes what it did.
ghost use Rattle.std.specs.Prelude.{◌≡◌, IfOk, IsTrue, None};
ghost use Rattle.tracetext.specs.Pens.{has};
ghost use Rattle.traces.specs.Forms.{wants};
ghost use Rattle.traces.specs.Saying.{Shows, ShowsCall, number_after};

mod beginning;
mod drawing;
mod logging;
mod noting;
mod saying;
mod turning;

use crate::call_text::describe;
use crate::lanes::{Doing, Lane, MOST_NAME, place_of};
use crate::memory;
use crate::pipes::PipeTrack;
use arrayvec::ArrayVec;
use blockdev::BlockDev;
use driver::{Detail, Watch};
use jsonrows::Handed;
use machine::{Call, Halt, Machine, ProcessState, Seen};
use next_fault::{fault_of, word};
use std::alloc::{AllocError, Global};
use sv39::Translate;
use symbolizer::Symbolizer;
use tracetext::commit_lines::{Act, act_of};
use tracetext::lines::Outcome;
use tracetext::{Asked, CallText, Form, Pen, Row, Sinks, Trouble, Wanted};
use unixmodel::event::Event;
use unixmodel::limits::{PIPES, PROCESSES};

/// The word of `ecall`.
const ECALL: u32 = 0x73;

// An instruction of a process: its address, its word, where that may be fetched, and what it is to do.
#[derive(Clone, Copy)]
struct Coming {
    pid: u32,
    pc: u64,
    word: Option<u32>,
    act: Act,
}

// What the machine is about to do.
#[derive(Clone, Copy)]
enum Ahead {
    // Nothing that shows.
    Nothing,
    // An instruction.
    Instruction(Coming),
    // A call.
    Call(Asked),
    // A turn.
    Turn,
    // A timer interrupt.
    Tick,
    // A typed byte.
    Key(u8),
}

/// Traces a machine: writes to sinks what it does, as it does it.
#[derive(Drop)]
pub struct Tracer<S> {
    alloc: Global,
    pen: Pen<S>,
    wanted: Wanted,
    symbolizer: Symbolizer,
    // How many events have passed, which is the time in spans.
    at: u64,
    is_begun: bool,
    // Whether the last event that is shown has passed.
    is_over: bool,
    ahead: Ahead,
    running: Option<u32>,
    lanes: Vec<Lane>,
    pipes: Vec<PipeTrack>,
    // The arguments of the call that is looked at, and the path where it has one.
    text: CallText,
    path: ArrayVec<u8, MOST_NAME>,
    // What the call was handed, for its line.
    handed: Handed,
    // The same arguments as one text.
    whole: String,
    row: Row,
    // How many arrows were drawn.
    arrows: u64,
}

// The answer of a call, as a0 has it.
fn answer_of(seen: &Seen) -> i64 {
    seen.registers[10].cast_signed()
}

// What a process asks for when it is about to make a call.
fn asked_of(seen: &Seen, at: u64) -> Asked {
    let registers = &seen.registers;
    Asked {
        pid: seen.pid,
        number: (registers[17] % 0x1_0000_0000) as u32,
        arguments: [
            registers[10],
            registers[11],
            registers[12],
            registers[13],
            registers[14],
            registers[15],
        ],
        at,
    }
}

// An instruction that comes, by the registers before it.
fn coming_of(pid: u32, pc: u64, word: Option<u32>, registers: &[u64; 32]) -> Coming {
    let act = match word {
        Some(word) => act_of(word, registers),
        None => Act::Nothing,
    };
    Coming { pid, pc, word, act }
}

// Empty pipes, as many as there may be.
fn empty_pipes(alloc: Global) -> Result<Vec<PipeTrack>, AllocError> {
    let mut pipes = Vec::with_capacity(alloc, PIPES)?;
    for _made in 0..PIPES {
        pipes.push(PipeTrack::new())?;
    }
    Ok(pipes)
}

// Tables for all processes and pipes, with no process so far.
fn empty_tables(alloc: Global) -> Result<(Vec<Lane>, Vec<PipeTrack>), AllocError> {
    let pipes = empty_pipes(alloc)?;
    Ok((Vec::with_capacity(alloc, PROCESSES)?, pipes))
}

impl<S: Sinks + Drop> Tracer<S> {
    /// A tracer that writes what is wanted to these sinks. Addresses have the names of a symbolizer.
    pub fn new(
        alloc: Global,
        wanted: Wanted,
        symbolizer: Symbolizer,
        sinks: S,
    ) -> Result<Self, AllocError>
        ensures forms { IfOk result (λ tracer. (form : Form) → has tracer.pen form ≡ wants wanted form) }
        ensures sinks { IfOk result (λ tracer. tracer.pen.sinks ≡ sinks) }
        ensures whole { IfOk result (λ tracer. tracer.pen.trouble ≡ None) }
        ensures shows { IfOk result (λ tracer. tracer.wanted ≡ wanted) }
        ensures names { IfOk result (λ tracer. tracer.symbolizer ≡ symbolizer) }
        ensures begins { IfOk result (λ tracer. tracer.at ≡ 0) }
    {
        let (lanes, pipes) = empty_tables(alloc)?;
        let mut pen = Pen::new(alloc, sinks);
        pen.set(Form::Text, wanted.text);
        pen.set(Form::Spans, wanted.spans);
        pen.set(Form::Commits, wanted.commits);
        pen.set(Form::Events, wanted.events);
        Ok(Tracer {
            alloc,
            pen,
            wanted,
            symbolizer,
            at: 0,
            is_begun: false,
            is_over: false,
            ahead: Ahead::Nothing,
            running: None,
            lanes,
            pipes,
            text: CallText::new(alloc),
            path: ArrayVec::new(),
            handed: Handed::nothing(),
            whole: String::new(alloc),
            row: Row::new(alloc),
            arrows: 0,
        })
    }

    /// Why the trace isn't whole, if it isn't.
    pub(crate) fn failed(&self) -> Option<Trouble> {
        self.pen.trouble()
    }

    /// Writes the end of the trace, and gives the sinks back: an error says why the trace isn't whole.
    pub fn finish(mut self) -> (S, Result<(), Trouble>) {
        self.close();
        self.draw_tail();
        self.note_tail();
        let done = match self.pen.trouble() {
            None => Ok(()),
            Some(trouble) => Err(trouble),
        };
        (self.pen.into_sinks(), done)
    }

    // The number of the event, counted from 1.
    fn number(&self) -> u64
        ensures { result ≡ number_after self.now.at }
    {
        self.at.saturating_add(1)
    }

    // Whether the events of a process are shown now.
    fn shows(&self, pid: u32) -> bool
        ensures { Shows self.now pid → IsTrue result }
    {
        self.wanted.has_event(self.number()) && self.wanted.has_process(pid)
    }

    // Whether a call of a process is shown now.
    fn shows_call(&self, asked: &Asked) -> bool
        ensures { ShowsCall self.now asked.now → IsTrue result }
    {
        self.shows(asked.pid) && self.wanted.calls.contains(asked.number)
    }

    // What the machine's next event shows.
    fn look_ahead<D: BlockDev, T: Translate>(
        &mut self,
        machine: &Machine<D, T>,
        event: Event,
    ) -> Ahead {
        match event {
            Event::Step => self.look_at_step(machine),
            Event::Tick => Ahead::Tick,
            Event::Key(key) => Ahead::Key(key),
        }
    }

    // What the machine's next step shows.
    fn look_at_step<D: BlockDev, T: Translate>(&mut self, machine: &Machine<D, T>) -> Ahead {
        match self.running {
            Some(pid) => self.look_at(machine, pid),
            None if machine.is_idle() => Ahead::Nothing,
            None => {
                self.take_marked(machine);
                Ahead::Turn
            }
        }
    }

    // What the process that has the hart is about to do.
    fn look_at<D: BlockDev, T: Translate>(&mut self, machine: &Machine<D, T>, pid: u32) -> Ahead {
        let Some((registers, pc)) = machine.hart_state() else {
            return Ahead::Nothing;
        };
        match word(machine, pid, pc) {
            Some(ECALL) => self.look_at_ecall(machine, pid),
            word => self.look_at_instruction(machine, coming_of(pid, pc, word, registers)),
        }
    }

    // What a process does whose next instruction is no call. For lines of events a fault is looked for before it comes,
    // since it closes the descriptors.
    fn look_at_instruction<D: BlockDev, T: Translate>(
        &mut self,
        machine: &Machine<D, T>,
        coming: Coming,
    ) -> Ahead {
        if self.pen.has(Form::Events) && fault_of(machine, coming.pid).is_some() {
            self.take_descriptors(machine, coming.pid);
        }
        Ahead::Instruction(coming)
    }

    // What a process does whose next instruction is a call.
    fn look_at_ecall<D: BlockDev, T: Translate>(
        &mut self,
        machine: &Machine<D, T>,
        pid: u32,
    ) -> Ahead {
        match machine.inspect(pid) {
            Some(seen) => Ahead::Call(self.look_at_call(machine, &seen)),
            None => Ahead::Nothing,
        }
    }

    // What a process asks for when it is about to make a call.
    fn look_at_call<D: BlockDev, T: Translate>(
        &mut self,
        machine: &Machine<D, T>,
        seen: &Seen,
    ) -> Asked {
        let asked = asked_of(seen, self.at);
        self.describe(machine, &asked, None);
        self.take_handed(machine, &asked, None);
        self.take_descriptors(machine, asked.pid);
        if asked.is(Call::Exec) {
            self.take_path(machine, &asked);
        }
        asked
    }

    // Takes the arguments of a call as text.
    fn describe<D: BlockDev, T: Translate>(
        &mut self,
        machine: &Machine<D, T>,
        asked: &Asked,
        answer: Option<i64>,
    ) {
        if !self.pen.has(Form::Text) && !self.pen.has(Form::Spans) {
            return;
        }
        let most = self.wanted.most();
        if describe(&mut self.text, machine, asked, answer, most).is_err() {
            self.pen.starve();
        }
    }

    // Takes the path of a program that is to run.
    fn take_path<D: BlockDev, T: Translate>(&mut self, machine: &Machine<D, T>, asked: &Asked) {
        self.path.clear();
        let [address, ..] = asked.arguments;
        for at in 0..MOST_NAME as u64 {
            match memory::byte(machine, asked.pid, address.wrapping_add(at)) {
                Some(0) | None => break,
                Some(byte) => {
                    let _ = self.path.try_push(byte);
                }
            }
        }
    }

    // The process with a pid.
    fn lane(&self, pid: u32) -> Option<&Lane> {
        self.lanes.get(place_of(self.lanes.as_slice(), pid)?)
    }

    // The same, to be changed.
    fn lane_mut(&mut self, pid: u32) -> Option<&mut Lane> {
        let place = place_of(self.lanes.as_slice(), pid)?;
        self.lanes.get_mut(place)
    }

    // Says what a process does.
    fn set_doing(&mut self, pid: u32, doing: Doing) {
        if let Some(lane) = self.lane_mut(pid) {
            lane.doing = doing;
        }
    }

    // What an instruction did that was no call: a process that faults leaves the hart.
    fn after_instruction<D: BlockDev, T: Translate>(
        &mut self,
        machine: &Machine<D, T>,
        done: &Coming,
    ) {
        match machine.hart_state() {
            Some((registers, _)) => self.log_commit(done, registers),
            None => self.after_fault(machine, done.pid),
        }
    }

    // What a fault did.
    fn after_fault<D: BlockDev, T: Translate>(&mut self, machine: &Machine<D, T>, pid: u32) {
        if let Some(seen) = machine.inspect(pid) {
            self.faulted(machine, &seen);
        }
    }

    // What a call did.
    fn after_call<D: BlockDev, T: Translate>(&mut self, machine: &Machine<D, T>, asked: &Asked) {
        if asked.is(Call::Exit) {
            return self.left(machine, asked);
        }
        let Some(seen) = machine.inspect(asked.pid) else {
            return;
        };
        match seen.state {
            ProcessState::Waiting(_) => self.waits(machine, asked),
            ProcessState::Zombie(_) => {
                self.answered(machine, asked, answer_of(&seen), false);
                self.killed(machine, asked.pid);
            }
            _ => self.answered(machine, asked, answer_of(&seen), false),
        }
    }

    // What the event that was ahead did.
    fn follow<D: BlockDev, T: Translate>(&mut self, machine: &Machine<D, T>) {
        match self.ahead {
            Ahead::Nothing => (),
            Ahead::Instruction(done) => self.after_instruction(machine, &done),
            Ahead::Call(asked) => self.after_call(machine, &asked),
            Ahead::Turn => self.after_turn(machine),
            Ahead::Tick => self.after_tick(),
            Ahead::Key(key) => self.draw_key(key),
        }
    }

    // A call at which the machine failed.
    fn break_off(&mut self) {
        if let Ahead::Call(asked) = self.ahead {
            self.say_call(&asked, Outcome::Unfinished);
            if let Some(lane) = self.lane_mut(asked.pid) {
                lane.pending = Some(asked);
            }
        }
    }

    // Goes on to an event. Those up to it did nothing that shows; where what is shown begins or ends among them, that
    // is written.
    fn pass_to<D: BlockDev, T: Translate>(&mut self, machine: &Machine<D, T>, last: u64) {
        let (from, to) = (self.wanted.from, self.wanted.to);
        if self.number() <= from && from <= last {
            self.at = from.saturating_sub(1);
            self.log_all(machine);
        }
        if !self.is_over && to <= last {
            self.at = to;
            self.close();
        }
        self.at = last;
    }

    // Writes what is left where all events that are shown have passed.
    fn close(&mut self) {
        if self.is_over {
            return;
        }
        self.say_row();
        self.draw_rest();
        self.is_over = true;
    }
}

impl<S: Sinks + Drop> Watch for Tracer<S> {
    // Only the log of commits has each instruction.
    fn detail(&self) -> Detail {
        if self.pen.has(Form::Commits) && !self.is_over {
            Detail::Steps
        } else {
            Detail::Calls
        }
    }

    fn before<D: BlockDev, T: Translate>(&mut self, machine: &Machine<D, T>, event: Event) {
        if !self.is_begun {
            self.begin(machine);
        }
        if self.number() == self.wanted.from {
            self.log_all(machine);
        }
        self.ahead = self.look_ahead(machine, event);
    }

    fn after<D: BlockDev, T: Translate>(
        &mut self,
        machine: &Machine<D, T>,
        _event: Event,
        ended: Result<(), Halt>,
    ) {
        if matches!(ended, Err(Halt::Device | Halt::Console)) {
            self.break_off();
        } else {
            self.follow(machine);
        }
        let is_last = self.number() >= self.wanted.to;
        self.at = self.number();
        if is_last {
            self.close();
        }
    }

    fn passed<D: BlockDev, T: Translate>(&mut self, machine: &Machine<D, T>, steps: u32) {
        if !self.is_begun {
            self.begin(machine);
        }
        self.pass_to(machine, self.at.saturating_add(u64::from(steps)));
    }

    fn end<D: BlockDev, T: Translate>(&mut self, _machine: &Machine<D, T>) {
        self.close();
    }
}
