//! Runs whose timer interrupts are drawn.

use crate::search::Explored;
use console::Writer;
use explore::{Interrupt, Path, Piece};
use machine::Halt;
use std::alloc::{AllocError, Global};
use unixmodel::event::Event;

/// The factor of the generator of random numbers, and what it adds.
const FACTOR: u64 = 6_364_136_223_846_793_005;

const INCREMENT: u64 = 1_442_695_040_888_963_407;

/// How many steps a process runs on before a timer interrupt is drawn.
const SPIN: u32 = 100_000;

/// How many choices a run has at most.
const CHOICES: usize = 100_000;

/// How many steps a run has at most before its last choice.
const STEPS: u32 = 20_000_000;

/// One of this many choices is a timer interrupt.
const ODDS: u64 = 4;

/// Draws numbers.
#[derive(Clone, Copy)]
pub(crate) struct Draws {
    state: u64,
}

impl Draws {
    /// The numbers of a seed.
    pub(crate) fn new(seed: u32) -> Draws {
        Draws {
            state: u64::from(seed),
        }
    }

    // Whether one of n cases comes.
    fn draw(&mut self, cases: u64) -> bool {
        self.state = self.state.wrapping_mul(FACTOR).wrapping_add(INCREMENT);
        (self.state >> 33) % cases.max(1) == 0
    }
}

/// What comes next.
#[derive(Clone, Copy, PartialEq, Eq)]
enum Choice {
    Step,
    Tick,
    Key(u8),
    /// Nothing: all wait.
    End,
}

// What comes next where nobody is ready, with this key left to type.
fn choose_idle(machine: &Explored, key: Option<u8>, draws: &mut Draws) -> Choice {
    let sleeps = machine.is_anyone_asleep();
    match key {
        None => { if sleeps { Choice::Tick } else { Choice::End } }
        Some(key) => {
            if sleeps && draws.draw(2) {
                Choice::Tick
            } else {
                Choice::Key(key)
            }
        }
    }
}

// What comes next, with this key left to type.
fn choose(machine: &Explored, key: Option<u8>, draws: &mut Draws) -> Choice {
    if machine.is_idle() {
        return choose_idle(machine, key, draws);
    }
    if draws.draw(ODDS) {
        Choice::Tick
    } else {
        Choice::Step
    }
}

// Puts an interrupt after the steps of a path.
fn put(path: &mut Path, interrupt: Interrupt) -> Result<(), AllocError> {
    path.pieces.push(Piece {
        steps: path.steps,
        interrupt,
    })?;
    path.steps = 0;
    Ok(())
}

// Notes what comes next, and gives it to the machine.
fn give(
    machine: &mut Explored,
    out: &mut Writer<Vec<u8>>,
    path: &mut Path,
    choice: Choice,
) -> Result<Result<(), Halt>, AllocError> {
    let event = match choice {
        Choice::Tick => {
            put(path, Interrupt::Tick)?;
            Event::Tick
        }
        Choice::Key(key) => {
            put(path, Interrupt::Key(key))?;
            Event::Key(key)
        }
        Choice::Step | Choice::End => {
            path.steps = path.steps.saturating_add(1);
            Event::Step
        }
    };
    Ok(machine.step(event, out))
}

/// Draws a run from where a machine is: the path to its end, if it comes to one soon.
pub(crate) fn draw_run(
    alloc: Global,
    machine: &mut Explored,
    keys: &[u8],
    draws: &mut Draws,
) -> Result<Option<Path>, AllocError> {
    let mut path = Path::new(alloc);
    let mut out = Writer::new(Vec::new(alloc));
    let mut typed: usize = 0;
    let mut left = STEPS;
    for _ in 0..CHOICES {
        let passed = machine.compute(SPIN.min(left), &[]);
        if passed == left {
            break;
        }
        left = left.saturating_sub(passed);
        path.steps = path.steps.saturating_add(passed);
        let choice = choose(machine, keys.get(typed).copied(), draws);
        match choice {
            Choice::End => return Ok(Some(path)),
            Choice::Key(_) => typed = typed.saturating_add(1),
            Choice::Step | Choice::Tick => {}
        }
        if give(machine, &mut out, &mut path, choice)?.is_err() {
            return Ok(Some(path));
        }
    }
    Ok(None)
}
