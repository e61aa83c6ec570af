//! A machine that goes along lists of events.
ghost use Rattle.std.specs.Prelude.{◌≡◌, ◌++◌, ◌∷◌, [], IfOk, IfSome, None, false, true};
ghost use Rattle.std.specs.Option.{ForSome};
ghost use Rattle.explore.specs.Along.{GoesBy, IsAt, IsNoUptime, IsPickedAgain, LeadsOn, status_from};
ghost use Rattle.explore.specs.Tidy.{IsTidy-prop};
ghost use Rattle.machine.specs.View.{IsUp};
ghost use Rattle.orders.specs.Paths.{event_of, events_of, piece_events, pieces_events, steps};
ghost use Rattle.orders.specs.Tidy.{IsTidy};

use crate::further::steps_between;
use crate::saved::saves_same;
use blockdev::Duplicate;
use console::Writer;
use machine::{Halt, Machine, ProcessState, Seen};
use orders::{Interrupt, Path, Piece, Trouble, Walker, tables_stay_tidy};
use std::alloc::Global;
use sv39::Translate;

// The number of the call `uptime`.
const UPTIME: u64 = 14;

/// A machine that goes along events from where another one is, and what it printed.
#[derive(Drop)]
pub struct Along<'a, D: Duplicate, T: Translate> {
    alloc: Global,
    first: &'a Machine<D, T>,
    machine: Machine<D, T>,
    printed: Writer<Vec<u8>>,
    // The path that it went, where it goes on from there.
    path: Option<Path>,
    ghost is_there: { ForSome path (IsAt first.now machine printed.inner.items) },
    ghost is_tidy: { IsTidy first.now.state } by { IsTidy-prop first.now.state },
}

// Why a machine stopped: process 1 ended with a status, or it failed.
fn status_of(done: Result<(), Halt>) -> Result<Option<i32>, Trouble>
    ensures { result ≡ status_from done }
{
    match done {
        Ok(()) => Ok(None),
        Err(halt) => match halt {
            Halt::InitEnded(status) => Ok(Some(status)),
            Halt::Console => Err(Trouble::Machine),
            Halt::Device => Err(Trouble::Machine),
            Halt::Halted => Err(Trouble::Machine),
        },
    }
}

// Does some steps. Returns the status of process 1, if it ended. A machine that had stopped is refused.
fn go_steps<D: Duplicate, T: Translate>(
    machine: &mut Machine<D, T>,
    printed: &mut Writer<Vec<u8>>,
    count: u32,
) -> Result<Option<i32>, Trouble>
    ensures { IfOk result (λ status. GoesBy (steps count) machine.old machine.new printed.old.inner.items
        printed.new.inner.items status) }
{
    let done = machine.steps(count, printed);
    status_of(done)
}

// Does one interrupt.
fn go_interrupt<D: Duplicate, T: Translate>(
    machine: &mut Machine<D, T>,
    printed: &mut Writer<Vec<u8>>,
    interrupt: Interrupt,
) -> Result<Option<i32>, Trouble>
    ensures { IfOk result
        (λ status. GoesBy (event_of interrupt ∷ []) machine.old machine.new printed.old.inner.items
        printed.new.inner.items status) }
{
    let done = machine.step(interrupt.event(), printed);
    status_of(done)
}

// Does some steps and an interrupt.
fn go_piece<D: Duplicate, T: Translate>(
    machine: &mut Machine<D, T>,
    printed: &mut Writer<Vec<u8>>,
    piece: Piece,
) -> Result<Option<i32>, Trouble>
    ensures { IfOk result
        (λ status. GoesBy (piece_events piece) machine.old machine.new printed.old.inner.items
        printed.new.inner.items status) }
{
    let stopped = go_steps(machine, printed, piece.steps)?;
    if stopped.is_some() {
        return Ok(stopped);
    }
    go_interrupt(machine, printed, piece.interrupt)
}

// Goes along pieces, up to the first at which process 1 ends.
fn go_pieces<D: Duplicate, T: Translate>(
    machine: &mut Machine<D, T>,
    printed: &mut Writer<Vec<u8>>,
    pieces: &[Piece],
) -> Result<Option<i32>, Trouble>
    requires { IsUp machine.old }
    ensures { IfOk result
        (λ status. GoesBy (pieces_events pieces.now) machine.old machine.new printed.old.inner.items
        printed.new.inner.items status) }
{
    for piece in pieces {
        let stopped = go_piece(machine, printed, *piece)?;
        if stopped.is_some() {
            return Ok(stopped);
        }
    }
    Ok(None)
}

// Goes along a path. A machine that had stopped is refused.
fn go_path<D: Duplicate, T: Translate>(
    machine: &mut Machine<D, T>,
    printed: &mut Writer<Vec<u8>>,
    path: &Path,
) -> Result<Option<i32>, Trouble>
    ensures { IfOk result
        (λ status. GoesBy (events_of path.now) machine.old machine.new printed.old.inner.items
        printed.new.inner.items status) }
{
    let refused = go_steps(machine, printed, 0)?;
    if refused.is_some() {
        return Err(Trouble::Machine);
    }
    let stopped = go_pieces(machine, printed, path.pieces.as_slice())?;
    if stopped.is_some() {
        return Ok(stopped);
    }
    go_steps(machine, printed, path.steps)
}

// How many steps lead on from the end of a path to the end of another one, where the first one is known, and steps
// alone do.
fn steps_on(path: &Option<Path>, further: &Path) -> Option<u32>
    ensures { IfSome result (LeadsOn path.now further.now) }
{
    match path {
        Some(path) => steps_between(path, further),
        None => None,
    }
}

// A path with some steps more, where it is known.
fn stepped(path: Option<Path>, count: u32) -> Result<Option<Path>, Trouble>
    ensures { IfOk result (λ further. IfSome further (λ f. LeadsOn path f count)) }
{
    match path {
        Some(path) => Ok(Some(path.stepped(count)?)),
        None => Ok(None),
    }
}

// A path, where process 1 has not ended.
fn going_on(path: &Path, status: Option<i32>) -> Result<Option<Path>, Trouble>
    ensures { IfOk result
        (λ kept. IfSome kept (λ same. (status ≡ None) × (events_of same ≡ events_of path.now))) }
{
    if status.is_some() {
        return Ok(None);
    }
    Ok(Some(path.copy()?))
}

// Whether the next instruction of a process may be the call `uptime`.
fn may_be_uptime(seen: Seen) -> bool
    ensures { result ≡ false → IsNoUptime seen }
{
    match seen.state {
        ProcessState::Running => seen.registers[17] % 0x1_0000_0000 == UPTIME,
        _ => true,
    }
}

// Whether the process that runs isn't killed, and would be picked again after a timer interrupt.
fn is_picked_again<D: Duplicate, T: Translate>(machine: &Machine<D, T>) -> bool
    ensures { result ≡ true → IsPickedAgain machine.now.state }
{
    let Some(pid) = machine.running() else {
        return false;
    };
    let Some(picked) = machine.pending_turn() else {
        return false;
    };
    if picked != pid {
        return false;
    }
    match machine.inspect(pid) {
        None => false,
        Some(seen) => !seen.killed,
    }
}

impl<'a, D: Duplicate, T: Translate> Along<'a, D, T> {
    /// At the beginning, with a machine of the same size, whatever its state is. The first one's tables are as at each
    /// start and after each run (`tables_stay_tidy`).
    pub fn new(alloc: Global, first: &'a Machine<D, T>, machine: Machine<D, T>) -> Self
        requires { IsTidy first.now.state }
        ensures { result.first.now ≡ first.now }
    {
        Along {
            alloc,
            first,
            machine,
            printed: Writer::new(Vec::new(alloc)),
            path: None,
        }
    }

    /// The machine.
    pub fn machine(&self) -> &Machine<D, T>
        ensures { result.now ≡ self.now.machine }
    {
        &self.machine
    }

    // Goes along a path from the beginning on.
    fn go_anew(&mut self, path: &Path) -> Result<Option<i32>, Trouble>
        requires { self.old.path ≡ None }
        ensures goes { IfOk result (λ status. GoesBy (events_of path.now) self.old.first.now self.new.machine []
            self.new.printed.inner.items status) }
        ensures first { self.new.first.now ≡ self.old.first.now }
        ensures path { self.new.path ≡ None }
    {
        if !self.machine.copy_from(self.first) {
            return Err(Trouble::Machine);
        }
        self.printed = Writer::new(Vec::new(self.alloc));
        go_path(&mut self.machine, &mut self.printed, path)
    }

    // Goes along a path: on from the end of the last one where steps alone lead on, else from the beginning.
    fn go_on(&mut self, last: &Option<Path>, path: &Path) -> Result<Option<i32>, Trouble>
        requires none { self.old.path ≡ None }
        requires last { ForSome last.now (IsAt self.old.first.now self.old.machine self.old.printed.inner.items) }
        ensures goes { IfOk result (λ status. GoesBy (events_of path.now) self.old.first.now self.new.machine []
            self.new.printed.inner.items status) }
        ensures first { self.new.first.now ≡ self.old.first.now }
        ensures path { self.new.path ≡ None }
    {
        match steps_on(last, path) {
            Some(more) => go_steps(&mut self.machine, &mut self.printed, more),
            None => self.go_anew(path),
        }
    }

    // Whether another one printed the same.
    fn prints_same(&self, other: &Self) -> bool
        ensures { result ≡ true → self.now.printed.inner.items ≡ other.now.printed.inner.items }
    {
        self.printed() == other.printed()
    }

    /// What was printed.
    pub fn printed(&self) -> &[u8]
        ensures { result.now ≡ self.now.printed.inner.items }
    {
        self.printed.get_ref().as_slice()
    }
}

impl<'a, D: Duplicate, T: Translate> Walker for Along<'a, D, T> {
    ghost start = { λ w. w.first.now.state };

    ghost reached = { λ w. record { state = w.machine.state; bytes = w.printed.inner.items } };

    fn go(&mut self, path: &Path) -> Result<Option<i32>, Trouble> {
        let last = self.path.take();
        let status = self.go_on(&last, path)?;
        self.path = going_on(path, status)?;
        Ok(status)
    }

    fn is_running(&self) -> bool {
        self.machine.running().is_some()
    }

    fn is_idle(&self) -> bool {
        self.machine.is_idle()
    }

    fn is_anyone_asleep(&self) -> bool {
        self.machine.is_anyone_asleep()
    }

    fn is_time_awaited(&self) -> bool {
        self.machine.is_time_awaited()
    }

    fn gives_turn_back(&self) -> bool {
        tables_stay_tidy();
        if self.path.is_none() || self.machine.is_anyone_asleep() {
            return false;
        }
        is_picked_again(&self.machine)
    }

    fn compute(&mut self, most: u32) -> Result<u32, Trouble> {
        let last = self.path.take();
        let stopped = go_steps(&mut self.machine, &mut self.printed, 0)?;
        if stopped.is_some() {
            return Err(Trouble::Machine);
        }
        let count = self.machine.compute(most, &[]);
        self.path = stepped(last, count)?;
        Ok(count)
    }

    fn may_ask_time(&self) -> bool {
        let Some(pid) = self.machine.running() else {
            return false;
        };
        match self.machine.inspect(pid) {
            None => true,
            Some(seen) => may_be_uptime(seen),
        }
    }

    fn has_clock(&self) {
        let _ticks = self.machine.ticks();
    }

    fn names_are_there(&self) {}

    fn digest(&mut self) -> Result<u64, Trouble> {
        let path = self.path.take();
        let Ok(digest) = self.machine.digest_but_ticks() else {
            return Err(Trouble::Machine);
        };
        self.path = path;
        Ok(digest)
    }

    fn is_like(&mut self, other: &mut Self) -> Result<bool, Trouble> {
        if !self.prints_same(other) {
            return Ok(false);
        }
        let path = self.path.take();
        other.path = None;
        let Ok(is_like) = self.machine.matches(&mut other.machine) else {
            return Err(Trouble::Machine);
        };
        self.path = path;
        Ok(is_like)
    }

    fn shows_same(&mut self, other: &mut Self) -> Result<bool, Trouble> {
        if !self.prints_same(other) {
            return Ok(false);
        }
        self.path = None;
        other.path = None;
        match saves_same(&mut self.machine, &mut other.machine) {
            Ok(saves_same) => Ok(saves_same),
            Err(_) => Err(Trouble::Machine),
        }
    }
}
