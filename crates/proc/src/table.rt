//! The table of processes.
ghost use Rattle.std.specs.Prelude.{◌≡◌, ◌+◌, ◌<◌, ◌≤◌, ◌%◌, List, ℕ, Some, None, true, false, length, map, option_map};
ghost use Rattle.std.specs.Prelude.{position, is_some, IfSome, IfOk, OnErr};
ghost use Rattle.std.specs.Borrow.{sem};
ghost use Rattle.std.specs.Option.{option_copied, option_copied_mut};
ghost use Rattle.unixmodel.specs.Files.{free_slot, free_slots, put, slot};
ghost use Rattle.proc.specs.Mask.{all_in};
ghost use Rattle.unixmodel.specs.ProcessCalls.{status_of};
ghost use Rattle.proc.specs.Next.{IsNextOf, lesser};
ghost use Rattle.proc.specs.Places.{has_pid, is_zombie_child_of, orphaned, place_where, zombie_of};
ghost use Rattle.unixmodel.specs.State.{holds, place_limit};
ghost use Rattle.unixmodel.specs.declared.process.Mode.TheVariants.{Ready, Running, Waiting};

use crate::mask::Mask;
use crate::process::{Place, Process};
use crate::waits::{WaitKind, WaitPlaces};
use std::alloc::{AllocError, Global};
use std::marker::Model;
use thiserror::Error;
use unixmodel::limits::{DESCRIPTORS, PROCESSES};
use unixmodel::process::{Mode, Pending};

/// The last pid that a process gets.
const LAST_PID: u32 = 2147483647;

/// Why no slot was given to a process.
#[derive(Clone, Copy, Debug, PartialEq, Eq, Error)]
pub enum ProcFault {
    #[error("no place is free")]
    Slots,
    #[error("no pid is left")]
    Pids,
}

/// The slot of a new process, and its pid.
#[derive(Clone, Copy, Debug, PartialEq, Eq)]
pub struct Seat {
    /// The number of the slot.
    pub place: usize,
    /// The pid of the process.
    pub pid: u32,
}

/// A zombie that was collected, and the slot that it had.
#[derive(Clone, Copy, Debug, PartialEq, Eq)]
pub struct Reaped {
    /// The number of the slot.
    pub place: usize,
    /// The pid of the process.
    pub pid: u32,
    /// The status with which it ended.
    pub status: i32,
}

/// The slots, the one that was picked last, the pid that the next process gets, the slots that a turn looks at, and
/// those where processes may wait. The slots are on the heap, so that a table that is moved takes little of the stack.
#[derive(Drop)]
pub struct Table {
    // 64, none of which is added or taken away
    places: Vec<Place>,
    last: usize,
    next_pid: u32,
    awake: Mask,
    waiting: WaitPlaces,
}

impl Model for Table {
    ghost use Rattle.proc.specs.Places.{Places};

    ghost Value = { Places };

    ghost view = { λ t. record { places = t.places.items; last = t.last; next_pid = t.next_pid; awake = t.awake } };

    ghost use Rattle.proc.specs.Sound.{IsSound};

    ghost invariant = { IsSound };
}

/// The first zombie whose parent this is.
pub fn zombie_child(places: &[Place], parent: u32) -> Option<usize>
    ensures place { result ≡ place_where places.now (is_zombie_child_of parent) }
    ensures within { IfSome result (λ i. i < length places.now) }
{
    places.iter().position(|place| match place {
        Some(process) => process.parent == parent && matches!(process.mode, Mode::Zombie(_)),
        None => false,
    })
}

// The lesser of the pid that was found and another, which counts where it is above `after`.
fn lesser(found: Option<u32>, after: u32, pid: u32) -> Option<u32>
    ensures { result ≡ lesser found after pid }
{
    match found {
        Some(least) if least < pid => Some(least),
        _ if after < pid => Some(pid),
        _ => found,
    }
}

// The least pid above another.
fn least_above(places: &[Place], after: u32) -> Option<u32>
    ensures { IsNextOf (λ pid. is_some (place_where places.now (has_pid pid))) after result }
{
    let mut least = None;
    for place in places {
        if let Some(process) = place {
            least = lesser(least, after, process.pid);
        }
    }
    least
}

// A child of a process goes to process 1.
fn orphan(place: &mut Place, pid: u32)
    ensures { place.new ≡ option_map (orphaned pid) place.old }
{
    if let Some(process) = place
        && process.parent == pid
    {
        process.parent = 1;
    }
}

// The children of a process go to process 1.
fn orphan_all(places: &mut [Place], pid: u32)
    ensures { places.new ≡ map (option_map (orphaned pid)) places.old }
{
    for place in places.iter_mut() {
        orphan(place, pid);
    }
}

// What a process is once it has ended.
#[tactic(auto, unfolding(unixmodel::specs::Outcome::no_descriptors, unixmodel::specs::Files::free_slots))]
fn zombie(process: Process, status: i32) -> Process
    ensures { result ≡ zombie_of process status }
{
    Process {
        descriptors: [None; DESCRIPTORS],
        directory: 0,
        mode: Mode::Zombie(status),
        ..process
    }
}

// The status of a zombie.
fn status(mode: Mode) -> i32
    ensures { result ≡ status_of mode }
{
    match mode {
        Mode::Zombie(status) => status,
        _ => 0,
    }
}

// Free slots. All their memory is asked for at once.
fn free_places(alloc: Global) -> Result<Vec<Place>, AllocError>
    ensures { IfOk result (λ places. places.items ≡ free_slots 64) }
{
    let mut places = Vec::with_capacity(alloc, PROCESSES)?;
    for _ in 0..PROCESSES {
        places.push(None)?;
    }
    Ok(places)
}

impl Table {
    ghost use Rattle.proc.specs.Places.{Places, changed, exited, has_pid, is_awake, is_child_of, is_running, left};
    ghost use Rattle.proc.specs.Places.{reaped_at, seat_of, seated, with_descriptor, with_directory, with_mark};
    ghost use Rattle.proc.specs.Places.{with_mode, with_running, without, woken, zombie_place};
    ghost use Rattle.proc.specs.Lending.{LendsProcess};
    ghost use Rattle.proc.specs.Pick.{Answers, Picks};
    ghost use Rattle.proc.specs.Picked.{PicksFirst};
    ghost use Rattle.proc.specs.Waits.{FindsWaiting};

    /// Free slots. The first process gets this pid, and a turn looks at each slot at least once.
    ///
    /// All memory for the slots is asked for at once: `AllocError` where the host has none.
    pub fn starting_at(alloc: Global, pid: u32) -> Result<Table, AllocError>
        requires first { 1 ≤ pid }
        requires last { pid ≤ 2147483647 }
        ensures { IfOk result (λ t. t
            ≡ record { places = free_slots 64; last = 63; next_pid = pid; awake = all_in 64 }) }
    {
        let places = free_places(alloc)?;
        Ok(Table {
            places,
            last: PROCESSES - 1,
            next_pid: pid,
            awake: Mask::all(),
            waiting: WaitPlaces::all(),
        })
    }

    /// The same processes in the same slots. It takes as much memory.
    pub fn duplicate(&self, alloc: Global) -> Result<Table, AllocError>
        ensures { IfOk result (λ t. t ≡ self.now) }
    {
        let places = Vec::from_slice(alloc, self.places.as_slice())?;
        Ok(Table {
            places,
            last: self.last,
            next_pid: self.next_pid,
            awake: self.awake.duplicate(),
            waiting: self.waiting.duplicate(),
        })
    }

    /// Becomes the same processes in the same slots, in the memory that it has.
    pub fn copy_from(&mut self, source: &Table)
        ensures { self.new ≡ source.now }
    {
        self.places.copy_from_slice(source.places.as_slice());
        self.last = source.last;
        self.next_pid = source.next_pid;
        self.awake = source.awake.duplicate();
        self.waiting = source.waiting.duplicate();
    }

    /// All slots.
    pub fn places(&self) -> &[Place]
        ensures places { result.now ≡ self.now.places }
        ensures all { length self.now.places ≡ 64 }
        ensures last { self.now.last < 64 }
    {
        let _ = &self.last;
        self.places.as_slice()
    }

    /// The process in a slot.
    pub fn process(&self, at: usize) -> Option<&Process>
        ensures process { option_copied result ≡ slot self.now.places at }
        ensures within { IfSome result (λ _. at < 64) }
    {
        match self.places.as_slice().get(at) {
            Some(Some(process)) => Some(process),
            _ => None,
        }
    }

    // The process in a slot, to be changed there.
    fn process_mut(&mut self, at: usize) -> Option<&mut Process>
        ensures* writes_back { sem 𝓛 (LendsProcess self.entry at result) }
        ensures process { option_copied_mut result ≡ slot self.old.places at }
    {
        self.waiting.set(at);
        self.places.get_mut(at)?.as_mut()
    }

    /// Puts a process in a slot.
    pub fn put(&mut self, at: usize, process: Process)
        requires { at < 64 }
        ensures { self.new ≡ record self.old { places = put self.old.places at process } }
    {
        self.waiting.set(at);
        self.places[at] = Some(process);
    }

    /// Sets the working directory of the process in a slot. Nothing changes where the slot is free.
    pub fn set_directory(&mut self, at: usize, directory: u32)
        ensures { self.new ≡ changed self.old at (with_directory directory) }
    {
        if let Some(process) = self.process_mut(at) {
            process.directory = directory;
        }
    }

    /// Sets the open file that a descriptor of the process in a slot names, or frees it. Nothing changes where the slot
    /// is free.
    pub fn set_descriptor(&mut self, at: usize, descriptor: usize, id: Option<u8>)
        requires { descriptor < 16 }
        ensures { self.new ≡ changed self.old at (with_descriptor descriptor id) }
    {
        if let Some(process) = self.process_mut(at) {
            process.descriptors[descriptor] = id;
        }
    }

    /// Marks the process in a slot as killed. Nothing changes where the slot is free.
    pub fn mark(&mut self, at: usize)
        ensures { self.new ≡ changed self.old at with_mark }
    {
        if let Some(process) = self.process_mut(at) {
            process.killed = true;
        }
    }

    /// The process in a slot runs no more: it keeps these registers and this pc. Nothing changes where the slot is
    /// free.
    pub fn leave(&mut self, at: usize, registers: &[u64; 32], pc: u64, mode: Mode)
        ensures { self.new ≡ changed self.old at (left registers.now pc mode) }
    {
        if let Some(process) = self.process_mut(at) {
            process.registers = *registers;
            process.pc = pc;
            process.mode = mode;
        }
    }

    /// The slot of the running process.
    pub fn running(&self) -> Option<usize>
        ensures place { result ≡ place_where self.now.places is_running }
        ensures within { IfSome result (λ i. i < 64) }
    {
        self.places.as_slice().iter().position(|place| match place {
            Some(process) => matches!(process.mode, Mode::Running),
            None => false,
        })
    }

    /// The slot of the process with a pid.
    pub fn find(&self, pid: u32) -> Option<usize>
        ensures place { result ≡ place_where self.now.places (has_pid pid) }
        ensures within { IfSome result (λ i. i < 64) }
    {
        self.places.as_slice().iter().position(|place| match place {
            Some(process) => process.pid == pid,
            None => false,
        })
    }

    /// The least pid above another, among those of all processes, also of zombies.
    pub fn next_pid(&self, after: u32) -> Option<u32>
        ensures { IsNextOf (λ pid. is_some (place_where self.now.places (has_pid pid))) after result }
    {
        least_above(self.places.as_slice(), after)
    }

    /// The slot that was picked last.
    pub fn last(&self) -> usize
        ensures { result ≡ self.now.last }
    {
        self.last
    }

    /// The pid that the next process gets.
    pub fn coming_pid(&self) -> u32
        ensures { result ≡ self.now.next_pid }
    {
        self.next_pid
    }

    // The slot of the first child of a process.
    fn first_child(&self, pid: u32) -> Option<usize>
        ensures { result ≡ place_where self.now.places (is_child_of pid) }
    {
        self.places.as_slice().iter().position(|place| match place {
            Some(process) => process.parent == pid,
            None => false,
        })
    }

    /// Whether a process has a child.
    pub fn has_child(&self, pid: u32) -> bool
        ensures { result ≡ is_some (place_where self.now.places (is_child_of pid)) }
    {
        self.first_child(pid).is_some()
    }

    /// A turn looks at a slot again: for whoever may have become ready. Nothing changes where there is no such slot.
    pub fn wake(&mut self, at: usize)
        ensures { self.new ≡ woken self.old at }
    {
        self.awake.set(at);
    }

    /// The first slot from `from` on whose process waits for that. It looks only at slots where one may.
    pub fn next_waiting(&mut self, kind: WaitKind, from: usize) -> Option<usize>
        requires { from ≤ 64 }
        ensures finds { FindsWaiting self.old.places kind from result }
        ensures same { self.new ≡ self.old }
        ensures all { length self.old.places ≡ 64 }
    {
        self.waiting.first(self.places.as_slice(), kind, from)
    }

    /// Picks the first ready slot in the order from the one after the last picked, ending at that one. It looks at
    /// those that are awake, and at no slot twice: one that isn't ready is awake again once it is woken.
    pub fn pick<F: Fn(&[Place], usize) -> bool>(&mut self, ready: F) -> Option<usize>
        requires callable { F.IsAlwaysCallable ready }
        requires awake { (i : ℕ) → is_awake self.old i ≡ false → Answers F.Fn ready self.old.places i false }
        ensures { PicksFirst (Answers F.Fn ready self.old.places) self.old self.new result }
    {
        let mut turn = 1;
        'round: while let Some(next) = self.awake.next(self.last, turn) {
            let at = (self.last + next) % PROCESSES;
            if ready(self.places.as_slice(), at) {
                self.last = at;
                return Some(at);
            }
            self.awake.clear(at);
            turn = next + 1;
        }
        None
    }

    /// The slot that a pick would find. Nothing changes.
    pub fn next_ready<F: Fn(&[Place], usize) -> bool>(&self, ready: F) -> Option<usize>
        requires callable { F.IsAlwaysCallable ready }
        requires awake { (i : ℕ) → is_awake self.now i ≡ false → Answers F.Fn ready self.now.places i false }
        ensures first { Picks (Answers F.Fn ready self.now.places) self.now.last result }
        ensures within { IfSome result (λ i. i < 64) }
    {
        let mut turn = 1;
        'round: while let Some(next) = self.awake.next(self.last, turn) {
            let place = (self.last + next) % PROCESSES;
            if ready(self.places.as_slice(), place) {
                return Some(place);
            }
            turn = next + 1;
        }
        None
    }

    // The children of a process go to process 1.
    fn orphan_children(&mut self, pid: u32)
        ensures { self.new ≡ record self.old { places = map (option_map (orphaned pid)) self.old.places } }
    {
        orphan_all(self.places.as_mut_slice(), pid);
    }

    // Sets the mode of the process in a slot.
    fn set_mode(&mut self, at: usize, mode: Mode)
        ensures { self.new ≡ changed self.old at (with_mode mode) }
    {
        if let Some(process) = self.process_mut(at) {
            process.mode = mode;
        }
    }

    /// The process in a slot runs. Nothing changes where the slot is free.
    pub fn run(&mut self, at: usize)
        ensures { self.new ≡ changed self.old at (with_mode Running) }
    {
        self.set_mode(at, Mode::Running);
    }

    /// The running process becomes ready. Nothing changes where none runs.
    pub fn stop(&mut self)
        ensures { self.new ≡ with_running self.old (with_mode Ready) }
    {
        if let Some(at) = self.running() {
            self.set_mode(at, Mode::Ready);
        }
    }

    /// The running process waits. Nothing changes where none runs.
    pub fn block(&mut self, pending: Pending)
        ensures { self.new ≡ with_running self.old (with_mode (Waiting pending)) }
    {
        if let Some(at) = self.running() {
            self.set_mode(at, Mode::Waiting(pending));
        }
    }

    // The lowest free slot.
    fn free_place(&self) -> Option<usize>
        ensures place { result ≡ free_slot self.now.places }
        ensures within { IfSome result (λ i. i < 64) }
    {
        self.places
            .as_slice()
            .iter()
            .position(|place| place.is_none())
    }

    /// The slot and the pid that a new process gets: the lowest free slot, and the next pid.
    pub fn next_seat(&self) -> Result<Seat, ProcFault>
        ensures seat { result ≡ seat_of self.now }
        ensures within { IfOk result (λ seat. seat.place < 64) }
    {
        match self.free_place() {
            None => Err(ProcFault::Slots),
            Some(place) => {
                if self.next_pid <= LAST_PID {
                    Ok(Seat {
                        place,
                        pid: self.next_pid,
                    })
                } else {
                    Err(ProcFault::Pids)
                }
            }
        }
    }

    /// Puts a process in the lowest free slot, under the next pid.
    pub fn alloc(&mut self, process: Process) -> Result<Seat, ProcFault>
        ensures seat { result ≡ seat_of self.old }
        ensures within { IfOk result (λ seat. seat.place < 64) }
        ensures ok { IfOk result (λ seat. self.new ≡ seated self.old process seat) }
        ensures err { OnErr result (self.new ≡ self.old) }
    {
        let seat = self.next_seat()?;
        self.take_seat(process, seat);
        Ok(seat)
    }

    /// Puts a process in the next seat.
    pub fn take_seat(&mut self, process: Process, seat: Seat)
        requires { seat_of self.old ≡ Ok seat }
        ensures { self.new ≡ seated self.old process seat }
    {
        self.waiting.set(seat.place);
        self.places[seat.place] = Some(Process {
            pid: seat.pid,
            ..process
        });
        self.next_pid += 1;
    }

    /// The process in a slot ends: it gives up its descriptors and its directory, and becomes a zombie with this
    /// status, and its children go to process 1. Nothing changes where the slot is free.
    pub fn exit(&mut self, at: usize, status: i32)
        ensures { self.new ≡ exited self.old at status }
    {
        if let Some(process) = self.process(at).copied() {
            self.orphan_children(process.pid);
            self.put(at, zombie(process, status));
        }
    }

    /// Collects the first zombie child of a process: its slot becomes free. `None` where there is no zombie child.
    pub fn reap(&mut self, parent: u32) -> Option<Reaped>
        ensures reaped { result ≡ reaped_at self.old (zombie_place self.old parent) }
        ensures places { self.new ≡ without self.old (zombie_place self.old parent) }
        ensures within { IfSome result (λ reaped. reaped.place < 64) }
    {
        let at = zombie_child(self.places(), parent)?;
        let process = self.places[at].take()?;
        Some(Reaped {
            place: at,
            pid: process.pid,
            status: status(process.mode),
        })
    }
}
