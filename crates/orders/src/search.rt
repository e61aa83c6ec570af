//! The search.
ghost use Rattle.std.specs.Prelude.{◌≡◌, ◌<◌, ◌∷◌, [], List, ℕ, IfOk, IfSome, None, OnOk, is_some, length, true};
ghost use Rattle.orders.specs.Ends.{AllWait, ShowSame};
ghost use Rattle.orders.specs.Free.{keys_left};
ghost use Rattle.orders.specs.Looked.{ComesTo, IsAtBound, IsDue, IsGoing, IsKnownAt, IsLikeAt, NotesTime};
ghost use Rattle.orders.specs.Looked.{OpensKey, OpensStep, OpensTick, TakesTurn, TellsAt, TellsWaiting};
ghost use Rattle.orders.specs.Missed.{is_late_alone, is_nothing, is_ticks_alone};
ghost use Rattle.orders.specs.Paths.{events_of};
ghost use Rattle.orders.specs.Told.{Each, IsComplete, IsCompleteAsTried, IsCompleteIfShort, IsSound, IsTold};
ghost use Rattle.renumbering.specs.Renumbered.{NamesAreThere};
ghost use Rattle.schedules.specs.Alike.{HasClock};
ghost use Rattle.unixmodel.specs.Run.{run};
ghost use Rattle.unixmodel.specs.State.{State, running};
ghost use Rattle.orders.specs.declared.bounds.Bounds.{Bounds};

use crate::bounds::{Bounds, Missed, Task, Trouble};
use crate::paths::Path;
use crate::progress::{Progress, Standing};
use crate::seen::Seen;
use crate::told::{Outcome, count_run};
use crate::walker::Walker;
use std::alloc::Global;
use std::collections::VecDeque;

/// What a search found.
#[derive(Drop)]
pub struct Found {
    pub outcomes: Vec<Outcome>,
    /// How many states were looked at.
    pub states: usize,
    pub missed: Missed,
}

// Whether an outcome is what the walker shows, of which process 1 has this status, if it has ended.
fn is_outcome<W: Walker>(
    outcome: &Outcome,
    walker: &mut W,
    other: &mut W,
    status: Option<i32>,
) -> Result<bool, Trouble>
    requires start { W.start other.old ≡ W.start walker.old }
    requires status { (W.reached walker.old).state.halted ≡ status }
    ensures same { IfOk result (λ same. same ≡ true
        → ShowSame (W.reached walker.old) (run (W.start walker.old) (events_of outcome.now.path))) }
    ensures start { W.start walker.new ≡ W.start walker.old }
    ensures other_start { W.start other.new ≡ W.start other.old }
    ensures reached { OnOk result (W.reached walker.new ≡ W.reached walker.old) }
{
    let ended = other.go(&outcome.path)?;
    if ended != status {
        return Ok(false);
    }
    walker.shows_same(other)
}

// The number of an outcome that is what the walker shows, of which process 1 has this status, if it has ended.
fn find_outcome<W: Walker>(
    outcomes: &[Outcome],
    walker: &mut W,
    other: &mut W,
    status: Option<i32>,
) -> Result<Option<usize>, Trouble>
    requires start { W.start other.old ≡ W.start walker.old }
    requires status { (W.reached walker.old).state.halted ≡ status }
    ensures told { IfOk result
        (λ found. IfSome found (λ _. IsTold (W.start walker.old) outcomes.now (W.reached walker.old))) }
    ensures within { IfOk result (λ found. IfSome found (λ number. number < length outcomes.now)) }
    ensures start { W.start walker.new ≡ W.start walker.old }
    ensures other_start { W.start other.new ≡ W.start other.old }
    ensures reached { OnOk result (W.reached walker.new ≡ W.reached walker.old) }
{
    for number in 0..outcomes.len() {
        if is_outcome(&outcomes[number], walker, other, status)? {
            return Ok(Some(number));
        }
    }
    Ok(None)
}

// Tells what a walker shows that came to the end of a path: it is an outcome that was told, or a new one.
fn tell<W: Walker>(
    told: &mut Vec<Outcome>,
    walker: &mut W,
    other: &mut W,
    path: &Path,
    status: Option<i32>,
) -> Result<(), Trouble>
    requires start { W.start other.old ≡ W.start walker.old }
    requires reached { W.reached walker.old ≡ run (W.start walker.old) (events_of path.now) }
    requires status { (W.reached walker.old).state.halted ≡ status }
    ensures told { OnOk result (TellsAt (W.start walker.old) told.old.items told.new.items
        (events_of path.now)) }
    ensures start { W.start walker.new ≡ W.start walker.old }
    ensures other_start { W.start other.new ≡ W.start other.old }
    ensures reached { OnOk result (W.reached walker.new ≡ W.reached walker.old) }
{
    if let Some(number) = find_outcome(told.as_slice(), walker, other, status)? {
        return count_run(told, number);
    }
    let path = path.copy()?;
    told.push(Outcome {
        path,
        status,
        runs: 1,
    })?;
    Ok(())
}

// Whether a state was looked at that is like the one that a walker came to at the end of a path.
fn is_known<W: Walker>(
    seen: &Seen,
    walker: &mut W,
    other: &mut W,
    path: &Path,
    digest: u64,
) -> Result<bool, Trouble>
    requires start { W.start other.old ≡ W.start walker.old }
    requires reached { W.reached walker.old ≡ run (W.start walker.old) (events_of path.now) }
    ensures known { IfOk result
        (λ known. known ≡ true → IsKnownAt (W.start walker.old) seen.now.paths.items path.now) }
    ensures start { W.start walker.new ≡ W.start walker.old }
    ensures other_start { W.start other.new ≡ W.start other.old }
    ensures reached { OnOk result (W.reached walker.new ≡ W.reached walker.old) }
{
    let mut number = seen.last(digest);
    'entry: for _ in 0..seen.paths.len() {
        let Some(last) = number else {
            return Ok(false);
        };
        let Some(earlier) = seen.paths.get(last as usize) else {
            return Ok(false);
        };
        if is_like_at(walker, other, path, earlier)? {
            return Ok(true);
        }
        number = seen.before(last);
    }
    Ok(false)
}

// Whether what an earlier path leads to is like what a walker came to at the end of a path.
fn is_like_at<W: Walker>(
    walker: &mut W,
    other: &mut W,
    path: &Path,
    earlier: &Path,
) -> Result<bool, Trouble>
    requires start { W.start other.old ≡ W.start walker.old }
    requires reached { W.reached walker.old ≡ run (W.start walker.old) (events_of path.now) }
    ensures known { IfOk result (λ known. known ≡ true → IsLikeAt (W.start walker.old) path.now earlier.now) }
    ensures start { W.start walker.new ≡ W.start walker.old }
    ensures other_start { W.start other.new ≡ W.start other.old }
    ensures reached { OnOk result (W.reached walker.new ≡ W.reached walker.old) }
{
    if earlier.typed() != path.typed() {
        return Ok(false);
    }
    if earlier.busy > path.busy {
        return Ok(false);
    }
    other.go(earlier)?;
    walker.is_like(other)
}

// Notes where a process may ask for the count of ticks.
fn note_time<W: Walker>(missed: &mut Missed, walker: &W)
    ensures { NotesTime (W.reached walker.now).state missed.old missed.new }
{
    if walker.may_ask_time() {
        missed.uptime = true;
    }
}

// Whether all wait where a walker came to at the end of a path, and nothing is left to type.
fn is_waiting<W: Walker>(walker: &W, keys: &[u8], path: &Path) -> bool
    ensures yes { result ≡ true → AllWait (keys_left keys.now (events_of path.now)) (W.reached walker.now).state }
    ensures no { AllWait (keys_left keys.now (events_of path.now)) (W.reached walker.now).state → result ≡ true }
{
    if !walker.is_idle() {
        return false;
    }
    if walker.is_anyone_asleep() {
        return false;
    }
    path.typed() >= keys.len()
}

// Tells what a walker came to at the end of a path, where all wait and nothing is left to type.
fn tell_waiting<W: Walker>(
    told: &mut Vec<Outcome>,
    walker: &mut W,
    other: &mut W,
    keys: &[u8],
    path: &Path,
) -> Result<(), Trouble>
    requires start { W.start other.old ≡ W.start walker.old }
    requires reached { W.reached walker.old ≡ run (W.start walker.old) (events_of path.now) }
    requires goes { (W.reached walker.old).state.halted ≡ None }
    ensures told { OnOk result (TellsWaiting keys.now (W.start walker.old) told.old.items
        told.new.items (events_of path.now)) }
    ensures start { W.start walker.new ≡ W.start walker.old }
    ensures other_start { W.start other.new ≡ W.start other.old }
    ensures reached { OnOk result (W.reached walker.new ≡ W.reached walker.old) }
{
    if !is_waiting(walker, keys, path) {
        return Ok(());
    }
    tell(told, walker, other, path, None)
}

// Opens the path with the next typed byte, where nobody is ready.
fn open_key<W: Walker>(
    todo: &mut VecDeque<Path>,
    walker: &W,
    keys: &[u8],
    path: &Path,
) -> Result<(), Trouble>
    requires { W.reached walker.now ≡ run (W.start walker.now) (events_of path.now) }
    ensures { OnOk result (OpensKey keys.now (W.start walker.now) todo.old.items todo.new.items path.now) }
{
    if !walker.is_idle() {
        return Ok(());
    }
    let Some(byte) = keys.get(path.typed()) else {
        return Ok(());
    };
    let further = path.typing(*byte)?;
    todo.push_front(further)?;
    Ok(())
}

// Opens the path with a timer interrupt where no process runs, if it may change more than the clock.
fn open_idle_tick<W: Walker>(
    todo: &mut VecDeque<Path>,
    missed: &mut Missed,
    walker: &W,
    path: &Path,
) -> Result<(), Trouble>
    requires reached { W.reached walker.now ≡ run (W.start walker.now) (events_of path.now) }
    requires idle { running (W.reached walker.now).state ≡ None }
    ensures { (b : Bounds) (keys : List ℕ) → OnOk result (OpensTick b keys (W.start walker.now) todo.old.items
        todo.new.items missed.old missed.new path.now) }
{
    if !walker.is_anyone_asleep() {
        return Ok(());
    }
    if !walker.is_time_awaited() {
        missed.late = true;
        return Ok(());
    }
    let further = path.ticked(false)?;
    todo.push_back(further)?;
    Ok(())
}

// Whether more timer interrupts are left out.
fn is_at_bound(bounds: &Bounds, path: &Path) -> bool
    ensures { result ≡ true → IsAtBound bounds.now path.now.busy }
{
    match bounds.ticks {
        Some(most) => path.busy >= most,
        None => false,
    }
}

// Opens the path with a timer interrupt where a process runs, if the turn after it isn't given back.
fn open_busy_tick<W: Walker>(
    todo: &mut VecDeque<Path>,
    missed: &mut Missed,
    walker: &W,
    bounds: &Bounds,
    path: &Path,
) -> Result<(), Trouble>
    requires reached { W.reached walker.now ≡ run (W.start walker.now) (events_of path.now) }
    requires runs { is_some (running (W.reached walker.now).state) ≡ true }
    ensures { (keys : List ℕ) → OnOk result (OpensTick bounds.now keys (W.start walker.now) todo.old.items
        todo.new.items missed.old missed.new path.now) }
{
    if walker.gives_turn_back() {
        return Ok(());
    }
    if is_at_bound(bounds, path) {
        missed.ticks = true;
        return Ok(());
    }
    let further = path.ticked(true)?;
    todo.push_back(further)?;
    Ok(())
}

// Opens the path with a timer interrupt, where it may change more than the clock.
fn open_tick<W: Walker>(
    todo: &mut VecDeque<Path>,
    missed: &mut Missed,
    walker: &W,
    bounds: &Bounds,
    path: &Path,
) -> Result<(), Trouble>
    requires { W.reached walker.now ≡ run (W.start walker.now) (events_of path.now) }
    ensures { (keys : List ℕ) → OnOk result (OpensTick bounds.now keys (W.start walker.now) todo.old.items
        todo.new.items missed.old missed.new path.now) }
{
    if walker.is_running() {
        open_busy_tick(todo, missed, walker, bounds, path)
    } else {
        open_idle_tick(todo, missed, walker, path)
    }
}

// Opens the path with a step.
fn open_step(todo: &mut VecDeque<Path>, path: &Path) -> Result<(), Trouble>
    ensures { (keys : List ℕ) (s : State) → OnOk result (OpensStep keys s todo.old.items todo.new.items path.now) }
{
    let further = path.copy()?.stepped(1)?;
    todo.push_front(further)?;
    Ok(())
}

// A search that goes on: what is open, what was looked at, what was told, and what was left out.
#[derive(Drop)]
struct Search {
    todo: VecDeque<Path>,
    seen: Seen,
    told: Vec<Outcome>,
    missed: Missed,
}

// Where a path leads, and a digest of that.
#[derive(Drop)]
struct Place {
    path: Path,
    digest: u64,
}

// Looks at a state that is new, to which a path leads: it is remembered, and what may come next is opened.
fn look<W: Walker>(
    search: &mut Search,
    walker: &mut W,
    other: &mut W,
    task: Task,
    place: Place,
) -> Result<(), Trouble>
    requires up { (W.start walker.old).halted ≡ None }
    requires start { W.start other.old ≡ W.start walker.old }
    requires reached { W.reached walker.old ≡ run (W.start walker.old) (events_of place.path) }
    requires goes { (W.reached walker.old).state.halted ≡ None }
    requires going { IsGoing task.bounds task.keys.now (W.start walker.old) search.old.seen.paths.items
        (place.path ∷ search.old.todo.items) search.old.told.items search.old.missed }
    ensures going { OnOk result (IsGoing task.entry.bounds task.entry.keys.now (W.start walker.old)
        search.new.seen.paths.items search.new.todo.items search.new.told.items search.new.missed) }
    ensures start { W.start walker.new ≡ W.start walker.old }
    ensures other_start { W.start other.new ≡ W.start other.old }
{
    let Place { path, digest } = place;
    schedules::idle_tick_changes_nothing();
    walker.has_clock();
    note_time(&mut search.missed, walker);
    tell_waiting(&mut search.told, walker, other, task.keys, &path)?;
    open_key(&mut search.todo, walker, task.keys, &path)?;
    open_tick(
        &mut search.todo,
        &mut search.missed,
        walker,
        &task.bounds,
        &path,
    )?;
    open_step(&mut search.todo, &path)?;
    search.seen.put(digest, path)?;
    Ok(())
}

// Goes on from where a path leads, up to a call or a fault; where none comes soon, it stays.
fn come_to_call<W: Walker>(walker: &mut W, path: Path, spin: u32) -> Result<Path, Trouble>
    requires up { (W.start walker.old).halted ≡ None }
    requires reached { W.reached walker.old ≡ run (W.start walker.old) (events_of path) }
    requires goes { (W.reached walker.old).state.halted ≡ None }
    ensures comes { IfOk result (λ there. ComesTo spin (W.start walker.old) (events_of path) (events_of there)) }
    ensures busy { IfOk result (λ there. there.busy ≡ path.busy) }
    ensures reached { IfOk result (λ there. W.reached walker.new ≡ run (W.start walker.old) (events_of there)) }
    ensures start { W.start walker.new ≡ W.start walker.old }
{
    let count = walker.compute(spin)?;
    if count == 0 {
        return Ok(path);
    }
    if count < spin {
        return path.stepped(count);
    }
    walker.go(&path)?;
    Ok(path)
}

// Looks at what a path leads to, where process 1 hasn't ended: a state that is known or new.
fn meet<W: Walker>(
    search: &mut Search,
    walker: &mut W,
    other: &mut W,
    task: Task,
    path: Path,
) -> Result<(), Trouble>
    requires up { (W.start walker.old).halted ≡ None }
    requires start { W.start other.old ≡ W.start walker.old }
    requires reached { W.reached walker.old ≡ run (W.start walker.old) (events_of path) }
    requires goes { (W.reached walker.old).state.halted ≡ None }
    requires going { IsGoing task.bounds task.keys.now (W.start walker.old) search.old.seen.paths.items
        (path ∷ search.old.todo.items) search.old.told.items search.old.missed }
    ensures going { OnOk result (IsGoing task.entry.bounds task.entry.keys.now (W.start walker.old)
        search.new.seen.paths.items search.new.todo.items search.new.told.items search.new.missed) }
    ensures start { W.start walker.new ≡ W.start walker.old }
    ensures other_start { W.start other.new ≡ W.start other.old }
{
    let digest = walker.digest()?;
    if is_known(&search.seen, walker, other, &path, digest)? {
        return Ok(());
    }
    if search.seen.paths.len() >= task.bounds.states {
        search.missed.states = true;
        return Ok(());
    }
    look(search, walker, other, task, Place { path, digest })
}

// Whether no process runs and none sleeps, but some is ready, so that the turn alone matters.
fn is_turn_due<W: Walker>(walker: &W) -> bool
    requires { (W.reached walker.now).state.halted ≡ None }
    ensures { result ≡ true → IsDue (W.reached walker.now).state }
{
    if walker.is_running() || walker.is_idle() {
        return false;
    }
    walker.has_clock();
    !walker.is_anyone_asleep()
}

// Goes along a path, and on with the turn if one is due there. Returns the path to that.
fn take_turn<W: Walker>(walker: &mut W, path: Path) -> Result<Path, Trouble>
    ensures taken { IfOk result (TakesTurn (W.start walker.old) path) }
    ensures start { W.start walker.new ≡ W.start walker.old }
{
    let status = walker.go(&path)?;
    if status.is_some() || !is_turn_due(walker) {
        return Ok(path);
    }
    path.stepped(1)
}

// Goes along a path and looks at what it leads to: an end, or a state.
fn visit<W: Walker>(
    search: &mut Search,
    walker: &mut W,
    other: &mut W,
    task: Task,
    path: Path,
) -> Result<(), Trouble>
    requires up { (W.start walker.old).halted ≡ None }
    requires start { W.start other.old ≡ W.start walker.old }
    requires going { IsGoing task.bounds task.keys.now (W.start walker.old) search.old.seen.paths.items
        (path ∷ search.old.todo.items) search.old.told.items search.old.missed }
    ensures going { OnOk result (IsGoing task.entry.bounds task.entry.keys.now (W.start walker.old)
        search.new.seen.paths.items search.new.todo.items search.new.told.items search.new.missed) }
    ensures start { W.start walker.new ≡ W.start walker.old }
    ensures other_start { W.start other.new ≡ W.start other.old }
{
    let status = walker.go(&path)?;
    if status.is_some() {
        return tell(&mut search.told, walker, other, &path, status);
    }
    let there = come_to_call(walker, path, task.bounds.spin)?;
    meet(search, walker, other, task, there)
}

// Goes along a path, and on with the turn that is due there, and looks at what that leads to.
fn visit_next<W: Walker>(
    search: &mut Search,
    walker: &mut W,
    other: &mut W,
    task: Task,
    path: Path,
) -> Result<(), Trouble>
    requires up { (W.start walker.old).halted ≡ None }
    requires start { W.start other.old ≡ W.start walker.old }
    requires going { IsGoing task.bounds task.keys.now (W.start walker.old) search.old.seen.paths.items
        (path ∷ search.old.todo.items) search.old.told.items search.old.missed }
    ensures going { OnOk result (IsGoing task.entry.bounds task.entry.keys.now (W.start walker.old)
        search.new.seen.paths.items search.new.todo.items search.new.told.items search.new.missed) }
    ensures start { W.start walker.new ≡ W.start walker.old }
    ensures other_start { W.start other.new ≡ W.start other.old }
{
    let there = take_turn(walker, path)?;
    visit(search, walker, other, task, there)
}

// Goes to where a walker began. Process 1 had not ended there.
fn begin<W: Walker>(alloc: Global, walker: &mut W) -> Result<(), Trouble>
    ensures up { OnOk result ((W.start walker.old).halted ≡ None) }
    ensures clock { OnOk result (HasClock (W.start walker.old)) }
    ensures names { OnOk result (NamesAreThere (W.start walker.old)) }
    ensures start { W.start walker.new ≡ W.start walker.old }
{
    let status = walker.go(&Path::new(alloc))?;
    if status.is_some() {
        return Err(Trouble::Machine);
    }
    walker.has_clock();
    walker.names_are_there();
    Ok(())
}

// How far a search is.
fn standing(search: &Search) -> Standing<'_>
    ensures outcomes { result.outcomes.now ≡ search.now.told.items }
    ensures states { result.states ≡ length search.now.seen.paths.items }
    ensures waiting { result.waiting ≡ length search.now.todo.items }
{
    let ticks = match search.todo.front() {
        Some(path) => path.busy,
        None => 0,
    };
    Standing {
        outcomes: search.told.as_slice(),
        states: search.seen.paths.len(),
        waiting: search.todo.len(),
        ticks,
    }
}

// What was left out, with what is still open.
fn with_rest(todo: &VecDeque<Path>, missed: Missed) -> Missed
    ensures missed { is_ticks_alone result ≡ true → result ≡ missed }
    ensures none { is_ticks_alone result ≡ true → todo.now.items ≡ [] }
{
    if todo.is_empty() {
        return missed;
    }
    Missed {
        stopped: true,
        ..missed
    }
}

/// Goes along all orders of events from where two walkers began, with bytes typed where nobody is ready, and looks at
/// each state once. Each outcome is what its events lead to. Where nothing was left out these are all: whatever timer
/// interrupts come, and wherever, a run at whose end process 1 has ended or all wait shows what one of the outcomes
/// shows. Where timer interrupts alone were left out, so it is of the runs in which none of these come. Where late ones
/// alone were, and no process sleeps at the beginning, so it is of all runs with fewer than 2^32 timer interrupts.
///
/// Where the search is stopped, what is open is left out. `Machine` where process 1 had ended before.
pub fn find_outcomes<W: Walker, P: Progress>(
    alloc: Global,
    walker: &mut W,
    other: &mut W,
    task: Task,
    progress: &mut P,
) -> Result<Found, Trouble>
    requires { W.start other.old ≡ W.start walker.old }
    ensures sound { IfOk result
        (λ found. Each (IsSound task.entry.keys.now (W.start walker.old)) found.outcomes.items) }
    ensures complete { IfOk result (λ found. is_nothing found.missed ≡ true
        → IsComplete task.entry.keys.now (W.start walker.old) found.outcomes.items) }
    ensures tried { IfOk result (λ found. is_ticks_alone found.missed ≡ true → IsCompleteAsTried task.entry.bounds
        found.missed task.entry.keys.now (W.start walker.old) found.outcomes.items) }
    ensures short { IfOk result (λ found. is_late_alone found.missed ≡ true
        → IsCompleteIfShort task.entry.keys.now (W.start walker.old) found.outcomes.items) }
    ensures start { OnOk result (W.start walker.new ≡ W.start walker.old) }
    ensures other_start { OnOk result (W.start other.new ≡ W.start other.old) }
{
    begin(alloc, walker)?;
    renumbering::alike_up_to_numbers_goes_on_alike();
    schedules::interrupts_before_calls_suffice();
    schedules::idle_tick_changes_nothing();
    lateness::late_goes_on_alike();
    lateness::late_tick_never_shows();
    let mut search = Search {
        todo: VecDeque::new(alloc),
        seen: Seen::new(alloc),
        told: Vec::new(alloc),
        missed: Missed::nothing(),
    };
    search.todo.push_back(Path::new(alloc))?;
    'path: for _ in 0..u64::MAX {
        if !progress.goes_on(&standing(&search)) {
            break 'path;
        }
        let Some(path) = search.todo.pop_front() else {
            break 'path;
        };
        visit_next(&mut search, walker, other, task, path)?;
    }
    let missed = with_rest(&search.todo, search.missed);
    let Search { seen, told, .. } = search;
    Ok(Found {
        outcomes: told,
        states: seen.paths.len(),
        missed,
    })
}
