//! Worked cases of the table.
use crate::expected::expect_row;
use proc::{Mask, Place, ProcFault, Process, Table, zombie_child};
use std::process::Abort;
use unixmodel::call::Call;
use unixmodel::limits::PROCESSES;
use unixmodel::process::{Mode, Pending};

// A ready process; alloc chooses its pid.
fn child_of(parent: u32) -> Process {
    Process {
        pid: 0,
        parent,
        registers: [0; 32],
        pc: 0,
        descriptors: [Some(0); 16],
        directory: 1,
        killed: false,
        mode: Mode::Ready,
    }
}

// How many slots are taken.
fn taken(table: &Table) -> usize {
    table
        .places()
        .iter()
        .filter(|place| place.is_some())
        .count()
}

fn is_in_user_state(places: &[Place], at: usize) -> bool {
    match places.get(at) {
        Some(Some(process)) => matches!(process.mode, Mode::Ready),
        _ => false,
    }
}

#[test]
fn picks_in_turn(rt: HostRuntime) {
    let mut table = Table::starting_at(rt.alloc(), 1).expect(&rt, "memory");
    table.put(0, child_of(0));
    table.put(1, child_of(1));
    table.put(2, child_of(1));
    assert!(rt; table.pick(is_in_user_state) == Some(0));
    assert!(rt; table.pick(is_in_user_state) == Some(1));
    assert!(rt; table.pick(is_in_user_state) == Some(2));
    assert!(rt; table.pick(is_in_user_state) == Some(0));
}

// A process that is found not ready is looked at again once it is woken.
#[test]
fn looks_at_who_is_awake(rt: HostRuntime) {
    let mut table = Table::starting_at(rt.alloc(), 1).expect(&rt, "memory");
    assert!(rt; table.pick(|_, _| false).is_none());
    table.wake(1);
    assert!(rt; table.pick(|_, at| at == 1) == Some(1));
}

// A mask of these slots.
fn mask_of(places: &[usize]) -> Mask {
    let mut mask = Mask::all();
    for at in 0..PROCESSES {
        mask.clear(at);
    }
    for at in places {
        mask.set(*at);
    }
    mask
}

static SET: [usize; 3] = [5, 63, 64];

#[test]
fn a_mask_has_what_was_set(rt: HostRuntime) {
    let (all, none, mask) = (Mask::all(), mask_of(&[]), mask_of(&SET));
    assert!(rt; (mask.has(5), mask.has(63), mask.has(0)) == (true, true, false));
    assert!(rt; (all.next(9, 3), none.next(9, 1)) == (Some(3), None));
    // the last picked slot, the first turn to look at, and the turn of the slot that is found
    for (last, turn, found) in [(63, 1, 6), (63, 7, 64), (5, 1, 58), (5, 59, 64)] {
        assert!(rt;
            mask.next(last, turn) == Some(found),
            "after {last} from {turn} on"
        );
    }
}

const PENDING: Pending = Pending {
    number: Call::Sleep,
    args: [2, 0, 0],
    done: 0,
    since: 5,
};

// What is done to a table, or what it returns.
#[derive(Clone, Copy)]
enum Act {
    /// A child of a process comes.
    Alloc(u32, Result<(usize, u32), ProcFault>),
    /// That many children of process 1 come, each into a slot.
    Children(usize),
    /// The slot and the pid of the next process.
    NextSeat(Result<(usize, u32), ProcFault>),
    /// Puts a child of a process into a slot.
    Put(usize, u32),
    Run(usize),
    Stop,
    Block,
    Exit(usize, i32),
    /// A process reaps a child: its slot, its pid and its status.
    Reap(u32, Option<(usize, u32, i32)>),
    Running(Option<usize>),
    Taken(usize),
    HasParent(usize, u32),
    HasMode(usize, Mode),
    HasChild(u32, bool),
    Find(u32, Option<usize>),
    /// A slot holds what remains of a child of process 1: its pid and its status.
    IsZombie(usize, u32, i32),
    ZombieChild(u32, Option<usize>),
}

fn alloc(table: &mut Table, parent: u32) -> Result<(usize, u32), ProcFault> {
    let seat = table.alloc(child_of(parent))?;
    Ok((seat.place, seat.pid))
}

fn children(table: &mut Table, count: usize) -> bool {
    for _child in 0..count {
        if table.alloc(child_of(1)).is_err() {
            return false;
        }
    }
    true
}

fn next_seat(table: &Table) -> Result<(usize, u32), ProcFault> {
    let seat = table.next_seat()?;
    Ok((seat.place, seat.pid))
}

fn put(table: &mut Table, place: usize, parent: u32) -> bool {
    if place >= PROCESSES {
        return false;
    }
    table.put(place, child_of(parent));
    true
}

fn reap(table: &mut Table, parent: u32) -> Option<(usize, u32, i32)> {
    let reaped = table.reap(parent)?;
    Some((reaped.place, reaped.pid, reaped.status))
}

fn has_parent(table: &Table, place: usize, parent: u32) -> bool {
    match table.process(place) {
        Some(process) => process.parent == parent,
        None => false,
    }
}

fn has_mode(table: &Table, place: usize, mode: Mode) -> bool {
    match table.process(place) {
        Some(process) => process.mode == mode,
        None => false,
    }
}

fn is_zombie(table: &Table, place: usize, pid: u32, status: i32) -> bool {
    let zombie = Process {
        pid,
        descriptors: [None; 16],
        directory: 0,
        mode: Mode::Zombie(status),
        ..child_of(1)
    };
    match table.process(place) {
        Some(process) => *process == zombie,
        None => false,
    }
}

// Whether the act is done, or holds, as expected.
fn does(table: &mut Table, act: Act) -> bool {
    match act {
        Act::Alloc(parent, told) => alloc(table, parent) == told,
        Act::Children(count) => children(table, count),
        Act::NextSeat(told) => next_seat(table) == told,
        Act::Put(place, parent) => put(table, place, parent),
        Act::Run(place) => {
            table.run(place);
            true
        }
        Act::Stop => {
            table.stop();
            true
        }
        Act::Block => {
            table.block(PENDING);
            true
        }
        Act::Exit(place, status) => {
            table.exit(place, status);
            true
        }
        Act::Reap(parent, told) => reap(table, parent) == told,
        Act::Running(place) => table.running() == place,
        Act::Taken(count) => taken(table) == count,
        Act::HasParent(place, parent) => has_parent(table, place, parent),
        Act::HasMode(place, mode) => has_mode(table, place, mode),
        Act::HasChild(pid, has) => table.has_child(pid) == has,
        Act::Find(pid, place) => table.find(pid) == place,
        Act::IsZombie(place, pid, status) => is_zombie(table, place, pid, status),
        Act::ZombieChild(pid, place) => zombie_child(table.places(), pid) == place,
    }
}

// What is done to a new table, whose first pid is this one.
struct Case {
    name: &'static str,
    first_pid: u32,
    acts: &'static [Act],
}

static CASES: [Case; 6] = [
    Case {
        name: "processes run and stop",
        first_pid: 1,
        acts: &[
            Act::Alloc(0, Ok((0, 1))),
            Act::Run(0),
            Act::Children(2),
            Act::Stop,
            Act::Running(None),
            Act::Run(1),
            Act::Running(Some(1)),
            Act::Stop,
            Act::Running(None),
            Act::Run(2),
            Act::Running(Some(2)),
            Act::Stop,
            Act::Running(None),
            Act::Run(0),
            Act::Running(Some(0)),
        ],
    },
    Case {
        name: "the last pid is given once",
        first_pid: 2147483647,
        acts: &[
            Act::NextSeat(Ok((0, 2147483647))),
            Act::Alloc(0, Ok((0, 2147483647))),
            Act::Alloc(0, Err(ProcFault::Pids)),
            Act::Taken(1),
        ],
    },
    Case {
        name: "all slots are filled",
        first_pid: 1,
        acts: &[
            Act::Alloc(0, Ok((0, 1))),
            Act::Run(0),
            Act::Children(63),
            Act::Taken(64),
            Act::Alloc(1, Err(ProcFault::Slots)),
            // a refused one uses no pid
            Act::Exit(5, 0),
            Act::Reap(1, Some((5, 6, 0))),
            Act::Alloc(1, Ok((5, 65))),
        ],
    },
    Case {
        name: "orphans go to the first process, which reaps them all",
        first_pid: 1,
        acts: &[
            Act::Alloc(0, Ok((0, 1))),
            Act::Run(0),
            Act::Alloc(1, Ok((1, 2))),
            Act::Alloc(2, Ok((2, 3))),
            Act::Exit(1, 7),
            Act::HasParent(2, 1),
            Act::HasChild(2, false),
            // a zombie keeps its pid and its status
            Act::Find(2, Some(1)),
            Act::IsZombie(1, 2, 7),
            Act::Exit(2, -1),
            Act::ZombieChild(1, Some(1)),
            Act::Reap(1, Some((1, 2, 7))),
            Act::Reap(1, Some((2, 3, -1))),
            Act::Reap(1, None),
            Act::HasChild(1, false),
        ],
    },
    Case {
        name: "the running process waits",
        first_pid: 1,
        acts: &[
            Act::Alloc(0, Ok((0, 1))),
            Act::Run(0),
            Act::Children(1),
            Act::Block,
            Act::Running(None),
            Act::HasMode(0, Mode::Waiting(PENDING)),
            Act::Block,
            Act::HasMode(1, Mode::Ready),
        ],
    },
    Case {
        name: "a process is put in the slot of another",
        first_pid: 1,
        acts: &[
            Act::Alloc(0, Ok((0, 1))),
            Act::Run(0),
            Act::Children(1),
            Act::Put(1, 4),
            Act::HasParent(1, 4),
        ],
    },
];

fn expect(rt: &(impl Abort + AllocGlobal), case: &Case) {
    assert!(rt; 1 <= case.first_pid && case.first_pid <= 2147483647);
    let mut table = Table::starting_at(rt.alloc(), case.first_pid).expect(rt, "memory");
    for (at, act) in case.acts.iter().enumerate() {
        expect_row(rt, does(&mut table, *act), case.name, at);
    }
}

#[test]
fn processes_come_run_and_go(rt: HostRuntime) {
    for case in &CASES {
        expect(&rt, case);
    }
}
