//! Many steps at once do what as many events do.
ghost use Rattle.std.specs.Prelude.{◌<◌};

use crate::copying::{PRINTED, boot, console, is_even};
use crate::hello::BYTES;
use crate::play::{Program, READ, ROOM, holds_at, narrow_console};
use asm::assemble;
use blockdev::MemDisk;
use console::Writer;
use machine::{Halt, Machine, boot_flat_with};
use std::alloc::Global;
use sv39::{Plain, Recent};
use unixmodel::event::Event;

// The events of the family: how many steps there are before each other event. At the last of them process 1 ends.
const ACTS: [(u32, Event); 8] = [
    (60, Event::Key(b'a')),
    (0, Event::Key(b'b')),
    (1, Event::Key(b'c')),
    (0, Event::Key(b'\n')),
    (95, Event::Tick),
    (1, Event::Tick),
    (0, Event::Tick),
    (156, Event::Step),
];

// The machine of the family, and what it prints.
#[derive(Drop)]
struct Lane {
    machine: Machine<MemDisk, Plain>,
    out: Writer<Vec<u8>>,
}

impl Lane {
    fn boot(alloc: Global) -> Option<Lane> {
        let machine = boot(alloc)?;
        Some(Lane {
            machine,
            out: console(alloc),
        })
    }

    // That of another program.
    fn of(alloc: Global, program: &[u8]) -> Option<Lane> {
        let machine = boot_flat_with(alloc, program, Plain::new(), 64).ok()?;
        Some(Lane {
            machine,
            out: console(alloc),
        })
    }

    fn event(&mut self, event: Event) -> Result<(), Halt> {
        self.machine.step(event, &mut self.out)
    }

    // `steps` steps, each by itself.
    fn singly(&mut self, steps: u32) -> Result<(), Halt> {
        for _step in 0..steps {
            self.event(Event::Step)?;
        }
        Ok(())
    }

    // `steps` steps, in pieces of `size`.
    fn in_pieces(&mut self, steps: u32, size: u32) -> Result<(), Halt>
        requires { 0 < size }
    {
        for _piece in 0..steps / size {
            self.machine.steps(size, &mut self.out)?;
        }
        self.machine.steps(steps % size, &mut self.out)
    }

    fn printed(self) -> Vec<u8> {
        let Lane { machine: _, out } = self;
        out.into_inner()
    }

    fn has_printed_all(self) -> bool {
        self.printed().as_slice() == PRINTED
    }
}

// Whether two machines go alike, of which the second does its steps in pieces of `size`.
fn go_alike(one: &mut Lane, other: &mut Lane, size: u32) -> bool
    requires { 0 < size }
{
    for (steps, event) in ACTS.iter() {
        let (single, many) = (one.singly(*steps), other.in_pieces(*steps, size));
        let (first, second) = (one.event(*event), other.event(*event));
        let alike = single == many && first == second && is_even(&one.machine, &other.machine);
        if !alike || one.machine.digest() != other.machine.digest() {
            return false;
        }
    }
    true
}

fn holds_for(alloc: Global, size: u32) -> Option<bool>
    requires { 0 < size }
{
    let (mut one, mut other) = (Lane::boot(alloc)?, Lane::boot(alloc)?);
    let alike = go_alike(&mut one, &mut other, size);
    Some(alike && one.has_printed_all() && other.has_printed_all())
}

#[test]
fn many_steps_are_as_many_events(rt: HostRuntime) {
    holds_at(&rt, 1, holds_for(rt.alloc(), 1) == Some(true));
    holds_at(&rt, 2, holds_for(rt.alloc(), 2) == Some(true));
    holds_at(&rt, 7, holds_for(rt.alloc(), 7) == Some(true));
    holds_at(&rt, 1000, holds_for(rt.alloc(), 1000) == Some(true));
}

// Where a file of the assembler has its program.
const PROGRAM_AT: usize = 4096;

// Prints its first two bytes.
const PRINTS: &str = "
        addi a0, zero, 1
        addi a1, zero, 0
        addi a2, zero, 2
        addi a7, zero, 16
        ecall
        addi a0, zero, 0
        addi a7, zero, 2
        ecall
";

// The last word of its page, after which nothing can be fetched.
const RUNS_OFF: &str = "
        j last
        .zero 4088
last:   addi a0, a0, 1
";

// A branch at the last word of a page: three times far into the next one, and then just across.
const CROSSES: &str = "
        addi s0, zero, 3
        j place
        .zero 4080
place:  addi a0, a0, 1
        bne s0, zero, over
        addi a7, zero, 2
        ecall
over:   addi s0, s0, -1
        j place
";

// A word that is no instruction.
const STUMBLES: &str = "
        addi a0, a0, 1
        .zero 4
";

// A program, how many steps it takes before the one at which process 1 ends, its status then, and counts of steps.
// These are none, those that end just before and just after a trap or the end of a page, and those that go on after the
// last step.
type Course = (&'static str, u32, i32, &'static [u32]);

const COURSES: [Course; 4] = [
    (PRINTS, 8, 0, &[0, 5, 6, 8, 9, 20]),
    (RUNS_OFF, 3, -1, &[2, 3, 4, 9]),
    (CROSSES, 18, 4, &[4, 5, 16, 17, 18, 19, 40]),
    (STUMBLES, 2, -1, &[1, 2, 3, 9]),
];

// What two machines return for `steps` steps, which the second does at once.
// `None`: they differ after them.
fn both_answer(one: &mut Lane, other: &mut Lane, steps: u32) -> Option<Result<(), Halt>> {
    let single = one.singly(steps);
    let many = other.machine.steps(steps, &mut other.out);
    let alike = single == many && is_even(&one.machine, &other.machine);
    (alike && one.machine.digest() == other.machine.digest()).then_some(single)
}

// Whether `steps` steps of a program return this answer, and do the same at once as event by event, also after a tick.
fn are_events(alloc: Global, program: &[u8], steps: u32, answer: Result<(), Halt>) -> Option<bool> {
    let (mut one, mut other) = (Lane::of(alloc, program)?, Lane::of(alloc, program)?);
    let first = both_answer(&mut one, &mut other, steps)?;
    let ticked = one.event(Event::Tick) == other.event(Event::Tick);
    let _second = both_answer(&mut one, &mut other, steps)?;
    let printed = one.printed().as_slice() == other.printed().as_slice();
    Some(first == answer && ticked && printed)
}

fn goes_its_course(alloc: Global, course: Course) -> Option<bool> {
    let (text, before, status, counts) = course;
    let file = assemble(alloc, text).ok()?;
    let program = file.as_slice().get(PROGRAM_AT..)?;
    let end: Result<(), Halt> = Err(Halt::InitEnded(status));
    Some(
        counts.iter().all(|count| {
            let answer = if *count <= before { Ok(()) } else { end };
            are_events(alloc, program, *count, answer) == Some(true)
        }),
    )
}

#[test]
fn steps_end_at_any_place(rt: HostRuntime) {
    for (row, course) in COURSES.iter().enumerate() {
        holds_at(&rt, row, goes_its_course(rt.alloc(), *course) == Some(true));
    }
}

// What `steps` steps of a program that says `hi` return at a console that takes `room` bytes, and what as many more do.
fn answers(alloc: Global, room: usize, steps: u32) -> Option<(Result<(), Halt>, Result<(), Halt>)> {
    let mut machine = boot_flat_with(alloc, &BYTES, Plain::new(), 64).ok()?;
    let mut out = narrow_console(alloc, room);
    let first = machine.steps(steps, &mut out);
    Some((first, machine.steps(steps, &mut out)))
}

#[test]
fn the_first_halt_is_told(rt: HostRuntime) {
    const HALTED: Result<(), Halt> = Err(Halt::Halted);
    const CASES: [(usize, u32, Result<(), Halt>, Result<(), Halt>); 4] = [
        (ROOM, 0, Ok(()), Ok(())),
        (ROOM, 8, Ok(()), Err(Halt::InitEnded(0))),
        (ROOM, 1000, Err(Halt::InitEnded(0)), HALTED),
        (1, 1000, Err(Halt::Console), HALTED),
    ];
    for (row, (room, steps, first, second)) in CASES.iter().enumerate() {
        let holds = answers(rt.alloc(), *room, *steps) == Some((*first, *second));
        holds_at(&rt, row, holds);
    }
}

// Whether steps of a machine that waits for a key change nothing, and the key comes in time.
fn waits(alloc: Global) -> Option<bool> {
    const CALLS: [[u64; 4]; 1] = [[0, 0x2000, 10, READ]];
    let bytes = Program::Calls(&CALLS).bytes(alloc).ok()?;
    let mut machine = boot_flat_with(alloc, bytes.as_slice(), Recent::new(Plain::new()), 64).ok()?;
    let mut out = console(alloc);
    machine.steps(u32::MAX, &mut out).ok()?;
    let before = machine.digest();
    machine.steps(u32::MAX, &mut out).ok()?;
    let still = machine.is_idle() && machine.digest() == before;
    machine.step(Event::Key(b'\n'), &mut out).ok()?;
    machine.steps(1, &mut out).ok()?;
    Some(still && machine.inspect(1)?.registers[10] == 1)
}

#[test]
fn steps_with_nobody_ready_are_done_at_once(rt: HostRuntime) {
    holds_at(&rt, 0, waits(rt.alloc()) == Some(true));
}
