//! Two machines of one program that makes a file, reads a byte that is typed, writes it into the file, forgets it, and
//! counts: where their digests are the same, and where they differ.
use crate::disks::{Given, Run, Whole, expect_row, flat, image_with, run_on};
use std::alloc::Global;
use sv39::{Plain, Tlb, Translate};
use unixmodel::event::Event;

const FRAMES: u32 = 64;

const PROGRAM: &str = "
        la a0, console
        li a1, 2
        li a7, 15
        ecall
        la a0, file
        li a1, 514
        li a7, 15
        ecall
        li a0, 0
        addi a1, sp, -16
        li a2, 1
        li a7, 5
        ecall
        li a0, 1
        li a7, 16
        ecall
        sb zero, 0(a1)
        li t0, 0
count:  addi t0, t0, 1
        j count
console: .ascii \"console\\0\"
file:   .ascii \"file\\0\"
";

static FILES: [(&str, Given<'static>); 2] = [
    ("/init", Given::Program(PROGRAM)),
    ("/console", Given::Console),
];

/// More steps than the program takes until it counts, of which it counts in every other one.
const STEPS: u32 = 60;

// An event for each of two machines, `times` times, and whether their digests are the same after each.
#[derive(Clone, Copy)]
struct Act {
    events: (Event, Event),
    times: u32,
    is_same: bool,
}

// Steps, and the end of a line: of machines that are the same.
const GO: Act = Act {
    events: (Event::Step, Event::Step),
    times: STEPS,
    is_same: true,
};

const LINE_END: Act = Act {
    events: (Event::Key(b'\n'), Event::Key(b'\n')),
    times: 1,
    is_same: true,
};

static SAME_KEY: [Act; 4] = [
    GO,
    Act {
        events: (Event::Key(b'a'), Event::Key(b'a')),
        times: 1,
        is_same: true,
    },
    LINE_END,
    GO,
];

// First the consoles differ, then a page, and in the end the file alone.
static OTHER_KEY: [Act; 4] = [
    GO,
    Act {
        events: (Event::Key(b'a'), Event::Key(b'b')),
        times: 1,
        is_same: false,
    },
    Act {
        is_same: false,
        ..LINE_END
    },
    Act {
        is_same: false,
        ..GO
    },
];

// A machine that boots from an image of `blocks` blocks.
fn booted<T: Translate>(alloc: Global, translator: T, blocks: u32) -> Option<Run<T>> {
    let image = image_with(alloc, &FILES, blocks)?;
    run_on(alloc, image, translator, FRAMES)
}

// The digest of a machine after an event.
fn after<T: Translate>(run: &mut Run<T>, event: Event) -> Option<u64> {
    run.event(event).ok()?;
    run.machine.digest().ok()
}

// Whether two machines have digests, and the same ones or others as the act says, after each of its events.
fn does<T: Translate>(one: &mut Whole, other: &mut Run<T>, act: &Act) -> bool {
    let (event, beside) = act.events;
    for _ in 0..act.times {
        match (after(one, event), after(other, beside)) {
            (Some(digest), Some(another)) if (digest == another) == act.is_same => (),
            _ => return false,
        }
    }
    true
}

fn does_each<T: Translate>(one: &mut Whole, other: &mut Run<T>, acts: &[Act]) -> bool {
    for act in acts {
        if !does(one, other, act) {
            return false;
        }
    }
    true
}

// Whether two steps give another digest: the program counts in one register, and its pc is the same again.
fn counts(run: &mut Whole) -> bool {
    let digest = run.machine.digest().ok();
    let _before = after(run, Event::Step);
    digest.is_some() && digest != after(run, Event::Step)
}

// Whether a machine's digests are as the acts say beside one with this translator, from an image of `blocks` blocks.
fn goes_beside<T: Translate>(
    alloc: Global,
    one: &mut Whole,
    (translator, blocks): (T, u32),
    acts: &[Act],
) -> Option<bool> {
    let mut other = booted(alloc, translator, blocks)?;
    let holds = does_each(one, &mut other, acts);
    other.end();
    Some(holds && counts(one))
}

// The same of a machine that boots for it.
fn holds<T: Translate>(alloc: Global, other: (T, u32), acts: &[Act]) -> Option<bool> {
    let mut one = booted(alloc, Plain::new(), 64)?;
    let told = goes_beside(alloc, &mut one, other, acts);
    one.end();
    told
}

// The digest of a machine of one page, whose last byte is this one.
fn digest_with(alloc: Global, last: u8) -> Option<u64> {
    let mut bytes = [0; 4096];
    bytes[4095] = last;
    let mut run = flat(alloc, &bytes)?;
    let digest = run.machine.digest().ok();
    run.end();
    digest
}

// Whether machines of one page have other digests where its last byte differs.
fn last_byte_matters(alloc: Global) -> Option<bool> {
    Some(digest_with(alloc, 0)? != digest_with(alloc, 1)?)
}

#[test]
fn digests_follow_states(rt: HostRuntime) {
    let alloc = rt.alloc();
    let held = holds(alloc, (Tlb::<64>::new(), 96), &SAME_KEY);
    expect_row(&rt, "neither translators nor blocks matter", held);
    let keyed = holds(alloc, (Plain::new(), 64), &OTHER_KEY);
    let name = "a key, a byte of a file and a register matter";
    expect_row(&rt, name, keyed);
    expect_row(
        &rt,
        "the last byte of a page matters",
        last_byte_matters(alloc),
    );
}
