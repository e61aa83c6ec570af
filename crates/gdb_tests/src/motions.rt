//! Motions along the steps of a program that only counts.
use machine::boot_flat_with;
use std::alloc::Global;
use sv39::{Plain, Recent};
use timeline::{Debuggee, Events, Moved, Timeline, Wanted};
use unixmodel::event::Event;

// addi a0, a0, 1; jal zero, -4
const LOOP: [u8; 8] = [0x13, 0x05, 0x15, 0x00, 0x6f, 0xf0, 0xdf, 0xff];

// A reason to stop everywhere, or nowhere.
#[derive(Clone, Copy)]
struct Anywhere {
    stops: bool,
}

impl Wanted for Anywhere {
    ghost stops = { λ w _. w.stops };

    fn is_met(&self, _machine: &Debuggee) -> bool {
        self.stops
    }

    fn addresses(&self, _machine: &Debuggee) -> Option<&[u64]> {
        None
    }

    fn passes(&self, _machine: &Debuggee) -> bool {
        !self.stops
    }
}

// Forward to a time, or back.
#[derive(Clone, Copy)]
enum Motion {
    Forward(u64),
    Back,
}

// A motion, whether there is a reason to stop everywhere, why it ends, and where.
type Row = (Motion, bool, Moved, u64);

const ROWS: [Row; 8] = [
    (Motion::Forward(10), false, Moved::Until, 10),
    (Motion::Forward(100), true, Moved::Met, 11),
    (Motion::Back, true, Moved::Met, 10),
    (Motion::Forward(5), false, Moved::Until, 10),
    (Motion::Forward(5000), false, Moved::Ended, 1000),
    (Motion::Back, true, Moved::Met, 999),
    (Motion::Back, false, Moved::Ended, 0),
    (Motion::Back, true, Moved::Ended, 0),
];

// A thousand steps.
fn steps(alloc: Global) -> Option<Timeline> {
    let machine = boot_flat_with(alloc, &LOOP, Recent::new(Plain::new()), 64).ok()?;
    let mut events = Events::new(alloc);
    events.push(Event::Step, 1000).ok()?;
    Timeline::new(alloc, machine, events, 4).ok()
}

// Whether a motion ends as its row says.
fn goes(timeline: &mut Timeline, (motion, stops, ends, at): Row) -> bool {
    let wanted = Anywhere { stops };
    let moved = match motion {
        Motion::Forward(until) => Some(timeline.forward(&wanted, until)),
        Motion::Back => timeline.back(&wanted).ok(),
    };
    moved == Some(ends) && timeline.at() == at
}

#[test]
fn motions_stop_where_they_must(rt: HostRuntime) {
    let mut timeline = steps(rt.alloc()).expect(&rt, "memory");
    for row in &ROWS {
        assert!(rt; goes(&mut timeline, *row));
    }
}
