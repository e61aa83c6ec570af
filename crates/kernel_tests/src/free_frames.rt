//! Frames that are taken and given.
ghost use Rattle.std.specs.Prelude.{◌≤◌};

use crate::expected::{expect_case, expect_row, memory};
use frames::Frames;
use ram::{FrameNo, Ram};
use std::marker::Model;
use std::process::Abort;

// A memory and its frames.
#[derive(Drop)]
struct Counted {
    ram: Ram,
    frames: Frames,
}

impl Model for Counted {
    ghost use Rattle.std.specs.Prelude.{List, ℕ};

    ghost Value = { List (List ℕ) };

    ghost use Rattle.frames.specs.Free.{IsFreeList};

    ghost view = { λ c. c.ram };

    ghost invariant = { λ c. IsFreeList c.ram c.frames };
}

// What is done, where the first frame is the one that is shared, split and given.
#[derive(Clone, Copy)]
enum Act {
    /// Takes a frame.
    Take(Option<FrameNo>),
    /// Adds a holder, where a frame is free for it.
    Share(bool),
    /// A holder gets a frame of its own.
    Split(FrameNo),
    /// Takes a holder away.
    Give,
}

const FIRST: FrameNo = FrameNo(0);

const SECOND: FrameNo = FrameNo(1);

impl Counted {
    fn new(rt: &(impl Abort + AllocGlobal), count: u32) -> Counted
        requires { count ≤ 32768 }
    {
        let mut ram = memory(rt, count);
        let frames = Frames::new(rt.alloc(), &mut ram).expect(rt, "counts");
        Counted { ram, frames }
    }

    // How many hold the first two frames, and how many frames could be taken still.
    fn counts(&self) -> Option<(u32, u32, u32)> {
        if self.ram.frame_count() < 2 {
            return None;
        }
        let first = self.frames.holders(&self.ram, FIRST);
        let second = self.frames.holders(&self.ram, SECOND);
        Some((first, second, self.frames.free()))
    }

    // Does it, and returns whether that gives what is expected.
    fn does(&mut self, rt: &impl Abort, act: Act) -> bool {
        match act {
            Act::Take(frame) => self.frames.take(&self.ram) == frame,
            Act::Share(is_shared) => self.share() == Some(is_shared),
            Act::Split(own) => self.split() == Some(own),
            Act::Give => {
                self.give(rt);
                true
            }
        }
    }

    fn share(&mut self) -> Option<bool> {
        if self.ram.frame_count() == 0 || self.frames.holders(&self.ram, FIRST) == 0 {
            return None;
        }
        Some(self.frames.share(&self.ram, FIRST))
    }

    fn split(&mut self) -> Option<FrameNo> {
        if self.ram.frame_count() == 0 || self.frames.holders(&self.ram, FIRST) < 2 {
            return None;
        }
        Some(self.frames.split(&self.ram, FIRST))
    }

    fn give(&mut self, rt: &impl Abort) {
        let count = self.ram.frame_count();
        assert!(rt; 0 < count);
        let held = self.frames.holders(&self.ram, FIRST);
        assert!(rt; held > 0);
        self.frames.give(&mut self.ram, FIRST);
    }
}

// Acts in a memory of `frames` frames; beside each: how many hold the first two frames, and how many are free then.
struct Case {
    name: &'static str,
    frames: u32,
    acts: &'static [(Act, u32, u32, u32)],
}

static CASES: [Case; 5] = [
    Case {
        name: "each frame is taken once",
        frames: 3,
        acts: &[
            (Act::Take(Some(FIRST)), 1, 0, 2),
            (Act::Take(Some(SECOND)), 1, 1, 1),
            (Act::Take(Some(FrameNo(2))), 1, 1, 0),
            (Act::Take(None), 1, 1, 0),
        ],
    },
    Case {
        name: "what was given last is taken",
        frames: 3,
        acts: &[
            (Act::Take(Some(FIRST)), 1, 0, 2),
            (Act::Give, 0, 0, 3),
            (Act::Take(Some(FIRST)), 1, 0, 2),
        ],
    },
    Case {
        name: "each holder is counted",
        frames: 4,
        acts: &[
            (Act::Take(Some(FIRST)), 1, 0, 3),
            (Act::Share(true), 2, 0, 2),
            (Act::Share(true), 3, 0, 1),
            (Act::Give, 2, 0, 2),
        ],
    },
    Case {
        name: "no more is shared than the frames there are",
        frames: 2,
        acts: &[
            (Act::Take(Some(FIRST)), 1, 0, 1),
            (Act::Share(true), 2, 0, 0),
            (Act::Share(false), 2, 0, 0),
            (Act::Take(None), 2, 0, 0),
        ],
    },
    Case {
        name: "a frame is split where none could be taken",
        frames: 2,
        acts: &[
            (Act::Take(Some(FIRST)), 1, 0, 1),
            (Act::Share(true), 2, 0, 0),
            (Act::Split(SECOND), 1, 1, 0),
            (Act::Give, 0, 1, 1),
            (Act::Take(Some(FIRST)), 1, 1, 0),
        ],
    },
];

fn expect(rt: &(impl Abort + AllocGlobal), case: &Case) {
    assert!(rt; 1 < case.frames && case.frames <= 32768);
    let mut counted = Counted::new(rt, case.frames);
    expect_case(rt, counted.counts() == Some((0, 0, case.frames)), case.name);
    for (at, (act, first, second, free)) in case.acts.iter().enumerate() {
        let told = (counted.does(rt, *act), counted.counts());
        expect_row(
            rt,
            told == (true, Some((*first, *second, *free))),
            case.name,
            at,
        );
    }
}

#[test]
fn frames_are_taken_and_given(rt: HostRuntime) {
    for case in &CASES {
        expect(&rt, case);
    }
}
