//! Pages that are mapped, walked to and taken out.
ghost use Rattle.std.specs.Prelude.{◌<◌, ◌^◌, ◌≤◌};

use crate::expected::{all_free, expect_row};
use frames::Memory;
use pagetable::{Full, PageTable, leaf_marks};
use ram::FrameNo;
use std::marker::Model;
use std::process::Abort;
use sv39::{EntryBits, walk_page};
use unixmodel::trap::Access;
use vm::Perm;

// A table in a memory, and a frame to map.
#[derive(Drop)]
struct Mapping {
    memory: Memory,
    table: PageTable,
    frame: FrameNo,
}

impl Model for Mapping {
    ghost use Rattle.std.specs.Prelude.{◌<◌, List, length, ℕ};

    ghost Value = { List (List ℕ) };

    ghost use Rattle.pagetable.specs.Owned.{IsPaged};
    ghost use Rattle.pagetable.specs.Shape.{IsTidy};

    ghost view = { λ m. m.memory.ram };

    ghost invariant = { λ m. (IsPaged m.memory m.table.root.0) × (IsTidy m.memory.ram m.table.root.0)
        × (m.frame.0 < length m.memory.ram) };
}

impl Mapping {
    fn new(rt: &(impl Abort + AllocGlobal), count: u32) -> Mapping
        requires { count ≤ 32768 }
    {
        let mut memory = all_free(rt, count);
        let frame = memory.frames.take(&memory.ram).expect(rt, "a frame");
        let table = PageTable::new(&mut memory).expect(rt, "a frame");
        let count = memory.ram.frame_count();
        assert!(rt; frame.0 < count);
        Mapping {
            memory,
            table,
            frame,
        }
    }

    fn map(&mut self, page: u64, perm: Perm) -> Result<(), Full>
        requires { page < 2 ^ 27 }
    {
        let marks = leaf_marks(perm.w, perm.x, perm.u);
        self.table.map(&mut self.memory, page, self.frame, marks)
    }

    // Takes a page out, which has the frame.
    fn unmap(&mut self, page: u64) -> bool
        requires { page < 2 ^ 27 }
    {
        if self.table.find(&self.memory.ram, page).is_none() {
            return false;
        }
        self.table.unmap(&mut self.memory, page) == self.frame
    }

    fn set_perm(&mut self, page: u64, perm: Perm) -> bool
        requires { page < 2 ^ 27 }
    {
        if self.table.find(&self.memory.ram, page).is_none() {
            return false;
        }
        let marks = leaf_marks(perm.w, perm.x, perm.u);
        self.table.set_perm(&mut self.memory, page, marks);
        true
    }

    // Whether the act is done, or holds, as expected.
    fn does(&mut self, page: u64, act: Act) -> bool
        requires { page < 2 ^ 27 }
    {
        match act {
            Act::Map(perm, told) => self.map(page, perm) == told,
            Act::Unmap => self.unmap(page),
            Act::SetPerm(perm) => self.set_perm(page, perm),
            Act::Finds(marks) => {
                self.table.find(&self.memory.ram, page) == Some((self.frame, marks))
            }
            Act::FindsNothing => self.table.find(&self.memory.ram, page).is_none(),
            Act::Walks(access) => {
                walk_page(&self.memory.ram, self.table.root, page, access) == Some(self.frame)
            }
            Act::WalksToNothing(access) => {
                walk_page(&self.memory.ram, self.table.root, page, access).is_none()
            }
        }
    }
}

// What is done to a page, or what is found there.
#[derive(Clone, Copy)]
enum Act {
    /// Puts the frame there.
    Map(Perm, Result<(), Full>),
    /// Takes the frame out.
    Unmap,
    SetPerm(Perm),
    /// The frame with these marks.
    Finds(EntryBits),
    FindsNothing,
    /// A walk for this access finds the frame.
    Walks(Access),
    WalksToNothing(Access),
}

const DATA: Perm = Perm {
    w: true,
    x: false,
    u: true,
};

const TEXT: Perm = Perm {
    w: false,
    x: true,
    u: true,
};

// What may only be read.
const CONSTANT: Perm = Perm {
    w: false,
    x: false,
    u: true,
};

const KERNEL: Perm = Perm {
    w: true,
    x: true,
    u: false,
};

// What is done to pages of a new table in a memory of `frames` frames; beside each: how many frames are free then.
struct Case {
    name: &'static str,
    frames: u32,
    acts: &'static [(u64, Act, u32)],
}

static CASES: [Case; 3] = [
    Case {
        name: "a page is mapped and taken out again",
        frames: 8,
        acts: &[
            (5, Act::Map(DATA, Ok(())), 4),
            (5, Act::Finds(EntryBits(215)), 4),
            (4, Act::FindsNothing, 4),
            (5, Act::Unmap, 6),
            (5, Act::FindsNothing, 6),
        ],
    },
    Case {
        name: "a walk finds a page",
        frames: 8,
        acts: &[
            (262657, Act::Map(DATA, Ok(())), 4),
            (262657, Act::Walks(Access::Store), 4),
            (262657, Act::WalksToNothing(Access::Fetch), 4),
            (262657, Act::SetPerm(TEXT), 4),
            (262657, Act::Walks(Access::Fetch), 4),
            (262657, Act::WalksToNothing(Access::Store), 4),
            (262657, Act::SetPerm(KERNEL), 4),
            (262657, Act::WalksToNothing(Access::Load), 4),
        ],
    },
    Case {
        name: "a table lacks a frame",
        frames: 2,
        acts: &[(0, Act::Map(CONSTANT, Err(Full)), 0)],
    },
];

fn expect(rt: &(impl Abort + AllocGlobal), case: &Case) {
    assert!(rt; case.frames <= 32768);
    let mut mapping = Mapping::new(rt, case.frames);
    for (at, (page, act, free)) in case.acts.iter().enumerate() {
        assert!(rt; *page < 1 << 27);
        let told = (mapping.does(*page, *act), mapping.memory.frames.free());
        expect_row(rt, told == (true, *free), case.name, at);
    }
}

#[test]
fn pages_are_mapped_found_and_taken_out(rt: HostRuntime) {
    for case in &CASES {
        expect(&rt, case);
    }
}

#[test]
fn a_new_table_goes_back(rt: HostRuntime) {
    let mut memory = all_free(&rt, 2);
    let table = PageTable::new(&mut memory).expect(&rt, "a frame");
    let free = memory.frames.free();
    table.destroy(&mut memory);
    assert!(rt; (free, memory.frames.free()) == (1, 2));
}
