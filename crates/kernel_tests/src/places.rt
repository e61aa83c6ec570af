//! Spaces that come, change and go: the frames are counted, and a program runs in one of them.
use crate::expected::{expect_row, memory};
use spaces::Spaces;
use std::cell::Cell;
use std::process::Abort;
use sv39::{Plain, Translate};
use test_translators::Counting;
use unixmodel::trap::{Cause, Trap};
use vm::Perm;

type Flat = Spaces<Plain>;

const HEAP: Perm = Perm {
    w: true,
    x: false,
    u: true,
};

const PROGRAM: Perm = Perm {
    w: true,
    x: true,
    u: true,
};

// Puts 5 into byte 32 of its memory, and makes a call.
const FIVE: [u8; 12] = [
    0x13, 0x05, 0x50, 0x00, // addi a0, zero, 5
    0x23, 0x30, 0xa0, 0x02, // sd   a0, 32(zero)
    0x73, 0x00, 0x00, 0x00, // ecall
];

const SLASHES: [u8; 127] = [b'/'; 127];

const CALL: Trap = Trap {
    cause: Cause::EnvironmentCall,
    address: 8,
};

const FAULT: Trap = Trap {
    cause: Cause::InstructionPageFault,
    address: 8,
};

// ---- calls, each of which gives nothing where it may not be made

fn create<T: Translate>(spaces: &mut Spaces<T>, at: usize) -> Option<bool> {
    if at >= 64 || spaces.has_space(at) {
        return None;
    }
    Some(spaces.create(at))
}

fn copy(spaces: &mut Flat, from: usize, to: usize) -> Option<bool> {
    if to >= 64 || !spaces.has_space(from) || spaces.has_space(to) {
        return None;
    }
    Some(spaces.copy(from, to))
}

fn grow<T: Translate>(spaces: &mut Spaces<T>, at: usize, bytes: u64, perm: Perm) -> Option<bool> {
    if !spaces.has_space(at) {
        return None;
    }
    Some(spaces.grow(at, bytes, perm))
}

fn shrink<T: Translate>(spaces: &mut Spaces<T>, at: usize, bytes: u64) -> Option<bool> {
    if !spaces.has_space(at) || bytes > spaces.size(at) {
        return None;
    }
    spaces.shrink(at, bytes);
    Some(true)
}

fn write(spaces: &mut Flat, at: usize, address: u64, bytes: &[u8]) -> Option<bool> {
    if !spaces.has_space(at) {
        return None;
    }
    Some(spaces.write(at, address, bytes))
}

fn destroy(spaces: &mut Flat, at: usize) -> Option<bool> {
    if !spaces.has_space(at) || spaces.active() == Some(at) {
        return None;
    }
    spaces.destroy(at);
    Some(true)
}

fn activate<T: Translate>(spaces: &mut Spaces<T>, at: usize) -> Option<bool> {
    if !spaces.has_space(at) {
        return None;
    }
    spaces.activate(at, &[0; 32], 0);
    Some(true)
}

// Whether the next instruction ends in this trap, or none.
fn execute(spaces: &mut Flat, trap: Option<Trap>) -> Option<bool> {
    if spaces.active().is_none() {
        return None;
    }
    Some(spaces.execute() == trap)
}

fn set_pc(spaces: &mut Flat, value: u64) -> Option<bool> {
    if value % 4 != 0 {
        return None;
    }
    spaces.set_pc(value);
    Some(true)
}

fn has_size(spaces: &Flat, at: usize, size: u64) -> Option<bool> {
    if !spaces.has_space(at) {
        return None;
    }
    Some(spaces.size(at) == size)
}

// Whether a program may read this byte there, or none.
fn has_byte(spaces: &Flat, at: usize, address: u64, byte: Option<u8>) -> Option<bool> {
    if !spaces.has_space(at) {
        return None;
    }
    Some(spaces.readable(at, address).first().copied() == byte)
}

// Whether the path at an address has this many bytes, which are slashes.
fn has_path(spaces: &Flat, at: usize, address: u64, count: Option<usize>) -> Option<bool> {
    if !spaces.has_space(at) {
        return None;
    }
    let mut buffer = [0; 127];
    let told = spaces.copy_path(at, address, &mut buffer);
    let n = told.unwrap_or(0);
    Some(told == count && buffer.get(..n) == SLASHES.get(..n))
}

// The same of a string, which has to fit in a buffer of 126 bytes.
fn has_string(spaces: &Flat, at: usize, address: u64, count: Option<usize>) -> Option<bool> {
    if !spaces.has_space(at) {
        return None;
    }
    Some(spaces.copy_string(at, address, &mut [0; 126]) == count)
}

// What is done to spaces, or what they have.
#[derive(Clone, Copy)]
enum Act {
    Create(usize),
    Copy(usize, usize),
    Grow(usize, u64, Perm),
    Shrink(usize, u64),
    Write(usize, u64, &'static [u8]),
    Destroy(usize),
    Activate(usize),
    Deactivate,
    /// The next instruction ends in this trap, or none.
    Execute(Option<Trap>),
    /// Puts a number into register a0.
    SetA0(u64),
    SetPc(u64),
    HasSpace(usize),
    HasSize(usize, u64),
    HasByte(usize, u64, Option<u8>),
    HasPath(usize, u64, Option<usize>),
    HasString(usize, u64, Option<usize>),
    IsActive(Option<usize>),
    HasA0(u64),
    HasPc(u64),
}

// Whether the act is done, or holds; nothing where it may not be asked.
fn answer(spaces: &mut Flat, act: Act) -> Option<bool> {
    match act {
        Act::Create(at) => create(spaces, at),
        Act::Copy(from, to) => copy(spaces, from, to),
        Act::Grow(at, bytes, perm) => grow(spaces, at, bytes, perm),
        Act::Shrink(at, bytes) => shrink(spaces, at, bytes),
        Act::Write(at, address, bytes) => write(spaces, at, address, bytes),
        Act::Destroy(at) => destroy(spaces, at),
        Act::Activate(at) => activate(spaces, at),
        Act::Execute(trap) => execute(spaces, trap),
        Act::HasSpace(at) => Some(spaces.has_space(at)),
        Act::HasSize(at, size) => has_size(spaces, at, size),
        Act::HasByte(at, address, byte) => has_byte(spaces, at, address, byte),
        Act::HasPath(at, address, count) => has_path(spaces, at, address, count),
        Act::HasString(at, address, count) => has_string(spaces, at, address, count),
        Act::Deactivate => {
            spaces.deactivate();
            Some(true)
        }
        Act::SetA0(value) => {
            spaces.set_register(10, value);
            Some(true)
        }
        Act::SetPc(value) => set_pc(spaces, value),
        Act::IsActive(at) => Some(spaces.active() == at),
        Act::HasA0(value) => Some(spaces.registers()[10] == value),
        Act::HasPc(value) => Some(spaces.pc() == value),
    }
}

// Acts in a memory of `frames` frames, `acts` after `first`.
// Beside each: whether it is done, or is so, and how many frames are free then.
struct Case {
    name: &'static str,
    frames: u32,
    first: &'static [(Act, bool, u32)],
    acts: &'static [(Act, bool, u32)],
}

// The program in slots 3 and 4, of which the latter is active.
const LOADED: &[(Act, bool, u32)] = &[
    (Act::Create(3), true, 60),
    (Act::Grow(3, 4096, PROGRAM), true, 57),
    (Act::Write(3, 0, &FIVE), true, 57),
    (Act::Create(4), true, 53),
    (Act::Grow(4, 4096, PROGRAM), true, 50),
    (Act::Write(4, 0, &FIVE), true, 50),
    (Act::Activate(4), true, 50),
];

static CASES: [Case; 7] = [
    Case {
        name: "all frames come back",
        frames: 64,
        first: &[],
        acts: &[
            (Act::Create(0), true, 60),
            (Act::Grow(0, 5000, HEAP), true, 56),
            (Act::Copy(0, 63), true, 48),
            (Act::Shrink(0, 905), true, 49),
            (Act::Shrink(0, 4095), true, 52),
            (Act::Destroy(0), true, 56),
            (Act::Destroy(63), true, 64),
        ],
    },
    Case {
        name: "what does not fit is refused",
        frames: 11,
        first: &[],
        acts: &[
            (Act::Create(7), true, 7),
            (Act::Grow(7, 1, HEAP), true, 4),
            (Act::Copy(7, 8), false, 4),
            (Act::Grow(7, 5 * 4096, HEAP), false, 4),
            (Act::Grow(7, u64::MAX, HEAP), false, 4),
            (Act::Create(8), true, 0),
            (Act::Create(9), false, 0),
            (Act::Grow(8, 1, HEAP), false, 0),
            (Act::Grow(7, 4095, HEAP), true, 0),
            (Act::Write(7, 4095, &[1, 2]), false, 0),
            (Act::HasSize(7, 4096), true, 0),
            (Act::HasByte(7, 4095, Some(0)), true, 0),
            (Act::HasByte(7, 4096, None), true, 0),
            (Act::HasSpace(9), false, 0),
            (Act::HasSpace(64), false, 0),
        ],
    },
    Case {
        name: "slots have pages of their own",
        frames: 64,
        first: &[],
        acts: &[
            (Act::Create(0), true, 60),
            (Act::Grow(0, 5000, HEAP), true, 56),
            (Act::Write(0, 4095, &[1, 2]), true, 56),
            (Act::Copy(0, 63), true, 48),
            (Act::Write(0, 4096, &[3, 4]), true, 48),
            (Act::HasByte(0, 4095, Some(1)), true, 48),
            (Act::HasByte(0, 4096, Some(3)), true, 48),
            (Act::HasByte(63, 4095, Some(1)), true, 48),
            (Act::HasByte(63, 4096, Some(2)), true, 48),
        ],
    },
    Case {
        name: "paths of fewer than 128 bytes and strings that fit are copied",
        frames: 64,
        first: &[],
        acts: &[
            (Act::Create(0), true, 60),
            (Act::Grow(0, 8192, HEAP), true, 56),
            (Act::Write(0, 4000, &SLASHES), true, 56),
            (Act::HasPath(0, 4001, Some(126)), true, 56),
            (Act::HasPath(0, 4127, Some(0)), true, 56),
            (Act::HasPath(0, 8192, None), true, 56),
            (Act::HasPath(0, 4000, Some(127)), true, 56),
            (Act::HasString(0, 4000, None), true, 56),
            (Act::HasString(0, 4001, Some(126)), true, 56),
            (Act::Write(0, 3999, b"/"), true, 56),
            (Act::HasPath(0, 3999, None), true, 56),
        ],
    },
    Case {
        name: "the active slot runs",
        frames: 64,
        first: LOADED,
        acts: &[
            (Act::Execute(None), true, 50),
            (Act::Execute(None), true, 50),
            (Act::Execute(Some(CALL)), true, 50),
            (Act::Execute(Some(CALL)), true, 50),
            (Act::HasA0(5), true, 50),
            (Act::HasPc(8), true, 50),
            (Act::HasByte(4, 32, Some(5)), true, 50),
            (Act::HasByte(3, 32, Some(0)), true, 50),
        ],
    },
    Case {
        name: "registers are taken",
        frames: 64,
        first: LOADED,
        acts: &[
            (Act::SetA0(7), true, 50),
            (Act::SetPc(4), true, 50),
            (Act::Execute(None), true, 50),
            (Act::HasByte(4, 32, Some(7)), true, 50),
        ],
    },
    Case {
        name: "a page that goes is executed no more",
        frames: 64,
        first: LOADED,
        acts: &[
            (Act::Execute(None), true, 50),
            (Act::Execute(None), true, 50),
            (Act::Shrink(4, 4096), true, 53),
            (Act::Execute(Some(FAULT)), true, 53),
            (Act::Deactivate, true, 53),
            (Act::Destroy(4), true, 57),
            (Act::IsActive(None), true, 57),
        ],
    },
];

fn expect_all(rt: &impl Abort, name: &str, spaces: &mut Flat, acts: &[(Act, bool, u32)]) {
    for (at, (act, is, free)) in acts.iter().enumerate() {
        let told = (answer(spaces, *act), spaces.free());
        expect_row(rt, told == (Some(*is), *free), name, at);
    }
}

#[test]
fn spaces_come_change_and_go(rt: HostRuntime) {
    for case in &CASES {
        assert!(rt; case.frames <= 32768);
        let ram = memory(&rt, case.frames);
        let mut spaces = Spaces::new(rt.alloc(), ram, Plain::new()).expect(&rt, "counts");
        expect_all(&rt, case.name, &mut spaces, case.first);
        expect_all(&rt, case.name, &mut spaces, case.acts);
    }
}

// How often the translator is fenced: by new spaces of one page in slots 0 and 1, then by making the latter active, by
// shrinking the former, and by shrinking the active one.
fn fences_of(spaces: &mut Spaces<Counting<'_>>, fences: &Cell<u32>) -> Option<[u32; 4]> {
    for at in 0..2 {
        if !(create(spaces, at)? && grow(spaces, at, 4096, HEAP)?) {
            return None;
        }
    }
    let new = fences.get();
    activate(spaces, 1)?;
    let active = fences.get();
    shrink(spaces, 0, 1)?;
    let other = fences.get();
    shrink(spaces, 1, 1)?;
    Some([new, active, other, fences.get()])
}

#[test]
fn fences_where_a_translation_goes(rt: HostRuntime) {
    let (fetches, fences) = (Cell::new(0), Cell::new(0));
    let translator = Counting::new(&fetches, &fences);
    let mut spaces = Spaces::new(rt.alloc(), memory(&rt, 64), translator).expect(&rt, "counts");
    assert!(rt; fences_of(&mut spaces, &fences) == Some([1, 2, 2, 3]));
}
