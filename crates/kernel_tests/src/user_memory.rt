//! Address spaces that grow, are copied, read and written, and go.
ghost use Rattle.std.specs.Prelude.{◌≡◌, ◌≤◌, slice_index};
ghost use Rattle.vm.specs.Owned.{IsSpace};

use crate::expected::{all_free, expect_case, expect_row};
use frames::Memory;
use ram::FrameNo;
use std::marker::Model;
use std::process::Abort;
use vm::{Perm, Space, VmFault};

const DATA: Perm = Perm {
    w: true,
    x: false,
    u: true,
};

const TEXT: Perm = Perm {
    w: false,
    x: true,
    u: true,
};

// A memory with one space.
#[derive(Drop)]
struct Alone {
    memory: Memory,
    space: Space,
}

impl Model for Alone {
    ghost use Rattle.vm.specs.declared.Space.{Space as State};

    ghost Value = { State };

    ghost use Rattle.vm.specs.Owned.{IsSpace};

    ghost view = { λ a. a.space };

    ghost invariant = { λ a. IsSpace a.memory a.space };
}

impl Alone {
    // A new space in a memory of `count` frames.
    fn new(rt: &(impl Abort + AllocGlobal), count: u32) -> Alone
        requires { count ≤ 32768 }
    {
        let mut memory = all_free(rt, count);
        let Ok(space) = Space::new(&mut memory) else {
            panic!(rt; "too few frames")
        };
        Alone { memory, space }
    }

    fn free(&self) -> u32 {
        self.memory.frames.free()
    }

    fn grow(&mut self, bytes: u64, perm: Perm) -> Result<(), VmFault> {
        self.space.grow(&mut self.memory, bytes, perm)
    }

    fn shrink(&mut self, bytes: u64) -> bool {
        if bytes > self.space.size() {
            return false;
        }
        self.space.shrink(&mut self.memory, bytes);
        true
    }

    fn write(&mut self, address: u64, bytes: &[u8]) -> Result<(), VmFault> {
        self.space.copy_out(&mut self.memory, address, bytes)
    }

    // Puts four bytes into the first page, whatever its marks.
    fn fill(&mut self, address: u64, bytes: &[u8; 4]) -> bool {
        if address > 4092 || self.space.size() < 4096 {
            return false;
        }
        self.space.fill(&mut self.memory, address, bytes);
        true
    }

    fn save(&mut self, registers: &[u64; 32], pc: u64)
        requires { slice_index registers.now 0 ≡ 0 }
    {
        self.space.save_regs(&mut self.memory.ram, registers, pc);
    }

    // A number of the trap frame, which is the second frame that a space takes.
    fn saved(&self, at: usize) -> Option<u64> {
        if self.memory.ram.frame_count() <= 1 || at > 4088 {
            return None;
        }
        Some(self.memory.ram.load_u64(FrameNo(1), at))
    }

    fn load(&self, registers: &mut [u64; 32]) -> u64 {
        self.space.load_regs(&self.memory.ram, registers)
    }

    // A copy, instead of the space, whose frames stay taken.
    fn copied(self, rt: &impl Abort) -> Alone {
        let Alone { mut memory, space } = self;
        let space = space.copy(&mut memory).expect(rt, "frames");
        Alone { memory, space }
    }

    // Why there can't be a copy.
    fn copy_fault(&mut self) -> Option<VmFault> {
        self.space.copy(&mut self.memory).err()
    }

    // Gives back all frames of the space, and returns how many are free then.
    fn end(self) -> u32 {
        let Alone { mut memory, space } = self;
        space.destroy(&mut memory);
        memory.frames.free()
    }

    // The marks of a page.
    fn perm(&self, page: u64) -> Option<Perm> {
        let (_frame, marks) = self.space.find_page(&self.memory.ram, page)?;
        Some(marks.perm)
    }

    // Four bytes, or why they may not be read.
    fn read(&self, address: u64) -> Result<[u8; 4], VmFault> {
        let mut back = [0; 4];
        self.space.copy_in(&self.memory.ram, address, &mut back)?;
        Ok(back)
    }

    // How many bytes a string has that fits in a buffer of `room` bytes, 4 at most.
    fn string(&self, address: u64, room: usize) -> Option<usize> {
        let mut back = [0; 4];
        self.space
            .copy_string(&self.memory.ram, address, &mut back[..room.min(4)])
    }

    // Whether the act is done, or holds, as expected.
    fn does(&mut self, act: Act) -> bool {
        match act {
            Act::Grow(bytes, perm, told) => self.grow(bytes, perm) == told,
            Act::Shrink(bytes) => self.shrink(bytes),
            Act::Write(address, bytes, told) => self.write(address, bytes) == told,
            Act::Fill(address, bytes) => self.fill(address, bytes),
            Act::HasSize(size) => self.space.size() == size,
            Act::HasMarks(page, marks) => self.perm(page) == marks,
            Act::Read(address, told) => self.read(address) == told,
            Act::IsReadable(address, bytes) => {
                self.space.readable(&self.memory.ram, address) == bytes
            }
            Act::CanRead(address, count, can) => {
                self.space.can_read(&self.memory.ram, address, count) == can
            }
            Act::CanWrite(address, count, can) => {
                self.space.can_write(&self.memory.ram, address, count) == can
            }
            Act::HasString(address, room, count) => self.string(address, room) == count,
        }
    }
}

// What is done to a space, or what it has.
#[derive(Clone, Copy)]
enum Act {
    Grow(u64, Perm, Result<(), VmFault>),
    Shrink(u64),
    Write(u64, &'static [u8], Result<(), VmFault>),
    Fill(u64, &'static [u8; 4]),
    HasSize(u64),
    HasMarks(u64, Option<Perm>),
    Read(u64, Result<[u8; 4], VmFault>),
    /// These bytes may be read from an address to the end of its page.
    IsReadable(u64, &'static [u8]),
    CanRead(u64, u64, bool),
    CanWrite(u64, u64, bool),
    /// How many bytes a string has that fits in a buffer of that many bytes.
    HasString(u64, usize, Option<usize>),
}

// What is done to a new space in a memory of `frames` frames; beside each: how many frames are free then.
struct Case {
    name: &'static str,
    frames: u32,
    acts: &'static [(Act, u32)],
}

static CASES: [Case; 4] = [
    Case {
        name: "each frame comes back",
        frames: 32,
        acts: &[
            (Act::HasSize(0), 28),
            // two pages and two tables
            (Act::Grow(5000, DATA, Ok(())), 24),
            (Act::HasSize(5000), 24),
            (Act::Shrink(4000), 25),
            (Act::HasSize(1000), 25),
        ],
    },
    Case {
        name: "what does not fit is refused",
        frames: 8,
        acts: &[
            (Act::Grow(0x3fffffe001, DATA, Err(VmFault::TooLarge)), 4),
            (Act::Grow(0x3fffffe000, DATA, Err(VmFault::Frames)), 4),
            (Act::Grow(3 * 4096, DATA, Err(VmFault::Frames)), 4),
            (Act::Grow(2 * 4096, DATA, Ok(())), 0),
        ],
    },
    Case {
        name: "bytes lie in two pages",
        frames: 32,
        acts: &[
            (Act::Grow(8192, DATA, Ok(())), 24),
            (Act::Write(4094, b"read\0", Ok(())), 24),
            (Act::Write(8191, b"ab", Err(VmFault::BadAddress)), 24),
            (Act::Read(4094, Ok(*b"read")), 24),
            (Act::Read(8191, Err(VmFault::BadAddress)), 24),
            (Act::HasString(4094, 4, Some(4)), 24),
            (Act::HasString(4094, 3, None), 24),
            (Act::IsReadable(4094, b"re"), 24),
            (Act::CanRead(4094, 4098, true), 24),
            (Act::CanRead(4094, 4099, false), 24),
            (Act::CanWrite(u64::MAX, 2, false), 24),
        ],
    },
    Case {
        name: "text is kept from being written",
        frames: 32,
        acts: &[
            (Act::Grow(4096, TEXT, Ok(())), 25),
            (Act::Fill(16, b"code"), 25),
            (Act::Read(16, Ok(*b"code")), 25),
            (Act::CanWrite(16, 1, false), 25),
            (Act::HasMarks(0, Some(TEXT)), 25),
            (Act::HasMarks(1, None), 25),
        ],
    },
];

// Does all of it, after which the space gives back each frame.
fn expect(rt: &(impl Abort + AllocGlobal), case: &Case) {
    assert!(rt; case.frames <= 32768);
    let mut alone = Alone::new(rt, case.frames);
    for (at, (act, free)) in case.acts.iter().enumerate() {
        let told = (alone.does(*act), alone.free());
        expect_row(rt, told == (true, *free), case.name, at);
    }
    expect_case(rt, alone.end() == case.frames, case.name);
}

#[test]
fn spaces_grow_are_read_and_written_and_go(rt: HostRuntime) {
    for case in &CASES {
        expect(&rt, case);
    }
}

#[test]
fn copies_count_in_full(rt: HostRuntime) {
    let mut alone = Alone::new(&rt, 16);
    let done = alone.grow(4096, DATA) == Ok(()) && alone.fill(0, b"old!");
    let mut child = alone.copied(&rt);
    let told = (child.free(), child.read(0), child.copy_fault());
    assert!(rt; done && told == (2, Ok(*b"old!"), Some(VmFault::Frames)));
    assert!(rt; child.end() == 9);
}

// Whether a page has the same frame in both spaces, and that has two holders.
fn is_shared(memory: &Memory, one: &Space, other: &Space, page: u64) -> bool
    requires one { IsSpace memory.now one.now }
    requires other { IsSpace memory.now other.now }
{
    let ram = &memory.ram;
    match (one.find_page(ram, page), other.find_page(ram, page)) {
        (Some((frame, _)), Some((same, _))) => {
            frame == same && memory.frames.holders(ram, frame) == 2
        }
        _ => false,
    }
}

#[test]
fn copies_share_each_frame(rt: HostRuntime) {
    let mut alone = Alone::new(&rt, 256);
    assert!(rt; alone.grow(50 * 4096, DATA) == Ok(()));
    let Alone { mut memory, space } = alone;
    let Ok(child) = space.copy(&mut memory) else {
        panic!(rt; "too few frames")
    };
    for page in 0..50 {
        assert!(rt; is_shared(&memory, &space, &child, page), "page {page}");
    }
}

// ra, s2 and t6 are set.
fn registers() -> [u64; 32]
    ensures { slice_index result 0 ≡ 0 }
{
    let mut registers = [0; 32];
    registers[1] = 11;
    registers[18] = 12;
    registers[31] = u64::MAX;
    registers
}

#[test]
fn registers_are_saved_and_loaded(rt: HostRuntime) {
    let mut alone = Alone::new(&rt, 8);
    alone.save(&registers(), 4096);
    // epc, ra, s2 and t6, where xv6 saves them
    for (at, number) in [(24, 4096), (40, 11), (176, 12), (280, u64::MAX)] {
        assert!(rt; alone.saved(at) == Some(number), "at {at}");
    }
    let mut back = [7; 32];
    let pc = alone.load(&mut back);
    assert!(rt; pc == 4096 && back == registers());
}
