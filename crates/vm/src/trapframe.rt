//! The trap frame: a frame of each space that has room for a program's registers, laid out as xv6's.
//!
//! No machine writes one: the registers of a process that doesn't run are in the table of processes (`proc`).
//! `save_regs` and `load_regs` are for who uses a space by itself, as tests do.
//! Its numbers have 8 bytes, the lowest first: the pc at offset 24, and register x1 to x31 each at 32 and 8 times its
//! number.
//! Its other bytes are 0 in a new space, and stay.

ghost use Rattle.std.specs.Prelude.{◌≡◌, ◌+◌, ◌*◌, ◌^◌, ◌<◌, ◌≤◌, List, length, slice_index};
ghost use Rattle.vm.specs.Space.{IsMapped, IsOnce, pages_of, Stands};
ghost use Rattle.vm.specs.TrapFrame.{saved_pc, saved_registers, KeepsSpare};

use crate::Space;
use ram::Ram;

/// The offset of the program counter in a trap frame.
const PC: usize = 24;

// The offset of a register in a trap frame.
fn place_of(register: usize) -> usize
    requires { register < 32 }
    ensures { result ≡ 32 + 8 * register }
{
    32 + 8 * register
}

impl Space {
    /// Stores the registers and the program counter in the trap frame. Register x0 is 0, and isn't stored.
    pub fn save_regs(&self, ram: &mut Ram, registers: &[u64; 32], pc: u64)
        requires mapped { IsMapped ram.old self.now }
        requires once { IsOnce ram.old self.now }
        requires zero { slice_index registers.now 0 ≡ 0 }
        ensures registers { saved_registers ram.new self.now ≡ registers.now }
        ensures pc { saved_pc ram.new self.now ≡ pc }
        ensures spare { KeepsSpare ram.old ram.new self.now }
        ensures pages { pages_of ram.new self.now ≡ pages_of ram.old self.now }
        ensures stands { Stands ram.old ram.new self.now }
    {
        ram.frames_are_whole();
        ram.store_u64(self.trap, PC, pc);
        for register in 1..32 {
            ram.frames_are_whole();
            ram.store_u64(self.trap, place_of(register), registers[register]);
        }
    }

    /// Loads the registers from the trap frame, and returns the program counter.
    pub fn load_regs(&self, ram: &Ram, registers: &mut [u64; 32]) -> u64
        requires { IsMapped ram.now self.now }
        ensures registers { registers.new ≡ saved_registers ram.now self.now }
        ensures pc { result ≡ saved_pc ram.now self.now }
    {
        registers[0] = 0;
        for register in 1..32 {
            registers[register] = ram.load_u64(self.trap, place_of(register));
        }
        ram.load_u64(self.trap, PC)
    }
}
