//! The kernel's steps on the memory of the running process: bytes are read and written, and it grows and shrinks.
ghost use Rattle.std.specs.Prelude.{◌≡◌, ◌+◌, ◌-◌, ◌<◌, ◌≤◌, length, min, take, true};
ghost use Rattle.std.specs.Bool.{OnFalse, OnTrue};
ghost use Rattle.kernel.specs.Kernel.{HasCurrent, current, current_space, typed, waking};
ghost use Rattle.kernel.specs.Memory.{drew, resized, sent, wrote};
ghost use Rattle.spaces.specs.Spaces.{bytes_in, fitting, has_pipe, read_at, taken_frames};
ghost use Rattle.unixmodel.specs.Console.{take_line};
ghost use Rattle.unixmodel.specs.declared.trap.Access.TheVariants.{Load};
ghost use Rattle.unixmodel.specs.Memory.{can_write, reach};
ghost use Rattle.unixmodel.specs.Numbers.{ceil_div};
ghost use Rattle.vm.specs.Reach.{IsSized};

use crate::channels::{Channel, wakeup};
use crate::kernel::Kernel;
use blockdev::BlockDev;
use console::{ROOM, Taken};
use sv39::Translate;
use vm::Perm;

// The marks of the pages that a process grows by: it may read and write them.
const HEAP: Perm = Perm {
    w: true,
    x: false,
    u: true,
};

impl<D: BlockDev, T: Translate> Kernel<D, T> {
    /// A law: the pages of the running process suffice for its size, and each has 4096 bytes. It runs no code.
    #[inline]
    pub fn pages_are_whole(&self)
        requires { HasCurrent self.now }
        ensures few { length (current_space self.now).memory ≤ 32768 }
        ensures whole { length (current_space self.now).memory ≡ ceil_div (current_space self.now).size 4096 }
        ensures sized { IsSized (current_space self.now).memory }
    {
        self.spaces.pages_are_whole(self.current());
    }

    /// Puts bytes into the memory of the running process, which may write them all.
    #[inline]
    pub fn write(&mut self, address: u64, bytes: &[u8])
        requires running { HasCurrent self.old }
        requires can { can_write (current_space self.old).memory address (length bytes.now) ≡ true }
        ensures { self.new ≡ wrote self.old (current self.old) address bytes.now }
    {
        let at = self.current();
        let _written = self.spaces.write(at, address, bytes);
        self.spaces.frames_suffice();
    }

    /// Takes at most `count` bytes of what was typed. A read that has some already stops at the end of a line.
    #[inline]
    pub fn take_line(&mut self, count: usize, has_some: bool, buffer: &mut [u8; ROOM]) -> Taken
        ensures took { take_line has_some count self.old.console.committed ≡ record {
          bytes = take result.count buffer.new;
          rest = self.new.console.committed;
          over = result.over;
        } }
        ensures rest { self.new ≡ typed self.old (record self.old.console { committed = self.new.console.committed }) }
        ensures within { result.count ≤ 128 }
    {
        self.console.take(count, has_some, buffer)
    }

    /// Moves at most `count` bytes of a pipe to an address of the running process, and returns how many.
    #[inline]
    pub fn read_pipe(&mut self, pipe: usize, address: u64, count: usize) -> usize
        requires running { HasCurrent self.old }
        requires pipe { has_pipe self.old.spaces pipe ≡ true }
        requires writable { can_write (current_space self.old).memory address count ≡ true }
        ensures count { result ≡ min count (length (bytes_in self.old.spaces pipe)) }
        ensures drew { self.new ≡ waking (drew self.old (current self.old) pipe address count) self.new.table.awake }
    {
        let at = self.current();
        let taken = self.spaces.read_pipe(pipe, at, address, count);
        self.spaces.frames_suffice();
        wakeup(&mut self.table, Channel::Bytes); // who writes to the pipe
        taken
    }

    /// Puts bytes from an address of the running process on into a pipe, as many as fit, and returns how many.
    #[inline]
    pub fn write_pipe(&mut self, pipe: usize, address: u64, count: usize) -> usize
        requires running { HasCurrent self.old }
        requires pipe { has_pipe self.old.spaces pipe ≡ true }
        requires readable { count ≤ length (reach Load (current_space self.old).memory address) }
        ensures count { result ≡ length
            (fitting (bytes_in self.old.spaces pipe) (read_at (current_space self.old) address count)) }
        ensures sent { self.new ≡ waking (sent self.old (current self.old) pipe address count) self.new.table.awake }
    {
        let at = self.current();
        let put = self.spaces.write_pipe(pipe, at, address, count);
        wakeup(&mut self.table, Channel::Bytes); // who reads the pipe
        put
    }

    /// Grows the running process by `bytes` bytes, which are 0. Refuses it where the frames don't suffice.
    #[inline]
    pub fn grow(&mut self, bytes: u64) -> bool
        requires { HasCurrent self.old }
        ensures done { OnTrue result
            (self.new ≡ resized self.old (current self.old) ((current_space self.old).size + bytes)) }
        ensures over { OnFalse result
            (self.old.spaces.frames < taken_frames
            (resized self.old (current self.old) ((current_space self.old).size + bytes)).spaces) }
        ensures refused { OnFalse result (self.new ≡ self.old) }
    {
        let at = self.current();
        self.spaces.pages_are_whole(at);
        self.spaces.grow(at, bytes, HEAP)
    }

    /// Takes the last `bytes` bytes from the memory of the running process.
    #[inline]
    pub fn shrink(&mut self, bytes: u64)
        requires running { HasCurrent self.old }
        requires less { bytes ≤ (current_space self.old).size }
        ensures { self.new ≡ resized self.old (current self.old) ((current_space self.old).size - bytes) }
    {
        let at = self.current();
        self.spaces.pages_are_whole(at);
        self.spaces.shrink(at, bytes);
        self.spaces.frames_suffice();
    }
}
