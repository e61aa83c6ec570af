//! What a call asks of the kernel before it does anything.
ghost use Rattle.std.specs.Prelude.{◌≡◌, ◌<◌, ◌≤◌, ◌≢◌, All, IfSome, false, is_some, length, not, take};
ghost use Rattle.std.specs.Prelude.{true};
ghost use Rattle.kernel.specs.Kernel.{HasCurrent, current, current_space};
ghost use Rattle.files.specs.Meant.{end_of};
ghost use Rattle.files.specs.Places.{file_at, free_count, has_end, node_at, opens_of, readable_at, writable_at};
ghost use Rattle.proc.specs.Places.{is_child_of, place_where};
ghost use Rattle.spaces.specs.Spaces.{bytes_in, has_pipe};
ghost use Rattle.tree.specs.Whole.{IsWhole};
ghost use Rattle.unixmodel.specs.Files.{free_slot};
ghost use Rattle.unixmodel.specs.Memory.{path_at, read_bytes};
ghost use Rattle.unixmodel.specs.declared.trap.Access.TheVariants.{Load};
ghost use Rattle.unixmodel.specs.Turn.{is_empty};
ghost use Rattle.vm.specs.Reach.{piece_at, string_in};

use crate::kernel::Kernel;
use blockdev::BlockDev;
use console::Console;
use files::{End, FileFault, OpenFile, Target};
use proc::Table;
use spaces::Spaces;
use sv39::Translate;

impl<D: BlockDev, T: Translate> Kernel<D, T> {
    /// A law: the files on the disk keep all rules of files in use. It runs no code.
    #[inline]
    pub fn files_are_whole(&self)
        requires { self.now.tree.failed ≡ false }
        ensures { IsWhole self.now.tree }
    {
        self.tree.is_whole();
    }

    /// The processes.
    #[inline]
    pub fn table(&self) -> &Table
        ensures { result.now ≡ self.now.table }
    {
        &self.table
    }

    /// Their spaces, and the hart.
    #[inline]
    pub fn spaces(&self) -> &Spaces<T>
        ensures { result.now ≡ self.now.spaces }
    {
        &self.spaces
    }

    /// What is typed.
    #[inline]
    pub fn console(&self) -> &Console
        ensures { result.now ≡ self.now.console }
    {
        &self.console
    }

    /// Whether the process with a pid has a child.
    #[inline]
    pub fn has_child(&self, pid: u32) -> bool
        ensures { result ≡ is_some (place_where self.now.table.places (is_child_of pid)) }
    {
        self.table.has_child(pid)
    }

    /// How many more open files there may be.
    #[inline]
    pub fn free_places(&self) -> usize
        ensures { result ≡ free_count self.now.files }
    {
        self.files.free_places()
    }

    /// An open file.
    #[inline]
    pub fn file(&self, id: usize) -> Option<OpenFile>
        ensures { result ≡ file_at self.now.files id }
    {
        self.files.file(id)
    }

    /// The node that a file is open on.
    #[inline]
    pub fn node_of(&self, id: usize) -> Result<u32, FileFault>
        ensures { result ≡ node_at (file_at self.now.files id) }
    {
        self.files.stat(id)
    }

    /// What a file is open on, where it is open for reading.
    #[inline]
    pub fn source(&self, id: usize) -> Result<Target, FileFault>
        ensures { result ≡ readable_at (file_at self.now.files id) }
    {
        self.files.read(id)
    }

    /// What a file is open on, where it is open for writing.
    #[inline]
    pub fn sink(&self, id: usize) -> Result<Target, FileFault>
        ensures { result ≡ writable_at (file_at self.now.files id) }
    {
        self.files.write(id)
    }

    /// Whether an end of a pipe is open.
    #[inline]
    pub fn has_end(&self, pipe: usize, end: End) -> bool
        ensures { result ≡ has_end (opens_of self.now.files) pipe (end_of end) }
    {
        self.files.has_end(pipe, end)
    }

    /// The lowest free slot for a pipe.
    #[inline]
    pub fn free_pipe(&self) -> Option<usize>
        ensures place { result ≡ free_slot self.now.spaces.pipes }
        ensures within { IfSome result (λ q. q < 100) }
    {
        self.spaces.free_pipe()
    }

    /// Whether a pipe has bytes.
    #[inline]
    pub fn has_bytes(&self, pipe: usize) -> bool
        requires { has_pipe self.now.spaces pipe ≡ true }
        ensures { result ≡ not (is_empty (bytes_in self.now.spaces pipe)) }
    {
        self.spaces.has_bytes(pipe)
    }

    /// Whether the running process may read `count` bytes from `address` on.
    #[inline]
    pub fn can_read(&self, address: u64, count: u64) -> bool
        requires { HasCurrent self.now }
        ensures { result ≡ is_some (read_bytes (current_space self.now).memory address count) }
    {
        self.spaces.can_read(self.current(), address, count)
    }

    /// The bytes from an address of the running process to the end of its page; none where it may not read them.
    #[inline]
    pub fn readable(&self, address: u64) -> &[u8]
        requires { HasCurrent self.now }
        ensures { result.now ≡ piece_at Load (current_space self.now).memory address }
    {
        self.spaces.readable(self.current(), address)
    }

    /// Copies the path at an address of the running process, and returns its length; `None` where there is none.
    #[inline]
    pub fn copy_path(&self, address: u64, buffer: &mut [u8; 127]) -> Option<usize>
        requires { HasCurrent self.now }
        ensures path { string_in buffer.new result ≡ path_at (current_space self.now).memory address }
        ensures within { IfSome result (λ n. n ≤ 127) }
        ensures bytes { IfSome result (λ n. All (λ b. b ≢ 0) (take n buffer.new)) }
    {
        self.spaces.copy_path(self.current(), address, buffer)
    }
}
