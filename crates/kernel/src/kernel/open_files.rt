//! The kernel's steps on the descriptors of the running process, and on the open files that they name.
ghost use Rattle.std.specs.Prelude.{◌≡◌, ◌<◌, IfSome, Some, false, is_some, true};
ghost use Rattle.kernel.specs.Kernel.{HasCurrent, current, current_space};
ghost use Rattle.kernel.specs.Opening.{HasClosed, HasFetched, HasStored, MayClose, MayMove, MayOpen, MayPipe, MayShare};
ghost use Rattle.kernel.specs.Opening.{OpensOn, PipesInto, advanced, duplicated, pipe_file};
ghost use Rattle.tree.specs.Tree.{Serves};
ghost use Rattle.tree.specs.Written.{IsFile};
ghost use Rattle.unixmodel.specs.Files.{Node, slot};
ghost use Rattle.unixmodel.specs.Memory.{can_write, read_bytes};

use crate::channels::{Channel, wakeup};
use crate::descriptors::{close, let_one_go, open_as};
use crate::kernel::Kernel;
use crate::kernel::disk::is_done;
use blockdev::{BlockDev, DeviceFault};
use file_transfers::{read_node, write_node};
use files::{End, OpenFile, Target};
use sv39::Translate;

// An end of a pipe, as an open file.
fn pipe_end(pipe: usize, end: End) -> OpenFile
    ensures { result ≡ pipe_file pipe end }
{
    OpenFile {
        target: Target::Pipe { pipe, end },
        readable: end == End::Read,
        writable: end == End::Write,
    }
}

impl<D: BlockDev, T: Translate> Kernel<D, T> {
    /// The lowest free descriptor of the running process names an open file too that another one names.
    #[inline]
    pub fn dup(&mut self, free: usize, id: u8)
        requires may { MayShare self.old (current self.old) free id }
        requires within { free < 16 }
        ensures { self.new ≡ duplicated self.old (current self.old) free id }
    {
        let at = self.current();
        self.table.set_descriptor(at, free, Some(id));
        self.files.dup(usize::from(id));
    }

    /// Opens a node of the disk as a new open file, which the lowest free descriptor of the running process names.
    /// Returns the descriptor.
    #[inline]
    pub fn open_on(&mut self, node: usize, file: OpenFile) -> usize
        requires { MayOpen self.old (current self.old) node file }
        ensures { OpensOn self.old self.new (current self.old) node file result }
    {
        let at = self.current();
        self.tree.is_whole();
        self.tree.hold(node);
        let descriptor = open_as(&mut self.table, &mut self.files, at, file);
        wakeup(&mut self.table, Channel::Bytes);
        descriptor
    }

    /// Makes a pipe in the lowest free slot. Returns the lowest free descriptors of the running process, which name its
    /// read end and its write end; `None`: the frames don't suffice, and nothing changes.
    #[inline]
    pub fn open_pipe(&mut self, pipe: usize) -> Option<(usize, usize)>
        requires may { MayPipe self.old (current self.old) pipe }
        requires within { pipe < 100 }
        ensures pipes { PipesInto self.old self.new (current self.old) pipe result }
        ensures within { IfSome result (λ ends. (ends.0 < 16) × (ends.1 < 16)) }
    {
        let at = self.current();
        if !self.spaces.create_pipe(pipe) {
            return None;
        }
        let reader = open_as(
            &mut self.table,
            &mut self.files,
            at,
            pipe_end(pipe, End::Read),
        );
        let writer = open_as(
            &mut self.table,
            &mut self.files,
            at,
            pipe_end(pipe, End::Write),
        );
        wakeup(&mut self.table, Channel::Bytes);
        Some((reader, writer))
    }

    /// Closes a descriptor of the running process that names an open file. A pipe that has no end any more goes,
    /// and so does a node without links that nobody holds any more.
    #[inline]
    pub fn close(&mut self, descriptor: usize, id: u8) -> Result<(), DeviceFault>
        requires may { MayClose self.old (current self.old) descriptor id }
        requires within { descriptor < 16 }
        ensures { Serves self.old.tree self.new.tree result
            (λ done. HasClosed self.old self.new (current self.old) descriptor id) }
    {
        let at = self.current();
        self.table.set_descriptor(at, descriptor, None);
        let gone = close(&mut self.files, &mut self.spaces, usize::from(id));
        wakeup(&mut self.table, Channel::Bytes); // a pipe may have lost an end
        let_one_go(&mut self.tree, gone)
    }

    /// Sets the offset, in bytes, of an open file on a file or a directory.
    #[inline]
    pub fn set_offset(&mut self, id: usize, offset: u32)
        requires { MayMove self.old id offset }
        ensures { self.new ≡ advanced self.old id offset }
    {
        self.files.set_offset(id, offset);
    }

    /// Reads at most `count` bytes of a node from `offset` on into the memory of the running process from `address` on,
    /// and returns how many.
    #[inline]
    pub fn read_node(
        &mut self,
        number: usize,
        offset: u32,
        address: u64,
        count: u64,
    ) -> Result<u64, DeviceFault>
        requires running { HasCurrent self.old }
        requires up { self.old.tree.failed ≡ false }
        requires node { (node : Node) × (slot self.old.tree.files number ≡ Some node) }
        requires writable { can_write (current_space self.old).memory address count ≡ true }
        ensures { Serves self.old.tree self.new.tree result
            (HasFetched self.old self.new (current self.old) number offset address count) }
    {
        let at = self.current();
        let read = read_node(
            &mut self.tree,
            &mut self.spaces,
            at,
            number,
            offset,
            address,
            count,
        );
        self.spaces.frames_suffice();
        read
    }

    /// Writes bytes of the memory of the running process from `address` on into a file from `offset` on, as many as
    /// there are blocks for, and returns how many. `None`: `offset` lies past the file's end, or the file would
    /// be too long; nothing is written.
    #[inline]
    pub fn write_node(
        &mut self,
        number: usize,
        offset: u32,
        address: u64,
        count: u64,
    ) -> Result<Option<u64>, DeviceFault>
        requires running { HasCurrent self.old }
        requires up { self.old.tree.failed ≡ false }
        requires file { IsFile self.old.tree.files number }
        requires readable { is_some (read_bytes (current_space self.old).memory address count) ≡ true }
        ensures { Serves self.old.tree self.new.tree result
            (HasStored self.old self.new (current self.old) number offset address count) }
    {
        let at = self.current();
        let wrote = write_node(
            &mut self.tree,
            &self.spaces,
            at,
            number,
            offset,
            address,
            count,
        );
        is_done(&self.tree, &wrote);
        wrote
    }
}
