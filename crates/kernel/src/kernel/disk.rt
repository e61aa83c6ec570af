//! The kernel's steps on the files of its disk.
ghost use Rattle.std.specs.Prelude.{◌≡◌, ◌≢◌, All, IsSome, None, OnOk, Some, false, length};
ghost use Rattle.std.specs.Bool.{OnTrue};
ghost use Rattle.kernel.specs.Disk.{FilesDisk, ReadsDisk, current_directory, with_tree};
ghost use Rattle.kernel.specs.Kernel.{HasCurrent, current};
ghost use Rattle.name_rules.specs.Rules.{KeepsTree};
ghost use Rattle.tree.specs.Calls.{IsPart, MakesDirectory, MakesLink, MakesNode, TakesName};
ghost use Rattle.tree.specs.Leaves.{leaf_node};
ghost use Rattle.tree.specs.Telling.{Tells, TellsAny, minor_of};
ghost use Rattle.tree.specs.Whole.{IsWhole};
ghost use Rattle.unixmodel.specs.Files.{Node, change_node, find, slot};
ghost use Rattle.unixmodel.specs.NameCalls.{emptied};
ghost use Rattle.unixmodel.specs.Shown.{bytes_or_none};

use crate::kernel::Kernel;
use blockdev::{BlockDev, DeviceFault};
use inode::InodeStat;
use sv39::Translate;
use tree::{Leaf, Tree, TreeFault};

// A law: the files are whole where that was done. It runs no code.
#[inline]
pub(super) fn is_done<D: BlockDev, X, E>(tree: &Tree<D>, done: &Result<X, E>)
    requires { OnOk done.now (tree.now.failed ≡ false) }
    ensures { OnOk done.now (IsWhole tree.now) }
{
    if done.is_ok() {
        tree.is_whole();
    }
}

impl<D: BlockDev, T: Translate> Kernel<D, T> {
    // The directory that the running process works in, from which a path is looked for.
    #[inline]
    pub(super) fn home(&self) -> usize
        requires running { HasCurrent self.now }
        requires up { self.now.tree.failed ≡ false }
        ensures is { result ≡ current_directory self.now }
        ensures there { IsSome (slot self.now.tree.files result) }
        ensures rules { KeepsTree self.now.tree.files }
    {
        self.is_sound();
        match self.table.process(self.current()) {
            Some(process) => process.directory as usize,
            None => 0,
        }
    }

    /// The number that a path reaches from the directory that the running process works in.
    #[inline]
    pub fn resolve(&mut self, path: &[u8]) -> Result<Option<usize>, DeviceFault>
        requires running { HasCurrent self.old }
        requires up { self.old.tree.failed ≡ false }
        ensures { ReadsDisk self.old self.new
            (λ number. number ≡ find self.old.tree.files (current_directory self.old) path.now) result }
    {
        let directory = self.home();
        self.tree.resolve(directory, path)
    }

    /// Type, major number, number of links and size of a node.
    #[inline]
    pub fn stat(&mut self, number: usize) -> Result<InodeStat, DeviceFault>
        requires up { self.old.tree.failed ≡ false }
        requires node { (node : Node) × (slot self.old.tree.files number ≡ Some node) }
        ensures { ReadsDisk self.old self.new
            (λ told. (node : Node) → slot self.old.tree.files number ≡ Some node → Tells told node) result }
    {
        self.tree.stat(number)
    }

    /// Type, major number, number of links and size of the node with a number; `None` where there is none.
    #[inline]
    pub fn look(&mut self, number: usize) -> Result<Option<InodeStat>, DeviceFault>
        requires { self.old.tree.failed ≡ false }
        ensures { ReadsDisk self.old self.new (λ told. TellsAny told (slot self.old.tree.files number)) result }
    {
        self.tree.look(number)
    }

    /// The minor number of a node; 0 where it is no device.
    #[inline]
    pub fn minor(&mut self, number: usize) -> Result<u16, DeviceFault>
        requires up { self.old.tree.failed ≡ false }
        requires node { (node : Node) × (slot self.old.tree.files number ≡ Some node) }
        ensures { ReadsDisk self.old self.new
            (λ minor. (node : Node) → slot self.old.tree.files number ≡ Some node → minor ≡ minor_of node) result }
    {
        self.tree.minor(number)
    }

    /// How many numbers of nodes the disk has.
    #[inline]
    pub fn numbers(&self) -> usize
        requires { self.now.tree.failed ≡ false }
        ensures { result ≡ length self.now.tree.files }
    {
        self.tree.numbers()
    }

    /// Whether another kernel has as many frames, and a disk of as many blocks, as many of them for data.
    #[inline]
    pub fn is_as_large<E: BlockDev, U: Translate>(&self, other: &Kernel<E, U>) -> bool
        ensures frames { OnTrue result (self.now.spaces.frames ≡ other.now.spaces.frames) }
        ensures blocks { OnTrue result (self.now.tree.block_limit ≡ other.now.tree.block_limit) }
    {
        self.spaces.frame_count() == other.spaces.frame_count()
            && self.tree.is_as_large(&other.tree)
    }

    /// Reads bytes of the node with any number from offset `from` on, as many as there are, and returns how many: none
    /// of a device, and none where there is no node.
    #[inline]
    pub fn read_any(
        &mut self,
        number: usize,
        from: usize,
        out: &mut [u8],
    ) -> Result<usize, DeviceFault>
        requires { self.old.tree.failed ≡ false }
        ensures { ReadsDisk self.old self.new
            (IsPart (bytes_or_none (slot self.old.tree.files number)) from out.old out.new) result }
    {
        self.tree.read_any(number, from, out)
    }

    /// Makes a file or a device with the lowest free number and a name for it, and returns the number.
    #[inline]
    pub fn create(&mut self, path: &[u8], leaf: Leaf) -> Result<usize, TreeFault>
        requires running { HasCurrent self.old }
        requires up { self.old.tree.failed ≡ false }
        requires path { All (λ b. b ≢ 0) path.now }
        ensures made { MakesNode self.old.tree self.new.tree (current_directory self.old) path.now (leaf_node leaf)
            result }
        ensures rest { self.new ≡ with_tree self.old self.new.tree }
    {
        let directory = self.home();
        let made = self.tree.create(directory, path, leaf);
        is_done(&self.tree, &made);
        made
    }

    /// Makes a directory with the lowest free number, and a name for it.
    #[inline]
    pub fn create_directory(&mut self, path: &[u8]) -> Result<(), TreeFault>
        requires running { HasCurrent self.old }
        requires up { self.old.tree.failed ≡ false }
        requires path { All (λ b. b ≢ 0) path.now }
        ensures made { MakesDirectory self.old.tree self.new.tree (current_directory self.old) path.now result }
        ensures rest { self.new ≡ with_tree self.old self.new.tree }
    {
        let directory = self.home();
        let made = self.tree.create_directory(directory, path);
        is_done(&self.tree, &made);
        made
    }

    /// Adds a name for a file or a device.
    #[inline]
    pub fn link(&mut self, old: &[u8], new: &[u8]) -> Result<(), TreeFault>
        requires running { HasCurrent self.old }
        requires up { self.old.tree.failed ≡ false }
        requires path { All (λ b. b ≢ 0) new.now }
        ensures made { MakesLink self.old.tree self.new.tree (current_directory self.old) old.now new.now result }
        ensures rest { self.new ≡ with_tree self.old self.new.tree }
    {
        let directory = self.home();
        let made = self.tree.link(directory, old, new);
        is_done(&self.tree, &made);
        made
    }

    /// Removes a name, and its node too where that has no links any more and nobody holds it.
    #[inline]
    pub fn unlink(&mut self, path: &[u8]) -> Result<(), TreeFault>
        requires running { HasCurrent self.old }
        requires up { self.old.tree.failed ≡ false }
        ensures made { TakesName self.old.tree self.new.tree (current_directory self.old) path.now result }
        ensures rest { self.new ≡ with_tree self.old self.new.tree }
    {
        let directory = self.home();
        let made = self.tree.unlink(directory, path);
        is_done(&self.tree, &made);
        made
    }

    /// Empties a file. Leaves a device or a directory as it is.
    #[inline]
    pub fn truncate(&mut self, number: usize) -> Result<(), DeviceFault>
        requires up { self.old.tree.failed ≡ false }
        requires node { slot self.old.tree.files number ≢ None }
        ensures { FilesDisk self.old self.new (change_node self.old.tree.files number emptied) result }
    {
        let done = self.tree.truncate(number);
        is_done(&self.tree, &done);
        done
    }
}
