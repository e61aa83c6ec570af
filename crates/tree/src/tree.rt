//! A file system in use.

ghost use Rattle.std.specs.Prelude.{◌≡◌, ◌≢◌, ℕ, ◌+◌, ◌-◌, ◌<◌, ◌≤◌, List, Option, Some, None, IfOk, OnOk, false};
ghost use Rattle.std.specs.Prelude.{length, nat_le, replicate, slice_set, IsTrue, ◌↔◌};
ghost use Rattle.std.specs.Bool.{OnTrue, OnFalse};
ghost use Rattle.inode.specs.Store.{Store};
ghost use Rattle.tree.specs.Stored.{IsFileSystem, IsStored};
ghost use Rattle.tree.specs.Holding.{holders, with_hold, without_hold};
ghost use Rattle.tree.specs.Entering.{fresh};
ghost use Rattle.tree.specs.Steps.{IsUnnamed, Reads, Rewrites, TakesNode, Tries, Turns};
ghost use Rattle.tree.specs.Telling.{Tells, TellsAny, minor_of};
ghost use Rattle.tree.specs.Tree.{HasRoomFor, IsAsLarge, Looks, Serves, tree_over};
ghost use Rattle.tree.specs.Whole.{IsWhole};
ghost use Rattle.tree.specs.Written.{IsFile, written};
ghost use Rattle.unixmodel.specs.Counts.{blocks_of};
ghost use Rattle.unixmodel.specs.Failures.{HasCause};
ghost use Rattle.unixmodel.specs.Files.{Entry, Node, change_node, clear, slot, with_links};
ghost use Rattle.unixmodel.specs.Shown.{bytes_or_none};
ghost use Rattle.tree.specs.Calls.{HasNoBytes, HasPlaces, IsPart, IsPartOf, WritesAt};

use blockdev::{BlockDev, DeviceFault, Duplicate};
use inode::{InodeFault, InodeStat, Volume};
use layout::Kind;
use std::alloc::{AllocError, Global};
use std::marker::Model;

/// The files of a volume. Once an access of the device has failed nothing is promised of the files any more.
#[derive(Drop)]
pub struct Tree<D: BlockDev> {
    volume: Volume<D>,
    // how many open files and working directories hold each node
    holds: Vec<u16>,
}

impl<D: BlockDev> Model for Tree<D> {
    ghost use Rattle.tree.specs.Tree.{FileTree};

    ghost Value = { FileTree };

    ghost use Rattle.tree.specs.Tree.{IsInside, tree_of};

    ghost view = { tree_of D.identity };

    ghost invariant = { IsInside };
}

impl<D: BlockDev> Tree<D> {
    /// The files that a volume holds, of which nobody holds any. It is the only call that asks for host memory.
    pub fn new(alloc: Global, volume: Volume<D>) -> Result<Tree<D>, AllocError>
        requires { IsFileSystem volume }
        ensures { IfOk result (λ tree. tree ≡ tree_over D.identity volume) }
    {
        let inodes = volume.geometry().inodes;
        Ok(Tree {
            volume,
            holds: vec![in alloc; 0; inodes]?,
        })
    }

    /// The device below, which counts its failures.
    pub fn device(&self) -> &D
        ensures failures { D.failures result.now ≡ self.now.failures }
        ensures identity { D.identity result.now ≡ self.now.identity }
    {
        self.volume.device()
    }

    /// A law: what the files of every disk keep, while no access of the device has failed. It runs no code.
    #[inline]
    pub fn is_whole(&self)
        requires { self.now.failed ≡ false }
        ensures { IsWhole self.now }
    {
        let _holds = self.holds.len();
    }

    /// Flushes pending writes, and gives up the files for their device. Where an access fails, the content of the
    /// device is not known.
    pub fn into_device(self) -> (D, Result<(), DeviceFault>)
        requires up { self.failed ≡ false }
        ensures stored { OnOk result.1 (IsStored self.size (D.content result.0) self.files) }
        ensures identity { D.identity result.0 ≡ self.identity }
        ensures cause { HasCause self.failures (D.failures result.0) result.1 }
    {
        let Tree { volume, .. } = self;
        volume.into_device()
    }

    /// Reads bytes of a node from offset `at` on, as many as there are, and returns how many.
    pub fn read(&mut self, number: usize, at: usize, out: &mut [u8]) -> Result<usize, DeviceFault>
        requires up { self.old.failed ≡ false }
        requires node { (node : Node) × (slot self.old.files number ≡ Some node) }
        ensures { Looks self.old self.new result (IsPartOf self.old.files number at out.old out.new) }
    {
        self.bytes(number, at, out)
    }

    /// Reads bytes of the node with any number from offset `at` on, as many as there are, and returns how many: none of
    /// a device, and none where there is no node.
    pub fn read_any(
        &mut self,
        number: usize,
        at: usize,
        out: &mut [u8],
    ) -> Result<usize, DeviceFault>
        requires up { self.old.failed ≡ false }
        ensures { Looks self.old self.new result
            (IsPart (bytes_or_none (slot self.old.files number)) at out.old out.new) }
    {
        if self.look(number)?.is_none() {
            return Ok(0);
        }
        self.read(number, at, out)
    }

    /// Writes bytes into a file from offset `at` on, as many as there are blocks for, and returns how many. `None`: the
    /// offset lies past the file's end, or the file would be longer than `layout::LONGEST`; nothing is
    /// written then.
    pub fn write(
        &mut self,
        number: usize,
        at: usize,
        bytes: &[u8],
    ) -> Result<Option<usize>, DeviceFault>
        requires up { self.old.failed ≡ false }
        requires file { IsFile self.old.files number }
        ensures { Serves self.old self.new result (WritesAt self.old self.new number at bytes.now) }
    {
        match self.volume.write_at(number, at, bytes) {
            Ok(()) => Ok(Some(bytes.len())),
            Err(InodeFault::Blocks { written }) => Ok(Some(written)),
            Err(InodeFault::PastEnd) => Ok(None),
            Err(InodeFault::TooLong) => Ok(None),
            Err(InodeFault::Device) => Err(DeviceFault),
        }
    }

    /// Type, major number, number of links and size of the node with any number; `None` where there is none.
    pub fn look(&mut self, number: usize) -> Result<Option<InodeStat>, DeviceFault>
        requires up { self.old.failed ≡ false }
        ensures { Looks self.old self.new result (λ told. TellsAny told (slot self.old.files number)) }
    {
        self.volume.look(number)
    }

    /// Type, major number, number of links and size of a node.
    pub fn stat(&mut self, number: usize) -> Result<InodeStat, DeviceFault>
        requires up { self.old.failed ≡ false }
        requires node { (node : Node) × (slot self.old.files number ≡ Some node) }
        ensures { Looks self.old self.new result
            (λ s. (node : Node) → slot self.old.files number ≡ Some node → Tells s node) }
    {
        self.node(number)
    }

    /// The minor number of a node; 0 where it is no device.
    pub fn minor(&mut self, number: usize) -> Result<u16, DeviceFault>
        requires up { self.old.failed ≡ false }
        requires node { (node : Node) × (slot self.old.files number ≡ Some node) }
        ensures { Looks self.old self.new result
            (λ minor. (node : Node) → slot self.old.files number ≡ Some node → minor ≡ minor_of node) }
    {
        self.volume.minor(number)
    }

    /// Whether another disk has as many blocks, and as many of them for data.
    pub fn is_as_large<E: BlockDev>(&self, other: &Tree<E>) -> bool
        ensures size { OnTrue result (self.now.size ≡ other.now.size) }
        ensures limit { OnTrue result (self.now.block_limit ≡ other.now.block_limit) }
    {
        let own = self.volume.geometry();
        let their = other.volume.geometry();
        own.size == their.size && own.inodes == their.inodes
    }

    /// One more open file or working directory holds a node: it stays until that lets go, also where its last name
    /// goes.
    pub fn hold(&mut self, number: usize)
        requires up { self.old.failed ≡ false }
        requires node { slot self.old.files number ≢ None }
        requires few { holders self.old.holds number < 65535 }
        ensures { self.new ≡ record self.old { holds = with_hold self.old.holds number } }
    {
        self.holds[number] += 1;
    }

    // ---- steps of this crate's calls

    // Does what `stat` does.
    pub(crate) fn node(&mut self, number: usize) -> Result<InodeStat, DeviceFault>
        requires up { self.old.failed ≡ false }
        requires node { (node : Node) × (slot self.old.files number ≡ Some node) }
        ensures { Reads self.old self.new result
            (λ s. (node : Node) → slot self.old.files number ≡ Some node → Tells s node) }
    {
        self.volume.stat(number)
    }

    // Does what `read` does.
    pub(crate) fn bytes(
        &mut self,
        number: usize,
        at: usize,
        out: &mut [u8],
    ) -> Result<usize, DeviceFault>
        requires up { self.old.failed ≡ false }
        requires node { (node : Node) × (slot self.old.files number ≡ Some node) }
        ensures { Reads self.old self.new result (IsPartOf self.old.files number at out.old out.new) }
    {
        self.volume.read_at(number, at, out)
    }

    /// Whether there are `wanted` blocks beside those that the files take.
    pub fn has_blocks(&mut self, wanted: usize) -> Result<bool, DeviceFault>
        requires up { self.old.failed ≡ false }
        ensures { Reads self.old self.new result
            (λ enough. enough ≡ nat_le (blocks_of self.old.files + wanted) self.old.block_limit) }
    {
        self.volume.has_blocks(wanted)
    }

    // Writes slots of a directory.
    pub(crate) fn rewrite(
        &mut self,
        directory: usize,
        at: usize,
        bytes: &[u8],
    ) -> Result<(), DeviceFault>
        requires up { self.old.failed ≡ false }
        requires able { (next : List (Option Entry)) × Rewrites self.old directory at bytes.now next }
        ensures { Tries self.old self.new result (λ _. HasPlaces self.old self.new directory at bytes.now) }
    {
        match self.volume.write_at(directory, at, bytes) {
            Ok(()) => Ok(()),
            Err(fault) => match fault {
                InodeFault::Device => Err(DeviceFault),
                _ => unreachable!(),
            },
        }
    }

    // Sets the number of links of a node.
    pub(crate) fn set_links(&mut self, number: usize, links: u16) -> Result<(), DeviceFault>
        requires up { self.old.failed ≡ false }
        requires node { slot self.old.files number ≢ None }
        ensures { Turns self.old self.new result (change_node self.old.files number (λ node. with_links node links)) }
    {
        self.volume.set_links(number, links)
    }

    // The lowest free number gets a node without bytes that has one link; `None` where no number is free.
    pub(crate) fn take_node(&mut self, kind: Kind) -> Result<Option<usize>, DeviceFault>
        requires up { self.old.failed ≡ false }
        ensures { Tries self.old self.new result (TakesNode self.old self.new kind) }
    {
        self.volume.take(kind, 1)
    }

    /// A number without a node gets a node without bytes that has one link.
    pub fn take_node_at(&mut self, number: usize, kind: Kind) -> Result<(), DeviceFault>
        requires up { self.old.failed ≡ false }
        requires number { IsUnnamed self.old.files number }
        ensures { Turns self.old self.new result (slice_set self.old.files number (fresh kind)) }
    {
        self.volume.take_at(number, kind, 1)
    }

    // A node goes with its blocks.
    pub(crate) fn release(&mut self, number: usize) -> Result<(), DeviceFault>
        requires up { self.old.failed ≡ false }
        requires node { slot self.old.files number ≢ None }
        ensures { Turns self.old self.new result (clear self.old.files number) }
    {
        self.volume.release(number)
    }

    // A file loses its bytes.
    pub(crate) fn empty(&mut self, number: usize) -> Result<(), DeviceFault>
        requires up { self.old.failed ≡ false }
        requires file { IsFile self.old.files number }
        ensures { Tries self.old self.new result (λ _. HasNoBytes self.old self.new number) }
    {
        self.volume.truncate(number)
    }

    // How many hold a node.
    pub(crate) fn holders(&self, number: usize) -> u16
        requires up { self.now.failed ≡ false }
        requires node { slot self.now.files number ≢ None }
        ensures { result ≡ holders self.now.holds number }
    {
        self.holds[number]
    }

    // One that held a node holds it no longer.
    pub(crate) fn unhold(&mut self, number: usize)
        requires up { self.old.failed ≡ false }
        requires node { slot self.old.files number ≢ None }
        requires some { 1 ≤ holders self.old.holds number }
        ensures { self.new ≡ record self.old { holds = without_hold self.old.holds number } }
    {
        self.holds[number] -= 1;
    }

    // Nobody holds any node any longer.
    pub(crate) fn unhold_all(&mut self)
        ensures { self.new ≡ record self.old { holds = replicate (length self.old.holds) 0 } }
    {
        self.holds.fill(0);
    }

    /// How many numbers there are.
    pub fn numbers(&self) -> usize
        requires { self.now.failed ≡ false }
        ensures { result ≡ length self.now.files }
    {
        self.holds.len()
    }
}

impl<D: Duplicate> Tree<D> {
    /// The same files over a duplicate of the disk, with the same holders. It asks for host memory for all of it.
    pub fn duplicate(&self, alloc: Global) -> Result<Tree<D>, AllocError>
        ensures { IfOk result (λ tree. tree ≡ self.now) }
    {
        Ok(Tree {
            volume: self.volume.duplicate(alloc)?,
            holds: Vec::from_slice(alloc, self.holds.as_slice())?,
        })
    }

    /// Becomes the same files over a copy of the disk, with the same holders, in the memory that it has: it asks the
    /// host for none. False, and nothing changed, exactly where the two devices can't have the same state, or differ in
    /// how many numbers of nodes they have.
    pub fn copy_from(&mut self, source: &Tree<D>) -> bool
        ensures fits { IsTrue result ↔ HasRoomFor source.now self.old }
        ensures large { IsAsLarge source.now self.old → IsTrue result }
        ensures copied { OnTrue result (self.new ≡ source.now) }
        ensures same { OnFalse result (self.new ≡ self.old) }
    {
        if self.holds.len() != source.holds.len() {
            return false;
        }
        if !self.volume.copy_from(&source.volume) {
            return false;
        }
        self.holds.copy_from_slice(source.holds.as_slice());
        true
    }
}
