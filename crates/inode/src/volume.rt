//! A disk with files, by the numbers of their inodes.

ghost use Rattle.std.specs.Prelude.{◌≡◌, ◌≢◌, ◌+◌, ◌<◌, ◌≤◌, IfOk, IsSome, None, OnOk, false, length, nat_le};
ghost use Rattle.std.specs.Prelude.{slice_set, take, IsTrue, ◌↔◌};
ghost use Rattle.std.specs.Bool.{OnTrue, OnFalse};
ghost use Rattle.inode.specs.Looking.{IsTold, TellsAny};
ghost use Rattle.inode.specs.Reading.{IsReadInto};
ghost use Rattle.inode.specs.Store.{Changes, Flushed, HasLinks, IsCopy, IsEmptied, IsWhole, LacksWriting, Looks};
ghost use Rattle.inode.specs.Store.{Serves};
ghost use Rattle.inode.specs.Store.{TakesLowest, Tries, Writes, WritesFrom, is_device, raw_at, store_over};
ghost use Rattle.balloc.specs.Inodes.{fresh_node};
ghost use Rattle.layout.specs.Kinds.{kind_minor};
ghost use Rattle.layout.specs.Sound.{IsSound};
ghost use Rattle.unixmodel.specs.Files.{slot};

use crate::empty::truncate;
use crate::read::{look, minor, read_at, stat};
use crate::write::{Outcome, set_links, write_at};
use crate::{InodeFault, InodeStat};
use balloc::{give_inode, has_blocks, take_inode, take_inode_at};
use blockdev::{BlockDev, DeviceFault, Duplicate};
use cache::Cache;
use layout::{Geometry, Kind};
use std::alloc::{AllocError, Global};
use std::marker::Model;

/// A disk with files. Once an access of the device has failed nothing is promised of them any more.
#[derive(Drop)]
pub struct Volume<D: BlockDev> {
    disk: Cache<D>,
    geometry: Geometry,
    failed: bool,
}

impl<D: BlockDev> Model for Volume<D> {
    ghost use Rattle.inode.specs.Store.{Store};

    ghost Value = { Store D };

    ghost use Rattle.inode.specs.Store.{IsInside, store_of};

    ghost view = { store_of };

    ghost invariant = { IsInside };
}

impl<D: BlockDev> Volume<D> {
    /// The files of a sound disk of this geometry.
    pub fn new(disk: Cache<D>, geometry: Geometry) -> Volume<D>
        requires { IsSound geometry disk.blocks }
        ensures { result ≡ store_over geometry disk false }
    {
        Volume {
            disk,
            geometry,
            failed: false,
        }
    }

    /// The numbers of the disk.
    pub fn geometry(&self) -> Geometry
        ensures { result ≡ self.now.geometry }
    {
        self.geometry
    }

    /// The device below, which counts its failures.
    pub fn device(&self) -> &D
        ensures device { result.now ≡ self.now.device }
        ensures failures { D.failures result.now ≡ self.now.failures }
    {
        self.disk.device()
    }

    /// A law: what the nodes of every disk keep, while no access of the device has failed. It runs no code.
    #[inline]
    pub fn is_whole(&self)
        requires { self.now.failed ≡ false }
        ensures { IsWhole self.now }
    {
        let _failed = self.failed;
    }

    /// Flushes pending writes, and gives up the files for their device. Where an access fails, the content of the
    /// device is not known.
    pub fn into_device(self) -> (D, Result<(), DeviceFault>)
        requires up { self.failed ≡ false }
        ensures { Flushed D.content D.failures D.identity self result.0 result.1 }
    {
        let Volume { mut disk, .. } = self;
        let flushed = disk.flush();
        (disk.into_device(), flushed)
    }

    /// Type, major number, number of links and size of the node with a number; `None` where there is none.
    pub fn look(&mut self, number: usize) -> Result<Option<InodeStat>, DeviceFault>
        requires up { self.old.failed ≡ false }
        ensures { Looks D.identity self.old self.new result (TellsAny (slot self.old.nodes number)) }
    {
        let result = look(&mut self.disk, self.geometry, number);
        self.failed = result.is_err();
        result
    }

    /// Type, major number, number of links and size of a node.
    pub fn stat(&mut self, number: usize) -> Result<InodeStat, DeviceFault>
        requires up { self.old.failed ≡ false }
        requires node { IsSome (slot self.old.nodes number) }
        ensures { Looks D.identity self.old self.new result (IsTold (raw_at self.old.nodes number)) }
    {
        let result = stat(&mut self.disk, self.geometry, number);
        self.failed = result.is_err();
        result
    }

    /// The minor number of a node; 0 where it is no device.
    pub fn minor(&mut self, number: usize) -> Result<u16, DeviceFault>
        requires up { self.old.failed ≡ false }
        requires node { IsSome (slot self.old.nodes number) }
        ensures { Looks D.identity self.old self.new result
            (λ minor. minor ≡ kind_minor (raw_at self.old.nodes number).kind) }
    {
        let result = minor(&mut self.disk, self.geometry, number);
        self.failed = result.is_err();
        result
    }

    /// Reads bytes of a node from offset `at` on into `out`, as many as there are, and returns how many.
    pub fn read_at(
        &mut self,
        number: usize,
        at: usize,
        out: &mut [u8],
    ) -> Result<usize, DeviceFault>
        requires up { self.old.failed ≡ false }
        requires node { IsSome (slot self.old.nodes number) }
        ensures { Looks D.identity self.old self.new result
            (IsReadInto (raw_at self.old.nodes number).bytes at out.old out.new) }
    {
        let result = read_at(&mut self.disk, self.geometry, number, at, out);
        self.failed = result.is_err();
        result
    }

    /// Whether at least `wanted` data blocks are free.
    pub fn has_blocks(&mut self, wanted: usize) -> Result<bool, DeviceFault>
        requires up { self.old.failed ≡ false }
        ensures { Looks D.identity self.old self.new result (λ enough. enough ≡ nat_le wanted self.old.free) }
    {
        let result = has_blocks(&mut self.disk, self.geometry, wanted);
        self.failed = result.is_err();
        result
    }

    /// Writes bytes of a node from offset `at` on. Returns `PastEnd` exactly where `at` is past its end, and else
    /// `TooLong` exactly where it would have more than `LONGEST` bytes. `Blocks` says how many bytes are written: the
    /// next one needs more blocks than are free.
    pub fn write_at(&mut self, number: usize, at: usize, bytes: &[u8]) -> Result<(), InodeFault>
        requires up { self.old.failed ≡ false }
        requires node { IsSome (slot self.old.nodes number) }
        ensures { Serves D.identity is_device self.old self.new result
            (λ _. Writes self.old self.new number at bytes.now) (LacksWriting self.old self.new number at bytes.now) }
    {
        let written = match self.try_writing(number, at, bytes)? {
            Outcome::PastEnd => return Err(InodeFault::PastEnd),
            Outcome::TooLong => return Err(InodeFault::TooLong),
            Outcome::Written(written) => written,
        };
        if written < bytes.len() {
            return Err(InodeFault::Blocks { written });
        }
        Ok(())
    }

    // Writes bytes of a node from offset `at` on, as many as there are blocks for, and returns the outcome.
    fn try_writing(
        &mut self,
        number: usize,
        at: usize,
        bytes: &[u8],
    ) -> Result<Outcome, DeviceFault>
        requires up { self.old.failed ≡ false }
        requires node { IsSome (slot self.old.nodes number) }
        ensures { Tries D.identity self.old self.new result (WritesFrom self.old self.new number at bytes.now) }
    {
        let result = write_at(&mut self.disk, self.geometry, number, at, bytes);
        self.failed = result.is_err();
        result
    }

    /// A node loses all its bytes, and gives back its blocks.
    pub fn truncate(&mut self, number: usize) -> Result<(), DeviceFault>
        requires up { self.old.failed ≡ false }
        requires node { IsSome (slot self.old.nodes number) }
        ensures { Tries D.identity self.old self.new result (λ _. IsEmptied self.old self.new number) }
    {
        let result = truncate(&mut self.disk, self.geometry, number);
        self.failed = result.is_err();
        result
    }

    /// Sets the number of names of a node.
    pub fn set_links(&mut self, number: usize, links: u16) -> Result<(), DeviceFault>
        requires up { self.old.failed ≡ false }
        requires node { IsSome (slot self.old.nodes number) }
        ensures { Tries D.identity self.old self.new result (λ _. HasLinks self.old self.new number links) }
    {
        let result = set_links(&mut self.disk, self.geometry, number, links);
        self.failed = result.is_err();
        result
    }

    /// Takes the lowest free number for a node without bytes of this kind and number of links. Returns `None` exactly
    /// where none is free, and nothing is changed then.
    pub fn take(&mut self, kind: Kind, links: u16) -> Result<Option<usize>, DeviceFault>
        requires up { self.old.failed ≡ false }
        ensures { Tries D.identity self.old self.new result (TakesLowest self.old self.new kind links) }
    {
        let result = take_inode(&mut self.disk, self.geometry, kind, links);
        self.failed = result.is_err();
        result
    }

    /// Takes a number that is known to be free, for a node without bytes of this kind and number of links.
    pub fn take_at(&mut self, number: usize, kind: Kind, links: u16) -> Result<(), DeviceFault>
        requires up { self.old.failed ≡ false }
        requires low { 1 ≤ number }
        requires high { number < self.old.geometry.inodes }
        requires free { slot self.old.nodes number ≡ None }
        ensures { Tries D.identity self.old self.new result
            (λ _. Changes self.old self.new number (fresh_node kind links)) }
    {
        let result = take_inode_at(&mut self.disk, self.geometry, number, kind, links);
        self.failed = result.is_err();
        result
    }

    /// A node goes with its blocks: its number is free then.
    pub fn release(&mut self, number: usize) -> Result<(), DeviceFault>
        requires up { self.old.failed ≡ false }
        requires node { IsSome (slot self.old.nodes number) }
        ensures { Tries D.identity self.old self.new result (λ _. Changes self.old self.new number None) }
    {
        self.truncate(number)?;
        self.give(number)
    }

    // A number whose node has no bytes becomes free.
    fn give(&mut self, number: usize) -> Result<(), DeviceFault>
        requires up { self.old.failed ≡ false }
        requires node { IsSome (slot self.old.nodes number) }
        requires empty { length (raw_at self.old.nodes number).bytes ≡ 0 }
        ensures { Tries D.identity self.old self.new result (λ _. Changes self.old self.new number None) }
    {
        let result = give_inode(&mut self.disk, self.geometry, number);
        self.failed = result.is_err();
        result
    }
}

impl<D: Duplicate> Volume<D> {
    /// The same files over a duplicate of the disk. It asks for host memory for all of it.
    pub fn duplicate(&self, alloc: Global) -> Result<Volume<D>, AllocError>
        ensures { IfOk result (λ volume. volume ≡ self.now) }
    {
        Ok(Volume {
            disk: self.disk.duplicate(alloc)?,
            geometry: self.geometry,
            failed: self.failed,
        })
    }

    /// Becomes the same files over a copy of the disk, in the memory that it has: it asks the host for none. False, and
    /// nothing changed, exactly where the two devices can't have the same state.
    pub fn copy_from(&mut self, source: &Volume<D>) -> bool
        ensures fits { IsTrue result ↔ (D.identity self.old.device ≡ D.identity source.now.device) }
        ensures copied { OnTrue result (IsCopy D.identity source.now self.new) }
        ensures same { OnFalse result (self.new ≡ self.old) }
    {
        if !self.disk.copy_from(&source.disk) {
            return false;
        }
        self.geometry = source.geometry;
        self.failed = source.failed;
        true
    }
}
