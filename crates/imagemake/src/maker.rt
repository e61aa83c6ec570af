//! An image that is made entry by entry, so that of their bytes no more is held than those of one.

ghost use Rattle.std.specs.Prelude.{◌≡◌, [], IfErr, IfOk};
ghost use Rattle.imagemake.specs.Makers.{Adds, HasEntries, IsMaking, IsImageOf, RefusesNext, RefusesNumbers};
ghost use Rattle.imagemake.specs.Making.{entry_at};

use crate::entry::add_entry;
use crate::made::Made;
use crate::manifest::{MakeFault, Thing};
use crate::store::store_root;
use crate::{blank, bytes_left, is_possible};
use blockdev::MemDisk;
use layout::Geometry;
use std::alloc::Global;
use tree::Tree;

/// An image in the making.
#[derive(Drop)]
pub struct Maker<'a> {
    tree: Tree<MemDisk>,
    made: Made<'a>,
}

impl<'a> Maker<'a> {
    /// An image of this size and count of inodes, which has no entries yet.
    pub fn new(alloc: Global, size: u32, inodes: u32) -> Result<Maker<'a>, MakeFault>
        ensures begun { IfOk result (HasEntries size inodes []) }
        ensures refused { IfErr result (RefusesNumbers size inodes) }
    {
        let geometry = Geometry {
            size: size as usize,
            inodes: inodes as usize,
        };
        if !is_possible(geometry) {
            return Err(MakeFault::Numbers);
        }
        let volume = blank(alloc, geometry)?;
        volume.is_whole();
        let mut tree = Tree::new(alloc, volume)?;
        let made = Made::with_capacity(alloc, geometry.inodes)?;
        let Ok(()) = store_root(&mut tree) else {
            return Err(MakeFault::NoMemory);
        };
        Ok(Maker { tree, made })
    }

    /// The image with an entry more: a thing at a path.
    pub fn with(self, path: &'a [u8], thing: &Thing) -> Result<Maker<'a>, MakeFault>
        requires { IsMaking self }
        ensures added { IfOk result (Adds self.entry (entry_at path.now thing.now)) }
        ensures refused { IfErr result (RefusesNext self.entry (entry_at path.now thing.now)) }
    {
        let Maker { mut tree, mut made } = self;
        add_entry(&mut tree, &mut made, path, thing)?;
        Ok(Maker { tree, made })
    }

    /// The bytes of the image. The fault is `NoMemory`.
    pub fn into_image(self) -> Result<Vec<u8>, MakeFault>
        requires { IsMaking self }
        ensures image { IfOk result (λ image. IsImageOf self.entry image.items) }
        ensures only { IfErr result (λ fault. fault ≡ MakeFault.NoMemory) }
    {
        let Maker { tree, .. } = self;
        let (device, flushed) = tree.into_device();
        bytes_left(device, flushed)
    }
}
