//! The nodes of an old image are put on a new disk, by their numbers.

ghost use Rattle.std.specs.Prelude.{◌≡◌, ◌≢◌, ◌<◌, ◌≤◌, None};
ghost use Rattle.unixmodel.specs.Files.{Files, free_slots, slot};
ghost use Rattle.unixmodel.specs.Image.{DenotesSmall, kind_in};
ghost use Rattle.imagerules.specs.Fields.{HasGeometry};
ghost use Rattle.imagerules.specs.Places.{files_in};
ghost use Rattle.imagerules.specs.Rules.{BlockRules};
ghost use Rattle.migrate.specs.Copies.{Copies, CopiesNode, IsCopied};

use crate::MigrateFault;
use blockdev::BlockDev;
use imagecheck::{inode_kind, inode_links, read_contents};
use inode::Volume;
use layout::{Geometry, Kind};
use std::alloc::Global;

// Copies a node: its number is taken, and gets its bytes.
fn copy_node<D: BlockDev>(
    volume: &mut Volume<D>,
    geometry: Geometry,
    old: &[u8],
    n: usize,
    bytes: &mut Vec<u8>,
) -> Result<(), MigrateFault>
    requires geometry { HasGeometry old.now geometry }
    requires blocks { BlockRules old.now }
    requires low { 1 ≤ n }
    requires high { n < geometry.inodes }
    requires used { kind_in old.now n ≢ 0 }
    requires able { (now : Files) × Copies geometry volume.old now × (slot now n ≡ None) }
    ensures { CopiesNode geometry old.now volume.old volume.new n result }
{
    volume.take_at(n, inode_kind(old, n), inode_links(old, n))?;
    read_contents(old, geometry, n, bytes)?;
    volume.write_at(n, 0, bytes)?;
    Ok(())
}

// Puts all nodes of an old image on a disk that has none.
pub fn copy_nodes<D: BlockDev>(
    alloc: Global,
    volume: &mut Volume<D>,
    geometry: Geometry,
    old: &[u8],
) -> Result<(), MigrateFault>
    requires geometry { HasGeometry old.now geometry }
    requires source { DenotesSmall old.now (files_in old.now) }
    requires empty { Copies geometry volume.old (free_slots geometry.inodes) }
    ensures { IsCopied geometry volume.new (files_in old.now) result }
{
    let mut bytes = Vec::new(alloc);
    for n in 1..geometry.inodes {
        if !inode_kind(old, n).is_free() {
            copy_node(volume, geometry, old, n, &mut bytes)?;
        }
    }
    Ok(())
}
