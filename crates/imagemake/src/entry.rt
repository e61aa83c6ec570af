//! The entries of a manifest are put among files, one after the other.

ghost use Rattle.std.specs.Prelude.{◌≡◌, ◌<◌, length, IfOk, IfErr, OnOk};
ghost use Rattle.unixmodel.specs.Manifest.{bare_files};
ghost use Rattle.imagemake.specs.Begins.{AddsEntry, BlamesDevice, CanBegin, IsMade, IsSpot, PutsEntries};
ghost use Rattle.imagemake.specs.Begins.{RefusesEntry, RefusesPath};
ghost use Rattle.imagemake.specs.Made.{HasRoom, LeadsTo};
ghost use Rattle.imagemake.specs.Making.{entry_at, meaning};

use crate::made::{Made, Spot};
use crate::manifest::{Entry, MakeFault, Thing};
use crate::path::is_path;
use crate::store::{StoreFault, store_entry};
use blockdev::BlockDev;
use tree::Tree;

impl From<StoreFault> for MakeFault {
    ghost use Rattle.std.specs.Prelude.{◌≡◌};
    ghost use Rattle.imagemake.specs.Begins.{make_fault};

    ghost from_gives = { λ fault told. told ≡ make_fault fault };

    fn from(fault: StoreFault) -> MakeFault {
        match fault {
            StoreFault::Blocks => MakeFault::Blocks,
            StoreFault::Device => MakeFault::NoMemory,
        }
    }
}

// The directory that is to hold a path's last name, above that name.
fn locate<'a>(made: &Made<'a>, path: &'a [u8]) -> Result<Spot<'a>, MakeFault>
    requires { length made.now.items < 65536 }
    ensures spot { IfOk result (λ spot. IsSpot made.now.items path.now spot.directory spot.below.now) }
    ensures leads { IfOk result (λ spot. LeadsTo made.now.items spot.above.now spot.directory) }
    ensures refused { IfErr result (λ fault. RefusesPath made.now.items path.now fault) }
    ensures memory { IfErr result (λ fault. fault ≡ MakeFault.NoMemory → ⊥) }
{
    if !is_path(path) {
        return Err(MakeFault::Name);
    }
    let Some(spot) = made.locate(path) else {
        return Err(MakeFault::Parent);
    };
    if !made.is_directory(spot.directory) {
        return Err(MakeFault::Parent);
    }
    if made.find(spot.directory, spot.below).is_some() {
        return Err(MakeFault::Twice);
    }
    Ok(spot)
}

/// Puts an entry among the files: a thing at a path.
pub fn add_entry<'a, D: BlockDev>(
    tree: &mut Tree<D>,
    made: &mut Made<'a>,
    path: &'a [u8],
    thing: &Thing,
) -> Result<(), MakeFault>
    requires made { IsMade tree.old made.old.items }
    requires room { HasRoom (length tree.old.files) made.old }
    ensures added { OnOk result
        (AddsEntry tree.old tree.new made.old.items made.new.items (entry_at path.now thing.now)) }
    ensures room { OnOk result (HasRoom (length tree.new.files) made.new) }
    ensures refused { IfErr result (RefusesEntry tree.old made.old.items (entry_at path.now thing.now)) }
    ensures cause { BlamesDevice tree.old.failures tree.new.failures result }
{
    tree.is_whole();
    let spot = locate(made, path)?;
    let number = made.len() + 2;
    if number >= tree.numbers() {
        return Err(MakeFault::Inodes);
    }
    store_entry(tree, spot.directory, spot.below, number, thing)?;
    made.push(spot, thing.is_directory());
    Ok(())
}

// Puts all entries among files that have the root alone.
pub fn add_entries<'a, D: BlockDev>(
    tree: &mut Tree<D>,
    made: &mut Made<'a>,
    entries: &'a [Entry],
) -> Result<(), MakeFault>
    requires able { CanBegin tree.old made.old }
    requires root { tree.old.files ≡ bare_files (length tree.old.files) }
    ensures { PutsEntries tree.old tree.new (meaning entries.now) result }
{
    for entry in entries {
        add_entry(tree, made, entry.path.as_slice(), &entry.thing)?;
    }
    Ok(())
}
