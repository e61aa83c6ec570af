//! Nodes and their names are put among files.

ghost use Rattle.std.specs.Prelude.{◌≡◌, ◌≢◌, ◌≤◌, IsTrue, None, Some, [], false, length};
ghost use Rattle.tree.specs.Entering.{fresh, room_in};
ghost use Rattle.tree.specs.Steps.{IsUnnamed, Turns};
ghost use Rattle.tree.specs.Tree.{Looks};
ghost use Rattle.unixmodel.specs.Files.{free_slots, slot};
ghost use Rattle.unixmodel.specs.Files.Node.{Directory, File};
ghost use Rattle.unixmodel.specs.Manifest.{bare_directory, bare_files, node_for};
ghost use Rattle.unixmodel.specs.Image.{is_name};
ghost use Rattle.imagemake.specs.Added.{CanAdd, HasDirectory, Puts, PutsName, Stores};
ghost use Rattle.imagemake.specs.Making.{thing_of};
ghost use Rattle.imagemake.specs.Nodes.{bare};

use crate::manifest::Thing;
use blockdev::{BlockDev, DeviceFault};
use layout::{Kind, LONGEST};
use thiserror::Error;
use tree::{Gap, Tree};

/// Why nothing more is stored.
#[derive(Clone, Copy, Debug, Error)]
pub enum StoreFault {
    /// A file or a directory would be too long, or the blocks don't suffice.
    #[error("a file or a directory is too long, or the blocks don't suffice")]
    Blocks,
    /// A device access failed.
    #[error("a device access failed")]
    Device,
}

impl From<DeviceFault> for StoreFault {
    ghost use Rattle.std.specs.Prelude.{◌≡◌};
    ghost use Rattle.imagemake.specs.declared.store.StoreFault.TheVariants.{Device};

    ghost from_gives = { λ _ fault. fault ≡ Device };

    fn from(_fault: DeviceFault) -> StoreFault {
        StoreFault::Device
    }
}

/// Stores the root, where there are no files yet.
pub fn store_root<D: BlockDev>(tree: &mut Tree<D>) -> Result<(), DeviceFault>
    requires up { tree.old.failed ≡ false }
    requires none { tree.old.files ≡ free_slots (length tree.old.files) }
    requires some { 2 ≤ length tree.old.files }
    requires block { 1 ≤ tree.old.block_limit }
    ensures { Turns tree.old tree.new result (bare_files (length tree.old.files)) }
{
    tree.take_node_at(1, Kind::Directory)?;
    tree.put_dots(1, 1)
}

/// Stores an entry of a directory: a thing that gets this number, and its name.
pub fn store_entry<D: BlockDev>(
    tree: &mut Tree<D>,
    directory: usize,
    name: &[u8],
    number: usize,
    thing: &Thing,
) -> Result<(), StoreFault>
    requires up { tree.old.failed ≡ false }
    requires able { CanAdd tree.old.files directory name.now number }
    ensures { Stores tree.old tree.new directory name.now number (thing_of thing.now) result }
{
    store_node(tree, directory, number, thing)?;
    store_name(tree, directory, name, number, thing)?;
    tree.is_whole();
    Ok(())
}

// Stores a thing without its name; `directory` is the one that is to hold it.
fn store_node<D: BlockDev>(
    tree: &mut Tree<D>,
    directory: usize,
    number: usize,
    thing: &Thing,
) -> Result<(), StoreFault>
    requires up { tree.old.failed ≡ false }
    requires number { IsUnnamed tree.old.files number }
    requires directory { slot tree.old.files directory ≢ None }
    ensures { Puts tree.old tree.new number (node_for number directory (thing_of thing.now)) result }
{
    tree.take_node_at(number, kind(thing))?;
    match thing {
        Thing::Directory => put_dots(tree, number, directory),
        Thing::File(bytes) => put_bytes(tree, number, bytes),
        Thing::Device { .. } => Ok(()),
    }
}

// A directory without entries gets its first two.
fn put_dots<D: BlockDev>(
    tree: &mut Tree<D>,
    number: usize,
    directory: usize,
) -> Result<(), StoreFault>
    requires up { tree.old.failed ≡ false }
    requires bare { slot tree.old.files number ≡ Some (Directory 1 []) }
    requires directory { slot tree.old.files directory ≢ None }
    ensures { Puts tree.old tree.new number (bare_directory number directory) result }
{
    if !tree.has_blocks(1)? {
        return Err(StoreFault::Blocks);
    }
    tree.put_dots(number, directory)?;
    Ok(())
}

// A file without bytes gets all of these.
fn put_bytes<D: BlockDev>(tree: &mut Tree<D>, number: usize, bytes: &[u8]) -> Result<(), StoreFault>
    requires up { tree.old.failed ≡ false }
    requires bare { slot tree.old.files number ≡ Some (File 1 []) }
    ensures { Puts tree.old tree.new number (File 1 bytes.now) result }
{
    let Some(count) = tree.write(number, 0, bytes)? else {
        return Err(StoreFault::Blocks);
    };
    if count < bytes.len() {
        return Err(StoreFault::Blocks);
    }
    Ok(())
}

// The index after the last entry of a directory, unless it is full.
fn last_place<D: BlockDev>(
    tree: &mut Tree<D>,
    directory: usize,
) -> Result<Option<usize>, DeviceFault>
    requires up { tree.old.failed ≡ false }
    requires able { HasDirectory tree.old.files directory }
    ensures { Looks tree.old tree.new result
        (λ place. (h : HasDirectory tree.old.files directory) → place ≡ room_in h.places) }
{
    let node = tree.stat(directory)?;
    let place = node.size as usize / 16;
    if place >= LONGEST / 16 {
        return Ok(None);
    }
    Ok(Some(place))
}

// Puts a thing's name at the end of a directory, and the link that a directory's ".." is.
fn store_name<D: BlockDev>(
    tree: &mut Tree<D>,
    directory: usize,
    name: &[u8],
    number: usize,
    thing: &Thing,
) -> Result<(), StoreFault>
    requires up { tree.old.failed ≡ false }
    requires able { HasDirectory tree.old.files directory }
    requires name { IsTrue (is_name name.now) }
    requires number { slot tree.old.files number ≢ None }
    ensures { PutsName tree.old tree.new directory (record { name = name.now; number = number }) (thing_of thing.now)
        result }
{
    let Some(place) = last_place(tree, directory)? else {
        return Err(StoreFault::Blocks);
    };
    if !tree.has_room(directory, place, 0)? {
        return Err(StoreFault::Blocks);
    }
    let gap = Gap {
        directory,
        name,
        place,
    };
    tree.put_entry(&gap, number)?;
    if !thing.is_directory() {
        return Ok(());
    }
    tree.add_link(directory)?;
    Ok(())
}

// The kind of the inode that a thing has.
fn kind(thing: &Thing) -> Kind
    ensures { fresh result ≡ Some (bare (thing_of thing.now)) }
{
    match thing {
        Thing::Directory => Kind::Directory,
        Thing::File(_) => Kind::File,
        Thing::Device { major, minor } => Kind::Device {
            major: *major,
            minor: *minor,
        },
    }
}
