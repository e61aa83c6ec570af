//! The entries of a directory.
ghost use Rattle.std.specs.Prelude.{◌≡◌, IfOk, OnOk, Some, false};
ghost use Rattle.imagerules.specs.Content.{image_of};
ghost use Rattle.image_files.specs.Listed.{IsAtRest, IsDirectoryOf, IsFolder};
ghost use Rattle.unixmodel.specs.Files.{find};

use blockdev::{BlockDev, DeviceFault};
use image::ImageFault;
use inode::InodeStat;
use layout::Entry;
use mount::mount;
use std::alloc::{AllocError, Global};
use std::io;
use std::io::Write;
use tree::{DIRECTORY, Tree, TreeFault};

/// The number of the root.
pub const ROOT: usize = 1;

/// How many bytes an entry has in its directory.
const ENTRY_SIZE: usize = 16;

/// Why a directory isn't listed.
#[derive(Clone, Copy)]
pub enum ListingFault {
    /// The image is refused.
    Image(ImageFault),
    /// The path is no directory's.
    Tree(TreeFault),
    /// The list isn't taken.
    Output,
    /// The host has no memory for a path.
    NoMemory,
}

impl From<ImageFault> for ListingFault {
    ghost use Rattle.std.specs.Prelude.{◌≡◌};
    ghost use Rattle.image_files.specs.declared.directory.ListingFault.TheVariants.{Image};

    ghost from_gives = { λ fault told. told ≡ Image fault };

    fn from(fault: ImageFault) -> ListingFault {
        ListingFault::Image(fault)
    }
}

impl From<TreeFault> for ListingFault {
    ghost use Rattle.std.specs.Prelude.{◌≡◌};
    ghost use Rattle.image_files.specs.declared.directory.ListingFault.TheVariants.{Tree};

    ghost from_gives = { λ fault told. told ≡ Tree fault };

    fn from(fault: TreeFault) -> ListingFault {
        ListingFault::Tree(fault)
    }
}

impl From<DeviceFault> for ListingFault {
    ghost use Rattle.std.specs.Prelude.{◌≡◌};
    ghost use Rattle.image_files.specs.declared.directory.ListingFault.TheVariants.{Tree};
    ghost use Rattle.tree.specs.declared.TreeFault.TheVariants.{Device};

    ghost from_gives = { λ _ told. told ≡ Tree Device };

    fn from(_fault: DeviceFault) -> ListingFault {
        ListingFault::Tree(TreeFault::Device)
    }
}

impl From<AllocError> for ListingFault {
    ghost use Rattle.std.specs.Prelude.{◌≡◌};
    ghost use Rattle.image_files.specs.declared.directory.ListingFault.TheVariants.{NoMemory};

    ghost from_gives = { λ _ told. told ≡ NoMemory };

    fn from(_failed: AllocError) -> ListingFault {
        ListingFault::NoMemory
    }
}

/// The directory that a path reaches from the root.
pub fn directory_at<D: BlockDev>(tree: &mut Tree<D>, path: &[u8]) -> Result<usize, TreeFault>
    requires { IsAtRest tree.old }
    ensures found { IfOk result (λ number. find tree.old.files 1 path.now ≡ Some number) }
    ensures same { OnOk result (tree.new.files ≡ tree.old.files) }
    ensures rests { OnOk result (IsAtRest tree.new) }
    ensures folder { IfOk result (IsFolder tree.new) }
{
    let Some(number) = tree.resolve(ROOT, path)? else {
        return Err(TreeFault::NotFound);
    };
    let node = tree.stat(number)?;
    if node.kind != DIRECTORY {
        return Err(TreeFault::NotDir);
    }
    Ok(number)
}

// Writes an entry's line: the name in 14 columns, the type, the number in 5 and the size in 6.
fn write_entry<W: Write>(entry: &Entry, node: InodeStat, out: &mut W) -> io::Result<()> {
    let mut line = [b' '; 14];
    for (place, letter) in line.iter_mut().zip(entry.name()) {
        *place = *letter;
    }
    let (kind, number, size) = (node.kind, entry.number, node.size);
    out.write_all(&line)?;
    writeln!(out, " {kind} {number:>5} {size:>6}")
}

/// How many entries a directory has, free ones too.
pub fn count_places<D: BlockDev>(tree: &mut Tree<D>, directory: usize) -> Result<usize, DeviceFault>
    requires { tree.old.failed ≡ false }
    ensures { OnOk result (tree.new.failed ≡ false) }
{
    match tree.look(directory)? {
        Some(node) => Ok(node.size as usize / ENTRY_SIZE),
        None => Ok(0),
    }
}

/// The entry at an index of a directory, if there is one.
pub fn entry_at<D: BlockDev>(
    tree: &mut Tree<D>,
    directory: usize,
    place: usize,
) -> Result<Option<Entry>, DeviceFault>
    requires { tree.old.failed ≡ false }
    ensures { OnOk result (tree.new.failed ≡ false) }
{
    let mut bytes = [0; ENTRY_SIZE];
    let _count = tree.read_any(directory, place.saturating_mul(ENTRY_SIZE), &mut bytes)?;
    let entry = Entry::from_front(&bytes);
    Ok((entry.number > 0).then_some(entry))
}

// Writes the line of an index of a directory, if it has an entry; in files at rest each entry names a node.
fn write_place<D: BlockDev, W: Write>(
    tree: &mut Tree<D>,
    directory: usize,
    place: usize,
    out: &mut W,
) -> Result<(), ListingFault>
    requires { tree.old.failed ≡ false }
    ensures { OnOk result (tree.new.failed ≡ false) }
{
    let Some(entry) = entry_at(tree, directory, place)? else {
        return Ok(());
    };
    let Some(node) = tree.look(usize::from(entry.number))? else {
        return Ok(());
    };
    match write_entry(&entry, node, out) {
        Ok(()) => Ok(()),
        Err(_) => Err(ListingFault::Output),
    }
}

/// Writes a line for each entry of a directory.
pub fn write_entries<D: BlockDev, W: Write>(
    tree: &mut Tree<D>,
    directory: usize,
    out: &mut W,
) -> Result<(), ListingFault>
    requires { tree.old.failed ≡ false }
    ensures { OnOk result (tree.new.failed ≡ false) }
{
    for place in 0..count_places(tree, directory)? {
        write_place(tree, directory, place, out)?;
    }
    Ok(())
}

/// Writes a line for each entry of the directory that a path reaches from the root of a disk, whose image is checked
/// first:
/// its name, its type, its number and its size.
pub fn write_directory<D: BlockDev + Drop, W: Write>(
    alloc: Global,
    disk: D,
    path: &[u8],
    out: &mut W,
) -> Result<(), ListingFault>
    ensures { OnOk result (IsDirectoryOf (image_of (D.content disk)) path.now) }
{
    let mut tree = mount(alloc, disk)?;
    let directory = directory_at(&mut tree, path)?;
    write_entries(&mut tree, directory, out)
}
