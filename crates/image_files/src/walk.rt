//! The entries of a directory, and of those below it.
ghost use Rattle.std.specs.Prelude.{◌≡◌, OnOk, false};
ghost use Rattle.imagerules.specs.Content.{image_of};
ghost use Rattle.image_files.specs.Listed.{IsDirectoryOf};

use crate::directory::{ListingFault, count_places, directory_at, entry_at, write_entries};
use blockdev::{BlockDev, DeviceFault};
use layout::Entry;
use mount::mount;
use std::alloc::{AllocError, Global};
use std::io;
use std::io::Write;
use tree::{DIRECTORY, Tree};

// A directory that is listed, and how far those in it are.
#[derive(Clone, Copy)]
struct Level {
    directory: usize,
    // The first entry that was not looked at.
    place: usize,
    // How many bytes its path has.
    length: usize,
}

// The way to a directory that is listed: its path, and the directories on it.
#[derive(Drop)]
struct Way {
    path: Vec<u8>,
    levels: Vec<Level>,
}

impl Way {
    // The way to a directory of this path.
    fn new(alloc: Global, path: &[u8], directory: usize) -> Result<Way, AllocError> {
        let mut levels = Vec::new(alloc);
        let level = Level {
            directory,
            place: 0,
            length: path.len(),
        };
        levels.push(level)?;
        let path = Vec::from_slice(alloc, path)?;
        Ok(Way { path, levels })
    }

    // Goes into this entry's directory; later it goes on at an index of the directory above.
    fn enter(&mut self, level: Level, place: usize, entry: &Entry) -> Result<(), AllocError> {
        self.path.truncate(level.length);
        if self.path.last() != Some(&b'/') {
            self.path.push(b'/')?;
        }
        self.path.extend_from_slice(entry.name())?;
        self.levels.push(Level { place, ..level })?;
        self.levels.push(Level {
            directory: usize::from(entry.number),
            place: 0,
            length: self.path.len(),
        })?;
        Ok(())
    }
}

// Whether an entry is that of the directory itself or of the one above.
fn is_dot(entry: &Entry) -> bool {
    matches!(entry.name(), b"." | b"..")
}

// The first directory in a directory from an entry on, and the index after its entry.
fn next_folder<D: BlockDev>(
    tree: &mut Tree<D>,
    directory: usize,
    start: usize,
) -> Result<Option<(usize, Entry)>, DeviceFault>
    requires { tree.old.failed ≡ false }
    ensures { OnOk result (tree.new.failed ≡ false) }
{
    for place in start..count_places(tree, directory)? {
        let Some(entry) = entry_at(tree, directory, place)? else {
            continue;
        };
        if let Some(node) = tree.look(usize::from(entry.number))?
            && node.kind == DIRECTORY
            && !is_dot(&entry)
        {
            return Ok(Some((place + 1, entry)));
        }
    }
    Ok(None)
}

// Writes the heading of a directory.
fn write_heading<W: Write>(path: &[u8], out: &mut W) -> io::Result<()> {
    out.write_all(path)?;
    out.write_all(b":\n")
}

// Writes the path of a directory and its entries.
fn write_listed<D: BlockDev, W: Write>(
    tree: &mut Tree<D>,
    directory: usize,
    path: &[u8],
    out: &mut W,
) -> Result<(), ListingFault>
    requires { tree.old.failed ≡ false }
    ensures { OnOk result (tree.new.failed ≡ false) }
{
    if write_heading(path, out).is_err() {
        return Err(ListingFault::Output);
    }
    write_entries(tree, directory, out)
}

// Writes the next directory below one on the path, if there is one.
fn go_on<D: BlockDev, W: Write>(
    tree: &mut Tree<D>,
    way: &mut Way,
    level: Level,
    out: &mut W,
) -> Result<(), ListingFault>
    requires { tree.old.failed ≡ false }
    ensures { OnOk result (tree.new.failed ≡ false) }
{
    let Some((place, entry)) = next_folder(tree, level.directory, level.place)? else {
        return Ok(());
    };
    way.enter(level, place, &entry)?;
    if out.write_all(b"\n").is_err() {
        return Err(ListingFault::Output);
    }
    write_listed(tree, usize::from(entry.number), way.path.as_slice(), out)
}

/// Writes the directory that a path reaches from the root of a disk, whose image is checked first, and all directories
/// below it.
/// Of each it writes its path and a line for each entry, as `write_directory` does, with an empty line between two.
/// Those in a directory come after it, in the order of its entries, each with those below it.
pub fn write_tree<D: BlockDev + Drop, W: Write>(
    alloc: Global,
    disk: D,
    path: &[u8],
    out: &mut W,
) -> Result<(), ListingFault>
    ensures { OnOk result (IsDirectoryOf (image_of (D.content disk)) path.now) }
{
    let mut tree = mount(alloc, disk)?;
    let directory = directory_at(&mut tree, path)?;
    let mut way = Way::new(alloc, path, directory)?;
    write_listed(&mut tree, directory, path, out)?;
    for _turns in 0..u64::MAX {
        let Some(level) = way.levels.pop() else {
            break;
        };
        go_on(&mut tree, &mut way, level, out)?;
    }
    Ok(())
}
