//! New nodes, and new names of nodes.

ghost use Rattle.std.specs.Prelude.{◌≡◌, ◌≢◌, ◌+◌, ◌<◌, ◌≤◌, All, IsSome, None, Some, [], false, ℕ};
ghost use Rattle.name_rules.specs.Rules.{KeepsTree};
ghost use Rattle.tree.specs.Entering.{fresh};
ghost use Rattle.tree.specs.Leaves.{leaf_node};
ghost use Rattle.tree.specs.Steps.{Turns};
ghost use Rattle.unixmodel.specs.Counts.{blocks_of};
ghost use Rattle.unixmodel.specs.Files.{put, slot};
ghost use Rattle.unixmodel.specs.Files.Node.{Directory};
ghost use Rattle.unixmodel.specs.NameCalls.{new_directory};
ghost use Rattle.tree.specs.Calls.{MakesDirectory, MakesLink, MakesNode};

use crate::entering::Gap;
use crate::{Tree, TreeFault};
use blockdev::{BlockDev, DeviceFault};
use inode::DIRECTORY;
use layout::Kind;

// The most links of a node.
const MOST_LINKS: u16 = 32767;

/// A new node that is no directory.
#[derive(Clone, Copy)]
pub enum Leaf {
    /// A file without bytes.
    File,
    /// A device.
    Device {
        /// Which driver it has.
        major: u16,
        /// Which of the driver's devices it is.
        minor: u16,
    },
}

impl Leaf {
    // The kind of its inode.
    fn kind(self) -> Kind
        ensures { fresh result ≡ Some (leaf_node self) }
    {
        match self {
            Leaf::File => Kind::File,
            Leaf::Device { major, minor } => Kind::Device { major, minor },
        }
    }
}

impl<D: BlockDev> Tree<D> {
    /// Makes a file or a device with the lowest free number and a name for it, and returns the number. Besides the
    /// faults of `spot` it returns `Exists` where the name is there, `Full` where its directory has no room, `Blocks`
    /// where the disk has none, and `Inodes` where no number is free.
    pub fn create(&mut self, directory: usize, path: &[u8], leaf: Leaf) -> Result<usize, TreeFault>
        requires up { self.old.failed ≡ false }
        requires rules { KeepsTree self.old.files }
        requires directory { IsSome (slot self.old.files directory) }
        requires path { All (λ b. b ≢ 0) path.now }
        ensures { MakesNode self.old self.new directory path.now (leaf_node leaf) result }
    {
        let gap = self.find_gap(directory, path, 0)?;
        let Some(number) = self.take_node(leaf.kind())? else {
            return Err(TreeFault::Inodes);
        };
        self.put_entry(&gap, number)?;
        Ok(number)
    }

    /// Gives a file or a device another name. Returns `NotFound` where the old path reaches nothing, `IsDir` where it
    /// reaches a directory, `Links` where the node has 32767 links already, and else why a new name is refused.
    pub fn link(&mut self, directory: usize, old: &[u8], new: &[u8]) -> Result<(), TreeFault>
        requires up { self.old.failed ≡ false }
        requires rules { KeepsTree self.old.files }
        requires directory { IsSome (slot self.old.files directory) }
        requires path { All (λ b. b ≢ 0) new.now }
        ensures { MakesLink self.old self.new directory old.now new.now result }
    {
        let Some(number) = self.find(directory, old)? else {
            return Err(TreeFault::NotFound);
        };
        let node = self.node(number)?;
        if node.kind == DIRECTORY {
            return Err(TreeFault::IsDir);
        }
        if node.links >= MOST_LINKS {
            return Err(TreeFault::Links);
        }
        let gap = self.find_gap(directory, new, 0)?;
        self.add_link(number)?;
        self.put_entry(&gap, number)?;
        Ok(())
    }

    /// Makes a directory with the lowest free number, and a name for it: the one above has one more link. Besides the
    /// faults of `spot` it returns `Exists` where the name is there, `Full` where the directory above has no room,
    /// `Blocks` where the disk has no room for the name and a block, `Links` where the directory above has 32767 links
    /// already, and `Inodes` where no number is free.
    pub fn create_directory(&mut self, directory: usize, path: &[u8]) -> Result<(), TreeFault>
        requires up { self.old.failed ≡ false }
        requires rules { KeepsTree self.old.files }
        requires directory { IsSome (slot self.old.files directory) }
        requires path { All (λ b. b ≢ 0) path.now }
        ensures { MakesDirectory self.old self.new directory path.now result }
    {
        let gap = self.find_gap(directory, path, 1)?;
        let above = self.node(gap.directory)?;
        if above.links >= MOST_LINKS {
            return Err(TreeFault::Links);
        }
        let Some(number) = self.take_node(Kind::Directory)? else {
            return Err(TreeFault::Inodes);
        };
        self.put_dots(number, gap.directory)?;
        self.put_entry(&gap, number)?;
        self.add_link(gap.directory)?;
        Ok(())
    }

    /// Gives a new directory its first two entries.
    pub fn put_dots(&mut self, number: usize, above: usize) -> Result<(), DeviceFault>
        requires up { self.old.failed ≡ false }
        requires bare { slot self.old.files number ≡ Some (Directory 1 []) }
        requires above { slot self.old.files above ≢ None }
        requires block { blocks_of self.old.files + 1 ≤ self.old.block_limit }
        ensures { Turns self.old self.new result (put self.old.files number (new_directory above number)) }
    {
        let own = Gap {
            directory: number,
            name: b".",
            place: 0,
        };
        self.put_entry(&own, number)?;
        let parent = Gap {
            directory: number,
            name: b"..",
            place: 1,
        };
        self.put_entry(&parent, above)
    }
}
