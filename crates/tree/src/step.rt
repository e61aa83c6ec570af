//! Steps that change one node.

ghost use Rattle.std.specs.Prelude.{◌≡◌, ◌≢◌, ℕ, ◌+◌, ◌-◌, ◌*◌, ◌<◌, ◌≤◌, None, Some, false};
ghost use Rattle.tree.specs.Holding.{let_go, unheld, holders};
ghost use Rattle.tree.specs.Names.{dropped};
ghost use Rattle.tree.specs.Steps.{HasPlace, Reads, Turns};
ghost use Rattle.tree.specs.Tree.{HasFiles, Serves};
ghost use Rattle.unixmodel.specs.Files.{Node, change_node, erase, links_of, slot};
ghost use Rattle.unixmodel.specs.NameCalls.{emptied, fewer_links, more_links};
ghost use Rattle.tree.specs.Calls.{LetsGo};

use crate::Tree;
use blockdev::{BlockDev, DeviceFault};
use inode::FILE;

impl<D: BlockDev> Tree<D> {
    /// One holder of a node lets it go: it goes with its blocks where it has no links and nobody else holds it.
    pub fn drop_hold(&mut self, number: usize) -> Result<(), DeviceFault>
        requires up { self.old.failed ≡ false }
        requires node { slot self.old.files number ≢ None }
        requires some { 1 ≤ holders self.old.holds number }
        ensures { Serves self.old self.new result (λ done. LetsGo self.old self.new number) }
    {
        self.unhold(number);
        self.let_go(number)
    }

    /// Empties a file. Leaves a device or a directory as it is.
    pub fn truncate(&mut self, number: usize) -> Result<(), DeviceFault>
        requires up { self.old.failed ≡ false }
        requires node { slot self.old.files number ≢ None }
        ensures { Serves self.old self.new result
            (λ done. HasFiles self.old self.new (change_node self.old.files number emptied)) }
    {
        let node = self.node(number)?;
        if node.kind != FILE {
            return Ok(());
        }
        self.empty(number)
    }

    // A node goes with its blocks where it has no links and nobody holds it.
    pub(crate) fn let_go(&mut self, number: usize) -> Result<(), DeviceFault>
        requires up { self.old.failed ≡ false }
        requires node { slot self.old.files number ≢ None }
        ensures { Turns self.old self.new result (let_go self.old.holds self.old.files number) }
    {
        if self.holders(number) > 0 {
            return Ok(());
        }
        let node = self.node(number)?;
        if node.links > 0 {
            return Ok(());
        }
        self.release(number)
    }

    // Frees a slot of a directory.
    pub(crate) fn free_place(&mut self, directory: usize, k: usize) -> Result<(), DeviceFault>
        requires up { self.old.failed ≡ false }
        requires place { HasPlace self.old.files directory k }
        ensures { Turns self.old self.new result (erase self.old.files directory k) }
    {
        self.is_whole();
        self.rewrite(directory, 16 * k, &[0; 16])
    }

    // A node has one link fewer.
    fn drop_link(&mut self, number: usize) -> Result<(), DeviceFault>
        requires up { self.old.failed ≡ false }
        requires node { slot self.old.files number ≢ None }
        ensures { Turns self.old self.new result (change_node self.old.files number fewer_links) }
    {
        let before = self.node(number)?;
        self.set_links(number, before.links.saturating_sub(1))
    }

    /// Gives a node one more link.
    pub fn add_link(&mut self, number: usize) -> Result<(), DeviceFault>
        requires up { self.old.failed ≡ false }
        requires node { (node : Node) × (slot self.old.files number ≡ Some node) × (links_of node < 65535) }
        ensures { Turns self.old self.new result (change_node self.old.files number more_links) }
    {
        let before = self.node(number)?;
        self.set_links(number, before.links + 1)
    }

    // A node has one link fewer, and so has the directory of its name where the node is a directory.
    pub(crate) fn drop_links(
        &mut self,
        number: usize,
        directory: usize,
        is_directory: bool,
    ) -> Result<(), DeviceFault>
        requires up { self.old.failed ≡ false }
        requires node { slot self.old.files number ≢ None }
        requires directory { slot self.old.files directory ≢ None }
        ensures { Turns self.old self.new result (dropped self.old.files number directory is_directory) }
    {
        self.drop_link(number)?;
        if is_directory {
            return self.drop_link(directory);
        }
        Ok(())
    }
}
