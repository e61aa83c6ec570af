//! Nodes without links go, once nobody holds any node.

ghost use Rattle.std.specs.Prelude.{[], ◌≡◌, false};
ghost use Rattle.tree.specs.Holding.{let_go};
ghost use Rattle.tree.specs.Tree.{HasFiles, Serves};
ghost use Rattle.tree.specs.Calls.{IsSwept};

use crate::Tree;
use blockdev::{BlockDev, DeviceFault};

impl<D: BlockDev> Tree<D> {
    /// All holders let their nodes go: each node without links goes with its blocks.
    pub fn release_all(&mut self) -> Result<(), DeviceFault>
        requires up { self.old.failed ≡ false }
        ensures { Serves self.old self.new result (λ done. IsSwept self.old self.new) }
    {
        self.unhold_all();
        for number in 0..self.numbers() {
            self.release_unlinked(number)?;
        }
        Ok(())
    }

    // The node of a number goes with its blocks, if it has no links.
    fn release_unlinked(&mut self, number: usize) -> Result<(), DeviceFault>
        requires up { self.old.failed ≡ false }
        ensures { Serves self.old self.new result
            (λ done. HasFiles self.old self.new (let_go [] self.old.files number)) }
    {
        let Some(node) = self.look(number)? else {
            return Ok(());
        };
        if node.links > 0 {
            return Ok(());
        }
        self.release(number)
    }
}
