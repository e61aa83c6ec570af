//! What a machine leaves: its disk.

ghost use Rattle.std.specs.Prelude.{◌≡◌, IfOk, OnErr, false};
ghost use Rattle.imagerules.specs.Content.{image_of};
ghost use Rattle.machine.specs.Saved.{LosesDevice};
ghost use Rattle.name_rules.specs.Rules.{KeepsTree};
ghost use Rattle.tree.specs.Holding.{unheld};
ghost use Rattle.unixmodel.specs.Image.{Denotes};

use super::Machine;
use blockdev::{BlockDev, DeviceFault};
use calls::Halt;
use mount::unmount;
use sv39::Translate;
use tree::Tree;

// Gives up files that nobody holds any more for their device.
fn give_up<D: BlockDev>(tree: Tree<D>) -> Result<D, DeviceFault>
    requires up { tree.failed ≡ false }
    requires rules { KeepsTree tree.files }
    ensures denotes { IfOk result (λ disk. Denotes (image_of (D.content disk)) (unheld tree.files)) }
    ensures identity { IfOk result (λ disk. D.identity disk ≡ tree.identity) }
    ensures cause { OnErr result (LosesDevice D.identity D.failures tree) }
{
    let mut tree = tree;
    let released = tree.release_all();
    // The device's count reports a failure.
    let _device = tree.device();
    released?;
    let (disk, flushed) = unmount(tree);
    flushed?;
    Ok(disk)
}

impl<D: BlockDev, T: Translate> Machine<D, T> {
    ghost use Rattle.machine.specs.Saved.{SaveGives};

    /// Gives up all processes and returns the disk, whose bytes denote the files that are left: what nothing names
    /// any more is gone with its blocks. It works after `InitEnded`, too.
    ///
    /// `Device` where an access of the device failed, and `Halted` after `Device` and `Console`.
    pub fn save(self) -> Result<D, Halt>
        ensures { SaveGives D.content D.identity D.failures self result }
    {
        if self.failed {
            return Err(Halt::Halted);
        }
        self.kernel.is_sound();
        let Machine { kernel, .. } = self;
        Ok(give_up(kernel.into_tree())?)
    }
}
