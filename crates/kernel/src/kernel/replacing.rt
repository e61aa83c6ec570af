//! The kernel's step of exec: another program replaces the one that runs.
ghost use Rattle.std.specs.Prelude.{◌≡◌, ◌%◌, Some, false};
ghost use Rattle.kernel.specs.Kernel.{HasCurrent, current};
ghost use Rattle.kernel.specs.Replacing.{ReplacesDisk, begun};
ghost use Rattle.unixmodel.specs.Files.{Node, slot};

use crate::kernel::Kernel;
use blockdev::{BlockDev, DeviceFault};
use programs::{Started, execute};
use spaces::Spaces;
use sv39::Translate;

// The hart begins a program.
fn begin<T: Translate>(spaces: &mut Spaces<T>, started: &Started)
    requires { started.now.pc % 4 ≡ 0 }
    ensures { spaces.new ≡ begun spaces.old started.now }
{
    spaces.set_register(2, started.sp);
    spaces.set_register(10, started.count);
    spaces.set_register(11, started.sp);
    spaces.set_pc(started.pc);
}

impl<D: BlockDev, T: Translate> Kernel<D, T> {
    /// Replaces the program of the running process by the program of file `number`, with the arguments that `argv`
    /// points at, and returns how it begins.
    /// `None`: it can't be executed, or the frames don't suffice for it beside the old one; then nothing changes.
    /// Where the device fails the process keeps a space.
    pub fn replace(&mut self, number: usize, argv: u64) -> Result<Option<Started>, DeviceFault>
        requires running { HasCurrent self.old }
        requires up { self.old.tree.failed ≡ false }
        requires node { (node : Node) × (slot self.old.tree.files number ≡ Some node) }
        ensures { ReplacesDisk self.old self.new (current self.old) number argv result }
    {
        let at = self.current();
        match execute(&mut self.tree, &mut self.spaces, at, number, argv) {
            Ok(Some(started)) => {
                self.spaces.frames_suffice();
                begin(&mut self.spaces, &started);
                Ok(Some(started))
            }
            Ok(None) => Ok(None),
            Err(fault) => {
                self.spaces.frames_suffice();
                Err(fault)
            }
        }
    }
}
