//! The memory that a machine begins with.

ghost use Rattle.std.specs.Prelude.{◌≡◌, ◌≤◌, IfOk};
ghost use Rattle.spaces.specs.Spaces.{no_spaces};

use ram::{NoMemory, Ram};
use spaces::Spaces;
use std::alloc::Global;
use sv39::Translate;

/// No spaces over a memory of `frames` frames.
pub fn empty<T: Translate>(alloc: Global, translator: T, frames: u32) -> Result<Spaces<T>, NoMemory>
    requires { frames ≤ 32768 }
    ensures { IfOk result (λ s. s ≡ no_spaces frames) }
{
    let ram = Ram::new(alloc, frames)?;
    Spaces::new(alloc, ram, translator)
}
