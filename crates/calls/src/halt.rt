//! Why a machine stops, and why it doesn't boot.

use blockdev::DeviceFault;
use thiserror::Error;

/// Why a machine stopped.
#[derive(Clone, Copy, PartialEq, Eq, Debug, Error)]
pub enum Halt {
    /// Process 1 ended with this status.
    #[error("process 1 ended with status {0}")]
    InitEnded(i32),
    /// An access of the device failed.
    #[error("the device failed")]
    Device,
    /// The console's writer failed.
    #[error("the console failed")]
    Console,
    /// The machine had stopped before.
    #[error("the machine has halted")]
    Halted,
}

impl From<DeviceFault> for Halt {
    ghost use Rattle.std.specs.Prelude.{◌≡◌};
    ghost use Rattle.calls.specs.declared.halt.Halt.TheVariants.{Device};

    ghost from_gives = { λ _ halt. halt ≡ Device };

    fn from(_fault: DeviceFault) -> Halt {
        Halt::Device
    }
}
