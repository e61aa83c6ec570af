//! What a machine prints on its console.
ghost use Rattle.std.specs.Prelude.{None};

use console::{Out, OutFault};
use std::alloc::Global;
use std::mem::replace;

/// Keeps bytes while it is open. It never fails: what the host has no memory for is lost.
#[derive(Drop)]
pub(crate) struct Printed {
    alloc: Global,
    bytes: Vec<u8>,
    is_open: bool,
}

impl Printed {
    /// No bytes.
    pub(crate) fn new(alloc: Global) -> Printed {
        Printed {
            alloc,
            bytes: Vec::new(alloc),
            is_open: false,
        }
    }

    /// Opens or closes it.
    pub(crate) fn set_open(&mut self, is_open: bool) {
        self.is_open = is_open;
    }

    /// Gives up its bytes.
    pub(crate) fn take(&mut self) -> Vec<u8> {
        replace(&mut self.bytes, Vec::new(self.alloc))
    }
}

impl Out for Printed {
    ghost contents = { λ _. None };

    ghost failures = { λ _. 0 };

    fn put(&mut self, bytes: &[u8]) -> Result<(), OutFault> {
        if self.is_open {
            let _ = self.bytes.extend_from_slice(bytes);
        }
        Ok(())
    }
}
