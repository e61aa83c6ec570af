//! What programs say of their addresses, as text.
ghost use Rattle.c_images.specs.Faults.{memory_number};

use crate::faults::{Fault, NO_MEMORY};
use addresses::Names;
use std::alloc::{AllocError, Global};

// Why an address has no text. Only the host's memory is wanted.
impl Fault for AllocError {
    ghost numbered = { memory_number };

    fn number(&self) -> u32 {
        NO_MEMORY
    }
}

/// What a program's file says of an address, as `sum+0x10 (oops.c:4)`; no bytes where it says nothing.
pub(crate) fn location_of(alloc: Global, file: &[u8], address: u64) -> Result<Vec<u8>, AllocError> {
    match Names::of(alloc, file)?.at(address) {
        Some(name) => Ok(format!(in alloc; "{name}")?.into_bytes()),
        None => Ok(Vec::new(alloc)),
    }
}
