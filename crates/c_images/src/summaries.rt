//! What an image uses, as plain numbers.
ghost use Rattle.std.specs.Prelude.{◌≡◌};
ghost use Rattle.c_images.specs.Faults.{image_number};
ghost use Rattle.c_images.specs.Images.{number_of, summary_put};

use crate::faults::Fault;
use imagebytes::{ImageFault, Summary};

/// What an image uses.
#[repr(C)]
#[derive(Clone, Copy)]
pub struct SummaryTold {
    /// The inodes in use.
    pub inodes: u64,
    /// The data blocks that they name.
    pub blocks: u64,
}

/// Puts what an image uses: 0, or the rule that it breaks.
pub fn put_summary(answer: Result<Summary, ImageFault>, out: &mut SummaryTold) -> u32
    ensures number { result ≡ number_of image_number answer }
    ensures put { out.new ≡ summary_put answer out.old }
{
    match answer {
        Ok(summary) => {
            *out = SummaryTold {
                inodes: summary.inodes as u64,
                blocks: summary.blocks as u64,
            };
            0
        }
        Err(fault) => fault.number(),
    }
}
