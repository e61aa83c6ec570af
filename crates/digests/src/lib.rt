//! The digest of a kernel: a number of 64 bits, made of the state of the abstract Unix that the kernel stands for and
//! of nothing else. So kernels of equal states have equal digests, whatever translator they have and wherever their
//! pages and blocks lie.
#![tactic(auto)]

mod mixing;
mod named;
mod nodes;
mod opened;
mod processes;
mod whole;

pub use named::numbers_stay_out;
pub use nodes::mix_files;
pub use processes::process_by;
pub use whole::{digest_but_files, timeless_but_files};
