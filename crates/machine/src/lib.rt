//! The machine: a pure function from events to the console's bytes, the state of every process and the disk.
#![tactic(auto)]

mod digest;
mod fault;
mod flat_boot;
mod holdings;
mod image_boot;
mod inodes;
mod machine;
mod memory;
mod seen;

pub use calls::Halt;
pub use fault::BootFault;
pub use flat_boot::{boot_flat, boot_flat_on, boot_flat_with};
pub use holdings::{Holdings, OpenOn, Opened};
pub use image_boot::boot;
pub use inodes::Stat;
pub use machine::Machine;
pub use ram::NoMemory;
pub use seen::{ProcessState, Seen};
pub use unixmodel::call::Call;
pub use unixmodel::process::Pending;
pub use vm::Perm;
