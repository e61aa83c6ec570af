//! What the processes of a machine wait for: each by itself, and all of them at a prompt or for good.
#![tactic(auto)]

mod awaited;
mod listing;
mod prompt;

pub use awaited::{Wait, wait_of};
pub use listing::{Waiter, Waiters, who_waits};
pub use prompt::{is_at_prompt, is_quiet};
