//! What gdb is sent for questions that move no machine.
#![tactic(auto)]

mod conditions_sent;
mod features;
mod opened;
mod orders;
mod processes;
mod words;

pub use conditions_sent::conditions_in;
pub use features::{RESUME_KINDS, SUPPORTED, has_feature};
pub use opened::OpenFiles;
pub use orders::{HELP, Order, calls_named, order_in};
pub use processes::{current, is_alive, pids_of};
pub use words::{push_description_part, push_text, thread_words, time_words, who_is_there};
