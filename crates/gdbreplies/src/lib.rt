//! What is sent to gdb: the bodies of the frames, without any machine.
#![tactic(auto)]

mod documents;
mod registers;
mod stops;
mod threads;

pub use documents::{
    LONGEST_PART, push_file_part, push_file_status, push_no_file, push_opened, push_part,
};
pub use registers::{push_description, push_register, push_registers};
pub use stops::{Signal, Stop, push_console, push_end, push_error, push_exec, push_stop};
pub use threads::{push_current, push_process, push_thread, push_threads};
