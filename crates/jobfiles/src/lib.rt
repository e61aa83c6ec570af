//! Whether an output of a job is another file that its words name.
#![tactic(auto)]

mod twice;

pub use twice::named_twice;
