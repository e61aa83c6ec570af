//! Traces of what a machine does: text in strace's manner, spans in Chrome's JSON, commits in Spike's form, and lines
//! of JSON.
//!
//! A tracer watches a machine that is given events, and writes as it goes: what it keeps is bounded by the processes,
//! pipes and open files that a machine has. It changes nothing of the machine, and goes on where a sink fails.
#![tactic(auto)]

mod call_text;
mod faults;
mod handed;
mod lanes;
mod memory;
mod pipes;
mod tracing;

pub use tracetext::{CallSet, Form, SinkFault, Sinks, Trouble, Wanted};
pub use tracing::Tracer;
