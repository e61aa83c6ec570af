//! What a run was, at its end: what was used, why it stopped, who waits for what, what each process holds, which ended,
//! and the faults that came, with the calls before them.
#![tactic(auto)]

mod by_pid;
mod ended;
mod json;
mod last_calls;
mod memory;
mod outcome;
mod registers;
mod report;
mod reporter;
mod teller;
mod who;

pub use memory::MemoryReport;
pub use outcome::{Outcome, PlayEnd};
pub use registers::RegisterReport;
pub use report::{FaultLine, Report};
pub use reporter::{Fallen, Reporter};
pub use teller::{Looked, Told, Wanted};
pub use who::Name;
