//! JSON of runs: the rows that a report and the lines of events have in common, and how a line is written.
//!
//! The members of an object are the fields of its row, in this order; docs/REPORT.md has the form.
#![tactic(auto)]

mod arguments;
mod call_rows;
mod descriptors;
mod ends;
mod faults;
mod jsonl;
mod locations;
mod texts;
mod waiting;

pub use arguments::{Argument, MOST_ARGUMENTS, arguments_of, int, short};
pub use call_rows::{CallRow, Handed, WaitRow};
pub use descriptors::{DescriptorRow, Descriptors, OnRow, descriptor_rows, descriptors_of};
pub use ends::{EndedRow, ExitRow, How};
pub use faults::FaultRow;
pub use jsonl::{BeginRow, EndRow, Kind, TurnRow, VERSION, line};
pub use locations::LocationRow;
pub use texts::{Bytes, Latin, Printed};
pub use waiting::{WaitsRow, can_end, waits_row};
