//! Whether the states of two kernels are alike: equal, except that their clocks and the numbers of open files and pipes
//! differ, and each sleeping process has slept as long. A yes is proved to be right; of a no nothing is promised.
#![tactic(auto)]

mod nodes;
mod opened;
mod pairs;
mod processes;
mod whole;

pub use nodes::Side;
pub use whole::are_alike;
