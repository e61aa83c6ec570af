//! Files that are written whole: the bytes go to a new file in the same folder, which then takes the name. So the name
//! holds the old file or the new one at each moment, whatever step fails and wherever the program ends.
#![tactic(auto)]

mod fault;
mod folder;
mod locks;
mod put;
mod system;

pub use fault::{PutFault, StepFault};
pub use folder::{Folder, Swept};
pub use locks::{Holding, hold, is_same};
pub use put::{replace, sweep};
pub use system::write;
