//! Gives a machine its events: those that a source wants, as a script or a play, or those of a session at a keyboard.
//! One loop records them, writes out the console's bytes and shows the machine to who looks on.
#![tactic(auto)]

mod driver;
mod play;
mod script;
mod session;
mod source;
mod strides;
mod tail;
mod terminal;
mod wanted;
mod watch;

pub use driver::Driver;
pub use play::Unreached;
pub use script::Script;
pub use source::Source;
pub use tail::Tail;
pub use terminal::{Given, Mood, Terminal};
pub use wanted::{Walked, Wanted};
pub use watch::{Detail, Nobody, Watch};
