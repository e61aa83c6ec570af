//! What a source wants next, and what came of it.

use events::Clock;

/// What a machine is to be given next.
#[derive(Clone, Copy)]
pub enum Wanted {
    /// Steps until what the source aims at has come, or until nothing can come since nobody is ready and no clock runs;
    /// at most this many. A tick follows each after which the clock strikes.
    Steps(u32),
    /// This many timer interrupts.
    Ticks(u32),
    /// The source's keys, one after the other.
    Keys,
    /// The same, and the key that ends a line.
    Line,
    /// From here on this clock gives the ticks between steps.
    Set(Clock),
    /// The console's bytes are written out.
    WriteOut,
    /// Nothing yet: the source is asked again.
    Nothing,
    /// Nothing more.
    End,
}

/// What came of the steps that a source wanted.
#[derive(Clone, Copy)]
pub struct Walked {
    /// How many there were.
    pub made: u32,
    /// Whether what it aims at has come.
    pub is_there: bool,
}

impl Walked {
    /// No steps.
    pub const NONE: Walked = Walked {
        made: 0,
        is_there: false,
    };
}
