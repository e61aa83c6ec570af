//! What watches a search.
use crate::told::Outcome;

/// How far a search is.
#[derive(Clone, Copy)]
pub struct Standing<'a> {
    /// The outcomes so far.
    pub outcomes: &'a [Outcome],
    /// How many states were looked at.
    pub states: usize,
    /// How many paths wait to be looked at.
    pub waiting: usize,
    /// How many timer interrupts come while a process runs, along the path that is next.
    pub ticks: u32,
}

/// Watches a search, and may stop it.
pub trait Progress {
    /// Whether the search goes on. It asks before each path that it looks at.
    fn goes_on(&mut self, standing: &Standing) -> bool;
}

/// Stops no search.
#[derive(Clone, Copy)]
pub struct Unwatched;

impl Progress for Unwatched {
    fn goes_on(&mut self, _standing: &Standing) -> bool {
        true
    }
}
