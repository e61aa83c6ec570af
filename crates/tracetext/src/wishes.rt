//! What of a run is traced, and how.
ghost use Rattle.std.specs.Prelude.{◌≡◌, ◌↔◌, ◌≤◌, IsTrue, min};
ghost use Rattle.tracetext.specs.Wishes.{IsOf};

use crate::call_names::CallSet;

/// The most bytes of a buffer that are shown.
pub const MOST_BYTES: usize = 4096;

/// What of a run is traced, and how.
#[derive(Clone, Copy)]
pub struct Wanted {
    /// Whether there is a text in strace's manner.
    pub text: bool,
    /// Whether there are spans, in Chrome's JSON.
    pub spans: bool,
    /// Whether there are commits, in Spike's form.
    pub commits: bool,
    /// Whether there are lines of JSON.
    pub events: bool,
    /// The one process that is shown, or all.
    pub pid: Option<u32>,
    /// The calls that are shown; ends and faults are shown always.
    pub calls: CallSet,
    /// The number of the first event that is shown, counted from 1.
    pub from: u64,
    /// The number of the last event that is shown.
    pub to: u64,
    /// Whether equal calls in a row are one line of the text.
    pub joins: bool,
    /// How many bytes of a buffer are shown, 4096 at most.
    pub bytes: usize,
    /// Whether each line of the text begins with the number of its event.
    pub times: bool,
    /// Whether the text says who gets the hart, and who loses it to the timer.
    pub turns: bool,
    /// Whether a commit's core is the pid of its process, and not 0.
    pub core_is_pid: bool,
}

impl Wanted {
    /// Everything of all processes, in no form so far.
    pub const ALL: Wanted = Wanted {
        text: false,
        spans: false,
        commits: false,
        events: false,
        pid: None,
        calls: CallSet::ALL,
        from: 1,
        to: u64::MAX,
        joins: true,
        bytes: 32,
        times: false,
        turns: false,
        core_is_pid: false,
    };

    /// Whether the event of this number is shown.
    pub fn has_event(&self, number: u64) -> bool
        ensures { IsTrue result ↔ ((self.now.from ≤ number) × (number ≤ self.now.to)) }
    {
        self.from <= number && number <= self.to
    }

    /// Whether the process with a pid is shown.
    pub fn has_process(&self, pid: u32) -> bool
        ensures { IsTrue result ↔ IsOf self.now.pid pid }
    {
        match self.pid {
            Some(only) => only == pid,
            None => true,
        }
    }

    /// How many bytes of a buffer are shown.
    pub fn most(&self) -> usize
        ensures { result ≡ min self.now.bytes MOST_BYTES }
    {
        self.bytes.min(MOST_BYTES)
    }
}
