//! The script of what a debugger leaves.
ghost use Rattle.std.specs.Prelude.{replicate, ◌<◌, ◌≤◌};
ghost use Rattle.events.specs.Records.{Records};

use events::Record;
use host::{Failure, Host};
use run_commands::Scribe;
use std::alloc::Global;
use timeline::Timeline;
use unixmodel::event::Event;

/// The most steps that are recorded at once.
const MOST_STEPS: u32 = 1_000_000_000;

// Notes an event that comes so often from a time on, and returns how often it was noted.
fn note<R: Record>(record: &mut R, event: Event, times: u32) -> u32
    requires { 0 < times }
    ensures some { (0 < result) × (result ≤ times) }
    ensures noted { Records (R.kept record.old) (R.kept record.new) (replicate result event) }
{
    match event {
        Event::Step => {
            let some = times.min(MOST_STEPS);
            record.steps(some);
            some
        }
        Event::Tick => {
            record.ticks(1);
            1
        }
        Event::Key(key) => {
            record.keys(&[key]);
            1
        }
    }
}

// Notes all events: each turn notes one or more.
fn note_all<R: Record>(timeline: &Timeline, record: &mut R)
    ensures { Records (R.kept record.old) (R.kept record.new) timeline.now.events }
{
    let mut at: u64 = 0;
    'turn: for _turn in 0..timeline.count() {
        let Some((event, times)) = timeline.ahead(at) else {
            return;
        };
        at = at.saturating_add(u64::from(note(record, event, times)));
    }
}

/// Writes the script of all events to the file of this name, where one is.
pub(crate) fn write_script<'a, H: Host>(
    alloc: Global,
    name: Option<&'a str>,
    timeline: &Timeline,
    host: &mut H,
) -> Result<(), Failure<'a>> {
    let mut scribe = Scribe::new(alloc, host, name);
    if name.is_some() {
        note_all(timeline, &mut scribe);
    }
    let (desk, file) = scribe.into_parts();
    file.finish(desk)
}
