//! Which events print a text.
use crate::copies::copy;
use crate::timeline::Timeline;
use crate::wanted::Debuggee;
use console::Writer;
use machine::{Halt, NoMemory};
use std::alloc::Global;
use unixmodel::event::Event;

/// A copy of the machine that goes through the events once more, and all that it printed.
#[derive(Drop)]
struct Replay {
    machine: Debuggee,
    out: Writer<Vec<u8>>,
    at: u64,
}

// Whether bytes end with a text where some of them, more than n, came.
fn ends_after(bytes: &[u8], count: usize, text: &[u8]) -> bool {
    for end in count..bytes.len() {
        if let Some(front) = bytes.get(..=end)
            && front.ends_with(text)
        {
            return true;
        }
    }
    false
}

impl Replay {
    // At the start.
    fn new(alloc: Global, machine: Debuggee) -> Replay {
        Replay {
            machine,
            out: Writer::new(Vec::new(alloc)),
            at: 0,
        }
    }

    // All that was printed.
    fn printed(&self) -> &[u8] {
        self.out.get_ref().as_slice()
    }

    // Some of an event that comes n times: only the last of them may print. Whether the machine takes more.
    fn go_on(&mut self, event: Event, times: u32) -> Result<bool, NoMemory> {
        if let Event::Step = event {
            let count = self.machine.compute(times, &[]);
            if count > 0 {
                self.at = self.at.saturating_add(u64::from(count));
                return Ok(true);
            }
        }
        self.at = self.at.saturating_add(1);
        match self.machine.run(&[event], &mut self.out) {
            Ok(()) => Ok(true),
            Err(Halt::InitEnded(_) | Halt::Halted) => Ok(false),
            Err(Halt::Device | Halt::Console) => Err(NoMemory),
        }
    }
}

impl Timeline {
    /// The times of the events that print the last byte of a text, as often as the console shows it. An error says that
    /// the host has no memory.
    pub fn times_printing(&self, text: &[u8]) -> Result<Vec<u64>, NoMemory> {
        let mut replay = Replay::new(self.alloc, copy(self.alloc, &self.begin)?);
        let mut times = Vec::new(self.alloc);
        for _event in 0..self.events.count() {
            let Some((event, count)) = self.events.ahead(replay.at) else {
                break;
            };
            let (at, before) = (replay.at, replay.printed().len());
            let goes_on = replay.go_on(event, count)?;
            if ends_after(replay.printed(), before, text) && times.push(at).is_err() {
                return Err(NoMemory);
            }
            if !goes_on {
                break;
            }
        }
        Ok(times)
    }
}
