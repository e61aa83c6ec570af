//! What gdb's `monitor` asks for.
ghost use Rattle.std.specs.Prelude.{◌≡◌, OnErr, OnOk};
ghost use Rattle.gdbserver.specs.Debugging.{OnlyAdds};

use crate::session::{Flow, Session};
use gdbanswers::{HELP, Order, calls_named, order_in, push_text, time_words, who_is_there};
use gdbwire::push_decoded;
use std::alloc::AllocError;
use timeline::{NoRoom, Timeline};
use unixmodel::event::Event;

/// The key that ends a typed line.
const LINE_END: u8 = 0x0a;

/// How many steps follow what is typed.
const STEPS: u32 = 1_000_000;

// Types keys after the last event.
#[tactic(auto, using(crate::proofs::Adding::adding))]
fn push_keys(timeline: &mut Timeline, keys: &[u8]) -> Result<(), NoRoom>
    ensures { OnlyAdds timeline.old timeline.new }
{
    for key in keys {
        timeline.push(Event::Key(*key), 1)?;
    }
    Ok(())
}

// Puts steps after the last event.
#[tactic(auto, using(crate::proofs::Adding::adding))]
fn push_steps(timeline: &mut Timeline, count: u32) -> Result<(), NoRoom>
    ensures { OnlyAdds timeline.old timeline.new }
{
    timeline.push(Event::Step, count)
}

// Types a line after the last event, and puts steps after it.
#[tactic(auto, using(crate::proofs::Adding::adding))]
fn type_line(timeline: &mut Timeline, line: &str) -> Result<(), NoRoom>
    ensures { OnlyAdds timeline.old timeline.new }
{
    push_keys(timeline, line.as_bytes())?;
    push_keys(timeline, &[LINE_END])?;
    push_steps(timeline, STEPS)
}

// Types a line at the end, and returns what is printed.
#[tactic(auto, using(crate::proofs::Adding::adding))]
fn type_at_end(timeline: &mut Timeline, line: &str) -> &'static str
    ensures { OnlyAdds timeline.old timeline.new }
{
    if timeline.at() < timeline.count() {
        return "The past is not changed: this is not the end.\n";
    }
    match type_line(timeline, line) {
        Ok(()) => "",
        Err(_) => "There is no room for more events.\n",
    }
}

impl Session {
    // Puts a text at the end of the answer: an empty one as `OK`, since no answer says that nothing was understood.
    fn put_text(&mut self, text: &str) -> Result<Flow, AllocError> {
        if text.is_empty() {
            return self.put(b"OK");
        }
        push_text(text, &mut self.body)?;
        Ok(Flow::Reply)
    }

    // Puts the processes at the end of the answer.
    fn put_processes(&mut self, timeline: &Timeline) -> Result<Flow, AllocError> {
        let text = who_is_there(self.alloc, timeline, &self.tracer.names)?;
        self.put_text(text.as_str())
    }

    // Puts the time at the end of the answer.
    fn put_time(&mut self, timeline: &Timeline) -> Result<Flow, AllocError> {
        let text = time_words(self.alloc, timeline)?;
        self.put_text(text.as_str())
    }

    // Motions stop before these calls, too.
    fn stop_at_calls(&mut self, names: &str) -> Result<Flow, AllocError> {
        match calls_named(self.alloc, names)? {
            Some(calls) => {
                self.tracer.points.calls = calls;
                self.put_text("")
            }
            None => self.put_text("No call has such a name.\n"),
        }
    }

    // Finds the events that print the last byte of the text before whose printing motions stop.
    fn find_prints(&mut self, timeline: &Timeline) -> Result<(), AllocError> {
        self.prints.clear();
        let text = self.output.as_slice();
        if text.is_empty() {
            return Ok(());
        }
        match timeline.times_printing(text) {
            Ok(times) => {
                self.prints = times;
                Ok(())
            }
            Err(_) => Err(AllocError),
        }
    }

    // Motions stop before the events that print the last byte of a text, too.
    fn stop_at_output(&mut self, timeline: &Timeline, text: &str) -> Result<Flow, AllocError> {
        self.output.clear();
        self.output.extend_from_slice(text.as_bytes())?;
        self.find_prints(timeline)?;
        if !text.is_empty() && self.prints.is_empty() {
            return self.put_text("Nothing prints this.\n");
        }
        self.put_text("")
    }

    // Types a line at the end, and puts what is to be said of it at the end of the answer.
    #[tactic(auto, using(crate::proofs::Adding::adding))]
    fn put_typed(&mut self, timeline: &mut Timeline, line: &str) -> Result<Flow, AllocError>
        ensures { OnlyAdds timeline.old timeline.new }
    {
        let words = type_at_end(timeline, line);
        self.find_prints(timeline)?;
        self.put_text(words)
    }

    // Does what is asked.
    #[tactic(auto, using(crate::proofs::Adding::adding))]
    fn perform(&mut self, timeline: &mut Timeline, order: Order<'_>) -> Result<Flow, AllocError>
        ensures { OnlyAdds timeline.old timeline.new }
    {
        match order {
            Order::Processes => self.put_processes(timeline),
            Order::When => self.put_time(timeline),
            Order::StopAtEvent(time) => {
                self.target = Some(time);
                self.put_text("")
            }
            Order::StopAtCalls(names) => self.stop_at_calls(names),
            Order::StopAtExits(stops) => {
                self.tracer.points.at_exits = stops;
                self.put_text("")
            }
            Order::StopAtOutput(text) => self.stop_at_output(timeline, text),
            Order::Type(line) => self.put_typed(timeline, line),
        }
    }

    /// `qRcmd,`
    #[tactic(auto, using(crate::proofs::Adding::adding))]
    pub(crate) fn command(
        &mut self,
        timeline: &mut Timeline,
        digits: &[u8],
    ) -> Result<Flow, AllocError>
        ensures { OnlyAdds timeline.old timeline.new }
    {
        let mut bytes = Vec::new(self.alloc);
        if !push_decoded(digits, &mut bytes)? {
            return self.put_whether(false);
        }
        let Ok(text) = str::from_utf8(bytes.as_slice()) else {
            return self.put_text(HELP);
        };
        match order_in(text) {
            Some(order) => self.perform(timeline, order),
            None => self.put_text(HELP),
        }
    }
}
