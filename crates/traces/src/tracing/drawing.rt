//! The spans in Chrome's JSON.

use super::Tracer;
use crate::pipes::Put;
use blockdev::BlockDev;
use machine::{Call, Machine};
use sv39::Translate;
use tracetext::spans::{Arrow, CALLS, Done, HEAD, Lanes, Next, Period, Point, Span, TAIL};
use tracetext::{Asked, Form, Sinks};
use unixmodel::limits::{PIPES, PROCESSES};

// How many bytes a pipe has.
fn level_of<D: BlockDev, T: Translate>(machine: &Machine<D, T>, number: usize) -> usize {
    match machine.pipe(number) {
        Some((first, second)) => first.len().saturating_add(second.len()),
        None => 0,
    }
}

// A pipe whose bytes have become more or fewer.
#[derive(Clone, Copy)]
struct Change {
    number: usize,
    // How many bytes it had, and how many it has.
    before: usize,
    level: usize,
}

impl Change {
    // How many bytes it has more, or fewer.
    fn count(self) -> usize {
        self.level.abs_diff(self.before)
    }
}

impl<S: Sinks + Drop> Tracer<S> {
    // Writes what the file begins with.
    pub(super) fn draw_head(&mut self) {
        self.pen.put(Form::Spans, &HEAD);
    }

    // Writes what the file ends with.
    pub(super) fn draw_tail(&mut self) {
        if !self.is_begun {
            self.draw_head();
        }
        self.pen.put(Form::Spans, &TAIL);
    }

    // Writes an event of a process, if it is shown.
    pub(super) fn draw(&mut self, pid: u32, span: Span<'_>) {
        if self.shows(pid) {
            self.pen.put(Form::Spans, &Next(span));
        }
    }

    // Writes an event of the machine, if it is shown.
    fn draw_machine(&mut self, span: Span<'_>) {
        if self.wanted.has_event(self.number()) {
            self.pen.put(Form::Spans, &Next(span));
        }
    }

    pub(super) fn draw_tick(&mut self) {
        self.draw_machine(Span::tick(self.at));
    }

    pub(super) fn draw_key(&mut self, key: u8) {
        self.draw_machine(Span::key(self.at, key));
    }

    // The time from which on a process has the hart.
    fn since(&mut self, pid: u32) -> Option<u64> {
        Some(self.lane_mut(pid)?.since)
    }

    // Writes the slice of the process that has the hart, which loses it or comes to the end of what is shown.
    pub(super) fn draw_run(&mut self) {
        let Some(pid) = self.running else {
            return;
        };
        let Some(since) = self.since(pid) else {
            return;
        };
        let period = Period {
            since,
            until: self.number(),
        };
        self.draw(pid, Span::runs(pid, period));
    }

    // Writes the slice of a call.
    pub(super) fn draw_call(&mut self, asked: &Asked, answer: Option<i64>) {
        if !self.shows_call(asked) || !self.pen.has(Form::Spans) {
            return;
        }
        self.whole.clear();
        let text = &self.text;
        if write!(self.whole, "{text}").is_err() {
            return self.pen.starve();
        }
        let done = Done {
            number: asked.number,
            period: Period {
                since: asked.at,
                until: self.at.saturating_add(1),
            },
            text: self.whole.as_str(),
            answer,
        };
        let pid = asked.pid;
        self.pen.put(Form::Spans, &Next(Span::call(pid, done)));
    }

    // Writes an arrow.
    pub(super) fn draw_arrow(&mut self, arrow: Arrow, from: Point, to: Point) {
        self.arrows = self.arrows.saturating_add(1);
        let id = self.arrows;
        self.pen
            .put(Form::Spans, &Next(Span::from(arrow, id, from)));
        self.pen.put(Form::Spans, &Next(Span::to(arrow, id, to)));
    }

    // Writes that a process was forked, and the arrow that leads to it.
    pub(super) fn draw_birth(&mut self, asked: &Asked, child: u32) {
        let at = self.at.saturating_add(1);
        self.draw(child, Span::moment(child, "born", at));
        if self.shows_call(asked) && self.shows(child) {
            let from = Point {
                at: asked.at,
                pid: asked.pid,
                lane: CALLS,
            };
            let to = Point {
                at,
                pid: child,
                lane: CALLS,
            };
            self.draw_arrow(Arrow::Fork, from, to);
        }
    }

    // Writes the name of the process at an index, and those of its lanes.
    pub(super) fn draw_name(&mut self, place: usize) {
        let is_shown = self.wanted.from <= self.number() && !self.is_over;
        let Some(lane) = self.lanes.get(place) else {
            return;
        };
        let pid = lane.pid;
        if !is_shown || !self.wanted.has_process(pid) {
            return;
        }
        let name = lane.name.as_slice();
        self.pen.put(Form::Spans, &Next(Span::name(pid, name)));
        self.pen.put(Form::Spans, &Lanes(pid));
    }

    // The pending call of the process at an index.
    fn open_call(&self, place: usize) -> Option<Asked> {
        match self.lanes.get(place) {
            Some(lane) if !lane.has_ended() => lane.pending,
            _ => None,
        }
    }

    // Writes the pending call of the process at an index.
    fn draw_open(&mut self, place: usize) {
        let Some(asked) = self.open_call(place) else {
            return;
        };
        if self.wanted.calls.contains(asked.number) && self.wanted.has_process(asked.pid) {
            let since = Point {
                at: asked.at,
                pid: asked.pid,
                lane: CALLS,
            };
            let span = Span::open(asked.number, since);
            self.pen.put(Form::Spans, &Next(span));
        }
    }

    // Writes what is left where what is shown ends.
    pub(super) fn draw_rest(&mut self) {
        if !self.pen.has(Form::Spans) || self.number() < self.wanted.from {
            return;
        }
        self.draw_last_run();
        for place in 0..PROCESSES {
            self.draw_open(place);
            self.draw_name(place);
        }
    }

    // Writes the slice of the process that has the hart at the end.
    fn draw_last_run(&mut self) {
        let Some(pid) = self.running else {
            return;
        };
        let Some(since) = self.since(pid) else {
            return;
        };
        if self.wanted.has_process(pid) {
            let until = self.at.max(since);
            let period = Period { since, until };
            self.pen.put(Form::Spans, &Next(Span::runs(pid, period)));
        }
    }

    // Writes how full the pipes are that a call changed, and the arrows of bytes that it read.
    pub(super) fn draw_pipes<D: BlockDev, T: Translate>(
        &mut self,
        machine: &Machine<D, T>,
        asked: Option<&Asked>,
        waits: bool,
    ) {
        if !self.pen.has(Form::Spans) {
            return;
        }
        for number in 0..PIPES {
            self.draw_pipe(machine, number, asked, waits);
        }
    }

    // Writes how full a pipe is, where that has changed.
    fn draw_pipe<D: BlockDev, T: Translate>(
        &mut self,
        machine: &Machine<D, T>,
        number: usize,
        asked: Option<&Asked>,
        waits: bool,
    ) {
        let level = level_of(machine, number);
        let before = match self.pipes.get(number) {
            Some(pipe) => pipe.level,
            None => return,
        };
        if level != before {
            self.draw_level(number, level);
            let change = Change {
                number,
                before,
                level,
            };
            self.follow_bytes(asked, change, waits);
        }
    }

    // Writes how full a pipe is.
    fn draw_level(&mut self, number: usize, level: usize) {
        let at = self.at.saturating_add(1);
        self.draw_machine(Span::level(number, at, level));
    }

    // What a call did that changed how full a pipe is.
    // Only a read takes bytes: where fewer are left by anything else, the pipe is gone with them.
    fn follow_bytes(&mut self, asked: Option<&Asked>, change: Change, waits: bool) {
        match asked {
            Some(asked) if change.level > change.before => self.fill(asked, change, waits),
            Some(asked) if asked.is(Call::Read) => self.drain(asked, change),
            _ => self.forget(change.number),
        }
    }

    // A pipe is gone with its bytes.
    fn forget(&mut self, number: usize) {
        if let Some(pipe) = self.pipes.get_mut(number) {
            pipe.clear();
        }
    }

    // A call put bytes into a pipe.
    fn fill(&mut self, asked: &Asked, change: Change, waits: bool) {
        let at = if waits {
            self.at.saturating_add(1)
        } else {
            self.at
        };
        let arrow = if self.shows_call(asked) {
            Some((at, asked.pid))
        } else {
            None
        };
        if let Some(pipe) = self.pipes.get_mut(change.number) {
            pipe.put(change.count(), arrow);
        }
    }

    // A call took bytes from a pipe: an arrow comes from each write of which it took the last byte.
    fn drain(&mut self, asked: &Asked, change: Change) {
        let Some(pipe) = self.pipes.get_mut(change.number) else {
            return;
        };
        let read = pipe.take(change.count());
        if self.shows_call(asked) {
            for put in read.iter() {
                self.draw_bytes(asked.pid, put);
            }
        }
    }

    // Draws the arrow from a write to the process that read its last byte.
    fn draw_bytes(&mut self, reader: u32, put: &Put) {
        if let Some((at, pid)) = put.arrow {
            let lane = CALLS;
            let to = Point {
                at: self.at,
                pid: reader,
                lane,
            };
            self.draw_arrow(Arrow::Bytes, Point { at, pid, lane }, to);
        }
    }
}
