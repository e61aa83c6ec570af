//! Whether spans are as the viewers want them: keys and times, slices of a lane that nest, arrows with two ends on
//! slices.

use std::alloc::Global;

// An event of the trace.
#[derive(Clone, Copy)]
struct Mark<'a> {
    phase: &'a str,
    category: &'a str,
    id: u64,
    pid: u64,
    lane: u64,
    since: u64,
    until: u64,
}

// What follows a key, up to one of these ends.
fn text_of<'a>(line: &'a str, key: &str) -> Option<&'a str> {
    let (_, rest) = line.split_once(key)?;
    let (text, _) = rest.split_once(['"', ',', '}'])?;
    Some(text)
}

// The number after a key.
fn number_of(line: &str, key: &str) -> Option<u64> {
    text_of(line, key)?.parse::<u64>().ok()
}

// When an event of this phase begins.
fn since_of(line: &str, phase: &str) -> Option<u64> {
    if phase == "M" {
        return Some(0);
    }
    number_of(line, "\"ts\":")
}

// How long it lasts.
fn lasts_of(line: &str, phase: &str) -> Option<u64> {
    match phase {
        "X" => number_of(line, "\"dur\":"),
        "B" => Some(1_000_000),
        _ => Some(0),
    }
}

// The event of a line; `None` where a key is missing.
fn mark_of(line: &str) -> Option<Mark<'_>> {
    text_of(line, "\"name\":\"")?;
    let phase = text_of(line, "\"ph\":\"")?;
    let pid = number_of(line, "\"pid\":")?;
    let since = since_of(line, phase)?;
    let lasts = lasts_of(line, phase)?;
    Some(Mark {
        phase,
        category: text_of(line, "\"cat\":\"").unwrap_or(""),
        id: number_of(line, "\"id\":").unwrap_or(0),
        pid,
        lane: number_of(line, "\"tid\":").unwrap_or(0),
        since,
        until: since.saturating_add(lasts),
    })
}

impl Mark<'_> {
    fn is_slice(&self) -> bool {
        self.phase == "X" || self.phase == "B"
    }

    // Whether two slices are of other lanes, apart, or one within the other.
    fn fits(&self, other: &Mark<'_>) -> bool {
        let is_apart = self.until <= other.since || other.until <= self.since;
        let is_within = self.since <= other.since && other.until <= self.until;
        let is_around = other.since <= self.since && self.until <= other.until;
        self.pid != other.pid || self.lane != other.lane || is_apart || is_within || is_around
    }

    // Whether it lies on a slice of its lane.
    fn is_on(&self, slice: &Mark<'_>) -> bool {
        slice.is_slice()
            && self.pid == slice.pid
            && self.lane == slice.lane
            && slice.since <= self.since
            && self.since <= slice.until
    }

    // Whether another one is the other end of its arrow, in time.
    fn meets(&self, other: &Mark<'_>) -> bool {
        let is_pair = match self.phase {
            "s" => other.phase == "f" && self.since <= other.since,
            _ => other.phase == "s" && other.since <= self.since,
        };
        is_pair && self.id == other.id && self.category == other.category
    }
}

// Whether a slice fits all others.
fn fits_all(mark: &Mark<'_>, marks: &[Mark<'_>]) -> bool {
    for other in marks {
        if other.is_slice() && !mark.fits(other) {
            return false;
        }
    }
    true
}

// Whether an end of an arrow lies on a slice, and has one other end.
fn is_held(mark: &Mark<'_>, marks: &[Mark<'_>]) -> bool {
    let mut is_on = false;
    let mut ends = 0u32;
    for other in marks {
        is_on |= mark.is_on(other);
        if mark.meets(other) {
            ends = ends.saturating_add(1);
        }
    }
    is_on && ends == 1
}

// Whether an event is as it should be among all.
fn is_sound(mark: &Mark<'_>, marks: &[Mark<'_>]) -> bool {
    match mark.phase {
        "X" | "B" => fits_all(mark, marks),
        "s" | "f" => is_held(mark, marks),
        "M" | "C" | "i" => true,
        _ => false,
    }
}

// The lines of the events, one after the other.
fn body_of(spans: &str) -> Option<&str> {
    let (_, body) = spans.split_once("\"traceEvents\":[\n")?;
    match body.split_once("\n]}\n") {
        Some((body, "")) => Some(body),
        _ => None,
    }
}

// Adds the event of a line. Whether there is one.
fn add<'a>(marks: &mut Vec<Mark<'a>>, line: &'a str) -> bool {
    match mark_of(line) {
        Some(mark) => marks.push(mark).is_ok(),
        None => false,
    }
}

// The events of a file of spans. `None`: it is none, or one has no such form.
fn marks_of(alloc: Global, spans: &str) -> Option<Vec<Mark<'_>>> {
    let body = body_of(spans)?;
    let mut marks = Vec::new(alloc);
    for line in body.split(",\n") {
        if !add(&mut marks, line) {
            return None;
        }
    }
    Some(marks)
}

fn are_sound(marks: &[Mark<'_>]) -> bool {
    for mark in marks {
        if !is_sound(mark, marks) {
            return false;
        }
    }
    true
}

/// Whether a whole file of spans is as it should be.
pub(crate) fn is_well_shaped(alloc: Global, spans: &str) -> bool {
    match marks_of(alloc, spans) {
        Some(marks) => are_sound(marks.as_slice()),
        None => false,
    }
}
