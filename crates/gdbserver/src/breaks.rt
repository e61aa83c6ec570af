//! Breaks and watches are set and taken away, and processes let go.
use crate::session::{Flow, Session};
use gdbanswers::conditions_in;
use gdbmotions::{Conditional, MOST_POINTS, Watch};
use gdbstate::{AccessWatch, Break};
use gdbwire::{Part, Point};
use std::alloc::AllocError;
use timeline::Timeline;

impl Session {
    // A break at an address.
    fn break_at(&self, timeline: &Timeline, address: u64) -> Break {
        let pid = self.chosen(timeline.machine(), self.looks);
        Break { pid, address }
    }

    // A watch of bytes.
    fn watch_of(&self, timeline: &Timeline, part: Part) -> Watch {
        let pid = self.chosen(timeline.machine(), self.looks);
        Watch {
            pid,
            address: part.from,
            count: part.count,
        }
    }

    // A watch of the loads of bytes, and of their stores, if these are meant.
    fn access_watch(&self, timeline: &Timeline, part: Part, stores: bool) -> AccessWatch {
        let pid = self.chosen(timeline.machine(), self.looks);
        AccessWatch {
            pid,
            address: part.from,
            count: part.count,
            stores,
        }
    }

    // Sets a break with the conditions of a text.
    fn set_break(
        &mut self,
        timeline: &Timeline,
        address: u64,
        text: &[u8],
    ) -> Result<Flow, AllocError> {
        let one = Conditional {
            place: self.break_at(timeline, address),
            conditions: conditions_in(self.alloc, text)?,
        };
        self.tracer.points.set_break(one)?;
        self.put_whether(true)
    }

    // Sets a watch of not too many bytes.
    fn set_watch(&mut self, timeline: &Timeline, part: Part) -> Result<Flow, AllocError> {
        if part.count > MOST_POINTS as u64 {
            return self.put_whether(false);
        }
        let watch = self.watch_of(timeline, part);
        self.tracer.points.set_watch(watch)?;
        self.put_whether(true)
    }

    // Sets a watch of loads, and of stores, if these are meant.
    fn set_access(
        &mut self,
        timeline: &Timeline,
        part: Part,
        stores: bool,
    ) -> Result<Flow, AllocError> {
        let watch = self.access_watch(timeline, part, stores);
        self.tracer.points.set_access(watch)?;
        self.put_whether(true)
    }

    // Takes a watch of loads, and of stores, away.
    fn clear_access(&mut self, timeline: &Timeline, part: Part, stores: bool) {
        let watch = self.access_watch(timeline, part, stores);
        self.tracer.points.clear_access(watch);
    }

    /// `Z`
    pub(crate) fn set_point(
        &mut self,
        timeline: &Timeline,
        point: Point,
        part: Part,
        text: &[u8],
    ) -> Result<Flow, AllocError> {
        match point {
            Point::Break | Point::HardwareBreak => self.set_break(timeline, part.from, text),
            Point::Write => self.set_watch(timeline, part),
            Point::Read => self.set_access(timeline, part, false),
            Point::Access => self.set_access(timeline, part, true),
        }
    }

    /// `z`
    pub(crate) fn clear_point(
        &mut self,
        timeline: &Timeline,
        point: Point,
        part: Part,
    ) -> Result<Flow, AllocError> {
        match point {
            Point::Break | Point::HardwareBreak => {
                let place = self.break_at(timeline, part.from);
                self.tracer.points.clear_break(place);
            }
            Point::Write => {
                let watch = self.watch_of(timeline, part);
                self.tracer.points.clear_watch(watch);
            }
            Point::Read => self.clear_access(timeline, part, false),
            Point::Access => self.clear_access(timeline, part, true),
        }
        self.put_whether(true)
    }

    /// `D;`
    pub(crate) fn detach(&mut self, pid: u64) -> Result<Flow, AllocError> {
        let Ok(pid) = u32::try_from(pid) else {
            return self.put_whether(false);
        };
        self.tracer.points.release(pid)?;
        self.put_whether(true)
    }
}
