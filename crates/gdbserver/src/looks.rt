//! Questions about processes, and their registers and memory.
ghost use Rattle.std.specs.Prelude.{◌≡◌, ◌≢◌, ◌++◌, OnOk};
ghost use Rattle.gdbserver.specs.Shown.{memory_of, registers_of};

use crate::session::{Flow, Session, pid_of};
use gdbanswers::{is_alive, pids_of, push_description_part, push_text, thread_words};
use gdbreplies::{push_current, push_process, push_threads};
use gdbstate::{push_memory_of, push_register_of, push_registers_of};
use gdbwire::{Part, Thread};
use std::alloc::AllocError;
use timeline::Timeline;

impl Session {
    /// `qfThreadInfo`
    pub(crate) fn list_threads(&mut self, timeline: &Timeline) -> Result<Flow, AllocError> {
        let pids = pids_of(self.alloc, timeline.machine(), &self.tracer.points)?;
        push_threads(pids.as_slice(), &mut self.body)?;
        Ok(Flow::Reply)
    }

    /// `qC`
    pub(crate) fn show_current(&mut self, timeline: &Timeline) -> Result<Flow, AllocError> {
        let pid = self.chosen(timeline.machine(), self.looks);
        push_current(pid, &mut self.body)?;
        Ok(Flow::Reply)
    }

    /// `qProcessInfo`
    pub(crate) fn show_process(&mut self, timeline: &Timeline) -> Result<Flow, AllocError> {
        let pid = self.chosen(timeline.machine(), self.looks);
        push_process(Some(pid), &mut self.body)?;
        Ok(Flow::Reply)
    }

    /// `qHostInfo`
    pub(crate) fn show_host(&mut self) -> Result<Flow, AllocError> {
        push_process(None, &mut self.body)?;
        Ok(Flow::Reply)
    }

    /// `g`
    pub(crate) fn show_registers(&mut self, timeline: &Timeline) -> Result<Flow, AllocError>
        ensures { self.old.looks ≢ 0 → OnOk result
            (self.new.body.items ≡ self.old.body.items ++ registers_of timeline.now self.old.looks) }
    {
        let pid = self.chosen(timeline.machine(), self.looks);
        push_registers_of(timeline.machine(), pid, &mut self.body)?;
        Ok(Flow::Reply)
    }

    /// `p`
    pub(crate) fn show_register(
        &mut self,
        timeline: &Timeline,
        number: u64,
    ) -> Result<Flow, AllocError> {
        let pid = self.chosen(timeline.machine(), self.looks);
        push_register_of(timeline.machine(), pid, number, &mut self.body)?;
        Ok(Flow::Reply)
    }

    /// `m`
    pub(crate) fn show_memory(
        &mut self,
        timeline: &Timeline,
        part: Part,
    ) -> Result<Flow, AllocError>
        ensures { self.old.looks ≢ 0 → OnOk result
            (self.new.body.items ≡ self.old.body.items ++ memory_of timeline.now self.old.looks part) }
    {
        let pid = self.chosen(timeline.machine(), self.looks);
        push_memory_of(self.alloc, timeline.machine(), pid, part, &mut self.body)?;
        Ok(Flow::Reply)
    }

    /// `qXfer:features:read:target.xml:`
    pub(crate) fn describe(&mut self, part: Part) -> Result<Flow, AllocError> {
        push_description_part(self.alloc, part, &mut self.body)?;
        Ok(Flow::Reply)
    }

    /// `T`
    pub(crate) fn show_alive(
        &mut self,
        timeline: &Timeline,
        thread: Thread,
    ) -> Result<Flow, AllocError> {
        let is_there = match pid_of(thread) {
            Some(pid) => is_alive(timeline.machine(), pid),
            None => false,
        };
        self.put_whether(is_there)
    }

    /// `qThreadExtraInfo,`
    pub(crate) fn show_words(
        &mut self,
        timeline: &Timeline,
        thread: Thread,
    ) -> Result<Flow, AllocError> {
        let Some(pid) = pid_of(thread) else {
            return self.put_whether(false);
        };
        let path = self.path(timeline, pid);
        let text = thread_words(self.alloc, timeline.machine(), pid, path)?;
        push_text(text.as_str(), &mut self.body)?;
        Ok(Flow::Reply)
    }

    /// `Hg`
    pub(crate) fn look_at(
        &mut self,
        timeline: &Timeline,
        thread: Thread,
    ) -> Result<Flow, AllocError> {
        let Some(pid) = pid_of(thread) else {
            return self.put_whether(false);
        };
        let is_there = pid == 0 || is_alive(timeline.machine(), pid);
        if is_there {
            self.looks = pid;
        }
        self.put_whether(is_there)
    }

    /// `Hc`
    pub(crate) fn step_by(&mut self, thread: Thread) -> Result<Flow, AllocError> {
        let Some(pid) = pid_of(thread) else {
            return self.put_whether(false);
        };
        self.steps = pid;
        self.put_whether(true)
    }
}
