//! What a debugger and its server have agreed on, and what is sent next.
ghost use Rattle.std.specs.Prelude.{◌≡◌, ◌≢◌, ◌++◌, OnOk};

use gdbanswers::{OpenFiles, current};
use gdbmotions::Tracer;
use gdbreplies::push_error;
use gdbwire::{Id, Thread, push_frame};
use std::alloc::{AllocError, Global};
use timeline::{Debuggee, Timeline};

/// The error number of what can't be done: EPERM.
pub(crate) const NOT_PERMITTED: u8 = 1;

/// The error number where the host has no memory: ENOMEM.
pub(crate) const NO_MEMORY: u8 = 12;

/// The error number of writes, which a recorded run has none of: EROFS.
pub(crate) const READ_ONLY: u8 = 30;

/// What comes after a packet.
#[derive(Clone, Copy, PartialEq, Eq)]
pub(crate) enum Flow {
    /// The answer, and the next packet.
    Reply,
    /// The answer, and the end.
    LastReply,
    /// The end.
    Leave,
}

/// What a debugger and its server have agreed on, and what is sent next.
#[derive(Drop)]
pub(crate) struct Session {
    pub(crate) alloc: Global,
    pub(crate) tracer: Tracer,
    pub(crate) files: OpenFiles,
    /// Whether frames are acknowledged.
    pub(crate) acks: bool,
    /// Whether the server stays where a program is ended.
    pub(crate) stays: bool,
    /// The process whose registers, memory and breaks are meant; 0 for any.
    pub(crate) looks: u32,
    /// The process whose steps back are meant; 0 for any.
    pub(crate) steps: u32,
    /// The time at which motions stop, too.
    pub(crate) target: Option<u64>,
    /// The text before whose printing motions stop, too, if it has bytes.
    pub(crate) output: Vec<u8>,
    /// The times of the events that print its last byte.
    pub(crate) prints: Vec<u64>,
    /// The body of the answer.
    pub(crate) body: Vec<u8>,
    /// The frames that are sent next.
    pub(crate) frames: Vec<u8>,
}

/// The process that a thread is of; 0 is any. `None` where the number is none that a process has.
pub(crate) fn pid_of(thread: Thread) -> Option<u32> {
    match (thread.process, thread.thread) {
        (Id::All, _) | (Id::One(0), Id::All) => Some(0),
        (Id::One(0), Id::One(pid)) | (Id::One(pid), _) => u32::try_from(pid).ok(),
    }
}

impl Session {
    /// A session that begins.
    pub(crate) fn new(alloc: Global) -> Session {
        Session {
            alloc,
            tracer: Tracer::new(alloc),
            files: OpenFiles::new(alloc),
            acks: true,
            stays: false,
            looks: 0,
            steps: 0,
            target: None,
            output: Vec::new(alloc),
            prints: Vec::new(alloc),
            body: Vec::new(alloc),
            frames: Vec::new(alloc),
        }
    }

    /// The process that is meant by a pid, of which 0 is any.
    pub(crate) fn chosen(&self, machine: &Debuggee, pid: u32) -> u32
        ensures { pid ≢ 0 → result ≡ pid }
    {
        if pid == 0 {
            current(machine, &self.tracer.points)
        } else {
            pid
        }
    }

    /// The path of the program that a process runs now.
    pub(crate) fn path(&self, timeline: &Timeline, pid: u32) -> &[u8] {
        self.tracer.names.path(pid, timeline.at())
    }

    /// Puts bytes at the end of the answer.
    pub(crate) fn put(&mut self, bytes: &[u8]) -> Result<Flow, AllocError>
        ensures { OnOk result (self.new.body.items ≡ self.old.body.items ++ bytes.now) }
    {
        self.body.extend_from_slice(bytes)?;
        Ok(Flow::Reply)
    }

    /// Puts an error at the end of the answer.
    pub(crate) fn put_error(&mut self, number: u8) -> Result<Flow, AllocError> {
        push_error(number, &mut self.body)?;
        Ok(Flow::Reply)
    }

    /// Puts `OK` at the end of the answer, or that something can't be done.
    pub(crate) fn put_whether(&mut self, is_done: bool) -> Result<Flow, AllocError> {
        if is_done {
            self.put(b"OK")
        } else {
            self.put_error(NOT_PERMITTED)
        }
    }

    /// Makes a frame of the answer.
    pub(crate) fn send(&mut self) -> Result<(), AllocError> {
        push_frame(self.body.as_slice(), &mut self.frames)?;
        self.body.clear();
        Ok(())
    }
}
