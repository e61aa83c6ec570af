//! The report of a run, as a text.
ghost use Rattle.std.specs.Prelude.{◌+◌, ◌≡◌};
ghost use Rattle.unixmodel.specs.Counts.{page_frames};
ghost use Rattle.unixmodel.specs.Numbers.{ceil_div};

use crate::last_calls::LastCalls;
use crate::outcome::Stop;
use crate::registers::write_register_rows;
use crate::reporter::{Reporter, pids};
use crate::who::Who;
use addresses::Name;
use blockdev::BlockDev;
use jsonrows::can_end;
use machine::{Halt, Machine, OpenOn, Opened, ProcessState, Seen};
use next_fault::Named;
use std::fmt;
use std::fmt::Display;
use sv39::Translate;
use waits::{Wait, wait_of};

/// What a run was, at its end.
#[derive(Drop)]
pub struct Report<'a, D: BlockDev, T: Translate> {
    pub(crate) reporter: &'a Reporter,
    pub(crate) machine: &'a Machine<D, T>,
    pub(crate) ended: Result<(), Halt>,
}

/// How many frames a process of `size` bytes takes.
pub(crate) fn frames_of(size: u64) -> u64
    ensures { result ≡ 4 + page_frames (ceil_div size 4096) }
{
    let pages = size.div_ceil(4096);
    let root = if pages > 0 { 1 } else { 0 };
    4u64.saturating_add(pages)
        .saturating_add(pages.div_ceil(512))
        .saturating_add(root)
}

/// What an open file is open on.
#[derive(Clone, Copy)]
pub(crate) struct On(pub OpenOn);

impl fmt::Display for On {
    fn fmt<W: fmt::Write>(&self, f: &mut fmt::Formatter<W>) -> fmt::Result {
        match self.0 {
            OpenOn::File { number, offset } => write!(f, "file {number} at {offset}"),
            OpenOn::Console { .. } => f.write_str("console"),
            OpenOn::Device { number } => write!(f, "device {number}"),
            OpenOn::ReadEnd { pipe } => write!(f, "read end of pipe {pipe}"),
            OpenOn::WriteEnd { pipe } => write!(f, "write end of pipe {pipe}"),
        }
    }
}

/// What a process does.
#[derive(Clone, Copy)]
pub(crate) struct Doing(pub ProcessState);

impl fmt::Display for Doing {
    fn fmt<W: fmt::Write>(&self, f: &mut fmt::Formatter<W>) -> fmt::Result {
        match self.0 {
            ProcessState::Running => f.write_str("runs"),
            ProcessState::Ready => f.write_str("is ready"),
            ProcessState::Waiting(_) => f.write_str("waits"),
            ProcessState::Zombie(status) => write!(f, "ended with status {status}"),
        }
    }
}

/// What a process waits for, in words.
#[derive(Drop)]
pub(crate) struct Waiting<'a, D: BlockDev, T: Translate> {
    pub reporter: &'a Reporter,
    pub machine: &'a Machine<D, T>,
    pub pid: u32,
    pub wait: Wait,
}

impl<D: BlockDev, T: Translate> Waiting<'_, D, T> {
    // Writes a process that can end the wait.
    fn write_cause<W: fmt::Write>(&self, f: &mut fmt::Formatter<W>, pid: u32) -> fmt::Result {
        if pid == self.pid {
            f.write_str("it itself")
        } else {
            self.reporter.who(pid).fmt(f)
        }
    }

    // Writes the processes that can end the wait, with a word between them, and returns how many they are.
    fn write_causes<W: fmt::Write>(
        &self,
        f: &mut fmt::Formatter<W>,
        between: &str,
    ) -> Result<usize, fmt::Error> {
        let mut count: usize = 0;
        for pid in pids(self.machine).as_slice() {
            if !can_end(self.machine, *pid, self.pid, self.wait) {
                continue;
            }
            if count > 0 {
                write!(f, " {between} ")?;
            }
            self.write_cause(f, *pid)?;
            count = count.saturating_add(1);
        }
        Ok(count)
    }

    // Writes that the processes hold the other end of a pipe.
    fn write_holders<W: fmt::Write>(&self, f: &mut fmt::Formatter<W>) -> fmt::Result {
        let count = self.write_causes(f, "and")?;
        f.write_str(if count > 1 { " hold" } else { " holds" })
    }

    // Writes the children that are waited for.
    fn write_children<W: fmt::Write>(&self, f: &mut fmt::Formatter<W>) -> fmt::Result {
        f.write_str("waits for ")?;
        self.write_causes(f, "or")?;
        Ok(())
    }

    // A wait on a pipe, whose other end these hold.
    fn write_pipe<W: fmt::Write>(&self, f: &mut fmt::Formatter<W>, what: &str) -> fmt::Result {
        f.write_str(what)?;
        self.write_holders(f)
    }
}

impl<D: BlockDev, T: Translate> fmt::Display for Waiting<'_, D, T> {
    fn fmt<W: fmt::Write>(&self, f: &mut fmt::Formatter<W>) -> fmt::Result {
        match self.wait {
            Wait::Console => f.write_str("reads the console"),
            Wait::Tick(tick) => write!(f, "sleeps until tick {tick}"),
            Wait::Child => self.write_children(f),
            Wait::Bytes(_) => self.write_pipe(f, "reads a pipe whose write end "),
            Wait::Room(_) => self.write_pipe(f, "writes to a full pipe whose read end "),
        }
    }
}

// Whose child a process is, where it goes on, and what it takes.
fn write_place<W: fmt::Write>(
    f: &mut fmt::Formatter<W>,
    seen: &Seen,
    name: Option<Name<'_>>,
) -> fmt::Result {
    let (parent, size) = (seen.parent, seen.size);
    let pc = Pc { pc: seen.pc, name };
    let frames = frames_of(size);
    let killed = if seen.killed { ", killed" } else { "" };
    writeln!(
        f,
        "; parent {parent}, pc {pc}, {size} bytes, {frames} frames{killed}"
    )
}

// An open file that a descriptor names, in a line.
fn write_opened<W: fmt::Write>(
    f: &mut fmt::Formatter<W>,
    descriptor: usize,
    opened: &Opened,
) -> fmt::Result {
    let on = On(opened.on);
    writeln!(f, "  {descriptor}: {on}")
}

// The last calls before a fault, a line each.
fn write_calls<W: fmt::Write>(f: &mut fmt::Formatter<W>, calls: &LastCalls) -> fmt::Result {
    for made in &calls.all() {
        if let Some(made) = made {
            writeln!(f, "  call at {made}")?;
        }
    }
    Ok(())
}

/// A fault of a process: `pid 3 (oops): load from 0x7000008 at pc 0x88: the process has no page there`.
#[derive(Clone, Copy)]
pub struct FaultLine<'a> {
    pub(crate) who: Who,
    pub(crate) fault: Named<Name<'a>>,
}

impl fmt::Display for FaultLine<'_> {
    fn fmt<W: fmt::Write>(&self, f: &mut fmt::Formatter<W>) -> fmt::Result {
        let (who, fault) = (self.who, self.fault);
        write!(f, "{who}: {fault}")
    }
}

// A pc, and its name, if it is known: `0x88 in sum+0x10 (oops.c:4)`.
#[derive(Clone, Copy)]
struct Pc<'a> {
    pc: u64,
    name: Option<Name<'a>>,
}

impl fmt::Display for Pc<'_> {
    fn fmt<W: fmt::Write>(&self, f: &mut fmt::Formatter<W>) -> fmt::Result {
        let pc = self.pc;
        write!(f, "{pc:#x}")?;
        match self.name {
            Some(name) => write!(f, " in {name}"),
            None => Ok(()),
        }
    }
}

impl<'a, D: BlockDev, T: Translate> Report<'a, D, T> {
    pub(crate) fn new(
        reporter: &'a Reporter,
        machine: &'a Machine<D, T>,
        ended: Result<(), Halt>,
    ) -> Report<'a, D, T> {
        Report {
            reporter,
            machine,
            ended,
        }
    }

    /// Why the events came to their end.
    pub(crate) fn stop(&self) -> Stop {
        match self.ended {
            Err(halt) => Stop::at(halt),
            Ok(()) => match self.machine.running() {
                Some(pid) => Stop::Runs(self.reporter.who(pid)),
                None if self.machine.is_idle() => Stop::Idle,
                None => Stop::Ready,
            },
        }
    }

    /// What a process waits for, if it does.
    pub(crate) fn waiting(&self, pid: u32) -> Option<Waiting<'a, D, T>> {
        let wait = wait_of(self.machine, pid)?;
        Some(Waiting {
            reporter: self.reporter,
            machine: self.machine,
            pid,
            wait,
        })
    }

    /// The open file that a descriptor of a process names.
    pub(crate) fn open_on(&self, pid: u32, descriptor: usize) -> Option<Opened> {
        let holdings = self.machine.holdings(pid)?;
        let file = (*holdings.descriptors.get(descriptor)?)?;
        self.machine.opened(usize::from(file))
    }

    // What a process does, or what it waits for.
    fn write_doing<W: fmt::Write>(
        &self,
        f: &mut fmt::Formatter<W>,
        pid: u32,
        state: ProcessState,
    ) -> fmt::Result {
        match self.waiting(pid) {
            Some(waiting) => waiting.fmt(f),
            None => Doing(state).fmt(f),
        }
    }

    // A process in a line, and its descriptors in further ones.
    fn write_process<W: fmt::Write>(&self, f: &mut fmt::Formatter<W>, seen: &Seen) -> fmt::Result {
        let who = self.reporter.who(seen.pid);
        write!(f, "{who} ")?;
        self.write_doing(f, seen.pid, seen.state)?;
        let Ok(name) = self.reporter.name(&who, seen.pc) else {
            return Err(fmt::Error);
        };
        write_place(f, seen, name)?;
        self.write_descriptors(f, seen.pid)
    }

    // What the descriptors of a process are open on, a line each.
    fn write_descriptors<W: fmt::Write>(&self, f: &mut fmt::Formatter<W>, pid: u32) -> fmt::Result {
        for descriptor in 0..16 {
            if let Some(opened) = self.open_on(pid, descriptor) {
                write_opened(f, descriptor, &opened)?;
            }
        }
        Ok(())
    }

    fn write_processes<W: fmt::Write>(&self, f: &mut fmt::Formatter<W>) -> fmt::Result {
        for pid in pids(self.machine).as_slice() {
            if let Some(seen) = self.machine.inspect(*pid) {
                self.write_process(f, &seen)?;
            }
        }
        Ok(())
    }

    fn write_faults<W: fmt::Write>(&self, f: &mut fmt::Formatter<W>) -> fmt::Result {
        for fallen in self.reporter.faults() {
            let Ok(line) = self.reporter.line(fallen) else {
                return Err(fmt::Error);
            };
            writeln!(f, "fault: {line}")?;
            write_calls(f, &fallen.calls)?;
            write_register_rows(f, &fallen.registers)?;
        }
        Ok(())
    }

    // How many faults came that aren't kept.
    fn write_more_faults<W: fmt::Write>(&self, f: &mut fmt::Formatter<W>) -> fmt::Result {
        let more = self.reporter.more_faults();
        if more == 0 {
            return Ok(());
        }
        writeln!(f, "fault: {more} more")
    }

    fn write_free_frames<W: fmt::Write>(&self, f: &mut fmt::Formatter<W>) -> fmt::Result {
        let free = self.machine.free_frames();
        writeln!(f, "free frames: {free}")
    }
}

// What there is at the end, after why the run stopped.
impl<D: BlockDev, T: Translate> fmt::Display for Report<'_, D, T> {
    fn fmt<W: fmt::Write>(&self, f: &mut fmt::Formatter<W>) -> fmt::Result {
        self.write_processes(f)?;
        self.write_free_frames(f)?;
        self.write_faults(f)?;
        self.write_more_faults(f)
    }
}
