//! A machine with its console.
ghost use Rattle.std.specs.Prelude.{◌≡◌, ◌<◌, ◌⊎◌, ◌↔◌, ◌∷◌, [], IfErr, IfOk, IsErrOf, drop, length, min, replicate};
ghost use Rattle.calls.specs.Computing.{Computes};
ghost use Rattle.machine.specs.Booted.{IsBooted};
ghost use Rattle.machine.specs.View.{IsUp};
ghost use Rattle.session.specs.Copied.{copied};
ghost use Rattle.session.specs.Played.{Answers, Refuses, Runs, Saves, StepAnswers, console_of};
ghost use Rattle.unixmodel.specs.declared.event.Event.TheVariants.{Key, Step, Tick};
ghost use Rattle.unixmodel.specs.Next.{next};

use crate::looks::copy_front;
use crate::play::{Ran, advance};
use blockdev::MemDisk;
use console::Writer;
use image::ImageFault;
use machine::{BootFault, Halt, Machine, NoMemory, boot};
use std::alloc::Global;
use std::mem::replace;
use sv39::Tlb;
use unixmodel::event::Event;
use unixmodel::limits::{FEWEST_FRAMES, MOST_FRAMES};

/// A machine over a disk in memory, and the bytes of its console that nobody took yet. Such a disk never fails, so no
/// call returns `Device`.
#[derive(Drop)]
pub struct Session {
    pub(crate) alloc: Global,
    pub(crate) machine: Machine<MemDisk, Tlb<64>>,
    pub(crate) console: Writer<Vec<u8>>,
}

impl Session {
    /// A machine that boots from a copy of an image, with `frames` frames, and whose console has printed nothing.
    ///
    /// The faults are those of `machine::boot`; `NoMemory` also where the host has no memory for the copy.
    pub fn boot(alloc: Global, image: &[u8], frames: u32) -> Result<Session, BootFault>
        ensures booted { IfOk result (λ s. IsBooted image.now (length image.now ∷ []) 0 frames s.machine) }
        ensures silent { IfOk result (λ s. console_of s ≡ []) }
        ensures refused { IfErr result (Refuses image.now frames) }
        ensures count { IsErrOf result BootFault.FrameCount ↔ ((frames < 64) ⊎ (32768 < frames)) }
    {
        if frames < FEWEST_FRAMES || frames > MOST_FRAMES {
            return Err(BootFault::FrameCount);
        }
        let Ok(bytes) = Vec::from_slice(alloc, image) else {
            return Err(BootFault::NoMemory);
        };
        let Ok(disk) = MemDisk::new(bytes) else {
            return Err(BootFault::Image(ImageFault::Length));
        };
        let machine = boot(alloc, disk, Tlb::<64>::new(), frames)?;
        Ok(Session {
            alloc,
            machine,
            console: Writer::new(Vec::new(alloc)),
        })
    }

    /// A session of its own, which goes on as this one would: with the same machine, and the same bytes of its console
    /// that nobody took yet.
    ///
    /// `NoMemory` where the host has none for it.
    pub fn copy(&self) -> Result<Session, NoMemory>
        ensures machine { IfOk result (λ s. s.machine ≡ self.now.machine) }
        ensures console { IfOk result (λ s. console_of s ≡ console_of self.now) }
    {
        let Ok(bytes) = Vec::from_slice(self.alloc, self.console.get_ref().as_slice()) else {
            return Err(NoMemory);
        };
        Ok(Session {
            alloc: self.alloc,
            machine: self.machine.copy(self.alloc, Tlb::<64>::new())?,
            console: Writer::new(bytes),
        })
    }

    // A disk in memory never fails.
    pub(crate) fn never_fails(&self)
        ensures { self.now.machine.failures ≡ 0 }
    {
        let _disk = self.machine.device();
    }

    /// Takes `times` steps, up to the first at which the machine stops.
    pub fn steps(&mut self, times: u32) -> Result<(), Halt>
        ensures { Answers self.old self.new (replicate times Step) result }
    {
        let done = self.machine.steps(times, &mut self.console);
        self.never_fails();
        done
    }

    /// Takes at most `most` steps, up to the first at which the machine stops, and none once no process runs or is
    /// ready. `steps` of as many does the same.
    pub fn run(&mut self, most: u32) -> Ran
        ensures { Runs self.old self.new most result }
    {
        if !self.machine.is_up() {
            return Ran {
                steps: 0,
                answer: Err(Halt::Halted),
            };
        }
        let ran = advance(&mut self.machine, most, &mut self.console);
        self.never_fails();
        ran
    }

    /// Does instructions of the process that runs, at most `most`: up to a call or a fault, which is not done, and no
    /// further than to the first of some addresses that the pc comes to after the first of them. Each is a step.
    /// Returns how many were done: none where no process runs, and where the machine has stopped.
    pub fn compute(&mut self, most: u32, stops: &[u64]) -> u32
        ensures computes { IsUp self.old.machine
            → Computes self.old.machine.state self.new.machine.state stops.now most result }
        ensures stopped { ¬ IsUp self.old.machine → (result ≡ 0) × (self.new ≡ self.old) }
        ensures machine { self.new.machine ≡ record self.old.machine { state = self.new.machine.state } }
        ensures console { console_of self.new ≡ console_of self.old }
    {
        self.machine.compute(most, stops)
    }

    /// A timer interrupt.
    pub fn tick(&mut self) -> Result<(), Halt>
        ensures { StepAnswers self.old self.new (next self.old.machine.state Tick) result }
    {
        let done = self.machine.step(Event::Tick, &mut self.console);
        self.never_fails();
        done
    }

    /// A typed byte.
    pub fn key(&mut self, byte: u8) -> Result<(), Halt>
        ensures { StepAnswers self.old self.new (next self.old.machine.state (Key byte)) result }
    {
        let done = self.machine.step(Event::Key(byte), &mut self.console);
        self.never_fails();
        done
    }

    /// Takes the oldest of the console's bytes that nobody took yet, as many as there is room for, and returns how
    /// many.
    pub fn take_console(&mut self, out: &mut [u8]) -> usize
        ensures count { result ≡ min (length (console_of self.old)) (length out.old) }
        ensures bytes { out.new ≡ copied (console_of self.old) out.old }
        ensures left { console_of self.new ≡ drop result (console_of self.old) }
        ensures same { self.new.machine ≡ self.old.machine }
    {
        let empty = Writer::new(Vec::new(self.alloc));
        let mut bytes = replace(&mut self.console, empty).into_inner();
        let count = copy_front(bytes.as_slice(), out);
        bytes.drain(..count);
        self.console = Writer::new(bytes);
        count
    }

    /// Gives up all processes and hands back the bytes of the disk, as many as the image had that booted, which denote
    /// the files that are left. The console's bytes that nobody took are gone. It works after `InitEnded`, too.
    ///
    /// `Halted` after `Console`.
    pub fn save(self) -> Result<Vec<u8>, Halt>
        ensures { Saves self.machine result }
    {
        let Session { machine, .. } = self;
        let disk = machine.save()?;
        Ok(disk.into_bytes())
    }
}
