//! A session on a disk of which one access fails, each in its turn.
use crate::session::{Session, disk_of, events_of};
use anyhow::{bail, ensure};
use blockdev::{BlockDev, FailAt, MemDisk};
use console::Writer;
use machine::{BootFault, Halt, Machine, boot};
use std::alloc::Global;
use std::io::Write;
use std::num::NonZeroU64;
use sv39::Plain;
use unixmodel::event::Event;

// A boot reads the whole image: up to its last accesses one in `STRIDE` is tried, and after that each.
const STRIDE: u64 = 16;

// More accesses than a session makes.
const ACCESSES: u64 = 20_000;

// The number of the access after `good` good ones.
fn access(good: u64) -> NonZeroU64 {
    NonZeroU64::MIN.saturating_add(good)
}

// How far a machine comes whose disk fails: the later the access, the further.
#[derive(Clone, Copy, PartialEq)]
enum Course {
    // It doesn't boot.
    Boot,
    // It halts at an event, and prints what those before it print.
    Halt,
    // All events are done, and it can't be saved.
    Save,
    // It is saved.
    End,
}

// What events print, one after the other.
#[derive(Drop)]
struct Printed {
    bytes: Vec<u8>,
    // How many bytes there are after each event.
    counts: Vec<usize>,
}

// What an event prints on a machine that goes on.
fn printed_by(
    alloc: Global,
    machine: &mut Machine<MemDisk, Plain>,
    event: Event,
) -> anyhow::Result<Vec<u8>> {
    let mut out = Writer::new(Vec::new(alloc));
    ensure!(machine.step(event, &mut out).is_ok(), "the machine halted");
    Ok(out.into_inner())
}

impl Printed {
    // What events print on a disk that doesn't fail.
    fn of(alloc: Global, image: &[u8], frames: u32, events: &[Event]) -> anyhow::Result<Printed> {
        let mut machine = boot(alloc, disk_of(alloc, image)?, Plain::new(), frames)?;
        let mut bytes = Vec::new(alloc);
        let mut counts = Vec::new(alloc);
        for number in 0..events.len() {
            if let Some(event) = events.get(number) {
                let printed = printed_by(alloc, &mut machine, *event)?;
                bytes.extend_from_slice(printed.as_slice())?;
                counts.push(bytes.len())?;
            }
        }
        Ok(Printed { bytes, counts })
    }

    // What the first `events` events print.
    fn by(&self, events: usize) -> &[u8] {
        let last = events.checked_sub(1);
        let count = last.and_then(|last| self.counts.get(last));
        self.bytes.get(..count.copied().unwrap_or(0)).unwrap_or(&[])
    }
}

// Gives events up to the one that isn't done: how many are done, and why that one isn't.
fn go<D: BlockDev>(
    machine: &mut Machine<D, Plain>,
    events: &[Event],
    out: &mut Writer<Vec<u8>>,
) -> (usize, Option<Halt>) {
    for number in 0..events.len() {
        if let Some(event) = events.get(number)
            && let Err(halt) = machine.step(*event, out)
        {
            return (number, Some(halt));
        }
    }
    (events.len(), None)
}

// Whether every further event returns `Halted`.
fn is_still<D: BlockDev>(machine: &mut Machine<D, Plain>, out: &mut Writer<Vec<u8>>) -> bool {
    machine.step(Event::Step, out) == Err(Halt::Halted)
        && machine.run(&[Event::Tick], out) == Err(Halt::Halted)
}

// How it goes on where all events are done.
fn save<D: BlockDev>(machine: Machine<D, Plain>) -> anyhow::Result<Course> {
    match machine.save() {
        Ok(_) => Ok(Course::End),
        Err(Halt::Device) => Ok(Course::Save),
        Err(_) => bail!("the machine isn't saved"),
    }
}

// A session, and what it prints where no access fails.
#[derive(Drop)]
struct Outage<'a> {
    image: &'a [u8],
    frames: u32,
    events: Vec<Event>,
    printed: Printed,
}

impl<'a> Outage<'a> {
    fn new(alloc: Global, session: &Session<'_>, image: &'a [u8]) -> anyhow::Result<Outage<'a>> {
        let events = events_of(alloc, session)?;
        let printed = Printed::of(alloc, image, session.frames, events.as_slice())?;
        Ok(Outage {
            image,
            frames: session.frames,
            events,
            printed,
        })
    }

    // How far a machine comes that booted. What it prints is a beginning of all, which ends with a whole event.
    fn play<D: BlockDev>(
        &self,
        alloc: Global,
        mut machine: Machine<D, Plain>,
    ) -> anyhow::Result<Course> {
        let mut out = Writer::new(Vec::new(alloc));
        let (done, halt) = go(&mut machine, self.events.as_slice(), &mut out);
        let course = match halt {
            None => save(machine)?,
            Some(Halt::Device) if is_still(&mut machine, &mut out) => Course::Halt,
            Some(_) => bail!("the machine halted in another way"),
        };
        let printed = out.into_inner();
        ensure!(
            printed.as_slice() == self.printed.by(done),
            "it prints something else"
        );
        Ok(course)
    }

    // How far it comes where the access of this number fails.
    fn course(&self, alloc: Global, n: NonZeroU64) -> anyhow::Result<Course> {
        let disk = FailAt::new(disk_of(alloc, self.image)?, n);
        match boot(alloc, disk, Plain::new(), self.frames) {
            Ok(machine) => self.play(alloc, machine),
            Err(BootFault::Device) => Ok(Course::Boot),
            Err(fault) => bail!("it doesn't boot: {fault}"),
        }
    }

    // The number of an access that fails the boot, near the last of these.
    fn booting(&self, alloc: Global) -> anyhow::Result<NonZeroU64> {
        for round in 0..ACCESSES {
            if self.course(alloc, access(STRIDE * (round + 1)))? != Course::Boot {
                return Ok(access(STRIDE * round));
            }
        }
        bail!("it never boots")
    }

    // Lets each access after this one fail, up to where none does.
    // A later access fails no sooner, and each course is reached.
    fn fail_behind(&self, alloc: Global, booting: NonZeroU64) -> anyhow::Result<()> {
        let mut reached = Course::Boot as u8;
        for more in 1..ACCESSES {
            let course = self.course(alloc, booting.saturating_add(more))? as u8;
            ensure!(
                course == reached || course == reached.wrapping_add(1),
                "it comes too far or not far enough"
            );
            reached = course;
            if reached == Course::End as u8 {
                return Ok(());
            }
        }
        bail!("it never ends well")
    }
}

/// Plays a session once for each access at which its disk may fail, of those that a boot makes for some, and prints its
/// title.
/// The machine doesn't boot, or halts, or can't be saved, and reports that its device failed; and it does no more.
/// Its console has a beginning of what the whole session prints, up to the end of an event.
pub fn fail_each<W: Write>(
    alloc: Global,
    session: &Session<'_>,
    image: &[u8],
    out: &mut W,
) -> anyhow::Result<()> {
    let outage = Outage::new(alloc, session, image)?;
    let booting = outage.booting(alloc)?;
    outage.fail_behind(alloc, booting)?;
    writeln!(out, "{}\n[each access failed in its turn]\n", session.title)?;
    Ok(())
}
