//! A session: a machine is given what is typed, and time.
ghost use Rattle.std.specs.Prelude.{OnErr, OnOk, ◌∷◌, ◌≡◌, ◌≤◌, false, map};
ghost use Rattle.std.specs.Io.KnownBytes.{Keeps};
ghost use Rattle.driver.specs.Driven.{halts};
ghost use Rattle.driver.specs.Sessions.{IsGivenAll, IsSession, answered, is_end, is_ticked, keys_of, mood_of, moved};
ghost use Rattle.driver.specs.Sessions.{steps};
ghost use Rattle.events.specs.Paced.{ticks_of};
ghost use Rattle.machine.specs.View.{IsUp};
ghost use Rattle.events.specs.declared.clock.Clock.TheVariants.{Off};
ghost use Rattle.unixmodel.specs.Failures.{Rises};

use crate::driver::Driver;
use crate::terminal::{Given, Mood, Terminal};
use crate::wanted::Walked;
use crate::watch::Watch;
use blockdev::BlockDev;
use console::OutFault;
use events::Goal;
use machine::{Halt, Machine};
use std::io::Write;
use sv39::Translate;

// What a machine does.
fn mood<D: BlockDev, T: Translate>(machine: &Machine<D, T>) -> Mood
    ensures { result ≡ mood_of machine.now.state }
{
    if !machine.is_idle() {
        Mood::Busy
    } else if machine.is_anyone_asleep() {
        Mood::Asleep
    } else {
        Mood::Idle
    }
}

// The keys that were given.
fn keys(given: &Given) -> &[u8]
    ensures { result.now ≡ keys_of given.now }
{
    match given {
        Given::Keys(keys) => keys.as_slice(),
        _ => &[],
    }
}

// Whether no key will come.
fn is_end(given: &Given) -> bool
    ensures { result ≡ is_end given.now }
{
    matches!(given, Given::End)
}

// Whether a tick follows.
fn ticks(mood: Mood, given: &Given) -> bool
    ensures { result ≡ is_ticked mood given.now }
{
    match (mood, given) {
        (Mood::Busy, Given::Keys(_) | Given::Nothing) | (Mood::Asleep, Given::Nothing) => true,
        _ => false,
    }
}

// How what was served ended.
fn outcome(served: Result<Walked, Halt>) -> Result<(), Halt>
    ensures { result ≡ halts served }
{
    match served {
        Ok(_) => Ok(()),
        Err(halt) => Err(halt),
    }
}

impl<D: BlockDev, T: Translate, R: Terminal, V: Watch, W: Write> Driver<D, T, R, V, W> {
    // Takes a quantum of steps: until no process runs and none is ready, and at most `most`.
    fn work(&mut self, most: u32) -> Result<(), Halt>
        requires up { IsUp self.old.machine }
        requires off { self.old.clock ≡ Off }
        ensures given { IsGivenAll (steps most self.old.machine.state) self.old.machine self.new.machine self.old.out
            self.new.out (R.kept self.old.keeper) (R.kept self.new.keeper) self.new.clock result }
        ensures gives { R.gives self.new.keeper ≡ R.gives self.old.keeper }
    {
        let idle = Goal::Idle;
        outcome(self.walk(most, Some(&idle)))
    }

    // Gives a tick where it is due.
    fn tick_if(&mut self, is_due: bool) -> Result<(), Halt>
        requires up { IsUp self.old.machine }
        requires off { self.old.clock ≡ Off }
        ensures given { IsGivenAll (ticks_of is_due) self.old.machine self.new.machine self.old.out self.new.out
            (R.kept self.old.keeper) (R.kept self.new.keeper) self.new.clock result }
        ensures gives { R.gives self.new.keeper ≡ R.gives self.old.keeper }
    {
        if is_due {
            outcome(self.tick(1))
        } else {
            Ok(())
        }
    }

    // Gives the keys and the tick that come at once of what the keyboard gave.
    fn answer(&mut self, mood: Mood, given: &Given) -> Result<(), Halt>
        requires up { IsUp self.old.machine }
        requires off { self.old.clock ≡ Off }
        ensures given { IsGivenAll (answered mood given.now) self.old.machine self.new.machine self.old.out
            self.new.out (R.kept self.old.keeper) (R.kept self.new.keeper) self.new.clock result }
        ensures gives { R.gives self.new.keeper ≡ R.gives self.old.keeper }
    {
        self.press(keys(given))?;
        self.tick_if(ticks(mood, given))
    }

    // Shows the processes if the keyboard asked for it.
    fn show_if(&mut self, given: &Given)
        ensures machine { self.new.machine ≡ self.old.machine }
        ensures out { self.new.out ≡ self.old.out }
        ensures clock { self.new.clock ≡ self.old.clock }
        ensures kept { R.kept self.new.keeper ≡ R.kept self.old.keeper }
        ensures gives { R.gives self.new.keeper ≡ R.gives self.old.keeper }
    {
        if let Given::Show = given {
            self.keeper.show(&self.machine);
        }
    }

    // Gives the events of what the keyboard gave, which isn't its end, and the quantum after them.
    fn obey(&mut self, quantum: u32, given: &Given) -> Result<(), Halt>
        requires up { IsUp self.old.machine }
        requires off { self.old.clock ≡ Off }
        requires more { is_end given.now ≡ false }
        ensures given { IsGivenAll (moved quantum self.old.machine.state given.now) self.old.machine
            self.new.machine self.old.out self.new.out (R.kept self.old.keeper) (R.kept self.new.keeper)
            self.new.clock result }
        ensures gives { R.gives self.new.keeper ≡ R.gives self.old.keeper }
    {
        self.show_if(given);
        let mood = mood(&self.machine);
        self.answer(mood, given)?;
        self.work(quantum)
    }

    // Writes out the console's bytes. An error says that not all could be.
    fn flush(&mut self) -> Result<(), OutFault>
        ensures machine { self.new.machine ≡ self.old.machine }
        ensures keeper { self.new.keeper ≡ self.old.keeper }
        ensures clock { self.new.clock ≡ self.old.clock }
        ensures kept { Keeps self.old.out.contents self.new.out.contents }
        ensures later { self.old.out.failed ≤ self.new.out.failed }
        ensures cause { OnErr result (Rises self.old.out.failed self.new.out.failed) }
        ensures sound { OnOk result (self.new.out.failed ≡ self.old.out.failed) }
    {
        self.since = 0;
        self.out.flush()
    }

    /// A session: quanta of steps, keys and ticks, as the keyboard gives keys or none, until its end. Just these events
    /// are recorded. The console's bytes are written out before each question to the keyboard; where that fails, the
    /// session ends, too. `Err` says how the machine halted.
    pub fn sit(&mut self, quantum: u32) -> Result<(), Halt>
        requires up { IsUp self.old.machine }
        requires off { self.old.clock ≡ Off }
        ensures { IsSession quantum (R.gives self.old.keeper) (R.gives self.new.keeper) self.old.machine
            self.new.machine self.old.out self.new.out (R.kept self.old.keeper) (R.kept self.new.keeper) result }
    {
        self.work(quantum)?;
        for _moves in 0..u64::MAX {
            if self.flush().is_err() {
                return Ok(());
            }
            let mood = mood(&self.machine);
            let given = self.keeper.ask(mood);
            if is_end(&given) {
                return Ok(());
            }
            self.obey(quantum, &given)?;
        }
        Ok(())
    }
}
