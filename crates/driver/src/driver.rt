//! The loop that gives a machine its events.
ghost use Rattle.std.specs.Prelude.{◌+◌, ◌<◌, ◌≡◌, ◌≢◌, ◌≤◌, MatchBool, [], Some, None, option_map, true, ◌&&◌};
ghost use Rattle.std.specs.Io.KnownBytes.{Keeps};
ghost use Rattle.driver.specs.Driven.{Goes, IsDriven, Serves, no_steps, shown_by, spot_at};
ghost use Rattle.driver.specs.Goals.{GoesOn, IsFound, IsOver, IsReached, IsUnreached};
ghost use Rattle.driver.specs.Pacing.{Follows};
ghost use Rattle.driver.specs.Played.{IsPlayed};
ghost use Rattle.driver.specs.Tails.{shown_of, written_of};
ghost use Rattle.driver.specs.declared.wanted.Wanted.TheVariants.{End, Keys, Line, Steps, Ticks};
ghost use Rattle.events.specs.Scripts.{script_events};
ghost use Rattle.kernel.specs.Idle.{is_idle};
ghost use Rattle.machine.specs.View.{IsUp};
ghost use Rattle.events.specs.Clocks.{is_off, quiet};
ghost use Rattle.events.specs.declared.clock.Clock.TheVariants.{Off};

use crate::play::{Lines, Unreached};
use crate::script::Script;
use crate::source::Source;
use crate::strides::{Reach, each, once, stretch};
use crate::tail::Tail;
use crate::wanted::{Walked, Wanted};
use crate::watch::Watch;
use blockdev::BlockDev;
use events::{Clock, Command, Goal, Play, Record};
use machine::{Halt, Machine};
use std::io::Write;
use sv39::Translate;
use unixmodel::event::Event;
use waits::{is_at_prompt, is_quiet};

/// How many steps or ticks there are at most between two times at which the console's bytes are written out.
const BATCH: u32 = 65536;

/// The key that ends a typed line.
const LINE_END: u8 = b'\n';

/// A machine that is given events, with who records them, who looks on, and what takes the console's bytes.
#[derive(Drop)]
pub struct Driver<D: BlockDev, T: Translate, R, V, W: Write> {
    pub(crate) machine: Machine<D, T>,
    pub(crate) keeper: R,
    watch: V,
    pub(crate) out: Tail<W>,
    // What gives ticks between steps.
    clock: Clock,
    // How many events there were since the console's bytes were written out; as many as a batch has where that is due
    // before the next.
    pub(crate) since: u32,
    // Whether it is to be known at which step the machine halts.
    is_exact: bool,
}

impl<D: BlockDev, T: Translate, R: Record, V: Watch, W: Write> Driver<D, T, R, V, W> {
    /// A machine that takes events, and a writer that takes what its console prints. No clock runs.
    pub fn new(machine: Machine<D, T>, keeper: R, watch: V, writer: W) -> Self
        ensures machine { result.machine ≡ machine }
        ensures keeper { result.keeper ≡ keeper }
        ensures written { written_of result.out.contents ≡ W.contents writer }
        ensures shown { shown_of result.out.contents ≡ option_map (λ bytes. []) (W.contents writer) }
        ensures failed { result.out.failed ≡ 0 }
        ensures clock { result.clock ≡ Off }
    {
        Driver {
            machine,
            keeper,
            watch,
            out: Tail::new(writer),
            clock: Clock::Off,
            since: 0,
            is_exact: false,
        }
    }

    // Whether a goal is reached.
    fn is_reached(&self, goal: &Goal) -> bool
        requires { IsUp self.now.machine }
        ensures { MatchBool result (IsReached goal.now self.now.machine.state (shown_by self.now.out))
            (IsUnreached goal.now self.now.machine.state (shown_by self.now.out)) }
    {
        match goal {
            Goal::Shown(text) => self.out.ends_with(text.as_slice()),
            Goal::Idle => self.machine.is_idle(),
            Goal::Prompt => is_at_prompt(&self.machine),
            Goal::Quiet => is_quiet(&self.machine),
            Goal::Halt => false,
        }
    }

    // Whether what is waited for has come.
    fn is_found(&self, aim: Option<&Goal>) -> bool
        requires { IsUp self.now.machine }
        ensures { IsFound (option_map (λ g. g.now) aim.entry) result self.now.machine.state
            (shown_by self.now.out) }
    {
        match aim {
            None => false,
            Some(goal) => self.is_reached(goal),
        }
    }

    // Whether no process runs and none is ready, and no clock runs.
    fn is_stuck(&self) -> bool
        ensures { result ≡ (is_off self.now.clock && is_idle self.now.machine.state) }
    {
        self.clock.is_off() && self.machine.is_idle()
    }

    // Whether a wait for a goal is over.
    fn is_ended(&self, goal: &Goal) -> bool
        requires { IsUp self.now.machine }
        ensures { MatchBool result
            (IsOver (Some goal.now) self.now.clock self.now.machine.state (shown_by self.now.out))
            (GoesOn (Some goal.now) self.now.clock self.now.machine.state (shown_by self.now.out)) }
    {
        if self.is_reached(goal) {
            return true;
        }
        self.is_stuck()
    }

    // Whether a wait is over.
    fn is_over(&self, aim: Option<&Goal>) -> bool
        requires { IsUp self.now.machine }
        ensures { MatchBool result
            (IsOver (option_map (λ g. g.now) aim.entry) self.now.clock self.now.machine.state (shown_by self.now.out))
            (GoesOn (option_map (λ g. g.now) aim.entry) self.now.clock self.now.machine.state (shown_by self.now.out)) }
    {
        match aim {
            None => false,
            Some(goal) => self.is_ended(goal),
        }
    }

    // Writes out the console's bytes where a batch begins of an event that comes `times` times, and came `made` times
    // up to now, if more than a batch would have come since that was last done. Returns how many come before the next.
    fn write_out(&mut self, event: Event, made: u32, times: u32) -> u32
        requires { made < times }
        ensures machine { self.new.machine ≡ self.old.machine }
        ensures keeper { self.new.keeper ≡ self.old.keeper }
        ensures clock { self.new.clock ≡ self.old.clock }
        ensures kept { Keeps self.old.out.contents self.new.out.contents }
        ensures later { self.old.out.failed ≤ self.new.out.failed }
        ensures some { 0 < result }
        ensures few { result ≤ 65536 }
        ensures within { made + result ≤ times }
    {
        let rest = times - made;
        let part = made % BATCH;
        if part > 0 {
            return rest.min(BATCH - part);
        }
        let more = rest.min(BATCH);
        self.since = self.since.saturating_add(more);
        let is_early = self.since <= BATCH;
        if is_early {
            return more;
        }
        self.since = more;
        let _ = self.out.flush();
        self.watch.written_out(event, made);
        more
    }

    // Gives ticks.
    pub(crate) fn tick(&mut self, times: u32) -> Result<Walked, Halt>
        requires { IsUp self.old.machine }
        ensures given { Serves (Ticks times) None [] self.old.machine self.new.machine self.old.out self.new.out
            (R.kept self.old.keeper) (R.kept self.new.keeper) self.old.clock self.new.clock result }
        ensures rest { R.rest self.new.keeper ≡ R.rest self.old.keeper }
    {
        let mut made = 0;
        while made < times {
            let count = self.write_out(Event::Tick, made, times);
            self.keeper.ticks(count);
            each(
                &mut self.machine,
                Event::Tick,
                count,
                &mut self.watch,
                &mut self.out,
            )?;
            made += count;
        }
        self.watch.repeated(Event::Tick, times);
        Ok(Walked::NONE)
    }

    // Gives keys, one after the other.
    pub(crate) fn press(&mut self, keys: &[u8]) -> Result<Walked, Halt>
        requires { IsUp self.old.machine }
        ensures given { Serves Keys None keys.now self.old.machine self.new.machine self.old.out self.new.out
            (R.kept self.old.keeper) (R.kept self.new.keeper) self.old.clock self.new.clock result }
        ensures rest { R.rest self.new.keeper ≡ R.rest self.old.keeper }
    {
        for key in keys {
            self.keeper.keys(&[*key]);
            once(
                &mut self.machine,
                Event::Key(*key),
                &mut self.watch,
                &mut self.out,
            )?;
        }
        Ok(Walked::NONE)
    }

    // Gives keys, and the one that ends a line.
    fn press_line(&mut self, keys: &[u8]) -> Result<Walked, Halt>
        requires { IsUp self.old.machine }
        ensures { Serves Line None keys.now self.old.machine self.new.machine self.old.out self.new.out
            (R.kept self.old.keeper) (R.kept self.new.keeper) self.old.clock self.new.clock result }
    {
        self.press(keys)?;
        self.press(&[LINE_END])
    }

    // Takes steps after none of which the clock strikes, as many as are done in one go.
    fn stride(&mut self, most: u32, aims: bool) -> (u32, Result<(), Halt>)
        requires up { IsUp self.old.machine }
        requires some { 0 < most }
        requires few { most ≤ 65536 }
        requires quiet { most ≤ quiet self.old.clock }
        ensures goes { Goes aims most self.old.machine self.new.machine self.old.out self.new.out
            (R.kept self.old.keeper) (R.kept self.new.keeper) self.old.clock self.new.clock result.0 result.1 }
        ensures rest { R.rest self.new.keeper ≡ R.rest self.old.keeper }
    {
        let reach = Reach {
            most,
            aims,
            is_exact: self.is_exact,
        };
        let (made, ended) = stretch(&mut self.machine, reach, &mut self.watch, &mut self.out);
        self.keeper.steps(made);
        self.clock.pass(made);
        (made, ended)
    }

    // Takes a step, and gives a tick where the clock strikes after it.
    fn pace(&mut self) -> Result<(), Halt>
        requires { IsUp self.old.machine }
        ensures goes { Goes true 1 self.old.machine self.new.machine self.old.out self.new.out
            (R.kept self.old.keeper) (R.kept self.new.keeper) self.old.clock self.new.clock 1 result }
        ensures rest { R.rest self.new.keeper ≡ R.rest self.old.keeper }
    {
        self.keeper.steps(1);
        once(
            &mut self.machine,
            Event::Step,
            &mut self.watch,
            &mut self.out,
        )?;
        let is_due = self.clock.strikes();
        if is_due {
            self.keeper.ticks(1);
            return once(
                &mut self.machine,
                Event::Tick,
                &mut self.watch,
                &mut self.out,
            );
        }
        Ok(())
    }

    // Takes at most `most` steps, each followed by a tick where the clock strikes after it, as many as are done in one
    // go. Returns how many they were, with the result of the last.
    fn go_on(&mut self, most: u32, aims: bool) -> (u32, Result<(), Halt>)
        requires up { IsUp self.old.machine }
        requires some { 0 < most }
        requires few { most ≤ 65536 }
        ensures goes { Goes aims most self.old.machine self.new.machine self.old.out self.new.out
            (R.kept self.old.keeper) (R.kept self.new.keeper) self.old.clock self.new.clock result.0 result.1 }
        ensures rest { R.rest self.new.keeper ≡ R.rest self.old.keeper }
    {
        let quiet = self.clock.quiet_steps().min(most);
        if quiet == 0 {
            return (1, self.pace());
        }
        self.stride(quiet, aims)
    }

    // What came of this many steps that waited for something.
    fn ended(&self, made: u32, aim: Option<&Goal>) -> Walked
        requires { IsUp self.now.machine }
        ensures made { result.made ≡ made }
        ensures found { IsFound (option_map (λ g. g.now) aim.entry) result.is_there self.now.machine.state
            (shown_by self.now.out) }
    {
        Walked {
            made,
            is_there: self.is_found(aim),
        }
    }

    // Takes steps until what is waited for has come, or nothing can come, and at most `most`.
    pub(crate) fn walk(&mut self, most: u32, aim: Option<&Goal>) -> Result<Walked, Halt>
        requires { IsUp self.old.machine }
        ensures given { Serves (Steps most) (option_map (λ g. g.now) aim.entry) [] self.old.machine self.new.machine
            self.old.out self.new.out (R.kept self.old.keeper) (R.kept self.new.keeper) self.old.clock self.new.clock
            result }
        ensures rest { R.rest self.new.keeper ≡ R.rest self.old.keeper }
    {
        let mut made = 0;
        while made < most {
            if self.is_over(aim) {
                self.watch.repeated(Event::Step, made);
                return Ok(self.ended(made, aim));
            }
            let room = self.write_out(Event::Step, made, most);
            let (more, ended) = self.go_on(room, aim.is_some());
            ended?;
            made += more;
        }
        self.watch.repeated(Event::Step, made);
        Ok(self.ended(made, aim))
    }

    // Gives what a source wants.
    fn serve<S: Source>(&mut self, source: &S, wanted: Wanted) -> Result<Walked, Halt>
        requires up { IsUp self.old.machine }
        requires more { wanted ≢ End }
        ensures { Serves wanted (S.goal source.now) (S.typed source.now) self.old.machine self.new.machine
            self.old.out self.new.out (R.kept self.old.keeper) (R.kept self.new.keeper) self.old.clock self.new.clock
            result }
    {
        match wanted {
            Wanted::Steps(most) => self.walk(most, source.aim()),
            Wanted::Ticks(times) => self.tick(times),
            Wanted::Keys => self.press(source.keys()),
            Wanted::Line => self.press_line(source.keys()),
            Wanted::Set(clock) => {
                self.clock = clock;
                Ok(Walked::NONE)
            }
            Wanted::WriteOut => {
                self.since = BATCH;
                let _ = self.out.flush();
                Ok(Walked::NONE)
            }
            Wanted::Nothing => Ok(Walked::NONE),
            Wanted::End => Ok(Walked::NONE),
        }
    }

    /// Gives the machine what a source wants, until its end, or up to the first event at which the machine halts: these
    /// events are its run, and just these are recorded. The console's bytes are written out as it runs.
    pub fn drive<S: Source>(&mut self, source: &mut S) -> Result<(), Halt>
        requires { IsUp self.old.machine }
        ensures { IsDriven
            (S.wants source.old no_steps (spot_at self.old.machine self.old.out self.old.clock) source.new)
            self.old.machine self.new.machine self.old.out self.new.out (R.kept self.old.keeper)
            (R.kept self.new.keeper) result }
    {
        let mut walked = Walked::NONE;
        loop {
            let wanted = source.next(&self.machine, walked);
            if let Wanted::End = wanted {
                return Ok(());
            }
            walked = self.serve(source, wanted)?;
        }
    }

    /// The same for a script, while no clock runs.
    pub fn run(&mut self, script: &[Command<'_>]) -> Result<(), Halt>
        requires up { IsUp self.old.machine }
        requires off { self.old.clock ≡ Off }
        ensures { IsDriven (Follows (script_events script.now)) self.old.machine self.new.machine self.old.out
            self.new.out (R.kept self.old.keeper) (R.kept self.new.keeper) result }
    {
        self.drive(&mut Script::new(script))
    }

    /// The same for a play. A line that waits in vain is the last, and is returned.
    pub fn play(&mut self, play: &Play<'_>) -> Result<Option<Unreached>, Halt>
        requires { IsUp self.old.machine }
        ensures { IsPlayed play.now.acts.items (spot_at self.old.machine self.old.out self.old.clock)
            self.old.machine self.new.machine self.old.out self.new.out (R.kept self.old.keeper)
            (R.kept self.new.keeper) result }
    {
        let mut lines = Lines::new(play.acts.as_slice());
        self.since = BATCH;
        self.is_exact = true;
        self.drive(&mut lines)?;
        Ok(lines.unreached)
    }

    /// The machine, who recorded its events, who looked on, and the output.
    pub fn into_parts(self) -> (Machine<D, T>, R, V, Tail<W>)
        ensures machine { result.0 ≡ self.machine }
        ensures keeper { result.1 ≡ self.keeper }
        ensures watch { result.2 ≡ self.watch }
        ensures out { result.3 ≡ self.out }
    {
        let Driver {
            machine,
            keeper,
            watch,
            out,
            ..
        } = self;
        (machine, keeper, watch, out)
    }
}
