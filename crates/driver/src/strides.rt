//! Events that a machine is given at once.
ghost use Rattle.std.specs.Prelude.{[], ◌∷◌, ◌<◌, ◌≡◌, ◌≤◌, replicate, true};
ghost use Rattle.driver.specs.Strides.{IsStill, Passes};
ghost use Rattle.machine.specs.Gives.{RunGivesTo, StepGivesTo};
ghost use Rattle.machine.specs.View.{IsUp};
ghost use Rattle.events.specs.declared.clock.Clock.TheVariants.{Off};
ghost use Rattle.unixmodel.specs.Next.{next};
ghost use Rattle.unixmodel.specs.declared.event.Event.TheVariants.{Step};

use crate::watch::{Detail, Watch};
use blockdev::BlockDev;
use console::Out;
use machine::{Halt, Machine};
use sv39::Translate;
use unixmodel::event::Event;

/// The fewest steps that are done in one loop: entering it costs as much as a few steps.
const LOOP: u32 = 8;

// Gives one event, which is watched. It is inlined, so that the loop of a run has the machine's step in it.
#[inline(always)]
fn give<D: BlockDev, T: Translate, V: Watch, W: Out>(
    machine: &mut Machine<D, T>,
    event: Event,
    watch: &mut V,
    out: &mut W,
) -> Result<(), Halt>
    ensures gives { StepGivesTo W.contents W.failures machine.old machine.new out.old out.new
        (next machine.old.state event) result }
    ensures later { W.failures out.old ≤ W.failures out.new }
{
    watch.before(machine, event);
    let ended = machine.step(event, out);
    watch.after(machine, event, ended);
    ended
}

/// The same where the machine takes events, as a run of one.
pub fn once<D: BlockDev, T: Translate, V: Watch, W: Out>(
    machine: &mut Machine<D, T>,
    event: Event,
    watch: &mut V,
    out: &mut W,
) -> Result<(), Halt>
    requires { IsUp machine.old }
    ensures gives { RunGivesTo W.contents W.failures machine.old machine.new out.old out.new (event ∷ []) result }
    ensures later { W.failures out.old ≤ W.failures out.new }
{
    give(machine, event, watch, out)
}

/// Gives the same event `times` times.
pub fn each<D: BlockDev, T: Translate, V: Watch, W: Out>(
    machine: &mut Machine<D, T>,
    event: Event,
    times: u32,
    watch: &mut V,
    out: &mut W,
) -> Result<(), Halt>
    requires { IsUp machine.old }
    ensures gives { RunGivesTo W.contents W.failures machine.old machine.new out.old out.new (replicate times event)
        result }
    ensures later { W.failures out.old ≤ W.failures out.new }
{
    let mut left = times;
    while left > 0 {
        give(machine, event, watch, out)?;
        left -= 1;
    }
    Ok(())
}

// Whether instructions go in one loop, of which there may be this many.
fn is_loop(detail: Detail, most: u32) -> bool {
    match detail {
        Detail::Nothing => most >= LOOP,
        Detail::Calls => true,
        Detail::Steps => false,
    }
}

// Does at most `most` instructions of the process that runs, up to a call or a fault, unless who looks on wants to see
// each. Returns how many.
fn instruct<D: BlockDev, T: Translate, V: Watch>(
    machine: &mut Machine<D, T>,
    most: u32,
    watch: &mut V,
) -> u32
    requires { IsUp machine.old }
    ensures passes { Passes machine.old machine.new result }
    ensures within { result ≤ most }
{
    if !is_loop(watch.detail(), most) {
        return 0;
    }
    let passed = machine.compute(most, &[]);
    if passed > 0 {
        watch.passed(machine, passed);
    }
    passed
}

/// Takes at most `most` steps, as many as are done in one go: instructions up to a call or a fault, or one step, or all
/// where no process runs and none is ready. Returns how many they were, with the result of the last. Before none but
/// the first of them anything comes that a source may wait for.
pub fn stride<D: BlockDev, T: Translate, V: Watch, W: Out>(
    machine: &mut Machine<D, T>,
    most: u32,
    watch: &mut V,
    out: &mut W,
) -> (u32, Result<(), Halt>)
    requires up { IsUp machine.old }
    requires some { 0 < most }
    ensures gives { RunGivesTo W.contents W.failures machine.old machine.new out.old out.new (replicate result.0 Step)
        result.1 }
    ensures within { (0 < result.0) × (result.0 ≤ most) }
    ensures still { IsStill machine.old.state Off result.0 }
    ensures later { W.failures out.old ≤ W.failures out.new }
{
    if machine.is_idle() {
        let ended = machine.steps(most, out);
        watch.passed(machine, most);
        return (most, ended);
    }
    let passed = instruct(machine, most, watch);
    if passed > 0 {
        return (passed, Ok(()));
    }
    (1, give(machine, Event::Step, watch, out))
}

/// How far steps may go that are done in one go.
#[derive(Clone, Copy)]
pub struct Reach {
    /// How many there are at most.
    pub most: u32,
    /// Whether a source waits for something.
    pub aims: bool,
    /// Whether it is to be known at which of them the machine halts.
    pub is_exact: bool,
}

/// The same for a source that may wait for something, or doesn't: then all steps are taken, unless who looks on wants
/// to see calls alone. Where the machine halts, they are all that there may be.
pub fn stretch<D: BlockDev, T: Translate, V: Watch, W: Out>(
    machine: &mut Machine<D, T>,
    reach: Reach,
    watch: &mut V,
    out: &mut W,
) -> (u32, Result<(), Halt>)
    requires up { IsUp machine.old }
    requires some { 0 < reach.most }
    ensures gives { RunGivesTo W.contents W.failures machine.old machine.new out.old out.new (replicate result.0 Step)
        result.1 }
    ensures within { (0 < result.0) × (result.0 ≤ reach.most) }
    ensures still { reach.aims ≡ true → IsStill machine.old.state Off result.0 }
    ensures later { W.failures out.old ≤ W.failures out.new }
{
    let Reach {
        most,
        aims,
        is_exact,
    } = reach;
    if aims || is_exact {
        return stride(machine, most, watch, out);
    }
    match watch.detail() {
        Detail::Nothing if most >= LOOP => (most, machine.steps(most, out)),
        Detail::Calls => stride(machine, most, watch, out),
        Detail::Steps if machine.is_idle() => stride(machine, most, watch, out),
        Detail::Nothing | Detail::Steps => (most, each(machine, Event::Step, most, watch, out)),
    }
}
