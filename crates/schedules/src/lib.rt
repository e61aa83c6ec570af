//! Laws of schedules: when timer interrupts come, and what of it shows. Each is a function that runs no code.
#![tactic(auto)]

ghost use Rattle.schedules.specs.Alike.{EventKeepsAlike, IdleTickChangesNothing, RunKeepsAlike, TickBackChangesNothing};
ghost use Rattle.schedules.specs.Coarse.{InterruptsBeforeCallsSuffice, InterruptsWithinSuffice};
ghost use Rattle.schedules.specs.Holding.{NobodyLooks, OthersDoNotLook, StepsMayWait};
ghost use Rattle.schedules.specs.Schedules.{StepIsPrivate, TickPasses, TickPassesAll};

/// A step that computes, one that neither calls nor faults, changes the process that runs and nothing else.
pub fn step_is_private()
    ensures { StepIsPrivate }
{}

/// A timer interrupt after such a step, or after many, does what it does before the first of them, and the process that
/// ran has computed as much: so it matters before calls and faults alone.
pub fn tick_passes()
    ensures one { TickPasses }
    ensures many { TickPassesAll }
{}

/// What a process holds in its registers, its pc and its pages, no event looks at in which it doesn't act: one in which
/// it neither does an instruction nor goes on with a call that it waits in. Whatever it holds there, in as many pages,
/// the same is printed, and the same comes of all other processes, of files, pipes and the console.
pub fn others_do_not_look()
    ensures event { OthersDoNotLook }
    ensures run { NobodyLooks }
{}

/// A timer interrupt after computing steps of a process, with all that comes until that process acts again, is the
/// interrupt before them with the steps done at the end: the same is printed, and the same comes of all else.
pub fn steps_may_wait()
    ensures { StepsMayWait }
{}

/// For each list of events there is one with the same timer interrupts and typed bytes, in the same order, by which the
/// same shows: what is printed, and all of the state at the end except what processes hold. Each timer interrupt in it
/// comes where no process runs, before a call or a fault, or in a process that never comes to one; or, however far one
/// looks, in one that computes for as many steps more.
pub fn interrupts_before_calls_suffice()
    ensures whole { InterruptsBeforeCallsSuffice }
    ensures within { InterruptsWithinSuffice }
{}

/// States that differ in the count of ticks alone, each sleeping process having slept as long, go on alike: the same is
/// printed, and they stay alike, whatever events come, up to the first at which a process calls uptime.
pub fn alike_goes_on_alike()
    ensures event { EventKeepsAlike }
    ensures run { RunKeepsAlike }
{}

/// Where no process sleeps, a timer interrupt changes the count of ticks alone if no process runs, or if the turn after
/// it picks the process that ran: what follows is alike.
pub fn idle_tick_changes_nothing()
    ensures idle { IdleTickChangesNothing }
    ensures back { TickBackChangesNothing }
{}
