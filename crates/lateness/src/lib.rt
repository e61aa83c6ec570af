//! Laws of timer interrupts that come late, where no process runs and all sleeps are over: they never show. Each is a
//! function that runs no code.
#![tactic(auto)]

ghost use Rattle.lateness.specs.Late.{EventKeepsLateAlike, EventKeepsSleeps, LateTickChangesNothing};
ghost use Rattle.lateness.specs.Late.{LateTickNeverShows, RunKeepsLateAlike, RunKeepsSleeps};

/// A sleep lasts no longer than timer interrupts come.
pub fn sleeps_last_as_ticks_come()
    ensures event { EventKeepsSleeps }
    ensures run { RunKeepsSleeps }
{}

/// States that differ in the count of ticks, and in how long sleeps that are over have been over, go on alike: the same
/// is printed, and they stay alike. So it is while no sleep lasts 2^32 ticks, up to the first event at which a process
/// calls uptime.
pub fn late_goes_on_alike()
    ensures event { EventKeepsLateAlike }
    ensures run { RunKeepsLateAlike }
{}

/// Where no process runs and all sleeps are over, one more timer interrupt never shows: whatever events come after it,
/// the same is printed, process 1 ends with the same status, and the same files are left. So it is with fewer than 2^32
/// timer interrupts in all, for a sleep's length is counted modulo 2^32, up to the first event at which a process calls
/// uptime.
pub fn late_tick_never_shows()
    ensures tick { LateTickChangesNothing }
    ensures shows { LateTickNeverShows }
{}
