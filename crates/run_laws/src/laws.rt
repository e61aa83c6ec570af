//! Laws of the abstract Unix. Each is a function that runs no code.
ghost use Rattle.run_laws.specs.Resting.{KeepsResting, LeavesResting};
ghost use Rattle.run_laws.specs.Waiting.{LastIsPlace, WaitsBounded};

/// The slot that was picked last is one of the 64: at the start, and after every run.
pub fn last_is_a_place()
    ensures { LastIsPlace }
{}

/// Over a stretch of events at each of whose turns a process is ready and isn't picked, no slot is picked twice.
/// So at most 63 other turns come before its own.
pub fn waiting_is_bounded()
    ensures { WaitsBounded }
{}

/// From any moment at which a process doesn't run until it is picked, or waited for as a zombie, its registers, pc,
/// size and pages stay, whatever events come.
pub fn rest_is_private()
    ensures event { LeavesResting }
    ensures run { KeepsResting }
{}
