//! Laws of the numbers of open files and pipes: which ones they are never shows. Each is a function that runs no code.
#![tactic(auto)]

ghost use Rattle.renumbering.specs.Alike.{EventKeepsNumbersAlike, RunKeepsNumbersAlike};
ghost use Rattle.renumbering.specs.Pairs.{FittingStatesAreRenumbered};
ghost use Rattle.renumbering.specs.Renumbered.{EventKeepsRenumbered, NamesStayThere, RenumberedIsEquivalence};
ghost use Rattle.renumbering.specs.Renumbered.{RenumberedTakeTurnsAlike, RunKeepsRenumbered};

/// In a state that a run leads to, each descriptor names an open file that is there, and each open file on a pipe one
/// that is there.
pub fn names_stay_there()
    ensures { NamesStayThere }
{}

/// That one state is another with other numbers of open files and pipes is an equivalence.
pub fn renumbered_is_equivalence()
    ensures { RenumberedIsEquivalence }
{}

/// Pairs of numbers suffice to find that one state is another with other numbers: pairs of open files that descriptors
/// name one by one, and of pipes, where all other open files and pipes are free.
pub fn fitting_states_are_renumbered()
    ensures { FittingStatesAreRenumbered }
{}

/// In a state with other numbers of open files and pipes the same process runs, the same ones are ready, it is the turn
/// of the same one, and the next step computes where it does in the state.
pub fn renumbered_take_turns_alike()
    ensures { RenumberedTakeTurnsAlike }
{}

/// A state with other numbers of open files and pipes goes on as the state does: the same is printed, process 1 ends
/// with the same status, and they stay equal except for such numbers, whatever events come.
pub fn numbers_never_show()
    ensures event { EventKeepsRenumbered }
    ensures run { RunKeepsRenumbered }
{}

/// States that differ in the numbers of open files and pipes, and in the count of ticks, each sleeping process having
/// slept as long, go on so, up to the first event at which a process calls uptime.
pub fn alike_up_to_numbers_goes_on_alike()
    ensures event { EventKeepsNumbersAlike }
    ensures run { RunKeepsNumbersAlike }
{}
