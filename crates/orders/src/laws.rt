//! Laws of starts, and of tables of processes. Each is a function that runs no code.
ghost use Rattle.orders.specs.Starts.{StartsAwake};
ghost use Rattle.orders.specs.Tidy.{StaysTidy};

/// At each start and after each run no two processes have one pid, none runs but in the slot that was picked last, each
/// descriptor names an open file that is there, and each open file on a pipe one that is there.
pub fn tables_stay_tidy()
    ensures { StaysTidy }
{}

/// At each start no process sleeps.
pub fn nobody_sleeps_at_a_start()
    ensures { StartsAwake }
{}
