//! Steps of a machine over a disk in memory.
ghost use Rattle.std.specs.Prelude.{◌≤◌};
ghost use Rattle.machine.specs.View.{IsUp};
ghost use Rattle.session.specs.Played.{AdvancesTo};

use blockdev::MemDisk;
use console::Out;
use machine::{Halt, Machine};
use sv39::Tlb;
use unixmodel::event::Event;

/// How far a run came.
#[derive(Clone, Copy)]
pub struct Ran {
    /// How many steps it took; a step at which the machine stops is one of them.
    pub steps: u32,
    /// Why the machine stops.
    pub answer: Result<(), Halt>,
}

/// Takes steps of a machine that takes events while a process runs or is ready, at most `most`.
pub fn advance<W: Out>(machine: &mut Machine<MemDisk, Tlb<64>>, most: u32, out: &mut W) -> Ran
    requires { IsUp machine.old }
    ensures advances { AdvancesTo W.contents W.failures machine.old machine.new out.old out.new most result }
    ensures later { W.failures out.old ≤ W.failures out.new }
{
    let mut steps = 0;
    while steps < most {
        let (more, answer) = machine.advance(most - steps, out);
        steps += more;
        if more == 0 || answer.is_err() {
            return Ran { steps, answer };
        }
    }
    Ran {
        steps,
        answer: Ok(()),
    }
}
