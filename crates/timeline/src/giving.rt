//! Events that are given to a machine whose disk and console never fail.
ghost use Rattle.std.specs.Prelude.{◌≡◌, ◌<◌, ◌≤◌, [], ◌∷◌, false, is_some, replicate, true};
ghost use Rattle.timeline.specs.Line.{go_on};
ghost use Rattle.unixmodel.specs.declared.event.Event.TheVariants.{Step};

use crate::printed::Printed;
use crate::wanted::Debuggee;
use unixmodel::event::Event;

/// One event. Whether the machine takes more.
pub(crate) fn give(machine: &mut Debuggee, event: Event, out: &mut Printed) -> bool
    requires { machine.old.failed ≡ false }
    ensures state { machine.new.state ≡ go_on machine.old.state (event ∷ []) }
    ensures sound { machine.new.failed ≡ false }
    ensures over { result ≡ false → is_some machine.new.state.halted ≡ true }
{
    let done = machine.run(&[event], out);
    let _disk = machine.device();
    done.is_ok()
}

/// n steps.
pub(crate) fn give_steps(machine: &mut Debuggee, count: u32, out: &mut Printed)
    requires { machine.old.failed ≡ false }
    ensures state { machine.new.state ≡ go_on machine.old.state (replicate count Step) }
    ensures sound { machine.new.failed ≡ false }
{
    let _done = machine.steps(count, out);
    let _disk = machine.device();
}

/// The first of an event that comes n times; how many they are.
pub(crate) fn give_some(machine: &mut Debuggee, event: Event, times: u32, out: &mut Printed) -> u32
    requires sound { machine.old.failed ≡ false }
    requires some { 0 < times }
    ensures state { machine.new.state ≡ go_on machine.old.state (replicate result event) }
    ensures sound { machine.new.failed ≡ false }
    ensures some { 0 < result }
    ensures within { result ≤ times }
{
    match event {
        Event::Step => {
            give_steps(machine, times, out);
            times
        }
        _ => {
            give(machine, event, out);
            1
        }
    }
}
