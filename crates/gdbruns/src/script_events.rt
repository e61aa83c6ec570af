//! The events of a script, as a list.
ghost use Rattle.std.specs.Prelude.{◌≡◌, ◌++◌, IfOk, OnOk, map};
ghost use Rattle.events.specs.Scripts.{command_events, script_events};
ghost use Rattle.unixmodel.specs.declared.event.Event.TheVariants.{Key};

use events::Command;
use std::alloc::Global;
use timeline::{Events, NoRoom};
use unixmodel::event::Event;

/// The key that ends a typed line.
const LINE_END: u8 = 0x0a;

// Puts keys at the end.
fn push_keys(events: &mut Events, keys: &[u8]) -> Result<(), NoRoom>
    ensures { OnOk result (events.new ≡ events.old ++ map Key keys.now) }
{
    for key in keys {
        events.push(Event::Key(*key), 1)?;
    }
    Ok(())
}

// Puts the events of one command at the end.
fn push_command(events: &mut Events, command: &Command<'_>) -> Result<(), NoRoom>
    ensures { OnOk result (events.new ≡ events.old ++ command_events command.now) }
{
    match command {
        Command::Step(times) => events.push(Event::Step, *times),
        Command::Tick(times) => events.push(Event::Tick, *times),
        Command::Keys(keys) => push_keys(events, keys.as_slice()),
        Command::Type(text) => {
            push_keys(events, text)?;
            push_keys(events, &[LINE_END])
        }
    }
}

/// The events of a script.
pub(crate) fn events_in(alloc: Global, script: &[Command<'_>]) -> Result<Events, NoRoom>
    ensures { IfOk result (λ events. events ≡ script_events script.now) }
{
    let mut events = Events::new(alloc);
    for command in script {
        push_command(&mut events, command)?;
    }
    Ok(events)
}
