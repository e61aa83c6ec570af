//! The keys of a script.
ghost use Rattle.std.specs.Prelude.{◌≡◌, ◌++◌, IfOk, OnOk};
ghost use Rattle.explore_command.specs.Keys.{keys_in};
ghost use Rattle.events.specs.Scripts.{command_events, script_events};

use events::Command;
use std::alloc::{AllocError, Global};

/// The key that ends a typed line.
const LINE_END: u8 = 0x0a;

// Puts the keys of one command at the end.
fn push_command(keys: &mut Vec<u8>, command: &Command<'_>) -> Result<(), AllocError>
    ensures { OnOk result (keys.new.items ≡ keys.old.items ++ keys_in (command_events command.now)) }
{
    match command {
        Command::Step(_) | Command::Tick(_) => Ok(()),
        Command::Keys(typed) => keys.extend_from_slice(typed.as_slice()),
        Command::Type(text) => {
            keys.extend_from_slice(text)?;
            keys.extend_from_slice(&[LINE_END])
        }
    }
}

/// What a script types.
pub(crate) fn keys_of(alloc: Global, script: &[Command<'_>]) -> Result<Vec<u8>, AllocError>
    ensures { IfOk result (λ keys. keys.items ≡ keys_in (script_events script.now)) }
{
    let mut keys = Vec::new(alloc);
    for command in script {
        push_command(&mut keys, command)?;
    }
    Ok(keys)
}
