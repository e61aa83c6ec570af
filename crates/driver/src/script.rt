//! A script as a source.
ghost use Rattle.std.specs.Prelude.{None, ◌-◌, ◌≡◌, drop, length, option_map, slice_get};
ghost use Rattle.driver.specs.Commands.{keys_of, WantsScript, wanted_of};

use crate::source::Source;
use crate::wanted::{Walked, Wanted};
use blockdev::BlockDev;
use events::{Command, Goal};
use machine::Machine;
use sv39::Translate;

/// The commands of a script, one after the other.
#[derive(Drop)]
pub struct Script<'b, 'a> {
    commands: &'b [Command<'a>],
    // How many of them were wanted.
    at: usize,
    // The command that is wanted.
    current: Option<&'b Command<'a>>,
}

// The keys that a command types.
pub(crate) fn keys_of<'b>(command: Option<&'b Command<'_>>) -> &'b [u8]
    ensures { result.now ≡ keys_of (option_map (λ c. c.now) command.entry) }
{
    match command {
        Some(Command::Keys(keys)) => keys.as_slice(),
        Some(Command::Type(text)) => text,
        _ => &[],
    }
}

// What a command wants.
pub(crate) fn wanted_of(command: &Command<'_>) -> Wanted
    ensures { result ≡ wanted_of command.now }
{
    match command {
        Command::Step(times) => Wanted::Steps(*times),
        Command::Tick(times) => Wanted::Ticks(*times),
        Command::Keys(_) => Wanted::Keys,
        Command::Type(_) => Wanted::Line,
    }
}

// The command with this number, from 0 on.
fn command_at<'b, 'a>(commands: &'b [Command<'a>], at: usize) -> Option<&'b Command<'a>>
    ensures { option_map (λ c. c.now) result ≡ slice_get commands.now at }
{
    commands.get(at)
}

impl<'b, 'a> Script<'b, 'a> {
    /// All commands of a script.
    pub fn new(commands: &'b [Command<'a>]) -> Self
        ensures commands { result.commands.now ≡ commands.now }
        ensures at { result.at ≡ 0 }
    {
        Script {
            commands,
            at: 0,
            current: None,
        }
    }
}

impl Source for Script<'_, '_> {
    ghost left = { λ s. length s.commands.now - s.at };

    ghost goal = { λ s. None };

    ghost typed = { λ s. keys_of (option_map (λ c. c.now) s.current) };

    ghost wants = { λ s walked spot last. WantsScript (drop s.at s.commands.now) spot };

    fn next<D: BlockDev, T: Translate>(
        &mut self,
        _machine: &Machine<D, T>,
        _walked: Walked,
    ) -> Wanted {
        match command_at(self.commands, self.at) {
            None => Wanted::End,
            Some(command) => {
                self.at += 1;
                self.current = Some(command);
                wanted_of(command)
            }
        }
    }

    fn aim(&self) -> Option<&Goal> {
        None
    }

    fn keys(&self) -> &[u8] {
        keys_of(self.current)
    }
}
