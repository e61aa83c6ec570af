//! The lines of a script, and what each says.
use crate::lines::{FromLine, after};
use crate::script::fields::{bytes_of, count};
use std::alloc::{AllocError, Global};

/// What a line of a script says.
#[derive(Drop)]
pub enum Command<'a> {
    /// This many steps.
    Step(u32),
    /// This many timer interrupts.
    Tick(u32),
    /// Typed keys.
    Keys(Vec<u8>),
    /// A typed line, without the key that ends it.
    Type(&'a [u8]),
}

impl<'a> FromLine<'a> for Command<'a> {
    ghost use Rattle.events.specs.Commands.{IsCommand};

    ghost says = { IsCommand };

    fn from_line(alloc: Global, line: &'a [u8]) -> Result<Option<Self>, AllocError> {
        if let Some(digits) = after(line, b"step ") {
            let Some(times) = count(digits) else {
                return Ok(None);
            };
            return Ok(Some(Command::Step(times)));
        }
        if let Some(digits) = after(line, b"tick ") {
            let Some(times) = count(digits) else {
                return Ok(None);
            };
            return Ok(Some(Command::Tick(times)));
        }
        if let Some(digits) = after(line, b"keys ") {
            let Some(keys) = bytes_of(alloc, digits)? else {
                return Ok(None);
            };
            return Ok(Some(Command::Keys(keys)));
        }
        match after(line, b"type ") {
            Some(text) => Ok(Some(Command::Type(text))),
            None => Ok(None),
        }
    }
}
