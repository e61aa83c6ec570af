//! What the parts of a statement say.
ghost use Rattle.std.specs.Prelude.{◌≡◌, ◌-◌, ◌≤◌, ◌==◌, IfOk, None, Some, if◌then◌else◌, length, map, option_map};
ghost use Rattle.std.specs.Prelude.{take};
ghost use Rattle.std.specs.List.{after_first, before_first, position_or_len};
ghost use Rattle.unixmodel.specs.Operands as the;
ghost use Rattle.asmtext.specs.Numbers.{number_of};
ghost use Rattle.asmtext.specs.Statements.{target_of};
ghost use Rattle.asmtext.specs.Symbols.{place_seen, symbol_of};

use crate::names::register_called;
use crate::number::{Number, number_called};
use crate::statement::Target;
use crate::tokens::Symbol;
use crate::words::is_label;
use std::alloc::{AllocError, Global};
use unixmodel::instr::Reg;

// The characters of a part, where it has no string.
fn characters(alloc: Global, part: &[Symbol]) -> Result<Option<Vec<u8>>, AllocError>
    ensures { IfOk result (λ found. option_map (λ text. text.items) found ≡ the.characters (map symbol_of part.now)) }
{
    let mut text = Vec::new(alloc);
    for symbol in part {
        match symbol {
            Symbol::Plain(c) => text.push(*c)?,
            Symbol::Quoted(_) => return Ok(None),
        }
    }
    Ok(Some(text))
}

// How many characters come before the first opening parenthesis.
fn parenthesis(text: &[u8]) -> usize
    ensures is { result ≡ position_or_len (λ c. c == 0x28) text.now }
    ensures within { result ≤ length text.now }
{
    text.iter().take_while(|c| **c != b'(').count()
}

// What comes before and after the first opening parenthesis.
fn split_at_parenthesis(text: &[u8]) -> (&[u8], &[u8])
    ensures before { result.0.now ≡ before_first (λ c. c == 0x28) text.now }
    ensures behind { result.1.now ≡ after_first (λ c. c == 0x28) text.now }
{
    let (before, behind) = text.split_at(parenthesis(text));
    match behind {
        [_, behind @ ..] => (before, behind),
        [] => (before, behind),
    }
}

// The register before a closing parenthesis.
fn closed_register(text: &[u8]) -> Option<Reg>
    ensures { result ≡ (if the.is_closed text.now then the.register_called (take (length text.now - 1) text.now)
        else None) }
{
    match text {
        [name @ .., b')'] => register_called(name),
        _ => None,
    }
}

// A number and, in parentheses, the register from which it counts.
#[tactic(auto, unfolding(unixmodel::specs::Operands::memory_called))]
fn memory_called(alloc: Global, text: &[u8]) -> Result<Option<(Number, Reg)>, AllocError>
    ensures { IfOk result (λ found. option_map place_seen found ≡ the.memory_called text.now) }
{
    let (number, base) = split_at_parenthesis(text);
    let Some(number) = number_called(alloc, number)? else {
        return Ok(None);
    };
    let Some(base) = closed_register(base) else {
        return Ok(None);
    };
    Ok(Some((number, base)))
}

#[tactic(auto, unfolding(unixmodel::specs::Operands::target_called))]
fn target_called(alloc: Global, text: &[u8]) -> Result<Option<Target>, AllocError>
    ensures { IfOk result (λ found. option_map target_of found ≡ the.target_called text.now) }
{
    if is_label(text) {
        let name = Vec::from_slice(alloc, text)?;
        return Ok(Some(Target::Label(name)));
    }
    let Some(number) = number_called(alloc, text)? else {
        return Ok(None);
    };
    Ok(Some(Target::Number(number)))
}

/// The register that a part names.
pub fn register(alloc: Global, part: &[Symbol]) -> Result<Option<Reg>, AllocError>
    ensures { IfOk result (λ found. found ≡ the.register (map symbol_of part.now)) }
{
    let Some(text) = characters(alloc, part)? else {
        return Ok(None);
    };
    Ok(register_called(&text))
}

/// The number that a part writes.
pub fn number(alloc: Global, part: &[Symbol]) -> Result<Option<Number>, AllocError>
    ensures { IfOk result (λ found. option_map number_of found ≡ the.number (map symbol_of part.now)) }
{
    let Some(text) = characters(alloc, part)? else {
        return Ok(None);
    };
    number_called(alloc, &text)
}

/// A number and the register from which it counts.
pub fn memory(alloc: Global, part: &[Symbol]) -> Result<Option<(Number, Reg)>, AllocError>
    ensures { IfOk result (λ found. option_map place_seen found ≡ the.memory (map symbol_of part.now)) }
{
    let Some(text) = characters(alloc, part)? else {
        return Ok(None);
    };
    memory_called(alloc, &text)
}

/// The label that a part names.
pub fn label(alloc: Global, part: &[Symbol]) -> Result<Option<Vec<u8>>, AllocError>
    ensures { IfOk result (λ found. option_map (λ name. name.items) found ≡ the.label (map symbol_of part.now)) }
{
    let Some(text) = characters(alloc, part)? else {
        return Ok(None);
    };
    if is_label(&text) {
        return Ok(Some(text));
    }
    Ok(None)
}

/// The label or the number that a part writes.
pub fn target(alloc: Global, part: &[Symbol]) -> Result<Option<Target>, AllocError>
    ensures { IfOk result (λ found. option_map target_of found ≡ the.target (map symbol_of part.now)) }
{
    let Some(text) = characters(alloc, part)? else {
        return Ok(None);
    };
    target_called(alloc, &text)
}

/// The bytes of a part that is one string.
pub fn string(alloc: Global, part: &[Symbol]) -> Result<Option<Vec<u8>>, AllocError>
    ensures { IfOk result (λ found. option_map (λ bytes. bytes.items) found ≡ the.string (map symbol_of part.now)) }
{
    match part {
        [Symbol::Quoted(bytes)] => Ok(Some(Vec::from_slice(alloc, bytes)?)),
        _ => Ok(None),
    }
}
