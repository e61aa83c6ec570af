//! The parts of a statement: what lies between its commas.
ghost use Rattle.std.specs.Prelude.{◌≡◌, ◌≤◌, ◌==◌, IfOk, length, map};
ghost use Rattle.std.specs.List.{prefix_len, slice_split, suffix_len};
ghost use Rattle.unixmodel.specs.Tokens as the;
ghost use Rattle.asmtext.specs.Symbols.{is_blank_symbol, is_comma, part_seen, parts_seen, symbol_of};

use crate::tokens::Symbol;
use crate::words::is_blank;
use std::alloc::{AllocError, Global};

fn is_comma(symbol: &Symbol) -> bool
    ensures { result ≡ is_comma symbol.now }
{
    match symbol {
        Symbol::Plain(c) => *c == b',',
        Symbol::Quoted(_) => false,
    }
}

fn is_blank_symbol(symbol: &Symbol) -> bool
    ensures { result ≡ is_blank_symbol symbol.now }
{
    match symbol {
        Symbol::Plain(c) => is_blank(*c),
        Symbol::Quoted(_) => false,
    }
}

// How many blanks are at the front, and at the end.
fn blanks_before(symbols: &[Symbol]) -> usize
    ensures is { result ≡ prefix_len is_blank_symbol symbols.now }
    ensures within { result ≤ length symbols.now }
{
    symbols
        .iter()
        .take_while(|symbol| is_blank_symbol(*symbol))
        .count()
}

fn blanks_behind(symbols: &[Symbol]) -> usize
    ensures is { result ≡ suffix_len is_blank_symbol symbols.now }
    ensures within { result ≤ length symbols.now }
{
    symbols
        .iter()
        .rev()
        .take_while(|symbol| is_blank_symbol(*symbol))
        .count()
}

// A part without the blanks at its ends.
fn trimmed<'a>(part: &'a [Symbol]) -> &'a [Symbol]
    ensures { map symbol_of result.now ≡ the.trimmed (map symbol_of part.now) }
{
    let front = part.split_at(blanks_before(part)).1;
    front.split_at(front.len() - blanks_behind(front)).0
}

fn split_parts<'a>(alloc: Global, symbols: &'a [Symbol]) -> Result<Vec<&'a [Symbol]>, AllocError>
    ensures { IfOk result (λ parts. map (λ part. part.now) parts.items ≡ slice_split is_comma symbols.now) }
{
    symbols.split(|symbol| is_comma(symbol)).collect(alloc)
}

fn all_trimmed<'a>(alloc: Global, split: &[&'a [Symbol]]) -> Result<Vec<&'a [Symbol]>, AllocError>
    ensures { IfOk result (λ parts. parts_seen parts.items ≡ map (λ part. the.trimmed (part_seen part)) split.now) }
{
    let mut parts = Vec::new(alloc);
    for part in split {
        parts.push(trimmed(*part))?;
    }
    Ok(parts)
}

/// The parts of what follows a word, without the blanks at their ends; none where nothing follows it.
pub fn parts<'a>(alloc: Global, symbols: &'a [Symbol]) -> Result<Vec<&'a [Symbol]>, AllocError>
    ensures { IfOk result (λ parts. parts_seen parts.items ≡ the.parts_of (map symbol_of symbols.now)) }
{
    if blanks_before(symbols) == symbols.len() {
        return Ok(Vec::new(alloc));
    }
    let split = split_parts(alloc, symbols)?;
    all_trimmed(alloc, &split)
}
