//! A program's file with sections after it.

ghost use Rattle.std.specs.Prelude.{[], ◌≡◌, ◌≤◌, IfOk, OnOk, length};
ghost use Rattle.debug_sections.specs.File.{contents, extent_between, extents_after, headers_at, sections};
ghost use Rattle.debug_sections.specs.File.{with_alignment, with_front, with_header, with_rest, with_sections};
ghost use Rattle.debug_sections.specs.File.{with_words};

use crate::headers::{COUNT, Extent, Extents, NAMES, NAMES_INDEX, put_headers};
use crate::labels::{put_labels, put_names};
use crate::numbers::{put_double, put_half};
use crate::program::put_lines;
use crate::tables::Tables;
use crate::unit::{ABBREVIATIONS, first_name, put_unit};
use std::alloc::{AllocError, Global};

/// How many bytes a section header has.
const HEADER_SIZE: u16 = 64;

// What comes after a program's file, and where in the whole the section headers are.
#[derive(Drop)]
struct Tail {
    bytes: Vec<u8>,
    headers_at: u64,
}

// Where what was added last is, in a file that has that many bytes before.
fn extent_between(start: u64, old: usize, new: usize) -> Extent
    ensures { result ≡ extent_between start old new }
{
    Extent {
        offset: start.saturating_add(old as u64),
        size: (new as u64).saturating_sub(old as u64),
    }
}

// Adds zeros up to a multiple of 8, in a file that has that many bytes before.
#[tactic(auto, unfolding(crate::specs::File::with_alignment))]
fn align(out: &mut Vec<u8>, start: u64) -> Result<(), AllocError>
    ensures { OnOk result (out.new.items ≡ with_alignment out.old.items start) }
{
    let over = (start % 8) as usize + out.len() % 8;
    let zeros = [0; 8];
    out.extend_from_slice(&zeros[..(8 - over % 8) % 8])?;
    Ok(())
}

// Adds the contents of the sections, after a file of that length.
fn put_contents(
    alloc: Global,
    out: &mut Vec<u8>,
    start: u64,
    tables: &Tables<'_>,
) -> Result<Extents, AllocError>
    requires { out.old.items ≡ [] }
    ensures bytes { OnOk result (out.new.items ≡ contents start tables.now) }
    ensures extents { IfOk result (λ found. found ≡ extents_after start tables.now) }
{
    align(out, start)?;
    let labels = out.len();
    put_labels(out, tables.labels)?;
    let strings = out.len();
    put_names(out, tables.labels)?;
    let lines = out.len();
    put_lines(alloc, out, tables)?;
    let unit = out.len();
    put_unit(out, first_name(tables.files), tables.size)?;
    let abbreviations = out.len();
    out.extend_from_slice(&ABBREVIATIONS)?;
    let names = out.len();
    out.extend_from_slice(NAMES)?;
    Ok(Extents {
        labels: extent_between(start, labels, strings),
        strings: extent_between(start, strings, lines),
        lines: extent_between(start, lines, unit),
        unit: extent_between(start, unit, abbreviations),
        abbreviations: extent_between(start, abbreviations, names),
        names: extent_between(start, names, out.len()),
    })
}

// The sections, after a file of that length.
fn sections(alloc: Global, start: u64, tables: &Tables<'_>) -> Result<Tail, AllocError>
    ensures { IfOk result (λ made. (made.bytes.items ≡ sections start tables.now)
        × (made.headers_at ≡ headers_at start tables.now)) }
{
    let mut bytes = Vec::new(alloc);
    let extents = put_contents(alloc, &mut bytes, start, tables)?;
    align(&mut bytes, start)?;
    let headers_at = start.saturating_add(bytes.len() as u64);
    put_headers(&mut bytes, tables.size, &extents)?;
    Ok(Tail { bytes, headers_at })
}

// Adds the front of a program's file, up to where the section headers are.
#[tactic(auto, unfolding(crate::specs::File::with_front))]
fn put_front(out: &mut Vec<u8>, file: &[u8], at: u64) -> Result<(), AllocError>
    requires { 64 ≤ length file.now }
    ensures { OnOk result (out.new.items ≡ with_front out.old.items file.now at) }
{
    let front = &file[..40];
    out.extend_from_slice(front)?;
    put_double(out, at)?;
    Ok(())
}

// Adds the rest of a program's header, with the other words on sections.
#[tactic(auto, unfolding(crate::specs::File::with_header))]
fn put_header(out: &mut Vec<u8>, file: &[u8]) -> Result<(), AllocError>
    requires { 64 ≤ length file.now }
    ensures { OnOk result (out.new.items ≡ with_header out.old.items file.now) }
{
    let middle = &file[48..58];
    out.extend_from_slice(middle)?;
    put_half(out, HEADER_SIZE)?;
    put_half(out, COUNT)?;
    put_half(out, NAMES_INDEX)?;
    Ok(())
}

// Adds what a program's file has after its header, and other bytes.
#[tactic(auto, unfolding(crate::specs::File::with_rest))]
fn put_rest(out: &mut Vec<u8>, file: &[u8], after: &[u8]) -> Result<(), AllocError>
    requires { 64 ≤ length file.now }
    ensures { OnOk result (out.new.items ≡ with_rest out.old.items file.now after.now) }
{
    let rest = &file[64..];
    out.extend_from_slice(rest)?;
    out.extend_from_slice(after)?;
    Ok(())
}

// A program's file with other words on sections in its header, and with bytes after it.
#[tactic(auto, unfolding(crate::specs::File::with_words))]
fn with_words(alloc: Global, file: &[u8], at: u64, after: &[u8]) -> Result<Vec<u8>, AllocError>
    requires { 64 ≤ length file.now }
    ensures { IfOk result (λ out. out.items ≡ with_words file.now at after.now) }
{
    let mut out = Vec::new(alloc);
    put_front(&mut out, file, at)?;
    put_header(&mut out, file)?;
    put_rest(&mut out, file, after)?;
    Ok(out)
}

/// A program's file with what a debugger is given of it: the same bytes except for the words on sections in its header,
/// and the sections after it.
pub fn with_sections(alloc: Global, file: &[u8], tables: &Tables<'_>) -> Result<Vec<u8>, AllocError>
    requires { 64 ≤ length file.now }
    ensures { IfOk result (λ out. out.items ≡ with_sections file.now tables.now) }
{
    let tail = sections(alloc, file.len() as u64, tables)?;
    with_words(alloc, file, tail.headers_at, &tail.bytes)
}
