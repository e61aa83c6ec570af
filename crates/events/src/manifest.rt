//! Manifests: what a disk image is made of, one entry a line.
ghost use Rattle.std.specs.Prelude.{◌≡◌, ◌<◌, ◌==◌, IfSome, List, MatchOption, length, option_map, position, ℕ};
ghost use Rattle.events.specs.Manifests.{FindsDevice, IsDirectory, IsFile, IsLine, IsMajor, split_field};
ghost use Rattle.events.specs.declared.manifest.Line.{Line};

use crate::lines::{FromLine, after};
use crate::script::count;
use std::alloc::{AllocError, Global};

/// The highest number of a device.
const MOST: u32 = 32767;

/// What a line of a manifest says: a path, and what is there.
#[derive(Clone, Copy)]
pub enum Line<'a> {
    /// A directory.
    Directory(&'a [u8]),
    /// The bytes of the host's file of this name.
    File(&'a [u8], &'a [u8]),
    /// A device of this major and minor.
    Device(&'a [u8], u16, u16),
}

// The index of the first blank.
fn first_blank(bytes: &[u8]) -> Option<usize>
    ensures place { result ≡ position (λ b. b == 0x20) bytes.now }
    ensures within { IfSome result (λ at. at < length bytes.now) }
{
    bytes.iter().position(|byte| *byte == b' ')
}

// The bytes before the first blank, and those after it.
fn split_field<'a>(bytes: &'a [u8]) -> Option<(&'a [u8], &'a [u8])>
    ensures { option_map (λ two. (two.0.now, two.1.now)) result ≡ split_field bytes.now }
{
    let at = first_blank(bytes)?;
    Some((&bytes[..at], &bytes[at + 1..]))
}

// The major or minor that decimal digits write.
fn major(digits: &[u8]) -> Option<u16>
    ensures { MatchOption result ((n : ℕ) → ¬ (IsMajor digits.now n)) (IsMajor digits.now) }
{
    let number = count(digits)?;
    if number > MOST {
        return None;
    }
    Some(number as u16)
}

// The path of a line `dir PATH`.
fn directory<'a>(rest: &'a [u8]) -> Option<&'a [u8]>
    ensures { MatchOption result ((path : List ℕ) → ¬ (IsDirectory rest.now path))
        (λ path. IsDirectory rest.now path.now) }
{
    match split_field(rest) {
        None => Some(rest),
        Some(_) => None,
    }
}

// The path and the host's file of a line `file PATH HOSTFILE`.
fn file<'a>(rest: &'a [u8]) -> Option<(&'a [u8], &'a [u8])>
    ensures { MatchOption result ((path host : List ℕ) → ¬ (IsFile rest.now path host))
        (λ two. IsFile rest.now two.0.now two.1.now) }
{
    let (path, host) = split_field(rest)?;
    match split_field(host) {
        None => Some((path, host)),
        Some(_) => None,
    }
}

// The path and the numbers of a line `dev PATH MAJOR MINOR`.
fn device<'a>(rest: &'a [u8]) -> Option<(&'a [u8], u16, u16)>
    ensures { FindsDevice rest.now result }
{
    let (path, numbers) = split_field(rest)?;
    let (first, second) = split_field(numbers)?;
    Some((path, major(first)?, major(second)?))
}

// What a line says.
fn line_of<'a>(line: &'a [u8]) -> Option<Line<'a>>
    ensures { MatchOption result ((said : Line) → ¬ (IsLine line.now said)) (IsLine line.now) }
{
    if let Some(rest) = after(line, b"dir ") {
        return Some(Line::Directory(directory(rest)?));
    }
    if let Some(rest) = after(line, b"file ") {
        let (path, host) = file(rest)?;
        return Some(Line::File(path, host));
    }
    let (path, major, minor) = device(after(line, b"dev ")?)?;
    Some(Line::Device(path, major, minor))
}

impl<'a> FromLine<'a> for Line<'a> {
    ghost says = { IsLine };

    fn from_line(_alloc: Global, line: &'a [u8]) -> Result<Option<Self>, AllocError> {
        Ok(line_of(line))
    }
}
