//! The entries of the directories of an image: their names and numbers.

ghost use Rattle.std.specs.Prelude.{◌↔◌, IsTrue, ◌≡◌, ◌<◌, ◌≤◌, ◌++◌, [], length, IfErr, MatchResult, OnOk};
ghost use Rattle.unixmodel.specs.Image.{contents_in, kind_in};
ghost use Rattle.imagecheck.specs.Entries.{HasNames, NamesDirectories, entries_in, name_numbers};
ghost use Rattle.imagecheck.specs.Faults.{Finds, IsOfImage};
ghost use Rattle.imagerules.specs.Rules.{BlockRules};
ghost use Rattle.imagerules.specs.Fields.{HasGeometry};
ghost use Rattle.imagecheck.specs.Namings.{namings_in, namings_of};

use crate::ImageFault;
use crate::contents::read_contents;
use crate::entries::are_good;
use crate::fields::is_directory;
use crate::names::{are_distinct, read_names};
use crate::namings::{Naming, add_entries};
use layout::Geometry;
use std::alloc::{AllocError, Allocator};

// Whether the names in a directory's bytes are good, one by one and all together. Their numbers are sorted.
fn has_names(image: &[u8], geometry: Geometry, bytes: &[u8], names: &mut [u128]) -> bool
    requires geometry { HasGeometry image.now geometry }
    requires least { 32 ≤ length bytes.now }
    requires names { names.old ≡ name_numbers (entries_in bytes.now) }
    ensures { IsTrue result ↔ HasNames image.now bytes.now }
{
    if !are_good(image, geometry, bytes) {
        return false;
    }
    are_distinct(names)
}

// Tests the names of a directory. Their numbers are sorted.
fn test_names(
    image: &[u8],
    geometry: Geometry,
    n: usize,
    bytes: &[u8],
    names: &mut [u128],
) -> Result<(), ImageFault>
    requires geometry { HasGeometry image.now geometry }
    requires blocks { BlockRules image.now }
    requires low { 1 ≤ n }
    requires high { n < geometry.inodes }
    requires directory { kind_in image.now n ≡ 1 }
    requires bytes { bytes.now ≡ contents_in image.now n }
    requires names { names.old ≡ name_numbers (entries_in bytes.now) }
    ensures judged { MatchResult result (λ _. HasNames image.now (contents_in image.now n)) (Finds image.now) }
    ensures own { IfErr result IsOfImage }
{
    if !has_names(image, geometry, bytes, names) {
        return Err(ImageFault::Entry);
    }
    Ok(())
}

// Replaces `bytes` by the bytes of a directory, and `names` by the numbers of its names.
fn read_directory<A: Allocator>(
    image: &[u8],
    geometry: Geometry,
    n: usize,
    bytes: &mut Vec<u8, A>,
    names: &mut Vec<u128, A>,
) -> Result<(), AllocError>
    requires geometry { HasGeometry image.now geometry }
    requires blocks { BlockRules image.now }
    requires low { 1 ≤ n }
    requires high { n < geometry.inodes }
    requires directory { kind_in image.now n ≡ 1 }
    ensures bytes { OnOk result (bytes.new.items ≡ contents_in image.now n) }
    ensures names { OnOk result (names.new.items ≡ name_numbers (entries_in (contents_in image.now n))) }
{
    read_contents(image, geometry, n, bytes)?;
    read_names(bytes, names)
}

// Tests the names of a directory, and appends its entries. `bytes` and `names` are room to work in.
fn test_directory<A: Allocator, B: Allocator>(
    image: &[u8],
    geometry: Geometry,
    n: usize,
    bytes: &mut Vec<u8, B>,
    names: &mut Vec<u128, B>,
    namings: &mut Vec<Naming, A>,
) -> Result<(), ImageFault>
    requires geometry { HasGeometry image.now geometry }
    requires blocks { BlockRules image.now }
    requires low { 1 ≤ n }
    requires high { n < geometry.inodes }
    requires directory { kind_in image.now n ≡ 1 }
    ensures judged { MatchResult result (λ _. HasNames image.now (contents_in image.now n)) (Finds image.now) }
    ensures namings { OnOk result
        (namings.new.items ≡ namings.old.items ++ namings_of n (entries_in (contents_in image.now n))) }
{
    read_directory(image, geometry, n, bytes, names)?;
    test_names(image, geometry, n, bytes, names)?;
    add_entries(bytes, n as u16, namings)?;
    Ok(())
}

// Tests the names of all directories, and collects their entries.
pub fn test_directories<A: Allocator>(
    alloc: A,
    image: &[u8],
    geometry: Geometry,
    namings: &mut Vec<Naming, A>,
) -> Result<(), ImageFault>
    requires geometry { HasGeometry image.now geometry }
    requires blocks { BlockRules image.now }
    requires fresh { namings.old.items ≡ [] }
    ensures judged { MatchResult result (λ _. NamesDirectories image.now) (Finds image.now) }
    ensures namings { OnOk result (namings.new.items ≡ namings_in image.now) }
{
    let mut bytes = Vec::new(&alloc);
    let mut names = Vec::new(&alloc);
    for n in 1..geometry.inodes {
        if is_directory(image, n) {
            test_directory(image, geometry, n, &mut bytes, &mut names, namings)?;
        }
    }
    Ok(())
}
