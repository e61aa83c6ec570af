//! The files of an image whose inodes and blocks are sound: their entries, their links and that each is reached.

ghost use Rattle.std.specs.Prelude.{◌≡◌, length, IfErr, MatchResult};
ghost use Rattle.imagecheck.specs.Entries.{NamesDirectories};
ghost use Rattle.imagecheck.specs.Faults.{Finds, IsOfImage};
ghost use Rattle.imagerules.specs.Rules.{BlockRules, HasFiles};
ghost use Rattle.imagerules.specs.Fields.{HasGeometry};
ghost use Rattle.imagecheck.specs.Namings.{HasCounts, HasParents, IsListed, TellsNames};
ghost use Rattle.imagerules.specs.Places.{HasEntries, HasLinks, files_in};
ghost use Rattle.imagecheck.specs.declared.namings.Naming.{Naming};

use crate::ImageFault;
use crate::directories::test_directories;
use crate::fronts::{are_named, has_fronts};
use crate::links::has_links;
use crate::namings::Naming;
use crate::reach::test_reach;
use crate::tables::{count_names, count_subdirectories, find_parents};
use layout::Geometry;
use std::alloc::Allocator;

// Tests the first two slots of the directories, and how many entries name each.
fn test_entries(
    image: &[u8],
    geometry: Geometry,
    counts: &[usize],
    parents: &[u16],
) -> Result<(), ImageFault>
    requires geometry { HasGeometry image.now geometry }
    requires blocks { BlockRules image.now }
    requires names { NamesDirectories image.now }
    requires counts_long { length counts.now ≡ geometry.inodes }
    requires counts { TellsNames image.now counts.now }
    requires parents_long { length parents.now ≡ geometry.inodes }
    requires parents { HasParents image.now parents.now }
    ensures judged { MatchResult result (λ _. HasEntries (files_in image.now)) (Finds image.now) }
    ensures own { IfErr result IsOfImage }
{
    if !are_named(image, geometry, counts) {
        return Err(ImageFault::Entry);
    }
    if !has_fronts(image, geometry, parents) {
        return Err(ImageFault::Entry);
    }
    Ok(())
}

// Tests the counts of links.
fn test_links(
    image: &[u8],
    geometry: Geometry,
    counts: &[usize],
    subdirectories: &[usize],
) -> Result<(), ImageFault>
    requires geometry { HasGeometry image.now geometry }
    requires blocks { BlockRules image.now }
    requires entries { HasEntries (files_in image.now) }
    requires counts { HasCounts image.now geometry counts.now subdirectories.now }
    ensures judged { MatchResult result (λ _. HasLinks (files_in image.now)) (Finds image.now) }
    ensures own { IfErr result IsOfImage }
{
    if !has_links(image, geometry, counts, subdirectories) {
        return Err(ImageFault::Links);
    }
    Ok(())
}

// Tests the first two slots of the directories, from a table of the parents.
fn test_fronts<A: Allocator>(
    alloc: A,
    image: &[u8],
    geometry: Geometry,
    namings: &[Naming],
    counts: &[usize],
) -> Result<(), ImageFault>
    requires listed { IsListed image.now geometry namings.now }
    requires long { length counts.now ≡ geometry.inodes }
    requires counts { TellsNames image.now counts.now }
    ensures { MatchResult result (λ _. HasEntries (files_in image.now)) (Finds image.now) }
{
    let mut parents = vec![in alloc; 0; geometry.inodes]?;
    find_parents(namings, &mut parents);
    test_entries(image, geometry, counts, &parents)
}

// Tests the counts of links, from a table of the subdirectories.
fn test_subdirectories<A: Allocator>(
    alloc: A,
    image: &[u8],
    geometry: Geometry,
    namings: &[Naming],
    counts: &[usize],
) -> Result<(), ImageFault>
    requires listed { IsListed image.now geometry namings.now }
    requires entries { HasEntries (files_in image.now) }
    requires long { length counts.now ≡ geometry.inodes }
    requires counts { TellsNames image.now counts.now }
    ensures { MatchResult result (λ _. HasLinks (files_in image.now)) (Finds image.now) }
{
    let mut subdirectories = vec![in alloc; 0; geometry.inodes]?;
    count_subdirectories(image, geometry, namings, &mut subdirectories);
    test_links(image, geometry, counts, &subdirectories)
}

// Tests what follows from the entries of all directories: the first two slots, how many name each number, and the
fn test_namings<A: Allocator>(
    alloc: A,
    image: &[u8],
    geometry: Geometry,
    namings: &[Naming],
) -> Result<(), ImageFault>
    requires { IsListed image.now geometry namings.now }
    ensures { MatchResult result (λ _. HasEntries (files_in image.now) × HasLinks (files_in image.now))
        (Finds image.now) }
{
    let mut counts = vec![in &alloc; 0; geometry.inodes]?;
    count_names(namings, &mut counts);
    test_fronts(&alloc, image, geometry, namings, &counts)?;
    test_subdirectories(&alloc, image, geometry, namings, &counts)
}

// Tests the files: the rules from the entries to the reach.
pub fn test_files<A: Allocator>(
    alloc: A,
    image: &[u8],
    geometry: Geometry,
) -> Result<(), ImageFault>
    requires geometry { HasGeometry image.now geometry }
    requires blocks { BlockRules image.now }
    ensures { MatchResult result (λ _. HasFiles image.now) (Finds image.now) }
{
    let mut namings = Vec::new(&alloc);
    test_directories(&alloc, image, geometry, &mut namings)?;
    test_namings(&alloc, image, geometry, &namings)?;
    test_reach(&alloc, image, geometry)
}
