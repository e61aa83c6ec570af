//! Whether all inodes in use are reached from the root.

ghost use Rattle.std.specs.Prelude.{◌≡◌, ◌+◌, ◌<◌, length, IfErr, MatchBool, MatchResult};
ghost use Rattle.unixmodel.specs.Image.{parent_of};
ghost use Rattle.imagecheck.specs.Faults.{Finds, IsOfImage};
ghost use Rattle.imagerules.specs.Places.{IsReached, files_in};
ghost use Rattle.imagecheck.specs.Reach.{HasClimbed, HasSoundLinks, HasWalked, IsDirectoryIn};

use crate::ImageFault;
use crate::contents::front_place;
use crate::fields::{is_directory, number16};
use layout::Geometry;
use std::alloc::Allocator;

// The directory that a directory's ".." names.
fn parent(image: &[u8], geometry: Geometry, n: usize) -> usize
    requires sound { HasSoundLinks image.now geometry }
    requires directory { IsDirectoryIn image.now n }
    ensures parent { result ≡ parent_of (files_in image.now) n }
    ensures directory { IsDirectoryIn image.now result }
{
    number16(image, front_place(image, geometry, n) + 16) as usize
}

// Goes from a directory up to the first that has a mark, and marks those on the way with the start's number. Returns
// whether it reached one that an earlier walk met, and not one of its own.
fn climb(image: &[u8], geometry: Geometry, start: usize, marks: &mut [u16]) -> bool
    requires sound { HasSoundLinks image.now geometry }
    requires directory { IsDirectoryIn image.now start }
    requires above { 1 < start }
    requires long { length marks.old ≡ geometry.inodes }
    requires walked { HasWalked (files_in image.now) start marks.old }
    ensures { MatchBool result (HasClimbed (files_in image.now) start marks.new) (¬ IsReached (files_in image.now)) }
{
    let mut n = start;
    while marks[n] == 0 {
        marks[n] = start as u16;
        n = parent(image, geometry, n);
    }
    marks[n] as usize != start
}

// Climbs from each directory. Each is met once, by the first walk that reaches it.
fn test_climbs(image: &[u8], geometry: Geometry, marks: &mut [u16]) -> Result<(), ImageFault>
    requires sound { HasSoundLinks image.now geometry }
    requires long { length marks.old ≡ geometry.inodes }
    requires walked { HasWalked (files_in image.now) 2 marks.old }
    ensures judged { MatchResult result (λ _. IsReached (files_in image.now)) (Finds image.now) }
    ensures own { IfErr result IsOfImage }
{
    for n in 2..geometry.inodes {
        if is_directory(image, n) && !climb(image, geometry, n, marks) {
            return Err(ImageFault::Unreached);
        }
    }
    Ok(())
}

// Tests that a path from the root reaches each inode in use: that from each directory the parents lead up to the root.
pub fn test_reach<A: Allocator>(
    alloc: A,
    image: &[u8],
    geometry: Geometry,
) -> Result<(), ImageFault>
    requires { HasSoundLinks image.now geometry }
    ensures { MatchResult result (λ _. IsReached (files_in image.now)) (Finds image.now) }
{
    let mut marks = vec![in alloc; 0; geometry.inodes]?;
    marks[1] = 1;
    test_climbs(image, geometry, &mut marks)
}
