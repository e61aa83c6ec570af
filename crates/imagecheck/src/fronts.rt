//! The first two slots of directories, "." and "..", and how many slots name a directory.

ghost use Rattle.std.specs.Prelude.{◌↔◌, IsTrue, ◌≡◌, ◌≤◌, ◌==◌, if◌then◌else◌, Some, length};
ghost use Rattle.unixmodel.specs.Image.{contents_in};
ghost use Rattle.imagecheck.specs.Entries.{AreNamed, FitsFront, HasFronts};
ghost use Rattle.imagerules.specs.Rules.{BlockRules};
ghost use Rattle.imagerules.specs.Fields.{HasGeometry};
ghost use Rattle.imagecheck.specs.Namings.{HasParents, TellsNames};
ghost use Rattle.imagecheck.specs.Reach.{IsDirectoryIn};
ghost use Rattle.imagerules.specs.Places.{place_of_bytes};

use crate::contents::front_place;
use crate::fields::is_directory;
use imagerules::{are_same, is_free, name_in, number_in, place_at};
use layout::Geometry;

// Whether a slot has this name and number.
fn holds(place: &[u8], name: &[u8], number: usize) -> bool
    requires { length place.now ≡ 16 }
    ensures { IsTrue result ↔ (place_of_bytes place.now ≡ Some (record { name = name.now; number = number })) }
{
    if is_free(place) {
        return false;
    }
    if number_in(place) as usize != number {
        return false;
    }
    are_same(name_in(place), name)
}

// Whether the first two slots of directory n are ".", which is itself, and "..", which is its parent.
fn fits_front(bytes: &[u8], n: usize, parent: usize) -> bool
    requires { 32 ≤ length bytes.now }
    ensures { IsTrue result ↔ FitsFront n parent bytes.now }
{
    if !holds(place_at(bytes, 0), b".".as_slice(), n) {
        return false;
    }
    holds(place_at(bytes, 1), b"..".as_slice(), parent)
}

// The same, of the bytes of directory n in the image.
fn has_front(image: &[u8], geometry: Geometry, n: usize, parent: usize) -> bool
    requires geometry { HasGeometry image.now geometry }
    requires blocks { BlockRules image.now }
    requires directory { IsDirectoryIn image.now n }
    ensures { IsTrue result ↔ FitsFront n parent (contents_in image.now n) }
{
    let at = front_place(image, geometry, n);
    fits_front(&image[at..at + 32], n, parent)
}

// Whether the first two slots of each directory are itself and its parent.
pub fn has_fronts(image: &[u8], geometry: Geometry, parents: &[u16]) -> bool
    requires geometry { HasGeometry image.now geometry }
    requires blocks { BlockRules image.now }
    requires long { length parents.now ≡ geometry.inodes }
    requires parents { HasParents image.now parents.now }
    ensures { IsTrue result ↔ HasFronts image.now }
{
    for n in 1..geometry.inodes {
        if is_directory(image, n) && !has_front(image, geometry, n, parents[n] as usize) {
            return false;
        }
    }
    true
}

// Whether a directory has as many names as it may: the root none, another one.
fn fits_names(n: usize, names: usize) -> bool
    ensures { IsTrue result ↔ (names ≡ (if n == 1 then 0 else 1)) }
{
    if n == 1 { names == 0 } else { names == 1 }
}

// Whether one slot names each directory, and none the root.
pub fn are_named(image: &[u8], geometry: Geometry, counts: &[usize]) -> bool
    requires geometry { HasGeometry image.now geometry }
    requires long { length counts.now ≡ geometry.inodes }
    requires counts { TellsNames image.now counts.now }
    ensures { IsTrue result ↔ AreNamed image.now }
{
    for n in 1..geometry.inodes {
        if is_directory(image, n) && !fits_names(n, counts[n]) {
            return false;
        }
    }
    true
}
