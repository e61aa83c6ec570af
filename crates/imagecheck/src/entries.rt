//! The slots of a directory, from its bytes.

ghost use Rattle.std.specs.Prelude.{◌↔◌, IsTrue, ◌≡◌, ◌+◌, ◌*◌, ◌/◌, ◌≤◌, ◌==◌, ◌&&◌, All, is_some, length};
ghost use Rattle.unixmodel.specs.Files.{slot};
ghost use Rattle.imagecheck.specs.Entries.{GoodPlace, IsGood, entries_in};
ghost use Rattle.imagerules.specs.Fields.{HasGeometry};
ghost use Rattle.imagerules.specs.Places.{files_in, place_of_bytes};

use crate::fields;
use imagerules::{is_free, is_good_name, name_in, number_in, place_at};
use layout::Geometry;

// Whether a number is that of an inode in use.
fn is_used(image: &[u8], geometry: Geometry, n: usize) -> bool
    requires { HasGeometry image.now geometry }
    ensures { result ≡ is_some (slot (files_in image.now) n) }
{
    if n == 0 {
        return false;
    }
    if n >= geometry.inodes {
        return false;
    }
    !fields::is_free(image, n)
}

// Whether a slot is free, or has a name and the number of an inode in use.
fn is_good(image: &[u8], geometry: Geometry, place: &[u8]) -> bool
    requires geometry { HasGeometry image.now geometry }
    requires long { length place.now ≡ 16 }
    ensures { IsTrue result ↔ GoodPlace image.now (place_of_bytes place.now) }
{
    if is_free(place) {
        return true;
    }
    if !is_used(image, geometry, number_in(place) as usize) {
        return false;
    }
    is_good_name(name_in(place))
}

// Whether each slot after the first two is good.
pub fn are_good(image: &[u8], geometry: Geometry, bytes: &[u8]) -> bool
    requires geometry { HasGeometry image.now geometry }
    requires least { 32 ≤ length bytes.now }
    ensures { IsTrue result ↔ All (IsGood image.now) (entries_in bytes.now) }
{
    for k in 2..bytes.len() / 16 {
        if !is_good(image, geometry, place_at(bytes, k)) {
            return false;
        }
    }
    true
}
