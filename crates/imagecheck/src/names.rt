//! The names of a directory as numbers, by which they are told apart.

ghost use Rattle.std.specs.Prelude.{◌↔◌, IsTrue, ◌≡◌, ◌≢◌, ◌+◌, ◌≤◌, ◌++◌, AllPairs, length, OnOk};
ghost use Rattle.std.specs.Option.{option_to_list};
ghost use Rattle.imagecheck.specs.Entries.{entries_in, name_numbers};
ghost use Rattle.imagerules.specs.Places.{place_of_bytes};

use byteorder::{ByteOrder, LittleEndian};
use imagerules::{is_free, place_at};
use std::alloc::{AllocError, Allocator};

// Appends the number of the name in a slot, if it is taken.
fn add_name<A: Allocator>(place: &[u8], names: &mut Vec<u128, A>) -> Result<(), AllocError>
    requires { length place.now ≡ 16 }
    ensures { OnOk result (names.new.items ≡ names.old.items
        ++ name_numbers (option_to_list (place_of_bytes place.now))) }
{
    if is_free(place) {
        return Ok(());
    }
    names.push(LittleEndian::read_uint128(&place[2..], 14))?;
    Ok(())
}

// Replaces `names` by the numbers of the names of a directory with these bytes.
pub fn read_names<A: Allocator>(bytes: &[u8], names: &mut Vec<u128, A>) -> Result<(), AllocError>
    requires { 32 ≤ length bytes.now }
    ensures { OnOk result (names.new.items ≡ name_numbers (entries_in bytes.now)) }
{
    names.clear();
    for k in 2..bytes.len() / 16 {
        add_name(place_at(bytes, k), names)?;
    }
    Ok(())
}

// Whether no two names have one number. The numbers are sorted.
pub fn are_distinct(names: &mut [u128]) -> bool
    ensures { IsTrue result ↔ AllPairs (λ a b. a ≢ b) names.old }
{
    names.sort_unstable();
    names.is_sorted_by(|a, b| a < b)
}
