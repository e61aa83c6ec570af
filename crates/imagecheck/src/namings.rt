//! The entries of all directories, each as its directory and the number that it names.

ghost use Rattle.std.specs.Prelude.{◌≡◌, ◌+◌, ◌≤◌, ◌++◌, length, OnOk};
ghost use Rattle.std.specs.Option.{option_to_list};
ghost use Rattle.imagecheck.specs.Entries.{entries_in};
ghost use Rattle.imagecheck.specs.Namings.{namings_of};
ghost use Rattle.imagerules.specs.Places.{place_of_bytes};

use imagerules::{is_free, number_in, place_at};
use std::alloc::{AllocError, Allocator};

// An entry of a directory.
#[derive(Clone, Copy)]
pub struct Naming {
    // The directory that it is in.
    pub directory: u16,
    // The number that it names.
    pub number: u16,
}

// Appends the entry in a slot, if it is taken.
fn add_entry<A: Allocator>(
    place: &[u8],
    directory: u16,
    namings: &mut Vec<Naming, A>,
) -> Result<(), AllocError>
    requires { length place.now ≡ 16 }
    ensures { OnOk result (namings.new.items ≡ namings.old.items
        ++ namings_of directory (option_to_list (place_of_bytes place.now))) }
{
    if is_free(place) {
        return Ok(());
    }
    namings.push(Naming {
        directory,
        number: number_in(place),
    })?;
    Ok(())
}

// Appends the entries of a directory with these bytes.
pub fn add_entries<A: Allocator>(
    bytes: &[u8],
    directory: u16,
    namings: &mut Vec<Naming, A>,
) -> Result<(), AllocError>
    requires { 32 ≤ length bytes.now }
    ensures { OnOk result (namings.new.items ≡ namings.old.items ++ namings_of directory (entries_in bytes.now)) }
{
    for k in 2..bytes.len() / 16 {
        add_entry(place_at(bytes, k), directory, namings)?;
    }
    Ok(())
}
