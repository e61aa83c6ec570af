//! Names of addresses.
ghost use Rattle.std.specs.Prelude.{◌≡◌, is_some, option_map};

use crate::texts::Latin;
use addresses::Name;
use serde::Serialize;

/// What is known of an address: the function or label that has it with the offset in it, and the text's line.
#[derive(Clone, Copy, Serialize)]
pub struct LocationRow<'a> {
    function: Option<Latin<'a>>,
    offset: Option<u64>,
    file: Option<Latin<'a>>,
    line: Option<u64>,
}

// A name that is not empty.
fn known(name: &[u8]) -> Option<Latin<'_>> {
    if name.is_empty() {
        None
    } else {
        Some(Latin(name))
    }
}

impl<'a> LocationRow<'a> {
    /// What a name says.
    pub fn new(name: Name<'a>) -> LocationRow<'a>
        ensures offset { result.offset ≡ option_map (λ place. place.offset) name.entry.place }
        ensures line { result.line ≡ option_map (λ line. line.line) name.entry.line }
    {
        let (function, offset) = match name.place {
            Some(place) => (Some(Latin(place.name)), Some(place.offset)),
            None => (None, None),
        };
        let (file, line) = match name.line {
            Some(line) => (known(line.file), Some(line.line)),
            None => (None, None),
        };
        LocationRow {
            function,
            offset,
            file,
            line,
        }
    }

    /// The same, where an address has a name.
    pub fn of(name: Option<Name<'a>>) -> Option<LocationRow<'a>>
        ensures { is_some result ≡ is_some name.entry }
    {
        match name {
            Some(name) => Some(LocationRow::new(name)),
            None => None,
        }
    }
}
