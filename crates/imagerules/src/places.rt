//! Slots of directories, 16 bytes each: the number of an inode and its name. A free one is all 0.

ghost use Rattle.std.specs.Prelude.{◌≡◌, ◌+◌, ◌*◌, ◌≤◌, ◌==◌, drop, length};
ghost use Rattle.std.specs.List.{list_all};
ghost use Rattle.blockdev.specs.Splice.{part};
ghost use Rattle.unixmodel.specs.Numbers.{number_at};
ghost use Rattle.imagerules.specs.Places.{without_zeros};

use byteorder::{ByteOrder, LittleEndian};

/// How many bytes a slot has.
pub const PLACE_SIZE: usize = 16;

/// The bytes of slot `k`.
pub fn place_at(places: &[u8], k: usize) -> &[u8]
    requires { 16 * k + 16 ≤ length places.now }
    ensures place { result.now ≡ part (16 * k) 16 places.now }
    ensures long { length result.now ≡ 16 }
{
    &places[PLACE_SIZE * k..PLACE_SIZE * k + PLACE_SIZE]
}

/// Whether a slot is free.
pub fn is_free(place: &[u8]) -> bool
    ensures { result ≡ list_all (λ b. b == 0) place.now }
{
    place.iter().all(|byte| *byte == 0)
}

/// The number in a slot.
pub fn number_in(place: &[u8]) -> u16
    requires { length place.now ≡ 16 }
    ensures { result ≡ number_at 2 0 place.now }
{
    LittleEndian::read_u16(place)
}

/// The name in a slot: the bytes before the zeros at its end.
pub fn name_in(place: &[u8]) -> &[u8]
    requires { length place.now ≡ 16 }
    ensures { result.now ≡ without_zeros (drop 2 place.now) }
{
    before_zeros(&place[2..])
}

// The bytes before the zeros at the end.
fn before_zeros(bytes: &[u8]) -> &[u8]
    ensures { result.now ≡ without_zeros bytes.now }
{
    let mut end = bytes.len();
    while end > 0 && bytes[end - 1] == 0 {
        end -= 1;
    }
    &bytes[..end]
}
