//! The slots of a directory.

ghost use Rattle.std.specs.Prelude.{◌≡◌, IsSome, ℕ, ◌+◌, ◌-◌, ◌*◌, ◌/◌, ◌%◌, ◌<◌, ◌≤◌, ◌==◌, List, false, get_or};
ghost use Rattle.std.specs.Prelude.{length, nat_lt, ◌&&◌};
ghost use Rattle.std.specs.Bool.{OnFalse};
ghost use Rattle.tree.specs.Entering.{room_behind, room_told};
ghost use Rattle.tree.specs.Names.{is_bare};
ghost use Rattle.tree.specs.Scanning.{Begins, BeginsWith, Scans, is_sought};
ghost use Rattle.imagerules.specs.Places.{place_of_bytes};
ghost use Rattle.tree.specs.Steps.{IsFolder, Reads};
ghost use Rattle.unixmodel.specs.Files.{has_name, lookup, slot};
ghost use Rattle.tree.specs.Calls.{ArePlaces, FindsName, FindsRoom, ScansFolder};

use crate::Tree;
use blockdev::{BLOCK_SIZE, BlockDev, DeviceFault};
use imagerules::{PLACE_SIZE, is_free, name_in, number_in, place_at};
use inode::{DIRECTORY, InodeStat};
use layout::LONGEST;

// How many slots a block has.
const PLACES: usize = BLOCK_SIZE / PLACE_SIZE;

// The most slots of a directory.
const MOST_PLACES: usize = LONGEST / PLACE_SIZE;

/// Where a name is, and the number that it names.
#[derive(Clone, Copy)]
pub struct Found {
    /// The slot in the directory.
    pub place: usize,
    /// The number of the node.
    pub number: usize,
}

/// Where an entry of a name goes in a directory.
#[derive(Clone, Copy)]
pub enum Room {
    /// Nowhere: an entry has the name.
    Named,
    /// Nowhere: the directory is full.
    Full,
    /// Into this slot: the first free one, or the end.
    At(usize),
}

// The first two bytes of a name, 0 where it has none.
#[derive(Clone, Copy)]
struct Beginning {
    first: u8,
    second: u8,
}

// A byte of a name, 0 after its end.
fn byte_at(name: &[u8], at: usize) -> u8
    ensures { result ≡ get_or name.now at 0 }
{
    match name.get(at) {
        Some(byte) => *byte,
        None => 0,
    }
}

// How a name begins.
fn beginning_of(name: &[u8]) -> Beginning
    ensures { Begins name.now result }
{
    Beginning {
        first: byte_at(name, 0),
        second: byte_at(name, 1),
    }
}

// Whether the name in a slot begins so.
#[inline(always)]
fn begins_so(place: &[u8], begins: Beginning) -> bool
    requires { length place.now ≡ 16 }
    ensures { result ≡ (get_or place.now 2 0 == begins.first) && (get_or place.now 3 0 == begins.second) }
{
    place[2] == begins.first && place[3] == begins.second
}

// Whether a slot has this name.
fn has_name(place: &[u8], name: &[u8]) -> bool
    requires { length place.now ≡ 16 }
    ensures { result ≡ has_name name.now (place_of_bytes place.now) }
{
    !is_free(place) && name_in(place) == name
}

// What is sought in a directory.
#[derive(Drop)]
enum Sought<'a> {
    // The slot of a name.
    Name(&'a [u8]),
    // The slot of a name, or a free one.
    NameOrFree(&'a [u8]),
    // A slot in use.
    Taken,
}

// How the name that is sought begins.
fn begins_with(sought: &Sought) -> Beginning
    ensures { BeginsWith sought.now result }
{
    match sought {
        Sought::Name(name) | Sought::NameOrFree(name) => beginning_of(name),
        Sought::Taken => Beginning {
            first: 0,
            second: 0,
        },
    }
}

// Whether a slot may be what is sought, by the two bytes that its name begins with. Most slots are not.
#[inline(always)]
fn may_match(place: &[u8], sought: &Sought, begins: Beginning) -> bool
    requires long { length place.now ≡ 16 }
    requires begins { BeginsWith sought.now begins }
    ensures { OnFalse result (is_sought sought.now (place_of_bytes place.now) ≡ false) }
{
    match sought {
        Sought::Name(_) => begins_so(place, begins),
        Sought::NameOrFree(_) => place[2] == 0 || begins_so(place, begins),
        Sought::Taken => true,
    }
}

// Whether a slot is what is sought, by all its bytes. It is out of line, so that the loop past all others is short.
#[inline(never)]
fn matches(place: &[u8], sought: &Sought) -> bool
    requires { length place.now ≡ 16 }
    ensures { result ≡ is_sought sought.now (place_of_bytes place.now) }
{
    match sought {
        Sought::Name(name) => has_name(place, name),
        Sought::NameOrFree(name) => is_free(place) || has_name(place, name),
        Sought::Taken => !is_free(place),
    }
}

// Whether a slot is what is sought.
#[inline(always)]
fn is_sought(place: &[u8], sought: &Sought, begins: Beginning) -> bool
    requires long { length place.now ≡ 16 }
    requires begins { BeginsWith sought.now begins }
    ensures { result ≡ is_sought sought.now (place_of_bytes place.now) }
{
    may_match(place, sought, begins) && matches(place, sought)
}

// The first of these slots that is what is sought.
fn first(places: &[u8], sought: &Sought) -> Option<Found>
    ensures { Scans sought.now places.now 0 result }
{
    let begins = begins_with(sought);
    for k in 0..places.len() / PLACE_SIZE {
        let place = place_at(places, k);
        if is_sought(place, sought, begins) {
            return Some(Found {
                place: k,
                number: usize::from(number_in(place)),
            });
        }
    }
    None
}

// How many slots a directory with these attributes has.
fn places_of(directory: &InodeStat) -> usize
    ensures { result ≡ directory.now.size / 16 }
{
    directory.size as usize / PLACE_SIZE
}

// Whether a node is a directory with links.
fn is_live(node: &InodeStat) -> bool
    ensures { result ≡ (node.now.kind == 1) && nat_lt 0 node.now.links }
{
    node.kind == DIRECTORY && node.links > 0
}

// The slot after `count` slots, unless that is past the longest directory.
fn room_behind(count: usize) -> Room
    ensures { result ≡ room_told (room_behind count) }
{
    if count < MOST_PLACES {
        Room::At(count)
    } else {
        Room::Full
    }
}

impl<D: BlockDev> Tree<D> {
    // How many slots a directory has.
    fn count_places(&mut self, directory: usize) -> Result<usize, DeviceFault>
        requires up { self.old.failed ≡ false }
        requires directory { IsFolder self.old.files directory }
        ensures { Reads self.old self.new result
            (λ count. (f : IsFolder self.old.files directory) → count ≡ length f.places) }
    {
        let node = self.node(directory)?;
        Ok(places_of(&node))
    }

    // Reads slots of a directory from slot `k` on, as many as `out` has room for.
    fn read_places(&mut self, directory: usize, k: usize, out: &mut [u8]) -> Result<(), DeviceFault>
        requires up { self.old.failed ≡ false }
        requires directory { IsFolder self.old.files directory }
        requires within { (f : IsFolder self.old.files directory) → 16 * k + length out.old ≤ 16 * length f.places }
        ensures { Reads self.old self.new result (λ _. ArePlaces self.old.files directory k out.old out.new) }
    {
        self.is_whole();
        let _count = self.bytes(directory, PLACE_SIZE * k, out)?;
        Ok(())
    }

    // The first slot from `from` on that is what is sought, of a directory with `count` slots. It is read by blocks.
    fn scan(
        &mut self,
        directory: usize,
        count: usize,
        from: usize,
        sought: &Sought,
    ) -> Result<Option<Found>, DeviceFault>
        requires up { self.old.failed ≡ false }
        requires directory { IsFolder self.old.files directory }
        requires count { (f : IsFolder self.old.files directory) → count ≡ length f.places }
        ensures { Reads self.old self.new result (ScansFolder self.old.files directory sought.now from) }
    {
        self.is_whole();
        let mut block = [0; BLOCK_SIZE];
        let mut k = from;
        'block: while k < count {
            let places = (PLACES - k % PLACES).min(count - k);
            let bytes = &mut block[..PLACE_SIZE * places];
            self.read_places(directory, k, bytes)?;
            if let Some(found) = first(bytes, sought) {
                return Ok(Some(Found {
                    place: k + found.place,
                    number: found.number,
                }));
            }
            k += places;
        }
        Ok(None)
    }

    // The slot of a name in a directory with `count` slots.
    fn find_among(
        &mut self,
        directory: usize,
        count: usize,
        name: &[u8],
    ) -> Result<Option<Found>, DeviceFault>
        requires up { self.old.failed ≡ false }
        requires directory { IsFolder self.old.files directory }
        requires count { (f : IsFolder self.old.files directory) → count ≡ length f.places }
        ensures { Reads self.old self.new result (FindsName self.old.files directory name.now) }
    {
        self.is_whole();
        self.scan(directory, count, 0, &Sought::Name(name))
    }

    // The slot of a name in a directory.
    pub(crate) fn find_name(
        &mut self,
        directory: usize,
        name: &[u8],
    ) -> Result<Option<Found>, DeviceFault>
        requires up { self.old.failed ≡ false }
        requires directory { IsFolder self.old.files directory }
        ensures { Reads self.old self.new result (FindsName self.old.files directory name.now) }
    {
        let count = self.count_places(directory)?;
        self.find_among(directory, count, name)
    }

    // The number that a name has in a directory with links. In any other node no name is found.
    pub(crate) fn lookup(
        &mut self,
        directory: usize,
        name: &[u8],
    ) -> Result<Option<usize>, DeviceFault>
        requires up { self.old.failed ≡ false }
        requires node { IsSome (slot self.old.files directory) }
        ensures { Reads self.old self.new result (λ number. number ≡ lookup self.old.files directory name.now) }
    {
        let node = self.node(directory)?;
        if !is_live(&node) {
            return Ok(None);
        }
        let Some(found) = self.find_among(directory, places_of(&node), name)? else {
            return Ok(None);
        };
        Ok(Some(found.number))
    }

    // Where an entry of a name goes in a directory. Each slot is looked at once: up to the first free one for that or
    // the name, and from there on for the name alone.
    pub(crate) fn room_for(&mut self, directory: usize, name: &[u8]) -> Result<Room, DeviceFault>
        requires up { self.old.failed ≡ false }
        requires directory { IsFolder self.old.files directory }
        ensures { Reads self.old self.new result (FindsRoom self.old.files directory name.now) }
    {
        self.is_whole();
        let count = self.count_places(directory)?;
        let Some(first) = self.scan(directory, count, 0, &Sought::NameOrFree(name))? else {
            return Ok(room_behind(count));
        };
        let None = self.scan(directory, count, first.place, &Sought::Name(name))? else {
            return Ok(Room::Named);
        };
        Ok(Room::At(first.place))
    }

    // Whether a directory has no slots in use except its first two.
    pub(crate) fn is_empty(&mut self, directory: usize) -> Result<bool, DeviceFault>
        requires up { self.old.failed ≡ false }
        requires directory { IsFolder self.old.files directory }
        ensures { Reads self.old self.new result
            (λ bare. (f : IsFolder self.old.files directory) → bare ≡ is_bare f.places) }
    {
        self.is_whole();
        let count = self.count_places(directory)?;
        let taken = self.scan(directory, count, 2, &Sought::Taken)?;
        Ok(taken.is_none())
    }
}
