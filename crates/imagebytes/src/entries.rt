//! The entries of a manifest, as numbers and bytes.
ghost use Rattle.std.specs.Prelude.{◌≡◌, ◌+◌, ◌<◌, ◌≤◌, IfOk, IfSome, IfErr, MatchOption, Some, drop, length};
ghost use Rattle.std.specs.Prelude.{option_map, take};
ghost use Rattle.imagebytes.specs.Entries.{told_entries, told_entry, told_thing};
ghost use Rattle.imagebytes.specs.Made.{RefusesManifest};
ghost use Rattle.imagemake.specs.Making.{entry_of, meaning, thing_of};

use crate::making::MakingFault;
use image::{Entry, Manifest, Thing};
use std::alloc::{AllocError, Global};

/// An entry: how many bytes its path and its file have, and what it is.
#[repr(C)]
#[derive(Clone, Copy)]
pub struct EntryTold {
    /// How many bytes its path has.
    pub path: u64,
    /// How many bytes its file has; 0 of what is none.
    pub size: u64,
    /// 1 directory, 2 file, 3 device.
    pub kind: u32,
    /// Which driver a device has; 0 of what is none.
    pub major: u16,
    /// Which of the driver's devices it is; 0 of what is none.
    pub minor: u16,
}

// The first bytes, and what comes after them; none where they are fewer.
fn split(bytes: &[u8], count: u64) -> Option<(&[u8], &[u8])>
    ensures some { MatchOption result (length bytes.now < count) (λ _. count ≤ length bytes.now) }
    ensures first { IfSome result (λ both. both.0.now ≡ take count bytes.now) }
    ensures rest { IfSome result (λ both. both.1.now ≡ drop count bytes.now) }
{
    if count > bytes.len() as u64 {
        return None;
    }
    let count = count as usize;
    Some((&bytes[..count], &bytes[count..]))
}

// What an entry makes; none where it is of no kind.
fn thing(alloc: Global, told: &EntryTold, contents: &[u8]) -> Result<Option<Thing>, AllocError>
    ensures { IfOk result (λ thing. option_map thing_of thing ≡ told_thing told.now contents.now) }
{
    if told.kind == 2 {
        return Ok(Some(Thing::File(Vec::from_slice(alloc, contents)?)));
    }
    if told.kind == 1 && contents.is_empty() {
        return Ok(Some(Thing::Directory));
    }
    if told.kind == 3 && contents.is_empty() {
        return Ok(Some(Thing::Device {
            major: told.major,
            minor: told.minor,
        }));
    }
    Ok(None)
}

// The entry whose path and contents are at the front of some bytes, and what comes after them; none where they are
// not there, or it is of no kind.
fn entry<'a>(
    alloc: Global,
    told: &EntryTold,
    bytes: &'a [u8],
) -> Result<Option<(Entry, &'a [u8])>, AllocError>
    ensures entry { IfOk result (λ made. option_map (λ m. entry_of m.0) made ≡ told_entry told.now bytes.now) }
    ensures rest { IfOk result (λ made. IfSome made (λ m. m.1.now ≡ drop (told.now.path + told.now.size) bytes.now)) }
{
    let Some((path, behind)) = split(bytes, told.path) else {
        return Ok(None);
    };
    let Some((contents, rest)) = split(behind, told.size) else {
        return Ok(None);
    };
    let Some(thing) = thing(alloc, told, contents)? else {
        return Ok(None);
    };
    let path = Vec::from_slice(alloc, path)?;
    Ok(Some((Entry { path, thing }, rest)))
}

/// The manifest of some entries, whose paths and contents are these bytes, one after the other.
pub fn manifest_of(alloc: Global, told: &[EntryTold], bytes: &[u8]) -> Result<Manifest, MakingFault>
    ensures made { IfOk result (λ made. told_entries told.now bytes.now ≡ Some (meaning made.entries.items)) }
    ensures refused { IfErr result (RefusesManifest (told_entries told.now bytes.now)) }
{
    let mut entries = Vec::new(alloc);
    let mut rest = bytes;
    for one in told {
        let Some((made, behind)) = entry(alloc, one, rest)? else {
            return Err(MakingFault::Entry);
        };
        rest = behind;
        entries.push(made)?;
    }
    if !rest.is_empty() {
        return Err(MakingFault::Entry);
    }
    Ok(Manifest { entries })
}
