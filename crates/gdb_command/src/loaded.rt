//! Whether a file with symbols is of the program that an image has.
use elf::{HEADER_SIZE, PROGRAM_HEADER_SIZE, header, segment};
use std::alloc::{AllocError, Global};

// What a file loads at an address.
#[derive(Clone, Copy, PartialEq, Eq)]
struct Loaded<'a> {
    address: u64,
    size: u64,
    bytes: &'a [u8],
}

// What a program header of a file loads, if anything.
fn loaded_by<'a>(file: &'a [u8], at: usize) -> Option<Loaded<'a>> {
    let bytes = file.get(at..)?.first_chunk::<PROGRAM_HEADER_SIZE>()?;
    let Ok(Some(part)) = segment(bytes, 0, file.len() as u64) else {
        return None;
    };
    let from = usize::try_from(part.offset).ok()?;
    let count = usize::try_from(part.file_size).ok()?;
    Some(Loaded {
        address: part.address,
        size: part.size,
        bytes: file.get(from..)?.get(..count)?,
    })
}

// All that a program's file loads, and where it begins to run; nothing of a file that is no program.
fn loaded_of(alloc: Global, file: &[u8]) -> Result<(u64, Vec<Loaded<'_>>), AllocError> {
    let mut all = Vec::new(alloc);
    let Some(front) = file.first_chunk::<HEADER_SIZE>() else {
        return Ok((0, all));
    };
    let Ok(header) = header(front, file.len() as u64) else {
        return Ok((0, all));
    };
    for index in 0..usize::from(header.count) {
        let at = (header.program_headers as usize).saturating_add(index * PROGRAM_HEADER_SIZE);
        if let Some(loaded) = loaded_by(file, at)
            && loaded.size > 0
        {
            all.push(loaded)?;
        }
    }
    Ok((header.entry, all))
}

/// Whether two files load the same bytes at the same addresses, and begin at the same one.
pub(crate) fn loads_the_same(alloc: Global, one: &[u8], other: &[u8]) -> Result<bool, AllocError> {
    let (entry, loaded) = loaded_of(alloc, one)?;
    let (other_entry, other_loaded) = loaded_of(alloc, other)?;
    Ok(entry == other_entry && loaded.as_slice() == other_loaded.as_slice())
}
