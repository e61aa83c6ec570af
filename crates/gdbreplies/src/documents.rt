//! Parts of documents and of files.
ghost use Rattle.std.specs.Prelude.{◌≡◌, ◌++◌, OnOk};
ghost use Rattle.gdbreplies.specs.Replies.{file_part_sent, no_file_sent, opened_sent, part_of, part_sent, status_sent};

use gdbwire::{Part, push_number};
use std::alloc::AllocError;

/// The longest part that is sent at once, in bytes: with all of them escaped it fits into a frame.
pub const LONGEST_PART: u64 = 4096;

// Of a document, what is asked for.
#[tactic(auto, unfolding(crate::specs::Replies::part_of))]
fn part_of(document: &[u8], part: Part) -> &[u8]
    ensures { result.now ≡ part_of document.now part }
{
    let from = (part.from as usize).min(document.len());
    let rest = &document[from..];
    let count = (part.count.min(LONGEST_PART) as usize).min(rest.len());
    &rest[..count]
}

/// Puts a part of a document at the end: `m` and the part where more follows, and `l` before the last. An error leaves
/// a beginning of it.
pub fn push_part(document: &[u8], part: Part, out: &mut Vec<u8>) -> Result<(), AllocError>
    ensures { OnOk result (out.new.items ≡ out.old.items ++ part_sent document.now part) }
{
    let bytes = part_of(document, part);
    let left = (document.len() as u64).saturating_sub(part.from);
    let is_last = left <= bytes.len() as u64;
    out.extend_from_slice(if is_last { b"l" } else { b"m" })?;
    out.extend_from_slice(bytes)
}

/// Puts a part of an open file at the end. An error leaves a beginning of it.
pub fn push_file_part(file: &[u8], part: Part, out: &mut Vec<u8>) -> Result<(), AllocError>
    ensures { OnOk result (out.new.items ≡ out.old.items ++ file_part_sent (part_of file.now part)) }
{
    let bytes = part_of(file, part);
    out.extend_from_slice(b"F")?;
    push_number(bytes.len() as u64, out)?;
    out.extend_from_slice(b";")?;
    out.extend_from_slice(bytes)
}

/// Puts the number of a file that was opened at the end. An error leaves a beginning of it.
pub fn push_opened(number: u64, out: &mut Vec<u8>) -> Result<(), AllocError>
    ensures { OnOk result (out.new.items ≡ out.old.items ++ opened_sent number) }
{
    out.extend_from_slice(b"F")?;
    push_number(number, out)
}

/// Puts at the end that there is no such file: ENOENT. An error leaves a beginning of it.
pub fn push_no_file(out: &mut Vec<u8>) -> Result<(), AllocError>
    ensures { OnOk result (out.new.items ≡ out.old.items ++ no_file_sent) }
{
    out.extend_from_slice(b"F-1,2")
}

// Device, number, mode 0100755 and one link, of four bytes each, and nothing of owners and a special device.
const STATUS: [u8; 28] = [
    0, 0, 0, 0, 0, 0, 0, 0, 0, 0, 0x81, 0xed, 0, 0, 0, 1, 0, 0, 0, 0, 0, 0, 0, 0, 0, 0, 0, 0,
];

// Blocks of 1024 bytes, as many as are needed for no file, and three times.
const BLOCKS: [u8; 28] = [
    0, 0, 0, 0, 0, 0, 4, 0, 0, 0, 0, 0, 0, 0, 0, 0, 0, 0, 0, 0, 0, 0, 0, 0, 0, 0, 0, 0,
];

/// Puts the status of a file at the end: that it can be executed, and its size. An error leaves a beginning of it.
pub fn push_file_status(size: u64, out: &mut Vec<u8>) -> Result<(), AllocError>
    ensures { OnOk result (out.new.items ≡ out.old.items ++ status_sent size) }
{
    out.extend_from_slice(b"F40;")?;
    out.extend_from_slice(&STATUS)?;
    out.extend_from_slice(&size.to_be_bytes())?;
    out.extend_from_slice(&BLOCKS)
}
