//! The headers of a program file, as exec reads them: ELF64, whose numbers have their lowest byte first.
//!
//! Only what exec asks for is looked at: the first four bytes, the entry, where the program headers are and how many.
//! Of each program header it is the type, flags, offset, address and sizes.
//! What the segments make of memory is the caller's affair.
#![tactic(auto)]

ghost use Rattle.std.specs.Prelude.{◌≡◌};
ghost use Rattle.elf.specs.Headers.{header_of, is_within, segment_of, segment_shown, wrong};
ghost use Rattle.unixmodel.specs.Plan.{segment_at};

use byteorder::{ByteOrder, LittleEndian};
use thiserror::Error;

/// How many bytes the header of a file has.
pub const HEADER_SIZE: usize = 64;

/// How many bytes a program header has.
pub const PROGRAM_HEADER_SIZE: usize = 56;

// The bytes 7f 45 4c 46, with which a file begins.
const MAGIC: u32 = 0x464C_457F;

// The type of a program header whose segment is loaded.
const LOAD: u32 = 1;

/// Why a program file is refused.
#[derive(Clone, Copy, Debug, PartialEq, Eq, Error)]
pub enum ElfFault {
    #[error("the file does not begin as an ELF file")]
    Magic = 1,
    #[error("a segment has more bytes in the file than in memory, or ends past the last address")]
    Sizes,
    #[error("a segment does not begin where a page begins")]
    Align,
    #[error("a segment begins before the last page of the one before it ends")]
    Overlap,
    #[error("the file ends too early")]
    Short,
}

/// What exec takes from the header of a file.
#[derive(Clone, Copy, Debug, PartialEq, Eq)]
pub struct FileHeader {
    /// The address of the first instruction, a multiple of 4.
    pub entry: u64,
    /// Where in the file the program headers are, one after the other.
    pub program_headers: u64,
    /// How many they are.
    pub count: u16,
}

/// A part of a file that is loaded into memory.
#[derive(Clone, Copy, Debug, PartialEq, Eq)]
pub struct LoadSegment {
    /// The program may write it.
    pub writable: bool,
    /// The program may execute it.
    pub executable: bool,
    /// Where its bytes are in the file.
    pub offset: u64,
    /// Where they go in memory: a multiple of 4096.
    pub address: u64,
    /// How many bytes it has in the file.
    pub file_size: u64,
    /// How many it has in memory: those after the file's are 0.
    pub size: u64,
}

/// What the first 64 bytes of a file of `len` bytes say. `Magic` where it doesn't begin as an ELF file, and `Short`
/// where the file has no 64 bytes, or ends before its program headers do.
pub fn header(bytes: &[u8; HEADER_SIZE], len: u64) -> Result<FileHeader, ElfFault>
    ensures { result ≡ header_of bytes.now len }
{
    if LittleEndian::read_u32(bytes) != MAGIC {
        return Err(ElfFault::Magic);
    }
    let header = FileHeader {
        entry: LittleEndian::read_u64(&bytes[24..]) / 4 * 4,
        program_headers: LittleEndian::read_u64(&bytes[32..]),
        count: LittleEndian::read_u16(&bytes[56..]),
    };
    let size = PROGRAM_HEADER_SIZE as u64 * u64::from(header.count);
    if len < HEADER_SIZE as u64 || !is_within(header.program_headers, size, len) {
        return Err(ElfFault::Short);
    }
    Ok(header)
}

/// The segment that a program header asks for, above what ends at address `end`, of a file of `len` bytes.
/// `None` for a program header of a type that isn't loaded.
/// Of several refusals the first in the order of `ElfFault` is returned.
pub fn segment(
    bytes: &[u8; PROGRAM_HEADER_SIZE],
    end: u64,
    len: u64,
) -> Result<Option<LoadSegment>, ElfFault>
    ensures { result ≡ segment_of bytes.now end len }
{
    if LittleEndian::read_u32(bytes) != LOAD {
        return Ok(None);
    }
    let segment = segment_in(bytes);
    match fault(segment, end, len) {
        Some(fault) => Err(fault),
        None => Ok(Some(segment)),
    }
}

// The segment that a program header describes.
fn segment_in(bytes: &[u8; PROGRAM_HEADER_SIZE]) -> LoadSegment
    ensures { result ≡ segment_shown (segment_at bytes.now 0) }
{
    let flags = LittleEndian::read_u32(&bytes[4..]);
    LoadSegment {
        writable: flags / 2 % 2 == 1,
        executable: flags % 2 == 1,
        offset: LittleEndian::read_u64(&bytes[8..]),
        address: LittleEndian::read_u64(&bytes[16..]),
        file_size: LittleEndian::read_u64(&bytes[32..]),
        size: LittleEndian::read_u64(&bytes[40..]),
    }
}

// What is wrong with a segment, if anything is.
fn fault(segment: LoadSegment, end: u64, len: u64) -> Option<ElfFault>
    ensures { result ≡ wrong segment end len }
{
    if segment.file_size > segment.size || segment.address.checked_add(segment.size).is_none() {
        Some(ElfFault::Sizes)
    } else if segment.address % 4096 != 0 {
        Some(ElfFault::Align)
    } else if segment.address < end {
        Some(ElfFault::Overlap)
    } else if !is_within(segment.offset, segment.file_size, len) {
        Some(ElfFault::Short)
    } else {
        None
    }
}

// Whether a file of `len` bytes has `size` bytes at an offset. It has 0 bytes anywhere.
fn is_within(at: u64, size: u64, len: u64) -> bool
    ensures { result ≡ is_within at size len }
{
    size == 0 || at.checked_add(size).is_some_and(|end| end <= len)
}
