//! The instructions of a program file.

use addresses::{Line as TextLine, Name, Names};
use elf::{ElfFault, HEADER_SIZE, LoadSegment, PROGRAM_HEADER_SIZE, header, segment};
use isa::Word;
use std::alloc::Global;
use std::io::Write;
use std::{fmt, io};

/// Why the instructions of a program file can't be listed.
#[derive(Clone, Copy)]
pub enum ProgramFault {
    /// The file is refused.
    Refused(ElfFault),
    /// The host has no memory.
    NoMemory,
}

impl From<ElfFault> for ProgramFault {
    ghost use Rattle.std.specs.Prelude.{◌≡◌};
    ghost use Rattle.image_files.specs.declared.program.ProgramFault.TheVariants.{Refused};

    ghost from_gives = { λ fault told. told ≡ Refused fault };

    fn from(fault: ElfFault) -> ProgramFault {
        ProgramFault::Refused(fault)
    }
}

// The first bytes of a file, with zeros after a shorter one.
fn front(file: &[u8]) -> [u8; HEADER_SIZE] {
    let mut front = [0; HEADER_SIZE];
    let known = file.len().min(HEADER_SIZE);
    front[..known].copy_from_slice(&file[..known]);
    front
}

// The bytes of a file from an offset on; none after its end.
fn behind(file: &[u8], at: u64) -> &[u8] {
    file.get(at.min(file.len() as u64) as usize..)
        .unwrap_or(&[])
}

/// The segments of a program file, in their order, if exec would take it.
pub fn segments(alloc: Global, file: &[u8]) -> Result<Vec<LoadSegment>, ProgramFault> {
    let len = file.len() as u64;
    let header = header(&front(file), len)?;
    let headers = behind(file, header.program_headers).chunks_exact(PROGRAM_HEADER_SIZE);
    let mut segments = Vec::new(alloc);
    let mut end = 0;
    for told in headers.take(usize::from(header.count)) {
        let mut bytes = [0; PROGRAM_HEADER_SIZE];
        bytes.copy_from_slice(told);
        if let Some(segment) = segment(&bytes, end, len)? {
            end = segment.address.saturating_add(segment.size);
            if segments.push(segment).is_err() {
                return Err(ProgramFault::NoMemory);
            }
        }
    }
    Ok(segments)
}

// A word and its address, of which the low 32 bits are shown.
#[derive(Clone, Copy)]
struct Line {
    address: u32,
    word: u32,
}

impl fmt::Display for Line {
    fn fmt<W: fmt::Write>(&self, f: &mut fmt::Formatter<W>) -> fmt::Result {
        let (address, word, text) = (self.address, self.word, Word(self.word));
        write!(f, "{address:08x}: {word:08x} {text}")
    }
}

// The number of 32 bits that four bytes spell, the lowest first.
fn word_of(bytes: &[u8]) -> u32 {
    let mut word = [0; 4];
    let known = bytes.len().min(4);
    word[..known].copy_from_slice(&bytes[..known]);
    u32::from_le_bytes(word)
}

// What names the addresses of a segment, and the line of a text that was written last.
#[derive(Drop)]
struct Headings<'n, 'a> {
    names: &'n Names<'a>,
    last: Option<TextLine<'a>>,
}

impl<'a> Headings<'_, 'a> {
    // What is written before an address: its name where a function or label begins, and where a line of a text does.
    fn before(&mut self, address: u64) -> Option<Name<'a>> {
        let name = self.names.at(address)?;
        let begins = name.place.is_some_and(|place| place.offset == 0);
        let is_other = name.line.is_some() && name.line != self.last;
        self.last = name.line;
        (begins || is_other).then_some(name)
    }
}

// Writes the name of an address, if it is to have one here.
fn write_heading<W: Write>(
    headings: &mut Option<Headings<'_, '_>>,
    address: u64,
    out: &mut W,
) -> io::Result<()> {
    let Some(headings) = headings else {
        return Ok(());
    };
    match headings.before(address) {
        Some(name) => writeln!(out, "{name}:"),
        None => Ok(()),
    }
}

// Writes a line for each whole word that a segment has in its file.
fn write_segment<W: Write>(
    file: &[u8],
    segment: &LoadSegment,
    names: Option<&Names<'_>>,
    out: &mut W,
) -> io::Result<()> {
    let bytes = behind(file, segment.offset);
    let size = segment.file_size.min(bytes.len() as u64) as usize;
    let mut headings = names.map(|names| Headings { names, last: None });
    let mut address = segment.address;
    for word in bytes[..size].chunks_exact(4) {
        write_heading(&mut headings, address, out)?;
        let line = Line {
            address: (address % 0x1_0000_0000) as u32,
            word: word_of(word),
        };
        writeln!(out, "{line}")?;
        address = address.wrapping_add(4);
    }
    Ok(())
}

/// Writes a line for each whole word of the segments that may be executed: its address, itself, and the instruction
/// that it is. With names, the name of an address is on a line before it where a function, a label or a line of a text
/// begins.
pub fn write_program<W: Write>(
    file: &[u8],
    segments: &[LoadSegment],
    names: Option<&Names<'_>>,
    out: &mut W,
) -> io::Result<()> {
    for segment in segments {
        if segment.executable {
            write_segment(file, segment, names, out)?;
        }
    }
    Ok(())
}
