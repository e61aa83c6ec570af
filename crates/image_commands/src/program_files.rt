//! Assembles texts, and shows program files.
ghost use Rattle.std.specs.Prelude.{◌≡◌, OnOk};
ghost use Rattle.image_commands.specs.Handed.{AssemblesIn, Known};

use addresses::Names;
use asm::assemble;
use commandline::{Asm, Dump};
use host::{Failure, Host, read, read_marked, write};
use image_files::{ProgramFault, segments, write_program};
use std::alloc::Global;
use std::io::Write;

/// The bytes with which a program file begins.
const MARK: &[u8] = b"\x7fELF";

/// The command `asm`.
pub fn asm<'a, H: Host>(alloc: Global, words: Asm<'a>, host: &mut H) -> Result<(), Failure<'a>>
    ensures { OnOk result (Known (AssemblesIn words.entry) (H.files host.old) (H.files host.new)) }
{
    let bytes = read(host, words.text)?;
    let Ok(text) = str::from_utf8(bytes.as_slice()) else {
        return Err(Failure::Read(words.text));
    };
    let file = match assemble(alloc, text) {
        Ok(file) => file,
        Err(fault) => return Err(Failure::Assembly(fault)),
    };
    write(host, words.elf, file.as_slice())
}

/// The command `dump`. All headers are read before anything is shown. Of a file that doesn't begin as an ELF file
/// only the front is read.
pub fn dump<'a, H: Host, W: Write>(
    alloc: Global,
    words: Dump<'a>,
    host: &mut H,
    stdout: &mut W,
) -> Result<(), Failure<'a>>
    ensures { H.files host.new ≡ H.files host.old }
{
    let file = read_marked(host, words.elf, MARK)?;
    let segments = match segments(alloc, file.as_slice()) {
        Ok(segments) => segments,
        Err(ProgramFault::Refused(fault)) => return Err(Failure::Program(fault)),
        Err(ProgramFault::NoMemory) => return Err(Failure::NoMemory),
    };
    let names = if words.names {
        let Ok(names) = Names::of(alloc, file.as_slice()) else {
            return Err(Failure::NoMemory);
        };
        Some(names)
    } else {
        None
    };
    let written = write_program(file.as_slice(), segments.as_slice(), names.as_ref(), stdout);
    if written.is_err() || stdout.flush().is_err() {
        return Err(Failure::Output);
    }
    Ok(())
}
