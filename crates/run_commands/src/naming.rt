//! Names for addresses of an image's programs.
ghost use Rattle.std.specs.Prelude.{IfOk, ◌≡◌};
ghost use Rattle.std.specs.List.{All};
ghost use Rattle.symbolizer.specs.Programs.{IsProgram};

use host::{Failure, Front, Host, Why, disk_of};
use std::alloc::{AllocError, Global};
use symbolizer::{Program, ProgramsFault, Symbolizer, programs};

/// The programs of an image, none where it is refused.
pub fn programs_of<'a>(alloc: Global, image: &Front) -> Result<Vec<Program>, Failure<'a>>
    ensures { IfOk result (λ programs. All IsProgram programs.items) }
{
    let Ok(bytes) = Vec::from_slice(alloc, image.bytes.as_slice()) else {
        return Err(Failure::NoMemory);
    };
    let copy = Front {
        bytes,
        length: image.length,
    };
    let Ok(disk) = disk_of(copy) else {
        return Ok(Vec::new(alloc));
    };
    match programs(alloc, disk) {
        Ok(programs) => Ok(programs),
        Err(ProgramsFault::NoMemory) => Err(Failure::NoMemory),
        Err(ProgramsFault::Image(_) | ProgramsFault::Device) => Ok(Vec::new(alloc)),
    }
}

// The name of the file with symbols of the program of this path, if it lies in the root.
fn name_beside(alloc: Global, path: &[u8], directory: &str) -> Result<Option<String>, AllocError> {
    let [b'/', name @ ..] = path else {
        return Ok(None);
    };
    match str::from_utf8(name) {
        Ok(text) if name.iter().all(|byte| *byte != b'/') => {
            Ok(Some(format!(in alloc; "{directory}/{text}.elf")?))
        }
        _ => Ok(None),
    }
}

// The file with symbols of the program of this path, if it is there.
fn file_beside<'a, H: Host>(
    alloc: Global,
    path: &[u8],
    directory: &str,
    host: &mut H,
) -> Result<Option<Vec<u8>>, Failure<'a>>
    ensures { H.files host.new ≡ H.files host.old }
{
    let name = match name_beside(alloc, path, directory) {
        Ok(Some(name)) => name,
        Ok(None) => return Ok(None),
        Err(_) => return Err(Failure::NoMemory),
    };
    match host.read(name.as_str()) {
        Ok(file) => Ok(Some(file)),
        Err(_) => match host.why() {
            Why::NoMemory => Err(Failure::NoMemory),
            Why::Unknown | Why::System(_) => Ok(None),
        },
    }
}

// Takes the files with symbols in place of those of the programs, where they are there. A directory that has none
// can't be read.
fn take_beside<'a, H: Host>(
    alloc: Global,
    programs: &mut [Program],
    directory: &'a str,
    host: &mut H,
) -> Result<(), Failure<'a>>
    ensures { H.files host.new ≡ H.files host.old }
{
    let mut is_read = programs.is_empty();
    for program in programs {
        if let Some(file) = file_beside(alloc, program.path.as_slice(), directory, host)? {
            program.file = file;
            is_read = true;
        }
    }
    if is_read {
        Ok(())
    } else {
        Err(Failure::Read(directory))
    }
}

/// The programs of an image, and where a directory is named its `NAME.elf` in place of the file of `/NAME`. There are
/// none where the image is refused, which the boot reports.
pub fn programs_named<'a, H: Host>(
    alloc: Global,
    image: &Front,
    symbols: Option<&'a str>,
    host: &mut H,
) -> Result<Vec<Program>, Failure<'a>>
    ensures { H.files host.new ≡ H.files host.old }
{
    let mut programs = programs_of(alloc, image)?;
    if let Some(directory) = symbols {
        take_beside(alloc, programs.as_mut_slice(), directory, host)?;
    }
    Ok(programs)
}

/// The names that the files of an image's programs have, and where a directory is named those of its `NAME.elf` for
/// `/NAME`. There are none where the image is refused, which the boot reports.
pub fn symbolizer_of<'a, H: Host>(
    alloc: Global,
    image: &Front,
    symbols: Option<&'a str>,
    host: &mut H,
) -> Result<Symbolizer, Failure<'a>>
    ensures { H.files host.new ≡ H.files host.old }
{
    let programs = programs_named(alloc, image, symbols, host)?;
    Ok(Symbolizer::of(alloc, programs))
}
