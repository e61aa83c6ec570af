//! The commands that boot a machine and give it the events of a script.
ghost use Rattle.std.specs.Prelude.{IfOk, OnOk, option_map, ◌≡◌};
ghost use Rattle.host.specs.Files.{Holds, HoldsFront};
ghost use Rattle.run_commands.specs.Files.{IsKept, RunsFiles, most_of_image};
ghost use Rattle.events.specs.Commands.{IsCommand};
ghost use Rattle.events.specs.Lines.{AreSaid, lines_of};

use crate::performing::{FlatShow, Performed, Piece, Show, Watched, perform, perform_flat};
use crate::telling::Lent;
use blockdev::MemDisk;
use commandline::{Flat, Run};
use driver::Watch;
use events::{Command, TextFault, Unrecorded, parse};
use host::{End, Failure, Front, Host, disk_of, read, read_front, read_image, write};
use machine::BootFault;
use std::alloc::Global;
use std::io::Write;
use sv39::{Plain, Recent, Tlb};

/// How much of a flat program is read: a byte more than the largest memory has, so that what is cut off can't boot
/// either.
const MOST_PROGRAM: usize = 32768 * 4096 + 1;

/// The commands of the script of this name, which has to be text.
pub fn script_of<'a, 'b>(
    alloc: Global,
    name: &'a str,
    bytes: &'b [u8],
) -> Result<Vec<Command<'b>>, Failure<'a>>
    ensures { IfOk result (λ commands. AreSaid IsCommand (lines_of bytes.now) commands.items) }
{
    let Ok(text) = str::from_utf8(bytes) else {
        return Err(Failure::Read(name));
    };
    match parse(alloc, text.as_bytes()) {
        Ok(commands) => Ok(commands),
        Err(TextFault::Line(line)) => Err(Failure::Script(line)),
        Err(TextFault::NoMemory) => Err(Failure::NoMemory),
    }
}

// How a flat run ended, or why there was none.
fn ended<'a, W>(ran: Result<(End, &mut W), BootFault>) -> Result<End, Failure<'a>> {
    match ran {
        Ok((end, _)) => Ok(end),
        Err(fault) => Err(Failure::Boot(fault)),
    }
}

// A flat program over the translator that the words ask for.
fn flat_over<'a, V: Watch + Drop, W: Write>(
    show: FlatShow<'_, '_>,
    tlb: bool,
    watch: V,
    stdout: &mut W,
) -> Result<End, Failure<'a>> {
    let ran = if tlb {
        perform_flat(show, Recent::new(Tlb::<64>::new()), watch, stdout)
    } else {
        perform_flat(show, Recent::new(Plain::new()), watch, stdout)
    };
    ended(ran)
}

// The program and the script of a flat run, which are read in this order.
fn read_flat<'a, H: Host>(host: &mut H, words: &Flat<'a>) -> Result<(Vec<u8>, Vec<u8>), Failure<'a>>
    ensures script { IfOk result (λ files. Holds words.now.script.now files.1.items (H.files host.old)) }
    ensures same { H.files host.new ≡ H.files host.old }
{
    let program = read_front(host, words.file, MOST_PROGRAM)?.bytes;
    let script = read(host, words.script)?;
    Ok((program, script))
}

/// The command `flat`, whose batches of events are watched. Its files are read in the order of the command line, and
/// the script is parsed, before anything is booted.
pub fn flat<'a, H: Host, V: Watch + Drop, W: Write>(
    alloc: Global,
    words: Flat<'a>,
    host: &mut H,
    watch: V,
    stdout: &mut W,
) -> Result<End, Failure<'a>> {
    let (program, bytes) = read_flat(host, &words)?;
    let script = script_of(alloc, words.script, bytes.as_slice())?;
    let show = FlatShow {
        alloc,
        program: program.as_slice(),
        frames: words.frames,
        script: script.as_slice(),
    };
    flat_over(show, words.tlb, watch, stdout)
}

/// The same, each of whose events is watched.
pub(crate) fn flat_watched<'a, H: Host, V: Watch, W: Write>(
    alloc: Global,
    words: Flat<'a>,
    host: &mut H,
    watch: &mut V,
    stdout: &mut W,
) -> Result<End, Failure<'a>> {
    let (program, bytes) = read_flat(host, &words)?;
    let script = script_of(alloc, words.script, bytes.as_slice())?;
    let show = FlatShow {
        alloc,
        program: program.as_slice(),
        frames: words.frames,
        script: script.as_slice(),
    };
    let watch = Lent { watch: &mut *watch };
    ended(perform_flat(show, Watched::new(Tlb::new()), watch, stdout))
}

/// The front of a run's image and the bytes of its script, which are read in this order.
pub fn read_run<'a, H: Host>(host: &mut H, words: &Run<'a>) -> Result<(Front, Vec<u8>), Failure<'a>>
    ensures image { IfOk result (λ files. HoldsFront words.now.image.now most_of_image files.0 (H.files host.old)) }
    ensures script { IfOk result (λ files. Holds words.now.script.now files.1.items (H.files host.old)) }
    ensures same { H.files host.new ≡ H.files host.old }
{
    let image = read_image(host, words.image)?;
    let bytes = read(host, words.script)?;
    Ok((image, bytes))
}

/// The command `run`, whose batches of events are watched. Its files are read in the order of the command line, and the
/// script is parsed, before there is a disk.
pub fn run<'a, H: Host, V: Watch + Drop, W: Write + Drop>(
    alloc: Global,
    words: &Run<'a>,
    host: &mut H,
    watch: V,
    stdout: W,
) -> Result<Performed<MemDisk, Unrecorded, W>, Failure<'a>>
    ensures ran { IfOk result (λ performed. RunsFiles (H.files host.old) words.now (W.contents stdout)
        (W.contents performed.stdout) performed.finish performed.disk) }
    ensures same { H.files host.new ≡ H.files host.old }
{
    let (image, bytes) = read_run(host, words)?;
    let script = script_of(alloc, words.script, bytes.as_slice())?;
    let disk = disk_of(image)?;
    let own_words = *words;
    let show = Show {
        alloc,
        words: &own_words,
        piece: Piece::Script(script.as_slice()),
    };
    match perform(disk, show, Unrecorded, watch, stdout) {
        Ok(performed) => Ok(performed),
        Err(fault) => Err(Failure::Boot(fault)),
    }
}

/// Writes the image of the disk that is left, if there is one, to the file of this name.
pub fn keep<'a, H: Host>(
    name: Option<&'a str>,
    disk: Option<MemDisk>,
    host: &mut H,
) -> Result<(), Failure<'a>>
    ensures { OnOk result (IsKept (option_map (λ name. name.now) name.entry) (option_map (λ disk. disk.bytes) disk)
        (H.files host.old) (H.files host.new)) }
{
    let (Some(name), Some(disk)) = (name, disk) else {
        return Ok(());
    };
    write(host, name, disk.bytes())
}
