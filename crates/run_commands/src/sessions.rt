//! A session at the keyboard.
ghost use Rattle.std.specs.Prelude.{IfOk, IfSome, OnOk, [], ◌≡◌};
ghost use Rattle.host.specs.Files.{Writes};
ghost use Rattle.run_commands.specs.Files.{BootsFront, LivesOn};
ghost use Rattle.run_commands.specs.ScriptFiles.{IsEmptyIn};
ghost use Rattle.run_commands.specs.Seats.{SatTo, SitsOutTo, quantum_in};
ghost use Rattle.machine.specs.View.{IsUp};

use crate::finish::end_with;
use crate::naming::symbolizer_of;
use crate::performing::{Driven, leave};
use crate::progress::Setting;
use crate::runs::keep;
use crate::seat::Seat;
use crate::telling::Crier;
use blockdev::{BlockDev, MemDisk};
use commandline::Live;
use driver::{Driver, Terminal, Watch};
use host::{End, Failure, Front, Host, Screen, disk_of, read_image, tell, write};
use machine::{Machine, boot};
use std::alloc::Global;
use std::io::Write;
use sv39::{Tlb, Translate};
use symbolizer::Symbolizer;

/// How many steps there are between two ticks by default.
const QUANTUM: u32 = 10_000;

/// The most steps of a line of a script.
const MOST_STEPS: u32 = 1_000_000_000;

/// What is left of a session: how it ended, the disk where it is saved, its terminal, and the output that has the
/// console's bytes.
#[derive(Drop)]
pub struct Sat<D, R, W> {
    pub end: End,
    pub disk: Option<D>,
    pub terminal: R,
    pub stdout: W,
}

// How a session is held: how many steps there are between two ticks, and whether the machine is saved at the end.
#[derive(Clone, Copy)]
struct Sitting {
    quantum: u32,
    saves: bool,
}

// How many steps there are between two ticks.
fn quantum_of(words: &Live<'_>) -> u32
    ensures { result ≡ quantum_in words.now.quantum }
{
    match words.quantum {
        Some(quantum) => u32::try_from(quantum.get())
            .unwrap_or(MOST_STEPS)
            .min(MOST_STEPS),
        None => QUANTUM,
    }
}

// A session at a terminal, whose bytes for the console are written out.
fn sit_out<D: BlockDev, T: Translate, R: Terminal, V: Watch + Drop, W: Write>(
    machine: Machine<D, T>,
    quantum: u32,
    terminal: R,
    watch: V,
    stdout: W,
) -> Driven<D, T, R, W>
    requires { IsUp machine }
    ensures { SitsOutTo W.contents R.gives R.kept quantum terminal result.keeper machine result.machine stdout
        result.stdout result.end }
{
    let mut driver = Driver::new(machine, terminal, watch, stdout);
    let ended = driver.sit(quantum);
    let (machine, keeper, _watch, out) = driver.into_parts();
    let (mut stdout, failures) = out.into_parts();
    let is_written = stdout.flush().is_ok();
    Driven {
        machine,
        keeper,
        stdout,
        end: end_with(ended, failures, is_written),
    }
}

// A session at a terminal; then the machine is saved, if it is to be and neither its device nor the console has failed.
fn sit<D: BlockDev, T: Translate, R: Terminal, V: Watch + Drop, W: Write>(
    machine: Machine<D, T>,
    sitting: Sitting,
    terminal: R,
    watch: V,
    stdout: W,
) -> Sat<D, R, W>
    requires { IsUp machine }
    ensures { SatTo D.content D.identity D.failures W.contents R.gives R.kept sitting.quantum terminal machine stdout
        sitting.saves result }
{
    let Driven {
        machine,
        keeper,
        stdout,
        end,
    } = sit_out(machine, sitting.quantum, terminal, watch, stdout);
    let (end, disk) = leave(machine, sitting.saves, end);
    Sat {
        end,
        disk,
        terminal: keeper,
        stdout,
    }
}

// Boots the machine of an image.
fn boot_image<'a>(
    alloc: Global,
    words: &Live<'a>,
    image: Front,
) -> Result<Machine<MemDisk, Tlb<64>>, Failure<'a>>
    ensures up { IfOk result IsUp }
    ensures booted { IfOk result (BootsFront image words.now.frames) }
{
    let disk = disk_of(image)?;
    match boot(alloc, disk, Tlb::<64>::new(), words.frames) {
        Ok(machine) => Ok(machine),
        Err(fault) => Err(Failure::Boot(fault)),
    }
}

// Makes the file of a record, which is empty so far, where one is wanted.
fn begin_record<'a, H: Host>(script: Option<&'a str>, host: &mut H) -> Result<(), Failure<'a>>
    ensures written { OnOk result
        (IfSome script.entry (λ name. Writes name.now [] (H.files host.old) (H.files host.new))) }
    ensures empty { OnOk result (IsEmptyIn script.entry (H.files host.new)) }
{
    match script {
        Some(name) => write(host, name, &[]),
        None => Ok(()),
    }
}

// What is left of a session at the keyboard: how it ended, whether all files were written, and the output.
#[derive(Drop)]
struct Left<'a, W> {
    end: End,
    written: Result<(), Failure<'a>>,
    stdout: W,
}

// A session, to its end.
fn live<'a, H: Host, S: Screen, W: Write + Drop, E: Write>(
    setting: Setting<'_, S>,
    words: &Live<'a>,
    host: &mut H,
    stdout: W,
    stderr: &mut E,
) -> Result<Left<'a, W>, Failure<'a>>
    ensures { IfOk result (λ left. LivesOn (H.files host.old) words.now (W.contents stdout) (W.contents left.stdout)
        left.end) }
{
    let Setting { alloc, meter } = setting;
    let image = read_image(host, words.image)?;
    let symbolizer = if meter.has_screen() {
        symbolizer_of(alloc, &image, words.symbols, host)?
    } else {
        Symbolizer::new(alloc)
    };
    let machine = boot_image(alloc, words, image)?;
    begin_record(words.script, host)?;
    let seat = Seat::new(alloc, host, meter, stderr, words);
    let crier = Crier::on_screen(alloc, meter, symbolizer);
    let sitting = Sitting {
        quantum: quantum_of(words),
        saves: words.save.is_some(),
    };
    let Sat {
        end,
        disk,
        terminal,
        stdout,
    } = sit(machine, sitting, seat, crier, stdout);
    let recorded = terminal.finish();
    let saved = keep(words.save, disk, host);
    Ok(Left {
        end,
        written: recorded.and(saved),
        stdout,
    })
}

// Prints how a session ended, after the command that replays it, where there is a record and nothing failed.
fn tell_end<E: Write>(words: &Live<'_>, end: End, is_whole: bool, stderr: &mut E) {
    if let Some(script) = words.script
        && is_whole
        && end.status() == 0
    {
        let (frames, image) = (words.frames, words.image);
        let _ = writeln!(stderr, "xv6 run --frames {frames} {image} {script}");
    }
    let _ = writeln!(stderr, "{end}");
}

/// Boots a machine from an image, gives it what is typed, and prints how that ended. The image that is left is written
/// before.
pub fn perform<H: Host, S: Screen, W: Write, E: Write>(
    setting: Setting<'_, S>,
    words: Live<'_>,
    host: &mut H,
    stdout: &mut W,
    stderr: &mut E,
) -> u8 {
    match live(setting, &words, host, stdout, stderr) {
        Ok(Left { end, written, .. }) => {
            tell_end(&words, end, written.is_ok(), stderr);
            match written {
                Ok(()) => end.status(),
                Err(failure) => tell(&failure, stderr),
            }
        }
        Err(failure) => tell(&failure, stderr),
    }
}
