//! Plays: scripts that wait for what the machine does.
ghost use Rattle.std.specs.Prelude.{IfOk, IsErr, ◌≡◌};
ghost use Rattle.host.specs.Files.{Holds, HoldsFront};
ghost use Rattle.run_commands.specs.Files.{IsRead, PlaysFiles, most_of_image};
ghost use Rattle.run_commands.specs.Tellings.{IsEndStatus};
ghost use Rattle.run_commands.specs.declared.performing.Piece.TheVariants as Piece;

use crate::finish::Finish;
use crate::naming::symbolizer_of;
use crate::performing;
use crate::performing::{Performed, Piece, Show};
use crate::progress::{Gauge, Setting};
use crate::runs::{keep, read_run};
use crate::scribe::Scribe;
use crate::telling::{
    Both, Crier, Ended, Lent, Teller, looks_on, outcome_of, status_of, tell_kept,
};
use commandline::{Play, Run, Telling};
use driver::Watch;
use events::{PlayFault, Why, parse_play};
use host::{End, Failure, Front, Host, Screen, disk_of, tell};
use std::alloc::Global;
use std::io::Write;

/// The status of a play that can't be read, or that waited in vain.
const IN_VAIN: u8 = 1;

// A play that was read, with the words that name its files and the front of its image.
#[derive(Drop)]
struct Reading<'s, 'a, 'w> {
    words: &'s Play<'w>,
    play: &'s events::Play<'a>,
    image: Front,
}

// A play that was performed: how it ended, whether all files were written, and the output.
#[derive(Drop)]
struct Gone<'w, W> {
    finish: Finish,
    written: Result<(), Failure<'w>>,
    stdout: W,
}

// Performs a play, and writes what is to be written of it.
fn go<'w, H: Host, V: Watch, W: Write + Drop>(
    alloc: Global,
    reading: Reading<'_, '_, 'w>,
    host: &mut H,
    watch: &mut V,
    stdout: W,
) -> Result<Gone<'w, W>, Failure<'w>>
    requires { IsRead (H.files host.old) reading.words.now.run reading.image (Piece.Play reading.play) }
    ensures { IfOk result (λ gone. PlaysFiles (H.files host.old) reading.entry.words.now.run (W.contents stdout)
        (W.contents gone.stdout) gone.finish) }
{
    let Reading { words, play, image } = reading;
    let disk = disk_of(image)?;
    let show = Show {
        alloc,
        words: &words.run,
        piece: Piece::Play(play),
    };
    let scribe = Scribe::new(alloc, host, words.script);
    let watch = Lent { watch: &mut *watch };
    let performed = match performing::perform(disk, show, scribe, watch, stdout) {
        Ok(performed) => performed,
        Err(fault) => return Err(Failure::Boot(fault)),
    };
    let Performed {
        finish,
        disk,
        keeper,
        stdout,
    } = performed;
    let (desk, file) = keeper.into_parts();
    let recorded = file.finish(desk);
    let saved = keep(words.run.save, disk, host);
    Ok(Gone {
        finish,
        written: recorded.and(saved),
        stdout,
    })
}

// Prints how a play ended, and returns the status to exit with.
fn print_end<E: Write>(name: &str, finish: Finish, telling: &Telling<'_>, stderr: &mut E) -> u8
    ensures { IsEndStatus telling.now finish.end result }
{
    let Finish { end, in_vain } = finish;
    match (end, in_vain) {
        (End::Running, Some(in_vain)) => {
            let _ = writeln!(stderr, "{name}:{in_vain}");
            IN_VAIN
        }
        _ => {
            let _ = writeln!(stderr, "{end}");
            status_of(telling, end)
        }
    }
}

/// Prints how a play ended, after what else is to be said of it, and then what was not written; returns the status to
/// exit with.
pub fn end_play<'a, H: Host, E: Write>(
    words: &Run<'a>,
    ended: Ended<'a>,
    host: &mut H,
    stderr: &mut E,
) -> u8
    ensures failed { IsErr ended.entry.written → result ≡ 1 }
    ensures status { IsEndStatus words.now.telling ended.entry.finish.end result }
{
    let Ended {
        finish,
        written,
        teller,
    } = ended;
    let telling = words.telling;
    let outcome = outcome_of(finish.end, Some(finish.play_end()));
    let told = tell_kept(teller, outcome, telling.json, host, stderr);
    let status = print_end(words.script, finish, &telling, stderr);
    match written.and(told) {
        Ok(()) => status,
        Err(failure) => tell(&failure, stderr),
    }
}

/// Prints why a play can't be read, and returns the status to exit with.
pub fn tell_fault<E: Write>(name: &str, fault: PlayFault<'_>, stderr: &mut E) -> u8
    ensures { result ≡ 1 }
{
    if let Why::NoMemory = fault.why {
        return tell(&Failure::NoMemory, stderr);
    }
    let _ = writeln!(stderr, "{name}:{fault}");
    IN_VAIN
}

/// The image and the play's text, which are read in this order.
pub fn read_both<'a, H: Host>(
    host: &mut H,
    words: &Run<'a>,
) -> Result<(Front, Vec<u8>), Failure<'a>>
    ensures image { IfOk result (λ files. HoldsFront words.now.image.now most_of_image files.0 (H.files host.old)) }
    ensures text { IfOk result (λ files. Holds words.now.script.now files.1.items (H.files host.old)) }
    ensures same { H.files host.new ≡ H.files host.old }
{
    let (image, text) = read_run(host, words)?;
    match str::from_utf8(text.as_slice()) {
        Ok(_) => Ok((image, text)),
        Err(_) => Err(Failure::Read(words.script)),
    }
}

// Performs a play that was read, and prints how it ended.
fn perform_read<H: Host, S: Screen, W: Write, E: Write>(
    setting: Setting<'_, S>,
    reading: Reading<'_, '_, '_>,
    host: &mut H,
    stdout: &mut W,
    stderr: &mut E,
) -> u8
    requires { IsRead (H.files host.old) reading.words.now.run reading.image (Piece.Play reading.play) }
{
    let Setting { alloc, meter } = setting;
    let words = reading.words;
    let telling = words.run.telling;
    let mut gauge = Gauge { meter };
    let (gone, teller) = if looks_on(&telling) {
        let symbolizer = match symbolizer_of(alloc, &reading.image, telling.symbols, host) {
            Ok(symbolizer) => symbolizer,
            Err(failure) => return tell(&failure, stderr),
        };
        let teller = Teller::new(alloc, "/init", &telling, symbolizer);
        let mut both = Both {
            first: Crier::new(teller, meter, &mut *stderr),
            second: gauge,
        };
        let gone = go(alloc, reading, host, &mut both, stdout);
        (gone, Some(both.first.into_teller()))
    } else {
        (go(alloc, reading, host, &mut gauge, stdout), None)
    };
    match gone {
        Ok(
            Gone {
                finish,
                written,
                ..
            },
        ) => {
            let ended = Ended {
                finish,
                written,
                teller,
            };
            end_play(&words.run, ended, host, stderr)
        }
        Err(failure) => tell(&failure, stderr),
    }
}

/// The command `play`: boots a machine from an image, gives it the events of a play, and prints how that ended. The
/// script and the image that is left are written before. The play is read whole before the machine boots.
pub fn perform<H: Host, S: Screen, W: Write, E: Write>(
    setting: Setting<'_, S>,
    words: Play<'_>,
    host: &mut H,
    stdout: &mut W,
    stderr: &mut E,
) -> u8 {
    let (image, text) = match read_both(host, &words.run) {
        Ok(two) => two,
        Err(failure) => return tell(&failure, stderr),
    };
    let play = match parse_play(setting.alloc, text.as_slice()) {
        Ok(play) => play,
        Err(fault) => return tell_fault(words.run.script, fault, stderr),
    };
    let reading = Reading {
        words: &words,
        play: &play,
        image,
    };
    perform_read(setting, reading, host, stdout, stderr)
}
