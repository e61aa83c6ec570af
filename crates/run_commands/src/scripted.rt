//! Runs whose events a script has, and what is printed of them.
ghost use Rattle.std.specs.Prelude.{IfOk, IsErr, ◌≡◌};
ghost use Rattle.run_commands.specs.Files.{RunsFiles};
ghost use Rattle.run_commands.specs.Tellings.{IsEndStatus};

use crate::finish::Finish;
use crate::naming::symbolizer_of;
use crate::performing::{Performed, Piece, Show, perform_watched};
use crate::progress::{Gauge, Meter, Setting};
use crate::runs;
use crate::runs::{read_run, script_of};
use crate::telling::{Both, Crier, Ended, Teller, looks_on, outcome_of, status_of, tell_kept};
use blockdev::MemDisk;
use commandline::{Flat, Run, Telling};
use host::{Failure, Host, Screen, disk_of, tell};
use std::io::Write;
use symbolizer::Symbolizer;

/// Prints how a run ended, after what else is to be printed of it, and then what was not written; returns the status to
/// exit with.
pub fn end_script<'a, H: Host, E: Write>(
    telling: &Telling<'a>,
    ended: Ended<'a>,
    host: &mut H,
    stderr: &mut E,
) -> u8
    ensures failed { IsErr ended.entry.written → result ≡ 1 }
    ensures status { IsEndStatus telling.now ended.entry.finish.end result }
{
    let Ended {
        finish,
        written,
        teller,
    } = ended;
    let end = finish.end;
    let told = tell_kept(teller, outcome_of(end, None), telling.json, host, stderr);
    let _ = writeln!(stderr, "{end}");
    match written.and(told) {
        Ok(()) => status_of(telling, end),
        Err(failure) => tell(&failure, stderr),
    }
}

/// The command `flat`: boots a flat program, runs a script, and prints how that ended.
pub fn flat<H: Host, S: Screen, W: Write, E: Write>(
    setting: Setting<'_, S>,
    words: Flat<'_>,
    host: &mut H,
    stdout: &mut W,
    stderr: &mut E,
) -> u8 {
    let Setting { alloc, meter } = setting;
    let telling = words.telling;
    let gauge = Gauge { meter };
    let (ended, teller) = if looks_on(&telling) {
        let teller = Teller::new(alloc, words.file, &telling, Symbolizer::new(alloc));
        let mut both = Both {
            first: Crier::new(teller, meter, &mut *stderr),
            second: gauge,
        };
        let ended = runs::flat_watched(alloc, words, host, &mut both, stdout);
        (ended, Some(both.first.into_teller()))
    } else {
        (runs::flat(alloc, words, host, gauge, stdout), None)
    };
    match ended {
        Ok(end) => {
            let finish = Finish { end, in_vain: None };
            let ended = Ended {
                finish,
                written: Ok(()),
                teller,
            };
            end_script(&telling, ended, host, stderr)
        }
        Err(failure) => tell(&failure, stderr),
    }
}

// What watches a run of which faults are printed as they come, and what shows how far it is.
fn crier_and_gauge<'m, S: Screen, E: Write + Drop>(
    teller: Teller,
    meter: &'m Meter<S>,
    stderr: E,
) -> Both<Crier<'m, S, E>, Gauge<'m, S>>
    ensures { result.first.teller ≡ teller }
{
    Both {
        first: Crier::new(teller, meter, stderr),
        second: Gauge { meter },
    }
}

// What is left of a run: how it ended, the disk where it is to be saved, what was noted, and the output.
#[derive(Drop)]
struct Ran<W> {
    finish: Finish,
    disk: Option<MemDisk>,
    teller: Option<Teller>,
    stdout: W,
}

// A run that is watched.
fn run_told<'a, H: Host, S: Screen, W: Write + Drop, E: Write>(
    setting: Setting<'_, S>,
    words: &Run<'a>,
    host: &mut H,
    stdout: W,
    stderr: &mut E,
) -> Result<Ran<W>, Failure<'a>>
    ensures { IfOk result (λ ran. RunsFiles (H.files host.old) words.now (W.contents stdout)
        (W.contents ran.stdout) ran.finish ran.disk) }
{
    let Setting { alloc, meter } = setting;
    let (image, bytes) = read_run(host, words)?;
    let script = script_of(alloc, words.script, bytes.as_slice())?;
    let symbolizer = symbolizer_of(alloc, &image, words.telling.symbols, host)?;
    let disk = disk_of(image)?;
    let teller = Teller::new(alloc, "/init", &words.telling, symbolizer);
    let mut both = crier_and_gauge(teller, meter, &mut *stderr);
    let own_words = *words;
    let show = Show {
        alloc,
        words: &own_words,
        piece: Piece::Script(script.as_slice()),
    };
    let Performed {
        finish,
        disk,
        stdout,
        ..
    } = perform_watched(disk, show, &mut both, stdout)?;
    Ok(Ran {
        finish,
        disk,
        teller: Some(both.first.into_teller()),
        stdout,
    })
}

// A run of which nothing is noted.
fn run_untold<'a, H: Host, S: Screen, W: Write + Drop>(
    setting: Setting<'_, S>,
    words: &Run<'a>,
    host: &mut H,
    stdout: W,
) -> Result<Ran<W>, Failure<'a>>
    ensures { IfOk result (λ ran. RunsFiles (H.files host.old) words.now (W.contents stdout)
        (W.contents ran.stdout) ran.finish ran.disk) }
{
    let Setting { alloc, meter } = setting;
    let Performed {
        finish,
        disk,
        stdout,
        ..
    } = runs::run(alloc, words, host, Gauge { meter }, stdout)?;
    Ok(Ran {
        finish,
        disk,
        teller: None,
        stdout,
    })
}

/// The command `run`: boots a machine from an image, runs a script, and prints how that ended. The image that is left
/// is written before.
pub fn run<H: Host, S: Screen, W: Write, E: Write>(
    setting: Setting<'_, S>,
    words: Run<'_>,
    host: &mut H,
    stdout: &mut W,
    stderr: &mut E,
) -> u8 {
    let telling = words.telling;
    let ran = if looks_on(&telling) {
        run_told(setting, &words, host, stdout, stderr)
    } else {
        run_untold(setting, &words, host, stdout)
    };
    match ran {
        Ok(
            Ran {
                finish,
                disk,
                teller,
                ..
            },
        ) => {
            let written = runs::keep(words.save, disk, host);
            let ended = Ended {
                finish,
                written,
                teller,
            };
            end_script(&telling, ended, host, stderr)
        }
        Err(failure) => tell(&failure, stderr),
    }
}
