//! The command `explore`.
ghost use Rattle.std.specs.Prelude.{◌≡◌, IfOk};
ghost use Rattle.explore_command.specs.Explored.{IsBegun, IsExplored, IsSearched, IsVerdictOf, bounds_of};
ghost use Rattle.host.specs.Fronts.{IsWhole};
ghost use Rattle.orders.specs.Tidy.{IsTidy};

use crate::drawn_runs::{Drawn, Runner, draw_runs};
use crate::keys::keys_of;
use crate::printing::Telling;
use crate::search::{Explored, Searched, copy_of, search};
use crate::shown::Shown;
use crate::verdict::Verdict;
use crate::watcher::{Cause, Want, Watcher};
use commandline::Explore;
use explore::{Bounds, Task, Trouble, tables_stay_tidy};
use host::{Failure, Front, Host, disk_of, make_folder, print, read, read_image, tell};
use machine::boot;
use orders::nobody_sleeps_at_a_start;
use run_commands::script_of;
use std::alloc::Global;
use std::io::Write;
use sv39::{Plain, Recent};

/// In how many steps a process is to come to a call or a fault.
const SPIN: u32 = 1_000_000;

// What is reported of a search that gave up.
fn failure_of<'a>(trouble: Trouble) -> Failure<'a> {
    match trouble {
        Trouble::NoMemory => Failure::NoMemory,
        Trouble::TooLong => Failure::TooMany,
        Trouble::Machine => Failure::Machine,
    }
}

// The machine that boots from an image.
fn boot_machine<'a>(
    alloc: Global,
    image: Front,
    words: &Explore<'a>,
) -> Result<Explored, Failure<'a>>
    ensures begun { IfOk result
        (λ machine. IsWhole image → IsBegun image.bytes.items words.now.frames machine.state) }
    ensures tidy { IfOk result (λ machine. IsTidy machine.state) }
{
    tables_stay_tidy();
    nobody_sleeps_at_a_start();
    match boot(
        alloc,
        disk_of(image)?,
        Recent::new(Plain::new()),
        words.frames,
    ) {
        Ok(machine) => Ok(machine),
        Err(fault) => Err(Failure::Boot(fault)),
    }
}

// What is typed.
fn read_keys<'a, H: Host>(
    alloc: Global,
    words: &Explore<'a>,
    host: &mut H,
) -> Result<Vec<u8>, Failure<'a>> {
    let Some(name) = words.script else {
        return Ok(Vec::new(alloc));
    };
    let bytes = read(host, name)?;
    let script = script_of(alloc, name, bytes.as_slice())?;
    match keys_of(alloc, script.as_slice()) {
        Ok(keys) => Ok(keys),
        Err(_) => Err(Failure::NoMemory),
    }
}

// The bounds that the words give.
fn bounds_of(words: &Explore<'_>) -> Bounds
    ensures { result ≡ bounds_of words.now.reach }
{
    Bounds {
        ticks: words.reach.ticks,
        states: words.reach.states as usize,
        spin: if words.reach.fine { 0 } else { SPIN },
    }
}

// Draws runs where something was left out, if the words ask for it.
fn draw_on<'a, H: Host>(
    alloc: Global,
    first: &Explored,
    keys: &[u8],
    searched: &Searched,
    watcher: &mut Watcher<'a, '_, H>,
) -> Result<Option<Drawn>, Failure<'a>> {
    if searched.is_whole() {
        return Ok(None);
    }
    let mut runner = match Runner::new(alloc, first, keys) {
        Ok(runner) => runner,
        Err(trouble) => return Err(failure_of(trouble)),
    };
    draw_runs(alloc, &mut runner, watcher)
}

// What is read: the bytes that are wanted on the console, if any are, and those that are typed.
#[derive(Drop)]
struct Texts {
    want: Option<Vec<u8>>,
    keys: Vec<u8>,
}

// Reads what is wanted and what is typed.
fn read_texts<'a, H: Host>(
    alloc: Global,
    words: &Explore<'a>,
    host: &mut H,
) -> Result<Texts, Failure<'a>> {
    let want = match words.want {
        Some(name) => Some(read(host, name)?),
        None => None,
    };
    let keys = read_keys(alloc, words, host)?;
    Ok(Texts { want, keys })
}

// What is wanted of each outcome.
fn want_of<'b>(words: &Explore<'_>, texts: &'b Texts) -> Want<'b> {
    let console = match &texts.want {
        Some(bytes) => Some(bytes.as_slice()),
        None => None,
    };
    Want {
        console,
        status: words.status,
    }
}

// What came of an exploration.
#[derive(Drop)]
struct Report {
    searched: Searched,
    shown: Vec<Shown>,
    cause: Option<Cause>,
    lasted: Option<u64>,
    drawn: Option<Drawn>,
}

impl Report {
    // What is printed of it.
    fn telling<'b>(&'b self, words: &'b Explore<'b>) -> Telling<'b> {
        Telling {
            words,
            searched: &self.searched,
            shown: self.shown.as_slice(),
            cause: self.cause,
            lasted: self.lasted,
            drawn: self.drawn,
        }
    }

    // What is made of it.
    fn verdict(&self) -> Verdict
        ensures { IsVerdictOf self.now result }
    {
        Verdict {
            outcomes: self.searched.outcomes.len().max(self.shown.len()),
            is_whole: self.searched.is_whole(),
            is_wanted: !matches!(self.cause, Some(Cause::Unwanted(_))),
        }
    }
}

// Searches, and draws runs where a bound was met; each outcome is kept as it comes.
fn look_around<'a, H: Host>(
    alloc: Global,
    words: &Explore<'a>,
    first: &Explored,
    texts: &Texts,
    host: &mut H,
) -> Result<Report, Failure<'a>>
    requires { IsTidy first.now.state }
    ensures { IfOk result (λ report. IsSearched texts.now.keys.items (bounds_of words.now.reach) first.now.state
        report.searched) }
{
    let task = Task {
        keys: texts.keys.as_slice(),
        bounds: bounds_of(words),
    };
    let machine = match copy_of(alloc, first) {
        Ok(machine) => machine,
        Err(trouble) => return Err(failure_of(trouble)),
    };
    let want = want_of(words, texts);
    let mut watcher = Watcher::new(alloc, words, (first, machine), &want, host);
    let searched = match search(alloc, first, task, &mut watcher) {
        Ok(searched) => searched,
        Err(trouble) => return Err(failure_of(trouble)),
    };
    let lasted = watcher.lasted();
    let drawn = draw_on(alloc, first, task.keys, &searched, &mut watcher)?;
    watcher.clear();
    let (shown, cause) = watcher.finish()?;
    Ok(Report {
        searched,
        shown,
        cause,
        lasted,
        drawn,
    })
}

// Boots a machine from an image, and explores it.
fn explore_image<'a, H: Host>(
    alloc: Global,
    words: &Explore<'a>,
    image: Front,
    texts: &Texts,
    host: &mut H,
) -> Result<Report, Failure<'a>>
    ensures { IfOk result (λ report. IsWhole image
        → IsExplored image.bytes.items texts.now.keys.items words.now report.searched) }
{
    let first = boot_machine(alloc, image, words)?;
    if let Some(folder) = words.scripts {
        make_folder(host, folder)?;
    }
    look_around(alloc, words, &first, texts, host)
}

// Boots the machine, explores it, and prints what was found. Returns the status to exit with.
fn explore_told<'a, H: Host, W: Write, E: Write>(
    alloc: Global,
    words: &Explore<'a>,
    host: &mut H,
    stdout: &mut W,
    stderr: &mut E,
) -> Result<u8, Failure<'a>> {
    let image = read_image(host, words.image)?;
    let texts = read_texts(alloc, words, host)?;
    let report = explore_image(alloc, words, image, &texts, host)?;
    let printed = print(&report.telling(words), stdout, stderr);
    Ok(if printed == 0 {
        report.verdict().status()
    } else {
        printed
    })
}

/// Boots a machine from an image, explores all schedules, prints the outcomes, and returns the status to exit with.
pub fn perform<H: Host, W: Write, E: Write>(
    alloc: Global,
    words: Explore<'_>,
    host: &mut H,
    stdout: &mut W,
    stderr: &mut E,
) -> u8 {
    match explore_told(alloc, &words, host, stdout, stderr) {
        Ok(status) => status,
        Err(failure) => tell(&failure, stderr),
    }
}
