//! Runs that show what each process does.

use blockdev::MemDisk;
use commandline::{Telling, Trace};
use driver::Watch;
use events::parse_play;
use host::{Failure, Front, Host, Screen, append, disk_of, tell, write};
use run_commands::{
    Both, Ended, Finish, Gauge, Performed, Piece, Setting, Show, Teller, keep, looks_on,
    perform_watched, pid_of, plays, read_run, script_of, scripted, symbolizer_of,
};
use std::alloc::{AllocError, Global};
use std::io::Write;
use std::num::NonZeroU64;
use symbolizer::Symbolizer;
use traces::{CallSet, Form, SinkFault, Sinks, Tracer, Trouble, Wanted};

/// The most bytes of a file that wait to be written.
const MOST_WAITING: usize = 65536;

// A file to which one form goes, if it goes to one, whether it is made, and the bytes that are not written yet.
// It is made once the machine runs, so that an old one is kept if none boots.
#[derive(Drop)]
struct Sheet<'a> {
    name: Option<&'a str>,
    is_made: bool,
    waiting: Vec<u8>,
}

impl<'a> Sheet<'a> {
    fn new(alloc: Global, name: Option<&'a str>) -> Self {
        Sheet {
            name,
            is_made: false,
            waiting: Vec::new(alloc),
        }
    }

    // Writes the bytes that wait.
    fn write_out<H: Host>(&mut self, host: &mut H) -> Result<(), Failure<'a>> {
        let Some(name) = self.name else {
            return Ok(());
        };
        let done = if !self.is_made {
            write(host, name, self.waiting.as_slice())
        } else if self.waiting.is_empty() {
            Ok(())
        } else {
            append(host, name, self.waiting.as_slice())
        };
        self.is_made = true;
        self.waiting.clear();
        done
    }

    // Puts bytes after the others; whether enough wait now to be written.
    fn keep(&mut self, bytes: &[u8]) -> Result<bool, AllocError> {
        self.waiting.extend_from_slice(bytes)?;
        Ok(self.waiting.len() >= MOST_WAITING)
    }
}

// Where the forms of a trace go: files, and standard error for a text that has none.
#[derive(Drop)]
struct Sheets<'a, 'b, H, E> {
    host: &'b mut H,
    stderr: &'b mut E,
    text: Sheet<'a>,
    spans: Sheet<'a>,
    commits: Sheet<'a>,
    events: Sheet<'a>,
    // Why the first that could not be written could not.
    failure: Option<Failure<'a>>,
}

impl<'a, 'b, H: Host, E: Write> Sheets<'a, 'b, H, E> {
    // The files of these names.
    fn new(alloc: Global, words: &Trace<'a>, host: &'b mut H, stderr: &'b mut E) -> Self {
        Sheets {
            host,
            stderr,
            text: Sheet::new(alloc, words.text),
            spans: Sheet::new(alloc, words.perfetto),
            commits: Sheet::new(alloc, words.commits),
            events: Sheet::new(alloc, words.jsonl),
            failure: None,
        }
    }

    // The file of a form.
    fn sheet(&mut self, form: Form) -> &mut Sheet<'a> {
        match form {
            Form::Text => &mut self.text,
            Form::Spans => &mut self.spans,
            Form::Commits => &mut self.commits,
            Form::Events => &mut self.events,
        }
    }

    // Writes the bytes of a form that wait.
    #[cold]
    fn write_out(&mut self, form: Form) -> Result<(), Failure<'a>> {
        match form {
            Form::Text => self.text.write_out(self.host),
            Form::Spans => self.spans.write_out(self.host),
            Form::Commits => self.commits.write_out(self.host),
            Form::Events => self.events.write_out(self.host),
        }
    }

    // Writes a text that has no file on standard error.
    fn print(&mut self, bytes: &[u8]) -> Result<(), Failure<'a>> {
        match self.stderr.write_all(bytes) {
            Ok(()) => Ok(()),
            Err(_) => Err(Failure::Write("standard error")),
        }
    }

    // Keeps why something could not be written, if it is the first.
    fn settle(&mut self, done: Result<(), Failure<'a>>) -> Result<(), SinkFault> {
        let Err(failure) = done else {
            return Ok(());
        };
        if self.failure.is_none() {
            self.failure = Some(failure);
        }
        Err(SinkFault)
    }

    // Writes the files to their ends; why not all of them are whole.
    fn finish(self) -> Result<(), Failure<'a>> {
        let Sheets {
            host,
            stderr: _,
            mut text,
            mut spans,
            mut commits,
            mut events,
            failure,
        } = self;
        let text = text.write_out(host);
        let spans = spans.write_out(host);
        let commits = commits.write_out(host);
        let events = events.write_out(host);
        match failure {
            Some(failure) => Err(failure),
            None => text.and(spans).and(commits).and(events),
        }
    }
}

impl<H: Host, E: Write> Sinks for Sheets<'_, '_, H, E> {
    fn put(&mut self, form: Form, bytes: &[u8]) -> Result<(), SinkFault> {
        if form == Form::Text && self.text.name.is_none() {
            let done = self.print(bytes);
            return self.settle(done);
        }
        let done = match self.sheet(form).keep(bytes) {
            Ok(false) => return Ok(()),
            Ok(true) => self.write_out(form),
            Err(_) => Err(Failure::NoMemory),
        };
        self.settle(done)
    }
}

// The calls that are shown.
fn calls_of<'a>(words: &Trace<'a>) -> Result<CallSet, Failure<'a>> {
    let Some(names) = words.part.calls else {
        return Ok(CallSet::ALL);
    };
    match CallSet::parse(names) {
        Ok(calls) => Ok(calls),
        Err(name) => Err(Failure::Call(name)),
    }
}

// A number of the command line, or what stands for none.
fn number_or(number: Option<NonZeroU64>, missing: u64) -> u64 {
    match number {
        Some(number) => number.get(),
        None => missing,
    }
}

// What is traced, and how.
fn wanted_of<'a>(words: &Trace<'a>) -> Result<Wanted, Failure<'a>> {
    let calls = calls_of(words)?;
    let (part, lines) = (words.part, words.lines);
    Ok(Wanted {
        text: true,
        spans: words.perfetto.is_some(),
        commits: words.commits.is_some(),
        events: words.jsonl.is_some(),
        pid: pid_of(part.pid),
        calls,
        from: number_or(part.from, 1),
        to: number_or(part.to, u64::MAX),
        joins: !lines.each,
        bytes: lines.bytes as usize,
        times: lines.time,
        turns: lines.turns,
        core_is_pid: lines.core_is_pid,
    })
}

// Why a trace isn't whole: the failure of its files, or else that there was no memory.
fn whole<'a>(
    traced: Result<(), Trouble>,
    written: Result<(), Failure<'a>>,
) -> Result<(), Failure<'a>> {
    match (written, traced) {
        (Ok(()), Err(_)) => Err(Failure::NoMemory),
        (written, _) => written,
    }
}

// A trace of a piece that was read, with the words that name its files and the front of its image.
#[derive(Drop)]
struct Reading<'s, 'a, 'w> {
    words: &'s Trace<'w>,
    piece: Piece<'s, 'a>,
    image: Front,
}

// How a run ended that was traced, what it left, and what watched it.
#[derive(Drop)]
struct Traced<T> {
    finish: Finish,
    disk: Option<MemDisk>,
    tracer: T,
    teller: Teller,
}

// Performs a piece, which a tracer, a teller and a gauge watch.
fn run_traced<'w, T: Watch + Drop, S: Screen, W: Write>(
    disk: MemDisk,
    show: Show<'_, '_, 'w>,
    tracer: T,
    both: Both<Teller, Gauge<'_, S>>,
    stdout: &mut W,
) -> Result<Traced<T>, Failure<'w>> {
    let mut all = Both {
        first: tracer,
        second: both,
    };
    let Performed { finish, disk, .. } = perform_watched(disk, show, &mut all, stdout)?;
    let Both { first, second } = all;
    Ok(Traced {
        finish,
        disk,
        tracer: first,
        teller: second.first,
    })
}

// The names for addresses in the report of a run, if there is to be one.
fn names_told<'a, H: Host>(
    alloc: Global,
    telling: &Telling<'a>,
    image: &Front,
    host: &mut H,
) -> Result<Symbolizer, Failure<'a>> {
    if looks_on(telling) {
        symbolizer_of(alloc, image, telling.symbols, host)
    } else {
        Ok(Symbolizer::new(alloc))
    }
}

// A run from an image, to its end.
fn trace<'w, H: Host, S: Screen, W: Write, E: Write>(
    setting: Setting<'_, S>,
    reading: Reading<'_, '_, 'w>,
    host: &mut H,
    stdout: &mut W,
    stderr: &mut E,
) -> Result<Ended<'w>, Failure<'w>> {
    let Setting { alloc, meter } = setting;
    let piece = reading.piece;
    let Reading { words, image, .. } = reading;
    let (run, telling) = (&words.run, &words.run.telling);
    let wanted = wanted_of(words)?;
    let symbolizer = symbolizer_of(alloc, &image, telling.symbols, host)?;
    let told = names_told(alloc, telling, &image, host)?;
    let disk = disk_of(image)?;
    let sheets = Sheets::new(alloc, words, host, stderr);
    let Ok(tracer) = Tracer::new(alloc, wanted, symbolizer, sheets) else {
        return Err(Failure::NoMemory);
    };
    let both = Both {
        first: Teller::new(alloc, "/init", telling, told),
        second: Gauge { meter },
    };
    let show = Show {
        alloc,
        words: run,
        piece,
    };
    let Traced {
        finish,
        disk,
        tracer,
        teller,
    } = run_traced(disk, show, tracer, both, stdout)?;
    let (sheets, noted) = tracer.finish();
    let written = whole(noted, sheets.finish());
    let saved = keep(run.save, disk, host);
    Ok(Ended {
        finish,
        written: written.and(saved),
        teller: Some(teller),
    })
}

// A run that a piece has the events of.
fn perform_read<H: Host, S: Screen, W: Write, E: Write>(
    setting: Setting<'_, S>,
    reading: Reading<'_, '_, '_>,
    host: &mut H,
    stdout: &mut W,
    stderr: &mut E,
) -> u8 {
    let (words, piece) = (reading.words, reading.piece);
    let run = &words.run;
    match (trace(setting, reading, host, stdout, stderr), piece) {
        (Ok(ended), Piece::Script(_)) => scripted::end_script(&run.telling, ended, host, stderr),
        (Ok(ended), Piece::Play(_)) => plays::end_play(run, ended, host, stderr),
        (Err(failure), _) => tell(&failure, stderr),
    }
}

// A run that a script has the events of.
fn perform_script<H: Host, S: Screen, W: Write, E: Write>(
    setting: Setting<'_, S>,
    words: Trace<'_>,
    host: &mut H,
    stdout: &mut W,
    stderr: &mut E,
) -> u8 {
    let (image, bytes) = match read_run(host, &words.run) {
        Ok(two) => two,
        Err(failure) => return tell(&failure, stderr),
    };
    let commands = match script_of(setting.alloc, words.run.script, bytes.as_slice()) {
        Ok(commands) => commands,
        Err(failure) => return tell(&failure, stderr),
    };
    let reading = Reading {
        words: &words,
        piece: Piece::Script(commands.as_slice()),
        image,
    };
    perform_read(setting, reading, host, stdout, stderr)
}

// A run that a play has the events of.
fn perform_play<H: Host, S: Screen, W: Write, E: Write>(
    setting: Setting<'_, S>,
    words: Trace<'_>,
    host: &mut H,
    stdout: &mut W,
    stderr: &mut E,
) -> u8 {
    let (image, text) = match plays::read_both(host, &words.run) {
        Ok(two) => two,
        Err(failure) => return tell(&failure, stderr),
    };
    let play = match parse_play(setting.alloc, text.as_slice()) {
        Ok(play) => play,
        Err(fault) => return plays::tell_fault(words.run.script, fault, stderr),
    };
    let reading = Reading {
        words: &words,
        piece: Piece::Play(&play),
        image,
    };
    perform_read(setting, reading, host, stdout, stderr)
}

/// The command `trace`: as `run` or `play`, and what each process does is written as it does it.
pub fn perform<H: Host, S: Screen, W: Write, E: Write>(
    setting: Setting<'_, S>,
    words: Trace<'_>,
    host: &mut H,
    stdout: &mut W,
    stderr: &mut E,
) -> u8 {
    if let Err(failure) = calls_of(&words) {
        return tell(&failure, stderr);
    }
    if words.play {
        perform_play(setting, words, host, stdout, stderr)
    } else {
        perform_script(setting, words, host, stdout, stderr)
    }
}
