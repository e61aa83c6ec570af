//! What --explain adds: a line that says more than the one by which a job reported that it is not done.

mod images;

use crate::assembling::takes;
use commandline::Job;
use explanations::words::{
    ASSEMBLY, CALLS, COMMANDS, MANIFEST, PLAY, SCRIPT, first_word, last_word, line_of,
    number_behind,
};
use explanations::{Topic, meaning, misfit_of, nearest, oddity_of};
use host::{Host, Why};
use std::alloc::{AllocError, Global};
use std::io::Write;

// A text that a job reads, and what was said of it.
#[derive(Clone, Copy)]
struct Told<'a> {
    name: &'a str,
    text: &'a str,
    line: &'a str,
}

// The words with which a line of a text begins.
#[derive(Clone, Copy)]
enum Kind {
    Script,
    Manifest,
    Assembly,
}

impl Kind {
    fn words(self) -> &'static [&'static str] {
        match self {
            Kind::Script => &SCRIPT,
            Kind::Manifest => &MANIFEST,
            Kind::Assembly => &ASSEMBLY,
        }
    }

    fn topic(self) -> Topic {
        match self {
            Kind::Script => Topic::Machine,
            Kind::Manifest => Topic::Making,
            Kind::Assembly => Topic::Assembly,
        }
    }
}

// Whether a line of a script is one of a play.
fn is_of_play(kind: Kind, line: &str) -> bool {
    let word = first_word(line);
    matches!(kind, Kind::Script) && PLAY.contains(&word) && !SCRIPT.contains(&word)
}

// What is wrong with a line that can't be read: the character that doesn't fit, if one doesn't, or what its fault
// means.
fn wrong(alloc: Global, kind: Kind, line: &str, told: &str) -> Result<String, AllocError> {
    let oddity = match kind {
        Kind::Script | Kind::Manifest => oddity_of(line),
        Kind::Assembly => None,
    };
    match (oddity, meaning(kind.topic(), told)) {
        _ if is_of_play(kind, line) => format!(in alloc; ": xv6 play takes such lines"),
        (Some(oddity), _) => format!(in alloc; ": {oddity}"),
        (None, Some(means)) => format!(in alloc; ": {means}"),
        (None, None) => Ok(String::new(alloc)),
    }
}

// What is said after a line that can't be read: the word that was meant, if one is near, or what is wrong.
fn hint(alloc: Global, kind: Kind, line: &str, told: &str) -> Result<String, AllocError> {
    match nearest(alloc, first_word(line), kind.words())? {
        Some(meant) => format!(in alloc; ": did you mean {meant}?"),
        None => wrong(alloc, kind, line, told),
    }
}

// A line of a text that can't be read: its file, its number, its words, and a hint.
fn odd_line(
    alloc: Global,
    told: Told<'_>,
    number: Option<usize>,
    kind: Kind,
) -> Result<Option<String>, AllocError> {
    let Some(number) = number else {
        return Ok(None);
    };
    let Some(line) = line_of(told.text, number) else {
        return Ok(None);
    };
    let more = hint(alloc, kind, line, told.line)?;
    let (name, line) = (told.name, line.trim());
    Ok(Some(format!(in alloc; "{name}:{number}: {line}{more}")?))
}

// A line of an assembly text that can't be read: what `as` makes of it, or a hint.
fn odd_assembly<H: Host>(
    alloc: Global,
    told: Told<'_>,
    host: &mut H,
) -> Result<Option<String>, AllocError> {
    let number = number_behind(told.line, "line ");
    if !takes(alloc, told.name, told.text.as_bytes(), host) {
        return odd_line(alloc, told, number, Kind::Assembly);
    }
    match number {
        Some(number) => {
            let name = told.name;
            Ok(Some(format!(in alloc; "{name}:{number}: xv6 as takes this text")?))
        }
        None => Ok(None),
    }
}

// The text of a file, if it has one.
fn text_of<H: Host>(alloc: Global, name: &str, host: &mut H) -> Option<String> {
    let bytes = host.read(name).ok()?;
    let text = str::from_utf8(bytes.as_slice()).ok()?;
    String::from_str(alloc, text).ok()
}

// What is wrong with a manifest.
fn of_manifest(alloc: Global, told: Told<'_>) -> Result<Option<String>, AllocError> {
    if let Some(number) = number_behind(told.line, "manifest line ") {
        return odd_line(alloc, told, Some(number), Kind::Manifest);
    }
    let Some(misfit) = misfit_of(told.text) else {
        return Ok(None);
    };
    let names_it = match misfit.fault {
        1 => told.line == "fault 1 Name",
        2 => told.line == "fault 2 Twice",
        _ => told.line == "fault 5 Parent",
    };
    if !names_it {
        return Ok(None);
    }
    let (name, number, path, why) = (told.name, misfit.line, misfit.path, misfit.why);
    Ok(Some(format!(in alloc; "{name}:{number}: {path} {why}")?))
}

// The text that a job reads and that its faults are about.
fn name_of<'a>(job: &Job<'a>) -> Option<&'a str> {
    match *job {
        Job::Flat(words) => Some(words.script),
        Job::Run(words) => Some(words.script),
        Job::Trace(words) => Some(words.run.script),
        Job::Explore(words) => words.script,
        Job::Gdb(words) => words.script,
        Job::Mkfs(words) => Some(words.manifest),
        Job::Asm(words) => Some(words.text),
        _ => None,
    }
}

// What is said of this text alone, if anything is.
fn of_text<H: Host>(
    alloc: Global,
    job: &Job<'_>,
    line: &str,
    host: &mut H,
) -> Result<Option<String>, AllocError> {
    let Some(name) = name_of(job) else {
        return Ok(None);
    };
    let Some(text) = text_of(alloc, name, host) else {
        return Ok(None);
    };
    let text = text.as_str();
    let told = Told { name, text, line };
    match *job {
        Job::Mkfs(_) => of_manifest(alloc, told),
        Job::Asm(_) => odd_assembly(alloc, told, host),
        _ => odd_line(
            alloc,
            told,
            number_behind(line, "script line "),
            Kind::Script,
        ),
    }
}

// A word of a line, and the one of these that was meant, if one is near.
fn guess(alloc: Global, word: &str, words: &[&str]) -> Result<Option<String>, AllocError> {
    match nearest(alloc, word, words)? {
        Some(meant) => Ok(Some(format!(in alloc; "{word}: did you mean {meant}?")?)),
        None => Ok(None),
    }
}

// The command of a play, or the call, that was meant by a word of this line.
fn of_word(alloc: Global, job: &Job<'_>, line: &str) -> Result<Option<String>, AllocError> {
    match *job {
        Job::Play(_) => match line.strip_suffix(": no such command") {
            Some(front) => guess(alloc, last_word(front), &PLAY),
            None => Ok(None),
        },
        Job::Trace(_) => match line.strip_prefix("no call ") {
            Some(name) => guess(alloc, name, &CALLS),
            None => Ok(None),
        },
        _ => Ok(None),
    }
}

// What is said of this job alone, if anything is.
fn particular<H: Host>(
    alloc: Global,
    job: &Job<'_>,
    line: &str,
    host: &mut H,
) -> Result<Option<String>, AllocError> {
    let told = match line {
        "fault 5 NoInit" => images::of_init(alloc, job, host)?,
        "fault 1 NotFound" => images::of_path(alloc, job, host)?,
        _ => of_word(alloc, job, line)?,
    };
    match told {
        Some(told) => Ok(Some(told)),
        None => of_text(alloc, job, line, host),
    }
}

// Why the system refused the file of a line. Of standard input the line says so itself; standard output is no file.
fn refusal(alloc: Global, line: &str, why: Why) -> Result<Option<String>, AllocError> {
    if line.starts_with("cannot read standard input") || line == "cannot write standard output" {
        return Ok(None);
    }
    let name = match (
        line.strip_prefix("cannot read "),
        line.strip_prefix("cannot write "),
    ) {
        (Some(name), _) | (None, Some(name)) => name,
        (None, None) => return Ok(None),
    };
    match why {
        Why::System(error) => Ok(Some(format!(in alloc; "{name}: {error}")?)),
        Why::NoMemory | Why::Unknown => Ok(None),
    }
}

// What a job works on.
fn topic_of(job: &Job<'_>) -> Topic {
    match job {
        Job::Flat(_)
        | Job::Run(_)
        | Job::Live(_)
        | Job::Play(_)
        | Job::Trace(_)
        | Job::Gdb(_)
        | Job::GdbInit
        | Job::Explore(_) => Topic::Machine,
        Job::Mkfs(_) => Topic::Making,
        Job::Check(_) => Topic::Image,
        Job::Ls(_) | Job::Get(_) | Job::Put(_) => Topic::Files,
        Job::Migrate(_) => Topic::Migration,
        Job::Asm(_) | Job::As(_) => Topic::Assembly,
        Job::Dump(_) => Topic::Program,
    }
}

// Says this of the last line.
fn say<E: Write>(stderr: &mut E, told: &str) {
    let _ = writeln!(stderr, "explain: {told}");
}

/// Says more on the last line that a job printed: what the system says of a file, which line of a text or which name on
/// an image is meant, or what the line means.
pub fn explain<H: Host, E: Write>(
    alloc: Global,
    job: &Job<'_>,
    line: &str,
    host: &mut H,
    stderr: &mut E,
) -> Result<(), AllocError> {
    let why = host.why();
    let told = match refusal(alloc, line, why)? {
        Some(told) => Some(told),
        None => particular(alloc, job, line, host)?,
    };
    match (told, meaning(topic_of(job), line)) {
        (Some(told), _) => say(stderr, told.as_str()),
        (None, Some(means)) => say(stderr, means),
        (None, None) => {}
    }
    Ok(())
}

/// Says which command was meant where the words name none.
pub fn explain_words<E: Write>(
    alloc: Global,
    words: &[&str],
    stderr: &mut E,
) -> Result<(), AllocError> {
    let Some(word) = words.get(1) else {
        return Ok(());
    };
    if let Some(told) = guess(alloc, word, &COMMANDS)? {
        say(stderr, told.as_str());
    }
    Ok(())
}
