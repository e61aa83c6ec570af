//! Assembles texts that are written for other assemblers.

use assembly_texts::{
    File, MOST_BYTES, Made, Program, Reporter, Sources, Unmade, make, make_with_lines,
};
use commandline::{As, Files};
use host::{Failure, Host, read_front, write};
use std::alloc::{AllocError, Global};
use std::io::Write;

// The files of a host that texts include.
#[derive(Drop)]
struct Included<'h, H>(&'h mut H);

impl<H: Host> Sources for Included<'_, H> {
    fn text(&mut self, name: &str) -> Result<Option<Vec<u8>>, AllocError> {
        match read_front(self.0, name, MOST_BYTES + 1) {
            Ok(front) => Ok(Some(front.bytes)),
            Err(Failure::NoMemory) => Err(AllocError),
            Err(_) => Ok(None),
        }
    }
}

// A text that the words name.
#[derive(Drop)]
struct Text<'a> {
    name: &'a str,
    bytes: Vec<u8>,
}

// The name of that index.
fn name_of<'a>(files: &Files<'a>, index: usize) -> Option<&'a str> {
    match index {
        0 => Some(files.first),
        1 => files.second,
        2 => files.third,
        3 => files.fourth,
        4 => files.fifth,
        5 => files.sixth,
        6 => files.seventh,
        7 => files.eighth,
        _ => None,
    }
}

// The texts that the words name, of which no more is read than shows that they are too long.
fn texts_of<'a, H: Host>(
    alloc: Global,
    words: As<'a>,
    host: &mut H,
) -> Result<Vec<Text<'a>>, Failure<'a>> {
    let mut texts = Vec::new(alloc);
    for index in 0..8usize {
        let Some(name) = name_of(&words.texts, index) else {
            break;
        };
        let bytes = read_front(host, name, MOST_BYTES + 1)?.bytes;
        if texts.push(Text { name, bytes }).is_err() {
            return Err(Failure::NoMemory);
        }
    }
    Ok(texts)
}

// The statements of texts, with what they include.
fn program_of<H: Host>(
    alloc: Global,
    texts: &[Text<'_>],
    host: &mut H,
) -> Result<Program, AllocError> {
    let mut files = Vec::new(alloc);
    for text in texts {
        files.push(File {
            name: text.name,
            text: &text.bytes,
        })?;
    }
    assembly_texts::read(alloc, &mut Included(host), &files)
}

/// Whether `as` takes a text.
pub(crate) fn takes<H: Host>(alloc: Global, name: &str, text: &[u8], host: &mut H) -> bool {
    let file = File { name, text };
    match assembly_texts::read(alloc, &mut Included(host), &[file]) {
        Ok(program) => make(alloc, &program).is_ok(),
        Err(_) => false,
    }
}

// A text's name without its end.
fn stem(name: &str) -> &str {
    match name.strip_suffix(".s") {
        Some(stem) if !stem.is_empty() && !stem.ends_with('/') => stem,
        _ => "a.out",
    }
}

// The name of the program's file: that of the first text, where the words give none.
fn out_of<'a>(words: As<'a>) -> &'a str {
    match words.out {
        Some(out) => out,
        None => stem(words.texts.first),
    }
}

// Whether the program would be written over one of its texts.
fn is_over_a_text<H: Host>(out: &str, texts: &[Text<'_>], host: &mut H) -> bool {
    for text in texts {
        if host.is_same(out, text.name) {
            return true;
        }
    }
    false
}

// Writes the file, or prints the text that `asm` takes.
fn deliver<'a, H: Host, W: Write>(
    made: &Made,
    words: As<'a>,
    host: &mut H,
    stdout: &mut W,
) -> Result<(), Failure<'a>> {
    if !words.expand {
        return write(host, out_of(words), made.file.as_slice());
    }
    if stdout.write_all(made.text.as_bytes()).is_err() || stdout.flush().is_err() {
        return Err(Failure::Output);
    }
    Ok(())
}

// What a program becomes: its file, with the labels and lines of the texts if the words ask for them.
fn made(alloc: Global, program: &Program, words: As<'_>) -> Result<Made, Unmade> {
    if words.debug {
        return make_with_lines(alloc, program);
    }
    make(alloc, program)
}

/// The command `as`. Returns whether a file is written: none is where something is wrong with the texts, which is
/// reported, with pictures on a terminal.
pub fn assemble<'a, H: Host, W: Write, E: Write>(
    alloc: Global,
    words: As<'a>,
    host: &mut H,
    stdout: &mut W,
    stderr: &mut E,
) -> Result<bool, Failure<'a>> {
    let texts = texts_of(alloc, words, host)?;
    if !words.expand && is_over_a_text(out_of(words), &texts, host) {
        return Err(Failure::Twice(out_of(words)));
    }
    let Ok(program) = program_of(alloc, &texts, host) else {
        return Err(Failure::NoMemory);
    };
    let mut reporter = Reporter::new(alloc, &program, host.screen().is_some(), stderr);
    match made(alloc, &program, words) {
        Ok(made) => {
            if words.verbose {
                reporter.passed(&made.passed);
            }
            deliver(&made, words, host, stdout)?;
            Ok(true)
        }
        Err(unmade) => match reporter.unmade(&unmade) {
            Ok(()) => Ok(false),
            Err(_) => Err(Failure::NoMemory),
        },
    }
}
