//! Lines, words and texts, and what is said of them.
use crate::tests::expect_that;
use explanations::words::{first_word, line_of, number_behind};
use explanations::{Noting, Topic, meaning, misfit_of, nearest, oddity_of};
use std::alloc::Global;
use std::io::{Write, sink};
use std::process::Abort;

// Lines of a command on a machine, and what is said of them.
static MEANINGS: [(&str, Option<&str>); 4] = [
    ("fault 2 FrameCount", Some("--frames takes 64 to 32768")),
    ("line 3: 5 Label", Some("no line defines the label")),
    ("cannot write a", Some("the file cannot be written")),
    ("fault 14 Odd", None),
];

// Lines that say nothing, the character that keeps them from it, and its column.
static ODDITIES: [(&str, Option<(char, usize)>); 15] = [
    ("step 10 ", Some((' ', 8))),
    ("step 10\r", Some(('\r', 8))),
    ("\tstep 10", Some(('\t', 1))),
    (" step 10", Some((' ', 1))),
    ("step +1", Some(('+', 6))),
    ("tick 1 # one", Some((' ', 7))),
    ("# a comment", Some(('#', 1))),
    ("keys 0A", Some(('A', 7))),
    ("dev /console 1 0\r", Some(('\r', 17))),
    ("dir /a ", Some((' ', 7))),
    ("keys 0f", None),
    ("keys 0g", Some(('g', 7))),
    ("type +1 ", Some((' ', 8))),
    ("step 1000000001", None),
    ("", None),
];

// An odd line, and what is said of its character.
static SAID: [(&str, &str); 4] = [
    ("step 10 ", "a blank at column 8"),
    ("\tstep 10", "a tab at column 1"),
    ("step 10\r", "a carriage return at column 8"),
    ("step +1", "`+` at column 6"),
];

// Two lines, as they are written.
static PIECES: [&str; 2] = ["1 run 4096\nfault 5 No", "Init\n"];

static SOME_MEANING: [&str; 2] = [
    "a:3: untill: no such command",
    "a:4: not reached in 7 steps",
];

// A word, the names that there are, and the one that was meant.
static NAMES: [(&str, &[&str], Option<&str>); 5] = [
    ("liv", &["run", "live", "mkfs"], Some("live")),
    ("mksf", &["run", "live", "mkfs"], Some("mkfs")),
    ("x", &["run", "live", "mkfs"], None),
    ("run", &["run", "live", "mkfs"], None),
    ("reedme", &["init", "README"], Some("README")),
];

// A manifest, and the line, the path and the fault of what does not fit in it.
type Manifest = (&'static str, Option<(usize, &'static str, u8)>);

static MANIFESTS: [Manifest; 11] = [
    ("dir /a\nfile /a/b x\ndir /a\n", Some((3, "/a", 2))),
    ("file /a/b x\n", Some((1, "/a/b", 5))),
    ("dev /a 1 1\nfile /a/b x\n", Some((2, "/a/b", 5))),
    ("dev /console 1 0\n", None),
    ("file /a x\n\ndir /b\nfile /b/c x\n", None),
    ("file /abcdefghijklmn x\n", None),
    (
        "file /abcdefghijklmno x\n",
        Some((1, "/abcdefghijklmno", 1)),
    ),
    ("dir /a\ndir /a/..\n", Some((2, "/a/..", 1))),
    ("dir /a/\n", Some((1, "/a/", 1))),
    ("dir /a\nfile a x\n", Some((2, "a", 1))),
    ("file /a/b x\ndir /a\n", Some((1, "/a/b", 5))),
];

// Whether that is what doesn't fit.
fn tells(manifest: &str, wanted: Option<(usize, &str, u8)>) -> bool {
    match (misfit_of(manifest), wanted) {
        (Some(misfit), Some((line, path, fault))) => {
            misfit.line == line && misfit.path == path && misfit.fault == fault
        }
        (None, None) => true,
        _ => false,
    }
}

fn expect_manifests(rt: &impl Abort) {
    for (manifest, wanted) in &MANIFESTS {
        expect_that(
            rt,
            ("a manifest", manifest),
            "its line",
            tells(manifest, *wanted),
        );
    }
}

fn expect_odd_manifest(rt: &impl Abort) {
    let odd = "# a comment\nfile a x\n";
    expect_that(rt, ("a manifest", odd), "a line", misfit_of(odd).is_some());
}

fn expect_line_of_number(rt: &impl Abort) {
    let number = number_behind("line 2: 2 Mnemonic", "line ").expect(rt, "a number");
    let line = line_of("a\nstart: lii a0, 1\n", number).expect(rt, "a line");
    expect_that(
        rt,
        ("a line", line),
        "its first word",
        first_word(line) == "lii",
    );
    let number = number_behind("script line 7", "script line ");
    expect_that(
        rt,
        ("a line", "script line 7"),
        "its number",
        number == Some(7),
    );
}

fn expect_last_line(rt: &impl Abort) {
    let mut out = sink();
    let mut noting = Noting::new(&mut out);
    let name = ("the last line", "fault 5 NoInit");
    for piece in &PIECES {
        let written = noting.write_all(piece.as_bytes());
        expect_that(rt, name, "written", written.is_ok());
    }
    expect_that(rt, name, "kept", noting.line() == "fault 5 NoInit");
    let written = noting.write_all(&[b'x'; 256]);
    let name = ("the last line", "the longest");
    expect_that(rt, name, "written", written.is_ok());
    expect_that(rt, name, "kept", noting.line().len() == 256);
}

fn expect_meanings(rt: &impl Abort) {
    for (line, said) in &MEANINGS {
        expect_that(
            rt,
            ("a meaning", line),
            "what is said",
            meaning(Topic::Machine, line) == *said,
        );
    }
}

fn expect_some_meanings(rt: &impl Abort) {
    for line in &SOME_MEANING {
        let said = meaning(Topic::Machine, line);
        expect_that(rt, ("a meaning", line), "anything", said.is_some());
    }
}

fn expect_oddities(rt: &impl Abort) {
    for (line, wanted) in &ODDITIES {
        let found = oddity_of(line).map(|oddity| (oddity.character, oddity.column));
        expect_that(rt, ("an odd line", line), "its character", found == *wanted);
    }
}

// Whether that is said of the odd character of a line.
fn is_said(alloc: Global, line: &str, said: &str) -> bool {
    match oddity_of(line) {
        Some(oddity) => match format!(in alloc; "{oddity}") {
            Ok(text) => text.as_str() == said,
            Err(_) => false,
        },
        None => false,
    }
}

fn expect_said(rt: &(impl Abort + AllocGlobal)) {
    for (line, said) in &SAID {
        let is_said = is_said(rt.alloc(), line, said);
        expect_that(rt, ("an odd line", line), "what is said", is_said);
    }
}

fn expect_names(rt: &(impl Abort + AllocGlobal)) {
    for (word, names, meant) in &NAMES {
        let same = nearest(rt.alloc(), word, names) == Ok(*meant);
        expect_that(rt, ("a name", word), "what was meant", same);
    }
}

fn expect_lines(rt: &(impl Abort + AllocGlobal)) {
    expect_meanings(rt);
    expect_some_meanings(rt);
    expect_oddities(rt);
    expect_said(rt);
    expect_names(rt);
    expect_manifests(rt);
    expect_odd_manifest(rt);
    expect_line_of_number(rt);
    expect_last_line(rt);
}

#[test]
fn lines_have_meanings(rt: HostRuntime) {
    expect_lines(&rt);
}
