//! Which line of a manifest is meant by a fault.

/// An entry that does not fit those before it.
#[derive(Clone, Copy, PartialEq, Eq, Debug)]
pub struct Misfit<'a> {
    /// Its line, counted from 1.
    pub line: usize,
    pub path: &'a str,
    pub why: &'static str,
    /// The number of the fault that it is.
    pub fault: u8,
}

/// The longest name of an entry, in bytes.
const LONGEST_NAME: usize = 14;

// The path of a line, if it has one.
fn path_of(line: &str) -> Option<&str> {
    let mut words = line.split_ascii_whitespace();
    let _ = words.next()?;
    words.next()
}

// Whether a line before one of this number has this path; where only directories count, whether one that makes a
// directory has.
fn is_before(text: &str, number: usize, path: &str, only_directories: bool) -> bool {
    for line in text.lines().take(number) {
        if path_of(line) == Some(path) && (!only_directories || line.starts_with("dir ")) {
            return true;
        }
    }
    false
}

// What is wrong with an entry whose line has this index, and the number of the fault.
fn wrong(text: &str, index: usize, path: &str) -> Option<(&'static str, u8)> {
    let Some((directory, name)) = path.rsplit_once('/') else {
        return Some(("begins with no /", 1));
    };
    if name.is_empty() || name.len() > LONGEST_NAME || name == "." || name == ".." {
        return Some(("has no name of 1 to 14 bytes at its end", 1));
    }
    if !directory.is_empty() && !is_before(text, index, directory, true) {
        return Some(("is in a directory that no earlier line lists", 5));
    }
    if is_before(text, index, path, false) {
        return Some(("is listed twice", 2));
    }
    None
}

/// The first entry of a manifest that is wrong by itself, or doesn't fit those before it.
pub fn misfit_of(text: &str) -> Option<Misfit<'_>> {
    for (index, line) in text.lines().enumerate() {
        if let Some(path) = path_of(line)
            && let Some((why, fault)) = wrong(text, index, path)
        {
            return Some(Misfit {
                line: index.saturating_add(1),
                path,
                why,
                fault,
            });
        }
    }
    None
}
