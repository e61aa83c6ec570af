//! A text without its comments: blanks replace them, so lines and columns stay.

use std::alloc::{AllocError, Global};

/// What the reader is in.
#[derive(Clone, Copy)]
enum Mode {
    Code,
    /// After a slash.
    Slash,
    /// In a string, and after a backslash there.
    Text,
    TextEscape,
    /// After an apostrophe, after a backslash there, and after the character.
    Character,
    CharacterEscape,
    Closing,
    /// In a comment that the line ends.
    Line,
    /// In a comment, and after an asterisk there.
    Block,
    Star,
}

impl Mode {
    // Whether a character here is neither in a comment nor between quotes.
    fn is_open(self) -> bool {
        matches!(self, Mode::Code | Mode::Slash | Mode::Closing)
    }
}

// The mode after a character outside of comments and strings.
fn in_code(c: u8) -> Mode {
    match c {
        b'/' => Mode::Slash,
        b'#' => Mode::Line,
        b'"' => Mode::Text,
        b'\'' => Mode::Character,
        _ => Mode::Code,
    }
}

fn in_text(c: u8) -> Mode {
    match c {
        b'"' | b'\n' => Mode::Code,
        b'\\' => Mode::TextEscape,
        _ => Mode::Text,
    }
}

fn after_slash(c: u8) -> Mode {
    match c {
        b'/' => Mode::Line,
        b'*' => Mode::Block,
        _ => in_code(c),
    }
}

fn after_apostrophe(c: u8) -> Mode {
    match c {
        b'\\' => Mode::CharacterEscape,
        b'\n' => Mode::Code,
        _ => Mode::Closing,
    }
}

fn after_character(c: u8) -> Mode {
    match c {
        b'\'' => Mode::Code,
        _ => in_code(c),
    }
}

fn in_line(c: u8) -> Mode {
    match c {
        b'\n' => Mode::Code,
        _ => Mode::Line,
    }
}

fn in_block(c: u8) -> Mode {
    match c {
        b'*' => Mode::Star,
        _ => Mode::Block,
    }
}

fn after_star(c: u8) -> Mode {
    match c {
        b'/' => Mode::Code,
        b'*' => Mode::Star,
        _ => Mode::Block,
    }
}

fn mode_after(mode: Mode, c: u8) -> Mode {
    match mode {
        Mode::Code => in_code(c),
        Mode::Slash => after_slash(c),
        Mode::Text => in_text(c),
        Mode::TextEscape => Mode::Text,
        Mode::Character => after_apostrophe(c),
        Mode::CharacterEscape => Mode::Closing,
        Mode::Closing => after_character(c),
        Mode::Line => in_line(c),
        Mode::Block => in_block(c),
        Mode::Star => after_star(c),
    }
}

// Whether a character is in a comment: the mode before it is, or it begins one.
fn is_comment(before: Mode, after: Mode) -> bool {
    matches!(before, Mode::Line | Mode::Block | Mode::Star)
        || matches!(after, Mode::Line | Mode::Block)
}

// The character that stays: a line's end always does.
fn kept(c: u8, is_comment: bool) -> u8 {
    if is_comment && c != b'\n' { b' ' } else { c }
}

/// A text with blanks in place of its comments.
pub(crate) fn without_comments(alloc: Global, text: &[u8]) -> Result<Vec<u8>, AllocError> {
    let mut kept_text = Vec::new(alloc);
    let mut mode = Mode::Code;
    for c in text {
        let next = mode_after(mode, *c);
        let is_comment = is_comment(mode, next);
        if is_comment && matches!(mode, Mode::Slash) {
            let _slash = kept_text.pop();
            kept_text.push(b' ')?;
        }
        kept_text.push(kept(*c, is_comment))?;
        mode = next;
    }
    Ok(kept_text)
}

/// How many characters of a text without comments come before a mark outside of quotes, or before the line's end.
pub(crate) fn length_before(text: &[u8], mark: u8) -> usize {
    let mut mode = Mode::Code;
    for (length, c) in text.iter().enumerate() {
        if *c == b'\n' || *c == mark && mode.is_open() {
            return length;
        }
        mode = mode_after(mode, *c);
    }
    text.len()
}

// Whether a character is at the end, or at the start, of a word or of a text between quotes.
fn is_of_word(c: u8) -> bool {
    c.is_ascii_alphanumeric() || matches!(c, b'_' | b'.' | b'$' | b'"' | b'\'')
}

// Whether a word comes after the blanks that a text begins with.
fn is_before_word(text: &[u8]) -> bool {
    match text.trim_ascii_start() {
        [c, ..] => is_of_word(*c),
        [] => false,
    }
}

/// How many characters the first argument of a macro has: a comma ends it, or a blank between two words.
pub(crate) fn argument_length(text: &[u8]) -> usize {
    let mut mode = Mode::Code;
    let mut last = b',';
    for (length, c) in text.iter().enumerate() {
        let is_end = match *c {
            b',' => true,
            b' ' | b'\t' => is_of_word(last) && is_before_word(text.get(length..).unwrap_or(&[])),
            _ => false,
        };
        if is_end && mode.is_open() {
            return length;
        }
        last = *c;
        mode = mode_after(mode, *c);
    }
    text.len()
}
