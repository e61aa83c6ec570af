//! What follows the word of a statement, read one character after the other.
ghost use Rattle.std.specs.Prelude.{◌≡◌, [], List, ℕ, IfOk, OnOk, MatchOption, map, option_map};
ghost use Rattle.unixmodel.specs.Tokens as the;
ghost use Rattle.asmtext.specs.Symbols.{reader_of, symbol_of, Escapes};

use std::alloc::{AllocError, Global};
use std::mem;

/// A character, or a whole string.
#[derive(Drop)]
pub enum Symbol {
    Plain(u8),
    Quoted(Vec<u8>),
}

/// Where the reader is: outside strings, in one, after a backslash there, in the comment, or past a wrong escape.
#[derive(Clone, Copy)]
enum Mode {
    Outside,
    Inside,
    Escaped,
    Comment,
    Lost,
}

/// A reader, with the bytes so far of the string that it is in.
#[derive(Drop)]
struct Reader {
    mode: Mode,
    string: Vec<u8>,
    symbols: Vec<Symbol>,
}

// The byte that stands for an escape.
fn escaped(c: u8) -> Option<u8>
    ensures { MatchOption result ((bytes : List ℕ) → the.after_escape bytes c ≡ the.Mode.Lost)
        (λ byte. Escapes c byte) }
{
    match c {
        b'n' => Some(b'\n'),
        b'0' => Some(0),
        b'\\' | b'"' => Some(c),
        _ => None,
    }
}

impl Reader {
    fn new(alloc: Global) -> Self
        ensures { reader_of result ≡ the.standing [] the.Mode.Outside }
    {
        Reader {
            mode: Mode::Outside,
            string: Vec::new(alloc),
            symbols: Vec::new(alloc),
        }
    }

    fn read(&mut self, alloc: Global, c: u8) -> Result<(), AllocError>
        ensures { OnOk result (reader_of self.new ≡ the.read (reader_of self.old) c) }
    {
        match self.mode {
            Mode::Outside => match c {
                b'#' => self.mode = Mode::Comment,
                b'"' => {
                    self.string.clear();
                    self.mode = Mode::Inside;
                }
                _ => self.symbols.push(Symbol::Plain(c))?,
            },
            Mode::Inside => match c {
                b'"' => {
                    let string = mem::replace(&mut self.string, Vec::new(alloc));
                    self.symbols.push(Symbol::Quoted(string))?;
                    self.mode = Mode::Outside;
                }
                b'\\' => self.mode = Mode::Escaped,
                _ => self.string.push(c)?,
            },
            Mode::Escaped => match escaped(c) {
                Some(byte) => {
                    self.string.push(byte)?;
                    self.mode = Mode::Inside;
                }
                None => self.mode = Mode::Lost,
            },
            Mode::Comment | Mode::Lost => {}
        }
        Ok(())
    }

    fn finish(self) -> Option<Vec<Symbol>>
        ensures { option_map (λ symbols. map symbol_of symbols.items) result ≡ the.symbols_of (reader_of self) }
    {
        match self.mode {
            Mode::Outside | Mode::Comment => Some(self.symbols),
            Mode::Inside | Mode::Escaped | Mode::Lost => None,
        }
    }
}

/// The symbols of what follows a word, unless a string isn't closed or has another escape than `\n`,
/// `\0`, `\\` and `\"`.
#[tactic(auto, unfolding(unixmodel::specs::Tokens::symbols_in))]
pub fn symbols_in(alloc: Global, line: &[u8]) -> Result<Option<Vec<Symbol>>, AllocError>
    ensures { IfOk result (λ found. option_map (λ symbols. map symbol_of symbols.items) found
        ≡ the.symbols_in line.now) }
{
    let mut reader = Reader::new(alloc);
    for c in line {
        reader.read(alloc, *c)?;
    }
    Ok(reader.finish())
}
