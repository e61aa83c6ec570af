//! What is typed at the console, and what a read takes of it.
ghost use Rattle.std.specs.Prelude.{◌≡◌, ◌+◌, ◌++◌, ◌-◌, ◌<◌, ◌≤◌, List, [], length, take, drop, slice_get};
ghost use Rattle.std.specs.Prelude.{slice_index, false, not, OnOk, OnErr};
ghost use Rattle.std.specs.Io.KnownBytes.{Appends};
ghost use Rattle.unixmodel.specs.Console.{add_byte, key, take_line, is_full, commit, committed_at_end, with_byte};
ghost use Rattle.unixmodel.specs.Failures.{Rises};
ghost use Rattle.unixmodel.specs.Turn.{is_empty};
ghost use Rattle.console.specs.Line.{HasRoom, keyed_by, without_last, rub_outs};
ghost use Rattle.console.specs.Output.{AppendsBeginning};

use crate::{Out, OutFault};
use std::marker::Model;

/// How many bytes a console holds at the most.
pub const ROOM: usize = 128;

/// The key that ends the input, ^D.
const END: u8 = 0x04;

// What a key does: it takes back bytes of the edited line, or adds one.
#[derive(Clone, Copy)]
enum Change {
    Nothing,
    Erase(usize),
    Add(u8),
}

/// What a read took: how many bytes, and whether it is over.
#[derive(Clone, Copy, Debug, PartialEq, Eq)]
pub struct Taken {
    /// How many bytes it took.
    pub count: usize,
    /// It returns now, and takes no more.
    pub over: bool,
}

/// The input of a console: the bytes that can be read, and the line that is still edited. They share one ring.
///
/// In contracts it is the console of the abstract Unix.
#[derive(Drop)]
pub struct Console {
    places: [u8; ROOM],
    from: usize,
    committed: usize,
    edited: usize,
}

impl Model for Console {
    ghost use Rattle.std.specs.Prelude.{◌+◌, ◌<◌, ◌≤◌};
    ghost use Rattle.unixmodel.specs.Console.{Console as Line};
    ghost use Rattle.console.specs.Line.{line_of};

    ghost Value = { Line };

    ghost view = { λ c. line_of c.places c.from c.committed c.edited };

    ghost invariant = { λ c. (c.from < 128) × (c.committed + c.edited ≤ 128) };
}

// Takes `count` bytes off the screen. It is kept out of line, so that a key that is added needs few registers.
#[cold]
#[inline(never)]
fn rub_out<W: Out>(count: usize, out: &mut W) -> Result<(), OutFault>
    ensures ok { OnOk result (Appends (W.contents out.old) (W.contents out.new) (rub_outs count)) }
    ensures err { OnErr result (AppendsBeginning (W.contents out.old) (W.contents out.new) (rub_outs count)) }
    ensures later { W.failures out.old ≤ W.failures out.new }
    ensures cause { OnErr result (Rises (W.failures out.old) (W.failures out.new)) }
{
    for _done in 0..count {
        out.put(&[0x08, 0x20, 0x08])?;
    }
    Ok(())
}

impl Console {
    /// A console at which nothing has been typed.
    pub fn new() -> Self
        ensures { result ≡ record { committed = []; edited = [] } }
    {
        Console {
            places: [0; ROOM],
            from: 0,
            committed: 0,
            edited: 0,
        }
    }

    /// A console of its own with the same bytes.
    pub fn duplicate(&self) -> Console
        ensures { result ≡ self.now }
    {
        Console {
            places: self.places,
            from: self.from,
            committed: self.committed,
            edited: self.edited,
        }
    }

    // Whether it holds as many bytes as it can.
    fn is_full(&self) -> bool
        ensures { result ≡ is_full self.now }
    {
        self.committed + self.edited == ROOM
    }

    /// How many bytes can be read.
    pub fn committed_len(&self) -> usize
        ensures { result ≡ length self.now.committed }
    {
        self.committed
    }

    /// How many bytes the edited line has.
    pub fn edited_len(&self) -> usize
        ensures { result ≡ length self.now.edited }
    {
        self.edited
    }

    // A byte is added where it fits.
    fn addition(&self, byte: u8) -> Change
        ensures does { keyed_by self.now result ≡ add_byte self.now byte }
        ensures room { HasRoom self.now result }
    {
        if self.is_full() {
            return Change::Nothing;
        }
        Change::Add(byte)
    }

    // What a key does.
    #[tactic(auto, unfolding(unixmodel::specs::Console::key))]
    fn change(&self, byte: u8) -> Change
        ensures does { keyed_by self.now result ≡ key self.now byte }
        ensures room { HasRoom self.now result }
    {
        match byte {
            0x00 | 0x10 => Change::Nothing,
            0x08 | 0x7f => Change::Erase(self.edited_len().min(1)),
            0x15 => Change::Erase(self.edited_len()),
            b'\r' => self.addition(b'\n'),
            _ => self.addition(byte),
        }
    }

    // Takes back the last bytes of the edited line.
    fn erase(&mut self, count: usize)
        ensures { self.new ≡ without_last count self.old }
    {
        self.edited = self.edited.saturating_sub(count);
    }

    // Adds a byte to the edited line.
    fn push(&mut self, byte: u8)
        requires { is_full self.old ≡ false }
        ensures { self.new ≡ with_byte self.old byte }
    {
        self.places[(self.from + self.committed + self.edited) % ROOM] = byte;
        self.edited += 1;
    }

    // Lets the edited line be read.
    fn commit(&mut self)
        ensures { self.new ≡ commit self.old }
    {
        self.committed += self.edited;
        self.edited = 0;
    }

    // Adds a byte to the edited line, which its end and the last byte that fits commit.
    fn add(&mut self, byte: u8)
        requires { is_full self.old ≡ false }
        ensures { self.new ≡ committed_at_end byte (with_byte self.old byte) }
    {
        self.push(byte);
        if byte == b'\n' || byte == END || self.is_full() {
            self.commit();
        }
    }

    /// A key was typed: it changes the edited line, and what shows that is printed. Where the writer fails the key
    /// is lost, and a beginning of that was printed.
    pub fn key<W: Out>(&mut self, byte: u8, out: &mut W) -> Result<(), OutFault>
        ensures ok { OnOk result (self.new ≡ (key self.old byte).console) }
        ensures echo { OnOk result (Appends (W.contents out.old) (W.contents out.new) (key self.old byte).echo) }
        ensures err { OnErr result (self.new ≡ self.old) }
        ensures beginning { OnErr result
            (AppendsBeginning (W.contents out.old) (W.contents out.new) (key self.old byte).echo) }
        ensures later { W.failures out.old ≤ W.failures out.new }
        ensures cause { OnErr result (Rises (W.failures out.old) (W.failures out.new)) }
    {
        match self.change(byte) {
            Change::Nothing => {}
            Change::Erase(count) => {
                rub_out(count, out)?;
                self.erase(count);
            }
            Change::Add(byte) => {
                out.put(&[byte])?;
                self.add(byte);
            }
        }
        Ok(())
    }

    /// Whether a read can take anything now.
    pub fn can_take(&self) -> bool
        ensures can { result ≡ not (is_empty self.now.committed) }
        ensures within { length self.now.committed + length self.now.edited ≤ 128 }
    {
        self.committed > 0
    }

    /// The byte at an index: first come those that can be read, the oldest first, then the edited line.
    pub fn byte(&self, at: usize) -> u8
        requires { at < length self.now.committed + length self.now.edited }
        ensures { result ≡ slice_index (self.now.committed ++ self.now.edited) at }
    {
        self.places[(self.from + at) % ROOM]
    }

    // The first byte that can be read.
    fn first(&self) -> Option<u8>
        ensures first { result ≡ slice_get self.now.committed 0 }
        ensures within { length self.now.committed ≤ 128 }
    {
        if self.committed == 0 {
            return None;
        }
        Some(self.places[self.from])
    }

    // Takes the first byte that can be read.
    fn drop_first(&mut self)
        requires { 0 < length self.old.committed }
        ensures { self.new ≡ record self.old { committed = drop 1 self.old.committed } }
    {
        self.from = (self.from + 1) % ROOM;
        self.committed -= 1;
    }

    /// Takes bytes for a read that still has a count of `n`, and already has some bytes or none.
    /// It ends at its count, after a line feed, or before ^D; with none yet it takes the ^D, which isn't one of them.
    /// If the bytes run out first the read isn't over.
    pub fn take(&mut self, n: usize, has_some: bool, buffer: &mut [u8; ROOM]) -> Taken
        ensures took { take_line has_some n self.old.committed ≡ record {
          bytes = take result.count buffer.new;
          rest = self.new.committed;
          over = result.over;
        } }
        ensures edited { self.new.edited ≡ self.old.edited }
        ensures within { result.count ≤ 128 }
    {
        let _ = &self.places;
        let mut count = 0;
        let mut has_some = has_some;
        while count < n {
            let Some(byte) = self.first() else {
                return Taken { count, over: false };
            };
            if byte == END && has_some {
                return Taken { count, over: true };
            }
            self.drop_first();
            if byte == END {
                return Taken { count, over: true };
            }
            buffer[count] = byte;
            count += 1;
            has_some = true;
            if byte == b'\n' {
                return Taken { count, over: true };
            }
        }
        Taken { count, over: true }
    }
}
