//! Pipes: at most 512 bytes in a ring that lies in a frame.
#![tactic(auto)]

ghost use Rattle.std.specs.Prelude.{◌≡◌, ◌+◌, ◌<◌, ◌≤◌, ◌||◌, ◌++◌, ◌∷◌, List, [], ℕ, length, nat_lt, not};
ghost use Rattle.std.specs.Prelude.{slice_set, true};
ghost use Rattle.ram.specs.Memory.{frame_of};
ghost use Rattle.unixmodel.specs.OpenFiles.{pipe_room};
ghost use Rattle.unixmodel.specs.Turn.{is_empty};
ghost use Rattle.pipe.specs.Pipe.{ring_in};
ghost use Rattle.ring_laws.specs.Ring.{ring};

pub use files::End;
use ram::{FRAME_SIZE, FrameNo, Ram};
use std::marker::Model;

/// How many bytes a pipe holds at the most.
pub const ROOM: usize = 512;

/// A pipe. Its bytes are in a ring at the beginning of a frame, and it says where they begin and which ends are open.
#[derive(Clone, Copy)]
pub struct Pipe {
    frame: FrameNo,
    from: usize,
    held: usize,
    read_open: bool,
    write_open: bool,
}

impl Model for Pipe {
    ghost use Rattle.std.specs.Prelude.{◌<◌, ◌≤◌};
    ghost use Rattle.pipe.specs.Pipe.{Pipe as State};

    ghost Value = { State };

    ghost view = { λ p. record
        { frame = p.frame.0; from = p.from; held = p.held; read_open = p.read_open; write_open = p.write_open } };

    ghost invariant = { λ p. (p.from < 512) × (p.held ≤ 512) };

    ghost inverse = { λ v. record {
      frame = record { 0 = v.frame };
      from = v.from;
      held = v.held;
      read_open = v.read_open;
      write_open = v.write_open;
    } };
}

// Puts bytes after those that a ring holds.
fn append(places: &mut [u8; FRAME_SIZE], from: usize, held: usize, bytes: &[u8])
    requires from { from < 512 }
    requires room { held + length bytes.now ≤ 512 }
    ensures bytes { ring 512 places.new from (held + length bytes.now) ≡ ring 512 places.old from held ++ bytes.now }
    ensures size { length places.new ≡ 4096 }
{
    for (i, byte) in bytes.iter().enumerate() {
        places[(from + held + i) % ROOM] = *byte;
    }
}

// The same in a frame of a memory.
fn append_in(ram: &mut Ram, frame: FrameNo, from: usize, held: usize, bytes: &[u8])
    requires frame { frame.0 < length ram.old }
    requires from { from < 512 }
    requires room { held + length bytes.now ≤ 512 }
    ensures bytes { ring_in ram.new frame.0 from (held + length bytes.now) ≡ ring_in ram.old frame.0 from held
        ++ bytes.now }
    ensures memory { ram.new ≡ slice_set ram.old frame.0 (frame_of ram.new frame.0) }
{
    append(ram.frame_mut(frame), from, held, bytes);
}

// Fills a buffer with bytes that a ring holds.
fn copy_out(places: &[u8; FRAME_SIZE], from: usize, buffer: &mut [u8])
    requires from { from < 512 }
    requires room { length buffer.old ≤ 512 }
    ensures { buffer.new ≡ ring 512 places.now from (length buffer.old) }
{
    for (i, byte) in buffer.iter_mut().enumerate() {
        *byte = places[(from + i) % ROOM];
    }
}

impl Pipe {
    ghost use Rattle.pipe.specs.Pipe.{PutsIn, TakesOut, bytes_of, closed, holds, is_open};

    /// An empty pipe in a frame, with both ends open.
    pub fn new(frame: FrameNo) -> Pipe
        ensures frame { result.frame ≡ frame.0 }
        ensures empty { (m : List (List ℕ)) → bytes_of m result ≡ [] }
        ensures read { result.read_open ≡ true }
        ensures write { result.write_open ≡ true }
    {
        Pipe {
            frame,
            from: 0,
            held: 0,
            read_open: true,
            write_open: true,
        }
    }

    /// The frame that it holds.
    pub fn frame(&self) -> FrameNo
        ensures frame { result.0 ≡ self.now.frame }
        ensures holds { holds self.now ≡ result.0 ∷ [] }
    {
        self.frame
    }

    /// Whether an end is open.
    pub fn is_open(&self, end: End) -> bool
        ensures { result ≡ is_open self.now end }
    {
        match end {
            End::Read => self.read_open,
            End::Write => self.write_open,
        }
    }

    /// The bytes that it holds, the oldest first: those of the second slice follow those of the first.
    pub fn bytes<'a>(&self, ram: &'a Ram) -> (&'a [u8], &'a [u8])
        requires { self.now.frame < length ram.now }
        ensures { result.0.now ++ result.1.now ≡ bytes_of ram.now self.now }
    {
        let places = ram.frame(self.frame);
        let front = self.held.min(ROOM - self.from);
        (
            &places[self.from..self.from + front],
            &places[..self.held - front],
        )
    }

    /// Whether a read can go on: a byte is there, or none can come.
    pub fn can_read(&self) -> bool
        ensures { (m : List (List ℕ)) → result ≡ (not (is_empty (bytes_of m self.now)) || not self.now.write_open) }
    {
        self.held > 0 || !self.write_open
    }

    /// Whether a write can go on: there is room, or nobody can read.
    pub fn can_write(&self) -> bool
        ensures can { (m : List (List ℕ))
            → result ≡ (nat_lt (length (bytes_of m self.now)) pipe_room || not self.now.read_open) }
        ensures within { (m : List (List ℕ)) → length (bytes_of m self.now) ≤ pipe_room }
    {
        self.held < ROOM || !self.read_open
    }

    /// Puts in what fits of these bytes, and returns how many. `None` where no read end is open.
    pub fn write_some(&mut self, ram: &mut Ram, bytes: &[u8]) -> Option<usize>
        requires { self.old.frame < length ram.old }
        ensures { PutsIn ram.old ram.new self.old self.new bytes.now result }
    {
        if !self.read_open {
            return None;
        }
        let count = bytes.len().min(ROOM - self.held);
        append_in(ram, self.frame, self.from, self.held, &bytes[..count]);
        self.held += count;
        Some(count)
    }

    /// Takes bytes into a buffer, as many as there are and fit, and returns how many.
    /// It takes none at the end, where no byte is there and no write end is open.
    /// `None` where the reader has to wait.
    pub fn read_some(&mut self, ram: &Ram, buffer: &mut [u8]) -> Option<usize>
        requires { self.old.frame < length ram.now }
        ensures { TakesOut ram.now self.old self.new buffer.old buffer.new result }
    {
        if self.held == 0 && self.write_open {
            return None;
        }
        let count = buffer.len().min(self.held);
        copy_out(ram.frame(self.frame), self.from, &mut buffer[..count]);
        self.from = (self.from + count) % ROOM;
        self.held -= count;
        Some(count)
    }

    /// Closes an end, and returns whether none is open any more.
    pub fn close_end(&mut self, end: End) -> bool
        ensures closed { self.new ≡ closed self.old end }
        ensures last { result ≡ not (self.new.read_open || self.new.write_open) }
    {
        match end {
            End::Read => self.read_open = false,
            End::Write => self.write_open = false,
        }
        !self.read_open && !self.write_open
    }
}
