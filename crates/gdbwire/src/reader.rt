//! Frames, read byte by byte.
ghost use Rattle.std.specs.Prelude.{◌≡◌, [], false, IfOk};
ghost use Rattle.gdbwire.specs.declared.reader.Stage.TheVariants.{Between as BetweenFrames, Body as InBody};
ghost use Rattle.gdbwire.specs.declared.reader.Stage.TheVariants.{Escaped as AfterEscape};
ghost use Rattle.gdbwire.specs.Frames.{adding, begun, between, hears, hears_at, judged};

use crate::frames::{ESCAPE, FLIP};
use crate::hex::digit_value;
use std::alloc::{AllocError, Global};
use std::marker::Model;

/// The longest body that is read, in bytes: the number that a server reports as `PacketSize`, 0x4000.
pub const MOST: usize = 16384;

/// The byte by which the other end wants what runs to stop: ^C.
const INTERRUPT: u8 = 3;

// Where a reader is.
#[derive(Clone, Copy)]
pub(crate) enum Stage {
    // Between frames.
    Between,
    // In a body.
    Body,
    // In a body, after the byte that escapes a reserved one.
    Escaped,
    // After a body.
    Sum,
    // After the first digit of the sum; None if it was none.
    LastDigit(Option<u8>),
}

/// What is heard with a byte.
#[derive(Clone, Copy, Debug, PartialEq, Eq)]
pub enum Heard {
    /// A whole frame, whose body the reader has.
    Packet,
    /// A whole frame with a body of more than `MOST` bytes.
    TooLong,
    /// A frame whose sum is wrong.
    Damaged,
    /// `+`: the other end has the last frame.
    Acknowledged,
    /// `-`: the other end wants the last frame again.
    Refused,
    /// The byte 3: the other end wants what runs to stop.
    Interrupt,
}

/// A reader of frames. It asks for its memory once, and looks at each byte once.
#[derive(Drop)]
pub struct Reader {
    stage: Stage,
    sum: u8,
    is_long: bool,
    body: Vec<u8>,
}

impl Model for Reader {
    ghost use Rattle.std.specs.Prelude.{◌≤◌};
    ghost use Rattle.std.specs.Vec.{vec_capacity, vec_len};
    ghost use Rattle.gdbwire.specs.Frames.{Reading};

    ghost Value = { Reading };

    ghost view = { λ r. record { stage = r.stage; sum = r.sum; body = r.body.items; is_long = r.is_long } };

    ghost invariant = { λ r. (vec_len r.body ≤ 16384) × (16384 ≤ vec_capacity r.body) };
}

impl Reader {
    /// A reader between frames, or no memory.
    pub fn new(alloc: Global) -> Result<Self, AllocError>
        ensures { IfOk result (λ reader. reader
            ≡ record { stage = BetweenFrames; sum = 0; body = []; is_long = false }) }
    {
        let body = Vec::with_capacity(alloc, MOST)?;
        Ok(Reader {
            stage: Stage::Between,
            sum: 0,
            is_long: false,
            body,
        })
    }

    /// The body of the frame that was heard last, without escapes.
    pub fn body(&self) -> &[u8]
        ensures { result.now ≡ self.now.body }
    {
        self.body.as_slice()
    }

    /// Takes the next byte, and returns what is heard with it. It asks for no memory.
    pub fn hear(&mut self, byte: u8) -> Option<Heard>
        ensures after { self.new ≡ (hears self.old byte).0 }
        ensures heard { result ≡ (hears self.old byte).1 }
    {
        match self.stage {
            Stage::Between => self.hear_between(byte),
            Stage::Body => {
                self.hear_in_body(byte);
                None
            }
            Stage::Escaped => {
                self.hear_escaped(byte);
                None
            }
            Stage::Sum => {
                self.stage = Stage::LastDigit(digit_value(byte));
                None
            }
            Stage::LastDigit(high) => {
                self.stage = Stage::Between;
                Some(self.judge(high, digit_value(byte)))
            }
        }
    }

    // A frame begins.
    fn begin(&mut self)
        ensures { self.new ≡ begun }
    {
        self.stage = Stage::Body;
        self.sum = 0;
        self.is_long = false;
        self.body.clear();
    }

    // Adds a byte to the body, where it is not too long.
    #[tactic(auto, unfolding(crate::specs::Frames::adding))]
    fn add(&mut self, byte: u8)
        ensures { self.new ≡ adding byte self.old }
    {
        self.stage = Stage::Body;
        if self.body.len() < MOST && self.body.push(byte).is_ok() {
            return;
        }
        self.is_long = true;
    }

    // Between frames.
    #[tactic(auto, unfolding(crate::specs::Frames::between))]
    fn hear_between(&mut self, byte: u8) -> Option<Heard>
        requires { self.old.stage ≡ BetweenFrames }
        ensures after { self.new ≡ (hears_at BetweenFrames self.old byte).0 }
        ensures heard { result ≡ between byte }
    {
        match byte {
            b'$' => {
                self.begin();
                None
            }
            b'+' => Some(Heard::Acknowledged),
            b'-' => Some(Heard::Refused),
            INTERRUPT => Some(Heard::Interrupt),
            _ => None,
        }
    }

    // In a body.
    #[tactic(auto, unfolding(crate::specs::Frames::inside))]
    fn hear_in_body(&mut self, byte: u8)
        ensures { self.new ≡ (hears_at InBody self.old byte).0 }
    {
        match byte {
            b'#' => self.stage = Stage::Sum,
            b'$' => self.begin(),
            ESCAPE => {
                self.sum = self.sum.wrapping_add(byte);
                self.stage = Stage::Escaped;
            }
            _ => {
                self.sum = self.sum.wrapping_add(byte);
                self.add(byte);
            }
        }
    }

    // After the byte that escapes a reserved one.
    #[tactic(auto, unfolding(crate::specs::Frames::inside))]
    fn hear_escaped(&mut self, byte: u8)
        ensures { self.new ≡ (hears_at AfterEscape self.old byte).0 }
    {
        match byte {
            b'#' => self.stage = Stage::Sum,
            b'$' => self.begin(),
            _ => {
                self.sum = self.sum.wrapping_add(byte);
                self.add(byte ^ FLIP);
            }
        }
    }

    // What a whole frame with these digits of its sum is.
    fn judge(&self, high: Option<u8>, low: Option<u8>) -> Heard
        ensures { result ≡ judged self.now high low }
    {
        match (high, low) {
            (Some(high), Some(low))
                if 16 * u16::from(high) + u16::from(low) == u16::from(self.sum) => {
                if self.is_long {
                    Heard::TooLong
                } else {
                    Heard::Packet
                }
            }
            _ => Heard::Damaged,
        }
    }
}
