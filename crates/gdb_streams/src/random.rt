//! Debuggers that send anything.
use crate::debuggee::start;
use crate::recorded::hear_next;
use anyhow::ensure;
use gdbserver::{Peer, debug};
use gdbwire::push_frame;
use std::alloc::{AllocError, Global};
use timeline::Timeline;

/// How many frames a stream has.
const FRAMES: u32 = 12;

/// The most bytes that are heard at once.
const MOST_HEARD: usize = 64;

/// With what bodies begin.
const HEADS: [&[u8]; 40] = [
    b"?",
    b"g",
    b"p",
    b"m",
    b"M0,1:",
    b"X0,0:",
    b"G",
    b"P1=",
    b"Hgp",
    b"Hcp",
    b"Tp",
    b"D;",
    b"!",
    b"bs",
    b"bc",
    b"vCont;c",
    b"vCont;s:p",
    b"vCont;r",
    b"vCont;",
    b"vRun;",
    b"Z0,",
    b"Z1,",
    b"Z2,",
    b"Z3,",
    b"Z4,",
    b"z0,",
    b"z2,",
    b"z4,",
    b"Z0,2c,4;X",
    b"qRcmd,73746f702d6174206f757470757420",
    b"qRcmd,73746f702d6174206576656e7420",
    b"qRcmd,",
    b"qThreadExtraInfo,p",
    b"qXfer:features:read:target.xml:",
    b"qXfer:exec-file:read:",
    b"vFile:open:2f696e6974,",
    b"vFile:pread:",
    b"vFile:close:",
    b"vFile:fstat:",
    b"q",
];

/// What follows.
const TAILS: &[u8] = b"0123456789abcdef8c,;:.-pXcsr\x03#$}*+ ~\xff";

/// Numbers of a linear generator.
#[derive(Drop)]
struct Numbers {
    last: u64,
}

impl Numbers {
    // The next number, below another.
    fn below(&mut self, end: usize) -> usize {
        self.last = self
            .last
            .wrapping_mul(6_364_136_223_846_793_005)
            .wrapping_add(1_442_695_040_888_963_407);
        ((self.last >> 33) as usize).checked_rem(end).unwrap_or(0)
    }

    // One of some bytes.
    fn byte_of(&mut self, bytes: &[u8]) -> u8 {
        bytes.get(self.below(bytes.len())).copied().unwrap_or(0)
    }
}

// A body.
fn body_of(alloc: Global, numbers: &mut Numbers) -> Result<Vec<u8>, AllocError> {
    let mut body = Vec::new(alloc);
    if let Some(head) = HEADS.get(numbers.below(HEADS.len())) {
        body.extend_from_slice(*head)?;
    }
    for _byte in 0..numbers.below(12) {
        body.extend_from_slice(&[numbers.byte_of(TAILS)])?;
    }
    Ok(body)
}

// A stream, in which a byte may be another than it was.
fn stream_of(alloc: Global, seed: u64) -> Result<Vec<u8>, AllocError> {
    let mut numbers = Numbers { last: seed };
    let mut bytes = Vec::new(alloc);
    for _frame in 0..FRAMES {
        let body = body_of(alloc, &mut numbers)?;
        push_frame(body.as_slice(), &mut bytes)?;
    }
    let at = numbers.below(bytes.len());
    let other = numbers.byte_of(TAILS);
    if let Some(byte) = bytes.get_mut(at) {
        *byte = other;
    }
    Ok(bytes)
}

/// A debugger that sends bytes, whatever it is sent.
#[derive(Drop)]
struct Sender<'a> {
    /// The bytes that were not sent yet.
    bytes: &'a [u8],
}

impl Peer for Sender<'_> {
    fn hear(&mut self, bytes: &mut [u8]) -> usize {
        let (count, rest) = hear_next(self.bytes, MOST_HEARD, bytes);
        self.bytes = rest;
        count
    }

    fn say(&mut self, _bytes: &[u8]) -> bool {
        true
    }

    fn program(&mut self, _path: &[u8]) -> Option<Vec<u8>> {
        None
    }
}

// Plays the stream of a seed.
fn play(alloc: Global, timeline: &mut Timeline, seed: u64) -> anyhow::Result<()> {
    let bytes = stream_of(alloc, seed)?;
    let mut sender = Sender {
        bytes: bytes.as_slice(),
    };
    let count = timeline.count();
    debug(alloc, timeline, &mut sender)?;
    ensure!(sender.bytes.is_empty(), "stream {seed} ended");
    ensure!(
        timeline.count() == count,
        "stream {seed} changed the events"
    );
    Ok(())
}

/// Plays the streams of some seeds, one after the other with one machine: none ends before its end, and none changes
/// the events.
pub(crate) fn play_each(alloc: Global, from: u64, to: u64) -> anyhow::Result<()> {
    let mut timeline = start(alloc)?;
    for seed in from..=to {
        play(alloc, &mut timeline, seed)?;
    }
    Ok(())
}
