//! Physical memory: a list of frames of 4096 bytes.
//!
//! A frame is named by its number, from 0 on, and a byte by its offset in the frame.
//! A number in memory has its lowest byte first, as in RISC-V.
//! Only `Ram::new` and `Ram::duplicate` take memory of the host.
#![tactic(auto)]

ghost use Rattle.std.specs.Prelude.{◌≡◌, ◌≢◌, ℕ, ◌+◌, ◌*◌, ◌^◌, ◌<◌, ◌≤◌, List, length, replicate, slice_set};
ghost use Rattle.std.specs.Prelude.{slice_range, slice_index_or, IfOk};
ghost use Rattle.std.specs.Borrow.{sem};
ghost use Rattle.ram.specs.Memory.{frame_of, put, put_bytes, word_of, word_bytes, IsMemory};

mod lanes;

use byteorder::{ByteOrder, LittleEndian};
use std::alloc::{AllocError, Global};
use std::marker::Model;
use thiserror::Error;

/// Bytes in a frame.
pub const FRAME_SIZE: usize = 4096;

/// The number of a frame.
#[derive(Clone, Copy, PartialEq, Eq, Debug)]
pub struct FrameNo(pub u32);

/// The host has no memory for the frames.
#[derive(Clone, Copy, PartialEq, Eq, Debug, Error)]
#[error("no memory")]
pub struct NoMemory;

/// The frames of a machine. In contracts it is the list of its frames, each a list of 4096 bytes.
#[derive(Drop)]
pub struct Ram {
    frames: Vec<[u8; FRAME_SIZE]>,
}

impl Model for Ram {
    ghost use Rattle.std.specs.Prelude.{List, ℕ, length, ◌≤◌};

    ghost Value = { List (List ℕ) };

    ghost use Rattle.std.specs.Prelude.{map};
    ghost use Rattle.ram.specs.Memory.{sized};

    ghost view = { λ r. map sized r.frames.items };

    ghost invariant = { λ r. length r.frames.items ≤ 32768 };
}

// A frame's length, which the check reads off its type.
#[inline]
fn whole(bytes: &[u8; FRAME_SIZE])
    ensures { length bytes.now ≡ 4096 }
{}

// The bytes of a frame that holds nothing.
#[inline]
fn zeros() -> [u8; FRAME_SIZE]
    ensures { result ≡ replicate 4096 0 }
{
    [0; FRAME_SIZE]
}

// `n` frames of zeros. All their memory is asked for at once.
fn zero_frames(alloc: Global, n: u32) -> Result<Vec<[u8; FRAME_SIZE]>, AllocError>
    ensures { IfOk result (λ frames. frames.items ≡ replicate n (replicate 4096 0)) }
{
    let mut frames = Vec::with_capacity(alloc, n as usize)?;
    for _ in 0..n {
        frames.push(zeros())?;
    }
    Ok(frames)
}

// Copies `len` bytes of a frame, from offset `i` on, to offset `j` of another.
#[inline]
fn copy_bytes(from: &[u8; FRAME_SIZE], i: usize, to: &mut [u8; FRAME_SIZE], j: usize, len: usize)
    requires i { i + len ≤ 4096 }
    requires j { j + len ≤ 4096 }
    ensures value { to.new ≡ put_bytes to.old j (slice_range from.now i (i + len)) }
    ensures from { length from.now ≡ 4096 }
    ensures to { length to.old ≡ 4096 }
{
    to[j..j + len].copy_from_slice(&from[i..i + len]);
}

// The same for two frames of a list.
#[inline]
fn copy_between(
    frames: &mut [[u8; FRAME_SIZE]],
    from: usize,
    i: usize,
    to: usize,
    j: usize,
    len: usize,
)
    requires from { from < length frames.old }
    requires to { to < length frames.old }
    requires apart { from ≢ to }
    requires i { i + len ≤ 4096 }
    requires j { j + len ≤ 4096 }
    ensures value { frames.new ≡ slice_set frames.old to (put_bytes (frame_of frames.old to) j
        (slice_range (frame_of frames.old from) i (i + len))) }
    ensures from { length (frame_of frames.old from) ≡ 4096 }
    ensures to { length (frame_of frames.old to) ≡ 4096 }
{
    if from < to {
        let (low, high) = frames.split_at_mut(to);
        copy_bytes(&low[from], i, &mut high[0], j, len);
    } else {
        let (low, high) = frames.split_at_mut(from);
        copy_bytes(&high[0], i, &mut low[to], j, len);
    }
}

// Copies a frame of a list to another.
#[inline]
fn copy_frame(frames: &mut [[u8; FRAME_SIZE]], from: usize, to: usize)
    requires from { from < length frames.old }
    requires to { to < length frames.old }
    requires apart { from ≢ to }
    ensures value { frames.new ≡ slice_set frames.old to (frame_of frames.old from) }
    ensures from { length (frame_of frames.old from) ≡ 4096 }
{
    if from < to {
        let (low, high) = frames.split_at_mut(to);
        lanes::copy(&low[from], &mut high[0]);
    } else {
        let (low, high) = frames.split_at_mut(from);
        lanes::copy(&high[0], &mut low[to]);
    }
}

impl Ram {
    ghost use Rattle.ram.specs.Lending.{LendsFrame};

    /// A memory of `n` frames, at most 32768, with all bytes 0. It takes `n * 4096` bytes of the host.
    pub fn new(alloc: Global, n: u32) -> Result<Ram, NoMemory>
        requires { n ≤ 32768 }
        ensures { IfOk result (λ r. r ≡ replicate n (replicate 4096 0)) }
    {
        match zero_frames(alloc, n) {
            Ok(frames) => Ok(Ram { frames }),
            Err(_) => Err(NoMemory),
        }
    }

    /// A memory of its own with the same bytes. It takes as much of the host: all of it is asked for at once.
    pub fn duplicate(&self, alloc: Global) -> Result<Ram, NoMemory>
        ensures { IfOk result (λ r. r ≡ self.now) }
    {
        match Vec::from_slice(alloc, self.frames.as_slice()) {
            Ok(frames) => Ok(Ram { frames }),
            Err(_) => Err(NoMemory),
        }
    }

    /// Becomes a memory with the same bytes as one of as many frames, in the memory of the host that it has.
    pub fn copy_from(&mut self, source: &Ram)
        requires { length self.old ≡ length source.now }
        ensures { self.new ≡ source.now }
    {
        self.frames.copy_from_slice(source.frames.as_slice());
    }

    /// How many frames there are.
    #[inline]
    pub fn frame_count(&self) -> u32
        ensures count { result ≡ length self.now }
        ensures small { length self.now ≤ 32768 }
        ensures memory { IsMemory self.now }
    {
        self.frames.len() as u32
    }

    /// A law: there are at most 32768 frames, each of 4096 bytes. It runs no code.
    #[inline]
    pub fn frames_are_whole(&self)
        ensures small { length self.now ≤ 32768 }
        ensures memory { IsMemory self.now }
    {
        let _frames = &self.frames;
    }

    /// The bytes of a frame.
    #[inline]
    pub fn frame(&self, f: FrameNo) -> &[u8; FRAME_SIZE]
        requires { f.0 < length self.now }
        ensures { result.now ≡ frame_of self.now f.0 }
    {
        let frame = &self.frames[f.0 as usize];
        whole(frame);
        frame
    }

    /// The bytes of a frame, to be written.
    #[inline]
    pub fn frame_mut(&mut self, f: FrameNo) -> &mut [u8; FRAME_SIZE]
        requires { f.0 < length self.old }
        ensures* writes_back { sem 𝓛 (LendsFrame self.entry f.0 result) }
        ensures value { result.now ≡ frame_of self.old f.0 }
    {
        whole(&self.frames[f.0 as usize]);
        &mut self.frames[f.0 as usize]
    }

    /// The number of 1 byte at offset `at` of a frame.
    #[inline]
    #[tactic(auto, unfolding(crate::specs::Memory::word_of))]
    pub fn load_u8(&self, f: FrameNo, at: usize) -> u8
        requires frame { f.0 < length self.now }
        requires place { at + 1 ≤ 4096 }
        ensures { result ≡ word_of self.now f.0 at 1 }
    {
        self.frame(f)[at]
    }

    /// The number of 2 bytes at offset `at` of a frame.
    #[inline]
    #[tactic(auto, unfolding(crate::specs::Memory::word_of))]
    pub fn load_u16(&self, f: FrameNo, at: usize) -> u16
        requires frame { f.0 < length self.now }
        requires place { at + 2 ≤ 4096 }
        ensures { result ≡ word_of self.now f.0 at 2 }
    {
        let frame = self.frame(f);
        LittleEndian::read_u16(&frame[at..])
    }

    /// The number of 4 bytes at offset `at` of a frame.
    #[inline]
    #[tactic(auto, unfolding(crate::specs::Memory::word_of))]
    pub fn load_u32(&self, f: FrameNo, at: usize) -> u32
        requires frame { f.0 < length self.now }
        requires place { at + 4 ≤ 4096 }
        ensures { result ≡ word_of self.now f.0 at 4 }
    {
        let frame = self.frame(f);
        LittleEndian::read_u32(&frame[at..])
    }

    /// The number of 8 bytes at offset `at` of a frame.
    #[inline]
    #[tactic(auto, unfolding(crate::specs::Memory::word_of))]
    pub fn load_u64(&self, f: FrameNo, at: usize) -> u64
        requires frame { f.0 < length self.now }
        requires place { at + 8 ≤ 4096 }
        ensures { result ≡ word_of self.now f.0 at 8 }
    {
        let frame = self.frame(f);
        LittleEndian::read_u64(&frame[at..])
    }

    /// Puts a number as 1 byte at offset `at` of a frame.
    #[inline]
    pub fn store_u8(&mut self, f: FrameNo, at: usize, x: u8)
        requires frame { f.0 < length self.old }
        requires place { at + 1 ≤ 4096 }
        ensures { self.new ≡ put self.old f.0 at (word_bytes 1 x) }
    {
        whole(&self.frames[f.0 as usize]);
        let frame = &mut self.frames[f.0 as usize];
        frame[at] = x;
    }

    /// Puts a number as 2 bytes at offset `at` of a frame.
    #[inline]
    pub fn store_u16(&mut self, f: FrameNo, at: usize, x: u16)
        requires frame { f.0 < length self.old }
        requires place { at + 2 ≤ 4096 }
        ensures { self.new ≡ put self.old f.0 at (word_bytes 2 x) }
    {
        whole(&self.frames[f.0 as usize]);
        let frame = &mut self.frames[f.0 as usize];
        LittleEndian::write_u16(&mut frame[at..], x);
    }

    /// Puts a number as 4 bytes at offset `at` of a frame.
    #[inline]
    pub fn store_u32(&mut self, f: FrameNo, at: usize, x: u32)
        requires frame { f.0 < length self.old }
        requires place { at + 4 ≤ 4096 }
        ensures { self.new ≡ put self.old f.0 at (word_bytes 4 x) }
    {
        whole(&self.frames[f.0 as usize]);
        let frame = &mut self.frames[f.0 as usize];
        LittleEndian::write_u32(&mut frame[at..], x);
    }

    /// Puts a number as 8 bytes at offset `at` of a frame.
    #[inline]
    pub fn store_u64(&mut self, f: FrameNo, at: usize, x: u64)
        requires frame { f.0 < length self.old }
        requires place { at + 8 ≤ 4096 }
        ensures { self.new ≡ put self.old f.0 at (word_bytes 8 x) }
    {
        whole(&self.frames[f.0 as usize]);
        let frame = &mut self.frames[f.0 as usize];
        LittleEndian::write_u64(&mut frame[at..], x);
    }

    /// Makes all bytes of a frame 0.
    pub fn zero(&mut self, f: FrameNo)
        requires { f.0 < length self.old }
        ensures { self.new ≡ slice_set self.old f.0 (replicate 4096 0) }
    {
        lanes::clear(&mut self.frames[f.0 as usize]);
    }

    /// Copies all bytes of a frame to another, or to itself.
    pub fn copy(&mut self, from: FrameNo, to: FrameNo)
        requires from { from.0 < length self.old }
        requires to { to.0 < length self.old }
        ensures { self.new ≡ slice_set self.old to.0 (frame_of self.old from.0) }
    {
        if from.0 != to.0 {
            copy_frame(&mut self.frames, from.0 as usize, to.0 as usize);
        }
    }

    /// Copies `len` bytes of a frame, from offset `i` on, to offset `j` of another one.
    #[inline]
    pub fn copy_part(&mut self, from: FrameNo, i: usize, to: FrameNo, j: usize, len: usize)
        requires from { from.0 < length self.old }
        requires to { to.0 < length self.old }
        requires apart { from.0 ≢ to.0 }
        requires i { i + len ≤ 4096 }
        requires j { j + len ≤ 4096 }
        ensures { self.new ≡ put self.old to.0 j (slice_range (frame_of self.old from.0) i (i + len)) }
    {
        copy_between(&mut self.frames, from.0 as usize, i, to.0 as usize, j, len);
    }
}
