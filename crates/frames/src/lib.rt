//! The frames of a memory: which are free, and how many hold each of the others.
//!
//! `Memory` is a memory with its frames: who takes frames, gives them back or writes tables is handed it whole, and who
//! only reads bytes is lent its `ram`.
#![tactic(auto)]

ghost use Rattle.std.specs.Prelude.{◌≡◌, ℕ, ◌+◌, ◌<◌, ◌≤◌, List, [], ◌∷◌, length, false, replicate, None, IfSome};
ghost use Rattle.std.specs.Prelude.{IfNone, IfOk, ◌↔◌};
ghost use Rattle.std.specs.Bool.{OnTrue, OnFalse};
ghost use Rattle.std.specs.List.{range_with_len};
ghost use Rattle.frames.specs.Free.{among, free_of, free_count, extra_of, further_at, IsDuplicate};
ghost use Rattle.frames.specs.Free.{IsFreeList, SameBut};
ghost use Rattle.frames.specs.Holders.{Gains, GivesBack, IsShared, Loses, Moves, holders_of};

mod memory;

pub use memory::Memory;
use ram::{FrameNo, NoMemory, Ram};
use std::alloc::{AllocError, Global};

/// The frames that nobody holds, and a count of holders for each frame.
///
/// The list of the free frames runs through the frames themselves, the one that was given back last first:
/// the first 4 bytes of each, lowest first, are the number of the next.
#[derive(Drop)]
pub struct Frames {
    first: FrameNo,
    // free frames in the list
    count: u32,
    // a count for each frame of the memory
    holders: Vec<u16>,
    // the sum, over all frames, of the holders beyond a frame's first
    shared: u32,
}

// A count of 1 for each of `n` frames. All memory for it is asked for at once.
fn one_holder_each(alloc: Global, n: u32) -> Result<Vec<u16>, AllocError>
    ensures { IfOk result (λ counts. counts.items ≡ replicate n 1) }
{
    let mut counts = Vec::with_capacity(alloc, n as usize)?;
    for _ in 0..n {
        counts.push(1)?;
    }
    Ok(counts)
}

impl Frames {
    /// Frees all frames of a memory; the lowest is taken first.
    ///
    /// It writes only where the list needs it, so their other bytes stay. The counts take 2 bytes a frame of the
    /// host: `NoMemory` where it has none for them.
    pub fn new(alloc: Global, ram: &mut Ram) -> Result<Frames, NoMemory>
        ensures all { IfOk result (λ s. free_of ram.new s ≡ range_with_len 0 (length ram.old)) }
        ensures valid { IfOk result (λ s. IsFreeList ram.new s) }
        // nobody holds a frame
        ensures shared { IfOk result (λ s. IsShared ram.new s []) }
        ensures count { length ram.new ≡ length ram.old }
    {
        let count = ram.frame_count();
        match one_holder_each(alloc, count) {
            Ok(holders) => Ok(Frames::free_all(ram, holders)),
            Err(_) => Err(NoMemory),
        }
    }

    // The same, where each frame has one holder, who gives it back.
    fn free_all(ram: &mut Ram, holders: Vec<u16>) -> Frames
        requires { holders.items ≡ replicate (length ram.old) 1 }
        ensures all { free_of ram.new result ≡ range_with_len 0 (length ram.old) }
        ensures valid { IsFreeList ram.new result }
        ensures shared { IsShared ram.new result [] }
        ensures count { length ram.new ≡ length ram.old }
    {
        let count = ram.frame_count();
        let mut frames = Frames {
            first: FrameNo(0),
            count: 0,
            holders,
            shared: 0,
        };
        for i in 0..count {
            frames.give(ram, FrameNo(count - 1 - i));
        }
        frames
    }

    /// The same free frames with the same holders, for a duplicate of the memory. It takes 2 bytes a frame of the host.
    pub fn duplicate(&self, alloc: Global) -> Result<Frames, NoMemory>
        ensures { IfOk result (IsDuplicate self.now) }
    {
        match Vec::from_slice(alloc, self.holders.as_slice()) {
            Ok(holders) => Ok(Frames {
                first: self.first,
                count: self.count,
                holders,
                shared: self.shared,
            }),
            Err(_) => Err(NoMemory),
        }
    }

    /// Becomes the same free frames with the same holders, for a copy of the memory.
    pub fn copy_from(&mut self, source: &Frames)
        requires { length self.old.holders.items ≡ length source.now.holders.items }
        ensures { IsDuplicate source.now self.new }
    {
        self.first = source.first;
        self.count = source.count;
        self.holders.copy_from_slice(source.holders.as_slice());
        self.shared = source.shared;
    }

    /// How many frames could be taken still, if each holder had frames of its own: all frames, less the sum of
    /// all counts of holders.
    pub fn free(&self) -> u32
        ensures { (m : List (List ℕ)) → free_count m self.now ≡ result }
    {
        self.count.saturating_sub(self.shared)
    }

    /// How many hold a frame; 0 where it is free.
    pub fn holders(&self, ram: &Ram, frame: FrameNo) -> u32
        requires valid { IsFreeList ram.now self.now }
        requires inside { frame.0 < length ram.now }
        ensures { result ≡ holders_of ram.now self.now frame.0 }
    {
        u32::from(self.holders[frame.0 as usize])
    }

    // Takes the first frame of the list.
    fn pop(&mut self, ram: &Ram) -> FrameNo
        requires valid { IsFreeList ram.now self.old }
        requires some { 0 < free_count ram.now self.old }
        ensures some { free_of ram.now self.old ≡ result.0 ∷ free_of ram.now self.new }
        ensures extra { extra_of self.new ≡ extra_of self.old }
        ensures valid { IsFreeList ram.now self.new }
    {
        let taken = self.first;
        self.first = FrameNo(ram.load_u32(taken, 0));
        self.count -= 1;
        self.holders[taken.0 as usize] = 1;
        taken
    }

    /// Takes the first free frame, whose bytes may be anything, for its first holder; `None` exactly where `free` is 0,
    /// and then nothing changed.
    pub fn take(&mut self, ram: &Ram) -> Option<FrameNo>
        requires { IsFreeList ram.now self.old }
        ensures some { IfSome result (λ f. free_of ram.now self.old ≡ f.0 ∷ free_of ram.now self.new) }
        ensures none { result ≡ None ↔ free_count ram.now self.old ≡ 0 }
        ensures unchanged { IfNone result (self.new ≡ self.old) }
        ensures extra { extra_of self.new ≡ extra_of self.old }
        ensures valid { IsFreeList ram.now self.new }
    {
        if self.free() == 0 {
            return None;
        }
        Some(self.pop(ram))
    }

    /// Adds a holder to a frame that has one. `false` where `free` is 0: then nothing changed.
    pub fn share(&mut self, ram: &Ram, frame: FrameNo) -> bool
        requires valid { IsFreeList ram.now self.old }
        requires held { 0 < holders_of ram.now self.old frame.0 }
        ensures done { OnTrue result (Gains ram.now ram.now self.old self.new (frame.0 ∷ [])) }
        ensures fewer { OnTrue result (free_count ram.now self.old ≡ free_count ram.now self.new + 1) }
        ensures refused { OnFalse result ((free_count ram.now self.old ≡ 0) × (self.new ≡ self.old)) }
        ensures list { free_of ram.now self.new ≡ free_of ram.now self.old }
        ensures valid { IsFreeList ram.now self.new }
    {
        ram.frames_are_whole();
        if self.free() == 0 {
            return false;
        }
        self.holders[frame.0 as usize] += 1;
        self.shared += 1;
        true
    }

    // Takes a holder away from a frame that has more than one.
    fn unshare(&mut self, ram: &Ram, frame: FrameNo)
        requires valid { IsFreeList ram.now self.old }
        requires shared { 0 < further_at self.old frame.0 }
        ensures holders { Loses ram.now ram.now self.old self.new (frame.0 ∷ []) }
        ensures more { free_count ram.now self.new ≡ free_count ram.now self.old + 1 }
        ensures list { free_of ram.now self.new ≡ free_of ram.now self.old }
        ensures valid { IsFreeList ram.now self.new }
    {
        self.holders[frame.0 as usize] -= 1;
        self.shared -= 1;
    }

    // Gives back a frame whose last holder goes.
    fn push(&mut self, ram: &mut Ram, frame: FrameNo)
        requires valid { IsFreeList ram.old self.old }
        requires inside { frame.0 < length ram.old }
        requires held { among frame.0 (free_of ram.old self.old) ≡ false }
        requires last { further_at self.old frame.0 ≡ 0 }
        ensures free { free_of ram.new self.new ≡ frame.0 ∷ free_of ram.old self.old }
        ensures extra { extra_of self.new ≡ extra_of self.old }
        ensures valid { IsFreeList ram.new self.new }
        ensures others { SameBut (frame.0 ∷ []) ram.old ram.new }
    {
        ram.frames_are_whole();
        ram.store_u32(frame, 0, self.first.0);
        self.first = frame;
        self.count += 1;
        self.holders[frame.0 as usize] = 0;
    }

    /// Takes a holder away from a frame. With its last one the frame is free, is taken first from then on, and its
    /// first 4 bytes are written.
    pub fn give(&mut self, ram: &mut Ram, frame: FrameNo)
        requires valid { IsFreeList ram.old self.old }
        requires inside { frame.0 < length ram.old }
        requires held { among frame.0 (free_of ram.old self.old) ≡ false }
        ensures { GivesBack ram.old ram.new self.old self.new frame.0 }
    {
        if self.holders[frame.0 as usize] > 1 {
            self.unshare(ram, frame);
        } else {
            self.push(ram, frame);
        }
    }

    /// Takes a holder away from a frame that has two or more, and gives that holder a free frame instead.
    /// Its bytes may be anything. There always is one, and `free` stays.
    pub fn split(&mut self, ram: &Ram, frame: FrameNo) -> FrameNo
        requires valid { IsFreeList ram.now self.old }
        requires shared { 2 ≤ holders_of ram.now self.old frame.0 }
        ensures holders { Moves ram.now ram.now self.old self.new (frame.0 ∷ []) (result.0 ∷ []) }
        ensures taken { free_of ram.now self.old ≡ result.0 ∷ free_of ram.now self.new }
        ensures same { free_count ram.now self.new ≡ free_count ram.now self.old }
        ensures valid { IsFreeList ram.now self.new }
    {
        self.unshare(ram, frame);
        self.pop(ram)
    }
}
