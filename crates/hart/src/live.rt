//! Which frames have pages.
ghost use Rattle.std.specs.Prelude.{◌≡◌, ◌<◌, ◌%◌, ◌==◌, replicate, slice_index, slice_set};

/// How many sets of frames have their words decoded.
pub const SETS: usize = 32;

/// How many pages a set has.
pub const WAYS: usize = 4;

/// Frames of which pages are known: of each number modulo 32 at most one, that of the page used last.
#[derive(Drop)]
pub struct Live {
    frames: [u32; SETS],
}

impl Live {
    /// None of them.
    #[inline(always)]
    pub fn new() -> Live
        ensures { result.frames ≡ replicate 32 4294967295 }
    {
        Live {
            frames: [u32::MAX; SETS],
        }
    }

    /// Whether a frame's page is known.
    #[inline(always)]
    pub fn has(&self, frame: u32) -> bool
        ensures { result ≡ (slice_index self.now.frames (frame % 32) == frame) }
    {
        self.frames[(frame % 32) as usize] == frame
    }

    /// Forgets all pages but that of a frame.
    #[cold]
    #[inline(never)]
    pub fn keep_only(&mut self, frame: u32)
        ensures { self.new.frames ≡ slice_set (replicate 32 4294967295) (frame % 32) frame }
    {
        self.frames = [u32::MAX; SETS];
        self.note(frame);
    }

    /// Takes a frame's page as known.
    #[inline(always)]
    pub fn note(&mut self, frame: u32)
        ensures { self.new.frames ≡ slice_set self.old.frames (frame % 32) frame }
    {
        self.frames[(frame % 32) as usize] = frame;
    }
}

/// The pages of frames whose numbers are the same modulo 32.
#[derive(Clone, Copy)]
pub struct Set {
    /// The frame of each page.
    pub frames: [u32; WAYS],
    /// Which page was used last.
    pub last: usize,
    ghost within: { last < 4 },
}

impl Set {
    /// Makes the page for a frame the last: the one that it has, or else the one after the last, which it then gets.
    #[inline(always)]
    pub fn choose(&mut self, frame: u32) {
        if let Some(way) = self.frames.iter().position(|held| *held == frame) {
            self.last = way;
            return;
        }
        self.last = (self.last + 1) % WAYS;
        self.frames[self.last] = frame;
    }
}
