//! What is kept of each pipe: who put the bytes that nobody has read.

use arrayvec::ArrayVec;

/// The most writes of a pipe whose bytes are kept apart; those of further ones have no arrow.
const MOST_WRITES: usize = 16;

/// The bytes of a write that nobody has read.
#[derive(Clone, Copy, Default)]
pub struct Put {
    /// How many are left.
    pub left: usize,
    /// Where an arrow leaves, if there is to be one: its time and the process.
    pub arrow: Option<(u64, u32)>,
}

/// A pipe, as it was at the last event.
#[derive(Drop)]
pub struct PipeTrack {
    /// How many bytes it has.
    pub level: usize,
    puts: ArrayVec<Put, MOST_WRITES>,
}

impl PipeTrack {
    /// An empty pipe.
    pub(crate) fn new() -> PipeTrack {
        PipeTrack {
            level: 0,
            puts: ArrayVec::new(),
        }
    }

    /// Forgets all bytes.
    pub(crate) fn clear(&mut self) {
        self.level = 0;
        self.puts.clear();
    }

    /// Notes that `count` bytes were put.
    pub(crate) fn put(&mut self, count: usize, arrow: Option<(u64, u32)>) {
        self.level = self.level.saturating_add(count);
        if self.puts.try_push(Put { left: count, arrow }).is_err()
            && let Some(last) = self.puts.last_mut()
        {
            last.left = last.left.saturating_add(count);
            last.arrow = None;
        }
    }

    // Takes at most `count` bytes of the oldest write. Returns how many, and the write, if they were its last.
    fn take_oldest(&mut self, count: usize) -> (usize, Option<Put>) {
        let Some(oldest) = self.puts.first_mut() else {
            return (count, None);
        };
        let taken = oldest.left.min(count);
        oldest.left = oldest.left.saturating_sub(taken);
        if oldest.left > 0 || self.puts.is_empty() {
            return (taken, None);
        }
        (taken, Some(self.puts.remove(0)))
    }

    /// Notes that `count` bytes were taken, and returns the writes whose last byte was among them.
    pub(crate) fn take(&mut self, count: usize) -> ArrayVec<Put, MOST_WRITES> {
        self.level = self.level.saturating_sub(count);
        let mut read = ArrayVec::new();
        let mut left = count;
        for _put in 0..=MOST_WRITES {
            if left == 0 {
                break;
            }
            let (taken, put) = self.take_oldest(left);
            left = left.saturating_sub(taken);
            if let Some(put) = put {
                let _ = read.try_push(put);
            }
        }
        read
    }
}
