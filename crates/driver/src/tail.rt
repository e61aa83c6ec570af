//! An output that remembers its last bytes.
ghost use Rattle.std.specs.Prelude.{[], IfOk, IfSome, MatchBool, MatchResult, OnErr, OnOk, ◌++◌, ◌<◌, ◌∷◌, ◌≡◌, ◌≤◌};
ghost use Rattle.std.specs.Prelude.{length, option_map, take};
ghost use Rattle.std.specs.Io.KnownBytes.{Appends, Keeps};
ghost use Rattle.driver.specs.Goals.{EndsWith, last_bytes};
ghost use Rattle.driver.specs.Tails.{shown_of, written_of};
ghost use Rattle.unixmodel.specs.Failures.{Rises};

use arrayvec::ArrayVec;
use console::{Out, OutFault};
use events::MOST_SHOWN;
use std::io::Write;
use std::marker::Model;

/// How many bytes are kept at most, of which the last 64 are asked for: older ones go many at a time, which is seldom.
const KEPT: usize = 1024;

/// The output that a writer makes, as `console::Writer` is one, of which the last bytes are remembered.
#[derive(Drop)]
pub struct Tail<W: Write> {
    inner: W,
    failed: u64,
    // How many bytes it took, and the last 64 of them, maybe after older ones.
    count: u64,
    last: ArrayVec<u8, KEPT>,
}

impl<W: Write> Model for Tail<W> {
    ghost use Rattle.driver.specs.Driven.{Printed};
    ghost use Rattle.driver.specs.Goals.{last_bytes};
    ghost use Rattle.driver.specs.Tails.{remembered};

    ghost Value = { Printed };

    ghost view = { λ t. record {
      contents = remembered (W.contents t.inner) t.count (last_bytes 64 t.last.items);
      failed = t.failed;
    } };
}

// Forgets all but the last 64 bytes.
#[inline(never)]
fn forget(last: &mut ArrayVec<u8, KEPT>)
    ensures { last.new.items ≡ last_bytes 64 last.old.items }
{
    let older = last.len().saturating_sub(MOST_SHOWN);
    let left = last.len() - older;
    last.as_mut_slice().copy_within(older.., 0);
    last.truncate(left);
}

// Remembers bytes after the others.
fn remember(last: &mut ArrayVec<u8, KEPT>, bytes: &[u8])
    ensures { last_bytes 64 last.new.items ≡ last_bytes 64 (last.old.items ++ bytes.now) }
{
    let (_, newest) = bytes.split_at(bytes.len().saturating_sub(MOST_SHOWN));
    if newest.len() > KEPT - last.len() {
        forget(last);
    }
    if let [byte] = newest {
        last.push(*byte);
        return;
    }
    last.try_extend_from_slice(newest).unwrap();
}

impl<W: Write> Tail<W> {
    /// An output over a writer, which has put out nothing yet.
    pub fn new(inner: W) -> Self
        ensures written { written_of result.contents ≡ W.contents inner }
        ensures shown { shown_of result.contents ≡ option_map (λ bytes. []) (W.contents inner) }
        ensures failed { result.failed ≡ 0 }
    {
        Tail {
            inner,
            failed: 0,
            count: 0,
            last: ArrayVec::new(),
        }
    }

    /// The writer, and how often it has failed, up to `u64::MAX`.
    pub fn into_parts(self) -> (W, u64)
        ensures contents { Keeps (written_of self.contents) (W.contents result.0) }
        ensures failed { result.1 ≡ self.failed }
    {
        let Tail { inner, failed, .. } = self;
        (inner, failed)
    }

    /// Writes out what the writer kept back. What it doesn't take it is asked for again.
    pub fn flush(&mut self) -> Result<(), OutFault>
        ensures kept { Keeps self.old.contents self.new.contents }
        ensures later { self.old.failed ≤ self.new.failed }
        ensures cause { OnErr result (Rises self.old.failed self.new.failed) }
        ensures sound { OnOk result (self.new.failed ≡ self.old.failed) }
    {
        match self.inner.flush() {
            Ok(()) => Ok(()),
            Err(_) => {
                self.failed = self.failed.saturating_add(1);
                Err(OutFault::Writer)
            }
        }
    }

    // Hands bytes to the writer, and returns how many it took. It takes 2^64 - 1 bytes in all, and fails then.
    #[inline(always)]
    fn write(&mut self, bytes: &[u8]) -> Result<usize, OutFault>
        ensures some { IfOk result (λ count. (0 < count) × (count ≤ length bytes.now)) }
        ensures takes { MatchResult result (λ count. Appends self.old.contents self.new.contents (take count bytes.now))
            (λ fault. Keeps self.old.contents self.new.contents) }
        ensures later { self.old.failed ≤ self.new.failed }
        ensures cause { OnErr result (Rises self.old.failed self.new.failed) }
    {
        let room = u64::MAX - self.count;
        let is_over = bytes.len() as u64 > room;
        if is_over {
            self.failed = self.failed.saturating_add(1);
            return Err(OutFault::Writer);
        }
        match self.inner.write(bytes) {
            Ok(count) if count > 0 => {
                let (taken, _) = bytes.split_at(count);
                remember(&mut self.last, taken);
                self.count += count as u64;
                Ok(count)
            }
            _ => {
                self.failed = self.failed.saturating_add(1);
                Err(OutFault::Writer)
            }
        }
    }

    /// Whether the last bytes that were put out are these.
    pub fn ends_with(&self, bytes: &[u8]) -> bool
        requires { length bytes.now ≤ 64 }
        ensures { IfSome (shown_of self.now.contents)
            (λ all. MatchBool result (EndsWith bytes.now all) (¬ EndsWith bytes.now all)) }
    {
        self.last.as_slice().ends_with(bytes)
    }
}

impl<W: Write> Out for Tail<W> {
    ghost contents = { λ t. t.contents };

    ghost failures = { λ t. t.failed };

    #[inline(always)]
    fn put(&mut self, bytes: &[u8]) -> Result<(), OutFault> {
        let mut done = 0;
        while done < bytes.len() {
            let (_, rest) = bytes.split_at(done);
            done += self.write(rest)?;
        }
        Ok(())
    }
}
