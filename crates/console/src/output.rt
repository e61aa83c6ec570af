//! Where the console's bytes go: a trait, and the output that any writer makes.
ghost use Rattle.std.specs.Prelude.{◌≡◌, ◌≤◌, List, ℕ, Option, OnOk, OnErr};
ghost use Rattle.std.specs.Io.KnownBytes.{Appends, Keeps};
ghost use Rattle.console.specs.Output.{AppendsBeginning};
ghost use Rattle.unixmodel.specs.Failures.{Rises};

use std::io::Write;
use thiserror::Error;

/// Why bytes were not put out.
#[derive(Clone, Copy, Debug, PartialEq, Eq, Error)]
pub enum OutFault {
    /// The writer failed, or took no byte.
    #[error("the writer failed")]
    Writer,
}

/// Takes bytes, in order.
pub trait Out {
    /// The bytes that it took, where they are known.
    ghost contents: { Self → Option (List ℕ) };

    /// How often it has failed. The count stops at the last number of a `u64`.
    ghost failures: { Self → ℕ };

    /// Takes all of the bytes. After an error it took a beginning of them, and the count of failures rose.
    fn put(&mut self, bytes: &[u8]) -> Result<(), OutFault>
        ensures ok { OnOk result (Appends (contents self.old) (contents self.new) bytes.now) }
        ensures err { OnErr result (AppendsBeginning (contents self.old) (contents self.new) bytes.now) }
        ensures later { failures self.old ≤ failures self.new }
        ensures cause { OnErr result (Rises (failures self.old) (failures self.new)) };
}

/// The output that a writer makes. It counts how often the writer failed: an error of the writer
/// is a failure, and so are bytes of which it took none.
#[derive(Drop)]
pub struct Writer<W> {
    inner: W,
    failed: u64,
}

impl<W: Write> Writer<W> {
    /// An output over the writer, which has not failed yet.
    pub fn new(inner: W) -> Self
        ensures inner { result.inner ≡ inner }
        ensures failed { result.failed ≡ 0 }
    {
        Writer { inner, failed: 0 }
    }

    /// How often the writer has failed, up to `u64::MAX`.
    pub fn failures(&self) -> u64
        ensures { result ≡ self.now.failed }
    {
        self.failed
    }

    /// Writes out what the writer kept back. The bytes that it took stay what they were; where that fails, it is a
    /// failure.
    pub fn flush(&mut self) -> Result<(), OutFault>
        ensures kept { Keeps (W.contents self.old.inner) (W.contents self.new.inner) }
        ensures later { self.old.failed ≤ self.new.failed }
        ensures cause { OnErr result (Rises self.old.failed self.new.failed) }
        ensures sound { OnOk result (self.new.failed ≡ self.old.failed) }
    {
        match self.inner.flush() {
            Ok(()) => Ok(()),
            Err(_) => {
                self.failed = self.failed.saturating_add(1);
                Err(OutFault::Writer)
            }
        }
    }

    /// The writer, to be looked at.
    pub fn get_ref(&self) -> &W
        ensures { result.now ≡ self.now.inner }
    {
        &self.inner
    }

    /// The writer.
    pub fn into_inner(self) -> W
        ensures { result ≡ self.inner }
    {
        let Writer { inner, failed: _ } = self;
        inner
    }
}

impl<W: Write> Out for Writer<W> {
    ghost contents = { λ w. W.contents w.inner };

    ghost failures = { λ w. w.failed };

    fn put(&mut self, bytes: &[u8]) -> Result<(), OutFault>
        ensures ok { OnOk result (Appends (W.contents self.old.inner) (W.contents self.new.inner) bytes.now) }
        ensures err { OnErr result
            (AppendsBeginning (W.contents self.old.inner) (W.contents self.new.inner) bytes.now) }
        ensures later { self.old.failed ≤ self.new.failed }
        ensures cause { OnErr result (Rises self.old.failed self.new.failed) }
        ensures sound { OnOk result (self.new.failed ≡ self.old.failed) }
    {
        let mut done = 0;
        while done < bytes.len() {
            let (_, rest) = bytes.split_at(done);
            match self.inner.write(rest) {
                Ok(count) if count > 0 => done += count,
                _ => {
                    self.failed = self.failed.saturating_add(1);
                    return Err(OutFault::Writer);
                }
            }
        }
        Ok(())
    }
}
