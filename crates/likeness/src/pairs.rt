//! Numbers of two kernels in pairs, which a comparison makes as it goes: each number is in one pair at most.
ghost use Rattle.std.specs.Prelude.{◌≡◌, None};
ghost use Rattle.std.specs.Bool.{OnTrue};
ghost use Rattle.files.specs.Meant.{file_of, target_of};
ghost use Rattle.likeness.specs.Pairing.{Grows, pairs_of};
ghost use Rattle.renumbering.specs.Pairs.{ArePairs, BothFit, EachFits, FilesFit, IsPair, TargetsFit};
ghost use Rattle.unixmodel.specs.Files.{slot};

use files::{OpenFile, Target};
use unixmodel::limits::OPEN_FILES;

/// The other number of each number of one kernel, and the way back.
#[derive(Clone, Copy, Debug)]
pub struct Pairs {
    there: [Option<usize>; OPEN_FILES],
    back: [Option<usize>; OPEN_FILES],
}

impl Pairs {
    /// No number is in a pair.
    pub fn none() -> Self
        ensures { ArePairs (pairs_of result) 100 }
    {
        Pairs {
            there: [None; OPEN_FILES],
            back: [None; OPEN_FILES],
        }
    }

    /// The other number of a number of the one kernel.
    pub fn there(&self, number: usize) -> Option<usize>
        ensures { result ≡ slot self.now.there number }
    {
        if number < OPEN_FILES {
            self.there[number]
        } else {
            None
        }
    }

    /// The other number of a number of the other kernel.
    pub fn back(&self, number: usize) -> Option<usize>
        ensures { result ≡ slot self.now.back number }
    {
        if number < OPEN_FILES {
            self.back[number]
        } else {
            None
        }
    }

    // Makes a pair of two numbers that are in none.
    fn add(&mut self, one: usize, other: usize) -> bool
        requires one { slot self.old.there one ≡ None }
        requires other { slot self.old.back other ≡ None }
        ensures grows { Grows self.old self.new }
        ensures pair { OnTrue result (IsPair (pairs_of self.new) one other) }
    {
        if one >= OPEN_FILES || other >= OPEN_FILES {
            return false;
        }
        self.there[one] = Some(other);
        self.back[other] = Some(one);
        true
    }

    /// Whether two numbers are a pair. If neither is in one, they are from now on.
    pub fn join(&mut self, one: usize, other: usize) -> bool
        ensures grows { Grows self.old self.new }
        ensures pair { OnTrue result (IsPair (pairs_of self.new) one other) }
    {
        if let Some(known) = self.there(one) {
            return known == other;
        }
        if self.back(other).is_some() {
            return false;
        }
        self.add(one, other)
    }
}

// Whether two descriptors name open files in a pair, or are both free.
fn fits_descriptor(files: &mut Pairs, one: Option<u8>, other: Option<u8>) -> bool
    ensures grows { Grows files.old files.new }
    ensures fits { OnTrue result (BothFit (IsPair (pairs_of files.new)) one other) }
{
    let Some(id) = one else {
        return other.is_none();
    };
    let Some(their) = other else {
        return false;
    };
    files.join(usize::from(id), usize::from(their))
}

/// Whether the descriptors of two processes name open files in pairs, one by one.
pub fn fit_descriptors(files: &mut Pairs, one: &[Option<u8>], other: &[Option<u8>]) -> bool
    ensures grows { Grows files.old files.new }
    ensures fits { OnTrue result (EachFits (IsPair (pairs_of files.new)) one.now other.now) }
{
    if other.len() != one.len() {
        return false;
    }
    for fd in 0..one.len() {
        if !fits_descriptor(files, one[fd], other[fd]) {
            return false;
        }
    }
    true
}

// Whether two open files that are on no pipe are on the same.
fn is_same_target(one: Target, other: Target) -> bool
    ensures { OnTrue result (one ≡ other) }
{
    one == other
}

// Whether two open files are on the same node at the same offset, or on the same end of pipes in a pair.
fn fits_target(pipes: &mut Pairs, one: Target, other: Target) -> bool
    ensures grows { Grows pipes.old pipes.new }
    ensures fits { OnTrue result (TargetsFit (pairs_of pipes.new) (target_of one) (target_of other)) }
{
    let Target::Pipe { pipe, end } = one else {
        return is_same_target(one, other);
    };
    let Target::Pipe {
        pipe: their,
        end: their_end,
    } = other
    else {
        return false;
    };
    if end != their_end {
        return false;
    }
    pipes.join(pipe, their)
}

/// Whether two open files are equal except for their pipes, which are in a pair.
pub fn fits_file(pipes: &mut Pairs, one: OpenFile, other: OpenFile) -> bool
    ensures grows { Grows pipes.old pipes.new }
    ensures fits { OnTrue result (FilesFit (pairs_of pipes.new) (file_of one) (file_of other)) }
{
    if one.readable != other.readable || one.writable != other.writable {
        return false;
    }
    fits_target(pipes, one.target, other.target)
}
