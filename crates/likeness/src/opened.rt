//! Whether two kernels have the same open files and pipes, up to their numbers, and the same typed bytes.
ghost use Rattle.std.specs.Prelude.{◌≡◌, ◌++◌, ◌<◌, ◌≤◌, ◌+◌, None, length, slice_index, ℕ};
ghost use Rattle.std.specs.Bool.{OnTrue};
ghost use Rattle.kernel.specs.Kernel.{state_of};
ghost use Rattle.likeness.specs.Pairing.{FitsAt, Grows, IsSame, pairs_of};
ghost use Rattle.renumbering.specs.Pairs.{ArePairs, BothFit, FilesFit, TablesFit};
ghost use Rattle.unixmodel.specs.Files.{slot};

use crate::pairs::{Pairs, fits_file};
use blockdev::BlockDev;
use console::Console;
use kernel::Kernel;
use sv39::Translate;
use unixmodel::limits::{OPEN_FILES, PIPES};

// Whether open files of two kernels are equal except for their pipes, which are in a pair, or both numbers are free.
fn fits_opened<D: BlockDev, T: Translate, E: BlockDev, U: Translate>(
    pipes: &mut Pairs,
    one: &Kernel<D, T>,
    other: &Kernel<E, U>,
    id: usize,
    their: usize,
) -> bool
    ensures grows { Grows pipes.old pipes.new }
    ensures fits { OnTrue result (BothFit (FilesFit (pairs_of pipes.new))
        (slot (state_of one.now).opens id) (slot (state_of other.now).opens their)) }
{
    let Some((file, _)) = one.opened(id) else {
        return other.opened(their).is_none();
    };
    let Some((their_file, _)) = other.opened(their) else {
        return false;
    };
    fits_file(pipes, file, their_file)
}

// Whether an open file fits the one in a pair with it, or its number is free and in no pair.
fn fits_open<D: BlockDev, T: Translate, E: BlockDev, U: Translate>(
    pipes: &mut Pairs,
    files: &Pairs,
    one: &Kernel<D, T>,
    other: &Kernel<E, U>,
    id: usize,
) -> bool
    ensures grows { Grows pipes.old pipes.new }
    ensures fits { OnTrue result (FitsAt (pairs_of files.now) (FilesFit (pairs_of pipes.new))
        (state_of one.now).opens (state_of other.now).opens id) }
{
    let Some(their) = files.there(id) else {
        return one.opened(id).is_none();
    };
    fits_opened(pipes, one, other, id, their)
}

// Whether a number of the other kernel is in a pair, or no open file has it.
fn is_file_paired<E: BlockDev, U: Translate>(files: &Pairs, other: &Kernel<E, U>, id: usize) -> bool
    ensures { OnTrue result (slot files.now.back id ≡ None → slot (state_of other.now).opens id ≡ None) }
{
    files.back(id).is_some() || other.opened(id).is_none()
}

// Whether each open file of the other kernel is in a pair.
fn are_files_paired<E: BlockDev, U: Translate>(files: &Pairs, other: &Kernel<E, U>) -> bool
    ensures { OnTrue result
        ((l : ℕ) → l < 100 → slot files.now.back l ≡ None → slot (state_of other.now).opens l ≡ None) }
{
    for id in 0..OPEN_FILES {
        if !is_file_paired(files, other, id) {
            return false;
        }
    }
    true
}

/// Whether all open files of two kernels are in pairs, of which each fits.
pub fn fit_opens<D: BlockDev, T: Translate, E: BlockDev, U: Translate>(
    pipes: &mut Pairs,
    files: &Pairs,
    one: &Kernel<D, T>,
    other: &Kernel<E, U>,
) -> bool
    requires { ArePairs (pairs_of files.now) 100 }
    ensures grows { Grows pipes.old pipes.new }
    ensures fits { OnTrue result (TablesFit (pairs_of files.now) (FilesFit (pairs_of pipes.new))
        (state_of one.now).opens (state_of other.now).opens) }
{
    one.is_sound();
    other.is_sound();
    for id in 0..OPEN_FILES {
        if !fits_open(pipes, files, one, other, id) {
            return false;
        }
    }
    are_files_paired(files, other)
}

// The byte at a place of two slices, of which the second follows the first.
fn byte_at(front: &[u8], behind: &[u8], k: usize) -> u8
    requires { k < length front.now + length behind.now }
    ensures { result ≡ slice_index (front.now ++ behind.now) k }
{
    if k < front.len() {
        front[k]
    } else {
        behind[k - front.len()]
    }
}

// Whether two slices, of which one follows the other, have the same bytes as two others.
fn has_same_bytes(front: &[u8], behind: &[u8], their_front: &[u8], their_behind: &[u8]) -> bool
    requires front { length front.now ≤ 512 }
    requires behind { length behind.now ≤ 512 }
    requires their_front { length their_front.now ≤ 512 }
    requires their_behind { length their_behind.now ≤ 512 }
    ensures { OnTrue result (front.now ++ behind.now ≡ their_front.now ++ their_behind.now) }
{
    let count = front.len() + behind.len();
    if their_front.len() + their_behind.len() != count {
        return false;
    }
    for k in 0..count {
        if byte_at(front, behind, k) != byte_at(their_front, their_behind, k) {
            return false;
        }
    }
    true
}

// Whether pipes of two kernels hold the same bytes, or both numbers are free.
fn has_same_pipe<D: BlockDev, T: Translate, E: BlockDev, U: Translate>(
    one: &Kernel<D, T>,
    other: &Kernel<E, U>,
    q: usize,
    their: usize,
) -> bool
    ensures { OnTrue result (slot (state_of one.now).pipes q ≡ slot (state_of other.now).pipes their) }
{
    let Some((front, behind)) = one.pipe(q) else {
        return other.pipe(their).is_none();
    };
    let Some((their_front, their_behind)) = other.pipe(their) else {
        return false;
    };
    if front.len() > 512
        || behind.len() > 512
        || their_front.len() > 512
        || their_behind.len() > 512
    {
        return false;
    }
    has_same_bytes(front, behind, their_front, their_behind)
}

// Whether a pipe holds the same bytes as the one in a pair with it, or its number is free and in no pair.
fn fits_pipe<D: BlockDev, T: Translate, E: BlockDev, U: Translate>(
    pipes: &Pairs,
    one: &Kernel<D, T>,
    other: &Kernel<E, U>,
    q: usize,
) -> bool
    ensures { OnTrue result
        (FitsAt (pairs_of pipes.now) IsSame (state_of one.now).pipes (state_of other.now).pipes q) }
{
    let Some(their) = pipes.there(q) else {
        return one.pipe(q).is_none();
    };
    has_same_pipe(one, other, q, their)
}

// Whether a number of the other kernel is in a pair, or no pipe has it.
fn is_pipe_paired<E: BlockDev, U: Translate>(pipes: &Pairs, other: &Kernel<E, U>, q: usize) -> bool
    ensures { OnTrue result (slot pipes.now.back q ≡ None → slot (state_of other.now).pipes q ≡ None) }
{
    pipes.back(q).is_some() || other.pipe(q).is_none()
}

// Whether each pipe of the other kernel is in a pair.
fn are_pipes_paired<E: BlockDev, U: Translate>(pipes: &Pairs, other: &Kernel<E, U>) -> bool
    ensures { OnTrue result
        ((l : ℕ) → l < 100 → slot pipes.now.back l ≡ None → slot (state_of other.now).pipes l ≡ None) }
{
    for q in 0..PIPES {
        if !is_pipe_paired(pipes, other, q) {
            return false;
        }
    }
    true
}

/// Whether all pipes of two kernels are in pairs, of which each holds the same bytes.
pub fn fit_pipes<D: BlockDev, T: Translate, E: BlockDev, U: Translate>(
    pipes: &Pairs,
    one: &Kernel<D, T>,
    other: &Kernel<E, U>,
) -> bool
    requires { ArePairs (pairs_of pipes.now) 100 }
    ensures { OnTrue result
        (TablesFit (pairs_of pipes.now) IsSame (state_of one.now).pipes (state_of other.now).pipes) }
{
    one.is_sound();
    other.is_sound();
    for q in 0..PIPES {
        if !fits_pipe(pipes, one, other, q) {
            return false;
        }
    }
    are_pipes_paired(pipes, other)
}

/// Whether two consoles have the same bytes.
pub fn has_same_typed(one: &Console, other: &Console) -> bool
    ensures { OnTrue result (one.now ≡ other.now) }
{
    let committed = one.committed_len();
    let edited = one.edited_len();
    if other.committed_len() != committed || other.edited_len() != edited {
        return false;
    }
    // Their contracts say that the bytes are few.
    let _can = one.can_take();
    let _they_can = other.can_take();
    for at in 0..committed + edited {
        if one.byte(at) != other.byte(at) {
            return false;
        }
    }
    true
}
