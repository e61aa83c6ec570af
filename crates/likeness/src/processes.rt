//! Whether two kernels have the same processes, each by its own clock, up to the numbers of open files.
ghost use Rattle.std.specs.Prelude.{◌≡◌, ◌<◌, Some, length, slice_get, true};
ghost use Rattle.std.specs.Bool.{OnTrue};
ghost use Rattle.digests.specs.Reads.{process_by};
ghost use Rattle.kernel.specs.Kernel.{state_of};
ghost use Rattle.likeness.specs.Likeness.{rights_of, with_descriptors_of};
ghost use Rattle.likeness.specs.Pairing.{Grows, pairs_of};
ghost use Rattle.renumbering.specs.Pairs.{BothFit, EachFits, ProcessesFit};
ghost use Rattle.schedules.specs.Alike.{timeless};
ghost use Rattle.spaces.specs.Spaces.{has_space, view_at};
ghost use Rattle.unixmodel.specs.State.{process_at};

use crate::pairs::{Pairs, fit_descriptors};
use blockdev::BlockDev;
use digests::process_by;
use kernel::Kernel;
use proc::Process;
use ram::FRAME_SIZE;
use spaces::Spaces;
use sv39::Translate;
use unixmodel::call::Call;
use unixmodel::limits::PROCESSES;
use unixmodel::process::{Mode, Pending};
use vm::Marks;

// Whether pages have the same marks.
fn has_same_marks(one: Marks, other: Marks) -> bool
    ensures { OnTrue result (rights_of one ≡ rights_of other) }
{
    one.perm == other.perm && one.shared == other.shared
}

// Whether two pages have the same bytes.
fn has_same_bytes(one: &[u8; FRAME_SIZE], other: &[u8; FRAME_SIZE]) -> bool
    ensures { OnTrue result (one.now ≡ other.now) }
{
    one.as_slice() == other.as_slice()
}

// Whether two slots' spaces have the same page with this number.
fn has_same_page<T: Translate, U: Translate>(
    one: &Spaces<T>,
    other: &Spaces<U>,
    at: usize,
    n: u64,
) -> bool
    requires one { has_space one.now at ≡ true }
    requires other { has_space other.now at ≡ true }
    ensures { OnTrue result (slice_get (view_at one.now at).memory n ≡ slice_get (view_at other.now at).memory n) }
{
    let Some((bytes, marks)) = one.kept_page(at, n) else {
        return false;
    };
    let Some((others, their)) = other.kept_page(at, n) else {
        return false;
    };
    if !has_same_marks(marks, their) {
        return false;
    }
    has_same_bytes(bytes, others)
}

// Whether they have the same pages.
fn has_same_memory<T: Translate, U: Translate>(
    one: &Spaces<T>,
    other: &Spaces<U>,
    at: usize,
) -> bool
    requires one { has_space one.now at ≡ true }
    requires other { has_space other.now at ≡ true }
    ensures { OnTrue result ((view_at one.now at).memory ≡ (view_at other.now at).memory) }
{
    let pages = one.pages(at);
    if other.pages(at) != pages {
        return false;
    }
    for n in 0..pages {
        if !has_same_page(one, other, at, n) {
            return false;
        }
    }
    true
}

// Whether two slots' spaces are the same.
fn has_same_space<T: Translate, U: Translate>(one: &Spaces<T>, other: &Spaces<U>, at: usize) -> bool
    requires one { has_space one.now at ≡ true }
    requires other { has_space other.now at ≡ true }
    ensures { OnTrue result (view_at one.now at ≡ view_at other.now at) }
{
    if one.size(at) != other.size(at) {
        return false;
    }
    has_same_memory(one, other, at)
}

// Whether two calls are the same.
fn is_same_call(one: Call, other: Call) -> bool
    ensures { OnTrue result (one ≡ other) }
{
    one == other
}

// Whether two lists of numbers are the same.
fn are_same_numbers(one: &[u64], other: &[u64]) -> bool
    ensures { OnTrue result (one.now ≡ other.now) }
{
    one == other
}

// Whether two pending calls are the same.
fn is_same_pending(one: Pending, other: Pending) -> bool
    ensures { OnTrue result (one ≡ other) }
{
    if one.done != other.done || one.since != other.since {
        return false;
    }
    if !is_same_call(one.number, other.number) {
        return false;
    }
    are_same_numbers(&one.args, &other.args)
}

// Whether two processes do the same.
fn is_same_mode(one: Mode, other: Mode) -> bool
    ensures { OnTrue result (one ≡ other) }
{
    match one {
        Mode::Running => matches!(other, Mode::Running),
        Mode::Ready => matches!(other, Mode::Ready),
        Mode::Waiting(pending) => {
            let Mode::Waiting(their) = other else {
                return false;
            };
            is_same_pending(pending, their)
        }
        Mode::Zombie(status) => {
            let Mode::Zombie(their) = other else {
                return false;
            };
            status == their
        }
    }
}

// Whether two processes are the same except for their descriptors, each by its own clock.
fn is_same_process(ticks: u32, process: Process, other_ticks: u32, other: Process) -> bool
    ensures { OnTrue result (process_by (Some other_ticks) other
        ≡ with_descriptors_of other (process_by (Some ticks) process)) }
{
    let one = process_by(Some(ticks), process);
    let two = process_by(Some(other_ticks), other);
    if one.pid != two.pid || one.parent != two.parent || one.pc != two.pc {
        return false;
    }
    if one.directory != two.directory || one.killed != two.killed {
        return false;
    }
    if !are_same_numbers(&one.registers, &two.registers) {
        return false;
    }
    is_same_mode(one.mode, two.mode)
}

// Whether two kernels have processes in a slot that are the same except for the numbers of open files, which are in
// pairs, or both have none.
fn fits_place<D: BlockDev, T: Translate, E: BlockDev, U: Translate>(
    files: &mut Pairs,
    one: &Kernel<D, T>,
    other: &Kernel<E, U>,
    at: usize,
) -> bool
    ensures grows { Grows files.old files.new }
    ensures fits { OnTrue result (BothFit (ProcessesFit (pairs_of files.new))
        (process_at (timeless (state_of one.now)) at) (process_at (timeless (state_of other.now)) at)) }
{
    let Some(process) = one.whole(at) else {
        return other.whole(at).is_none();
    };
    let Some(their) = other.whole(at) else {
        return false;
    };
    one.is_sound();
    other.is_sound();
    if !is_same_process(one.ticks(), process, other.ticks(), their) {
        return false;
    }
    if !has_same_space(one.spaces(), other.spaces(), at) {
        return false;
    }
    fit_descriptors(files, &process.descriptors, &their.descriptors)
}

/// Whether two kernels have the same processes, each by its own clock, whose descriptors name open files in pairs.
pub fn fit_places<D: BlockDev, T: Translate, E: BlockDev, U: Translate>(
    files: &mut Pairs,
    one: &Kernel<D, T>,
    other: &Kernel<E, U>,
) -> bool
    ensures grows { Grows files.old files.new }
    ensures fits { OnTrue result (EachFits (ProcessesFit (pairs_of files.new))
        (timeless (state_of one.now)).places (timeless (state_of other.now)).places) }
{
    one.is_sound();
    other.is_sound();
    for at in 0..PROCESSES {
        if !fits_place(files, one, other, at) {
            return false;
        }
    }
    true
}
