//! The digest of everything except the files.
ghost use Rattle.std.specs.Prelude.{◌≡◌, ◌∷◌, []};
ghost use Rattle.digests.specs.Digest.{by_clock, clock_by, digest_but_files, front_of, mixed, numberless_but_files};
ghost use Rattle.digests.specs.Digest.{processes_digest, start, status_number};
ghost use Rattle.schedules.specs.Alike.{timeless};
ghost use Rattle.kernel.specs.Kernel.{state_of};

use crate::mixing::mix_numbers;
use crate::named::mix_holders;
use crate::opened::{mix_console, mix_opens, mix_pipes};
use crate::processes::mix_places;
use blockdev::BlockDev;
use kernel::Kernel;
use proc::Table;
use sv39::Translate;

/// The digest of nothing.
const START: u64 = 0xCBF2_9CE4_8422_2325;

// How process 1 ended, as a number.
fn status_number(halted: Option<i32>) -> u64
    ensures { result ≡ status_number halted }
{
    match halted {
        None => 0,
        Some(status) => u64::from(status.cast_unsigned()) + 1,
    }
}

// The numbers that aren't of one process go in first.
fn mix_counts(ticks: u32, table: &Table, halted: Option<i32>) -> u64
    ensures { result ≡ mixed start (ticks ∷ table.now.next_pid ∷ table.now.last ∷ status_number halted ∷ []) }
{
    let numbers = [
        u64::from(ticks),
        u64::from(table.coming_pid()),
        table.last() as u64,
        status_number(halted),
    ];
    mix_numbers(START, &numbers)
}

// What a clock shows that is set back, or isn't.
fn clock_by(clock: Option<u32>, ticks: u32) -> u32
    ensures { result ≡ clock_by clock ticks }
{
    match clock {
        None => ticks,
        Some(_) => 0,
    }
}

// The same of a kernel.
fn mix_front<D: BlockDev, T: Translate>(kernel: &Kernel<D, T>, clock: Option<u32>) -> u64
    ensures { result ≡ mixed start (front_of (by_clock clock (state_of kernel.now))) }
{
    mix_counts(
        clock_by(clock, kernel.ticks()),
        kernel.table(),
        kernel.halted(),
    )
}

// The digest of a state, except open files, pipes and files, by a clock that is set back and without numbers, where it
// says what the clock shows.
fn digest_by<D: BlockDev, T: Translate>(kernel: &Kernel<D, T>, clock: Option<u32>) -> u64
    ensures { result ≡ processes_digest (by_clock clock (state_of kernel.now)) }
{
    let digest = mix_console(mix_front(kernel, clock), kernel.console());
    mix_places(digest, kernel, clock)
}

/// The digest of a state, except its files: they go in by `mix_files`.
pub fn digest_but_files<D: BlockDev, T: Translate>(kernel: &Kernel<D, T>) -> u64
    ensures { result ≡ digest_but_files (state_of kernel.now) }
{
    let digest = mix_opens(digest_by(kernel, None), kernel);
    mix_pipes(digest, kernel)
}

/// The same by a clock that is set back to 0, and without the numbers of open files and pipes: of the clock it has only
/// for how long each sleeper has slept, of each descriptor what it names.
pub fn timeless_but_files<D: BlockDev, T: Translate>(kernel: &Kernel<D, T>) -> u64
    ensures { result ≡ numberless_but_files (timeless (state_of kernel.now)) }
{
    let digest = digest_by(kernel, Some(kernel.ticks()));
    mix_holders(digest, kernel)
}
