//! How processes go into a digest.
ghost use Rattle.std.specs.Prelude.{◌≡◌, [], slice_get, true};
ghost use Rattle.digests.specs.Digest.{bare_mixed, descriptor_number, descriptors_mixed, memory_mixed, mixed};
ghost use Rattle.digests.specs.Digest.{by_clock, mode_by, mode_numbers, page_or_same, place_mixed, places_mixed};
ghost use Rattle.digests.specs.Digest.{waiting_number};
ghost use Rattle.digests.specs.Reads.{bare_by, process_by};
ghost use Rattle.schedules.specs.Alike.{set_back};
ghost use Rattle.kernel.specs.Kernel.{state_of};
ghost use Rattle.kernel.specs.Whole.{with_space};
ghost use Rattle.spaces.specs.Spaces.{has_space, view_at};
ghost use Rattle.unixmodel.specs.State.{process_at};

use crate::mixing::{flag, mix, mix_bytes, mix_numbers};
use blockdev::BlockDev;
use kernel::Kernel;
use proc::Process;
use spaces::Spaces;
use sv39::Translate;
use unixmodel::call::Call;
use unixmodel::limits::{DESCRIPTORS, PROCESSES};
use unixmodel::process::{Mode, Pending};

// The number of a call that can wait.
fn waiting_number(call: Call) -> u64
    ensures { result ≡ waiting_number call }
{
    match call {
        Call::Wait => 3,
        Call::Read => 5,
        Call::Sleep => 13,
        Call::Write => 16,
        _ => 0,
    }
}

// A pending call, by a clock that is set back from this count of ticks to 0.
#[tactic(auto, unfolding(schedules::specs::Alike::set_back))]
fn set_back(ticks: u32, pending: Pending) -> Pending
    ensures { result ≡ set_back ticks pending }
{
    let since = if matches!(pending.number, Call::Sleep) {
        0u32.wrapping_sub(ticks.wrapping_sub(pending.since))
    } else {
        0
    };
    Pending { since, ..pending }
}

// What a process is doing, by a clock that is set back, where it says what the clock shows.
fn mode_by(clock: Option<u32>, mode: Mode) -> Mode
    ensures { result ≡ mode_by clock mode }
{
    let Some(ticks) = clock else {
        return mode;
    };
    match mode {
        Mode::Waiting(pending) => Mode::Waiting(set_back(ticks, pending)),
        other => other,
    }
}

// What a process is doing goes in.
fn mix_mode(digest: u64, mode: Mode) -> u64
    ensures { result ≡ mixed digest (mode_numbers mode) }
{
    match mode {
        Mode::Running => mix(digest, 1),
        Mode::Ready => mix(digest, 2),
        Mode::Waiting(pending) => {
            let front = [
                3,
                waiting_number(pending.number),
                pending.done,
                u64::from(pending.since),
            ];
            mix_numbers(mix_numbers(digest, &front), &pending.args)
        }
        Mode::Zombie(status) => mix_numbers(digest, &[4, u64::from(status.cast_unsigned())]),
    }
}

// What a descriptor names, as a number.
fn descriptor_number(descriptor: Option<u8>) -> u64
    ensures { result ≡ descriptor_number descriptor }
{
    match descriptor {
        None => 0,
        Some(id) => u64::from(id) + 1,
    }
}

// What descriptors name goes in.
fn mix_descriptors(digest: u64, descriptors: &[Option<u8>]) -> u64
    ensures { result ≡ descriptors_mixed digest descriptors.now }
{
    let mut digest = digest;
    for descriptor in descriptors {
        digest = mix(digest, descriptor_number(*descriptor));
    }
    digest
}

// A process of `size` bytes goes in, except its memory.
#[tactic(auto, unfolding(crate::specs::Digest::bare_mixed))]
fn mix_process(digest: u64, process: &Process, size: u64) -> u64
    ensures { result ≡ bare_mixed digest (with_space (record { memory = []; size = size }) process.now) }
{
    let front = [
        u64::from(process.pid),
        u64::from(process.parent),
        process.pc,
        size,
        u64::from(process.directory),
        flag(process.killed),
    ];
    let digest = mix_numbers(mix_numbers(digest, &front), &process.registers);
    mix_descriptors(mix_mode(digest, process.mode), &process.descriptors)
}

// A page of a slot's memory goes in, if there is one with this number.
fn mix_page<T: Translate>(digest: u64, spaces: &Spaces<T>, at: usize, n: u64) -> u64
    requires { has_space spaces.now at ≡ true }
    ensures { result ≡ page_or_same digest (slice_get (view_at spaces.now at).memory n) }
{
    match spaces.page(at, n) {
        None => digest,
        Some((bytes, marks)) => {
            let marks = [flag(marks.w), flag(marks.x), flag(marks.u)];
            mix_bytes(mix_numbers(digest, &marks), bytes)
        }
    }
}

// The memory of a slot goes in.
fn mix_memory<T: Translate>(digest: u64, spaces: &Spaces<T>, at: usize) -> u64
    requires { has_space spaces.now at ≡ true }
    ensures { result ≡ memory_mixed digest (view_at spaces.now at).memory }
{
    let pages = spaces.pages(at);
    let mut digest = mix(digest, pages);
    for n in 0..pages {
        digest = mix_page(digest, spaces, at, n);
    }
    digest
}

/// A process, by a clock that is set back, where it says what the clock shows.
pub fn process_by(clock: Option<u32>, process: Process) -> Process
    ensures { result ≡ process_by clock process }
{
    Process {
        mode: mode_by(clock, process.mode),
        ..process
    }
}

// The same without the numbers of open files.
fn bare_by(clock: Option<u32>, process: Process) -> Process
    ensures { result ≡ bare_by clock process }
{
    let Some(_) = clock else {
        return process;
    };
    Process {
        descriptors: [None; DESCRIPTORS],
        ..process_by(clock, process)
    }
}

// The process of a slot goes in, by a clock that is set back and without the numbers of open files.
fn mix_place<D: BlockDev, T: Translate>(
    digest: u64,
    kernel: &Kernel<D, T>,
    clock: Option<u32>,
    at: usize,
) -> u64
    ensures { result ≡ place_mixed digest (process_at (by_clock clock (state_of kernel.now)) at) }
{
    match kernel.whole(at) {
        None => mix(digest, 0),
        Some(process) => {
            kernel.is_sound();
            let spaces = kernel.spaces();
            let process = bare_by(clock, process);
            mix_memory(mix_process(digest, &process, spaces.size(at)), spaces, at)
        }
    }
}

/// All processes go in, by a clock that is set back and without the numbers of open files, where it says what the
/// clock shows.
pub fn mix_places<D: BlockDev, T: Translate>(
    digest: u64,
    kernel: &Kernel<D, T>,
    clock: Option<u32>,
) -> u64
    ensures { result ≡ places_mixed digest (by_clock clock (state_of kernel.now)) }
{
    let mut digest = digest;
    for at in 0..PROCESSES {
        digest = mix_place(digest, kernel, clock, at);
    }
    digest
}
