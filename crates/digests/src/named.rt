//! How open files and pipes go into a digest without their numbers: each descriptor as what it names.
ghost use Rattle.std.specs.Prelude.{◌≡◌};
ghost use Rattle.digests.specs.Digest.{NumbersStayOut, file_mixed, holder_mixed, holders_mixed, named_mixed};
ghost use Rattle.digests.specs.Digest.{names_mixed, on_mixed};
ghost use Rattle.files.specs.Meant.{target_of};
ghost use Rattle.kernel.specs.Kernel.{state_of};
ghost use Rattle.unixmodel.specs.Files.{slot};
ghost use Rattle.unixmodel.specs.State.{process_at};

use crate::mixing::{flag, mix, mix_numbers};
use crate::opened::{mix_pipe, mix_target};
use blockdev::BlockDev;
use files::{End, Target};
use kernel::Kernel;
use sv39::Translate;
use unixmodel::limits::PROCESSES;

// What an open file is open on goes in, a pipe as its bytes.
fn mix_on<D: BlockDev, T: Translate>(digest: u64, kernel: &Kernel<D, T>, target: Target) -> u64
    ensures { result ≡ on_mixed (state_of kernel.now).pipes digest (target_of target) }
{
    match target {
        Target::File { .. } => mix_target(digest, target),
        Target::Console { .. } => mix_target(digest, target),
        Target::Device { .. } => mix_target(digest, target),
        Target::Pipe {
            pipe,
            end: End::Read,
        } => mix_pipe(mix(digest, 2), kernel, pipe),
        Target::Pipe {
            pipe,
            end: End::Write,
        } => mix_pipe(mix(digest, 3), kernel, pipe),
    }
}

// The open file with a number goes in.
fn mix_file<D: BlockDev, T: Translate>(digest: u64, kernel: &Kernel<D, T>, id: usize) -> u64
    ensures { result ≡ file_mixed (state_of kernel.now).pipes digest (slot (state_of kernel.now).opens id) }
{
    match kernel.opened(id) {
        None => mix(digest, 0),
        Some((file, _)) => {
            let digest = mix_on(digest, kernel, file.target);
            mix_numbers(digest, &[flag(file.readable), flag(file.writable)])
        }
    }
}

// The open file that a descriptor names goes in.
fn mix_named<D: BlockDev, T: Translate>(
    digest: u64,
    kernel: &Kernel<D, T>,
    descriptor: Option<u8>,
) -> u64
    ensures { result ≡ named_mixed (state_of kernel.now) digest descriptor }
{
    match descriptor {
        None => mix(digest, 0),
        Some(id) => mix_file(digest, kernel, usize::from(id)),
    }
}

// The open files that descriptors name go in.
fn mix_names<D: BlockDev, T: Translate>(
    digest: u64,
    kernel: &Kernel<D, T>,
    descriptors: &[Option<u8>],
) -> u64
    ensures { result ≡ names_mixed (state_of kernel.now) digest descriptors.now }
{
    let mut digest = digest;
    for descriptor in descriptors {
        digest = mix_named(digest, kernel, *descriptor);
    }
    digest
}

// The open files that the process of a slot names go in.
fn mix_holder<D: BlockDev, T: Translate>(digest: u64, kernel: &Kernel<D, T>, at: usize) -> u64
    ensures { result ≡ holder_mixed (state_of kernel.now) digest (process_at (state_of kernel.now) at) }
{
    match kernel.whole(at) {
        None => digest,
        Some(process) => mix_names(digest, kernel, &process.descriptors),
    }
}

/// All open files and pipes go in as what descriptors name.
pub fn mix_holders<D: BlockDev, T: Translate>(digest: u64, kernel: &Kernel<D, T>) -> u64
    ensures { result ≡ holders_mixed (state_of kernel.now) digest }
{
    let mut digest = digest;
    for at in 0..PROCESSES {
        digest = mix_holder(digest, kernel, at);
    }
    digest
}

/// A law: states that differ in the numbers of open files and pipes alone have the same digest without these. It runs
/// no code.
pub fn numbers_stay_out()
    ensures { NumbersStayOut }
{}
