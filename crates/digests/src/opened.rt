//! How open files, pipes and the console go into a digest.
ghost use Rattle.std.specs.Prelude.{◌≡◌, ◌++◌};
ghost use Rattle.digests.specs.Digest.{console_mixed, mixed, open_mixed, opens_mixed, pipe_mixed, pipes_mixed};
ghost use Rattle.digests.specs.Digest.{target_numbers};
ghost use Rattle.files.specs.Meant.{target_of};
ghost use Rattle.kernel.specs.Kernel.{state_of};
ghost use Rattle.unixmodel.specs.Files.{slot};

use crate::mixing::{flag, mix, mix_each, mix_numbers};
use blockdev::BlockDev;
use console::Console;
use files::{End, Target};
use kernel::Kernel;
use sv39::Translate;
use unixmodel::limits::{OPEN_FILES, PIPES};

/// What an open file is open on goes in.
pub fn mix_target(digest: u64, target: Target) -> u64
    ensures { result ≡ mixed digest (target_numbers (target_of target)) }
{
    match target {
        Target::File { number, offset } => {
            mix_numbers(digest, &[1, u64::from(number), u64::from(offset)])
        }
        Target::Console { number } => mix_numbers(digest, &[1, u64::from(number), 0]),
        Target::Device { number } => mix_numbers(digest, &[1, u64::from(number), 0]),
        Target::Pipe {
            pipe,
            end: End::Read,
        } => mix_numbers(digest, &[2, pipe as u64]),
        Target::Pipe {
            pipe,
            end: End::Write,
        } => mix_numbers(digest, &[3, pipe as u64]),
    }
}

// The open file with a number goes in.
fn mix_open<D: BlockDev, T: Translate>(digest: u64, kernel: &Kernel<D, T>, id: usize) -> u64
    ensures { result ≡ open_mixed digest (slot (state_of kernel.now).opens id) }
{
    match kernel.opened(id) {
        None => mix(digest, 0),
        Some((file, _)) => {
            let digest = mix_target(digest, file.target);
            mix_numbers(digest, &[flag(file.readable), flag(file.writable)])
        }
    }
}

/// All open files go in.
pub fn mix_opens<D: BlockDev, T: Translate>(digest: u64, kernel: &Kernel<D, T>) -> u64
    ensures { result ≡ opens_mixed digest (state_of kernel.now).opens }
{
    let mut digest = digest;
    for id in 0..OPEN_FILES {
        digest = mix_open(digest, kernel, id);
    }
    digest
}

/// The pipe with a number goes in.
pub fn mix_pipe<D: BlockDev, T: Translate>(digest: u64, kernel: &Kernel<D, T>, q: usize) -> u64
    ensures { result ≡ pipe_mixed digest (slot (state_of kernel.now).pipes q) }
{
    match kernel.pipe(q) {
        None => mix(digest, 0),
        Some((front, behind)) => {
            let digest = mix_each(mix(digest, 0x100), front);
            mix(mix_each(digest, behind), 0x100)
        }
    }
}

/// All pipes go in.
pub fn mix_pipes<D: BlockDev, T: Translate>(digest: u64, kernel: &Kernel<D, T>) -> u64
    ensures { result ≡ pipes_mixed digest (state_of kernel.now).pipes }
{
    let mut digest = digest;
    for q in 0..PIPES {
        digest = mix_pipe(digest, kernel, q);
    }
    digest
}

/// What is typed at the console goes in.
pub fn mix_console(digest: u64, console: &Console) -> u64
    ensures { result ≡ console_mixed digest console.now }
{
    let committed = console.committed_len();
    let edited = console.edited_len();
    let mut digest = mix_numbers(digest, &[committed as u64, edited as u64]);
    // Its contract says that they are few.
    let _can = console.can_take();
    for at in 0..committed + edited {
        digest = mix(digest, u64::from(console.byte(at)));
    }
    digest
}
