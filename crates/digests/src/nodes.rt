//! How the files of a disk go into a digest.
ghost use Rattle.std.specs.Prelude.{◌≡◌, false};
ghost use Rattle.digests.specs.Digest.{contents_mixed, files_mixed, mixed, node_mixed};
ghost use Rattle.digests.specs.Reads.{major_told, node_numbers};
ghost use Rattle.kernel.specs.Disk.{ReadsDisk};
ghost use Rattle.unixmodel.specs.Files.{slot};
ghost use Rattle.unixmodel.specs.Shown.{bytes_or_none};

use crate::mixing::{mix, mix_bytes, mix_numbers};
use blockdev::{BLOCK_SIZE, BlockDev, DeviceFault};
use inode::InodeStat;
use kernel::Kernel;
use sv39::Translate;
use tree::DEVICE;

// The major number of a device, and 0 of any other node.
fn major(stat: InodeStat) -> u64
    ensures { result ≡ major_told stat }
{
    if stat.kind == DEVICE {
        u64::from(stat.major)
    } else {
        0
    }
}

// What an inode says goes in.
fn mix_stat(digest: u64, stat: InodeStat) -> u64
    ensures { result ≡ mixed digest (node_numbers stat) }
{
    let numbers = [
        u64::from(stat.kind),
        u64::from(stat.links),
        u64::from(stat.size),
        major(stat),
    ];
    mix_numbers(digest, &numbers)
}

// The bytes of a node of a size go in, block by block.
fn mix_contents<D: BlockDev, T: Translate>(
    digest: u64,
    kernel: &mut Kernel<D, T>,
    number: usize,
    size: u32,
) -> Result<u64, DeviceFault>
    requires { kernel.old.tree.failed ≡ false }
    ensures { ReadsDisk kernel.old kernel.new
        (λ told. told ≡ contents_mixed digest size (bytes_or_none (slot kernel.old.tree.files number))) result }
{
    let mut block = [0; BLOCK_SIZE];
    let mut digest = digest;
    for k in 0..size.div_ceil(BLOCK_SIZE as u32) {
        let count = kernel.read_any(number, BLOCK_SIZE * k as usize, &mut block)?;
        digest = mix_bytes(digest, &block[..count]);
    }
    Ok(digest)
}

// The node with a number goes in, if there is one.
fn mix_node<D: BlockDev, T: Translate>(
    digest: u64,
    kernel: &mut Kernel<D, T>,
    number: usize,
) -> Result<u64, DeviceFault>
    requires { kernel.old.tree.failed ≡ false }
    ensures { ReadsDisk kernel.old kernel.new (λ told. told ≡ node_mixed digest (slot kernel.old.tree.files number))
        result }
{
    let Some(stat) = kernel.look(number)? else {
        return Ok(mix(digest, 0));
    };
    mix_contents(mix_stat(digest, stat), kernel, number, stat.size)
}

/// All files of the disk go into a digest.
pub fn mix_files<D: BlockDev, T: Translate>(
    digest: u64,
    kernel: &mut Kernel<D, T>,
) -> Result<u64, DeviceFault>
    requires { kernel.old.tree.failed ≡ false }
    ensures { ReadsDisk kernel.old kernel.new (λ told. told ≡ files_mixed digest kernel.old.tree.files) result }
{
    let numbers = kernel.numbers();
    let mut digest = digest;
    for number in 0..numbers {
        digest = mix_node(digest, kernel, number)?;
    }
    Ok(digest)
}
