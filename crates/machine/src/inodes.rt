//! What a machine reports of the files of its disk.
ghost use Rattle.std.specs.Prelude.{◌≡◌, false, option_map};
ghost use Rattle.kernel.specs.Disk.{ReadsDisk};
ghost use Rattle.kernel.specs.Kernel.{state_of};
ghost use Rattle.machine.specs.Looks.{ReadsAt, stat_from, stat_seen};
ghost use Rattle.unixmodel.specs.Shown.{shown_stat};

use blockdev::{BlockDev, DeviceFault};
use calls::Kernel;
use inode::InodeStat;
use sv39::Translate;

/// A node of the disk, as its inode describes it.
#[derive(Clone, Copy, PartialEq, Eq, Debug)]
pub struct Stat {
    /// 1 directory, 2 file, 3 device.
    pub kind: u16,
    /// How many names it has.
    pub links: u16,
    /// Its length in bytes.
    pub size: u32,
}

// What is reported of it: all except the major number of a device.
fn told(seen: Option<InodeStat>) -> Option<Stat>
    ensures { result ≡ option_map stat_from seen }
{
    match seen {
        None => None,
        Some(stat) => Some(Stat {
            kind: stat.kind,
            links: stat.links,
            size: stat.size,
        }),
    }
}

/// What is reported of the node with a number; `None` where there is none.
pub fn look<D: BlockDev, T: Translate>(
    kernel: &mut Kernel<D, T>,
    number: usize,
) -> Result<Option<Stat>, DeviceFault>
    requires { kernel.old.tree.failed ≡ false }
    ensures { ReadsDisk kernel.old kernel.new
        (λ stat. stat ≡ option_map stat_seen (shown_stat (state_of kernel.old) number)) result }
{
    let seen = kernel.look(number)?;
    Ok(told(seen))
}

/// Reads bytes of the node with a number from offset `at` on, as many as there are, and returns how many.
pub fn read<D: BlockDev, T: Translate>(
    kernel: &mut Kernel<D, T>,
    number: usize,
    at: usize,
    out: &mut [u8],
) -> Result<usize, DeviceFault>
    requires { kernel.old.tree.failed ≡ false }
    ensures { ReadsDisk kernel.old kernel.new (ReadsAt (state_of kernel.old) number at out.old out.new) result }
{
    kernel.read_any(number, at, out)
}
