//! The calls on what a descriptor is open on: fstat.
ghost use Rattle.std.specs.Prelude.{◌≡◌, Some};
ghost use Rattle.kernel.specs.Kernel.{current};
ghost use Rattle.calls.specs.Acts.{ActsOnDisk, Runs};
ghost use Rattle.calls.specs.Reads.{stat_told};
ghost use Rattle.unixmodel.specs.declared.call.Call.TheVariants as Call;

use crate::outcome::Came;
use blockdev::{BlockDev, DeviceFault};
use inode::InodeStat;
use kernel::Kernel;
use kernel::numbers::low;
use sv39::Translate;
use unixmodel::call::Call;

// What fstat writes of a node: device 1, its number, type, links and length.
fn stat_bytes(number: u32, told: InodeStat) -> [u8; 24]
    ensures { result ≡ stat_told number told }
{
    let mut bytes = [0; 24];
    bytes[0] = 1;
    bytes[4..8].copy_from_slice(&number.to_le_bytes());
    bytes[8..10].copy_from_slice(&told.kind.to_le_bytes());
    bytes[10..12].copy_from_slice(&told.links.to_le_bytes());
    bytes[16..].copy_from_slice(&u64::from(told.size).to_le_bytes());
    bytes
}

/// fstat(descriptor, address): the attributes of the node that the descriptor is open on are written at the address.
pub(crate) fn fstat<D: BlockDev, T: Translate>(
    kernel: &mut Kernel<D, T>,
) -> Result<Came, DeviceFault>
    requires { Runs kernel.old }
    ensures { ActsOnDisk kernel.old kernel.new (current kernel.old) (Some Call.Fstat) result }
{
    let Some(id) = kernel.open_id(low(kernel.argument(0))) else {
        return Ok(Came::Refuses);
    };
    let Ok(number) = kernel.node_of(usize::from(id)) else {
        return Ok(Came::Refuses);
    };
    let address = kernel.argument(1);
    if !kernel.can_write(address, 24) {
        return Ok(Came::Refuses);
    }
    let told = kernel.stat(number as usize)?;
    kernel.write(address, &stat_bytes(number, told));
    kernel.is_sound();
    Ok(Came::Answers(0))
}
