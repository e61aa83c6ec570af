//! The calls on descriptors: dup, close, pipe.
ghost use Rattle.std.specs.Prelude.{◌≡◌, ◌<◌, ◌++◌, IfSome, Some};
ghost use Rattle.calls.specs.Acts.{Acts, Runs};
ghost use Rattle.kernel.specs.Kernel.{current, current_descriptors};
ghost use Rattle.calls.specs.Acts.{ActsOnDisk};
ghost use Rattle.files.specs.Places.{free_count};
ghost use Rattle.unixmodel.specs.Files.{free_slot};
ghost use Rattle.unixmodel.specs.declared.call.Call.TheVariants as Call;
ghost use Rattle.unixmodel.specs.Numbers.{le};

use crate::outcome::Came;
use blockdev::{BlockDev, DeviceFault};
use kernel::numbers::low;
use kernel::{Kernel, descriptors};
use sv39::Translate;

// Two descriptors as ints.
fn ints(first: usize, second: usize) -> [u8; 8]
    requires first { first < 16 }
    requires second { second < 16 }
    ensures { result ≡ le 4 first ++ le 4 second }
{
    [first as u8, 0, 0, 0, second as u8, 0, 0, 0]
}

// The lowest free descriptor of the running process.
fn free_descriptor<D: BlockDev, T: Translate>(kernel: &Kernel<D, T>) -> Option<usize>
    ensures place { result ≡ free_slot (current_descriptors kernel.now) }
    ensures within { IfSome result (λ free. free < 16) }
{
    descriptors::free_descriptor(&kernel.process(kernel.current())?.descriptors)
}

/// dup(descriptor): the lowest free descriptor names the same open file, and is the result.
pub(crate) fn dup<D: BlockDev, T: Translate>(kernel: &mut Kernel<D, T>) -> Came
    requires { Runs kernel.old }
    ensures { Acts kernel.old kernel.new (current kernel.old) (Some Call.Dup) result }
{
    let Some(id) = kernel.open_id(low(kernel.argument(0))) else {
        return Came::Refuses;
    };
    let Some(free) = free_descriptor(kernel) else {
        return Came::Refuses;
    };
    kernel.dup(free, id);
    kernel.is_sound();
    Came::Answers(free as u64)
}

/// close(descriptor): the descriptor is free; a pipe that has no end any more goes, and so does a node without links
/// that nobody holds any more.
pub(crate) fn close<D: BlockDev, T: Translate>(
    kernel: &mut Kernel<D, T>,
) -> Result<Came, DeviceFault>
    requires { Runs kernel.old }
    ensures { ActsOnDisk kernel.old kernel.new (current kernel.old) (Some Call.Close) result }
{
    let descriptor = low(kernel.argument(0));
    let Some(id) = kernel.open_id(descriptor) else {
        return Ok(Came::Refuses);
    };
    kernel.close(descriptor as usize, id)?;
    kernel.is_sound();
    Ok(Came::Answers(0))
}

/// pipe(address): a new pipe, whose ends the two lowest free descriptors name; they are written at the address.
pub(crate) fn pipe<D: BlockDev, T: Translate>(kernel: &mut Kernel<D, T>) -> Came
    requires { Runs kernel.old }
    ensures { Acts kernel.old kernel.new (current kernel.old) (Some Call.Pipe) result }
{
    let address = kernel.argument(0);
    if !kernel.can_write(address, 8) {
        return Came::Refuses;
    }
    let Some(process) = kernel.process(kernel.current()) else {
        return Came::Refuses;
    };
    if descriptors::free_count(&process.descriptors) < 2 || kernel.free_places() < 2 {
        return Came::Refuses;
    }
    let Some(pipe) = kernel.free_pipe() else {
        return Came::Refuses;
    };
    let Some((reader, writer)) = kernel.open_pipe(pipe) else {
        return Came::Refuses;
    };
    kernel.write(address, &ints(reader, writer));
    kernel.is_sound();
    Came::Answers(0)
}
