//! The calls read and write, and how they go on. They are told apart by the end of a pipe that each would use.
ghost use Rattle.std.specs.Prelude.{◌<◌, ◌≡◌, ◌≤◌, IfErr, IfOk, IfSome, OnErr, OnOk, Some, is_some, length, true};
ghost use Rattle.std.specs.Prelude.{if◌then◌else◌, option_map, ◌==◌};
ghost use Rattle.std.specs.Io.KnownBytes.{Appends};
ghost use Rattle.calls.specs.Acts.{Acts, ActsOnDisk, CanWait, GoesOn, GoesOnDisk, Runs, CallTries, PendingTries};
ghost use Rattle.files.specs.declared.file.Target.TheVariants as target;
ghost use Rattle.files.specs.Places.{file_at};
ghost use Rattle.kernel.specs.Kernel.{HasCurrent, current, current_descriptors, current_space};
ghost use Rattle.kernel.specs.Sound.{file_named};
ghost use Rattle.calls.specs.Transfers.{Begins, OnConsole, OnThePipe, Uses, IsFront, call_on, can_transfer, target_for};
ghost use Rattle.calls.specs.Transfers.{target_named};
ghost use Rattle.files.specs.declared.file.End.TheVariants as End;
ghost use Rattle.console.specs.Output.{AppendsBeginning};
ghost use Rattle.files.specs.Meant.{end_of};
ghost use Rattle.files.specs.Places.{has_end, opens_of};
ghost use Rattle.unixmodel.specs.declared.call.Call.TheVariants as Call;
ghost use Rattle.unixmodel.specs.Failures.{Rises};
ghost use Rattle.unixmodel.specs.Files.{slot};
ghost use Rattle.unixmodel.specs.Memory.{reach, read_bytes};
ghost use Rattle.unixmodel.specs.Outcome.{minus_one};
ghost use Rattle.unixmodel.specs.declared.trap.Access.TheVariants.{Load};
ghost use Rattle.vm.specs.Reach.{piece_at};
ghost use Rattle.file_transfers.specs.Moved.{bytes_given};

use crate::halt::Halt;
use crate::outcome::{Came, REFUSED, pending};
use blockdev::{BlockDev, DeviceFault};
use console::{Out, OutFault, ROOM};
use files::{End, Target};
use kernel::Kernel;
use kernel::numbers::{low, natural};
use sv39::Translate;
use unixmodel::call::Call;
use unixmodel::process::Pending;

// A read or a write that has begun: the number of the open file that its descriptor names, what that is open on, and
// the call.
#[derive(Clone, Copy)]
struct Transfer {
    id: usize,
    target: Target,
    pending: Pending,
}

// The call that uses an end.
fn call_on(end: End) -> Call
    ensures { result ≡ call_on end }
{
    match end {
        End::Read => Call::Read,
        End::Write => Call::Write,
    }
}

// What the open file that a descriptor of the running process names is open on.
fn open_target<D: BlockDev, T: Translate>(kernel: &Kernel<D, T>, descriptor: u32) -> Option<Target>
    ensures { result ≡ target_named kernel.now (current kernel.now) descriptor }
{
    let Some(id) = kernel.open_id(descriptor) else {
        return None;
    };
    match kernel.file(usize::from(id)) {
        Some(file) => Some(file.target),
        None => None,
    }
}

// Whether an end of a pipe is open.
fn has_end<D: BlockDev, T: Translate>(kernel: &Kernel<D, T>, pipe: usize, end: End) -> bool
    ensures { result ≡ has_end (opens_of kernel.now.files) pipe (end_of end) }
{
    kernel.has_end(pipe, end)
}

// What an open file is open on, where it is open for reading or writing.
fn target_for<D: BlockDev, T: Translate>(
    kernel: &Kernel<D, T>,
    end: End,
    id: usize,
) -> Option<Target>
    ensures { result ≡ target_for end (file_at kernel.now.files id) }
{
    match end {
        End::Read => kernel.source(id).ok(),
        End::Write => kernel.sink(id).ok(),
    }
}

// The number of the open file that a descriptor names, and what that is open on, where it is open for reading or
// writing.
fn find_open_file<D: BlockDev, T: Translate>(
    kernel: &Kernel<D, T>,
    end: End,
    descriptor: u32,
) -> Option<(usize, Target)>
    ensures target { option_map (λ f. f.1) result
        ≡ target_for end (file_named kernel.now.files (current_descriptors kernel.now) descriptor) }
    ensures number { IfSome result (λ f. slot (current_descriptors kernel.now) descriptor ≡ Some f.0) }
{
    let Some(id) = kernel.open_id(descriptor) else {
        return None;
    };
    let id = usize::from(id);
    match target_for(kernel, end, id) {
        Some(target) => Some((id, target)),
        None => None,
    }
}

// Whether the running process may transfer `count` bytes: a read writes them, and a write reads them.
#[inline(always)]
fn can_transfer<D: BlockDev, T: Translate>(
    kernel: &Kernel<D, T>,
    end: End,
    address: u64,
    count: u64,
) -> bool
    requires { HasCurrent kernel.now }
    ensures { result ≡ can_transfer end (current_space kernel.now).memory address count }
{
    match end {
        End::Read => kernel.can_write(address, count),
        End::Write => kernel.can_read(address, count),
    }
}

// A read or a write begins: its arguments are tested. `Err`: it has nothing to go on with, and ends so.
#[inline(always)]
fn begin_transfer<D: BlockDev, T: Translate>(
    kernel: &Kernel<D, T>,
    end: End,
) -> Result<Transfer, Came>
    requires { Runs kernel.now }
    ensures answered { IfErr result
        (λ came. Acts kernel.now kernel.now (current kernel.now) (Some (call_on end)) came) }
    ensures begins { IfOk result (Begins kernel.now (current kernel.now) end) }
{
    let pending = pending(kernel, call_on(end));
    let Some((id, target)) = find_open_file(kernel, end, low(pending.args[0])) else {
        return Err(Came::Refuses);
    };
    let Some(count) = natural(pending.args[2]) else {
        return Err(Came::Refuses);
    };
    if count == 0 {
        return Err(Came::Answers(0));
    }
    if !can_transfer(kernel, end, pending.args[1], u64::from(count)) {
        return Err(Came::Refuses);
    }
    Ok(Transfer {
        id,
        target,
        pending,
    })
}

// ---- read

/// read(descriptor, address, count) from a file or a directory, the console or a pipe. Its bytes go to an address that
/// may be written for all of the count, which is tested first.
pub(crate) fn read<D: BlockDev, T: Translate>(
    kernel: &mut Kernel<D, T>,
) -> Result<Came, DeviceFault>
    requires { Runs kernel.old }
    ensures { ActsOnDisk kernel.old kernel.new (current kernel.old) (Some Call.Read) result }
{
    match begin_transfer(kernel, End::Read) {
        Ok(transfer) => read_from(kernel, transfer),
        Err(came) => Ok(came),
    }
}

/// The process goes on with its pending read, which is one of the console or of a pipe.
pub(crate) fn read_on<D: BlockDev, T: Translate>(
    kernel: &mut Kernel<D, T>,
    pending: Pending,
) -> Came
    requires runs { Runs kernel.old }
    requires can { CanWait kernel.old (current kernel.old) pending }
    requires number { pending.number ≡ Call.Read }
    ensures { GoesOn kernel.old kernel.new (current kernel.old) pending result }
{
    match open_target(kernel, low(pending.args[0])).unwrap() {
        Target::Console { .. } => read_console(kernel, pending),
        Target::Pipe { pipe, .. } => read_pipe(kernel, pipe, pending),
        Target::File { .. } | Target::Device { .. } => unreachable!(),
    }
}

// A read goes on, of what is open there.
fn read_from<D: BlockDev, T: Translate>(
    kernel: &mut Kernel<D, T>,
    transfer: Transfer,
) -> Result<Came, DeviceFault>
    requires { Uses kernel.old (current kernel.old) End.Read transfer }
    ensures { GoesOnDisk kernel.old kernel.new (current kernel.old) transfer.pending result }
{
    match transfer.target {
        Target::File { number, offset } => read_file(kernel, number, offset, transfer),
        Target::Console { .. } => Ok(read_console(kernel, transfer.pending)),
        Target::Pipe { pipe, .. } => Ok(read_pipe(kernel, pipe, transfer.pending)),
        Target::Device { .. } => unreachable!(),
    }
}

// From a file or a directory: the process takes what there is from the offset on, which then lies after it.
fn read_file<D: BlockDev, T: Translate>(
    kernel: &mut Kernel<D, T>,
    number: u32,
    offset: u32,
    transfer: Transfer,
) -> Result<Came, DeviceFault>
    requires uses { Uses kernel.old (current kernel.old) End.Read transfer }
    requires on { transfer.target ≡ target.File number offset }
    ensures { GoesOnDisk kernel.old kernel.new (current kernel.old) transfer.pending result }
{
    let Transfer { id, pending, .. } = transfer;
    kernel.files_are_whole();
    let count = u64::from(low(pending.args[2]));
    match kernel.read_node(number as usize, offset, pending.args[1], count) {
        Ok(read) => {
            kernel.set_offset(id, offset + low(read));
            kernel.is_sound();
            Ok(Came::Answers(read))
        }
        Err(fault) => Err(fault),
    }
}

// From the console: the process takes what was typed, and waits on for the rest of a line.
#[inline(always)]
fn read_console<D: BlockDev, T: Translate>(kernel: &mut Kernel<D, T>, pending: Pending) -> Came
    requires { OnConsole kernel.old (current kernel.old) End.Read pending }
    ensures { GoesOn kernel.old kernel.new (current kernel.old) pending result }
{
    kernel.pages_are_whole();
    let left = u64::from(low(pending.args[2])) - pending.done;
    let mut buffer = [0; ROOM];
    let taken = kernel.take_line(left as usize, pending.done > 0, &mut buffer);
    let address = pending.args[1] + pending.done;
    kernel.write(address, &buffer[..taken.count]);
    kernel.is_sound();
    let done = pending.done + taken.count as u64;
    if taken.over {
        return Came::Answers(done);
    }
    Came::Blocks(Pending { done, ..pending })
}

// From a pipe: the process takes what is there; from an empty one it takes nothing where no byte can come, and else
// waits.
#[inline(always)]
fn read_pipe<D: BlockDev, T: Translate>(
    kernel: &mut Kernel<D, T>,
    pipe: usize,
    pending: Pending,
) -> Came
    requires { OnThePipe kernel.old (current kernel.old) End.Read pipe pending }
    ensures { GoesOn kernel.old kernel.new (current kernel.old) pending result }
{
    if kernel.has_bytes(pipe) {
        let count = low(pending.args[2]) as usize;
        let taken = kernel.read_pipe(pipe, pending.args[1], count);
        kernel.is_sound();
        return Came::Answers(taken as u64);
    }
    if has_end(kernel, pipe, End::Write) {
        Came::Blocks(pending)
    } else {
        Came::Answers(0)
    }
}

// ---- write

// The next bytes to print: at most `most`, and at least one.
fn piece<D: BlockDev, T: Translate>(kernel: &Kernel<D, T>, address: u64, most: u64) -> &[u8]
    requires running { HasCurrent kernel.now }
    requires readable { 0 < length (reach Load (current_space kernel.now).memory address) }
    requires most { 0 < most }
    ensures some { 0 < length result.now }
    ensures most { length result.now ≤ most }
    ensures piece { IsFront result.now (piece_at Load (current_space kernel.now).memory address) }
{
    kernel.pages_are_whole();
    let piece = kernel.readable(address);
    if piece.len() as u64 > most {
        &piece[..most as usize]
    } else {
        piece
    }
}

// Prints `count` bytes of the running process, a page at a time.
fn print<D: BlockDev, T: Translate, W: Out>(
    kernel: &Kernel<D, T>,
    address: u64,
    count: u64,
    out: &mut W,
) -> Result<(), OutFault>
    requires running { HasCurrent kernel.now }
    requires readable { is_some (read_bytes (current_space kernel.now).memory address count) ≡ true }
    ensures ok { OnOk result
        (Appends (W.contents out.old) (W.contents out.new)
        (bytes_given kernel.now.spaces (current kernel.now) address count)) }
    ensures err { OnErr result (AppendsBeginning (W.contents out.old) (W.contents out.new)
        (bytes_given kernel.now.spaces (current kernel.now) address count)) }
    ensures later { W.failures out.old ≤ W.failures out.new }
    ensures cause { OnErr result (Rises (W.failures out.old) (W.failures out.new)) }
{
    kernel.pages_are_whole();
    let mut done = 0;
    while done < count {
        let piece = piece(kernel, address + done, count - done);
        out.put(piece)?;
        done += piece.len() as u64;
    }
    Ok(())
}

/// write(descriptor, address, count) to a file, the console or a pipe. Its bytes are all readable, which is tested
/// first.
/// `Device`, `Console`: the device failed, the console did.
pub(crate) fn write<D: BlockDev, T: Translate, W: Out>(
    kernel: &mut Kernel<D, T>,
    console: &mut W,
) -> Result<Came, Halt>
    requires { Runs kernel.old }
    ensures tries { CallTries W.contents W.failures kernel.old kernel.new console.old console.new
        (Some Call.Write) result }
    ensures later { W.failures console.old ≤ W.failures console.new }
{
    match begin_transfer(kernel, End::Write) {
        Ok(transfer) => write_to(kernel, transfer, console),
        Err(came) => Ok(came),
    }
}

// A write begins, to what is open there: to the console it prints all of its bytes.
fn write_to<D: BlockDev, T: Translate, W: Out>(
    kernel: &mut Kernel<D, T>,
    transfer: Transfer,
    console: &mut W,
) -> Result<Came, Halt>
    requires { Uses kernel.old (current kernel.old) End.Write transfer }
    ensures tries { PendingTries W.contents W.failures kernel.old kernel.new console.old console.new
        transfer.pending result }
    ensures later { W.failures console.old ≤ W.failures console.new }
{
    let pending = transfer.pending;
    match transfer.target {
        Target::File { number, offset } => Ok(write_file(kernel, number, offset, transfer)?),
        Target::Console { .. } => {
            let count = u64::from(low(pending.args[2]));
            match print(kernel, pending.args[1], count, console) {
                Ok(()) => Ok(Came::Answers(count)),
                Err(OutFault::Writer) => Err(Halt::Console),
            }
        }
        Target::Pipe { pipe, .. } => Ok(write_pipe(kernel, pipe, pending)),
        Target::Device { .. } => unreachable!(),
    }
}

// The result of a write to a file: -1 where some of its bytes are left.
fn write_answer(wrote: u64, count: u64) -> u64
    ensures { result ≡ (if wrote == count then wrote else minus_one) }
{
    if wrote == count { wrote } else { REFUSED }
}

// To a file: as many of its bytes are written as there are blocks for, and the offset then lies after them; it returns
// -1 where some are left.
fn write_file<D: BlockDev, T: Translate>(
    kernel: &mut Kernel<D, T>,
    number: u32,
    offset: u32,
    transfer: Transfer,
) -> Result<Came, DeviceFault>
    requires uses { Uses kernel.old (current kernel.old) End.Write transfer }
    requires on { transfer.target ≡ target.File number offset }
    ensures { GoesOnDisk kernel.old kernel.new (current kernel.old) transfer.pending result }
{
    let Transfer { id, pending, .. } = transfer;
    let count = u64::from(low(pending.args[2]));
    match kernel.write_node(number as usize, offset, pending.args[1], count) {
        Ok(Some(wrote)) => {
            kernel.set_offset(id, offset + low(wrote));
            kernel.is_sound();
            Ok(Came::Answers(write_answer(wrote, count)))
        }
        Ok(None) => Ok(Came::Refuses),
        Err(fault) => Err(fault),
    }
}

/// The process goes on with its pending write, which is one to a pipe.
pub(crate) fn write_on<D: BlockDev, T: Translate>(
    kernel: &mut Kernel<D, T>,
    pending: Pending,
) -> Came
    requires runs { Runs kernel.old }
    requires can { CanWait kernel.old (current kernel.old) pending }
    requires number { pending.number ≡ Call.Write }
    ensures { GoesOn kernel.old kernel.new (current kernel.old) pending result }
{
    match open_target(kernel, low(pending.args[0])).unwrap() {
        Target::Pipe { pipe, .. } => write_pipe(kernel, pipe, pending),
        Target::File { .. } | Target::Console { .. } | Target::Device { .. } => unreachable!(),
    }
}

// To a pipe: what fits of its bytes is put in, and the process waits while some are left. Without a read end it returns
// -1.
#[inline(always)]
fn write_pipe<D: BlockDev, T: Translate>(
    kernel: &mut Kernel<D, T>,
    pipe: usize,
    pending: Pending,
) -> Came
    requires { OnThePipe kernel.old (current kernel.old) End.Write pipe pending }
    ensures { GoesOn kernel.old kernel.new (current kernel.old) pending result }
{
    if !has_end(kernel, pipe, End::Read) {
        return Came::Answers(REFUSED);
    }
    kernel.pages_are_whole();
    let left = u64::from(low(pending.args[2])) - pending.done;
    let address = pending.args[1] + pending.done;
    let sent = kernel.write_pipe(pipe, address, left as usize);
    kernel.is_sound();
    let done = pending.done + sent as u64;
    if done == u64::from(low(pending.args[2])) {
        return Came::Answers(done);
    }
    Came::Blocks(Pending { done, ..pending })
}
