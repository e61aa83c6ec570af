//! The calls that resolve a path: open, chdir.
ghost use Rattle.std.specs.Prelude.{◌≡◌, ◌≢◌, All, List, None, Some, false, true, ℕ};
ghost use Rattle.kernel.specs.Kernel.{current};
ghost use Rattle.calls.specs.Acts.{ActsOnDisk, Runs};
ghost use Rattle.calls.specs.Opened.{Asks, Cuts, IsOpenable, Opens, file_by, has_seat, may_open_by, target_by};
ghost use Rattle.calls.specs.Replaced.{Reaches};
ghost use Rattle.kernel.specs.Holding.{IsFolder};
ghost use Rattle.unixmodel.specs.declared.call.Call.TheVariants as Call;
ghost use Rattle.unixmodel.specs.Files.{slot};
ghost use Rattle.unixmodel.specs.NameCalls.{creates, opened, truncates};

use crate::name_calls::{copy_path, refuse};
use crate::outcome::Came;
use blockdev::{BlockDev, DeviceFault};
use files::{OpenFile, Target};
use inode::InodeStat;
use kernel::numbers::low;
use kernel::{Kernel, descriptors};
use sv39::Translate;
use tree::{DEVICE, DIRECTORY, FILE, Leaf};
use unixmodel::call::Call;

// The major of the console.
const CONSOLE: u16 = 1;

// The attributes of a new file.
const NEW_FILE: InodeStat = InodeStat {
    kind: FILE,
    major: 0,
    links: 1,
    size: 0,
};

// Whether a file is made where a path reaches nothing.
fn creates(flags: u32) -> bool
    ensures { result ≡ creates flags }
{
    flags / 0x200 % 2 == 1
}

// Whether a file is emptied.
fn truncates(flags: u32) -> bool
    ensures { result ≡ truncates flags }
{
    flags / 0x400 % 2 == 1
}

// Whether a node may be opened: a directory is opened with flags 0 alone, and the major of a device is 0 to 9.
fn may_open(flags: u32, told: InodeStat) -> bool
    ensures { result ≡ may_open_by flags told.kind told.major }
{
    match told.kind {
        DIRECTORY => flags == 0,
        DEVICE => told.major <= 9,
        _ => true,
    }
}

// What is open on a node.
fn target(number: u32, told: InodeStat) -> Target
    ensures { result ≡ target_by number told.kind told.major }
{
    if told.kind != DEVICE {
        Target::File { number, offset: 0 }
    } else if told.major == CONSOLE {
        Target::Console { number }
    } else {
        Target::Device { number }
    }
}

// The open file that flags ask for: readable unless bit 0 is set, and writable with bit 0 or bit 1.
fn opened(flags: u32, target: Target) -> OpenFile
    ensures { result ≡ file_by flags target }
{
    OpenFile {
        target,
        readable: flags % 2 != 1,
        writable: flags % 2 == 1 || flags / 2 % 2 == 1,
    }
}

// Whether a descriptor of the running process and a slot for an open file are free.
fn has_seat<D: BlockDev, T: Translate>(kernel: &Kernel<D, T>) -> bool
    ensures { result ≡ has_seat kernel.now (current kernel.now) }
{
    match kernel.process(kernel.current()) {
        Some(process) => descriptors::free_count(&process.descriptors) > 0
            && kernel.free_places() > 0,
        None => false,
    }
}

// Opens a node as a new open file, which the lowest free descriptor names.
fn open_on<D: BlockDev, T: Translate>(
    kernel: &mut Kernel<D, T>,
    node: usize,
    flags: u32,
    told: InodeStat,
) -> usize
    requires runs { Runs kernel.old }
    requires seat { has_seat kernel.old (current kernel.old) ≡ true }
    requires may { IsOpenable kernel.old.tree.files node flags told }
    ensures { Opens kernel.old kernel.new (current kernel.old) (opened flags node) result }
{
    kernel.files_are_whole();
    let file = opened(flags, target(node as u32, told));
    let descriptor = kernel.open_on(node, file);
    kernel.is_sound();
    descriptor
}

// Empties a file, if the flags say so.
fn cut<D: BlockDev, T: Translate>(
    kernel: &mut Kernel<D, T>,
    number: usize,
    flags: u32,
) -> Result<(), DeviceFault>
    requires up { kernel.old.tree.failed ≡ false }
    requires node { slot kernel.old.tree.files number ≢ None }
    ensures { Cuts kernel.old kernel.new flags number result }
{
    if truncates(flags) {
        kernel.truncate(number)?;
    }
    kernel.is_sound();
    Ok(())
}

// open of what its path reaches.
fn open_found<D: BlockDev, T: Translate>(
    kernel: &mut Kernel<D, T>,
    number: usize,
    flags: u32,
) -> Result<Came, DeviceFault>
    requires runs { Runs kernel.old }
    requires asks { (path : List ℕ) × Asks kernel.old (current kernel.old) path flags (Some number) }
    ensures { ActsOnDisk kernel.old kernel.new (current kernel.old) (Some Call.Open) result }
{
    let told = kernel.stat(number)?;
    if !may_open(flags, told) {
        return Ok(Came::Refuses);
    }
    if !has_seat(kernel) {
        return Ok(Came::Refuses);
    }
    cut(kernel, number, flags)?;
    let descriptor = open_on(kernel, number, flags, told);
    Ok(Came::Answers(descriptor as u64))
}

// open of a path that reaches nothing: makes a new file, if the flags say so.
fn open_new<D: BlockDev, T: Translate>(
    kernel: &mut Kernel<D, T>,
    path: &[u8],
    flags: u32,
) -> Result<Came, DeviceFault>
    requires runs { Runs kernel.old }
    requires asks { Asks kernel.old (current kernel.old) path.now flags None }
    requires path { All (λ b. b ≢ 0) path.now }
    ensures { ActsOnDisk kernel.old kernel.new (current kernel.old) (Some Call.Open) result }
{
    if !creates(flags) {
        return Ok(Came::Refuses);
    }
    if !has_seat(kernel) {
        return Ok(Came::Refuses);
    }
    let made = kernel.create(path, Leaf::File);
    kernel.is_sound();
    match made {
        Ok(number) => {
            let descriptor = open_on(kernel, number, flags, NEW_FILE);
            Ok(Came::Answers(descriptor as u64))
        }
        Err(fault) => refuse(fault),
    }
}

/// open(path, flags): the lowest free descriptor names a new open file on what the path reaches, and is the result. Bit
/// 9 of the flags makes a file where the path reaches nothing, and bit 10 empties a file.
pub(crate) fn open<D: BlockDev, T: Translate>(
    kernel: &mut Kernel<D, T>,
) -> Result<Came, DeviceFault>
    requires { Runs kernel.old }
    ensures { ActsOnDisk kernel.old kernel.new (current kernel.old) (Some Call.Open) result }
{
    let mut buffer = [0; 127];
    let Some(count) = copy_path(kernel, 0, &mut buffer) else {
        return Ok(Came::Refuses);
    };
    let flags = low(kernel.argument(1));
    match kernel.resolve(&buffer[..count])? {
        Some(number) => open_found(kernel, number, flags),
        None => open_new(kernel, &buffer[..count], flags),
    }
}

// The process works in the directory that its path reaches; the one that it leaves goes where it has no links and
// nobody holds it any more.
fn work_in<D: BlockDev, T: Translate>(
    kernel: &mut Kernel<D, T>,
    number: usize,
) -> Result<Came, DeviceFault>
    requires runs { Runs kernel.old }
    requires reaches { Reaches kernel.old (current kernel.old) number }
    requires directory { IsFolder (slot kernel.old.tree.files number) }
    ensures { ActsOnDisk kernel.old kernel.new (current kernel.old) (Some Call.Chdir) result }
{
    kernel.files_are_whole();
    kernel.work_in(number)?;
    kernel.is_sound();
    Ok(Came::Answers(0))
}

// chdir to what its path reaches.
fn chdir_found<D: BlockDev, T: Translate>(
    kernel: &mut Kernel<D, T>,
    number: usize,
) -> Result<Came, DeviceFault>
    requires runs { Runs kernel.old }
    requires reaches { Reaches kernel.old (current kernel.old) number }
    ensures { ActsOnDisk kernel.old kernel.new (current kernel.old) (Some Call.Chdir) result }
{
    if kernel.stat(number)?.kind != DIRECTORY {
        return Ok(Came::Refuses);
    }
    work_in(kernel, number)
}

/// chdir(path): the process works in another directory; the one that it leaves goes where it has no links and nobody
/// holds it any more.
pub(crate) fn chdir<D: BlockDev, T: Translate>(
    kernel: &mut Kernel<D, T>,
) -> Result<Came, DeviceFault>
    requires { Runs kernel.old }
    ensures { ActsOnDisk kernel.old kernel.new (current kernel.old) (Some Call.Chdir) result }
{
    let mut buffer = [0; 127];
    let Some(count) = copy_path(kernel, 0, &mut buffer) else {
        return Ok(Came::Refuses);
    };
    let Some(number) = kernel.resolve(&buffer[..count])? else {
        return Ok(Came::Refuses);
    };
    chdir_found(kernel, number)
}
