//! Reads and writes files of disk images.
ghost use Rattle.std.specs.Prelude.{◌≡◌, ◌%◌, IfOk, IfSome, OnOk, length};
ghost use Rattle.image_commands.specs.Handed.{Gets, HoldsDisk, HoldsFile, Known, PutsIn};

use blockdev::MemDisk;
use commandline::{Get, Put};
use host::{Failure, Host, disk_of, hold, read_front, read_image, write};
use image_files::{OpeningFault, read_file, write_file};
use layout::LONGEST;
use std::alloc::Global;
use std::io::Write;

// Why a file isn't taken out of an image, or not put into one.
fn failure<'a>(fault: OpeningFault) -> Failure<'a> {
    match fault {
        OpeningFault::Image(fault) => Failure::Image(fault),
        OpeningFault::Tree(fault) => Failure::Tree(fault),
        OpeningFault::NoMemory => Failure::NoMemory,
    }
}

/// The disk of the image of this name.
pub(crate) fn disk_at<'a, H: Host>(host: &mut H, image: &'a str) -> Result<MemDisk, Failure<'a>>
    ensures disk { IfOk result (λ disk. HoldsDisk image.now disk.bytes (H.files host.old)) }
    ensures blocks { IfOk result (λ disk. length disk.bytes % 1024 ≡ 0) }
    ensures same { H.files host.new ≡ H.files host.old }
{
    disk_of(read_image(host, image)?)
}

// The bytes of the file that the words name on an image, which is checked first.
fn file_of<'a, H: Host>(
    alloc: Global,
    words: &Get<'a>,
    host: &mut H,
) -> Result<Vec<u8>, Failure<'a>>
    ensures file { IfOk result (λ bytes. HoldsFile words.now bytes.items (H.files host.old)) }
    ensures same { H.files host.new ≡ H.files host.old }
{
    let disk = disk_at(host, words.image)?;
    match read_file(alloc, disk, words.path.as_bytes()) {
        Ok(bytes) => Ok(bytes),
        Err(fault) => Err(failure(fault)),
    }
}

/// The command `get`. The image is checked before anything is read.
pub fn get<'a, H: Host, W: Write>(
    alloc: Global,
    words: Get<'a>,
    host: &mut H,
    stdout: &mut W,
) -> Result<(), Failure<'a>>
    ensures { OnOk result (IfSome words.entry.out (Gets words.entry (H.files host.old) (H.files host.new))) }
{
    let bytes = file_of(alloc, &words, host)?;
    if let Some(name) = words.out {
        return write(host, name, bytes.as_slice());
    }
    if stdout.write_all(bytes.as_slice()).is_err() || stdout.flush().is_err() {
        return Err(Failure::Output);
    }
    Ok(())
}

/// The command `put`. The image is held before it is read, so that of jobs that put files at once each finds what the
/// others put. Of the host's file no more is read than shows that it is too long. The image is written once all is
/// done.
pub fn put<'a, H: Host>(alloc: Global, words: Put<'a>, host: &mut H) -> Result<(), Failure<'a>>
    ensures { OnOk result (Known (PutsIn words.entry) (H.files host.old) (H.files host.new)) }
{
    hold(host, words.image)?;
    let disk = disk_at(host, words.image)?;
    let bytes = read_front(host, words.file, LONGEST + 1)?.bytes;
    match write_file(alloc, disk, words.path.as_bytes(), bytes.as_slice()) {
        Ok(left) => write(host, words.image, left.bytes()),
        Err(fault) => Err(failure(fault)),
    }
}
