//! Makes, checks and lists disk images.
ghost use Rattle.std.specs.Prelude.{◌≡◌, ◌<◌, ◌≤◌, IfOk, IsErrOf, IsOkAnd, OnOk, length, vec_len};
ghost use Rattle.unixmodel.specs.Files.{Files};
ghost use Rattle.unixmodel.specs.Formats.{small};
ghost use Rattle.unixmodel.specs.Image.{Denotes, DenotesSmall, named_blocks, numbers_in_use};
ghost use Rattle.imagecheck.specs.Faults.{Tells};
ghost use Rattle.imagecheck.specs.declared.ImageFault.{ImageFault};
ghost use Rattle.imagemake.specs.Makers.{Adds, IsMaking};
ghost use Rattle.imagemake.specs.Making.{entry_at, thing_of};
ghost use Rattle.image_commands.specs.Entries.{AreFirst, HasManifest, IsThingOf, path_of, space_of};
ghost use Rattle.blockdev.specs.Blocks.{blocks_of};
ghost use Rattle.imagerules.specs.Content.{image_of};
ghost use Rattle.image_commands.specs.Handed.{Checks, Known, Lists, MakesIn, MigratesIn};
ghost use Rattle.image_files.specs.Listed.{IsDirectoryOf};
ghost use Rattle.events.specs.Lines.{AreSaid, lines_of};
ghost use Rattle.events.specs.Manifests.{IsLine};
ghost use Rattle.migrate.specs.Copies.{Overfills};

use crate::openings::disk_at;
use blockdev::{BLOCK_SIZE, MemDisk};
use commandline::{Check, Ls, Migrate, Mkfs};
use events::{Line, TextFault, parse};
use host::{Failure, Host, bytes_of, read_front, write};
use image::{MakeFault, Maker, MigrateFault, Summary, Thing};
use image_files::{ListingFault, write_directory, write_tree};
use layout::{Format, LONGEST, MOST_BLOCKS};
use std::alloc::Global;
use std::io::Write;

// What the lines of a manifest say; the text has to be one.
fn lines_of<'a>(alloc: Global, name: &'a str, text: &'a [u8]) -> Result<Vec<Line<'a>>, Failure<'a>>
    ensures { IfOk result (λ lines. AreSaid IsLine (lines_of text.now) lines.items) }
{
    if str::from_utf8(text).is_err() {
        return Err(Failure::Read(name));
    }
    match parse(alloc, text) {
        Ok(lines) => Ok(lines),
        Err(TextFault::Line(line)) => Err(Failure::Manifest(line)),
        Err(TextFault::NoMemory) => Err(Failure::NoMemory),
    }
}

// The first bytes of the host's file of this name, that many at most.
fn host_file<'a, H: Host>(host: &mut H, name: &'a [u8], most: usize) -> Result<Vec<u8>, Failure<'a>>
    ensures most { IfOk result (λ bytes. vec_len bytes ≤ most) }
    ensures first { IfOk result (λ bytes. AreFirst most name.now (H.files host.old) bytes.items) }
    ensures same { H.files host.new ≡ H.files host.old }
{
    match str::from_utf8(name) {
        Ok(name) => Ok(read_front(host, name, most)?.bytes),
        Err(_) => Err(Failure::Read("")),
    }
}

// The path that a line names.
fn path_of<'a>(line: &Line<'a>) -> &'a [u8]
    ensures { result.now ≡ path_of line.now }
{
    match *line {
        Line::Directory(path) | Line::File(path, _) | Line::Device(path, _, _) => path,
    }
}

// What a line asks for, with that many bytes of a host's file at most.
fn thing_from<'a, H: Host>(line: &Line<'a>, host: &mut H, most: usize) -> Result<Thing, Failure<'a>>
    ensures thing { IfOk result (λ thing. IsThingOf most (H.files host.old) line.now (thing_of thing)) }
    ensures same { H.files host.new ≡ H.files host.old }
{
    match *line {
        Line::Directory(_) => Ok(Thing::Directory),
        Line::File(_, name) => Ok(Thing::File(host_file(host, name, most)?)),
        Line::Device(_, major, minor) => Ok(Thing::Device { major, minor }),
    }
}

// How many bytes the blocks of an image of this size have; there is no image of more blocks, and nothing is kept for
// it.
fn space_of(size: u32) -> usize
    ensures { result ≡ space_of size }
{
    if size <= MOST_BLOCKS {
        BLOCK_SIZE * size as usize
    } else {
        0
    }
}

// An image with a thing more at a path, if it was made so far.
fn with<'a>(
    making: Result<Maker<'a>, MakeFault>,
    path: &'a [u8],
    thing: &Thing,
) -> Result<Maker<'a>, MakeFault>
    requires { IfOk making IsMaking }
    ensures { IfOk result (λ new. IsOkAnd making.entry (λ old. Adds old (entry_at path.now thing.now) new)) }
{
    making?.with(path, thing)
}

// An image of the entries that the lines ask for. All of the host's files are read, in their order, each to a byte more
// than a file or all blocks hold, and none is kept beside the next; what is wrong with an entry is said after all are.
fn maker_of<'a, H: Host>(
    alloc: Global,
    lines: &[Line<'a>],
    size: u32,
    inodes: u32,
    host: &mut H,
) -> Result<Maker<'a>, Failure<'a>>
    ensures entries { IfOk result (HasManifest size inodes (H.files host.old) lines.now) }
    ensures same { H.files host.new ≡ H.files host.old }
{
    let most = LONGEST.min(space_of(size)) + 1;
    let mut making = Maker::new(alloc, size, inodes);
    for line in lines {
        let thing = thing_from(line, host, most)?;
        making = with(making, path_of(line), &thing);
    }
    match making {
        Ok(maker) => Ok(maker),
        Err(fault) => Err(Failure::Make(fault)),
    }
}

/// The command `mkfs`, for a manifest of this text. The text is read whole before any of the host's files; of these one
/// after another is held beside the image.
pub fn mkfs<'a, H: Host>(
    alloc: Global,
    words: Mkfs<'a>,
    text: &'a [u8],
    host: &mut H,
) -> Result<(), Failure<'a>>
    ensures { OnOk result (Known (MakesIn words.entry text.now) (H.files host.old) (H.files host.new)) }
{
    let lines = lines_of(alloc, words.manifest, text)?;
    let maker = maker_of(alloc, lines.as_slice(), words.size, words.inodes, host)?;
    match maker.into_image() {
        Ok(image) => write(host, words.image, image.as_slice()),
        Err(fault) => Err(Failure::Make(fault)),
    }
}

/// The command `check`.
pub fn check<'a, H: Host>(
    alloc: Global,
    words: Check<'a>,
    host: &mut H,
) -> Result<Summary, Failure<'a>>
    ensures used { IfOk result (λ summary. Checks words.entry summary (H.files host.old)) }
    ensures same { H.files host.new ≡ H.files host.old }
{
    let mut disk = disk_at(host, words.image)?;
    match image::check(alloc, &mut disk) {
        Ok(summary) => Ok(summary),
        Err(fault) => Err(Failure::Image(fault)),
    }
}

// The image of the large format that one of the small format becomes, and what it uses.
fn migrated(alloc: Global, old: &[u8]) -> Result<(Vec<u8>, Summary), MigrateFault>
    ensures image { IfOk result (λ made. (files : Files) → DenotesSmall old.now files → Denotes made.0.items files) }
    ensures source { IfOk result (λ made. (files : Files) × DenotesSmall old.now files) }
    ensures inodes { IfOk result (λ made. made.1.inodes ≡ length (numbers_in_use made.0.items)) }
    ensures blocks { IfOk result (λ made. made.1.blocks ≡ length (named_blocks made.0.items)) }
    ensures refused { (fault : ImageFault) → IsErrOf result (MigrateFault.Image fault) → Tells small old.now fault }
    ensures full { IsErrOf result MigrateFault.Blocks → Overfills old.now }
{
    let new = image::migrate(alloc, old)?;
    let Ok(mut disk) = MemDisk::new(new) else {
        unreachable!();
    };
    let summary = image::check(alloc, &mut disk)?;
    Ok((disk.into_bytes(), summary))
}

/// The command `migrate`. Of an old image that is too long a byte more than the longest has is read. The new one is
/// checked before it is written.
pub fn migrate<'a, H: Host>(
    alloc: Global,
    words: Migrate<'a>,
    host: &mut H,
) -> Result<Summary, Failure<'a>>
    ensures { OnOk result (Known (MigratesIn words.entry) (H.files host.old) (H.files host.new)) }
{
    let most = BLOCK_SIZE * Format::Small.most() as usize + 1;
    let old = bytes_of(read_front(host, words.old, most)?)?;
    let (new, summary) = match migrated(alloc, &old) {
        Ok(made) => made,
        Err(fault) => return Err(Failure::Migrate(fault)),
    };
    write(host, words.new, &new)?;
    Ok(summary)
}

// Why a directory isn't listed.
fn failure_of<'a>(fault: ListingFault) -> Failure<'a> {
    match fault {
        ListingFault::Image(fault) => Failure::Image(fault),
        ListingFault::Tree(fault) => Failure::Tree(fault),
        ListingFault::Output => Failure::Output,
        ListingFault::NoMemory => Failure::NoMemory,
    }
}

// Writes the directory that the words name, and those below it if they ask for them.
fn list<W: Write>(
    alloc: Global,
    words: Ls<'_>,
    disk: MemDisk,
    stdout: &mut W,
) -> Result<(), ListingFault>
    ensures { OnOk result (IsDirectoryOf (image_of (blocks_of disk.bytes)) words.entry.path.now) }
{
    let path = words.path.as_bytes();
    if words.recursive {
        write_tree(alloc, disk, path, stdout)
    } else {
        write_directory(alloc, disk, path, stdout)
    }
}

// Standard output takes what was written to it.
fn flushed<'a, W: Write>(stdout: &mut W) -> Result<(), Failure<'a>> {
    match stdout.flush() {
        Ok(()) => Ok(()),
        Err(_) => Err(Failure::Output),
    }
}

/// The command `ls`. The image is checked before anything is listed.
pub fn ls<'a, H: Host, W: Write>(
    alloc: Global,
    words: Ls<'a>,
    host: &mut H,
    stdout: &mut W,
) -> Result<(), Failure<'a>>
    ensures listed { OnOk result (Lists words.entry (H.files host.old)) }
    ensures same { H.files host.new ≡ H.files host.old }
{
    let disk = disk_at(host, words.image)?;
    match list(alloc, words, disk, stdout) {
        Ok(()) => flushed(stdout),
        Err(fault) => Err(failure_of(fault)),
    }
}
