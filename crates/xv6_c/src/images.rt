//! Images, programs and assembly texts in memory, for C: no machine is needed.
//! Each returns 0, or the number of what is wrong.
ghost use Rattle.c_images.specs.Images.{AsTells, AsmTells, CheckTells, GetTells, ListTells, MakeTells, MigrateTells};
ghost use Rattle.c_images.specs.Images.{LocationTells, PutTells};

use c_images::{AssembledTold, EntryTold, ExpandedTold, SummaryTold};
use std::alloc::Global;

/// Makes an image of the entries of a manifest, whose paths and contents are these bytes: as many blocks as there is
/// room for. 0, and then it is there; else why not, and nothing is written.
#[unsafe(no_mangle)]
pub extern "C" fn xv6_raw_mkfs(
    alloc: Global,
    entries: &[EntryTold],
    bytes: &[u8],
    inodes: u32,
    image: &mut [u8],
) -> u32
    ensures { MakeTells entries.now bytes.now inodes image.old image.new result }
{
    c_images::mkfs(alloc, entries, bytes, inodes, image)
}

/// Checks an image, and puts what it uses. 0, or the first rule that it breaks.
#[unsafe(no_mangle)]
pub extern "C" fn xv6_raw_check(alloc: Global, image: &[u8], out: &mut SummaryTold) -> u32
    ensures { CheckTells image.now out.old out.new result }
{
    c_images::check(alloc, image, out)
}

/// Lists the directory of a path: copies as many bytes of the list as there is room for, and puts how many it has. 0,
/// or why it isn't listed.
#[unsafe(no_mangle)]
pub extern "C" fn xv6_raw_list(
    alloc: Global,
    image: &[u8],
    path: &[u8],
    out: &mut [u8],
    count: &mut usize,
) -> u32
    ensures { ListTells out.old out.new count.old count.new result }
{
    c_images::list(alloc, image, path, out, count)
}

/// Reads the file of a path: copies as many of its bytes as there is room for, and puts how many it has. 0, or why it
/// isn't read.
#[unsafe(no_mangle)]
pub extern "C" fn xv6_raw_get(
    alloc: Global,
    image: &[u8],
    path: &[u8],
    out: &mut [u8],
    count: &mut usize,
) -> u32
    ensures { GetTells image.now path.now out.old out.new count.old count.new result }
{
    c_images::get(alloc, image, path, out, count)
}

/// Puts a file into an image, in place. 0, and then the file of the path has these bytes; else why not, and nothing is
/// changed.
#[unsafe(no_mangle)]
pub extern "C" fn xv6_raw_put(alloc: Global, image: &mut [u8], path: &[u8], bytes: &[u8]) -> u32
    ensures { PutTells path.now bytes.now image.old image.new result }
{
    c_images::put(alloc, image, path, bytes)
}

/// Makes of an image of the format of small files one of the format in use, in place. 0, and then it denotes the same
/// files; else why not, and nothing is changed.
#[unsafe(no_mangle)]
pub extern "C" fn xv6_raw_migrate(alloc: Global, image: &mut [u8]) -> u32
    ensures { MigrateTells image.old image.new result }
{
    c_images::migrate(alloc, image)
}

/// Copies what a program's file says of an address, as `sum+0x10 (oops.c:4)`: as many bytes as there is room for, and
/// puts how many it has, none where the file says nothing of it. 0, or 4 where the host has no memory.
#[unsafe(no_mangle)]
pub extern "C" fn xv6_raw_locate(
    alloc: Global,
    file: &[u8],
    address: u64,
    out: &mut [u8],
    count: &mut usize,
) -> u32
    ensures { LocationTells out.old out.new count.old count.new result }
{
    c_images::locate(alloc, file, address, out, count)
}

/// Assembles a text: copies as many bytes of the program's file as there is room for, and puts how many it has, or the
/// line of the fault. 0, or what is wrong with the line.
#[unsafe(no_mangle)]
pub extern "C" fn xv6_raw_asm(
    alloc: Global,
    text: &[u8],
    out: &mut [u8],
    told: &mut AssembledTold,
) -> u32
    ensures { AsmTells text.now out.old out.new told.new result }
{
    c_images::assemble(alloc, text, out, told)
}

/// Assembles a text as other assemblers take it: copies as many bytes of the program's file, and of the report, as
/// there is room for, and puts how many they have. 0: the report has the lines that `xv6_raw_asm` takes; 600: it has
/// what is wrong.
#[unsafe(no_mangle)]
pub extern "C" fn xv6_raw_as(
    alloc: Global,
    text: &[u8],
    out: &mut [u8],
    report: &mut [u8],
    told: &mut ExpandedTold,
) -> u32
    ensures { AsTells out.old out.new report.old report.new told.old told.new result }
{
    c_images::expand(alloc, text, out, report, told)
}
