//! Images, programs and assembly texts in buffers. Each returns 0, or the number of what is wrong.
ghost use Rattle.c_images.specs.Images.{AsTells, AsmTells, CheckTells, GetTells, ListTells, MakeTells, MigrateTells};
ghost use Rattle.c_images.specs.Images.{LocationTells, PutTells, blocks_for};
ghost use Rattle.std.specs.Prelude.{◌≡◌};

use crate::locations::location_of;
use crate::puts::{put_bytes, put_count};
use crate::summaries::{SummaryTold, put_summary};
use crate::texts::{
    AssembledTold, ExpandedTold, assembled_told, expanded_number, file_of, put_expanded, put_text,
};
use blockdev::BLOCK_SIZE;
use imagebytes::EntryTold;
use std::alloc::Global;

// How many blocks there is room for; as many as 32 bits count are more than any image has.
fn blocks_for(room: usize) -> u32
    ensures { result ≡ blocks_for room }
{
    (room / BLOCK_SIZE).min(0xffff_ffff) as u32
}

/// Makes an image of the entries of a manifest, whose paths and files are these bytes: as many blocks as there is room
/// for. 0, and then it is there; else why it isn't, and nothing is written.
pub fn mkfs(
    alloc: Global,
    entries: &[EntryTold],
    bytes: &[u8],
    inodes: u32,
    image: &mut [u8],
) -> u32
    ensures { MakeTells entries.now bytes.now inodes image.old image.new result }
{
    let blocks = blocks_for(image.len());
    put_bytes(
        &imagebytes::make(alloc, entries, bytes, blocks, inodes),
        image,
    )
}

/// Checks an image, and puts what it uses. 0, or the first rule that it breaks.
pub fn check(alloc: Global, image: &[u8], out: &mut SummaryTold) -> u32
    ensures { CheckTells image.now out.old out.new result }
{
    put_summary(imagebytes::check(alloc, image), out)
}

/// Lists the directory of a path: copies as many bytes of the list as there is room for, and puts how many it has. 0,
/// or why it isn't listed.
pub fn list(alloc: Global, image: &[u8], path: &[u8], out: &mut [u8], count: &mut usize) -> u32
    ensures { ListTells out.old out.new count.old count.new result }
{
    let listed = imagebytes::list(alloc, image, path);
    put_count(&listed, count);
    put_bytes(&listed, out)
}

/// Reads the file of a path: copies as many of its bytes as there is room for, and puts how many it has. 0, or why it
/// isn't read.
pub fn get(alloc: Global, image: &[u8], path: &[u8], out: &mut [u8], count: &mut usize) -> u32
    ensures { GetTells image.now path.now out.old out.new count.old count.new result }
{
    let got = imagebytes::get(alloc, image, path);
    put_count(&got, count);
    put_bytes(&got, out)
}

/// Puts a file into an image, in place. 0, and then the file of the path has these bytes; else why not, and nothing is
/// changed.
pub fn put(alloc: Global, image: &mut [u8], path: &[u8], bytes: &[u8]) -> u32
    ensures { PutTells path.now bytes.now image.old image.new result }
{
    put_bytes(&imagebytes::put(alloc, image, path, bytes), image)
}

/// Makes of an image of the format of small files one of the format in use, in place. 0, and then it denotes the same
/// files; else why not, and nothing is changed.
pub fn migrate(alloc: Global, image: &mut [u8]) -> u32
    ensures { MigrateTells image.old image.new result }
{
    put_bytes(&imagebytes::migrate(alloc, image), image)
}

/// Copies what a program's file says of an address, as `sum+0x10 (oops.c:4)`: as many bytes as there is room for, and
/// puts how many it has, none where the file says nothing of it. 0, or 4 where the host has no memory.
pub fn locate(alloc: Global, file: &[u8], address: u64, out: &mut [u8], count: &mut usize) -> u32
    ensures { LocationTells out.old out.new count.old count.new result }
{
    let location = location_of(alloc, file, address);
    put_count(&location, count);
    put_bytes(&location, out)
}

/// Assembles a text: copies as many bytes of the program's file as there is room for, and puts how many it has, or the
/// line of the fault. 0, or what is wrong with the line.
pub fn assemble(alloc: Global, text: &[u8], out: &mut [u8], told: &mut AssembledTold) -> u32
    ensures { AsmTells text.now out.old out.new told.new result }
{
    let made = file_of(alloc, text);
    *told = assembled_told(&made);
    put_bytes(&made, out)
}

/// Assembles a text as other assemblers take it: copies as many bytes of the program's file, and of the report, as
/// there is room for, and puts how many they have. 0: the report has the lines that `assemble` takes; 600: it has what
/// is wrong.
pub fn expand(
    alloc: Global,
    text: &[u8],
    out: &mut [u8],
    report: &mut [u8],
    told: &mut ExpandedTold,
) -> u32
    ensures { AsTells out.old out.new report.old report.new told.old told.new result }
{
    let became = assembly_texts::tell(alloc, text);
    put_expanded(&became, told);
    put_text(&became, out, report);
    expanded_number(&became)
}
