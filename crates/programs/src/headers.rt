//! What the headers of a program file say.

ghost use Rattle.std.specs.Prelude.{◌≡◌, ◌*◌, ◌+◌, ◌<◌, ◌≤◌, ◌^◌, length, false, true};
ghost use Rattle.elf.specs.Headers.{is_within};
ghost use Rattle.programs.specs.Headed.{IsRead, Tells, TellsProgram, end_behind, end_of, file_of, headed, part_of};
ghost use Rattle.programs.specs.Headed.{program_at, program_in, segment_behind};
ghost use Rattle.tree.specs.Tree.{Serves};
ghost use Rattle.tree.specs.Written.{IsFile};
ghost use Rattle.unixmodel.specs.Counts.{page_frames};
ghost use Rattle.unixmodel.specs.Files.{Node, slot};

use blockdev::{BlockDev, DeviceFault};
use elf::{ElfFault, FileHeader, HEADER_SIZE, LoadSegment, PROGRAM_HEADER_SIZE, header, segment};
use tree::{FILE, Tree};

/// A program, by what the headers of its file say.
#[derive(Clone, Copy)]
pub struct Program {
    /// Where it begins, and where its program headers are.
    pub header: FileHeader,
    /// How many pages its segments have, and the gaps between them.
    pub pages: u64,
}

impl Program {
    /// How many frames have to be free beside the old program: those of its tables and pages, and of the pages of the
    /// guard and the stack.
    pub fn frames(&self) -> u64
        requires { self.now.pages < 2 ^ 63 }
        ensures { result ≡ 3 + page_frames (self.now.pages + 2) }
    {
        let pages = self.pages + 2;
        3 + pages + pages.div_ceil(512) + 1
    }
}

// The bytes of a file from an offset on, all of which it has.
pub(crate) fn read_part<D: BlockDev>(
    tree: &mut Tree<D>,
    number: usize,
    at: usize,
    out: &mut [u8],
) -> Result<(), DeviceFault>
    requires up { tree.old.failed ≡ false }
    requires file { IsFile tree.old.files number }
    requires within { at + length out.old ≤ length (file_of tree.old number) }
    ensures { Serves tree.old tree.new result
        (λ done. IsRead tree.old tree.new out.new (part_of tree.old number at (length out.old))) }
{
    let _all = tree.read(number, at, out)?;
    Ok(())
}

// The header of a file of `len` bytes; `None` where it is refused.
fn read_header<D: BlockDev>(
    tree: &mut Tree<D>,
    number: usize,
    len: u32,
) -> Result<Option<FileHeader>, DeviceFault>
    requires up { tree.old.failed ≡ false }
    requires file { IsFile tree.old.files number }
    requires long { len ≡ length (file_of tree.old number) }
    ensures { Serves tree.old tree.new result (Tells tree.old tree.new (headed (file_of tree.old number))) }
{
    if len < HEADER_SIZE as u32 {
        return Ok(None);
    }
    let mut bytes = [0; HEADER_SIZE];
    read_part(tree, number, 0, &mut bytes)?;
    Ok(header(&bytes, u64::from(len)).ok())
}

// The segment of the program header at an offset, after what ends at address `end`, where the file has the header.
pub(crate) fn read_segment<D: BlockDev>(
    tree: &mut Tree<D>,
    number: usize,
    at: usize,
    end: u64,
    len: u32,
) -> Result<Result<Option<LoadSegment>, ElfFault>, DeviceFault>
    requires up { tree.old.failed ≡ false }
    requires file { IsFile tree.old.files number }
    requires long { len ≡ length (file_of tree.old number) }
    requires within { at + 56 ≤ len }
    ensures { Serves tree.old tree.new result
        (Tells tree.old tree.new (segment_behind (file_of tree.old number) at end)) }
{
    let mut bytes = [0; PROGRAM_HEADER_SIZE];
    read_part(tree, number, at, &mut bytes)?;
    Ok(segment(&bytes, end, u64::from(len)))
}

// Where what is loaded ends after the program header at an offset, which the file has; `None` where it is refused.
fn read_end<D: BlockDev>(
    tree: &mut Tree<D>,
    number: usize,
    at: usize,
    end: u64,
    len: u32,
) -> Result<Option<u64>, DeviceFault>
    requires up { tree.old.failed ≡ false }
    requires file { IsFile tree.old.files number }
    requires long { len ≡ length (file_of tree.old number) }
    requires within { at + 56 ≤ len }
    ensures { Serves tree.old tree.new result (Tells tree.old tree.new (end_behind (file_of tree.old number) at end)) }
{
    match read_segment(tree, number, at, end, len)? {
        Err(_) => Ok(None),
        Ok(None) => Ok(Some(end)),
        Ok(Some(segment)) => Ok(Some(segment.address + segment.size)),
    }
}

// Where the segments of a file end in memory; `None` where one is refused.
fn read_ends<D: BlockDev>(
    tree: &mut Tree<D>,
    number: usize,
    header: FileHeader,
    len: u32,
) -> Result<Option<u64>, DeviceFault>
    requires up { tree.old.failed ≡ false }
    requires file { IsFile tree.old.files number }
    requires long { len ≡ length (file_of tree.old number) }
    requires within { is_within header.program_headers (56 * header.count) len ≡ true }
    ensures { Serves tree.old tree.new result (Tells tree.old tree.new (end_of (file_of tree.old number) header)) }
{
    let mut end = 0;
    for i in 0..header.count {
        let at = header.program_headers as usize + PROGRAM_HEADER_SIZE * usize::from(i);
        let Some(next) = read_end(tree, number, at, end, len)? else {
            return Ok(None);
        };
        end = next;
    }
    Ok(Some(end))
}

// The program of a file of `len` bytes; `None` where it is refused.
fn read_headers<D: BlockDev>(
    tree: &mut Tree<D>,
    number: usize,
    len: u32,
) -> Result<Option<Program>, DeviceFault>
    requires up { tree.old.failed ≡ false }
    requires file { IsFile tree.old.files number }
    requires long { len ≡ length (file_of tree.old number) }
    ensures { Serves tree.old tree.new result (TellsProgram tree.old tree.new (program_in (file_of tree.old number))) }
{
    let Some(header) = read_header(tree, number, len)? else {
        return Ok(None);
    };
    let Some(end) = read_ends(tree, number, header, len)? else {
        return Ok(None);
    };
    let pages = end.div_ceil(4096);
    Ok(Some(Program { header, pages }))
}

/// The program of the file that a number names, by what its headers say; `None` where it can't be executed, or the
/// number is that of no file.
pub fn read_program<D: BlockDev>(
    tree: &mut Tree<D>,
    number: usize,
) -> Result<Option<Program>, DeviceFault>
    requires up { tree.old.failed ≡ false }
    requires node { (node : Node) × (slot tree.old.files number ≡ Some node) }
    ensures { Serves tree.old tree.new result (TellsProgram tree.old tree.new (program_at tree.old.files number)) }
{
    let stat = tree.stat(number)?;
    if stat.kind != FILE {
        return Ok(None);
    }
    read_headers(tree, number, stat.size)
}
