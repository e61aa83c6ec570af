//! How a program is loaded into the memory of a slot.

ghost use Rattle.std.specs.Prelude.{◌≡◌, ◌*◌, ◌+◌, ◌<◌, ◌≤◌, ◌^◌, IfOk, OnErr, OnOk, length, replicate, true};
ghost use Rattle.programs.specs.Headed.{file_of, loaded_by};
ghost use Rattle.programs.specs.Loadable.{HoldsSome, IsReady, MayFill, MayFollow, MayLoadAll, MayLoadNext, MayReplace};
ghost use Rattle.programs.specs.Loadable.{ReachesTo, with_part};
ghost use Rattle.programs.specs.Passed.{stacked};
ghost use Rattle.programs.specs.Placed.{HasRoom, IsPaged, Leaves, Loads, LoadsSegment, LoadsTo, LoadsWithStack};
ghost use Rattle.programs.specs.Placed.{next_in, with_more, with_paged};
ghost use Rattle.spaces.specs.Spaces.{has_space, view_at, no_pages, with_view};
ghost use Rattle.tree.specs.Tree.{Serves};
ghost use Rattle.unixmodel.specs.Memory.{zero_page};
ghost use Rattle.unixmodel.specs.Plan.{loaded_of};
ghost use Rattle.vm.specs.Leaf.{marks_from};

use crate::arguments::Arguments;
use crate::headers::{Program, read_part, read_segment};
use blockdev::{BLOCK_SIZE, BlockDev, DeviceFault};
use elf::{FileHeader, LoadSegment, PROGRAM_HEADER_SIZE};
use ram::FRAME_SIZE;
use spaces::Spaces;
use sv39::Translate;
use tree::Tree;
use vm::Perm;

// The marks of the guard page below a stack: no program may use it.
const GUARD: Perm = Perm {
    w: true,
    x: false,
    u: false,
};

// The marks of a stack's page.
const STACK: Perm = Perm {
    w: true,
    x: false,
    u: true,
};

/// Removes all pages of a slot.
pub fn clear<T: Translate>(spaces: &mut Spaces<T>, at: usize)
    requires { has_space spaces.old at ≡ true }
    ensures { spaces.new ≡ with_view spaces.old at no_pages }
{
    let size = spaces.size(at);
    spaces.shrink(at, size);
}

// Adds `count` pages of zeros, for which there are frames.
fn add_pages<T: Translate>(spaces: &mut Spaces<T>, at: usize, count: u64, perm: Perm)
    requires space { has_space spaces.old at ≡ true }
    requires paged { IsPaged (view_at spaces.old at) }
    requires few { count < 2 ^ 32 }
    requires room { HasRoom spaces.old at (length (view_at spaces.old at).memory + count) }
    ensures { spaces.new ≡ with_more spaces.old at (replicate count (zero_page (marks_from perm))) }
{
    let has_grown = spaces.grow(at, count * FRAME_SIZE as u64, perm);
    prove!(has_grown);
}

// Reads as many bytes of a file as fit in a buffer, all of which it has, and writes them into the pages of a slot.
fn fill_piece<D: BlockDev, T: Translate>(
    tree: &mut Tree<D>,
    spaces: &mut Spaces<T>,
    at: usize,
    number: usize,
    offset: usize,
    address: u64,
    buffer: &mut [u8],
) -> Result<(), DeviceFault>
    requires ready { IsReady tree.old spaces.old at number }
    requires within { offset + length buffer.old ≤ length (file_of tree.old number) }
    requires inside { ReachesTo spaces.old at (address + length buffer.old) }
    ensures serves { Serves tree.old tree.new result (Leaves tree.old tree.new) }
    ensures filled { OnOk result
        (spaces.new ≡ with_part spaces.old at address tree.old number offset (length buffer.old)) }
    ensures failed { OnErr result (spaces.new ≡ spaces.old) }
{
    read_part(tree, number, offset, buffer)?;
    spaces.fill(at, address, buffer);
    Ok(())
}

// Writes bytes of a file, which it has, into the pages of a slot from an address on, whatever their marks.
fn fill_node<D: BlockDev, T: Translate>(
    tree: &mut Tree<D>,
    spaces: &mut Spaces<T>,
    at: usize,
    number: usize,
    offset: u64,
    address: u64,
    count: u64,
) -> Result<(), DeviceFault>
    requires ready { IsReady tree.old spaces.old at number }
    requires fits { MayFill tree.old spaces.old at number offset address count }
    ensures serves { Serves tree.old tree.new result (Leaves tree.old tree.new) }
    ensures filled { OnOk result (spaces.new ≡ with_part spaces.old at address tree.old number offset count) }
    ensures failed { OnErr result (HoldsSome spaces.old spaces.new at) }
{
    spaces.pages_are_whole(at);
    let mut buffer = [0; BLOCK_SIZE];
    let mut done = 0;
    while done < count {
        let size = (count - done).min(BLOCK_SIZE as u64) as usize;
        let from = offset as usize + done as usize;
        let piece = &mut buffer[..size];
        fill_piece(tree, spaces, at, number, from, address + done, piece)?;
        done += size as u64;
    }
    Ok(())
}

// Loads a segment of a file after the pages of a slot, with the pages of the gap before it.
fn load_segment<D: BlockDev, T: Translate>(
    tree: &mut Tree<D>,
    spaces: &mut Spaces<T>,
    at: usize,
    number: usize,
    segment: LoadSegment,
) -> Result<(), DeviceFault>
    requires ready { IsReady tree.old spaces.old at number }
    requires long { length (file_of tree.old number) < 2 ^ 32 }
    requires next { MayFollow spaces.old at (length (file_of tree.old number)) segment }
    ensures serves { Serves tree.old tree.new result (Leaves tree.old tree.new) }
    ensures loaded { OnOk result (LoadsSegment (file_of tree.old number) spaces.old spaces.new at segment) }
    ensures failed { OnErr result (HoldsSome spaces.old spaces.new at) }
{
    let LoadSegment {
        offset,
        address,
        file_size,
        size,
        ..
    } = segment;
    let perm = Perm {
        w: segment.writable,
        x: segment.executable,
        u: true,
    };
    let end = (address + size).div_ceil(FRAME_SIZE as u64);
    let pages = end - spaces.pages(at);
    add_pages(spaces, at, pages, perm);
    fill_node(tree, spaces, at, number, offset, address, file_size)
}

// Loads the segment of the program header at an offset, which isn't refused, and returns where it ends.
fn load_next<D: BlockDev, T: Translate>(
    tree: &mut Tree<D>,
    spaces: &mut Spaces<T>,
    at: usize,
    number: usize,
    place: usize,
    end: u64,
    len: u32,
) -> Result<u64, DeviceFault>
    requires ready { IsReady tree.old spaces.old at number }
    requires long { len ≡ length (file_of tree.old number) }
    requires next { MayLoadNext (file_of tree.old number) spaces.old at place end }
    ensures serves { Serves tree.old tree.new result (Leaves tree.old tree.new) }
    ensures loaded { IfOk result
        (LoadsTo spaces.old spaces.new at (next_in (file_of tree.old number) place (view_at spaces.old at) end)) }
    ensures failed { OnErr result (HoldsSome spaces.old spaces.new at) }
{
    match read_segment(tree, number, place, end, len)?.unwrap() {
        Some(segment) => {
            load_segment(tree, spaces, at, number, segment)?;
            Ok(segment.address + segment.size)
        }
        None => Ok(end),
    }
}

// Loads the segments of a file, none of which is refused, into a slot without pages.
fn load_segments<D: BlockDev, T: Translate>(
    tree: &mut Tree<D>,
    spaces: &mut Spaces<T>,
    at: usize,
    number: usize,
    header: FileHeader,
    len: u32,
) -> Result<(), DeviceFault>
    requires ready { IsReady tree.old spaces.old at number }
    requires long { len ≡ length (file_of tree.old number) }
    requires all { MayLoadAll (file_of tree.old number) spaces.old at header }
    ensures serves { Serves tree.old tree.new result (Leaves tree.old tree.new) }
    ensures loaded { OnOk result (Loads spaces.old spaces.new at (loaded_by (file_of tree.old number) header)) }
    ensures failed { OnErr result (HoldsSome spaces.old spaces.new at) }
{
    let mut end = 0;
    for i in 0..header.count {
        let place = header.program_headers as usize + PROGRAM_HEADER_SIZE * usize::from(i);
        end = load_next(tree, spaces, at, number, place, end, len)?;
    }
    Ok(())
}

/// Adds a guard page and a page for the stack, which has these bytes, after the pages of a slot.
pub fn add_stack<T: Translate>(spaces: &mut Spaces<T>, at: usize, page: &[u8; FRAME_SIZE])
    requires space { has_space spaces.old at ≡ true }
    requires paged { IsPaged (view_at spaces.old at) }
    requires room { HasRoom spaces.old at (length (view_at spaces.old at).memory + 2) }
    ensures { spaces.new ≡ with_paged spaces.old at (stacked (view_at spaces.old at).memory page.now) }
{
    let pages = spaces.pages(at);
    add_pages(spaces, at, 1, GUARD);
    add_pages(spaces, at, 1, STACK);
    spaces.fill(at, (pages + 1) * FRAME_SIZE as u64, page);
}

/// Replaces what a slot holds by a program with its arguments. Where the device fails nothing more is promised of
/// that slot than that it has a space.
pub fn load<D: BlockDev, T: Translate>(
    tree: &mut Tree<D>,
    spaces: &mut Spaces<T>,
    at: usize,
    number: usize,
    program: &Program,
    arguments: &Arguments,
) -> Result<(), DeviceFault>
    requires { MayReplace tree.old spaces.old at number program.now }
    ensures serves { Serves tree.old tree.new result (Leaves tree.old tree.new) }
    ensures loaded { OnOk result
        (LoadsWithStack spaces.old spaces.new at (loaded_of (file_of tree.old number)) arguments.now.page) }
    ensures failed { OnErr result (HoldsSome spaces.old spaces.new at) }
{
    clear(spaces, at);
    let len = tree.stat(number)?.size;
    load_segments(tree, spaces, at, number, program.header, len)?;
    add_stack(spaces, at, &arguments.page);
    Ok(())
}
