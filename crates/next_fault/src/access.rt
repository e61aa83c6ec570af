//! What a process may access of its pages, and the word of its next instruction.
ghost use Rattle.std.specs.Prelude.{◌≡◌, ◌+◌, ◌<◌, is_some, option_map, slice_get, slice_range};
ghost use Rattle.std.specs.Option.{unwrap_or};
ghost use Rattle.next_fault.specs.Causes.{memory_shown};
ghost use Rattle.unixmodel.specs.Memory.{bytes_at, page_for, permits};
ghost use Rattle.unixmodel.specs.Numbers.{number};
ghost use Rattle.vm.specs.Leaf.{marks_from};

use blockdev::BlockDev;
use byteorder::{ByteOrder, LittleEndian};
use machine::{Machine, Perm};
use sv39::Translate;
use unixmodel::trap::Access;

/// Whether the marks of a page permit an access.
pub fn permits(access: Access, marks: Perm) -> bool
    ensures { result ≡ permits access (marks_from marks) }
{
    match access {
        Access::Fetch => marks.x && marks.u,
        Access::Load => marks.u,
        Access::Store => marks.w && marks.u,
    }
}

/// Whether the page of an address permits an access. A page that is shared and that the process may write by right
/// does.
pub fn allows<D: BlockDev, T: Translate>(
    machine: &Machine<D, T>,
    pid: u32,
    address: u64,
    access: Access,
) -> bool
    ensures { result ≡ is_some (page_for access (memory_shown machine.now.state pid) address) }
{
    match machine.peek(pid, address / 4096) {
        Some((_, marks)) => permits(access, marks),
        None => false,
    }
}

// A byte of a page, and 0 after its end.
fn byte(page: &[u8], at: usize) -> u32
    ensures value { result ≡ unwrap_or (slice_get page.now at) 0 }
    ensures small { result < 256 }
{
    match page.get(at) {
        Some(byte) => u32::from(*byte),
        None => 0,
    }
}

// The number of the four bytes from an offset in a page on, of which some may be past its end.
#[inline]
fn word_at(page: &[u8; 4096], at: usize) -> u32
    requires { at < 4096 }
    ensures { result ≡ number (slice_range page.now at (at + 4)) }
{
    if at + 4 <= 4096 {
        return LittleEndian::read_u32(&page[at..at + 4]);
    }
    byte(page, at)
        + 0x100 * byte(page, at + 1)
        + 0x1_0000 * byte(page, at + 2)
        + 0x100_0000 * byte(page, at + 3)
}

/// The word of the instruction at an address, where it may be fetched.
pub fn word<D: BlockDev, T: Translate>(machine: &Machine<D, T>, pid: u32, pc: u64) -> Option<u32>
    ensures { result ≡ option_map (λ page. number (bytes_at 4 pc page))
        (page_for Access.Fetch (memory_shown machine.now.state pid) pc) }
{
    let (page, marks) = machine.peek(pid, pc / 4096)?;
    if !permits(Access::Fetch, marks) {
        return None;
    }
    Some(word_at(page, (pc % 4096) as usize))
}
