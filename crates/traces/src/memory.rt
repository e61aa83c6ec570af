//! What a process has in its memory.

use blockdev::BlockDev;
use machine::Machine;
use sv39::Translate;

/// The size of a page, in bytes.
pub const PAGE_SIZE: u64 = 4096;

// The bytes from an address to the end of its page; none where the process may not read them.
fn readable<D: BlockDev, T: Translate>(machine: &Machine<D, T>, pid: u32, address: u64) -> &[u8] {
    match machine.peek(pid, address / PAGE_SIZE) {
        Some((page, marks)) if marks.u => &page[(address % PAGE_SIZE) as usize..],
        _ => &[],
    }
}

/// The byte at an address; `None` where the process may not read it.
pub(crate) fn byte<D: BlockDev, T: Translate>(
    machine: &Machine<D, T>,
    pid: u32,
    address: u64,
) -> Option<u8> {
    readable(machine, pid, address).first().copied()
}

// Takes the bytes from an address on, which may lie in several pages, one after another.
fn read_each<D: BlockDev, T: Translate>(
    machine: &Machine<D, T>,
    pid: u32,
    address: u64,
    bytes: &mut [u8],
) -> Option<()> {
    let mut at = address;
    for place in bytes {
        *place = byte(machine, pid, at)?;
        at = at.wrapping_add(1);
    }
    Some(())
}

/// Takes the bytes from an address on; `None` where the process may not read one of them. Where they lie in one page,
/// that is looked for once.
pub(crate) fn read<D: BlockDev, T: Translate>(
    machine: &Machine<D, T>,
    pid: u32,
    address: u64,
    bytes: &mut [u8],
) -> Option<()> {
    match readable(machine, pid, address).get(..bytes.len()) {
        Some(piece) => {
            bytes.copy_from_slice(piece);
            Some(())
        }
        None => read_each(machine, pid, address, bytes),
    }
}

/// The number of 4 bytes at an address, from the least one on; `None` where the process may not read one of them.
pub(crate) fn word<D: BlockDev, T: Translate>(
    machine: &Machine<D, T>,
    pid: u32,
    address: u64,
) -> Option<u32> {
    let mut bytes = [0; 4];
    read(machine, pid, address, &mut bytes)?;
    Some(u32::from_le_bytes(bytes))
}

/// The number of 8 bytes at an address, from the least one on; `None` where the process may not read one of them.
pub(crate) fn double<D: BlockDev, T: Translate>(
    machine: &Machine<D, T>,
    pid: u32,
    address: u64,
) -> Option<u64> {
    let mut bytes = [0; 8];
    read(machine, pid, address, &mut bytes)?;
    Some(u64::from_le_bytes(bytes))
}
