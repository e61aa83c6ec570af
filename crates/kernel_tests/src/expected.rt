//! Memories for rows, and what accesses to them need.
ghost use Rattle.std.specs.Prelude.{◌≡◌, ◌≤◌, length};
ghost use Rattle.std.specs.List.{range_with_len};
ghost use Rattle.frames.specs.Owned.{free_of, IsFreeList};

use frames::Memory;
use ram::{FrameNo, Ram};
use std::process::Abort;

/// The memory has `count` frames.
pub fn has_frames(rt: &impl Abort, ram: &Ram, count: u32)
    ensures { length ram.now ≡ count }
{
    let frames = ram.frame_count();
    assert!(rt; frames == count);
}

/// A row of a case holds.
pub fn expect_row(rt: &impl Abort, is_so: bool, case: &str, row: usize) {
    assert!(rt; is_so, "{case}: row {row}");
}

/// All rows of a case hold.
pub fn expect_case(rt: &impl Abort, is_so: bool, case: &str) {
    assert!(rt; is_so, "{case}");
}

/// A memory of `count` frames.
pub fn memory(rt: &(impl Abort + AllocGlobal), count: u32) -> Ram
    requires { count ≤ 32768 }
    ensures { length result ≡ count }
{
    let ram = Ram::new(rt.alloc(), count).expect(rt, "memory");
    has_frames(rt, &ram, count);
    ram
}

/// A memory of `count` frames, all free.
pub fn all_free(rt: &(impl Abort + AllocGlobal), count: u32) -> Memory
    requires { count ≤ 32768 }
    ensures all { free_of result ≡ range_with_len 0 count }
    ensures valid { IsFreeList result }
    ensures count { length result.ram ≡ count }
{
    let ram = memory(rt, count);
    Memory::new(rt.alloc(), ram).expect(rt, "counts")
}

/// Puts numbers of 8 bytes into frames, each at its offset.
pub fn store_all(rt: &impl Abort, ram: &mut Ram, rows: &[(u32, usize, u64)]) {
    for (frame, at, number) in rows {
        let frames = ram.frame_count();
        assert!(rt; *frame < frames && *at <= 4088);
        ram.store_u64(FrameNo(*frame), *at, *number);
    }
}
