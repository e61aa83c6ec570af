//! A disk in memory, and one of which an access fails.

ghost use Rattle.std.specs.Prelude.{◌≡◌};

use blockdev::{BlockDev, FailAt, MemDisk};
use std::num::NonZeroU64;
use std::process::Abort;

/// A disk of `count` zeros.
pub fn zeros(rt: &(impl Abort + AllocGlobal), count: usize) -> MemDisk {
    let bytes = vec![in rt.alloc(); 0; count].expect(rt, "memory");
    MemDisk::new(bytes).expect(rt, "whole blocks")
}

/// A disk of which one access fails, after `good` good ones.
pub fn fail_after(disk: MemDisk, good: u64) -> FailAt<MemDisk>
    ensures { result.device ≡ disk }
{
    FailAt::new(disk, NonZeroU64::MIN.saturating_add(good))
}

#[test]
fn reads_what_was_written(rt: HostRuntime) {
    let mut disk = zeros(&rt, 3 * 1024);
    assert!(rt; disk.blocks() == 3);
    let written = disk.write(1, &[7; 1024]);
    assert!(rt; disk.blocks() == 3);
    assert!(rt; written.is_ok() && disk.read(1) == Ok([7; 1024]));
    let bytes = disk.bytes();
    assert!(rt; bytes.len() == 3072 && disk.as_bytes() == Some(bytes));
    assert!(rt; bytes[1023..1025] == [0, 7] && bytes[2047..2049] == [7, 0]);
    assert!(rt; disk.into_bytes().len() == 3072);
}

#[test]
fn refuses_parts_of_blocks(rt: HostRuntime) {
    for (length, whole) in [(0, true), (1023, false), (1024, true), (1025, false)] {
        let bytes = vec![in rt.alloc(); 0; length].expect(&rt, "memory");
        assert!(rt; MemDisk::new(bytes).is_ok() == whole, "at {length}");
    }
}

#[test]
fn fails_once(rt: HostRuntime) {
    let mut flaky = fail_after(zeros(&rt, 1024), 1);
    assert!(rt; flaky.blocks() == 1 && flaky.as_bytes().is_none());
    assert!(rt; flaky.write(0, &[1; 1024]).is_ok() && !flaky.has_failed());
    assert!(rt; flaky.read(0).is_err() && flaky.has_failed());
    assert!(rt; flaky.read(0).is_ok());
    // Each good access is one of the disk's, and the one that fails is none.
    let disk = flaky.into_inner();
    assert!(rt; disk.reads() == 1 && disk.writes() == 1);
    assert!(rt; disk.bytes().starts_with(&[1]));
}
