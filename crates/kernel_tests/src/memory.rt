//! Numbers and copies in a memory.
use crate::expected::{has_frames, memory};
use ram::{FrameNo, NoMemory, Ram};
use std::process::Abort;

// Three frames, into which a number of each width was stored.
fn stored(rt: &(impl Abort + AllocGlobal)) -> Ram {
    let mut ram = memory(rt, 3);
    ram.store_u64(FrameNo(1), 8, 0x1122_3344_5566_7788);
    has_frames(rt, &ram, 3);
    ram.store_u8(FrameNo(1), 15, 0xaa);
    has_frames(rt, &ram, 3);
    ram.store_u16(FrameNo(1), 13, 0xccbb);
    has_frames(rt, &ram, 3);
    ram.store_u32(FrameNo(1), 4092, 0xdead_beef);
    ram
}

#[test]
fn numbers_stand_lowest_byte_first(rt: HostRuntime) {
    let ram = stored(&rt);
    has_frames(&rt, &ram, 3);
    let eight = (ram.load_u64(FrameNo(1), 8), ram.load_u64(FrameNo(2), 8));
    assert!(rt; eight == (0xaacc_bb44_5566_7788, 0));
    let (one, two) = (ram.load_u8(FrameNo(1), 8), ram.load_u16(FrameNo(1), 4094));
    assert!(rt; (one, two, ram.load_u32(FrameNo(1), 12)) == (0x88, 0xdead, 0xaacc_bb44));
}

// Three frames, of which the last was copied to the first, and bytes of that to the second.
fn copied(rt: &(impl Abort + AllocGlobal)) -> Ram {
    let mut ram = memory(rt, 3);
    ram.frame_mut(FrameNo(2))[4095] = 7;
    has_frames(rt, &ram, 3);
    ram.copy(FrameNo(2), FrameNo(0));
    has_frames(rt, &ram, 3);
    ram.copy_part(FrameNo(0), 4094, FrameNo(1), 1, 2);
    has_frames(rt, &ram, 3);
    ram
}

#[test]
fn frames_are_copied_and_zeroed(rt: HostRuntime) {
    let mut ram = copied(&rt);
    has_frames(&rt, &ram, 3);
    ram.zero(FrameNo(2));
    has_frames(&rt, &ram, 3);
    let (copy, zeroed) = (ram.frame(FrameNo(0))[4095], ram.frame(FrameNo(2))[4095]);
    let (byte, word) = (ram.frame(FrameNo(1))[2], ram.load_u32(FrameNo(1), 0));
    assert!(rt; (copy, zeroed, byte, word) == (7, 0, 7, 0x0007_0000));
}

#[test]
fn want_of_memory_is_told(rt: HostRuntime) {
    let text = format!(in rt.alloc(); "{NoMemory}").expect(&rt, "memory");
    assert!(rt; text.as_str() == "no memory");
}
