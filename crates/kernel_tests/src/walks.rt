//! Walks of page tables that are written by hand.
use crate::expected::{memory, store_all};
use bitflags::Flags;
use ram::{FrameNo, Ram};
use std::process::Abort;
use sv39::{
    Access, BASE, EntryBits, Plain, Pte, Recent, Tlb, Translate, Turn, walk, walk_counted,
    walk_page,
};
use test_translators::Noting;

// Virtual addresses, accesses, and the physical addresses that they reach.
const ADDRESSES: [(u64, Access, Option<u64>); 10] = [
    (0x3abc, Access::Load, Some(0x8000_3abc)),
    (0x3abc, Access::Store, None),
    (0x3abc, Access::Fetch, None),
    (0x4000, Access::Load, None),
    (0x20_2005, Access::Store, Some(0x8000_2005)),
    (0x20_3ffc, Access::Fetch, Some(0x8000_3ffc)),
    (0x20_4000, Access::Load, None),
    (0x40_0000_0000, Access::Load, None),
    (0x40_0000_3abc, Access::Load, None),
    (0xffff_ffff_ffff_f000, Access::Load, None),
];

// Tables in frames 0, 1 and 2: page 3 is a leaf that is read, and pages 512 to 1023 are one leaf.
fn by_hand(rt: &(impl Abort + AllocGlobal)) -> Ram {
    let mut ram = memory(rt, 4);
    store_all(
        rt,
        &mut ram,
        &[
            (0, 0, 0x2000_0401),
            (1, 0, 0x2000_0801),
            (1, 8, 0x2000_00df),
            (2, 24, 0x2000_0c53),
        ],
    );
    ram
}

// Whether a walk and both translators return what is wanted.
fn is_answer(ram: &Ram, plain: &mut Plain, va: u64, access: Access, want: Option<u64>) -> bool {
    plain.fence();
    let walked = walk(ram, FrameNo(0), va, access).ok();
    let translated = plain.translate(ram, FrameNo(0), va, access).ok();
    let looked_up = Tlb::<64>::new().translate(ram, FrameNo(0), va, access).ok();
    walked == want && translated == want && looked_up == want
}

// Whether a translator that remembers what this one returns returns the same, after a fence.
fn is_recalled<T: Translate>(
    ram: &Ram,
    below: T,
    va: u64,
    access: Access,
    want: Option<u64>,
) -> bool {
    let mut recent = Recent::new(below);
    recent.fence();
    recent.translate(ram, FrameNo(0), va, access).ok() == want
}

#[test]
fn addresses_are_translated(rt: HostRuntime) {
    let ram = by_hand(&rt);
    let mut plain = Plain::new();
    let alloc = rt.alloc();
    for (va, access, want) in ADDRESSES {
        let same = is_answer(&ram, &mut plain, va, access, want)
            && is_recalled(&ram, Plain::new(), va, access, want)
            && is_recalled(&ram, Tlb::<64>::new(), va, access, want)
            && is_recalled(&ram, Noting::new(alloc, 0), va, access, want);
        assert!(rt; same, "at {va}");
    }
}

#[test]
fn pages_are_looked_up(rt: HostRuntime) {
    let ram = by_hand(&rt);
    let found = walk_page(&ram, FrameNo(0), 3, Access::Load);
    let outside = walk_page(&ram, FrameNo(4), 3, Access::Load);
    assert!(rt; (found, outside) == (Some(FrameNo(3)), None));
    // an address that is too high is not looked up
    let (answer, count) = walk_counted(&ram, FrameNo(0), 0x40_0000_0000, Access::Load);
    assert!(rt; answer.is_err() && count == 0);
}

#[test]
fn entries_are_read(rt: HostRuntime) {
    let entry = Pte(0x2000_0c53);
    let marks = EntryBits::READ | EntryBits::USER;
    assert!(rt; entry.number() == BASE + 3 && entry.marks().contains(marks));
    for (entry, span, access, want) in [
        (entry, 1, Access::Load, Turn::Leaf(BASE + 3)),
        (entry, 1, Access::Fetch, Turn::Stop),
        (entry, 512, Access::Load, Turn::Stop),
        (Pte(0x2000_0401), 512, Access::Load, Turn::Down(BASE + 1)),
    ] {
        assert!(rt; entry.turn(span, access) == want);
    }
}
