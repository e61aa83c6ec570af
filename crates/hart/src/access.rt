//! Loads and stores: how many bytes, where they are, and their values.
ghost use Rattle.std.specs.Prelude.{◌≡◌, ◌%◌, ◌/◌, ◌<◌, ◌+◌, ◌*◌, ◌-◌, ◌^◌, ◌==◌, ◌≤◌, ◌⊎◌, IfSome, length, List, []};
ghost use Rattle.std.specs.Prelude.{slice_range, slice_index_or, slice_set, IsTrue, OnSome, Option, Some, None};
ghost use Rattle.std.specs.Result.{result_ok};
ghost use Rattle.unixmodel.specs.Numbers.{le, number};
ghost use Rattle.unixmodel.specs.Memory.{overwrite};
ghost use Rattle.unixmodel.specs.Meaning.{load_size, loaded, store_size};
ghost use Rattle.std.specs.Option.{option_map};
ghost use Rattle.unixmodel.specs.Translation.{HoldsInside, IsAnswer, IsKept, place_in};
ghost use Rattle.hart.specs.Sizes.{IsSize};

use crate::bits;
use ram::{FrameNo, Ram};
use sv39::{BASE, Fault, Translate};
use unixmodel::instr::{LoadOp, StoreOp};
use unixmodel::trap::Access;

/// How many bytes a load reads.
#[inline]
pub fn load_size(op: LoadOp) -> u64
    ensures is { result ≡ load_size op }
    ensures size { IsSize result }
{
    match op {
        LoadOp::Lb | LoadOp::Lbu => 1,
        LoadOp::Lh | LoadOp::Lhu => 2,
        LoadOp::Lw | LoadOp::Lwu => 4,
        LoadOp::Ld => 8,
    }
}

/// How many bytes a store writes.
#[inline]
pub fn store_size(op: StoreOp) -> u64
    ensures is { result ≡ store_size op }
    ensures size { IsSize result }
{
    match op {
        StoreOp::Sb => 1,
        StoreOp::Sh => 2,
        StoreOp::Sw => 4,
        StoreOp::Sd => 8,
    }
}

/// Whether an address is a multiple of the size. If so, the bytes there are on one page, and in one part of it.
#[inline]
pub fn is_aligned(address: u64, size: u64) -> bool
    requires { IsSize size }
    ensures is { result ≡ (address % size == 0) }
    ensures fits { IsTrue result → address % 4096 + size ≤ 4096 }
    ensures part { IsTrue result → address % 256 + size ≤ 256 }
{
    match size {
        1 => true,
        2 => address % 2 == 0,
        4 => address % 4 == 0,
        _ => address % 8 == 0,
    }
}

/// The offset of an address in its page.
#[inline]
pub fn place(address: u64) -> usize
    ensures { result ≡ address % 4096 }
{
    (address % 4096) as usize
}

/// The frame of the page that an address is on, or `None` where the access isn't allowed.
#[inline(always)]
pub fn locate<T: Translate>(
    trans: &mut T,
    ram: &Ram,
    root: FrameNo,
    address: u64,
    access: Access,
) -> Option<FrameNo>
    requires { HoldsInside (T.held trans.old) ram.now }
    ensures answer { IsAnswer (T.held trans.old) ram.now root.0 address access
        (option_map (λ f. place_in address f.0) result) }
    ensures inside { IfSome result (λ f. f.0 < length ram.now) }
    ensures kept { IsKept (T.held trans.old) (T.held trans.new) ram.now root.0 }
{
    ram.frames_are_whole();
    match trans.translate(ram, root, address, access) {
        Ok(physical) => Some(FrameNo((physical / 4096 - BASE) as u32)),
        Err(Fault) => None,
    }
}

/// The value that a load puts into its register.
#[inline]
#[tactic(auto, using(crate::proofs::Bytes::number_of_word))]
pub fn load_value(op: LoadOp, ram: &Ram, f: FrameNo, at: usize) -> u64
    requires within { f.0 < length ram.now }
    requires inside { at + load_size op ≤ 4096 }
    ensures { result ≡ loaded op (number (slice_range (slice_index_or ram.now f.0 []) at (at + load_size op))) }
{
    match op {
        LoadOp::Lb => bits::extend_u8(ram.load_u8(f, at)),
        LoadOp::Lh => bits::extend_u16(ram.load_u16(f, at)),
        LoadOp::Lw => bits::extend_u32(ram.load_u32(f, at)),
        LoadOp::Ld => ram.load_u64(f, at),
        LoadOp::Lbu => u64::from(ram.load_u8(f, at)),
        LoadOp::Lhu => u64::from(ram.load_u16(f, at)),
        LoadOp::Lwu => u64::from(ram.load_u32(f, at)),
    }
}

/// Puts the low bytes of a value into the memory.
#[inline]
pub fn store_value(op: StoreOp, ram: &mut Ram, f: FrameNo, at: usize, value: u64)
    requires within { f.0 < length ram.old }
    requires inside { at + store_size op ≤ 4096 }
    ensures { ram.new ≡ slice_set ram.old f.0
        (overwrite (slice_index_or ram.old f.0 []) at (le (store_size op) value)) }
{
    match op {
        StoreOp::Sb => ram.store_u8(f, at, (value % 0x100) as u8),
        StoreOp::Sh => ram.store_u16(f, at, (value % 0x1_0000) as u16),
        StoreOp::Sw => ram.store_u32(f, at, (value % 0x1_0000_0000) as u32),
        StoreOp::Sd => ram.store_u64(f, at, value),
    }
}
