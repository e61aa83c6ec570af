//! Marks of the blocks that inodes name: none is named twice, and the bitmap agrees with them.

ghost use Rattle.std.specs.Prelude.{◌↔◌, IsTrue, ◌≡◌, ℕ, ◌+◌, ◌*◌, ◌/◌, ◌%◌, ◌<◌, ◌≤◌, ◌++◌, [], List, not, length};
ghost use Rattle.std.specs.Prelude.{slice_index, slice_index_or, slice_set, MatchBool, false, true};
ghost use Rattle.unixmodel.specs.Numbers.{has_bit};
ghost use Rattle.unixmodel.specs.Image.{bitmap_start, named_blocks, named_by, size_in};
ghost use Rattle.imagerules.specs.Fields.{HasGeometry, HasInode, SuperRules};
ghost use Rattle.imagerules.specs.Marks.{HasMarks, IsOnce, blocks_of};
ghost use Rattle.imagerules.specs.Pieces.{FitsAddresses, HasSizes, HasAddresses, NamesOnce, HasBitmap};
ghost use Rattle.imagecheck.specs.Faults.{MarksMore};

use crate::blocks::{block_count, format_of, number};
use crate::fields::is_free;
use crate::slots::{index_blocks, slot_at};
use layout::Geometry;

// Marks a block, and returns whether it had no mark.
fn mark(marks: &mut [bool], block: usize) -> bool
    requires { block < length marks.old }
    ensures free { result ≡ not (slice_index_or marks.old block false) }
    ensures marks { marks.new ≡ slice_set marks.old block true }
{
    let free = !marks[block];
    marks[block] = true;
    free
}

// Marks the blocks that an inode names, up to the first that has a mark, and returns whether there was none.
fn mark_all(image: &[u8], n: usize, marks: &mut [bool]) -> bool
    requires inode { HasInode image.now n }
    requires addresses { FitsAddresses image.now n }
    requires rules { SuperRules image.now }
    requires long { length marks.old ≡ size_in image.now }
    ensures { MarksMore marks.old marks.new (named_by image.now n) result }
{
    let format = format_of(image);
    let count = block_count(image, n);
    for k in 0..count + index_blocks(format, count) {
        if !mark(marks, number(image, n, slot_at(format, count, k))) {
            return false;
        }
    }
    true
}

// The same for an inode that is in use. One that is free names none.
fn mark_inode(image: &[u8], geometry: Geometry, n: usize, marks: &mut [bool]) -> bool
    requires geometry { HasGeometry image.now geometry }
    requires sizes { HasSizes image.now }
    requires addresses { HasAddresses image.now }
    requires low { 1 ≤ n }
    requires high { n < geometry.inodes }
    requires long { length marks.old ≡ geometry.size }
    ensures { MarksMore marks.old marks.new (blocks_of image.now n) result }
{
    if is_free(image, n) {
        return true;
    }
    mark_all(image, n, marks)
}

// Marks each block that an inode names, and returns whether none is named twice.
pub fn names_once(image: &[u8], geometry: Geometry, marks: &mut [bool]) -> bool
    requires geometry { HasGeometry image.now geometry }
    requires sizes { HasSizes image.now }
    requires addresses { HasAddresses image.now }
    requires long { length marks.old ≡ geometry.size }
    requires fresh { HasMarks [] marks.old }
    ensures { MatchBool result (HasMarks (named_blocks image.now) marks.new) (¬ NamesOnce image.now) }
{
    for n in 1..geometry.inodes {
        if !mark_inode(image, geometry, n, marks) {
            return false;
        }
    }
    true
}

// A bit of the bitmap that begins at a block.
fn bit(image: &[u8], start: usize, block: usize) -> bool
    requires block { block ≤ 131072 }
    requires start { start ≤ 16384 }
    requires inside { 1024 * start + block / 8 < length image.now }
    ensures { result ≡ has_bit (slice_index image.now (1024 * start + block / 8)) (block % 8) }
{
    image[1024 * start + block / 8] >> (block % 8) & 1 == 1
}

// Whether the bitmap marks the blocks before the data and those that are named, and no others.
pub fn has_bitmap(image: &[u8], geometry: Geometry, marks: &[bool]) -> bool
    requires geometry { HasGeometry image.now geometry }
    requires long { length marks.now ≡ geometry.size }
    requires marks { HasMarks (named_blocks image.now) marks.now }
    ensures { IsTrue result ↔ HasBitmap image.now }
{
    let start = geometry.bitmap_start();
    let first = geometry.data_start();
    for block in 0..geometry.size {
        if bit(image, start, block) != (block < first || marks[block]) {
            return false;
        }
    }
    true
}
