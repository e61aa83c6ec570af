//! The blocks that inodes name.

ghost use Rattle.std.specs.Prelude.{◌↔◌, IsTrue, ◌≡◌, ◌≢◌, ◌+◌, ◌*◌, ◌<◌, ◌≤◌, ◌==◌, if◌then◌else◌, length};
ghost use Rattle.layout.specs.Formats.{format_named};
ghost use Rattle.unixmodel.specs.Image.{count_in, format_of, inode_at, kind_in, number_in};
ghost use Rattle.unixmodel.specs.Numbers.{number_at};
ghost use Rattle.unixmodel.specs.Slots.{single};
ghost use Rattle.imagecheck.specs.Slots.{IsFound};
ghost use Rattle.imagerules.specs.Fields.{HasGeometry, HasInode, HasPlace, is_data_in};
ghost use Rattle.imagerules.specs.Pieces.{HasSizes, HasAddresses, FitsAddresses};

use crate::fields::{inode_place, is_free, number32, size};
use crate::slots::{address_of, holder_of, index_blocks, is_in_record, place_of, slot_at, there};
use layout::{Format, Geometry};

// The format of an image.
pub fn format_of(image: &[u8]) -> Format
    requires { 2048 ≤ length image.now }
    ensures { format_named result ≡ format_of image.now }
{
    if number32(image, 1024) == Format::Large.magic() {
        Format::Large
    } else {
        Format::Small
    }
}

// How many data blocks the size of an inode asks for.
pub fn block_count(image: &[u8], n: usize) -> usize
    requires { HasInode image.now n }
    ensures count { result ≡ count_in image.now n }
    ensures most { result ≤ single (format_of image.now) }
{
    (size(image, n) as usize + 1023) / 1024
}

// A number of an inode's record, by its index.
fn own_number(image: &[u8], n: usize, place: usize) -> usize
    requires inode { HasPlace image.now n }
    requires place { place < 13 }
    ensures { result ≡ number_at 4 (inode_at n + 12 + 4 * place) image.now }
{
    number32(image, inode_place(n) + 12 + 4 * place) as usize
}

// A number of an index block, by its index.
fn index_number(image: &[u8], block: usize, place: usize) -> usize
    requires block { 1024 * block + 1024 ≤ length image.now }
    requires place { place < 256 }
    ensures { result ≡ number_at 4 (1024 * block + 4 * place) image.now }
{
    number32(image, 1024 * block + 4 * place) as usize
}

// The number in a slot of an inode: it lies in the record, or in the index block of the slot that holds it.
pub fn number(image: &[u8], n: usize, slot: usize) -> usize
    requires inode { HasPlace image.now n }
    requires found { IsFound image.now n slot }
    ensures { result ≡ number_in image.now n slot }
{
    let format = format_of(image);
    if is_in_record(format, slot) {
        return own_number(image, n, address_of(format, slot));
    }
    let block = number(image, n, holder_of(format, slot));
    index_number(image, block, place_of(format, slot))
}

// Whether the block is a data block.
fn is_data(geometry: Geometry, block: usize) -> bool
    requires inodes { geometry.inodes ≤ 8192 }
    requires size { geometry.size ≤ 131072 }
    ensures { result ≡ is_data_in geometry block }
{
    geometry.data_start() <= block && block < geometry.size
}

// Whether a number is that of a data block where one is asked for, and else 0.
fn fits(geometry: Geometry, asked: bool, number: usize) -> bool
    requires inodes { geometry.inodes ≤ 8192 }
    requires size { geometry.size ≤ 131072 }
    ensures { result ≡ (if asked then is_data_in geometry number else number == 0) }
{
    if asked {
        is_data(geometry, number)
    } else {
        number == 0
    }
}

// Whether the numbers of an inode that its size asks for are data blocks, and all others 0. An index block is read once
// its own number was found to be a data block.
fn fits_addresses(image: &[u8], geometry: Geometry, n: usize) -> bool
    requires geometry { HasGeometry image.now geometry }
    requires inode { HasInode image.now n }
    ensures { IsTrue result ↔ FitsAddresses image.now n }
{
    let format = format_of(image);
    let count = block_count(image, n);
    let taken = count + index_blocks(format, count);
    for k in 0..there(format, count) {
        let block = number(image, n, slot_at(format, count, k));
        if !fits(geometry, k < taken, block) {
            return false;
        }
    }
    true
}

// The same for an inode that is in use, and nothing for another.
fn has_own_addresses(image: &[u8], geometry: Geometry, n: usize) -> bool
    requires geometry { HasGeometry image.now geometry }
    requires sizes { HasSizes image.now }
    requires low { 1 ≤ n }
    requires high { n < geometry.inodes }
    ensures { IsTrue result ↔ (kind_in image.now n ≢ 0 → FitsAddresses image.now n) }
{
    is_free(image, n) || fits_addresses(image, geometry, n)
}

// Whether the numbers of each inode in use that its size asks for are data blocks, and all others 0.
pub fn has_addresses(image: &[u8], geometry: Geometry) -> bool
    requires geometry { HasGeometry image.now geometry }
    requires sizes { HasSizes image.now }
    ensures { IsTrue result ↔ HasAddresses image.now }
{
    for n in 1..geometry.inodes {
        if !has_own_addresses(image, geometry, n) {
            return false;
        }
    }
    true
}
