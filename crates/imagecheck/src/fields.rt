//! Numbers in the bytes of an image, and the fields of its inodes.

ghost use Rattle.std.specs.Prelude.{◌≡◌, ◌+◌, ◌*◌, ◌/◌, ◌%◌, ◌<◌, ◌≤◌, ◌↔◌, IsTrue, length};
ghost use Rattle.unixmodel.specs.Numbers.{number_at};
ghost use Rattle.unixmodel.specs.Image.{inode_at, kind_in, length_in, links_in};
ghost use Rattle.imagerules.specs.Fields.{HasPlace, kind_at};

use byteorder::{ByteOrder, LittleEndian};
use layout::Kind;

// The number of two bytes at an offset.
pub fn number16(image: &[u8], at: usize) -> u16
    requires { at + 2 ≤ length image.now }
    ensures { result ≡ number_at 2 at image.now }
{
    LittleEndian::read_u16(&image[at..])
}

// The number of four bytes at an offset.
pub fn number32(image: &[u8], at: usize) -> u32
    requires { at + 4 ≤ length image.now }
    ensures { result ≡ number_at 4 at image.now }
{
    LittleEndian::read_u32(&image[at..])
}

// The offset of an inode's 64 bytes.
pub fn inode_place(n: usize) -> usize
    requires { n < 8192 }
    ensures { result ≡ inode_at n }
{
    1024 * (2 + n / 16) + 64 * (n % 16)
}

/// The type of an inode.
pub fn kind(image: &[u8], n: usize) -> Kind
    requires { HasPlace image.now n }
    ensures { result ≡ kind_at image.now n }
{
    let at = inode_place(n);
    Kind::read(
        number16(image, at),
        number16(image, at + 2),
        number16(image, at + 4),
    )
}

// Whether an inode has a known type.
pub fn is_known(image: &[u8], n: usize) -> bool
    requires { HasPlace image.now n }
    ensures { IsTrue result ↔ (kind_in image.now n ≤ 3) }
{
    Kind::is_known(number16(image, inode_place(n)))
}

// Whether an inode is free.
pub fn is_free(image: &[u8], n: usize) -> bool
    requires { HasPlace image.now n }
    ensures { IsTrue result ↔ (kind_in image.now n ≡ 0) }
{
    kind(image, n).is_free()
}

// Whether an inode is that of a directory.
pub fn is_directory(image: &[u8], n: usize) -> bool
    requires { HasPlace image.now n }
    ensures { IsTrue result ↔ (kind_in image.now n ≡ 1) }
{
    kind(image, n).is_directory()
}

/// How many names an inode says that it has.
pub fn links(image: &[u8], n: usize) -> u16
    requires { HasPlace image.now n }
    ensures { result ≡ links_in image.now n }
{
    number16(image, inode_place(n) + 6)
}

// The size of an inode in bytes.
pub fn size(image: &[u8], n: usize) -> u32
    requires { HasPlace image.now n }
    ensures { result ≡ length_in image.now n }
{
    number32(image, inode_place(n) + 8)
}
