//! Reads disk images, of which one that is too long isn't read whole.
ghost use Rattle.std.specs.Prelude.{◌≡◌, ◌≢◌, ◌≤◌, ◌%◌, ◌↔◌, IfErr, IfOk, IsErr, length, vec_len};
ghost use Rattle.host.specs.Files.{HoldsFront};
ghost use Rattle.host.specs.Fronts.{IsOdd, IsWhole};
ghost use Rattle.host.specs.declared.report.Failure.TheVariants.{Image};
ghost use Rattle.imagecheck.specs.declared.ImageFault.TheVariants.{Length};

use crate::host::{Front, Host};
use crate::host_files::read_front;
use crate::report::Failure;
use blockdev::{BLOCK_SIZE, MemDisk};
use image::ImageFault;
use layout::MOST_BLOCKS;

/// How much of an image is read: a byte more than the longest has.
const MOST_IMAGE: usize = BLOCK_SIZE * MOST_BLOCKS as usize + 1;

/// Where the super block of an image has its count of blocks: four bytes.
const SIZE_AT: usize = BLOCK_SIZE + 4;

/// An image, of which no more is read than shows that it is too long.
pub fn read_image<'a, H: Host>(host: &mut H, name: &'a str) -> Result<Front, Failure<'a>>
    ensures most { IfOk result (λ front. vec_len front.bytes ≤ MOST_IMAGE) }
    ensures front { IfOk result (λ front. HoldsFront name.now MOST_IMAGE front (H.files host.old)) }
    ensures same { H.files host.new ≡ H.files host.old }
{
    read_front(host, name, MOST_IMAGE)
}

// What stands for an image of this front that is too long, of this length if it has an end. It has the same faults: the
// wrong length, unless the super block has that many blocks; else the wrong magic number, or, since no image has that
// many, the numbers.
fn stand_in(mut front: Vec<u8>, length: Option<u64>) -> Vec<u8>
    ensures { vec_len result ≤ 2048 }
{
    front.truncate(2 * BLOCK_SIZE);
    if front.len() < SIZE_AT + 4 {
        return front;
    }
    let told = [
        front[SIZE_AT],
        front[SIZE_AT + 1],
        front[SIZE_AT + 2],
        front[SIZE_AT + 3],
    ];
    let blocks = u64::from(u32::from_le_bytes(told));
    let size: u8 = if length == Some(1024 * blocks) { 2 } else { 0 };
    front[SIZE_AT..SIZE_AT + 4].copy_from_slice(&[size, 0, 0, 0]);
    front
}

/// The bytes of an image, of which no more was read than shows whether it is too long. One that is too long is
/// refused as the whole image would be: of its bytes two blocks are left, fewer than any image has.
pub fn bytes_of<'a>(image: Front) -> Result<Vec<u8>, Failure<'a>>
    ensures whole { IfOk result (λ bytes. IsWhole image → bytes.items ≡ image.bytes.items) }
    ensures cut { IfOk result (λ bytes. (IsWhole image → ⊥) → vec_len bytes ≤ 2048) }
    ensures odd { IsErr result ↔ IsOdd image }
    ensures refused { IfErr result (λ failure. failure ≡ Image Length) }
{
    let Front { bytes, length } = image;
    if let Some(length) = length
        && length % 1024 != 0
    {
        return Err(Failure::Image(ImageFault::Length));
    }
    if length == Some(bytes.len() as u64) {
        return Ok(bytes);
    }
    Ok(stand_in(bytes, length))
}

/// The disk of this image; one that is too long is refused as the whole image would be.
pub fn disk_of<'a>(image: Front) -> Result<MemDisk, Failure<'a>>
    ensures whole { IfOk result (λ disk. IsWhole image → disk.bytes ≡ image.bytes.items) }
    ensures cut { IfOk result (λ disk. (IsWhole image → ⊥) → length disk.bytes ≤ 2048) }
    ensures blocks { IfOk result (λ disk. length disk.bytes % 1024 ≡ 0) }
    ensures refused { IfErr result (λ failure. failure ≡ Image Length) }
{
    match MemDisk::new(bytes_of(image)?) {
        Ok(disk) => Ok(disk),
        Err(_) => Err(Failure::Image(ImageFault::Length)),
    }
}
