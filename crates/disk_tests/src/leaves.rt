//! An image with a file of 268 blocks, the last of which is found through a leaf of its double index block, and faults
//! put into its index blocks.

ghost use Rattle.std.specs.Prelude.{◌<◌};

use crate::maker::with_file;
use blockdev::MemDisk;
use byteorder::{ByteOrder, LittleEndian};
use image::{ImageFault, Summary, check};
use std::process::Abort;

// The image's blocks, and the bytes of its file.
const SIZE: u32 = 300;

const BYTES: usize = 273_409;

// Where the numbers of the index blocks are in the file's inode.
const SINGLE: usize = 2048 + 2 * 64 + 56;

const DOUBLE: usize = SINGLE + 4;

// The number at this offset.
fn number_at(image: &[u8], at: usize) -> usize
    ensures { result < 4294967296 }
{
    match image.get(at..) {
        Some(rest) if rest.len() >= 4 => LittleEndian::read_u32(rest) as usize,
        _ => 0,
    }
}

// An index block of the file.
#[derive(Clone, Copy)]
enum Index {
    Single,
    Double,
    Leaf,
}

// Its number.
fn block_of(image: &[u8], index: Index) -> usize
    ensures { result < 4294967296 }
{
    let double = number_at(image, DOUBLE);
    match index {
        Index::Single => number_at(image, SINGLE),
        Index::Double => double,
        Index::Leaf => number_at(image, 1024 * double),
    }
}

// What a check of an image returns.
fn told(rt: &(impl Abort + AllocGlobal), image: Vec<u8>) -> Result<Summary, ImageFault> {
    let mut disk = MemDisk::new(image).expect(rt, "whole blocks");
    check(rt.alloc(), &mut disk)
}

// What is put into the image.
#[derive(Clone, Copy)]
enum Fault {
    Nothing,
    /// A number is put into an entry of an index block.
    Number(Index, u8, [u8; 2]),
    /// An index block is not marked.
    Unmarked(Index),
}

// What is put into the image, and what a check returns then.
struct Case {
    name: &'static str,
    fault: Fault,
    told: Result<Summary, ImageFault>,
}

static CASES: [Case; 17] = [
    Case {
        name: "the last block is found through a leaf",
        fault: Fault::Nothing,
        told: Ok(Summary {
            inodes: 2,
            blocks: 272,
        }),
    },
    Case {
        name: "the single index block's last number is none",
        fault: Fault::Number(Index::Single, 255, [0, 0]),
        told: Err(ImageFault::Address),
    },
    Case {
        name: "the double index block's first number is none",
        fault: Fault::Number(Index::Double, 0, [0, 0]),
        told: Err(ImageFault::Address),
    },
    Case {
        name: "the double index block's first number is before the data",
        fault: Fault::Number(Index::Double, 0, [4, 0]),
        told: Err(ImageFault::Address),
    },
    Case {
        name: "the double index block's first number is past the disk",
        fault: Fault::Number(Index::Double, 0, [0x2c, 1]),
        told: Err(ImageFault::Address),
    },
    Case {
        name: "the leaf's first number is none",
        fault: Fault::Number(Index::Leaf, 0, [0, 0]),
        told: Err(ImageFault::Address),
    },
    Case {
        name: "the leaf's first number is before the data",
        fault: Fault::Number(Index::Leaf, 0, [4, 0]),
        told: Err(ImageFault::Address),
    },
    Case {
        name: "the leaf's first number is past the disk",
        fault: Fault::Number(Index::Leaf, 0, [0x2c, 1]),
        told: Err(ImageFault::Address),
    },
    Case {
        name: "the double index block has a second number that is not wanted",
        fault: Fault::Number(Index::Double, 1, [0x2b, 1]),
        told: Err(ImageFault::Address),
    },
    Case {
        name: "the double index block has a last number that is not wanted",
        fault: Fault::Number(Index::Double, 255, [0x2b, 1]),
        told: Err(ImageFault::Address),
    },
    Case {
        name: "the leaf has a second number that is not wanted",
        fault: Fault::Number(Index::Leaf, 1, [0x2b, 1]),
        told: Err(ImageFault::Address),
    },
    Case {
        name: "the leaf has a last number that is not wanted",
        fault: Fault::Number(Index::Leaf, 255, [0x2b, 1]),
        told: Err(ImageFault::Address),
    },
    Case {
        name: "the single index block names the root's block",
        fault: Fault::Number(Index::Single, 255, [5, 0]),
        told: Err(ImageFault::SharedBlock),
    },
    Case {
        name: "the leaf names the root's block",
        fault: Fault::Number(Index::Leaf, 0, [5, 0]),
        told: Err(ImageFault::SharedBlock),
    },
    Case {
        name: "the single index block is not marked",
        fault: Fault::Unmarked(Index::Single),
        told: Err(ImageFault::Bitmap),
    },
    Case {
        name: "the double index block is not marked",
        fault: Fault::Unmarked(Index::Double),
        told: Err(ImageFault::Bitmap),
    },
    Case {
        name: "the leaf is not marked",
        fault: Fault::Unmarked(Index::Leaf),
        told: Err(ImageFault::Bitmap),
    },
];

// Puts a number into an entry of an index block.
fn put(image: &mut Vec<u8>, index: Index, place: u8, number: [u8; 2]) {
    let at = 1024 * block_of(image, index) + 4 * place as usize;
    if let Some(byte) = image.get_mut(at) {
        *byte = number[0];
    }
    if let Some(byte) = image.get_mut(at + 1) {
        *byte = number[1];
    }
}

// Turns the bit of an index block.
fn turn(image: &mut Vec<u8>, index: Index) {
    let block = block_of(image, index);
    if let Some(byte) = image.get_mut(4096 + block / 8) {
        *byte ^= 1 << (block % 8);
    }
}

// The image with this put into it.
fn spoiled(rt: &(impl Abort + AllocGlobal), fault: Fault) -> Vec<u8> {
    let mut image = with_file(rt, SIZE, BYTES);
    match fault {
        Fault::Nothing => {}
        Fault::Number(index, place, number) => put(&mut image, index, place, number),
        Fault::Unmarked(index) => turn(&mut image, index),
    }
    image
}

#[test]
fn tells_what_is_wrong_with_index_blocks(rt: HostRuntime) {
    for case in &CASES {
        let image = spoiled(&rt, case.fault);
        assert!(rt; told(&rt, image) == case.told, "{}", case.name);
    }
}
