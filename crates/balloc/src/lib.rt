//! Which blocks and inodes of a disk are free: the lowest free one is taken first.
#![tactic(auto)]

mod bitmap;
mod blocks;
mod fresh;
mod inodes;

pub use bitmap::first_clear;
pub use blocks::{give_block, has_blocks, take_block};
pub use fresh::format;
pub use inodes::{give_inode, read_inode, take_inode, take_inode_at, write_inode};
