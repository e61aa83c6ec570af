//! The crates of the disk on worked rows, through their public calls: records and their bytes, free blocks and
//! inodes, the bytes of files, images, their making, and the files of an image in use. Each expected value is worked
//! out apart from the code.
#![tactic(auto)]

#[cfg(test)]
mod blocks;
#[cfg(test)]
mod devices;
#[cfg(test)]
mod images;
#[cfg(test)]
mod inodes;
#[cfg(test)]
mod leaves;
#[cfg(test)]
mod maker;
#[cfg(test)]
mod migrated;
#[cfg(test)]
mod mounted;
#[cfg(test)]
mod named;
#[cfg(test)]
mod records;
#[cfg(test)]
mod volume;
