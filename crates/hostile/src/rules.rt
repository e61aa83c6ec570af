//! The rules of an image, gone through one after the other, over any format:
//!
//! 1. It has whole blocks, two at least, and as many as the super block says.
//! 2. The super block begins with the format's magic number.
//! 3. Its other numbers fit one another.
//! 4. Each inode has a type that there is, and the root is a directory.
//! 5. The numbers that an inode's size asks for name data blocks, and all others are 0.
//! 6. No block is named twice.
//! 7. The bitmap marks what comes before the data blocks and the blocks that are named, and no others.
//! 8. Each inode has a size that its type can have.
//! 9. Each entry of a directory is free or has a name of its own and an inode in use; the first two are `.` and `..`.
//! A directory except the root is named once, and the root never.
//! 10. Each inode has as many links as names; a directory one for itself and one for each directory in it.
//! 11. A path reaches each inode in use.
use image::{ImageFault, Summary};
use std::alloc::{AllocError, Global};

/// What distinguishes a format of images.
pub struct Rules {
    // What its super block begins with.
    magic: u32,
    // How many blocks an image has at most.
    most: u32,
    // How many bytes a file has at most.
    longest: u32,
    // How many data blocks an inode names by itself, and how many with the block of its single index.
    direct: u8,
    single: u16,
}

/// Files of 12 blocks and a single index.
pub const SMALL: Rules = Rules {
    magic: 0x1020_3040,
    most: 16384,
    longest: 274_432,
    direct: 12,
    single: 268,
};

/// Files of 11 blocks, a single and a double index.
pub const LARGE: Rules = Rules {
    magic: 0x1020_3041,
    most: 131_072,
    longest: 67_382_272,
    direct: 11,
    single: 267,
};

// The types of inodes: 0 is a free one, 2 a file.
const DIRECTORY: u16 = 1;

const DEVICE: u16 = 3;

// `count` bytes from offset `at` on, or none where there are fewer.
fn part(bytes: &[u8], at: usize, count: usize) -> &[u8] {
    let rest = bytes.get(at..).unwrap_or(&[]);
    rest.get(..count).unwrap_or(&[])
}

// The number of two bytes at an offset.
fn half(bytes: &[u8], at: usize) -> u16 {
    match bytes.get(at..) {
        Some([low, high, ..]) => u16::from_le_bytes([*low, *high]),
        _ => 0,
    }
}

// The number of four bytes at an offset.
fn word(bytes: &[u8], at: usize) -> u32 {
    match bytes.get(at..) {
        Some([first, second, third, last, ..]) => u32::from_le_bytes([
            *first, *second, *third, *last,
        ]),
        _ => 0,
    }
}

// Whether there are only zeros, as in a free entry of a directory or after a name.
fn is_zero(bytes: &[u8]) -> bool {
    [0; 16].starts_with(bytes)
}

// How many bytes come before the first zero.
fn name_length(name: &[u8]) -> usize {
    for (place, byte) in name.iter().enumerate() {
        if *byte == 0 {
            return place;
        }
    }
    name.len()
}

// An entry of a directory.
#[derive(Clone, Copy)]
struct Place<'a> {
    // The number of the directory.
    holder: u32,
    // How many entries of it come before.
    index: u32,
    // Its 16 bytes.
    bytes: &'a [u8],
}

impl Place<'_> {
    // The number of the inode that it names.
    fn number(&self) -> u32 {
        u32::from(half(self.bytes, 0))
    }

    // The name, filled up with zeros.
    fn name(&self) -> &[u8] {
        part(self.bytes, 2, 14)
    }

    fn is_free(&self) -> bool {
        is_zero(self.bytes)
    }

    // Whether it has this name and names this number.
    fn is(&self, name: &[u8], number: u32) -> bool {
        match self.name().strip_prefix(name) {
            Some(rest) => is_zero(rest) && self.number() == number,
            None => false,
        }
    }

    // Whether its name is one: not empty, without a slash, without a byte after a zero, and neither "." nor "..".
    fn has_name(&self) -> bool {
        let all = self.name();
        let length = name_length(all);
        let name = part(all, 0, length);
        is_zero(all.get(length..).unwrap_or(&[]))
            && !name.contains(&b'/')
            && !matches!(name, b"" | b"." | b"..")
    }

    // Whether it names an inode: an entry after the first two that isn't free.
    fn is_naming(&self) -> bool {
        self.index >= 2 && !self.is_free()
    }

    // Whether it names this inode.
    fn names(&self, number: u32) -> bool {
        self.is_naming() && self.number() == number
    }

    // Whether another entry of its directory has its name.
    fn is_twin(&self, other: &Place<'_>) -> bool {
        other.holder == self.holder
            && other.index != self.index
            && !other.is_free()
            && other.name() == self.name()
    }

    // Whether no other entry of its directory has its name.
    fn is_alone(&self, places: &[Place<'_>]) -> bool {
        for other in places {
            if self.is_twin(other) {
                return false;
            }
        }
        true
    }
}

// An image whose super block is sound.
#[derive(Clone, Copy)]
struct Picture<'a> {
    bytes: &'a [u8],
    rules: &'a Rules,
    // The blocks, the inodes, and the first data block.
    size: u32,
    inodes: u32,
    data: u32,
}

// Whether the numbers of a super block fit one another.
fn has_numbers(front: &[u8], rules: &Rules, data: u32) -> bool {
    let (size, blocks, inodes) = (word(front, 4), word(front, 8), word(front, 12));
    32 <= size
        && size <= rules.most
        && 16 <= inodes
        && inodes <= 8192
        && word(front, 16) == 0
        && word(front, 20) == 2
        && word(front, 24) == 2
        && word(front, 28) == 3 + inodes / 16
        && blocks >= 1
        && u64::from(blocks) + u64::from(data) == u64::from(size)
}

impl<'a> Picture<'a> {
    // The rules 1 to 3.
    fn new(bytes: &'a [u8], rules: &'a Rules) -> Result<Picture<'a>, ImageFault> {
        let front = part(bytes, 1024, 32);
        let (size, inodes) = (word(front, 4), word(front, 12));
        let data = 4 + inodes / 16 + size / 8192;
        if bytes.len() < 2048 || bytes.len() != 1024 * size as usize {
            return Err(ImageFault::Length);
        }
        if word(front, 0) != rules.magic {
            return Err(ImageFault::Magic);
        }
        if !has_numbers(front, rules, data) {
            return Err(ImageFault::Numbers);
        }
        Ok(Picture {
            bytes,
            rules,
            size,
            inodes,
            data,
        })
    }

    fn block(&self, number: u32) -> &'a [u8] {
        part(self.bytes, 1024 * number as usize, 1024)
    }

    fn inode(&self, number: u32) -> &'a [u8] {
        part(self.bytes, 2048 + 64 * number as usize, 64)
    }

    // Its type.
    fn kind(&self, number: u32) -> u16 {
        half(self.inode(number), 0)
    }

    // How many bytes it has.
    fn length(&self, number: u32) -> u32 {
        word(self.inode(number), 8)
    }

    // Its 13 numbers.
    fn numbers(&self, number: u32) -> &'a [u8] {
        part(self.inode(number), 12, 52)
    }

    fn is_in_use(&self, number: u32) -> bool {
        1 <= number && number < self.inodes && self.kind(number) != 0
    }

    // Rule 4.
    fn has_kinds(&self) -> bool {
        for number in 1..self.inodes {
            if self.kind(number) > DEVICE {
                return false;
            }
        }
        self.kind(1) == DIRECTORY
    }

    // Rule 8 of an inode.
    fn has_length(&self, number: u32) -> bool {
        let length = self.length(number);
        match self.kind(number) {
            0 => true,
            DIRECTORY => 32 <= length && length % 16 == 0 && length <= self.rules.longest,
            DEVICE => length == 0,
            _ => length <= self.rules.longest,
        }
    }

    // Rule 8.
    fn has_lengths(&self) -> bool {
        for number in 1..self.inodes {
            if !self.has_length(number) {
                return false;
            }
        }
        true
    }

    // Rule 5 of a number: one that is used names a data block, and any other is 0.
    fn is_address(&self, number: u32, is_used: bool) -> bool {
        if is_used {
            self.data <= number && number < self.size
        } else {
            number == 0
        }
    }

    // Rule 5 of a row of numbers, of which the first `used` are in use: those are noted.
    fn note(&self, row: &[u8], used: usize, named: &mut Vec<u32>) -> Result<(), ImageFault> {
        for (place, bytes) in row.chunks_exact(4).enumerate() {
            let (number, is_used) = (word(bytes, 0), place < used);
            if !self.is_address(number, is_used) {
                return Err(ImageFault::Address);
            }
            if is_used {
                add(named, number)?;
            }
        }
        Ok(())
    }

    // Rule 5 of the block of a double index, for `blocks` data blocks.
    fn note_double(
        &self,
        double: &[u8],
        blocks: usize,
        named: &mut Vec<u32>,
    ) -> Result<(), ImageFault> {
        self.note(double, blocks.div_ceil(256), named)?;
        let mut left = blocks;
        for bytes in double.chunks_exact(4) {
            if left > 0 {
                self.note(self.block(word(bytes, 0)), left, named)?;
            }
            left = left.saturating_sub(256);
        }
        Ok(())
    }

    // Rule 5 of an inode.
    fn note_inode(&self, number: u32, named: &mut Vec<u32>) -> Result<(), ImageFault> {
        let direct = usize::from(self.rules.direct);
        let single = usize::from(self.rules.single);
        let numbers = self.numbers(number);
        let blocks = (self.length(number) as usize).div_ceil(1024);
        let indices = usize::from(blocks > direct) + usize::from(blocks > single);
        self.note(numbers, blocks.min(direct) + indices, named)?;
        if blocks > direct {
            let index = self.block(word(numbers, 4 * direct));
            self.note(index, blocks.saturating_sub(direct), named)?;
        }
        if blocks > single {
            let index = self.block(word(numbers, 4 * direct + 4));
            self.note_double(index, blocks.saturating_sub(single), named)?;
        }
        Ok(())
    }

    // Rule 5: the numbers of all blocks that inodes name.
    fn named(&self, alloc: Global) -> Result<Vec<u32>, ImageFault> {
        let mut named = Vec::new(alloc);
        for number in 1..self.inodes {
            if self.is_in_use(number) {
                self.note_inode(number, &mut named)?;
            }
        }
        Ok(named)
    }

    // Rule 7 of a block.
    fn is_marked_rightly(&self, block: u32, named: &[u32]) -> bool {
        let at = 1024 * (3 + self.inodes as usize / 16) + block as usize / 8;
        let byte = self.bytes.get(at).copied().unwrap_or(0);
        let is_marked = byte >> (block % 8) & 1 == 1;
        is_marked == (block < self.data || named.contains(&block))
    }

    // Rule 7.
    fn has_bitmap(&self, named: &[u32]) -> bool {
        for block in 0..self.size {
            if !self.is_marked_rightly(block, named) {
                return false;
            }
        }
        true
    }

    // The number of a directory's data block.
    fn data_block(&self, number: u32, block: u32) -> u32 {
        let numbers = self.numbers(number);
        let direct = u32::from(self.rules.direct);
        let index = 4 * usize::from(self.rules.direct);
        let Some(place) = block.checked_sub(direct) else {
            return word(numbers, 4 * block as usize);
        };
        let Some(place) = place.checked_sub(256) else {
            return word(self.block(word(numbers, index)), 4 * place as usize);
        };
        let leaf = word(
            self.block(word(numbers, index + 4)),
            4 * (place / 256) as usize,
        );
        word(self.block(leaf), 4 * (place % 256) as usize)
    }

    // Lists the entries of a directory.
    fn list(&self, holder: u32, places: &mut Vec<Place<'a>>) -> Result<(), AllocError> {
        for index in 0..self.length(holder) / 16 {
            let block = self.block(self.data_block(holder, index / 64));
            let bytes = part(block, 16 * (index % 64) as usize, 16);
            places.push(Place {
                holder,
                index,
                bytes,
            })?;
        }
        Ok(())
    }

    // All entries of all directories.
    fn places(&self, alloc: Global) -> Result<Vec<Place<'a>>, AllocError> {
        let mut places = Vec::new(alloc);
        for number in 1..self.inodes {
            if self.kind(number) == DIRECTORY {
                self.list(number, &mut places)?;
            }
        }
        Ok(places)
    }

    // Rule 9 of an entry.
    fn is_good(&self, place: &Place<'_>, places: &[Place<'_>]) -> bool {
        match place.index {
            0 => place.is(b".", place.holder),
            1 => place.is(b"..", parent(place.holder, places)),
            _ => place.is_free()
                || self.is_in_use(place.number()) && place.has_name() && place.is_alone(places),
        }
    }

    // Rule 9 of all entries.
    fn has_good_places(&self, places: &[Place<'_>]) -> bool {
        for place in places {
            if !self.is_good(place, places) {
                return false;
            }
        }
        true
    }

    // Rule 9 of an inode: a directory except the root is named once, and the root never.
    fn is_named_rightly(&self, number: u32, places: &[Place<'_>]) -> bool {
        self.kind(number) != DIRECTORY || times(number, places) == usize::from(number != 1)
    }

    // Rule 9 of all inodes.
    fn has_good_names(&self, places: &[Place<'_>]) -> bool {
        for number in 1..self.inodes {
            if !self.is_named_rightly(number, places) {
                return false;
            }
        }
        true
    }

    // Rule 10 of an inode.
    fn has_links(&self, number: u32, places: &[Place<'_>]) -> bool {
        let links = usize::from(half(self.inode(number), 6));
        match self.kind(number) {
            0 => true,
            DIRECTORY => links.checked_sub(1) == Some(self.directories(number, places)),
            _ => links == times(number, places) && 1 <= links && links <= 32767,
        }
    }

    // Rule 10.
    fn has_all_links(&self, places: &[Place<'_>]) -> bool {
        for number in 1..self.inodes {
            if !self.has_links(number, places) {
                return false;
            }
        }
        true
    }

    // Whether an entry names a directory.
    fn is_naming_directory(&self, place: &Place<'_>) -> bool {
        place.is_naming() && self.kind(place.number()) == DIRECTORY
    }

    // How many directories a directory has.
    fn directories(&self, number: u32, places: &[Place<'_>]) -> usize {
        let mut count = 0_usize;
        for place in places {
            let is_one = place.holder == number && self.is_naming_directory(place);
            count = count.saturating_add(usize::from(is_one));
        }
        count
    }

    // The rules 4 and 8.
    fn test_inodes(&self) -> Result<(), ImageFault> {
        if !self.has_kinds() {
            return Err(ImageFault::NodeType);
        }
        if !self.has_lengths() {
            return Err(ImageFault::Size);
        }
        Ok(())
    }

    // The rules 6 and 7.
    fn test_blocks(&self, named: &[u32]) -> Result<(), ImageFault> {
        if !is_named_once(named) {
            return Err(ImageFault::SharedBlock);
        }
        if !self.has_bitmap(named) {
            return Err(ImageFault::Bitmap);
        }
        Ok(())
    }

    // The rules 5 to 7: how many blocks inodes name.
    fn blocks_in_use(&self, alloc: Global) -> Result<usize, ImageFault> {
        let named = self.named(alloc)?;
        self.test_blocks(named.as_slice())?;
        Ok(named.len())
    }

    // Rule 9.
    fn test_places(&self, places: &[Place<'_>]) -> Result<(), ImageFault> {
        if !self.has_good_places(places) || !self.has_good_names(places) {
            return Err(ImageFault::Entry);
        }
        Ok(())
    }

    // The rules 10 and 11.
    fn test_counts(&self, alloc: Global, places: &[Place<'_>]) -> Result<(), ImageFault> {
        if !self.has_all_links(places) {
            return Err(ImageFault::Links);
        }
        let mut reached = vec![in alloc; false; self.inodes as usize]?;
        if !self.reaches_all(places, reached.as_mut_slice()) {
            return Err(ImageFault::Unreached);
        }
        Ok(())
    }

    // The rules 9 to 11.
    fn test_names(&self, alloc: Global) -> Result<(), ImageFault> {
        let places = self.places(alloc)?;
        self.test_places(places.as_slice())?;
        self.test_counts(alloc, places.as_slice())
    }

    // Whether all inodes in use are among those that are reached.
    fn has_reached(&self, reached: &[bool]) -> bool {
        for number in 1..self.inodes {
            if self.kind(number) != 0 && !is_reached(number, reached) {
                return false;
            }
        }
        true
    }

    // Rule 11, where nothing was reached yet.
    fn reaches_all(&self, places: &[Place<'_>], reached: &mut [bool]) -> bool {
        reach(1, reached);
        for _ in 1..self.inodes {
            reach_on(places, reached);
        }
        self.has_reached(reached)
    }

    // How many inodes are in use.
    fn inodes_in_use(&self) -> usize {
        let mut count = 0_usize;
        for number in 1..self.inodes {
            count = count.saturating_add(usize::from(self.is_in_use(number)));
        }
        count
    }
}

// Notes one more block.
fn add(named: &mut Vec<u32>, number: u32) -> Result<(), AllocError> {
    named.push(number)?;
    Ok(())
}

// Rule 6: whether no block is named twice.
fn is_named_once(named: &[u32]) -> bool {
    for (place, number) in named.iter().enumerate() {
        let others = named.get(..place).unwrap_or(&[]);
        if others.contains(number) {
            return false;
        }
    }
    true
}

// How many entries name an inode.
fn times(number: u32, places: &[Place<'_>]) -> usize {
    let mut count = 0_usize;
    for place in places {
        count = count.saturating_add(usize::from(place.names(number)));
    }
    count
}

// The number of the directory that names this one, and the root's own for the root.
fn parent(number: u32, places: &[Place<'_>]) -> u32 {
    if number == 1 {
        return 1;
    }
    for place in places {
        if place.names(number) {
            return place.holder;
        }
    }
    0
}

// An inode is reached.
fn reach(number: u32, reached: &mut [bool]) {
    if let Some(is_reached) = reached.get_mut(number as usize) {
        *is_reached = true;
    }
}

// Whether an inode is reached.
fn is_reached(number: u32, reached: &[bool]) -> bool {
    reached.get(number as usize) == Some(&true)
}

// What an entry of a reached directory names is reached too.
fn reach_on(places: &[Place<'_>], reached: &mut [bool]) {
    for place in places {
        if place.is_naming() && is_reached(place.holder, reached) {
            reach(place.number(), reached);
        }
    }
}

/// The first of the rules 1 to 11 that an image breaks, in the order 1 to 4, 8, 5 to 7, 9 to 11, or what it has in use.
pub fn judge(alloc: Global, bytes: &[u8], rules: &Rules) -> Result<Summary, ImageFault> {
    let picture = Picture::new(bytes, rules)?;
    picture.test_inodes()?;
    let blocks = picture.blocks_in_use(alloc)?;
    picture.test_names(alloc)?;
    Ok(Summary {
        inodes: picture.inodes_in_use(),
        blocks,
    })
}
