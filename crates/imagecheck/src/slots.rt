//! Where the numbers of an inode's blocks lie in a format: in its record, or in an index block.

ghost use Rattle.std.specs.Prelude.{◌≡◌, ◌+◌, ◌*◌, ◌<◌, ◌≤◌, false, true};
ghost use Rattle.layout.specs.Formats.{format_named};
ghost use Rattle.unixmodel.specs.Formats.{index_blocks};
ghost use Rattle.unixmodel.specs.Slots.{address_of, data_end, holder_of, in_record, place_of, single, slot_at, slots};
ghost use Rattle.unixmodel.specs.Slots.{taken_blocks, there};

use layout::Format;

// The slot of the single index block. Those below it are of data blocks.
pub fn single(format: Format) -> usize
    ensures told { result ≡ single (format_named format) }
    ensures most { result ≤ 65803 }
{
    format.direct() + 256 + 65536 * (12 - format.direct())
}

// Whether a slot lies in the record.
#[tactic(auto, unfolding(unixmodel::specs::Slots::in_record))]
pub fn is_in_record(format: Format, slot: usize) -> bool
    ensures { result ≡ in_record (format_named format) slot }
{
    let single = single(format);
    slot < format.direct() || slot == single || slot == single + 1
}

// The index in the record's numbers of a slot that lies there.
#[tactic(auto, unfolding(unixmodel::specs::Slots::address_of, unixmodel::specs::Slots::in_record))]
pub fn address_of(format: Format, slot: usize) -> usize
    requires own { in_record (format_named format) slot ≡ true }
    requires within { slot < slots (format_named format) }
    ensures place { result ≡ address_of (format_named format) slot }
    ensures within { result < 13 }
{
    let direct = format.direct();
    if slot < direct {
        slot
    } else {
        direct + (slot - single(format))
    }
}

// The slot of the index block that a slot lies in.
#[tactic(auto, unfolding(unixmodel::specs::Slots::holder_of, unixmodel::specs::Slots::in_record))]
pub fn holder_of(format: Format, slot: usize) -> usize
    requires apart { in_record (format_named format) slot ≡ false }
    requires within { slot < slots (format_named format) }
    ensures { result ≡ holder_of (format_named format) slot }
{
    let near = format.direct() + 256;
    let single = single(format);
    if slot < near {
        return single;
    }
    if slot < single {
        return single + 2 + (slot - near) / 256;
    }
    single + 1
}

// The index of a slot in that block's numbers.
#[tactic(auto, unfolding(unixmodel::specs::Slots::place_of, unixmodel::specs::Slots::in_record))]
pub fn place_of(format: Format, slot: usize) -> usize
    requires apart { in_record (format_named format) slot ≡ false }
    requires within { slot < slots (format_named format) }
    ensures place { result ≡ place_of (format_named format) slot }
    ensures below { result < 256 }
{
    let near = format.direct() + 256;
    let single = single(format);
    if slot < near {
        return slot - format.direct();
    }
    if slot < single {
        return (slot - near) % 256;
    }
    slot - (single + 2)
}

// How many index blocks `count` data blocks need.
pub fn index_blocks(format: Format, count: usize) -> usize
    requires { count ≤ single (format_named format) }
    ensures told { result ≡ index_blocks (format_named format) count }
    ensures most { result ≤ 258 }
{
    let direct = format.direct();
    if count > direct + 256 {
        return 2 + (count - (direct + 256)).div_ceil(256);
    }
    if count > direct { 1 } else { 0 }
}

// Where the slots of data blocks end: with the record, or with the last index block.
#[tactic(auto, unfolding(unixmodel::specs::Slots::data_end))]
fn data_end(format: Format, count: usize) -> usize
    requires { count ≤ single (format_named format) }
    ensures told { result ≡ data_end (format_named format) count }
    ensures most { result ≤ 65803 }
{
    let direct = format.direct();
    let near = direct + 256;
    if count > near {
        return near + 256 * (count - near).div_ceil(256);
    }
    if count > direct { near } else { direct }
}

// How many slots there are for an inode of `count` data blocks, the spare ones included.
#[tactic(auto, unfolding(unixmodel::specs::Slots::index_end))]
pub fn there(format: Format, count: usize) -> usize
    requires { count ≤ single (format_named format) }
    ensures { result ≡ there (format_named format) count }
{
    let direct = format.direct();
    let index = if count > direct + 256 {
        1 + 257 * (12 - direct)
    } else {
        1 + (12 - direct)
    };
    data_end(format, count) + index
}

// The slots that are there, one after the other: those of the index blocks, each after its holder, those of the data,
// and the spare ones.
#[tactic(auto, unfolding(unixmodel::specs::Slots::slot_at, unixmodel::specs::Slots::asked_slot))]
pub fn slot_at(format: Format, count: usize, k: usize) -> usize
    requires count { count ≤ single (format_named format) }
    requires within { k < there (format_named format) count }
    ensures { result ≡ slot_at (format_named format) count k }
{
    let index = index_blocks(format, count);
    let end = data_end(format, count);
    if k < index {
        return single(format) + k;
    }
    if k < index + end {
        return k - index;
    }
    single(format) + (k - end)
}
