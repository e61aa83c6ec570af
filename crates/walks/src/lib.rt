//! The entries of page tables that the walk of an address reads.
#![tactic(auto)]

ghost use Rattle.std.specs.Prelude.{◌≡◌, ◌<◌, ◌/◌, ◌%◌, IfSome, length};
ghost use Rattle.sv39.specs.Walk.{entry_of, numbered};
ghost use Rattle.walks.specs.Walks.{entries_read, root_table, table_at, walk_told};

use ram::{FrameNo, Ram};
use sv39::{BASE, Pte, Turn};
use unixmodel::trap::Access;

/// The entries that the walk of an address reads, one after another: at most three.
#[repr(C)]
#[derive(Clone, Copy)]
pub struct WalkTold {
    /// Those of the levels 2, 1 and 0; 0 where none is read.
    pub entries: [u64; 3],
    /// How many are read.
    pub count: u32,
}

// The entry for a page in a table whose leaves have `span` pages.
#[tactic(auto, unfolding(sv39::specs::Walk::entry_of))]
fn entry(ram: &Ram, table: FrameNo, page: u64, span: u64) -> u64
    requires inside { table.0 < length ram.now }
    requires some { 0 < span }
    ensures { result ≡ entry_of ram.now table.0 (page / span % 512) }
{
    let index = page / span % 512;
    ram.load_u64(table, 8 * index as usize)
}

// The table of the next level that an entry names; none where it is a leaf, or no walk may use it.
fn table(ram: &Ram, entry: u64) -> Option<FrameNo>
    ensures table { numbered result ≡ table_at (length ram.now) entry }
    ensures inside { IfSome result (λ table. table.0 < length ram.now) }
{
    let Turn::Down(number) = Pte(entry).turn(1, Access::Load) else {
        return None;
    };
    let count = ram.frame_count();
    if number < BASE || number >= BASE + u64::from(count) {
        return None;
    }
    Some(FrameNo((number - BASE) as u32))
}

// The table of the root, where the walk of a page begins.
fn root_table(ram: &Ram, root: FrameNo, page: u64) -> Option<FrameNo>
    ensures table { numbered result ≡ root_table (length ram.now) root.0 page }
    ensures inside { IfSome result (λ table. table.0 < length ram.now) }
{
    let canonical = page < 1 << 26 || (page >= (1 << 52) - (1 << 26) && page < 1 << 52);
    if canonical && root.0 < ram.frame_count() {
        Some(root)
    } else {
        None
    }
}

/// The entries that the walk of a page reads, from the table of a root on.
pub fn entries(ram: &Ram, root: FrameNo, page: u64) -> WalkTold
    ensures { result ≡ walk_told (entries_read ram.now root.0 page) }
{
    let mut entries = [0; 3];
    let Some(high) = root_table(ram, root, page) else {
        return WalkTold { entries, count: 0 };
    };
    entries[0] = entry(ram, high, page, 262_144);
    let Some(middle) = table(ram, entries[0]) else {
        return WalkTold { entries, count: 1 };
    };
    entries[1] = entry(ram, middle, page, 512);
    let Some(low) = table(ram, entries[1]) else {
        return WalkTold { entries, count: 2 };
    };
    entries[2] = entry(ram, low, page, 1);
    WalkTold { entries, count: 3 }
}
