//! Page tables of the Sv39 scheme of the RISC-V privileged manual: three levels of tables of 512
//! entries, each table in a frame of its own. A page's number is its address divided by 4096; its
//! bits 26 to 18, 17 to 9 and 8 to 0 are its indexes in the tables of the three levels.
//!
//! Contracts see a page table as a map: `lookup_of m root page` is the frame and the marks of a page.
//! `walks_by_map` says that the walk of the hardware gives what the map gives.
#![tactic(auto)]

ghost use Rattle.std.specs.Prelude.{◌≡◌, ◌≢◌, ℕ, ◌+◌, ◌-◌, ◌*◌, ◌/◌, ◌%◌, ◌^◌, ◌<◌, ◌≤◌, List, [], ◌∷◌, None, Some};
ghost use Rattle.std.specs.Prelude.{true, false, length, OnOk, OnErr, IsErr, IsTrue, ◌↔◌, IfSome, IfNone};
ghost use Rattle.std.specs.Option.{option_map};
ghost use Rattle.frames.specs.Free.{among, SameBut};
ghost use Rattle.frames.specs.Owned.{free_of, free_count, extra_of, IsFreeList};
ghost use Rattle.frames.specs.Holders.{one_if};
ghost use Rattle.sv39.specs.Walk.{base, entry_of, numbered};
ghost use Rattle.pagetable.specs.Agree.{WalksByMap};
ghost use Rattle.pagetable.specs.Marks.{leaf_marks};
ghost use Rattle.pagetable.specs.Owned.{Creates, Drops, IsPaged, Makes, MapsTo, Rewrites, TakesMissing, Unmaps};
ghost use Rattle.pagetable.specs.Shape.{table_of, IsLast, IsTidy, IsEmpty, Removes};
ghost use Rattle.pagetable.specs.Tree.{Root, table_entry, leaf_entry, child_of, leaf_of, table_at, low_node, mid_node};
ghost use Rattle.pagetable.specs.Tree.{lookup_of, IsTableEntry, IsLeafEntry, IsLeafMarks, IsTree};
ghost use Rattle.pagetable.specs.Tree.{HasTable, Writes, Links, missing, Maps, SameMap, SameTables, SameTablesBut};
ghost use Rattle.pagetable.specs.Tree.{SetsMarks};

use frames::Memory;
use ram::{FrameNo, Ram};
use sv39::{BASE, EntryBits};

// Bytes in an entry, and entries in a table.
const ENTRY_SIZE: usize = 8;

const ENTRIES: u64 = 512;

// Pages that an entry of a table of the middle level stands for, and one of the root.
const LOW_PAGES: u64 = 512;

const MID_PAGES: u64 = 262144;

// An entry is a frame number times this, plus marks.
const FRAME_UNIT: u64 = 1024;

/// No page was mapped: fewer frames are free than the page needs for its tables.
#[derive(Clone, Copy, PartialEq, Eq, Debug)]
pub struct Full;

/// A page table, by the frame of its root.
///
/// A value is only the name of the tables that lie in the memory, and may be copied.
#[derive(Clone, Copy, PartialEq, Eq, Debug)]
pub struct PageTable {
    pub root: FrameNo,
}

// How a page is mapped: the tables on the way to it, and its frame.
#[derive(Clone, Copy)]
struct Way {
    mid: FrameNo,
    low: FrameNo,
    frame: FrameNo,
}

// The bits of a mark, where it is set.
fn bits_if(set: bool, mark: EntryBits) -> u16
    requires { mark.0 < 1024 }
    ensures { result ≡ one_if set * mark.0 }
{
    if set { mark.0 } else { 0 }
}

/// The marks of the leaf of a page: V, R, A and D are set, and W, X and U as said.
///
/// The walk sets no A or D, so they are set from the start; without U a program has no access.
#[tactic(auto, unfolding(crate::specs::Marks::leaf_marks))]
pub fn leaf_marks(writable: bool, executable: bool, user: bool) -> EntryBits
    ensures marks { result.0
        ≡ leaf_marks (record { writable = writable; executable = executable; user = user; shared = false }) }
    ensures leaf { IsLeafMarks result.0 }
{
    let always = EntryBits::VALID.0
        + EntryBits::READ.0
        + EntryBits::ACCESSED.0
        + EntryBits::DIRTY.0;
    let write = bits_if(writable, EntryBits::WRITE);
    let execute = bits_if(executable, EntryBits::EXECUTE);
    EntryBits(always + write + execute + bits_if(user, EntryBits::USER))
}

// The table that an entry names.
#[tactic(auto, unfolding(crate::specs::Tree::child_of, sv39::specs::Walk::entry_of))]
fn child(ram: &Ram, table: FrameNo, index: u64) -> Option<FrameNo>
    requires table { table.0 < length ram.now }
    requires index { index < 512 }
    requires sound { IsTableEntry (length ram.now) (entry_of ram.now table.0 index) }
    ensures { numbered result ≡ child_of (entry_of ram.now table.0 index) }
{
    ram.frames_are_whole();
    let entry = ram.load_u64(table, ENTRY_SIZE * index as usize);
    if entry == 0 {
        None
    } else {
        Some(FrameNo((entry / FRAME_UNIT - BASE) as u32))
    }
}

// What an entry maps to.
#[tactic(auto, unfolding(crate::specs::Tree::leaf_of, sv39::specs::Walk::entry_of))]
fn leaf(ram: &Ram, table: FrameNo, index: u64) -> Option<(FrameNo, EntryBits)>
    requires table { table.0 < length ram.now }
    requires index { index < 512 }
    requires sound { IsLeafEntry (length ram.now) (entry_of ram.now table.0 index) }
    ensures { option_map (λ x. (x.0.0, x.1.0)) result ≡ leaf_of (entry_of ram.now table.0 index) }
{
    ram.frames_are_whole();
    let entry = ram.load_u64(table, ENTRY_SIZE * index as usize);
    if entry == 0 {
        None
    } else {
        Some((
            FrameNo((entry / FRAME_UNIT - BASE) as u32),
            EntryBits((entry % FRAME_UNIT) as u16),
        ))
    }
}

// Makes an entry of a table name a free frame, which becomes an empty table.
fn link(memory: &mut Memory, table: FrameNo, index: u64) -> FrameNo
    requires table { table.0 < length memory.old.ram }
    requires index { index < 512 }
    requires valid { IsFreeList memory.old }
    requires some { 0 < free_count memory.old }
    requires apart { among table.0 (free_of memory.old) ≡ false }
    ensures taken { free_of memory.old ≡ result.0 ∷ free_of memory.new }
    ensures valid { IsFreeList memory.new }
    ensures links { Links memory.old.ram memory.new.ram table.0 index result.0 }
    ensures extra { extra_of memory.new ≡ extra_of memory.old }
{
    memory.ram.frames_are_whole();
    let fresh = memory.frames.take(&memory.ram).unwrap();
    memory.ram.zero(fresh);
    memory.ram.frames_are_whole();
    memory.ram.store_u64(
        table,
        ENTRY_SIZE * index as usize,
        (BASE + u64::from(fresh.0)) * FRAME_UNIT + u64::from(EntryBits::VALID.0),
    );
    fresh
}

// Makes an entry of a table map to a frame.
fn write(ram: &mut Ram, table: FrameNo, index: u64, frame: FrameNo, marks: EntryBits)
    requires table { table.0 < length ram.old }
    requires index { index < 512 }
    requires marks { marks.0 < 1024 }
    ensures { Writes ram.old ram.new table.0 index (leaf_entry frame.0 marks.0) }
{
    ram.frames_are_whole();
    ram.store_u64(
        table,
        ENTRY_SIZE * index as usize,
        (BASE + u64::from(frame.0)) * FRAME_UNIT + u64::from(marks.0),
    );
}

// Whether an entry of a table names something.
#[tactic(auto, unfolding(sv39::specs::Walk::entry_of))]
fn is_used(ram: &Ram, table: FrameNo) -> bool
    requires { table.0 < length ram.now }
    ensures used { result ≡ true → (i : ℕ) × (i < 512) × (entry_of ram.now table.0 i ≢ 0) }
    ensures unused { result ≡ false → (i : ℕ) → i < 512 → entry_of ram.now table.0 i ≡ 0 }
{
    for i in 0..ENTRIES {
        if ram.load_u64(table, ENTRY_SIZE * i as usize) != 0 {
            return true;
        }
    }
    false
}

// Makes an entry of a table name nothing.
fn clear(ram: &mut Ram, table: FrameNo, index: u64)
    requires table { table.0 < length ram.old }
    requires index { index < 512 }
    ensures { Writes ram.old ram.new table.0 index 0 }
{
    ram.frames_are_whole();
    ram.store_u64(table, ENTRY_SIZE * index as usize, 0);
}

impl PageTable {
    ghost use Rattle.std.specs.Prelude.{slice_set, replicate};

    /// A page table that maps nothing, in a free frame; `None` if no frame is free.
    pub fn new(memory: &mut Memory) -> Option<PageTable>
        requires { IsFreeList memory.old }
        ensures some { IfSome result (λ t. Creates memory.old memory.new t.root.0) }
        ensures none { IfNone result ((free_count memory.old ≡ 0) × (memory.new ≡ memory.old)) }
        ensures extra { extra_of memory.new ≡ extra_of memory.old }
    {
        memory.ram.frames_are_whole();
        match memory.frames.take(&memory.ram) {
            Some(root) => {
                memory.ram.zero(root);
                Some(PageTable { root })
            }
            None => None,
        }
    }

    // The table of the middle level on the way to a page.
    fn mid_table(&self, ram: &Ram, page: u64) -> Option<FrameNo>
        requires { IsTree ram.now self.now.root.0 }
        ensures { numbered result ≡ table_at ram.now self.now.root.0 (mid_node page) }
    {
        child(ram, self.root, page / MID_PAGES % ENTRIES)
    }

    // The table whose entries map a page.
    fn low_table(&self, ram: &Ram, page: u64) -> Option<FrameNo>
        requires { IsTree ram.now self.now.root.0 }
        ensures { numbered result ≡ table_at ram.now self.now.root.0 (low_node page) }
    {
        match self.mid_table(ram, page) {
            Some(mid) => child(ram, mid, page / LOW_PAGES % ENTRIES),
            None => None,
        }
    }

    /// The table whose entries map a page, which is there: `known`, where that is one.
    pub fn leaf_table(&self, ram: &Ram, page: u64, known: Option<FrameNo>) -> FrameNo
        requires tree { IsTree ram.now self.now.root.0 }
        requires known { IfSome known (λ low. table_at ram.now self.now.root.0 (low_node page) ≡ Some low.0) }
        requires there { table_at ram.now self.now.root.0 (low_node page) ≢ None }
        ensures { table_at ram.now self.now.root.0 (low_node page) ≡ Some result.0 }
    {
        match known {
            Some(low) => low,
            None => self.low_table(ram, page).unwrap(),
        }
    }

    /// The frame and the marks that a page is mapped to, or `None`.
    ///
    /// Of the page's number the lowest 27 bits count, as in the walk.
    pub fn find(&self, ram: &Ram, page: u64) -> Option<(FrameNo, EntryBits)>
        requires { IsTree ram.now self.now.root.0 }
        ensures { option_map (λ x. (x.0.0, x.1.0)) result ≡ lookup_of ram.now self.now.root.0 page }
    {
        match self.low_table(ram, page) {
            Some(low) => leaf(ram, low, page % ENTRIES),
            None => None,
        }
    }

    /// A law: for each page and access the walk gives what the map gives. That is the page's frame
    /// where its leaf allows the access and bits 63 to 39 of its addresses equal bit 38, and a fault
    /// elsewhere.
    ///
    /// It runs no code; its contract is the theorem.
    pub fn walks_by_map(&self, ram: &Ram)
        requires { IsTree ram.now self.now.root.0 }
        ensures { WalksByMap ram.now self.now.root.0 }
    {
        ram.frames_are_whole();
    }

    // Makes the table of the middle level on the way to a page.
    fn make_mid(&self, memory: &mut Memory, page: u64) -> FrameNo
        requires paged { IsPaged memory.old self.now.root.0 }
        requires absent { table_at memory.old.ram self.now.root.0 (mid_node page) ≡ None }
        requires some { 0 < free_count memory.old }
        ensures made { Makes memory.old memory.new self.now.root.0 (mid_node page) result.0 }
        ensures below { table_at memory.new.ram self.now.root.0 (low_node page) ≡ None }
    {
        link(memory, self.root, page / MID_PAGES % ENTRIES)
    }

    // Makes the table whose entries map a page.
    fn make_low(&self, memory: &mut Memory, page: u64, mid: FrameNo) -> FrameNo
        requires paged { IsPaged memory.old self.now.root.0 }
        requires mid { table_at memory.old.ram self.now.root.0 (mid_node page) ≡ Some mid.0 }
        requires absent { table_at memory.old.ram self.now.root.0 (low_node page) ≡ None }
        requires some { 0 < free_count memory.old }
        ensures { Makes memory.old memory.new self.now.root.0 (low_node page) result.0 }
    {
        link(memory, mid, page / LOW_PAGES % ENTRIES)
    }

    // Makes the entry of a page map to a frame.
    fn set_leaf(
        &self,
        memory: &mut Memory,
        page: u64,
        low: FrameNo,
        frame: FrameNo,
        marks: EntryBits,
    )
        requires paged { IsPaged memory.old self.now.root.0 }
        requires low { table_at memory.old.ram self.now.root.0 (low_node page) ≡ Some low.0 }
        requires page { page < 2 ^ 27 }
        requires frame { frame.0 < length memory.old.ram }
        requires marks { IsLeafMarks marks.0 }
        ensures maps { Maps memory.old.ram memory.new.ram self.now.root.0 page frame.0 marks.0 }
        ensures rewrites { Rewrites memory.old memory.new self.now.root.0 }
    {
        write(&mut memory.ram, low, page % ENTRIES, frame, marks);
    }

    /// Maps a page to a frame, instead of what it was mapped to.
    ///
    /// The tables on the way that are missing, at most 2, are made of the free frames and are
    /// cleared first. Where fewer frames are free than that it changes nothing and returns `Full`.
    pub fn map(
        &self,
        memory: &mut Memory,
        page: u64,
        frame: FrameNo,
        marks: EntryBits,
    ) -> Result<(), Full>
        requires paged { IsPaged memory.old self.now.root.0 }
        requires page { page < 2 ^ 27 }
        requires frame { frame.0 < length memory.old.ram }
        requires marks { IsLeafMarks marks.0 }
        ensures mapped { OnOk result (MapsTo memory.old memory.new self.now.root.0 page frame.0 marks.0) }
        ensures taken { OnOk result (TakesMissing memory.old memory.new self.now.root.0 page) }
        ensures refused { IsErr result ↔ (free_count memory.old < missing memory.old.ram self.now.root.0 page) }
        ensures unchanged { OnErr result (memory.new ≡ memory.old) }
    {
        match self.mid_table(&memory.ram, page) {
            Some(mid) => match self.low_table(&memory.ram, page) {
                Some(low) => {
                    self.set_leaf(memory, page, low, frame, marks);
                    Ok(())
                }
                None => {
                    if memory.frames.free() < 1 {
                        return Err(Full);
                    }
                    let low = self.make_low(memory, page, mid);
                    self.set_leaf(memory, page, low, frame, marks);
                    Ok(())
                }
            },
            None => {
                if memory.frames.free() < 2 {
                    return Err(Full);
                }
                let mid = self.make_mid(memory, page);
                let low = self.make_low(memory, page, mid);
                self.set_leaf(memory, page, low, frame, marks);
                Ok(())
            }
        }
    }

    /// Maps a page to a frame, instead of what it was mapped to, where the table whose entries map it is there.
    pub fn map_in(
        &self,
        memory: &mut Memory,
        low: FrameNo,
        page: u64,
        frame: FrameNo,
        marks: EntryBits,
    )
        requires paged { IsPaged memory.old self.now.root.0 }
        requires low { table_at memory.old.ram self.now.root.0 (low_node page) ≡ Some low.0 }
        requires page { page < 2 ^ 27 }
        requires frame { frame.0 < length memory.old.ram }
        requires marks { IsLeafMarks marks.0 }
        ensures mapped { MapsTo memory.old memory.new self.now.root.0 page frame.0 marks.0 }
        ensures rewrites { Rewrites memory.old memory.new self.now.root.0 }
    {
        self.set_leaf(memory, page, low, frame, marks);
    }

    /// Sets the marks of a page that is mapped; its frame stays.
    pub fn set_perm(&self, memory: &mut Memory, page: u64, marks: EntryBits)
        requires paged { IsPaged memory.old self.now.root.0 }
        requires page { page < 2 ^ 27 }
        requires mapped { lookup_of memory.old.ram self.now.root.0 page ≢ None }
        requires marks { IsLeafMarks marks.0 }
        ensures sets { SetsMarks memory.old.ram memory.new.ram self.now.root.0 page marks.0 }
        ensures rewrites { Rewrites memory.old memory.new self.now.root.0 }
        ensures tidy { IsTidy memory.old.ram self.now.root.0 → IsTidy memory.new.ram self.now.root.0 }
    {
        let way = self.way(&memory.ram, page);
        self.set_leaf(memory, page, way.low, way.frame, marks);
    }

    /// Maps a page that is mapped to another frame with other marks. No table is added or removed.
    pub fn remap(&self, memory: &mut Memory, page: u64, frame: FrameNo, marks: EntryBits)
        requires paged { IsPaged memory.old self.now.root.0 }
        requires page { page < 2 ^ 27 }
        requires mapped { lookup_of memory.old.ram self.now.root.0 page ≢ None }
        requires frame { frame.0 < length memory.old.ram }
        requires marks { IsLeafMarks marks.0 }
        ensures maps { Maps memory.old.ram memory.new.ram self.now.root.0 page frame.0 marks.0 }
        ensures rewrites { Rewrites memory.old memory.new self.now.root.0 }
        ensures tidy { IsTidy memory.old.ram self.now.root.0 → IsTidy memory.new.ram self.now.root.0 }
    {
        let low = self.low_table(&memory.ram, page).unwrap();
        self.set_leaf(memory, page, low, frame, marks);
    }

    // Gives back a table of the lowest level that maps nothing.
    fn drop_low(&self, memory: &mut Memory, page: u64, mid: FrameNo, low: FrameNo)
        requires paged { IsPaged memory.old self.now.root.0 }
        requires mid { table_at memory.old.ram self.now.root.0 (mid_node page) ≡ Some mid.0 }
        requires low { table_at memory.old.ram self.now.root.0 (low_node page) ≡ Some low.0 }
        requires empty { (i : ℕ) → i < 512 → entry_of memory.old.ram low.0 i ≡ 0 }
        ensures { Drops memory.old memory.new self.now.root.0 (low_node page) low.0 }
    {
        clear(&mut memory.ram, mid, page / LOW_PAGES % ENTRIES);
        memory.frames.give(&mut memory.ram, low);
    }

    // Gives back a table of the middle level that names nothing.
    fn drop_mid(&self, memory: &mut Memory, page: u64, mid: FrameNo)
        requires paged { IsPaged memory.old self.now.root.0 }
        requires mid { table_at memory.old.ram self.now.root.0 (mid_node page) ≡ Some mid.0 }
        requires empty { (i : ℕ) → i < 512 → entry_of memory.old.ram mid.0 i ≡ 0 }
        ensures { Drops memory.old memory.new self.now.root.0 (mid_node page) mid.0 }
    {
        clear(&mut memory.ram, self.root, page / MID_PAGES % ENTRIES);
        memory.frames.give(&mut memory.ram, mid);
    }

    // Makes the entry of a page name nothing.
    fn clear_leaf(&self, memory: &mut Memory, page: u64, low: FrameNo)
        requires paged { IsPaged memory.old self.now.root.0 }
        requires low { table_at memory.old.ram self.now.root.0 (low_node page) ≡ Some low.0 }
        requires page { page < 2 ^ 27 }
        ensures removes { Removes (lookup_of memory.old.ram self.now.root.0) (lookup_of memory.new.ram self.now.root.0)
            page }
        ensures rewrites { Rewrites memory.old memory.new self.now.root.0 }
    {
        clear(&mut memory.ram, low, page % ENTRIES);
    }

    // The way to a page that is mapped.
    fn way(&self, ram: &Ram, page: u64) -> Way
        requires tree { IsTree ram.now self.now.root.0 }
        requires mapped { lookup_of ram.now self.now.root.0 page ≢ None }
        ensures mid { table_at ram.now self.now.root.0 (mid_node page) ≡ Some result.mid.0 }
        ensures low { table_at ram.now self.now.root.0 (low_node page) ≡ Some result.low.0 }
        ensures frame { option_map (λ x. x.0) (lookup_of ram.now self.now.root.0 page) ≡ Some result.frame.0 }
    {
        let mid = self.mid_table(ram, page).unwrap();
        let low = self.low_table(ram, page).unwrap();
        let (frame, _) = leaf(ram, low, page % ENTRIES).unwrap();
        Way { mid, low, frame }
    }

    /// Takes a page out of the map, and returns the frame that it was mapped to.
    ///
    /// A table that maps nothing from then on goes back to the free frames, so no table except the root
    /// is ever empty. The page's own frame is the caller's.
    pub fn unmap(&self, memory: &mut Memory, page: u64) -> FrameNo
        requires paged { IsPaged memory.old self.now.root.0 }
        requires tidy { IsTidy memory.old.ram self.now.root.0 }
        requires page { page < 2 ^ 27 }
        requires mapped { lookup_of memory.old.ram self.now.root.0 page ≢ None }
        ensures { Unmaps memory.old memory.new self.now.root.0 page result.0 }
    {
        let way = self.way(&memory.ram, page);
        self.clear_leaf(memory, page, way.low);
        if is_used(&memory.ram, way.low) {
            return way.frame;
        }
        self.drop_low(memory, page, way.mid, way.low);
        if is_used(&memory.ram, way.mid) {
            return way.frame;
        }
        self.drop_mid(memory, page, way.mid);
        way.frame
    }

    /// Takes the last page out of a table of the middle level, and returns the frame that it was mapped to.
    ///
    /// Both tables on the way to it go back to the free frames, and nothing is looked through: `unmap` reads each table
    /// that it gives back. The page's own frame is the caller's.
    pub fn unmap_last(&self, memory: &mut Memory, page: u64) -> FrameNo
        requires paged { IsPaged memory.old self.now.root.0 }
        requires tidy { IsTidy memory.old.ram self.now.root.0 }
        requires page { page < 2 ^ 27 }
        requires mapped { lookup_of memory.old.ram self.now.root.0 page ≢ None }
        requires last { IsLast memory.old.ram self.now.root.0 page }
        ensures { Unmaps memory.old memory.new self.now.root.0 page result.0 }
    {
        let way = self.way(&memory.ram, page);
        self.clear_leaf(memory, page, way.low);
        self.drop_low(memory, page, way.mid, way.low);
        self.drop_mid(memory, page, way.mid);
        way.frame
    }

    /// Takes a page out of the map, whose table maps the page before it, too, and returns the frame that it was mapped
    /// to.
    ///
    /// No table is looked through, and none is given back. The page's own frame is the caller's.
    pub fn unmap_in(&self, memory: &mut Memory, low: FrameNo, page: u64) -> FrameNo
        requires paged { IsPaged memory.old self.now.root.0 }
        requires tidy { IsTidy memory.old.ram self.now.root.0 }
        requires low { table_at memory.old.ram self.now.root.0 (low_node page) ≡ Some low.0 }
        requires page { page < 2 ^ 27 }
        requires mapped { lookup_of memory.old.ram self.now.root.0 page ≢ None }
        requires inner { page % 512 ≢ 0 }
        requires before { lookup_of memory.old.ram self.now.root.0 (page - 1) ≢ None }
        ensures unmaps { Unmaps memory.old memory.new self.now.root.0 page result.0 }
        ensures rewrites { Rewrites memory.old memory.new self.now.root.0 }
    {
        let (frame, _) = leaf(&memory.ram, low, page % ENTRIES).unwrap();
        self.clear_leaf(memory, page, low);
        frame
    }

    /// Gives back the root of a page table that maps nothing, which is its only table.
    pub fn destroy(self, memory: &mut Memory)
        requires paged { IsPaged memory.old self.root.0 }
        requires empty { IsEmpty memory.old.ram self.root.0 }
        ensures given { free_of memory.new ≡ self.root.0 ∷ free_of memory.old }
        ensures valid { IsFreeList memory.new }
        ensures others { SameBut (self.root.0 ∷ []) memory.old.ram memory.new.ram }
        ensures extra { extra_of memory.new ≡ extra_of memory.old }
    {
        memory.frames.give(&mut memory.ram, self.root);
    }
}
