//! Address spaces: a program's memory as page tables map it, beside other holders of frames.
//!
//! A space has the pages from page 0 on, as many as its size needs, no two in the same frame and each with
//! marks of its own. It also holds its tables and a trap frame, which is mapped at the second highest page
//! below address 2^38, where programs have no access. In contracts a space's memory is `pages_of`, in terms
//! of unixmodel's Memory, and the frames and marks under it are `mapping_of`.
//!
//! Every operation that takes or gives back frames says which ones by `Trades`, so what another space
//! or anything else holds is as it was: `shares` has the laws for a whole machine. An operation that is
//! refused changes nothing. Nothing here takes memory of the host.
#![tactic(auto)]

ghost use Rattle.std.specs.Prelude.{◌≡◌, ◌≢◌, ℕ, ◌+◌, ◌-◌, ◌*◌, ◌/◌, ◌%◌, ◌^◌, ◌<◌, ◌≤◌, List, [], ◌∷◌, ◌++◌, length};
ghost use Rattle.std.specs.Prelude.{take, replicate, None, Some, true, false, OnOk, OnErr, IfSome, IsErrOf, IsTrue};
ghost use Rattle.std.specs.Prelude.{◌↔◌, ◌⊎◌};
ghost use Rattle.ram.specs.Memory.{frame_of};
ghost use Rattle.frames.specs.Free.{among};
ghost use Rattle.frames.specs.Holders.{one_if};
ghost use Rattle.frames.specs.Owned.{free_count, IsFreeList, Trades};
ghost use Rattle.std.specs.Option.{option_map};
ghost use Rattle.pagetable.specs.Owned.{MapsTo, Unmaps};
ghost use Rattle.pagetable.specs.Tree.{IsLeafMarks, missing};
ghost use Rattle.vm.specs.Dense.{IsDense, IsRun, IsTableFor, SameLeaves, SameLeavesUpTo, frames_for, marks_at};
ghost use Rattle.unixmodel.specs.Memory.{shared_marks, shared_memory};
ghost use Rattle.vm.specs.Leaf.{marks_from, rights_from, user_leaf};
ghost use Rattle.vm.specs.Owned.{AddsPages, Copies, Creates, DropsPages, Grows, HasPages, IsNewLeaf, IsSpace};
ghost use Rattle.vm.specs.Owned.{LacksFrames, Shrinks};
ghost use Rattle.vm.specs.Space.{HasFramesOf, StaysOpen, entries_of};
ghost use Rattle.vm.specs.Space.{first_pages, held_by, holds, mapping_of, max_size, new_pages, pages_in, pages_of};
ghost use Rattle.vm.specs.Space.{registers_of};

mod access;
pub mod shares;
mod sharing;
mod trapframe;

use frames::Memory;
use pagetable::{PageTable, leaf_marks};
use ram::FrameNo;
use sv39::EntryBits;
use thiserror::Error;

/// Why a call on a space is refused.
#[derive(Clone, Copy, PartialEq, Eq, Debug, Error)]
pub enum VmFault {
    /// Fewer frames are free than the space would need.
    #[error("too few frames are free")]
    Frames,
    /// The space would have more bytes than `MAX_SIZE`.
    #[error("the space would be too large")]
    TooLarge,
    /// A byte lies past the last page, or its page doesn't permit the access.
    #[error("no access at the address")]
    BadAddress,
}

/// The marks of a page, as Sv39 has them. Without `u` a program may do nothing there.
#[derive(Clone, Copy, PartialEq, Eq, Debug)]
pub struct Perm {
    /// A program may write it.
    pub w: bool,
    /// A program may execute it.
    pub x: bool,
    /// A program may read it, and do what the other marks say.
    pub u: bool,
}

/// The marks of a page, as the kernel keeps them.
#[derive(Clone, Copy)]
pub struct Marks {
    /// What a program may do there by right.
    pub perm: Perm,
    /// Whether a fork had the page since it was made: the first store to it may fault, and is done then.
    pub shared: bool,
}

impl Marks {
    // The marks of a new page.
    fn new(perm: Perm) -> Marks
        ensures { rights_from result ≡ marks_from perm }
    {
        Marks {
            perm,
            shared: false,
        }
    }

    // The bits of a leaf that the walk doesn't look at.
    fn kernel_bits(self) -> u16
        ensures { result ≡ 256 * one_if self.perm.w + 512 * one_if self.shared }
    {
        RIGHT.0 * u16::from(self.perm.w) + SHARED.0 * u16::from(self.shared)
    }

    // The marks of the leaf of a page that is open, where a program may write it.
    fn leaf(self) -> EntryBits
        ensures { result.0 ≡ user_leaf (rights_from self) true }
    {
        let leaf = leaf_marks(self.perm.w, self.perm.x, self.perm.u);
        EntryBits(leaf.0 + self.kernel_bits())
    }

    // The same as a fork leaves them, without W: a store faults, also where the page is writable by right.
    fn closed_leaf(self) -> EntryBits
        ensures { result.0 ≡ user_leaf (shared_marks (rights_from self)) false }
    {
        let closed = leaf_marks(false, self.perm.x, self.perm.u);
        let shared = Marks {
            shared: true,
            ..self
        };
        EntryBits(closed.0 + shared.kernel_bits())
    }
}

/// An address space.
///
/// It holds its frames until `destroy` gives them back: let go otherwise, they are lost.
#[derive(Drop)]
pub struct Space {
    // the root of the tables
    root: FrameNo,
    trap: FrameNo,
    // in bytes
    size: u64,
}

/// The most bytes that a space has: the addresses below the trap frame.
pub const MAX_SIZE: u64 = 0x3fffffe000;

/// The page of the trap frame.
pub const TRAP_PAGE: u64 = 0x3fffffe;

// The mark that a program may write a page by right. The walk doesn't look at it: where W is missing a store faults.
const RIGHT: EntryBits = EntryBits(256);

// The mark that a fork had a page, which the walk doesn't look at either.
const SHARED: EntryBits = EntryBits(512);

// The marks of the trap frame's page: V, R, W, A, D and the right to write, and no U.
const TRAP: EntryBits = EntryBits(455);

/// How many frames a space of `pages` pages holds: the pages, the trap frame, the root, two tables for
/// the trap frame, a table for each 512 pages, and one above those.
pub fn frames_for(pages: u64) -> u64
    requires { pages < 2 ^ 32 }
    ensures { result ≡ frames_for pages }
{
    4 + pages + pages.div_ceil(512) + u64::from(pages > 0)
}

/// How many pages `size` bytes need.
pub fn pages_in(size: u64) -> u64
    requires { size < 2 ^ 63 }
    ensures { result ≡ pages_in size }
{
    size.div_ceil(4096)
}

impl Space {
    ghost use Rattle.std.specs.Prelude.{IfOk};

    /// The size in bytes. Its last page may reach beyond it.
    pub fn size(&self) -> u64
        ensures { result ≡ self.now.size }
    {
        self.size
    }

    /// The same space in a duplicate of the memory.
    pub fn duplicate(&self) -> Space
        ensures { result ≡ self.now }
    {
        Space {
            root: self.root,
            trap: self.trap,
            size: self.size,
        }
    }

    /// Makes a space of no pages, whose trap frame is all 0. `Frames` where fewer than 4 frames are free.
    pub fn new(memory: &mut Memory) -> Result<Space, VmFault>
        requires { IsFreeList memory.old }
        ensures made { IfOk result (Creates memory.old memory.new) }
        ensures full { IsErrOf result VmFault.Frames ↔ free_count memory.old < frames_for 0 }
        ensures only { OnErr result (IsErrOf result VmFault.Frames) }
        ensures unchanged { OnErr result (memory.new ≡ memory.old) }
    {
        memory.ram.frames_are_whole();
        if memory.frames.free() < 4 {
            return Err(VmFault::Frames);
        }
        let table = PageTable::new(memory).unwrap();
        let trap = memory.frames.take(&memory.ram).unwrap();
        memory.ram.zero(trap);
        table.map(memory, TRAP_PAGE, trap, TRAP).unwrap();
        Ok(Space {
            root: table.root,
            trap,
            size: 0,
        })
    }

    // Maps the next page. `low` is its table, if that is known.
    #[inline(always)]
    fn map_page(
        &self,
        memory: &mut Memory,
        n: u64,
        frame: FrameNo,
        marks: EntryBits,
        low: Option<FrameNo>,
    )
        requires held { HasPages memory.old self.now n }
        requires small { n < 32768 }
        requires room { missing memory.old.ram self.now.root.0 n ≤ free_count memory.old }
        requires frame { frame.0 < length memory.old.ram }
        requires marks { IsLeafMarks marks.0 }
        requires low { IsTableFor memory.old.ram self.now.root.0 n low }
        ensures mapped { MapsTo memory.old memory.new self.now.root.0 n frame.0 marks.0 }
        ensures low { (n + 1) % 512 ≢ 0 → IsTableFor memory.new.ram self.now.root.0 (n + 1) low }
    {
        let table = PageTable { root: self.root };
        match low {
            Some(low) => table.map_in(memory, low, n, frame, marks),
            None => table.map(memory, n, frame, marks).unwrap(),
        }
    }

    // Makes a free frame the next page, all zero. `low` is its table, if that is known.
    #[inline(always)]
    fn add_page(&self, memory: &mut Memory, n: u64, marks: EntryBits, low: Option<FrameNo>)
        requires held { HasPages memory.old self.now n }
        requires small { n < 32768 }
        requires room { frames_for (n + 1) ≤ frames_for n + free_count memory.old }
        requires leaf { IsNewLeaf marks.0 }
        requires low { IsTableFor memory.old.ram self.now.root.0 n low }
        ensures adds { AddsPages memory.old memory.new self.now n (n + 1) marks.0 }
        ensures low { (n + 1) % 512 ≢ 0 → IsTableFor memory.new.ram self.now.root.0 (n + 1) low }
    {
        memory.ram.frames_are_whole();
        let frame = memory.frames.take(&memory.ram).unwrap();
        memory.ram.zero(frame);
        self.map_page(memory, n, frame, marks, low);
    }

    // Adds the pages from `from` up to `to`, which one table maps that is there.
    fn add_run(&self, memory: &mut Memory, from: u64, to: u64, marks: EntryBits)
        requires held { HasPages memory.old self.now from }
        requires run { IsRun from to }
        requires small { to ≤ 32768 }
        requires room { frames_for to ≤ frames_for from + free_count memory.old }
        requires leaf { IsNewLeaf marks.0 }
        ensures { AddsPages memory.old memory.new self.now from to marks.0 }
    {
        let table = PageTable { root: self.root };
        let low = table.leaf_table(&memory.ram, from, None);
        for page in from..to {
            self.add_page(memory, page, marks, Some(low));
        }
    }

    // Adds the next page, if it is the first of its table, or else those up to `to` that its table maps, too.
    // Returns how many there are then.
    fn add_some(&self, memory: &mut Memory, from: u64, to: u64, marks: EntryBits) -> u64
        requires held { HasPages memory.old self.now from }
        requires order { from < to }
        requires small { to ≤ 32768 }
        requires room { frames_for to ≤ frames_for from + free_count memory.old }
        requires leaf { IsNewLeaf marks.0 }
        ensures adds { AddsPages memory.old memory.new self.now from result marks.0 }
        ensures more { from < result }
        ensures order { result ≤ to }
    {
        if from % 512 == 0 {
            self.add_page(memory, from, marks, None);
            return from + 1;
        }
        let end = to.min(from - from % 512 + 512);
        self.add_run(memory, from, end, marks);
        end
    }

    // Adds the pages from `from` up to `to`.
    fn add_pages(&self, memory: &mut Memory, from: u64, to: u64, marks: EntryBits)
        requires held { HasPages memory.old self.now from }
        requires order { from ≤ to }
        requires small { to ≤ 32768 }
        requires room { frames_for to ≤ frames_for from + free_count memory.old }
        requires leaf { IsNewLeaf marks.0 }
        ensures { AddsPages memory.old memory.new self.now from to marks.0 }
    {
        let mut page = from;
        while page < to {
            page = self.add_some(memory, page, to, marks);
        }
    }

    /// Makes a space with the same pages, whose frames each have one holder more then; its trap frame is all 0.
    ///
    /// Every page is closed in both, and marked as one that a fork had: who may write it by right and stores to it
    /// first gets a frame of its own. Each page is counted in full: `Frames` where fewer frames are free than the space
    /// would need if it shared none.
    pub fn copy(&self, memory: &mut Memory) -> Result<Space, VmFault>
        requires { IsSpace memory.old self.now }
        ensures copies { IfOk result (Copies memory.old memory.new self.now) }
        ensures full { IsErrOf result VmFault.Frames ↔ free_count memory.old < frames_for (pages_in self.now.size) }
        ensures only { OnErr result (IsErrOf result VmFault.Frames) }
        ensures unchanged { OnErr result (memory.new ≡ memory.old) }
    {
        memory.ram.frames_are_whole();
        if u64::from(memory.frames.free()) < frames_for(pages_in(self.size)) {
            return Err(VmFault::Frames);
        }
        let mut child = Space::new(memory).unwrap();
        self.share_pages(&child, memory);
        child.size = self.size;
        Ok(child)
    }

    /// Adds `bytes` bytes: new pages are all 0 and have these marks, and a store goes through at them where those
    /// permit it.
    ///
    /// `TooLarge` where the size would pass `MAX_SIZE`; if it wouldn't, `Frames` where fewer frames are
    /// free than the pages and their tables need. The cost depends on the new pages alone.
    pub fn grow(&mut self, memory: &mut Memory, bytes: u64, perm: Perm) -> Result<(), VmFault>
        requires { IsSpace memory.old self.old }
        ensures grows { OnOk result (Grows memory.old memory.new self.old self.new bytes perm) }
        ensures large { IsErrOf result VmFault.TooLarge ↔ max_size < self.old.size + bytes }
        ensures full { IsErrOf result VmFault.Frames ↔ LacksFrames memory.old self.old.size bytes }
        ensures only { OnErr result (IsErrOf result VmFault.TooLarge ⊎ IsErrOf result VmFault.Frames) }
        ensures unchanged { OnErr result ((memory.new ≡ memory.old) × (self.new ≡ self.old)) }
    {
        memory.ram.frames_are_whole();
        if bytes > MAX_SIZE - self.size {
            return Err(VmFault::TooLarge);
        }
        let size = self.size + bytes;
        let from = pages_in(self.size);
        let to = pages_in(size);
        if frames_for(from) + u64::from(memory.frames.free()) < frames_for(to) {
            return Err(VmFault::Frames);
        }
        let leaf = Marks::new(perm).leaf();
        self.add_pages(memory, from, to, leaf);
        self.size = size;
        Ok(())
    }

    // Takes the last page out of the tables, and returns its frame. `low` is its table, unless it is the first of it.
    // Page 0 is the only one of its tables, which go back without being read.
    #[inline(always)]
    fn unmap_page(&self, memory: &mut Memory, n: u64, low: Option<FrameNo>) -> FrameNo
        requires held { HasPages memory.old self.now (n + 1) }
        requires low { IsTableFor memory.old.ram self.now.root.0 n low }
        requires inner { IfSome low (λ _. n % 512 ≢ 0) }
        ensures unmaps { Unmaps memory.old memory.new self.now.root.0 n result.0 }
        ensures low { IsTableFor memory.new.ram self.now.root.0 (n - 1) low }
    {
        let table = PageTable { root: self.root };
        if let Some(low) = low {
            return table.unmap_in(memory, low, n);
        }
        if n == 0 {
            return table.unmap_last(memory, n);
        }
        table.unmap(memory, n)
    }

    // Gives back the last page. `low` is its table, unless it is the first of it.
    #[inline(always)]
    fn drop_page(&self, memory: &mut Memory, n: u64, low: Option<FrameNo>)
        requires held { HasPages memory.old self.now (n + 1) }
        requires low { IsTableFor memory.old.ram self.now.root.0 n low }
        requires inner { IfSome low (λ _. n % 512 ≢ 0) }
        ensures drops { DropsPages memory.old memory.new self.now (n + 1) n }
        ensures low { IsTableFor memory.new.ram self.now.root.0 (n - 1) low }
    {
        memory.ram.frames_are_whole();
        let frame = self.unmap_page(memory, n, low);
        memory.frames.give(&mut memory.ram, frame);
    }

    // Gives back the pages from `to` on, which one table maps that stays.
    fn drop_run(&self, memory: &mut Memory, from: u64, to: u64)
        requires held { HasPages memory.old self.now from }
        requires run { IsRun to from }
        ensures { DropsPages memory.old memory.new self.now from to }
    {
        let table = PageTable { root: self.root };
        let low = table.leaf_table(&memory.ram, to, None);
        for i in 0..from - to {
            self.drop_page(memory, from - 1 - i, Some(low));
        }
    }

    // Gives back the last page, if it is the first of its table, or else those from `to` on that its table maps, too,
    // except its first. Returns how many are left.
    fn drop_some(&self, memory: &mut Memory, from: u64, to: u64) -> u64
        requires held { HasPages memory.old self.now from }
        requires order { to < from }
        ensures drops { DropsPages memory.old memory.new self.now from result }
        ensures less { result < from }
        ensures order { to ≤ result }
    {
        let last = from - 1;
        if last % 512 == 0 {
            self.drop_page(memory, last, None);
            return last;
        }
        let left = to.max(last - last % 512 + 1);
        self.drop_run(memory, from, left);
        left
    }

    // Gives back the pages from `to` on.
    fn drop_pages(&self, memory: &mut Memory, from: u64, to: u64)
        requires held { HasPages memory.old self.now from }
        requires order { to ≤ from }
        ensures { DropsPages memory.old memory.new self.now from to }
    {
        let mut left = from;
        while left > to {
            left = self.drop_some(memory, left, to);
        }
    }

    /// Takes away the last `bytes` bytes, and gives back the pages and tables that no byte needs then.
    pub fn shrink(&mut self, memory: &mut Memory, bytes: u64)
        requires space { IsSpace memory.old self.old }
        requires less { bytes ≤ self.old.size }
        ensures { Shrinks memory.old memory.new self.old self.new bytes }
    {
        let size = self.size - bytes;
        self.drop_pages(memory, pages_in(self.size), pages_in(size));
        self.size = size;
    }

    /// Gives back all frames of the space: pages, tables and trap frame.
    pub fn destroy(self, memory: &mut Memory)
        requires { IsSpace memory.old self }
        ensures valid { IsFreeList memory.new }
        ensures trades { Trades memory.old memory.new (holds memory.old.ram self) [] }
    {
        memory.ram.frames_are_whole();
        self.drop_pages(memory, pages_in(self.size), 0);
        let table = PageTable { root: self.root };
        let trap = table.unmap_last(memory, TRAP_PAGE);
        memory.frames.give(&mut memory.ram, trap);
        table.destroy(memory);
    }
}
