//! Pages whose frames have several holders.
//!
//! A page that is writable by right is open or closed: at an open page a store goes through, at a closed one it faults.
//! An open page's frame has one holder. Only a page that a fork had is closed, and it stays marked as one. Before a
//! page is written whose frame others hold too, it gets a frame of its own with the same bytes: what the others see
//! stays, and there always is a free frame for it.

ghost use Rattle.std.specs.Prelude.{◌≡◌, ◌≤◌, ◌<◌, ◌+◌, ℕ, true};
ghost use Rattle.frames.specs.Holders.{count_of};
ghost use Rattle.frames.specs.Owned.{free_count, further_at, holders_of};
ghost use Rattle.pagetable.specs.Tree.{IsLeafMarks};
ghost use Rattle.ram.specs.Memory.{frame_of};
ghost use Rattle.vm.specs.Dense.{frames_for, marks_at, page_at, page_with};
ghost use Rattle.vm.specs.Leaf.{IsUserLeaf, is_open, user_leaf};
ghost use Rattle.vm.specs.Owned.{GainsHolders, HasLeaf, IsMore, IsPart, IsRearranged, IsSoFar, IsSpace, MayHave};
ghost use Rattle.vm.specs.Owned.{OpensPage, SetsLeaf};
ghost use Rattle.vm.specs.Space.{HasFramesOf, HasRights, SameOtherMarks, SameOtherPages, StaysOpen, holds, page_frame};
ghost use Rattle.vm.specs.Space.{page_rights, pages_in};

use crate::Space;
use crate::access::marks_of;
use frames::Memory;
use pagetable::PageTable;
use ram::FrameNo;
use sv39::EntryBits;

impl Space {
    // Gives a page whose frame has other holders too a frame of its own, with the same bytes, and returns that frame.
    fn split_page(&self, memory: &mut Memory, page: u64, frame: FrameNo, leaf: EntryBits) -> FrameNo
        requires space { IsSpace memory.old self.now }
        requires may { MayHave memory.old self.now page frame.0 leaf.0 }
        requires shared { 2 ≤ holders_of memory.old frame.0 }
        requires right { HasRights memory.old.ram self.now page leaf.0 }
        ensures same { IsRearranged memory.old memory.new self.now }
        ensures sole { further_at memory.new result.0 ≡ 0 }
        ensures has { HasLeaf memory.old memory.new self.now page result.0 leaf.0 }
    {
        memory.ram.frames_are_whole();
        let own = memory.frames.split(&memory.ram, frame);
        memory.ram.copy(frame, own);
        let table = PageTable { root: self.root };
        table.remap(memory, page, own, leaf);
        own
    }

    // Sets the marks of a page; it is opened only where its frame has one holder.
    fn set_page(&self, memory: &mut Memory, page: u64, frame: FrameNo, leaf: EntryBits)
        requires space { IsSpace memory.old self.now }
        requires may { MayHave memory.old self.now page frame.0 leaf.0 }
        requires sole { is_open leaf.0 ≡ true → further_at memory.old frame.0 ≡ 0 }
        ensures sets { SetsLeaf memory.old memory.new self.now page frame.0 leaf.0 }
        ensures same { HasRights memory.old.ram self.now page leaf.0 → IsRearranged memory.old memory.new self.now }
    {
        let table = PageTable { root: self.root };
        table.remap(memory, page, frame, leaf);
    }

    /// Makes the frame of a page one that this space alone holds, and opens the page where a program may write it by
    /// right: the next store goes through. Returns the frame, which is the page's old one where nobody else holds that.
    pub fn open_page(&self, memory: &mut Memory, page: u64) -> FrameNo
        requires space { IsSpace memory.old self.now }
        requires page { page < pages_in self.now.size }
        ensures opens { OpensPage memory.old memory.new self.now page result.0 }
        ensures kept { further_at memory.old (page_frame memory.old.ram self.now page) ≡ 0
            → result.0 ≡ page_frame memory.old.ram self.now page }
    {
        memory.ram.frames_are_whole();
        let table = PageTable { root: self.root };
        let (frame, leaf) = table.find(&memory.ram, page).unwrap();
        let open = marks_of(leaf).leaf();
        if memory.frames.holders(&memory.ram, frame) > 1 {
            self.split_page(memory, page, frame, open)
        } else {
            self.set_page(memory, page, frame, open);
            frame
        }
    }

    // Shares a page with a new space: the page is marked and closed in both, and its frame gets a holder.
    fn share_page(&self, child: &Space, memory: &mut Memory, page: u64)
        requires part { IsPart memory.old self.now child.now page }
        requires page { page < pages_in self.now.size }
        requires room { frames_for (page + 1) ≤ frames_for page + free_count memory.old }
        ensures { IsMore memory.old memory.new self.now child.now page }
    {
        memory.ram.frames_are_whole();
        let table = PageTable { root: self.root };
        let (frame, leaf) = table.find(&memory.ram, page).unwrap();
        let closed = marks_of(leaf).closed_leaf();
        self.set_page(memory, page, frame, closed);
        if !memory.frames.share(&memory.ram, frame) {
            unreachable!()
        }
        let table = PageTable { root: child.root };
        table.map(memory, page, frame, closed).unwrap();
    }

    // Shares all pages with a new space that has none yet. The frames suffice: each page is counted in full.
    pub(crate) fn share_pages(&self, child: &Space, memory: &mut Memory)
        requires part { IsPart memory.old self.now child.now 0 }
        requires room { frames_for (pages_in self.now.size) ≤ frames_for 0 + free_count memory.old }
        ensures all { IsSoFar memory.old memory.new self.now child.now (pages_in self.now.size) }
        ensures shared { HasFramesOf memory.old.ram memory.new.ram self.now child.now }
        ensures holders { GainsHolders memory.old memory.new self.now }
    {
        memory.ram.frames_are_whole();
        for page in 0..crate::pages_in(self.size) {
            self.share_page(child, memory, page);
        }
    }
}
