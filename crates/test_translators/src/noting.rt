//! A translator that notes translations, and returns what it noted for as long as nothing fences it.
ghost use Rattle.std.specs.Prelude.{◌≡◌, ◌+◌, ◌-◌, ◌*◌, ◌/◌, ◌%◌, ◌^◌, ◌<◌, ◌≤◌, [], IfOk, IfSome, length};
ghost use Rattle.std.specs.Result.{result_ok};
ghost use Rattle.unixmodel.specs.Translation.{HoldsInside, HoldsNothing, IsAnswer, IsKept};
ghost use Rattle.test_translators.specs.Notes.{IsNoted, note_of};

use ram::{FrameNo, Ram};
use std::alloc::Global;
use sv39::{Access, BASE, Fault, Pa, Pte, Translate, walk, walk_page};

/// As many pages as a program can have.
pub const MOST_PAGES: u64 = 32768;

// The entries of a table.
const ENTRIES: u64 = 512;

/// A translation that was noted.
#[derive(Clone, Copy)]
pub struct Note {
    root: FrameNo,
    page: u64,
    access: Access,
    frame: FrameNo,
}

// The index of a page's translations for an access.
fn place(page: u64, access: Access) -> Option<usize>
    ensures { IfSome result (λ at. at < 3 * 32768) }
{
    if page >= MOST_PAGES {
        return None;
    }
    let kind = match access {
        Access::Fetch => 0,
        Access::Load => 1,
        Access::Store => 2,
    };
    Some(3 * page as usize + kind)
}

// The table or the frame that an entry of a table names, whatever is permitted there.
fn named(ram: &Ram, table: FrameNo, index: u64) -> Option<FrameNo>
    requires { index < 512 }
{
    ram.frames_are_whole();
    if table.0 >= ram.frame_count() {
        return None;
    }
    let entry = Pte(ram.load_u64(table, 8 * index as usize));
    if entry.0 % 2 == 0 {
        return None;
    }
    let frame = entry.number().checked_sub(BASE)?;
    u32::try_from(frame).ok().map(FrameNo)
}

// Whether a root's tables have an entry for a page.
fn has_page(ram: &Ram, root: FrameNo, page: u64) -> bool {
    let Some(high) = named(ram, root, page / (ENTRIES * ENTRIES) % ENTRIES) else {
        return false;
    };
    let Some(low) = named(ram, high, page / ENTRIES % ENTRIES) else {
        return false;
    };
    named(ram, low, page % ENTRIES).is_some()
}

/// Returns the oldest translation that it may hold.
/// At each call it notes the translation that is asked for, and those of the root's pages from page 0 on.
/// It stops at the first page that isn't mapped.
#[derive(Drop)]
pub struct Noting {
    notes: Vec<Note>,
    // for each page and access the number of its note from 1 on, and 0 where there is none
    index: Vec<u32>,
    ahead: u64,
}

impl Noting {
    /// A translator with no notes, which notes at most `ahead` pages of a root at each call.
    /// With `MOST_PAGES` these are all pages that a program has.
    pub fn new(alloc: Global, ahead: u64) -> Noting
        ensures { result.notes.items ≡ [] }
    {
        Noting {
            notes: Vec::new(alloc),
            index: Vec::new(alloc),
            ahead,
        }
    }

    // The frame of the oldest note.
    fn find(&self, root: FrameNo, page: u64, access: Access) -> Option<FrameNo>
        ensures { IfSome result (λ f. IsNoted self.now.notes.items
            (record { root = root.0; page = page; access = access; frame = f.0 })) }
    {
        let number = *self.index.as_slice().get(place(page, access)?)?;
        let note = self
            .notes
            .as_slice()
            .get((number as usize).checked_sub(1)?)?;
        if note.root == root && note.page == page && note.access == access {
            return Some(note.frame);
        }
        None
    }

    // Makes room in the index for a page of which nothing is noted yet, and returns its index there.
    fn free_place(&mut self, page: u64, access: Access) -> Option<usize>
        ensures { self.new.notes ≡ self.old.notes }
    {
        let at = place(page, access)?;
        if self.index.len() <= at && self.index.resize(at + 1, 0).is_err() {
            return None;
        }
        match self.index.as_slice().get(at) {
            Some(0) => Some(at),
            _ => None,
        }
    }

    // Notes what a walk gives, where nothing is noted yet and the host has memory for it.
    fn note(&mut self, ram: &Ram, root: FrameNo, page: u64, access: Access)
        ensures { IsKept (IsNoted self.old.notes.items) (IsNoted self.new.notes.items) ram.now root.0 }
    {
        let Some(at) = self.free_place(page, access) else {
            return;
        };
        let Some(frame) = walk_page(ram, root, page, access) else {
            return;
        };
        let note = Note {
            root,
            page,
            access,
            frame,
        };
        if self.notes.push(note).is_err() {
            return;
        }
        let number = u32::try_from(self.notes.len()).unwrap_or(0);
        if let Some(entry) = self.index.as_mut_slice().get_mut(at) {
            *entry = number;
        }
    }

    // Notes the root's pages.
    fn note_ahead(&mut self, ram: &Ram, root: FrameNo)
        ensures { IsKept (IsNoted self.old.notes.items) (IsNoted self.new.notes.items) ram.now root.0 }
    {
        let ahead = self.ahead;
        for page in 0..ahead {
            if !has_page(ram, root, page) {
                return;
            }
            self.note(ram, root, page, Access::Fetch);
            self.note(ram, root, page, Access::Load);
            self.note(ram, root, page, Access::Store);
        }
    }
}

impl Translate for Noting {
    ghost held = { λ noting. IsNoted noting.notes.items };

    fn translate(
        &mut self,
        ram: &Ram,
        root: FrameNo,
        va: u64,
        access: Access,
    ) -> Result<Pa, Fault> {
        let held = self.find(root, va / 4096, access);
        self.note_ahead(ram, root);
        self.note(ram, root, va / 4096, access);
        match held {
            Some(frame) => Ok((BASE + u64::from(frame.0)) * 4096 + va % 4096),
            None => walk(ram, root, va, access),
        }
    }

    fn fence(&mut self) {
        self.notes.clear();
        self.index.clear();
    }
}
