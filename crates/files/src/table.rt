//! The table of open files.
ghost use Rattle.std.specs.Prelude.{◌≡◌, ◌<◌, count_by, is_none, length, option_map, IfSome, IfOk, OnErr, slice_set};
ghost use Rattle.std.specs.List.{list_any};
ghost use Rattle.files.specs.Meant.{end_of, is_slot_end, is_slot_pipe};
ghost use Rattle.files.specs.Places.{IsTable, closed, count_at, counted_of, file_at, free_count, has_end, has_pipe};
ghost use Rattle.files.specs.Places.{last_target, moved, node_at, opened, opens_of, place_for, readable_at, shared};
ghost use Rattle.files.specs.Places.{usable, writable_at};
ghost use Rattle.unixmodel.specs.Files.{free_slot, free_slots, slot};
ghost use Rattle.unixmodel.specs.State.{holds};

use crate::file::{End, OpenFile, Target};
use arrayvec::ArrayVec;
use std::marker::Model;
use thiserror::Error;
use unixmodel::limits::OPEN_FILES;

/// Why a call on an open file is refused.
#[derive(Clone, Copy, Debug, PartialEq, Eq, Error)]
pub enum FileFault {
    #[error("no place is free")]
    Slots = 1,
    #[error("it is not open for reading")]
    NotReadable,
    #[error("it is not open for writing")]
    NotWritable,
    #[error("it is a device that is not the console")]
    BadDevice,
    #[error("it has no record")]
    NoFile,
}

// An open file, and how many descriptors name it.
#[derive(Clone, Copy)]
struct Slot {
    file: OpenFile,
    references: u32,
}

/// The slots.
#[derive(Drop)]
pub struct Files {
    slots: ArrayVec<Option<Slot>, 100>,
}

impl Model for Files {
    ghost use Rattle.std.specs.Prelude.{List, Option, map, option_map};
    ghost use Rattle.files.specs.Places.{Counted};

    ghost Value = { List (Option Counted) };

    ghost use Rattle.files.specs.Places.{counted_of};

    ghost view = { λ t. map (option_map counted_of) t.slots.items };

    ghost use Rattle.files.specs.Sound.{IsSound};

    ghost invariant = { IsSound };
}

// The lowest free slot.
fn free_place(slots: &[Option<Slot>]) -> Option<usize>
    ensures place { result ≡ free_slot slots.now }
    ensures within { IfSome result (λ i. i < length slots.now) }
{
    slots.iter().position(|slot| slot.is_none())
}

// How many slots are free.
fn free_count(slots: &[Option<Slot>]) -> usize
    ensures { result ≡ count_by is_none slots.now }
{
    slots.iter().filter(|slot| slot.is_none()).count()
}

// Whether some open file is this end of a pipe.
fn any_end(slots: &[Option<Slot>], pipe: usize, end: End) -> bool
    ensures { result ≡ list_any (holds (is_slot_end pipe (end_of end))) slots.now }
{
    slots.iter().any(|slot| match slot {
        Some(slot) => slot.file.target.is_end(pipe, end),
        None => false,
    })
}

// Whether some open file is an end of a pipe.
fn any_pipe(slots: &[Option<Slot>], pipe: usize) -> bool
    ensures { result ≡ list_any (holds (is_slot_pipe pipe)) slots.now }
{
    slots.iter().any(|slot| match slot {
        Some(slot) => slot.file.target.is_pipe(pipe),
        None => false,
    })
}

// What is read and written there: of the devices the console alone.
fn usable(target: Target) -> Result<Target, FileFault>
    ensures { result ≡ usable target }
{
    match target {
        Target::Device { .. } => Err(FileFault::BadDevice),
        other => Ok(other),
    }
}

impl Files {
    /// Free slots.
    pub fn new() -> Files
        ensures { result ≡ free_slots 100 }
    {
        Files {
            slots: ArrayVec::from_array_in((), [None; OPEN_FILES]),
        }
    }

    /// The same open files in the same slots, with their counts.
    pub fn duplicate(&self) -> Files
        ensures { result ≡ self.now }
    {
        let mut slots = ArrayVec::new();
        slots.try_extend_from_slice(self.slots.as_slice()).unwrap();
        Files { slots }
    }

    // An open file and its count.
    fn slot(&self, id: usize) -> Option<Slot>
        ensures slot { option_map counted_of result ≡ slot self.now id }
        ensures within { IfSome result (λ s. (id < 100) × (0 < s.references)) }
    {
        match self.slots.as_slice().get(id) {
            Some(slot) => *slot,
            None => None,
        }
    }

    // Puts an open file in a slot, or frees it.
    fn set(&mut self, id: usize, slot: Option<Slot>)
        requires inside { id < 100 }
        requires named { IfSome slot (λ s. 0 < s.references) }
        ensures { self.new ≡ slice_set self.old id (option_map counted_of slot) }
    {
        self.slots[id] = slot;
    }

    /// How many slots are free.
    pub fn free_places(&self) -> usize
        ensures free { result ≡ free_count self.now }
        ensures sound { IsTable self.now }
    {
        free_count(self.slots.as_slice())
    }

    /// Puts an open file that one descriptor names in the lowest free slot.
    pub fn open(&mut self, file: OpenFile) -> Result<usize, FileFault>
        ensures place { result ≡ place_for (opens_of self.old) }
        ensures ok { IfOk result (λ i. self.new ≡ opened self.old i file) }
        ensures err { OnErr result (self.new ≡ self.old) }
        ensures within { IfOk result (λ i. i < 100) }
    {
        match free_place(self.slots.as_slice()) {
            Some(id) => {
                self.set(
                    id,
                    Some(Slot {
                        file,
                        references: 1,
                    }),
                );
                Ok(id)
            }
            None => Err(FileFault::Slots),
        }
    }

    /// One more descriptor names an open file. Nothing changes where the slot is free.
    pub fn dup(&mut self, id: usize)
        requires { count_at self.old id < 4294967295 }
        ensures { self.new ≡ shared self.old id }
    {
        if let Some(slot) = self.slot(id) {
            self.set(
                id,
                Some(Slot {
                    references: slot.references + 1,
                    ..slot
                }),
            );
        }
    }

    /// One descriptor fewer names an open file. With the last one its slot becomes free, and what it was open on is
    /// returned. Nothing changes where the slot is free.
    pub fn close(&mut self, id: usize) -> Option<Target>
        ensures table { self.new ≡ closed self.old id }
        ensures last { result ≡ last_target self.old id }
    {
        let slot = self.slot(id)?;
        if slot.references > 1 {
            self.set(
                id,
                Some(Slot {
                    references: slot.references - 1,
                    ..slot
                }),
            );
            None
        } else {
            self.set(id, None);
            Some(slot.file.target)
        }
    }

    /// An open file.
    pub fn file(&self, id: usize) -> Option<OpenFile>
        ensures { result ≡ file_at self.now id }
    {
        self.slot(id).map(|slot| slot.file)
    }

    /// How many descriptors name an open file: none where the slot is free.
    pub fn references(&self, id: usize) -> u32
        ensures { result ≡ count_at self.now id }
    {
        match self.slot(id) {
            Some(slot) => slot.references,
            None => 0,
        }
    }

    /// What an open file is open on, where it is open for reading and can be read.
    pub fn read(&self, id: usize) -> Result<Target, FileFault>
        ensures { result ≡ readable_at (file_at self.now id) }
    {
        match self.file(id) {
            Some(file) if file.readable => usable(file.target),
            _ => Err(FileFault::NotReadable),
        }
    }

    /// What an open file is open on, where it is open for writing and can be written.
    pub fn write(&self, id: usize) -> Result<Target, FileFault>
        ensures { result ≡ writable_at (file_at self.now id) }
    {
        match self.file(id) {
            Some(file) if file.writable => usable(file.target),
            _ => Err(FileFault::NotWritable),
        }
    }

    /// The number of the node that a file is open on: a pipe has none.
    pub fn stat(&self, id: usize) -> Result<u32, FileFault>
        ensures { result ≡ node_at (file_at self.now id) }
    {
        self.file(id)
            .and_then(|file| file.target.node())
            .ok_or(FileFault::NoFile)
    }

    /// Sets the offset, in bytes, of an open file on a file or a directory. Nothing else changes.
    pub fn set_offset(&mut self, id: usize, offset: u32)
        ensures { self.new ≡ moved self.old id offset }
    {
        if id >= self.slots.len() {
            return;
        }
        match &mut self.slots[id] {
            Some(slot) => slot.file.target.move_to(offset),
            None => {}
        }
    }

    /// Whether some open file is this end of a pipe.
    pub fn has_end(&self, pipe: usize, end: End) -> bool
        ensures { result ≡ has_end (opens_of self.now) pipe (end_of end) }
    {
        any_end(self.slots.as_slice(), pipe, end)
    }

    /// Whether some open file is an end of a pipe.
    pub fn has_pipe(&self, pipe: usize) -> bool
        ensures { result ≡ has_pipe (opens_of self.now) pipe }
    {
        any_pipe(self.slots.as_slice(), pipe)
    }
}
