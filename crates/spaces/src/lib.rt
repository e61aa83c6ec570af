//! The address spaces of a machine, over the frames of one memory.
//!
//! There are 64 slots, each free or with a space, and a hart, which runs the process of the active slot. Beside them
//! are 100 slots for pipes, whose bytes lie in the same memory. What the processes are, and who may read or write a
//! pipe, is the caller's affair. Contracts are in plain values, `Spaces` of `specs/Spaces`: the memory of each slot,
//! the bytes of each pipe, the hart's registers, and how many frames there are. No frame and no table shows, and what
//! is done to one slot leaves the others as they are.
//!
//! Spaces may share frames: a copy has those of its source, and a page gets a frame of its own before it is written.
//!
//! The slot that was the active one last stays loaded: the hart keeps the tables of its space.
//!
//! A translator may hold translations, so it is fenced where one that it may hold for the loaded slot goes: where
//! another slot is loaded, and where the loaded one shrinks, is copied, so that its pages are closed, or is written
//! where a page may get another frame. A space that grows keeps the frames that it had, one that is written at an open
//! page does, and what is held for spaces that aren't loaded doesn't count.
//!
//! What is known of decoded words holds from run to run: who else writes the memory has it forgotten.
#![tactic(auto)]

ghost use Rattle.std.specs.Prelude.{◌≡◌, ◌≢◌, List, ◌+◌, ◌-◌, ◌++◌, ◌<◌, ◌≤◌, ◌/◌, ◌%◌, ℕ, [], All, Some, None, true};
ghost use Rattle.std.specs.Prelude.{false, drop, length, is_some, min, nat_le, nat_lt, not, option_map, replicate};
ghost use Rattle.std.specs.Prelude.{slice_get, slice_index, slice_set, take, IfOk, IfSome, IfNone, Ok, Err};
ghost use Rattle.std.specs.Bool.{OnTrue, OnFalse};
ghost use Rattle.std.specs.Option.{option_copied};
ghost use Rattle.spaces.specs.Spaces.{Executes, Fits, Lacks, Traps, bytes_in, copied, filled, fitting, grown_at};
ghost use Rattle.spaces.specs.Spaces.{has_pipe, has_space, view_at, no_pages, no_spaces, put_behind, read_at, shrunk};
ghost use Rattle.spaces.specs.Spaces.{taken_frames, taken_to, with_view, with_pipe, with_place, written};
ghost use Rattle.spaces.specs.Ends.{IsOpen};
ghost use Rattle.spaces.specs.View.{IsStoreIn, WalksReach};
ghost use Rattle.pipe.specs.Pipe.{Stays, bytes_of};
ghost use Rattle.ram.specs.Memory.{frame_of};
ghost use Rattle.unixmodel.specs.Cycle.{cycle};
ghost use Rattle.unixmodel.specs.Files.{free_slot, slot};
ghost use Rattle.unixmodel.specs.declared.trap.Access.{Access};
ghost use Rattle.unixmodel.specs.declared.trap.Access.TheVariants.{Load, Store};
ghost use Rattle.unixmodel.specs.declared.trap.Cause.TheVariants.{StorePageFault};
ghost use Rattle.unixmodel.specs.Memory.{page_for, can_write, path_at, reach, read_bytes, string_at};
ghost use Rattle.unixmodel.specs.Numbers.{ceil_div};
ghost use Rattle.unixmodel.specs.OpenFiles.{pipe_room};
ghost use Rattle.unixmodel.specs.Shown.{ShowsMemory, told_page};
ghost use Rattle.unixmodel.specs.Turn.{is_empty};
ghost use Rattle.unixmodel.specs.Translation.{HoldsInside, HoldsNothing, IsKept, Translation};
ghost use Rattle.hart.specs.Follows.{Follows};
ghost use Rattle.hart.specs.Recalled.{Knows};
ghost use Rattle.sv39.specs.Mapping.{Mapped, Shows, memory_of};
ghost use Rattle.vm.specs.Leaf.{kept_from, marks_from, page_from};
ghost use Rattle.vm.specs.Reach.{IsSized, piece_at, short_string, string_in};
ghost use Rattle.vm.specs.Space.{IsMapped, pages_in, pages_of};

mod instructions;

use arrayvec::ArrayVec;
use frames::Memory;
use hart::{Decoded, Hart};
use pipe::Pipe;
use ram::{FRAME_SIZE, FrameNo, NoMemory, Ram};
use std::alloc::Global;
use std::marker::Model;
use sv39::Translate;
use unixmodel::limits::{PIPES, PROCESSES};
use unixmodel::trap::{Access, Cause, Trap};
use vm::{Marks, Perm, Space};

// A read or a write of a pipe by at most that many bytes takes a buffer of that size: a buffer of a pipe's size costs
// more than the call.
const SHORT: usize = 64;

// A free slot.
const FREE: Option<Space> = None;

/// The address spaces of a machine and its hart.
#[derive(Drop)]
pub struct Spaces<T: Translate> {
    memory: Memory,
    translator: T,
    places: ArrayVec<Option<Space>, 64>,
    hart: Hart,
    decoded: Decoded,
    active: Option<usize>,
    // The slot whose tables the hart has: the active one, or the one that was it last.
    loaded: Option<usize>,
    pipes: ArrayVec<Option<Pipe>, 100>,
}

impl<T: Translate> Model for Spaces<T> {
    ghost use Rattle.spaces.specs.Spaces.{Spaces};

    ghost Value = { Spaces };

    ghost use Rattle.spaces.specs.View.{IsWhole, spaces_of};

    ghost view = { spaces_of };

    ghost invariant = { IsWhole T.held };
}

// Fences a translator where this slot is loaded.
fn fence_loaded<T: Translate>(translator: &mut T, loaded: Option<usize>, at: usize)
    ensures fenced { loaded ≡ Some at → HoldsNothing (T.held translator.new) }
    ensures fewer { (t : Translation) → T.held translator.new t → T.held translator.old t }
{
    if loaded == Some(at) {
        translator.fence();
    }
}

// Fences a translator where this slot is to be loaded, and isn't.
fn load<T: Translate>(translator: &mut T, loaded: Option<usize>, at: usize)
    ensures fenced { loaded ≢ Some at → HoldsNothing (T.held translator.new) }
    ensures fewer { (t : Translation) → T.held translator.new t → T.held translator.old t }
{
    if loaded != Some(at) {
        translator.fence();
    }
}

// The slot that is loaded once a slot loses its space.
fn still_loaded(loaded: Option<usize>, at: usize) -> Option<usize>
    ensures gone { result ≢ Some at }
    ensures same { IfSome result (λ slot. loaded ≡ Some slot) }
    ensures others { (slot : ℕ) → slot ≢ at → loaded ≡ Some slot → result ≡ Some slot }
{
    if loaded == Some(at) { None } else { loaded }
}

// The root of a space, from which walks reach its pages.
fn root_of(space: &Space, ram: &Ram) -> FrameNo
    requires { IsMapped ram.now space.now }
    ensures { WalksReach ram.now result.0 space.now }
{
    space.walks(ram);
    space.root()
}

// A step of the hart, out of line: what seldom happens stays out of the loop over steps.
#[inline(never)]
fn step_again<T: Translate>(hart: &mut Hart, ram: &mut Ram, translator: &mut T) -> Option<Trap>
    requires { HoldsInside (T.held translator.old) ram.old }
    ensures step { (mapping : List Mapped) → Shows (T.held translator.old) ram.old hart.old.root.0 mapping →
        Follows (cycle hart.old.registers hart.old.pc (memory_of ram.old mapping)) mapping result hart.old hart.new
        ram.old ram.new }
    ensures kept { IsKept (T.held translator.old) (T.held translator.new) ram.old hart.old.root.0 }
    ensures count { length ram.new ≡ length ram.old }
{
    hart.step(ram, translator)
}

// The page of a store that faulted, where the program of the space may write it by right.
#[inline(never)]
fn closed_page(space: &Space, ram: &Ram, trap: Trap) -> Option<u64>
    requires { IsMapped ram.now space.now }
    ensures some { IfSome result (IsStoreIn trap space.now) }
    ensures none { IfNone result
        (trap.cause ≡ StorePageFault → page_for Store (pages_of ram.now space.now) trap.address ≡ None) }
{
    let Cause::StorePageFault = trap.cause else {
        return None;
    };
    let page = trap.address / 4096;
    match space.find_page(ram, page) {
        Some((_, marks)) if marks.permits(Access::Store) => Some(page),
        _ => None,
    }
}

// The space of a slot that has one.
fn space_at(places: &ArrayVec<Option<Space>, 64>, at: usize) -> &Space
    requires { is_some (slot places.now.items at) ≡ true }
    ensures { slot places.now.items at ≡ Some result.now }
{
    places.as_slice()[at].as_ref().unwrap()
}

// Whether a slot has a space.
fn stands(places: &ArrayVec<Option<Space>, 64>, at: usize) -> bool
    ensures { result ≡ is_some (slot places.now.items at) }
{
    matches!(places.as_slice().get(at), Some(Some(_)))
}

// The pipe of a slot that has one.
fn pipe_at(pipes: &ArrayVec<Option<Pipe>, 100>, q: usize) -> &Pipe
    requires { is_some (slot pipes.now.items q) ≡ true }
    ensures { slot pipes.now.items q ≡ Some result.now }
{
    pipes.as_slice()[q].as_ref().unwrap()
}

// The pipe of a slot, if it has one.
fn pipe_in(pipes: &ArrayVec<Option<Pipe>, 100>, q: usize) -> Option<&Pipe>
    ensures { option_copied result ≡ slot pipes.now.items q }
{
    match pipes.as_slice().get(q) {
        Some(Some(pipe)) => Some(pipe),
        _ => None,
    }
}

// The lowest free slot for pipes.
fn lowest_free(pipes: &[Option<Pipe>]) -> Option<usize>
    ensures place { result ≡ free_slot pipes.now }
    ensures within { IfSome result (λ q. q < length pipes.now) }
{
    pipes.iter().position(|pipe| pipe.is_none())
}

// Puts what fits of these bytes into a pipe whose read end is open.
fn put_in(pipe: &mut Pipe, ram: &mut Ram, bytes: &[u8]) -> usize
    requires frame { pipe.old.frame < length ram.old }
    requires open { IsOpen pipe.old }
    ensures bytes { bytes_of ram.new pipe.new ≡ filled (bytes_of ram.old pipe.old) bytes.now }
    ensures count { result ≡ length (take (pipe_room - length (bytes_of ram.old pipe.old)) bytes.now) }
    ensures stays { Stays pipe.old pipe.new }
    ensures memory { ram.new ≡ slice_set ram.old pipe.old.frame (frame_of ram.new pipe.old.frame) }
{
    pipe.write_some(ram, bytes).unwrap()
}

// Takes bytes of a pipe whose write end is open into a buffer.
fn take_out(pipe: &mut Pipe, ram: &Ram, buffer: &mut [u8]) -> usize
    requires frame { pipe.old.frame < length ram.now }
    requires open { IsOpen pipe.old }
    ensures bytes { buffer.new ≡ take (length buffer.old) (bytes_of ram.now pipe.old) ++ drop result buffer.old }
    ensures count { result ≡ min (length buffer.old) (length (bytes_of ram.now pipe.old)) }
    ensures rest { bytes_of ram.now pipe.new ≡ drop (length buffer.old) (bytes_of ram.now pipe.old) }
    ensures stays { Stays pipe.old pipe.new }
{
    pipe.read_some(ram, buffer).unwrap_or(0)
}

// How many registers there are, which the check reads off the type.
fn all_of(registers: &[u64; 32])
    ensures { length registers.now ≡ 32 }
{}

// The same spaces in the same slots, in a duplicate of the memory.
fn duplicate_places(places: &ArrayVec<Option<Space>, 64>) -> ArrayVec<Option<Space>, 64>
    ensures { result ≡ places.now }
{
    let mut copies = ArrayVec::new();
    for place in places.as_slice() {
        copies.push(match place {
            Some(space) => Some(space.duplicate()),
            None => None,
        });
    }
    copies
}

// The same pipes in the same slots, whose bytes lie in a duplicate of the memory.
fn duplicate_pipes(pipes: &ArrayVec<Option<Pipe>, 100>) -> ArrayVec<Option<Pipe>, 100>
    ensures { result ≡ pipes.now }
{
    let mut copies = ArrayVec::new();
    copies.try_extend_from_slice(pipes.as_slice()).unwrap();
    copies
}

// No decoded words, with room for them.
fn nothing_decoded(alloc: Global) -> Result<Decoded, NoMemory>
    ensures { IfOk result (λ decoded. (ram : List (List ℕ)) → Knows decoded ram) }
{
    match Decoded::new(alloc) {
        Ok(decoded) => Ok(decoded),
        Err(_) => Err(NoMemory),
    }
}

impl<T: Translate> Spaces<T> {
    /// No spaces over a memory; the hart's registers are 0. The translator is fenced: it may hold anything.
    ///
    /// It takes 2 bytes a frame of the host, and 1.5 MiB for decoded words: `NoMemory` where it has none for them.
    pub fn new(alloc: Global, ram: Ram, translator: T) -> Result<Spaces<T>, NoMemory>
        ensures { IfOk result (λ s. s ≡ no_spaces (length ram)) }
    {
        let mut translator = translator;
        translator.fence();
        let memory = Memory::new(alloc, ram)?;
        let decoded = nothing_decoded(alloc)?;
        Ok(Spaces {
            memory,
            translator,
            places: ArrayVec::from_array_in((), [FREE; PROCESSES]),
            hart: Hart {
                registers: [0; 32],
                pc: 0,
                root: FrameNo(0),
            },
            decoded,
            active: None,
            loaded: None,
            pipes: ArrayVec::from_array_in((), [None; PIPES]),
        })
    }

    /// The same spaces, pipes and registers over a duplicate of the memory, with a translator of its own, which is
    /// fenced: it may hold anything.
    ///
    /// It takes 4098 bytes a frame of the host, and 1.5 MiB for decoded words, of which none are decoded yet:
    /// `NoMemory` where it has none for them.
    pub fn duplicate<U: Translate>(
        &self,
        alloc: Global,
        translator: U,
    ) -> Result<Spaces<U>, NoMemory>
        ensures { IfOk result (λ s. s ≡ self.now) }
    {
        let memory = self.memory.duplicate(alloc)?;
        let decoded = nothing_decoded(alloc)?;
        let mut fenced = translator;
        fenced.fence();
        Ok(Spaces {
            memory,
            translator: fenced,
            places: duplicate_places(&self.places),
            hart: self.hart.duplicate(),
            decoded,
            active: self.active,
            loaded: self.loaded,
            pipes: duplicate_pipes(&self.pipes),
        })
    }

    /// Becomes the same spaces, pipes and registers over a copy of a memory of as many frames, in the memory of the
    /// host that it has. Its own translator is fenced, and what is known of decoded words is forgotten.
    pub fn copy_from<U: Translate>(&mut self, source: &Spaces<U>)
        requires { self.old.frames ≡ source.now.frames }
        ensures { self.new ≡ source.now }
    {
        self.decoded.forget();
        self.memory.copy_from(&source.memory);
        let translator = &mut self.translator;
        translator.fence();
        self.places = duplicate_places(&source.places);
        self.hart = source.hart.duplicate();
        self.active = source.active;
        self.loaded = source.loaded;
        self.pipes = duplicate_pipes(&source.pipes);
    }

    /// How many frames there are.
    pub fn frame_count(&self) -> u32
        ensures { result ≡ self.now.frames }
    {
        self.memory.ram.frame_count()
    }

    /// How many frames are free.
    pub fn free(&self) -> u32
        ensures { result + taken_frames self.now ≡ self.now.frames }
    {
        self.memory.frames.free()
    }

    /// A law: no more frames are taken than there are. It runs no code.
    #[inline]
    pub fn frames_suffice(&self)
        ensures { taken_frames self.now ≤ self.now.frames }
    {
        let _memory = &self.memory;
    }

    /// The active slot, which has a space.
    pub fn active(&self) -> Option<usize>
        ensures active { result ≡ self.now.active }
        ensures stands { IfSome result (λ at. has_space self.now at ≡ true) }
        ensures all { length self.now.places ≡ 64 }
    {
        self.active
    }

    /// Whether a slot has a space.
    pub fn has_space(&self, at: usize) -> bool
        ensures { result ≡ has_space self.now at }
    {
        stands(&self.places, at)
    }

    /// The size of a slot's space in bytes.
    pub fn size(&self, at: usize) -> u64
        requires { has_space self.now at ≡ true }
        ensures { result ≡ (view_at self.now at).size }
    {
        let space = space_at(&self.places, at);
        space.size()
    }

    /// How many pages a slot's space has.
    pub fn pages(&self, at: usize) -> u64
        requires { has_space self.now at ≡ true }
        ensures count { result ≡ length (view_at self.now at).memory }
        ensures few { length (view_at self.now at).memory ≤ 32768 }
    {
        let space = space_at(&self.places, at);
        vm::pages_in(space.size())
    }

    /// A law: the pages of a slot's space are no more than there can be frames, as many as its size asks for, and of
    /// 4096 bytes each. It runs no code.
    #[inline]
    pub fn pages_are_whole(&self, at: usize)
        requires { has_space self.now at ≡ true }
        ensures few { length (view_at self.now at).memory ≤ 32768 }
        ensures whole { length (view_at self.now at).memory ≡ ceil_div (view_at self.now at).size 4096 }
        ensures sized { IsSized (view_at self.now at).memory }
    {
        self.memory.ram.frames_are_whole();
    }

    /// Whether the program of a slot may read `count` bytes from `address` on.
    #[inline(always)]
    pub fn can_read(&self, at: usize, address: u64, count: u64) -> bool
        requires { has_space self.now at ≡ true }
        ensures reach { result ≡ nat_le count (length (reach Load (view_at self.now at).memory address)) }
        ensures read { result ≡ is_some (read_bytes (view_at self.now at).memory address count) }
    {
        let space = space_at(&self.places, at);
        space.can_read(&self.memory.ram, address, count)
    }

    /// Whether the program of a slot may write `count` bytes from `address` on.
    #[inline(always)]
    pub fn can_write(&self, at: usize, address: u64, count: u64) -> bool
        requires { has_space self.now at ≡ true }
        ensures { result ≡ can_write (view_at self.now at).memory address count }
    {
        let space = space_at(&self.places, at);
        space.can_write(&self.memory.ram, address, count)
    }

    /// The bytes from an address of a slot to the end of its page; none where its program may not read them.
    pub fn readable(&self, at: usize, address: u64) -> &[u8]
        requires { has_space self.now at ≡ true }
        ensures { result.now ≡ piece_at Load (view_at self.now at).memory address }
    {
        let space = space_at(&self.places, at);
        space.readable(&self.memory.ram, address)
    }

    /// The bytes and the marks of a page of a slot; `None` past the last one.
    pub fn page(&self, at: usize, n: u64) -> Option<(&[u8; FRAME_SIZE], Perm)>
        requires { has_space self.now at ≡ true }
        ensures { option_map page_from result ≡ option_map told_page (slice_get (view_at self.now at).memory n) }
    {
        let space = space_at(&self.places, at);
        let (frame, marks) = space.find_page(&self.memory.ram, n)?;
        Some((self.memory.ram.frame(frame), marks.perm))
    }

    /// The bytes and the marks of a page of a slot, with whether a fork had it; `None` past the last one.
    pub fn kept_page(&self, at: usize, n: u64) -> Option<(&[u8; FRAME_SIZE], Marks)>
        requires { has_space self.now at ≡ true }
        ensures { option_map kept_from result ≡ slice_get (view_at self.now at).memory n }
    {
        let space = space_at(&self.places, at);
        let ram = &self.memory.ram;
        let (frame, marks) = space.find_page(ram, n)?;
        Some((ram.frame(frame), marks))
    }

    /// The memory, and the frame of the root of a slot's page table.
    pub fn tables(&self, at: usize) -> (&Ram, FrameNo)
        requires { has_space self.now at ≡ true }
        ensures { ShowsMemory result.0.now result.1.0 (view_at self.now at).memory }
    {
        let space = space_at(&self.places, at);
        (&self.memory.ram, root_of(space, &self.memory.ram))
    }

    /// Makes a space without pages in a free slot. `false`: fewer than 4 frames are free; then nothing changed.
    pub fn create(&mut self, at: usize) -> bool
        requires inside { at < 64 }
        requires free { has_space self.old at ≡ false }
        ensures done { OnTrue result (Fits self.old self.new (with_view self.old at no_pages)) }
        ensures refused { OnFalse result (Lacks self.old self.new (with_view self.old at no_pages)) }
    {
        self.decoded.forget();
        match Space::new(&mut self.memory) {
            Ok(space) => {
                self.places[at] = Some(space);
                true
            }
            Err(_) => false,
        }
    }

    /// Makes a space in a free slot with the pages of another slot's. `false`: the frames don't suffice; then nothing
    /// changed.
    ///
    /// The two share their frames, each page counted in full, and their pages are marked as those of a fork. The pages
    /// of the source are closed then, so there is a fence where it is loaded.
    pub fn copy(&mut self, from: usize, to: usize) -> bool
        requires from { has_space self.old from ≡ true }
        requires inside { to < 64 }
        requires free { has_space self.old to ≡ false }
        ensures done { OnTrue result (Fits self.old self.new (copied self.old from to)) }
        ensures refused { OnFalse result (Lacks self.old self.new (copied self.old from to)) }
    {
        self.decoded.forget();
        let space = space_at(&self.places, from);
        match space.copy(&mut self.memory) {
            Ok(space) => {
                self.places[to] = Some(space);
                fence_loaded(&mut self.translator, self.loaded, from);
                true
            }
            Err(_) => false,
        }
    }

    /// Frees a slot, and all frames of its space. The active slot is not freed.
    pub fn destroy(&mut self, at: usize)
        requires space { has_space self.old at ≡ true }
        requires idle { self.old.active ≢ Some at }
        ensures { self.new ≡ with_place self.old at None }
    {
        self.decoded.forget();
        self.loaded = still_loaded(self.loaded, at);
        let space = self.places[at].take().unwrap();
        space.destroy(&mut self.memory);
    }

    /// Adds `bytes` bytes to a slot's space: new pages are 0 and have these marks. `false`: the frames don't
    /// suffice; then nothing changed.
    ///
    /// There is no fence: the pages that the space had keep their frames, and what is held says where pages are and
    /// never that there are none.
    pub fn grow(&mut self, at: usize, bytes: u64, perm: Perm) -> bool
        requires { has_space self.old at ≡ true }
        ensures done { OnTrue result (Fits self.old self.new (grown_at self.old at bytes (marks_from perm))) }
        ensures refused { OnFalse result (Lacks self.old self.new (grown_at self.old at bytes (marks_from perm))) }
    {
        self.decoded.forget();
        self.memory.ram.frames_are_whole();
        let space = self.places[at].as_mut().unwrap();
        space.grow(&mut self.memory, bytes, perm).is_ok()
    }

    /// Takes the last `bytes` bytes from a slot's space, and the pages that no byte needs then.
    pub fn shrink(&mut self, at: usize, bytes: u64)
        requires space { has_space self.old at ≡ true }
        requires less { bytes ≤ (view_at self.old at).size }
        ensures { self.new ≡ with_view self.old at (shrunk (view_at self.old at) bytes) }
    {
        self.decoded.forget();
        let space = self.places[at].as_mut().unwrap();
        space.shrink(&mut self.memory, bytes);
        fence_loaded(&mut self.translator, self.loaded, at);
    }

    /// Writes bytes into the pages of a slot from an address on, whatever their marks, as a loader does.
    #[inline]
    pub fn fill(&mut self, at: usize, address: u64, bytes: &[u8])
        requires space { has_space self.old at ≡ true }
        requires inside { (i : ℕ) → i < length bytes.now → (address + i) / 4096 < length (view_at self.old at).memory }
        ensures { self.new ≡ with_view self.old at (written (view_at self.old at) address bytes.now) }
    {
        if self.store(at, address, bytes) {
            return;
        }
        self.fill_pages(at, address, bytes);
    }

    // The same where a store goes through and the bytes lie in one page: nothing that a translator holds goes. `false`:
    // it isn't so, and nothing changed.
    fn store(&mut self, at: usize, address: u64, bytes: &[u8]) -> bool
        requires { has_space self.old at ≡ true }
        ensures done { OnTrue result
            (self.new ≡ with_view self.old at (written (view_at self.old at) address bytes.now)) }
        ensures refused { OnFalse result (self.new ≡ self.old) }
    {
        let space = space_at(&self.places, at);
        let Some(frame) = space.store(&mut self.memory.ram, address, bytes) else {
            return false;
        };
        self.decoded.forget_frame(frame);
        true
    }

    // The same for any bytes: pages may get other frames. It is out of line, as it is seldom done.
    #[inline(never)]
    fn fill_pages(&mut self, at: usize, address: u64, bytes: &[u8])
        requires space { has_space self.old at ≡ true }
        requires inside { (i : ℕ) → i < length bytes.now → (address + i) / 4096 < length (view_at self.old at).memory }
        ensures { self.new ≡ with_view self.old at (written (view_at self.old at) address bytes.now) }
    {
        self.decoded.forget();
        let space = space_at(&self.places, at);
        space.fill(&mut self.memory, address, bytes);
        fence_loaded(&mut self.translator, self.loaded, at);
    }

    /// Copies bytes to an address of a slot. `false`: its program may not write them all; then nothing changed.
    pub fn write(&mut self, at: usize, address: u64, bytes: &[u8]) -> bool
        requires { has_space self.old at ≡ true }
        ensures can { result ≡ can_write (view_at self.old at).memory address (length bytes.now) }
        ensures done { OnTrue result
            (self.new ≡ with_view self.old at (written (view_at self.old at) address bytes.now)) }
        ensures refused { OnFalse result (self.new ≡ self.old) }
    {
        self.pages_are_whole(at);
        if !self.can_write(at, address, bytes.len() as u64) {
            return false;
        }
        self.fill(at, address, bytes);
        true
    }

    /// Copies bytes from an address of a slot. `false`: its program may not read them all; then none is copied.
    pub fn read(&self, at: usize, address: u64, buffer: &mut [u8]) -> bool
        requires { has_space self.now at ≡ true }
        ensures can { result ≡ is_some (read_bytes (view_at self.now at).memory address (length buffer.old)) }
        ensures done { OnTrue result
            (read_bytes (view_at self.now at).memory address (length buffer.old) ≡ Some buffer.new) }
        ensures refused { OnFalse result (buffer.new ≡ buffer.old) }
    {
        let space = space_at(&self.places, at);
        space.copy_in(&self.memory.ram, address, buffer).is_ok()
    }

    /// Copies the string at an address of a slot into a buffer, and returns its length: the bytes before the first 0,
    /// none of which is 0, without it. `None` where its program may not read them and the 0, or the buffer is too
    /// short.
    pub fn copy_string(&self, at: usize, address: u64, buffer: &mut [u8]) -> Option<usize>
        requires { has_space self.now at ≡ true }
        ensures string { string_in buffer.new result
            ≡ short_string (length buffer.old) (string_at (view_at self.now at).memory address) }
        ensures within { IfSome result (λ n. n ≤ length buffer.old) }
        ensures bytes { IfSome result (λ n. All (λ b. b ≢ 0) (take n buffer.new)) }
    {
        let space = space_at(&self.places, at);
        space.copy_string(&self.memory.ram, address, buffer)
    }

    /// Copies the path at an address of a slot into a buffer, and returns its length: it is a string of at most 127
    /// bytes.
    pub fn copy_path(&self, at: usize, address: u64, buffer: &mut [u8; 127]) -> Option<usize>
        requires { has_space self.now at ≡ true }
        ensures path { string_in buffer.new result ≡ path_at (view_at self.now at).memory address }
        ensures within { IfSome result (λ n. n ≤ 127) }
        ensures bytes { IfSome result (λ n. All (λ b. b ≢ 0) (take n buffer.new)) }
    {
        self.copy_string(at, address, buffer)
    }

    /// Makes a slot the active one: the hart takes these registers, this pc and the tables of the slot's space. What
    /// the translator holds stays where the slot was the active one last.
    pub fn activate(&mut self, at: usize, registers: &[u64; 32], pc: u64)
        requires space { has_space self.old at ≡ true }
        requires zero { slice_index registers.now 0 ≡ 0 }
        requires aligned { pc % 4 ≡ 0 }
        ensures { self.new ≡ record self.old { active = Some at; registers = registers.now; pc = pc } }
    {
        let root = space_at(&self.places, at).root();
        load(&mut self.translator, self.loaded, at);
        self.loaded = Some(at);
        self.active = Some(at);
        self.hart = Hart {
            registers: *registers,
            pc,
            root,
        };
    }

    /// No slot is active: the hart runs nothing, and keeps its registers.
    pub fn deactivate(&mut self)
        ensures { self.new ≡ record self.old { active = None } }
    {
        self.active = None;
    }

    /// The hart's registers, of which x0 is 0.
    pub fn registers(&self) -> &[u64; 32]
        ensures registers { result.now ≡ self.now.registers }
        ensures zero { slice_index self.now.registers 0 ≡ 0 }
        ensures all { length self.now.registers ≡ 32 }
    {
        let registers = &self.hart.registers;
        all_of(registers);
        registers
    }

    /// The hart's pc, a multiple of 4.
    pub fn pc(&self) -> u64
        ensures pc { result ≡ self.now.pc }
        ensures aligned { self.now.pc % 4 ≡ 0 }
    {
        self.hart.pc
    }

    /// Puts a number into a register of the hart.
    pub fn set_register(&mut self, n: usize, value: u64)
        requires some { 1 ≤ n }
        requires inside { n < 32 }
        ensures { self.new ≡ record self.old { registers = slice_set self.old.registers n value } }
    {
        self.hart.registers[n] = value;
    }

    /// Sets the hart's pc.
    pub fn set_pc(&mut self, value: u64)
        requires { value % 4 ≡ 0 }
        ensures { self.new ≡ record self.old { pc = value } }
    {
        self.hart.pc = value;
    }

    /// Does the instruction at the pc in the memory of the active slot, or says why it isn't done.
    ///
    /// A store that faults at a page which the program may write by right is done in the same step: the page is opened,
    /// and gets a frame of its own where others hold its frame too.
    #[inline(always)]
    pub fn execute(&mut self) -> Option<Trap>
        requires { is_some self.old.active ≡ true }
        ensures done { IfNone result (IfSome self.old.active (Executes self.old self.new)) }
        ensures trap { IfSome result (λ t. IfSome self.old.active (λ at. Traps self.old self.new at t)) }
    {
        self.decoded.forget();
        self.memory.ram.frames_are_whole();
        let Some(at) = self.active else {
            unreachable!()
        };
        let Some(trap) = self.hart.step(&mut self.memory.ram, &mut self.translator) else {
            return None;
        };
        let space = space_at(&self.places, at);
        let Some(page) = closed_page(space, &self.memory.ram, trap) else {
            return Some(trap);
        };
        space.open_page(&mut self.memory, page);
        self.memory.ram.frames_are_whole();
        let translator = &mut self.translator;
        translator.fence();
        step_again(&mut self.hart, &mut self.memory.ram, translator)
    }

    /// The lowest free slot for pipes.
    pub fn free_pipe(&self) -> Option<usize>
        ensures place { result ≡ free_slot self.now.pipes }
        ensures within { IfSome result (λ q. q < 100) }
    {
        self.memory.ram.frames_are_whole();
        lowest_free(self.pipes.as_slice())
    }

    /// Makes an empty pipe in a free slot. `false`: no frame is free; then nothing changed.
    pub fn create_pipe(&mut self, q: usize) -> bool
        requires inside { q < 100 }
        requires free { has_pipe self.old q ≡ false }
        ensures done { OnTrue result (Fits self.old self.new (with_pipe self.old q (Some []))) }
        ensures refused { OnFalse result (Lacks self.old self.new (with_pipe self.old q (Some []))) }
    {
        match self.memory.frames.take(&self.memory.ram) {
            Some(frame) => {
                self.pipes[q] = Some(Pipe::new(frame));
                true
            }
            None => false,
        }
    }

    /// Frees the slot of a pipe, and its frame.
    pub fn destroy_pipe(&mut self, q: usize)
        requires { has_pipe self.old q ≡ true }
        ensures { self.new ≡ with_pipe self.old q None }
    {
        self.decoded.forget();
        let pipe = self.pipes[q].take().unwrap();
        self.memory.frames.give(&mut self.memory.ram, pipe.frame());
    }

    /// The bytes of a pipe, the oldest first: those of the second slice follow those of the first. `None` where
    /// there is no such pipe.
    pub fn pipe(&self, q: usize) -> Option<(&[u8], &[u8])>
        ensures { option_map (λ r. r.0.now ++ r.1.now) result ≡ slot self.now.pipes q }
    {
        match pipe_in(&self.pipes, q) {
            Some(pipe) => Some(pipe.bytes(&self.memory.ram)),
            None => None,
        }
    }

    /// Whether a pipe holds a byte.
    pub fn has_bytes(&self, q: usize) -> bool
        requires { has_pipe self.now q ≡ true }
        ensures { result ≡ not (is_empty (bytes_in self.now q)) }
    {
        let pipe = pipe_at(&self.pipes, q);
        pipe.can_read()
    }

    /// Whether a byte fits into a pipe.
    pub fn has_room(&self, q: usize) -> bool
        requires { has_pipe self.now q ≡ true }
        ensures room { result ≡ nat_lt (length (bytes_in self.now q)) pipe_room }
        ensures few { length (bytes_in self.now q) ≤ pipe_room }
    {
        let pipe = pipe_at(&self.pipes, q);
        pipe.can_write()
    }

    // Appends what fits of these bytes to those of a pipe, and returns how many.
    fn put_bytes(&mut self, q: usize, bytes: &[u8]) -> usize
        requires { has_pipe self.old q ≡ true }
        ensures bytes { self.new ≡ put_behind self.old q bytes.now }
        ensures count { result ≡ length (fitting (bytes_in self.old q) bytes.now) }
    {
        let pipe = self.pipes[q].as_mut().unwrap();
        self.decoded.forget_frame(pipe.frame());
        put_in(pipe, &mut self.memory.ram, bytes)
    }

    // Takes bytes of a pipe into a buffer, as many as there are and fit, and returns how many.
    fn take_bytes(&mut self, q: usize, buffer: &mut [u8]) -> usize
        requires { has_pipe self.old q ≡ true }
        ensures rest { self.new ≡ with_pipe self.old q (Some (drop (length buffer.old) (bytes_in self.old q))) }
        ensures bytes { buffer.new ≡ take (length buffer.old) (bytes_in self.old q) ++ drop result buffer.old }
        ensures count { result ≡ min (length buffer.old) (length (bytes_in self.old q)) }
    {
        let pipe = self.pipes[q].as_mut().unwrap();
        take_out(pipe, &self.memory.ram, buffer)
    }

    // Appends what fits of the bytes of a slot to a pipe, by way of a buffer that holds them all, and returns how many.
    fn write_through(&mut self, q: usize, at: usize, address: u64, buffer: &mut [u8]) -> usize
        requires pipe { has_pipe self.old q ≡ true }
        requires space { has_space self.old at ≡ true }
        requires readable { length buffer.old ≤ length (reach Load (view_at self.old at).memory address) }
        ensures bytes { self.new ≡ put_behind self.old q (read_at (view_at self.old at) address (length buffer.old)) }
        ensures count { result ≡ length
            (fitting (bytes_in self.old q) (read_at (view_at self.old at) address (length buffer.old))) }
    {
        let _read = self.read(at, address, buffer);
        self.put_bytes(q, buffer)
    }

    // Moves bytes of a pipe to a slot, by way of a buffer, as many as fit in that, and returns how many.
    fn read_through(&mut self, q: usize, at: usize, address: u64, buffer: &mut [u8]) -> usize
        requires pipe { has_pipe self.old q ≡ true }
        requires space { has_space self.old at ≡ true }
        requires writable { can_write (view_at self.old at).memory address (length buffer.old) ≡ true }
        ensures bytes { self.new ≡ taken_to self.old q at address (length buffer.old) }
        ensures count { result ≡ min (length buffer.old) (length (bytes_in self.old q)) }
    {
        let taken = self.take_bytes(q, buffer);
        self.pages_are_whole(at);
        self.fill(at, address, &buffer[..taken]);
        taken
    }

    /// Appends what fits of these bytes of a slot's program to those of a pipe, and returns how many.
    pub fn write_pipe(&mut self, q: usize, at: usize, address: u64, count: usize) -> usize
        requires pipe { has_pipe self.old q ≡ true }
        requires space { has_space self.old at ≡ true }
        requires readable { count ≤ length (reach Load (view_at self.old at).memory address) }
        ensures bytes { self.new ≡ put_behind self.old q (read_at (view_at self.old at) address count) }
        ensures count { result ≡ length (fitting (bytes_in self.old q) (read_at (view_at self.old at) address count)) }
    {
        if count <= SHORT {
            let mut buffer = [0; SHORT];
            return self.write_through(q, at, address, &mut buffer[..count]);
        }
        let mut buffer = [0; pipe::ROOM];
        let size = count.min(pipe::ROOM);
        self.write_through(q, at, address, &mut buffer[..size])
    }

    /// Moves at most `count` bytes of a pipe to an address of a slot, as many as there are, and returns how
    /// many.
    pub fn read_pipe(&mut self, q: usize, at: usize, address: u64, count: usize) -> usize
        requires pipe { has_pipe self.old q ≡ true }
        requires space { has_space self.old at ≡ true }
        requires writable { can_write (view_at self.old at).memory address count ≡ true }
        ensures bytes { self.new ≡ taken_to self.old q at address count }
        ensures count { result ≡ min count (length (bytes_in self.old q)) }
    {
        if count <= SHORT {
            let mut buffer = [0; SHORT];
            return self.read_through(q, at, address, &mut buffer[..count]);
        }
        let _few = self.has_room(q);
        let mut buffer = [0; pipe::ROOM];
        let size = count.min(pipe::ROOM);
        self.read_through(q, at, address, &mut buffer[..size])
    }
}
