//! Address translation by Sv39, the page-based scheme of the RISC-V privileged manual with 39 bits of
//! virtual address. Addresses are in bytes, pages and frames have 4096 bytes, and a page's number is its
//! address divided by 4096.
//!
//! The walk is inlined as a whole, so that each caller has the tests of the one access that it asks for.
#![tactic(auto)]

ghost use Rattle.std.specs.Prelude.{⊤, ◌≡◌, ◌≢◌, ◌==◌, ℕ, ◌+◌, ◌-◌, ◌*◌, ◌/◌, ◌%◌, ◌^◌, ◌<◌, ◌≤◌, List, [], ◌∷◌};
ghost use Rattle.std.specs.Prelude.{length, codes, IsTrue, IfSome, IfOk, bit_and, None, Some};
ghost use Rattle.std.specs.Result.{result_ok};
ghost use Rattle.unixmodel.specs.Translation.{walk_page, walk, walk_count, place_in, Translation, IsAnswer, IsKept};
ghost use Rattle.unixmodel.specs.Translation.{HoldsNothing, HoldsInside};
ghost use Rattle.sv39.specs.Entry.{has, allows, marks_of, number_of, is_sound, is_table, turn_of, IsSmall};
ghost use Rattle.sv39.specs.Walk.{base, frame_at, entry_of, turn_at, follow, is_canonical, walk_low, walk_mid};
ghost use Rattle.sv39.specs.Walk.{walk_high, walk_of, LiesInside, numbered};
ghost use Rattle.sv39.specs.Counts.{count_mid, count_high, count_levels};

mod lookaside;
mod places;
mod recent;

pub use crate::lookaside::Tlb;
pub use crate::recent::Recent;
use bitflags::{Flag, Flags, bitflag_items};
use ram::{FrameNo, Ram};
use std::marker::Model;
pub use unixmodel::trap::Access;

/// The marks of an entry: its low 10 bits.
#[derive(Clone, Copy, PartialEq, Eq, Debug)]
pub struct EntryBits(pub u16);

bitflag_items! {
    impl EntryBits: u16 {
        const VALID = 1;
        const READ = 2;
        const WRITE = 4;
        const EXECUTE = 8;
        const USER = 16;
        const GLOBAL = 32;
        const ACCESSED = 64;
        const DIRTY = 128;
    }
}

impl Flags for EntryBits {
    type Bits = u16;

    ghost exact = { ⊤ };

    ghost table = { (codes "VALID", 1) ∷ (codes "READ", 2) ∷ (codes "WRITE", 4) ∷ (codes "EXECUTE", 8)
        ∷ (codes "USER", 16) ∷ (codes "GLOBAL", 32) ∷ (codes "ACCESSED", 64) ∷ (codes "DIRTY", 128) ∷ [] };

    ghost set_of = { λ m. m.0 };

    fn flags<'a>() -> &'a [Flag<EntryBits>] {
        EntryBits::FLAGS
    }

    fn bits(&self) -> u16 {
        self.0
    }

    fn from_bits_retain(bits: u16) -> EntryBits {
        EntryBits(bits)
    }
}

/// No translation: the tables give the page no frame for this access.
#[derive(Clone, Copy, PartialEq, Eq, Debug)]
pub struct Fault;

/// A physical address.
pub type Pa = u64;

/// The number by which entries and physical addresses name the first frame of the memory.
pub const BASE: u64 = 0x80000;

/// What the walk does at an entry.
#[derive(Clone, Copy, PartialEq, Eq, Debug)]
pub enum Turn {
    /// It ends with no frame.
    Stop,
    /// It goes on at the table with this frame number.
    Down(u64),
    /// It ends at a leaf, whose first page has this frame number.
    Leaf(u64),
}

/// An entry of a page table, as the manual lays it out.
#[derive(Clone, Copy, PartialEq, Eq, Debug)]
pub struct Pte(pub u64);

impl Pte {
    /// The marks.
    #[inline]
    #[tactic(auto, unfolding(crate::specs::Entry::marks_of))]
    pub fn marks(self) -> EntryBits
        ensures { result.0 ≡ marks_of self.0 }
    {
        EntryBits((self.0 % 1024) as u16)
    }

    /// The frame number, of 44 bits; the memory's first frame has `BASE`.
    #[inline]
    #[tactic(auto, unfolding(crate::specs::Entry::number_of))]
    pub fn number(self) -> u64
        ensures value { result ≡ number_of self.0 }
        ensures small { result < 2 ^ 44 }
    {
        self.0 / 1024 % (1 << 44)
    }

    // Whether the walk may use it: it is valid, not writable without being readable, and bits 54 to
    // 63 are 0. These tests, and the two below, are joined by `&` and not `&&`: each walk makes them, and
    // without branches they become few comparisons of bits.
    #[inline]
    #[tactic(auto, unfolding(crate::specs::Entry::is_sound))]
    fn is_sound(self) -> bool
        ensures { result ≡ is_sound self.0 }
    {
        let marks = self.marks();
        marks.contains(EntryBits::VALID)
            & (self.0 >> 54 == 0)
            & (!marks.contains(EntryBits::WRITE) | marks.contains(EntryBits::READ))
    }

    // Whether it names a table of the next level, where it is sound.
    #[inline]
    #[tactic(auto, unfolding(crate::specs::Entry::is_table))]
    fn is_table(self) -> bool
        ensures { result ≡ is_table self.0 }
    {
        let marks = self.marks();
        !marks.contains(EntryBits::READ)
            & (!marks.contains(EntryBits::WRITE) & !marks.contains(EntryBits::EXECUTE))
    }

    /// What the walk for an access does at this entry of a level whose leaves have `span` pages. A leaf
    /// of several pages has a frame number that is a multiple of their count.
    #[inline(always)]
    pub fn turn(self, span: u64, access: Access) -> Turn
        requires { 0 < span }
        ensures value { result ≡ turn_of self.0 span access }
        ensures small { IsSmall result }
    {
        let number = self.number();
        // tables first: most entries of a walk name one
        if self.is_sound() & self.is_table() {
            return Turn::Down(number);
        }
        if !self.is_sound() {
            return Turn::Stop;
        }
        if allows(self.marks(), access) && number % span == 0 {
            Turn::Leaf(number)
        } else {
            Turn::Stop
        }
    }
}

// Whether the marks of a leaf let a program's access through. The walk sets no mark: a leaf without
// ACCESSED, or for a store without DIRTY, is refused.
#[inline(always)]
#[tactic(auto, unfolding(crate::specs::Entry::allows))]
fn allows(marks: EntryBits, access: Access) -> bool
    ensures { result ≡ allows marks.0 access }
{
    let needed = match access {
        Access::Fetch => marks.contains(EntryBits::EXECUTE),
        Access::Load => marks.contains(EntryBits::READ),
        Access::Store => marks.contains(EntryBits::WRITE) & marks.contains(EntryBits::DIRTY),
    };
    needed & (marks.contains(EntryBits::USER) & marks.contains(EntryBits::ACCESSED))
}

// The frame of the memory that an entry names by a number.
#[inline(always)]
fn frame_of_number(ram: &Ram, number: u64) -> Option<FrameNo>
    requires { number < 2 ^ 63 }
    ensures value { numbered result ≡ frame_at (length ram.now) number }
    ensures inside { IfSome result (λ f. f.0 < length ram.now) }
{
    // where the number is below `BASE`, the difference is larger than any count of frames
    let frame = number.wrapping_sub(BASE);
    if frame < u64::from(ram.frame_count()) {
        Some(FrameNo(frame as u32))
    } else {
        None
    }
}

// What the walk does at the entry for a page at a level whose leaves have `span` pages.
#[inline(always)]
#[tactic(auto, unfolding(crate::specs::Walk::entry_of))]
fn turn_at(ram: &Ram, table: FrameNo, span: u64, page: u64, access: Access) -> Turn
    requires table { table.0 < length ram.now }
    requires span { 0 < span }
    ensures value { result ≡ turn_at ram.now table.0 span page access }
    ensures small { IsSmall result }
{
    let index = page / span % 512;
    let entry = Pte(ram.load_u64(table, 8 * index as usize));
    entry.turn(span, access)
}

// What a walk gives, and how many entries it read.
#[derive(Clone, Copy)]
struct Found {
    frame: Option<FrameNo>,
    count: u32,
}

// The walk from a table of the lowest level, whose leaves have one page.
#[inline(always)]
#[tactic(auto, unfolding(crate::specs::Walk::walk_low))]
fn walk_low(ram: &Ram, table: FrameNo, page: u64, access: Access) -> Option<FrameNo>
    requires { table.0 < length ram.now }
    ensures value { numbered result ≡ walk_low ram.now page access table.0 }
    ensures inside { IfSome result (λ f. f.0 < length ram.now) }
{
    match turn_at(ram, table, 1, page, access) {
        Turn::Leaf(number) => frame_of_number(ram, number + page % 1),
        _ => None,
    }
}

// The walk from a table of the middle level, whose leaves have 512 pages.
#[inline(always)]
#[tactic(auto, unfolding(crate::specs::Walk::walk_mid, crate::specs::Counts::count_mid))]
fn walk_mid(ram: &Ram, table: FrameNo, page: u64, access: Access) -> Found
    requires { table.0 < length ram.now }
    ensures value { numbered result.frame ≡ walk_mid ram.now page access table.0 }
    ensures inside { IfSome result.frame (λ f. f.0 < length ram.now) }
    ensures count { result.count ≡ count_mid ram.now page access table.0 }
    ensures few { result.count ≤ 2 }
{
    match turn_at(ram, table, 512, page, access) {
        Turn::Leaf(number) => Found {
            frame: frame_of_number(ram, number + page % 512),
            count: 1,
        },
        Turn::Down(number) => match frame_of_number(ram, number) {
            Some(next) => Found {
                frame: walk_low(ram, next, page, access),
                count: 2,
            },
            None => Found {
                frame: None,
                count: 1,
            },
        },
        Turn::Stop => Found {
            frame: None,
            count: 1,
        },
    }
}

// The walk from the root's table, whose leaves have 512 * 512 pages.
#[inline(always)]
#[tactic(auto, unfolding(crate::specs::Walk::walk_high, crate::specs::Counts::count_high))]
fn walk_high(ram: &Ram, table: FrameNo, page: u64, access: Access) -> Found
    requires { table.0 < length ram.now }
    ensures value { numbered result.frame ≡ walk_high ram.now page access table.0 }
    ensures inside { IfSome result.frame (λ f. f.0 < length ram.now) }
    ensures count { result.count ≡ count_high ram.now page access table.0 }
    ensures few { result.count ≤ 3 }
{
    match turn_at(ram, table, 262144, page, access) {
        Turn::Leaf(number) => Found {
            frame: frame_of_number(ram, number + page % 262144),
            count: 1,
        },
        Turn::Down(number) => match frame_of_number(ram, number) {
            Some(next) => {
                let below = walk_mid(ram, next, page, access);
                Found {
                    frame: below.frame,
                    count: 1 + below.count,
                }
            }
            None => Found {
                frame: None,
                count: 1,
            },
        },
        Turn::Stop => Found {
            frame: None,
            count: 1,
        },
    }
}

// The walk where the page has a number whose addresses are canonical.
#[inline(always)]
#[tactic(auto, unfolding(crate::specs::Walk::walk_of, crate::specs::Counts::count_levels))]
fn walk_levels(ram: &Ram, root: FrameNo, page: u64, access: Access) -> Found
    ensures value { numbered result.frame ≡ walk_of ram.now root.0 page access }
    ensures inside { IfSome result.frame (λ f. f.0 < length ram.now) }
    ensures count { result.count ≡ count_levels ram.now root.0 page access }
    ensures few { result.count ≤ 3 }
{
    let canonical = page < 1 << 26 || (page >= (1 << 52) - (1 << 26) && page < 1 << 52);
    if canonical && root.0 < ram.frame_count() {
        walk_high(ram, root, page, access)
    } else {
        Found {
            frame: None,
            count: 0,
        }
    }
}

// The frame that the tables from a root give to a page for an access, if they give one, and the number
// of the entries that were read.
#[inline(always)]
fn walked(ram: &Ram, root: FrameNo, page: u64, access: Access) -> Found
    ensures is { numbered result.frame ≡ (walk_page ram.now root.0 page access).frame }
    ensures inside { IfSome result.frame (λ f. f.0 < length ram.now) }
    ensures count { result.count ≡ (walk_page ram.now root.0 page access).count }
    ensures few { result.count ≤ 3 }
{
    walk_levels(ram, root, page, access)
}

/// The frame that the tables from a root give to a page for an access, if they give one.
///
/// At most three entries are read. The page's number is one of 52 bits, whose highest 27 are equal.
#[inline(always)]
pub fn walk_page(ram: &Ram, root: FrameNo, page: u64, access: Access) -> Option<FrameNo>
    ensures is { numbered result ≡ (walk_page ram.now root.0 page access).frame }
    ensures inside { IfSome result (λ f. f.0 < length ram.now) }
{
    walked(ram, root, page, access).frame
}

// The physical address of a virtual address whose page has this frame.
#[inline]
fn address(frame: FrameNo, va: u64) -> Pa
    ensures { result ≡ place_in va frame.0 }
{
    (BASE + u64::from(frame.0)) * 4096 + va % 4096
}

/// The physical address of a virtual address, by the tables from a root.
#[inline(always)]
pub fn walk(ram: &Ram, root: FrameNo, va: u64, access: Access) -> Result<Pa, Fault>
    ensures is { result_ok result ≡ walk ram.now root.0 va access }
    ensures inside { IfOk result (LiesInside ram.now) }
{
    match walk_page(ram, root, va / 4096, access) {
        Some(frame) => Ok(address(frame, va)),
        None => Err(Fault),
    }
}

/// The same as `walk`, and how many entries of tables were read: at most three.
#[inline(always)]
pub fn walk_counted(ram: &Ram, root: FrameNo, va: u64, access: Access) -> (Result<Pa, Fault>, u32)
    ensures is { result_ok result.0 ≡ walk ram.now root.0 va access }
    ensures inside { IfOk result.0 (LiesInside ram.now) }
    ensures count { result.1 ≡ walk_count ram.now root.0 va access }
    ensures few { result.1 ≤ 3 }
{
    let walked = walked(ram, root, va / 4096, access);
    match walked.frame {
        Some(frame) => (Ok(address(frame, va)), walked.count),
        None => (Err(Fault), walked.count),
    }
}

/// Translates addresses, and may hold translations until it is fenced, as the manual allows.
pub trait Translate: Drop {
    ghost held: { Self → Translation → Type 0 };

    /// The physical address of a virtual address, by the tables from a root or by a translation that
    /// is held.
    fn translate(&mut self, ram: &Ram, root: FrameNo, va: u64, access: Access) -> Result<Pa, Fault>
        requires { HoldsInside (held self.old) ram.now }
        ensures answer { IsAnswer (held self.old) ram.now root.0 va access (result_ok result) }
        ensures inside { IfOk result (LiesInside ram.now) }
        ensures kept { IsKept (held self.old) (held self.new) ram.now root.0 };

    /// Gives up every translation.
    fn fence(&mut self)
        ensures { HoldsNothing (held self.new) };
}

/// Holds nothing, and walks each time. In contracts it is the number of the entries that it read.
#[derive(Drop)]
pub struct Plain {
    reads: u64,
}

impl Model for Plain {
    ghost use Rattle.std.specs.Prelude.{ℕ};

    ghost Value = { ℕ };

    ghost view = { λ p. p.reads };
}

impl Plain {
    /// A translator.
    pub fn new() -> Plain
        ensures { result ≡ 0 }
    {
        Plain { reads: 0 }
    }

    /// How many entries of tables it has read, modulo 2^64.
    pub fn reads(&self) -> u64
        ensures { result ≡ self.now }
    {
        self.reads
    }
}

impl Translate for Plain {
    ghost held = { λ _ _. ⊥ };

    #[inline(always)]
    fn translate(&mut self, ram: &Ram, root: FrameNo, va: u64, access: Access) -> Result<Pa, Fault>
        ensures answer { result_ok result ≡ walk ram.now root.0 va access }
        ensures inside { IfOk result (LiesInside ram.now) }
        ensures reads { self.new ≡ (self.old + walk_count ram.now root.0 va access) % 2 ^ 64 }
    {
        let (answer, count) = walk_counted(ram, root, va, access);
        self.reads = self.reads.wrapping_add(u64::from(count));
        answer
    }

    fn fence(&mut self)
        ensures { self.new ≡ self.old }
    {}
}
