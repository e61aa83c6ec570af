//! What the kernel reads and writes of a program's memory: any bytes that the program itself could.

ghost use Rattle.std.specs.Bool.{OnFalse, OnTrue};
ghost use Rattle.std.specs.Prelude.{◌≡◌, ◌≢◌, ℕ, ◌+◌, ◌-◌, ◌*◌, ◌/◌, ◌%◌, ◌^◌, ◌<◌, ◌≤◌, List, [], ◌∷◌, ◌++◌, length};
ghost use Rattle.std.specs.Prelude.{min, drop, nat_le, option_map, slice_get, None, Some, false, true, OnOk, OnErr};
ghost use Rattle.std.specs.Prelude.{IfNone, IfSome, IsTrue, IsErrOf, slice_set, ◌↔◌, ◌⊎◌};
ghost use Rattle.ram.specs.Memory.{frame_of, put};
ghost use Rattle.sv39.specs.Mapping.{AreApart, AreInside, WalksTo};
ghost use Rattle.unixmodel.specs.declared.trap.Access.TheVariants.{Load, Store};
ghost use Rattle.unixmodel.specs.Memory.{permits, reach, can_write, read_bytes, string_at};
ghost use Rattle.vm.specs.Dense.{marks_at};
ghost use Rattle.vm.specs.Leaf.{rights_from, is_open, mapped_as, right_marks};
ghost use Rattle.vm.specs.Reach.{run_of, piece_at, short_string, string_in};
ghost use Rattle.vm.specs.Owned.{IsSpace, Reframes};
ghost use Rattle.vm.specs.Space.{pages_in, max_size, IsMapped, IsOnce, Stands, entries_of, mapping_of};
ghost use Rattle.vm.specs.Space.{page_frame, pages_of, StaysOpen, stored};

use crate::{Marks, Perm, RIGHT, SHARED, Space, VmFault, pages_in};
use bitflags::Flags;
use frames::Memory;
use pagetable::PageTable;
use ram::{FrameNo, Ram};
use sv39::EntryBits;
use unixmodel::trap::Access;

// The marks of the page of a leaf.
pub(crate) fn marks_of(leaf: EntryBits) -> Marks
    ensures { rights_from result ≡ right_marks leaf.0 }
{
    Marks {
        perm: Perm {
            w: leaf.contains(RIGHT),
            x: leaf.contains(EntryBits::EXECUTE),
            u: leaf.contains(EntryBits::USER),
        },
        shared: leaf.contains(SHARED),
    }
}

impl Marks {
    /// Whether a program may make this access to a page with these marks.
    pub fn permits(self, access: Access) -> bool
        ensures { result ≡ permits access (rights_from self) }
    {
        match access {
            Access::Fetch => self.perm.x && self.perm.u,
            Access::Load => self.perm.u,
            Access::Store => self.perm.w && self.perm.u,
        }
    }
}

// Writes bytes at an offset of a frame.
fn write_part(ram: &mut Ram, frame: FrameNo, at: usize, bytes: &[u8])
    requires frame { frame.0 < length ram.old }
    requires place { at + length bytes.now ≤ 4096 }
    ensures { ram.new ≡ put ram.old frame.0 at bytes.now }
{
    ram.frames_are_whole();
    let page = ram.frame_mut(frame);
    page[at..at + bytes.len()].copy_from_slice(bytes);
}

impl Space {
    /// The frame of the root of its tables.
    pub fn root(&self) -> FrameNo
        ensures { result ≡ self.now.root }
    {
        self.root
    }

    /// A law: the walk from the root follows the entries: it gives a page's frame for each access that the page's marks
    /// permit, and nothing elsewhere, not even at the trap frame. A store goes through at open pages alone.
    pub fn walks(&self, ram: &Ram)
        requires { IsMapped ram.now self.now }
        ensures entries { WalksTo ram.now self.now.root.0 (entries_of ram.now self.now) }
        ensures root { self.now.root.0 < length ram.now }
        ensures inside { AreInside ram.now (entries_of ram.now self.now) }
        ensures apart { IsOnce ram.now self.now → AreApart (mapping_of ram.now self.now) }
    {
        ram.frames_are_whole();
    }

    /// The frame and the marks of a page; `None` past the last page.
    #[inline(always)]
    pub fn find_page(&self, ram: &Ram, page: u64) -> Option<(FrameNo, Marks)>
        requires { IsMapped ram.now self.now }
        ensures found { option_map (λ x. mapped_as x.0.0 x.1) result ≡ slice_get (mapping_of ram.now self.now) page }
        ensures inside { IfSome result (λ x. x.0.0 < length ram.now) }
    {
        if page >= pages_in(self.size) {
            return None;
        }
        let table = PageTable { root: self.root };
        let (frame, leaf) = table.find(ram, page)?;
        Some((frame, marks_of(leaf)))
    }

    /// The bytes from an address to the end of its page; none where a program may not read them.
    pub fn readable<'a>(&self, ram: &'a Ram, address: u64) -> &'a [u8]
        requires { IsMapped ram.now self.now }
        ensures { result.now ≡ piece_at Load (pages_of ram.now self.now) address }
    {
        match self.find_page(ram, address / 4096) {
            Some((frame, marks)) if marks.permits(Access::Load) => {
                &ram.frame(frame)[(address % 4096) as usize..]
            }
            _ => &[],
        }
    }

    // Whether there is a page that permits an access.
    #[inline(always)]
    fn allows(&self, ram: &Ram, page: u64, access: Access) -> bool
        requires { IsMapped ram.now self.now }
        ensures { result ≡ nat_le 1 (run_of access (pages_of ram.now self.now) page) }
    {
        match self.find_page(ram, page) {
            Some((_, marks)) => marks.permits(access),
            None => false,
        }
    }

    // How many pages from `first` on permit an access, up to the first that doesn't; at most `most`.
    fn run(&self, ram: &Ram, first: u64, most: u64, access: Access) -> u64
        requires mapped { IsMapped ram.now self.now }
        requires first { first < 2 ^ 52 }
        requires most { most < 2 ^ 52 }
        ensures { result ≡ min most (run_of access (pages_of ram.now self.now) first) }
    {
        for i in 0..most {
            match self.find_page(ram, first + i) {
                Some((_, marks)) if marks.permits(access) => {}
                _ => return i,
            }
        }
        most
    }

    // Whether `len` bytes from an address on can be accessed.
    #[inline(always)]
    fn reaches(&self, ram: &Ram, address: u64, len: u64, access: Access) -> bool
        requires { IsMapped ram.now self.now }
        ensures { result ≡ nat_le len (length (reach access (pages_of ram.now self.now) address)) }
    {
        ram.frames_are_whole();
        if len == 0 {
            return true;
        }
        if len > crate::MAX_SIZE {
            return false;
        }
        let end = address % 4096 + len;
        if end <= 4096 {
            return self.allows(ram, address / 4096, access);
        }
        self.reaches_pages(ram, address, len, access)
    }

    // The same page by page. It is out of line, so that the path of few bytes is short.
    #[inline(never)]
    fn reaches_pages(&self, ram: &Ram, address: u64, len: u64, access: Access) -> bool
        requires mapped { IsMapped ram.now self.now }
        requires some { 0 < len }
        requires most { len ≤ max_size }
        ensures { result ≡ nat_le len (length (reach access (pages_of ram.now self.now) address)) }
    {
        ram.frames_are_whole();
        let end = address % 4096 + len;
        let run = self.run(ram, address / 4096, end.div_ceil(4096), access);
        end <= 4096 * run
    }

    /// Whether a program may read `len` bytes from an address on. It looks at each page once.
    #[inline(always)]
    pub fn can_read(&self, ram: &Ram, address: u64, len: u64) -> bool
        requires { IsMapped ram.now self.now }
        ensures reach { result ≡ nat_le len (length (reach Load (pages_of ram.now self.now) address)) }
        ensures read { IsTrue result ↔ read_bytes (pages_of ram.now self.now) address len ≢ None }
    {
        self.reaches(ram, address, len, Access::Load)
    }

    /// Whether a program may write `len` bytes from an address on. It looks at each page once.
    #[inline(always)]
    pub fn can_write(&self, ram: &Ram, address: u64, len: u64) -> bool
        requires { IsMapped ram.now self.now }
        ensures { result ≡ can_write (pages_of ram.now self.now) address len }
    {
        self.reaches(ram, address, len, Access::Store)
    }

    /// Copies the bytes from an address on into a buffer, as many as it holds. `BadAddress` where a
    /// program may not read them all.
    pub fn copy_in(&self, ram: &Ram, address: u64, buffer: &mut [u8]) -> Result<(), VmFault>
        requires { IsMapped ram.now self.now }
        ensures read { OnOk result
            (read_bytes (pages_of ram.now self.now) address (length buffer.old) ≡ Some buffer.new) }
        ensures bad { IsErrOf result VmFault.BadAddress ↔ read_bytes (pages_of ram.now self.now) address
            (length buffer.old) ≡ None }
        ensures only { OnErr result (IsErrOf result VmFault.BadAddress) }
        ensures unchanged { OnErr result (buffer.new ≡ buffer.old) }
    {
        ram.frames_are_whole();
        if !self.can_read(ram, address, buffer.len() as u64) {
            return Err(VmFault::BadAddress);
        }
        let mut done = 0;
        while done < buffer.len() {
            let piece = self.readable(ram, address + done as u64);
            let len = piece.len().min(buffer.len() - done);
            buffer[done..done + len].copy_from_slice(&piece[..len]);
            done += len;
        }
        Ok(())
    }

    // The byte at an address, where a program may read it.
    fn byte_at(&self, ram: &Ram, address: u64) -> Option<u8>
        requires { IsMapped ram.now self.now }
        ensures { result ≡ slice_get (piece_at Load (pages_of ram.now self.now) address) 0 }
    {
        self.readable(ram, address).first().copied()
    }

    /// Copies the string at an address into a buffer, and returns its length: the bytes before the first
    /// 0, without it. `None` where a program may not read them and the 0, or the buffer is too short.
    pub fn copy_string(&self, ram: &Ram, address: u64, buffer: &mut [u8]) -> Option<usize>
        requires { IsMapped ram.now self.now }
        ensures string { string_in buffer.new result
            ≡ short_string (length buffer.old) (string_at (pages_of ram.now self.now) address) }
        ensures within { IfSome result (λ n. n ≤ length buffer.old) }
    {
        ram.frames_are_whole();
        for i in 0..buffer.len() {
            match self.byte_at(ram, address + i as u64) {
                Some(0) => return Some(i),
                Some(byte) => buffer[i] = byte,
                None => return None,
            }
        }
        match self.byte_at(ram, address + buffer.len() as u64) {
            Some(0) => Some(buffer.len()),
            _ => None,
        }
    }

    // The frame of a page where a store goes through.
    fn open_frame(&self, ram: &Ram, page: u64) -> Option<FrameNo>
        requires { IsMapped ram.now self.now }
        ensures page { IfSome result (λ _. page < pages_in self.now.size) }
        ensures frame { IfSome result (λ frame. page_frame ram.now self.now page ≡ frame.0) }
        ensures open { IfSome result (λ _. is_open (marks_at ram.now self.now.root.0 page) ≡ true) }
    {
        if page >= pages_in(self.size) {
            return None;
        }
        let table = PageTable { root: self.root };
        let Some((frame, leaf)) = table.find(ram, page) else {
            return None;
        };
        if leaf.contains(EntryBits::WRITE) {
            Some(frame)
        } else {
            None
        }
    }

    /// Writes bytes into a page where a store goes through, and returns the frame that it has: no page gets another
    /// frame. `None`: there are none, they don't all lie in one page, or it isn't such a page; nothing is written then.
    pub fn store(&self, ram: &mut Ram, address: u64, bytes: &[u8]) -> Option<FrameNo>
        requires mapped { IsMapped ram.old self.now }
        requires once { IsOnce ram.old self.now }
        ensures written { IfSome result (λ f. pages_of ram.new self.now ≡ stored ram.old self.now address bytes.now) }
        ensures stands { IfSome result (λ f. Stands ram.old ram.new self.now) }
        ensures alone { IfSome result (λ f. ram.new ≡ slice_set ram.old f.0 (frame_of ram.new f.0)) }
        ensures refused { IfNone result (ram.new ≡ ram.old) }
    {
        let at = (address % 4096) as usize;
        let len = bytes.len();
        if len == 0 || len > 4096 - at {
            return None;
        }
        let frame = self.open_frame(ram, address / 4096)?;
        write_part(ram, frame, at, bytes);
        Some(frame)
    }

    // Writes the bytes that lie in the page of an address, and returns how many.
    fn write_page(&self, memory: &mut Memory, address: u64, bytes: &[u8]) -> usize
        requires space { IsSpace memory.old self.now }
        requires page { address / 4096 < pages_in self.now.size }
        requires some { 0 < length bytes.now }
        ensures count { result ≡ min (4096 - address % 4096) (length bytes.now) }
        ensures rest { stored memory.new.ram self.now (address + result) (drop result bytes.now)
            ≡ stored memory.old.ram self.now address bytes.now }
        ensures frames { Reframes memory.old memory.new self.now }
        ensures opens { StaysOpen memory.old.ram memory.new.ram self.now self.now }
    {
        let at = (address % 4096) as usize;
        let len = (4096 - at).min(bytes.len());
        let frame = self.open_page(memory, address / 4096);
        write_part(&mut memory.ram, frame, at, &bytes[..len]);
        len
    }

    /// Writes bytes into the pages from an address on, whatever the marks of the pages, as a loader does.
    ///
    /// A page whose frame others hold too gets a frame of its own first.
    pub fn fill(&self, memory: &mut Memory, address: u64, bytes: &[u8])
        requires space { IsSpace memory.old self.now }
        requires inside { (i : ℕ) → i < length bytes.now → (address + i) / 4096 < pages_in self.now.size }
        ensures written { pages_of memory.new.ram self.now ≡ stored memory.old.ram self.now address bytes.now }
        ensures frames { Reframes memory.old memory.new self.now }
        ensures opens { StaysOpen memory.old.ram memory.new.ram self.now self.now }
    {
        let mut done = 0;
        while done < bytes.len() {
            done += self.write_page(memory, address + done as u64, &bytes[done..]);
        }
    }

    /// Copies bytes to an address. `BadAddress` where a program may not write them all.
    ///
    /// A page whose frame others hold too gets a frame of its own first.
    pub fn copy_out(&self, memory: &mut Memory, address: u64, bytes: &[u8]) -> Result<(), VmFault>
        requires { IsSpace memory.old self.now }
        ensures written { OnOk result
            (pages_of memory.new.ram self.now ≡ stored memory.old.ram self.now address bytes.now) }
        ensures bad { IsErrOf result VmFault.BadAddress ↔ can_write (pages_of memory.old.ram self.now) address
            (length bytes.now) ≡ false }
        ensures only { OnErr result (IsErrOf result VmFault.BadAddress) }
        ensures unchanged { OnErr result (memory.new ≡ memory.old) }
        ensures frames { Reframes memory.old memory.new self.now }
        ensures opens { StaysOpen memory.old.ram memory.new.ram self.now self.now }
    {
        memory.ram.frames_are_whole();
        if !self.can_write(&memory.ram, address, bytes.len() as u64) {
            return Err(VmFault::BadAddress);
        }
        self.fill(memory, address, bytes);
        Ok(())
    }
}
