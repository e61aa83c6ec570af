//! What a kernel shows of its processes, open files and pipes.
ghost use Rattle.std.specs.Prelude.{◌≡◌, ◌+◌, ◌++◌, IfSome, false, is_some, option_map};
ghost use Rattle.files.specs.Meant.{file_of};
ghost use Rattle.kernel.specs.Holding.{FitsFiles};
ghost use Rattle.kernel.specs.Kernel.{state_of};
ghost use Rattle.kernel.specs.Shows.{descriptors_on, shown_as};
ghost use Rattle.proc.specs.Next.{IsNextOf};
ghost use Rattle.unixmodel.specs.Counts.{frames_of};
ghost use Rattle.unixmodel.specs.Files.{slot};
ghost use Rattle.unixmodel.specs.Shown.{ShowsMemory, shown_page, shown_process};
ghost use Rattle.vm.specs.Leaf.{page_from};

use crate::kernel::Kernel;
use blockdev::BlockDev;
use files::OpenFile;
use proc::Process;
use ram::{FRAME_SIZE, FrameNo, Ram};
use sv39::Translate;
use vm::Perm;

/// What is shown of a process: all but its pages.
#[derive(Clone, Copy)]
pub struct ShownProcess {
    /// All except its memory.
    pub process: Process,
    /// The size of its memory in bytes.
    pub size: u64,
}

impl<D: BlockDev, T: Translate> Kernel<D, T> {
    /// The least pid above another, among those of all processes, also of zombies.
    pub fn next_pid(&self, after: u32) -> Option<u32>
        ensures { IsNextOf (λ pid. is_some (shown_process (state_of self.now) pid)) after result }
    {
        self.table.next_pid(after)
    }

    /// The process with a pid, without its pages; `None` where there is none.
    pub fn shown(&self, pid: u32) -> Option<ShownProcess>
        ensures { result ≡ option_map shown_as (shown_process (state_of self.now) pid) }
    {
        let at = self.table.find(pid)?;
        let process = self.whole(at)?;
        let size = self.spaces.size(at);
        Some(ShownProcess { process, size })
    }

    /// The bytes and the marks of a page of the process with a pid; `None` past its last page, and where there is no
    /// such process.
    pub fn page(&self, pid: u32, n: u64) -> Option<(&[u8; FRAME_SIZE], Perm)>
        ensures { option_map page_from result ≡ shown_page (state_of self.now) pid n }
    {
        let at = self.table.find(pid)?;
        self.spaces.page(at, n)
    }

    /// The memory, and the frame of the root of the page table of the process with a pid; `None` where there is none.
    pub fn tables(&self, pid: u32) -> Option<(&Ram, FrameNo)>
        ensures some { is_some result ≡ is_some (shown_process (state_of self.now) pid) }
        ensures shows { IfSome result
            (λ r. IfSome (shown_process (state_of self.now) pid) (λ p. ShowsMemory r.0.now r.1.0 p.memory)) }
    {
        let at = self.table.find(pid)?;
        Some(self.spaces.tables(at))
    }

    /// How many frames are free.
    pub fn free_frames(&self) -> u32
        ensures { result + frames_of (state_of self.now) ≡ (state_of self.now).frame_limit }
    {
        self.spaces.free()
    }

    /// An open file, and how many descriptors of all processes name it; `None` where there is none with this number.
    pub fn opened(&self, id: usize) -> Option<(OpenFile, u32)>
        ensures file { option_map (λ r. file_of r.0) result ≡ slot (state_of self.now).opens id }
        ensures count { IfSome result (λ r. r.1 ≡ descriptors_on (state_of self.now) id) }
        // until an access of the device has failed it fits the node that it is on
        ensures fits { self.now.tree.failed ≡ false → IfSome result (λ r. FitsFiles self.now.tree.files r.0) }
    {
        let file = self.files.file(id)?;
        Some((file, self.files.references(id)))
    }

    /// The bytes of a pipe, the oldest first: those of the second slice follow those of the first. `None` where
    /// there is no such pipe.
    pub fn pipe(&self, number: usize) -> Option<(&[u8], &[u8])>
        ensures { option_map (λ r. r.0.now ++ r.1.now) result ≡ slot (state_of self.now).pipes number }
    {
        self.spaces.pipe(number)
    }
}
