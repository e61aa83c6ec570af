//! What a session shows of its machine.
ghost use Rattle.std.specs.Prelude.{◌≡◌, ◌++◌, length, min};
ghost use Rattle.session.specs.Copied.{ShowsPage, copied};
ghost use Rattle.session.specs.Held.{ShowsDescriptor, ShowsPipe, directory_of, next_fault, wait_of};
ghost use Rattle.session.specs.Told.{process_of};
ghost use Rattle.unixmodel.specs.Files.{slot};
ghost use Rattle.unixmodel.specs.Shown.{shown_page};

use crate::held::{FaultTold, OpenedTold, WaitTold, cause, file_of, open_numbers, wait};
use crate::session::Session;
use crate::told::{ProcessTold, told};
use blockdev::MemDisk;
use machine::{Machine, Perm};
use next_fault::fault_of;
use sv39::Tlb;

/// Copies the front of some bytes, as many as there is room for, and returns how many.
pub fn copy_front(bytes: &[u8], out: &mut [u8]) -> usize
    ensures count { result ≡ min (length bytes.now) (length out.old) }
    ensures bytes { out.new ≡ copied bytes.now out.old }
{
    let count = bytes.len().min(out.len());
    out[..count].copy_from_slice(&bytes[..count]);
    count
}

// Copies the front of some bytes and of others that come after them, as many as there is room for.
fn copy_both(first: &[u8], second: &[u8], out: &mut [u8])
    ensures { out.new ≡ copied (first.now ++ second.now) out.old }
{
    let count = copy_front(first, out);
    let _rest = copy_front(second, &mut out[count..]);
}

impl Session {
    /// The machine, from which pids, descriptors, open files, pipes, free frames, and whether it is idle are read.
    pub fn machine(&self) -> &Machine<MemDisk, Tlb<64>>
        ensures { result.now ≡ self.now.machine }
    {
        &self.machine
    }

    /// The process with a pid; `None` where there is none.
    pub fn process(&self, pid: u32) -> Option<ProcessTold>
        ensures { result ≡ process_of self.now.machine.state pid }
    {
        let seen = self.machine.inspect(pid)?;
        Some(told(&seen))
    }

    /// Copies the bytes of a page of a process, as many as there is room for, and returns its marks. `None`, and
    /// nothing is copied, past its last page, and where there is no such process.
    pub fn page(&self, pid: u32, page: u64, out: &mut [u8]) -> Option<Perm>
        ensures { ShowsPage (shown_page self.now.machine.state pid page) out.old out.new result }
    {
        let (bytes, marks) = self.machine.peek(pid, page)?;
        copy_front(bytes, out);
        Some(marks)
    }
    /// The open file that a descriptor of a process names; `None` where it names none, and where there is no such
    /// process.
    pub fn descriptor(&self, pid: u32, descriptor: usize) -> Option<OpenedTold>
        ensures { ShowsDescriptor self.now.machine pid descriptor result }
    {
        let holdings = self.machine.holdings(pid)?;
        let file = file_of(&holdings, descriptor)?;
        let found = self.machine.opened(usize::from(file))?;
        Some(open_numbers(file, found))
    }

    /// Copies the bytes of a pipe, the oldest first and as many as there is room for, and returns how many it has.
    /// `None`, and nothing is copied, where there is no such pipe.
    pub fn pipe(&self, number: usize, out: &mut [u8]) -> Option<usize>
        ensures { ShowsPipe (slot self.now.machine.state.pipes number) out.old out.new result }
    {
        let (oldest, newest) = self.machine.pipe(number)?;
        copy_both(oldest, newest, out);
        Some(oldest.len() + newest.len())
    }

    /// The call that a process waits in; `None` where it waits in none, and where there is no such process.
    pub fn wait(&self, pid: u32) -> Option<WaitTold>
        ensures { result ≡ wait_of self.now.machine.state pid }
    {
        let pending = self.machine.holdings(pid)?.pending?;
        Some(wait(pending))
    }

    /// The number of the working directory of a process, 0 once it has ended; `None` where there is no such process.
    pub fn directory(&self, pid: u32) -> Option<u32>
        ensures { result ≡ directory_of self.now.machine.state pid }
    {
        Some(self.machine.holdings(pid)?.directory)
    }

    /// The fault that the next instruction of a process would raise if it were done now; `None` where it would raise
    /// none, and where there is no such process.
    pub fn fault(&self, pid: u32) -> Option<FaultTold>
        ensures { result ≡ next_fault self.now.machine.state pid }
    {
        let fault = fault_of(&self.machine, pid)?;
        Some(FaultTold {
            address: fault.trap.address,
            pc: fault.pc,
            cause: cause(fault.trap.cause),
        })
    }
}
