//! What a machine reports of what its processes hold: their descriptors, the open files and the pipes; and a number
//! that stands for all of its state.
ghost use Rattle.std.specs.Prelude.{◌≡◌, ◌++◌, IfSome, false, is_some, option_map};
ghost use Rattle.digests.specs.Digest.{digest_but_numbers, digest_of};
ghost use Rattle.kernel.specs.Shows.{descriptors_on};
ghost use Rattle.machine.specs.Holdings.{IsOfKind, file_told, holdings_of};
ghost use Rattle.machine.specs.Looks.{LookGives};
ghost use Rattle.proc.specs.Next.{IsNextOf};
ghost use Rattle.schedules.specs.Alike.{timeless};
ghost use Rattle.unixmodel.specs.Files.{slot};
ghost use Rattle.unixmodel.specs.Shown.{shown_process};

use crate::digest::{digest_kernel, digest_timeless};
use crate::holdings::{Holdings, Opened, described, held};
use crate::machine::Machine;
use blockdev::BlockDev;
use calls::Halt;
use sv39::Translate;

impl<D: BlockDev, T: Translate> Machine<D, T> {
    /// The least pid above another, among those that `inspect` knows; `None` where there is none. From 0 on these
    /// are all processes, in the order of their pids.
    pub fn next_pid(&self, after: u32) -> Option<u32>
        ensures { IsNextOf (λ pid. is_some (shown_process self.now.state pid)) after result }
    {
        self.kernel.next_pid(after)
    }

    /// The pid that the next fork gives, if it gives one.
    pub fn coming_pid(&self) -> u32
        ensures { result ≡ self.now.state.next_pid }
    {
        self.kernel.table().coming_pid()
    }

    /// How many timer ticks the machine has had since it started, modulo 2^32: what `uptime` returns.
    pub fn ticks(&self) -> u32
        ensures { result ≡ self.now.state.ticks }
    {
        self.kernel.ticks()
    }

    /// What the process with a pid holds; `None` where there is none.
    pub fn holdings(&self, pid: u32) -> Option<Holdings>
        ensures { result ≡ option_map holdings_of (shown_process self.now.state pid) }
    {
        let shown = self.kernel.shown(pid)?;
        Some(held(&shown.process))
    }

    /// The open file with a number, which descriptors name; `None` where there is none. Once the machine has failed a
    /// node may be reported as one of another kind.
    pub fn opened(&self, file: usize) -> Option<Opened>
        ensures file { option_map file_told result ≡ slot self.now.state.opens file }
        ensures count { IfSome result (λ o. o.descriptors ≡ descriptors_on self.now.state file) }
        ensures kind { self.now.failed ≡ false → IfSome result (λ o. IsOfKind self.now.state.files o.on) }
    {
        let (file, descriptors) = self.kernel.opened(file)?;
        Some(described(file, descriptors))
    }

    /// The bytes of the pipe with a number, the oldest first: those of the second slice follow those of the
    /// first. `None` where there is no such pipe.
    pub fn pipe(&self, number: usize) -> Option<(&[u8], &[u8])>
        ensures { option_map (λ r. r.0.now ++ r.1.now) result ≡ slot self.now.state.pipes number }
    {
        self.kernel.pipe(number)
    }

    /// A number that is made of the whole state and of nothing else: machines of equal states have equal digests,
    /// whatever their translators hold and wherever their pages and blocks lie. Other states have another digest,
    /// except by chance, of one in 2^64 where nobody looks for such states; minor numbers of devices, whether a fork
    /// had a page, and how many frames and blocks there are, don't go in. `Device`: an access of the device failed, as
    /// at a step.
    pub fn digest(&mut self) -> Result<u64, Halt>
        ensures { LookGives self.old self.new (λ digest. digest ≡ digest_of self.old.state) result }
    {
        if self.failed {
            return Err(Halt::Halted);
        }
        let digest = digest_kernel(&mut self.kernel);
        self.failed = digest.is_err();
        Ok(digest?)
    }

    /// The same without the count of ticks and the numbers of open files and pipes: machines whose states are alike,
    /// equal except that these differ and each sleeping process has slept as long, have equal ones. Which descriptors
    /// share an open file, and which open files a pipe, doesn't go in.
    pub fn digest_but_ticks(&mut self) -> Result<u64, Halt>
        ensures { LookGives self.old self.new (λ digest. digest ≡ digest_but_numbers (timeless self.old.state)) result }
    {
        if self.failed {
            return Err(Halt::Halted);
        }
        let timeless = digest_timeless(&mut self.kernel);
        self.failed = timeless.is_err();
        Ok(timeless?)
    }
}
