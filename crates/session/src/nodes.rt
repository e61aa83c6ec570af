//! What a session shows of the files of its disk.
ghost use Rattle.std.specs.Prelude.{◌≡◌, IsErrOf, option_map};
ghost use Rattle.calls.specs.declared.halt.Halt.TheVariants.{Halted};
ghost use Rattle.digests.specs.Digest.{digest_of};
ghost use Rattle.machine.specs.Looks.{ReadsAt, stat_seen};
ghost use Rattle.session.specs.Played.{Looks, console_of};
ghost use Rattle.unixmodel.specs.Shown.{shown_stat};

use crate::session::Session;
use machine::{Halt, Stat};

impl Session {
    /// The type, size and links of the node of the disk with this number; `None` where there is none.
    pub fn stat(&mut self, number: usize) -> Result<Option<Stat>, Halt>
        ensures { Looks self.old self.new
            (λ stat. stat ≡ option_map stat_seen (shown_stat self.old.machine.state number)) result }
    {
        let told = self.machine.stat_inode(number);
        self.never_fails();
        told
    }

    /// Reads bytes of the node of the disk with this number into `out`, from offset `at` on, and returns how many: none
    /// past its end, none of a device, and none where there is no such node.
    pub fn read(&mut self, number: usize, at: usize, out: &mut [u8]) -> Result<usize, Halt>
        ensures gives { Looks self.old self.new (ReadsAt self.old.machine.state number at out.old out.new) result }
        ensures kept { IsErrOf result Halted → out.new ≡ out.old }
    {
        let count = self.machine.read_inode(number, at, out);
        self.never_fails();
        count
    }
    /// The digest of the whole state: machines in the same state have the same one, and others have another one, except
    /// by chance, one in 2^64.
    pub fn digest(&mut self) -> Result<u64, Halt>
        ensures { Looks self.old self.new (λ digest. digest ≡ digest_of self.old.machine.state) result }
    {
        let digest = self.machine.digest();
        self.never_fails();
        digest
    }
}
