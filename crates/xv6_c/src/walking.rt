//! The walk of an address through the page table of a process.
ghost use Rattle.unixmodel.specs.Shown.{shown_process};
ghost use Rattle.xv6_c.specs.Walked.{ShowsWalk};

use session::Session;
use walks::{WalkTold, entries};

/// The entries that a walk of an address reads; `None` where there is no such process.
pub fn walk(session: &Session, pid: u32, address: u64) -> Option<WalkTold>
    ensures { ShowsWalk (shown_process session.now.machine.state pid) address result }
{
    let Some((ram, root)) = session.machine().tables(pid) else {
        return None;
    };
    Some(entries(ram, root, address / 4096))
}
