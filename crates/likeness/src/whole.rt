//! Whether the states of two kernels are alike.
ghost use Rattle.std.specs.Prelude.{◌≡◌, false};
ghost use Rattle.std.specs.Bool.{OnTrue};
ghost use Rattle.kernel.specs.Kernel.{state_of};
ghost use Rattle.likeness.specs.Likeness.{AreSameButFiles, Compares};
ghost use Rattle.likeness.specs.Pairing.{HavePairs};
ghost use Rattle.renumbering.specs.Alike.{AlikeUpToNumbers};

use crate::nodes::{Side, has_same_files};
use crate::opened::{fit_opens, fit_pipes, has_same_typed};
use crate::pairs::Pairs;
use crate::processes::fit_places;
use blockdev::BlockDev;
use kernel::Kernel;
use proc::Table;
use renumbering::fitting_states_are_renumbered;
use sv39::Translate;

// Whether two tables give the same pid next, and picked the same slot last.
fn has_same_counts(one: &Table, other: &Table) -> bool
    ensures next { OnTrue result (one.now.next_pid ≡ other.now.next_pid) }
    ensures last { OnTrue result (one.now.last ≡ other.now.last) }
{
    one.coming_pid() == other.coming_pid() && one.last() == other.last()
}

// Whether process 1 has ended with the same status.
fn is_same_status(one: Option<i32>, other: Option<i32>) -> bool
    ensures { OnTrue result (one ≡ other) }
{
    one == other
}

// Whether two kernels have the same processes, open files and pipes, up to numbers that are put in pairs.
fn have_pairs<D: BlockDev, T: Translate, E: BlockDev, U: Translate>(
    one: &Kernel<D, T>,
    other: &Kernel<E, U>,
) -> bool
    ensures { OnTrue result (HavePairs (state_of one.now) (state_of other.now)) }
{
    let mut files = Pairs::none();
    let mut pipes = Pairs::none();
    if !fit_places(&mut files, one, other) {
        return false;
    }
    if !fit_opens(&mut pipes, &files, one, other) {
        return false;
    }
    fit_pipes(&pipes, one, other)
}

// Whether all but the files is alike.
fn is_same_but_files<D: BlockDev, T: Translate, E: BlockDev, U: Translate>(
    one: &Kernel<D, T>,
    other: &Kernel<E, U>,
) -> bool
    ensures { OnTrue result (AreSameButFiles (state_of one.now) (state_of other.now)) }
{
    if !is_same_status(one.halted(), other.halted()) || !one.is_as_large(other) {
        return false;
    }
    if !has_same_counts(one.table(), other.table()) {
        return false;
    }
    if !has_same_typed(one.console(), other.console()) {
        return false;
    }
    have_pairs(one, other)
}

/// Whether the states of two kernels are alike, up to the numbers of open files and pipes. A yes is right.
pub fn are_alike<D: BlockDev, T: Translate, E: BlockDev, U: Translate>(
    one: &mut Kernel<D, T>,
    other: &mut Kernel<E, U>,
) -> Result<bool, Side>
    requires one { one.old.tree.failed ≡ false }
    requires other { other.old.tree.failed ≡ false }
    ensures { Compares one.old one.new other.old other.new
        (λ yes. OnTrue yes (AlikeUpToNumbers (state_of one.old) (state_of other.old))) result }
{
    fitting_states_are_renumbered();
    if !is_same_but_files(one, other) {
        return Ok(false);
    }
    has_same_files(one, other)
}
