//! Paths: their names, and what they reach.

ghost use Rattle.std.specs.Prelude.{◌≡◌, ◌<◌, IfNone, IfSome, IsSome, None, Some, [], ◌∷◌, false, length, not};
ghost use Rattle.std.specs.Prelude.{position, ◌==◌};
ghost use Rattle.name_rules.specs.Rules.{KeepsTree};
ghost use Rattle.tree.specs.Steps.{Reads};
ghost use Rattle.tree.specs.Tree.{Looks};
ghost use Rattle.unixmodel.specs.Files.{find, parts, slot, start_of};
ghost use Rattle.tree.specs.Calls.{FindsSpot, IsAbove};

use crate::{Tree, TreeFault};
use blockdev::{BlockDev, DeviceFault};
use inode::DIRECTORY;

// The number of the root.
const ROOT: usize = 1;

// The longest name.
const NAME_SIZE: usize = 14;

// The number from which a path is followed.
fn start(directory: usize, path: &[u8]) -> usize
    ensures { result ≡ start_of directory path.now }
{
    if path.is_empty() {
        return directory;
    }
    if path[0] == b'/' { ROOT } else { directory }
}

// Where the first name of a path begins.
fn name_start(path: &[u8]) -> Option<usize>
    ensures { result ≡ position (λ b. not (b == 0x2f)) path.now }
{
    path.iter().position(|b| *b != b'/')
}

// The offset of the first slash.
fn first_slash(path: &[u8]) -> Option<usize>
    ensures { result ≡ position (λ b. b == 0x2f) path.now }
{
    path.iter().position(|b| *b == b'/')
}

// The first name of a path, cut to 14 bytes, and what follows it.
fn first_name<'a>(path: &'a [u8]) -> Option<(&'a [u8], &'a [u8])>
    ensures some { IfSome result (λ two. parts path.now ≡ two.0.now ∷ parts two.1.now) }
    ensures shorter { IfSome result (λ two. length two.1.now < length path.now) }
    ensures none { IfNone result (parts path.now ≡ []) }
{
    let from = name_start(path)?;
    let rest = &path[from..];
    let end = first_slash(rest).unwrap_or(rest.len());
    Some((&rest[..end.min(NAME_SIZE)], &rest[end..]))
}

impl<D: BlockDev> Tree<D> {
    /// The number that a path reaches from a directory.
    pub fn resolve(&mut self, directory: usize, path: &[u8]) -> Result<Option<usize>, DeviceFault>
        requires up { self.old.failed ≡ false }
        requires rules { KeepsTree self.old.files }
        requires directory { IsSome (slot self.old.files directory) }
        ensures { Looks self.old self.new result (λ number. number ≡ find self.old.files directory path.now) }
    {
        self.find(directory, path)
    }

    // Does what `resolve` does.
    pub(crate) fn find(
        &mut self,
        directory: usize,
        path: &[u8],
    ) -> Result<Option<usize>, DeviceFault>
        requires up { self.old.failed ≡ false }
        requires rules { KeepsTree self.old.files }
        requires directory { IsSome (slot self.old.files directory) }
        ensures { Reads self.old self.new result (λ number. number ≡ find self.old.files directory path.now) }
    {
        let mut number = start(directory, path);
        let mut rest = path;
        'name: while let Some((name, after)) = first_name(rest) {
            let Some(next) = self.lookup(number, name)? else {
                return Ok(None);
            };
            number = next;
            rest = after;
        }
        Ok(Some(number))
    }

    /// The directory in which the last name of a path is or goes, and that name. Returns `NotFound` where there is
    /// nothing above it, `NotDir` where that is no directory, and `DeadDir` where it is one without links.
    pub fn spot<'a>(
        &mut self,
        directory: usize,
        path: &'a [u8],
    ) -> Result<(usize, &'a [u8]), TreeFault>
        requires up { self.old.failed ≡ false }
        requires rules { KeepsTree self.old.files }
        requires directory { IsSome (slot self.old.files directory) }
        ensures { FindsSpot self.old self.new directory path.now result }
    {
        let Some((number, name)) = self.reach(directory, path)? else {
            return Err(TreeFault::NotFound);
        };
        let node = self.node(number)?;
        if node.kind != DIRECTORY {
            return Err(TreeFault::NotDir);
        }
        if node.links == 0 {
            return Err(TreeFault::DeadDir);
        }
        Ok((number, name))
    }

    // The node that all but the last name of a path reach, and the last name.
    fn reach<'a>(
        &mut self,
        directory: usize,
        path: &'a [u8],
    ) -> Result<Option<(usize, &'a [u8])>, DeviceFault>
        requires up { self.old.failed ≡ false }
        requires rules { KeepsTree self.old.files }
        requires directory { IsSome (slot self.old.files directory) }
        ensures { Reads self.old self.new result (IsAbove self.old.files directory path.now) }
    {
        let Some((first, after)) = first_name(path) else {
            return Ok(None);
        };
        let mut number = start(directory, path);
        let mut name = first;
        let mut rest = after;
        'name: while let Some((last, after)) = first_name(rest) {
            let Some(next) = self.lookup(number, name)? else {
                return Ok(None);
            };
            number = next;
            name = last;
            rest = after;
        }
        Ok(Some((number, name)))
    }
}
