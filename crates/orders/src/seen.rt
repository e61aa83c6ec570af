//! The states that were looked at, by their digests.
ghost use Rattle.std.specs.Prelude.{◌≡◌, ◌++◌, ◌∷◌, [], OnOk, option_map, slice_get};

use crate::bounds::Trouble;
use crate::paths::Path;
use std::alloc::Global;
use std::collections::BTreeMap;

/// Paths to the states, numbered as they came. Of each digest the last one is known, and of each path the one before it
/// with the same digest.
#[derive(Drop)]
pub struct Seen {
    pub paths: Vec<Path>,
    before: Vec<Option<u32>>,
    last: BTreeMap<u64, u32>,
}

impl Seen {
    /// None.
    pub fn new(alloc: Global) -> Seen
        ensures { result.paths.items ≡ [] }
    {
        Seen {
            paths: Vec::new(alloc),
            before: Vec::new(alloc),
            last: BTreeMap::new(alloc),
        }
    }

    /// The number of the last path whose state has a digest.
    pub fn last(&self, digest: u64) -> Option<u32> {
        self.last.get(&digest).copied()
    }

    /// The number of the path before another one, whose state has the same digest.
    pub fn before(&self, number: u32) -> Option<u32> {
        *self.before.get(number as usize)?
    }

    /// One more path, to a state with this digest.
    pub fn put(&mut self, digest: u64, path: Path) -> Result<(), Trouble>
        ensures { OnOk result (self.new.paths.items ≡ self.old.paths.items ++ path ∷ []) }
    {
        let number = self.paths.len();
        if number >= u32::MAX as usize {
            return Err(Trouble::TooLong);
        }
        let before = self.last(digest);
        self.before.push(before)?;
        self.last.insert(digest, number as u32)?;
        self.paths.push(path)?;
        Ok(())
    }
}
