//! What is made so far, for names to be looked up in it.

ghost use Rattle.std.specs.Prelude.{◌≡◌, ◌<◌, ◌≤◌, ◌+◌, ◌++◌, ◌∷◌, [], IfOk, IfSome, IfNone, None, Some, List, ℕ};
ghost use Rattle.std.specs.Prelude.{length, drop};
ghost use Rattle.unixmodel.specs.Files.{pieces};
ghost use Rattle.imagemake.specs.Made.{LeadsTo, ReachesSpot, found, is_folder, made_name, reach};

use crate::path::first_slash;
use indexmap::IndexMap;
use std::alloc::{AllocError, Global};
use std::marker::Model;

/// A directory that a path leads through.
#[derive(Clone, Copy)]
pub struct Spot<'a> {
    /// Its number.
    pub directory: usize,
    /// The part of the path that leads to it.
    pub above: &'a [u8],
    /// What the path has after the next slash.
    pub below: &'a [u8],
}

/// The names that are made, in the order of their numbers: the first has number 2, the next 3 and so on.
#[derive(Drop)]
pub struct Made<'a> {
    // Whether a name, in the directory of this number, is a directory's.
    names: IndexMap<(usize, &'a [u8]), bool>,
    // The directory of the last name, and the path that leads to it: the next path often leads through it.
    directory: usize,
    above: &'a [u8],
}

impl<'a> Model for Made<'a> {
    ghost use Rattle.std.specs.Prelude.{map};
    ghost use Rattle.indexmap.specs.IndexMap.{spare};
    ghost use Rattle.imagemake.specs.Made.{LeadsTo, Names, name_of};

    ghost Value = { Names };

    ghost view = { λ m. record { items = map name_of m.names.entries; spare = spare m.names } };

    ghost invariant = { λ m. LeadsTo (map name_of m.names.entries) m.above.now m.directory };
}

impl<'a> Made<'a> {
    /// No names, with room for `capacity` of them.
    pub fn with_capacity(alloc: Global, capacity: usize) -> Result<Made<'a>, AllocError>
        ensures empty { IfOk result (λ made. made.items ≡ []) }
        ensures room { IfOk result (λ made. capacity ≤ made.spare) }
    {
        Ok(Made {
            names: IndexMap::with_capacity(alloc, capacity)?,
            directory: 1,
            above: b"",
        })
    }

    /// How many names there are.
    pub fn len(&self) -> usize
        ensures { result ≡ length self.now.items }
    {
        self.names.len()
    }

    /// The number that a name in a directory has.
    pub fn find(&self, directory: usize, name: &'a [u8]) -> Option<usize>
        requires { length self.now.items < 65536 }
        ensures { result ≡ found self.now.items directory name.now }
    {
        let i = self.names.get_index_of(&(directory, name))?;
        Some(i + 2)
    }

    /// Whether a number is a directory's.
    pub fn is_directory(&self, number: usize) -> bool
        ensures { result ≡ is_folder self.now.items number }
    {
        if number < 2 {
            return number == 1;
        }
        match self.names.get_index(number - 2) {
            Some((_, is_directory)) => *is_directory,
            None => false,
        }
    }

    // Where to follow a path from: the directory of the last name, if the path leads through it, else the root.
    fn start(&self, path: &'a [u8]) -> Spot<'a>
        requires { path.now ≡ 0x2f ∷ drop 1 path.now }
        ensures joined { path.now ≡ result.above.now ++ 0x2f ∷ result.below.now }
        ensures leads { LeadsTo self.now.items result.above.now result.directory }
    {
        let root = Spot {
            directory: 1,
            above: &path[..0],
            below: &path[1..],
        };
        let Some(behind) = path.strip_prefix(self.above) else {
            return root;
        };
        match behind.strip_prefix(b"/") {
            Some(below) => Spot {
                directory: self.directory,
                above: self.above,
                below,
            },
            None => root,
        }
    }

    /// The directory that all but the last name of a path reach, above that name.
    pub fn locate(&self, path: &'a [u8]) -> Option<Spot<'a>>
        requires few { length self.now.items < 65536 }
        requires slash { path.now ≡ 0x2f ∷ drop 1 path.now }
        ensures found { IfSome result (ReachesSpot self.now.items path.now) }
        ensures leads { IfSome result (λ spot. LeadsTo self.now.items spot.above.now spot.directory) }
        ensures none { IfNone result
            ((last : List ℕ) × (reach self.now.items 1 (pieces (drop 1 path.now)) ≡ Some (None, last))) }
    {
        let mut spot = self.start(path);
        'name: while let Some(end) = first_slash(spot.below) {
            let Some(directory) = self.find(spot.directory, &spot.below[..end]) else {
                return None;
            };
            spot = Spot {
                directory,
                above: &path[..spot.above.len() + 1 + end],
                below: &spot.below[end + 1..],
            };
        }
        Some(spot)
    }

    /// Adds a name at a spot that has none yet.
    pub fn push(&mut self, spot: Spot<'a>, is_directory: bool)
        requires absent { found self.old.items spot.directory spot.below.now ≡ None }
        requires leads { LeadsTo self.old.items spot.above.now spot.directory }
        requires room { 0 < self.old.spare }
        ensures items { self.new.items ≡ self.old.items
            ++ made_name spot.entry.directory spot.entry.below.now is_directory ∷ [] }
        ensures room { self.old.spare ≤ self.new.spare + 1 }
    {
        let Ok(_) = self
            .names
            .insert((spot.directory, spot.below), is_directory)
        else {
            unreachable!();
        };
        self.directory = spot.directory;
        self.above = spot.above;
    }
}
