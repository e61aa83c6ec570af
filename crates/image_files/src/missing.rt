//! Where a path stops that leads to nothing.
ghost use Rattle.std.specs.Prelude.{◌≡◌, OnOk, false};
ghost use Rattle.image_files.specs.Listed.{IsAtRest};

use crate::directory::{ListingFault, ROOT, count_places, entry_at};
use blockdev::{BlockDev, DeviceFault};
use mount::mount;
use std::alloc::Global;
use tree::{DIRECTORY, Tree};

/// The first name of a path that is missing, or the last one where none is.
#[derive(Drop)]
pub struct Missing<'a> {
    /// The path of the directory in which it is missing; empty for the root.
    pub front: &'a str,
    pub name: &'a str,
    /// What follows the name.
    pub rest: &'a str,
    /// The names that are there, as far as they are UTF-8.
    pub names: Vec<String>,
}

// The directory that a path reaches from the root; none where it reaches something else, or nothing.
fn folder_at<D: BlockDev>(tree: &mut Tree<D>, path: &[u8]) -> Result<Option<usize>, DeviceFault>
    requires { IsAtRest tree.old }
    ensures { OnOk result (IsAtRest tree.new) }
{
    let Some(number) = tree.resolve(ROOT, path)? else {
        return Ok(None);
    };
    match tree.look(number)? {
        Some(node) if node.kind == DIRECTORY => Ok(Some(number)),
        _ => Ok(None),
    }
}

// The names in a directory.
fn names_in<D: BlockDev>(
    alloc: Global,
    tree: &mut Tree<D>,
    directory: usize,
) -> Result<Vec<String>, ListingFault>
    requires { tree.old.failed ≡ false }
{
    let mut names = Vec::new(alloc);
    for place in 0..count_places(tree, directory)? {
        let Some(entry) = entry_at(tree, directory, place)? else {
            continue;
        };
        let Ok(name) = str::from_utf8(entry.name()) else {
            continue;
        };
        if names.push(String::from_str(alloc, name)?).is_err() {
            return Err(ListingFault::NoMemory);
        }
    }
    Ok(names)
}

// A path without its last name, and that name.
fn last_name(path: &str) -> (&str, &str) {
    match path.rsplit_once('/') {
        Some((front, name)) => (front.trim_end_matches('/'), name),
        None => ("", path),
    }
}

/// The first name that is missing of a path from the root of a disk, whose image is checked first.
pub fn first_missing<'a, D: BlockDev + Drop>(
    alloc: Global,
    disk: D,
    path: &'a str,
) -> Result<Option<Missing<'a>>, ListingFault> {
    let mut tree = mount(alloc, disk)?;
    let mut end = path.trim_end_matches('/').len();
    for _names in 0..path.len() {
        let (front, name) = last_name(path.get(..end).unwrap_or(""));
        let above = if front.is_empty() { "/" } else { front };
        if let Some(directory) = folder_at(&mut tree, above.as_bytes())? {
            let rest = path.get(end..).unwrap_or("");
            let names = names_in(alloc, &mut tree, directory)?;
            return Ok(Some(Missing {
                front,
                name,
                rest,
                names,
            }));
        }
        end = front.len();
    }
    Ok(None)
}
