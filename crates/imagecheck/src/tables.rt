//! Tables of all numbers, from the entries of all directories.

ghost use Rattle.std.specs.Prelude.{◌≡◌, ◌<◌, ◌≤◌, All, length};
ghost use Rattle.imagerules.specs.Fields.{HasGeometry};
ghost use Rattle.imagecheck.specs.Namings.{CountsNames, CountsSubdirectories, HasFirsts, HasParentsAmong, IsNaming};
ghost use Rattle.imagecheck.specs.declared.namings.Naming.{Naming};
ghost use Rattle.imagerules.specs.Places.{files_in};
ghost use Rattle.unixmodel.specs.Image.{is_directory_at};

use crate::fields;
use crate::namings::Naming;
use layout::Geometry;

// Counts how many entries name each number.
pub fn count_names(namings: &[Naming], counts: &mut [usize])
    requires within { All (λ (m : Naming). m.number < length counts.old) namings.now }
    requires fresh { All (λ c. c ≡ 0) counts.old }
    ensures long { length counts.new ≡ length counts.old }
    ensures counted { CountsNames namings.now counts.new }
{
    for naming in namings {
        counts[naming.number as usize] += 1;
    }
}

// Finds the first directory that names each number.
fn find_firsts(namings: &[Naming], parents: &mut [u16])
    requires within { All (λ (m : Naming). m.number < length parents.old) namings.now }
    requires some { All (λ (m : Naming). 1 ≤ m.directory) namings.now }
    requires fresh { All (λ p. p ≡ 0) parents.old }
    ensures long { length parents.new ≡ length parents.old }
    ensures found { HasFirsts namings.now parents.new }
{
    for naming in namings {
        let number = naming.number as usize;
        if parents[number] == 0 {
            parents[number] = naming.directory;
        }
    }
}

// Finds the parent of each number: the first directory that names it, and the root itself.
pub fn find_parents(namings: &[Naming], parents: &mut [u16])
    requires root { 1 < length parents.old }
    requires within { All (λ (m : Naming). m.number < length parents.old) namings.now }
    requires some { All (λ (m : Naming). 1 ≤ m.directory) namings.now }
    requires fresh { All (λ p. p ≡ 0) parents.old }
    ensures long { length parents.new ≡ length parents.old }
    ensures found { HasParentsAmong namings.now parents.new }
{
    find_firsts(namings, parents);
    parents[1] = 1;
}

// Whether an inode is a directory.
fn is_directory(image: &[u8], geometry: Geometry, n: usize) -> bool
    requires geometry { HasGeometry image.now geometry }
    requires low { 1 ≤ n }
    requires high { n < geometry.inodes }
    ensures { result ≡ is_directory_at (files_in image.now) n }
{
    fields::is_directory(image, n)
}

// Counts how many entries of each directory name directories.
pub fn count_subdirectories(
    image: &[u8],
    geometry: Geometry,
    namings: &[Naming],
    counts: &mut [usize],
)
    requires geometry { HasGeometry image.now geometry }
    requires namings { All (IsNaming image.now) namings.now }
    requires long { length counts.old ≡ geometry.inodes }
    requires fresh { All (λ c. c ≡ 0) counts.old }
    ensures long { length counts.new ≡ geometry.inodes }
    ensures counted { CountsSubdirectories image.now namings.now counts.new }
{
    for naming in namings {
        if is_directory(image, geometry, naming.number as usize) {
            counts[naming.directory as usize] += 1;
        }
    }
}
