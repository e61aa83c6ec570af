//! The counts of links.

ghost use Rattle.std.specs.Prelude.{◌↔◌, IsTrue};
ghost use Rattle.imagerules.specs.Rules.{BlockRules};
ghost use Rattle.imagerules.specs.Fields.{HasGeometry};
ghost use Rattle.layout.specs.Kinds.{kind_number};
ghost use Rattle.imagecheck.specs.Namings.{FitsLinks, HasCounts};
ghost use Rattle.imagerules.specs.Places.{HasLinks, files_in};

use crate::fields::{kind, links};
use layout::{Geometry, Kind};

// Whether an inode of this kind may have this count of links: a directory one more than its subdirectories, a file or a
// device as many as there are slots that name it.
fn fits_links(kind: Kind, links: usize, names: usize, subdirectories: usize) -> bool
    ensures { IsTrue result ↔ FitsLinks (kind_number kind) links names subdirectories }
{
    match kind {
        Kind::Free => true,
        Kind::Directory => links >= 1 && links - 1 == subdirectories,
        _ => links >= 1 && links <= 32767 && links == names,
    }
}

// Whether each inode has the count of links that its names ask for.
pub fn has_links(
    image: &[u8],
    geometry: Geometry,
    names: &[usize],
    subdirectories: &[usize],
) -> bool
    requires geometry { HasGeometry image.now geometry }
    requires blocks { BlockRules image.now }
    requires counts { HasCounts image.now geometry names.now subdirectories.now }
    ensures { IsTrue result ↔ HasLinks (files_in image.now) }
{
    for n in 1..geometry.inodes {
        let told = links(image, n) as usize;
        if !fits_links(kind(image, n), told, names[n], subdirectories[n]) {
            return false;
        }
    }
    true
}
