//! Names for addresses of programs.
ghost use Rattle.std.specs.Prelude.{◌≡◌, ◌≢◌, [], None, Ok};
ghost use Rattle.std.specs.List.{All};
ghost use Rattle.symbolizer.specs.Paths.{from_root};
ghost use Rattle.symbolizer.specs.declared.searching.Program.{Program};

use crate::searching::Program;
use addresses::{Name, Names};
use std::alloc::{AllocError, Global};

/// Names for addresses of programs, which their files have: of symbol tables and of line numbers.
#[derive(Drop)]
pub struct Symbolizer {
    alloc: Global,
    programs: Vec<Program>,
}

// A path from the root without what it begins with: `sh` of `/sh`, `./sh` and `sh`.
fn from_root(path: &[u8]) -> &[u8]
    ensures { result.now ≡ from_root path.now }
{
    match path {
        [b'/', rest @ ..] => rest,
        [b'.', b'/', rest @ ..] => rest,
        _ => path,
    }
}

impl Symbolizer {
    /// No address has a name.
    pub fn new(alloc: Global) -> Symbolizer
        ensures { result.programs.items ≡ [] }
    {
        Symbolizer {
            alloc,
            programs: Vec::new(alloc),
        }
    }

    /// The names that the files of these programs have.
    pub fn of(alloc: Global, programs: Vec<Program>) -> Symbolizer
        ensures { result.programs ≡ programs }
    {
        Symbolizer { alloc, programs }
    }

    /// The name of an address of a program, which exec was given this path of; a path without a slash before it is one
    /// from the root. `None` where no program has the path, or its file says nothing of the address.
    pub fn at(&self, path: &[u8], address: u64) -> Result<Option<Name<'_>>, AllocError>
        ensures { All (λ (p : Program). from_root p.path.items ≢ from_root path.now) self.now.programs.items
            → result ≡ Ok None }
    {
        let path = from_root(path);
        for program in self.programs.iter() {
            if from_root(program.path.as_slice()) == path {
                return Ok(Names::of(self.alloc, program.file.as_slice())?.at(address));
            }
        }
        Ok(None)
    }
}
