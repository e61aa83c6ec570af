//! The programs of an image.
ghost use Rattle.std.specs.Prelude.{◌≡◌, IfOk, OnOk, false};
ghost use Rattle.std.specs.List.{All};
ghost use Rattle.symbolizer.specs.Programs.{IsProgram, is_program};

use blockdev::{BlockDev, DeviceFault};
use image::ImageFault;
use layout::Entry;
use mount::mount;
use std::alloc::{AllocError, Global};
use tree::{DIRECTORY, FILE, Tree};

/// The number of the root.
const ROOT: usize = 1;

/// How many bytes an entry has in its directory.
const ENTRY_SIZE: usize = 16;

/// A program.
#[derive(Drop)]
pub struct Program {
    /// Its path from the root: `/sh`.
    pub path: Vec<u8>,
    /// The bytes of its file.
    pub file: Vec<u8>,
}

/// Why the programs of an image can't be read.
#[derive(Clone, Copy, Debug, PartialEq, Eq)]
pub enum ProgramsFault {
    /// The image is refused.
    Image(ImageFault),
    /// An access of its disk failed.
    Device,
    /// The host has no memory.
    NoMemory,
}

impl From<ImageFault> for ProgramsFault {
    fn from(fault: ImageFault) -> ProgramsFault {
        match fault {
            ImageFault::NoMemory => ProgramsFault::NoMemory,
            fault => ProgramsFault::Image(fault),
        }
    }
}

impl From<DeviceFault> for ProgramsFault {
    fn from(_fault: DeviceFault) -> ProgramsFault {
        ProgramsFault::Device
    }
}

impl From<AllocError> for ProgramsFault {
    fn from(_failed: AllocError) -> ProgramsFault {
        ProgramsFault::NoMemory
    }
}

// A directory, and its path with a slash after it.
#[derive(Drop)]
struct Folder {
    path: Vec<u8>,
    number: usize,
}

// The directories that are to be looked at, and the programs that were found.
#[derive(Drop)]
struct Search {
    alloc: Global,
    folders: Vec<Folder>,
    programs: Vec<Program>,
    ghost found: { All IsProgram programs.items },
}

// Whether an entry is that of the directory itself or of the one above.
fn is_dot(entry: &Entry) -> bool {
    matches!(entry.name(), b"." | b"..")
}

// Whether a file begins as an ELF file.
fn is_program(file: &[u8]) -> bool
    ensures { result ≡ is_program file.now }
{
    match file {
        [0x7f, b'E', b'L', b'F', ..] => true,
        _ => false,
    }
}

// The bytes of a file of this size.
fn bytes_of<D: BlockDev>(
    alloc: Global,
    tree: &mut Tree<D>,
    number: usize,
    size: usize,
) -> Result<Vec<u8>, ProgramsFault>
    requires { tree.old.failed ≡ false }
    ensures { OnOk result (tree.new.failed ≡ false) }
{
    let mut bytes = vec![in alloc; 0u8; size]?;
    let _count = tree.read_any(number, 0, bytes.as_mut_slice())?;
    Ok(bytes)
}

impl Search {
    // The root is to be looked at.
    fn new(alloc: Global) -> Result<Search, AllocError> {
        let mut folders = Vec::new(alloc);
        let path = Vec::from_slice(alloc, b"/")?;
        folders.push(Folder { path, number: ROOT })?;
        Ok(Search {
            alloc,
            folders,
            programs: Vec::new(alloc),
        })
    }

    // Takes a directory that is to be looked at.
    fn next_folder(&mut self) -> Option<Folder> {
        self.folders.pop()
    }

    // The programs that were found.
    fn into_programs(self) -> Vec<Program>
        ensures { All IsProgram result.items }
    {
        self.programs
    }

    // The path of an entry of a directory.
    fn path_of(&self, folder: &[u8], entry: &Entry) -> Result<Vec<u8>, AllocError> {
        let mut path = Vec::from_slice(self.alloc, folder)?;
        path.extend_from_slice(entry.name())?;
        Ok(path)
    }

    // Adds a directory.
    fn add_folder(&mut self, folder: &[u8], entry: &Entry) -> Result<(), AllocError> {
        let mut path = self.path_of(folder, entry)?;
        path.push(b'/')?;
        self.folders.push(Folder {
            path,
            number: usize::from(entry.number),
        })?;
        Ok(())
    }

    // Adds a file, if it is a program.
    fn add_file(&mut self, folder: &[u8], entry: &Entry, file: Vec<u8>) -> Result<(), AllocError> {
        if !is_program(file.as_slice()) {
            return Ok(());
        }
        let path = self.path_of(folder, entry)?;
        self.programs.push(Program { path, file })?;
        Ok(())
    }

    // Adds what an entry of a directory names.
    fn add<D: BlockDev>(
        &mut self,
        tree: &mut Tree<D>,
        folder: &[u8],
        entry: &Entry,
    ) -> Result<(), ProgramsFault>
        requires { tree.old.failed ≡ false }
        ensures { OnOk result (tree.new.failed ≡ false) }
    {
        let number = usize::from(entry.number);
        let Some(node) = tree.look(number)? else {
            return Ok(());
        };
        if node.kind == FILE {
            let file = bytes_of(self.alloc, tree, number, node.size as usize)?;
            self.add_file(folder, entry, file)?;
        } else if node.kind == DIRECTORY && !is_dot(entry) {
            self.add_folder(folder, entry)?;
        }
        Ok(())
    }

    // Adds what the entries of a directory name.
    fn look_in<D: BlockDev>(
        &mut self,
        tree: &mut Tree<D>,
        folder: &Folder,
    ) -> Result<(), ProgramsFault>
        requires { tree.old.failed ≡ false }
        ensures { OnOk result (tree.new.failed ≡ false) }
    {
        let Some(node) = tree.look(folder.number)? else {
            return Ok(());
        };
        for place in 0..node.size as usize / ENTRY_SIZE {
            let mut bytes = [0; ENTRY_SIZE];
            let at = place.saturating_mul(ENTRY_SIZE);
            let _count = tree.read_any(folder.number, at, &mut bytes)?;
            let entry = Entry::from_front(&bytes);
            if entry.number > 0 {
                self.add(tree, folder.path.as_slice(), &entry)?;
            }
        }
        Ok(())
    }
}

/// The programs of a disk, whose image is checked first: the files that begin as ELF files, in all directories.
pub fn programs<D: BlockDev + Drop>(alloc: Global, disk: D) -> Result<Vec<Program>, ProgramsFault>
    ensures { IfOk result (λ programs. All IsProgram programs.items) }
{
    let mut tree = mount(alloc, disk)?;
    let mut search = Search::new(alloc)?;
    for _looked in 0..u64::MAX {
        let Some(folder) = search.next_folder() else {
            break;
        };
        search.look_in(&mut tree, &folder)?;
    }
    Ok(search.into_programs())
}
