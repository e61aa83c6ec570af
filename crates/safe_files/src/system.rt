//! Files of the system, written whole.
use crate::fault::{PutFault, StepFault};
use crate::folder::{Folder, Swept};
use crate::locks::{Holding, claim, hold};
use crate::put::{replace, sweep};
use std::fs::{self, File, Metadata, OpenFile, OpenOptions, Permissions};
use std::io::{self, ErrorKind, Write};
use std::os::unix::fs::{MetadataExt, OpenOptionsExt, PermissionsExt, chown};
use std::rt::Files;

/// The bits of a mode that say who may read, write and run a file.
const PERMISSIONS: u32 = 0o777;

/// The bits of the mode of a file that is begun, until it has those of the one that it replaces.
const OWN: u32 = 0o600;

// The system's files. The file that was begun is open and held; it becomes like the one that it replaces, if any.
#[derive(Drop)]
struct SystemFolder<'a, R> {
    rt: &'a R,
    old: Option<Metadata>,
    begun: Option<File>,
    error: Option<io::Error>,
}

// What an error of the system means for a step.
fn step_fault(kind: ErrorKind) -> StepFault {
    match kind {
        ErrorKind::AlreadyExists => StepFault::Taken,
        ErrorKind::PermissionDenied | ErrorKind::ReadOnlyFilesystem | ErrorKind::ResourceBusy => {
            StepFault::Denied
        }
        _ => StepFault::Failed,
    }
}

impl<R: Files<File = File>> SystemFolder<'_, R> {
    // What came of a step. Its error is kept.
    fn told(&mut self, done: io::Result<()>) -> Result<(), StepFault> {
        match done {
            Ok(()) => Ok(()),
            Err(error) => {
                self.error = Some(error);
                Err(step_fault(error.kind()))
            }
        }
    }

    // Begins a file. One that replaces another is its owner's alone at first.
    fn begin(&mut self, name: &str) -> io::Result<()> {
        let mut how = OpenOptions::new();
        how.write(true).create_new(true);
        if self.old.is_some() {
            how.mode(OWN);
        }
        let file = how.open(self.rt, name)?;
        if !claim(self.rt, name, &file) {
            return Err(io::Error::from(ErrorKind::AlreadyExists));
        }
        self.begun = Some(file);
        if let Some(old) = &self.old {
            let _ = chown(self.rt, name, Some(old.uid()), Some(old.gid()));
        }
        Ok(())
    }

    // Gives the file that was begun the permissions of the one that it replaces, and the bytes.
    fn fill(&mut self, bytes: &[u8]) -> io::Result<()> {
        let Some(file) = &mut self.begun else {
            return Err(io::Error::from(ErrorKind::NotFound));
        };
        if let Some(old) = &self.old {
            file.set_permissions(Permissions::from_mode(old.mode() & PERMISSIONS))?;
        }
        file.write_all(bytes)
    }

    fn sync(&mut self) -> io::Result<()> {
        match &self.begun {
            Some(file) => file.sync_all(),
            None => Err(io::Error::from(ErrorKind::NotFound)),
        }
    }
}

impl<R: Files<File = File>> Folder for SystemFolder<'_, R> {
    fn create_new(&mut self, name: &str) -> Result<(), StepFault> {
        let done = self.begin(name);
        self.told(done)
    }

    fn write(&mut self, bytes: &[u8]) -> Result<(), StepFault> {
        let done = self.fill(bytes);
        self.told(done)
    }

    fn sync_all(&mut self) -> Result<(), StepFault> {
        let done = self.sync();
        self.told(done)
    }

    fn rename(&mut self, one: &str, other: &str) -> Result<(), StepFault> {
        let done = fs::rename(self.rt, one, other);
        self.told(done)
    }

    fn remove_file(&mut self, name: &str) -> Result<(), StepFault> {
        match fs::remove_file(self.rt, name) {
            Ok(()) => Ok(()),
            Err(error) => Err(step_fault(error.kind())),
        }
    }

    fn sweep(&mut self, name: &str) -> Swept {
        match fs::symlink_metadata(self.rt, name) {
            Ok(found) if found.is_file() => {}
            Ok(_) => return Swept::Kept,
            Err(_) => return Swept::Absent,
        }
        match hold(self.rt, name) {
            Holding::Held(_held) if fs::remove_file(self.rt, name).is_ok() => Swept::Removed,
            _ => Swept::Kept,
        }
    }
}

// How a file came to be written, if it was.
enum Ending {
    Written,
    // The folder takes no new file.
    Denied,
}

// Writes the file of this path, whose metadata are `old` if there is one.
fn replace_file<R: Files<File = File> + AllocGlobal>(
    rt: &R,
    path: &str,
    old: Option<Metadata>,
    bytes: &[u8],
) -> io::Result<Ending> {
    let mut folder = SystemFolder {
        rt,
        old,
        begun: None,
        error: None,
    };
    sweep(rt.alloc(), &mut folder, path);
    match replace(rt.alloc(), &mut folder, path, bytes) {
        Ok(()) => Ok(Ending::Written),
        Err(PutFault::NoMemory) => Err(io::Error::from(ErrorKind::OutOfMemory)),
        Err(PutFault::Denied) => Ok(Ending::Denied),
        Err(PutFault::Failed | PutFault::Left) => {
            Err(folder.error.unwrap_or(io::Error::from(ErrorKind::Other)))
        }
    }
}

// Whether the path names what the process has open.
fn is_open_already(path: &str) -> bool {
    path == "/dev/stdout"
        || path == "/dev/stderr"
        || path.starts_with("/dev/fd/")
        || path.starts_with("/proc/")
}

// Replaces the file that the path leads to, which is this one. False where that can't be done: where it has no path, or
// its folder takes no new file.
fn replace_there<R: Files<File = File> + AllocGlobal>(
    rt: &R,
    path: &str,
    old: Metadata,
    bytes: &[u8],
) -> io::Result<Ending> {
    let Ok(place) = fs::canonicalize(rt, path) else {
        return Ok(Ending::Denied);
    };
    match fs::metadata(rt, place.as_path()) {
        Ok(found) if found.dev() == old.dev() && found.ino() == old.ino() => {}
        _ => return Ok(Ending::Denied),
    }
    let place = place.into_string();
    replace_file(rt, place.as_str(), Some(old), bytes)
}

/// Writes a file whole: after an error, and wherever the program ends, its name has what it had, or all of the bytes.
/// Links are followed to the file, and its permissions stay, and its owner where the system lets it. What is no regular
/// file is written as it is, and so is one whose folder takes no new file. Files that killed programs left in the
/// folder are removed: those of the names of begun files that nobody holds.
pub fn write<R: Files<File = File> + AllocGlobal>(
    rt: &R,
    path: &str,
    bytes: &[u8],
) -> io::Result<()> {
    let ending = match OpenOptions::new().write(true).open(rt, path) {
        Ok(mut file) => {
            let old = file.metadata()?;
            if !old.is_file() {
                return file.write_all(bytes);
            }
            if is_open_already(path) {
                Ending::Denied
            } else {
                replace_there(rt, path, old, bytes)?
            }
        }
        Err(error) if error.kind() == ErrorKind::NotFound => {
            if fs::symlink_metadata(rt, path).is_ok() {
                Ending::Denied
            } else {
                replace_file(rt, path, None, bytes)?
            }
        }
        Err(error) => return Err(error),
    };
    match ending {
        Ending::Written => Ok(()),
        Ending::Denied => fs::write(rt, path, bytes),
    }
}
