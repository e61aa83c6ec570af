//! Which file of the system a path leads to, and who holds it: a program does while it works on it, at most to its own
//! end.
use std::fs::{self, File, Metadata, TryLockError};
use std::os::unix::fs::MetadataExt;
use std::rt::Files;

/// What came of a try to hold a file.
#[derive(Drop)]
pub enum Holding {
    /// It is held until this is dropped.
    Held(File),
    /// Another program holds it, or the name has just got another file.
    Busy,
    /// It can't be held: it is no regular file that can be read, or the system has no locks for it.
    Unheld,
}

// Whether a name leads to this open file.
fn is_at<R: Files>(rt: &R, name: &str, file: &File) -> bool {
    match (fs::metadata(rt, name), file.metadata()) {
        (Ok(found), Ok(open)) => found.dev() == open.dev() && found.ino() == open.ino(),
        _ => false,
    }
}

// Whether these are of one regular file or one folder.
fn is_one(one: &Metadata, other: &Metadata) -> bool {
    let has_names = one.is_file() || one.is_dir();
    has_names && one.dev() == other.dev() && one.ino() == other.ino()
}

// The folder of a path, and its last name.
fn parts_of(path: &str) -> (&str, &str) {
    match path.rsplit_once('/') {
        Some(("", name)) => ("/", name),
        Some(parts) => parts,
        None => (".", path),
    }
}

/// Whether two paths lead to one regular file, or to the same name of one folder, where there is no file yet.
pub fn is_same<R: Files>(rt: &R, one: &str, other: &str) -> bool {
    match (fs::metadata(rt, one), fs::metadata(rt, other)) {
        (Ok(one), Ok(other)) => is_one(&one, &other),
        (Err(_), Err(_)) => {
            let ((one, name), (other, other_name)) = (parts_of(one), parts_of(other));
            match (fs::metadata(rt, one), fs::metadata(rt, other)) {
                (Ok(one), Ok(other)) => name == other_name && is_one(&one, &other),
                _ => false,
            }
        }
        _ => false,
    }
}

/// Tries to hold the file that a path leads to.
pub fn hold<R: Files<File = File>>(rt: &R, path: &str) -> Holding {
    match fs::metadata(rt, path) {
        Ok(found) if found.is_file() => {}
        _ => return Holding::Unheld,
    }
    let Ok(file) = fs::open(rt, path) else {
        return Holding::Unheld;
    };
    match file.try_lock() {
        Ok(()) if is_at(rt, path, &file) => Holding::Held(file),
        Ok(()) | Err(TryLockError::WouldBlock) => Holding::Busy,
        Err(TryLockError::Error(_)) => Holding::Unheld,
    }
}

/// Holds a file that was just begun. False if another program has taken it away before, which holds it meanwhile.
/// On a system without locks no program takes it away.
pub(crate) fn claim<R: Files>(rt: &R, name: &str, begun: &File) -> bool {
    match begun.try_lock() {
        Ok(()) => is_at(rt, name, begun),
        Err(TryLockError::WouldBlock) => false,
        Err(TryLockError::Error(_)) => true,
    }
}
