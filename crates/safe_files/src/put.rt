//! Replaces a file by another one.
ghost use Rattle.std.specs.Prelude.{◌≢◌, IfErr, IfOk, OnErr, OnOk, Some};
ghost use Rattle.safe_files.specs.Steps.{Ends, GivesUp, Keeps, Known, Sets, Spoils, Sweeps, Tries};

use crate::fault::{PutFault, StepFault};
use crate::folder::{Folder, Swept};
use std::alloc::{AllocError, Global};

// How many names are looked at for files that were left, whether there are files of them or not.
const LEAST_SWEPT: u32 = 32;

// What came of an attempt that met no fault.
#[derive(Clone, Copy)]
enum Attempt {
    // The file has its new bytes.
    Put,
    // The name of the new file is taken.
    Taken,
}

// The name of the new file of this number, in the folder of the file of this path. It is short, so that it fits where
// the path's last name does.
fn name_beside(alloc: Global, path: &str, number: u32) -> Result<String, AllocError> {
    match path.rsplit_once('/') {
        Some((folder, _)) => format!(in alloc; "{folder}/.xv6-new-{number}"),
        None => format!(in alloc; ".xv6-new-{number}"),
    }
}

// Writes the file that was begun, of which nothing was written yet, and then gives it its name.
fn finish<F: Folder>(folder: &mut F, begun: &str, path: &str, bytes: &[u8]) -> Result<(), StepFault>
    requires { begun.now ≢ path.now }
    ensures ok { OnOk result (Known (Ends begun.now path.now bytes.now) (F.held folder.old) (F.held folder.new)) }
    ensures err { OnErr result (Known Spoils (F.held folder.old) (F.held folder.new)) }
{
    folder.write(bytes)?;
    folder.sync_all()?;
    folder.rename(begun, path)
}

// Removes the file that was begun, since a step failed.
fn give_up<F: Folder>(folder: &mut F, begun: &str, fault: StepFault) -> PutFault
    ensures { Known (GivesUp begun.now result) (F.held folder.old) (F.held folder.new) }
{
    match (folder.remove_file(begun), fault) {
        (Err(_), _) => PutFault::Left,
        (Ok(()), StepFault::Denied) => PutFault::Denied,
        (Ok(()), _) => PutFault::Failed,
    }
}

// Replaces the file of this path by the bytes, by way of a new file of this name.
fn put_by<F: Folder>(
    folder: &mut F,
    begun: &str,
    path: &str,
    bytes: &[u8],
) -> Result<Attempt, PutFault>
    ensures ok { IfOk result
        (λ attempt. Known (Tries begun.now path.now bytes.now attempt) (F.held folder.old) (F.held folder.new)) }
    ensures err { IfErr result (λ fault. Known (Keeps path.now fault) (F.held folder.old) (F.held folder.new)) }
{
    if begun == path {
        return Ok(Attempt::Taken);
    }
    match folder.create_new(begun) {
        Ok(()) => {}
        Err(StepFault::Taken) => return Ok(Attempt::Taken),
        Err(StepFault::Denied) => return Err(PutFault::Denied),
        Err(StepFault::Failed) => return Err(PutFault::Failed),
    }
    match finish(folder, begun, path, bytes) {
        Ok(()) => Ok(Attempt::Put),
        Err(fault) => Err(give_up(folder, begun, fault)),
    }
}

// Removes the file of this number and name if no program holds it, unless it is the one of this path; whether there was
// none, and it is not one of the first names.
fn sweep_at<F: Folder>(folder: &mut F, number: u32, begun: &str, path: &str) -> bool
    ensures { Known (Sweeps path.now) (F.held folder.old) (F.held folder.new) }
{
    begun != path && folder.sweep(begun) == Swept::Absent && number >= LEAST_SWEPT
}

/// Removes the files that programs began beside the file of this path and left as they were killed: those that nobody
/// holds, of the first 32 names and of those that follow without a gap. All else is as it was.
pub fn sweep<F: Folder>(alloc: Global, folder: &mut F, path: &str)
    ensures { Known (Sweeps path.now) (F.held folder.old) (F.held folder.new) }
{
    for number in 0..u32::MAX {
        let Ok(begun) = name_beside(alloc, path, number) else {
            return;
        };
        if sweep_at(folder, number, begun.as_str(), path) {
            return;
        }
    }
}

/// Replaces the file of this path, if there is one, by the bytes, by way of a new file in its folder.
/// At each moment the name has the old file or the new one, and after a fault the old one.
/// The new file is removed where a step fails; only where that fails too (`Left`) it stays.
/// Names that are taken, as by files that a killed program left, are passed over.
pub fn replace<F: Folder>(
    alloc: Global,
    folder: &mut F,
    path: &str,
    bytes: &[u8],
) -> Result<(), PutFault>
    ensures ok { OnOk result (Known (Sets path.now (Some bytes.now)) (F.held folder.old) (F.held folder.new)) }
    ensures err { IfErr result (λ fault. Known (Keeps path.now fault) (F.held folder.old) (F.held folder.new)) }
{
    for number in 0..u32::MAX {
        let Ok(begun) = name_beside(alloc, path, number) else {
            return Err(PutFault::NoMemory);
        };
        match put_by(folder, begun.as_str(), path, bytes) {
            Ok(Attempt::Put) => return Ok(()),
            Ok(Attempt::Taken) => {}
            Err(fault) => return Err(fault),
        }
    }
    Err(PutFault::Failed)
}
