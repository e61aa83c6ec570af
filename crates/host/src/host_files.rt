//! Reads and writes a host's files, and reports which of them could not be read or written.
ghost use Rattle.std.specs.Prelude.{◌≡◌, ◌≤◌, IfOk, OnOk, vec_len};
ghost use Rattle.host.specs.Files.{Appends, Holds, HoldsFront, HoldsMarked, Writes};

use crate::host::{Front, Host, Why};
use crate::report::Failure;

// Why a file is not read or written: where memory was refused, that is the reason, whatever the file.
fn refused<'a, H: Host>(host: &H, failure: Failure<'a>) -> Failure<'a> {
    match host.why() {
        Why::NoMemory => Failure::NoMemory,
        Why::Unknown | Why::System(_) => failure,
    }
}

/// A file's bytes.
pub fn read<'a, H: Host>(host: &mut H, name: &'a str) -> Result<Vec<u8>, Failure<'a>>
    ensures bytes { IfOk result (λ bytes. Holds name.now bytes.items (H.files host.old)) }
    ensures same { H.files host.new ≡ H.files host.old }
{
    match host.read(name) {
        Ok(bytes) => Ok(bytes),
        Err(_) => Err(refused(host, Failure::Read(name))),
    }
}

/// A file's first bytes, that many at most.
pub fn read_front<'a, H: Host>(
    host: &mut H,
    name: &'a str,
    most: usize,
) -> Result<Front, Failure<'a>>
    ensures most { IfOk result (λ front. vec_len front.bytes ≤ most) }
    ensures front { IfOk result (λ front. HoldsFront name.now most front (H.files host.old)) }
    ensures same { H.files host.new ≡ H.files host.old }
{
    match host.read_front(name, most) {
        Ok(front) => Ok(front),
        Err(_) => Err(refused(host, Failure::Read(name))),
    }
}

/// The bytes of a file that begins with these, and of another one its front.
pub fn read_marked<'a, H: Host>(
    host: &mut H,
    name: &'a str,
    mark: &[u8],
) -> Result<Vec<u8>, Failure<'a>>
    ensures bytes { IfOk result (λ bytes. HoldsMarked name.now mark.now bytes.items (H.files host.old)) }
    ensures same { H.files host.new ≡ H.files host.old }
{
    match host.read_marked(name, mark) {
        Ok(bytes) => Ok(bytes),
        Err(_) => Err(refused(host, Failure::Read(name))),
    }
}

/// Holds a file to the end of the job, which other jobs may hold.
pub fn hold<'a, H: Host>(host: &mut H, name: &'a str) -> Result<(), Failure<'a>>
    ensures { H.files host.new ≡ H.files host.old }
{
    match host.hold(name) {
        Ok(()) => Ok(()),
        Err(_) => Err(Failure::InUse(name)),
    }
}

/// Appends bytes to a file.
pub fn append<'a, H: Host>(host: &mut H, name: &'a str, bytes: &[u8]) -> Result<(), Failure<'a>>
    ensures { OnOk result (Appends name.now bytes.now (H.files host.old) (H.files host.new)) }
{
    match host.append(name, bytes) {
        Ok(()) => Ok(()),
        Err(_) => Err(refused(host, Failure::Write(name))),
    }
}

/// Makes a file of the bytes.
pub fn write<'a, H: Host>(host: &mut H, name: &'a str, bytes: &[u8]) -> Result<(), Failure<'a>>
    ensures { OnOk result (Writes name.now bytes.now (H.files host.old) (H.files host.new)) }
{
    match host.write(name, bytes) {
        Ok(()) => Ok(()),
        Err(_) => Err(refused(host, Failure::Write(name))),
    }
}

/// Makes a directory, where there is none of this name.
pub fn make_folder<'a, H: Host>(host: &mut H, name: &'a str) -> Result<(), Failure<'a>>
    ensures { H.files host.new ≡ H.files host.old }
{
    match host.make_folder(name) {
        Ok(()) => Ok(()),
        Err(_) => Err(refused(host, Failure::Write(name))),
    }
}
