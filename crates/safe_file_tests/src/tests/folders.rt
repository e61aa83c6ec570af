//! A folder of the system, in which files are replaced.
use crate::tests::{Name, expect_that};
use safe_files::write;
use std::fs::{self, File, Permissions};
use std::io::{self, ErrorKind};
use std::os::unix::fs::{MetadataExt, PermissionsExt, symlink};
use std::process::Abort;
use std::rt::Files;
use std::test::Fail;

// The most folders of a subject: as many as programs may try at once, and some that were killed.
const MOST_FOLDERS: u32 = 1000;

// A new folder, as `/tmp/xv6-SUBJECT-0`.
pub fn folder<R: Files + AllocGlobal>(rt: &R, subject: &str) -> io::Result<String> {
    for number in 0..MOST_FOLDERS {
        let path = format!(in rt.alloc(); "/tmp/xv6-{subject}-{number}")?;
        match fs::create_dir(rt, path.as_str()) {
            Err(error) if error.kind() == ErrorKind::AlreadyExists => {}
            Err(error) => return Err(error),
            Ok(()) => return Ok(path),
        }
    }
    Err(io::Error::from(ErrorKind::AlreadyExists))
}

// The path of this name in a folder.
pub fn path_of<R: Files<File = File> + AllocGlobal + Abort>(
    rt: &R,
    folder: &str,
    name: &str,
) -> io::Result<String> {
    Ok(format!(in rt.alloc(); "{folder}/{name}")?)
}

// How many names a folder has.
fn count_names<R: Files<File = File> + AllocGlobal + Abort + Clone>(
    rt: &R,
    folder: &str,
) -> io::Result<usize> {
    let mut count: usize = 0;
    for _entry in fs::read_dir(rt, folder)? {
        count = count.saturating_add(1);
    }
    Ok(count)
}

// Whether the file has these bytes.
pub fn has_bytes<R: Files<File = File> + AllocGlobal + Abort>(
    rt: &R,
    path: &str,
    bytes: &[u8],
) -> bool {
    match fs::read(rt, path) {
        Ok(found) => found.as_slice() == bytes,
        Err(_) => false,
    }
}

// The mode of a file, if there is one: its old bytes are `old`; then the mode that it has with the bytes that are
// written.
type Row = (&'static str, Option<u32>, &'static [u8], Option<u32>);

static ROWS: [Row; 7] = [
    ("a new file", None, b"new", None),
    ("a longer one", Some(0o644), b"newer", Some(0o644)),
    ("a shorter one", Some(0o600), b"", Some(0o600)),
    ("for nobody else", Some(0o640), b"new", Some(0o640)),
    ("a program", Some(0o755), b"new", Some(0o755)),
    ("as its owner", Some(0o4755), b"new", Some(0o755)),
    ("as its group", Some(0o2775), b"new", Some(0o775)),
];

// Puts a file of this mode there.
fn begin<R: Files<File = File> + AllocGlobal + Abort>(
    rt: &R,
    path: &str,
    mode: Option<u32>,
) -> io::Result<()> {
    let Some(mode) = mode else {
        return Ok(());
    };
    fs::write(rt, path, b"old")?;
    fs::set_permissions(rt, path, Permissions::from_mode(mode))
}

fn expect_row<R: Files<File = File> + AllocGlobal + Abort + Clone>(
    rt: &R,
    folder: &str,
    row: &Row,
) -> io::Result<()> {
    let (subject, old, bytes, new) = *row;
    let name = ("a file is written", subject);
    let path = path_of(rt, folder, "file")?;
    begin(rt, path.as_str(), old)?;
    write(rt, path.as_str(), bytes)?;
    let mode = fs::metadata(rt, path.as_str())?.mode() & 0o7777;
    expect_that(rt, name, "its bytes", has_bytes(rt, path.as_str(), bytes));
    expect_that(rt, name, "its mode", new.is_none_or(|new| new == mode));
    expect_that(rt, name, "nothing else", count_names(rt, folder)? == 1);
    fs::remove_file(rt, path.as_str())
}

fn expect_rows<R: Files<File = File> + AllocGlobal + Abort + Clone>(rt: &R) -> io::Result<()> {
    let folder = folder(rt, "modes")?;
    for row in &ROWS {
        expect_row(rt, folder.as_str(), row)?;
    }
    fs::remove_dir_all(rt, folder.as_str())
}

// A link stays one, and the file that it leads to has the bytes.
fn expect_link<R: Files<File = File> + AllocGlobal + Abort>(
    rt: &R,
    name: Name<'_>,
    link: &str,
    file: &str,
) -> io::Result<()> {
    write(rt, link, b"new")?;
    let is_link = fs::symlink_metadata(rt, link)?.is_symlink();
    expect_that(rt, name, "the link", is_link);
    expect_that(rt, name, "the file", has_bytes(rt, file, b"new"));
    Ok(())
}

fn expect_links<R: Files<File = File> + AllocGlobal + Abort>(rt: &R) -> io::Result<()> {
    let folder = folder(rt, "links")?;
    let file = path_of(rt, folder.as_str(), "file")?;
    let link = path_of(rt, folder.as_str(), "link")?;
    symlink(rt, "file", link.as_str())?;
    let name = ("a link", "to no file");
    expect_link(rt, name, link.as_str(), file.as_str())?;
    fs::write(rt, file.as_str(), b"old")?;
    let name = ("a link", "to a file");
    expect_link(rt, name, link.as_str(), file.as_str())?;
    fs::remove_dir_all(rt, folder.as_str())
}

// What is no regular file takes the bytes, or says that it can't.
fn expect_devices<R: Files<File = File> + AllocGlobal + Abort>(rt: &R) -> io::Result<()> {
    let folder = folder(rt, "devices")?;
    let refused = write(rt, folder.as_str(), b"new").is_err();
    expect_that(rt, ("a folder", "is written"), "an error", refused);
    write(rt, "/dev/null", b"new")?;
    let refused = write(rt, "/dev/full", b"new").is_err();
    expect_that(rt, ("a full disk", "is written"), "an error", refused);
    let missing = path_of(rt, folder.as_str(), "missing/file")?;
    let refused = write(rt, missing.as_str(), b"new").is_err();
    expect_that(rt, ("no folder", "is written to"), "an error", refused);
    fs::remove_dir_all(rt, folder.as_str())
}

#[test]
fn replaces_files_of_the_system(rt: HostRuntime) -> Result<(), Fail> {
    expect_rows(&rt)?;
    expect_links(&rt)?;
    expect_devices(&rt)?;
    Ok(())
}
