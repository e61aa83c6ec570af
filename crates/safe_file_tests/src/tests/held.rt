//! Files of the system that are held, and those that programs left as they were killed.
use crate::tests::expect_that;
use crate::tests::folders::{folder, has_bytes, path_of};
use safe_files::{Holding, hold, is_same, write};
use std::fs::{self, File};
use std::io;
use std::os::unix::fs::symlink;
use std::process::Abort;
use std::rt::Files;
use std::test::Fail;

fn is_held(holding: &Holding) -> bool {
    matches!(holding, Holding::Held(_))
}

// One at a time holds a file; a file that takes its name is another.
fn expect_held<R: Files<File = File> + AllocGlobal + Abort>(rt: &R) -> io::Result<()> {
    let folder = folder(rt, "held")?;
    let path = path_of(rt, folder.as_str(), "image")?;
    let path = path.as_str();
    let name = ("a file", "that is held");
    expect_that(
        rt,
        name,
        "no file",
        matches!(hold(rt, path), Holding::Unheld),
    );
    fs::write(rt, path, b"old")?;
    let first = hold(rt, path);
    expect_that(rt, name, "the first", is_held(&first));
    expect_that(
        rt,
        name,
        "the second",
        matches!(hold(rt, path), Holding::Busy),
    );
    write(rt, path, b"new")?;
    expect_that(rt, name, "another file", is_held(&hold(rt, path)));
    drop(first);
    expect_that(rt, name, "after the end", is_held(&hold(rt, path)));
    fs::remove_dir_all(rt, folder.as_str())
}

// A file that a program left is removed as the next is written, and one that a program holds is not.
fn expect_left<R: Files<File = File> + AllocGlobal + Abort>(rt: &R) -> io::Result<()> {
    let folder = folder(rt, "left")?;
    let held = path_of(rt, folder.as_str(), ".xv6-new-0")?;
    let left = path_of(rt, folder.as_str(), ".xv6-new-1")?;
    let link = path_of(rt, folder.as_str(), ".xv6-new-2")?;
    let image = path_of(rt, folder.as_str(), "image")?;
    fs::write(rt, held.as_str(), b"held")?;
    fs::write(rt, left.as_str(), b"left")?;
    symlink(rt, "image", link.as_str())?;
    let holding = hold(rt, held.as_str());
    write(rt, image.as_str(), b"new")?;
    let name = ("a file", "that was left");
    expect_that(rt, name, "held", has_bytes(rt, held.as_str(), b"held"));
    expect_that(rt, name, "left", fs::metadata(rt, left.as_str()).is_err());
    expect_that(rt, name, "a link", has_bytes(rt, link.as_str(), b"new"));
    drop(holding);
    write(rt, held.as_str(), b"own")?;
    expect_that(rt, name, "its own", has_bytes(rt, held.as_str(), b"own"));
    fs::remove_dir_all(rt, folder.as_str())
}

// Two names of a folder, of which `file` and its other name `twin` are there, and whether they are of one file.
static NAMES: [(&str, &str, bool); 7] = [
    ("file", "file", true),
    ("file", "./file", true),
    ("file", "twin", true),
    ("file", "new", false),
    ("new", "./new", true),
    ("new", "newer", false),
    (".", ".", true),
];

fn expect_names<R: Files<File = File> + AllocGlobal + Abort>(rt: &R) -> io::Result<()> {
    let folder = folder(rt, "names")?;
    let file = path_of(rt, folder.as_str(), "file")?;
    let twin = path_of(rt, folder.as_str(), "twin")?;
    fs::write(rt, file.as_str(), b"old")?;
    fs::hard_link(rt, file.as_str(), twin.as_str())?;
    for (one, other, same) in &NAMES {
        let one_path = path_of(rt, folder.as_str(), one)?;
        let other_path = path_of(rt, folder.as_str(), other)?;
        let told = is_same(rt, one_path.as_str(), other_path.as_str());
        expect_that(rt, (*one, *other), "one file", told == *same);
    }
    let in_root = is_same(rt, "/xv6-no-file", "//xv6-no-file");
    expect_that(rt, ("/", "xv6-no-file"), "one name", in_root);
    let devices = is_same(rt, "/dev/null", "/dev/null");
    expect_that(rt, ("/dev/null", "/dev/null"), "no file", !devices);
    fs::remove_dir_all(rt, folder.as_str())
}

#[test]
fn holds_files_of_the_system(rt: HostRuntime) -> Result<(), Fail> {
    expect_held(&rt)?;
    expect_left(&rt)?;
    expect_names(&rt)?;
    Ok(())
}
