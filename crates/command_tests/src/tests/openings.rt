//! Stored runs of the commands that take files out of disk images and put files into them.
use crate::tests::images::{CHECK, mkfs};
use crate::tests::{DONE, Files, expect, expect_that, files_of};
use commands::{Get, Job, Put};
use std::process::Abort;

pub const MANIFEST: &str = "dir /d\ndir /d/e\ndev /c 1 0\nfile /f host\ndir /g\n";

pub fn get(path: &str) -> Job<'_> {
    Job::Get(Get {
        image: "image",
        path,
        out: None,
    })
}

pub fn put(path: &str) -> Job<'_> {
    Job::Put(Put {
        image: "image",
        path,
        file: "host",
    })
}

// A text of `length` letters.
fn letters(rt: &(impl Abort + AllocGlobal), length: usize) -> String {
    let mut text = String::new(rt.alloc());
    for index in 0..length {
        let letter = char::from(b'a' + (index % 26) as u8);
        text.push(letter).expect(rt, "memory");
    }
    text
}

// Files with an image of 32 blocks and 16 inodes whose file has 300 bytes; then the host's file has `length` letters.
pub fn with_letters(rt: &(impl Abort + AllocGlobal), length: usize) -> Files {
    let old = vec![in rt.alloc(); b'o'; 300].expect(rt, "memory");
    let mut files = files_of(rt.alloc(), old, MANIFEST.as_bytes()).expect(rt, "memory");
    let name = ("an image", "an old file");
    expect(rt, name, &mut files, &mkfs(32, 16), DONE);
    files.bytes = letters(rt, length).into_bytes();
    files
}

// A path, how many letters are put there, and what the check says then, or why they aren't put.
type PutRow = (&'static str, usize, Result<&'static str, &'static str>);

// A file has 11 blocks without an index block.
static PUT: [PutRow; 16] = [
    ("/f", 0, Ok("ok 6 inodes 4 blocks\n")),
    ("/f", 1024, Ok("ok 6 inodes 5 blocks\n")),
    ("f", 1025, Ok("ok 6 inodes 6 blocks\n")),
    ("/d/../f", 300, Ok("ok 6 inodes 5 blocks\n")),
    ("/d/e/new", 0, Ok("ok 7 inodes 5 blocks\n")),
    ("/new", 11265, Ok("ok 7 inodes 18 blocks\n")),
    ("/f", 23 * 1024 - 1024, Ok("ok 6 inodes 27 blocks\n")),
    ("/", 1, Err("fault 4 IsDir\n")),
    ("", 1, Err("fault 4 IsDir\n")),
    ("/d/e", 1, Err("fault 4 IsDir\n")),
    ("/c", 1, Err("fault 3 Exists\n")),
    ("/no/f", 1, Err("fault 1 NotFound\n")),
    ("/f/g", 1, Err("fault 2 NotDir\n")),
    ("/f", 22 * 1024 + 1, Err("fault 9 Blocks\n")),
    ("/new", 21 * 1024 + 1, Err("fault 9 Blocks\n")),
    ("/a\0b", 1, Err("fault 1 NotFound\n")),
];

// What was put is got.
fn expect_got(rt: &(impl Abort + AllocGlobal), files: &mut Files, row: &PutRow, line: &str) {
    let (path, length, _) = *row;
    let text = letters(rt, length);
    expect(rt, ("put", path), files, &put(path), DONE);
    expect(rt, ("put", path), files, &CHECK, (line, "", 0));
    expect(rt, ("got", path), files, &get(path), (text.as_str(), "", 0));
}

// Where nothing is put, nothing is written.
fn expect_refused(rt: &(impl Abort + AllocGlobal), files: &mut Files, path: &str, line: &str) {
    let before = files.image.clone().expect(rt, "memory");
    expect(rt, ("not put", path), files, &put(path), ("", line, 1));
    expect_that(rt, ("not put", path), "the image", files.image == before);
}

fn expect_put(rt: &(impl Abort + AllocGlobal), row: &PutRow) {
    let (path, length, outcome) = *row;
    let mut files = with_letters(rt, length);
    match outcome {
        Ok(line) => expect_got(rt, &mut files, row, line),
        Err(line) => expect_refused(rt, &mut files, path, line),
    }
}

// A file that is longer than any isn't cut, also where all blocks would hold it.
#[test]
fn puts_no_part_of_a_file(rt: HostRuntime) {
    let mut files = files_of(rt.alloc(), Vec::new(rt.alloc()), b"").expect(&rt, "memory");
    expect(
        &rt,
        ("an image", "the longest"),
        &mut files,
        &mkfs(131_072, 16),
        DONE,
    );
    files.bytes = vec![in rt.alloc(); 0u8; 67_382_273].expect(&rt, "memory");
    let name = ("not put", "a long file");
    expect(
        &rt,
        name,
        &mut files,
        &put("/f"),
        ("", "fault 9 Blocks\n", 1),
    );
}

fn expect_all_put(rt: &(impl Abort + AllocGlobal)) {
    for row in &PUT {
        expect_put(rt, row);
    }
}

#[test]
fn gets_what_was_put(rt: HostRuntime) {
    expect_all_put(&rt);
}
