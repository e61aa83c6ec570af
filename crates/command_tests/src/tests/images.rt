//! Stored runs of the commands that make disk images and check them.
use crate::tests::program_files::ASM;
use crate::tests::{DONE, Files, Name, Wanted, change, expect, expect_that, files_of};
use commands::{Check, Front, Host, HostFault, Job, Mkfs, NoScreen, Why};
use std::process::Abort;

pub const CHECK: Job<'static> = Job::Check(Check { image: "image" });

// Files with this manifest, and `length` bytes of a file of the host.
pub fn with_files(rt: &(impl Abort + AllocGlobal), manifest: &str, length: usize) -> Files {
    let bytes = vec![in rt.alloc(); 0u8; length].expect(rt, "memory");
    files_of(rt.alloc(), bytes, manifest.as_bytes()).expect(rt, "memory")
}

pub fn mkfs(size: u32, inodes: u32) -> Job<'static> {
    Job::Mkfs(Mkfs {
        size,
        inodes,
        manifest: "manifest",
        image: "image",
    })
}

// Whether the image has these bytes from that byte on.
fn has_bytes(image: &[u8], start: usize, wanted: &[u8]) -> bool {
    match image.get(start..) {
        Some(rest) => rest.starts_with(wanted),
        None => false,
    }
}

// Images and their bytes: a name, the manifest, the size, the inodes, what the check says, and from where on there are
// which bytes.
type Bytes = (
    &'static str,
    &'static str,
    u32,
    u32,
    &'static str,
    &'static [(usize, &'static [u8])],
);

static BYTES: [Bytes; 3] = [
    (
        "the words of the super block",
        "",
        32,
        16,
        "ok 1 inodes 1 blocks\n",
        &[(
            1024,
            &[
                0x41, 0x30, 0x20, 0x10, 0x20, 0, 0, 0, 0x1b, 0, 0, 0, 0x10, 0, 0, 0, 0, 0, 0, 0, 2,
                0, 0, 0, 2, 0, 0, 0, 4, 0, 0, 0,
            ],
        )],
    ),
    // The defaults give the bitmap block 15, and 1984 blocks for data.
    (
        "an image of default size",
        "",
        2000,
        200,
        "ok 1 inodes 1 blocks\n",
        &[(1032, &[0xc0, 7, 0, 0]), (1052, &[15, 0, 0, 0])],
    ),
    // A device's inode has its major, and then its minor.
    (
        "major and minor apart",
        "dev /a 258 772",
        32,
        16,
        "ok 2 inodes 1 blocks\n",
        &[(2176, &[3, 0, 2, 1, 4, 3, 1, 0])],
    ),
];

fn expect_parts(rt: &impl Abort, name: Name<'_>, image: &[u8], parts: &[(usize, &[u8])]) {
    for (start, wanted) in parts {
        expect_that(rt, name, "its bytes", has_bytes(image, *start, wanted));
    }
}

fn expect_bytes(rt: &(impl Abort + AllocGlobal), row: &Bytes) {
    let (subject, manifest, size, inodes, line, parts) = *row;
    let name = (subject, manifest);
    let mut files = with_files(rt, manifest, 0);
    expect(rt, name, &mut files, &mkfs(size, inodes), DONE);
    expect(rt, name, &mut files, &CHECK, (line, "", 0));
    expect_that(
        rt,
        name,
        "its length",
        files.image.len() == 1024 * size as usize,
    );
    expect_parts(rt, name, files.image.as_slice(), parts);
}

// A manifest, how many bytes the host's file has, the size and the inodes of the image, and what the check says of it
// or why none is made.
type Image = (
    &'static str,
    usize,
    u32,
    u32,
    Result<&'static str, &'static str>,
);

const EMPTY: Result<&str, &str> = Ok("ok 1 inodes 1 blocks\n");

const MISNUMBERED: Result<&str, &str> = Err("fault 6 Numbers\n");

// Sizes and counts of inodes: the least of each, the greatest, and the most inodes that fit in the least size.
const IMAGE_NUMBERS: &[Image] = &[
    ("", 0, 32, 16, EMPTY),
    ("", 0, 131_072, 8192, EMPTY),
    ("", 0, 32, 447, EMPTY),
];

const NUMBER_FAULTS: &[Image] = &[
    ("", 0, 31, 16, MISNUMBERED),
    ("", 0, 32, 15, MISNUMBERED),
    ("", 0, 32, 448, MISNUMBERED),
    ("", 0, 131_073, 16, MISNUMBERED),
    ("", 0, 131_072, 8193, MISNUMBERED),
];

const BLOCKS: &[Image] = &[
    ("file /a host", 0, 32, 16, Ok("ok 2 inodes 1 blocks\n")),
    ("file /a host", 11264, 32, 16, Ok("ok 2 inodes 12 blocks\n")),
    ("file /a host", 11265, 32, 16, Ok("ok 2 inodes 14 blocks\n")),
    ("file /a host", 12288, 32, 16, Ok("ok 2 inodes 14 blocks\n")),
    ("file /a host", 12289, 32, 16, Ok("ok 2 inodes 15 blocks\n")),
    ("file /a host", 25600, 32, 16, Ok("ok 2 inodes 27 blocks\n")),
    ("file /a host", 25601, 32, 16, Err("fault 3 Blocks\n")),
];

// A file that is longer than any: it isn't cut, also where all blocks would hold it.
const LONG_FILE: &[Image] = &[
    ("file /a host", 67_382_273, 32, 16, Err("fault 3 Blocks\n")),
    (
        "file /a host",
        67_382_273,
        131_072,
        16,
        Err("fault 3 Blocks\n"),
    ),
];

const FOURTEEN: &str = "dir /a\ndir /b\ndir /c\ndir /d\ndir /e\ndir /f\ndir /g\n\
    dir /h\ndir /i\ndir /j\ndir /k\ndir /l\ndir /m\ndir /n\n";

const FIFTEEN: &str = "dir /a\ndir /b\ndir /c\ndir /d\ndir /e\ndir /f\ndir /g\n\
    dir /h\ndir /i\ndir /j\ndir /k\ndir /l\ndir /m\ndir /n\ndir /o\n";

const INODES: &[Image] = &[
    (FOURTEEN, 0, 32, 16, Ok("ok 15 inodes 15 blocks\n")),
    (FIFTEEN, 0, 32, 16, Err("fault 4 Inodes\n")),
];

const LONG_NAMES: &str =
    "dir /abcdefghijklmn\n\ndir /abcdefghijklmn/b\ndev /b 1 32767\nfile /abcdefghijklmn/b/c host";

const PATHS: &[Image] = &[
    ("dir /a/b", 0, 32, 16, Err("fault 5 Parent\n")),
    ("dir /a/", 0, 32, 16, Err("fault 1 Name\n")),
    ("dir a", 0, 32, 16, Err("fault 1 Name\n")),
    ("dir /", 0, 32, 16, Err("fault 1 Name\n")),
    ("dir ", 0, 32, 16, Err("fault 1 Name\n")),
    ("dir /.", 0, 32, 16, Err("fault 1 Name\n")),
    ("dir /a\ndir /a/..", 0, 32, 16, Err("fault 1 Name\n")),
    ("dir /abcdefghijklmno", 0, 32, 16, Err("fault 1 Name\n")),
    ("dev /a 1 2\ndir /a/b", 0, 32, 16, Err("fault 5 Parent\n")),
    ("dir /a\nfile /a host", 0, 32, 16, Err("fault 2 Twice\n")),
    (LONG_NAMES, 3, 32, 16, Ok("ok 5 inodes 4 blocks\n")),
];

const LINES: &[Image] = &[
    ("dir", 0, 32, 16, Err("manifest line 1\n")),
    ("\n\nfile /a", 0, 32, 16, Err("manifest line 3\n")),
    ("dir  /a", 0, 32, 16, Err("manifest line 1\n")),
    ("dir /a /b", 0, 32, 16, Err("manifest line 1\n")),
    ("dir /a\nlink /a /b\n", 0, 32, 16, Err("manifest line 2\n")),
    ("dev /a 1", 0, 32, 16, Err("manifest line 1\n")),
    ("dev /a 1 32768", 0, 32, 16, Err("manifest line 1\n")),
    ("dev /a 1 -1", 0, 32, 16, Err("manifest line 1\n")),
    ("dev /a 1 2 3", 0, 32, 16, Err("manifest line 1\n")),
    (" ", 0, 32, 16, Err("manifest line 1\n")),
    ("file /a none\ndir", 0, 32, 16, Err("manifest line 2\n")),
    (
        "dir /a/b\nfile /a none",
        0,
        32,
        16,
        Err("cannot read none\n"),
    ),
];

// Files of 20 blocks for an image of 32, of which two are too many: the fault is reported at the second at the latest,
// after all files were read.
const BEHIND_A_FAULT: &[Image] = &[
    (
        "file /a host\nfile /b host\ndir x",
        20000,
        32,
        16,
        Err("fault 3 Blocks\n"),
    ),
    (
        "file /a host\nfile /b host\nfile /c host",
        20000,
        32,
        16,
        Err("fault 3 Blocks\n"),
    ),
    (
        "file /a host\nfile /b host\nfile /c none",
        20000,
        32,
        16,
        Err("cannot read none\n"),
    ),
    (
        "dir x\nfile /a host\nfile /b host",
        20000,
        32,
        16,
        Err("fault 1 Name\n"),
    ),
    (
        "file /a host\nfile /a host\ndir x",
        20000,
        32,
        16,
        Err("fault 2 Twice\n"),
    ),
];

static NUMBERS: [(&str, &[Image]); 3] = [
    ("the blocks of a long file", LONG_FILE),
    ("the numbers of an image", IMAGE_NUMBERS),
    ("numbers of no image", NUMBER_FAULTS),
];

static SUBJECTS: [(&str, &[Image]); 5] = [
    ("the blocks of files", BLOCKS),
    ("the inodes of directories", INODES),
    ("what is wrong with paths", PATHS),
    ("lines that cannot be read", LINES),
    ("files after a fault", BEHIND_A_FAULT),
];

// What the check says of an image, or why none is made.
type Outcome = Result<&'static str, &'static str>;

// What is printed where an image is made.
fn told_of(outcome: Outcome) -> Wanted<'static> {
    match outcome {
        Ok(_) => DONE,
        Err(line) => ("", line, 1),
    }
}

// The image is as the check says, or there is none.
pub fn expect_outcome(
    rt: &(impl Abort + AllocGlobal),
    name: Name<'_>,
    files: &mut Files,
    outcome: Outcome,
) {
    match outcome {
        Ok(line) => expect(rt, name, files, &CHECK, (line, "", 0)),
        Err(_) => expect_that(rt, name, "no image", files.image.is_empty()),
    }
}

fn expect_made(rt: &(impl Abort + AllocGlobal), subject: &str, row: &Image) {
    let (manifest, length, size, inodes, outcome) = *row;
    let name = (subject, manifest);
    let mut files = with_files(rt, manifest, length);
    expect(rt, name, &mut files, &mkfs(size, inodes), told_of(outcome));
    expect_outcome(rt, name, &mut files, outcome);
}

fn expect_subject(rt: &(impl Abort + AllocGlobal), subject: &str, images: &[Image]) {
    for image in images {
        expect_made(rt, subject, image);
    }
}

fn expect_subjects(rt: &(impl Abort + AllocGlobal), subjects: &[(&str, &[Image])]) {
    for (subject, images) in subjects {
        expect_subject(rt, subject, images);
    }
}

fn expect_all_bytes(rt: &(impl Abort + AllocGlobal)) {
    for row in &BYTES {
        expect_bytes(rt, row);
    }
}

fn expect_images(rt: &(impl Abort + AllocGlobal)) {
    expect_all_bytes(rt);
    expect_subjects(rt, &SUBJECTS);
}

// A file of 64 MiB and an image of 131072 blocks take long, so they are in a test of their own.
#[test]
fn knows_the_numbers_of_an_image(rt: HostRuntime) {
    expect_subjects(&rt, &NUMBERS);
}

#[test]
fn makes_images_of_manifests(rt: HostRuntime) {
    expect_images(&rt);
}

// The host of one image, of which it shows the first two blocks.
#[derive(Drop)]
struct Long {
    front: Vec<u8>,
    length: Option<u64>,
}

impl Host for Long {
    type Screen = NoScreen;

    fn read(&mut self, _name: &str) -> Result<Vec<u8>, HostFault> {
        Err(HostFault)
    }

    fn write(&mut self, _name: &str, _bytes: &[u8]) -> Result<(), HostFault> {
        Err(HostFault)
    }

    fn read_front(&mut self, _name: &str, most: usize) -> Result<Front, HostFault> {
        let mut bytes = self.front.clone().map_err(|_| HostFault)?;
        bytes.truncate(most);
        Ok(Front {
            bytes,
            length: self.length,
        })
    }
}

// Images that are longer than the longest: the count of blocks in the super block, the first byte of its magic number,
// the length of the image if it has an end, and what is printed.
type TooLong = ([u8; 4], u8, Option<u64>, &'static str);

static LONG: [TooLong; 7] = [
    ([0, 0, 2, 0], 0x41, Some(1024 * 131_073), "fault 1 Length\n"),
    ([2, 0, 0, 0], 0x41, Some(1024 * 131_073), "fault 1 Length\n"),
    ([1, 0, 2, 0], 0x40, Some(1024 * 131_073), "fault 2 Magic\n"),
    (
        [1, 0, 2, 0],
        0x41,
        Some(1024 * 131_073),
        "fault 3 Numbers\n",
    ),
    (
        [1, 0, 2, 0],
        0x41,
        Some(1024 * 131_073 + 1),
        "fault 1 Length\n",
    ),
    (
        [0xff, 0xff, 0xff, 0xff],
        0x41,
        Some(1024 * 4294967295),
        "fault 3 Numbers\n",
    ),
    ([1, 0, 2, 0], 0x41, None, "fault 1 Length\n"),
];

fn expect_too_long(rt: &(impl Abort + AllocGlobal), row: &TooLong) {
    let (size, magic, length, line) = row;
    let mut front = vec![in rt.alloc(); 0u8; 2048].expect(rt, "memory");
    front[1024..1028].copy_from_slice(&[*magic, 0x30, 0x20, 0x10]);
    front[1028..1032].copy_from_slice(size);
    let mut host = Long {
        front,
        length: *length,
    };
    let name = ("an image that is too long", *line);
    expect(rt, name, &mut host, &CHECK, ("", line, 1));
}

// A host that finds no memory: it may have a text, and writes nothing.
#[derive(Drop)]
struct Full {
    text: Option<Vec<u8>>,
}

impl Host for Full {
    type Screen = NoScreen;

    fn read(&mut self, _name: &str) -> Result<Vec<u8>, HostFault> {
        match &self.text {
            Some(text) => text.clone().map_err(|_| HostFault),
            None => Err(HostFault),
        }
    }

    fn write(&mut self, _name: &str, _bytes: &[u8]) -> Result<(), HostFault> {
        Err(HostFault)
    }

    fn why(&self) -> Why {
        Why::NoMemory
    }
}

// The bytes of an image that are changed and how long it is then at most, and what the check prints.
type Changed = (&'static [(usize, u8)], usize, &'static str);

// A file and a directory (inodes 2 and 3).
const CHANGES: &[Changed] = &[
    (&[(1024, 0x40)], usize::MAX, "fault 2 Magic\n"),
    (&[(1032, 0x1c)], usize::MAX, "fault 3 Numbers\n"),
    (&[(2176, 9)], usize::MAX, "fault 4 NodeType\n"),
    (&[(2188, 4)], usize::MAX, "fault 5 Address\n"),
    (&[(2188, 5)], usize::MAX, "fault 6 SharedBlock\n"),
    (&[(4096, 0)], usize::MAX, "fault 7 Bitmap\n"),
    (&[(2187, 5)], usize::MAX, "fault 8 Size\n"),
    (&[(5154, b'/')], usize::MAX, "fault 9 Entry\n"),
    (&[(2182, 2)], usize::MAX, "fault 10 Links\n"),
    (&[(2182, 0)], usize::MAX, "fault 10 Links\n"),
];

// /a and /a/b (inodes 2 and 3, blocks 6 and 7) name one another, and the root names neither.
const CYCLE: &[Changed] = &[(
    &[
        (2118, 1),
        (5152, 0),
        (5154, 0),
        (6160, 3),
        (2246, 2),
        (2248, 48),
        (7200, 2),
        (7202, b'c'),
    ],
    usize::MAX,
    "fault 11 Unreached\n",
)];

// An image of 32 blocks and 16 inodes: a name, the manifest, how many bytes the host's file has, what the check says of
// it, and the changes with which it is refused.
type Checked = (
    &'static str,
    &'static str,
    usize,
    &'static str,
    &'static [Changed],
);

static CHECKED: [Checked; 3] = [
    (
        "a byte is missing",
        "file /a host\ndir /b",
        2000,
        "ok 3 inodes 4 blocks\n",
        &[(&[], 32767, "fault 1 Length\n")],
    ),
    (
        "a file and a directory",
        "file /a host\ndir /b",
        1000,
        "ok 3 inodes 3 blocks\n",
        CHANGES,
    ),
    (
        "directories that are not reached",
        "dir /a\ndir /a/b",
        1000,
        "ok 3 inodes 3 blocks\n",
        CYCLE,
    ),
];

fn expect_changed(
    rt: &(impl Abort + AllocGlobal),
    subject: &str,
    files: &mut Files,
    image: &[u8],
    changed: &Changed,
) {
    let (bytes, most, line) = *changed;
    files.image = image.to_vec(rt.alloc()).expect(rt, "memory");
    change(&mut files.image, bytes);
    files.image.truncate(most);
    expect(rt, (subject, line), files, &CHECK, ("", line, 1));
}

fn expect_checked(rt: &(impl Abort + AllocGlobal), row: &Checked) {
    let (subject, manifest, length, used, changes) = *row;
    let mut files = with_files(rt, manifest, length);
    expect(rt, (subject, manifest), &mut files, &mkfs(32, 16), DONE);
    expect(rt, (subject, used), &mut files, &CHECK, (used, "", 0));
    let image = files.image.clone().expect(rt, "memory");
    for changed in changes {
        expect_changed(rt, subject, &mut files, image.as_slice(), changed);
    }
}

fn expect_all_checked(rt: &(impl Abort + AllocGlobal)) {
    for row in &CHECKED {
        expect_checked(rt, row);
    }
}

fn expect_all_too_long(rt: &(impl Abort + AllocGlobal)) {
    for row in &LONG {
        expect_too_long(rt, row);
    }
}

fn expect_judged(rt: &(impl Abort + AllocGlobal)) {
    expect_all_checked(rt);
    expect_all_too_long(rt);
    let name = ("a host", "no memory");
    let mut host = Full { text: None };
    expect(rt, name, &mut host, &CHECK, ("", "no memory\n", 1));
    let text = b"ret".to_vec(rt.alloc()).expect(rt, "memory");
    let name = ("a host", "no memory for what is written");
    let mut host = Full { text: Some(text) };
    expect(rt, name, &mut host, &ASM, ("", "no memory\n", 1));
}

#[test]
fn tells_what_is_wrong_with_images(rt: HostRuntime) {
    expect_judged(&rt);
}
