//! Stored runs of the commands that read disk images: what is listed, and what is not to be got or put.
use crate::tests::images::{mkfs, with_files};
use crate::tests::openings::{MANIFEST, get, put};
use crate::tests::{DONE, Files, expect};
use commands::{Job, Ls};
use std::process::Abort;

// What is asked of a path.
#[derive(Clone, Copy)]
enum Ask {
    List,
    ListBelow,
    Get,
    Put,
}

fn job_of(ask: Ask, path: &'static str) -> Job<'static> {
    match ask {
        Ask::List => ls(path, false),
        Ask::ListBelow => ls(path, true),
        Ask::Get => get(path),
        Ask::Put => put(path),
    }
}

pub fn ls(path: &str, recursive: bool) -> Job<'_> {
    Job::Ls(Ls {
        recursive,
        image: "image",
        path,
    })
}

// What is asked of which path, standard output, standard error and status.
type Asked = (Ask, &'static str, &'static str, &'static str, u8);

// A root with a console, a file of 1000 bytes and a directory that has another and a name of 14 bytes.
const LISTED: &str =
    "dev /console 1 0\nfile /a host\ndir /b\ndir /b/c\ndev /b/fourteen_bytes 9 9\n";

const ROOT_LIST: &str =
    ".              1     1     80\n..             1     1     80\nconsole        3     2      0\n\
    a              2     3   1000\nb              1     4     64\n";

const LISTS: &[Asked] = &[
    (Ask::List, "/", ROOT_LIST, "", 0),
    (Ask::List, "", ROOT_LIST, "", 0),
    (Ask::List, "b/..", ROOT_LIST, "", 0),
    (
        Ask::List,
        "/b",
        ".              1     4     64\n..             1     1     80\nc              1     5     32\nfourteen_bytes 3     6      0\n",
        "",
        0,
    ),
    (
        Ask::List,
        "//b/c/",
        ".              1     5     32\n..             1     4     64\n",
        "",
        0,
    ),
    (Ask::List, "/d", "", "fault 1 NotFound\n", 1),
    (Ask::List, "/a/d", "", "fault 1 NotFound\n", 1),
    (Ask::List, "/b/c/d", "", "fault 1 NotFound\n", 1),
    (Ask::List, "/a", "", "fault 2 NotDir\n", 1),
    (Ask::List, "console", "", "fault 2 NotDir\n", 1),
    (
        Ask::List,
        "/b/fourteen_bytes_and_more",
        "",
        "fault 2 NotDir\n",
        1,
    ),
];

const CONSOLE_LIST: &str =
    ".              1     1     48\n..             1     1     48\nconsole        3     2      0\n";

const CONSOLE: &[Asked] = &[(Ask::List, "/", CONSOLE_LIST, "", 0)];

const SHORT: &[Asked] = &[(Ask::List, "/", "", "fault 1 Length\n", 1)];

const BELOW: &[Asked] = &[
    (
        Ask::ListBelow,
        "/",
        "/:\n\
         .              1     1     96\n..             1     1     96\nd              1     2     48\n\
         c              3     4      0\nf              2     5    300\ng              1     6     32\n\n\
         /d:\n\
         .              1     2     48\n..             1     1     96\ne              1     3     32\n\n\
         /d/e:\n\
         .              1     3     32\n..             1     2     48\n\n\
         /g:\n\
         .              1     6     32\n..             1     1     96\n",
        "",
        0,
    ),
    (
        Ask::ListBelow,
        "d",
        "d:\n\
         .              1     2     48\n..             1     1     96\ne              1     3     32\n\n\
         d/e:\n\
         .              1     3     32\n..             1     2     48\n",
        "",
        0,
    ),
];

// Nothing is got where no file is.
const UNGOT: &[Asked] = &[
    (Ask::Get, "/", "", "fault 4 IsDir\n", 1),
    (Ask::Get, "/d", "", "fault 4 IsDir\n", 1),
    (Ask::Get, "/c", "", "fault 1 NotFound\n", 1),
    (Ask::Get, "/d/f", "", "fault 1 NotFound\n", 1),
];

const SHORT_FILE: &[Asked] = &[
    (Ask::Get, "/f", "", "fault 1 Length\n", 1),
    (Ask::Put, "/f", "", "fault 1 Length\n", 1),
];

// Jobs on one image: its manifest, how many bytes the host's file has, and how long it is at most.
struct Asking {
    name: &'static str,
    manifest: &'static str,
    file: usize,
    length: usize,
    asked: &'static [Asked],
}

static ASKINGS: [Asking; 7] = [
    Asking {
        name: "directories",
        manifest: LISTED,
        file: 1000,
        length: usize::MAX,
        asked: LISTS,
    },
    Asking {
        name: "the image of a machine without a disk",
        manifest: "dev /console 1 0",
        file: 0,
        length: usize::MAX,
        asked: CONSOLE,
    },
    Asking {
        name: "its first block",
        manifest: "dev /console 1 0",
        file: 0,
        length: 1024,
        asked: SHORT,
    },
    Asking {
        name: "less than a block",
        manifest: "dev /console 1 0",
        file: 0,
        length: 1023,
        asked: SHORT,
    },
    Asking {
        name: "what is below",
        manifest: MANIFEST,
        file: 300,
        length: usize::MAX,
        asked: BELOW,
    },
    Asking {
        name: "no file",
        manifest: MANIFEST,
        file: 300,
        length: usize::MAX,
        asked: UNGOT,
    },
    Asking {
        name: "no image with a file",
        manifest: MANIFEST,
        file: 300,
        length: 1023,
        asked: SHORT_FILE,
    },
];

fn expect_asked(rt: &(impl Abort + AllocGlobal), subject: &str, files: &mut Files, asked: &Asked) {
    let (ask, path, stdout, stderr, status) = *asked;
    let wanted = (stdout, stderr, status);
    expect(rt, (subject, path), files, &job_of(ask, path), wanted);
}

fn expect_asking(rt: &(impl Abort + AllocGlobal), asking: &Asking) {
    let subject = asking.name;
    let mut files = with_files(rt, asking.manifest, asking.file);
    expect(rt, (subject, "an image"), &mut files, &mkfs(32, 16), DONE);
    files.image.truncate(asking.length);
    for asked in asking.asked {
        expect_asked(rt, subject, &mut files, asked);
    }
}

fn expect_all_asked(rt: &(impl Abort + AllocGlobal)) {
    for asking in &ASKINGS {
        expect_asking(rt, asking);
    }
}

#[test]
fn tells_what_is_on_an_image(rt: HostRuntime) {
    expect_all_asked(&rt);
}
