//! Jobs whose files aren't there, can't be written, or aren't what they have to be: nothing is printed, and no image
//! made.
use crate::tests::{UNTOLD, expect, expect_that, files_of, hello};
use commands::{Asm, Check, Dump, Flat, Job, Ls, Mkfs, Run};
use std::process::Abort;

// What is tried, and with which files.
#[derive(Clone, Copy)]
enum Tried {
    Flat(&'static str, &'static str),
    Run(&'static str, &'static str),
    Mkfs(&'static str, &'static str),
    Check(&'static str),
    Ls(&'static str),
    Asm(&'static str, &'static str),
    Dump(&'static str),
}

fn job_of(tried: Tried) -> Job<'static> {
    match tried {
        Tried::Flat(file, script) => flat_job(file, script),
        Tried::Run(image, script) => run_job(image, script),
        Tried::Mkfs(manifest, image) => mkfs_job(manifest, image),
        Tried::Check(image) => Job::Check(Check { image }),
        Tried::Ls(image) => ls_job(image),
        Tried::Asm(text, elf) => Job::Asm(Asm { text, elf }),
        Tried::Dump(elf) => Job::Dump(Dump { names: false, elf }),
    }
}

fn flat_job(file: &'static str, script: &'static str) -> Job<'static> {
    Job::Flat(Flat {
        frames: 1,
        tlb: false,
        telling: UNTOLD,
        file,
        script,
    })
}

fn run_job(image: &'static str, script: &'static str) -> Job<'static> {
    Job::Run(Run {
        frames: 1,
        tlb: false,
        fail: None,
        save: None,
        telling: UNTOLD,
        image,
        script,
    })
}

fn mkfs_job(manifest: &'static str, image: &'static str) -> Job<'static> {
    Job::Mkfs(Mkfs {
        size: 32,
        inodes: 16,
        manifest,
        image,
    })
}

fn ls_job(image: &'static str) -> Job<'static> {
    Job::Ls(Ls {
        recursive: false,
        image,
        path: "/",
    })
}

const ASM: Tried = Tried::Asm("script", "image");

const DUMP: Tried = Tried::Dump("script");

// What is tried, the text of the script or the manifest, the job, and why it isn't done.
type Refused = (&'static str, &'static [u8], Tried, &'static str);

static REFUSED: [Refused; 34] = [
    // A program, and then its script.
    (
        "a flat run reads files in order",
        b"",
        Tried::Flat("none", "nothing"),
        "cannot read none\n",
    ),
    (
        "a flat run reads files in order",
        b"",
        Tried::Flat("program", "nothing"),
        "cannot read nothing\n",
    ),
    (
        "a flat run reads files in order",
        b"step 1\xff",
        Tried::Flat("program", "script"),
        "cannot read script\n",
    ),
    (
        "a flat run reads files in order",
        b"step",
        Tried::Flat("program", "script"),
        "script line 1\n",
    ),
    (
        "a flat run reads files in order",
        b"step 1",
        Tried::Flat("program", "script"),
        "fault 2 FrameCount\n",
    ),
    // An image, and then the script.
    (
        "a run reads the image first",
        b"",
        Tried::Run("none", "nothing"),
        "cannot read none\n",
    ),
    (
        "a run reads the image first",
        b"",
        Tried::Run("image", "nothing"),
        "cannot read nothing\n",
    ),
    (
        "a run reads the image first",
        b"step 1\xff",
        Tried::Run("image", "script"),
        "cannot read script\n",
    ),
    (
        "a run reads the image first",
        b"step 1\nstep",
        Tried::Run("script", "script"),
        "script line 2\n",
    ),
    (
        "a run reads the image first",
        b"step 1",
        Tried::Run("script", "script"),
        "fault 1 Length\n",
    ),
    (
        "a run reads the image first",
        b"step 1",
        Tried::Run("image", "script"),
        "fault 2 FrameCount\n",
    ),
    (
        "files of images that cannot be used",
        b"",
        Tried::Mkfs("none", "image"),
        "cannot read none\n",
    ),
    (
        "files of images that cannot be used",
        b"",
        Tried::Mkfs("manifest", "none"),
        "cannot write none\n",
    ),
    (
        "files of images that cannot be used",
        b"",
        Tried::Check("none"),
        "cannot read none\n",
    ),
    (
        "files of images that cannot be used",
        b"",
        Tried::Check("image"),
        "fault 1 Length\n",
    ),
    (
        "files of images that cannot be used",
        b"",
        Tried::Ls("nosuch"),
        "cannot read nosuch\n",
    ),
    (
        "files of programs that are not there",
        b"ret",
        Tried::Asm("nosuch", "image"),
        "cannot read nosuch\n",
    ),
    (
        "files of programs that are not there",
        b"ret",
        Tried::Asm("script", "nosuch"),
        "cannot write nosuch\n",
    ),
    (
        "files of programs that are not there",
        b"ret",
        Tried::Dump("nosuch"),
        "cannot read nosuch\n",
    ),
    ("what is wrong with texts", b"_x", ASM, "line 1: 1 Syntax\n"),
    (
        "what is wrong with texts",
        b"foo",
        ASM,
        "line 1: 2 Mnemonic\n",
    ),
    (
        "what is wrong with texts",
        b"ret\nadd a0, a1",
        ASM,
        "line 2: 3 Operand\n",
    ),
    (
        "what is wrong with texts",
        b"li a0, 2147481600",
        ASM,
        "line 1: 4 Range\n",
    ),
    (
        "what is wrong with texts",
        b".zero 270337",
        ASM,
        "line 1: 4 Range\n",
    ),
    ("what is wrong with texts", b"j x", ASM, "line 1: 5 Label\n"),
    (
        "what is wrong with texts",
        b"x: ret\nx: ret",
        ASM,
        "line 2: 6 Twice\n",
    ),
    (
        "what is wrong with texts",
        b".byte 1\necall",
        ASM,
        "line 2: 7 Align\n",
    ),
    (
        "what is wrong with texts",
        b"j x\nfoo",
        ASM,
        "line 1: 5 Label\n",
    ),
    (
        "what is wrong with texts",
        b"# \xc3\xa9",
        ASM,
        "line 1: 1 Syntax\n",
    ),
    (
        "what is wrong with texts",
        b"# \xff",
        ASM,
        "cannot read script\n",
    ),
    ("what is no program", b"", DUMP, "fault 1 Magic\n"),
    ("what is no program", b"li a7, 11", DUMP, "fault 1 Magic\n"),
    ("what is no program", b"\x7fELF", DUMP, "fault 5 Short\n"),
    (
        "what is no program",
        b"\x7fELF and fewer than sixty-four bytes",
        DUMP,
        "fault 5 Short\n",
    ),
];

// The program is that which says `hi`, and the image has no byte.
fn expect_refused(rt: &(impl Abort + AllocGlobal), row: &Refused) {
    let (subject, text, tried, line) = *row;
    let bytes = hello(rt.alloc()).expect(rt, "memory");
    let mut files = files_of(rt.alloc(), bytes, text).expect(rt, "memory");
    let name = (subject, line);
    expect(rt, name, &mut files, &job_of(tried), ("", line, 1));
    expect_that(rt, name, "no image", files.image.is_empty());
}

fn expect_all_refused(rt: &(impl Abort + AllocGlobal)) {
    for row in &REFUSED {
        expect_refused(rt, row);
    }
}

#[test]
fn tells_why_files_cannot_be_used(rt: HostRuntime) {
    expect_all_refused(&rt);
}
