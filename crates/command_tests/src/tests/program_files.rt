//! Stored runs of the commands on the texts and the files of programs.
use crate::tests::{DONE, Files, Wanted, change, expect, expect_text, files_of};
use commands::{As, Asm, Dump, Files as Names, Job};
use std::process::Abort;

// The text lies where scripts do, and the program's file where images do.
pub const ASM: Job<'static> = Job::Asm(Asm {
    text: "script",
    elf: "image",
});

pub const DUMP: Job<'static> = Job::Dump(Dump {
    names: false,
    elf: "image",
});

// The program's file of a text, with these bytes changed.
pub fn with_program(rt: &(impl Abort + AllocGlobal), text: &str, changes: &[(usize, u8)]) -> Files {
    let nothing = Vec::new(rt.alloc());
    let mut files = files_of(rt.alloc(), nothing, text.as_bytes()).expect(rt, "memory");
    expect(rt, ("a program", text), &mut files, &ASM, DONE);
    change(&mut files.image, changes);
    files
}

// A text, bytes of its file that are changed, what is shown of it, standard error and status.
type Shown = (
    &'static str,
    &'static [(usize, u8)],
    &'static str,
    &'static str,
    u8,
);

// Only whole words are shown.
const TEXTS: &[Shown] = &[
    (
        "li a7, 11\necall\n",
        &[],
        "00000000: 000008b7 lui a7, 0x0\n00000004: 00b88893 addi a7, a7, 11\n00000008: 00000073 ecall\n",
        "",
        0,
    ),
    (
        "li a0, 2048",
        &[],
        "00000000: 00001537 lui a0, 0x1\n00000004: 80050513 addi a0, a0, -2048\n",
        "",
        0,
    ),
    (
        "li a0, 2147481599",
        &[],
        "00000000: 7ffff537 lui a0, 0x7ffff\n00000004: 7ff50513 addi a0, a0, 2047\n",
        "",
        0,
    ),
    (
        "top: bne a0, s11, top\njal ra, -4\nsd ra, -8(sp)\njalr zero, 4(t6)",
        &[],
        "00000000: 01b51063 bne a0, s11, 0\n00000004: ffdff0ef jal ra, -4\n00000008: fe113c23 sd ra, -8(sp)\n0000000c: 004f8067 jalr zero, 4(t6)\n",
        "",
        0,
    ),
    (
        "sraiw ra, ra, 1\n.word 0x4210d09b\nfence\n.word 15\n.byte 1",
        &[],
        "00000000: 4010d09b sraiw ra, ra, 1\n00000004: 4210d09b .word 0x4210d09b\n00000008: 0ff0000f fence\n0000000c: 0000000f .word 0x0000000f\n",
        "",
        0,
    ),
    (
        "mul a0, a0, a1\ndiv a0, a0, a1\nmulhsu t0, t1, t2\nremuw s0, s1, zero\nremw a0, a0, a1\n.word 0x02b5153b",
        &[],
        "00000000: 02b50533 mul a0, a0, a1\n00000004: 02b54533 div a0, a0, a1\n00000008: 027322b3 mulhsu t0, t1, t2\n0000000c: 0204f43b remuw s0, s1, zero\n00000010: 02b5653b remw a0, a0, a1\n00000014: 02b5153b .word 0x02b5153b\n",
        "",
        0,
    ),
    (".byte 1", &[], "", "", 0),
    ("", &[], "", "", 0),
];

// The program header has its type at 64, its flags at 68, its address at 80, its size in the file at 96 and in memory
// at 104.
const CHANGED: &[Shown] = &[
    ("ret", &[(68, 4)], "", "", 0),
    ("ret", &[(68, 6)], "", "", 0),
    ("ret", &[(64, 2), (81, 1)], "", "", 0),
    (
        "ret",
        &[(81, 0x10)],
        "00001000: 00008067 jalr zero, 0(ra)\n",
        "",
        0,
    ),
    (
        "ret",
        &[(84, 1)],
        "00000000: 00008067 jalr zero, 0(ra)\n",
        "",
        0,
    ),
    ("ret", &[(0, 0)], "", "fault 1 Magic\n", 1),
    ("ret", &[(104, 3)], "", "fault 2 Sizes\n", 1),
    ("ret", &[(80, 1)], "", "fault 3 Align\n", 1),
    (
        "ret",
        &[(56, 2), (120, 1), (160, 4)],
        "",
        "fault 4 Overlap\n",
        1,
    ),
    ("ret", &[(73, 0x20)], "", "fault 5 Short\n", 1),
];

fn expect_shown(rt: &(impl Abort + AllocGlobal), row: &Shown) {
    let (text, changes, shown, line, status) = *row;
    let mut files = with_program(rt, text, changes);
    expect(
        rt,
        ("a dump", text),
        &mut files,
        &DUMP,
        (shown, line, status),
    );
}

fn expect_all_shown(rt: &(impl Abort + AllocGlobal), rows: &[Shown]) {
    for row in rows {
        expect_shown(rt, row);
    }
}

fn expect_files(rt: &(impl Abort + AllocGlobal)) {
    expect_all_shown(rt, TEXTS);
    expect_all_shown(rt, CHANGED);
}

// The words of `as` for the text that lies where scripts do.
pub const AS: As<'static> = As {
    texts: Names {
        first: "script",
        second: None,
        third: None,
        fourth: None,
        fifth: None,
        sixth: None,
        seventh: None,
        eighth: None,
    },
    out: Some("image"),
    expand: false,
    debug: false,
    verbose: false,
};

// A text, what is shown of the file that `as` makes of it, and what is reported.
type Made = (&'static str, &'static str, &'static str);

// A text for GNU as, one that names what is passed over, and two that are refused.
const MADE: &[Made] = &[
    (
        ".data\nx: .word 7\n.text\n.globl main\nmain: la a0, x; lw a0, (a0)\nbeqz a0, 1f\n1: ret",
        "00000000: 00000517 auipc a0, 0x0\n00000004: 01450513 addi a0, a0, 20\n00000008: 00052503 lw a0, 0(a0)\n0000000c: 00050263 beq a0, zero, 4\n00000010: 00008067 jalr zero, 0(ra)\n00000014: 00000007 .word 0x00000007\n",
        "",
    ),
    (
        ".type f, @function\nf: ret",
        "00000000: 00008067 jalr zero, 0(ra)\n",
        "script:1:1: .type says nothing here\n",
    ),
    (
        "  beqz a0\n  bnezz a0, x",
        "",
        "script:1:3: beqz takes a register and a label: beqz a0, done\nscript:2:3: no instruction has this name: did you mean bnez?\n",
    ),
    (
        ".macro m r\n li \\r, 1\n.endm\n m b9",
        "",
        "script:2:5: a register belongs here: x0 to x31, zero, ra, sp, gp, tp, t0 to t6, s0 to s11, a0 to a7, fp\nscript:4: called from here\n",
    ),
];

// Nothing but a file that is made is shown.
fn expect_made(rt: &(impl Abort + AllocGlobal), row: &Made) {
    let (text, shown, reported) = *row;
    let nothing = Vec::new(rt.alloc());
    let mut files = files_of(rt.alloc(), nothing, text.as_bytes()).expect(rt, "memory");
    let job = Job::As(As {
        verbose: true,
        ..AS
    });
    let status = if shown.is_empty() { 1 } else { 0 };
    expect(rt, ("as", text), &mut files, &job, ("", reported, status));
    if status == 0 {
        expect(rt, ("a dump", text), &mut files, &DUMP, (shown, "", 0));
    }
}

// The text in the language of `asm` is printed, and no file written.
fn expect_expanded(rt: &(impl Abort + AllocGlobal)) {
    let nothing = Vec::new(rt.alloc());
    let mut files = files_of(rt.alloc(), nothing, b"mv a0, a1; nop").expect(rt, "memory");
    let job = Job::As(As { expand: true, ..AS });
    let wanted = ("    addi a0, a1, 0\n    addi zero, zero, 0\n", "", 0);
    expect(rt, ("as", "--expand"), &mut files, &job, wanted);
    expect(
        rt,
        ("a dump", "of nothing"),
        &mut files,
        &DUMP,
        ("", "fault 1 Magic\n", 1),
    );
}

// A text with a macro, and what is shown of it with the names of its addresses.
const NAMED: &str = "start: la a0, end\n.macro m\n nop\n.endm\n m\nend: ret";

const HEADED: &str =
    "start (script:1):\n00000000: 00000517 auipc a0, 0x0\n00000004: 00c50513 addi a0, a0, 12\nstart+0x8 (script:3):\n00000008: 00000013 addi zero, zero, 0\nend (script:6):\n0000000c: 00008067 jalr zero, 0(ra)\n";

// The labels of a text, and its lines, are read of its file.
fn expect_names(rt: &(impl Abort + AllocGlobal)) {
    let nothing = Vec::new(rt.alloc());
    let mut files = files_of(rt.alloc(), nothing, NAMED.as_bytes()).expect(rt, "memory");
    let job = Job::As(As { debug: true, ..AS });
    expect(rt, ("as", "-g"), &mut files, &job, DONE);
    let dump = Job::Dump(Dump {
        names: true,
        elf: "image",
    });
    expect(
        rt,
        ("a dump", "with names"),
        &mut files,
        &dump,
        (HEADED, "", 0),
    );
}

// The name of a text, and that of its program where the words give none, with a blank, or what is printed.
const STEMS: &[(&str, &str, Wanted<'static>)] = &[
    ("d/a.s", "d/a ", DONE),
    ("d/b/c.s", "d/b/c ", DONE),
    ("d/as", "", ("", "cannot write a.out\n", 1)),
    ("d/.s", "", ("", "cannot write a.out\n", 1)),
];

fn expect_stem(
    rt: &(impl Abort + AllocGlobal),
    text: &str,
    program: &str,
    wanted: Wanted<'static>,
) {
    let nothing = Vec::new(rt.alloc());
    let mut files = files_of(rt.alloc(), nothing, b"ret").expect(rt, "memory");
    let texts = Names {
        first: text,
        ..AS.texts
    };
    let job = Job::As(As {
        texts,
        out: None,
        ..AS
    });
    expect(rt, ("as", text), &mut files, &job, wanted);
    expect_text(rt, ("as", text), files.names.as_bytes(), program);
}

// All of eight texts are read, the last one after the others.
fn expect_eight(rt: &(impl Abort + AllocGlobal)) {
    let last = b"ret".to_vec(rt.alloc()).expect(rt, "memory");
    let mut files = files_of(rt.alloc(), last, b"nop").expect(rt, "memory");
    let one = Some("script");
    let texts = Names {
        first: "script",
        second: one,
        third: one,
        fourth: one,
        fifth: one,
        sixth: one,
        seventh: one,
        eighth: Some("host"),
    };
    let job = Job::As(As { texts, ..AS });
    expect(rt, ("as", "eight texts"), &mut files, &job, DONE);
    let name = ("a dump", "of eight texts");
    expect(rt, name, &mut files, &DUMP, (EIGHT, "", 0));
}

const EIGHT: &str = "00000000: 00000013 addi zero, zero, 0\n00000004: 00000013 addi zero, zero, 0\n\
    00000008: 00000013 addi zero, zero, 0\n0000000c: 00000013 addi zero, zero, 0\n\
    00000010: 00000013 addi zero, zero, 0\n00000014: 00000013 addi zero, zero, 0\n\
    00000018: 00000013 addi zero, zero, 0\n0000001c: 00008067 jalr zero, 0(ra)\n";

// No text is lost.
fn expect_texts_kept(rt: &(impl Abort + AllocGlobal)) {
    let nothing = Vec::new(rt.alloc());
    let mut files = files_of(rt.alloc(), nothing, b"ret").expect(rt, "memory");
    let job = Job::As(As {
        out: Some("script"),
        ..AS
    });
    let wanted = ("", "script is named twice\n", 1);
    expect(rt, ("as", "over its text"), &mut files, &job, wanted);
}

#[test]
fn assembles_texts_for_others(rt: HostRuntime) {
    for row in MADE {
        expect_made(&rt, row);
    }
    expect_expanded(&rt);
    expect_names(&rt);
    for (text, program, wanted) in STEMS {
        expect_stem(&rt, text, program, *wanted);
    }
    expect_eight(&rt);
    expect_texts_kept(&rt);
}

#[test]
fn shows_what_a_file_has(rt: HostRuntime) {
    expect_files(&rt);
}
