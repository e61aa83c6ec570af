//! Texts with what they are expanded to, and texts with what is wrong with them.

use gas::{Expansion, Fault, File, Program, Sources, expand, message, read};
use std::alloc::{AllocError, Global};
use std::process::Abort;

// A file that each text can include.
const LIBRARY: &str = ".macro twice op, to=a0\n\\op \\to, 1\n\\op \\to, 2\n.endm\n";

// The library, beside the text.
#[derive(Drop)]
struct Library(Global);

impl Sources for Library {
    fn text(&mut self, name: &str) -> Result<Option<Vec<u8>>, AllocError> {
        match name {
            "dir/lib.s" => Ok(Some(LIBRARY.as_bytes().to_vec(self.0)?)),
            "dir/loop.s" => Ok(Some(b".include \"loop.s\"".to_vec(self.0)?)),
            _ => Ok(None),
        }
    }
}

fn program_of(alloc: Global, texts: &[&str]) -> Result<Program, AllocError> {
    let mut files = Vec::new(alloc);
    for text in texts {
        files.push(File {
            name: "dir/text.s",
            text: text.as_bytes(),
        })?;
    }
    read(alloc, &mut Library(alloc), &files)
}

fn are_texts(alloc: Global, texts: &[&str], wanted: &str) -> Result<bool, AllocError> {
    match expand(alloc, &program_of(alloc, texts)?)? {
        Expansion::Text(found) => Ok(found.text.as_str() == wanted),
        Expansion::Faults(_) => Ok(false),
    }
}

fn is_text(alloc: Global, text: &str, wanted: &str) -> Result<bool, AllocError> {
    are_texts(alloc, &[text], wanted)
}

fn expect_texts(rt: &(impl Abort + AllocGlobal), rows: &[(&str, &str)]) -> Result<(), AllocError> {
    for (text, wanted) in rows {
        let holds = is_text(rt.alloc(), text, wanted)?;
        assert!(rt; holds, "{text}");
    }
    Ok(())
}

const NUMBERS: [(&str, &str); 8] = [
    ("NOP", "    addi zero, zero, 0\n"),
    ("li a0, 'a'", "    addi a0, zero, 97\n"),
    ("li a0, 0x12345", "    lui a0, 18\n    addiw a0, a0, 837\n"),
    (
        "li a0, 0x100000000",
        "    addiw a0, zero, 1\n    slli a0, a0, 32\n",
    ),
    (
        "li t0, 0b101 << 2 | 3 # a comment",
        "    addi t0, zero, 23\n",
    ),
    ("add a0, a1, -3", "    addi a0, a1, -3\n"),
    ("sw a0, (sp)", "    sw a0, 0(sp)\n"),
    ("not x5, fp", "    xori t0, s0, -1\n"),
];

#[test]
fn numbers_are_loaded(rt: HostRuntime) -> Result<(), AllocError> {
    expect_texts(&rt, &NUMBERS)
}

const LABELS: [(&str, &str); 5] = [
    ("1: beqz fp, 1b", "    beq s0, zero, 0\n"),
    ("main: bgt a0, a1, main", "main:\n    blt a1, a0, main\n"),
    (
        ".data\nx: .asciz \"hi\\n\"\n.text\nla a0, x",
        "    auipc a0, 0\n    addi a0, a0, 8\nx:\n    .ascii \"hi\\n\\0\"\n",
    ),
    (
        ".L: call .L; tail .L",
        "# .L:\n    auipc ra, 0\n    jalr ra, 0(ra)\n    auipc t1, 0\n    jalr zero, -8(t1)\n",
    ),
    (
        "SIZE = 4\n.half SIZE + 1, ~0 /* two */",
        "    .byte 5\n    .byte 0\n    .byte 255\n    .byte 255\n",
    ),
];

#[test]
fn labels_are_found(rt: HostRuntime) -> Result<(), AllocError> {
    expect_texts(&rt, &LABELS)
}

const MACROS: [(&str, &str); 8] = [
    (
        ".macro l r n=7, m\nli \\r, \\n\n.endm\nl a0\nl a0 1\nl t0, 2 3\nl a1 n=4 + 5",
        "    addi a0, zero, 7\n    addi a0, zero, 1\n    addi t0, zero, 2\n    addi a1, zero, 9\n",
    ),
    (
        ".macro p a b\n.data\n.ascii \"\\a\", \"\\b\"\n.endm\np \"x y\" \"z\"\np 'a' 'b'",
        "    .ascii \"x y\"\n    .ascii \"z\"\n    .ascii \"'a'\"\n    .ascii \"'b'\"\n",
    ),
    (
        ".include \"lib.s\"\ntwice li; nop",
        "    addi a0, zero, 1\n    addi a0, zero, 2\n    addi zero, zero, 0\n",
    ),
    (
        ".include \"lib.s\"\ngo: twice op=li, to=t0",
        "go:\n    addi t0, zero, 1\n    addi t0, zero, 2\n",
    ),
    (
        ".macro l\nat\\@: j at\\@\n.endm\nl\nl",
        "at0:\n    jal zero, at0\nat1:\n    jal zero, at1\n",
    ),
    (
        ".macro p text\n.asciz \"\\text\"\n.endm\np \"a, b\"",
        "    .ascii \"a, b\\0\"\n    .zero 1\n    .byte 1\n    .byte 0\n",
    ),
    (
        ".rept 2\n1: j 1b\n.endr",
        "    jal zero, 0\n    jal zero, 0\n",
    ),
    (
        ".macro two\n.rept 2\n.byte 7\n.endr\n.endm\ntwo",
        "    .byte 7\n    .byte 7\n    .byte 1\n    .byte 0\n",
    ),
];

#[test]
fn macros_are_called(rt: HostRuntime) -> Result<(), AllocError> {
    expect_texts(&rt, &MACROS)
}

const NAMES: [(&str, &str); 7] = [
    (
        ".eqv n, 1\n.equiv m, n + 1\nla a0, m\n.int m\n.hword n",
        "    addi a0, zero, 2\n    .word 2\n    .byte 1\n    .byte 0\n    .byte 1\n    .byte 0\n",
    ),
    (
        ".section \".rodata\"\nt: .word f - t\n.text\nnop\nf: nop\n.section .note.GNU-stack,\"\",@progbits",
        "    addi zero, zero, 0\nf:\n    addi zero, zero, 0\nt:\n    .word -4\n",
    ),
    (
        ".extern f\nf: call f@plt\n.END",
        "f:\n    auipc ra, 0\n    jalr ra, 0(ra)\n",
    ),
    (
        ".data\n.fill 2\n.fill 1, 2, 0x1234\n.fill 0, 4, 1",
        "    .zero 2\n    .byte 52\n    .byte 18\n",
    ),
    (
        ".data\n.fill 1, 6, -1",
        "    .byte 255\n    .byte 255\n    .byte 255\n    .byte 255\n    .byte 0\n    .byte 0\n",
    ),
    (
        ".set n, 1\nli a0, n\n.set n, n + 1\nli a0, n",
        "    addi a0, zero, 1\n    addi a0, zero, 2\n",
    ),
    (
        ".comm b, 3\n.comm w, 4, 4\n.bss\nx: .zero 1",
        "x:\n    .zero 1\n    .zero 3\nb:\n    .zero 3\n    .zero 1\nw:\n    .zero 4\n",
    ),
];

#[test]
fn names_are_defined(rt: HostRuntime) -> Result<(), AllocError> {
    expect_texts(&rt, &NAMES)
}

const FILES: [(&[&str], &str); 3] = [
    (
        &[
            "j f\n.data\nx: .byte 1",
            ".globl f\nf: la a0, y\n.data\n.align 1\ny: .byte 2",
        ],
        "    jal zero, f\nf:\n    auipc a0, 0\n    addi a0, a0, 10\nx:\n    .byte 1\n    .zero 1\ny:\n    .byte 2\n",
    ),
    (
        &["x: j x", "x: j x"],
        "# x:\n    jal zero, 0\n# x:\n    jal zero, 0\n",
    ),
    (
        &["1: nop\n2: j 1b", "2: nop\n1: j 2b"],
        "    addi zero, zero, 0\n    jal zero, -4\n    addi zero, zero, 0\n    jal zero, -4\n",
    ),
];

#[test]
fn files_are_linked(rt: HostRuntime) -> Result<(), AllocError> {
    for (texts, wanted) in &FILES {
        let holds = are_texts(rt.alloc(), texts, wanted)?;
        assert!(&rt; holds, "{wanted}");
    }
    Ok(())
}

// Whether a fault is in that line and column, with these words.
fn is_said(
    alloc: Global,
    program: &Program,
    fault: &Fault,
    place: (usize, usize),
    wanted: &str,
) -> Result<bool, AllocError> {
    let words = message(alloc, program, fault.wrong)?;
    let line = match program.row(fault.at.row) {
        Some(row) => row.line.place.line,
        None => 0,
    };
    Ok(line == place.0 && fault.at.column == place.1 && words.as_str() == wanted)
}

fn is_fault(
    alloc: Global,
    text: &str,
    place: (usize, usize),
    wanted: &str,
) -> Result<bool, AllocError> {
    let program = program_of(alloc, &[text])?;
    match expand(alloc, &program)? {
        Expansion::Text(_) => Ok(false),
        Expansion::Faults(faults) => match faults.last() {
            Some(fault) => is_said(alloc, &program, fault, place, wanted),
            None => Ok(false),
        },
    }
}

const FAULTS: [(&str, (usize, usize), &str); 16] = [
    (
        "nop\n  beqz a0",
        (2, 3),
        "beqz takes a register and a label: beqz a0, done",
    ),
    ("j nowhere", (1, 3), "nothing defines this name"),
    (
        "lw a0, 4096(sp)",
        (1, 8),
        "a number from -2048 to 2047 belongs here",
    ),
    (
        "x: nop\nx: nop",
        (2, 1),
        "this name is defined first in dir/text.s:1",
    ),
    ("muls a0, a1", (1, 1), "no instruction has this name"),
    (
        "\tadd a0, b1, a2",
        (1, 10),
        "a register belongs here: x0 to x31, zero, ra, sp, gp, tp, t0 to t6, s0 to s11, a0 to a7, fp",
    ),
    (
        "nop\n_start: nop",
        (2, 1),
        "a program begins at its first instruction: _start belongs there, or j _start",
    ),
    ("li a0, 1 / 0", (1, 10), "nothing is divided by 0"),
    (
        ".macro m r\nli \\r, 1\n.endm\nm b7",
        (2, 4),
        "a register belongs here: x0 to x31, zero, ra, sp, gp, tp, t0 to t6, s0 to s11, a0 to a7, fp",
    ),
    (
        "nop\n .include \"no.s\"\n j of_no",
        (2, 2),
        "the file can't be read, neither beside this one nor from where xv6 runs",
    ),
    (
        ".include \"loop.s\"",
        (1, 1),
        "files and macros lie in one another more than 32 deep: does one call itself?",
    ),
    (
        ".macro m\nm\nm\n.endm\nm",
        (2, 1),
        "files and macros lie in one another more than 32 deep: does one call itself?",
    ),
    (
        "nop; .macro m",
        (1, 6),
        "nothing ends this: .endm ends a .macro, .endr a .rept",
    ),
    (
        ".endr",
        (1, 1),
        "this ends nothing: a .macro or a .rept has to be above it",
    ),
    (
        ".macro m\n.endm\nm 1",
        (3, 1),
        "the macro has fewer arguments: 0",
    ),
    ("nop; j 3f", (1, 8), "nothing defines this name"),
];

#[test]
fn faults_have_their_place(rt: HostRuntime) -> Result<(), AllocError> {
    for (text, place, wanted) in &FAULTS {
        let holds = is_fault(rt.alloc(), text, *place, wanted)?;
        assert!(&rt; holds, "{text}");
    }
    Ok(())
}
