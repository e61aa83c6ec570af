//! Texts that are assembled, and texts that are refused.
use asm::{AsmKind, assemble, write_elf};
use std::alloc::Global;
use std::process::Abort;

/// The row of this text holds.
pub fn expect_row(rt: &impl Abort, text: &str, holds: bool) {
    assert!(rt; holds, "{text}");
}

// Whether these words follow a file's headers, and nothing else does.
fn has_words(file: &[u8], words: &[u32]) -> bool {
    let Some(mut rest) = file.get(4096..) else {
        return false;
    };
    for word in words {
        let Some(behind) = rest.strip_prefix(&word.to_le_bytes()) else {
            return false;
        };
        rest = behind;
    }
    rest.is_empty()
}

/// Whether a text is assembled to these words.
pub fn gives(alloc: Global, text: &str, words: &[u32]) -> bool {
    match assemble(alloc, text) {
        Ok(file) => has_words(&file, words),
        Err(_) => false,
    }
}

// Numbers that are loaded, labels that are offsets, and data that is put as it is.
static GIVEN: [(&str, &[u32]); 7] = [
    ("li a7, 11\necall\n", &[0x000008b7, 0x00b88893, 0x00000073]),
    ("li a0, 2048", &[0x00001537, 0x80050513]),
    ("li a0, 2147481599", &[0x7ffff537, 0x7ff50513]),
    ("li a0, -2147483648", &[0x80000537, 0x00050513]),
    (
        "start:\n  beq a0, zero, end\n  la a1, word # loads 16\nend: j start\nword: .word 0x01020304\n",
        &[0x00050663, 0x000005b7, 0x01058593, 0xff5ff06f, 0x01020304],
    ),
    (".ascii \"hi#\\n\"", &[0x0a236968]),
    (
        ".byte -1\n.pad 4\nmv a0, a1\n.zero 4\n.dword 1",
        &[0xff, 0x00058513, 0, 1, 0],
    ),
];

#[test]
fn texts_give_words(rt: HostRuntime) {
    for (text, words) in &GIVEN {
        expect_row(&rt, text, gives(rt.alloc(), text, words));
    }
}

fn fails(alloc: Global, text: &str, line: usize, kind: AsmKind) -> bool {
    match assemble(alloc, text) {
        Ok(_) => false,
        Err(fault) => fault.line == line && fault.kind == kind,
    }
}

// Texts, the line of each that is refused, and why.
static REFUSED: [(&str, usize, AsmKind); 10] = [
    ("_x", 1, AsmKind::Syntax),
    ("foo", 1, AsmKind::Mnemonic),
    ("ret\nadd a0, a1", 2, AsmKind::Operand),
    ("li a0, 2147481600", 1, AsmKind::Range),
    (".zero 270337", 1, AsmKind::Range),
    ("beq a0, a1, 4096", 1, AsmKind::Range),
    ("j x", 1, AsmKind::Label),
    ("j x\nx: ecall\nx: ebreak", 3, AsmKind::Twice),
    (".byte 1\necall", 2, AsmKind::Align),
    ("beq a0, a1, 4095", 1, AsmKind::Align),
];

#[test]
fn faults_are_told(rt: HostRuntime) {
    for (text, line, kind) in &REFUSED {
        expect_row(&rt, text, fails(rt.alloc(), text, *line, *kind));
    }
}

// Whether a file has a page before its program.
fn has_a_page_before(alloc: Global) -> bool {
    match write_elf(alloc, &[7; 35]) {
        Ok(file) => file.len() == 4131 && file.starts_with(b"\x7fELF"),
        Err(_) => false,
    }
}

#[test]
fn a_file_has_a_page_before_its_program(rt: HostRuntime) {
    expect_row(&rt, "35 bytes", has_a_page_before(rt.alloc()));
}
