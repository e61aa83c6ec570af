//! Programs of a few words, each run to its last: the fault that is predicted is the one that is raised.
use crate::disks::{Whole, expect_row, flat};
use machine::Halt;
use next_fault::{Fault, fault_of};
use std::alloc::Global;
use unixmodel::event::Event;
use unixmodel::trap::{Cause, Trap};

/// The cause and the address of a predicted fault, and its text.
type Wanted = (Cause, u64, &'static str);

/// The name of a program, its words, and the fault of the last one.
type Row = (&'static str, &'static [u32], Option<Wanted>);

/// lui t0, 1 to 3: the page below the stack, the stack, and the end of the memory.
const T0_GUARD: u32 = 0x0000_12b7;

const T0_STACK: u32 = 0x0000_22b7;

const T0_END: u32 = 0x0000_32b7;

static ROWS: [Row; 28] = [
    (
        "jalr zero, 2(zero)",
        &[0x0020_0067],
        Some((
            Cause::InstructionMisaligned,
            2,
            "jump to 0x2 at pc 0x0: no multiple of 4",
        )),
    ),
    (
        "jalr zero, 3(zero), which clears bit 0 as well",
        &[0x0030_0067],
        Some((
            Cause::InstructionMisaligned,
            2,
            "jump to 0x2 at pc 0x0: no multiple of 4",
        )),
    ),
    (
        "jal zero, 2",
        &[0x13, 0x0020_006f],
        Some((
            Cause::InstructionMisaligned,
            6,
            "jump to 0x6 at pc 0x4: no multiple of 4",
        )),
    ),
    (
        "beq of zero with itself, by 2",
        &[0x0000_0163],
        Some((
            Cause::InstructionMisaligned,
            2,
            "jump to 0x2 at pc 0x0: no multiple of 4",
        )),
    ),
    ("bne of zero with itself, by 2", &[0x0000_1163], None),
    (
        "bgeu of zero with itself, by 6",
        &[0x0000_7363],
        Some((
            Cause::InstructionMisaligned,
            6,
            "jump to 0x6 at pc 0x0: no multiple of 4",
        )),
    ),
    // Words that are no instruction.
    (
        "compressed code",
        &[0xe406_1141],
        Some((
            Cause::IllegalInstruction,
            0,
            "illegal instruction 0x1141 at pc 0x0 (compressed code? compile with -march=rv64im)",
        )),
    ),
    (
        "all ones",
        &[0x13, 0xffff_ffff],
        Some((
            Cause::IllegalInstruction,
            4,
            "illegal instruction 0xffffffff at pc 0x4",
        )),
    ),
    (
        "zeros",
        &[0x13, 0],
        Some((
            Cause::IllegalInstruction,
            4,
            "illegal instruction 0x0 at pc 0x4 (zeros are no code)",
        )),
    ),
    (
        "a half of zeros",
        &[0x1141_0000],
        Some((
            Cause::IllegalInstruction,
            0,
            "illegal instruction 0x11410000 at pc 0x0 (zeros are no code)",
        )),
    ),
    (
        "jalr zero, -4(t0): the last word of the first page",
        &[T0_GUARD, 0xffc2_8067, 0],
        Some((
            Cause::IllegalInstruction,
            0xffc,
            "illegal instruction 0x0 at pc 0xffc (zeros are no code)",
        )),
    ),
    (
        "ebreak",
        &[0x0010_0073],
        Some((Cause::Breakpoint, 0, "ebreak at pc 0x0")),
    ),
    ("ecall", &[0x0000_0073], None),
    (
        "lw t1, 1(zero)",
        &[0x0010_2303],
        Some((
            Cause::LoadMisaligned,
            1,
            "load from 0x1 at pc 0x0: no multiple of its size",
        )),
    ),
    (
        "lh t1, -1(t0) at the end",
        &[T0_END, 0xfff2_9303],
        Some((
            Cause::LoadMisaligned,
            0x2fff,
            "load from 0x2fff at pc 0x4: no multiple of its size",
        )),
    ),
    (
        "sd zero, 4(zero)",
        &[0x0000_3223],
        Some((
            Cause::StoreMisaligned,
            4,
            "store to 0x4 at pc 0x0: no multiple of its size",
        )),
    ),
    (
        "jalr zero, 0(t0) below the stack",
        &[T0_GUARD, 0x0002_8067, 0],
        Some((
            Cause::InstructionPageFault,
            0x1000,
            "fetch at pc 0x1000: the page below the stack may not be used (stack overflow?)",
        )),
    ),
    (
        "jalr zero, 0(t0) on the stack",
        &[T0_STACK, 0x0002_8067, 0],
        Some((
            Cause::InstructionPageFault,
            0x2000,
            "fetch at pc 0x2000: the page may not be executed",
        )),
    ),
    (
        "jalr zero, 0(t0) at the end",
        &[T0_END, 0x0002_8067, 0],
        Some((
            Cause::InstructionPageFault,
            0x3000,
            "fetch at pc 0x3000: the process has no page there",
        )),
    ),
    (
        "lb t1, -1(t0) below the stack",
        &[T0_GUARD, 0xfff2_8303],
        None,
    ),
    ("ld t1, -8(t0) at the end", &[T0_END, 0xff82_b303], None),
    (
        "lb t1, 0(t0) below the stack",
        &[T0_GUARD, 0x0002_8303],
        Some((
            Cause::LoadPageFault,
            0x1000,
            "load from 0x1000 at pc 0x4: the page below the stack may not be used (stack overflow?)",
        )),
    ),
    (
        "lb t1, 0(t0) at the end",
        &[T0_END, 0x0002_8303],
        Some((
            Cause::LoadPageFault,
            0x3000,
            "load from 0x3000 at pc 0x4: the process has no page there",
        )),
    ),
    (
        "lb t1, -1(zero)",
        &[0xfff0_0303],
        Some((
            Cause::LoadPageFault,
            0xffff_ffff_ffff_ffff,
            "load from 0xffffffffffffffff at pc 0x0: the process has no page there",
        )),
    ),
    ("sb zero, -1(t0) at the end", &[T0_END, 0xfe02_8fa3], None),
    (
        "sb zero, 0(t0) below the stack",
        &[T0_GUARD, 0x0002_8023],
        Some((
            Cause::StorePageFault,
            0x1000,
            "store to 0x1000 at pc 0x4: the page below the stack may not be used (stack overflow?)",
        )),
    ),
    (
        "sb zero, 0(t0) at the end",
        &[T0_END, 0x0002_8023],
        Some((
            Cause::StorePageFault,
            0x3000,
            "store to 0x3000 at pc 0x4: the process has no page there",
        )),
    ),
    // li a7, 1; ecall; sd zero, 0x100(zero): a page that is shared after a fork.
    (
        "a store to a page that is shared after a fork",
        &[0x0010_0893, 0x73, 0x1000_3023],
        None,
    ),
];

// The bytes of a program.
fn bytes_of(alloc: Global, words: &[u32]) -> Option<Vec<u8>> {
    let mut bytes = Vec::new(alloc);
    for word in words {
        bytes.extend_from_slice(&word.to_le_bytes()).ok()?;
    }
    Some(bytes)
}

fn booted(alloc: Global, words: &[u32]) -> Option<Whole> {
    let program = bytes_of(alloc, words)?;
    flat(alloc, program.as_slice())
}

// Whether a predicted fault is this one, with this text.
fn is_told(alloc: Global, fault: &Fault, (cause, address, words): Wanted) -> bool {
    match format!(in alloc; "{fault}") {
        Ok(text) => fault.trap == Trap { cause, address } && text.as_str() == words,
        Err(_) => false,
    }
}

// Whether the fault that is predicted before the last word is this one, and is raised.
fn tells(alloc: Global, run: &mut Whole, wanted: Option<Wanted>) -> bool {
    let told = fault_of(&run.machine, 1);
    let ended = run.event(Event::Step);
    match (told, wanted) {
        (Some(fault), Some(wanted)) => {
            ended == Err(Halt::InitEnded(-1)) && is_told(alloc, &fault, wanted)
        }
        (None, None) => ended.is_ok(),
        _ => false,
    }
}

// Whether a program has this fault after `steps` steps, the first of which is the turn that picks the process.
fn holds_after(alloc: Global, words: &[u32], steps: usize, wanted: Option<Wanted>) -> Option<bool> {
    let mut run = booted(alloc, words)?;
    let holds = run.steps(steps) && tells(alloc, &mut run, wanted);
    run.end();
    Some(holds)
}

// Whether a program's last word has this fault.
fn holds(alloc: Global, words: &[u32], wanted: Option<Wanted>) -> Option<bool> {
    holds_after(alloc, words, words.len(), wanted)
}

#[test]
fn faults_are_told_before_they_come(rt: HostRuntime) {
    for (name, words, wanted) in &ROWS {
        expect_row(&rt, name, holds(rt.alloc(), words, *wanted));
    }
}

/// The name of a jump to the middle of a word, its words, where it goes, and the text of its fault.
type Jump = (&'static str, &'static [u32], u64, &'static str);

// Into the second half of two compressed instructions, and just before them.
static JUMPS: [Jump; 2] = [
    (
        "jalr zero, 6(zero)",
        &[0x0060_0067, 0xe406_1141],
        6,
        "jump to 0x6 at pc 0x0: no multiple of 4 (compressed code? compile with -march=rv64im)",
    ),
    (
        "jalr zero, 2(zero)",
        &[0x0020_0067, 0xe406_1141],
        2,
        "jump to 0x2 at pc 0x0: no multiple of 4 (compressed code? compile with -march=rv64im)",
    ),
];

#[test]
fn a_jump_into_compressed_code_is_named(rt: HostRuntime) {
    for (name, words, target, text) in &JUMPS {
        let wanted = (Cause::InstructionMisaligned, *target, *text);
        let holds = holds_after(rt.alloc(), words, 1, Some(wanted));
        expect_row(&rt, name, holds);
    }
}
