//! Calls with odd arguments, and a program that changes itself.
use crate::runs::{Input, Shown, run_over_each};
use asm::assemble;
use machine::Halt;
use std::alloc::Global;

const MINUS_ONE: u64 = u64::MAX;

// Where a file of the assembler has its program.
const PROGRAM_AT: usize = 4096;

// The number of s2, after which s3 to s11 follow.
const S2: usize = 18;

// A program, and what it does with these keys typed first: what is printed, the status with which it ends, and its
// registers from s2 on.
struct Row {
    text: &'static str,
    keys: &'static [u8],
    printed: &'static [u8],
    status: i32,
    registers: &'static [u64],
}

// A call's number in which a bit above the low word is set.
const HIGH_NUMBER: &str = "
        li a0, 1
        la a1, text
        li a2, 3
        li a7, 1
        slli a7, a7, 32
        addi a7, a7, 16     # write
        ecall
        mv s2, a0
        li a0, 5
        li a7, 2
        ecall
text:   .ascii \"hi\\n\"
";

// The last byte of the stack, into which nothing goes that is longer than a byte. No key, no descriptor and no child is
// taken.
const LAST_BYTE: &str = "
        lui s0, 3
        addi s0, s0, -1
        li t0, 90
        sb t0, 0(s0)
        li a0, 0            # read two bytes
        mv a1, s0
        li a2, 2
        li a7, 5
        ecall
        mv s2, a0
        li a0, 0            # fstat
        mv a1, s0
        li a7, 8
        ecall
        mv s3, a0
        mv a0, s0           # pipe
        li a7, 4
        ecall
        mv s4, a0
        li a7, 1            # a child, which ends at once
        ecall
        beq a0, zero, quit
        mv a0, s0           # wait
        li a7, 3
        ecall
        mv s5, a0
        lbu s6, 0(s0)
        li a0, 0            # wait, and no status is told
        li a7, 3
        ecall
        mv s7, a0
        li a0, 0            # the next free descriptor
        li a7, 10
        ecall
        mv s8, a0
        li a0, 0            # read one byte, which fits, of the two that were typed
        mv a1, s0
        li a2, 1
        li a7, 5
        ecall
        mv s9, a0
        lbu s10, 0(s0)
quit:   li a0, 0
        li a7, 2
        ecall
";

// Stores a word over its next instruction, and forks: the child stores the word over the next but one, which its parent
// then runs as it was.
const CHANGES_ITSELF: &str = "
        la s0, word
        lw s0, 0(s0)
        la s1, next
        sw s0, 0(s1)
next:   addi s2, zero, 1
        la s0, other
        lw s0, 0(s0)
        la s1, last
        li a7, 1
        ecall
        beq a0, zero, child
        lui a0, 2           # the child's status, where the stack's page begins
        li a7, 3
        ecall
        lui s3, 2
        lw s3, 0(s3)
        j last
child:  sw s0, 0(s1)
last:   addi a0, zero, 1
        li a7, 2
        ecall
word:   addi s2, zero, 2
other:  addi a0, zero, 3
";

static ROWS: [Row; 3] = [
    Row {
        text: HIGH_NUMBER,
        keys: b"",
        printed: b"hi\n",
        status: 5,
        registers: &[3],
    },
    Row {
        text: LAST_BYTE,
        keys: b"k\n",
        printed: b"k\n",
        status: 0,
        registers: &[
            MINUS_ONE, MINUS_ONE, MINUS_ONE, MINUS_ONE, 90, 2, 3, 1, 0x6b,
        ],
    },
    Row {
        text: CHANGES_ITSELF,
        keys: b"",
        printed: b"",
        status: 1,
        registers: &[2, 3],
    },
];

// What the program of a row does, if it does the same over each translator.
fn run_of(alloc: Global, row: &Row) -> Option<Shown> {
    let file = assemble(alloc, row.text).ok()?;
    let program = file.as_slice().get(PROGRAM_AT..)?;
    let keys = row.keys;
    run_over_each(alloc, Input { program, keys })
}

// Whether a run is as its row says.
fn is_as(shown: &Shown, row: &Row) -> bool {
    match (&shown.seen, shown.end.1) {
        (Some(seen), Some(Halt::InitEnded(status))) => status == row.status
            && shown.printed.as_slice() == row.printed
            && seen.registers[S2..].starts_with(row.registers),
        _ => false,
    }
}

// Whether a program does what its row says, over each translator.
fn is_right(alloc: Global, row: &Row) -> bool {
    match run_of(alloc, row) {
        Some(shown) => is_as(&shown, row),
        None => false,
    }
}

/// The first program that does anything else than its row says.
pub fn wrong(alloc: Global) -> Option<u64> {
    for (place, row) in ROWS.iter().enumerate() {
        if !is_right(alloc, row) {
            return Some(place as u64);
        }
    }
    None
}
