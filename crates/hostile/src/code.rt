//! Programs that write their own code. Whoever writes over a word, what memory holds is what runs: in many steps at
//! once as in one event at a time, over each translator.
ghost use Rattle.std.specs.Prelude.{◌<◌};

use crate::runs::{AnyMachine, KINDS, let_go};
use asm::assemble;
use console::Writer;
use machine::{Halt, boot_flat_with};
use std::alloc::Global;
use std::io::sink;
use test_translators::{Chosen, Counts, Kind};
use unixmodel::event::Event;

const FRAMES: u32 = 128;

// Where a file of the assembler has its program.
const PROGRAM_AT: usize = 4096;

// A program, how many steps it takes before the one at which process 1 ends, and its status then.
struct Row {
    text: &'static str,
    steps: u32,
    status: i32,
}

// How a machine is given its steps.
#[derive(Clone, Copy)]
enum Way {
    // one event after the other
    Events,
    // in pieces of that many
    Pieces(u32),
}

static WAYS: [Way; 4] = [
    Way::Events,
    Way::Pieces(1),
    Way::Pieces(7),
    Way::Pieces(u32::MAX),
];

// A word over the next instruction: first the one that is there, and once it ran another one.
const NEXT: &str = "
        la s0, next
        la s3, word
        lw s1, 0(s0)
        addi s2, zero, 2
again:  sw s1, 0(s0)
next:   addi a0, a0, 1
        lw s1, 0(s3)
        addi s2, s2, -1
        bne s2, zero, again
        li a7, 2
        ecall
word:   addi a0, a0, 2
";

// Half a word over the upper half of an instruction that ran: its immediate becomes 5.
const HALF: &str = "
        addi t0, zero, 0x50
        la s1, place
place:  addi a0, zero, 1
        bne s0, zero, quit
        addi s0, a0, 0
        sh t0, 2(s1)
        j place
quit:   li a7, 2
        ecall
";

// A word over an instruction of a loop that went round fifty times, and goes round fifty times more.
const LOOP: &str = "
        addi s0, zero, 100
        addi s1, zero, 50
        la s3, place
        la s2, word
        lw s2, 0(s2)
place:  addi a0, a0, 1
        addi s0, s0, -1
        bne s0, s1, over
        sw s2, 0(s3)
over:   bne s0, zero, place
        li a7, 2
        ecall
word:   addi a0, a0, 2
";

// Two words over two instructions of a loop, by one store a round.
const PAIR: &str = "
        la s0, place
        la s1, words
        ld s1, 0(s1)
        addi s2, zero, 20
place:  addi a0, a0, 1
        addi a0, a0, 2
        sd s1, 0(s0)
        addi s2, s2, -1
        bne s2, zero, place
        li a7, 2
        ecall
words:  addi a0, a0, 16
        addi a0, a0, 32
";

// A loop that adds up in memory, right after its own words.
const SUM: &str = "
        la s0, sum
        addi s1, zero, 100
again:  ld a0, 0(s0)
        add a0, a0, s1
        sd a0, 0(s0)
        addi s1, s1, -1
        bne s1, zero, again
        li a7, 2
        ecall
        .zero 4
sum:    .zero 8
";

// A word over instructions 256 bytes before and after those that write it: each ran, and runs again.
const NEIGHBOURS: &str = "
        la s0, before
        la s1, after
        la s2, word
        lw s2, 0(s2)
        addi s3, zero, 20
        j round
before: addi a0, a0, 1
        ret
        .zero 256
round:  jalr ra, 0(s0)
        jalr ra, 0(s1)
        sw s2, 0(s0)
        sw s2, 0(s1)
        addi s3, s3, -1
        bne s3, zero, round
        li a7, 2
        ecall
        .zero 256
after:  addi a0, a0, 2
        ret
word:   addi a0, a0, 16
";

// A word over an instruction of another page that ran, to which the program jumps again.
const OTHER_PAGE: &str = "
        la s0, place
        la s1, word
        lw s1, 0(s1)
        jalr ra, 0(s0)
        slli s2, a0, 4
        sw s1, 0(s0)
        jalr ra, 0(s0)
        add a0, a0, s2
        li a7, 2
        ecall
word:   addi a0, zero, 7
        .zero 4096
place:  addi a0, zero, 1
        ret
";

// A word over an instruction of the page that called: the page of the function that writes runs meanwhile.
const CALLER: &str = "
        la s0, place
        la s1, word
        lw s1, 0(s1)
        la s3, next
        addi s2, zero, 2
next:   addi a0, a0, 1
        jalr ra, 0(s0)
        addi s2, s2, -1
        bne s2, zero, next
        li a7, 2
        ecall
word:   addi a0, a0, 2
        .zero 4096
place:  sw s1, 0(s3)
        ret
";

// A pipe is read into an instruction that ran: the word that the program wrote into it.
const READ: &str = "
        jal ra, place
        slli s2, a0, 4
        lui s0, 2
        mv a0, s0           # pipe
        li a7, 4
        ecall
        lw a0, 4(s0)        # write the word
        la a1, word
        li a2, 4
        li a7, 16
        ecall
        lw a0, 0(s0)        # read it over the instruction
        la a1, place
        li a2, 4
        li a7, 5
        ecall
        jal ra, place
        add a0, a0, s2
        li a7, 2
        ecall
place:  addi a0, zero, 1
        ret
word:   addi a0, zero, 4
";

// A child writes over an instruction that ran, in a page that it shares with its parent, and ends with what the new one
// gives; its parent waits for it, and then runs the instruction as it was.
const FORK: &str = "
        jal ra, place
        li a7, 1
        ecall
        beq a0, zero, child
        lui s0, 2
        mv a0, s0           # wait
        li a7, 3
        ecall
        jal ra, place
        lw s0, 0(s0)
        slli s0, s0, 4
        add a0, a0, s0
        j quit
child:  la s0, place
        lw s1, 8(s0)
        sw s1, 0(s0)
        jal ra, place
quit:   li a7, 2
        ecall
place:  addi a0, zero, 1
        ret
word:   addi a0, zero, 6
";

// Two children, one after the other, write each its word over an instruction, run it, and end with what it gives. Each
// copies the page into its own frame, and the second gets the frame that the first gave back.
const HEIRS: &str = "
        la s0, place
        la s1, word
        lui s2, 2
        addi s3, zero, 2
again:  li a7, 1
        ecall
        beq a0, zero, child
        mv a0, s2           # wait
        li a7, 3
        ecall
        lw a0, 0(s2)
        slli s4, s4, 4
        add s4, s4, a0
        addi s1, s1, 4
        addi s3, s3, -1
        bne s3, zero, again
        mv a0, s4
        j quit
child:  lw s5, 0(s1)
        sw s5, 0(s0)
        jal ra, place
quit:   li a7, 2
        ecall
place:  addi a0, zero, 1
        ret
word:   addi a0, zero, 6
        addi a0, zero, 7
";

// An instruction is written into each of 65 pages, which adds the page's number, and they run in turn, twice.
// The words of 64 pages are kept, in sets of two, so three of these pages are in one set.
const PAGES: &str = "
        la s0, place
        lw s1, 0(s0)
        lw s2, 4(s0)
        lui s3, 1
        lui s4, 0x100
        addi s5, zero, 65
fill:   sw s1, 0(s0)
        sw s2, 4(s0)
        add s0, s0, s3
        add s1, s1, s4
        addi s5, s5, -1
        bne s5, zero, fill
        addi s6, zero, 2
round:  la s0, place
        addi s5, zero, 65
call:   jalr ra, 0(s0)
        add s0, s0, s3
        addi s5, s5, -1
        bne s5, zero, call
        addi s6, s6, -1
        bne s6, zero, round
        li a7, 2
        ecall
place:  addi a0, a0, 0
        ret
        .zero 262144
";

static ROWS: [Row; 12] = [
    Row {
        text: NEXT,
        steps: 19,
        status: 3,
    },
    Row {
        text: HALF,
        steps: 13,
        status: 5,
    },
    Row {
        text: LOOP,
        steps: 411,
        status: 150,
    },
    Row {
        text: PAIR,
        steps: 109,
        status: 915,
    },
    Row {
        text: SUM,
        steps: 506,
        status: 5050,
    },
    Row {
        text: NEIGHBOURS,
        steps: 212,
        status: 611,
    },
    Row {
        text: OTHER_PAGE,
        steps: 17,
        status: 0x17,
    },
    Row {
        text: CALLER,
        steps: 23,
        status: 3,
    },
    Row {
        text: READ,
        steps: 32,
        status: 0x14,
    },
    Row {
        text: FORK,
        steps: 35,
        status: 0x61,
    },
    Row {
        text: HEIRS,
        steps: 61,
        status: 0x67,
    },
    Row {
        text: PAGES,
        steps: 1191,
        status: 4160,
    },
];

// Gives a machine `steps` steps.
fn go(machine: &mut AnyMachine<'_>, steps: u32, way: Way) -> Result<(), Halt> {
    match way {
        Way::Events => singly(machine, steps),
        Way::Pieces(size) => in_pieces(machine, steps, size.max(1)),
    }
}

// Gives a machine `steps` steps, each as an event.
fn singly(machine: &mut AnyMachine<'_>, steps: u32) -> Result<(), Halt> {
    let mut out = Writer::new(sink());
    for _ in 0..steps {
        machine.step(Event::Step, &mut out)?;
    }
    Ok(())
}

// Gives a machine `steps` steps, in pieces of `size`.
fn in_pieces(machine: &mut AnyMachine<'_>, steps: u32, size: u32) -> Result<(), Halt>
    requires { 0 < size }
{
    let mut out = Writer::new(sink());
    for _ in 0..steps / size {
        machine.steps(size, &mut out)?;
    }
    machine.steps(steps % size, &mut out)
}

// The digest of a machine after `steps` steps, and why it stops at the next one.
fn shown(machine: &mut AnyMachine<'_>, steps: u32, way: Way) -> Option<(u64, Halt)> {
    go(machine, steps, way).ok()?;
    let digest = machine.digest().ok()?;
    let end = go(machine, 1, way).err()?;
    Some((digest, end))
}

// The same of a machine that boots a program over a translator of a kind.
fn shown_over(
    alloc: Global,
    program: &[u8],
    kind: Kind,
    steps: u32,
    way: Way,
) -> Option<(u64, Halt)> {
    let counts = Counts::new();
    let translator = Chosen::new(alloc, kind, &counts);
    match boot_flat_with(alloc, program, translator, FRAMES) {
        Ok(mut machine) => {
            let shown = shown(&mut machine, steps, way);
            let_go(machine);
            shown
        }
        Err(_) => None,
    }
}

// Whether a program shows this in a way over each translator.
fn shows_over_each(alloc: Global, program: &[u8], steps: u32, way: Way, told: (u64, Halt)) -> bool {
    for kind in &KINDS {
        if shown_over(alloc, program, *kind, steps, way) != Some(told) {
            return false;
        }
    }
    true
}

// Whether a program ends so in each way over each translator, and has one digest before.
fn ends_by_each(alloc: Global, program: &[u8], steps: u32, end: Halt) -> bool {
    let Some(told) = shown_over(alloc, program, Kind::Plain, steps, Way::Events) else {
        return false;
    };
    for way in &WAYS {
        if !shows_over_each(alloc, program, steps, *way, told) {
            return false;
        }
    }
    told.1 == end
}

// Whether a program ends as its row says.
fn is_right(alloc: Global, row: &Row) -> bool {
    let Ok(file) = assemble(alloc, row.text) else {
        return false;
    };
    match file.as_slice().get(PROGRAM_AT..) {
        Some(program) => ends_by_each(alloc, program, row.steps, Halt::InitEnded(row.status)),
        None => false,
    }
}

/// The first program that ends in another way than its row says.
pub fn wrong(alloc: Global) -> Option<u64> {
    for (place, row) in ROWS.iter().enumerate() {
        if !is_right(alloc, row) {
            return Some(place as u64);
        }
    }
    None
}
