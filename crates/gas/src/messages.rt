//! What is wrong, in words, and what to write.

use crate::fault::{Usage, Wrong};
use crate::source::Program;
use itoa::Buffer;
use std::alloc::{AllocError, Global};

fn words_of(wrong: Wrong) -> &'static str {
    match wrong {
        Wrong::Character => "this character has no meaning here",
        Wrong::Quote =>
            "a string is written between quotes, as \"hi\\n\", with \\n \\t \\r \\0 \\\\ \\\" and \\x41",
        Wrong::Number => "a number is written as 42, 0x2a, 0b101010, 052 or '*', and fits 64 bits",
        Wrong::Statement =>
            "a line is a label (loop:), an instruction (addi a0, a0, 1) or a directive (.word 1)",
        Wrong::Instruction => "no instruction has this name",
        Wrong::Directive => "no directive has this name",
        Wrong::Section => "the sections are .text, .rodata, .data and .bss",
        Wrong::Register =>
            "a register belongs here: x0 to x31, zero, ra, sp, gp, tp, t0 to t6, s0 to s11, a0 to a7, fp",
        _ => words_of_value(wrong),
    }
}

fn words_of_value(wrong: Wrong) -> &'static str {
    match wrong {
        Wrong::Expression =>
            "an expression is numbers and names with + - * / % << >> & | ^ ~ and parentheses",
        Wrong::Address =>
            "a number belongs here, and this is an address: la loads it, %lo(..) is its low part",
        Wrong::Mixed =>
            "of addresses only the distance between two of one section can be taken, and a number added",
        Wrong::Divisor => "nothing is divided by 0",
        Wrong::Undefined => "nothing defines this name",
        Wrong::Later => "this name has to be defined above the line",
        Wrong::Power => "a power of two belongs here: 1, 2, 4, 8 up to 4096",
        Wrong::Far =>
            "the target is too far from here, or at an odd address: j reaches further than a branch, call everywhere",
        _ => words_of_place(wrong),
    }
}

fn words_of_place(wrong: Wrong) -> &'static str {
    match wrong {
        Wrong::Modifier =>
            "the parts of an address are %hi(..), %lo(..), %pcrel_hi(..) and %pcrel_lo(..)",
        Wrong::Pair => "no instruction with %pcrel_hi is at this label",
        Wrong::Align => "an instruction lies at a multiple of 4: .align 2 before it",
        Wrong::Limit => "a program has at most 270336 bytes",
        Wrong::Start =>
            "a program begins at its first instruction: _start belongs there, or j _start",
        _ => words_of_text(wrong),
    }
}

fn words_of_text(wrong: Wrong) -> &'static str {
    match wrong {
        Wrong::File => "the file can't be read, neither beside this one nor from where xv6 runs",
        Wrong::Deep =>
            "files and macros lie in one another more than 32 deep: does one call itself?",
        Wrong::Long =>
            "the texts have more than 200000 statements, or 8 MiB, with all that they include and call",
        Wrong::Open => "nothing ends this: .endm ends a .macro, .endr a .rept",
        Wrong::Closed => "this ends nothing: a .macro or a .rept has to be above it",
        Wrong::Again => "a macro of this name is defined above",
        Wrong::Macros => "there are more than 1000 macros",
        _ => "this has no meaning here",
    }
}

fn add_number(text: &mut String, number: i64) -> Result<(), AllocError> {
    let mut buffer = Buffer::new();
    text.push_str(buffer.format(number))
}

fn usage(alloc: Global, word: &str, usage: Usage) -> Result<String, AllocError> {
    let mut text = String::from_str(alloc, word)?;
    text.push_str(" takes ")?;
    text.push_str(usage.takes)?;
    text.push_str(": ")?;
    text.push_str(word)?;
    text.push_str(" ")?;
    text.push_str(usage.example)?;
    Ok(text)
}

fn range(alloc: Global, low: i64, high: i64) -> Result<String, AllocError> {
    let mut text = String::from_str(alloc, "a number from ")?;
    add_number(&mut text, low)?;
    text.push_str(" to ")?;
    add_number(&mut text, high)?;
    text.push_str(" belongs here")?;
    Ok(text)
}

// Adds the file and the line of a row.
fn add_place(text: &mut String, program: &Program, row: usize) -> Result<(), AllocError> {
    let Some(row) = program.row(row) else {
        return Ok(());
    };
    let mut buffer = Buffer::new();
    text.push_str(program.name(row.line.place.file))?;
    text.push_str(":")?;
    text.push_str(buffer.format(row.line.place.line))
}

fn twice(alloc: Global, program: &Program, row: usize) -> Result<String, AllocError> {
    let mut text = String::from_str(alloc, "this name is defined first in ")?;
    add_place(&mut text, program, row)?;
    Ok(text)
}

fn arguments(alloc: Global, most: usize) -> Result<String, AllocError> {
    let mut buffer = Buffer::new();
    let mut text = String::from_str(alloc, "the macro has fewer arguments: ")?;
    text.push_str(buffer.format(most))?;
    Ok(text)
}

/// What is wrong, in words.
pub fn message(alloc: Global, program: &Program, wrong: Wrong) -> Result<String, AllocError> {
    match wrong {
        Wrong::Takes(word, what) => usage(alloc, word, what),
        Wrong::Range(low, high) => range(alloc, low, high),
        Wrong::Twice(first) => twice(alloc, program, first.row),
        Wrong::Arguments(most) => arguments(alloc, most),
        _ => String::from_str(alloc, words_of(wrong)),
    }
}
