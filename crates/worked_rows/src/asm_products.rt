//! Multiplications and divisions: their texts and their words.
use crate::asm_texts::{expect_row, gives};
use isa::{decode, disassemble};
use std::alloc::Global;

// One of each instruction, with its word.
static PRODUCTS: [(&str, u32); 13] = [
    ("mul a0, a0, a1", 0x02b5_0533),
    ("mulh a0, a0, a1", 0x02b5_1533),
    ("mulhsu a0, a0, a1", 0x02b5_2533),
    ("mulhu a0, a0, a1", 0x02b5_3533),
    ("div a0, a0, a1", 0x02b5_4533),
    ("divu a0, a0, a1", 0x02b5_5533),
    ("rem a0, a0, a1", 0x02b5_6533),
    ("remu a0, a0, a1", 0x02b5_7533),
    ("mulw a0, a0, a1", 0x02b5_053b),
    ("divw a0, a0, a1", 0x02b5_453b),
    ("divuw a0, a0, a1", 0x02b5_553b),
    ("remw a0, a0, a1", 0x02b5_653b),
    ("remuw a0, a0, a1", 0x02b5_753b),
];

// Whether a word is shown as this text.
fn shows(alloc: Global, word: u32, wanted: &str) -> bool {
    let Some(instr) = decode(word) else {
        return false;
    };
    let mut text = String::new(alloc);
    disassemble(instr, &mut text).is_ok() && text.as_str() == wanted
}

// The word between them is none.
#[test]
fn words_are_shown_and_assembled(rt: HostRuntime) {
    let alloc = rt.alloc();
    for (text, word) in &PRODUCTS {
        let holds = shows(alloc, *word, text) && gives(alloc, text, &[*word]);
        expect_row(&rt, text, holds);
    }
    expect_row(&rt, "0x02b5_153b", decode(0x02b5_153b).is_none());
}
