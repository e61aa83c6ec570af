//! The words of instructions.

use std::alloc::AllocError;

/// How an instruction is written, and what it stands for.
#[derive(Clone, Copy)]
pub enum Form {
    /// op rd, rs1, rs2
    Registers,
    /// The same with rs1 and rs2 in the other order.
    Reversed(&'static str),
    /// op rd, rs1, n
    Number,
    /// op rd, rs1, n with n up to that.
    Shift(i64),
    /// op rd, n(base), and op rd, label
    Load,
    /// op rs2, n(base), and op rs2, label, rt
    Store,
    /// op rs1, rs2, label
    Branch,
    /// The same with the registers in the other order.
    Swapped(&'static str),
    /// op rs, label: the other register is zero, the first or the second.
    FirstZero(&'static str),
    SecondZero(&'static str),
    /// op rd, n
    Upper,
    /// op rd, rs: with a number, with zero last, with zero first.
    WithNumber(&'static str, i64),
    WithZero(&'static str),
    FromZero(&'static str),
    /// op rd, rs: shifted left and back.
    Extend(&'static str, i64),
    Other(Other),
}

/// Instructions that are alone in their form.
#[derive(Clone, Copy)]
pub enum Other {
    Nop,
    Bare,
    Fence,
    LoadNumber,
    LoadAddress,
    Jump,
    JumpAndLink,
    JumpRegister,
    JumpAndLinkRegister,
    Call,
    Tail,
}

/// A word as the tables have it.
#[derive(Clone, Copy)]
pub struct Word {
    pub name: &'static str,
    pub form: Form,
}

const REGISTERS: [&str; 28] = [
    "add", "sub", "sll", "slt", "sltu", "xor", "srl", "sra", "or", "and", "mul", "mulh", "mulhsu",
    "mulhu", "div", "divu", "rem", "remu", "addw", "subw", "sllw", "srlw", "sraw", "mulw", "divw",
    "divuw", "remw", "remuw",
];

const NUMBERS: [&str; 7] = ["addi", "slti", "sltiu", "xori", "ori", "andi", "addiw"];

const SHIFTS: [&str; 3] = ["slli", "srli", "srai"];

const WORD_SHIFTS: [&str; 3] = ["slliw", "srliw", "sraiw"];

const LOADS: [&str; 7] = ["lb", "lh", "lw", "ld", "lbu", "lhu", "lwu"];

const STORES: [&str; 4] = ["sb", "sh", "sw", "sd"];

const BRANCHES: [&str; 6] = ["beq", "bne", "blt", "bge", "bltu", "bgeu"];

const UPPERS: [&str; 2] = ["lui", "auipc"];

const BRANCH_FORMS: [(&str, Form); 10] = [
    ("bgt", Form::Swapped("blt")),
    ("ble", Form::Swapped("bge")),
    ("bgtu", Form::Swapped("bltu")),
    ("bleu", Form::Swapped("bgeu")),
    ("beqz", Form::SecondZero("beq")),
    ("bnez", Form::SecondZero("bne")),
    ("bltz", Form::SecondZero("blt")),
    ("bgez", Form::SecondZero("bge")),
    ("bgtz", Form::FirstZero("blt")),
    ("blez", Form::FirstZero("bge")),
];

const PAIR_FORMS: [(&str, Form); 11] = [
    ("mv", Form::WithNumber("addi", 0)),
    ("move", Form::WithNumber("addi", 0)),
    ("not", Form::WithNumber("xori", -1)),
    ("sext.w", Form::WithNumber("addiw", 0)),
    ("seqz", Form::WithNumber("sltiu", 1)),
    ("zext.b", Form::WithNumber("andi", 255)),
    ("neg", Form::FromZero("sub")),
    ("negw", Form::FromZero("subw")),
    ("snez", Form::FromZero("sltu")),
    ("sgtz", Form::FromZero("slt")),
    ("sltz", Form::WithZero("slt")),
];

const MORE_FORMS: [(&str, Form); 6] = [
    ("sgt", Form::Reversed("slt")),
    ("sgtu", Form::Reversed("sltu")),
    ("sext.b", Form::Extend("srai", 56)),
    ("sext.h", Form::Extend("srai", 48)),
    ("zext.h", Form::Extend("srli", 48)),
    ("zext.w", Form::Extend("srli", 32)),
];

const OTHER_FORMS: [(&str, Form); 15] = [
    ("nop", Form::Other(Other::Nop)),
    ("ret", Form::Other(Other::Bare)),
    ("ecall", Form::Other(Other::Bare)),
    ("ebreak", Form::Other(Other::Bare)),
    ("fence", Form::Other(Other::Fence)),
    ("li", Form::Other(Other::LoadNumber)),
    ("la", Form::Other(Other::LoadAddress)),
    ("lla", Form::Other(Other::LoadAddress)),
    ("j", Form::Other(Other::Jump)),
    ("jal", Form::Other(Other::JumpAndLink)),
    ("jr", Form::Other(Other::JumpRegister)),
    ("jalr", Form::Other(Other::JumpAndLinkRegister)),
    ("call", Form::Other(Other::Call)),
    ("tail", Form::Other(Other::Tail)),
    ("jump", Form::Other(Other::Tail)),
];

// Whether a word is that name, in large or small letters.
fn is(word: &[u8], name: &str) -> bool {
    name.as_bytes().eq_ignore_ascii_case(word)
}

// The first of these names that a word is, with its form.
fn named(names: &[&'static str], form: Form, word: &[u8]) -> Option<Word> {
    for name in names {
        if is(word, name) {
            return Some(Word { name, form });
        }
    }
    None
}

fn formed(forms: &[(&'static str, Form)], word: &[u8]) -> Option<Word> {
    for (name, form) in forms {
        if is(word, name) {
            return Some(Word { name, form: *form });
        }
    }
    None
}

fn operation_called(word: &[u8]) -> Option<Word> {
    if let Some(found) = named(&REGISTERS, Form::Registers, word) {
        return Some(found);
    }
    if let Some(found) = named(&NUMBERS, Form::Number, word) {
        return Some(found);
    }
    if let Some(found) = named(&SHIFTS, Form::Shift(63), word) {
        return Some(found);
    }
    named(&WORD_SHIFTS, Form::Shift(31), word)
}

fn transfer_called(word: &[u8]) -> Option<Word> {
    if let Some(found) = named(&LOADS, Form::Load, word) {
        return Some(found);
    }
    if let Some(found) = named(&STORES, Form::Store, word) {
        return Some(found);
    }
    if let Some(found) = named(&BRANCHES, Form::Branch, word) {
        return Some(found);
    }
    named(&UPPERS, Form::Upper, word)
}

fn pseudo_called(word: &[u8]) -> Option<Word> {
    if let Some(found) = formed(&BRANCH_FORMS, word) {
        return Some(found);
    }
    if let Some(found) = formed(&PAIR_FORMS, word) {
        return Some(found);
    }
    if let Some(found) = formed(&MORE_FORMS, word) {
        return Some(found);
    }
    formed(&OTHER_FORMS, word)
}

/// Adds names.
pub(crate) fn add_names<'w>(
    words: &mut Vec<&'w str>,
    names: &[&'static str],
) -> Result<(), AllocError> {
    for name in names {
        words.push(*name)?;
    }
    Ok(())
}

fn add_forms<'w>(
    words: &mut Vec<&'w str>,
    forms: &[(&'static str, Form)],
) -> Result<(), AllocError> {
    for (name, _) in forms {
        words.push(*name)?;
    }
    Ok(())
}

// Those that are operations on registers and numbers.
fn add_operations<'w>(words: &mut Vec<&'w str>) -> Result<(), AllocError> {
    add_names(words, &REGISTERS)?;
    add_names(words, &NUMBERS)?;
    add_names(words, &SHIFTS)?;
    add_names(words, &WORD_SHIFTS)
}

// Those that go to memory or elsewhere.
fn add_transfers<'w>(words: &mut Vec<&'w str>) -> Result<(), AllocError> {
    add_names(words, &LOADS)?;
    add_names(words, &STORES)?;
    add_names(words, &BRANCHES)?;
    add_names(words, &UPPERS)
}

fn add_branch_forms<'w>(words: &mut Vec<&'w str>) -> Result<(), AllocError> {
    add_forms(words, &BRANCH_FORMS)
}

fn add_pair_forms<'w>(words: &mut Vec<&'w str>) -> Result<(), AllocError> {
    add_forms(words, &PAIR_FORMS)?;
    add_forms(words, &MORE_FORMS)
}

fn add_other_forms<'w>(words: &mut Vec<&'w str>) -> Result<(), AllocError> {
    add_forms(words, &OTHER_FORMS)
}

/// Adds the names of all instructions.
pub(crate) fn add_instructions<'w>(words: &mut Vec<&'w str>) -> Result<(), AllocError> {
    add_operations(words)?;
    add_transfers(words)?;
    add_branch_forms(words)?;
    add_pair_forms(words)?;
    add_other_forms(words)
}

/// The instruction of a name.
pub(crate) fn word_called(word: &[u8]) -> Option<Word> {
    if let Some(found) = operation_called(word) {
        return Some(found);
    }
    if let Some(found) = transfer_called(word) {
        return Some(found);
    }
    pseudo_called(word)
}

const WITH_NUMBERS: [(&str, &str); 12] = [
    ("add", "addi"),
    ("slt", "slti"),
    ("sltu", "sltiu"),
    ("xor", "xori"),
    ("or", "ori"),
    ("and", "andi"),
    ("sll", "slli"),
    ("srl", "srli"),
    ("sra", "srai"),
    ("addw", "addiw"),
    ("sllw", "slliw"),
    ("srlw", "srliw"),
];

/// The operation on a register and a number that an operation on two registers is for.
pub(crate) fn with_number(name: &str) -> Option<Word> {
    if is(name.as_bytes(), "sraw") {
        return word_called(b"sraiw");
    }
    for (registers, number) in &WITH_NUMBERS {
        if is(name.as_bytes(), registers) {
            return word_called(number.as_bytes());
        }
    }
    None
}
