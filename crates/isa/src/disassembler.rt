//! From an instruction to its text, in the form in which the assembler takes it.
ghost use Rattle.std.specs.Prelude.{◌≡◌, ◌≤◌, ◌<◌, ◌^◌, ◌==◌, ◌&&◌, OnOk, Some};
ghost use Rattle.std.specs.Fmt.{DisplaysOnOk, WritesInCalls, signed_decimal};
ghost use Rattle.unixmodel.specs.Disassembly as the;
ghost use Rattle.unixmodel.specs.Numbers.{signed};
ghost use Rattle.unixmodel.specs.declared.instr.Instr.TheVariants as instr;

use crate::decoder::decode;
use crate::encoder::encode;
use crate::names;
use std::fmt;
use unixmodel::instr::{Imm12, Imm20, Instr, JumpOffset, Reg};

/// An instruction, which is shown as its text.
#[derive(Clone, Copy)]
struct Shown(Instr);

/// A word, which is shown as the instruction that it is, or as data: `.word 0x` and eight digits.
#[derive(Clone, Copy)]
pub struct Word(pub u32);

// A number of `bits` bits, read as signed.
fn signed(bits: u32, number: u32) -> i32
    requires { (1 ≤ bits) × (bits ≤ 21) × (number < 2 ^ bits) }
    ensures { result ≡ signed bits number }
{
    let number = number.cast_signed();
    if number < 2i32.pow(bits - 1) {
        return number;
    }
    number - 2i32.pow(bits)
}

// `name rd, 0x12345`
fn write_upper<W: fmt::Write>(
    f: &mut fmt::Formatter<W>,
    name: &str,
    rd: Reg,
    imm: Imm20,
) -> fmt::Result
    ensures { DisplaysOnOk W.write_str_gives f.old result
        (Some (the.two_parts name.now (the.register_text rd) (the.hexadecimal imm))) f.new }
{
    let (rd, imm) = (names::register_name(rd), imm.bits());
    write!(f, "{name} {rd}, 0x{imm:x}")
}

// `name rd, -4`
fn write_jump<W: fmt::Write>(
    f: &mut fmt::Formatter<W>,
    name: &str,
    rd: Reg,
    offset: JumpOffset,
) -> fmt::Result
    ensures { DisplaysOnOk W.write_str_gives f.old result
        (Some (the.two_parts name.now (the.register_text rd) (the.number_text 21 offset))) f.new }
{
    let (rd, offset) = (names::register_name(rd), signed(21, offset.bits()));
    write!(f, "{name} {rd}, {offset}")
}

// `name rd, rs1, rs2`
fn write_registers<W: fmt::Write>(
    f: &mut fmt::Formatter<W>,
    name: &str,
    rd: Reg,
    rs1: Reg,
    rs2: Reg,
) -> fmt::Result
    ensures { DisplaysOnOk W.write_str_gives f.old result (Some (the.registers_text name.now rd rs1 rs2)) f.new }
{
    let rd = names::register_name(rd);
    let (rs1, rs2) = (names::register_name(rs1), names::register_name(rs2));
    write!(f, "{name} {rd}, {rs1}, {rs2}")
}

// `name a, b, -1`
fn write_number<W: fmt::Write>(
    f: &mut fmt::Formatter<W>,
    name: &str,
    a: Reg,
    b: Reg,
    number: i32,
) -> fmt::Result
    ensures { DisplaysOnOk W.write_str_gives f.old result
        (Some (the.immediate_text name.now a b (signed_decimal number))) f.new }
{
    let (a, b) = (names::register_name(a), names::register_name(b));
    write!(f, "{name} {a}, {b}, {number}")
}

// `name register, -1(base)`
fn write_memory<W: fmt::Write>(
    f: &mut fmt::Formatter<W>,
    name: &str,
    register: Reg,
    base: Reg,
    imm: Imm12,
) -> fmt::Result
    ensures { DisplaysOnOk W.write_str_gives f.old result (Some (the.memory_text name.now register base imm)) f.new }
{
    let (register, base) = (names::register_name(register), names::register_name(base));
    let imm = signed_imm(imm);
    write!(f, "{name} {register}, {imm}({base})")
}

fn signed_imm(imm: Imm12) -> i32
    ensures { result ≡ signed 12 imm }
{
    signed(12, imm.bits() as u32)
}

// A word of data.
fn write_data<W: fmt::Write>(f: &mut fmt::Formatter<W>, word: u32) -> fmt::Result
    ensures { DisplaysOnOk W.write_str_gives f.old result (Some (the.data_text word)) f.new }
{
    write!(f, ".word 0x{word:08x}")
}

// Whether a fence orders everything that programs do.
fn is_full_fence(rd: Reg, rs1: Reg, imm: Imm12) -> bool
    ensures { result ≡ (rd == 0 && rs1 == 0 && imm == 0x0ff) }
{
    rd.bits() == 0 && rs1.bits() == 0 && imm.bits() == 0x0ff
}

// Of fences only the full one has a name.
#[tactic(auto, unfolding(unixmodel::specs::Disassembly::instruction_text))]
fn write_fence<W: fmt::Write>(
    f: &mut fmt::Formatter<W>,
    rd: Reg,
    rs1: Reg,
    imm: Imm12,
) -> fmt::Result
    ensures { DisplaysOnOk W.write_str_gives f.old result (Some (the.instruction_text (instr.Fence rd rs1 imm))) f.new }
{
    if is_full_fence(rd, rs1, imm) {
        return write!(f, "fence");
    }
    write_data(f, encode(Instr::Fence { rd, rs1, imm }))
}

impl fmt::Display for Shown {
    ghost output = { λ shown. Some (the.instruction_text shown.0) };

    #[tactic(auto, unfolding(unixmodel::specs::Disassembly::instruction_text))]
    fn fmt<W: fmt::Write>(&self, f: &mut fmt::Formatter<W>) -> fmt::Result {
        match self.0 {
            Instr::Lui { rd, imm } => write_upper(f, "lui", rd, imm),
            Instr::Auipc { rd, imm } => write_upper(f, "auipc", rd, imm),
            Instr::Jal { rd, offset } => write_jump(f, "jal", rd, offset),
            Instr::Jalr { rd, rs1, imm } => write_memory(f, "jalr", rd, rs1, imm),
            Instr::Branch {
                op,
                rs1,
                rs2,
                offset,
            } => {
                let offset = signed(13, offset.bits() as u32);
                write_number(f, names::branch_name(op), rs1, rs2, offset)
            }
            Instr::Load { op, rd, rs1, imm } => write_memory(f, names::load_name(op), rd, rs1, imm),
            Instr::Store { op, rs1, rs2, imm } => {
                write_memory(f, names::store_name(op), rs2, rs1, imm)
            }
            Instr::Imm { op, rd, rs1, imm } => {
                write_number(f, names::imm_name(op), rd, rs1, signed_imm(imm))
            }
            Instr::Shift {
                op,
                rd,
                rs1,
                amount,
            } => write_number(f, names::shift_name(op), rd, rs1, amount.bits() as i32),
            Instr::Reg { op, rd, rs1, rs2 } => {
                write_registers(f, names::reg_name(op), rd, rs1, rs2)
            }
            Instr::Addiw { rd, rs1, imm } => write_number(f, "addiw", rd, rs1, signed_imm(imm)),
            Instr::ShiftW {
                op,
                rd,
                rs1,
                amount,
            } => write_number(f, names::shift_w_name(op), rd, rs1, amount.bits() as i32),
            Instr::RegW { op, rd, rs1, rs2 } => {
                write_registers(f, names::reg_w_name(op), rd, rs1, rs2)
            }
            Instr::Fence { rd, rs1, imm } => write_fence(f, rd, rs1, imm),
            Instr::Ecall => write!(f, "ecall"),
            Instr::Ebreak => write!(f, "ebreak"),
        }
    }
}

impl fmt::Display for Word {
    ghost output = { λ word. Some (the.word_text word.0) };

    #[tactic(auto, unfolding(unixmodel::specs::Disassembly::word_text))]
    fn fmt<W: fmt::Write>(&self, f: &mut fmt::Formatter<W>) -> fmt::Result {
        match decode(self.0) {
            Some(instr) => {
                let shown = Shown(instr);
                write!(f, "{shown}")
            }
            None => write_data(f, self.0),
        }
    }
}

/// Writes an instruction as the assembler takes it; a fence that is none of its, as data.
pub fn disassemble<W: fmt::Write>(instr: Instr, out: &mut W) -> fmt::Result
    ensures { OnOk result (WritesInCalls W.write_str_gives out.old (the.instruction_text instr) out.new) }
{
    let shown = Shown(instr);
    write!(out, "{shown}")
}
