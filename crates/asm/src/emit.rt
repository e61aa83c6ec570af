//! The second pass: the bytes of each line at its address, or what is wrong with it.
ghost use Rattle.std.specs.Prelude.{◌≡◌, ◌*◌, ◌-◌, ◌++◌, ◌∷◌, [], Some, if◌then◌else◌, IfErr, IfOk, OnOk, map};
ghost use Rattle.unixmodel.specs.Assembly as the;
ghost use Rattle.asmtext.specs.Forms.{size_of};
ghost use Rattle.asmtext.specs.Numbers.{number_of};
ghost use Rattle.asmtext.specs.Statements.{leap_bits, leap_instr, statement_of};
ghost use Rattle.asm.specs.Distance.{distance_seen};
ghost use Rattle.asm.specs.Emitted.{Tells, bytes_of, coded_seen, data_bytes, numbered_bytes};
ghost use Rattle.asm.specs.Labels.{Finds};
ghost use Rattle.asm.specs.Placed.{placed_seen};

use crate::distance::{Distance, distance_to};
use crate::fault::AsmFault;
use crate::labels::{Labels, definition, labels};
use crate::layout::{LIMIT, Placed, padding, size_of_line, zeros};
use asmtext::{Leap, Number, Partial, Statement, Width};
use isa::encode;
use std::alloc::{AllocError, Global};
use unixmodel::assembly::AsmKind;
use unixmodel::instr::{BranchOffset, Imm12, Imm20, ImmOp, Instr, JumpOffset, Reg};

/// What a line puts out.
#[derive(Clone, Copy)]
enum Output<'a> {
    Nothing,
    Byte(u8),
    Word(u32),
    Words(u32, u32),
    DoubleWord(u64),
    Bytes(&'a [u8]),
    Zeros(u32),
}

// An instruction at an address.
fn code<'a>(address: u128, instr: Instr) -> Result<Output<'a>, AsmKind>
    ensures { coded_seen result ≡ the.code address (instr ∷ []) }
{
    if address % 4 == 0 {
        return Ok(Output::Word(encode(instr)));
    }
    Err(AsmKind::Align)
}

// Two instructions from an address on.
fn code_of_two<'a>(address: u128, first: Instr, second: Instr) -> Result<Output<'a>, AsmKind>
    ensures { coded_seen result ≡ the.code address (first ∷ second ∷ []) }
{
    if address % 4 == 0 {
        return Ok(Output::Words(encode(first), encode(second)));
    }
    Err(AsmKind::Align)
}

// An instruction with a number.
fn numbered_code<'a>(
    address: u128,
    partial: Partial,
    number: &Number,
) -> Result<Output<'a>, AsmKind>
    ensures { coded_seen result ≡ numbered_bytes address partial (number_of number.now) }
{
    match partial.instr(number) {
        Some(instr) => code(address, instr),
        None => Err(AsmKind::Range),
    }
}

// An instruction that jumps this far.
fn leap_code<'a>(address: u128, leap: Leap, distance: &Distance) -> Result<Output<'a>, AsmKind>
    ensures { coded_seen result
        ≡ the.jump_code address (leap_bits leap) (leap_instr leap) (Some (distance_seen distance.now)) }
{
    match leap {
        Leap::Branch(op, rs1, rs2) => {
            let offset = BranchOffset::new(distance.offset(13)? as u16);
            code(
                address,
                Instr::Branch {
                    op,
                    rs1,
                    rs2,
                    offset,
                },
            )
        }
        Leap::Jal(rd) => {
            let offset = JumpOffset::new(distance.offset(21)? as u32);
            code(address, Instr::Jal { rd, offset })
        }
    }
}

// The two instructions that load a number: its upper part, rounded, and its lowest 12 bits, which are
// added as signed.
#[tactic(auto, using(asmtext::proofs::NumberLemmas::field_fits))]
fn load_code<'a>(address: u128, rd: Reg, number: &Distance) -> Result<Output<'a>, AsmKind>
    ensures { coded_seen result ≡ the.load_code address rd (Some (distance_seen number.now)) }
{
    let Some(bits) = number.field_in(0x8000_0000, 0x7fff_f7ff, 32) else {
        return Err(AsmKind::Range);
    };
    let upper = Imm20::new(((bits + 2048) / 4096 % 0x10_0000) as u32);
    let lower = Imm12::new((bits % 4096) as u16);
    code_of_two(
        address,
        Instr::Lui { rd, imm: upper },
        Instr::Imm {
            op: ImmOp::Addi,
            rd,
            rs1: rd,
            imm: lower,
        },
    )
}

// A number as bytes, signed or unsigned.
#[tactic(auto, using(asmtext::proofs::NumberLemmas::field_fits))]
fn data_code<'a>(width: Width, number: &Number) -> Result<Output<'a>, AsmKind>
    ensures { coded_seen result ≡ data_bytes (size_of width) (number_of number.now) }
{
    match width {
        Width::Byte => match number.field_in(0x80, 0xff, 8) {
            Some(bits) => Ok(Output::Byte(bits as u8)),
            None => Err(AsmKind::Range),
        },
        Width::Word => match number.field_in(0x8000_0000, 0xffff_ffff, 32) {
            Some(bits) => Ok(Output::Word(bits as u32)),
            None => Err(AsmKind::Range),
        },
        Width::DoubleWord => match number.field_in(0x8000_0000_0000_0000, u64::MAX, 64) {
            Some(bits) => Ok(Output::DoubleWord(bits)),
            None => Err(AsmKind::Range),
        },
    }
}

fn zeros_or_range<'a>(count: Option<u32>) -> Result<Output<'a>, AsmKind>
    ensures { coded_seen result ≡ the.zeros_or_range count }
{
    match count {
        Some(count) => Ok(Output::Zeros(count)),
        None => Err(AsmKind::Range),
    }
}

#[tactic(auto, unfolding(unixmodel::specs::Assembly::statement_code))]
fn statement_code<'a>(
    placed: &[Placed],
    labels: &Labels,
    address: u128,
    statement: &'a Statement,
) -> Result<Output<'a>, AsmKind>
    requires { Finds labels.now (map placed_seen placed.now) }
    ensures { coded_seen result ≡ the.statement_code (map placed_seen placed.now) address (statement_of statement.now) }
{
    match statement {
        Statement::Empty => Ok(Output::Nothing),
        Statement::Whole(instr) => code(address, *instr),
        Statement::Numbered(partial, number) => numbered_code(address, *partial, number),
        Statement::Jump(leap, target) => match distance_to(placed, labels, address, target) {
            Some(distance) => leap_code(address, *leap, &distance),
            None => Err(AsmKind::Label),
        },
        Statement::Load(rd, target) => match distance_to(placed, labels, 0, target) {
            Some(number) => load_code(address, *rd, &number),
            None => Err(AsmKind::Label),
        },
        Statement::Data(width, number) => data_code(*width, number),
        Statement::Text(bytes) => Ok(Output::Bytes(bytes)),
        Statement::Zeros(number) => zeros_or_range(zeros(address, number)),
        Statement::Padding(number) => zeros_or_range(padding(address, number)),
    }
}

fn rank(kind: AsmKind) -> u8
    ensures { result ≡ the.rank kind }
{
    match kind {
        AsmKind::Syntax => 1,
        AsmKind::Mnemonic => 2,
        AsmKind::Operand => 3,
        AsmKind::Range => 4,
        AsmKind::Label => 5,
        AsmKind::Twice => 6,
        AsmKind::Align => 7,
        AsmKind::NoMemory => 8,
    }
}

// The code, unless the test fails too: then the lower of the faults.
fn unless<'a>(
    wrong: bool,
    kind: AsmKind,
    coded: Result<Output<'a>, AsmKind>,
) -> Result<Output<'a>, AsmKind>
    ensures { coded_seen result ≡ the.unless wrong kind (coded_seen coded.entry) }
{
    match coded {
        Ok(output) => {
            if wrong {
                return Err(kind);
            }
            Ok(output)
        }
        Err(other) => {
            if wrong && rank(kind) < rank(other) {
                return Err(kind);
            }
            Err(other)
        }
    }
}

// Whether an earlier line has the label.
fn is_twice(placed: &[Placed], labels: &Labels, line: &Placed) -> bool
    requires { Finds labels.now (map placed_seen placed.now) }
    ensures { result ≡ the.is_twice (map placed_seen placed.now) (placed_seen line.now) }
{
    let Some(label) = line.line.label else {
        return false;
    };
    match definition(placed, labels, label) {
        Some(first) => first.number != line.number,
        None => false,
    }
}

fn is_past_limit(line: &Placed) -> bool
    ensures { result ≡ the.is_past_limit (placed_seen line.now) }
{
    LIMIT < line.address || LIMIT - line.address < size_of_line(line.address, &line.line.says)
}

#[tactic(auto, unfolding(unixmodel::specs::Assembly::line_code))]
fn line_code<'a>(
    placed: &[Placed],
    labels: &Labels,
    line: &Placed<'a>,
) -> Result<Output<'a>, AsmKind>
    requires { Finds labels.now (map placed_seen placed.now) }
    ensures { coded_seen result ≡ the.line_code (map placed_seen placed.now) (placed_seen line.now) }
{
    let said = match &line.line.says {
        Ok(statement) => statement_code(placed, labels, line.address, statement),
        Err(kind) => Err(*kind),
    };
    let within = unless(is_past_limit(line), AsmKind::Range, said);
    unless(is_twice(placed, labels, line), AsmKind::Twice, within)
}

fn put(out: &mut Vec<u8>, output: Output) -> Result<(), AllocError>
    ensures { OnOk result (out.new.items ≡ out.old.items ++ bytes_of output.entry) }
{
    match output {
        Output::Nothing => Ok(()),
        Output::Byte(byte) => out.extend_from_slice(&byte.to_le_bytes()),
        Output::Word(word) => out.extend_from_slice(&word.to_le_bytes()),
        Output::Words(first, second) => {
            out.extend_from_slice(&first.to_le_bytes())?;
            out.extend_from_slice(&second.to_le_bytes())
        }
        Output::DoubleWord(number) => out.extend_from_slice(&number.to_le_bytes()),
        Output::Bytes(bytes) => out.extend_from_slice(bytes),
        Output::Zeros(count) => out.resize(out.len() + count as usize, 0),
    }
}

/// The bytes of lines at their addresses, or the first fault.
#[tactic(auto, unfolding(unixmodel::specs::Assembly::codes_from))]
pub fn codes(alloc: Global, placed: &[Placed]) -> Result<Vec<u8>, AsmFault>
    ensures ok { IfOk result
        (λ out. the.codes_from (map placed_seen placed.now) (map placed_seen placed.now) ≡ Ok out.items) }
    ensures err { IfErr result (Tells (the.codes_from (map placed_seen placed.now) (map placed_seen placed.now))) }
{
    let labels = labels(alloc, placed)?;
    let mut out = Vec::new(alloc);
    for line in placed {
        match line_code(placed, &labels, line) {
            Ok(output) => put(&mut out, output)?,
            Err(kind) => {
                return Err(AsmFault {
                    line: line.number,
                    kind,
                });
            }
        }
    }
    Ok(out)
}
