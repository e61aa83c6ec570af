//! The statement that a word and its parts make, if the parts are of the word's form.
ghost use Rattle.std.specs.Prelude.{◌≡◌, IfOk, option_map};
ghost use Rattle.unixmodel.specs.Statements as the;
ghost use Rattle.unixmodel.specs.declared.instr.Instr.TheVariants as instr;
ghost use Rattle.asmtext.specs.Forms.{form_of};
ghost use Rattle.asmtext.specs.Operations.{bare_instr, based_instr, register_instr, upper_instr};
ghost use Rattle.asmtext.specs.Statements.{statement_of};
ghost use Rattle.asmtext.specs.Symbols.{parts_seen};

use crate::mnemonics::{Width, Word};
use crate::operands::{label, memory, number, register, string, target};
use crate::operations::{BareOp, BaseOp, NumberOp, Partial, RegisterOp, UpperOp};
use crate::statement::{Leap, Statement, Target};
use crate::tokens::Symbol;
use std::alloc::{AllocError, Global};
use unixmodel::instr::{BranchOp, Imm12, ImmOp, Instr, Reg};

// op
fn bare(op: BareOp, parts: &[&[Symbol]]) -> Option<Statement>
    ensures { option_map statement_of result ≡ the.bare (the.Statement.Whole (bare_instr op)) (parts_seen parts.now) }
{
    match parts {
        [] => Some(Statement::Whole(op.instr())),
        _ => None,
    }
}

// op rd, rs1, rs2
fn registers(
    alloc: Global,
    op: RegisterOp,
    parts: &[&[Symbol]],
) -> Result<Option<Statement>, AllocError>
    ensures { IfOk result (λ found. option_map statement_of found
        ≡ the.registers (register_instr op) (parts_seen parts.now)) }
{
    let [rd, rs1, rs2] = parts else {
        return Ok(None);
    };
    let Some(rd) = register(alloc, *rd)? else {
        return Ok(None);
    };
    let Some(rs1) = register(alloc, *rs1)? else {
        return Ok(None);
    };
    let Some(rs2) = register(alloc, *rs2)? else {
        return Ok(None);
    };
    Ok(Some(Statement::Whole(op.instr(rd, rs1, rs2))))
}

// op rd, rs1, n
fn numbered(
    alloc: Global,
    op: NumberOp,
    parts: &[&[Symbol]],
) -> Result<Option<Statement>, AllocError>
    ensures { IfOk result (λ found. option_map statement_of found ≡ form_of (Word.Number op) (parts_seen parts.now)) }
{
    let [rd, rs1, n] = parts else {
        return Ok(None);
    };
    let Some(rd) = register(alloc, *rd)? else {
        return Ok(None);
    };
    let Some(rs1) = register(alloc, *rs1)? else {
        return Ok(None);
    };
    let Some(n) = number(alloc, *n)? else {
        return Ok(None);
    };
    Ok(Some(Statement::Numbered(Partial::Numbered(op, rd, rs1), n)))
}

// op r, n(base)
fn based(alloc: Global, op: BaseOp, parts: &[&[Symbol]]) -> Result<Option<Statement>, AllocError>
    ensures { IfOk result (λ found. option_map statement_of found
        ≡ the.memorial (based_instr op) (parts_seen parts.now)) }
{
    let [r, place] = parts else {
        return Ok(None);
    };
    let Some(r) = register(alloc, *r)? else {
        return Ok(None);
    };
    let Some((n, base)) = memory(alloc, *place)? else {
        return Ok(None);
    };
    Ok(Some(Statement::Numbered(Partial::Based(op, r, base), n)))
}

// op rd, n
fn upper(alloc: Global, op: UpperOp, parts: &[&[Symbol]]) -> Result<Option<Statement>, AllocError>
    ensures { IfOk result (λ found. option_map statement_of found ≡ the.upper (upper_instr op) (parts_seen parts.now)) }
{
    let [rd, n] = parts else {
        return Ok(None);
    };
    let Some(rd) = register(alloc, *rd)? else {
        return Ok(None);
    };
    let Some(n) = number(alloc, *n)? else {
        return Ok(None);
    };
    Ok(Some(Statement::Numbered(Partial::Upper(op, rd), n)))
}

// op rs1, rs2, target
fn branch(alloc: Global, op: BranchOp, parts: &[&[Symbol]]) -> Result<Option<Statement>, AllocError>
    ensures { IfOk result (λ found. option_map statement_of found
        ≡ the.branch (instr.Branch op) (parts_seen parts.now)) }
{
    let [rs1, rs2, to] = parts else {
        return Ok(None);
    };
    let Some(rs1) = register(alloc, *rs1)? else {
        return Ok(None);
    };
    let Some(rs2) = register(alloc, *rs2)? else {
        return Ok(None);
    };
    let Some(to) = target(alloc, *to)? else {
        return Ok(None);
    };
    Ok(Some(Statement::Jump(Leap::Branch(op, rs1, rs2), to)))
}

// jal rd, target
fn jump_and_link(alloc: Global, parts: &[&[Symbol]]) -> Result<Option<Statement>, AllocError>
    ensures { IfOk result (λ found. option_map statement_of found ≡ the.jump (parts_seen parts.now)) }
{
    let [rd, to] = parts else {
        return Ok(None);
    };
    let Some(rd) = register(alloc, *rd)? else {
        return Ok(None);
    };
    let Some(to) = target(alloc, *to)? else {
        return Ok(None);
    };
    Ok(Some(Statement::Jump(Leap::Jal(rd), to)))
}

// j target
fn jump(alloc: Global, parts: &[&[Symbol]]) -> Result<Option<Statement>, AllocError>
    ensures { IfOk result (λ found. option_map statement_of found ≡ the.plain_jump (parts_seen parts.now)) }
{
    let [to] = parts else {
        return Ok(None);
    };
    let Some(to) = target(alloc, *to)? else {
        return Ok(None);
    };
    Ok(Some(Statement::Jump(Leap::Jal(Reg::new(0)), to)))
}

// li rd, n
fn load_number(alloc: Global, parts: &[&[Symbol]]) -> Result<Option<Statement>, AllocError>
    ensures { IfOk result (λ found. option_map statement_of found ≡ the.load_number (parts_seen parts.now)) }
{
    let [rd, n] = parts else {
        return Ok(None);
    };
    let Some(rd) = register(alloc, *rd)? else {
        return Ok(None);
    };
    let Some(n) = number(alloc, *n)? else {
        return Ok(None);
    };
    Ok(Some(Statement::Load(rd, Target::Number(n))))
}

// la rd, label
fn load_address(alloc: Global, parts: &[&[Symbol]]) -> Result<Option<Statement>, AllocError>
    ensures { IfOk result (λ found. option_map statement_of found ≡ the.load_address (parts_seen parts.now)) }
{
    let [rd, name] = parts else {
        return Ok(None);
    };
    let Some(rd) = register(alloc, *rd)? else {
        return Ok(None);
    };
    let Some(name) = label(alloc, *name)? else {
        return Ok(None);
    };
    Ok(Some(Statement::Load(rd, Target::Label(name))))
}

// mv rd, rs
fn copy(alloc: Global, parts: &[&[Symbol]]) -> Result<Option<Statement>, AllocError>
    ensures { IfOk result (λ found. option_map statement_of found ≡ the.move (parts_seen parts.now)) }
{
    let [rd, rs1] = parts else {
        return Ok(None);
    };
    let Some(rd) = register(alloc, *rd)? else {
        return Ok(None);
    };
    let Some(rs1) = register(alloc, *rs1)? else {
        return Ok(None);
    };
    Ok(Some(Statement::Whole(Instr::Imm {
        op: ImmOp::Addi,
        rd,
        rs1,
        imm: Imm12::new(0),
    })))
}

// .word n
fn data_number(
    alloc: Global,
    width: Width,
    parts: &[&[Symbol]],
) -> Result<Option<Statement>, AllocError>
    ensures { IfOk result (λ found. option_map statement_of found ≡ form_of (Word.Data width) (parts_seen parts.now)) }
{
    let [n] = parts else {
        return Ok(None);
    };
    let Some(n) = number(alloc, *n)? else {
        return Ok(None);
    };
    Ok(Some(Statement::Data(width, n)))
}

// .ascii "text"
fn text(alloc: Global, parts: &[&[Symbol]]) -> Result<Option<Statement>, AllocError>
    ensures { IfOk result (λ found. option_map statement_of found ≡ the.quoted (parts_seen parts.now)) }
{
    let [bytes] = parts else {
        return Ok(None);
    };
    let Some(bytes) = string(alloc, *bytes)? else {
        return Ok(None);
    };
    Ok(Some(Statement::Text(bytes)))
}

// .zero n
fn zeros(alloc: Global, parts: &[&[Symbol]]) -> Result<Option<Statement>, AllocError>
    ensures { IfOk result (λ found. option_map statement_of found
        ≡ the.counted the.Statement.Zeros (parts_seen parts.now)) }
{
    let [n] = parts else {
        return Ok(None);
    };
    let Some(n) = number(alloc, *n)? else {
        return Ok(None);
    };
    Ok(Some(Statement::Zeros(n)))
}

// .pad n
fn padding(alloc: Global, parts: &[&[Symbol]]) -> Result<Option<Statement>, AllocError>
    ensures { IfOk result (λ found. option_map statement_of found
        ≡ the.counted the.Statement.Padding (parts_seen parts.now)) }
{
    let [n] = parts else {
        return Ok(None);
    };
    let Some(n) = number(alloc, *n)? else {
        return Ok(None);
    };
    Ok(Some(Statement::Padding(n)))
}

/// The statement that a word and parts make, if they are of the word's form.
pub fn statement_with(
    alloc: Global,
    word: Word,
    parts: &[&[Symbol]],
) -> Result<Option<Statement>, AllocError>
    ensures { IfOk result (λ found. option_map statement_of found ≡ form_of word (parts_seen parts.now)) }
{
    match word {
        Word::Register(op) => registers(alloc, op, parts),
        Word::Number(op) => numbered(alloc, op, parts),
        Word::Base(op) => based(alloc, op, parts),
        Word::Upper(op) => upper(alloc, op, parts),
        Word::Branch(op) => branch(alloc, op, parts),
        Word::Bare(op) => Ok(bare(op, parts)),
        Word::JumpAndLink => jump_and_link(alloc, parts),
        Word::Jump => jump(alloc, parts),
        Word::LoadNumber => load_number(alloc, parts),
        Word::LoadAddress => load_address(alloc, parts),
        Word::Move => copy(alloc, parts),
        Word::Data(width) => data_number(alloc, width, parts),
        Word::Ascii => text(alloc, parts),
        Word::Zeros => zeros(alloc, parts),
        Word::Padding => padding(alloc, parts),
    }
}
