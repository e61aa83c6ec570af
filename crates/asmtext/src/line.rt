//! The lines of an assembly text.
ghost use Rattle.std.specs.Prelude.{◌≡◌, ◌==◌, IfOk, map};
ghost use Rattle.std.specs.Char.{is_ascii};
ghost use Rattle.std.specs.List.{list_all};
ghost use Rattle.unixmodel.specs.Statements as the;
ghost use Rattle.unixmodel.specs.Tokens.{lines_of, parts_of};
ghost use Rattle.asmtext.specs.Statements.{line_seen, said_seen};
ghost use Rattle.asmtext.specs.Symbols.{symbol_of};

use crate::forms::statement_with;
use crate::mnemonics::word_called;
use crate::parts::parts;
use crate::statement::{Line, Statement};
use crate::tokens::{Symbol, symbols_in};
use crate::words::{is_word, label_in, without_blanks, word_in};
use std::alloc::{AllocError, Global};
use unixmodel::assembly::AsmKind;

// The statement of a word and the symbols that follow it.
fn with_symbols(
    alloc: Global,
    word: &[u8],
    symbols: &[Symbol],
) -> Result<Result<Statement, AsmKind>, AllocError>
    ensures { IfOk result (λ says. said_seen says
        ≡ the.with_form (parts_of (map symbol_of symbols.now)) (the.form_called word.now)) }
{
    let Some(word) = word_called(word) else {
        return Ok(Err(AsmKind::Mnemonic));
    };
    let parts = parts(alloc, symbols)?;
    match statement_with(alloc, word, &parts)? {
        Some(statement) => Ok(Ok(statement)),
        None => Ok(Err(AsmKind::Operand)),
    }
}

// The statement of a word and what follows it.
fn with_word(
    alloc: Global,
    word: &[u8],
    behind: &[u8],
) -> Result<Result<Statement, AsmKind>, AllocError>
    ensures { IfOk result (λ says. said_seen says ≡ the.with_word word.now behind.now) }
{
    if !is_word(word) {
        return Ok(Err(AsmKind::Syntax));
    }
    let Some(symbols) = symbols_in(alloc, behind)? else {
        return Ok(Err(AsmKind::Syntax));
    };
    with_symbols(alloc, word, &symbols)
}

#[tactic(auto, unfolding(unixmodel::specs::Statements::statement_in))]
fn statement_in(alloc: Global, text: &[u8]) -> Result<Result<Statement, AsmKind>, AllocError>
    ensures { IfOk result (λ says. said_seen says ≡ the.statement_in text.now) }
{
    let (word, behind) = word_in(text);
    if word.is_empty() {
        return Ok(Ok(Statement::Empty));
    }
    with_word(alloc, word, behind)
}

fn is_ascii_line(line: &[u8]) -> bool
    ensures { result ≡ list_all is_ascii line.now }
{
    line.iter().all(|c| c.is_ascii())
}

// What the text of a line's statement says, if the whole line is ASCII.
fn says(alloc: Global, line: &[u8], text: &[u8]) -> Result<Result<Statement, AsmKind>, AllocError>
    ensures { IfOk result (λ says. said_seen says ≡ the.if_ascii line.now (the.statement_in text.now)) }
{
    if !is_ascii_line(line) {
        return Ok(Err(AsmKind::Syntax));
    }
    statement_in(alloc, text)
}

// What a line says: its label, and its statement or what is wrong with it.
#[tactic(auto, unfolding(unixmodel::specs::Statements::line_of))]
fn line_of<'a>(alloc: Global, line: &'a [u8]) -> Result<Line<'a>, AllocError>
    ensures { IfOk result (λ read. line_seen read ≡ the.line_of line.now) }
{
    let text = without_blanks(line);
    let Some((label, behind)) = label_in(text) else {
        let says = says(alloc, line, text)?;
        return Ok(Line { label: None, says });
    };
    let says = says(alloc, line, without_blanks(behind))?;
    Ok(Line {
        label: Some(label),
        says,
    })
}

fn split_lines<'a>(alloc: Global, text: &'a [u8]) -> Result<Vec<&'a [u8]>, AllocError>
    ensures { IfOk result (λ lines. map (λ line. line.now) lines.items ≡ lines_of text.now) }
{
    text.split(|c| *c == b'\n').collect(alloc)
}

fn read_lines<'a>(alloc: Global, split: &[&'a [u8]]) -> Result<Vec<Line<'a>>, AllocError>
    ensures { IfOk result (λ lines. map line_seen lines.items ≡ map (λ line. the.line_of line.now) split.now) }
{
    let mut lines = Vec::new(alloc);
    for line in split {
        lines.push(line_of(alloc, *line)?)?;
    }
    Ok(lines)
}

/// What the lines of a text say.
#[tactic(auto, using(crate::proofs::LineLemmas::read_all))]
pub fn lines<'a>(alloc: Global, text: &'a [u8]) -> Result<Vec<Line<'a>>, AllocError>
    ensures { IfOk result (λ lines. map line_seen lines.items ≡ map the.line_of (lines_of text.now)) }
{
    let split = split_lines(alloc, text)?;
    read_lines(alloc, &split)
}
