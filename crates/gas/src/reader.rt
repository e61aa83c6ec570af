//! Reads files, with the files that they include and the macros that they call in place.

use crate::collector::{Bracket, Collector, Goal, bracket_called};
use crate::fault::{Usage, Wrong};
use crate::macros::{Macro, arguments, heading, parameters, repeated, unquoted};
use crate::numbers::number_called;
use crate::source::{File, Line, Place, Program, Row, Sources, Status};
use crate::statement_text::{Parts, Statement, Text, parts_of};
use std::alloc::{AllocError, Global};

/// How many statements a file may have, with what it includes and calls.
const MOST_STATEMENTS: usize = 200_000;

/// How many bytes all texts may have.
pub const MOST_BYTES: usize = 0x80_0000;

/// How deep files and macros may lie in one another.
const MOST_DEPTH: usize = 32;

/// How many macros there may be.
const MOST_MACROS: usize = 1000;

const FILE: Usage = Usage {
    takes: "a file's name",
    example: "\"lib.s\"",
};

const HEADING: Usage = Usage {
    takes: "a name, and what its arguments are called",
    example: "print text, length",
};

const COUNT: Usage = Usage {
    takes: "a number",
    example: "4",
};

// What comes next: a statement, a file by the name that a row asks for, or nothing.
#[derive(Drop)]
enum Step {
    Goes,
    Includes(usize, String),
    Over,
}

// What is read so far.
#[derive(Drop)]
struct Reader {
    alloc: Global,
    program: Program,
    texts: Vec<Text>,
    macros: Vec<Macro>,
    collector: Option<Collector>,
    // How many bytes were read, and how many macros called.
    bytes: usize,
    calls: usize,
}

impl Reader {
    fn new(alloc: Global) -> Reader {
        Reader {
            alloc,
            program: Program::new(alloc),
            texts: Vec::new(alloc),
            macros: Vec::new(alloc),
            collector: None,
            bytes: 0,
            calls: 0,
        }
    }

    // Adds a row, and returns its index.
    fn push(&mut self, row: Row) -> Result<usize, AllocError> {
        let index = self.program.rows.len();
        self.program.rows.push(row)?;
        Ok(index)
    }

    // Adds a statement that is done, after the labels that it begins with.
    fn push_done(&mut self, statement: &Statement, parts: &Parts) -> Result<usize, AllocError> {
        let labels = Row {
            text: parts.labels.to_vec(self.alloc)?,
            line: statement.line,
            status: Status::Statement,
        };
        self.push(labels)?;
        self.push(statement.row(self.alloc, Status::Done)?)
    }

    // Notes what is wrong with a row.
    fn note(&mut self, index: usize, wrong: Wrong) {
        self.program.is_cut = true;
        if let Some(row) = self.program.rows.get_mut(index) {
            let blanks = row
                .text
                .iter()
                .take_while(|c| c.is_ascii_whitespace())
                .count();
            let column = row.line.indent.saturating_add(blanks).saturating_add(1);
            row.status = Status::Wrong(wrong, column);
        }
    }

    // Notes what is wrong with a row, and reads no further.
    fn stop(&mut self, index: usize, wrong: Wrong) {
        self.note(index, wrong);
        self.texts.clear();
    }

    // Reads a text that a row asks for.
    fn enter(&mut self, index: usize, text: Text) -> Result<(), AllocError> {
        self.bytes = self.bytes.saturating_add(text.len()).saturating_add(1);
        if self.texts.len() >= MOST_DEPTH {
            self.stop(index, Wrong::Deep);
        } else if self.bytes > MOST_BYTES {
            self.stop(index, Wrong::Long);
        } else {
            self.texts.push(text)?;
        }
        Ok(())
    }

    // The unit that is read.
    fn unit(&self) -> usize {
        self.program.units.saturating_sub(1)
    }

    // Reads a file that a row asks for.
    fn enter_file(&mut self, index: usize, file: File<'_>) -> Result<(), AllocError> {
        let line = Line {
            place: Place {
                file: self.program.names.len(),
                line: 1,
            },
            caller: None,
            indent: 0,
            unit: self.unit(),
        };
        let name = String::from_str(self.alloc, file.name)?;
        self.program.names.push(name)?;
        let text = Text::of_file(self.alloc, file.text, line)?;
        self.enter(index, text)
    }

    // The line from which a macro's text, or a repetition, counts as it is called.
    fn line_of(&self, place: Place, statement: &Statement) -> Line {
        Line {
            place,
            caller: Some(statement.line.caller.unwrap_or(statement.line.place)),
            indent: 0,
            unit: self.unit(),
        }
    }

    // The macro of a name.
    fn macro_called(&self, name: &[u8]) -> Option<&Macro> {
        for found in &self.macros {
            if found.name.as_slice() == name {
                return Some(found);
            }
        }
        None
    }

    // The text of the macro that a statement calls, or what is wrong with the arguments.
    fn called(
        &self,
        statement: &Statement,
        parts: &Parts,
    ) -> Result<Option<Result<Text, Wrong>>, AllocError> {
        let Some(found) = self.macro_called(parts.word) else {
            return Ok(None);
        };
        let arguments = arguments(self.alloc, parts.operands)?;
        let most = found.parameters.len();
        if arguments.len() > most {
            return Ok(Some(Err(Wrong::Arguments(most))));
        }
        let bytes = found.expanded(self.alloc, &arguments, self.calls, MOST_BYTES)?;
        let line = self.line_of(found.place, statement);
        Ok(Some(Ok(Text::of_lines(bytes, line))))
    }

    // A statement that calls a macro, or is none of this module.
    fn plain(&mut self, statement: &Statement, parts: &Parts) -> Result<(), AllocError> {
        let called = self.called(statement, parts)?;
        match called {
            None => {
                let row = statement.row(self.alloc, Status::Statement)?;
                self.push(row)?;
            }
            Some(Err(wrong)) => {
                let index = self.push_done(statement, parts)?;
                self.note(index, wrong);
            }
            Some(Ok(text)) => {
                let index = self.push_done(statement, parts)?;
                self.calls = self.calls.saturating_add(1);
                self.enter(index, text)?;
            }
        }
        Ok(())
    }

    // .include name
    fn include(&mut self, statement: &Statement, parts: &Parts) -> Result<Step, AllocError> {
        let index = self.push_done(statement, parts)?;
        let name = unquoted(parts.operands.trim_ascii());
        match str::from_utf8(name) {
            Ok(name) if !name.is_empty() => {
                Ok(Step::Includes(index, String::from_str(self.alloc, name)?))
            }
            _ => {
                self.note(index, Wrong::Takes(".include", FILE));
                Ok(Step::Goes)
            }
        }
    }

    // What .macro and .rept collect text for.
    fn goal(&self, opens: Bracket, operands: &[u8]) -> Result<Result<Goal, Wrong>, AllocError> {
        if opens == Bracket::OpensRepeat {
            return match number_called(operands.trim_ascii()) {
                Ok(count) if count <= MOST_STATEMENTS as u64 => Ok(Ok(Goal::Repeat(
                    count as usize,
                ))),
                _ => Ok(Err(Wrong::Takes(".rept", COUNT))),
            };
        }
        let (name, rest) = heading(operands);
        if name.is_empty() {
            return Ok(Err(Wrong::Takes(".macro", HEADING)));
        }
        let name = name.to_vec(self.alloc)?;
        Ok(Ok(Goal::Macro(name, parameters(self.alloc, rest)?)))
    }

    // .macro name parameters, and .rept count
    fn open(
        &mut self,
        opens: Bracket,
        statement: &Statement,
        parts: &Parts,
    ) -> Result<(), AllocError> {
        let index = self.push_done(statement, parts)?;
        let place = match self.texts.last() {
            Some(text) => text.place(),
            None => statement.line.place,
        };
        match self.goal(opens, parts.operands)? {
            Ok(goal) => self.collector = Some(Collector::new(self.alloc, goal, index, place)),
            Err(wrong) => self.note(index, wrong),
        }
        Ok(())
    }

    // .endm and .endr where nothing is collected.
    fn closed(&mut self, statement: &Statement, parts: &Parts) -> Result<(), AllocError> {
        let index = self.push_done(statement, parts)?;
        self.note(index, Wrong::Closed);
        Ok(())
    }

    // A macro is defined.
    fn define(&mut self, index: usize, defined: Macro) -> Result<(), AllocError> {
        if self.macro_called(&defined.name).is_some() {
            self.note(index, Wrong::Again);
        } else if self.macros.len() >= MOST_MACROS {
            self.stop(index, Wrong::Macros);
        } else {
            self.macros.push(defined)?;
        }
        Ok(())
    }

    // What is collected is used, after the statement that ends it.
    fn close(&mut self, collector: Collector, statement: &Statement) -> Result<(), AllocError> {
        let lines = collector.lines();
        let (goal, body, index, place) = collector.parts();
        match goal {
            Goal::Macro(name, parameters) => {
                let defined = Macro {
                    name,
                    parameters,
                    body,
                    place,
                };
                self.define(index, defined)
            }
            Goal::Repeat(count) => {
                let repeated = repeated(self.alloc, &body, count, MOST_BYTES)?;
                let line = self.line_of(place, statement);
                match repeated {
                    Some(bytes) => self.enter(index, Text::of_repetition(bytes, line, lines)),
                    None => {
                        self.stop(index, Wrong::Long);
                        Ok(())
                    }
                }
            }
        }
    }

    // A statement of what is collected, or the one that ends it.
    fn collect(
        &mut self,
        mut collector: Collector,
        statement: &Statement,
        bracket: Option<Bracket>,
    ) -> Result<(), AllocError> {
        if let Some(bracket) = bracket {
            if collector.is_ended_by(bracket) {
                return self.close(collector, statement);
            }
        }
        collector.add(&statement.text, statement.end)?;
        self.collector = Some(collector);
        Ok(())
    }

    // A statement with a word.
    fn worded(&mut self, statement: &Statement, parts: &Parts) -> Result<Step, AllocError> {
        match bracket_called(parts.word) {
            Some(bracket @ (Bracket::OpensMacro | Bracket::OpensRepeat)) => {
                self.open(bracket, statement, parts)?;
            }
            Some(Bracket::ClosesMacro | Bracket::ClosesRepeat) => self.closed(statement, parts)?,
            None => {
                if parts.word.eq_ignore_ascii_case(b".include") {
                    return self.include(statement, parts);
                }
                self.plain(statement, parts)?;
            }
        }
        Ok(Step::Goes)
    }

    // A statement.
    fn take(&mut self, statement: &Statement) -> Result<Step, AllocError> {
        let parts = parts_of(self.alloc, &statement.text)?;
        if let Some(collector) = self.collector.take() {
            let bracket = match parts {
                Some(parts) => bracket_called(parts.word),
                None => None,
            };
            self.collect(collector, statement, bracket)?;
            return Ok(Step::Goes);
        }
        match parts {
            Some(parts) => self.worded(statement, &parts),
            None => {
                if !statement.text.trim_ascii().is_empty() {
                    let row = statement.row(self.alloc, Status::Statement)?;
                    self.push(row)?;
                }
                Ok(Step::Goes)
            }
        }
    }

    // The next statement of what is read.
    fn step(&mut self) -> Result<Step, AllocError> {
        let alloc = self.alloc;
        let Some(text) = self.texts.last_mut() else {
            return Ok(Step::Over);
        };
        match text.statement(alloc)? {
            Some(statement) => self.take(&statement),
            None => {
                let _over = self.texts.pop();
                Ok(Step::Goes)
            }
        }
    }

    // A name as it is seen from the file of a row: beside that file.
    fn beside(&self, index: usize, name: &str) -> Result<String, AllocError> {
        let from = match self.program.row(index) {
            Some(row) => self.program.name(row.line.place.file),
            None => "",
        };
        let mut path = String::new(self.alloc);
        if let Some((folder, _)) = from.rsplit_once('/') {
            if !name.starts_with('/') {
                path.push_str(folder)?;
                path.push_str("/")?;
            }
        }
        path.push_str(name)?;
        Ok(path)
    }

    // Reads a file that a row names: beside the row's file, or where the name says.
    fn found<S: Sources>(
        &mut self,
        sources: &mut S,
        index: usize,
        name: &str,
    ) -> Result<(), AllocError> {
        let beside = self.beside(index, name)?;
        if let Some(text) = sources.text(beside.as_str())? {
            let name = beside.as_str();
            return self.enter_file(index, File { name, text: &text });
        }
        if beside.as_str() != name {
            if let Some(text) = sources.text(name)? {
                return self.enter_file(index, File { name, text: &text });
            }
        }
        self.note(index, Wrong::File);
        Ok(())
    }

    // Reads what is entered to its end.
    fn follow<S: Sources>(&mut self, sources: &mut S) -> Result<bool, AllocError> {
        for _ in 0..MOST_STATEMENTS {
            match self.step()? {
                Step::Goes => {}
                Step::Includes(index, name) => self.found(sources, index, name.as_str())?,
                Step::Over => return Ok(true),
            }
        }
        Ok(false)
    }

    // Begins a file of the command line by a row that is done.
    fn begin(&mut self) -> Result<usize, AllocError> {
        let place = Place {
            file: self.program.names.len(),
            line: 1,
        };
        let line = Line {
            place,
            caller: None,
            indent: 0,
            unit: self.unit(),
        };
        self.push(Row {
            text: Vec::new(self.alloc),
            line,
            status: Status::Done,
        })
    }

    // Reads a file of the command line.
    fn file<S: Sources>(&mut self, sources: &mut S, file: File<'_>) -> Result<(), AllocError> {
        self.program.units = self.program.units.saturating_add(1);
        let start = self.begin()?;
        self.enter_file(start, file)?;
        let is_whole = self.follow(sources)?;
        let last = self.program.rows.len().saturating_sub(1);
        if !is_whole {
            self.stop(last, Wrong::Long);
        }
        if let Some(collector) = self.collector.take() {
            self.note(collector.row(), Wrong::Open);
        }
        Ok(())
    }
}

/// Reads files, one after the other; what they include comes from sources.
pub fn read<S: Sources>(
    alloc: Global,
    sources: &mut S,
    files: &[File<'_>],
) -> Result<Program, AllocError> {
    let mut reader = Reader::new(alloc);
    for file in files {
        reader.file(sources, *file)?;
    }
    Ok(reader.program)
}
