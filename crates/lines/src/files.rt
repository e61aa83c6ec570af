//! The files that a unit's header names (DWARF 5, section 6.2.4.1; DWARF 4, section 6.2.4).

use crate::bytes::{byte, double, front, half, signed, text, unsigned, word};
use crate::unit::{Format, Unit};
use std::alloc::{AllocError, Global};

/// Where a file's name is.
#[derive(Clone, Copy, Debug, PartialEq, Eq)]
pub(crate) enum FileName<'a> {
    /// In the header.
    Here(&'a [u8]),
    /// At an offset of `.debug_str`.
    Strings(u64),
    /// At an offset of `.debug_line_str`.
    LineStrings(u64),
    /// In a form that is not read.
    Unknown,
}

// How a value is written (DWARF 5, section 7.5.6), as far as these tables have it.
#[derive(Clone, Copy, Debug, PartialEq, Eq)]
enum Form {
    // `DW_FORM_string`: the text itself, and a 0 after it.
    Text,
    // `DW_FORM_strp` and `DW_FORM_line_strp`: an offset of `.debug_str`, of `.debug_line_str`.
    Strings,
    LineStrings,
    // `DW_FORM_udata`, `DW_FORM_strx`: in LEB128.
    Unsigned,
    // `DW_FORM_sdata`.
    Signed,
    // `DW_FORM_block`: a length in LEB128, and that many bytes.
    Block,
    // `DW_FORM_data1`, `DW_FORM_data16` and the like: that many bytes.
    Bytes(u8),
}

// What one column of a table is.
#[derive(Clone, Copy, Debug, PartialEq, Eq)]
struct Column {
    // `DW_LNCT_path`: the file's name.
    is_path: bool,
    form: Form,
}

fn form_of(code: u64) -> Option<Form> {
    match code {
        0x08 => Some(Form::Text),
        0x0E => Some(Form::Strings),
        0x1F => Some(Form::LineStrings),
        0x0F | 0x1A => Some(Form::Unsigned),
        0x0D => Some(Form::Signed),
        0x09 => Some(Form::Block),
        0x0B | 0x25 => Some(Form::Bytes(1)),
        0x05 | 0x26 => Some(Form::Bytes(2)),
        0x27 => Some(Form::Bytes(3)),
        0x06 | 0x28 => Some(Form::Bytes(4)),
        0x07 => Some(Form::Bytes(8)),
        0x1E => Some(Form::Bytes(16)),
        _ => None,
    }
}

// The columns of a table, which the header lists first.
fn columns(alloc: Global, bytes: &[u8]) -> Option<(Vec<Column>, &[u8])> {
    let (count, mut rest) = byte(bytes)?;
    let mut columns = Vec::new(alloc);
    for _ in 0..count {
        let (content, after) = unsigned(rest)?;
        let (code, after) = unsigned(after)?;
        let column = Column {
            is_path: content == 1,
            form: form_of(code)?,
        };
        columns.push(column).ok()?;
        rest = after;
    }
    Some((columns, rest))
}

// A value, as a file's name if it is one.
fn value(format: Format, form: Form, bytes: &[u8]) -> Option<(FileName<'_>, &[u8])> {
    match form {
        Form::Text => {
            let (name, rest) = text(bytes)?;
            Some((FileName::Here(name), rest))
        }
        Form::Strings => {
            let (offset, rest) = format.offset(bytes)?;
            Some((FileName::Strings(offset), rest))
        }
        Form::LineStrings => {
            let (offset, rest) = format.offset(bytes)?;
            Some((FileName::LineStrings(offset), rest))
        }
        Form::Unsigned => {
            let (_, rest) = unsigned(bytes)?;
            Some((FileName::Unknown, rest))
        }
        Form::Signed => {
            let (_, rest) = signed(bytes)?;
            Some((FileName::Unknown, rest))
        }
        Form::Block => {
            let (length, rest) = unsigned(bytes)?;
            let (_, rest) = front(rest, length)?;
            Some((FileName::Unknown, rest))
        }
        Form::Bytes(count) => {
            let (_, rest) = front(bytes, u64::from(count))?;
            Some((FileName::Unknown, rest))
        }
    }
}

// A row of a table: its name, and the bytes after it.
fn row<'a>(
    format: Format,
    columns: &[Column],
    bytes: &'a [u8],
) -> Option<(FileName<'a>, &'a [u8])> {
    let mut name = FileName::Unknown;
    let mut rest = bytes;
    for column in columns {
        let (value, after) = value(format, column.form, rest)?;
        if column.is_path {
            name = value;
        }
        rest = after;
    }
    Some((name, rest))
}

// A table of version 5. Where it has no columns its rows say nothing, and are not read.
fn table<'a>(
    alloc: Global,
    format: Format,
    bytes: &'a [u8],
) -> Option<(Vec<FileName<'a>>, &'a [u8])> {
    let (columns, rest) = columns(alloc, bytes)?;
    let (count, mut rest) = unsigned(rest)?;
    let mut names = Vec::new(alloc);
    if columns.is_empty() {
        return Some((names, rest));
    }
    for _ in 0..count {
        let (name, after) = row(format, &columns, rest)?;
        names.push(name).ok()?;
        rest = after;
    }
    Some((names, rest))
}

// The bytes after the list of directories of versions up to 4: texts up to an empty one.
fn after_directories(bytes: &[u8]) -> Option<&[u8]> {
    let mut rest = bytes;
    for _ in 0..bytes.len() {
        let (directory, after) = text(rest)?;
        if directory.is_empty() {
            return Some(after);
        }
        rest = after;
    }
    None
}

// The files of versions up to 4, up to an empty name: each has a directory, a time and a length after its name. They
// are counted from 1.
fn listed<'a>(alloc: Global, bytes: &'a [u8]) -> Option<Vec<FileName<'a>>> {
    let mut rest = after_directories(bytes)?;
    let mut names = Vec::new(alloc);
    names.push(FileName::Unknown).ok()?;
    for _ in 0..bytes.len() {
        let (name, after) = text(rest)?;
        if name.is_empty() {
            return Some(names);
        }
        let (_directory, after) = unsigned(after)?;
        let (_time, after) = unsigned(after)?;
        let (_length, after) = unsigned(after)?;
        names.push(FileName::Here(name)).ok()?;
        rest = after;
    }
    None
}

// The files of version 5, after the directories: they are counted from 0.
fn tabled<'a>(alloc: Global, unit: &Unit<'a>) -> Option<Vec<FileName<'a>>> {
    let (_directories, rest) = table(alloc, unit.format, unit.tables)?;
    let (names, _) = table(alloc, unit.format, rest)?;
    Some(names)
}

/// The files of a unit, by their numbers; none where they are not read.
pub(crate) fn files<'a>(alloc: Global, unit: &Unit<'a>) -> Vec<FileName<'a>> {
    let names = if unit.version >= 5 {
        tabled(alloc, unit)
    } else {
        listed(alloc, unit.tables)
    };
    match names {
        Some(names) => names,
        None => Vec::new(alloc),
    }
}
