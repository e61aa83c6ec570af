//! The functions and labels of a file.

ghost use Rattle.std.specs.Prelude.{◌≡◌, ◌≤◌, ◌++◌, IfOk, IfSome, OnOk, flat_map, slice_get};
ghost use Rattle.std.specs.List.Sorted.{IsPermutation};
ghost use Rattle.symbols.specs.Entries.{entries_of, function_in, is_code, is_named, is_own, label_in};
ghost use Rattle.symbols.specs.Tables.{AreOf};
ghost use Rattle.symbols.specs.Places.{IsAt, IsPlace};

use crate::entry::{ENTRY_SIZE, Symbol, symbol_in, type_in};
use crate::nearest::Ordered;
use sections::{Section, Sections, text_at};
use std::alloc::{AllocError, Global};

// `SHT_SYMTAB`: a section that is a symbol table.
const SYMBOL_TABLE: u32 = 2;

// `STT_NOTYPE` and `STT_FUNC`: the types of labels and functions.
const LABEL: u8 = 0;

const FUNCTION: u8 = 2;

// `SHF_EXECINSTR`, of a section's flags: its bytes are instructions.
const EXECUTABLE: u64 = 4;

/// The functions and labels of a file.
#[derive(Drop)]
pub struct Symbols<'a> {
    names: &'a [u8],
    functions: Ordered,
    labels: Ordered,
}

/// A name, and how far after its address an address is.
#[derive(Clone, Copy, Debug, PartialEq, Eq)]
pub struct Place<'a> {
    pub name: &'a [u8],
    pub offset: u64,
}

// Whether a name is one of an assembler's or compiler's own: `.L12`, `$x`.
fn is_own(name: &[u8]) -> bool
    ensures { result ≡ is_own name.now }
{
    match name {
        [] => true,
        [b'$', ..] => true,
        [b'.', b'L', ..] => true,
        _ => false,
    }
}

// Whether the section of an index has instructions.
fn is_code(sections: &[Section], index: u16) -> bool
    ensures { result ≡ is_code (slice_get sections.now index) }
{
    match sections.get(usize::from(index)) {
        Some(section) => section.flags / EXECUTABLE % 2 == 1,
        None => false,
    }
}

// Whether an entry is of a section, and has a name that a program's author gave.
fn is_named(names: &[u8], entry: &[u8; ENTRY_SIZE]) -> bool
    ensures { result ≡ is_named names.now entry.now }
{
    let symbol = symbol_in(entry);
    symbol.section != 0 && !is_own(text_at(names, u64::from(symbol.name)))
}

// Adds the function that an entry declares, if it does.
fn push_function(
    functions: &mut Vec<Symbol>,
    names: &[u8],
    entry: &[u8; ENTRY_SIZE],
) -> Result<(), AllocError>
    ensures { OnOk result (functions.new.items ≡ functions.old.items ++ function_in names.now entry.now) }
{
    if type_in(entry) == FUNCTION && is_named(names, entry) {
        functions.push(symbol_in(entry))?;
    }
    Ok(())
}

// Adds the label that an entry declares, if it does.
fn push_label(
    labels: &mut Vec<Symbol>,
    sections: &[Section],
    names: &[u8],
    entry: &[u8; ENTRY_SIZE],
) -> Result<(), AllocError>
    ensures { OnOk result (labels.new.items ≡ labels.old.items ++ label_in sections.now names.now entry.now) }
{
    if type_in(entry) == LABEL
        && is_named(names, entry)
        && is_code(sections, symbol_in(entry).section)
    {
        labels.push(symbol_in(entry))?;
    }
    Ok(())
}

// The functions of a table.
fn functions_in(alloc: Global, names: &[u8], table: &[u8]) -> Result<Vec<Symbol>, AllocError>
    ensures { IfOk result (λ functions. functions.items ≡ flat_map (function_in names.now) (entries_of table.now)) }
{
    let mut functions = Vec::new(alloc);
    let mut rest = table;
    let count = table.len() / ENTRY_SIZE;
    for _ in 0..count {
        let Some((entry, after)) = rest.split_first_chunk::<ENTRY_SIZE>() else {
            return Ok(functions);
        };
        push_function(&mut functions, names, entry)?;
        rest = after;
    }
    Ok(functions)
}

// The labels of a table.
fn labels_in(
    alloc: Global,
    sections: &[Section],
    names: &[u8],
    table: &[u8],
) -> Result<Vec<Symbol>, AllocError>
    ensures { IfOk result
        (λ labels. labels.items ≡ flat_map (label_in sections.now names.now) (entries_of table.now)) }
{
    let mut labels = Vec::new(alloc);
    let mut rest = table;
    let count = table.len() / ENTRY_SIZE;
    for _ in 0..count {
        let Some((entry, after)) = rest.split_first_chunk::<ENTRY_SIZE>() else {
            return Ok(labels);
        };
        push_label(&mut labels, sections, names, entry)?;
        rest = after;
    }
    Ok(labels)
}

impl<'a> Symbols<'a> {
    // The functions and labels of a table, whose names are in another one.
    fn of_tables(
        alloc: Global,
        sections: &[Section],
        names: &'a [u8],
        table: &[u8],
    ) -> Result<Symbols<'a>, AllocError>
        ensures names { IfOk result (λ symbols. symbols.names.now ≡ names.now) }
        ensures functions { IfOk result (λ symbols. IsPermutation
            (flat_map (function_in names.now) (entries_of table.now)) symbols.functions.symbols.items) }
        ensures labels { IfOk result (λ symbols. IsPermutation
            (flat_map (label_in sections.now names.now) (entries_of table.now)) symbols.labels.symbols.items) }
    {
        let functions = Ordered::of(functions_in(alloc, names, table)?)?;
        let labels = Ordered::of(labels_in(alloc, sections, names, table)?)?;
        Ok(Symbols {
            names,
            functions,
            labels,
        })
    }

    /// The functions and labels of a file; none where it has no symbol table.
    pub fn of(alloc: Global, sections: &Sections<'a>) -> Result<Symbols<'a>, AllocError>
        ensures { IfOk result (AreOf sections.now) }
    {
        match sections.of_kind(SYMBOL_TABLE) {
            Some(table) => {
                let names = sections.contents(table.link as usize);
                Symbols::of_tables(alloc, sections.as_slice(), names, sections.bytes(&table))
            }
            None => Symbols::of_tables(alloc, sections.as_slice(), &[], &[]),
        }
    }

    // The function that has an address, or the nearest label at or below it, if no function begins between them.
    fn symbol_at(&self, address: u64) -> Option<Symbol>
        ensures at { IfSome result (IsAt self.now address) }
        ensures below { IfSome result (λ symbol. symbol.address ≤ address) }
    {
        let Some(function) = self.functions.below(address) else {
            return self.labels.at(address);
        };
        if function.has(address) {
            return Some(function);
        }
        let label = self.labels.at(address)?;
        if label.address < function.address {
            return None;
        }
        Some(label)
    }

    /// The name of the nearest function at or below an address, if it has it, else that of the nearest label after it.
    pub fn at(&self, address: u64) -> Option<Place<'a>>
        ensures { IfSome result (IsPlace self.now address) }
    {
        let symbol = self.symbol_at(address)?;
        Some(Place {
            name: text_at(self.names, u64::from(symbol.name)),
            offset: address - symbol.address,
        })
    }
}
