//! What a debugger is given of a program.

/// A label and its address.
#[derive(Clone, Copy, Debug, PartialEq, Eq)]
pub struct Label<'a> {
    pub name: &'a [u8],
    pub address: u64,
}

/// From an address up to the next row's, a line of a file.
#[derive(Clone, Copy, Debug, PartialEq, Eq)]
pub struct Row {
    pub address: u64,
    /// The index of the file.
    pub file: usize,
    /// Counted from 1; 0 where the bytes are of no line.
    pub line: usize,
}

/// What a debugger is given of a program.
#[derive(Clone, Copy)]
pub struct Tables<'a> {
    /// The names of its texts.
    pub files: &'a [&'a [u8]],
    /// The lines of its bytes, in the order of their addresses.
    pub rows: &'a [Row],
    pub labels: &'a [Label<'a>],
    /// How many bytes it has.
    pub size: u64,
}
