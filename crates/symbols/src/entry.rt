//! One entry of a symbol table.

ghost use Rattle.std.specs.Prelude.{◌≡◌};
ghost use Rattle.symbols.specs.Entries.{has_address, symbol_in, type_in};

use byteorder::{ByteOrder, LittleEndian};

/// How many bytes an entry has.
pub const ENTRY_SIZE: usize = 24;

/// An entry of a symbol table (ELF-64 Object File Format, version 1.5, "Symbol Table", `Elf64_Sym`).
#[derive(Clone, Copy, Debug, PartialEq, Eq)]
pub struct Symbol {
    /// `st_name`: the offset of its name in the table of strings.
    pub name: u32,
    /// `st_shndx`: the index of the section that it is in; 0 (`SHN_UNDEF`) where it is declared only.
    pub section: u16,
    /// `st_value`: its address.
    pub address: u64,
    /// `st_size`: how many bytes it has; 0 where this is not known.
    pub size: u64,
}

/// The symbol that an entry declares.
pub(crate) fn symbol_in(entry: &[u8; ENTRY_SIZE]) -> Symbol
    ensures { result ≡ symbol_in entry.now }
{
    Symbol {
        name: LittleEndian::read_u32(entry),
        section: LittleEndian::read_u16(&entry[6..]),
        address: LittleEndian::read_u64(&entry[8..]),
        size: LittleEndian::read_u64(&entry[16..]),
    }
}

/// Its type (`ELF64_ST_TYPE`).
pub(crate) fn type_in(entry: &[u8; ENTRY_SIZE]) -> u8
    ensures { result ≡ type_in entry.now }
{
    entry[4] % 16
}

impl Symbol {
    /// Whether it has an address: a symbol of a size has that many from its own on, one of none all.
    pub fn has(&self, address: u64) -> bool
        ensures { result ≡ has_address self.now address }
    {
        self.address <= address && (self.size == 0 || address - self.address < self.size)
    }
}
