//! The names of a file's addresses.
ghost use Rattle.std.specs.Prelude.{IfOk, MatchOption, None};
ghost use Rattle.addresses.specs.Named.{AreNamesOf, IsNameOf};
ghost use Rattle.lines.specs.Found.{IsLineAt};

use crate::name::Name;
use lines::Lines;
use sections::Sections;
use std::alloc::{AllocError, Global};
use symbols::Symbols;

/// The names of a file's addresses.
#[derive(Drop)]
pub struct Names<'a> {
    symbols: Symbols<'a>,
    lines: Lines<'a>,
}

impl<'a> Names<'a> {
    /// The names that an ELF file has: of its symbol table, and of its line number programs.
    pub fn of(alloc: Global, file: &'a [u8]) -> Result<Names<'a>, AllocError>
        ensures { IfOk result (AreNamesOf file.now) }
    {
        let sections = Sections::of(alloc, file)?;
        Ok(Names {
            symbols: Symbols::of(alloc, &sections)?,
            lines: Lines::of(alloc, &sections)?,
        })
    }

    /// What is known of an address; `None` if nothing is.
    pub fn at(&self, address: u64) -> Option<Name<'a>>
        ensures { MatchOption result (IsLineAt self.now.lines address None) (IsNameOf self.now address) }
    {
        match self.symbols.at(address) {
            Some(place) => Some(Name {
                place: Some(place),
                line: self.lines.at(address),
            }),
            None => {
                let line = self.lines.at(address)?;
                Some(Name {
                    place: None,
                    line: Some(line),
                })
            }
        }
    }
}
