//! The symbol at or below an address.

ghost use Rattle.std.specs.Prelude.{◌<◌, IfOk, IfSome, MatchOption};
ghost use Rattle.std.specs.List.{All};
ghost use Rattle.std.specs.List.Sorted.{IsNonDecreasingBy, IsPermutation};
ghost use Rattle.symbols.specs.declared.entry.Symbol.{Symbol};
ghost use Rattle.symbols.specs.Nearest.{IsNearest, IsOf};

use crate::entry::Symbol;
use std::alloc::AllocError;

/// Symbols in the order of their addresses.
#[derive(Drop)]
pub struct Ordered {
    symbols: Vec<Symbol>,
    ghost rising: { IsNonDecreasingBy (λ symbol. symbol.address) symbols.items },
}

// Of symbols in order, the one of the greatest address at or below an address.
fn last_below(symbols: &[Symbol], address: u64) -> Option<Symbol>
    requires { IsNonDecreasingBy (λ (symbol : Symbol). symbol.address) symbols.now }
    ensures { MatchOption result (All (λ other. address < other.address) symbols.now) (IsNearest symbols.now address) }
{
    let after = symbols.partition_point(|symbol| symbol.address <= address);
    if after == 0 {
        return None;
    }
    Some(symbols[after - 1])
}

impl Ordered {
    /// Puts symbols into order.
    pub fn of(symbols: Vec<Symbol>) -> Result<Ordered, AllocError>
        ensures { IfOk result (λ ordered. IsPermutation symbols.items ordered.symbols.items) }
    {
        let mut symbols = symbols;
        symbols.sort_by_key(|symbol| symbol.address)?;
        Ok(Ordered { symbols })
    }

    /// The symbol of the greatest address at or below an address.
    pub fn below(&self, address: u64) -> Option<Symbol>
        ensures { MatchOption result (All (λ other. address < other.address) self.now.symbols.items)
            (IsNearest self.now.symbols.items address) }
    {
        last_below(&self.symbols, address)
    }

    /// The same, if it has that address.
    pub fn at(&self, address: u64) -> Option<Symbol>
        ensures { IfSome result (IsOf self.now.symbols.items address) }
    {
        match self.below(address) {
            Some(symbol) if symbol.has(address) => Some(symbol),
            _ => None,
        }
    }
}
