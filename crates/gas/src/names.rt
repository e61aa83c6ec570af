//! The names of texts: their symbols and their numeric labels.

use crate::fault::Position;
use crate::tokens::Way;
use crate::value::Value;
use std::alloc::{AllocError, Global};
use std::collections::HashMap;

/// What a name stands for, and the statement that says so.
#[derive(Clone, Copy)]
pub struct Symbol {
    pub value: Value,
    pub at: Position,
    pub unit: usize,
    /// Whether it is a label.
    pub is_label: bool,
}

// A numeric label: the row that has it, and its value.
#[derive(Clone, Copy)]
struct Local {
    row: usize,
    value: Value,
}

// The names of a file of the command line.
#[derive(Drop)]
struct Unit<'a> {
    symbols: HashMap<&'a [u8], Symbol>,
    locals: HashMap<u64, Vec<Local>>,
    exports: Vec<&'a [u8]>,
}

impl<'a> Unit<'a> {
    fn new(alloc: Global) -> Unit<'a> {
        Unit {
            symbols: HashMap::new(alloc),
            locals: HashMap::new(alloc),
            exports: Vec::new(alloc),
        }
    }

    fn symbol(&self, name: &[u8]) -> Option<Symbol> {
        match self.symbols.get(name) {
            Some(symbol) => Some(*symbol),
            None => None,
        }
    }

    // The last of these labels up to a row, or the first after it.
    fn local(&self, number: u64, way: Way, row: usize) -> Option<Value> {
        let locals = self.locals.get(&number)?;
        let above = locals.partition_point(|local| local.row <= row);
        let index = match way {
            Way::Backward => above.checked_sub(1)?,
            Way::Forward => above,
        };
        match locals.get(index) {
            Some(local) => Some(local.value),
            None => None,
        }
    }
}

/// All names.
#[derive(Drop)]
pub struct Names<'a> {
    alloc: Global,
    units: Vec<Unit<'a>>,
    unit: usize,
    // The symbols that all files know.
    shared: HashMap<&'a [u8], Symbol>,
}

impl<'a> Names<'a> {
    /// The names of that many files.
    pub(crate) fn new(alloc: Global, count: usize) -> Result<Names<'a>, AllocError> {
        let mut units = Vec::new(alloc);
        for _ in 0..count {
            units.push(Unit::new(alloc))?;
        }
        Ok(Names {
            alloc,
            units,
            unit: 0,
            shared: HashMap::new(alloc),
        })
    }

    /// Goes to a file.
    pub(crate) fn go_to(&mut self, unit: usize) {
        self.unit = unit;
    }

    /// The file, by its index.
    pub(crate) fn unit(&self) -> usize {
        self.unit
    }

    /// What a name stands for in the file.
    pub(crate) fn own(&self, name: &[u8]) -> Option<Symbol> {
        self.units.get(self.unit)?.symbol(name)
    }

    /// What a name stands for in the file, or for all files.
    pub(crate) fn symbol(&self, name: &[u8]) -> Option<Symbol> {
        match self.own(name) {
            Some(symbol) => Some(symbol),
            None => match self.shared.get(name) {
                Some(symbol) => Some(*symbol),
                None => None,
            },
        }
    }

    /// Notes a symbol.
    pub(crate) fn define(&mut self, name: &'a [u8], symbol: Symbol) -> Result<(), AllocError> {
        if let Some(unit) = self.units.get_mut(self.unit) {
            unit.symbols.insert(name, symbol)?;
        }
        Ok(())
    }

    /// Notes that all files know a name of the file.
    pub(crate) fn export(&mut self, name: &'a [u8]) -> Result<(), AllocError> {
        if let Some(unit) = self.units.get_mut(self.unit) {
            unit.exports.push(name)?;
        }
        Ok(())
    }

    // Lets all files know the names that the file exports.
    fn share_unit(&mut self) -> Result<(), AllocError> {
        let Some(unit) = self.units.get(self.unit) else {
            return Ok(());
        };
        for name in &unit.exports {
            if let Some(symbol) = unit.symbol(*name) {
                if !self.shared.contains_key(*name) {
                    self.shared.insert(*name, symbol)?;
                }
            }
        }
        Ok(())
    }

    /// Lets all files know the names that each exports.
    pub(crate) fn share(&mut self) -> Result<(), AllocError> {
        for unit in 0..self.units.len() {
            self.unit = unit;
            self.share_unit()?;
        }
        Ok(())
    }

    /// The symbol of that name which all files know, where the file exports the name.
    pub(crate) fn exported(&self, name: &[u8]) -> Option<Symbol> {
        let unit = self.units.get(self.unit)?;
        if !unit.exports.iter().any(|other| *other == name) {
            return None;
        }
        match self.shared.get(name) {
            Some(symbol) => Some(*symbol),
            None => None,
        }
    }

    /// Whether one file alone has a name.
    pub(crate) fn is_alone(&self, name: &[u8]) -> bool {
        let count = self
            .units
            .iter()
            .filter(|unit| unit.symbols.contains_key(name))
            .count();
        count == 1
    }

    /// Notes a numeric label.
    pub(crate) fn define_local(
        &mut self,
        number: u64,
        row: usize,
        value: Value,
    ) -> Result<(), AllocError> {
        let local = Local { row, value };
        let Some(unit) = self.units.get_mut(self.unit) else {
            return Ok(());
        };
        if let Some(locals) = unit.locals.get_mut(&number) {
            locals.push(local)?;
            return Ok(());
        }
        let mut locals = Vec::new(self.alloc);
        locals.push(local)?;
        unit.locals.insert(number, locals)?;
        Ok(())
    }

    /// The numeric label that a row means.
    pub(crate) fn local(&self, number: u64, way: Way, row: usize) -> Option<Value> {
        self.units.get(self.unit)?.local(number, way, row)
    }
}
