//! The registers of a process.

use crate::reporter::Fallen;
use crate::who::Who;
use addresses::Name;
use isa::register_name;
use machine::Seen;
use std::fmt;
use unixmodel::instr::Reg;

/// The registers of a process, one a line: as they are, or as they were at its fault where it is gone.
#[derive(Clone, Copy)]
pub struct RegisterReport<'a> {
    pub(crate) who: Who,
    pub(crate) found: Found,
    /// The name of the pc, if it is known.
    pub(crate) name: Option<Name<'a>>,
}

/// Where registers are found.
#[derive(Clone, Copy)]
pub(crate) enum Found {
    There(Seen),
    AtFault(Fallen),
    Nowhere,
}

impl Found {
    /// Those of a process that is there, else those at its fault.
    pub(crate) fn of(seen: Option<Seen>, fallen: Option<Fallen>) -> Found {
        match (seen, fallen) {
            (Some(seen), _) => Found::There(seen),
            (None, Some(fallen)) => Found::AtFault(fallen),
            (None, None) => Found::Nowhere,
        }
    }

    /// The pc, if there is one.
    pub(crate) fn pc(&self) -> Option<u64> {
        match self {
            Found::There(seen) => Some(seen.pc),
            Found::AtFault(fallen) => Some(fallen.fault.pc),
            Found::Nowhere => None,
        }
    }
}

// A register in a line.
fn write_register<W: fmt::Write>(f: &mut fmt::Formatter<W>, name: &str, value: u64) -> fmt::Result {
    let signed = value.cast_signed();
    writeln!(f, "  {name:<4} {value:#018x} {signed}")
}

// The pc, with its name, if that is known.
fn write_pc<W: fmt::Write>(
    f: &mut fmt::Formatter<W>,
    pc: u64,
    name: Option<Name<'_>>,
) -> fmt::Result {
    match name {
        Some(name) => writeln!(f, "  pc   {pc:#018x} in {name}"),
        None => writeln!(f, "  pc   {pc:#018x}"),
    }
}

// The registers except x0, which is 0.
fn write_registers<W: fmt::Write>(f: &mut fmt::Formatter<W>, registers: &[u64; 32]) -> fmt::Result {
    for number in 1..32u8 {
        let name = register_name(Reg::new(number));
        write_register(f, name, registers[usize::from(number)])?;
    }
    Ok(())
}

/// How many registers a row has.
const IN_ROW: u8 = 3;

/// The same in rows, without their signed values.
pub(crate) fn write_register_rows<W: fmt::Write>(
    f: &mut fmt::Formatter<W>,
    registers: &[u64; 32],
) -> fmt::Result {
    for number in 1..32u8 {
        let name = register_name(Reg::new(number));
        let value = registers[usize::from(number)];
        write!(f, "  {name:<4} {value:#018x}")?;
        if number % IN_ROW == 0 {
            writeln!(f)?;
        }
    }
    writeln!(f)
}

impl fmt::Display for RegisterReport<'_> {
    fn fmt<W: fmt::Write>(&self, f: &mut fmt::Formatter<W>) -> fmt::Result {
        let who = self.who;
        match &self.found {
            Found::There(seen) => {
                writeln!(f, "{who}: registers")?;
                write_pc(f, seen.pc, self.name)?;
                write_registers(f, &seen.registers)
            }
            Found::AtFault(fallen) => {
                writeln!(f, "{who}: registers at its fault")?;
                write_pc(f, fallen.fault.pc, self.name)?;
                write_registers(f, &fallen.registers)
            }
            Found::Nowhere => writeln!(f, "{who}: no process"),
        }
    }
}
