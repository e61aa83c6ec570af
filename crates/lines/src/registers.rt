//! The registers of the state machine (DWARF 5, sections 6.2.2 and 6.2.5).

ghost use Rattle.std.specs.Prelude.{◌≡◌, ◌%◌, ◌+ℤ◌, pos};
ghost use Rattle.lines.specs.Machine.{advance_of, advanced_line, after, on};

use crate::operation::Operation;
use crate::unit::Steps;

/// The registers that say which line an address is of.
#[derive(Clone, Copy, Debug, PartialEq, Eq)]
pub(crate) struct Registers {
    pub address: u64,
    pub file: u64,
    pub line: u64,
}

/// The registers as each sequence begins.
pub(crate) const START: Registers = Registers {
    address: 0,
    file: 1,
    line: 1,
};

// A line after an advance.
fn advanced_line(line: u64, advance: i64) -> u64
    ensures { result ≡ advanced_line line advance }
{
    if advance < 0 {
        return line.saturating_sub(advance.unsigned_abs());
    }
    line.saturating_add(advance.unsigned_abs())
}

impl Steps<'_> {
    // By how many bytes an adjusted opcode advances the address.
    fn address_advance(&self, adjusted: u8) -> u64
        ensures { result ≡ advance_of self.now adjusted }
    {
        u64::from(self.minimum) * u64::from(adjusted / self.line_range)
    }

    // By how many lines it advances the line.
    fn line_advance(&self, adjusted: u8) -> i64
        ensures { result ≡ self.now.line_base +ℤ pos (adjusted % self.now.line_range) }
    {
        i64::from(self.line_base) + i64::from(adjusted % self.line_range)
    }
}

impl Registers {
    // The registers with the address that many bytes on.
    fn on(self, bytes: u64) -> Registers
        ensures { result ≡ record self { address = on self.address bytes } }
    {
        Registers {
            address: self.address.wrapping_add(bytes),
            ..self
        }
    }

    // The registers with the line that many lines on.
    fn advanced(self, advance: i64) -> Registers
        ensures { result ≡ record self { line = advanced_line self.line advance } }
    {
        Registers {
            line: advanced_line(self.line, advance),
            ..self
        }
    }

    /// The registers after an operation. After the end of a sequence another one begins.
    pub fn after(self, steps: &Steps<'_>, operation: Operation) -> Registers
        ensures { result ≡ after steps.now operation self }
    {
        match operation {
            Operation::Special(adjusted) => self
                .on(steps.address_advance(adjusted))
                .advanced(steps.line_advance(adjusted)),
            Operation::Copy | Operation::Other => self,
            Operation::AdvanceAddress(advance) => {
                self.on(u64::from(steps.minimum).wrapping_mul(advance))
            }
            Operation::AdvanceLine(advance) => self.advanced(advance),
            Operation::SetFile(file) => Registers { file, ..self },
            Operation::AddConstant => self.on(steps.address_advance(255 - steps.opcode_base)),
            Operation::AdvanceBytes(bytes) => self.on(u64::from(bytes)),
            Operation::EndSequence => START,
            Operation::SetAddress(address) => Registers { address, ..self },
        }
    }
}
