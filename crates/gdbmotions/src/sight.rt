//! What the condition of a break sees of the process that is at it.
use conditions::{Sight, Width, holds};
use gdbstate::byte_at;
use machine::Seen;
use timeline::Debuggee;

/// A process of a machine.
#[derive(Clone, Copy)]
struct Eye<'a> {
    machine: &'a Debuggee,
    seen: &'a Seen,
}

// The bytes from an address of a process on, as a number whose lowest byte comes first.
fn number_at(machine: &Debuggee, pid: u32, address: u64, count: u8) -> Option<u64> {
    let mut value: u64 = 0;
    for index in (0..count).rev() {
        let address = address.checked_add(u64::from(index))?;
        let byte = byte_at(machine, pid, address)?;
        value = value.wrapping_mul(256) | u64::from(byte);
    }
    Some(value)
}

impl Sight for Eye<'_> {
    fn register(&self, number: u16) -> Option<u64> {
        if number == 32 {
            return Some(self.seen.pc);
        }
        self.seen.registers.get(usize::from(number)).copied()
    }

    fn load(&self, address: u64, width: Width) -> Option<u64> {
        number_at(self.machine, self.seen.pid, address, width.bytes())
    }
}

/// Whether one of some conditions holds, or there are none.
pub(crate) fn is_so(machine: &Debuggee, seen: &Seen, conditions: &[Vec<u8>]) -> bool {
    let eye = Eye { machine, seen };
    conditions.is_empty() || conditions.iter().any(|code| holds(code.as_slice(), &eye))
}
