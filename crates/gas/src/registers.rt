//! The names of registers.
ghost use Rattle.std.specs.Prelude.{◌<◌, IfSome};

const NAMES: [&str; 32] = [
    "zero", "ra", "sp", "gp", "tp", "t0", "t1", "t2", "s0", "s1", "a0", "a1", "a2", "a3", "a4",
    "a5", "a6", "a7", "s2", "s3", "s4", "s5", "s6", "s7", "s8", "s9", "s10", "s11", "t3", "t4",
    "t5", "t6",
];

/// A register by its number, below 32.
#[derive(Clone, Copy)]
pub struct Register(pub u8);

/// zero, the return address, the temporary that `tail` uses.
pub const ZERO: Register = Register(0);

pub const RA: Register = Register(1);

pub const T1: Register = Register(6);

impl Register {
    /// The name that the expanded text has.
    pub(crate) fn name(self) -> &'static str {
        match NAMES.get(usize::from(self.0)) {
            Some(name) => *name,
            None => "zero",
        }
    }
}

fn named(name: &[u8]) -> Option<Register> {
    for (number, other) in (0..32u8).zip(NAMES.iter()) {
        if other.as_bytes().eq_ignore_ascii_case(name) {
            return Some(Register(number));
        }
    }
    None
}

fn digit(c: u8) -> Option<u8> {
    if c.is_ascii_digit() {
        Some(c - b'0')
    } else {
        None
    }
}

// x0 to x31.
fn numbered(digits: &[u8]) -> Option<Register> {
    let number = match digits {
        [c] => digit(*c)?,
        [tens @ b'1'..=b'3', c] => digit(*tens)?.wrapping_mul(10).wrapping_add(digit(*c)?),
        _ => return None,
    };
    if number < 32 {
        return Some(Register(number));
    }
    None
}

/// The register of a name, in large or small letters: x0 to x31, its other name, or fp.
pub(crate) fn register_called(name: &[u8]) -> Option<Register> {
    match name {
        [b'x' | b'X', digits @ ..] => numbered(digits),
        [b'f' | b'F', b'p' | b'P'] => Some(Register(8)),
        _ => named(name),
    }
}
