//! How code spells operations: a byte for each, and after it, where it has a number, that number, its highest byte
//! first.
ghost use Rattle.std.specs.Prelude.{◌≤◌, ◌+◌, IfSome, length};

use crate::operation::{Binary, Operation, Unary, Width};

/// An operation, and how many bytes of code spell it.
#[derive(Clone, Copy, PartialEq, Eq, Debug)]
pub struct Decoded {
    pub operation: Operation,
    pub length: usize,
}

// The operations on two numbers.
fn binary_of(code: u8) -> Option<Binary> {
    Some(match code {
        0x02 => Binary::Add,
        0x03 => Binary::Subtract,
        0x04 => Binary::Multiply,
        0x05 => Binary::DivideSigned,
        0x06 => Binary::DivideUnsigned,
        0x07 => Binary::RemainderSigned,
        0x08 => Binary::RemainderUnsigned,
        0x09 => Binary::ShiftLeft,
        0x0a => Binary::ShiftRightSigned,
        0x0b => Binary::ShiftRightUnsigned,
        0x0f => Binary::And,
        0x10 => Binary::Or,
        0x11 => Binary::Xor,
        0x13 => Binary::Equal,
        0x14 => Binary::LessSigned,
        0x15 => Binary::LessUnsigned,
        _ => return None,
    })
}

// The other operations that have no number.
fn plain_of(code: u8) -> Option<Operation> {
    Some(match code {
        0x0e => Operation::Unary(Unary::IsZero),
        0x12 => Operation::Unary(Unary::Complement),
        0x17 => Operation::Load(Width::Byte),
        0x18 => Operation::Load(Width::Half),
        0x19 => Operation::Load(Width::Word),
        0x1a => Operation::Load(Width::Double),
        0x27 => Operation::End,
        0x28 => Operation::Duplicate,
        0x29 => Operation::Drop,
        0x2b => Operation::Swap,
        0x33 => Operation::Rotate,
        _ => return None,
    })
}

// The operations with a number.
fn numbered(code: &[u8]) -> Option<Decoded>
    ensures { IfSome result (λ d. d.length ≤ length code.now) }
{
    let (operation, length) = match code {
        [0x16, bits, ..] => (Operation::Unary(Unary::SignExtend(*bits)), 2),
        [0x2a, bits, ..] => (Operation::Unary(Unary::ZeroExtend(*bits)), 2),
        [0x32, depth, ..] => (Operation::Pick(*depth), 2),
        [0x22, byte, ..] => (Operation::Constant(u64::from(*byte)), 2),
        [0x23, a, b, ..] => (
            Operation::Constant(u64::from(u16::from_be_bytes([*a, *b]))),
            3,
        ),
        [0x24, a, b, c, d, ..] => (
            Operation::Constant(u64::from(u32::from_be_bytes([*a, *b, *c, *d]))),
            5,
        ),
        [0x25, a, b, c, d, e, f, g, h, ..] => (
            Operation::Constant(u64::from_be_bytes([*a, *b, *c, *d, *e, *f, *g, *h])),
            9,
        ),
        [0x20, a, b, ..] => (Operation::JumpIf(u16::from_be_bytes([*a, *b])), 3),
        [0x21, a, b, ..] => (Operation::Jump(u16::from_be_bytes([*a, *b])), 3),
        [0x26, a, b, ..] => (Operation::Register(u16::from_be_bytes([*a, *b])), 3),
        _ => return None,
    };
    Some(Decoded { operation, length })
}

/// The first operation of the code; `None` where it is none of those that are known.
pub fn decode(code: &[u8]) -> Option<Decoded>
    ensures { IfSome result (λ d. d.length ≤ length code.now) }
{
    let first = *code.first()?;
    let operation = match binary_of(first) {
        Some(binary) => Some(Operation::Binary(binary)),
        None => plain_of(first),
    };
    match operation {
        Some(operation) => Some(Decoded {
            operation,
            length: 1,
        }),
        None => numbered(code),
    }
}
