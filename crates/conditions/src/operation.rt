//! The operations, and what those on numbers give.
ghost use Rattle.std.specs.Prelude.{◌≡◌};
ghost use Rattle.conditions.specs.Values.{binary_value, count_of, unary_value};

/// An operation on two numbers: the one below the top of the stack, and the top.
#[derive(Clone, Copy, PartialEq, Eq, Debug)]
pub enum Binary {
    Add,
    Subtract,
    Multiply,
    DivideSigned,
    DivideUnsigned,
    RemainderSigned,
    RemainderUnsigned,
    ShiftLeft,
    ShiftRightSigned,
    ShiftRightUnsigned,
    And,
    Or,
    Xor,
    Equal,
    LessSigned,
    LessUnsigned,
}

/// An operation on the top of the stack. Signs and zeros are extended from that many low bits.
#[derive(Clone, Copy, PartialEq, Eq, Debug)]
pub enum Unary {
    IsZero,
    Complement,
    SignExtend(u8),
    ZeroExtend(u8),
}

/// How many bytes are read.
#[derive(Clone, Copy, PartialEq, Eq, Debug)]
pub enum Width {
    Byte,
    Half,
    Word,
    Double,
}

/// One operation of an expression.
#[derive(Clone, Copy, PartialEq, Eq, Debug)]
pub enum Operation {
    Binary(Binary),
    Unary(Unary),
    /// The bytes at the address on the top, as a number whose lowest byte comes first.
    Load(Width),
    Constant(u64),
    Register(u16),
    Jump(u16),
    /// Takes the top, and jumps unless it is 0.
    JumpIf(u16),
    Duplicate,
    Drop,
    Swap,
    /// The number that many below the top comes on the top, too.
    Pick(u8),
    /// The third number comes on the top.
    Rotate,
    End,
}

impl Width {
    /// How many bytes.
    pub fn bytes(self) -> u8
        ensures { result ≡ count_of self }
    {
        match self {
            Width::Byte => 1,
            Width::Half => 2,
            Width::Word => 4,
            Width::Double => 8,
        }
    }
}

/// What an operation gives of two numbers; `None` for a divisor of 0. Sums and products are left in 64 bits, and shifts
/// by 64 or more leave zeros or the sign.
#[tactic(auto, unfolding(crate::specs::Values::binary_value))]
pub fn apply_binary(op: Binary, a: u64, b: u64) -> Option<u64>
    ensures { result ≡ binary_value op a b }
{
    match op {
        Binary::Add => Some(a.wrapping_add(b)),
        Binary::Subtract => Some(a.wrapping_sub(b)),
        Binary::Multiply => Some(a.wrapping_mul(b)),
        Binary::DivideUnsigned => a.checked_div(b),
        Binary::RemainderUnsigned => a.checked_rem(b),
        Binary::DivideSigned if b == 0 => None,
        Binary::DivideSigned => Some(
            a.cast_signed()
                .wrapping_div(b.cast_signed())
                .cast_unsigned(),
        ),
        Binary::RemainderSigned if b == 0 => None,
        Binary::RemainderSigned => Some(
            a.cast_signed()
                .wrapping_rem(b.cast_signed())
                .cast_unsigned(),
        ),
        Binary::ShiftLeft => Some(if b < 64 { a << b } else { 0 }),
        Binary::ShiftRightUnsigned => Some(if b < 64 { a >> b } else { 0 }),
        Binary::ShiftRightSigned => Some((a.cast_signed() >> b.min(63)).cast_unsigned()),
        Binary::And => Some(a & b),
        Binary::Or => Some(a | b),
        Binary::Xor => Some(a ^ b),
        Binary::Equal => Some(u64::from(a == b)),
        Binary::LessSigned => Some(u64::from(a.cast_signed() < b.cast_signed())),
        Binary::LessUnsigned => Some(u64::from(a < b)),
    }
}

/// What an operation gives of a number.
#[tactic(auto, unfolding(crate::specs::Values::unary_value))]
pub fn apply_unary(op: Unary, a: u64) -> u64
    ensures { result ≡ unary_value op a }
{
    match op {
        Unary::IsZero => u64::from(a == 0),
        Unary::Complement => !a,
        Unary::SignExtend(0) => 0,
        Unary::SignExtend(bits) => {
            let above = 64_u32.saturating_sub(u32::from(bits));
            ((a << above).cast_signed() >> above).cast_unsigned()
        }
        Unary::ZeroExtend(bits) if bits < 64 => a % (1 << bits),
        Unary::ZeroExtend(_) => a,
    }
}
