//! How the arguments of a call are read.
ghost use Rattle.std.specs.Prelude.{◌≡◌, ◌<◌, ◌%◌, ◌^◌, Some, None};
ghost use Rattle.unixmodel.specs.Numbers.{int_of, low, natural};

/// The low 32 bits of an argument.
pub fn low(argument: u64) -> u32
    ensures { result ≡ low argument }
{
    (argument % 0x1_0000_0000) as u32
}

/// An argument that is passed as an int: its low 32 bits, signed.
pub fn int(argument: u64) -> i32
    ensures { result ≡ int_of argument }
{
    low(argument).cast_signed()
}

/// The number that is passed as an int, where it is not below 0.
pub fn natural(argument: u64) -> Option<u32>
    ensures { result ≡ natural (int_of argument) }
{
    let bits = low(argument);
    if bits < 0x8000_0000 { Some(bits) } else { None }
}
