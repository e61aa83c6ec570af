//! The arguments of calls.
ghost use Rattle.std.specs.Prelude.{◌≡◌, ◌∷◌, []};
ghost use Rattle.unixmodel.specs.Numbers.{int_of};
ghost use Rattle.jsonrows.specs.Arguments.{arguments, short_of};

use arrayvec::ArrayVec;
use serde::Serialize;
use std::fmt;
use unixmodel::call::Call;

/// The most arguments of a call.
pub const MOST_ARGUMENTS: usize = 3;

/// An argument of a call: a number of 32 bits with its sign, or an address.
#[derive(Clone, Copy, Serialize)]
#[serde(untagged)]
pub enum Argument {
    Int(i32),
    Address(u64),
}

impl Default for Argument {
    fn default() -> Argument {
        Argument::Int(0)
    }
}

/// As `3` and `0x2f80`.
impl fmt::Display for Argument {
    fn fmt<W: fmt::Write>(&self, f: &mut fmt::Formatter<W>) -> fmt::Result {
        match self {
            Argument::Int(number) => write!(f, "{number}"),
            Argument::Address(address) => write!(f, "{address:#x}"),
        }
    }
}

/// A number as the kernel takes it: the low 32 bits, with their sign.
pub fn int(register: u64) -> i32
    ensures { result ≡ int_of register }
{
    ((register % 0x1_0000_0000) as u32).cast_signed()
}

/// A device's number: the low 16 bits, with their sign.
pub fn short(register: u64) -> i16
    ensures { result ≡ short_of register }
{
    ((register % 0x1_0000) as u16).cast_signed()
}

type Arguments = ArrayVec<Argument, MOST_ARGUMENTS>;

fn one(first: Argument) -> Arguments
    ensures { result.items ≡ first ∷ [] }
{
    let mut arguments = ArrayVec::new();
    arguments.push(first);
    arguments
}

fn two(first: Argument, second: Argument) -> Arguments
    ensures { result.items ≡ first ∷ second ∷ [] }
{
    let mut arguments = one(first);
    arguments.push(second);
    arguments
}

fn three(first: Argument, second: Argument, third: Argument) -> Arguments
    ensures { result.items ≡ first ∷ second ∷ third ∷ [] }
{
    let mut arguments = two(first, second);
    arguments.push(third);
    arguments
}

/// The arguments of a call that is made with this in a0, a1 and a2.
pub fn arguments_of(call: Option<Call>, a0: u64, a1: u64, a2: u64) -> Arguments
    ensures { result.items ≡ arguments call a0 a1 a2 }
{
    match call {
        None => three(
            Argument::Address(a0),
            Argument::Address(a1),
            Argument::Address(a2),
        ),
        Some(Call::Fork | Call::Getpid | Call::Uptime) => ArrayVec::new(),
        Some(Call::Exit | Call::Kill | Call::Dup | Call::Sbrk | Call::Sleep | Call::Close) => {
            one(Argument::Int(int(a0)))
        }
        Some(Call::Wait | Call::Pipe | Call::Chdir | Call::Unlink | Call::Mkdir) => {
            one(Argument::Address(a0))
        }
        Some(Call::Read | Call::Write) => {
            three(
                Argument::Int(int(a0)),
                Argument::Address(a1),
                Argument::Int(int(a2)),
            )
        }
        Some(Call::Exec | Call::Link) => two(Argument::Address(a0), Argument::Address(a1)),
        Some(Call::Fstat) => two(Argument::Int(int(a0)), Argument::Address(a1)),
        Some(Call::Open) => two(Argument::Address(a0), Argument::Int(int(a1))),
        Some(Call::Mknod) => {
            let (major, minor) = (i32::from(short(a1)), i32::from(short(a2)));
            three(
                Argument::Address(a0),
                Argument::Int(major),
                Argument::Int(minor),
            )
        }
    }
}
