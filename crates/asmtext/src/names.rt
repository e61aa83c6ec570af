//! The names of registers.
ghost use Rattle.std.specs.Prelude.{◌≡◌, ◌<◌, IfSome, bytes_eq, slice_index_or, []};
ghost use Rattle.unixmodel.specs.Names as the;
ghost use Rattle.unixmodel.specs.Operands.{place_among, register_called};

use isa::register_name;
use unixmodel::instr::Reg;

// Whether the name is that.
fn is(that: &[u8], name: &[u8]) -> bool
    ensures { result ≡ bytes_eq that.now name.now }
{
    that == name
}

fn register_named(name: &[u8]) -> Option<u8>
    ensures is { result ≡ place_among the.register_names name.now }
    ensures within { IfSome result (λ r. r < 32) }
{
    for r in 0..32u8 {
        if is(register_name(Reg::new(r)).as_bytes(), name) {
            return Some(r);
        }
    }
    None
}

// The name of a register by its number.
#[tactic(auto, using(crate::proofs::NameLemmas::spelled))]
fn register_number(r: u8) -> &'static [u8]
    requires { r < 32 }
    ensures { result.now ≡ slice_index_or the.register_numbers r [] }
{
    match r {
        0 => b"x0",
        1 => b"x1",
        2 => b"x2",
        3 => b"x3",
        4 => b"x4",
        5 => b"x5",
        6 => b"x6",
        7 => b"x7",
        8 => b"x8",
        9 => b"x9",
        10 => b"x10",
        11 => b"x11",
        12 => b"x12",
        13 => b"x13",
        14 => b"x14",
        15 => b"x15",
        16 => b"x16",
        17 => b"x17",
        18 => b"x18",
        19 => b"x19",
        20 => b"x20",
        21 => b"x21",
        22 => b"x22",
        23 => b"x23",
        24 => b"x24",
        25 => b"x25",
        26 => b"x26",
        27 => b"x27",
        28 => b"x28",
        29 => b"x29",
        30 => b"x30",
        _ => b"x31",
    }
}

fn register_numbered(name: &[u8]) -> Option<u8>
    ensures is { result ≡ place_among the.register_numbers name.now }
    ensures within { IfSome result (λ r. r < 32) }
{
    for r in 0..32u8 {
        if is(register_number(r), name) {
            return Some(r);
        }
    }
    None
}

/// The register of this name: x0 to x31, or its other name.
#[tactic(auto, unfolding(unixmodel::specs::Operands::register_called))]
pub fn register_called(name: &[u8]) -> Option<Reg>
    ensures { result ≡ register_called name.now }
{
    match register_numbered(name) {
        Some(r) => Some(Reg::new(r)),
        None => Some(Reg::new(register_named(name)?)),
    }
}
