//! How far a target is from an address.
ghost use Rattle.std.specs.Prelude.{◌≡◌, ◌≤◌, ◌<◌, ◌^◌, ◌%◌, IfOk, map, option_map};
ghost use Rattle.unixmodel.specs.Assembly as the;
ghost use Rattle.unixmodel.specs.Numbers.{away};
ghost use Rattle.asmtext.specs.Numbers.{field_within};
ghost use Rattle.asmtext.specs.Statements.{target_of};
ghost use Rattle.asm.specs.Distance.{distance_seen};
ghost use Rattle.asm.specs.Labels.{Finds};
ghost use Rattle.asm.specs.Placed.{placed_seen};

use crate::labels::{Labels, definition};
use crate::layout::Placed;
use asmtext::{Number, Target};
use unixmodel::assembly::AsmKind;

/// A number that is written, or the distance from one address to another.
#[derive(Clone, Copy)]
pub enum Distance<'a> {
    Number(&'a Number),
    Between(u128, u128),
}

// The field of `bits` bits that has the distance between addresses, where it lies from -below to above.
fn field_between(from: u128, to: u128, below: u64, above: u64, bits: u32) -> Option<u64>
    requires { (bits ≤ 64) × (below < 2 ^ bits) × (above < 2 ^ bits) }
    ensures { result ≡ field_within below above bits (away from to) }
{
    if from <= to {
        let ahead = to - from;
        if ahead <= above as u128 {
            return Some(ahead as u64);
        }
        return None;
    }
    let back = from - to;
    if back <= below as u128 {
        return Some((2u128.pow(bits) - back) as u64);
    }
    None
}

impl<'a> Distance<'a> {
    /// The field of `bits` bits that has it, where it lies from -below to above.
    pub fn field_in(&self, below: u64, above: u64, bits: u32) -> Option<u64>
        requires { (bits ≤ 64) × (below < 2 ^ bits) × (above < 2 ^ bits) }
        ensures { result ≡ field_within below above bits (distance_seen self.now) }
    {
        match self {
            Distance::Number(number) => number.field_in(below, above, bits),
            Distance::Between(from, to) => field_between(*from, *to, below, above, bits),
        }
    }

    /// The offset of `bits` bits that goes this far.
    pub fn offset(&self, bits: u32) -> Result<u64, AsmKind>
        requires { (1 ≤ bits) × (bits ≤ 32) }
        ensures is { result ≡ the.offset_field bits (distance_seen self.now) }
        ensures even { IfOk result (λ offset. offset % 2 ≡ 0) }
        ensures fits { IfOk result (λ offset. offset < 2 ^ bits) }
    {
        let half = 2u64.pow(bits - 1);
        let Some(offset) = self.field_in(half, half - 1, bits) else {
            return Err(AsmKind::Range);
        };
        if offset % 2 == 1 {
            return Err(AsmKind::Align);
        }
        Ok(offset)
    }
}

/// How far a target is, seen from a base: the number that it is, or the distance to its label.
pub fn distance_to<'a>(
    placed: &[Placed],
    labels: &Labels,
    base: u128,
    target: &'a Target,
) -> Option<Distance<'a>>
    requires { Finds labels.now (map placed_seen placed.now) }
    ensures { option_map distance_seen result ≡ the.distance (map placed_seen placed.now) base (target_of target.now) }
{
    match target {
        Target::Number(number) => Some(Distance::Number(number)),
        Target::Label(name) => {
            let first = definition(placed, labels, name)?;
            Some(Distance::Between(base, first.address))
        }
    }
}
