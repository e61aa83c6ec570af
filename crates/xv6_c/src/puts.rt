//! Results that are put where a caller wants them.
ghost use Rattle.std.specs.Prelude.{◌≡◌};
ghost use Rattle.xv6_c.specs.Numbers.{answer_number};
ghost use Rattle.xv6_c.specs.Puts.{Puts, image_put, length_put, number_put, stat_put};

use crate::numbers::of_halt;
use crate::told::{StatTold, of_stat};
use machine::{Halt, Stat};

/// Puts what there is: 0, or 1 where there is nothing.
pub fn put<T: Copy>(there: Option<T>, out: &mut T) -> u32
    ensures { Puts there out.old out.new result }
{
    match there {
        None => 1,
        Some(value) => {
            *out = value;
            0
        }
    }
}

/// Puts a node: 0, or why the machine stops.
pub fn put_stat(answer: Result<Option<Stat>, Halt>, out: &mut StatTold) -> u32
    ensures number { result ≡ answer_number answer }
    ensures put { out.new ≡ stat_put answer out.old }
{
    match answer {
        Ok(stat) => {
            *out = of_stat(stat);
            0
        }
        Err(halt) => of_halt(halt),
    }
}

/// Puts a number: 0, or why the machine stops.
pub fn put_number<T: Copy>(answer: Result<T, Halt>, out: &mut T) -> u32
    ensures number { result ≡ answer_number answer }
    ensures put { out.new ≡ number_put answer out.old }
{
    match answer {
        Ok(number) => {
            *out = number;
            0
        }
        Err(halt) => of_halt(halt),
    }
}

/// Puts as much of an image as there is room for, and how many bytes it has: 0, or why there is none.
pub fn put_image(answer: Result<Vec<u8>, Halt>, out: &mut [u8], bytes: &mut usize) -> u32
    ensures number { result ≡ answer_number answer }
    ensures copied { out.new ≡ image_put answer out.old }
    ensures count { bytes.new ≡ length_put answer bytes.old }
{
    match answer {
        Ok(image) => {
            let count = image.len().min(out.len());
            out[..count].copy_from_slice(&image.as_slice()[..count]);
            *bytes = image.len();
            0
        }
        Err(halt) => of_halt(halt),
    }
}
