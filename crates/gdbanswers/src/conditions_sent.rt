//! The conditions of a break, as gdb sends them: `X`, the length of the code, `,` and its digits, for each.
ghost use Rattle.std.specs.Prelude.{IfOk, length, vec_len, ◌≤◌};

use gdbwire::{cut, number, push_decoded};
use std::alloc::{AllocError, Global};

// The digits of the first condition of a text, and what follows them.
fn first_of(text: &[u8]) -> Option<(&[u8], &[u8])> {
    let rest = text.strip_prefix(b"X")?;
    let (count, rest) = cut(b',', rest)?;
    let digits = number(count)?.checked_mul(2)? as usize;
    let code = rest.get(..digits)?;
    let rest = rest.get(digits..)?;
    Some((code, rest))
}

// The code that digits stand for.
fn code_of(alloc: Global, digits: &[u8]) -> Result<Option<Vec<u8>>, AllocError> {
    let mut code = Vec::new(alloc);
    if push_decoded(digits, &mut code)? {
        Ok(Some(code))
    } else {
        Ok(None)
    }
}

/// The codes of the conditions that a text has. There are none where one is ill-formed, so that the break always stops.
pub fn conditions_in(alloc: Global, text: &[u8]) -> Result<Vec<Vec<u8>>, AllocError>
    ensures { IfOk result (λ codes. vec_len codes ≤ length text.now) }
{
    let mut codes = Vec::new(alloc);
    let mut rest = text;
    'condition: for _condition in 0..text.len() {
        if rest.first() != Some(&b'X') {
            break;
        }
        let Some((digits, more)) = first_of(rest) else {
            return Ok(Vec::new(alloc));
        };
        let Some(code) = code_of(alloc, digits)? else {
            return Ok(Vec::new(alloc));
        };
        codes.push(code)?;
        rest = more;
    }
    Ok(codes)
}
