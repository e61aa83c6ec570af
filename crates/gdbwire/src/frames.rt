//! Frames, written.
ghost use Rattle.std.specs.Prelude.{◌≡◌, ◌++◌, OnOk, IfOk};
ghost use Rattle.gdbwire.specs.Frames.{checksum, framed, is_reserved, sent, sent_byte};

use crate::hex::push_byte;
use std::alloc::{AllocError, AllocFailed};

/// The byte before a reserved one, which is sent xor `FLIP`.
pub(crate) const ESCAPE: u8 = b'}';

/// What a reserved byte is xored with.
pub(crate) const FLIP: u8 = 0x20;

// Whether a byte must be escaped in a body.
#[tactic(auto, unfolding(crate::specs::Frames::is_reserved))]
fn is_reserved(byte: u8) -> bool
    ensures { result ≡ is_reserved byte }
{
    matches!(byte, b'#' | b'$' | b'*' | b'}')
}

// Puts a byte of a body at the end, and returns the sum of what was sent of it.
#[tactic(auto, unfolding(crate::specs::Frames::sent_byte))]
fn push_sent(byte: u8, out: &mut Vec<u8>) -> Result<u8, AllocError>
    ensures items { OnOk result (out.new.items ≡ out.old.items ++ sent_byte byte) }
    ensures sums { IfOk result (λ total. total ≡ checksum (sent_byte byte)) }
{
    if is_reserved(byte) {
        let flipped = byte ^ FLIP;
        out.extend_from_slice(&[ESCAPE, flipped])?;
        return Ok(ESCAPE.wrapping_add(flipped));
    }
    out.extend_from_slice(&[byte])?;
    Ok(byte)
}

// Puts a body at the end, as it is sent, and returns its sum.
fn push_body(body: &[u8], out: &mut Vec<u8>) -> Result<u8, AllocError>
    ensures items { OnOk result (out.new.items ≡ out.old.items ++ sent body.now) }
    ensures sums { IfOk result (λ total. total ≡ checksum (sent body.now)) }
{
    let mut total: u8 = 0;
    for byte in body {
        total = total.wrapping_add(push_sent(*byte, out)?);
    }
    Ok(total)
}

/// Puts the frame of a body at the end. An error leaves a beginning of it.
#[tactic(auto, unfolding(crate::specs::Frames::framed))]
pub fn push_frame(body: &[u8], out: &mut Vec<u8>) -> Result<(), AllocError>
    ensures { OnOk result (out.new.items ≡ out.old.items ++ framed body.now) }
{
    out.extend_from_slice(b"$")?;
    let total = push_body(body, out)?;
    out.extend_from_slice(b"#")?;
    push_byte(total, out)
}
