//! Numbers as bytes.

ghost use Rattle.std.specs.Prelude.{◌≡◌, ◌++◌, OnOk};
ghost use Rattle.debug_sections.specs.Bytes.{double, half, piece, small, with_address_advance, with_line_advance, word};

use std::alloc::AllocError;

/// Adds a number of two bytes.
#[tactic(auto, unfolding(crate::specs::Bytes::half))]
pub(crate) fn put_half(out: &mut Vec<u8>, number: u16) -> Result<(), AllocError>
    ensures { OnOk result (out.new.items ≡ out.old.items ++ half number) }
{
    out.extend_from_slice(&number.to_le_bytes())?;
    Ok(())
}

/// Adds a number of four bytes.
#[tactic(auto, unfolding(crate::specs::Bytes::word))]
pub(crate) fn put_word(out: &mut Vec<u8>, number: u32) -> Result<(), AllocError>
    ensures { OnOk result (out.new.items ≡ out.old.items ++ word number) }
{
    out.extend_from_slice(&number.to_le_bytes())?;
    Ok(())
}

/// Adds a number of eight bytes.
#[tactic(auto, unfolding(crate::specs::Bytes::double))]
pub(crate) fn put_double(out: &mut Vec<u8>, number: u64) -> Result<(), AllocError>
    ensures { OnOk result (out.new.items ≡ out.old.items ++ double number) }
{
    out.extend_from_slice(&number.to_le_bytes())?;
    Ok(())
}

/// The low 32 bits of a number.
pub(crate) fn small(number: u64) -> u32
    ensures { result ≡ small number }
{
    (number % 0x1_0000_0000) as u32
}

// Seven bits of a number, which are not its last ones, as a byte of LEB128 (DWARF 4, section 7.6).
fn piece(number: u64) -> u8
    ensures { result ≡ piece number }
{
    (number % 128) as u8 + 128
}

/// Adds `DW_LNS_advance_pc` with a number below 2 ^ 21, in three bytes.
pub(crate) fn put_address_advance(out: &mut Vec<u8>, advance: u64) -> Result<(), AllocError>
    ensures { OnOk result (out.new.items ≡ with_address_advance out.old.items advance) }
{
    out.extend_from_slice(&[
        2,
        piece(advance),
        piece(advance / 0x80),
        (advance / 0x4000 % 128) as u8,
    ])?;
    Ok(())
}

/// Adds `DW_LNS_advance_line` with the low 28 bits of a number, in four bytes.
pub(crate) fn put_line_advance(out: &mut Vec<u8>, advance: u64) -> Result<(), AllocError>
    ensures { OnOk result (out.new.items ≡ with_line_advance out.old.items advance) }
{
    out.extend_from_slice(&[
        3,
        piece(advance),
        piece(advance / 0x80),
        piece(advance / 0x4000),
        (advance / 0x20_0000 % 128) as u8,
    ])?;
    Ok(())
}
