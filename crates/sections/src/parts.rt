//! Parts of a file.

ghost use Rattle.std.specs.Prelude.{◌≡◌, drop, take};
ghost use Rattle.sections.specs.Headers.{before_zero, part, text_at};

/// The most bytes of a name that are read.
pub const MOST_NAME: usize = 255;

/// The bytes of a file at an offset, `size` of them; none where the file ends before them.
pub fn part(file: &[u8], offset: u64, size: u64) -> &[u8]
    ensures { result.now ≡ part file.now offset size }
{
    match offset.checked_add(size) {
        Some(end) if end <= file.len() as u64 => &file[offset as usize..end as usize],
        _ => &[],
    }
}

// The bytes from an offset on; none after the end.
pub(crate) fn from(bytes: &[u8], offset: u64) -> &[u8]
    ensures { result.now ≡ drop offset bytes.now }
{
    match usize::try_from(offset) {
        Ok(offset) if offset <= bytes.len() => &bytes[offset..],
        _ => &[],
    }
}

// The first bytes, as many as a name may have.
fn front(bytes: &[u8]) -> &[u8]
    ensures { result.now ≡ take 255 bytes.now }
{
    if bytes.len() <= MOST_NAME {
        return bytes;
    }
    &bytes[..MOST_NAME]
}

// The bytes before the first 0.
fn before_zero(bytes: &[u8]) -> &[u8]
    ensures { result.now ≡ before_zero bytes.now }
{
    for (length, byte) in bytes.iter().enumerate() {
        if *byte == 0 {
            return &bytes[..length];
        }
    }
    bytes
}

/// The text at an offset of a table of strings: the bytes up to the next 0, or to the end of the table, and at most
/// 255 of them (ELF-64 Object File Format, "String Table").
pub fn text_at(strings: &[u8], offset: u64) -> &[u8]
    ensures { result.now ≡ text_at strings.now offset }
{
    before_zero(front(from(strings, offset)))
}
