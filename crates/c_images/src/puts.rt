//! Bytes that go where a caller wants them.
ghost use Rattle.std.specs.Prelude.{◌≡◌};
ghost use Rattle.c_images.specs.Copied.{copied};
ghost use Rattle.c_images.specs.Images.{bytes_put, count_put, number_of};

use crate::faults::Fault;

/// Copies as many bytes as there is room for.
pub fn copy(bytes: &[u8], out: &mut [u8])
    ensures { out.new ≡ copied bytes.now out.old }
{
    let count = bytes.len().min(out.len());
    out[..count].copy_from_slice(&bytes[..count]);
}

/// Copies as many bytes of an answer as there is room for: 0, or the number of the fault.
pub fn put_bytes<F: Fault>(answer: &Result<Vec<u8>, F>, out: &mut [u8]) -> u32
    ensures number { result ≡ number_of F.numbered answer.now }
    ensures copied { out.new ≡ bytes_put answer.now out.old }
{
    match answer {
        Ok(bytes) => {
            copy(bytes, out);
            0
        }
        Err(fault) => fault.number(),
    }
}

/// Puts how many bytes an answer has, unless there is a fault.
pub fn put_count<F>(answer: &Result<Vec<u8>, F>, count: &mut usize)
    ensures { count.new ≡ count_put answer.now count.old }
{
    if let Ok(bytes) = answer {
        *count = bytes.len();
    }
}
