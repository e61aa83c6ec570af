//! From a text to a file.
ghost use Rattle.std.specs.Prelude.{◌≡◌, IfErr, IfOk};
ghost use Rattle.unixmodel.specs.Assembly.{assembled};
ghost use Rattle.asm.specs.Emitted.{Tells};

use crate::emit::codes;
use crate::fault::AsmFault;
use crate::file::write_elf;
use crate::layout::place;
use asmtext::lines;
use std::alloc::Global;

/// The ELF file of an assembly text, or what is wrong with the text: the lowest line with a fault, and in
/// it the lowest kind.
pub fn assemble(alloc: Global, text: &str) -> Result<Vec<u8>, AsmFault>
    ensures made { IfOk result (λ file. assembled text.now ≡ Ok file.items) }
    ensures fault { IfErr result (Tells (assembled text.now)) }
{
    let lines = lines(alloc, text.as_bytes())?;
    let placed = place(alloc, &lines)?;
    let program = codes(alloc, &placed)?;
    Ok(write_elf(alloc, &program)?)
}
