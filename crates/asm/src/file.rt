//! The ELF file of a program: one segment at address 0, which is entered at its first byte.

ghost use Rattle.std.specs.Prelude.{◌≡◌, ◌++◌, ◌<◌, ◌^◌, [], List, ℕ, IfOk, OnOk, length};
ghost use Rattle.unixmodel.specs.ElfFile.{elf_file, elf_header, program_header};
ghost use Rattle.unixmodel.specs.Plan.{plan, plan_flat};

use std::alloc::{AllocError, Global};
use thiserror::Error;

/// The host has no memory.
#[derive(Clone, Copy, PartialEq, Eq, Debug, Error)]
#[error("no memory")]
pub struct NoMemory;

impl From<AllocError> for NoMemory {
    fn from(_error: AllocError) -> NoMemory {
        NoMemory
    }
}

// The program's offset in the file.
const PROGRAM_AT: usize = 4096;

const HEADER: [u8; 64] = [
    // magic, 64 bits, little-endian, version
    0x7f, b'E', b'L', b'F', 2, 1, 1, 0, 0, 0, 0, 0, 0, 0, 0, 0,
    // an executable, for RISC-V, version
    2, 0, 243, 0, 1, 0, 0, 0,
    // entry, where the program headers are, where the section headers are
    0, 0, 0, 0, 0, 0, 0, 0, 64, 0, 0, 0, 0, 0, 0, 0, 0, 0, 0, 0, 0, 0, 0, 0,
    // flags, the size of this header
    0, 0, 0, 0, 64, 0,
    // program headers: size and number; section headers: size, number, that of names
    56, 0, 1, 0, 0, 0, 0, 0, 0, 0,
];

// The program header up to the sizes.
const SEGMENT: [u8; 32] = [
    // loaded, with leave to read, write and execute
    1, 0, 0, 0, 7, 0, 0, 0,
    // offset in the file
    0, 16, 0, 0, 0, 0, 0, 0,
    // virtual and physical address
    0, 0, 0, 0, 0, 0, 0, 0, 0, 0, 0, 0, 0, 0, 0, 0,
];

#[tactic(auto, unfolding(unixmodel::specs::ElfFile::elf_header, unixmodel::specs::Memory::zeros))]
fn put_header(file: &mut Vec<u8>) -> Result<(), AllocError>
    ensures { OnOk result (file.new.items ≡ file.old.items ++ elf_header) }
{
    file.extend_from_slice(&HEADER)
}

fn put_program_header(file: &mut Vec<u8>, size: usize) -> Result<(), AllocError>
    ensures { OnOk result (file.new.items ≡ file.old.items ++ program_header size) }
{
    let size = (size as u64).to_le_bytes();
    file.extend_from_slice(&SEGMENT)?;
    // in the file, in memory, and the alignment
    file.extend_from_slice(&size)?;
    file.extend_from_slice(&size)?;
    file.extend_from_slice(&(PROGRAM_AT as u64).to_le_bytes())
}

/// The ELF file of a program's bytes, which are loaded at address 0 and entered there.
pub fn write_elf(alloc: Global, bytes: &[u8]) -> Result<Vec<u8>, NoMemory>
    ensures { IfOk result (λ file. file.items ≡ elf_file bytes.now) }
{
    let mut file = Vec::new(alloc);
    put_header(&mut file)?;
    put_program_header(&mut file, bytes.len())?;
    file.resize(PROGRAM_AT, 0)?;
    file.extend_from_slice(bytes)?;
    Ok(file)
}

/// What exec makes of a program's file, without arguments, is what a machine makes of the program's bytes at boot.
pub fn file_is_flat()
    ensures { (bytes : List ℕ) → length bytes < 2 ^ 64 → plan (elf_file bytes) [] ≡ plan_flat bytes }
{}
