//! Texts for other assemblers beside what GNU as and ld make of them.
//!
//! Standard input has the texts, each after a line `@ LENGTH SUM`: how many bytes the program has, and their FNV-1a sum
//! of 64 bits in hexadecimal digits. `trials/as.py --rows` writes them. The program assembles each, and prints how many
//! there are; the first whose program has other bytes ends it with status 1.
#![tactic(auto)]

use anyhow::{Context, bail, ensure};
use assembly_texts::{File, Sources, make, read};
use std::alloc::{AllocError, Global};
use std::io;

/// Where the program's bytes begin in its file.
const PROGRAM_AT: usize = 4096;

/// The texts include nothing.
#[derive(Clone, Copy)]
struct NoFiles;

impl Sources for NoFiles {
    fn text(&mut self, _name: &str) -> Result<Option<Vec<u8>>, AllocError> {
        Ok(None)
    }
}

/// A text, and what its program has to be.
#[derive(Clone, Copy)]
struct Row<'a> {
    length: usize,
    sum: u64,
    text: &'a str,
}

impl<'a> Row<'a> {
    /// The row that begins after an `@`.
    fn read(row: &'a str) -> Option<Row<'a>> {
        let (first, text) = row.split_once('\n')?;
        let (length, sum) = first.split_once(' ')?;
        Some(Row {
            length: length.parse().ok()?,
            sum: u64::from_str_radix(sum, 16).ok()?,
            text,
        })
    }
}

// The FNV-1a sum of bytes.
fn sum(bytes: &[u8]) -> u64 {
    let mut sum = 0xcbf2_9ce4_8422_2325u64;
    for byte in bytes {
        sum = (sum ^ u64::from(*byte)).wrapping_mul(0x100_0000_01b3);
    }
    sum
}

// The file of a text's program.
fn file_of(alloc: Global, text: &str) -> anyhow::Result<Vec<u8>> {
    let file = File {
        name: "text.s",
        text: text.as_bytes(),
    };
    let program = read(alloc, &mut NoFiles, &[file])?;
    match make(alloc, &program) {
        Ok(made) => Ok(made.file),
        Err(_) => bail!("no program is made of it"),
    }
}

// Assembles the text of a row, which has to come to the row's bytes.
fn hold(alloc: Global, row: &str) -> anyhow::Result<()> {
    let row = Row::read(row).context("a row has a length, a sum and a text")?;
    let file = file_of(alloc, row.text)?;
    let bytes = file.get(PROGRAM_AT..).context("the file has no program")?;
    ensure!(bytes.len() == row.length, "it has {} bytes", bytes.len());
    ensure!(sum(bytes) == row.sum, "its bytes are others");
    Ok(())
}

// How many rows there are, all of which hold.
fn count(alloc: Global, rows: &str) -> anyhow::Result<u64> {
    let mut count: u64 = 0;
    for row in rows.split("\n@ ") {
        hold(alloc, row).context(row)?;
        count = count.saturating_add(1);
    }
    Ok(count)
}

fn main(rt: HostRuntime) -> anyhow::Result<()> {
    let alloc = rt.alloc();
    let rows = io::read_to_string(alloc, rt.reader())?;
    let rows = rows
        .as_str()
        .strip_prefix("@ ")
        .context("the texts begin with an @")?;
    let count = count(alloc, rows)?;
    println!(rt; "{count} texts")?;
    Ok(())
}
