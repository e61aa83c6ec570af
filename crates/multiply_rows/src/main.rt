//! Multiplications and divisions beside a table that another language worked out.
//!
//! Standard input has a line for each row: an instruction's name and its word, what registers 6 and 7 hold, and what
//! register 5 holds after it, in hexadecimal digits. `rows.py` writes such a table. The program does each word on a
//! hart, and prints how many rows there are; the first row that does not hold ends it with status 1.
#![tactic(auto)]

use anyhow::{Context, bail, ensure};
use hart::Hart;
use ram::{FrameNo, Ram};
use std::alloc::Global;
use std::io;
use sv39::Plain;

/// A row of the table.
#[derive(Clone, Copy)]
struct Row<'a> {
    /// The instruction's name.
    name: &'a str,
    word: u32,
    /// What register 6 holds.
    a: u64,
    /// What register 7 holds.
    b: u64,
    /// What register 5 has to hold after the instruction.
    wanted: u64,
}

// A number in hexadecimal digits.
fn number(digits: &str) -> Option<u64> {
    u64::from_str_radix(digits, 16).ok()
}

impl<'a> Row<'a> {
    /// The row that a line has.
    fn read(line: &'a str) -> Option<Row<'a>> {
        let (name, rest) = line.split_once(' ')?;
        let (word, rest) = rest.split_once(' ')?;
        let (a, rest) = rest.split_once(' ')?;
        let (b, wanted) = rest.split_once(' ')?;
        Some(Row {
            name,
            word: u32::from_str_radix(word, 16).ok()?,
            a: number(a)?,
            b: number(b)?,
            wanted: number(wanted)?,
        })
    }
}

// A memory with tables in frames 0 to 2, and the word at address 0, in frame 3.
fn memory(alloc: Global, word: u32) -> anyhow::Result<Ram> {
    let Ok(mut ram) = Ram::new(alloc, 4) else {
        bail!("no memory");
    };
    ram.store_u64(FrameNo(0), 0, 0x2000_0401);
    ram.store_u64(FrameNo(1), 0, 0x2000_0801);
    ram.store_u64(FrameNo(2), 0, 0x2000_0c5b);
    ram.store_u32(FrameNo(3), 0, word);
    Ok(ram)
}

// What register 5 holds after a word, where registers 6 and 7 hold a and b.
fn given(alloc: Global, word: u32, a: u64, b: u64) -> anyhow::Result<u64> {
    let mut ram = memory(alloc, word)?;
    let mut registers = [0; 32];
    registers[6] = a;
    registers[7] = b;
    let mut hart = Hart {
        registers,
        pc: 0,
        root: FrameNo(0),
    };
    let trap = hart.step(&mut ram, &mut Plain::new());
    ensure!(trap.is_none(), "a trap");
    Ok(hart.registers[5])
}

// Does the row's instruction: it has to give what the row says.
fn hold(alloc: Global, line: &str) -> anyhow::Result<()> {
    let row = Row::read(line).context("a row has a name and four numbers")?;
    let given = given(alloc, row.word, row.a, row.b)?;
    ensure!(given == row.wanted, "{} gives {given:x}", row.name);
    Ok(())
}

// How many rows a table has, all of which hold.
fn count(alloc: Global, table: &str) -> anyhow::Result<u64> {
    let mut count: u64 = 0;
    for line in table.lines() {
        hold(alloc, line).context(line)?;
        count = count.saturating_add(1);
    }
    Ok(count)
}

fn main(rt: HostRuntime) -> anyhow::Result<()> {
    let alloc = rt.alloc();
    let table = io::read_to_string(alloc, rt.reader())?;
    let count = count(alloc, table.as_str())?;
    println!(rt; "{count} rows")?;
    Ok(())
}
