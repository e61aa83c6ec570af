//! Registers, and their description.
ghost use Rattle.std.specs.Prelude.{◌≡◌, ◌++◌, OnOk, flat_map};
ghost use Rattle.gdbreplies.specs.Replies.{attribute_sent, description, register_sent, registers_sent};
ghost use Rattle.gdbreplies.specs.Replies.{architecture, numbers_sent, row_head, row_sent, use_sent};

use gdbwire::push_bytes;
use std::alloc::AllocError;

/// Puts a register at the end: its eight bytes, the lowest first. An error leaves a beginning of it.
pub fn push_register(value: u64, out: &mut Vec<u8>) -> Result<(), AllocError>
    ensures { OnOk result (out.new.items ≡ out.old.items ++ register_sent value) }
{
    push_bytes(&value.to_le_bytes(), out)
}

/// Puts all registers at the end: x0 to x31, and the pc. An error leaves a beginning of them.
pub fn push_registers(registers: &[u64; 32], pc: u64, out: &mut Vec<u8>) -> Result<(), AllocError>
    ensures { OnOk result (out.new.items ≡ out.old.items ++ registers_sent registers.now pc) }
{
    for value in registers {
        push_register(*value, out)?;
    }
    push_register(pc, out)
}

/// A register as it is described: its name, what it holds, its number, its offset among the bytes of all, and what lldb
/// uses it for. The number and the offset are decimal.
type Row<'a> = (&'a [u8], &'a [u8], &'a [u8], &'a [u8], &'a [u8]);

const ROWS: [Row<'static>; 33] = [
    (b"zero", b"int", b"0", b"0", b""),
    (b"ra", b"code_ptr", b"1", b"8", b"ra"),
    (b"sp", b"data_ptr", b"2", b"16", b"sp"),
    (b"gp", b"data_ptr", b"3", b"24", b""),
    (b"tp", b"data_ptr", b"4", b"32", b""),
    (b"t0", b"int", b"5", b"40", b""),
    (b"t1", b"int", b"6", b"48", b""),
    (b"t2", b"int", b"7", b"56", b""),
    (b"fp", b"data_ptr", b"8", b"64", b"fp"),
    (b"s1", b"int", b"9", b"72", b""),
    (b"a0", b"int", b"10", b"80", b"arg1"),
    (b"a1", b"int", b"11", b"88", b"arg2"),
    (b"a2", b"int", b"12", b"96", b"arg3"),
    (b"a3", b"int", b"13", b"104", b"arg4"),
    (b"a4", b"int", b"14", b"112", b"arg5"),
    (b"a5", b"int", b"15", b"120", b"arg6"),
    (b"a6", b"int", b"16", b"128", b"arg7"),
    (b"a7", b"int", b"17", b"136", b"arg8"),
    (b"s2", b"int", b"18", b"144", b""),
    (b"s3", b"int", b"19", b"152", b""),
    (b"s4", b"int", b"20", b"160", b""),
    (b"s5", b"int", b"21", b"168", b""),
    (b"s6", b"int", b"22", b"176", b""),
    (b"s7", b"int", b"23", b"184", b""),
    (b"s8", b"int", b"24", b"192", b""),
    (b"s9", b"int", b"25", b"200", b""),
    (b"s10", b"int", b"26", b"208", b""),
    (b"s11", b"int", b"27", b"216", b""),
    (b"t3", b"int", b"28", b"224", b""),
    (b"t4", b"int", b"29", b"232", b""),
    (b"t5", b"int", b"30", b"240", b""),
    (b"t6", b"int", b"31", b"248", b""),
    (b"pc", b"code_ptr", b"32", b"256", b"pc"),
];

// Puts a name and a text in quotes at the end.
#[tactic(auto, unfolding(crate::specs::Replies::attribute_sent))]
fn push_attribute(name: &[u8], text: &[u8], out: &mut Vec<u8>) -> Result<(), AllocError>
    ensures { OnOk result (out.new.items ≡ out.old.items ++ attribute_sent name.now text.now) }
{
    out.extend_from_slice(b" ")?;
    out.extend_from_slice(name)?;
    out.extend_from_slice(b"=\"")?;
    out.extend_from_slice(text)?;
    out.extend_from_slice(b"\"")
}

// Puts what lldb uses a register for at the end, if it does.
fn push_use(generic: &[u8], out: &mut Vec<u8>) -> Result<(), AllocError>
    ensures { OnOk result (out.new.items ≡ out.old.items ++ use_sent generic.now) }
{
    if generic.is_empty() {
        return Ok(());
    }
    push_attribute(b"generic", generic, out)
}

// Puts what all registers have in common at the end.
#[tactic(auto, unfolding(crate::specs::Replies::row_head))]
fn push_row_head(out: &mut Vec<u8>) -> Result<(), AllocError>
    ensures { OnOk result (out.new.items ≡ out.old.items ++ row_head) }
{
    out.extend_from_slice(
        b"<reg bitsize=\"64\" encoding=\"uint\" format=\"hex\" group=\"general\" group_id=\"1\"",
    )
}

// Puts the numbers of a register at the end, and its offset among the bytes of all.
#[tactic(auto, unfolding(crate::specs::Replies::numbers_sent))]
fn push_numbers(number: &[u8], place: &[u8], out: &mut Vec<u8>) -> Result<(), AllocError>
    ensures { OnOk result (out.new.items ≡ out.old.items ++ numbers_sent number.now place.now) }
{
    push_attribute(b"regnum", number, out)?;
    push_attribute(b"dwarf_regnum", number, out)?;
    push_attribute(b"ehframe_regnum", number, out)?;
    push_attribute(b"offset", place, out)
}

// Puts a register at the end.
#[tactic(auto, unfolding(crate::specs::Replies::row_sent))]
fn push_row(row: &Row<'_>, out: &mut Vec<u8>) -> Result<(), AllocError>
    ensures { OnOk result (out.new.items ≡ out.old.items
        ++ row_sent row.now.0.now row.now.1.now row.now.2.now row.now.3.now row.now.4.now) }
{
    let (name, holds, number, place, generic) = *row;
    push_row_head(out)?;
    push_attribute(b"name", name, out)?;
    push_attribute(b"type", holds, out)?;
    push_numbers(number, place, out)?;
    push_use(generic, out)?;
    out.extend_from_slice(b"/>")
}

// Puts registers at the end.
fn push_rows(rows: &[Row<'_>], out: &mut Vec<u8>) -> Result<(), AllocError>
    ensures { OnOk result (out.new.items ≡ out.old.items
        ++ flat_map (λ r. row_sent r.0.now r.1.now r.2.now r.3.now r.4.now) rows.now) }
{
    for row in rows {
        push_row(row, out)?;
    }
    Ok(())
}

// Puts what comes before the registers at the end.
#[tactic(auto, unfolding(crate::specs::Replies::architecture))]
fn push_architecture(out: &mut Vec<u8>) -> Result<(), AllocError>
    ensures { OnOk result (out.new.items ≡ out.old.items ++ architecture) }
{
    out.extend_from_slice(
        b"<target version=\"1.0\"><architecture>riscv:rv64</architecture><osabi>none</osabi>",
    )
}

/// Puts the description of all registers at the end, in gdb's format, with what lldb wants beside it. With another
/// `osabi` gdb would step by breaks of its own. An error leaves a beginning of it.
pub fn push_description(out: &mut Vec<u8>) -> Result<(), AllocError>
    ensures { OnOk result (out.new.items ≡ out.old.items ++ description) }
{
    push_architecture(out)?;
    out.extend_from_slice(b"<feature name=\"org.gnu.gdb.riscv.cpu\">")?;
    push_rows(&ROWS, out)?;
    out.extend_from_slice(b"</feature></target>")
}
