//! Names as binutils' `addr2line -s -f` has them, and files that are no such files.

use crate::Names;
use crate::samples::{CLANG_DWARF_5, GCC_DWARF_4, GCC_DWARF_5};
use std::alloc::{AllocError, Global};
use std::process::Abort;

// What an address is called; nothing where nothing is known.
fn text_of(alloc: Global, file: &[u8], address: u64) -> Result<String, AllocError> {
    match Names::of(alloc, file)?.at(address) {
        Some(name) => format!(in alloc; "{name}"),
        None => Ok(String::new(alloc)),
    }
}

// Whether an address is called so.
fn is_called(alloc: Global, file: &[u8], address: u64, wanted: &str) -> Result<bool, AllocError> {
    Ok(text_of(alloc, file, address)?.as_str() == wanted)
}

fn expect_names(
    rt: &(impl Abort + AllocGlobal),
    file: &[u8],
    rows: &[(u64, &str)],
) -> Result<(), AllocError> {
    for (address, wanted) in rows {
        let holds = is_called(rt.alloc(), file, *address, wanted)?;
        assert!(rt; holds, "{address:#x} is {wanted}");
    }
    Ok(())
}

const OF_GCC: [(u64, &str); 7] = [
    (0x0, "sum (oops.c:6)"),
    (0x14, "sum+0x14 (oops.c:7)"),
    (0x28, "sum+0x28 (oops.c:5)"),
    (0x34, "finish+0x4 (oops.c:15)"),
    (0x44, "_start+0x8 (oops.c:20)"),
    (0x6C, "_start+0x30 (oops.c:22)"),
    (0x78, ""),
];

const OF_CLANG: [(u64, &str); 6] = [
    (0x0, "_start (oops.c:19)"),
    (0x14, "_start+0x14 (oops.c:20)"),
    (0x34, "_start+0x34 (oops.c:22)"),
    (0x44, "sum (oops.c:4)"),
    (0x6C, "sum+0x28 (oops.c:8)"),
    (0x78, ""),
];

#[test]
fn names_are_those_of_addr2line(rt: HostRuntime) -> Result<(), AllocError> {
    expect_names(&rt, GCC_DWARF_4, &OF_GCC)?;
    expect_names(&rt, GCC_DWARF_5, &OF_GCC)?;
    expect_names(&rt, CLANG_DWARF_5, &OF_CLANG)
}
