//! The sections beside those of another writer, whose files binutils 2.40, LLVM and gdb read.

use crate::{Label, Row, Tables, with_sections};
use std::alloc::{AllocError, Global};
use std::process::Abort;

const FILE: &[u8] =
    b"\x7fELF\x02\x01\x01\0\0\0\0\0\0\0\0\0\x02\0\xf3\0\x01\0\0\0\0\0\0\0\0\0\0\0@\0\0\0\0\0\0\0\0\0\0\0\0\0\0\0\0\0\0\
    \0@\08\0\x01\0\0\0\0\0\0\0abc";

const WHOLE: &[u8] =
    b"\x7fELF\x02\x01\x01\0\0\0\0\0\0\0\0\0\x02\0\xf3\0\x01\0\0\0\0\0\0\0\0\0\0\0@\0\0\0\0\0\0\0\x98\x01\0\0\0\0\0\0\0\
    \0\0\0@\08\0\x01\0@\0\x08\0\x07\0abc\0\0\0\0\0\0\0\0\0\0\0\0\0\0\0\0\0\0\0\0\0\0\0\0\0\0\0\0\0\x01\0\0\0\0\0\x01\
    \0\0\0\0\0\0\0\0\0\0\0\0\0\0\0\0\0\x06\0\0\0\0\0\x01\0\x10\0\0\0\0\0\0\0\0\0\0\0\0\0\0\0\x0b\0\0\0\0\0\x01\0\x14\
    \0\0\0\0\0\0\0\0\0\0\0\0\0\0\0\0main\0done\0x\0[\0\0\0\x04\0&\0\0\0\x01\x01\x01\xfb\x0e\x0d\0\x01\x01\x01\x01\0\
    \0\0\x01\0\0\x01\0a/t.s\0\0\0\0lib.s\0\0\0\0\0\0\x09\x02\0\0\0\0\0\0\0\0\x16\x81\x04\x82\0\x03\xb8\x85\x80\0\x02\
    \x84\x80\0\x01\x03\xc6\xfa\xff\x7f\x02\x84\x80\0\x01\x04\x81\0J\x02\x84\x80\0\0\x01\x01$\0\0\0\x04\0\0\0\0\0\x08\
    \x01a/t.s\0\x01\x80\0\0\0\0\0\0\0\0\0\0\0\0\x18\0\0\0\0\0\0\0\x01\x11\0\x03\x08\x13\x05\x10\x17\x11\x01\x12\x07\
    \0\0\0\0.text\0.symtab\0.strtab\0.debug_line\0.debug_info\0.debug_abbrev\0.shstrtab\0\0\0\0\0\0\0\0\0\0\0\0\0\0\
    \0\0\0\0\0\0\0\0\0\0\0\0\0\0\0\0\0\0\0\0\0\0\0\0\0\0\0\0\0\0\0\0\0\0\0\0\0\0\0\0\0\0\0\0\0\0\0\0\0\0\0\0\0\0\0\0\
    \x01\0\0\0\x01\0\0\0\x07\0\0\0\0\0\0\0\0\0\0\0\0\0\0\0\0\x10\0\0\0\0\0\0\x18\0\0\0\0\0\0\0\0\0\0\0\0\0\0\0\x04\0\
    \0\0\0\0\0\0\0\0\0\0\0\0\0\0\x07\0\0\0\x02\0\0\0\0\0\0\0\0\0\0\0\0\0\0\0\0\0\0\0H\0\0\0\0\0\0\0`\0\0\0\0\0\0\0\
    \x03\0\0\0\x04\0\0\0\x08\0\0\0\0\0\0\0\x18\0\0\0\0\0\0\0\x0f\0\0\0\x03\0\0\0\0\0\0\0\0\0\0\0\0\0\0\0\0\0\0\0\xa8\
    \0\0\0\0\0\0\0\x0d\0\0\0\0\0\0\0\0\0\0\0\0\0\0\0\x01\0\0\0\0\0\0\0\0\0\0\0\0\0\0\0\x17\0\0\0\x01\0\0\0\0\0\0\0\0\
    \0\0\0\0\0\0\0\0\0\0\0\xb5\0\0\0\0\0\0\0_\0\0\0\0\0\0\0\0\0\0\0\0\0\0\0\x01\0\0\0\0\0\0\0\0\0\0\0\0\0\0\0#\0\0\0\
    \x01\0\0\0\0\0\0\0\0\0\0\0\0\0\0\0\0\0\0\0\x14\x01\0\0\0\0\0\0(\0\0\0\0\0\0\0\0\0\0\0\0\0\0\0\x01\0\0\0\0\0\0\0\
    \0\0\0\0\0\0\0\0/\0\0\0\x01\0\0\0\0\0\0\0\0\0\0\0\0\0\0\0\0\0\0\0<\x01\0\0\0\0\0\0\x10\0\0\0\0\0\0\0\0\0\0\0\0\0\
    \0\0\x01\0\0\0\0\0\0\0\0\0\0\0\0\0\0\0=\0\0\0\x03\0\0\0\0\0\0\0\0\0\0\0\0\0\0\0\0\0\0\0L\x01\0\0\0\0\0\0G\0\0\0\
    \0\0\0\0\0\0\0\0\0\0\0\0\x01\0\0\0\0\0\0\0\0\0\0\0\0\0\0\0";

const ROWS: [Row; 5] = [
    Row {
        address: 0,
        file: 0,
        line: 5,
    },
    Row {
        address: 8,
        file: 0,
        line: 4,
    },
    Row {
        address: 12,
        file: 1,
        line: 700,
    },
    Row {
        address: 16,
        file: 1,
        line: 2,
    },
    Row {
        address: 20,
        file: 0,
        line: 2,
    },
];

const LABELS: [Label<'static>; 3] = [
    Label {
        name: b"main",
        address: 0,
    },
    Label {
        name: b"done",
        address: 16,
    },
    Label {
        name: b"x",
        address: 20,
    },
];

// Whether the file gets these sections.
fn is_whole(alloc: Global) -> Result<bool, AllocError> {
    let files: [&[u8]; 2] = [b"a/t.s", b"lib.s"];
    let tables = Tables {
        files: &files,
        rows: &ROWS,
        labels: &LABELS,
        size: 24,
    };
    let out = with_sections(alloc, FILE, &tables)?;
    Ok(out.as_slice() == WHOLE)
}

fn expect_whole(rt: &(impl Abort + AllocGlobal)) -> Result<(), AllocError> {
    let holds = is_whole(rt.alloc())?;
    assert!(rt; holds, "the sections are others");
    Ok(())
}

#[test]
fn sections_are_those_of_another_writer(rt: HostRuntime) -> Result<(), AllocError> {
    expect_whole(&rt)
}
