//! Lines that are typed with a terminal's keys, against the keys of the finished lines.
use crate::editor::Editor;
use std::alloc::{AllocError, Global};
use std::process::Abort;

// What is typed, and what is given away.
type Row = (&'static [u8], &'static [u8]);

static ROWS: [Row; 14] = [
    (b"ls\n", b"ls\n"),
    (b"lx\x7fs\n", b"ls\n"),
    (b"s\x1b[Dl\n", b"ls\n"),
    (b"sh\x1b[Hec\x1b[F\x1b[Do\x1b[C \n", b"ecsoh \n"),
    (b"\x1b[Ca\x1b[D\x1b[D\x1b[Db\n", b"ba\n"),
    (b"echo one  \x17two\n", b"echo two\n"),
    (b"one\x15ls\n", b"ls\n"),
    (b"lsx\x1b[1~\x1b[C\x1b[C\x1b[3~\n", b"ls\n"),
    (b"ls one\x02\x02\x02\x02\x0b\n", b"ls\n"),
    (b"one\ntwo\n\x1b[A\x1b[A\n", b"one\ntwo\none\n"),
    (b"one\ntwo\n\x1bOA\x1bOA\x1bOB!\x1bOB\n", b"one\ntwo\n\n"),
    (b"\x04a\x04\x1b[D\x04\n", b"\x04\n"),
    (b"a\x00\x1bq\tb\xc3\xa9\n", b"ab\n"),
    (b"\x1b[A\x1b[Bls\r", b"ls\n"),
];

fn given(alloc: Global, typed: &[u8]) -> Result<Vec<u8>, AllocError> {
    let mut editor = Editor::new(alloc);
    let mut given = Vec::new(alloc);
    for key in typed {
        if let Some(keys) = editor.take(*key) {
            given.extend_from_slice(keys.as_slice())?;
        }
    }
    Ok(given)
}

fn expect_row(rt: &(impl Abort + AllocGlobal), row: &Row) {
    let (typed, wanted) = row;
    let given = given(rt.alloc(), typed).expect(rt, "memory");
    let text = str::from_utf8(wanted).unwrap_or("a row");
    assert!(rt; given.as_slice() == *wanted, "{text}");
}

fn expect_rows(rt: &(impl Abort + AllocGlobal)) {
    for row in &ROWS {
        expect_row(rt, row);
    }
}

#[test]
fn lines_are_edited(rt: HostRuntime) {
    expect_rows(&rt);
}

#[test]
fn a_line_is_drawn_anew(rt: HostRuntime) {
    let mut editor = Editor::new(rt.alloc());
    for key in b"abc\x1b[D" {
        let _ = editor.take(*key);
    }
    let drawing = editor.drawing(3);
    let text = format!(in rt.alloc(); "{drawing}").expect(&rt, "memory");
    assert!(&rt; text.as_str() == "\x08\x08\x08abc\x1b[K\x08", "a drawing");
    assert!(&rt; editor.column() == 2, "the column");
}
